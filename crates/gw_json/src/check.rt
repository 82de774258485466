//! What `check` says of a configuration, as a JSON object.

ghost use Rattle.std.specs.Prelude.{◌≡◌, decimal, option_map, IfOk};
ghost use Rattle.std.specs.Option.{option_map_or};
ghost use Rattle.json.specs.Json.{null, number, string};
ghost use Rattle.gw_json.specs.Check.{asserts_members, checked_value, device_value, fault_row, fault_value, format_number, manager_value};
ghost use Rattle.gw_json.specs.Check.{managers_value, networks_value, policy_members, way_members};
ghost use Rattle.gw_addr.specs.Address.{text_of};
ghost use Rattle.gw_json.specs.Document.{IsLinePut, object_of};
ghost use Rattle.gw_json.specs.internal.View.{members_view, value_view};

use crate::value::{Member, Value, count_value, joined, push_value, put_object, text_value};
use gw_addr::BipAddr;
use gw_configuration::{Config, ConfigFault, Device, Format, Port};
use std::alloc::{AllocError, Global};

/// Appends the line of a configuration: its format, its device, the networks of its ports, how many ports, objects,
/// tables of rules and routes it has, the broadcast managers beside its ports, whether it announces networks, and how many
/// assertions it has, if any. An `Err` only if memory was refused; the buffer then holds what it held.
///
/// ```text
/// {"valid":true,"format":3,"device":{"network":100,"instance":1000,"name":"gateway"},"ports":2,"networks":[1,2],"objects":4,"rules":7,"routes":0,"bbmd":[null,null],"announce":false}
/// ```
pub fn put_check(alloc: Global, out: &mut Vec<u8>, config: &Config) -> Result<(), AllocError>
    ensures { IsLinePut (checked_value config.now) out.old.items out.new.items result }
{
    let members = joined(way_members(alloc, config)?, policy_members(alloc, config)?)?;
    let asserts = asserts_members(alloc, config.assertions().len())?;
    put_object(alloc, out, joined(members, asserts)?)
}

/// How many assertions there are, if there are any.
fn asserts_members(alloc: Global, count: usize) -> Result<Vec<Member>, AllocError>
    ensures { IfOk result (λ members. members_view members.items ≡ asserts_members count) }
{
    if count == 0 {
        Ok(Vec::new(alloc))
    } else {
        Ok(vec![in alloc; ("asserts", count_value(count))]?)
    }
}

/// Appends the line of a fault: its number, its name, and the line that says where it is, or null. An `Err` only if memory
/// was refused; the buffer then holds what it held.
///
/// ```text
/// {"valid":false,"number":3,"fault":"Missing","explanation":"device: name: it is missing"}
/// ```
pub fn put_fault(
    alloc: Global,
    out: &mut Vec<u8>,
    fault: ConfigFault,
    explanation: Option<&str>,
) -> Result<(), AllocError>
    ensures { IsLinePut (fault_value fault (option_map (λ line. line.now) explanation.entry))
        out.old.items out.new.items result }
{
    let members = fault_members(alloc, fault, explanation)?;
    put_object(alloc, out, members)
}

fn fault_members(
    alloc: Global,
    fault: ConfigFault,
    explanation: Option<&str>,
) -> Result<Vec<Member>, AllocError>
    ensures { IfOk result (λ members. object_of (members_view members.items)
        ≡ fault_value fault (option_map (λ line. line.now) explanation.entry)) }
{
    let (number, name) = fault_row(fault);
    let explanation = line_value(alloc, explanation)?;
    Ok(vec![in alloc;
        ("valid", Value::Boolean(false)),
        ("number", Value::Number(number)),
        ("fault", Value::Word(name)),
        ("explanation", explanation),
    ]?)
}

fn way_members(alloc: Global, config: &Config) -> Result<Vec<Member>, AllocError>
    ensures { IfOk result (λ members. members_view members.items ≡ way_members config.now) }
{
    let device = device_value(alloc, config.device())?;
    let networks = networks_value(alloc, config.ports())?;
    Ok(vec![in alloc;
        ("valid", Value::Boolean(true)),
        ("format", Value::Number(format_number(config.format()))),
        ("device", device),
        ("ports", count_value(config.ports().len())),
        ("networks", networks),
    ]?)
}

fn policy_members(alloc: Global, config: &Config) -> Result<Vec<Member>, AllocError>
    ensures { IfOk result (λ members. members_view members.items ≡ policy_members config.now) }
{
    let managers = managers_value(alloc, config.ports())?;
    Ok(vec![in alloc;
        ("objects", count_value(config.objects().len())),
        ("rules", Value::Number(u64::from(config.written_rules()))),
        ("routes", count_value(config.routes().len())),
        ("bbmd", managers),
        ("announce", Value::Boolean(config.announces())),
    ]?)
}

fn format_number(format: Format) -> u64
    ensures { result ≡ format_number format }
{
    match format {
        Format::One => 1,
        Format::Two => 2,
        Format::Three => 3,
    }
}

fn device_value(alloc: Global, device: &Device) -> Result<Value, AllocError>
    ensures { IfOk result (λ value. value_view value ≡ device_value device.now) }
{
    let name = text_value(alloc, device.name.as_str())?;
    Ok(Value::Object(vec![in alloc;
        ("network", Value::Number(u64::from(device.network.get()))),
        ("instance", Value::Number(u64::from(device.instance.get()))),
        ("name", name),
    ]?))
}

/// The networks of the ports, in order.
fn networks_value(alloc: Global, ports: &[Port]) -> Result<Value, AllocError>
    ensures { IfOk result (λ value. value_view value ≡ networks_value ports.now) }
{
    let mut networks = Vec::with_capacity(alloc, ports.len())?;
    for port in ports {
        push_value(&mut networks, network_value(port))?;
    }
    Ok(Value::Array(networks))
}

fn network_value(port: &Port) -> Value
    ensures { value_view result ≡ number (decimal port.now.network) }
{
    Value::Number(u64::from(port.network.get()))
}

/// The broadcast manager beside each port, in order, or null where the port is one itself.
fn managers_value(alloc: Global, ports: &[Port]) -> Result<Value, AllocError>
    ensures { IfOk result (λ value. value_view value ≡ managers_value ports.now) }
{
    let mut managers = Vec::with_capacity(alloc, ports.len())?;
    for port in ports {
        push_value(&mut managers, manager_value(alloc, port)?)?;
    }
    Ok(Value::Array(managers))
}

fn manager_value(alloc: Global, port: &Port) -> Result<Value, AllocError>
    ensures { IfOk result (λ value. value_view value ≡ manager_value port.now) }
{
    match port.bbmd {
        Some(manager) => address_value(alloc, manager),
        None => Ok(Value::Null),
    }
}

fn address_value(alloc: Global, address: BipAddr) -> Result<Value, AllocError>
    ensures { IfOk result (λ value. value_view value ≡ string (text_of address)) }
{
    let text = address.to_string(alloc)?;
    text_value(alloc, text.as_str())
}

/// A line, or null if there is none.
fn line_value(alloc: Global, line: Option<&str>) -> Result<Value, AllocError>
    ensures { IfOk result (λ value. value_view value
        ≡ option_map_or (λ line. string line) (option_map (λ line. line.now) line.entry) null) }
{
    match line {
        Some(line) => text_value(alloc, line),
        None => Ok(Value::Null),
    }
}

/// The number and the name of a fault.
fn fault_row(fault: ConfigFault) -> (u64, &'static str)
    ensures { (result.0, result.1.now) ≡ fault_row fault }
{
    match fault {
        ConfigFault::NotToml => (1, "NotToml"),
        ConfigFault::UnknownKey => (2, "UnknownKey"),
        ConfigFault::Missing => (3, "Missing"),
        ConfigFault::Kind => (4, "Kind"),
        ConfigFault::Range => (5, "Range"),
        ConfigFault::Duplicate => (6, "Duplicate"),
        ConfigFault::TooMany => (7, "TooMany"),
        ConfigFault::Memory => (8, "Memory"),
    }
}
