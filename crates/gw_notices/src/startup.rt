//! What `run --verbose` reports at the start: one line on what is served.

ghost use Rattle.std.specs.Prelude.{◌≡◌, ◌++◌, ◌≤◌, length, option_map, string_bytes, IfOk, OnOk};
ghost use Rattle.gw_addr.specs.Address.{text_of};
ghost use Rattle.gw_addr.specs.declared.TheConstants.{MAX_PORTS};
ghost use Rattle.gw_notices.specs.Startup.{device_text, log_text, objects_text, port_text, rules_text, serving_line, startup_line};
ghost use Rattle.gw_script.specs.Order.{in_order};
ghost use Rattle.gw_notices.specs.Startup.{IsWarning, routing_note};

use gw_addr::{BipAddr, put_decimal, put_text_number};
use gw_configuration::{Config, Device, Port, put_shown};
use gw_system::Host;
use std::alloc::{AllocError, Global};

/// The line that says what is served, with the log in the file of this name or on standard output.
fn serving_line(alloc: Global, config: &Config, log: &Option<String>) -> Result<Vec<u8>, AllocError>
    ensures { let log = option_map string_bytes log.now in
        IfOk result (λ line. line.items ≡ serving_line config.now log) }
{
    let mut line = Vec::from_slice(alloc, b"bacgw: serving ")?;
    put_ports(&mut line, config.ports())?;
    put_device(&mut line, config.device())?;
    put_objects(&mut line, config)?;
    put_rules(&mut line, config)?;
    put_log(&mut line, log)?;
    line.push(b'\n')?;
    Ok(line)
}

/// What is reported at the start: what is served, where that is asked for, and else nothing. An `Err`
/// only where a growth of memory was refused.
pub fn startup_line(
    alloc: Global,
    config: &Config,
    log: &Option<String>,
    is_asked: bool,
) -> Result<Vec<u8>, AllocError>
    ensures { let log = option_map string_bytes log.now in
        IfOk result (λ said. said.items ≡ startup_line is_asked config.now log) }
{
    if is_asked {
        serving_line(alloc, config, log)
    } else {
        Ok(Vec::new(alloc))
    }
}

/// What is written of a machine that routes IP from one interface to another, past the gateway.
const ROUTES_IP: &str =
    "bacgw: net.ipv4.ip_forward isn't 0: hosts reach the other subnets past the gateway\n";

/// What is written of a machine, by whether it routes IP.
fn routing_note(routes: bool) -> &'static [u8]
    ensures { result.now ≡ routing_note routes }
{
    if routes { ROUTES_IP.as_bytes() } else { b"" }
}

/// What is written of a machine at the start: that it routes IP past the gateway, if more is asked for.
pub fn warning_of<H: Host>(host: &H, is_asked: bool) -> &'static [u8]
    ensures { IsWarning (H.offers host.now).RoutesIp is_asked result.now }
{
    if is_asked {
        routing_note(host.routes_ip())
    } else {
        b""
    }
}

/// Appends a port and its addresses.
fn put_port(out: &mut Vec<u8>, number: usize, port: &Port) -> Result<(), AllocError>
    ensures { OnOk result (out.new.items ≡ out.old.items ++ port_text number port.now) }
{
    put_text_number(out, "port ", number)?;
    put_address(out, " at ", port.address)?;
    put_address(out, ", broadcast ", port.broadcast)?;
    out.extend_from_slice(b"; ")
}

/// Appends a text and an address after it.
fn put_address(out: &mut Vec<u8>, text: &str, address: BipAddr) -> Result<(), AllocError>
    ensures { OnOk result (out.new.items ≡ out.old.items ++ text.now ++ text_of address) }
{
    out.extend_from_slice(text.as_bytes())?;
    address.put_text(out)
}

/// Appends the ports in order.
fn put_ports(out: &mut Vec<u8>, ports: &[Port]) -> Result<(), AllocError>
    requires { length ports.now ≤ MAX_PORTS }
    ensures { OnOk result (out.new.items ≡ out.old.items ++ in_order port_text 1 ports.now) }
{
    for place in 0..ports.len() {
        put_port(out, place + 1, &ports[place])?;
    }
    Ok(())
}

/// Appends the device and its network.
fn put_device(out: &mut Vec<u8>, device: &Device) -> Result<(), AllocError>
    ensures { OnOk result (out.new.items ≡ out.old.items ++ device_text device.now) }
{
    put_text_number(out, "device ", device.instance.get())?;
    put_text_number(out, " on network ", device.network.get())
}

/// Appends how many objects there are.
fn put_objects(out: &mut Vec<u8>, config: &Config) -> Result<(), AllocError>
    ensures { OnOk result (out.new.items ≡ out.old.items ++ objects_text config.now) }
{
    put_text_number(out, " with ", config.objects().len())?;
    out.extend_from_slice(b" objects; ")
}

/// Appends how many rules there are.
fn put_rules(out: &mut Vec<u8>, config: &Config) -> Result<(), AllocError>
    ensures { OnOk result (out.new.items ≡ out.old.items ++ rules_text config.now) }
{
    put_decimal(out, config.rules().rules().len())?;
    out.extend_from_slice(b" rules; log to ")
}

/// Appends where the log goes.
fn put_log(out: &mut Vec<u8>, log: &Option<String>) -> Result<(), AllocError>
    ensures { let log = option_map string_bytes log.now in
        OnOk result (out.new.items ≡ out.old.items ++ log_text log) }
{
    match log {
        Some(name) => put_shown(out, name.as_bytes()),
        None => out.extend_from_slice(b"standard output"),
    }
}
