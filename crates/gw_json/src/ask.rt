//! The twelve fields of an ask.

ghost use Rattle.std.specs.Prelude.{◌≡◌, string_bytes, IfOk};
ghost use Rattle.gw_audit.specs.Line.{key_octets};
ghost use Rattle.gw_json.specs.Ask.{ask_members, key_or_null, key_value, named_value, operation_value, station_of, station_value};
ghost use Rattle.gw_json.specs.Ask.{station_word};
ghost use Rattle.gw_json.specs.internal.View.{members_view, value_view};

use crate::value::{Member, Value, number_value};
use gw_addr::{Mac, bip_from_slice};
use gw_audit::{ShownAsk, operation_named};
use std::alloc::{AllocError, Global};

/// The fields under the keys that a rule has for them.
pub(crate) fn ask_members(alloc: Global, ask: &ShownAsk) -> Result<Vec<Member>, AllocError>
    ensures { IfOk result (λ members. members_view members.items ≡ ask_members ask.now) }
{
    let source = station_value(alloc, &ask.source.mac)?;
    let sender = key_or_null(alloc, ask.sender())?;
    let station = key_or_null(alloc, station_of(ask))?;
    Ok(vec![in alloc;
        ("port", Value::Number(u64::from(ask.port))),
        (
            "source_network",
            Value::Number(u64::from(ask.source.net.get()))
        ),
        ("source", source),
        (
            "operation",
            operation_value(ask.operation, ask.stations.is_some())
        ),
        ("destination", number_value(ask.destination_network)),
        ("service", number_value(ask.service)),
        ("object_type", number_value(ask.object_type)),
        ("instance", number_value(ask.instance)),
        ("property", number_value(ask.property)),
        ("priority", number_value(ask.priority)),
        ("sender", sender),
        ("station", station),
    ]?)
}

fn station_of(ask: &ShownAsk) -> Option<u64>
    ensures { result ≡ station_of ask.now }
{
    ask.stations.and_then(|stations| stations.station)
}

/// An operation by its name, or by its number if a line of the log has no name for it.
pub(crate) fn operation_value(operation: Option<u64>, has_sender: bool) -> Value
    ensures { value_view result ≡ operation_value has_sender operation }
{
    match operation {
        Some(number) => named_value(number, has_sender),
        None => Value::Null,
    }
}

fn named_value(number: u64, has_sender: bool) -> Value
    ensures { value_view result ≡ named_value has_sender number }
{
    match operation_named(number, has_sender) {
        Some(operation) => Value::Word(operation.name()),
        None => Value::Number(number),
    }
}

/// A station by its key, or null if there is none.
pub(crate) fn key_or_null(alloc: Global, key: Option<u64>) -> Result<Value, AllocError>
    ensures { IfOk result (λ value. value_view value ≡ key_or_null key) }
{
    match key {
        Some(key) => key_value(alloc, key),
        None => Ok(Value::Null),
    }
}

/// A station by its key.
pub(crate) fn key_value(alloc: Global, key: u64) -> Result<Value, AllocError>
    ensures { IfOk result (λ value. value_view value ≡ key_value key) }
{
    station_value(alloc, &station_of_key(key))
}

fn station_value(alloc: Global, mac: &Mac) -> Result<Value, AllocError>
    ensures { IfOk result (λ value. value_view value ≡ station_value mac.now) }
{
    Ok(Value::Text(station_word(alloc, mac)?))
}

/// A station: six octets as an address of BACnet/IP, others as hexadecimal digits.
fn station_word(alloc: Global, mac: &Mac) -> Result<String, AllocError>
    ensures { IfOk result (λ word. string_bytes word ≡ station_word mac.now) }
{
    match bip_from_slice(mac.as_slice()) {
        Ok(address) => address.to_string(alloc),
        Err(_) => mac.to_string(alloc),
    }
}

/// The station of a key, or the eight octets of a number that no station has.
fn station_of_key(key: u64) -> Mac
    ensures { result ≡ key_octets key }
{
    if let Some(mac) = Mac::of_key(key) {
        return mac;
    }
    let octets = key.to_be_bytes();
    match Mac::new(&octets) {
        Some(mac) => mac,
        None => Mac::of_six([0; 6]),
    }
}
