//! Words that the lines have in common.
ghost use Rattle.std.specs.Prelude.{◌≡◌, ◌<◌, ◌++◌, ◌==◌, if◌then◌else◌, option_map, OnOk};
ghost use Rattle.std.specs.List.{flat_map};
ghost use Rattle.gw_addr.specs.Station.{digit_of, two_digits};
ghost use Rattle.gw_state_words.specs.Words.{absence_words, active_words, counted, devices_words, identifier_words, is_plain};
ghost use Rattle.gw_state_words.specs.Words.{numbered_words, object_words, peers_words, port_words, quoted, shown, tables_words};
ghost use Rattle.gw_state_words.specs.Words.{type_words, value_words};

use crate::takeover::{Absence, ObjectName, PortName, Sizes};
use gw_addr::put_decimal;
use gw_codecs::names::object_type_name;
use gw_objects::PropertyValue;
use std::alloc::AllocError;

/// Appends a number of things, by the word for one of them and the word for any other number.
pub(crate) fn put_counted(
    out: &mut Vec<u8>,
    number: u64,
    one: &str,
    many: &str,
) -> Result<(), AllocError>
    ensures { OnOk result (out.new.items ≡ out.old.items ++ counted number one.now many.now) }
{
    put_decimal(out, number)?;
    out.extend_from_slice(word_for(number, one, many).as_bytes())
}

fn word_for<'a>(number: u64, one: &'a str, many: &'a str) -> &'a str
    ensures { result.now ≡ (if number == 1 then one.now else many.now) }
{
    if number == 1 { one } else { many }
}

// ---- values

/// Appends a text, in which each octet that isn't a plain one of printable ASCII is escaped.
fn put_shown(out: &mut Vec<u8>, text: &[u8]) -> Result<(), AllocError>
    ensures { OnOk result (out.new.items ≡ out.old.items ++ flat_map shown text.now) }
{
    for octet in text {
        put_octet(out, *octet)?;
    }
    Ok(())
}

fn put_octet(out: &mut Vec<u8>, octet: u8) -> Result<(), AllocError>
    ensures { OnOk result (out.new.items ≡ out.old.items ++ shown octet) }
{
    if is_plain(octet) {
        out.push(octet)?;
        return Ok(());
    }
    out.extend_from_slice(b"\\x")?;
    put_digits(out, octet)
}

/// Whether an octet is shown as it is.
fn is_plain(octet: u8) -> bool
    ensures { result ≡ is_plain octet }
{
    32 <= octet && octet <= 126 && octet != b'"' && octet != b'\\'
}

/// Appends the two hexadecimal digits of an octet.
fn put_digits(out: &mut Vec<u8>, octet: u8) -> Result<(), AllocError>
    ensures { OnOk result (out.new.items ≡ out.old.items ++ two_digits octet) }
{
    out.push(digit_of(octet / 16))?;
    out.push(digit_of(octet % 16))?;
    Ok(())
}

fn digit_of(number: u8) -> u8
    requires { number < 16 }
    ensures { result ≡ digit_of number }
{
    if number < 10 {
        48 + number
    } else {
        55 + number
    }
}

/// Appends a value.
pub(crate) fn put_value(out: &mut Vec<u8>, value: &PropertyValue) -> Result<(), AllocError>
    ensures { OnOk result (out.new.items ≡ out.old.items ++ value_words value.now) }
{
    match value {
        PropertyValue::Binary(active) => put_active(out, *active),
        PropertyValue::State(number) => put_decimal(out, *number),
        PropertyValue::Text(text) => put_quoted(out, text.as_str()),
        PropertyValue::Integer(number) => put_decimal(out, *number),
        PropertyValue::PositiveInteger(number) => put_decimal(out, *number),
    }
}

fn put_active(out: &mut Vec<u8>, active: bool) -> Result<(), AllocError>
    ensures { OnOk result (out.new.items ≡ out.old.items ++ active_words active) }
{
    if active {
        out.extend_from_slice(b"active")
    } else {
        out.extend_from_slice(b"inactive")
    }
}

fn put_quoted(out: &mut Vec<u8>, text: &str) -> Result<(), AllocError>
    ensures { OnOk result (out.new.items ≡ out.old.items ++ quoted text.now) }
{
    out.extend_from_slice(b"\"")?;
    put_shown(out, text.as_bytes())?;
    out.extend_from_slice(b"\"")
}

// ---- ports

/// Appends a port by its network and its own address.
pub(crate) fn put_port(out: &mut Vec<u8>, port: PortName) -> Result<(), AllocError>
    ensures { OnOk result (out.new.items ≡ out.old.items ++ port_words port) }
{
    out.extend_from_slice(b"network ")?;
    put_decimal(out, port.network)?;
    out.extend_from_slice(b", ")?;
    port.address.put_text(out)
}

/// Appends a port by its number, its network and its own address.
pub(crate) fn put_numbered(
    out: &mut Vec<u8>,
    number: usize,
    port: PortName,
) -> Result<(), AllocError>
    ensures { OnOk result (out.new.items ≡ out.old.items ++ numbered_words number port) }
{
    out.extend_from_slice(b"port ")?;
    put_decimal(out, number)?;
    out.extend_from_slice(b", ")?;
    put_port(out, port)
}

/// Appends how many peers a table has.
pub(crate) fn put_peers(out: &mut Vec<u8>, sizes: Sizes) -> Result<(), AllocError>
    ensures { OnOk result (out.new.items ≡ out.old.items ++ peers_words sizes) }
{
    out.extend_from_slice(b"table of ")?;
    put_counted(out, sizes.peers as u64, " peer", " peers")
}

/// Appends how many foreign devices are registered.
pub(crate) fn put_devices(out: &mut Vec<u8>, devices: usize) -> Result<(), AllocError>
    ensures { OnOk result (out.new.items ≡ out.old.items ++ devices_words devices) }
{
    put_counted(out, devices as u64, " foreign device", " foreign devices")
}

/// Appends how much is in both tables.
pub(crate) fn put_tables(out: &mut Vec<u8>, sizes: Sizes) -> Result<(), AllocError>
    ensures { OnOk result (out.new.items ≡ out.old.items ++ tables_words sizes) }
{
    put_peers(out, sizes)?;
    out.extend_from_slice(b" and ")?;
    put_devices(out, sizes.devices)
}

/// Appends why nothing is taken over.
pub(crate) fn put_absence(out: &mut Vec<u8>, absence: Absence) -> Result<(), AllocError>
    ensures { OnOk result (out.new.items ≡ out.old.items ++ absence_words absence) }
{
    match absence {
        Absence::NotConfigured => out.extend_from_slice(b"not configured"),
        Absence::Twice => out.extend_from_slice(b"twice in the state"),
    }
}

// ---- objects

/// Appends an object by the number of its type and its instance.
pub(crate) fn put_identifier(out: &mut Vec<u8>, object: ObjectName) -> Result<(), AllocError>
    ensures { OnOk result (out.new.items ≡ out.old.items ++ identifier_words object) }
{
    put_decimal(out, object.kind)?;
    out.extend_from_slice(b",")?;
    put_decimal(out, object.instance)
}

/// Appends an object, with the standard's name of its type if it has one.
pub(crate) fn put_object(out: &mut Vec<u8>, object: ObjectName) -> Result<(), AllocError>
    ensures { OnOk result (out.new.items ≡ out.old.items ++ object_words object) }
{
    out.extend_from_slice(b"object ")?;
    put_identifier(out, object)?;
    put_type(out, object_type_name(u64::from(object.kind)))
}

fn put_type(out: &mut Vec<u8>, name: Option<&str>) -> Result<(), AllocError>
    ensures { OnOk result (out.new.items ≡
        out.old.items ++ type_words (option_map (λ n. n.now) name.entry)) }
{
    match name {
        Some(name) => {
            out.extend_from_slice(b" ")?;
            out.extend_from_slice(name.as_bytes())
        }
        None => Ok(()),
    }
}
