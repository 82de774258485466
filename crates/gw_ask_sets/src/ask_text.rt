//! One ask as a text: what it has for each of its fields.
ghost use Rattle.std.specs.Prelude.{◌≡◌, ◌++◌, Some, OnOk};
ghost use Rattle.std.specs.List.{flat_map};
ghost use Rattle.gw_audit.specs.Line.{operation_text};
ghost use Rattle.gw_ask_sets.specs.AskText.{address_of, ask_fields_text, is_shown, item_text, station_text, value_text};

use gw_addr::{BipAddr, put_decimal};
use gw_audit::{KEYS, operation_named, put_key};
use gw_rules::{Ask, FieldName};
use std::alloc::AllocError;

/// What is written for a field that the ask doesn't have.
const ABSENT: &[u8] = b"-";

/// Appends what an ask has, ` <key>=<value>` for each of its twelve fields, or for ten where it has no sender, as those of
/// formats 1 and 2. An `Err` if there is no memory.
pub fn put_ask(out: &mut Vec<u8>, ask: &Ask) -> Result<(), AllocError>
    ensures { OnOk result (out.new.items ≡ out.old.items ++ ask_fields_text ask.now) }
{
    put_items(out, ask, &FieldName::ALL)
}

/// Appends what an ask has for these fields, each by its key in a configuration.
fn put_items(out: &mut Vec<u8>, ask: &Ask, fields: &[FieldName]) -> Result<(), AllocError>
    ensures { OnOk result
        (out.new.items ≡ out.old.items ++ flat_map (item_text ask.now) fields.now) }
{
    for field in fields {
        put_item(out, ask, *field)?;
    }
    Ok(())
}

fn put_item(out: &mut Vec<u8>, ask: &Ask, field: FieldName) -> Result<(), AllocError>
    ensures { OnOk result (out.new.items ≡ out.old.items ++ item_text ask.now field) }
{
    if !is_shown(ask, field) {
        return Ok(());
    }
    out.push(b' ')?;
    out.extend_from_slice(field.key().as_bytes())?;
    out.push(b'=')?;
    put_value(out, field, *ask.get(field))
}

/// Whether the ask can have the field: without a sender it is one of formats 1 and 2, which have neither
/// sender nor station.
fn is_shown(ask: &Ask, field: FieldName) -> bool
    ensures { result ≡ is_shown ask.now field }
{
    match field {
        FieldName::Sender | FieldName::Station => ask.sender.is_some(),
        _ => true,
    }
}

/// Appends what an ask has for a field: an operation by its name, the key of a station as an address, else
/// a number.
fn put_value(out: &mut Vec<u8>, field: FieldName, value: Option<u64>) -> Result<(), AllocError>
    ensures { OnOk result (out.new.items ≡ out.old.items ++ value_text field value) }
{
    let Some(number) = value else {
        return out.extend_from_slice(ABSENT);
    };
    match field {
        FieldName::Operation => put_operation(out, number),
        FieldName::SourceKey | FieldName::Sender | FieldName::Station => put_station(out, number),
        _ => put_decimal(out, number),
    }
}

/// Appends the name of an operation by its number, or that number where no operation has it.
fn put_operation(out: &mut Vec<u8>, number: u64) -> Result<(), AllocError>
    ensures { OnOk result (out.new.items ≡ out.old.items ++ operation_text (Some number)) }
{
    match operation_named(number, true) {
        Some(operation) => out.extend_from_slice(operation.name().as_bytes()),
        None => put_decimal(out, number),
    }
}

/// Appends a station by its key: one of six octets as an address, another one by its octets. An `Err` if there is no memory.
pub fn put_station(out: &mut Vec<u8>, key: u64) -> Result<(), AllocError>
    ensures { OnOk result (out.new.items ≡ out.old.items ++ station_text key) }
{
    if KEYS <= key {
        out.extend_from_slice(b"mac:")?;
        return put_key(out, key);
    }
    address_of(key).put_text(out)
}

/// The address of a station of six octets by its key (Annex J.1.2).
pub fn address_of(key: u64) -> BipAddr
    ensures { result ≡ address_of key }
{
    let [_, _, a, b, c, d, high, low] = key.to_be_bytes();
    BipAddr::from_octets(&[a, b, c, d, high, low])
}
