//! The rules of a configuration, as they are written in format 3.
ghost use Rattle.std.specs.Prelude.{◌≡◌, ◌++◌, option_map, OnOk};
ghost use Rattle.std.specs.List.{flat_map};
ghost use Rattle.gw_policy_drafts.specs.migration.Items.{addresses_text, are_hosts, field_line, field_text, hosts_text, item_text};
ghost use Rattle.gw_policy_drafts.specs.migration.Items.{items_text, name_of, next_item, numbers_text, operation_text, plain_text};
ghost use Rattle.gw_policy_drafts.specs.migration.Items.{quoted_host, quoted_station, quoted_subnet, two_hosts, two_stations, value_text};

use crate::migration::advice::put_rule_note;
use crate::migration::lines::{put_quoted, put_text};
use crate::migration::subnets::{put_host, put_subnet, whole_prefix};
use gw_addr::put_decimal;
use gw_ask_sets::ask_text::put_station;
use gw_audit::{KEYS, operation_named};
use gw_codecs::names::{object_type_name, property_name, service_name};
use gw_configuration::Config;
use gw_rules::{FieldName, Range, Rule};
use std::alloc::AllocError;

/// How many UDP ports there are.
const PORTS: u64 = 65536;

/// Appends the tables of the rules.
pub(crate) fn put_rules(out: &mut Vec<u8>, config: &Config) -> Result<(), AllocError> {
    for rule in config.rules().rules() {
        put_rule(out, config, rule)?;
    }
    Ok(())
}

fn put_rule(out: &mut Vec<u8>, config: &Config, rule: &Rule) -> Result<(), AllocError> {
    out.extend_from_slice(b"\n[[rule]]\n")?;
    put_rule_note(out, config, rule)?;
    put_text(out, "name", rule.name.as_str())?;
    out.extend_from_slice(if rule.allow {
        b"allow = true\n"
    } else {
        b"allow = false\n"
    })?;
    for field in FieldName::ALL {
        put_field(out, field, rule.ranges(field).as_slice())?;
    }
    Ok(())
}

/// Appends a line with the items for a field that a rule names, as format 3 writes them; for another field
/// nothing. An `Err` if there is no memory.
pub fn put_field(out: &mut Vec<u8>, field: FieldName, ranges: &[Range]) -> Result<(), AllocError>
    ensures { OnOk result (out.new.items ≡ out.old.items ++ field_line field ranges.now) }
{
    if ranges.is_empty() {
        return Ok(());
    }
    put_field_items(out, field, ranges)?;
    out.push(b'\n')?;
    Ok(())
}

/// Appends a field and the items for it, as format 3 writes them, without the end of the line. An `Err` if there is no memory.
#[tactic(auto, unfolding(crate::specs::migration::Items::field_text))]
pub fn put_field_items(
    out: &mut Vec<u8>,
    field: FieldName,
    ranges: &[Range],
) -> Result<(), AllocError>
    ensures { OnOk result (out.new.items ≡ out.old.items ++ field_text field ranges.now) }
{
    out.extend_from_slice(field.key().as_bytes())?;
    out.extend_from_slice(b" = [")?;
    put_items(out, field, ranges)?;
    out.push(b']')?;
    Ok(())
}

#[tactic(auto, unfolding(crate::specs::migration::Items::items_text))]
fn put_items(out: &mut Vec<u8>, field: FieldName, ranges: &[Range]) -> Result<(), AllocError>
    ensures { OnOk result (out.new.items ≡ out.old.items ++ items_text field ranges.now) }
{
    let Some((first, rest)) = ranges.split_first() else {
        return Ok(());
    };
    put_item(out, field, *first)?;
    put_more_items(out, field, rest)
}

fn put_more_items(out: &mut Vec<u8>, field: FieldName, ranges: &[Range]) -> Result<(), AllocError>
    ensures { OnOk result (out.new.items ≡ out.old.items ++ flat_map (next_item field) ranges.now) }
{
    for range in ranges {
        put_next_item(out, field, *range)?;
    }
    Ok(())
}

fn put_next_item(out: &mut Vec<u8>, field: FieldName, range: Range) -> Result<(), AllocError>
    ensures { OnOk result (out.new.items ≡ out.old.items ++ next_item field range) }
{
    out.extend_from_slice(b", ")?;
    put_item(out, field, range)
}

/// Appends the item of a range, by a name where its one number has one.
#[tactic(auto, unfolding(crate::specs::migration::Items::item_text))]
fn put_item(out: &mut Vec<u8>, field: FieldName, range: Range) -> Result<(), AllocError>
    ensures { OnOk result (out.new.items ≡ out.old.items ++ item_text field range) }
{
    match field {
        FieldName::Operation => put_operation(out, range.low),
        FieldName::SourceKey | FieldName::Sender | FieldName::Station => {
            put_addresses(out, range.low, range.high)
        }
        _ => put_plain(out, field, range.low, range.high),
    }
}

fn put_plain(out: &mut Vec<u8>, field: FieldName, low: u64, high: u64) -> Result<(), AllocError>
    ensures { OnOk result (out.new.items ≡ out.old.items ++ plain_text field low high) }
{
    if low == high {
        put_value(out, field, low)
    } else {
        put_numbers(out, low, high)
    }
}

/// Appends the name of an operation, in quotes, or its number if it has none. An `Err` if there is no memory.
pub fn put_operation(out: &mut Vec<u8>, number: u64) -> Result<(), AllocError>
    ensures { OnOk result (out.new.items ≡ out.old.items ++ operation_text number) }
{
    match operation_named(number, true) {
        Some(operation) => put_quoted(out, operation.name()),
        None => put_decimal(out, number),
    }
}

fn put_value(out: &mut Vec<u8>, field: FieldName, number: u64) -> Result<(), AllocError>
    ensures { OnOk result (out.new.items ≡ out.old.items ++ value_text field number) }
{
    match name_of(field, number) {
        Some(name) => put_quoted(out, name),
        None => put_decimal(out, number),
    }
}

/// The standard's name of a value, where the table of its field has one.
fn name_of(field: FieldName, number: u64) -> Option<&'static str>
    ensures { option_map (λ name. name.now) result ≡ name_of field number }
{
    match field {
        FieldName::Service => service_name(number),
        FieldName::ObjectType => object_type_name(number),
        FieldName::Property => property_name(number),
        _ => None,
    }
}

fn put_numbers(out: &mut Vec<u8>, low: u64, high: u64) -> Result<(), AllocError>
    ensures { OnOk result (out.new.items ≡ out.old.items ++ numbers_text low high) }
{
    out.push(b'[')?;
    put_decimal(out, low)?;
    out.extend_from_slice(b", ")?;
    put_decimal(out, high)?;
    out.push(b']')?;
    Ok(())
}

/// Appends a range of addresses: of every UDP port as an address or a subnet where it is one.
fn put_addresses(out: &mut Vec<u8>, low: u64, high: u64) -> Result<(), AllocError>
    ensures { OnOk result (out.new.items ≡ out.old.items ++ addresses_text low high) }
{
    if low == high {
        put_quoted_station(out, low)
    } else if are_hosts(low, high) {
        put_hosts(out, low / PORTS, high / PORTS)
    } else {
        put_two_stations(out, low, high)
    }
}

/// Whether these are stations of six octets, of every UDP port.
fn are_hosts(low: u64, high: u64) -> bool
    ensures { result ≡ are_hosts low high }
{
    high < KEYS && low % PORTS == 0 && high % PORTS == PORTS - 1
}

fn put_two_stations(out: &mut Vec<u8>, low: u64, high: u64) -> Result<(), AllocError>
    ensures { OnOk result (out.new.items ≡ out.old.items ++ two_stations low high) }
{
    out.push(b'[')?;
    put_quoted_station(out, low)?;
    out.extend_from_slice(b", ")?;
    put_quoted_station(out, high)?;
    out.push(b']')?;
    Ok(())
}

/// Appends the station with this key, in quotes: its address and its UDP port, or its octets if it hasn't six of them. An
/// `Err` if there is no memory.
#[tactic(auto, unfolding(crate::specs::migration::Items::quoted_station))]
pub fn put_quoted_station(out: &mut Vec<u8>, key: u64) -> Result<(), AllocError>
    ensures { OnOk result (out.new.items ≡ out.old.items ++ quoted_station key) }
{
    out.push(b'"')?;
    put_station(out, key)?;
    out.push(b'"')?;
    Ok(())
}

/// Appends the IPv4 addresses from one to another.
fn put_hosts(out: &mut Vec<u8>, first: u64, last: u64) -> Result<(), AllocError>
    ensures { OnOk result (out.new.items ≡ out.old.items ++ hosts_text first last) }
{
    if first == last {
        return put_quoted_host(out, first);
    }
    match whole_prefix(first, last) {
        Some(prefix) => put_quoted_subnet(out, first, prefix),
        None => put_two_hosts(out, first, last),
    }
}

fn put_quoted_subnet(out: &mut Vec<u8>, first: u64, prefix: u8) -> Result<(), AllocError>
    ensures { OnOk result (out.new.items ≡ out.old.items ++ quoted_subnet first prefix) }
{
    out.push(b'"')?;
    put_subnet(out, first, prefix)?;
    out.push(b'"')?;
    Ok(())
}

fn put_two_hosts(out: &mut Vec<u8>, first: u64, last: u64) -> Result<(), AllocError>
    ensures { OnOk result (out.new.items ≡ out.old.items ++ two_hosts first last) }
{
    out.push(b'[')?;
    put_quoted_host(out, first)?;
    out.extend_from_slice(b", ")?;
    put_quoted_host(out, last)?;
    out.push(b']')?;
    Ok(())
}

fn put_quoted_host(out: &mut Vec<u8>, host: u64) -> Result<(), AllocError>
    ensures { OnOk result (out.new.items ≡ out.old.items ++ quoted_host host) }
{
    out.push(b'"')?;
    put_host(out, host)?;
    out.push(b'"')?;
    Ok(())
}
