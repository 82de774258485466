//! The place of a fault in words.
ghost use Rattle.std.specs.Prelude.{◌≡◌, ◌++◌, OnOk, option_map};
ghost use Rattle.toml.specs.View.{table_view};
ghost use Rattle.gw_policy_text.specs.faults.Place.{item_part, key_part, line_words, listed_table, name_at, name_words, place_words_at, table_at, table_part, table_words};
ghost use Rattle.gw_configuration.specs.Located.{numbered};
ghost use Rattle.gw_configuration.specs.Located.{located_view};

use crate::keys::value::{member, string};
use gw_addr::put_decimal;
use gw_configuration::{Located, Place};
use std::alloc::AllocError;
use toml::Table;

/// Puts the table, by its name and the line on which it begins too, the key and the item. `AllocError` where memory was refused.
pub(crate) fn put_place(
    line: &mut Vec<u8>,
    located: &Located<'_>,
    top: &Table,
    begins: Option<u32>,
) -> Result<(), AllocError>
    ensures { let words = place_words_at begins (located_view located.now) (table_view top.now) in
        OnOk result (line.new.items ≡ line.old.items ++ words) }
{
    put_table(line, located.place, name_at(located.place, top), begins)?;
    put_key(line, located.key)?;
    put_item(line, located.item)
}

/// Puts the table, its name and the line on which it begins.
fn put_table(
    line: &mut Vec<u8>,
    place: Place,
    name: Option<&str>,
    begins: Option<u32>,
) -> Result<(), AllocError>
    ensures { let words = table_part place (option_map (λ n. n.now) name.entry) begins in
        OnOk result (line.new.items ≡ line.old.items ++ words) }
{
    if matches!(place, Place::Top) {
        return Ok(());
    }
    put_part(line, place)?;
    put_name(line, name)?;
    put_line(line, begins)?;
    line.extend_from_slice(b": ")
}

/// Puts a table, by its number where there are several.
pub(crate) fn put_part(line: &mut Vec<u8>, place: Place) -> Result<(), AllocError>
    ensures { OnOk result (line.new.items ≡ line.old.items ++ table_words place) }
{
    match place {
        Place::Text => line.extend_from_slice(b"the text"),
        Place::Top => Ok(()),
        Place::Device => line.extend_from_slice(b"device"),
        Place::Port(port) => put_numbered(line, "port ", port),
        Place::Peer { port, peer } => {
            put_numbered(line, "port ", port)?;
            put_numbered(line, ": peer ", peer)
        }
        Place::Route(route) => put_numbered(line, "route ", route),
        Place::Object(object) => put_numbered(line, "object ", object),
        Place::Set(set) => put_numbered(line, "set ", set),
        Place::Rule(rule) => put_numbered(line, "rule ", rule),
        Place::Assertion(assertion) => put_numbered(line, "assert ", assertion),
    }
}

/// Puts one of several, by its number from 1.
pub(crate) fn put_numbered(
    line: &mut Vec<u8>,
    word: &str,
    position: usize,
) -> Result<(), AllocError>
    ensures { OnOk result (line.new.items ≡ line.old.items ++ numbered word.now position) }
{
    line.extend_from_slice(word.as_bytes())?;
    put_decimal(line, position as u128 + 1)
}

fn put_name(line: &mut Vec<u8>, name: Option<&str>) -> Result<(), AllocError>
    ensures { let words = name_words (option_map (λ n. n.now) name.entry) in
        OnOk result (line.new.items ≡ line.old.items ++ words) }
{
    match name {
        Some(name) => {
            line.extend_from_slice(b" \"")?;
            line.extend_from_slice(name.as_bytes())?;
            line.extend_from_slice(b"\"")
        }
        None => Ok(()),
    }
}

fn put_line(line: &mut Vec<u8>, begins: Option<u32>) -> Result<(), AllocError>
    ensures { OnOk result (line.new.items ≡ line.old.items ++ line_words begins) }
{
    match begins {
        Some(number) => {
            line.extend_from_slice(b" (line ")?;
            put_decimal(line, u128::from(number))?;
            line.extend_from_slice(b")")
        }
        None => Ok(()),
    }
}

fn put_key(line: &mut Vec<u8>, key: &str) -> Result<(), AllocError>
    ensures { OnOk result (line.new.items ≡ line.old.items ++ key_part key.now) }
{
    if key.is_empty() {
        return Ok(());
    }
    line.extend_from_slice(key.as_bytes())?;
    line.extend_from_slice(b": ")
}

fn put_item(line: &mut Vec<u8>, item: Option<usize>) -> Result<(), AllocError>
    ensures { OnOk result (line.new.items ≡ line.old.items ++ item_part item) }
{
    match item {
        Some(item) => {
            put_numbered(line, "item ", item)?;
            line.extend_from_slice(b": ")
        }
        None => Ok(()),
    }
}

/// The name of an object, a set, a rule or an assertion, where it is a text.
fn name_at(place: Place, top: &Table) -> Option<&str>
    ensures { option_map (λ n. n.now) result ≡ name_at place (table_view top.now) }
{
    match place {
        Place::Object(_) | Place::Set(_) | Place::Rule(_) | Place::Assertion(_) => string(member(
            table_at(place, top)?,
            "name",
        )?),
        _ => None,
    }
}

/// The table at a place.
pub(crate) fn table_at(place: Place, top: &Table) -> Option<&Table>
    ensures { option_map (λ t. table_view t.now) result ≡ table_at place (table_view top.now) }
{
    match place {
        Place::Text => None,
        Place::Top => Some(top),
        Place::Device => member(top, "device")?.as_table(),
        Place::Port(port) => table_in(top, "port", port),
        Place::Peer { port, peer } => table_in(table_in(top, "port", port)?, "peer", peer),
        Place::Route(route) => table_in(top, "route", route),
        Place::Object(object) => table_in(top, "object", object),
        Place::Set(set) => table_in(top, "set", set),
        Place::Rule(rule) => table_in(top, "rule", rule),
        Place::Assertion(assertion) => table_in(top, "assert", assertion),
    }
}

/// The table at this position of the list at a key.
fn table_in<'a>(table: &'a Table, key: &str, position: usize) -> Option<&'a Table>
    ensures { option_map (λ t. table_view t.now) result ≡ listed_table key.now position (table_view table.now) }
{
    member(table, key)?.get(position)?.as_table()
}
