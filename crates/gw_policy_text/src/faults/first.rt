//! Where a value is first that is named twice.
ghost use Rattle.std.specs.Prelude.{◌≡◌, ◌++◌, option_map, position, OnOk};
ghost use Rattle.toml.specs.View.{table_view, view};
ghost use Rattle.gw_configuration.specs.Located.{located_view};
ghost use Rattle.gw_policy_text.specs.faults.First.{first_of, first_place, first_words, has, in_site, is_same, names_it, other_key, position_of};

use crate::faults::value::value_at;
use crate::faults::words::{put_part, table_at};
use crate::keys::value::{self, member, member_of};
use gw_configuration::{Located, Place};
use std::alloc::AllocError;
use toml::{Table, Value};

/// Whether two values are the same number or the same text.
fn is_same(one: &Value, other: &Value) -> bool
    ensures { result ≡ is_same (view one.now) (view other.now) }
{
    match (one, other) {
        (Value::Integer(one), Value::Integer(other)) => one == other,
        (Value::String(one), Value::String(other)) => one.as_str() == other.as_str(),
        _ => false,
    }
}

/// Whether a table has this value at a key.
fn has(table: &Value, key: &str, value: &Value) -> bool
    ensures { result ≡ has (view table.now) key.now (view value.now) }
{
    match member_of(table, key) {
        Some(own) => is_same(own, value),
        None => false,
    }
}

/// The other key whose values may not be those of this one.
fn other_key(key: &str) -> &str
    ensures { result.now ≡ other_key key.now }
{
    if key == "address" {
        return "broadcast";
    }
    if key == "broadcast" {
        return "address";
    }
    key
}

/// Whether a table has this value where it may be only once, an instance with its type.
fn names_it(table: &Value, key: &str, value: &Value, kind: Option<&Value>) -> bool
    ensures { result ≡ names_it key.now (view value.now) (option_map (λ v. view v.now) kind.entry) (view table.now) }
{
    let is_here = has(table, key, value) || has(table, other_key(key), value);
    match kind {
        Some(kind) => is_here && has(table, "type", kind),
        None => is_here,
    }
}

/// The first of these tables that has it.
fn first_with(tables: &[Value], key: &str, value: &Value, kind: Option<&Value>) -> Option<usize>
    ensures { let of = option_map (λ v. view v.now) kind.entry in
        result ≡ position (λ t. names_it key.now (view value.now) of (view t)) tables.now }
{
    tables
        .iter()
        .position(|table| names_it(table, key, value, kind))
}

/// The first table of a list that has it.
#[tactic(auto, using(crate::proofs::keys_lemmas::Values::position_view))]
fn position_of(
    list: Option<&Value>,
    key: &str,
    value: &Value,
    kind: Option<&Value>,
) -> Option<usize>
    ensures { let tables = option_map (λ v. view v.now) list.entry in
        result ≡ position_of tables key.now (view value.now) (option_map (λ v. view v.now) kind.entry) }
{
    match value::list(list?) {
        Ok(tables) => first_with(tables, key, value, kind),
        Err(_) => None,
    }
}

/// The first table among the ports, the device, the routes and the objects that has it.
fn in_site(top: &Table, key: &str, value: &Value, kind: Option<&Value>) -> Option<Place>
    ensures { result ≡ in_site (table_view top.now) key.now (view value.now) (option_map (λ v. view v.now) kind.entry) }
{
    if let Some(port) = position_of(member(top, "port"), key, value, kind) {
        return Some(Place::Port(port));
    }
    if let Some(device) = member(top, "device") {
        if names_it(device, key, value, kind) {
            return Some(Place::Device);
        }
    }
    if let Some(route) = position_of(member(top, "route"), key, value, kind) {
        return Some(Place::Route(route));
    }
    match position_of(member(top, "object"), key, value, kind) {
        Some(object) => Some(Place::Object(object)),
        None => None,
    }
}

/// The first table that has this value, of those of which only one may.
fn first_place(
    place: Place,
    top: &Table,
    key: &str,
    value: &Value,
    kind: Option<&Value>,
) -> Option<Place>
    ensures { result ≡ first_place place (table_view top.now) key.now (view value.now) (option_map (λ v. view v.now) kind.entry) }
{
    match place {
        Place::Peer { port, .. } => {
            let peers = member(table_at(Place::Port(port), top)?, "peer");
            let peer = position_of(peers, key, value, kind)?;
            Some(Place::Peer { port, peer })
        }
        Place::Set(_) => Some(Place::Set(position_of(member(top, "set"), key, value, kind)?)),
        Place::Rule(_) => Some(Place::Rule(position_of(member(top, "rule"), key, value, kind)?)),
        Place::Assertion(_) => Some(Place::Assertion(position_of(
            member(top, "assert"),
            key,
            value,
            kind,
        )?)),
        _ => in_site(top, key, value, kind),
    }
}

/// The same of the value where a fault is.
fn first_of(located: &Located<'_>, kind: Option<&Value>, top: &Table) -> Option<Place>
    ensures { result ≡ first_of (located_view located.now) (option_map (λ v. view v.now) kind.entry) (table_view top.now) }
{
    let value = value_at(located, top)?;
    first_place(located.place, top, located.key, value, kind)
}

/// Puts which table has first what is named twice, if one has it in the same words. `AllocError` where memory was refused.
pub(crate) fn put_first_place(
    line: &mut Vec<u8>,
    located: &Located<'_>,
    kind: Option<&Value>,
    top: &Table,
) -> Result<(), AllocError>
    ensures { let of = option_map (λ v. view v.now) kind.entry in
        let words = first_words (first_of (located_view located.now) of (table_view top.now)) in
        OnOk result (line.new.items ≡ line.old.items ++ words) }
{
    match first_of(located, kind, top) {
        Some(place) => {
            line.extend_from_slice(b": ")?;
            put_part(line, place)?;
            line.extend_from_slice(b" has it")
        }
        None => Ok(()),
    }
}
