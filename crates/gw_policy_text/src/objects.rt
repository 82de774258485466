//! What the objects of a configuration are read to.
ghost use Rattle.std.specs.Prelude.{◌≡◌, ◌≤◌, codes, length, map, option_map, IfOk, IsTrue};
ghost use Rattle.std.specs.List.{list_all};
ghost use Rattle.gw_addr.specs.Reading as plain;
ghost use Rattle.toml.specs.View.{table_view, view};
ghost use Rattle.gw_policy_text.specs.Parts.{binary_value, character_string_value, count_at, each_at, integer_value, kind_at, multi_state_value, object_in, object_of, object_of_kind, object_parts, positive_integer_value, signed_at, states_with, type_located, value_of};
ghost use Rattle.gw_policy_text.specs.keys.Field.{located_in};
ghost use Rattle.gw_policy_text.specs.keys.Items.{each};
ghost use Rattle.gw_configuration.specs.Configuration.{is_named};
ghost use Rattle.gw_configuration.specs.Located.{located_view};
ghost use Rattle.gw_configuration.specs.Reading.{Finds, Gives, NamesFault, NamesLocated};
ghost use Rattle.gw_policy_text.specs.keys.Tables.{object_fields};
ghost use Rattle.gw_policy_text.specs.keys.Value.{text_in};
ghost use Rattle.gw_configuration.specs.declared.located.Place.TheVariants as places;

use crate::keys::located_in;
use crate::keys::tables::{
    binary_fields, character_string_fields, integer_fields, multi_state_fields,
    positive_integer_fields, type_field,
};
use crate::keys::value::{self, string, table};
use crate::reading::{
    any_list, at, instance_at, list_at, long_at, number_at, optional_text, short_at, text_at,
};
use gw_addr::Sequence;
use gw_configuration::{
    ConfigFault, Located, MAX_STATES, MultiState, Object, ObjectKind, ObjectValue, Place, Text,
};
use std::alloc::Global;
use toml::{Table, Value};

/// The objects that some values say, in order, or the first fault with its place.
pub(crate) fn objects<'a>(
    alloc: Global,
    values: &'a [Value],
) -> Result<Sequence<Object>, Located<'a>>
    ensures count { IfOk result (λ os. length os ≡ length values.now) }
    ensures objects { Finds (λ os. os) result (each_at object_in 0 (map view values.now)) }
    ensures named { IfOk result (λ os. IsTrue (list_all (λ o. is_named o.name) os)) }
{
    let mut all = Sequence::new(alloc);
    for (place, value) in values.iter().enumerate() {
        all.push(object(alloc, place, value)?)?;
    }
    Ok(all)
}

/// The object that a value says, at this position.
fn object<'a>(alloc: Global, object: usize, value: &'a Value) -> Result<Object, Located<'a>>
    ensures object { Finds (λ o. o) result (object_in object (view value.now)) }
    ensures named { IfOk result (λ o. IsTrue (is_named o.name)) }
{
    object_of_table(alloc, object, table(value)?)
}

/// Its type is judged first.
fn object_of_table<'a>(
    alloc: Global,
    object: usize,
    table: &'a Table,
) -> Result<Object, Located<'a>>
    ensures object { Finds (λ o. o) result (object_of object (table_view table.now)) }
    ensures named { IfOk result (λ o. IsTrue (is_named o.name)) }
{
    match type_located(object, table) {
        Some(located) => Err(located),
        None => object_of_kind(alloc, object, kind_at(table)?, table),
    }
}

/// The fault of its type.
fn type_located<'a>(object: usize, table: &'a Table) -> Option<Located<'a>>
    ensures { option_map located_view result ≡ type_located object (table_view table.now) }
{
    let field = type_field();
    match field.fault(&[], table) {
        Some(fault) => Some(field.located(&[], Place::Object(object), fault, table)),
        None => None,
    }
}

fn kind_at(table: &Table) -> Result<ObjectKind, ConfigFault>
    ensures { plain.Gives (λ k. k) result (kind_at (codes "type") (table_view table.now)) }
{
    value::kind(at("type", table)?)
}

#[tactic(auto, unfolding(crate::specs::Parts::object_of_kind))]
fn object_of_kind<'a>(
    alloc: Global,
    object: usize,
    kind: ObjectKind,
    table: &'a Table,
) -> Result<Object, Located<'a>>
    ensures object { Finds (λ o. o) result (object_of_kind object kind (table_view table.now)) }
    ensures named { IfOk result (λ o. IsTrue (is_named o.name)) }
    ensures fault_named { let states = count_at (codes "states") (table_view table.now) in
        NamesLocated result (located_in (places.Object object) (object_fields kind states) (table_view table.now)) }
{
    match object_located(Place::Object(object), kind, table) {
        Some(located) => Err(located),
        None => Ok(object_parts(alloc, kind, table)?),
    }
}

/// The fault of the table of an object of that type.
fn object_located<'a>(place: Place, kind: ObjectKind, table: &'a Table) -> Option<Located<'a>>
    ensures { let states = count_at (codes "states") (table_view table.now) in
        option_map located_view result ≡ located_in place (object_fields kind states) (table_view table.now) }
{
    match kind {
        ObjectKind::BinaryValue => located_in(place, &binary_fields(), table),
        ObjectKind::MultiStateValue => {
            located_in(place, &multi_state_fields(count_at(table)), table)
        }
        ObjectKind::CharacterStringValue => located_in(place, &character_string_fields(), table),
        ObjectKind::IntegerValue => located_in(place, &integer_fields(), table),
        ObjectKind::PositiveIntegerValue => located_in(place, &positive_integer_fields(), table),
    }
}

/// How many states there are.
fn count_at(table: &Table) -> usize
    ensures { result ≡ count_at (codes "states") (table_view table.now) }
{
    match any_list("states", table) {
        Ok(states) => states.len(),
        Err(_) => 0,
    }
}

/// The parts of a table without a fault.
fn object_parts(alloc: Global, kind: ObjectKind, table: &Table) -> Result<Object, ConfigFault>
    ensures object { Gives (λ o. o) result (object_parts kind (table_view table.now)) }
    ensures named { IfOk result (λ o. IsTrue (is_named o.name)) }
{
    let instance = instance_at("instance", table)?;
    let name = text_at(alloc, 1, "name", table)?;
    let description = optional_text(alloc, "", "description", table)?;
    let value = object_value(alloc, kind, table)?;
    Ok(Object {
        instance,
        name,
        description,
        value,
    })
}

/// What is configured of that type alone.
fn object_value(alloc: Global, kind: ObjectKind, table: &Table) -> Result<ObjectValue, ConfigFault>
    ensures { Gives (λ v. v) result (value_of kind (table_view table.now)) }
{
    match kind {
        ObjectKind::BinaryValue => binary_value(alloc, table),
        ObjectKind::MultiStateValue => multi_state_value(alloc, table),
        ObjectKind::CharacterStringValue => character_string_value(alloc, table),
        ObjectKind::IntegerValue => integer_value(table),
        ObjectKind::PositiveIntegerValue => positive_integer_value(table),
    }
}

fn binary_value(alloc: Global, table: &Table) -> Result<ObjectValue, ConfigFault>
    ensures { Gives (λ v. v) result (binary_value (table_view table.now)) }
{
    let default = number_at(0, 1, "default", table)? == 1;
    let active = optional_text(alloc, "active", "active", table)?;
    let inactive = optional_text(alloc, "inactive", "inactive", table)?;
    Ok(ObjectValue::BinaryValue {
        default,
        active,
        inactive,
    })
}

fn multi_state_value(alloc: Global, table: &Table) -> Result<ObjectValue, ConfigFault>
    ensures { Gives (λ v. v) result (multi_state_value (table_view table.now)) }
{
    let states = texts(alloc, list_at(1, MAX_STATES, "states", table)?)?;
    Ok(ObjectValue::MultiStateValue(multi_state(states, table)?))
}

/// The default is one of the states.
fn multi_state(states: Sequence<Text>, table: &Table) -> Result<MultiState, ConfigFault>
    requires { length states ≤ 64 }
    ensures { plain.Gives (λ m. m) result (states_with states (table_view table.now)) }
{
    let default = number_at(1, states.len() as u64, "default", table)? as u8;
    MultiState::new(default, states).ok_or(ConfigFault::Range)
}

fn texts(alloc: Global, values: &[Value]) -> Result<Sequence<Text>, ConfigFault>
    ensures count { IfOk result (λ ts. length ts ≡ length values.now) }
    ensures texts { Gives (λ ts. ts) result (each (text_in 0) (map view values.now)) }
{
    let mut all = Sequence::new(alloc);
    for value in values {
        all.push(text(alloc, value)?)?;
    }
    Ok(all)
}

fn text(alloc: Global, value: &Value) -> Result<Text, ConfigFault>
    ensures text { Gives (λ t. t) result (text_in 0 (view value.now)) }
    ensures fault_named { NamesFault result (text_in 0 (view value.now)) }
{
    match string(value) {
        Some(text) => Text::new(alloc, 0, text),
        None => Err(ConfigFault::Kind),
    }
}

fn character_string_value(alloc: Global, table: &Table) -> Result<ObjectValue, ConfigFault>
    ensures { Gives (λ v. v) result (character_string_value (table_view table.now)) }
{
    let default = text_at(alloc, 0, "default", table)?;
    Ok(ObjectValue::CharacterStringValue { default })
}

fn integer_value(table: &Table) -> Result<ObjectValue, ConfigFault>
    ensures { Gives (λ v. v) result (integer_value (table_view table.now)) }
{
    let default = value::signed(at("default", table)?)?;
    let units = short_at("units", table)?;
    Ok(ObjectValue::IntegerValue { default, units })
}

fn positive_integer_value(table: &Table) -> Result<ObjectValue, ConfigFault>
    ensures { Gives (λ v. v) result (positive_integer_value (table_view table.now)) }
{
    let default = long_at("default", table)?;
    let units = short_at("units", table)?;
    Ok(ObjectValue::PositiveIntegerValue { default, units })
}
