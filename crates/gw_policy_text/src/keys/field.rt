//! The fields of a table, and the fault of a table.
ghost use Rattle.std.specs.Prelude.{◌≡◌, [], map, position, Some, option_map};
ghost use Rattle.std.specs.List.{list_any};
ghost use Rattle.toml.specs.View.{table_view, view};
ghost use Rattle.gw_policy_text.specs.keys.Field.{at_field, count_fault, fault_of, fault_of_fields, field_fault, field_with, has, is_key, is_this, item_fault, item_of, item_with, items_fault, list_fault, list_fault_by, located_as, located_beside, located_in, scalar_fault, stranger, value_fault, values_fault};
ghost use Rattle.gw_policy_text.specs.keys.Range.{is_kind, is_missing, is_range, is_too_many};
ghost use Rattle.gw_configuration.specs.Located.{located_view};

use crate::keys::items;
use crate::keys::range::range;
use crate::keys::value::{self, member};
use gw_configuration::{ConfigFault, Located, Place, Scalar, Shape};
use gw_rules::MAX_RANGES;
use std::marker::Model;
use toml::{Table, Value};

/// How many items a field of a rule or a set has at most as they are written.
pub const MAX_ITEMS: usize = 64;

/// A key of a table, whether it must be there, and what its value may be.
#[derive(Drop)]
pub struct Field {
    key: &'static str,
    required: bool,
    shape: Shape,
}

impl Model for Field {
    ghost use Rattle.gw_policy_text.specs.keys.Field as spec;

    ghost Value = { spec.Field };

    ghost view = { λ f. record { key = f.key.now; required = f.required; shape = f.shape } };
}

impl Field {
    ghost use Rattle.gw_policy_text.specs.keys.Tables.{needs, may};

    /// A field that must be there.
    pub fn needs(key: &'static str, shape: Shape) -> Self
        ensures { result ≡ needs key.now shape }
    {
        Field {
            key,
            required: true,
            shape,
        }
    }

    /// A field that may be missing.
    pub fn may(key: &'static str, shape: Shape) -> Self
        ensures { result ≡ may key.now shape }
    {
        Field {
            key,
            required: false,
            shape,
        }
    }

    /// A field that must be there or may be missing.
    pub fn new(key: &'static str, required: bool, shape: Shape) -> Self
        ensures key { result.key ≡ key.now }
        ensures required { result.required ≡ required }
        ensures shape { result.shape ≡ shape }
    {
        Field {
            key,
            required,
            shape,
        }
    }

    /// Its key.
    pub fn key(&self) -> &'static str
        ensures { result.now ≡ self.now.key }
    {
        self.key
    }

    /// The fault of the field in a table, beside the tables of the text's sets.
    pub fn fault(&self, sets: &[Value], table: &Table) -> Option<ConfigFault>
        ensures { result ≡ field_fault (map view sets.now) (table_view table.now) self.now }
    {
        match member(table, self.key) {
            Some(value) => value_fault(sets, self.shape, value),
            None if self.required => Some(ConfigFault::Missing),
            None => None,
        }
    }

    /// This fault of the field, where it is.
    pub fn located<'a>(
        &self,
        sets: &[Value],
        place: Place,
        fault: ConfigFault,
        table: &'a Table,
    ) -> Located<'a>
        ensures { located_view result ≡
            at_field (map view sets.now) place fault (table_view table.now) (Some self.now) }
    {
        Located {
            fault,
            place,
            key: self.key,
            item: item_of(sets, fault, self.shape, member(table, self.key)),
            wanted: Some(self.shape),
        }
    }
}

/// The position of the first item with this fault in the list that a value is.
fn item_of(sets: &[Value], fault: ConfigFault, shape: Shape, value: Option<&Value>) -> Option<usize>
    ensures { result ≡ item_of (map view sets.now) fault shape (option_map (λ v. view v.now) value.entry) }
{
    match value::list(value?) {
        Ok(items) => item_with(sets, fault, shape, items),
        Err(_) => None,
    }
}

#[tactic(auto, using(crate::proofs::keys_lemmas::Values::position_view))]
fn item_with(sets: &[Value], fault: ConfigFault, shape: Shape, items: &[Value]) -> Option<usize>
    ensures { result ≡ item_with (map view sets.now) fault shape (map view items.now) }
{
    match fault {
        ConfigFault::Kind => first_kind(sets, shape, items),
        ConfigFault::Range => first_range(sets, shape, items),
        _ => None,
    }
}

/// The fault of a single value.
fn scalar_fault(scalar: Scalar, value: &Value) -> Option<ConfigFault>
    ensures { result ≡ scalar_fault scalar (view value.now) }
{
    match scalar {
        Scalar::Number { low, high } => value::number(low, high, value).err(),
        Scalar::Signed => value::signed(value).err(),
        Scalar::ObjectType => value::kind(value).err(),
        Scalar::Text { least } => value::text(least, value).err(),
        Scalar::RuleName => value::rule_name(value).err(),
        Scalar::ShortName => value::short_name(value).err(),
        Scalar::Operation(naming) => value::deed(naming, value).err(),
        Scalar::Boolean => value::boolean(value).err(),
        Scalar::True => value::fixed(true, value).err(),
        Scalar::False => value::fixed(false, value).err(),
        Scalar::Verdict => value::verdict(value).err(),
        Scalar::Address | Scalar::Manager => value::address(value).err(),
        Scalar::Mask => value::mask(value).err(),
        Scalar::Table => value::table(value).err(),
        Scalar::Named(names) => items::named(names, value).err(),
        Scalar::Stations => items::stations(false, value).err(),
        Scalar::AnyStations => items::stations(true, value).err(),
        Scalar::Subnet => value::subnet(value).err(),
        Scalar::Item => items::set_item_fault(value),
    }
}

/// The fault of an item of a list.
fn item_fault(sets: &[Value], shape: Shape, item: &Value) -> Option<ConfigFault>
    ensures { result ≡ item_fault (map view sets.now) shape (view item.now) }
{
    match shape {
        Shape::One(_) => None,
        Shape::List { of, .. } => scalar_fault(of, item),
        Shape::Ranges(of) => range(of, item).err(),
        Shape::Items(of) => items::fault(sets, of, item),
    }
}

fn have_kind(sets: &[Value], shape: Shape, items: &[Value]) -> bool
    ensures { result ≡ list_any (λ item. is_kind (item_fault (map view sets.now) shape (view item))) items.now }
{
    items.iter().any(|item| matches!(item_fault(sets, shape, item), Some(ConfigFault::Kind)))
}

fn have_range(sets: &[Value], shape: Shape, items: &[Value]) -> bool
    ensures { result ≡ list_any (λ item. is_range (item_fault (map view sets.now) shape (view item))) items.now }
{
    items.iter().any(|item| matches!(item_fault(sets, shape, item), Some(ConfigFault::Range)))
}

fn first_kind(sets: &[Value], shape: Shape, items: &[Value]) -> Option<usize>
    ensures { result ≡ position (λ item. is_kind (item_fault (map view sets.now) shape (view item))) items.now }
{
    items.iter().position(|item| matches!(item_fault(sets, shape, item), Some(ConfigFault::Kind)))
}

fn first_range(sets: &[Value], shape: Shape, items: &[Value]) -> Option<usize>
    ensures { result ≡ position (λ item. is_range (item_fault (map view sets.now) shape (view item))) items.now }
{
    items.iter().position(|item| matches!(item_fault(sets, shape, item), Some(ConfigFault::Range)))
}

/// The fault of a list, by what is known of its values and of its length.
fn fault_by(
    kinds: bool,
    ranges: bool,
    least: usize,
    most: usize,
    count: usize,
) -> Option<ConfigFault>
    ensures { result ≡ list_fault_by kinds ranges least most count }
{
    if kinds {
        Some(ConfigFault::Kind)
    } else if ranges || count < least {
        Some(ConfigFault::Range)
    } else if most < count {
        Some(ConfigFault::TooMany)
    } else {
        None
    }
}

/// The fault of a list of so many items.
fn list_fault(
    sets: &[Value],
    shape: Shape,
    least: usize,
    most: usize,
    items: &[Value],
) -> Option<ConfigFault>
    ensures { result ≡ list_fault (item_fault (map view sets.now) shape) least most (map view items.now) }
{
    let kinds = have_kind(sets, shape, items);
    let ranges = have_range(sets, shape, items);
    fault_by(kinds, ranges, least, most, items.len())
}

/// The fault of the items of a rule's field, by their own faults, their number and that of the ranges
/// that they name.
fn items_fault(sets: &[Value], of: Scalar, items: &[Value]) -> Option<ConfigFault>
    ensures { result ≡ items_fault (map view sets.now) of (map view items.now) }
{
    match list_fault(sets, Shape::Items(of), 1, MAX_ITEMS, items) {
        Some(fault) => Some(fault),
        None => count_fault(items::has_too_many(sets, items)),
    }
}

fn count_fault(has_too_many: bool) -> Option<ConfigFault>
    ensures { result ≡ count_fault has_too_many }
{
    if has_too_many {
        Some(ConfigFault::TooMany)
    } else {
        None
    }
}

/// The fault of a value: the first of `Kind`, `Range` and `TooMany` that it has.
fn value_fault(sets: &[Value], shape: Shape, value: &Value) -> Option<ConfigFault>
    ensures { result ≡ value_fault (map view sets.now) shape (view value.now) }
{
    if let Shape::One(scalar) = shape {
        return scalar_fault(scalar, value);
    }
    match value::list(value) {
        Ok(items) => values_fault(sets, shape, items),
        Err(fault) => Some(fault),
    }
}

/// The fault of the values of a list.
fn values_fault(sets: &[Value], shape: Shape, values: &[Value]) -> Option<ConfigFault>
    ensures { result ≡ values_fault (map view sets.now) shape (map view values.now) }
{
    match shape {
        Shape::One(_) => None,
        Shape::List { of: _, least, most } => list_fault(sets, shape, least, most, values),
        Shape::Ranges(of) => list_fault(sets, Shape::Ranges(of), 1, MAX_RANGES, values),
        Shape::Items(of) => items_fault(sets, of, values),
    }
}

fn is_key(fields: &[Field], key: &str) -> bool
    ensures { result ≡ is_key fields.now key.now }
{
    fields.iter().any(|field| field.key == key)
}

/// The first key of the table that is that of no field.
fn stranger<'a>(fields: &[Field], table: &'a Table) -> Option<&'a str>
    ensures { option_map (λ key. key.now) result ≡ stranger fields.now (table_view table.now) }
{
    for key in table.keys() {
        if !is_key(fields, key.as_str()) {
            return Some(key.as_str());
        }
    }
    None
}

fn has_missing(sets: &[Value], fields: &[Field], table: &Table) -> bool
    ensures { result ≡ has (map view sets.now) is_missing fields.now (table_view table.now) }
{
    fields.iter().any(|field| matches!(field.fault(sets, table), Some(ConfigFault::Missing)))
}

fn has_kind(sets: &[Value], fields: &[Field], table: &Table) -> bool
    ensures { result ≡ has (map view sets.now) is_kind fields.now (table_view table.now) }
{
    fields.iter().any(|field| matches!(field.fault(sets, table), Some(ConfigFault::Kind)))
}

fn has_range(sets: &[Value], fields: &[Field], table: &Table) -> bool
    ensures { result ≡ has (map view sets.now) is_range fields.now (table_view table.now) }
{
    fields.iter().any(|field| matches!(field.fault(sets, table), Some(ConfigFault::Range)))
}

fn has_too_many(sets: &[Value], fields: &[Field], table: &Table) -> bool
    ensures { result ≡ has (map view sets.now) is_too_many fields.now (table_view table.now) }
{
    fields.iter().any(|field| matches!(field.fault(sets, table), Some(ConfigFault::TooMany)))
}

/// The fault of a table, each of the five judged for the whole table before the next.
fn fault_of(sets: &[Value], fields: &[Field], table: &Table) -> Option<ConfigFault>
    ensures { result ≡ fault_of (map view sets.now) fields.now (table_view table.now) }
{
    match stranger(fields, table) {
        Some(_) => Some(ConfigFault::UnknownKey),
        None => fault_of_fields(sets, fields, table),
    }
}

/// The fault of a table that has no other keys than those of the fields.
fn fault_of_fields(sets: &[Value], fields: &[Field], table: &Table) -> Option<ConfigFault>
    ensures { result ≡ fault_of_fields (map view sets.now) fields.now (table_view table.now) }
{
    if has_missing(sets, fields, table) {
        Some(ConfigFault::Missing)
    } else if has_kind(sets, fields, table) {
        Some(ConfigFault::Kind)
    } else if has_range(sets, fields, table) {
        Some(ConfigFault::Range)
    } else if has_too_many(sets, fields, table) {
        Some(ConfigFault::TooMany)
    } else {
        None
    }
}

/// Whether a fault that was found is this one, of the four that a field may have.
fn is_this(fault: ConfigFault, found: Option<ConfigFault>) -> bool
    ensures { result ≡ is_this fault found }
{
    match fault {
        ConfigFault::Missing => matches!(found, Some(ConfigFault::Missing)),
        ConfigFault::Kind => matches!(found, Some(ConfigFault::Kind)),
        ConfigFault::Range => matches!(found, Some(ConfigFault::Range)),
        ConfigFault::TooMany => matches!(found, Some(ConfigFault::TooMany)),
        _ => false,
    }
}

/// The first field that has this fault.
fn field_with<'f>(
    sets: &[Value],
    fault: ConfigFault,
    fields: &'f [Field],
    table: &Table,
) -> Option<&'f Field>
    ensures { option_map (λ f. f.now) result ≡
        field_with (map view sets.now) fault fields.now (table_view table.now) }
{
    fields
        .iter()
        .find(|field| is_this(fault, field.fault(sets, table)))
}

/// This fault of a table, where it is.
fn located_as<'a>(
    sets: &[Value],
    place: Place,
    fields: &[Field],
    table: &'a Table,
    fault: ConfigFault,
) -> Located<'a>
    ensures { located_view result ≡
        located_as (map view sets.now) place fields.now (table_view table.now) fault }
{
    match fault {
        ConfigFault::UnknownKey => Located::at_table(place, fault, stranger(fields, table)),
        _ => match field_with(sets, fault, fields, table) {
            Some(field) => field.located(sets, place, fault, table),
            None => Located::at_table(place, fault, None),
        },
    }
}

/// The fault of a table with these fields, with its place, beside the tables of the text's sets.
#[tactic(auto, unfolding(crate::specs::keys::Field::located_beside))]
pub fn located_beside<'a>(
    sets: &[Value],
    place: Place,
    fields: &[Field],
    table: &'a Table,
) -> Option<Located<'a>>
    ensures { option_map located_view result ≡
        located_beside (map view sets.now) place fields.now (table_view table.now) }
{
    match fault_of(sets, fields, table) {
        Some(fault) => Some(located_as(sets, place, fields, table, fault)),
        None => None,
    }
}

/// The fault of a table with these fields, with its place, if no sets matter.
pub fn located_in<'a>(place: Place, fields: &[Field], table: &'a Table) -> Option<Located<'a>>
    ensures { option_map located_view result ≡ located_in place fields.now (table_view table.now) }
{
    located_beside(&[], place, fields, table)
}
