//! Names by their numbers, and numbers by their names.

ghost use Rattle.std.specs.Prelude.{◌≡◌, ◌==◌, find, map, nat_eq};
ghost use Rattle.std.specs.Option.{option_map};
ghost use Rattle.std.specs.Cmp.Lexicographic.{pointwise};
ghost use Rattle.gw_codecs.specs.names.Names.{name_in, number_in, object_type_name, object_type_number, property_name, property_number, service_name, service_number};
ghost use Rattle.gw_codecs.specs.names.Tables.{object_types, properties, services};
ghost use Rattle.gw_codecs.specs.names.internal.Rows.{plain};

use crate::names::tables::{OBJECT_TYPES, PROPERTIES, Row, SERVICES};

/// The name of a type of objects, or `None` if the table lacks its number.
pub fn object_type_name(number: u64) -> Option<&'static str>
    ensures { option_map (λ name. name.now) result ≡ object_type_name number }
{
    name_in(object_types(), number)
}

/// The name of a property, or `None` if the table lacks its number.
pub fn property_name(number: u64) -> Option<&'static str>
    ensures { option_map (λ name. name.now) result ≡ property_name number }
{
    name_in(properties(), number)
}

/// The name of a service or message, or `None` if the table lacks its number.
pub fn service_name(number: u64) -> Option<&'static str>
    ensures { option_map (λ name. name.now) result ≡ service_name number }
{
    name_in(services(), number)
}

/// The number of the type of objects that has this name, as `analog-input`, or `None` if none has.
pub fn object_type_number(name: &str) -> Option<u64>
    ensures { result ≡ object_type_number name.now }
{
    number_in(object_types(), name)
}

/// The number of the property that has this name, as `present-value`, or `None` if none has.
pub fn property_number(name: &str) -> Option<u64>
    ensures { result ≡ property_number name.now }
{
    number_in(properties(), name)
}

/// The number of the service or message that has this name, as `ReadProperty`, or `None` if none has.
pub fn service_number(name: &str) -> Option<u64>
    ensures { result ≡ service_number name.now }
{
    number_in(services(), name)
}

/// The types of objects.
#[tactic(auto, unfolding(crate::specs::names::Tables::object_types))]
fn object_types() -> &'static [Row]
    ensures { map plain result.now ≡ object_types }
{
    &OBJECT_TYPES
}

/// The properties.
#[tactic(auto, unfolding(crate::specs::names::Tables::properties))]
fn properties() -> &'static [Row]
    ensures { map plain result.now ≡ properties }
{
    &PROPERTIES
}

/// The services and messages.
#[tactic(auto, unfolding(crate::specs::names::Tables::services))]
fn services() -> &'static [Row]
    ensures { map plain result.now ≡ services }
{
    &SERVICES
}

/// The name of a number in a table.
fn name_in(table: &[Row], number: u64) -> Option<&'static str>
    ensures { option_map (λ name. name.now) result ≡ name_in (map plain table.now) number }
{
    match row_of_number(table, number) {
        Some(row) => Some(row.1),
        None => None,
    }
}

/// The number of a name in a table.
fn number_in(table: &[Row], name: &str) -> Option<u64>
    ensures { result ≡ number_in (map plain table.now) name.now }
{
    match row_of_name(table, name) {
        Some(row) => Some(row.0),
        None => None,
    }
}

/// The row of a number in a table.
fn row_of_number(table: &[Row], number: u64) -> Option<&Row>
    ensures { option_map (λ row. row.now) result ≡ find (λ row. row.0 == number) table.now }
{
    table.iter().find(|row| row.0 == number)
}

/// The row of a name in a table.
fn row_of_name<'a>(table: &'a [Row], name: &str) -> Option<&'a Row>
    ensures { option_map (λ row. row.now) result
        ≡ find (λ row. pointwise nat_eq row.1.now name.now) table.now }
{
    table.iter().find(|row| row.1 == name)
}
