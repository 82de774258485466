//! The tables of a configuration, key by key, with what each key's value may be.
ghost use Rattle.std.specs.Prelude.{◌≡◌, map, option_map};
ghost use Rattle.toml.specs.View.{table_view, view};
ghost use Rattle.gw_rules.specs.Bounds.{bounds};
ghost use Rattle.gw_policy_text.specs.keys.Field.{located_beside, located_in};
ghost use Rattle.gw_policy_text.specs.keys.Range.{bounds_of};
ghost use Rattle.gw_policy_text.specs.keys.Tables as spec;
ghost use Rattle.gw_configuration.specs.Configuration.{format_of};
ghost use Rattle.gw_configuration.specs.Located.{located_view};
ghost use Rattle.gw_configuration.specs.declared.located.Place.TheVariants as places;
ghost use Rattle.gw_configuration.specs.declared.object.ObjectKind.{ObjectKind};

use crate::keys::Field;
use crate::keys::field::{MAX_ITEMS, located_beside, located_in};
use crate::keys::value::{is_true_at, member, number};
use gw_addr::MAX_PORTS;
use gw_configuration::{
    ConfigFault, Located, MAX_ASSERTIONS, MAX_OBJECTS, MAX_PEERS, MAX_ROUTES, MAX_STATES,
    MAX_STATIONS, Names, Naming, Place, Scalar, Shape,
};
use gw_rules::{FieldName, Format, MAX_RULES, Range};
use toml::{Table, Value};

/// How many fields a rule may have in formats 1 and 2: the first ones of all.
pub const COMMON_RULE_FIELDS: usize = 12;

/// How many sets a text may have: as many as it may have octets.
const MAX_SETS: usize = 1 << 20;

const NETWORK: Shape = Shape::One(Scalar::Number {
    low: 1,
    high: 65534,
});

const INSTANCE: Shape = Shape::One(Scalar::Number {
    low: 0,
    high: 4_194_302,
});

const OCTET: Shape = Shape::One(Scalar::Number { low: 0, high: 255 });

const SHORT: Shape = Shape::One(Scalar::Number {
    low: 0,
    high: 65535,
});

const LONG: Shape = Shape::One(Scalar::Number {
    low: 0,
    high: 4_294_967_295,
});

const TEXT: Shape = Shape::One(Scalar::Text { least: 0 });

const NAME: Shape = Shape::One(Scalar::Text { least: 1 });

const BOOLEAN: Shape = Shape::One(Scalar::Boolean);

const ADDRESS: Shape = Shape::One(Scalar::Address);

/// The key of the broadcast manager beside a port.
pub const MANAGER_KEY: &str = "bbmd";

/// The broadcast manager beside a port.
pub const MANAGER: Shape = Shape::One(Scalar::Manager);

/// The format by which the keys of a text are judged: 3 exactly if its `format` is the whole number 3.
pub fn format_of(top: &Table) -> Format
    ensures { result ≡ spec.format_in (table_view top.now) }
{
    match member(top, "format") {
        Some(value) => format_read(number(1, 3, value)),
        None => Format::One,
    }
}

fn format_read(number: Result<u64, ConfigFault>) -> Format
    ensures { result ≡ spec.format_read number }
{
    match number {
        Ok(number) => format_numbered(number),
        Err(_) => Format::One,
    }
}

/// The format of a number.
pub fn format_numbered(number: u64) -> Format
    ensures { result ≡ format_of number }
{
    match number {
        1 => Format::One,
        2 => Format::Two,
        _ => Format::Three,
    }
}

/// The fault of the top table of a text of this format, with its place.
pub fn top_located<'a>(format: Format, table: &'a Table) -> Option<Located<'a>>
    ensures { option_map located_view result ≡
        located_in places.Top (spec.top_fields format) (table_view table.now) }
{
    match format {
        Format::Three => located_in(Place::Top, &long_top_fields(), table),
        Format::One | Format::Two => located_in(Place::Top, &top_fields(), table),
    }
}

/// The fields of the top table in formats 1 and 2.
pub fn top_fields() -> [Field; 6]
    ensures { result ≡ spec.common_top_fields }
{
    [
        Field::needs("format", Shape::One(Scalar::Number { low: 1, high: 3 })),
        Field::needs("device", Shape::One(Scalar::Table)),
        Field::needs("port", tables(1, MAX_PORTS)),
        Field::may("route", tables(0, MAX_ROUTES)),
        Field::may("object", tables(0, MAX_OBJECTS)),
        Field::may("rule", tables(0, MAX_RULES)),
    ]
}

/// The fields of the top table in format 3.
pub fn long_top_fields() -> [Field; 9]
    ensures { result ≡ spec.top_fields Format.Three }
{
    [
        Field::needs("format", Shape::One(Scalar::Number { low: 1, high: 3 })),
        Field::needs("device", Shape::One(Scalar::Table)),
        Field::needs("port", tables(1, MAX_PORTS)),
        Field::may("route", tables(0, MAX_ROUTES)),
        Field::may("object", tables(0, MAX_OBJECTS)),
        Field::may("rule", tables(0, MAX_RULES)),
        Field::may("set", tables(0, MAX_SETS)),
        Field::may("announce", Shape::One(Scalar::Boolean)),
        Field::may("assert", tables(0, MAX_ASSERTIONS)),
    ]
}

/// The fields of the device.
pub fn device_fields() -> [Field; 11]
    ensures { result ≡ spec.device_fields }
{
    [
        Field::needs("network", NETWORK),
        Field::needs("instance", INSTANCE),
        Field::needs("name", NAME),
        Field::needs("vendor", SHORT),
        Field::needs("vendor_name", TEXT),
        Field::needs("model", TEXT),
        Field::needs("firmware", TEXT),
        Field::needs("software", TEXT),
        Field::needs("revision", OCTET),
        Field::needs("database", LONG),
        Field::may("description", TEXT),
    ]
}

/// The fields of a peer of a port.
pub fn peer_fields() -> [Field; 2]
    ensures { result ≡ spec.peer_fields }
{
    [
        Field::needs("address", ADDRESS),
        Field::needs("mask", Shape::One(Scalar::Mask)),
    ]
}

/// The fault of the table of a port in a text of this format, with its place.
pub fn port_located<'a>(format: Format, port: usize, table: &'a Table) -> Option<Located<'a>>
    ensures { option_map located_view result ≡
        located_in (places.Port port) (spec.port_fields format) (table_view table.now) }
{
    match format {
        Format::Three => located_in(Place::Port(port), &long_port_fields(), table),
        Format::One | Format::Two => located_in(Place::Port(port), &port_fields(), table),
    }
}

/// The fields of a port in format 3.
pub fn long_port_fields() -> [Field; 6]
    ensures { result ≡ spec.port_fields Format.Three }
{
    [
        Field::needs("network", NETWORK),
        Field::needs("address", ADDRESS),
        Field::needs("broadcast", ADDRESS),
        Field::may("peer", tables(0, MAX_PEERS)),
        Field::may(
            "stations",
            Shape::List {
                of: Scalar::Subnet,
                least: 1,
                most: MAX_STATIONS,
            },
        ),
        Field::may(MANAGER_KEY, MANAGER),
    ]
}

/// The fields of a port in formats 1 and 2.
pub fn port_fields() -> [Field; 4]
    ensures { result ≡ spec.common_port_fields }
{
    [
        Field::needs("network", NETWORK),
        Field::needs("address", ADDRESS),
        Field::needs("broadcast", ADDRESS),
        Field::may("peer", tables(0, MAX_PEERS)),
    ]
}

/// Tables in double brackets.
fn tables(least: usize, most: usize) -> Shape
    ensures { result ≡ spec.tables least most }
{
    Shape::List {
        of: Scalar::Table,
        least,
        most,
    }
}

/// The fields of a route by one of so many ports.
pub fn route_fields(ports: u8) -> [Field; 3]
    ensures { result ≡ spec.route_fields ports }
{
    let high = u64::from(ports);
    [
        Field::needs("network", NETWORK),
        Field::needs("port", Shape::One(Scalar::Number { low: 1, high })),
        Field::needs("next", ADDRESS),
    ]
}

/// The type of an object.
pub fn type_field() -> Field
    ensures { result ≡ spec.type_field }
{
    Field::needs("type", Shape::One(Scalar::ObjectType))
}

/// The fields of a Binary Value.
pub fn binary_fields() -> [Field; 7]
    ensures { result ≡ spec.object_fields ObjectKind.BinaryValue 0 }
{
    [
        Field::needs("type", Shape::One(Scalar::ObjectType)),
        Field::needs("instance", INSTANCE),
        Field::needs("name", NAME),
        Field::needs("default", Shape::One(Scalar::Number { low: 0, high: 1 })),
        Field::may("description", TEXT),
        Field::may("active", TEXT),
        Field::may("inactive", TEXT),
    ]
}

/// The fields of a Multi-state Value of so many states.
pub fn multi_state_fields(states: usize) -> [Field; 6]
    ensures { result ≡ spec.object_fields ObjectKind.MultiStateValue states }
{
    let high = states as u64;
    [
        Field::needs("type", Shape::One(Scalar::ObjectType)),
        Field::needs("instance", INSTANCE),
        Field::needs("name", NAME),
        Field::needs("default", Shape::One(Scalar::Number { low: 1, high })),
        Field::may("description", TEXT),
        Field::needs(
            "states",
            Shape::List {
                of: Scalar::Text { least: 0 },
                least: 1,
                most: MAX_STATES,
            },
        ),
    ]
}

/// The fields of a CharacterString Value.
pub fn character_string_fields() -> [Field; 5]
    ensures { result ≡ spec.object_fields ObjectKind.CharacterStringValue 0 }
{
    [
        Field::needs("type", Shape::One(Scalar::ObjectType)),
        Field::needs("instance", INSTANCE),
        Field::needs("name", NAME),
        Field::needs("default", TEXT),
        Field::may("description", TEXT),
    ]
}

/// The fields of an Integer Value.
pub fn integer_fields() -> [Field; 6]
    ensures { result ≡ spec.object_fields ObjectKind.IntegerValue 0 }
{
    [
        Field::needs("type", Shape::One(Scalar::ObjectType)),
        Field::needs("instance", INSTANCE),
        Field::needs("name", NAME),
        Field::needs("default", Shape::One(Scalar::Signed)),
        Field::may("description", TEXT),
        Field::needs("units", SHORT),
    ]
}

/// The fields of a Positive Integer Value.
pub fn positive_integer_fields() -> [Field; 6]
    ensures { result ≡ spec.object_fields ObjectKind.PositiveIntegerValue 0 }
{
    [
        Field::needs("type", Shape::One(Scalar::ObjectType)),
        Field::needs("instance", INSTANCE),
        Field::needs("name", NAME),
        Field::needs("default", LONG),
        Field::may("description", TEXT),
        Field::needs("units", SHORT),
    ]
}

/// The fields of a set, whose items are judged in full in each rule or assertion that names it.
pub fn set_fields() -> [Field; 2]
    ensures { result ≡ spec.set_fields }
{
    [
        Field::needs("name", Shape::One(Scalar::RuleName)),
        Field::needs(
            "items",
            Shape::List {
                of: Scalar::Item,
                least: 1,
                most: MAX_ITEMS,
            },
        ),
    ]
}

/// What a rule may name for a field: an operation by its name, a source, sender or station by its address, in format 3
/// a source or station of every length, and of all else a number within the bounds of the field, of some in format 3 by
/// its name too.
pub fn scalar_of(format: Format, field: FieldName) -> Scalar
    ensures scalar { result ≡ spec.scalar_of format field }
    ensures bounds { bounds_of result ≡ bounds format field }
{
    match (format, field) {
        (_, FieldName::Operation) => Scalar::Operation(Naming::Rule(format)),
        (Format::Three, FieldName::SourceKey) => Scalar::AnyStations,
        (_, FieldName::SourceKey) => Scalar::Address,
        (Format::Three, FieldName::Service) => Scalar::Named(Names::Services),
        (Format::Three, FieldName::ObjectType) => Scalar::Named(Names::ObjectTypes),
        (Format::Three, FieldName::Property) => Scalar::Named(Names::Properties),
        (_, FieldName::Sender) => Scalar::Stations,
        (Format::Three, FieldName::Station) => Scalar::AnyStations,
        (_, FieldName::Station) => Scalar::Stations,
        _ => within(field.bounds(format)),
    }
}

/// A number in this range.
fn within(bounds: Range) -> Scalar
    ensures { result ≡ Scalar.Number bounds.low bounds.high }
{
    Scalar::Number {
        low: bounds.low,
        high: bounds.high,
    }
}

/// The format of whose names they are.
pub(crate) fn format_by(naming: Naming) -> Format
    ensures { result ≡ spec.format_by naming }
{
    match naming {
        Naming::Rule(format) => format,
        Naming::BothWays | Naming::Assertion => Format::Three,
    }
}

/// What may be named for a field: a rule that goes both ways has operations and a destination of its own, and an
/// assertion operations.
pub(crate) fn scalar_for(naming: Naming, field: FieldName) -> Scalar
    ensures scalar { result ≡ spec.scalar_for naming field }
    ensures limits { bounds_of result ≡ spec.limits_for naming field }
{
    match (naming, field) {
        (_, FieldName::Operation) => Scalar::Operation(naming),
        (Naming::BothWays, FieldName::DestinationNetwork) => Scalar::Number {
            low: 1,
            high: 65534,
        },
        _ => scalar_of(format_by(naming), field),
    }
}

/// Items for a field.
fn ranges(naming: Naming, field: FieldName) -> Field
    ensures { result ≡ spec.ranges naming field }
{
    let of = scalar_for(naming, field);
    let shape = match format_by(naming) {
        Format::Three => Shape::Items(of),
        Format::One | Format::Two => Shape::Ranges(of),
    };
    Field::new(field.key(), is_due(naming, field), shape)
}

/// Whether a field must be named: operations and networks, by a rule that goes both ways.
fn is_due(naming: Naming, field: FieldName) -> bool
    ensures { result ≡ spec.is_due naming field }
{
    matches!(
        (naming, field),
        (
            Naming::BothWays,
            FieldName::Operation | FieldName::SourceNetwork | FieldName::DestinationNetwork
        )
    )
}

/// Whether a rule goes both ways, as one of format 3 may.
pub(crate) fn is_both_ways(format: Format, table: &Table) -> bool
    ensures { result ≡ spec.is_both_ways format (table_view table.now) }
{
    match format {
        Format::Three => is_true_at("both_ways", table),
        Format::One | Format::Two => false,
    }
}

/// How a rule names what it names, that goes both ways or doesn't.
pub(crate) fn naming_by(format: Format, both_ways: bool) -> Naming
    ensures { result ≡ spec.naming_by format both_ways }
{
    if both_ways {
        Naming::BothWays
    } else {
        Naming::Rule(format)
    }
}

/// The fault of the table of a rule in a text of this format, with its place, beside the tables of the
/// text's sets.
pub fn rule_located<'a>(
    format: Format,
    sets: &[Value],
    rule: usize,
    table: &'a Table,
) -> Option<Located<'a>>
    ensures { let members = table_view table.now in option_map located_view result ≡
        located_beside (map view sets.now) (places.Rule rule) (spec.rule_fields format members) members }
{
    let place = Place::Rule(rule);
    match format {
        Format::Three => {
            let naming = naming_by(format, is_both_ways(format, table));
            let fields = rule_fields(naming, is_true_at("allow", table));
            located_beside(sets, place, &fields, table)
        }
        Format::One | Format::Two => {
            let fields = rule_fields(Naming::Rule(format), false);
            located_beside(sets, place, &fields[..COMMON_RULE_FIELDS], table)
        }
    }
}

/// All that a rule may have that names so, and allows or doesn't, of which the last seven are format 3's alone.
pub fn rule_fields(naming: Naming, allows: bool) -> [Field; 19]
    ensures { result ≡ spec.every_rule_field naming allows }
{
    [
        Field::needs("name", Shape::One(name_for(naming))),
        Field::needs("allow", Shape::One(allow_for(naming))),
        ranges(naming, FieldName::Operation),
        ranges(naming, FieldName::Port),
        ranges(naming, FieldName::SourceNetwork),
        ranges(naming, FieldName::SourceKey),
        ranges(naming, FieldName::DestinationNetwork),
        ranges(naming, FieldName::Service),
        ranges(naming, FieldName::ObjectType),
        ranges(naming, FieldName::Instance),
        ranges(naming, FieldName::Property),
        ranges(naming, FieldName::Priority),
        ranges(naming, FieldName::Sender),
        ranges(naming, FieldName::Station),
        Field::may("note", TEXT),
        Field::may("audit", BOOLEAN),
        Field::may("both_ways", BOOLEAN),
        Field::may("enabled", BOOLEAN),
        Field::may("quiet", Shape::One(quiet_for(allows))),
    ]
}

/// The name of a rule, which is short where it goes both ways.
fn name_for(naming: Naming) -> Scalar
    ensures { result ≡ spec.name_for naming }
{
    match naming {
        Naming::BothWays => Scalar::ShortName,
        Naming::Rule(_) | Naming::Assertion => Scalar::RuleName,
    }
}

/// Whether a rule allows, as one must that goes both ways.
fn allow_for(naming: Naming) -> Scalar
    ensures { result ≡ spec.allow_for naming }
{
    match naming {
        Naming::BothWays => Scalar::True,
        Naming::Rule(_) | Naming::Assertion => Scalar::Boolean,
    }
}

/// Whether a rule is quiet, as none is that allows.
fn quiet_for(allows: bool) -> Scalar
    ensures { result ≡ spec.quiet_for allows }
{
    if allows {
        Scalar::False
    } else {
        Scalar::Boolean
    }
}

/// The fields of an assertion.
pub fn assertion_fields() -> [Field; 16]
    ensures { result ≡ spec.assertion_fields }
{
    [
        Field::needs("name", Shape::One(Scalar::RuleName)),
        Field::needs("verdict", Shape::One(Scalar::Verdict)),
        ranges(Naming::Assertion, FieldName::Operation),
        ranges(Naming::Assertion, FieldName::Port),
        ranges(Naming::Assertion, FieldName::SourceNetwork),
        ranges(Naming::Assertion, FieldName::SourceKey),
        ranges(Naming::Assertion, FieldName::DestinationNetwork),
        ranges(Naming::Assertion, FieldName::Service),
        ranges(Naming::Assertion, FieldName::ObjectType),
        ranges(Naming::Assertion, FieldName::Instance),
        ranges(Naming::Assertion, FieldName::Property),
        ranges(Naming::Assertion, FieldName::Priority),
        ranges(Naming::Assertion, FieldName::Sender),
        ranges(Naming::Assertion, FieldName::Station),
        Field::may("unnamed", BOOLEAN),
        Field::may("note", TEXT),
    ]
}
