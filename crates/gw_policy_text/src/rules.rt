//! What the rules of a configuration are read to.
ghost use Rattle.std.specs.Prelude.{◌≡◌, ◌==◌, ◌||◌, find, length, map, nat_le, nat_lt, not, option_map, IfOk, IsFalse, IsTrue};
ghost use Rattle.std.specs.List.{list_all};
ghost use Rattle.gw_addr.specs.Reading as plain;
ghost use Rattle.toml.specs.View.{table_view, view};
ghost use Rattle.gw_rules.specs.Bounds.{is_within};
ghost use Rattle.gw_rules.specs.Format.{names_stations};
ghost use Rattle.gw_rules.specs.Name.{is_name, is_no_rule};
ghost use Rattle.gw_rules.specs.RuleList.{ranges_in_all};
ghost use Rattle.gw_rules.specs.declared.field.TheConstants.FieldName.{ALL};
ghost use Rattle.gw_rules.specs.declared.rule_list.TheConstants.{MAX_RANGES_IN_ALL};
ghost use Rattle.gw_configuration.specs.Configuration.{is_configurable};
ghost use Rattle.gw_configuration.specs.Located.{located_view};
ghost use Rattle.gw_configuration.specs.Reading.{Finds, Gives, NamesLocated};
ghost use Rattle.gw_configuration.specs.declared.located.Place.TheVariants as places;
ghost use Rattle.gw_policy_text.specs.keys.Field.{located_beside};
ghost use Rattle.gw_policy_text.specs.keys.Items.{each};
ghost use Rattle.gw_policy_text.specs.keys.Range.{bounds_of, range_in};
ghost use Rattle.gw_policy_text.specs.keys.Tables.{is_both_ways, rule_fields};
ghost use Rattle.gw_policy_text.specs.keys.Value.{is_bool};
ghost use Rattle.gw_policy_text.specs.internal.Limits.{are_limited, is_joined, is_limited};
ghost use Rattle.gw_policy_text.specs.internal.Listing.{is_listable};
ghost use Rattle.gw_policy_text.specs.Policy.{crowd, crowded, crowded_at, fields_of, flag_at, long_crowd, long_ranges_at, name_in, note_at, ranges_at, rule_in, rule_of, rule_parts, short_ranges_at, station_ranges_at, written_parts};

use crate::keys::range::range;
use crate::keys::tables::{
    format_by, is_both_ways, naming_by, rule_located, scalar_for, scalar_of,
};
use crate::keys::value::{self, table};
use crate::keys::{MAX_ITEMS, items};
use crate::reading::{at, list_at, optional_boolean, optional_text};
use crate::written::Written;
use gw_configuration::{ConfigFault, Format, Located, Naming, Place, Scalar, Shape, Text};
use gw_rules::{
    FieldName, Fields, MAX_LONG_RANGES, MAX_RANGES, MAX_RANGES_IN_ALL, MAX_RULES, Ranges, Rule,
    RuleName,
};
use std::alloc::Global;
use toml::{Table, Value};

/// The rule that a value says, at this position.
pub(crate) fn rule<'a>(
    alloc: Global,
    format: Format,
    sets: &[Value],
    rule: usize,
    value: &'a Value,
) -> Result<Written, Located<'a>>
    ensures rule { Finds (λ w. w) result (rule_in format (map view sets.now) rule (view value.now)) }
    ensures listable { IfOk result (λ w. IsTrue (is_listable format w)) }
{
    rule_of_table(alloc, format, sets, rule, table(value)?)
}

#[tactic(auto, unfolding(crate::specs::Policy::rule_of))]
fn rule_of_table<'a>(
    alloc: Global,
    format: Format,
    sets: &[Value],
    rule: usize,
    table: &'a Table,
) -> Result<Written, Located<'a>>
    ensures rule { Finds (λ w. w) result (rule_of format (map view sets.now) rule (table_view table.now)) }
    ensures listable { IfOk result (λ w. IsTrue (is_listable format w)) }
    ensures fault_named { let members = table_view table.now in NamesLocated result
        (located_beside (map view sets.now) (places.Rule rule) (rule_fields format members) members) }
{
    match rule_located(format, sets, rule, table) {
        Some(located) => Err(located),
        None => Ok(written_parts(alloc, format, sets, table)?),
    }
}

/// The parts of a table without a fault.
fn written_parts(
    alloc: Global,
    format: Format,
    sets: &[Value],
    table: &Table,
) -> Result<Written, ConfigFault>
    ensures written { Gives (λ w. w) result (written_parts format (map view sets.now) (table_view table.now)) }
    ensures listable { IfOk result (λ w. IsTrue (is_listable format w)) }
{
    let rule = rule_parts(alloc, format, sets, table)?;
    let note = note_at(alloc, format, table)?;
    let audit = flag_at(format, false, "audit", table)?;
    let enabled = flag_at(format, true, "enabled", table)?;
    Ok(Written {
        rule,
        note,
        audit,
        enabled,
        both_ways: is_both_ways(format, table),
    })
}

/// The rule itself.
fn rule_parts(
    alloc: Global,
    format: Format,
    sets: &[Value],
    table: &Table,
) -> Result<Rule, ConfigFault>
    ensures rule { Gives (λ r. r) result (rule_parts format (map view sets.now) (table_view table.now)) }
    ensures configurable { IfOk result (λ r. IsTrue (is_configurable format r)) }
    ensures joined { let both = is_both_ways format (table_view table.now) in
        IfOk result (λ r. IsTrue (is_joined format both r)) }
    ensures loud { IfOk result (λ r. IsTrue (names_stations format || not r.quiet)) }
{
    let both_ways = is_both_ways(format, table);
    let name = name(both_ways, at("name", table)?)?;
    let allow = value::boolean(at("allow", table)?)?;
    let ranges = fields_of(alloc, naming_by(format, both_ways), sets, table)?;
    let quiet = flag_at(format, false, "quiet", table)?;
    Ok(Rule {
        name: RuleName::new(name)?,
        allow,
        quiet,
        ranges,
    })
}

/// The name of a rule, which is short where it goes both ways.
fn name(both_ways: bool, value: &Value) -> Result<&str, ConfigFault>
    ensures name { plain.Gives (λ t. t.now) result (name_in both_ways (view value.now)) }
    ensures shape { IfOk result (λ t. IsTrue (is_name t.now)) }
    ensures own { IfOk result (λ t. IsFalse (is_no_rule t.now)) }
    ensures short { IfOk result (λ t. IsTrue (not both_ways || nat_le (length t.now) 27)) }
{
    if both_ways {
        value::short_name(value)
    } else {
        value::rule_name(value)
    }
}

/// True or false at a key that format 3 alone has, and that may be missing.
fn flag_at(format: Format, default: bool, key: &str, table: &Table) -> Result<bool, ConfigFault>
    ensures flag { plain.Gives (λ b. b) result (flag_at format default key.now (table_view table.now)) }
    ensures plain { IfOk result (λ b. IsTrue (names_stations format || is_bool default b)) }
{
    if format.names_stations() {
        optional_boolean(default, key, table)
    } else {
        Ok(default)
    }
}

/// The note of a rule.
fn note_at(alloc: Global, format: Format, table: &Table) -> Result<Text, ConfigFault>
    ensures note { Gives (λ n. n) result (note_at format (table_view table.now)) }
    ensures plain { IfOk result (λ n. IsTrue (names_stations format || (length n == 0))) }
{
    if format.names_stations() {
        optional_text(alloc, "", "note", table)
    } else {
        Text::new(alloc, 0, "")
    }
}

/// The ranges for each field, by what may be named so.
pub(crate) fn fields_of(
    alloc: Global,
    naming: Naming,
    sets: &[Value],
    table: &Table,
) -> Result<Fields<Ranges>, ConfigFault>
    ensures fields { Gives (λ fs. fs) result (fields_of naming (map view sets.now) (table_view table.now)) }
    ensures limited { IfOk result (λ fs. IsTrue (are_limited naming fs)) }
{
    Ok(Fields {
        operation: ranges_at(alloc, naming, sets, FieldName::Operation, table)?,
        port: ranges_at(alloc, naming, sets, FieldName::Port, table)?,
        source_network: ranges_at(alloc, naming, sets, FieldName::SourceNetwork, table)?,
        source_key: ranges_at(alloc, naming, sets, FieldName::SourceKey, table)?,
        destination_network: ranges_at(alloc, naming, sets, FieldName::DestinationNetwork, table)?,
        service: ranges_at(alloc, naming, sets, FieldName::Service, table)?,
        object_type: ranges_at(alloc, naming, sets, FieldName::ObjectType, table)?,
        instance: ranges_at(alloc, naming, sets, FieldName::Instance, table)?,
        property: ranges_at(alloc, naming, sets, FieldName::Property, table)?,
        priority: ranges_at(alloc, naming, sets, FieldName::Priority, table)?,
        sender: station_ranges_at(alloc, naming, sets, FieldName::Sender, table)?,
        station: station_ranges_at(alloc, naming, sets, FieldName::Station, table)?,
    })
}

/// The ranges for a field, each within its limits.
fn ranges_at(
    alloc: Global,
    naming: Naming,
    sets: &[Value],
    field: FieldName,
    table: &Table,
) -> Result<Ranges, ConfigFault>
    ensures ranges { Gives (λ rs. rs) result (ranges_at naming (map view sets.now) field (table_view table.now)) }
    ensures limited { IfOk result (λ rs. IsTrue (is_limited naming field rs)) }
{
    let of = scalar_for(naming, field);
    if format_by(naming).names_stations() {
        long_ranges_at(alloc, sets, of, field, table)
    } else {
        short_ranges_at(alloc, of, field, table)
    }
}

/// The ranges for the sender or the station, which formats 1 and 2 don't have.
fn station_ranges_at(
    alloc: Global,
    naming: Naming,
    sets: &[Value],
    field: FieldName,
    table: &Table,
) -> Result<Ranges, ConfigFault>
    ensures ranges { Gives (λ rs. rs) result (station_ranges_at naming (map view sets.now) field (table_view table.now)) }
    ensures limited { IfOk result (λ rs. IsTrue (is_limited naming field rs)) }
{
    if format_by(naming).names_stations() {
        long_ranges_at(alloc, sets, scalar_for(naming, field), field, table)
    } else {
        Ok(Ranges::new(alloc))
    }
}

/// The ranges for a field in format 3.
fn long_ranges_at(
    alloc: Global,
    sets: &[Value],
    of: Scalar,
    field: FieldName,
    table: &Table,
) -> Result<Ranges, ConfigFault>
    ensures ranges { Gives (λ rs. rs) result (long_ranges_at (map view sets.now) of field (table_view table.now)) }
    ensures within { IfOk result (λ rs. IsTrue (list_all (is_within (bounds_of of)) rs)) }
    ensures few { IfOk result (λ rs. IsTrue (nat_le (length rs) 256)) }
{
    let list = list_at(0, MAX_ITEMS, field.key(), table)?;
    let ranges = items::ranges(alloc, sets, of, list)?;
    if MAX_LONG_RANGES < ranges.len() {
        return Err(ConfigFault::TooMany);
    }
    Ok(ranges)
}

/// The ranges for a field in formats 1 and 2.
fn short_ranges_at(
    alloc: Global,
    of: Scalar,
    field: FieldName,
    table: &Table,
) -> Result<Ranges, ConfigFault>
    ensures ranges { Gives (λ rs. rs) result (short_ranges_at of field (table_view table.now)) }
    ensures within { IfOk result (λ rs. IsTrue (list_all (is_within (bounds_of of)) rs)) }
    ensures few { IfOk result (λ rs. IsTrue (nat_le (length rs) 256)) }
{
    let items = list_at(0, MAX_RANGES, field.key(), table)?;
    ranges(alloc, of, items)
}

/// The ranges that some items name, in order.
fn ranges(alloc: Global, of: Scalar, values: &[Value]) -> Result<Ranges, ConfigFault>
    ensures ranges { Gives (λ rs. rs) result (each (range_in of) (map view values.now)) }
    ensures within { IfOk result (λ rs. IsTrue (list_all (is_within (bounds_of of)) rs)) }
{
    let mut all = Ranges::new(alloc);
    for value in values {
        all.push(range(of, value)?)?;
    }
    Ok(all)
}

/// The fault of the rules of the list up to those of the table at this position, in format 3: they are too many, or
/// have too many ranges for a field.
pub(crate) fn crowd<'a>(format: Format, rule: usize, rules: &[Rule]) -> Option<Located<'a>>
    ensures { option_map located_view result ≡ crowd format rule rules.now }
{
    if format.names_stations() {
        long_crowd(rule, rules)
    } else {
        None
    }
}

fn long_crowd<'a>(rule: usize, rules: &[Rule]) -> Option<Located<'a>>
    ensures { option_map located_view result ≡ long_crowd rule rules.now }
{
    if MAX_RULES < rules.len() {
        let place = Place::Rule(rule);
        return Some(Located::at_table(place, ConfigFault::TooMany, None));
    }
    Some(crowded_at(Format::Three, rule, crowded(rules)?))
}

fn crowded_at<'a>(format: Format, rule: usize, field: FieldName) -> Located<'a>
    ensures { located_view result ≡ crowded_at format rule field }
{
    Located {
        fault: ConfigFault::TooMany,
        place: Place::Rule(rule),
        key: field.key(),
        item: None,
        wanted: Some(Shape::Items(scalar_of(format, field))),
    }
}

/// The first field of which the rules have more than 2048 ranges in all.
#[tactic(auto, unfolding(crate::specs::Policy::crowded))]
fn crowded(rules: &[Rule]) -> Option<FieldName>
    ensures { result ≡ crowded rules.now }
{
    FieldName::ALL
        .iter()
        .copied()
        .find(|field| is_crowded(rules, *field))
}

fn is_crowded(rules: &[Rule], field: FieldName) -> bool
    ensures { result ≡ nat_lt MAX_RANGES_IN_ALL (ranges_in_all rules.now field) }
{
    let mut left = MAX_RANGES_IN_ALL;
    for rule in rules {
        match left.checked_sub(rule.ranges(field).len()) {
            Some(rest) => left = rest,
            None => return true,
        }
    }
    false
}
