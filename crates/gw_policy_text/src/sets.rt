//! What the sets of a configuration are read to.
ghost use Rattle.std.specs.Prelude.{◌≡◌, length, map, option_map, IfOk};
ghost use Rattle.std.specs.List.{list_any};
ghost use Rattle.toml.specs.Data.{get_member};
ghost use Rattle.toml.specs.View.{table_view, view};
ghost use Rattle.gw_configuration.specs.Reading.{Finds, Gives};
ghost use Rattle.gw_policy_text.specs.Parts.{each_at, list_or};
ghost use Rattle.gw_policy_text.specs.Policy.{is_mention, is_used, is_used_by, mentions, mentions_for, mentions_in, set_in, set_of, set_parts};
ghost use Rattle.gw_policy_text.specs.keys.Value.{table_in};
ghost use Rattle.gw_rules.specs.declared.field.TheConstants.FieldName.{ALL};

use crate::keys::items::set_name;
use crate::keys::located_in;
use crate::keys::tables::set_fields;
use crate::keys::value::{self, table};
use crate::reading::{any_list, at};
use gw_addr::Sequence;
use gw_configuration::{ConfigFault, Located, Place, Set};
use gw_rules::{FieldName, RuleName};
use std::alloc::Global;
use toml::{Table, Value};

/// The sets that some values say, in order, each with whether one of the rules or assertions names it, or the
/// first fault with its place.
pub(crate) fn sets<'a>(
    alloc: Global,
    rules: &[Value],
    assertions: &[Value],
    values: &'a [Value],
) -> Result<Sequence<Set>, Located<'a>>
    ensures count { IfOk result (λ ss. length ss ≡ length values.now) }
    ensures sets { Finds (λ ss. ss) result
        (each_at (set_in (map view rules.now) (map view assertions.now)) 0 (map view values.now)) }
{
    let mut all = Sequence::new(alloc);
    for (place, value) in values.iter().enumerate() {
        all.push(set(rules, assertions, place, value)?)?;
    }
    Ok(all)
}

/// The set that a value says, at this position.
fn set<'a>(
    rules: &[Value],
    assertions: &[Value],
    set: usize,
    value: &'a Value,
) -> Result<Set, Located<'a>>
    ensures { Finds (λ s. s) result (set_in (map view rules.now) (map view assertions.now) set (view value.now)) }
{
    set_of_table(rules, assertions, set, table(value)?)
}

#[tactic(auto, unfolding(crate::specs::Policy::set_of))]
fn set_of_table<'a>(
    rules: &[Value],
    assertions: &[Value],
    set: usize,
    table: &'a Table,
) -> Result<Set, Located<'a>>
    ensures { Finds (λ s. s) result (set_of (map view rules.now) (map view assertions.now) set (table_view table.now)) }
{
    match located_in(Place::Set(set), &set_fields(), table) {
        Some(located) => Err(located),
        None => Ok(set_parts(rules, assertions, table)?),
    }
}

/// The parts of a table without a fault.
fn set_parts(rules: &[Value], assertions: &[Value], table: &Table) -> Result<Set, ConfigFault>
    ensures { Gives (λ s. s) result (set_parts (map view rules.now) (map view assertions.now) (table_view table.now)) }
{
    let text = value::rule_name(at("name", table)?)?;
    let used = is_used(rules, assertions, text);
    let name = RuleName::new(text)?;
    Ok(Set { name, used })
}

/// Whether one of the rules or assertions names a set.
fn is_used(rules: &[Value], assertions: &[Value], name: &str) -> bool
    ensures { result ≡ is_used (map view rules.now) (map view assertions.now) name.now }
{
    is_used_by(rules, name) || is_used_by(assertions, name)
}

#[tactic(auto, using(crate::proofs::keys_lemmas::Values::any_view))]
fn is_used_by(tables: &[Value], name: &str) -> bool
    ensures { result ≡ is_used_by (map view tables.now) name.now }
{
    any_mentions(tables, name)
}

fn any_mentions(tables: &[Value], name: &str) -> bool
    ensures { result ≡ list_any (λ table. mentions name.now (table_in (view table))) tables.now }
{
    tables.iter().any(|table| mentions(name, table))
}

/// Whether a rule or an assertion names a set.
fn mentions(name: &str, by: &Value) -> bool
    ensures { result ≡ mentions name.now (table_in (view by.now)) }
{
    match table(by) {
        Ok(table) => mentions_for_any(name, table),
        Err(_) => false,
    }
}

fn mentions_for_any(name: &str, table: &Table) -> bool
    ensures { result ≡ list_any (mentions_for name.now (table_view table.now)) ALL }
{
    FieldName::ALL
        .iter()
        .any(|field| mentions_for(name, table, *field))
}

/// Whether its table names a set for a field.
fn mentions_for(name: &str, table: &Table, field: FieldName) -> bool
    ensures { result ≡ mentions_for name.now (table_view table.now) field }
{
    match any_list(field.key(), table) {
        Ok(items) => are_mentions(name, items),
        Err(_) => false,
    }
}

#[tactic(auto, using(crate::proofs::keys_lemmas::Values::any_view))]
fn are_mentions(name: &str, items: &[Value]) -> bool
    ensures { result ≡ list_any (is_mention name.now) (map view items.now) }
{
    any_mention(name, items)
}

fn any_mention(name: &str, items: &[Value]) -> bool
    ensures { result ≡ list_any (λ item. is_mention name.now (view item)) items.now }
{
    items.iter().any(|item| is_mention(name, item))
}

/// Whether an item names a set.
fn is_mention(name: &str, item: &Value) -> bool
    ensures { result ≡ is_mention name.now (view item.now) }
{
    match set_name(item) {
        Some(other) => other == name,
        None => false,
    }
}
