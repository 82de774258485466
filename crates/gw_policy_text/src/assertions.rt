//! What the assertions of a configuration are read to.
ghost use Rattle.std.specs.Prelude.{◌≡◌, filter, length, map, not, IfOk, IsTrue};
ghost use Rattle.std.specs.List.{list_all, list_any};
ghost use Rattle.gw_addr.specs.Reading as plain;
ghost use Rattle.toml.specs.View.{table_view, view};
ghost use Rattle.gw_rules.specs.Range.{holds};
ghost use Rattle.gw_configuration.specs.Configuration.{is_assertable};
ghost use Rattle.gw_configuration.specs.Reading.{Finds, Gives};
ghost use Rattle.gw_policy_text.specs.Parts.{each_at};
ghost use Rattle.gw_policy_text.specs.Policy.{assertion_in, assertion_of, assertion_parts, is_operation, names_any, operations_of, verdict_at};

use crate::keys::located_beside;
use crate::keys::tables::assertion_fields;
use crate::keys::value::{self, ANY_READ, ANY_WRITE, table};
use crate::reading::{at, optional_boolean, optional_text};
use crate::rules::fields_of;
use gw_addr::Sequence;
use gw_configuration::{Assertion, ConfigFault, Located, Naming, Place};
use gw_rules::{Operation, Range, Ranges, RuleName};
use std::alloc::{AllocError, Global};
use toml::{Table, Value};

/// The assertions that some values say, of a text with these sets, in order, or the first fault with its place.
pub(crate) fn assertions<'a>(
    alloc: Global,
    sets: &[Value],
    values: &'a [Value],
) -> Result<Sequence<Assertion>, Located<'a>>
    ensures count { IfOk result (λ all. length all ≡ length values.now) }
    ensures each { IfOk result (λ all. IsTrue (list_all is_assertable all)) }
    ensures assertions { Finds (λ all. all) result (each_at (assertion_in (map view sets.now)) 0 (map view values.now)) }
{
    let mut all = Sequence::new(alloc);
    for (place, value) in values.iter().enumerate() {
        all.push(assertion(alloc, sets, place, value)?)?;
    }
    Ok(all)
}

/// The assertion that a value says, at this position.
fn assertion<'a>(
    alloc: Global,
    sets: &[Value],
    assertion: usize,
    value: &'a Value,
) -> Result<Assertion, Located<'a>>
    ensures assertable { IfOk result (λ a. IsTrue (is_assertable a)) }
    ensures assertion { Finds (λ a. a) result (assertion_in (map view sets.now) assertion (view value.now)) }
{
    assertion_of_table(alloc, sets, assertion, table(value)?)
}

#[tactic(auto, unfolding(crate::specs::Policy::assertion_of))]
fn assertion_of_table<'a>(
    alloc: Global,
    sets: &[Value],
    assertion: usize,
    table: &'a Table,
) -> Result<Assertion, Located<'a>>
    ensures assertable { IfOk result (λ a. IsTrue (is_assertable a)) }
    ensures assertion { Finds (λ a. a) result (assertion_of (map view sets.now) assertion (table_view table.now)) }
{
    let place = Place::Assertion(assertion);
    match located_beside(sets, place, &assertion_fields(), table) {
        Some(located) => Err(located),
        None => Ok(assertion_parts(alloc, sets, table)?),
    }
}

/// The parts of a table without a fault.
fn assertion_parts(alloc: Global, sets: &[Value], table: &Table) -> Result<Assertion, ConfigFault>
    ensures assertable { IfOk result (λ a. IsTrue (is_assertable a)) }
    ensures assertion { Gives (λ a. a) result (assertion_parts (map view sets.now) (table_view table.now)) }
{
    let name = value::rule_name(at("name", table)?)?;
    let is_allowed = verdict_at("verdict", table)?;
    let mut ranges = fields_of(alloc, Naming::Assertion, sets, table)?;
    let unnamed = optional_boolean(!is_allowed, "unnamed", table)?;
    let note = optional_text(alloc, "", "note", table)?;
    let any_read = names_any(ANY_READ, ranges.operation.as_slice());
    let any_write = names_any(ANY_WRITE, ranges.operation.as_slice());
    ranges.operation = operations_of(alloc, ranges.operation.as_slice())?;
    Ok(Assertion {
        name: RuleName::new(name)?,
        is_allowed,
        ranges,
        any_read,
        any_write,
        unnamed,
        note,
    })
}

/// Whether what is meant is to be allowed. `Missing`, `Kind` or `Range`.
fn verdict_at(key: &str, table: &Table) -> Result<bool, ConfigFault>
    ensures { plain.Gives (λ b. b) result (verdict_at key.now (table_view table.now)) }
{
    value::verdict(at(key, table)?)
}

/// Whether one of the items for the operation is read to this number.
fn names_any(number: u64, items: &[Range]) -> bool
    ensures { result ≡ names_any number items.now }
{
    items.iter().any(|item| item.holds(number))
}

/// Those that are operations.
fn operations_of(alloc: Global, items: &[Range]) -> Result<Ranges, AllocError>
    ensures { IfOk result (λ rs. rs ≡ operations_of items.now) }
{
    let mut operations = Ranges::new(alloc);
    for item in items {
        if is_operation(*item) {
            operations.push(*item)?;
        }
    }
    Ok(operations)
}

fn is_operation(item: Range) -> bool
    ensures { result ≡ is_operation item }
{
    item.high <= Operation::Claim.number()
}
