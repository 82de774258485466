//! How the index of a field is built.
ghost use Rattle.std.specs.Prelude.{◌≡◌, ◌+◌, ◌++◌, IfOk, OnOk, length, map};
ghost use Rattle.std.specs.List.{flat_map};
ghost use Rattle.gw_rules.specs.RuleList.{KeepsLongCounts};
ghost use Rattle.gw_rule_index.specs.internal.Bounds.{bound_at, ends, field_ends};
ghost use Rattle.gw_rule_index.specs.internal.Field.{HasRows, IsIndexOf};

use crate::bound::Bound;
use crate::field_index::FieldIndex;
use crate::row::Row;
use gw_rules::{FieldName, Range, Rule};
use std::alloc::{AllocError, Global};

impl FieldIndex {
    /// The index of a field of these rules. `AllocError` if memory was refused.
    pub(crate) fn build(alloc: Global, rules: &[Rule], field: FieldName) -> Result<Self, AllocError>
        requires { KeepsLongCounts rules.now }
        ensures { IfOk result (λ index. IsIndexOf rules.now field index) }
    {
        let mut numbers = ends_of(alloc, rules, field)?;
        numbers.sort_unstable();
        numbers.dedup();
        let rows = rows_of(alloc, rules, field, &numbers)?;
        let bounds = bounds_of(alloc, &numbers)?;
        Ok(FieldIndex {
            bounds,
            rows,
            absent: Row::admitting(rules, field, None),
        })
    }
}

/// The numbers at which a range of the field begins, or ends before.
fn ends_of(alloc: Global, rules: &[Rule], field: FieldName) -> Result<Vec<u64>, AllocError>
    ensures { IfOk result (λ numbers. numbers.items ≡ field_ends field rules.now) }
{
    let mut numbers = Vec::new(alloc);
    for rule in rules {
        add_ends(&mut numbers, rule.ranges(field).as_slice())?;
    }
    Ok(numbers)
}

/// Adds the numbers at which one of the ranges begins, or ends before.
fn add_ends(numbers: &mut Vec<u64>, ranges: &[Range]) -> Result<(), AllocError>
    ensures { OnOk result (numbers.new.items ≡ numbers.old.items ++ flat_map ends ranges.now) }
{
    for range in ranges {
        add_ends_of(numbers, range)?;
    }
    Ok(())
}

/// Adds the number at which the range begins, and the one that it ends before.
fn add_ends_of(numbers: &mut Vec<u64>, range: &Range) -> Result<(), AllocError>
    ensures { OnOk result (numbers.new.items ≡ numbers.old.items ++ ends range.now) }
{
    numbers.push(range.low)?;
    if let Some(next) = range.high.checked_add(1) {
        numbers.push(next)?;
    }
    Ok(())
}

/// The bounds at these numbers.
fn bounds_of(alloc: Global, numbers: &[u64]) -> Result<Vec<Bound>, AllocError>
    ensures { IfOk result (λ bounds. bounds.items ≡ map bound_at numbers.now) }
{
    numbers
        .iter()
        .map(|number| Bound::new(*number))
        .collect(alloc)
}

/// A row for the values below the first number, and one from each number on.
fn rows_of(
    alloc: Global,
    rules: &[Rule],
    field: FieldName,
    numbers: &[u64],
) -> Result<Vec<Row>, AllocError>
    ensures len { IfOk result (λ rows. length rows.items ≡ length numbers.now + 1) }
    ensures rows { IfOk result (λ rows. HasRows rules.now field numbers.now rows.items) }
{
    let mut rows = Vec::new(alloc);
    rows.push(Row::admitting(rules, field, Some(0)))?;
    for number in numbers {
        rows.push(Row::admitting(rules, field, Some(*number)))?;
    }
    Ok(rows)
}
