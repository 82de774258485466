//! What two policies decide otherwise, as JSON objects.

ghost use Rattle.std.specs.Prelude.{◌≡◌, ◌++◌, map, option_map, IfOk, OnOk};
ghost use Rattle.std.specs.List.{flat_map};
ghost use Rattle.std.specs.Str.Lines.{lines};
ghost use Rattle.json.specs.Json.{array, string};
ghost use Rattle.gw_ask_sets.specs.regions.Ranges.{both};
ghost use Rattle.gw_rules.specs.Bounds.{bounds};
ghost use Rattle.gw_rules.specs.declared.format.Format.TheVariants.{Three};
ghost use Rattle.gw_rules.specs.declared.operation.TheConstants.Operation.{ALL};
ghost use Rattle.gw_json.specs.Comparison.{assertions_members, deciders_members, differences_value, end_value, field_member, found_value};
ghost use Rattle.gw_json.specs.Comparison.{is_nothing, lines_value, name_or_null, named_operation, operations_value, other_fields};
ghost use Rattle.gw_json.specs.Comparison.{parts_members, range_value, range_values, ranges_value, rule_value, rules_value, summary_value};
ghost use Rattle.gw_json.specs.Comparison.{values_value, outcome_members, verdict_word};
ghost use Rattle.gw_json.specs.Document.{IsLinePut, items_of, object_of};
ghost use Rattle.gw_json.specs.internal.View.{members_view, value_view, values_view};

use crate::ask::key_value;
use crate::value::{Member, Value, count_value, joined, push_value, put_object, text_value};
use gw_ask_sets::regions::{Found, Region, Values, both};
use gw_rules::{FieldName, Format, NO_RULE, Operation, Range, Rule};
use std::alloc::{AllocError, Global};

/// Appends the line of a region in which two policies decide every ask otherwise: what the new one says, the asks, and
/// the names of the rules that decide them, of the new and of the old policy. An `Err` only if memory was refused; the
/// buffer then holds what it held.
///
/// ```text
/// {"verdict":"allowed","operation":["write"],"port":null,"source_network":{"absent":false,"ranges":[[2,2]]},"source":null,..,"by":["panel"],"was_by":["no-writes"]}
/// ```
pub(crate) fn put_found(
    alloc: Global,
    out: &mut Vec<u8>,
    old: &[Rule],
    new: &[Rule],
    found: &Found,
) -> Result<(), AllocError>
    ensures { IsLinePut (found_value old.now new.now found.now) out.old.items out.new.items result }
{
    let members = found_members(alloc, old, new, found)?;
    put_object(alloc, out, members)
}

/// Appends the first line of a comparison: the names of the parts that differ beside the rules, what is said of them, and what
/// is said of assertions, if anything is; of each a text of lines, or null if there is none. An `Err` only if memory was
/// refused; the buffer then holds what it held.
///
/// ```text
/// {"differ":["stations of port 1"],"details":["port 1: 10.9.0.0/24 is a station now"]}
/// {"differ":[],"details":[],"asserts":["assert \"no-late-writes\" is new"]}
/// ```
pub fn put_differences(
    alloc: Global,
    out: &mut Vec<u8>,
    names: Option<&str>,
    details: Option<&str>,
    asserts: Option<&str>,
) -> Result<(), AllocError>
    ensures { let names = option_map (λ text. text.now) names.entry in
        let details = option_map (λ text. text.now) details.entry in
        let asserts = option_map (λ text. text.now) asserts.entry in
        IsLinePut (differences_value names details asserts) out.old.items out.new.items result }
{
    let parts = parts_members(alloc, names, details)?;
    let assertions = assertions_members(alloc, asserts)?;
    put_object(alloc, out, joined(parts, assertions)?)
}

fn parts_members(
    alloc: Global,
    names: Option<&str>,
    details: Option<&str>,
) -> Result<Vec<Member>, AllocError>
    ensures { let names = option_map (λ text. text.now) names.entry in
        let details = option_map (λ text. text.now) details.entry in
        IfOk result (λ members. members_view members.items ≡ parts_members names details) }
{
    let differ = lines_value(alloc, names)?;
    let details = lines_value(alloc, details)?;
    Ok(vec![in alloc; ("differ", differ), ("details", details)]?)
}

/// What is said of assertions, if anything is.
fn assertions_members(alloc: Global, text: Option<&str>) -> Result<Vec<Member>, AllocError>
    ensures { IfOk result (λ members. members_view members.items
        ≡ assertions_members (option_map (λ text. text.now) text.entry)) }
{
    if is_nothing(text) {
        return Ok(Vec::new(alloc));
    }
    let asserts = lines_value(alloc, text)?;
    Ok(vec![in alloc; ("asserts", asserts)]?)
}

/// Whether a text says nothing.
fn is_nothing(text: Option<&str>) -> bool
    ensures { result ≡ is_nothing (option_map (λ text. text.now) text.entry) }
{
    match text {
        Some(text) => text.is_empty(),
        None => false,
    }
}

/// The lines of a text, or null if there is none.
fn lines_value(alloc: Global, text: Option<&str>) -> Result<Value, AllocError>
    ensures { IfOk result (λ value. value_view value ≡ lines_value (option_map (λ text. text.now) text.entry)) }
{
    match text {
        Some(text) => array_of_lines(alloc, text),
        None => Ok(Value::Null),
    }
}

#[tactic(auto, using(crate::proofs::Views::strings_of))]
fn array_of_lines(alloc: Global, text: &str) -> Result<Value, AllocError>
    ensures { IfOk result (λ value. value_view value ≡ array (items_of (map string (lines text.now)))) }
{
    let lines = lines_of(alloc, text)?;
    texts_value(alloc, &lines)
}

/// The lines of a text.
fn lines_of<'a>(alloc: Global, text: &'a str) -> Result<Vec<&'a str>, AllocError>
    ensures { IfOk result (λ found. map (λ line. line.now) found.items ≡ lines text.now) }
{
    text.lines().collect(alloc)
}

fn texts_value(alloc: Global, texts: &[&str]) -> Result<Value, AllocError>
    ensures { IfOk result (λ value. value_view value ≡ array (items_of (map (λ text. string text.now) texts.now))) }
{
    let mut values = Vec::with_capacity(alloc, texts.len())?;
    for text in texts {
        push_value(&mut values, text_value(alloc, text)?)?;
    }
    Ok(Value::Array(values))
}

/// Appends the last line of a comparison by regions: how many it found, whether these are all, and how many steps it took.
/// An `Err` only if memory was refused; the buffer then holds what it held.
///
/// ```text
/// {"kinds":2,"finished":true,"steps":44}
/// ```
pub(crate) fn put_summary(
    alloc: Global,
    out: &mut Vec<u8>,
    kinds: usize,
    finished: bool,
    steps: u32,
) -> Result<(), AllocError>
    ensures { IsLinePut (summary_value kinds finished steps) out.old.items out.new.items result }
{
    let members = summary_members(alloc, kinds, finished, steps)?;
    put_object(alloc, out, members)
}

fn summary_members(
    alloc: Global,
    kinds: usize,
    finished: bool,
    steps: u32,
) -> Result<Vec<Member>, AllocError>
    ensures { IfOk result (λ members. object_of (members_view members.items)
        ≡ summary_value kinds finished steps) }
{
    Ok(vec![in alloc;
        ("kinds", count_value(kinds)),
        ("finished", Value::Boolean(finished)),
        ("steps", Value::Number(u64::from(steps))),
    ]?)
}

fn found_members(
    alloc: Global,
    old: &[Rule],
    new: &[Rule],
    found: &Found,
) -> Result<Vec<Member>, AllocError>
    ensures { IfOk result (λ members. object_of (members_view members.items)
        ≡ found_value old.now new.now found.now) }
{
    let verdict = outcome_members(alloc, found)?;
    let fields = field_members(alloc, &found.region, other_fields())?;
    let deciders = deciders_members(alloc, old, new, found)?;
    joined(verdict, joined(fields, deciders)?)
}

/// What the new policy says of a region, and its operations.
fn outcome_members(alloc: Global, found: &Found) -> Result<Vec<Member>, AllocError>
    ensures { IfOk result (λ members. members_view members.items ≡ outcome_members found.now) }
{
    let operation = operations_value(alloc, &found.region.operation)?;
    Ok(vec![in alloc;
        ("verdict", Value::Word(verdict_word(found.allows))),
        ("operation", operation),
    ]?)
}

/// The names of the rules that decide, now and before.
fn deciders_members(
    alloc: Global,
    old: &[Rule],
    new: &[Rule],
    found: &Found,
) -> Result<Vec<Member>, AllocError>
    ensures { IfOk result (λ members. members_view members.items
        ≡ deciders_members old.now new.now found.now) }
{
    let by = rules_value(alloc, new, &found.new_rules)?;
    let was_by = rules_value(alloc, old, &found.old_rules)?;
    Ok(vec![in alloc; ("by", by), ("was_by", was_by)]?)
}

pub(crate) fn verdict_word(allows: bool) -> &'static str
    ensures { result.now ≡ verdict_word allows }
{
    if allows { "allowed" } else { "denied" }
}

/// The fields but the operation, in the order of their numbers.
fn other_fields() -> &'static [FieldName]
    ensures { result.now ≡ other_fields }
{
    &FieldName::ALL[1..]
}

/// The names of the rules of these numbers.
fn rules_value(alloc: Global, rules: &[Rule], numbers: &[usize]) -> Result<Value, AllocError>
    ensures { IfOk result (λ value. value_view value ≡ rules_value rules.now numbers.now) }
{
    let mut names = Vec::with_capacity(alloc, numbers.len())?;
    for number in numbers {
        push_value(&mut names, rule_value(alloc, rules, *number)?)?;
    }
    Ok(Value::Array(names))
}

/// The name of a rule, `default` for 0, or null if no rule has the number.
pub(crate) fn rule_value(alloc: Global, rules: &[Rule], number: usize) -> Result<Value, AllocError>
    ensures { IfOk result (λ value. value_view value ≡ rule_value rules.now number) }
{
    if number == 0 {
        return Ok(Value::Word(NO_RULE));
    }
    name_or_null(alloc, rules.get(number - 1))
}

fn name_or_null(alloc: Global, rule: Option<&Rule>) -> Result<Value, AllocError>
    ensures { IfOk result (λ value. value_view value
        ≡ name_or_null (option_map (λ rule. rule.now) rule.entry)) }
{
    match rule {
        Some(rule) => text_value(alloc, rule.name.as_str()),
        None => Ok(Value::Null),
    }
}

/// The names of the operations, or null if it may be each.
fn operations_value(alloc: Global, values: &Values) -> Result<Value, AllocError>
    ensures { IfOk result (λ value. value_view value ≡ operations_value values.now) }
{
    if values.has_each_operation() {
        Ok(Value::Null)
    } else {
        operation_names(alloc, values, &Operation::ALL)
    }
}

/// The names of those of the operations that it may be.
fn operation_names(
    alloc: Global,
    values: &Values,
    operations: &[Operation],
) -> Result<Value, AllocError>
    ensures { IfOk result (λ value. value_view value
        ≡ array (items_of (flat_map (named_operation values.now) operations.now))) }
{
    let mut names = Vec::with_capacity(alloc, operations.len())?;
    for operation in operations {
        push_operation(&mut names, values, *operation)?;
    }
    Ok(Value::Array(names))
}

/// Appends the name of an operation if it may be that.
fn push_operation(
    names: &mut Vec<Value>,
    values: &Values,
    operation: Operation,
) -> Result<(), AllocError>
    ensures { OnOk result (values_view names.new.items
        ≡ values_view names.old.items ++ named_operation values.now operation) }
{
    if values.has_operation(operation) {
        push_value(names, Value::Word(operation.name()))?;
    }
    Ok(())
}

/// These fields of a region, each under its key.
#[tactic(auto, using(crate::proofs::Views::members_append))]
fn field_members(
    alloc: Global,
    region: &Region,
    fields: &[FieldName],
) -> Result<Vec<Member>, AllocError>
    ensures { IfOk result (λ members. members_view members.items
        ≡ map (field_member region.now) fields.now) }
{
    let mut members: Vec<Member> = Vec::with_capacity(alloc, fields.len())?;
    for field in fields {
        let value = values_value(alloc, *field, region.get(*field))?;
        members.push((field.key(), value))?;
    }
    Ok(members)
}

/// The values of a field, or null if it may be anything.
fn values_value(alloc: Global, field: FieldName, values: &Values) -> Result<Value, AllocError>
    ensures { IfOk result (λ value. value_view value ≡ values_value field values.now) }
{
    if values.is_any() {
        return Ok(Value::Null);
    }
    let ranges = ranges_value(alloc, field, values.ranges.as_slice())?;
    Ok(Value::Object(vec![in alloc;
        ("absent", Value::Boolean(values.absent)),
        ("ranges", ranges),
    ]?))
}

/// Ranges without the numbers that the field can't have.
fn ranges_value(alloc: Global, field: FieldName, ranges: &[Range]) -> Result<Value, AllocError>
    ensures { IfOk result (λ value. value_view value ≡ ranges_value field ranges.now) }
{
    let mut shown = Vec::with_capacity(alloc, ranges.len())?;
    for range in ranges {
        push_range(alloc, &mut shown, field, range)?;
    }
    Ok(Value::Array(shown))
}

/// Appends a range without the numbers that its field can't have, if others are left.
fn push_range(
    alloc: Global,
    shown: &mut Vec<Value>,
    field: FieldName,
    range: &Range,
) -> Result<(), AllocError>
    ensures { OnOk result (values_view shown.new.items
        ≡ values_view shown.old.items ++ range_values field range.now) }
{
    match possible(field, range) {
        Some(left) => push_value(shown, range_value(alloc, field, &left)?),
        None => Ok(()),
    }
}

fn possible(field: FieldName, range: &Range) -> Option<Range>
    ensures { result ≡ both range.now (bounds Three field) }
{
    both(range, &field.bounds(Format::Three))
}

fn range_value(alloc: Global, field: FieldName, range: &Range) -> Result<Value, AllocError>
    ensures { IfOk result (λ value. value_view value ≡ range_value field range.now) }
{
    let low = end_value(alloc, field, range.low)?;
    let high = end_value(alloc, field, range.high)?;
    Ok(Value::Array(vec![in alloc; low, high]?))
}

/// An end of a range.
fn end_value(alloc: Global, field: FieldName, number: u64) -> Result<Value, AllocError>
    ensures { IfOk result (λ value. value_view value ≡ end_value field number) }
{
    match field {
        FieldName::SourceKey | FieldName::Sender | FieldName::Station => key_value(alloc, number),
        _ => Ok(Value::Number(number)),
    }
}
