//! The ranges of a rule for each field: those of one ask, and one in the place of two.
ghost use Rattle.std.specs.Prelude.{◌≡◌, ◌||◌, Bool, ℕ, Option, true, IfOk, IfSome};
ghost use Rattle.gw_rules.specs.Ask.{Ask as SpecAsk};
ghost use Rattle.gw_rules.specs.Fields.{value_of, with_value};
ghost use Rattle.gw_rules.specs.Range.{admits};
ghost use Rattle.gw_policy_drafts.specs.suggestion.Own.{admits_but, covers, covers_but, is_reading, own_ranges, own_service, own_values};

use gw_ask_sets::regions::{copy_fields, united};
use gw_configuration::sameness::are_same;
use gw_rules::{Ask, FieldName, Fields, Operation, Range, Ranges};
use std::alloc::{AllocError, Global};

/// Ranges for each of the twelve fields, as a rule has them.
pub(crate) type Group = Fields<Ranges>;

/// The ranges that name a field of an ask.
fn own_values(alloc: Global, value: Option<u64>) -> Result<Ranges, AllocError>
    ensures { IfOk result (λ made. made ≡ own_values value) }
{
    let mut made = Ranges::new(alloc);
    if let Some(number) = value {
        made.push(Range::only(number))?;
    }
    Ok(made)
}

/// Whether an ask is for a read or a list.
fn is_reading(ask: &Ask) -> bool
    ensures { result ≡ is_reading ask.now }
{
    match ask.operation {
        Some(number) => number == Operation::Read.number() || number == Operation::List.number(),
        None => false,
    }
}

/// The ranges that name the service of an ask, if it is named.
fn own_service(alloc: Global, keeps: bool, ask: &Ask) -> Result<Ranges, AllocError>
    ensures { IfOk result (λ made. made ≡ own_service keeps ask.now) }
{
    if keeps || !is_reading(ask) {
        own_values(alloc, ask.service)
    } else {
        Ok(Ranges::new(alloc))
    }
}

/// The ranges that name a field of an ask, if it is named.
#[tactic(auto, unfolding(crate::specs::suggestion::Own::own_ranges))]
fn own_ranges_at(
    alloc: Global,
    keeps: bool,
    ask: &Ask,
    field: FieldName,
) -> Result<Ranges, AllocError>
    ensures { IfOk result (λ made. made ≡ value_of field (own_ranges keeps ask.now)) }
{
    match field {
        FieldName::Service => own_service(alloc, keeps, ask),
        _ => own_values(alloc, *ask.get(field)),
    }
}

/// The ranges that name each field that an ask has; the service of a read and of a list only if it is kept.
pub(crate) fn own_ranges(alloc: Global, keeps: bool, ask: &Ask) -> Result<Group, AllocError>
    ensures { IfOk result (λ made. made ≡ own_ranges keeps ask.now) }
{
    Fields::try_from_each(|field| own_ranges_at(alloc, keeps, ask, field))
}

/// The same with other ranges for a field.
pub(crate) fn with_ranges(
    alloc: Global,
    group: &Group,
    field: FieldName,
    ranges: Ranges,
) -> Result<Group, AllocError>
    ensures { IfOk result (λ made. made ≡ with_value field ranges group.now) }
{
    let mut made = copy_fields(alloc, group)?;
    made.set(field, ranges);
    Ok(made)
}

/// Whether two have the same ranges for a field, or it is the one that doesn't matter.
fn same_at(field: FieldName, other: FieldName, a: &Group, b: &Group) -> bool
    ensures { result ≡ true → (ask : SpecAsk) → admits_but field other a.now ask ≡ admits_but field other b.now ask }
{
    other.number() == field.number() || are_same(a.get(other).as_slice(), b.get(other).as_slice())
}

/// Whether two have the same ranges for every other field.
pub(crate) fn same_but(field: FieldName, a: &Group, b: &Group) -> bool
    ensures { result ≡ true → (ask : SpecAsk) → covers_but field a.now ask ≡ covers_but field b.now ask }
{
    for other in FieldName::ALL.iter() {
        if !same_at(field, *other, a, b) {
            return false;
        }
    }
    true
}

/// The ranges that admit what one of two lists of them admits, if there are such: there aren't if only one
/// names the field.
#[tactic(auto, using(crate::proofs::suggestion_lemmas::GroupLaw::admits_united))]
fn joined_ranges(alloc: Global, a: &Ranges, b: &Ranges) -> Result<Option<Ranges>, AllocError>
    ensures { IfOk result (λ made. IfSome made (λ all. (value : Option ℕ) →
        admits all value ≡ (admits a.now value || admits b.now value))) }
{
    if a.is_empty() && b.is_empty() {
        return Ok(Some(Ranges::new(alloc)));
    }
    if a.is_empty() || b.is_empty() {
        return Ok(None);
    }
    let all = united(alloc, a.as_slice(), b.as_slice())?;
    if all.is_empty() {
        return Ok(None);
    }
    Ok(Some(all))
}

/// One in the place of two that differ in this field alone, if they do: it covers exactly what they cover.
#[tactic(auto, using(crate::proofs::suggestion_lemmas::GroupLaw::joined_covers))]
pub(crate) fn joined(
    alloc: Global,
    field: FieldName,
    a: &Group,
    b: &Group,
) -> Result<Option<Group>, AllocError>
    ensures { IfOk result (λ made. IfSome made (λ both. (ask : SpecAsk) →
        covers both ask ≡ (covers a.now ask || covers b.now ask))) }
{
    if !same_but(field, a, b) {
        return Ok(None);
    }
    match joined_ranges(alloc, a.get(field), b.get(field))? {
        Some(ranges) => Ok(Some(with_ranges(alloc, a, field, ranges)?)),
        None => Ok(None),
    }
}
