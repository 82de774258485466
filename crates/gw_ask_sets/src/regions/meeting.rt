//! Asks that lie in a region and in a shape, and the region from which a comparison starts.
ghost use Rattle.std.specs.Prelude.{◌≡◌, ◌≤◌, ◌&&◌, ℕ, true, false, None, Some, IfSome, IfOk};
ghost use Rattle.std.specs.List.{list_any};
ghost use Rattle.gw_rules.specs.Ask.{Ask as SpecAsk};
ghost use Rattle.gw_rules.specs.Fields.{value_of};
ghost use Rattle.gw_rules.specs.Range.{holds};
ghost use Rattle.gw_rules.specs.Rule.{each_field};
ghost use Rattle.gw_rules.specs.declared.field.FieldName.{FieldName as SpecField};
ghost use Rattle.gw_ask_sets.specs.regions.Regions.{lies, lies_in_one};
ghost use Rattle.gw_ask_sets.specs.regions.Values.{common, has};
ghost use Rattle.gw_ask_sets.specs.regions.Meeting.{AreCommon, any_to, have_common};

use crate::regions::ranges::greater;
use crate::regions::{Region, Values};
use gw_addr::Sequence;
use gw_rules::{Ask, FieldName, Fields, Range};
use std::alloc::{AllocError, Global};
use std::convert::Infallible;

/// Whether two regions have a value in common in each field.
fn have_common(a: &Region, b: &Region) -> bool
    ensures { result ≡ have_common a.now b.now }
{
    FieldName::ALL
        .iter()
        .all(|field| a.get(*field).shares(b.get(*field)))
}

/// In each field a value that both regions have, if there is one.
fn common_ask(a: &Region, b: &Region) -> Ask
    ensures { AreCommon a.now b.now result }
{
    match Fields::try_from_each(|field| common_value(a, b, field)) {
        Ok(ask) => ask,
        Err(never) => match never {},
    }
}

fn common_value(a: &Region, b: &Region, field: FieldName) -> Result<Option<u64>, Infallible>
    ensures { IfOk result (λ value. value ≡ common (value_of field a.now) (value_of field b.now)) }
{
    Ok(a.get(field).common(b.get(field)))
}

/// An ask that lies in both regions, or none if there is none. It takes no memory.
#[tactic(auto, using(crate::proofs::regions_lemmas::MeetingLaw::common_lies, crate::proofs::regions_lemmas::MeetingLaw::nothing_common))]
pub fn ask_of_both(a: &Region, b: &Region) -> Option<Ask>
    ensures some { IfSome result (λ ask. (lies a.now ask && lies b.now ask) ≡ true) }
    ensures none { result ≡ None → (ask : SpecAsk) → (lies a.now ask && lies b.now ask) ≡ false }
{
    if have_common(a, b) {
        Some(common_ask(a, b))
    } else {
        None
    }
}

/// An ask that lies in the region, or none if there is none: each field is a number, if it may be one. It takes no
/// memory.
#[tactic(auto, using(crate::proofs::regions_lemmas::MeetingLaw::twice))]
pub fn ask_in(region: &Region) -> Option<Ask>
    ensures some { IfSome result (λ ask. lies region.now ask ≡ true) }
    ensures none { result ≡ None → (ask : SpecAsk) → lies region.now ask ≡ false }
{
    ask_of_both(region, region)
}

/// An ask that lies in the region and in one of the shapes, or none if there is none. It takes no memory.
pub(crate) fn ask_within(region: &Region, shapes: &[Region]) -> Option<Ask>
    ensures some { IfSome result (λ ask. (lies region.now ask && lies_in_one shapes.now ask) ≡ true) }
    ensures none { result ≡ None → (ask : SpecAsk) →
        (lies region.now ask && lies_in_one shapes.now ask) ≡ false }
{
    for shape in shapes {
        if let Some(ask) = ask_of_both(region, shape) {
            return Some(ask);
        }
    }
    None
}

/// The greatest number of the ranges, or the one that is given, if that is greater.
fn last_of(ranges: &[Range], given: u64) -> u64
    ensures least { given ≤ result }
    ensures all { (number : ℕ) → list_any (holds number) ranges.now ≡ true → number ≤ result }
{
    let mut last = given;
    for range in ranges {
        last = greater(last, range.high);
    }
    last
}

/// The greatest number that the shapes have for a field, or the one that is given, if that is greater.
fn last_for(shapes: &[Region], field: FieldName, given: u64) -> u64
    ensures least { given ≤ result }
    ensures all { (number : ℕ) →
        list_any (λ shape. has (value_of field shape) (Some number)) shapes.now ≡ true →
        number ≤ result }
{
    let mut last = given;
    for shape in shapes {
        last = last_of(shape.get(field).ranges.as_slice(), last);
    }
    last
}

/// The greatest number that the shapes have in any field.
fn last_number(shapes: &[Region]) -> u64
    ensures { (field : SpecField) (number : ℕ) →
        list_any (λ shape. has (value_of field shape) (Some number)) shapes.now ≡ true →
        number ≤ result }
{
    let mut last = 0;
    for field in FieldName::ALL.iter() {
        last = last_for(shapes, *field, last);
    }
    last
}

/// Absent, or a number from 0 to the last one.
fn any_value(alloc: Global, last: u64) -> Result<Values, AllocError>
    ensures { IfOk result (λ values. values ≡ any_to last) }
{
    let mut ranges = Sequence::new(alloc);
    ranges.push(Range { low: 0, high: last })?;
    Ok(Values {
        absent: true,
        ranges,
    })
}

/// The region whose every field has any value to the last one.
fn region_to(alloc: Global, last: u64) -> Result<Region, AllocError>
    ensures { IfOk result (λ region. (field : SpecField) → value_of field region ≡ any_to last) }
{
    Fields::try_from_each(|_field| any_value(alloc, last))
}

/// A region that has every ask of the shapes: each field is absent, or has a number to the greatest one of
/// the shapes.
pub(crate) fn region_over(alloc: Global, shapes: &[Region]) -> Result<Region, AllocError>
    ensures { IfOk result (λ region. (ask : SpecAsk) →
        lies_in_one shapes.now ask ≡ true → lies region ask ≡ true) }
{
    let last = last_number(shapes);
    let region = region_to(alloc, last)?;
    Ok(region)
}
