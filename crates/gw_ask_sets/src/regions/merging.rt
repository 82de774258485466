//! One region in the place of two that differ in one field alone.
ghost use Rattle.std.specs.Prelude.{◌≡◌, ◌++◌, ◌∷◌, ◌<◌, [], true, IfOk, IfSome, List, OnOk, length};
ghost use Rattle.std.specs.List.{HoldsAt};
ghost use Rattle.gw_rules.specs.Ask.{Ask as SpecAsk};
ghost use Rattle.gw_ask_sets.specs.regions.Merging.{AreJoint, AreKept, IsJoined, has_but, lies_but};
ghost use Rattle.gw_ask_sets.specs.declared.regions.comparison.Found.{Found as SpecFound};

use crate::regions::Found;
use crate::regions::region::Region;
use gw_rules::FieldName;
use std::alloc::{AllocError, Global};

/// Whether two regions are seen to have the same values in a field, or it is the one that doesn't matter.
fn same_at(field: FieldName, other: FieldName, a: &Region, b: &Region) -> bool
    ensures { result ≡ true → (ask : SpecAsk) → has_but field other a.now ask ≡ has_but field other b.now ask }
{
    other.number() == field.number() || a.get(other).is_same(b.get(other))
}

/// Whether two regions are seen to have the same values in every other field.
fn same_but(field: FieldName, a: &Region, b: &Region) -> bool
    ensures { result ≡ true → (ask : SpecAsk) → lies_but field a.now ask ≡ lies_but field b.now ask }
{
    for other in FieldName::ALL.iter() {
        if !same_at(field, *other, a, b) {
            return false;
        }
    }
    true
}

/// The first field in which two regions aren't seen to have the same values, or else the operation.
fn first_other(a: &Region, b: &Region) -> FieldName {
    for field in FieldName::ALL.iter() {
        if !a.get(*field).is_same(b.get(*field)) {
            return *field;
        }
    }
    FieldName::Operation
}

fn same_numbers(a: &[usize], b: &[usize]) -> bool
    ensures { result ≡ true → a.now ≡ b.now }
{
    if a.len() != b.len() {
        return false;
    }
    for place in 0..a.len() {
        if a[place] != b[place] {
            return false;
        }
    }
    true
}

fn say_the_same(a: &Found, b: &Found) -> bool
    ensures allows { result ≡ true → a.now.allows ≡ b.now.allows }
    ensures old { result ≡ true → a.now.old_rules.items ≡ b.now.old_rules.items }
    ensures new { result ≡ true → a.now.new_rules.items ≡ b.now.new_rules.items }
{
    a.allows == b.allows
        && same_numbers(a.old_rules.as_slice(), b.old_rules.as_slice())
        && same_numbers(a.new_rules.as_slice(), b.new_rules.as_slice())
}

/// The field in which alone two regions differ, if they say the same.
fn joint_of(a: &Found, b: &Found) -> Option<FieldName>
    ensures { IfSome result (λ field. AreJoint field a.now b.now) }
{
    if !say_the_same(a, b) {
        return None;
    }
    let field = first_other(&a.region, &b.region);
    if same_but(field, &a.region, &b.region) {
        Some(field)
    } else {
        None
    }
}

/// A region that can be made one with this, by its place and the field.
#[derive(Clone, Copy)]
struct Partner {
    place: usize,
    field: FieldName,
}

fn partner_of(done: &[Found], found: &Found) -> Option<Partner>
    ensures { IfSome result (λ p. (p.place < length done.now) × HoldsAt (AreJoint p.field found.now) done.now p.place) }
{
    for place in 0..done.len() {
        if let Some(field) = joint_of(found, &done[place]) {
            return Some(Partner { place, field });
        }
    }
    None
}

/// One in the place of two.
fn join(alloc: Global, field: FieldName, mut one: Found, other: Found) -> Result<Found, AllocError>
    ensures { IfOk result (λ both. AreJoint field one other → IsJoined both one other) }
{
    let here = one.region.get(field);
    let there = other.region.get(field);
    let values = here.united(alloc, there)?;
    one.region.set(field, values);
    Ok(one)
}

/// Puts a region after the others, made one with those that differ from it in one field alone.
fn put_merged(alloc: Global, done: &mut Vec<Found>, found: Found) -> Result<(), AllocError>
    ensures { OnOk result ((rest : List SpecFound) →
        AreKept (rest ++ (done.old.items ++ found ∷ [])) (rest ++ done.new.items)) }
{
    let mut carried = found;
    while let Some(partner) = partner_of(done.as_slice(), &carried) {
        let other = done.swap_remove(partner.place);
        carried = join(alloc, partner.field, carried, other)?;
    }
    done.push(carried)?;
    Ok(())
}

/// Makes one region of two that say the same and differ in one field alone, until there are no such two. An
/// ask is found after this exactly if it was found before it, and what was right of what was found is right:
/// the verdicts, the deciding rules and the asks. An `Err` if there is no memory.
pub fn merge(alloc: Global, found: Vec<Found>) -> Result<Vec<Found>, AllocError>
    ensures { IfOk result (λ merged. AreKept found.items merged.items) }
{
    let mut rest = found;
    let mut done = Vec::new(alloc);
    while let Some(next) = rest.pop() {
        put_merged(alloc, &mut done, next)?;
    }
    Ok(done)
}
