//! Ranges that differ in one field alone, made one.
ghost use Rattle.std.specs.Prelude.{◌≡◌, ◌⊎◌, ◌||◌, ◌&&◌, ◌<◌, ◌≤◌, IfOk, IfSome, OnOk, get_or, if◌then◌else◌, length, nat_lt};
ghost use Rattle.gw_rules.specs.Ask.{Ask as SpecAsk};
ghost use Rattle.gw_policy_drafts.specs.suggestion.Own.{CoverAlike, covered, covers};

use crate::suggestion::group::{Group, joined, same_but};
use crate::suggestion::places::{Places, mixed};
use gw_ask_sets::regions::copy_fields;
use gw_rules::FieldName;
use std::alloc::{AllocError, Global};

/// How many ranges of rules are looked at, in each field, before those that are left stay apart: a few seconds' work.
const MOST_LOOKS: usize = 65_536;

/// A number made of the ranges for every other field.
fn number_but(field: FieldName, group: &Group) -> usize {
    let mut number = 0;
    for other in FieldName::ALL.iter() {
        number = number_with(number, field, *other, group);
    }
    number
}

fn number_with(number: usize, field: FieldName, other: FieldName, group: &Group) -> usize {
    if other.number() == field.number() {
        return mixed(number, 0);
    }
    let mut number = mixed(number, 1);
    for range in group.get(other).as_slice() {
        number = mixed(mixed(number, range.low as usize), range.high as usize);
    }
    number
}

/// The place of one that differs from this one in this field alone.
fn partner_of(
    field: FieldName,
    done: &[Group],
    places: &Places,
    number: usize,
    group: &Group,
) -> Option<usize>
    ensures { IfSome result (λ place. place < length done.now) }
{
    for step in 0..done.len() {
        let Some(place) = places.at(number, step) else {
            return None;
        };
        if place < done.len() && same_but(field, &done[place], group) {
            return Some(place);
        }
    }
    None
}

/// One in the place of this and the one at a place, if they differ in this field alone.
fn joined_at(
    alloc: Global,
    field: FieldName,
    done: &[Group],
    place: usize,
    group: &Group,
) -> Result<Option<Group>, AllocError>
    requires { place < length done.now }
    ensures { IfOk result (λ made. IfSome made (λ both. (ask : SpecAsk) →
        covers both ask ≡ (covers (get_or done.now place both) ask || covers group.now ask))) }
{
    let made = joined(alloc, field, &done[place], group)?;
    Ok(made)
}

/// Makes one of this and the one at a place, and answers whether they are made one.
fn join_at(
    alloc: Global,
    field: FieldName,
    done: &mut Vec<Group>,
    place: usize,
    group: &Group,
) -> Result<bool, AllocError>
    requires { place < length done.old.items }
    ensures { IfOk result (λ is_joined. (ask : SpecAsk) →
        covered done.new.items ask ≡ (covered done.old.items ask || (is_joined && covers group.now ask))) }
{
    let Some(both) = joined_at(alloc, field, done.as_slice(), place, group)? else {
        return Ok(false);
    };
    done[place] = both;
    Ok(true)
}

/// Makes one of this and the one at a place, if there is one.
fn try_join(
    alloc: Global,
    field: FieldName,
    done: &mut Vec<Group>,
    place: Option<usize>,
    group: &Group,
) -> Result<bool, AllocError>
    requires { IfSome place (λ place. place < length done.old.items) }
    ensures { IfOk result (λ is_joined. (ask : SpecAsk) →
        covered done.new.items ask ≡ (covered done.old.items ask || (is_joined && covers group.now ask))) }
{
    match place {
        Some(place) => {
            let is_joined = join_at(alloc, field, done, place, group)?;
            Ok(is_joined)
        }
        None => Ok(false),
    }
}

/// Adds one to the others, or makes one of it and one that differs from it in this field alone.
fn add_joined(
    alloc: Global,
    field: FieldName,
    done: &mut Vec<Group>,
    places: &mut Places,
    group: &Group,
) -> Result<(), AllocError>
    ensures { OnOk result ((ask : SpecAsk) →
        covered done.new.items ask ≡ (covered done.old.items ask || covers group.now ask)) }
{
    let number = number_but(field, group);
    let place = partner_of(field, done.as_slice(), places, number, group);
    let is_joined = try_join(alloc, field, done, place, group)?;
    if is_joined {
        return Ok(());
    }
    places.note(number, done.len());
    let copied = copy_fields(alloc, group)?;
    done.push(copied)?;
    Ok(())
}

/// Makes one of those that differ in this field alone.
fn join_by(alloc: Global, field: FieldName, groups: &[Group]) -> Result<Vec<Group>, AllocError>
    ensures { IfOk result (λ made. CoverAlike groups.now made.items) }
{
    let mut places = Places::new(alloc, groups.len())?;
    let mut done = Vec::new(alloc);
    for group in groups {
        add_joined(alloc, field, &mut done, &mut places, group)?;
    }
    Ok(done)
}

/// The fewest that are left where those are made one that differ in one field alone, whichever it is; `None`
/// where there are no such.
fn fewest(alloc: Global, groups: &[Group]) -> Result<Option<Vec<Group>>, AllocError>
    ensures { IfOk result (λ made. IfSome made (λ fewer.
        CoverAlike groups.now fewer.items × (length fewer.items < length groups.now))) }
{
    let mut least = groups.len();
    let mut best = None;
    for field in FieldName::ALL[1..].iter() {
        let made = join_by(alloc, *field, groups)?;
        if made.len() < least {
            least = made.len();
            best = Some(made);
        }
    }
    Ok(best)
}

/// The fewest that are left so, if so many may be looked at.
fn fewest_within(
    alloc: Global,
    groups: &[Group],
    looks: usize,
) -> Result<Option<Vec<Group>>, AllocError>
    ensures { IfOk result (λ made. IfSome made (λ fewer.
        CoverAlike groups.now fewer.items × (length fewer.items < length groups.now))) }
{
    if looks < groups.len() {
        return Ok(None);
    }
    fewest(alloc, groups)
}

/// What is left where those are made one that differ in one field alone.
#[derive(Drop)]
pub(crate) struct Joined {
    /// The ranges.
    pub groups: Vec<Group>,
    /// How many of them were looked at no more, if so.
    pub apart: usize,
}

/// How many are left apart if so many may be looked at still: all, or none.
fn apart_of(looks: usize, count: usize) -> usize
    ensures { result ≡ (if nat_lt looks count then count else 0) }
{
    if looks < count { count } else { 0 }
}

/// Makes one of those that differ in one field alone, in the field first in which that leaves the fewest,
/// until there are no such, or so many were looked at. What they cover stays the same.
#[tactic(auto, using(crate::proofs::suggestion_lemmas::GroupLaw::alike_trans))]
pub(crate) fn join_all(alloc: Global, groups: Vec<Group>) -> Result<Joined, AllocError>
    ensures alike { IfOk result (λ made. CoverAlike groups.items made.groups.items) }
    ensures apart { IfOk result (λ made. (made.apart ≡ 0) ⊎ (made.apart ≡ length made.groups.items)) }
{
    let mut all = groups;
    let mut looks = MOST_LOOKS;
    while let Some(fewer) = fewest_within(alloc, &all, looks)? {
        looks = looks.saturating_sub(all.len());
        all = fewer;
    }
    let apart = apart_of(looks, all.len());
    Ok(Joined { groups: all, apart })
}
