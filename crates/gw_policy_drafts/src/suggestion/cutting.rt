//! Ranges cut, so that no field has more of them than a rule may have.
ghost use Rattle.std.specs.Prelude.{◌≡◌, ◌∷◌, ◌++◌, ◌||◌, [], IfOk, OnOk};
ghost use Rattle.gw_rules.specs.Fields.{with_value};
ghost use Rattle.gw_rules.specs.Ask.{Ask as SpecAsk};
ghost use Rattle.gw_policy_drafts.specs.suggestion.Own.{CoverAlike, covered, covers};

use crate::suggestion::group::{Group, with_ranges};
use gw_ask_sets::regions::copy;
use gw_rules::{FieldName, MAX_RANGES, Range};
use std::alloc::{AllocError, Global};

/// Puts one with these ranges for a field after the others.
fn push_with(
    alloc: Global,
    field: FieldName,
    done: &mut Vec<Group>,
    group: &Group,
    ranges: &[Range],
) -> Result<(), AllocError>
    ensures { OnOk result (done.new.items ≡ done.old.items ++ with_value field ranges.now group.now ∷ []) }
{
    let list = copy(alloc, ranges)?;
    done.push(with_ranges(alloc, group, field, list)?)?;
    Ok(())
}

/// Adds one to the others, cut into those that have at most four ranges for the field.
#[tactic(auto, using(crate::proofs::suggestion_lemmas::GroupLaw::cut_begins))]
fn add_cut(
    alloc: Global,
    field: FieldName,
    done: &mut Vec<Group>,
    group: &Group,
) -> Result<(), AllocError>
    ensures { OnOk result ((ask : SpecAsk) →
        covered done.new.items ask ≡ (covered done.old.items ask || covers group.now ask)) }
{
    let mut rest = group.get(field).as_slice();
    while rest.len() > MAX_RANGES {
        let (front, back) = rest.split_at(MAX_RANGES);
        push_with(alloc, field, done, group, front)?;
        rest = back;
    }
    push_with(alloc, field, done, group, rest)?;
    Ok(())
}

/// Those that have at most four ranges for the field.
fn cut_by(alloc: Global, field: FieldName, groups: &[Group]) -> Result<Vec<Group>, AllocError>
    ensures { IfOk result (λ made. CoverAlike groups.now made.items) }
{
    let mut done = Vec::new(alloc);
    for group in groups {
        add_cut(alloc, field, &mut done, group)?;
    }
    Ok(done)
}

/// Those that have at most four ranges for each field. What they cover stays the same.
#[tactic(auto, using(crate::proofs::suggestion_lemmas::GroupLaw::alike_trans))]
pub(crate) fn cut_all(alloc: Global, groups: Vec<Group>) -> Result<Vec<Group>, AllocError>
    ensures { IfOk result (λ made. CoverAlike groups.items made.items) }
{
    let mut all = groups;
    for field in FieldName::ALL.iter() {
        all = cut_by(alloc, *field, &all)?;
    }
    Ok(all)
}
