//! Rules that would break an assertion are left out.
ghost use Rattle.std.specs.Prelude.{◌≡◌, ◌<◌, is_some, length, IfOk, IfSome, OnOk};
ghost use Rattle.std.specs.List.{list_any};
ghost use Rattle.std.specs.Option.{option_and_then};
ghost use Rattle.gw_policy_drafts.specs.suggestion.Suggestion.{IsFound, IsLeftOut, IsOutcome, StaysSuggested, broken_by, place_in};

use crate::suggestion::fault::SuggestFault;
use gw_ask_sets::assertions::{JUDGING_STEPS, Judged, judge};
use gw_configuration::Config;
use gw_rules::Rule;
use std::alloc::Global;

/// A rule that is left out, and the place, from 0, of the assertion that it would break.
#[derive(Drop)]
pub(crate) struct LeftOut {
    pub rule: Rule,
    pub assertion: usize,
}

/// The place of a rule that breaks an assertion, and the place of that, each from 0.
#[derive(Clone, Copy)]
pub(crate) struct Breaking {
    pub rule: usize,
    pub assertion: usize,
}

/// Rules that are suggested, and those that are left out.
#[derive(Drop)]
pub(crate) struct Parted {
    pub kept: Vec<Rule>,
    pub left: Vec<LeftOut>,
}

impl Parted {
    /// Leaves the rule out that breaks an assertion.
    #[tactic(auto, using(crate::proofs::suggestion_lemmas::LeavingLaw::left_out, crate::proofs::suggestion_lemmas::LeavingLaw::stays_out))]
    pub(crate) fn leave_out(&mut self, found: Breaking) -> Result<(), SuggestFault>
        requires { found.rule < length self.old.kept.items }
        ensures left { OnOk result (IsLeftOut self.old.kept.items self.old.left.items found self.new.left.items) }
        ensures stays { OnOk result (StaysSuggested self.old.kept.items self.old.left.items self.new.kept.items self.new.left.items) }
    {
        let rule = self.kept.remove(found.rule);
        self.left.push(LeftOut {
            rule,
            assertion: found.assertion,
        })?;
        Ok(())
    }
}

/// Which of the first rules of a configuration breaks an assertion, as far as is judged, if one does.
#[tactic(auto, using(crate::proofs::suggestion_lemmas::LeavingLaw::found_breaks, crate::proofs::suggestion_lemmas::LeavingLaw::none_breaks))]
pub(crate) fn find_breaking(
    alloc: Global,
    config: &Config,
    count: usize,
) -> Result<Option<Breaking>, SuggestFault>
    ensures { IfOk result (IsOutcome config.now count) }
{
    let judged = judge(alloc, config, JUDGING_STEPS)?;
    if !are_broken(&judged, count) {
        return Ok(None);
    }
    match first_broken(&judged, count) {
        Some(found) => Ok(Some(found)),
        None => Err(SuggestFault::Unlike),
    }
}

/// Whether one of so many rules breaks an assertion.
fn are_broken(judged: &[Judged], count: usize) -> bool
    ensures { result ≡ list_any (λ one. is_some (broken_by count one)) judged.now }
{
    judged.iter().any(|one| broken_by(one, count).is_some())
}

/// The first assertion that one of so many rules breaks.
fn first_broken(judged: &[Judged], count: usize) -> Option<Breaking>
    ensures { IfSome result (λ found. IsFound judged.now count found) }
{
    let assertion = judged
        .iter()
        .position(|one| broken_by(one, count).is_some())?;
    let rule = broken_by(judged.get(assertion)?, count)?;
    Some(Breaking { rule, assertion })
}

/// The place of the rule that breaks an assertion, if it is one of the first so many.
fn broken_by(judged: &Judged, count: usize) -> Option<usize>
    ensures { result ≡ broken_by count judged.now }
{
    match judged {
        Judged::Broken { by, .. } => place_of(*by, count),
        _ => None,
    }
}

fn place_of(by: Option<u16>, count: usize) -> Option<usize>
    ensures { result ≡ option_and_then (place_in count) by }
{
    match by {
        Some(number) => place_in(usize::from(number), count),
        None => None,
    }
}

fn place_in(number: usize, count: usize) -> Option<usize>
    ensures { result ≡ place_in count number }
{
    if number >= 1 && number <= count {
        Some(number - 1)
    } else {
        None
    }
}
