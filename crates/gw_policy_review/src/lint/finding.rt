//! What is found of each rule of a policy.
ghost use Rattle.std.specs.Prelude.{◌≡◌, ◌<◌, ◌≤◌, IfOk, IfSome, length};
ghost use Rattle.gw_ask_sets.specs.regions.Tidying.{all_tidied};
ghost use Rattle.gw_policy_review.specs.lint.Finding.{AreTrue, IsFinding, IsSearched, finding_by, steps_given, taker};

use gw_ask_sets::regions::all_tidied;
use gw_ask_sets::shapes::{Outcome, Shape, matches_nothing, search_for, takes_all};
use gw_rules::{Ask, Rule, RuleList};
use std::alloc::{AllocError, Global};

/// How many steps one of several searches has at most.
pub const MAX_STEPS: u32 = 1024;

/// How many these share: the searches for the findings of a lint, those for its notes, and those for the lines of who
/// may do what.
pub const ALL_STEPS: u32 = 262_144;

/// What is found of a rule, over the asks of some shapes.
#[derive(Clone, Copy)]
pub enum Finding {
    /// The rule matches none of them.
    MatchesNothing,
    /// It matches some, and the rule of this number, which is before it, matches all of these.
    TakenBy(u16),
    /// The rules before it together match all that it matches.
    TakenTogether,
    /// It is the first rule that matches this ask, which is one of them.
    Decides(Ask),
    /// All steps of the search were used.
    Unknown,
}

/// The place of the first of these rules that is seen to match whatever another one matches.
fn taker(shapes: &[Shape], rules: &[Rule], later: &Rule) -> Option<usize>
    ensures place { result ≡ taker shapes.now rules.now later.now }
    ensures within { IfSome result (λ place. place < length rules.now) }
{
    rules
        .iter()
        .position(|earlier| takes_all(shapes, earlier, later))
}

/// What is found of a rule, and how many steps the search for it made.
#[derive(Clone, Copy)]
struct Counted {
    finding: Finding,
    steps: u32,
}

/// The rules that are looked at, over the asks of some shapes.
#[derive(Clone, Copy)]
struct Looked<'a> {
    /// The shapes.
    shapes: &'a [Shape],
    /// The rules.
    rules: &'a [Rule],
    /// The same with their ranges in order.
    tidy: &'a [Rule],
}

/// What is said of a rule by what its search comes to.
fn finding_by(found: Outcome) -> Finding
    ensures { result ≡ finding_by found }
{
    match found {
        Outcome::Decides(ask) => Finding::Decides(ask),
        Outcome::Never => Finding::TakenTogether,
        Outcome::Unknown => Finding::Unknown,
    }
}

/// What a search for an ask that the rule of this number decides comes to. The rules' ranges are in order.
fn searched(
    alloc: Global,
    shapes: &[Shape],
    tidy: &[Rule],
    number: u16,
    steps: u32,
) -> Result<Counted, AllocError>
    ensures { IfOk result (λ c. IsSearched shapes.now tidy.now number steps c.steps c.finding) }
{
    let found = search_for(alloc, tidy, number, shapes, steps)?;
    Ok(Counted {
        finding: finding_by(found.outcome),
        steps: found.steps,
    })
}

/// What is found of the rule of this number, with at most so many steps. An `Err` only where a growth of memory was
/// refused.
fn finding_of(
    alloc: Global,
    looked: &Looked<'_>,
    number: u16,
    steps: u32,
) -> Result<Counted, AllocError>
    requires least { 1 ≤ number }
    requires within { number ≤ length looked.now.rules.now }
    requires tidy { looked.now.tidy.now ≡ all_tidied looked.now.rules.now }
    ensures found { IfOk result (λ c. IsFinding looked.now.shapes.now looked.now.rules.now number steps c.steps c.finding) }
    ensures most { IfOk result (λ c. c.steps ≤ steps) }
{
    let place = usize::from(number) - 1;
    let rule = &looked.rules[place];
    if matches_nothing(looked.shapes, rule) {
        return Ok(Counted {
            finding: Finding::MatchesNothing,
            steps: 0,
        });
    }
    if let Some(place) = taker(looked.shapes, &looked.rules[..place], rule) {
        return Ok(Counted {
            finding: Finding::TakenBy(place as u16 + 1),
            steps: 0,
        });
    }
    let found = searched(alloc, looked.shapes, looked.tidy, number, steps)?;
    Ok(found)
}

/// How many steps one of several searches is given, where so many are left for all.
pub(crate) fn steps_given(left: u32) -> u32
    ensures { result ≡ steps_given left }
{
    MAX_STEPS.min(left)
}

/// What is found of the rules of a policy, and how many steps are left for other searches.
#[derive(Drop)]
pub struct Findings {
    /// What is found of each rule, in order.
    pub found: Vec<Finding>,
    /// The steps.
    pub left: u32,
}

/// What is found of each rule, in order, over these shapes: each search is given [`MAX_STEPS`], or what is left of these
/// steps. An `Err` only where a growth of memory was refused.
pub fn findings_of(
    alloc: Global,
    shapes: &[Shape],
    rules: &RuleList,
    steps: u32,
) -> Result<Findings, AllocError>
    ensures { IfOk result (λ findings. AreTrue shapes.now rules.now steps findings.left findings.found.items) }
{
    let all = rules.rules();
    let tidy = all_tidied(alloc, all)?;
    let looked = Looked {
        shapes,
        rules: all,
        tidy: &tidy,
    };
    let mut findings = Vec::new(alloc);
    let mut left = steps;
    for place in 0..all.len() {
        let found = finding_of(alloc, &looked, place as u16 + 1, steps_given(left))?;
        left -= found.steps;
        findings.push(found.finding)?;
    }
    Ok(Findings {
        found: findings,
        left,
    })
}
