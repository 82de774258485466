//! Pairs of rules that decide an ask otherwise: the one in the old policy, the other one in the new.
//!
//! Where what two policies decide otherwise lies in thousands of regions, it may be of few pairs. Each pair that says the
//! opposite is tried: an ask is searched for that both rules match, and no rule before either.
ghost use Rattle.std.specs.Prelude.{◌≡◌, ◌≤◌, ◌<◌, ◌+◌, ◌&&◌, ◌||◌, ◌==◌, [], not, if◌then◌else◌, length, take, true, false, IfOk, OnOk};
ghost use Rattle.gw_rules.specs.Ask.{Ask as SpecAsk};
ghost use Rattle.gw_rules.specs.Rule.{matches};
ghost use Rattle.gw_ask_sets.specs.regions.Comparing.{unlike};
ghost use Rattle.gw_ask_sets.specs.regions.Pairs.{ArePairs, AreSought, AreTried, IsSearched, all_cells, cell, cells, findings, is_by, number_at, says_at, steps_given};
ghost use Rattle.gw_ask_sets.specs.regions.Regions.{lies_in_one};
ghost use Rattle.gw_ask_sets.specs.regions.Unmatched.{is_matched};

use crate::regions::comparing::Policies;
use crate::regions::deciders::DEFAULT;
use crate::regions::matching::{copies, matched};
use crate::regions::region::Region;
use crate::regions::tidying::tidied;
use crate::regions::unmatched::{Unmatched, search_counted};
use gw_rules::{Ask, Rule};
use std::alloc::{AllocError, Global};

/// How many steps the search for an ask of one pair is given.
pub const PAIR_STEPS: u32 = 16_384;

/// How many the searches for all pairs are given.
pub const ALL_PAIR_STEPS: u32 = 262_144;

/// Two rules that say the opposite, by their numbers, counted from 1: 0 is the default, which denies what no rule
/// matches.
#[derive(Clone, Copy)]
pub struct Pair {
    /// The one of the old policy.
    pub old: usize,
    /// The one of the new policy.
    pub new: usize,
    /// What the one of the new policy says.
    pub allows: bool,
}

/// A pair, and an ask that the one rule decides in the old policy, and the other one in the new.
#[derive(Clone, Copy)]
pub struct ShownPair {
    pub pair: Pair,
    /// It lies in a shape.
    pub ask: Ask,
}

/// What is known of the pairs of two policies.
pub struct Pairs {
    /// These decide an ask otherwise: first those of which the new rule allows.
    pub found: Vec<ShownPair>,
    /// Of these nothing is known: the search used up its steps. If there is none, all pairs are found.
    pub given_up: Vec<Pair>,
    /// How many steps all searches made.
    pub steps: u32,
}

impl Drop for Pairs {
    fn drop(self) {
        let Pairs {
            found: _,
            given_up: _,
            steps: _,
        } = self;
    }
}

/// Whether two answers aren't the same.
pub(crate) fn is_unlike(a: bool, b: bool) -> bool
    ensures { result ≡ unlike a b }
{
    if a { !b } else { b }
}

/// What the rule at a place says.
fn says_at(rules: &[Rule], place: usize) -> bool
    ensures { result ≡ says_at rules.now place }
{
    match rules.get(place) {
        Some(rule) => rule.allow,
        None => false,
    }
}

/// Its number.
fn number_at(rules: &[Rule], place: usize) -> usize
    ensures { result ≡ number_at rules.now place }
{
    match rules.get(place) {
        Some(_) => place + 1,
        None => DEFAULT,
    }
}

/// What of these regions a rule matches, whose ranges are put in order first.
fn matched_tidy(alloc: Global, regions: &[Region], rule: &Rule) -> Result<Vec<Region>, AllocError>
    ensures { IfOk result (λ made. (ask : SpecAsk) →
        lies_in_one made.items ask ≡ (lies_in_one regions.now ask && matches rule.now ask)) }
{
    let tidy = tidied(alloc, rule)?;
    let made = matched(alloc, regions, &tidy)?;
    Ok(made)
}

/// What of these regions the rule at a place matches.
fn matched_at(
    alloc: Global,
    regions: &[Region],
    rules: &[Rule],
    place: usize,
) -> Result<Vec<Region>, AllocError>
    ensures { IfOk result (λ made. (ask : SpecAsk) →
        lies_in_one made.items ask ≡ (lies_in_one regions.now ask && is_by rules.now place ask)) }
{
    match rules.get(place) {
        Some(rule) => matched_tidy(alloc, regions, rule),
        None => copies(alloc, regions),
    }
}

/// Puts a rule behind those in front.
fn push_rule(alloc: Global, front: &mut Vec<Rule>, rule: &Rule) -> Result<(), AllocError>
    ensures { OnOk result ((ask : SpecAsk) →
        is_matched front.new.items ask ≡ (is_matched front.old.items ask || matches rule.now ask)) }
{
    let tidy = tidied(alloc, rule)?;
    front.push(tidy)?;
    Ok(())
}

/// The first so many rules.
fn first_rules(alloc: Global, rules: &[Rule], count: usize) -> Result<Vec<Rule>, AllocError>
    requires { count ≤ length rules.now }
    ensures { IfOk result (λ front. (ask : SpecAsk) →
        is_matched front.items ask ≡ is_matched (take count rules.now) ask) }
{
    let mut front = Vec::new(alloc);
    for rule in &rules[..count] {
        push_rule(alloc, &mut front, rule)?;
    }
    Ok(front)
}

/// Searches for an ask of these regions that no rule in front matches, for a pair.
fn search_pair(
    alloc: Global,
    front: &[Rule],
    regions: Vec<Region>,
    pair: Pair,
    pairs: &mut Pairs,
) -> Result<(), AllocError>
    ensures { OnOk result (IsSearched front.now regions.items pair
        (findings pairs.old.found.items pairs.old.given_up.items pairs.old.steps)
        (findings pairs.new.found.items pairs.new.given_up.items pairs.new.steps)) }
{
    let searched = search_counted(alloc, front, regions, steps_given(pairs.steps))?;
    pairs.steps += searched.steps;
    match searched.outcome {
        Unmatched::Found(ask) => pairs.found.push(ShownPair { pair, ask })?,
        Unmatched::Nothing => {}
        Unmatched::Unknown => pairs.given_up.push(pair)?,
    }
    Ok(())
}

/// How many steps the next search is given.
fn steps_given(used: u32) -> u32
    ensures { result ≡ steps_given used }
{
    PAIR_STEPS.min(ALL_PAIR_STEPS.saturating_sub(used))
}

/// A rule of the old policy, and what is tried with it.
#[derive(Clone, Copy)]
struct Row<'a> {
    /// The policies.
    policies: &'a Policies<'a>,
    /// Its place.
    place: usize,
    /// The asks of the shapes that it matches.
    asks: &'a [Region],
    /// What the rules of the new policy say that are tried with it.
    says: bool,
}

/// Tries a rule of the old policy with the one of the new policy at a place, if that says the other thing.
fn try_pair(
    alloc: Global,
    row: &Row<'_>,
    place: usize,
    front: &[Rule],
    pairs: &mut Pairs,
) -> Result<(), AllocError>
    requires new_one { place ≤ length row.now.policies.now.new.now }
    requires old_one { row.now.place ≤ length row.now.policies.now.old.now }
    requires otherwise { says_at row.now.policies.now.old.now row.now.place ≡ not row.now.says }
    ensures { OnOk result (
        ((ask : SpecAsk) → lies_in_one row.now.asks.now ask
        ≡ (lies_in_one row.now.policies.now.shapes.now ask && is_by row.now.policies.now.old.now row.now.place ask)) →
        ((ask : SpecAsk) → is_matched front.now ask ≡ (is_matched (take row.now.place row.now.policies.now.old.now) ask
        || is_matched (take place row.now.policies.now.new.now) ask)) →
        AreTried row.now.policies.now.shapes.now row.now.policies.now.old.now row.now.policies.now.new.now
        (cell row.now.policies.now.new.now row.now.says row.now.place place)
        (findings pairs.old.found.items pairs.old.given_up.items pairs.old.steps)
        (findings pairs.new.found.items pairs.new.given_up.items pairs.new.steps)) }
{
    if is_unlike(says_at(row.policies.new, place), row.says) {
        return Ok(());
    }
    let regions = matched_at(alloc, row.asks, row.policies.new, place)?;
    let pair = Pair {
        old: number_at(row.policies.old, row.place),
        new: number_at(row.policies.new, place),
        allows: row.says,
    };
    search_pair(alloc, front, regions, pair, pairs)
}

/// Tries the rule of the old policy at a place with each of the new policy that says this, which is the other thing.
fn try_row(
    alloc: Global,
    policies: &Policies<'_>,
    place: usize,
    says: bool,
    pairs: &mut Pairs,
) -> Result<(), AllocError>
    requires there { place ≤ length policies.now.old.now }
    requires otherwise { says_at policies.now.old.now place ≡ not says }
    ensures { OnOk result (AreTried policies.now.shapes.now policies.now.old.now policies.now.new.now
        (cells policies.now.new.now says place (length policies.now.new.now + 1))
        (findings pairs.old.found.items pairs.old.given_up.items pairs.old.steps)
        (findings pairs.new.found.items pairs.new.given_up.items pairs.new.steps)) }
{
    let asks = matched_at(alloc, policies.shapes, policies.old, place)?;
    let mut front = first_rules(alloc, policies.old, place)?;
    let row = Row {
        policies,
        place,
        asks: &asks,
        says,
    };
    for other in 0..policies.new.len() {
        try_pair(alloc, &row, other, &front, pairs)?;
        push_rule(alloc, &mut front, &policies.new[other])?;
    }
    try_pair(alloc, &row, policies.new.len(), &front, pairs)
}

/// Tries the pairs of which the new rule says this, and the old one the other thing.
fn try_rows(
    alloc: Global,
    policies: &Policies<'_>,
    says: bool,
    pairs: &mut Pairs,
) -> Result<(), AllocError>
    ensures { OnOk result (AreTried policies.now.shapes.now policies.now.old.now policies.now.new.now
        (all_cells policies.now.old.now policies.now.new.now says (length policies.now.old.now + 1))
        (findings pairs.old.found.items pairs.old.given_up.items pairs.old.steps)
        (findings pairs.new.found.items pairs.new.given_up.items pairs.new.steps)) }
{
    for place in 0..policies.old.len() + 1 {
        if is_unlike(says_at(policies.old, place), says) {
            try_row(alloc, policies, place, says, pairs)?;
        }
    }
    Ok(())
}

/// Which pairs of rules decide an ask of the shapes otherwise: each pair that says the opposite is tried once, with 16,384
/// steps, and 262,144 for all. Such an ask is of a pair that is found, with one of its asks, or of one that was given up. An
/// `Err` if there is no memory.
pub fn pairs_of(alloc: Global, policies: &Policies<'_>) -> Result<Pairs, AllocError>
    ensures pairs { IfOk result (λ p. ArePairs policies.now.shapes.now policies.now.old.now policies.now.new.now
        p.found.items p.given_up.items) }
    ensures sought { IfOk result (λ p. AreSought policies.now.shapes.now policies.now.old.now policies.now.new.now
        (findings p.found.items p.given_up.items p.steps)) }
{
    let pairs = tried_pairs(alloc, policies)?;
    Ok(pairs)
}

fn tried_pairs(alloc: Global, policies: &Policies<'_>) -> Result<Pairs, AllocError>
    ensures { IfOk result (λ p. AreSought policies.now.shapes.now policies.now.old.now policies.now.new.now
        (findings p.found.items p.given_up.items p.steps)) }
{
    let mut pairs = Pairs {
        found: Vec::new(alloc),
        given_up: Vec::new(alloc),
        steps: 0,
    };
    try_rows(alloc, policies, true, &mut pairs)?;
    try_rows(alloc, policies, false, &mut pairs)?;
    Ok(pairs)
}
