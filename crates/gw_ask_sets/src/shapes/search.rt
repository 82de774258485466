//! Whether any ask of some shapes reaches a rule.
ghost use Rattle.std.specs.Prelude.{◌≡◌, ◌≤◌, ◌&&◌, ◌||◌, IfOk, OnOk};
ghost use Rattle.gw_ask_sets.specs.regions.Regions.{lies, lies_in_one};
ghost use Rattle.gw_rules.specs.Ask.{Ask as SpecAsk};
ghost use Rattle.gw_rules.specs.Rule.{matches};
ghost use Rattle.gw_ask_sets.specs.shapes.Regions.{region_of};
ghost use Rattle.gw_ask_sets.specs.shapes.Search.{AreMatched, IsFound, IsSought, unmatched_of};

use crate::regions::{Region, Unmatched, part, search_counted};
use crate::shapes::Shape;
use crate::shapes::regions::region_of;
use crate::shapes::side::meets;
use gw_rules::{Ask, Rule};
use std::alloc::{AllocError, Global};

/// The result of a search for an ask that a rule decides.
#[derive(Clone, Copy)]
pub enum Outcome {
    /// The rule is the first that matches this ask of the shapes.
    Decides(Ask),
    /// No ask of the shapes reaches the rule.
    Never,
    /// All steps of the search were used.
    Unknown,
}

/// That, and how many steps the search made.
#[derive(Clone, Copy)]
pub struct Sought {
    pub outcome: Outcome,
    pub steps: u32,
}

/// Puts the asks of a shape that the rule matches after the regions, as one more.
fn push_matched(
    alloc: Global,
    regions: &mut Vec<Region>,
    rule: &Rule,
    shape: &Shape,
) -> Result<(), AllocError>
    ensures { OnOk result ((ask : SpecAsk) → lies_in_one regions.new.items ask
        ≡ (lies_in_one regions.old.items ask || (lies (region_of shape.now) ask && matches rule.now ask))) }
{
    if !meets(shape, rule) {
        return Ok(());
    }
    let mut region = region_of(alloc, shape)?;
    let mut outer = Vec::new(alloc);
    part(alloc, &mut outer, rule, &mut region)?;
    regions.push(region)?;
    Ok(())
}

/// The asks of the shapes that the rule matches.
fn matched(alloc: Global, shapes: &[Shape], rule: &Rule) -> Result<Vec<Region>, AllocError>
    ensures { IfOk result (λ regions. AreMatched shapes.now rule.now regions.items) }
{
    let mut regions = Vec::new(alloc);
    for shape in shapes {
        push_matched(alloc, &mut regions, rule, shape)?;
    }
    Ok(regions)
}

/// What the search among the asks that the rule matches says of the rule.
fn outcome_of(found: Unmatched) -> Outcome
    ensures { unmatched_of result ≡ found }
{
    match found {
        Unmatched::Found(ask) => Outcome::Decides(ask),
        Unmatched::Nothing => Outcome::Never,
        Unmatched::Unknown => Outcome::Unknown,
    }
}

/// Searches these shapes for an ask that the rule of this number, from 1, decides, in at most so many steps:
/// `Never` if no ask of them has it as its first rule, `Decides` with one that has, `Unknown` only if all steps were
/// used; and says how many it made, so that several searches can share a number of steps. The rules' ranges are best
/// in order ([`all_tidied`](crate::regions::all_tidied)). An `Err` if there is no memory.
pub fn search_for(
    alloc: Global,
    rules: &[Rule],
    number: u16,
    shapes: &[Shape],
    steps: u32,
) -> Result<Sought, AllocError>
    ensures found { IfOk result (λ s. IsFound shapes.now rules.now number s.outcome) }
    ensures made { IfOk result (λ s. IsSought shapes.now rules.now number steps s.steps s.outcome) }
    ensures most { IfOk result (λ s. s.steps ≤ steps) }
{
    let count = usize::from(number);
    if count == 0 || rules.len() < count {
        return Ok(Sought {
            outcome: Outcome::Never,
            steps: 0,
        });
    }
    let regions = matched(alloc, shapes, &rules[count - 1])?;
    let searched = search_counted(alloc, &rules[..count - 1], regions, steps)?;
    Ok(Sought {
        outcome: outcome_of(searched.outcome),
        steps: searched.steps,
    })
}
