//! What two policies decide otherwise, in few and wide regions.
ghost use Rattle.std.specs.Prelude.{◌≡◌, ◌<◌, [], IfOk, List};
ghost use Rattle.gw_ask_sets.specs.regions.Comparing.{IsComparison, IsSummary};
ghost use Rattle.gw_ask_sets.specs.regions.Presence.{OrNoneIsMeant};
ghost use Rattle.gw_rules.specs.declared.rule.Rule.{Rule as SpecRule};

use crate::regions::comparing::compare;
use crate::regions::comparison::{Comparison, Found};
use crate::regions::merging::merge;
use crate::regions::presence::require_all;
use crate::regions::region::Region;
use crate::regions::tidying::all_tidied;
use crate::regions::widening::widen_all;
use gw_rules::Rule;
use std::alloc::{AllocError, Global};

/// What a summary says: what it says of a region holds for the asks of the shapes that lie in it.
#[derive(Drop)]
pub struct Summary {
    /// In these regions every ask of the shapes is decided otherwise.
    pub found: Vec<Found>,
    /// Of these nothing is known. If there is none, the summary is complete.
    pub left: Vec<Region>,
    /// How many steps the comparison used.
    pub steps: u32,
}

/// What a comparison over the asks of these shapes has found so far, in few and wide regions: those that say the
/// same and differ in one field alone are made one, and a field may be anything if no shape shows the difference.
/// Else it may be absent only if an ask of a shape in the region lacks it. An `Err` if there is no memory.
pub fn summary_of(
    alloc: Global,
    shapes: &[Region],
    comparison: Comparison,
) -> Result<Summary, AllocError>
    ensures summary { IfOk result (λ s. (old new : List SpecRule) →
        IsComparison shapes.now old new comparison.found.items comparison.left.items →
        IsSummary shapes.now old new s.found.items s.left.items) }
    ensures or_none { IfOk result (λ s. OrNoneIsMeant shapes.now s.found.items) }
    ensures left { IfOk result (λ s. s.left.items ≡ comparison.left.items) }
    ensures steps { IfOk result (λ s. s.steps ≡ comparison.steps) }
{
    let steps = comparison.steps;
    let (found, left) = comparison.into_parts();
    let merged = merge(alloc, found)?;
    let wide = widen_all(alloc, shapes, merged)?;
    let joined = merge(alloc, wide)?;
    let found = require_all(alloc, shapes, joined)?;
    Ok(Summary { found, left, steps })
}

/// Compares two policies over the asks of these shapes as [`compare`] does, and sums up what it found
/// ([`summary_of`]). The rules' ranges are put in order first. An `Err` if there is no memory.
pub fn summarize(
    alloc: Global,
    old: &[Rule],
    new: &[Rule],
    shapes: &[Region],
    steps: u32,
) -> Result<Summary, AllocError>
    ensures summary { IfOk result (λ s. IsSummary shapes.now old.now new.now s.found.items s.left.items) }
    ensures or_none { IfOk result (λ s. OrNoneIsMeant shapes.now s.found.items) }
    ensures steps { IfOk result (λ s. s.steps < steps → s.left.items ≡ []) }
{
    let before = all_tidied(alloc, old)?;
    let after = all_tidied(alloc, new)?;
    let comparison = compare(alloc, &before, &after, shapes, steps)?;
    summary_of(alloc, shapes, comparison)
}
