//! Fields of a region of which no shape shows the difference.
ghost use Rattle.std.specs.Prelude.{IfOk, List, OnOk};
ghost use Rattle.gw_rules.specs.declared.rule.Rule.{Rule as SpecRule};
ghost use Rattle.gw_ask_sets.specs.regions.Comparing.{IsSummary};
ghost use Rattle.gw_ask_sets.specs.regions.Merging.{IsWide};
ghost use Rattle.gw_ask_sets.specs.regions.Regions.{Region as SpecRegion};

use crate::regions::Found;
use crate::regions::meeting::ask_within;
use crate::regions::region::{Region, with_values};
use gw_rules::FieldName;
use std::alloc::{AllocError, Global};

/// Lets a field be anything, if no ask of a shape lies in the region but for this field alone.
fn free(
    alloc: Global,
    field: FieldName,
    shapes: &[Region],
    region: &mut Region,
) -> Result<(), AllocError>
    ensures { OnOk result (IsWide shapes.now region.old region.new) }
{
    let here = region.get(field);
    let rest = here.others(alloc)?;
    let wide = here.united(alloc, &rest)?;
    let beyond = with_values(alloc, region, field, rest)?;
    match ask_within(&beyond, shapes) {
        None => region.set(field, wide),
        Some(_) => {}
    }
    Ok(())
}

/// Lets each field be anything, one after the other in the order of their numbers, if no shape shows the
/// difference. Of the asks of the shapes the region has those that it had. An `Err` if there is no memory.
pub fn widen(alloc: Global, shapes: &[Region], region: &mut Region) -> Result<(), AllocError>
    ensures { OnOk result (IsWide shapes.now region.old region.new) }
{
    for field in FieldName::ALL.iter() {
        free(alloc, *field, shapes, region)?;
    }
    Ok(())
}

/// Widens each of the regions that were found.
pub(crate) fn widen_all(
    alloc: Global,
    shapes: &[Region],
    found: Vec<Found>,
) -> Result<Vec<Found>, AllocError>
    ensures { IfOk result (λ wide. (old new : List SpecRule) (left : List SpecRegion) →
        IsSummary shapes.now old new found.items left → IsSummary shapes.now old new wide.items left) }
{
    let mut rest = found;
    let mut done = Vec::new(alloc);
    while let Some(next) = rest.pop() {
        let mut wide = next;
        widen(alloc, shapes, &mut wide.region)?;
        done.push(wide)?;
    }
    Ok(done)
}
