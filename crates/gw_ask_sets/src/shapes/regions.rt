//! The regions of shapes.
ghost use Rattle.std.specs.Prelude.{◌≡◌, IfOk};
ghost use Rattle.gw_ask_sets.specs.shapes.Regions.{IsRegionOf, region_of, values_of};

use crate::regions::ranges::shared;
use crate::regions::{Region, Values};
use crate::shapes::side::{KEY_RANGES, has_number};
use crate::shapes::{Shape, Side};
use gw_addr::Sequence;
use gw_rules::{Fields, Range};
use std::alloc::{AllocError, Global};

/// The values of a side.
fn values_of(alloc: Global, side: &Side) -> Result<Values, AllocError>
    ensures { IfOk result (λ values. values ≡ values_of side.now) }
{
    Ok(Values {
        absent: side.absent,
        ranges: ranges_of(alloc, side)?,
    })
}

fn ranges_of(alloc: Global, side: &Side) -> Result<Sequence<Range>, AllocError>
    ensures { IfOk result (λ ranges. ranges ≡ (values_of side.now).ranges) }
{
    if side.keyed {
        return shared(alloc, &KEY_RANGES, &[side.range]);
    }
    let mut ranges = Sequence::new(alloc);
    if has_number(side) {
        ranges.push(side.range)?;
    }
    Ok(ranges)
}

/// The region of a shape: an ask lies in it exactly if it lies in the shape. An `Err` if there is no memory.
#[tactic(auto, using(crate::proofs::shapes_lemmas::RegionLaw::is_region_of))]
pub fn region_of(alloc: Global, shape: &Shape) -> Result<Region, AllocError>
    ensures region { IfOk result (λ region. region ≡ region_of shape.now) }
    ensures asks { IfOk result (λ region. IsRegionOf shape.now region) }
{
    let region = region_by_field(alloc, shape)?;
    Ok(region)
}

fn region_by_field(alloc: Global, shape: &Shape) -> Result<Region, AllocError>
    ensures { IfOk result (λ region. region ≡ region_of shape.now) }
{
    Fields::try_from_each(|field| values_of(alloc, shape.get(field)))
}
