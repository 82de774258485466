//! The regions of the asks that the gateways of two configurations may raise.
ghost use Rattle.std.specs.Prelude.{◌≡◌, ◌++◌, IfOk, OnOk, map};
ghost use Rattle.std.specs.List.{flat_map, list_any};
ghost use Rattle.gw_policy_review.specs.comparison.Asks.{AreAsksOf, asks_of, is_alike, is_same, is_same_side, other_region};
ghost use Rattle.gw_ask_sets.specs.shapes.Regions.{region_of};

use gw_ask_sets::regions::Region;
use gw_ask_sets::shapes::{Shape, Side, region_of, shapes_of};
use gw_configuration::Config;
use gw_rules::FieldName;
use std::alloc::{AllocError, Global};

fn push_regions(alloc: Global, out: &mut Vec<Region>, shapes: &[Shape]) -> Result<(), AllocError>
    ensures { OnOk result (out.new.items ≡ out.old.items ++ map region_of shapes.now) }
{
    for shape in shapes {
        out.push(region_of(alloc, shape)?)?;
    }
    Ok(())
}

fn is_alike(a: bool, b: bool) -> bool
    ensures { result ≡ is_alike a b }
{
    if a { b } else { !b }
}

fn is_same_side(a: &Side, b: &Side) -> bool
    ensures { result ≡ is_same_side a.now b.now }
{
    is_alike(a.absent, b.absent)
        && (is_alike(a.keyed, b.keyed)
            && (a.range.low == b.range.low && a.range.high == b.range.high))
}

fn is_same(a: &Shape, b: &Shape) -> bool
    ensures { result ≡ is_same a.now b.now }
{
    FieldName::ALL
        .iter()
        .all(|field| is_same_side(a.get(*field), b.get(*field)))
}

fn is_among(known: &[Shape], shape: &Shape) -> bool
    ensures { result ≡ list_any (is_same shape.now) known.now }
{
    known.iter().any(|other| is_same(shape, other))
}

/// Appends the region of a shape, unless the shape is among these.
fn push_other(
    alloc: Global,
    out: &mut Vec<Region>,
    known: &[Shape],
    shape: &Shape,
) -> Result<(), AllocError>
    ensures { OnOk result (out.new.items ≡ out.old.items ++ other_region known.now shape.now) }
{
    if is_among(known, shape) {
        return Ok(());
    }
    out.push(region_of(alloc, shape)?)?;
    Ok(())
}

fn push_others(
    alloc: Global,
    out: &mut Vec<Region>,
    known: &[Shape],
    shapes: &[Shape],
) -> Result<(), AllocError>
    ensures { OnOk result (out.new.items ≡ out.old.items ++ flat_map (other_region known.now) shapes.now) }
{
    for shape in shapes {
        push_other(alloc, out, known, shape)?;
    }
    Ok(())
}

/// The regions of all asks that a gateway of one of the two configurations may raise, each once. An `Err` if
/// there is no memory.
#[tactic(auto, using(crate::proofs::comparison_lemmas::AskLaw::are_asks_of))]
pub fn asks_of(alloc: Global, old: &Config, new: &Config) -> Result<Vec<Region>, AllocError>
    ensures regions { IfOk result (λ regions. regions.items ≡ asks_of old.now new.now) }
    ensures asks { IfOk result (λ regions. AreAsksOf old.now new.now regions.items) }
{
    let regions = regions_of_both(alloc, old, new)?;
    Ok(regions)
}

fn regions_of_both(alloc: Global, old: &Config, new: &Config) -> Result<Vec<Region>, AllocError>
    ensures { IfOk result (λ regions. regions.items ≡ asks_of old.now new.now) }
{
    let mut regions = Vec::new(alloc);
    let known = shapes_of(alloc, old)?;
    push_regions(alloc, &mut regions, &known)?;
    push_others(alloc, &mut regions, &known, &shapes_of(alloc, new)?)?;
    Ok(regions)
}
