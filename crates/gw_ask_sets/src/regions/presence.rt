//! Fields of a region that each ask has.
ghost use Rattle.std.specs.Prelude.{◌≡◌, ◌&&◌, not, IfOk, List};
ghost use Rattle.gw_rules.specs.Fields.{value_of};
ghost use Rattle.gw_rules.specs.declared.field.FieldName.{FieldName as SpecField};
ghost use Rattle.gw_rules.specs.declared.rule.Rule.{Rule as SpecRule};
ghost use Rattle.gw_ask_sets.specs.regions.Comparing.{IsSummary};
ghost use Rattle.gw_ask_sets.specs.regions.Merging.{IsWide};
ghost use Rattle.gw_ask_sets.specs.regions.Presence.{AreMeant, NoneIsMeant, OrNoneIsMeant};
ghost use Rattle.gw_ask_sets.specs.regions.Regions.{Region as SpecRegion};
ghost use Rattle.gw_ask_sets.specs.regions.Values.{is_any};

use crate::regions::Found;
use crate::regions::meeting::ask_within;
use crate::regions::region::{Region, with_values};
use crate::regions::values::Values;
use gw_rules::{FieldName, Fields};
use std::alloc::{AllocError, Global};

/// Whether the field may be absent, but not just anything.
fn says_none(values: &Values) -> bool
    ensures { result ≡ (values.now.absent && not (is_any values.now)) }
{
    values.absent && !values.is_any()
}

/// The values of a field, without absence if each ask of a shape that lies in the region has the field. A field
/// that may be anything stays so.
fn meant_values(
    alloc: Global,
    shapes: &[Region],
    region: &Region,
    field: FieldName,
) -> Result<Values, AllocError>
    ensures { IfOk result (λ values. AreMeant shapes.now region.now field values) }
{
    let here = region.get(field);
    if !says_none(here) {
        return here.copy(alloc);
    }
    let lacking = with_values(alloc, region, field, Values::absence(alloc))?;
    match ask_within(&lacking, shapes) {
        None => here.present(alloc),
        Some(_) => here.copy(alloc),
    }
}

/// The region with the values that are meant: of the asks of the shapes it has those that it had.
#[tactic(auto, using(crate::proofs::regions_lemmas::PresenceLaw::required_wide, crate::proofs::regions_lemmas::PresenceLaw::required_meant))]
fn required(alloc: Global, shapes: &[Region], region: &Region) -> Result<Region, AllocError>
    ensures asks { IfOk result (λ made. IsWide shapes.now region.now made) }
    ensures meant { IfOk result (λ made. NoneIsMeant shapes.now made) }
{
    let made = required_fields(alloc, shapes, region)?;
    Ok(made)
}

fn required_fields(alloc: Global, shapes: &[Region], region: &Region) -> Result<Region, AllocError>
    ensures { IfOk result (λ made. (field : SpecField) →
        AreMeant shapes.now region.now field (value_of field made)) }
{
    Fields::try_from_each(|field| meant_values(alloc, shapes, region, field))
}

/// Drops absence from each field of the regions that were found if each ask of a shape there has the field.
pub(crate) fn require_all(
    alloc: Global,
    shapes: &[Region],
    found: Vec<Found>,
) -> Result<Vec<Found>, AllocError>
    ensures summary { IfOk result (λ made. (old new : List SpecRule) (left : List SpecRegion) →
        IsSummary shapes.now old new found.items left → IsSummary shapes.now old new made.items left) }
    ensures meant { IfOk result (λ made. OrNoneIsMeant shapes.now made.items) }
{
    let mut rest = found;
    let mut done = Vec::new(alloc);
    while let Some(next) = rest.pop() {
        let mut one = next;
        one.region = required(alloc, shapes, &one.region)?;
        done.push(one)?;
    }
    done.reverse();
    Ok(done)
}
