//! Regions of asks, and how a rule parts one.
ghost use Rattle.std.specs.Prelude.{◌≡◌, ◌&&◌, ◌++◌, List, IfOk, OnOk};
ghost use Rattle.gw_rules.specs.Fields.{value_of, with_value};
ghost use Rattle.gw_rules.specs.Ask.{Ask as SpecAsk};
ghost use Rattle.gw_rules.specs.Rule.{matches};
ghost use Rattle.gw_rules.specs.declared.field.TheConstants.FieldName.{ALL};
ghost use Rattle.gw_ask_sets.specs.regions.Regions.{IsParted, inside, inside_at, lies, piece, piece_at, pieces};
ghost use Rattle.gw_ask_sets.specs.regions.Regions.{Region as SpecRegion};

use crate::regions::Values;
use crate::regions::tidying::tidied;
use gw_rules::{FieldName, Fields, Rule};
use std::alloc::{AllocError, Global};

/// A set of values for each of the twelve fields: an ask lies in it if each field is one of its values.
pub type Region = Fields<Values>;

pub(crate) fn copy_region(alloc: Global, region: &Region) -> Result<Region, AllocError>
    ensures { IfOk result (λ copied. copied ≡ region.now) }
{
    Fields::try_from_each(|field| region.get(field).copy(alloc))
}

/// What of a region the rule matches.
pub(crate) fn region_within(
    alloc: Global,
    rule: &Rule,
    region: &Region,
) -> Result<Region, AllocError>
    ensures { IfOk result (λ made. (ask : SpecAsk) → lies made ask ≡ (lies region.now ask && matches rule.now ask)) }
{
    Fields::try_from_each(|field| region
        .get(field)
        .admitted(alloc, rule.ranges(field).as_slice()))
}

/// The region with other values for a field.
pub(crate) fn with_values(
    alloc: Global,
    region: &Region,
    field: FieldName,
    values: Values,
) -> Result<Region, AllocError>
    ensures { IfOk result (λ made. made ≡ with_value field values region.now) }
{
    let mut made = copy_region(alloc, region)?;
    made.set(field, values);
    Ok(made)
}

/// Puts the region with other values for a field after the pieces, if it has some.
pub(crate) fn push_piece(
    alloc: Global,
    out: &mut Vec<Region>,
    field: FieldName,
    region: &Region,
    values: Values,
) -> Result<(), AllocError>
    ensures { OnOk result (out.new.items ≡ out.old.items ++ piece field region.now values) }
{
    if values.is_empty() {
        return Ok(());
    }
    let made = with_values(alloc, region, field, values)?;
    out.push(made)?;
    Ok(())
}

fn part_at(
    alloc: Global,
    out: &mut Vec<Region>,
    field: FieldName,
    rule: &Rule,
    region: &mut Region,
) -> Result<(), AllocError>
    ensures pieces { OnOk result
        (out.new.items ≡ out.old.items ++ piece_at field rule.now region.old) }
    ensures inside { OnOk result (region.new ≡ inside_at field rule.now region.old) }
{
    let ranges = rule.ranges(field).as_slice();
    let outer = region.get(field).refused(alloc, ranges)?;
    push_piece(alloc, out, field, region, outer)?;
    let inner = region.get(field).admitted(alloc, ranges)?;
    region.set(field, inner);
    Ok(())
}

/// Parts a region by a rule: what is left of it are the asks that the rule matches, and those that it
/// doesn't match are put in pieces after those that are there. The rule's ranges are put in order first, so
/// that lists of ranges stay short.
pub fn part(
    alloc: Global,
    out: &mut Vec<Region>,
    rule: &Rule,
    region: &mut Region,
) -> Result<(), AllocError>
    ensures parted { OnOk result ((outer : List SpecRegion) × (out.new.items ≡ out.old.items ++ outer)
        × IsParted rule.now region.old region.new outer) }
{
    let tidy = tidied(alloc, rule)?;
    part_fields(alloc, out, &tidy, region)?;
    Ok(())
}

/// Parts a region by a rule, field by field.
pub(crate) fn part_fields(
    alloc: Global,
    out: &mut Vec<Region>,
    rule: &Rule,
    region: &mut Region,
) -> Result<(), AllocError>
    ensures pieces { OnOk result (out.new.items ≡ out.old.items ++ pieces ALL rule.now region.old) }
    ensures inside { OnOk result (region.new ≡ inside ALL rule.now region.old) }
{
    for field in FieldName::ALL.iter() {
        part_at(alloc, out, *field, rule, region)?;
    }
    Ok(())
}
