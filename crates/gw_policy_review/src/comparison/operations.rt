//! The operations that the asks of a region have.
ghost use Rattle.std.specs.Prelude.{◌≡◌, ◌∷◌, [], false, IfOk, List, OnOk};
ghost use Rattle.std.specs.List.{list_all};
ghost use Rattle.gw_ask_sets.specs.regions.Comparing.{IsSummary};
ghost use Rattle.gw_ask_sets.specs.regions.Merging.{IsWide};
ghost use Rattle.gw_ask_sets.specs.regions.Presence.{NoneIsMeant, OrNoneIsMeant};
ghost use Rattle.gw_ask_sets.specs.regions.Regions.{Region as SpecRegion};
ghost use Rattle.gw_rules.specs.Fields.{value_of};
ghost use Rattle.gw_rules.specs.declared.rule.Rule.{Rule as SpecRule};
ghost use Rattle.gw_policy_review.specs.comparison.Operations.{AreAsked, OperationIsMeant, OperationsAreMeant, is_open, values_of_both};

use gw_addr::Sequence;
use gw_ask_sets::regions::{Found, Region, Values, ask_of_both, shared};
use gw_rules::FieldName;
use std::alloc::{AllocError, Global};

/// The fields that say what an ask is for, beside its operation.
const WHAT: [FieldName; 7] = [
    FieldName::DestinationNetwork,
    FieldName::Service,
    FieldName::ObjectType,
    FieldName::Instance,
    FieldName::Property,
    FieldName::Priority,
    FieldName::Station,
];

/// Whether a region says nothing of what its asks are for.
fn is_open(region: &Region) -> bool
    ensures { result ≡ is_open region.now }
{
    region.operation.has_each_operation() && may_lack(region, &WHAT)
}

/// Whether each of these fields may be absent.
fn may_lack(region: &Region, fields: &[FieldName]) -> bool
    ensures { result ≡ list_all (λ field. (value_of field region.now).absent) fields.now }
{
    fields.iter().all(|field| region.get(*field).absent)
}

fn values_of_both(alloc: Global, a: &Values, b: &Values) -> Result<Values, AllocError>
    ensures { IfOk result (λ both. both ≡ values_of_both a.now b.now) }
{
    Ok(Values {
        absent: a.absent && b.absent,
        ranges: shared(alloc, a.ranges.as_slice(), b.ranges.as_slice())?,
    })
}

/// The operations of the asks that lie in both regions.
fn operations_of_both(alloc: Global, region: &Region, shape: &Region) -> Result<Values, AllocError>
    ensures { IfOk result (λ operations. AreAsked (shape.now ∷ []) region.now operations) }
{
    match ask_of_both(region, shape) {
        Some(_) => values_of_both(alloc, &region.operation, &shape.operation),
        None => Ok(nothing(alloc)),
    }
}

/// No value.
fn nothing(alloc: Global) -> Values
    ensures { result ≡ record { absent = false; ranges = [] } }
{
    Values {
        absent: false,
        ranges: Sequence::new(alloc),
    }
}

/// The operations of the asks of the shapes that lie in the region.
fn asked_operations(alloc: Global, shapes: &[Region], region: &Region) -> Result<Values, AllocError>
    ensures { IfOk result (λ operations. AreAsked shapes.now region.now operations) }
{
    let mut operations = nothing(alloc);
    for shape in shapes {
        let more = operations_of_both(alloc, region, shape)?;
        operations = operations.united(alloc, &more)?;
    }
    Ok(operations)
}

/// Leaves the region the operations of the asks of the shapes that lie in it, unless it says nothing of what its asks are for.
/// Of the asks of the shapes it has those that it had.
fn narrow(alloc: Global, shapes: &[Region], region: &mut Region) -> Result<(), AllocError>
    ensures asks { OnOk result (IsWide shapes.now region.old region.new) }
    ensures operations { OnOk result (OperationIsMeant shapes.now region.new) }
    ensures or_none { OnOk result (NoneIsMeant shapes.now region.old → NoneIsMeant shapes.now region.new) }
{
    if is_open(region) {
        return Ok(());
    }
    let operations = asked_operations(alloc, shapes, region)?;
    region.set(FieldName::Operation, operations);
    Ok(())
}

/// Narrows each of the regions that were found.
pub(crate) fn narrow_all(
    alloc: Global,
    shapes: &[Region],
    found: Vec<Found>,
) -> Result<Vec<Found>, AllocError>
    requires { OrNoneIsMeant shapes.now found.items }
    ensures summary { IfOk result (λ made. (old new : List SpecRule) (left : List SpecRegion) →
        IsSummary shapes.now old new found.items left → IsSummary shapes.now old new made.items left) }
    ensures or_none { IfOk result (λ made. OrNoneIsMeant shapes.now made.items) }
    ensures operations { IfOk result (λ made. OperationsAreMeant shapes.now made.items) }
{
    let mut rest = found;
    let mut done = Vec::new(alloc);
    while let Some(next) = rest.pop() {
        let mut one = next;
        narrow(alloc, shapes, &mut one.region)?;
        done.push(one)?;
    }
    done.reverse();
    Ok(done)
}
