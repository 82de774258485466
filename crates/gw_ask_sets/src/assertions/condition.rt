//! Conditions, of which an ask that an assertion means meets one.
ghost use Rattle.std.specs.Prelude.{◌≡◌, ◌&&◌, ◌||◌, ◌∷◌, ◌==◌, [], length, map, not, IfOk, OnOk};
ghost use Rattle.gw_configuration.specs.Assertion.{is_any, is_meant, is_meant_by, is_meant_plainly, may_lack, meets};
ghost use Rattle.gw_configuration.specs.declared.assertion.TheConstants.{READING_SERVICES, WRITING_SERVICES};
ghost use Rattle.gw_rules.specs.declared.operation.Operation.TheVariants.{Read, Write};
ghost use Rattle.gw_rules.specs.Ask.{Ask as SpecAsk};
ghost use Rattle.gw_rules.specs.Fields.{value_of};
ghost use Rattle.gw_rules.specs.Rule.{each_field};
ghost use Rattle.gw_ask_sets.specs.assertions.internal.Conditions.{is_met, is_one_met, meeting, named_services, operation_condition, passing_condition};
ghost use Rattle.gw_ask_sets.specs.regions.Ranges.{between};
ghost use Rattle.gw_ask_sets.specs.regions.Regions.{lies, lies_in_one};

use crate::regions::ranges::{copy_fields, shared};
use crate::regions::{Region, Values, ask_in};
use gw_addr::Sequence;
use gw_configuration::{Assertion, READING_SERVICES, WRITING_SERVICES};
use gw_rules::{FieldName, Fields, Operation, Range, Ranges};
use std::alloc::{AllocError, Global};

/// A condition: an ask meets it that has, for each field with ranges, a number that one of them holds.
pub(crate) struct Condition {
    /// The ranges of each field: a field without any may be anything.
    pub(crate) ranges: Fields<Ranges>,
    /// Whether an ask may lack an object type, instance, property, priority or station that has ranges.
    pub(crate) unnamed: bool,
}

// By hand: a derived one is proved part by part wherever one is dropped (docs/GATE.md).
impl Drop for Condition {
    fn drop(self) {
        let Condition {
            ranges: _,
            unnamed: _,
        } = self;
    }
}

fn may_lack(field: FieldName) -> bool
    ensures { result ≡ may_lack field }
{
    matches!(
        field,
        FieldName::ObjectType
            | FieldName::Instance
            | FieldName::Property
            | FieldName::Priority
            | FieldName::Station
    )
}

/// What of some values these ranges admit, and absence too, where the field may be lacking.
fn meeting(
    alloc: Global,
    lacking: bool,
    values: &Values,
    ranges: &[Range],
) -> Result<Values, AllocError>
    ensures { IfOk result (λ made. made ≡ meeting lacking values.now ranges.now) }
{
    if ranges.is_empty() {
        return values.copy(alloc);
    }
    Ok(Values {
        absent: lacking && values.absent,
        ranges: shared(alloc, values.ranges.as_slice(), ranges)?,
    })
}

fn meeting_at(
    alloc: Global,
    condition: &Condition,
    region: &Region,
    field: FieldName,
) -> Result<Values, AllocError>
    ensures { IfOk result (λ made. made ≡
        meeting (condition.now.unnamed && may_lack field) (value_of field region.now)
        (value_of field condition.now.ranges)) }
{
    let lacking = condition.unnamed && may_lack(field);
    let ranges = condition.ranges.get(field).as_slice();
    meeting(alloc, lacking, region.get(field), ranges)
}

/// The asks of a region that meet the condition.
fn meeting_region(
    alloc: Global,
    condition: &Condition,
    region: &Region,
) -> Result<Region, AllocError>
    ensures { IfOk result (λ made. (ask : SpecAsk) →
        lies made ask ≡ (lies region.now ask && is_met condition.now ask)) }
{
    Fields::try_from_each(|field| meeting_at(alloc, condition, region, field))
}

/// Puts them after those that are there, if there is one.
fn push_meeting(
    alloc: Global,
    out: &mut Vec<Region>,
    condition: &Condition,
    region: &Region,
) -> Result<(), AllocError>
    ensures { OnOk result ((ask : SpecAsk) → lies_in_one out.new.items ask
        ≡ (lies_in_one out.old.items ask || (lies region.now ask && is_met condition.now ask))) }
{
    let made = meeting_region(alloc, condition, region)?;
    match ask_in(&made) {
        None => Ok(()),
        Some(_) => {
            out.push(made)?;
            Ok(())
        }
    }
}

fn push_all_meeting(
    alloc: Global,
    out: &mut Vec<Region>,
    condition: &Condition,
    regions: &[Region],
) -> Result<(), AllocError>
    ensures { OnOk result ((ask : SpecAsk) → lies_in_one out.new.items ask
        ≡ (lies_in_one out.old.items ask || (lies_in_one regions.now ask && is_met condition.now ask))) }
{
    for region in regions {
        push_meeting(alloc, out, condition, region)?;
    }
    Ok(())
}

/// The asks of these regions that meet one of the conditions: no region, if there is none.
pub(crate) fn meeting_one(
    alloc: Global,
    conditions: &[Condition],
    regions: &[Region],
) -> Result<Vec<Region>, AllocError>
    ensures { IfOk result (λ made. (ask : SpecAsk) →
        lies_in_one made.items ask ≡ (lies_in_one regions.now ask && is_one_met conditions.now ask)) }
{
    let mut out = Vec::new(alloc);
    for condition in conditions {
        push_all_meeting(alloc, &mut out, condition, regions)?;
    }
    Ok(out)
}

// ---- those of an assertion

/// The one range.
fn one_range(alloc: Global, low: u64, high: u64) -> Result<Ranges, AllocError>
    ensures { IfOk result (λ made. made ≡ between low high ∷ []) }
{
    let mut ranges = Sequence::new(alloc);
    ranges.push(Range { low, high })?;
    Ok(ranges)
}

/// That all its ranges are met.
fn plain(alloc: Global, assertion: &Assertion) -> Result<Condition, AllocError>
    ensures { IfOk result (λ c. (ask : SpecAsk) →
        is_met c ask ≡ each_field (meets assertion.now ask)) }
{
    Ok(Condition {
        ranges: copy_fields(alloc, &assertion.ranges)?,
        unnamed: assertion.unnamed,
    })
}

/// That an ask is for this operation, and meets all other ranges.
fn of_operation(
    alloc: Global,
    assertion: &Assertion,
    operation: Operation,
) -> Result<Condition, AllocError>
    ensures { IfOk result (λ c. c ≡ operation_condition assertion.now operation) }
{
    let mut ranges = copy_fields(alloc, &assertion.ranges)?;
    let number = operation.number();
    ranges.operation = one_range(alloc, number, number)?;
    Ok(Condition {
        ranges,
        unnamed: assertion.unnamed,
    })
}

/// Services, each as a range.
fn ranges_of_all(alloc: Global, services: &[u64]) -> Result<Ranges, AllocError>
    ensures { IfOk result (λ made. made ≡ map (λ service. between service service) services.now) }
{
    let mut ranges = Sequence::new(alloc);
    for service in services {
        ranges.push(Range::only(*service))?;
    }
    Ok(ranges)
}

/// Those of these services that the assertion names, or all of them.
fn services_of(alloc: Global, assertion: &Assertion, services: &[u64]) -> Result<Ranges, AllocError>
    ensures { IfOk result (λ made. made ≡ named_services assertion.now services.now) }
{
    let all = ranges_of_all(alloc, services)?;
    let named = assertion.ranges.service.as_slice();
    if named.is_empty() {
        Ok(all)
    } else {
        shared(alloc, all.as_slice(), named)
    }
}

/// That an ask passes on what one of these services does, and meets all ranges but those of an object.
fn of_services(
    alloc: Global,
    assertion: &Assertion,
    services: Ranges,
) -> Result<Condition, AllocError>
    ensures { IfOk result (λ c. c ≡ passing_condition assertion.now services) }
{
    let mut ranges = copy_fields(alloc, &assertion.ranges)?;
    ranges.operation = one_range(alloc, Operation::Cast.number(), Operation::Route.number())?;
    ranges.service = services;
    ranges.object_type = Sequence::new(alloc);
    ranges.instance = Sequence::new(alloc);
    ranges.property = Sequence::new(alloc);
    ranges.priority = Sequence::new(alloc);
    Ok(Condition {
        ranges,
        unnamed: assertion.unnamed,
    })
}

/// Puts the conditions of what reads, or writes, after those that are there: that an ask is for the operation, or
/// passes on what one of the services does.
fn push_any(
    alloc: Global,
    out: &mut Vec<Condition>,
    assertion: &Assertion,
    operation: Operation,
    services: &[u64],
) -> Result<(), AllocError>
    ensures { OnOk result ((ask : SpecAsk) → is_one_met out.new.items ask
        ≡ (is_one_met out.old.items ask || is_meant_by operation services.now assertion.now ask)) }
{
    let condition = of_operation(alloc, assertion, operation)?;
    out.push(condition)?;
    let named = services_of(alloc, assertion, services)?;
    if named.is_empty() {
        return Ok(());
    }
    let passing = of_services(alloc, assertion, named)?;
    out.push(passing)?;
    Ok(())
}

/// Whether an assertion doesn't name what reads or writes alone in the place of an operation.
fn is_plain(assertion: &Assertion) -> bool
    ensures { result ≡ (not (is_any assertion.now) || not (length assertion.now.ranges.operation == 0)) }
{
    !(assertion.any_read || assertion.any_write) || !assertion.ranges.operation.is_empty()
}

/// Puts the condition that all ranges are met after those that are there, unless the assertion names what reads or
/// writes alone in the place of an operation.
fn push_plain(
    alloc: Global,
    out: &mut Vec<Condition>,
    assertion: &Assertion,
) -> Result<(), AllocError>
    ensures { OnOk result ((ask : SpecAsk) → is_one_met out.new.items ask
        ≡ (is_one_met out.old.items ask || is_meant_plainly assertion.now ask)) }
{
    if !is_plain(assertion) {
        return Ok(());
    }
    let condition = plain(alloc, assertion)?;
    out.push(condition)?;
    Ok(())
}

fn push_reads(
    alloc: Global,
    out: &mut Vec<Condition>,
    assertion: &Assertion,
) -> Result<(), AllocError>
    ensures { OnOk result ((ask : SpecAsk) → is_one_met out.new.items ask
        ≡ (is_one_met out.old.items ask
        || (assertion.now.any_read && is_meant_by Read READING_SERVICES assertion.now ask))) }
{
    if !assertion.any_read {
        return Ok(());
    }
    push_any(alloc, out, assertion, Operation::Read, &READING_SERVICES)
}

fn push_writes(
    alloc: Global,
    out: &mut Vec<Condition>,
    assertion: &Assertion,
) -> Result<(), AllocError>
    ensures { OnOk result ((ask : SpecAsk) → is_one_met out.new.items ask
        ≡ (is_one_met out.old.items ask
        || (assertion.now.any_write && is_meant_by Write WRITING_SERVICES assertion.now ask))) }
{
    if !assertion.any_write {
        return Ok(());
    }
    push_any(alloc, out, assertion, Operation::Write, &WRITING_SERVICES)
}

/// The conditions of an assertion: an ask that it means meets one of them, and no other does.
pub(crate) fn conditions_of(
    alloc: Global,
    assertion: &Assertion,
) -> Result<Vec<Condition>, AllocError>
    ensures { IfOk result (λ made. (ask : SpecAsk) →
        is_one_met made.items ask ≡ is_meant assertion.now ask) }
{
    let mut out = Vec::new(alloc);
    push_plain(alloc, &mut out, assertion)?;
    push_reads(alloc, &mut out, assertion)?;
    push_writes(alloc, &mut out, assertion)?;
    Ok(out)
}
