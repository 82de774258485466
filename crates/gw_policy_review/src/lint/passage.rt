//! Asks of which notes say that they pass, or that none does, and what is found of them.
ghost use Rattle.std.specs.Prelude.{◌≡◌, ◌++◌, ◌∷◌, [], IfOk, OnOk};
ghost use Rattle.gw_policy_review.specs.lint.Passage.{ArePassages, answers, is_for, is_unnamed, opener, opens, passes, requests, routed};
ghost use Rattle.gw_policy_review.specs.lint.Passage.{shapes_for, towards, unnamed_of, unnamed_shapes};
ghost use Rattle.gw_policy_review.specs.permissions.Passing.{IsPassage};

use crate::numbered::NumberedPort;
use crate::permissions::{Passage, search_allowed};
use gw_addr::NetNum;
use gw_ask_sets::shapes::{
    Origin, Outcome, Shape, Side, aimed, bound, has_number, is_manager, numbers, only,
};
use gw_rules::{Format, Operation, RuleList};
use std::alloc::{AllocError, Global};

/// Whether an ask was found that passes.
pub(crate) fn passes(found: &Outcome) -> bool
    ensures { result ≡ passes found.now }
{
    matches!(found, Outcome::Decides(_))
}

/// The number of the rule by which an ask that was found passes.
pub(crate) fn opener(rules: &RuleList, found: &Outcome) -> Option<u16>
    ensures { result ≡ opener rules.now found.now }
{
    match found {
        Outcome::Decides(ask) => rules.first(ask),
        _ => None,
    }
}

/// Whether it passes by the rule of this number.
pub(crate) fn opens(rules: &RuleList, number: u16, found: &Outcome) -> bool
    ensures { result ≡ opens rules.now number found.now }
{
    match opener(rules, found) {
        Some(by) => by == number,
        None => false,
    }
}

/// Searches for an ask of a shape that passes, where so many steps are left.
pub(crate) fn search_shape(
    alloc: Global,
    rules: &RuleList,
    shape: Shape,
    left: u32,
) -> Result<Passage, AllocError>
    ensures { IfOk result (λ passage. IsPassage (shape ∷ []) rules.now left passage.left passage.outcome) }
{
    search_allowed(alloc, rules, &[shape], left)
}

/// What is found of asks of several shapes that pass, and how many steps are left for other searches.
#[derive(Drop)]
pub(crate) struct Passages {
    /// What is found of each shape, in order.
    pub(crate) found: Vec<Outcome>,
    /// The steps.
    pub(crate) left: u32,
}

/// Searches for an ask of each of these shapes that passes, in order, where so many steps are left.
pub(crate) fn search_shapes(
    alloc: Global,
    rules: &RuleList,
    shapes: &[Shape],
    left: u32,
) -> Result<Passages, AllocError>
    ensures { IfOk result (λ passages. ArePassages rules.now shapes.now left passages.left passages.found.items) }
{
    let mut found = Vec::new(alloc);
    let mut rest = left;
    for shape in shapes {
        let one = search_shape(alloc, rules, *shape, rest)?;
        rest = one.left;
        found.push(one.outcome)?;
    }
    Ok(Passages { found, left: rest })
}

/// Whether a shape has asks for this operation.
pub(crate) fn is_for(operation: Operation, shape: &Shape) -> bool
    ensures { result ≡ is_for operation shape.now }
{
    shape.operation.range.holds(operation.number())
}

/// Those of these shapes.
pub(crate) fn shapes_for(
    alloc: Global,
    operation: Operation,
    shapes: &[Shape],
) -> Result<Vec<Shape>, AllocError>
    ensures { IfOk result (λ made. made.items ≡ shapes_for operation shapes.now) }
{
    let mut made = Vec::new(alloc);
    for shape in shapes {
        if is_for(operation, shape) {
            made.push(*shape)?;
        }
    }
    Ok(made)
}

/// Messages with these services that are routed from the network of a port to another network.
fn routed(format: Format, from: &NumberedPort<'_>, to: u16, services: Side) -> Shape
    ensures { result ≡ routed format from.now.number from.now.port.now to services }
{
    let own = Origin::own(
        format,
        from.number as u64,
        u64::from(from.port.network.get()),
        is_manager(from.port),
    );
    let shape = bound(&own, Operation::Route, services, only(u64::from(to)));
    aimed(format, &shape)
}

/// Requests that are answered, by their confirmed services (clause 21).
pub(crate) fn requests(format: Format, from: &NumberedPort<'_>, to: u16) -> Shape
    ensures { result ≡ requests format from.now.number from.now.port.now to }
{
    routed(format, from, to, numbers(0, 255))
}

/// APDUs that are no requests, by their types (clause 20.1).
pub(crate) fn answers(format: Format, from: &NumberedPort<'_>, to: u16) -> Shape
    ensures { result ≡ answers format from.now.number from.now.port.now to }
{
    routed(format, from, to, numbers(1026, 1031))
}

/// Whether it is a shape of reads or writes that name no object.
fn is_unnamed(shape: &Shape) -> bool
    ensures { result ≡ is_unnamed shape.now }
{
    let operation = shape.operation.range.low;
    (operation == Operation::Read.number() || operation == Operation::Write.number())
        && !has_number(&shape.object_type)
}

/// The asks of a shape that go to networks of these numbers.
fn towards(networks: Side, shape: &Shape) -> Shape
    ensures { result ≡ towards networks shape.now }
{
    Shape {
        destination_network: networks,
        ..*shape
    }
}

/// Puts those that go to another network than the device's after others, if they name no object.
fn push_unnamed(made: &mut Vec<Shape>, device: NetNum, shape: &Shape) -> Result<(), AllocError>
    ensures { OnOk result (made.new.items ≡ made.old.items ++ unnamed_of device shape.now) }
{
    if !is_unnamed(shape) {
        return Ok(());
    }
    let device = u64::from(device.get());
    let networks = shape.destination_network.range;
    made.push(towards(numbers(networks.low, device - 1), shape))?;
    made.push(towards(numbers(device + 1, networks.high), shape))?;
    Ok(())
}

/// Reads and writes that name no object, to another network than the device's.
pub(crate) fn unnamed_shapes(
    alloc: Global,
    device: NetNum,
    shapes: &[Shape],
) -> Result<Vec<Shape>, AllocError>
    ensures { IfOk result (λ made. made.items ≡ unnamed_shapes device shapes.now) }
{
    let mut made = Vec::new(alloc);
    for shape in shapes {
        push_unnamed(&mut made, device, shape)?;
    }
    Ok(made)
}
