//! Rules that match nothing, and rules whose asks an earlier rule takes.
ghost use Rattle.std.specs.Prelude.{◌≡◌, IsTrue, not};
ghost use Rattle.std.specs.List.{list_all, list_any};
ghost use Rattle.gw_ask_sets.specs.shapes.Cover.{MatchesNothing, TakesAll, is_met, lies_in_any, takes_all, takes_range};
ghost use Rattle.gw_ask_sets.specs.shapes.Cover.{takes_shape, takes_side};
ghost use Rattle.gw_rules.specs.Fields.{value_of};
ghost use Rattle.gw_rules.specs.Rule.{each_field, ranges_of};
ghost use Rattle.gw_ask_sets.specs.shapes.Meeting.{meets};

use crate::shapes::side::{meets, overlaps};
use crate::shapes::{Shape, Side};
use gw_rules::{FieldName, Range, Rule};

/// Whether the rule matches none of the asks of these shapes.
pub fn matches_nothing(shapes: &[Shape], rule: &Rule) -> bool
    ensures nothing { IsTrue result → MatchesNothing shapes.now rule.now }
    ensures exact { result ≡ not (is_met shapes.now rule.now) }
{
    !any_meets(shapes, rule)
}

fn any_meets(shapes: &[Shape], rule: &Rule) -> bool
    ensures { result ≡ list_any (λ shape. meets shape rule.now) shapes.now }
{
    shapes.iter().any(|shape| meets(shape, rule))
}

fn lies_in_any(outer: &[Range], inner: &Range) -> bool
    ensures { result ≡ lies_in_any outer.now inner.now }
{
    outer
        .iter()
        .any(|range| range.low <= inner.low && inner.high <= range.high)
}

/// Whether the ranges of an earlier rule hold what a range of a later one holds of the side.
fn takes_range(side: &Side, earlier: &[Range], range: &Range) -> bool
    ensures { result ≡ takes_range side.now earlier.now range.now }
{
    !overlaps(&side.range, range)
        || lies_in_any(earlier, &side.range)
        || lies_in_any(earlier, range)
}

fn takes_each(side: &Side, earlier: &[Range], later: &[Range]) -> bool
    ensures { result ≡ list_all (takes_range side.now earlier.now) later.now }
{
    later.iter().all(|range| takes_range(side, earlier, range))
}

/// Whether the ranges of an earlier rule admit what those of a later one admit of the side.
pub fn takes_side(side: &Side, earlier: &[Range], later: &[Range]) -> bool
    ensures { result ≡ takes_side side.now earlier.now later.now }
{
    if earlier.is_empty() {
        return true;
    }
    if later.is_empty() {
        return !side.absent && lies_in_any(earlier, &side.range);
    }
    takes_each(side, earlier, later)
}

fn takes_shape(earlier: &Rule, later: &Rule, shape: &Shape) -> bool
    ensures { result ≡ takes_shape earlier.now later.now shape.now }
{
    !meets(shape, later) || takes_fields(earlier, later, shape)
}

fn takes_fields(earlier: &Rule, later: &Rule, shape: &Shape) -> bool
    ensures { result ≡ each_field (λ field.
        takes_side (value_of field shape.now) (ranges_of field earlier.now)
        (ranges_of field later.now)) }
{
    FieldName::ALL.iter().all(|field| {
        takes_side(
            shape.get(*field),
            earlier.ranges(*field).as_slice(),
            later.ranges(*field).as_slice(),
        )
    })
}

fn takes_each_shape(shapes: &[Shape], earlier: &Rule, later: &Rule) -> bool
    ensures { result ≡ list_all (takes_shape earlier.now later.now) shapes.now }
{
    shapes
        .iter()
        .all(|shape| takes_shape(earlier, later, shape))
}

/// Whether a rule is seen to match whatever another one matches of the asks of these shapes: in each
/// field one of its ranges holds what a range of the other holds there.
#[tactic(auto, using(crate::proofs::shapes_lemmas::Covering::all_taken))]
pub fn takes_all(shapes: &[Shape], earlier: &Rule, later: &Rule) -> bool
    ensures takes { IsTrue result → TakesAll shapes.now earlier.now later.now }
    ensures exact { result ≡ takes_all shapes.now earlier.now later.now }
{
    takes_each_shape(shapes, earlier, later)
}
