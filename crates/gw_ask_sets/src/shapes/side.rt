//! What a field of an ask may be, and shapes of asks.
ghost use Rattle.std.specs.Prelude.{◌≡◌};
ghost use Rattle.std.specs.List.{list_any};
ghost use Rattle.gw_ask_sets.specs.shapes.Meeting.{has_number, meets, meets_side, overlaps};

use gw_rules::{FieldName, Fields, Range, Rule};

/// What a field of an ask may be: absent, or a number of a range. A range whose low end is above its
/// high end has no number.
#[derive(Clone, Copy)]
pub struct Side {
    /// Whether the ask may be without the field.
    pub absent: bool,
    /// The numbers that the field may have.
    pub range: Range,
    /// Whether only those of them count that are the key of a station ([`KEY_RANGES`]).
    pub keyed: bool,
}

/// The keys of stations: those of six octets, then those of one to five and of seven.
pub const KEY_RANGES: [Range; 7] = [
    Range {
        low: 0,
        high: (1 << 48) - 1,
    },
    Range {
        low: 1 << 56,
        high: (1 << 56) + ((1 << 8) - 1),
    },
    Range {
        low: 2 << 56,
        high: (2 << 56) + ((1 << 16) - 1),
    },
    Range {
        low: 3 << 56,
        high: (3 << 56) + ((1 << 24) - 1),
    },
    Range {
        low: 4 << 56,
        high: (4 << 56) + ((1 << 32) - 1),
    },
    Range {
        low: 5 << 56,
        high: (5 << 56) + ((1 << 40) - 1),
    },
    Range {
        low: 7 << 56,
        high: (8 << 56) - 1,
    },
];

/// Asks that lie in a side each for the twelve fields.
pub type Shape = Fields<Side>;

/// Whether two ranges have a number in common, where both have one.
pub fn overlaps(a: &Range, b: &Range) -> bool
    ensures { result ≡ overlaps a.now b.now }
{
    a.low <= b.high && b.low <= a.high
}

/// Whether the field may be a number.
pub fn has_number(side: &Side) -> bool
    ensures { result ≡ has_number side.now }
{
    side.range.low <= side.range.high
}

/// Whether the field can be so that the ranges of a rule admit it.
pub(crate) fn meets_side(side: &Side, ranges: &[Range]) -> bool
    ensures { result ≡ meets_side side.now ranges.now }
{
    if ranges.is_empty() {
        return side.absent || has_number(side);
    }
    has_number(side) && any_overlaps(&side.range, ranges)
}

fn any_overlaps(range: &Range, ranges: &[Range]) -> bool
    ensures { result ≡ list_any (overlaps range.now) ranges.now }
{
    ranges.iter().any(|other| overlaps(range, other))
}

/// Whether a rule matches an ask that lies in the shape, as far as none of the shape's sides and of
/// the rule's ranges is the wrong way round, and each number between the ends of a side counts.
pub fn meets(shape: &Shape, rule: &Rule) -> bool
    ensures { result ≡ meets shape.now rule.now }
{
    FieldName::ALL.iter().all(|field| meets_side(shape.get(*field), rule.ranges(*field).as_slice()))
}
