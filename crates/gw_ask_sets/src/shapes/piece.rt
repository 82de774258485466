//! Sides of numbers, and what of a side is below another one and above it.
ghost use Rattle.std.specs.Prelude.{◌≡◌};
ghost use Rattle.gw_ask_sets.specs.shapes.Pieces.{above, below, numbers};

use crate::shapes::Side;
use gw_rules::Range;

/// A range that has no number.
pub(crate) const NO_RANGE: Range = Range { low: 1, high: 0 };

/// The numbers from `low` to `high`, any of them; the field may not be absent.
pub fn numbers(low: u64, high: u64) -> Side
    ensures { result ≡ numbers low high }
{
    Side {
        absent: false,
        range: Range { low, high },
        keyed: false,
    }
}

/// What of a side is below another one.
pub(crate) fn below(side: &Side, cut: &Side) -> Option<Side>
    ensures { result ≡ below side.now cut.now }
{
    if side.range.low < cut.range.low {
        Some(numbers(side.range.low, cut.range.low - 1))
    } else {
        None
    }
}

/// What of it is above the other one.
pub(crate) fn above(side: &Side, cut: &Side) -> Option<Side>
    ensures { result ≡ above side.now cut.now }
{
    if cut.range.high < side.range.high {
        Some(numbers(cut.range.high + 1, side.range.high))
    } else {
        None
    }
}
