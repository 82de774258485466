//! The ranges that a rule has for one field.
ghost use Rattle.std.specs.Prelude.{◌≡◌};
ghost use Rattle.std.specs.List.{list_all, list_any};
ghost use Rattle.gw_rules.specs.Bounds.{is_within};
ghost use Rattle.gw_rules.specs.Range.{admits, holds, is_ordered};

use crate::Range;
use gw_addr::Sequence;

/// The ranges that a rule has for one field, in order. A rule that has none for a field doesn't
/// name that field. Contracts see the list.
pub type Ranges = Sequence<Range>;

/// Whether no range has its low end above its high end.
pub fn are_ordered(ranges: &[Range]) -> bool
    ensures { result ≡ list_all is_ordered ranges.now }
{
    ranges.iter().all(|range| range.low <= range.high)
}

/// Whether each range is within another.
pub fn are_within(ranges: &[Range], outer: Range) -> bool
    ensures { result ≡ list_all (is_within outer) ranges.now }
{
    ranges.iter().all(|range| range.is_within(&outer))
}

/// Whether a rule with these ranges for a field can match an ask that has this value there.
pub fn admit(ranges: &[Range], value: Option<u64>) -> bool
    ensures { result ≡ admits ranges.now value }
{
    if ranges.is_empty() {
        return true;
    }
    match value {
        Some(value) => any_holds(ranges, value),
        None => false,
    }
}

/// Whether one of the ranges holds the value.
pub(crate) fn any_holds(ranges: &[Range], value: u64) -> bool
    ensures { result ≡ list_any (holds value) ranges.now }
{
    ranges.iter().any(|range| range.holds(value))
}
