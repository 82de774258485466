//! The search for the elementary range that holds a value.
ghost use Rattle.std.specs.Prelude.{◌≡◌, ◌+◌, ◌≤◌, length};
ghost use Rattle.gw_rule_index.specs.declared.counted.TheConstants.{COMPARISONS_A_FIELD, MAX_COMPARISONS};
ghost use Rattle.gw_rule_index.specs.internal.Bounds.{AreSearchable, IsPlace};

use crate::Counted;
use crate::bound::Bound;
use crate::counted::COMPARISONS_A_FIELD;

/// How many of the bounds, which ascend, aren't above the value. It takes at most 13 comparisons, and ends as soon as the place is
/// found.
pub(crate) fn place_of(bounds: &[Bound], value: u64, counted: &mut Counted) -> usize
    requires { counted.old.comparisons + COMPARISONS_A_FIELD ≤ MAX_COMPARISONS }
    ensures within { result ≤ length bounds.now }
    ensures place { AreSearchable bounds.now → IsPlace bounds.now value result }
    ensures comparisons { counted.new.comparisons ≤ counted.old.comparisons + COMPARISONS_A_FIELD }
    ensures some { 1 ≤ length bounds.now →
        counted.old.comparisons + 1 ≤ counted.new.comparisons }
    ensures ands { counted.new.ands ≡ counted.old.ands }
{
    let mut low = 0;
    let mut high = bounds.len();
    for _step in 0..COMPARISONS_A_FIELD {
        if low >= high {
            return low;
        }
        let middle = low + (high - low) / 2;
        if bounds[middle].above(value, counted) {
            high = middle;
        } else {
            low = middle + 1;
        }
    }
    low
}
