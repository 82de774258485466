//! The lower end of an elementary range. Only this module reads its number.
ghost use Rattle.std.specs.Prelude.{◌≡◌, ◌+◌, ◌<◌, nat_lt};
ghost use Rattle.gw_rule_index.specs.declared.counted.TheConstants.{MAX_COMPARISONS};

use crate::Counted;

/// The lower end of an elementary range.
#[derive(Clone, Copy)]
pub(crate) struct Bound {
    number: u64,
}

impl Bound {
    /// The bound at a number.
    pub(crate) fn new(number: u64) -> Self
        ensures { result.number ≡ number }
    {
        Bound { number }
    }

    /// Whether the bound is above the value: the one look at its number, which compares once and
    /// counts it.
    pub(crate) fn above(&self, value: u64, counted: &mut Counted) -> bool
        requires { counted.old.comparisons < MAX_COMPARISONS }
        ensures above { result ≡ nat_lt value self.now.number }
        ensures comparisons { counted.new.comparisons ≡ counted.old.comparisons + 1 }
        ensures ands { counted.new.ands ≡ counted.old.ands }
    {
        counted.comparisons += 1;
        value < self.number
    }
}
