//! A range of the numbers that a field may have.
ghost use Rattle.std.specs.Prelude.{◌≡◌};
ghost use Rattle.gw_rules.specs.Bounds.{is_within};
ghost use Rattle.gw_rules.specs.Range.{holds};

/// The numbers from `low` to `high`, both of them too. It may reach to 2^64 - 1.
#[derive(Clone, Copy, PartialEq, Eq)]
pub struct Range {
    /// The least number.
    pub low: u64,
    /// The greatest number.
    pub high: u64,
}

impl Range {
    /// The range of one number.
    pub fn only(value: u64) -> Self
        ensures low { result.low ≡ value }
        ensures high { result.high ≡ value }
    {
        Range {
            low: value,
            high: value,
        }
    }

    /// Whether the number is in the range.
    pub fn holds(&self, value: u64) -> bool
        ensures { result ≡ holds value self.now }
    {
        self.low <= value && value <= self.high
    }

    /// Whether the range is within another: it begins at its low end or above, and ends at its high end
    /// or below.
    pub fn is_within(&self, outer: &Range) -> bool
        ensures { result ≡ is_within outer.now self.now }
    {
        outer.low <= self.low && self.high <= outer.high
    }
}
