//! The counts of a gateway.
ghost use Rattle.std.specs.Prelude.{◌≡◌};
ghost use Rattle.gw_state.specs.Saved.{are_countable};

/// How far a gateway counts: to 2 to the power of 63.
pub const MAX_COUNT: u64 = 1 << 63;

/// How far a gateway had counted.
#[derive(Clone, Copy, Debug)]
pub struct SavedCounts {
    /// How many ticks the tables of its ports had seen.
    pub since: u64,
    /// How many ticks it had counted, at least as many.
    pub ticks: u64,
    /// The number of its last denial, 0 if there was none.
    pub denials: u64,
}

impl SavedCounts {
    /// Whether the tables have seen no more ticks than the gateway, and no count is past its end.
    pub(crate) fn are_countable(self) -> bool
        ensures { result ≡ are_countable self }
    {
        self.since <= self.ticks && self.ticks <= MAX_COUNT && self.denials <= MAX_COUNT
    }
}
