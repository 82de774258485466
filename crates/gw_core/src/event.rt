//! The counts that a gateway goes on from.

/// The counts that a gateway goes on from, each at most 2^63.
#[derive(Clone, Copy, Default)]
pub struct Counts {
    /// How many ticks came before.
    pub ticks: u64,
    /// The number of the last denial before, 0 where there was none.
    pub denials: u64,
}
