//! What isn't watched or recorded, in numbers.

/// How much of what is watched was lost. Each number stays at 2^64 - 1.
#[derive(Clone, Copy)]
pub struct Losses {
    /// How many events weren't watched, since memory was refused.
    pub unwatched: u64,
    /// How many lines of a policy on trial were lost.
    pub trial_lines: u64,
    /// How many lines of an audit were lost.
    pub audit_lines: u64,
}
