//! Asks that follow one another and that one rule decided.

/// Asks that follow one another, each decided by the same rule, or by none.
#[derive(Clone, Copy)]
pub struct Streak {
    /// The number of the rule, from 1, or none.
    pub by: Option<u16>,
    /// How many asks there are.
    pub count: usize,
}
