//! An ask that a policy denies.

use crate::Ask;
use gw_addr::Sequence;

/// An ask that a policy denies.
#[derive(Clone, Copy, PartialEq, Eq)]
pub struct Refusal {
    /// What was asked.
    pub ask: Ask,
    /// The number of the rule that denies it, counted from 1; `None` if no rule matches.
    pub by: Option<u16>,
}

/// Refusals in order. Contracts see the list of them.
pub type Refusals = Sequence<Refusal>;
