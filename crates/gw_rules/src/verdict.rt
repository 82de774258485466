//! What a policy says of an ask, with the ask.

use crate::Ask;
use gw_addr::Sequence;

/// An ask, and what the policy says of it.
#[derive(Clone, Copy, PartialEq, Eq)]
pub struct Verdict {
    /// What was asked.
    pub ask: Ask,
    /// Whether the policy allows it.
    pub is_allowed: bool,
    /// The number of the first rule that matches it, counted from 1; `None` if no rule matches.
    pub by: Option<u16>,
    /// Whether that rule is quiet, so a denial by it isn't logged.
    pub is_quiet: bool,
}

/// Verdicts in order. Contracts see the list of them.
pub type Verdicts = Sequence<Verdict>;
