//! The record of what the policy denies.

use gw_addr::{Sequence, Source};
use gw_rules::{Ask, RuleName};

/// An ask that the policy denied.
#[derive(Drop)]
pub struct Denial {
    /// Its number, from 1.
    pub number: u64,
    /// How many ticks, of a second each, had come.
    pub tick: u64,
    /// The number of the port that the datagram came on, from 1.
    pub port: u8,
    /// Where the datagram claims to come from (clause 6.2.2).
    pub source: Source,
    /// What was asked.
    pub ask: Ask,
    /// The name of the rule that denied it, or `default` where none matched.
    pub rule: RuleName,
}

/// Denials, in order. Contracts see the list of them.
pub type Denials = Sequence<Denial>;
