//! The policy of a configuration.
ghost use Rattle.std.specs.Prelude.{◌≡◌};

use crate::{Assertion, Set, Text};
use gw_addr::Sequence;
use gw_rules::RuleList;

/// The policy of a configuration: its rules, what is written with them, and what is asserted of them.
pub struct Policing {
    /// The rules in order.
    pub rules: RuleList,
    /// For each rule in their order the position of the table that it comes from, from 0.
    pub tables: Sequence<u16>,
    /// The note of each rule in their order, empty if it has none.
    pub notes: Sequence<Text>,
    /// For each rule in their order, whether what it allows is written too.
    pub audits: Sequence<bool>,
    /// How many tables of rules the text has.
    pub written: u16,
    /// The sets in order.
    pub sets: Sequence<Set>,
    /// The assertions in order.
    pub assertions: Sequence<Assertion>,
}

// By hand: a derived one is proved part by part wherever one is dropped (docs/GATE.md).
impl Drop for Policing {
    fn drop(self) {
        let Policing {
            rules: _,
            tables: _,
            notes: _,
            audits: _,
            written: _,
            sets: _,
            assertions: _,
        } = self;
    }
}

impl Policing {
    /// The rules, if the rest isn't wanted any more.
    pub fn into_rules(self) -> RuleList
        ensures { result ≡ self.rules }
    {
        let Policing {
            rules,
            tables: _,
            notes: _,
            audits: _,
            written: _,
            sets: _,
            assertions: _,
        } = self;
        rules
    }
}
