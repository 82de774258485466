//! A rule as it is written.
ghost use Rattle.std.specs.Prelude.{◌≡◌};

use gw_configuration::Text;
use gw_rules::Rule;

/// A rule, with what is written with it.
pub(crate) struct Written {
    /// The rule.
    pub rule: Rule,
    /// Its note, empty if it has none.
    pub note: Text,
    /// Whether what it allows is written too.
    pub audit: bool,
    /// Whether it is there; else it is turned off.
    pub enabled: bool,
    /// Whether it goes both ways.
    pub both_ways: bool,
}

// By hand: a derived one is proved part by part wherever one is dropped (docs/GATE.md).
impl Drop for Written {
    fn drop(self) {
        let Written {
            rule: _,
            note: _,
            audit: _,
            enabled: _,
            both_ways: _,
        } = self;
    }
}

impl Written {
    /// The rule, its note and its audit.
    pub fn into_parts(self) -> (Rule, Text, bool)
        ensures rule { result.0 ≡ self.rule }
        ensures note { result.1 ≡ self.note }
        ensures audit { result.2 ≡ self.audit }
    {
        let Written {
            rule,
            note,
            audit,
            enabled: _,
            both_ways: _,
        } = self;
        (rule, note, audit)
    }
}
