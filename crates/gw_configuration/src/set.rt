//! The sets of a configuration.

use gw_rules::RuleName;

/// A set of items that rules name in the place of writing them.
pub struct Set {
    /// Its name.
    pub name: RuleName,
    /// Whether a rule or an assertion names it.
    pub used: bool,
}

// By hand: a derived one is proved part by part wherever one is dropped (docs/GATE.md).
impl Drop for Set {
    fn drop(self) {
        let Set { name: _, used: _ } = self;
    }
}
