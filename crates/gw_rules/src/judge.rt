//! What any judge of a policy answers, however it keeps the policy.
ghost use Rattle.std.specs.Prelude.{◌≡◌, List};
ghost use Rattle.gw_rules.specs.declared.rule.Rule.{Rule};
ghost use Rattle.gw_rules.specs.RuleList.{allows, decide, first, is_quiet_by};

use crate::{Ask, Decision, RuleList};

/// A judge of asks by the first rule that matches. It may keep the rules in another form than a
/// list, so a relation says for which lists its answers are right.
pub trait Judge {
    /// The judge answers as this list of rules does.
    ghost StandsFor: { Self → List Rule → Type 0 };

    /// The number of the first rule that matches the ask, counted from 1, or none.
    fn first(&self, ask: &Ask) -> Option<u16>
        ensures first { (rules : List Rule) → StandsFor self.now rules →
            result ≡ first rules ask.now };

    /// Whether there is a first rule that matches the ask, and it says allow.
    fn allows(&self, ask: &Ask) -> bool
        ensures { (rules : List Rule) → StandsFor self.now rules → result ≡ allows rules ask.now };

    /// Whether the rule of a number is quiet, if it is one's.
    fn is_quiet(&self, by: Option<u16>) -> bool
        ensures { (rules : List Rule) → StandsFor self.now rules → result ≡ is_quiet_by rules by };

    /// Both at once: the number of the first rule that matches the ask, and whether it says allow. A judge that finds both by one
    /// walk says so by a body of its own.
    fn verdict(&self, ask: &Ask) -> (Option<u16>, bool)
        ensures first { (rules : List Rule) → StandsFor self.now rules → result.0 ≡ first rules ask.now }
        ensures allows { (rules : List Rule) → StandsFor self.now rules → result.1 ≡ allows rules ask.now }
    {
        (self.first(ask), self.allows(ask))
    }

    /// Both at once: whether the ask is allowed, and which rule denies it. A judge that finds both by
    /// one walk says so by a body of its own.
    fn decide(&self, ask: &Ask) -> Decision
        ensures { (rules : List Rule) → StandsFor self.now rules → result ≡ decide rules ask.now }
    {
        if self.allows(ask) {
            Decision::Allow
        } else {
            Decision::Deny {
                by: self.first(ask),
            }
        }
    }
}

impl Judge for RuleList {
    ghost StandsFor = { λ list rules. list ≡ rules };

    fn first(&self, ask: &Ask) -> Option<u16> {
        RuleList::first(self, ask)
    }

    fn allows(&self, ask: &Ask) -> bool {
        RuleList::allows(self, ask)
    }

    fn is_quiet(&self, by: Option<u16>) -> bool {
        RuleList::is_quiet(self, by)
    }

    fn verdict(&self, ask: &Ask) -> (Option<u16>, bool) {
        RuleList::verdict(self, ask)
    }

    fn decide(&self, ask: &Ask) -> Decision {
        RuleList::decide(self, ask)
    }
}
