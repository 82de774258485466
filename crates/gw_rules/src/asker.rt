//! Who puts asks to a policy, and what is kept of them.
ghost use Rattle.std.specs.Prelude.{◌≡◌, [], ◌∷◌, ◌++◌, Bool, IfOk, IsOk, List, OnErr, OnOk, true};
ghost use Rattle.gw_rules.specs.declared.rule.Rule.{Rule};
ghost use Rattle.gw_rules.specs.declared.verdict.Verdict.{Verdict};
ghost use Rattle.gw_rules.specs.Ask.{Ask};
ghost use Rattle.gw_rules.specs.Asker.{is_refused, verdicts_of};
ghost use Rattle.gw_rules.specs.Authorizer.{denied_of};
ghost use Rattle.gw_rules.specs.Keeping.{both_refusals_kept, both_verdicts_kept, kept_refusals, no_refusal_kept, no_verdict_kept};
ghost use Rattle.gw_rules.specs.RuleList.{allows};

use crate::{Ask, Authorizer, Judge, Recorder};
use std::alloc::{AllocError, Global};

/// Puts asks to a policy one by one, and keeps what it is to keep of them, in order. What walks over
/// an event is generic in it: an [`Authorizer`] keeps the asks that are denied, a [`Recorder`] all.
pub trait Asker {
    /// It asks a policy of these rules.
    ghost StandsFor: { Self → List Rule → Type 0 };

    /// What it has kept.
    ghost kept: { Self → List Verdict };

    /// Which verdicts it picks of those that it could keep. No ask changes that.
    ghost picks: { Self → Verdict → Bool };

    /// What is kept of a list of asks.
    ghost kept_of: { List Rule → List Ask → List Verdict };

    /// The allocator of what it keeps.
    fn alloc(&self) -> Global;

    /// Whether the policy allows the ask. What is to be kept of it is added after what was kept
    /// before: only that may want memory. With `AllocError` the ask counts as not put, and nothing changed.
    fn authorize(&mut self, ask: &Ask) -> Result<bool, AllocError>
        ensures answer { (rules : List Rule) → StandsFor self.old rules →
            IfOk result (λ yes. yes ≡ allows rules ask.now) }
        ensures kept { (rules : List Rule) → StandsFor self.old rules →
            OnOk result (kept self.new ≡ kept self.old ++ kept_of rules (ask.now ∷ [])) }
        ensures unkept { (rules : List Rule) → StandsFor self.old rules →
            kept_of rules (ask.now ∷ []) ≡ [] → IsOk result }
        ensures stays { (rules : List Rule) → StandsFor self.old rules → StandsFor self.new rules }
        ensures picks { picks self.new ≡ picks self.old }
        ensures err { OnErr result (self.new ≡ self.old) };

    /// Of no asks nothing is kept.
    ghost kept_none: { (rules : List Rule) → kept_of rules [] ≡ [] };

    /// Of asks that are put one after the other, it is kept one after the other.
    ghost kept_both: { (rules : List Rule) (one two : List Ask) →
        kept_of rules (one ++ two) ≡ kept_of rules one ++ kept_of rules two };
}

impl<J: Judge> Asker for Authorizer<'_, J> {
    ghost StandsFor = { λ a rules. J.StandsFor a.judge rules };

    ghost kept = { λ a. kept_refusals a.denied };

    ghost picks = { λ _ verdict. is_refused verdict };

    ghost kept_of = { λ rules asks. kept_refusals (denied_of rules asks) };

    fn alloc(&self) -> Global {
        Authorizer::alloc(self)
    }

    fn authorize(&mut self, ask: &Ask) -> Result<bool, AllocError> {
        let is_allowed = Authorizer::authorize(self, ask)?;
        Ok(is_allowed)
    }

    ghost kept_none = { no_refusal_kept };

    ghost kept_both = { both_refusals_kept };
}

impl<J: Judge> Asker for Recorder<'_, J> {
    ghost StandsFor = { λ r rules. J.StandsFor r.judge rules };

    ghost kept = { λ r. r.verdicts };

    ghost picks = { λ _ _. true };

    ghost kept_of = { λ rules asks. verdicts_of rules asks };

    fn alloc(&self) -> Global {
        Recorder::alloc(self)
    }

    fn authorize(&mut self, ask: &Ask) -> Result<bool, AllocError> {
        let is_allowed = Recorder::authorize(self, ask)?;
        Ok(is_allowed)
    }

    ghost kept_none = { no_verdict_kept };

    ghost kept_both = { both_verdicts_kept };
}
