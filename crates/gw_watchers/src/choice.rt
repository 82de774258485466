//! Which asks are recorded beside the log, and how.

ghost use Rattle.std.specs.Prelude.{◌≡◌, ◌++◌, ℕ, Bool, List, OnOk, Option, Some, true};
ghost use Rattle.gw_core.specs.Asked.{asked_from};
ghost use Rattle.gw_core.specs.Denials.{rule_name};
ghost use Rattle.gw_core.specs.Receive.{Origin};
ghost use Rattle.gw_core.specs.declared.asked.Asked.{Asked};
ghost use Rattle.gw_rules.specs.declared.rule.Rule.{Rule};
ghost use Rattle.gw_rules.specs.declared.verdict.Verdict.{Verdict};

use gw_rules::{Ask, RuleList, RuleName, Verdict};
use std::alloc::AllocError;

/// Which asks are recorded beside the log, and how their lines begin.
pub trait RecordChoice {
    /// Whether an ask is recorded, and then the number of the rule that its line names, if one decides it.
    ghost chosen: { Self → Asked → Option (Option ℕ) };

    /// Whether the ask of a verdict may be recorded.
    ghost wants: { Self → Verdict → Bool };

    /// The rules that a line names, by those in force.
    ghost naming: { Self → List Rule → List Rule };

    /// How the line of an ask begins, in front of what the log has, by those in force.
    ghost front: { Self → List Rule → Asked → List ℕ };

    /// Whether an ask is recorded, and then the number of the rule that its line names, if one decides it.
    /// It is the same whoever the ask is of.
    fn chosen(&self, verdict: &Verdict) -> Option<Option<u16>>
        ensures { (from : Origin) → result ≡ chosen self.now (asked_from from verdict.now) };

    /// Whether an ask may be recorded that the rule of this number decided, or none, and that is allowed or isn't. It is the same
    /// whether that rule is quiet or not.
    fn wants(&self, ask: &Ask, by: Option<u16>, is_allowed: bool) -> bool
        ensures { (is_quiet : Bool) →
            result ≡ wants self.now (record { ask = ask.now; is_allowed = is_allowed; by = by; is_quiet = is_quiet }) };

    /// What is recorded may be.
    ghost wanted: { (choice : Self) (a : Asked) (by : Option ℕ) → chosen choice a ≡ Some by → wants choice a.verdict ≡ true };

    /// The name of the rule of this number, or `default`. These rules are in force.
    fn name(&self, rules: &RuleList, by: Option<u16>) -> RuleName
        ensures { result ≡ rule_name (naming self.now rules.now) by };

    /// Appends how the line of an ask begins, which is the same whoever it is of. These rules are in force.
    fn put_front(
        &self,
        rules: &RuleList,
        verdict: &Verdict,
        out: &mut Vec<u8>,
    ) -> Result<(), AllocError>
        ensures { (from : Origin) →
            OnOk result (out.new.items ≡ out.old.items ++ front self.now rules.now (asked_from from verdict.now)) };
}
