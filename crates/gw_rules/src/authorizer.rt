//! The one way by which a part of the gateway asks the policy.
ghost use Rattle.std.specs.Prelude.{◌≡◌, [], ◌∷◌, ◌++◌, IfOk, IsFalse, IsOk, List, OnErr, OnOk};
ghost use Rattle.gw_rules.specs.declared.rule.Rule.{Rule};
ghost use Rattle.gw_rules.specs.Authorizer.{denied_of};
ghost use Rattle.gw_rules.specs.RuleList.{allows, is_logged};

use crate::{Ask, Decision, Judge, Refusal, Refusals};
use std::alloc::{AllocError, Global};
use std::marker::Model;

/// Puts asks to a judge one by one, and keeps in order those that are denied and not by a quiet rule. What asks in no other way
/// has a complete log.
///
/// Contracts see the judge and the list of the refusals.
#[derive(Drop)]
pub struct Authorizer<'a, J> {
    alloc: Global,
    judge: &'a J,
    refusals: Refusals,
}

impl<'a, J> Model for Authorizer<'a, J> {
    ghost use Rattle.gw_rules.specs.Authorizer.{AuthorizerState};

    ghost Value = { AuthorizerState J };

    ghost view = { λ a. record { judge = a.judge.now; denied = a.refusals } };
}

impl<'a, J: Judge> Authorizer<'a, J> {
    /// An authorizer that hasn't asked yet. It takes no memory.
    pub fn new(alloc: Global, judge: &'a J) -> Self
        ensures judge { result.judge ≡ judge.now }
        ensures denied { result.denied ≡ [] }
    {
        Authorizer {
            alloc,
            judge,
            refusals: Refusals::new(alloc),
        }
    }

    /// The allocator of what it keeps.
    pub(crate) fn alloc(&self) -> Global {
        self.alloc
    }

    /// Whether the policy allows the ask. A denied ask is kept, after those that were denied
    /// before, unless the rule that denies it is quiet. Only that may want memory; with `AllocError` the refusals stay as they are, and the
    /// ask counts as not put.
    pub fn authorize(&mut self, ask: &Ask) -> Result<bool, AllocError>
        ensures answer { (rules : List Rule) → J.StandsFor self.old.judge rules →
            IfOk result (λ yes. yes ≡ allows rules ask.now) }
        ensures denied { (rules : List Rule) → J.StandsFor self.old.judge rules →
            OnOk result (self.new.denied ≡ self.old.denied ++ denied_of rules (ask.now ∷ [])) }
        ensures unlogged { (rules : List Rule) → J.StandsFor self.old.judge rules →
            IsFalse (is_logged rules ask.now) → IsOk result }
        ensures judge { self.new.judge ≡ self.old.judge }
        ensures err { OnErr result (self.new ≡ self.old) }
    {
        match self.judge.decide(ask) {
            Decision::Allow => Ok(true),
            Decision::Deny { by } => {
                if !self.judge.is_quiet(by) {
                    self.refusals.push(Refusal { ask: *ask, by })?;
                }
                Ok(false)
            }
        }
    }

    /// The refusals in order.
    pub fn refusals(&self) -> &[Refusal]
        ensures { result.now ≡ self.now.denied }
    {
        self.refusals.as_slice()
    }

    /// The refusals in order, for keeps.
    pub fn into_refusals(self) -> Refusals
        ensures { result ≡ self.entry.denied }
    {
        self.refusals
    }
}
