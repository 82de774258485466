//! Who asks for a guard: whole is kept only what the guard wants to see whole.

ghost use Rattle.std.specs.Prelude.{◌≡◌, ◌∷◌, ◌++◌, [], Bool, List, OnErr, OnOk};
ghost use Rattle.gw_rules.specs.Asker.{verdicts_of};
ghost use Rattle.gw_rules.specs.Keeping.{both_verdicts_kept, no_verdict_kept};
ghost use Rattle.gw_rules.specs.RuleList.{is_quiet_by};
ghost use Rattle.gw_rules.specs.declared.verdict.Verdict.{Verdict};
ghost use Rattle.gw_core.specs.internal.Sieved.{IsSieved, sieved_on};

use crate::deciders::Deciders;
use crate::guard::Guard;
use crate::heard::HeardVerdicts;
use gw_rule_index::Policy;
use gw_rules::{Ask, Asker, Judge, Refusal, Refusals, Verdict, Verdicts};
use std::alloc::{AllocError, Global};
use std::marker::Model;

/// What is kept of what was asked.
#[derive(Drop)]
pub(crate) struct Sieved {
    /// The refusals, in order.
    pub refusals: Refusals,
    /// By which rule each ask was decided, in order.
    pub deciders: Deciders,
    /// The verdicts that are kept whole, in order.
    pub kept: Verdicts,
}

impl Sieved {
    /// Adds a verdict, which is kept whole if that is wanted. With `AllocError` all is as before.
    fn add(&mut self, verdict: &Verdict, is_kept: bool) -> Result<(), AllocError>
        ensures ok { OnOk result (self.new ≡ sieved_on is_kept verdict.now self.old) }
        ensures err { OnErr result (self.new ≡ self.old) }
    {
        let refused = self.refusals.len();
        if !verdict.is_allowed && !verdict.is_quiet {
            self.refusals.push(Refusal {
                ask: verdict.ask,
                by: verdict.by,
            })?;
        }
        let kept = self.kept.len();
        if is_kept && self.kept.push(*verdict).is_err() {
            self.refusals.truncate(refused);
            return Err(AllocError);
        }
        if self.deciders.push(verdict.by).is_err() {
            self.kept.truncate(kept);
            self.refusals.truncate(refused);
            return Err(AllocError);
        }
        Ok(())
    }
}

/// The verdict on an ask that the rule of this number decides, or none.
#[inline(always)]
fn verdict_on(ask: &Ask, policy: &Policy, by: Option<u16>, is_allowed: bool) -> Verdict
    ensures { result ≡ record {
      ask = ask.now;
      is_allowed = is_allowed;
      by = by;
      is_quiet = is_quiet_by policy.now by;
    } }
{
    Verdict {
        ask: *ask,
        is_allowed,
        by,
        is_quiet: policy.is_quiet(by),
    }
}

/// Puts asks to the policy of a gateway one by one, for a guard. It keeps the refusals, by which rule each ask was decided, and
/// whole only those verdicts that the guard wants to see whole.
///
/// Contracts see the policy, the guard and the list of all verdicts.
#[derive(Drop)]
pub(crate) struct Sieve<'a, G: Guard> {
    alloc: Global,
    policy: &'a Policy,
    guard: &'a G,
    sieved: Sieved,
    heard: HeardVerdicts,
}

impl<'a, G: Guard> Model for Sieve<'a, G> {
    ghost use Rattle.gw_core.specs.internal.Sieved.{IsSieved, SieveState};

    ghost Value = { SieveState G };

    ghost view = { λ s. record { policy = s.policy.now; guard = s.guard.now; verdicts = s.heard.verdicts } };

    ghost invariant = { λ s. IsSieved (G.keeps s.guard.now) s.heard.verdicts s.sieved };
}

impl<'a, G: Guard> Sieve<'a, G> {
    /// One that hasn't asked yet. It takes no memory.
    #[inline(always)]
    pub(crate) fn new(alloc: Global, policy: &'a Policy, guard: &'a G) -> Self
        ensures { result ≡ record { policy = policy.now; guard = guard.now; verdicts = [] } }
    {
        Sieve {
            alloc,
            policy,
            guard,
            sieved: Sieved {
                refusals: Refusals::new(alloc),
                deciders: Deciders::new(alloc),
                kept: Verdicts::new(alloc),
            },
            heard: HeardVerdicts::new(),
        }
    }

    /// What it kept.
    #[inline(always)]
    pub(crate) fn into_sieved(self) -> Sieved
        ensures { IsSieved (G.keeps self.entry.guard) self.entry.verdicts result }
    {
        self.sieved
    }
}

impl<G: Guard> Asker for Sieve<'_, G> {
    ghost StandsFor = { λ s rules. s.policy ≡ rules };

    ghost kept = { λ s. s.verdicts };

    ghost picks = { λ s. G.keeps s.guard };

    ghost kept_of = { λ rules asks. verdicts_of rules asks };

    fn alloc(&self) -> Global {
        self.alloc
    }

    fn authorize(&mut self, ask: &Ask) -> Result<bool, AllocError> {
        let (by, is_allowed) = self.policy.verdict(ask);
        let is_kept = self.guard.keeps(ask, by, is_allowed);
        if is_kept || !is_allowed {
            let verdict = verdict_on(ask, self.policy, by, is_allowed);
            self.sieved.add(&verdict, is_kept)?;
        } else {
            self.sieved.deciders.push(by)?;
        }
        self.heard
            .add(&[verdict_on(ask, self.policy, by, is_allowed)]);
        Ok(is_allowed)
    }

    ghost kept_none = { no_verdict_kept };

    ghost kept_both = { both_verdicts_kept };
}
