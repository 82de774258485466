//! A policy on trial: the asks that it decides otherwise than the rules in force, or all that it denies, but by quiet rules.

ghost use Rattle.std.specs.Prelude.{◌≡◌, ◌++◌, OnOk};
ghost use Rattle.gw_core.specs.Asked.{asked_from};
ghost use Rattle.gw_core.specs.Receive.{Origin};
ghost use Rattle.gw_watchers.specs.Records.{decided_otherwise, denied_by, other_front, trial_front, tried_by, tries};
ghost use Rattle.gw_watchers.specs.internal.Wanted.{tries_what_is_tried};

use crate::choice::RecordChoice;
use gw_addr::put_slice;
use gw_core::rule_name;
use gw_rule_index::Policy;
use gw_rules::{Ask, Decision, Judge, RuleList, RuleName, Verdict};
use std::alloc::AllocError;

/// A policy on trial, and which asks are recorded of it.
#[derive(Drop)]
pub struct Trial {
    /// The rules on trial.
    pub policy: Policy,
    /// Whether each ask that they deny is recorded, but by quiet rules. If not, each is that they decide otherwise than the rules
    /// in force.
    pub has_all_denied: bool,
}

/// The first rule of a policy that matches an ask, or none, if the policy denies it, but by a quiet rule.
fn denied_by(policy: &Policy, verdict: &Verdict) -> Option<Option<u16>>
    ensures { (from : Origin) → result ≡ denied_by policy.now (asked_from from verdict.now) }
{
    match policy.decide(&verdict.ask) {
        Decision::Allow => None,
        Decision::Deny { by } if policy.is_quiet(by) => None,
        Decision::Deny { by } => Some(by),
    }
}

/// The first rule of a policy that matches an ask, or none, if the policy decides it otherwise than was decided.
fn decided_otherwise(policy: &Policy, verdict: &Verdict) -> Option<Option<u16>>
    ensures { (from : Origin) → result ≡ decided_otherwise policy.now (asked_from from verdict.now) }
{
    match policy.decide(&verdict.ask) {
        Decision::Allow if verdict.is_allowed => None,
        Decision::Allow => Some(policy.first(&verdict.ask)),
        Decision::Deny { by } if verdict.is_allowed => Some(by),
        Decision::Deny { by: _ } => None,
    }
}

/// Appends what was decided of an ask, by which of the rules in force, and what the rules on trial decide, which is otherwise.
fn put_other_front(rules: &RuleList, verdict: &Verdict, out: &mut Vec<u8>) -> Result<(), AllocError>
    ensures { (from : Origin) →
        OnOk result (out.new.items ≡ out.old.items ++ other_front rules.now (asked_from from verdict.now)) }
{
    let (was, is) = if verdict.is_allowed {
        ("allow ", " -> deny ")
    } else {
        ("deny ", " -> allow ")
    };
    put_slice(out, was.as_bytes())?;
    put_slice(out, rule_name(rules, verdict.by).as_str().as_bytes())?;
    put_slice(out, is.as_bytes())
}

impl RecordChoice for Trial {
    ghost chosen = { tried_by };

    ghost wants = { tries };

    ghost naming = { λ trial _. trial.policy };

    ghost front = { trial_front };

    fn chosen(&self, verdict: &Verdict) -> Option<Option<u16>> {
        if self.has_all_denied {
            denied_by(&self.policy, verdict)
        } else {
            decided_otherwise(&self.policy, verdict)
        }
    }

    fn wants(&self, ask: &Ask, _by: Option<u16>, is_allowed: bool) -> bool {
        match self.policy.decide(ask) {
            Decision::Allow => !self.has_all_denied && !is_allowed,
            Decision::Deny { by } if self.has_all_denied => !self.policy.is_quiet(by),
            Decision::Deny { by: _ } => is_allowed,
        }
    }

    ghost wanted = { tries_what_is_tried };

    fn name(&self, _rules: &RuleList, by: Option<u16>) -> RuleName {
        rule_name(self.policy.rules(), by)
    }

    fn put_front(
        &self,
        rules: &RuleList,
        verdict: &Verdict,
        out: &mut Vec<u8>,
    ) -> Result<(), AllocError> {
        if self.has_all_denied {
            return Ok(());
        }
        put_other_front(rules, verdict, out)
    }
}
