//! What a gateway judges by: its rules, and their index if that pays.
ghost use Rattle.std.specs.Prelude.{◌≡◌, is_some, length, nat_le, IfOk, IfSome};
ghost use Rattle.gw_rule_index.specs.declared.policy.TheConstants.{LEAST_INDEXED};
ghost use Rattle.gw_rule_index.specs.internal.Index.{IsBuiltFrom};

use crate::RuleIndex;
use gw_rules::{Ask, Decision, Judge, RuleList};
use std::alloc::{AllocError, Global};
use std::marker::Model;

/// From how many rules on the index is asked: with fewer the list answers as soon.
pub const LEAST_INDEXED: usize = 32;

/// The rules of a gateway, and their index if they are many. It answers as the list of the rules,
/// which contracts see.
pub struct Policy {
    rules: RuleList,
    index: Option<RuleIndex>,
}

// By hand: a derived one is proved part by part wherever one is dropped (docs/GATE.md).
impl Drop for Policy {
    fn drop(self) {
        let Policy { rules: _, index: _ } = self;
    }
}

impl Model for Policy {
    ghost use Rattle.std.specs.Prelude.{◌≡◌, IfSome, List, is_some, length, nat_le};
    ghost use Rattle.gw_rules.specs.declared.rule.Rule.{Rule};
    ghost use Rattle.gw_rule_index.specs.declared.policy.TheConstants.{LEAST_INDEXED};
    ghost use Rattle.gw_rule_index.specs.internal.Index.{IsBuiltFrom};

    ghost Value = { List Rule };

    ghost view = { λ policy. policy.rules };

    ghost invariant = { λ policy. IfSome policy.index (λ index. IsBuiltFrom index policy.rules)
        × (is_some policy.index ≡ nat_le LEAST_INDEXED (length policy.rules)) };
}

impl Policy {
    /// The policy of these rules. The only fault is want of memory for an index.
    pub fn new(alloc: Global, rules: RuleList) -> Result<Self, AllocError>
        ensures { IfOk result (λ policy. policy ≡ rules) }
    {
        let index = index_of(alloc, &rules)?;
        Ok(Policy { rules, index })
    }

    /// The rules in order, by whose numbers the policy answers.
    pub fn rules(&self) -> &RuleList
        ensures { result.now ≡ self.now }
    {
        &self.rules
    }

    /// Whether an index answers: from 32 rules on.
    pub fn is_indexed(&self) -> bool
        ensures { result ≡ nat_le LEAST_INDEXED (length self.now) }
    {
        self.index.is_some()
    }
}

/// The index of rules, if they are so many that it pays.
fn index_of(alloc: Global, rules: &RuleList) -> Result<Option<RuleIndex>, AllocError>
    ensures built { IfOk result (λ index. IfSome index (λ index. IsBuiltFrom index rules.now)) }
    ensures indexed { IfOk result (λ index. is_some index ≡ nat_le LEAST_INDEXED (length rules.now)) }
{
    if rules.rules().len() < LEAST_INDEXED {
        return Ok(None);
    }
    Ok(Some(RuleIndex::build(alloc, rules)?))
}

impl Judge for Policy {
    ghost StandsFor = { λ policy rules. policy ≡ rules };

    fn first(&self, ask: &Ask) -> Option<u16> {
        match &self.index {
            Some(index) => RuleIndex::first(index, ask),
            None => RuleList::first(&self.rules, ask),
        }
    }

    fn allows(&self, ask: &Ask) -> bool {
        match &self.index {
            Some(index) => index.allows(ask),
            None => RuleList::allows(&self.rules, ask),
        }
    }

    fn is_quiet(&self, by: Option<u16>) -> bool {
        self.rules.is_quiet(by)
    }

    fn verdict(&self, ask: &Ask) -> (Option<u16>, bool) {
        match &self.index {
            Some(index) => index.verdict(ask),
            None => Judge::verdict(&self.rules, ask),
        }
    }

    fn decide(&self, ask: &Ask) -> Decision {
        match &self.index {
            Some(index) => index.decide(ask),
            None => RuleList::decide(&self.rules, ask),
        }
    }
}
