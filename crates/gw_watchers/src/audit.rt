//! An audit: the allowed asks whose deciding rule is marked.

ghost use Rattle.std.specs.Prelude.{◌≡◌, IfOk, codes};
ghost use Rattle.gw_watchers.specs.Records.{audited_by, audits, is_marked, is_marked_at};
ghost use Rattle.gw_watchers.specs.internal.Wanted.{audits_what_is_audited};

use crate::choice::RecordChoice;
use gw_addr::put_slice;
use gw_core::rule_name;
use gw_rules::{Ask, RuleList, RuleName, Verdict};
use std::alloc::{AllocError, Global};
use std::marker::Model;

/// Which rules of a list are marked, in their order. Contracts see the list of the marks.
#[derive(Drop)]
pub struct Marks {
    of: Vec<bool>,
}

impl Model for Marks {
    ghost use Rattle.std.specs.Prelude.{Bool, List};

    ghost Value = { List Bool };

    ghost view = { λ m. m.of.items };
}

impl Marks {
    /// A copy of these marks, one for each rule. An `Err` only if a growth was refused.
    pub fn new(alloc: Global, marks: &[bool]) -> Result<Self, AllocError>
        ensures { IfOk result (λ copy. copy ≡ marks.now) }
    {
        Ok(Marks {
            of: Vec::from_slice(alloc, marks)?,
        })
    }

    /// Whether the rule of this number is marked, from 1.
    fn is_marked_at(&self, number: u16) -> bool
        ensures { result ≡ is_marked_at self.now number }
    {
        let Some(place) = usize::from(number).checked_sub(1) else {
            return false;
        };
        match self.of.get(place) {
            Some(mark) => *mark,
            None => false,
        }
    }

    /// Whether a rule decides that is marked.
    fn is_marked(&self, by: Option<u16>) -> bool
        ensures { result ≡ is_marked self.now by }
    {
        match by {
            Some(number) => self.is_marked_at(number),
            None => false,
        }
    }
}

impl RecordChoice for Marks {
    ghost chosen = { audited_by };

    ghost wants = { audits };

    ghost naming = { λ _ rules. rules };

    ghost front = { λ _ _ _. codes "allow " };

    fn chosen(&self, verdict: &Verdict) -> Option<Option<u16>> {
        let by = verdict.by;
        if verdict.is_allowed && self.is_marked(by) {
            Some(by)
        } else {
            None
        }
    }

    fn wants(&self, _ask: &Ask, by: Option<u16>, is_allowed: bool) -> bool {
        is_allowed && self.is_marked(by)
    }

    ghost wanted = { audits_what_is_audited };

    fn name(&self, rules: &RuleList, by: Option<u16>) -> RuleName {
        rule_name(rules, by)
    }

    fn put_front(
        &self,
        _rules: &RuleList,
        _verdict: &Verdict,
        out: &mut Vec<u8>,
    ) -> Result<(), AllocError> {
        put_slice(out, b"allow ")
    }
}
