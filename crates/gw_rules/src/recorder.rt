//! An asker that keeps every ask.
ghost use Rattle.std.specs.Prelude.{◌≡◌, [], ◌∷◌, ◌++◌, IfOk, List, OnErr, OnOk};
ghost use Rattle.gw_rules.specs.declared.rule.Rule.{Rule};
ghost use Rattle.gw_rules.specs.Asker.{verdicts_of};
ghost use Rattle.gw_rules.specs.RuleList.{allows};

use crate::{Ask, Judge, Verdict, Verdicts};
use std::alloc::{AllocError, Global};
use std::marker::Model;

/// Puts asks to a judge one by one, and keeps each of them, allowed or denied, with what the judge
/// says of it, in order.
///
/// Contracts see the judge and the list of the verdicts.
#[derive(Drop)]
pub struct Recorder<'a, J> {
    alloc: Global,
    judge: &'a J,
    verdicts: Verdicts,
}

impl<'a, J> Model for Recorder<'a, J> {
    ghost use Rattle.gw_rules.specs.Asker.{RecorderState};

    ghost Value = { RecorderState J };

    ghost view = { λ r. record { judge = r.judge.now; verdicts = r.verdicts } };
}

impl<'a, J: Judge> Recorder<'a, J> {
    /// A recorder that hasn't asked yet. It takes no memory.
    pub fn new(alloc: Global, judge: &'a J) -> Self
        ensures judge { result.judge ≡ judge.now }
        ensures verdicts { result.verdicts ≡ [] }
    {
        Recorder {
            alloc,
            judge,
            verdicts: Verdicts::new(alloc),
        }
    }

    /// The allocator of what it keeps.
    pub(crate) fn alloc(&self) -> Global {
        self.alloc
    }

    /// Whether the policy allows the ask. It is kept with its verdict after those before. Only that may
    /// want memory; with `AllocError` the verdicts stay as they are, and the ask counts as not put.
    pub fn authorize(&mut self, ask: &Ask) -> Result<bool, AllocError>
        ensures answer { (rules : List Rule) → J.StandsFor self.old.judge rules →
            IfOk result (λ yes. yes ≡ allows rules ask.now) }
        ensures verdicts { (rules : List Rule) → J.StandsFor self.old.judge rules →
            OnOk result (self.new.verdicts ≡ self.old.verdicts ++ verdicts_of rules (ask.now ∷ [])) }
        ensures judge { self.new.judge ≡ self.old.judge }
        ensures err { OnErr result (self.new ≡ self.old) }
    {
        let (by, is_allowed) = self.judge.verdict(ask);
        self.verdicts.push(Verdict {
            ask: *ask,
            is_allowed,
            by,
            is_quiet: self.judge.is_quiet(by),
        })?;
        Ok(is_allowed)
    }

    /// The verdicts in order.
    pub fn verdicts(&self) -> &[Verdict]
        ensures { result.now ≡ self.now.verdicts }
    {
        self.verdicts.as_slice()
    }

    /// The verdicts in order, for keeps.
    pub fn into_verdicts(self) -> Verdicts
        ensures { result ≡ self.entry.verdicts }
    {
        self.verdicts
    }
}
