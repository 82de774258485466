//! The verdicts on what was asked, as only clauses see them.

ghost use Rattle.std.specs.Prelude.{◌≡◌, ◌++◌, [], List};
ghost use Rattle.std.specs.Borrow.{ftrue};
ghost use Rattle.gw_rules.specs.declared.verdict.Verdict.{Verdict};

use gw_rules::Verdict;
use std::marker::Model;

/// All verdicts on what was asked. It takes no memory.
#[derive(Drop)]
pub(crate) struct HeardVerdicts {
    pub ghost verdicts: { List Verdict },
}

impl Model for HeardVerdicts {
    ghost also_owns = { λ _. ftrue };
}

impl HeardVerdicts {
    /// Nothing was asked yet.
    #[inline(always)]
    pub(crate) fn new() -> Self
        ensures { result.verdicts ≡ [] }
    {
        HeardVerdicts {}
    }

    /// These verdicts came, too.
    #[inline(always)]
    pub(crate) fn add(&mut self, _verdicts: &[Verdict])
        ensures { self.new.verdicts ≡ self.old.verdicts ++ _verdicts.now }
    {}
}
