//! By which rule each ask was decided. Asks of one rule that follow one another are kept as one streak.

ghost use Rattle.std.specs.Prelude.{◌≡◌, ◌++◌, ◌∷◌, [], OnErr, OnOk};
ghost use Rattle.gw_core.specs.Deciders.{decided_along, decided_in};

use crate::streak::Streak;
use std::alloc::{AllocError, Global};
use std::marker::Model;

/// By which rule each ask was decided: its number, from 1, or none. Contracts see the list of them.
#[derive(Drop)]
pub struct Deciders {
    ended: Vec<Streak>,
    last: Streak,
}

impl Model for Deciders {
    ghost use Rattle.std.specs.Prelude.{◌++◌, ℕ, List, Option};
    ghost use Rattle.gw_core.specs.Deciders.{decided_along, decided_in};

    ghost Value = { List (Option ℕ) };

    ghost view = { λ d. decided_along d.ended.items ++ decided_in d.last };
}

impl Deciders {
    /// No ask was decided. It takes no memory.
    pub(crate) fn new(alloc: Global) -> Self
        ensures { result ≡ [] }
    {
        Deciders {
            ended: Vec::new(alloc),
            last: Streak { by: None, count: 0 },
        }
    }

    /// One ask more was decided by the rule of this number, or by none. It takes memory only if another decided the ask before.
    /// After an `Err` all is as before.
    #[inline(always)]
    pub(crate) fn push(&mut self, by: Option<u16>) -> Result<(), AllocError>
        ensures ok { OnOk result (self.new ≡ self.old ++ by ∷ []) }
        ensures err { OnErr result (self.new ≡ self.old) }
    {
        if by != self.last.by || self.last.count == usize::MAX {
            add_streak(&mut self.ended, self.last)?;
            self.last = Streak { by, count: 0 };
        }
        self.last.count += 1;
        Ok(())
    }

    /// The streaks, in order: those that ended, and the last one, which has no ask if none was decided.
    pub fn streaks(&self) -> (&[Streak], Streak)
        ensures { self.now ≡ decided_along result.0.now ++ decided_in result.1 }
    {
        (self.ended.as_slice(), self.last)
    }
}

/// Adds a streak after the others, if it has an ask.
fn add_streak(streaks: &mut Vec<Streak>, streak: Streak) -> Result<(), AllocError>
    ensures ok { OnOk result (decided_along streaks.new.items ≡ decided_along streaks.old.items ++ decided_in streak) }
    ensures err { OnErr result (streaks.new.items ≡ streaks.old.items) }
{
    if streak.count > 0 {
        streaks.push(streak)?;
    }
    Ok(())
}
