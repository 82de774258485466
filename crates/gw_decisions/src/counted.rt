//! The asks of events, counted.

ghost use Rattle.std.specs.Prelude.{◌≡◌, List, map};
ghost use Rattle.gw_core.specs.Deciders.{decided_along, decided_in};
ghost use Rattle.gw_core.specs.declared.asked.Asked.{Asked};
ghost use Rattle.gw_decisions.specs.Counted.{AreCounted, AreCountedBy};
ghost use Rattle.gw_decisions.specs.tally.Tally.{place_of};

use crate::tally::Tally;
use gw_core::{SeenAsks, Streak};

/// Counts by which rule each ask was decided. A count of 2^64 - 1 stays.
pub fn count_asked(tally: &mut Tally, asked: &SeenAsks)
    ensures { (all : List Asked) → asked.now.deciders ≡ map (λ a. a.verdict.by) all → AreCounted tally.old all tally.new }
{
    let (ended, last) = asked.deciders().streaks();
    count_streaks(tally, ended);
    count_streak(tally, last);
}

/// Where an ask is counted that the rule of this number decided, or none.
fn place_by(by: Option<u16>) -> usize
    ensures { result ≡ place_of by }
{
    match by {
        Some(rule) => usize::from(rule),
        None => 0,
    }
}

/// Counts the asks of a streak, all at once.
fn count_streak(tally: &mut Tally, streak: Streak)
    ensures { AreCountedBy tally.old (decided_in streak) tally.new }
{
    tally.count_decided(place_by(streak.by), streak.count);
}

/// Counts the asks of streaks.
fn count_streaks(tally: &mut Tally, streaks: &[Streak])
    ensures { AreCountedBy tally.old (decided_along streaks.now) tally.new }
{
    for streak in streaks {
        count_streak(tally, *streak);
    }
}
