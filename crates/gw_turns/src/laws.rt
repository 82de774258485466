//! Laws of serving. The functions do nothing: their contracts are the laws.

ghost use Rattle.std.specs.Prelude.{◌≡◌};
ghost use Rattle.gw_turns.specs.Announcing.{NothingDueNothingDone, PortsAreAll, UnannouncedIsSilent};
ghost use Rattle.gw_turns.specs.ByPort.{AgainIsReportedOnce, PortsAddUp};
ghost use Rattle.gw_turns.specs.Both.{GoOnUnderFirst, GoOnUnderSecond, IsUnderFirst, IsUnderSecond};
ghost use Rattle.gw_turns.specs.Keeping.{AheadIsUnreached, AlikeButTicksIsEqual, AlikeIsEqual, EqualButTicksIsAlike, EqualIsAlike};
ghost use Rattle.gw_turns.specs.Keeping.{EventsTryFew, FailingIsSpared, FreshIsSpared, RecentIsYoung, RestsAtTicks, RestsEnd};
ghost use Rattle.gw_turns.specs.Keeping.{TicksBeginAnew, TicksKeepAhead, TicksKeepRecent, TicksKeepYoung};
ghost use Rattle.gw_turns.specs.Logged.{ServingLogsFirst, StopsLogFirst, StretchesLogFirst};
ghost use Rattle.gw_turns.specs.Pace.{PausesGrow};
ghost use Rattle.gw_turns.specs.Served.{StopsAreServed, TurnsAreServed};

use crate::ahead::{LEAST_AHEAD, MOST_AHEAD};
use crate::alike::OLDEST_TICKS;
use crate::pace::{LONGEST_PAUSE, MOST_REPLACES};
use gw_core::Guard;
use gw_wire::Store;

/// Between two ticks a store is tried at 64 events at most, and it rests 60 ticks at most. A state is kept again after 600 ticks. The
/// number of its last denial is 1,000 ahead once it is written anew, and 500 at least.
pub fn limits()
    ensures tries { MOST_REPLACES ≡ 64 }
    ensures pause { LONGEST_PAUSE ≡ 60 }
    ensures oldest { OLDEST_TICKS ≡ 600 }
    ensures most_ahead { MOST_AHEAD ≡ 1000 }
    ensures least_ahead { LEAST_AHEAD ≡ 500 }
{}

/// What `serve` promises, in the words of a wire: the turns are the receives; the events that were handed in are those
/// that the gateway took, those lost to memory, and one at the end of a count; and what was tried to be sent is what the
/// taken events send.
pub fn served()
    ensures turns { TurnsAreServed }
    ensures stops { StopsAreServed }
{}

/// Nothing of an event is sent before the lines of its denials are in the log: wherever a stretch ends under a guard, and wherever
/// `serve` ends, what was tried to be sent is that of events whose lines the log has.
pub fn logged_first<G: Guard>()
    ensures stretches { StretchesLogFirst G.Passes }
    ensures serving { ServingLogsFirst }
    ensures stops { StopsLogFirst }
{}

/// When a keeper doesn't write: of two saved states that it takes for alike the same lasts, and it takes all such for
/// alike; or they differ only in their ticks, and it takes all such for alike: no registration is new, renewed or gone. After each
/// tick the text is that of a state fewer than ten ticks ago, or of one that differs only in its ticks, and its number of a denial is
/// ahead, unless the last try failed.
pub fn keeping<S: Store>()
    ensures lasting { AlikeIsEqual }
    ensures alike { EqualIsAlike }
    ensures but_ticks { AlikeButTicksIsEqual }
    ensures alike_but_ticks { EqualButTicksIsAlike }
    ensures recent { TicksKeepRecent S.held }
{}

/// How old the text of a keeper gets: after each tick it is that of a state fewer than 600 ticks ago, unless the last try failed. So a
/// registration that a restart takes over from it runs at most 600 ticks longer than it would have, besides those in which the
/// gateway was off; and a file that somebody took away is there again. What differs only in its ticks isn't written again before
/// that.
pub fn renewing<S: Store>()
    ensures recent { RecentIsYoung }
    ensures ticks { TicksKeepYoung S.held }
    ensures fresh { FreshIsSpared S.held }
{}

/// Which number of a denial the text of a keeper has: after each tick one that none has before 500 more came, unless the last try
/// failed. So a gateway that goes on from it after a kill repeats none, whatever its log holds, unless more than 500 came since the
/// last tick.
pub fn numbering<S: Store>()
    ensures ticks { TicksKeepAhead S.held }
    ensures unreached { AheadIsUnreached }
{}

/// How often a keeper tries its store: at most 64 times at events between two ticks. After a try that failed it rests 1, 2, 4, 8, 16,
/// 32, and then 60 ticks: until then the store isn't called, at events or at ticks, and no event that lasts is answered. At the tick at
/// which the rest ends it is tried.
pub fn trying<S: Store>()
    ensures few { EventsTryFew S.held }
    ensures anew { TicksBeginAnew S.held }
    ensures spared { FailingIsSpared S.held }
    ensures rests { RestsAtTicks S.held }
    ensures ends { RestsEnd S.held }
    ensures pauses { PausesGrow }
{}

/// What is announced on all ports, one after the other, is what the gateway announces, in order of ports.
pub fn announced()
    ensures { PortsAreAll }
{}

/// A gateway of a configuration that doesn't announce calls the wire for no announcement; and where no announcement is due nothing
/// is done.
pub fn unannounced()
    ensures silent { UnannouncedIsSilent }
    ensures nothing_due { NothingDueNothingDone }
{}

/// Under two guards: if one lets all go, a stretch is one under the other alone, which knows nothing of it; and turns go on under each
/// as under both.
pub fn two_guards<G: Guard, H: Guard>()
    ensures first { IsUnderFirst G.Passes H.Passes }
    ensures second { GoOnUnderSecond G.Passes H.Passes }
    ensures second_alone { IsUnderSecond G.Passes H.Passes }
    ensures first_passed { GoOnUnderFirst G.Passes H.Passes }
{}

/// What is counted by port adds up, over all ports, to the totals of the report's line: how many datagrams came, how many weren't passed
/// on, and how many sends succeeded and failed. It is so under any guard.
pub fn by_port<G: Guard>()
    ensures { PortsAddUp G.Passes }
{}

/// Where each report is of so many seconds, that sends on a port succeed again is in the first one after they did, and in no later one.
pub fn restored_once()
    ensures { AgainIsReportedOnce }
{}
