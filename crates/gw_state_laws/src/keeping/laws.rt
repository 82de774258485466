//! Laws of a keeper that guards a gateway, over any store. The functions do nothing: their contracts are the laws.
ghost use Rattle.gw_service.specs.Kept.{Given};
ghost use Rattle.gw_state_laws.specs.keeping.Laws.{AnsweredIsKept, CurrentIsUpToDate, FaultsKeep, FirstIsCurrent, HeldStays, KeptIsAhead};
ghost use Rattle.gw_state_laws.specs.keeping.Laws.{KeptIsUpToDate, KeptIsYoung, PausesKeep, RunsEndCurrent, RunsKeepCurrent, RunsKeepLast};
ghost use Rattle.gw_state_laws.specs.keeping.Laws.{RunsKeepRecent, TicksKeepCurrent, TriedIsCurrent, TriedLastIsCurrent};
ghost use Rattle.gw_state_laws.specs.keeping.Laws.{WithheldIsOldOrNew};

use gw_script::OctetSink;
use gw_system::Requests;
use gw_wire::Store;

/// What a store holds when an event is answered: before the first datagram of an event that lasts is tried, the store is
/// up to date. If its datagrams are withheld, nothing of it was sent, it is an event that lasts, and the store
/// holds the text of its state or what it held.
pub fn at_each_answer<S: Store>()
    ensures answered { AnsweredIsKept S.held }
    ensures withheld { WithheldIsOldOrNew S.held }
    ensures held { HeldStays S.held }
{}

/// What a store holds after a try to keep a state, and after a tick: it is up to date, or the try failed.
pub fn at_each_try<S: Store>()
    ensures tried { TriedIsCurrent S.held }
    ensures last { TriedLastIsCurrent S.held }
    ensures ticked { TicksKeepCurrent S.held }
{}

/// What a store holds at every pause: if it is up to date at the beginning of a stretch, or its last try failed, then it is so
/// at the end. If the stretch ends in a fault but that of the log, it is so before the last event. Of such an event nothing was sent.
pub fn at_each_pause<S: Store>()
    ensures pauses { PausesKeep S.held }
    ensures faults { FaultsKeep S.held }
    ensures current { CurrentIsUpToDate S.held }
{}

/// What a store holds over a run, which is a chain of stretches with what is done between them. If it is up to date at one stage, or
/// the last try failed, then it is so at each later one, of the configuration that is in force there: over reloads and withheld
/// datagrams too. At the first stage it is. After each tick the text isn't older than ten ticks, but for the ticks; and the store holds
/// the text of a state fewer than 600 ticks ago, whose number of a denial is ahead, unless the last try failed.
pub fn over_a_run<S: Store, L: OctetSink>()
    ensures first { FirstIsCurrent S.held }
    ensures runs { RunsKeepCurrent S.held L.held }
    ensures current { KeptIsUpToDate S.held }
    ensures recent { RunsKeepRecent S.held L.held }
    ensures young { KeptIsYoung S.held }
    ensures ahead { KeptIsAhead S.held }
{}

/// What a store holds at the end of a run that keeps its state there, whatever watches it: it is up to date, or the last try failed. If the
/// run ends in a fault but that of the log, it is so before the last event. Of such an event nothing was sent. Then the last state is
/// kept, whatever ended the run: the store is up to date in it, or that try failed.
pub fn at_each_end<S: Store + Drop, Q: Requests + Drop, L: OctetSink + Drop>()
    ensures ended { (given : Given S Q L) → RunsEndCurrent given }
    ensures last { (given : Given S Q L) → RunsKeepLast given }
{}
