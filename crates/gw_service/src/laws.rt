//! Laws of a run. The functions do nothing: their contracts are the laws.

ghost use Rattle.std.specs.Prelude.{◌≡◌, List, Option, ℕ};
ghost use Rattle.gw_core.specs.State.{State};
ghost use Rattle.gw_core.specs.declared.event.Counts.{Counts};
ghost use Rattle.gw_turns.specs.declared.announcing.Announcing.{Announcing};
ghost use Rattle.gw_turns.specs.declared.serving.Served.{Served};
ghost use Rattle.gw_turns.specs.declared.tally.DropTally.{DropTally};
ghost use Rattle.gw_service.specs.Chain.{manner};
ghost use Rattle.gw_service.specs.Holding.{ChainsLogFirst, ChainsLoseNothing, StepsLogFirst, StepsLoseNothing, holding_manner};
ghost use Rattle.gw_service.specs.Stats.{Reporting};
ghost use Rattle.gw_notices.specs.declared.reload.ReloadCounts.{ReloadCounts};
ghost use Rattle.gw_service.specs.Kept.{Given};
ghost use Rattle.gw_service.specs.Metering.{meters_by};
ghost use Rattle.gw_service.specs.WatchedRuns.{AuditIsWhole, CountsAreWhole, TrialIsWhole};
ghost use Rattle.gw_service.specs.Laws.{ChecksumIsInForce, IsAsPlain, IsAsServed, IsAsUnwatched, NobodyAsks, NumbersGoOn, NumbersGoOnAlone};
ghost use Rattle.gw_service.specs.Laws.{RulesAreInForce, RulesStay};

use crate::keeping::StateKeeper;
use crate::waiting::MOST_WAITING;
use gw_script::OctetSink;
use gw_system::Requests;
use gw_wire::Store;

/// Each event is judged by the rules of the configuration in force: wherever a run leads, the gateway has them, and in a stretch
/// they stay.
pub fn rules_are_in_force<K: StateKeeper>()
    ensures chain { (start : Counts) (report status : K → ReloadCounts → Announcing → Option ℕ → State → Served → DropTally → List ℕ) →
        RulesAreInForce (manner K.Passes K.conduct.Ticks K.conduct.Adopts K.conduct.troubles report status
        (meters_by start) K.conduct.Lasts) }
    ensures stretch { RulesStay }
{}

/// The checksum that metrics show is that of the configuration in force: wherever a run leads, it is the one of a text of that.
pub fn checksum_is_in_force<K: StateKeeper>()
    ensures { (start : Counts) (report status : K → ReloadCounts → Announcing → Option ℕ → State → Served → DropTally → List ℕ) →
        ChecksumIsInForce (manner K.Passes K.conduct.Ticks K.conduct.Adopts K.conduct.troubles report status
        (meters_by start) K.conduct.Lasts) }
{}

/// No number of a denial is used twice: a gateway that begins with a state goes on after the number of the denial that its log shows
/// last, whatever is in front of it and whatever notes follow; or after the number of the state, which no denial has, if it shows none.
pub fn numbers_go_on()
    ensures shown { NumbersGoOn }
    ensures lost { NumbersGoOnAlone }
{}

/// What watches changes nothing but what is reported: the log, the calls of the wire, the state and the outcome are those of a run
/// without it.
pub fn as_unwatched<S: Store + Drop, Q: Requests + Drop, L: OctetSink + Drop>()
    ensures { (given : Given S Q L) → IsAsUnwatched given }
{}

/// A run that watches nothing is the plain run, also in what it reports, and in what it answers; and so is one that goes on if its log
/// fails.
pub fn as_plain<S: Store + Drop, Q: Requests + Drop, L: OctetSink + Drop>()
    ensures { (given : Given S Q L) → IsAsPlain given }
{}

/// If no request file is named, nobody asks: no look finds a request, and the configuration in force stays to the end.
pub fn nobody_asks<K: StateKeeper>()
    ensures { (start : Counts) (report status : K → ReloadCounts → Announcing → Option ℕ → State → Served → DropTally → List ℕ) →
        NobodyAsks (manner K.Passes K.conduct.Ticks K.conduct.Adopts K.conduct.troubles report status (meters_by start) K.conduct.Lasts) }
{}

/// A run that neither keeps a state nor looks for requests, of a configuration that announces nothing, is one of
/// [`serve`](gw_turns::serve) but for what it reports: the log, the calls of the wire and the outcome are those of serving from the
/// gateway's first state.
pub fn as_served<S: Store + Drop, Q: Requests + Drop, L: OctetSink + Drop>()
    ensures { (given : Given S Q L) → IsAsServed given }
{}

/// A run that goes on if its log fails: nothing of an event is sent before its lines are in the log; and the log, with what waits for it,
/// gets exactly the lines of all that is denied, in order. At most 8 MiB wait.
pub fn holding<K: StateKeeper>()
    ensures most { MOST_WAITING ≡ 8388608 }
    ensures step_first { (how : Reporting) → StepsLogFirst
        (holding_manner K.Passes K.conduct how) }
    ensures step_whole { (how : Reporting) → StepsLoseNothing
        (holding_manner K.Passes K.conduct how) }
    ensures first { (how : Reporting) → ChainsLogFirst
        (holding_manner K.Passes K.conduct how) }
    ensures whole { (how : Reporting) → ChainsLoseNothing
        (holding_manner K.Passes K.conduct how) }
{}

/// What a watcher's logs and counts are after a run, if nothing was lost and all events were seen: the logs have exactly their lines,
/// and each count is that of all asks.
pub fn after_each_run<T: OctetSink, A: OctetSink>()
    ensures trial { TrialIsWhole T.held A.held }
    ensures audit { AuditIsWhole T.held A.held }
    ensures counts { CountsAreWhole T.held A.held }
{}
