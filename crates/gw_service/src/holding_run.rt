//! A gateway that runs by stretches and goes on if its log fails: the lines that the log lacks wait, and what is denied is withheld
//! until they are written.

ghost use Rattle.std.specs.Prelude.{◌≡◌, ◌==◌, ◌++◌, ◌≤◌, ◌<◌, ◌+◌, ◌∷◌, [], if◌then◌else◌, ℕ, IsOk, List, None, Ok, Option, OnOk, Some};
ghost use Rattle.std.specs.Prelude.{length, false, true};
ghost use Rattle.std.specs.Io.KnownBytes.{Appends};
ghost use Rattle.gw_configuration.specs.Configuration.{Configuration};
ghost use Rattle.gw_state.specs.Saved.{origin_of};
ghost use Rattle.gw_system.specs.Requests.{IsAsking};
ghost use Rattle.gw_turns.specs.Pace.{one_more};
ghost use Rattle.gw_service.specs.Chain.{CanGoOn};
ghost use Rattle.gw_service.specs.Holding.{Finishes, GoesTo, RunsHolding, ServesHolding, answer_holding, goes_on, has_log_failed, hold};
ghost use Rattle.gw_service.specs.Holding.{holding_manner, more_holding, stage_of, waits_line, written_line};
ghost use Rattle.gw_service.specs.Kept.{RunsFromHolding, is_stopped, rest};
ghost use Rattle.gw_service.specs.Serving.{ends};
ghost use Rattle.gw_service.specs.Stats.{end_stats};
ghost use Rattle.gw_notices.specs.Notices.{no_troubles};
ghost use Rattle.gw_wire.specs.Wire.{Call};
ghost use Rattle.gw_service.specs.Scheduled.{reporting_by};

use crate::holding::Holding;
use crate::keeping::StateKeeper;
use crate::running::{RunEnd, Running};
use crate::stats::Schedule;
use crate::waiting::Waiting;
use gw_log_words::Notes;
use gw_notices::write_note;
use gw_script::OctetSink;
use gw_system::Requests;
use gw_turns::{ServeFault, one_more};
use gw_wire::{Store, Wire};
use std::alloc::Global;

/// A gateway that runs by stretches, and what waits for its log.
pub struct HoldingRun<K, Q, M: Store + Drop> {
    /// The gateway.
    pub running: Running<Holding<K>, Q, M>,
    /// The lines that wait for its log.
    pub waiting: Waiting,
}

// By hand: a derived one is proved part by part wherever one is dropped (docs/GATE.md).
impl<K: Drop, Q: Drop, M: Store + Drop> Drop for HoldingRun<K, Q, M> {
    fn drop(self) {
        let HoldingRun {
            running: _,
            waiting: _,
        } = self;
    }
}

/// Whether a stretch ended since the log failed.
fn has_log_failed(ended: Result<Option<RunEnd>, ServeFault>) -> bool
    ensures { result ≡ has_log_failed ended }
{
    matches!(ended, Err(ServeFault::Log))
}

/// Whether serving goes on after a stretch that ended so.
fn goes_on(ended: Result<Option<RunEnd>, ServeFault>) -> bool
    ensures { result ≡ goes_on ended }
{
    matches!(ended, Ok(None))
}

impl<K: StateKeeper, Q: Requests, M: Store + Drop> HoldingRun<K, Q, M> {
    /// Has what the log lacks of the last event's lines wait, and says so; the event counts as withheld. Whether it may wait: not if it has
    /// too many octets, or there is no memory.
    fn hold<E: OctetSink>(&mut self, errors: &mut E) -> bool
        ensures waiting { result ≡ true → self.new.waiting ≡ self.old.waiting ++ self.old.running.state.unwritten.items }
        ensures running { result ≡ true → self.new.running ≡ record self.old.running {
          keeper = record self.old.running.keeper {
            waiting = length self.new.waiting;
            withheld = one_more self.old.running.keeper.withheld;
          };
        } }
        ensures left { result ≡ false → self.new.waiting ≡ self.old.waiting }
        ensures still { result ≡ false → self.new.running ≡ record self.old.running {
          keeper = record self.old.running.keeper {
            waiting = length self.new.waiting;
          };
        } }
        ensures said { E.NeverFails errors.old →
            Appends (E.held errors.old) (E.held errors.new) (if result then waits_line else []) }
        ensures lasts { E.NeverFails errors.old → E.NeverFails errors.new }
    {
        let waits = self.waiting.push(&self.running.state.unwritten);
        self.running.keeper.waiting = self.waiting.len();
        if !waits {
            return false;
        }
        self.running.keeper.withheld = one_more(self.running.keeper.withheld);
        write_note(b"bacgw: log failed, denied messages wait\n", errors);
        true
    }

    /// Serves a stretch over the log, as [`Running::advance`] does. If the log fails at an event, what it lacks waits from then on.
    fn step_on_log<W: Wire, L: Notes, E: OctetSink>(
        &mut self,
        wire: &mut W,
        log: &mut L,
        errors: &mut E,
        schedule: &Schedule,
    ) -> Result<Option<RunEnd>, ServeFault>
        requires count { CanGoOn self.old.running.state (W.failure_count wire.old) }
        requires none { self.old.waiting ≡ [] }
        ensures comes { (c : Configuration) → self.old.running.origin ≡ origin_of c →
            let before = hold (stage_of Q.recorded c self.old.running (L.held log.old) (W.calls wire.old)) self.old.waiting in
            (d : Configuration) × (text : List ℕ) × (self.new.running.origin ≡ origin_of d)
            × GoesTo (holding_manner K.Passes K.conduct (reporting_by schedule.now)) before result text
            (hold (stage_of Q.recorded d self.new.running (L.held log.new) (W.calls wire.new)) self.new.waiting)
            × (E.NeverFails errors.old → Appends (E.held errors.old) (E.held errors.new) text) }
        ensures left { self.new.running.state.served.turns + self.new.running.state.left
            ≡ self.old.running.state.served.turns + self.old.running.state.left }
        ensures rest { CanGoOn self.new.running.state (W.failure_count wire.new) }
        ensures more { 0 < self.old.running.state.left →
            OnOk result (self.old.running.state.served.turns < self.new.running.state.served.turns) }
        ensures asking { result ≡ Ok (Some RunEnd.Stopped) → IsAsking (Q.recorded self.new.running.requests) }
        ensures lasts { E.NeverFails errors.old → E.NeverFails errors.new }
    {
        let ended = self.running.advance(wire, log, errors, schedule);
        if !has_log_failed(ended) {
            self.running.keeper.waiting = self.waiting.len();
            return ended;
        }
        if !self.hold(errors) {
            return Err(ServeFault::Log);
        }
        Ok(None)
    }

    /// Serves a stretch over what waits, as over a log: what is denied waits, too.
    fn step_on_waiting<W: Wire, E: OctetSink>(
        &mut self,
        wire: &mut W,
        errors: &mut E,
        schedule: &Schedule,
    ) -> Result<Option<RunEnd>, ServeFault>
        requires count { CanGoOn self.old.running.state (W.failure_count wire.old) }
        requires some { ¬ (self.old.waiting ≡ []) }
        ensures comes { (c : Configuration) → self.old.running.origin ≡ origin_of c → (log : Option (List ℕ)) →
            let before = hold (stage_of Q.recorded c self.old.running log (W.calls wire.old)) self.old.waiting in
            (d : Configuration) × (text : List ℕ) × (self.new.running.origin ≡ origin_of d)
            × GoesTo (holding_manner K.Passes K.conduct (reporting_by schedule.now)) before result text
            (hold (stage_of Q.recorded d self.new.running log (W.calls wire.new)) self.new.waiting)
            × (E.NeverFails errors.old → Appends (E.held errors.old) (E.held errors.new) text) }
        ensures left { self.new.running.state.served.turns + self.new.running.state.left
            ≡ self.old.running.state.served.turns + self.old.running.state.left }
        ensures rest { CanGoOn self.new.running.state (W.failure_count wire.new) }
        ensures more { 0 < self.old.running.state.left →
            OnOk result (self.old.running.state.served.turns < self.new.running.state.served.turns) }
        ensures asking { result ≡ Ok (Some RunEnd.Stopped) → IsAsking (Q.recorded self.new.running.requests) }
        ensures lasts { E.NeverFails errors.old → E.NeverFails errors.new }
    {
        let waiting = &mut self.waiting;
        let ended = self.running.advance(wire, waiting, errors, schedule);
        self.running.keeper.waiting = self.waiting.len();
        ended
    }

    /// Writes what waits to the log, as far as it takes that, and says so if that is all. If nothing waits nothing is done.
    fn write<L: OctetSink, E: OctetSink>(&mut self, log: &mut L, errors: &mut E)
        ensures writes { (c : Configuration) (calls : Option (List Call)) → (text : List ℕ)
            × Finishes (hold (stage_of Q.recorded c self.old.running (L.held log.old) calls) self.old.waiting) text
            (hold (stage_of Q.recorded c self.new.running (L.held log.new) calls) self.new.waiting)
            × (E.NeverFails errors.old → Appends (E.held errors.old) (E.held errors.new) text) }
        ensures sure { L.NeverFails log.old → self.new.waiting ≡ [] }
        ensures origin { self.new.running.origin ≡ self.old.running.origin }
        ensures requests { self.new.running.requests ≡ self.old.running.requests }
        ensures state { self.new.running.state ≡ self.old.running.state }
        ensures lasts { E.NeverFails errors.old → E.NeverFails errors.new }
    {
        if self.waiting.is_empty() {
            return;
        }
        self.waiting.write_to(log);
        self.running.keeper.waiting = self.waiting.len();
        if self.waiting.is_empty() {
            write_note(b"bacgw: log written again\n", errors);
        }
    }

    /// Serves a stretch over the log; or while lines wait over these, and after a tick they are tried to be written.
    fn step<W: Wire, L: Notes, E: OctetSink>(
        &mut self,
        wire: &mut W,
        log: &mut L,
        errors: &mut E,
        schedule: &Schedule,
    ) -> Result<Option<RunEnd>, ServeFault>
        requires count { CanGoOn self.old.running.state (W.failure_count wire.old) }
        ensures comes { (c : Configuration) → self.old.running.origin ≡ origin_of c →
            let before = hold (stage_of Q.recorded c self.old.running (L.held log.old) (W.calls wire.old)) self.old.waiting in
            (d : Configuration) × (text : List ℕ) × (self.new.running.origin ≡ origin_of d)
            × GoesTo (holding_manner K.Passes K.conduct (reporting_by schedule.now)) before result text
            (hold (stage_of Q.recorded d self.new.running (L.held log.new) (W.calls wire.new)) self.new.waiting)
            × (E.NeverFails errors.old → Appends (E.held errors.old) (E.held errors.new) text) }
        ensures left { self.new.running.state.served.turns + self.new.running.state.left
            ≡ self.old.running.state.served.turns + self.old.running.state.left }
        ensures rest { CanGoOn self.new.running.state (W.failure_count wire.new) }
        ensures more { 0 < self.old.running.state.left →
            OnOk result (self.old.running.state.served.turns < self.new.running.state.served.turns) }
        ensures asking { result ≡ Ok (Some RunEnd.Stopped) → IsAsking (Q.recorded self.new.running.requests) }
        ensures lasts { E.NeverFails errors.old → E.NeverFails errors.new }
    {
        if self.waiting.is_empty() {
            return self.step_on_log(wire, log, errors, schedule);
        }
        let ticks = self.running.gateway.counts().ticks;
        let ended = self.step_on_waiting(wire, errors, schedule);
        if goes_on(ended) && ticks < self.running.gateway.counts().ticks {
            self.write(log, errors);
            return Ok(None);
        }
        ended
    }

    /// Serves a wire for the turns that are left, stretch by stretch. Faults: those of [`Running::serve`]; the log's only if what
    /// it lacks can't wait.
    fn serve_steps<W: Wire, L: Notes, E: OctetSink>(
        &mut self,
        wire: &mut W,
        log: &mut L,
        errors: &mut E,
        schedule: &Schedule,
    ) -> Result<RunEnd, ServeFault>
        requires count { CanGoOn self.old.running.state (W.failure_count wire.old) }
        ensures serves { (c : Configuration) → self.old.running.origin ≡ origin_of c →
            let before = hold (stage_of Q.recorded c self.old.running (L.held log.old) (W.calls wire.old)) self.old.waiting in
            (d : Configuration) × (text : List ℕ) × (self.new.running.origin ≡ origin_of d)
            × ServesHolding (holding_manner K.Passes K.conduct (reporting_by schedule.now)) self.old.running.state.left before result text
            (hold (stage_of Q.recorded d self.new.running (L.held log.new) (W.calls wire.new)) self.new.waiting)
            × (E.NeverFails errors.old → Appends (E.held errors.old) (E.held errors.new) text) }
        ensures asking { is_stopped result ≡ true → IsAsking (Q.recorded self.new.running.requests) }
        ensures lasts { E.NeverFails errors.old → E.NeverFails errors.new }
    {
        for _ in 0..self.running.state.left {
            if self.running.state.left == 0 {
                return Ok(RunEnd::Turns);
            }
            let ended = self.step(wire, log, errors, schedule)?;
            match ended {
                Some(end) => return Ok(end),
                None => {}
            }
        }
        Ok(RunEnd::Turns)
    }

    /// What ends a run that ended so, once what waits was tried to be written once more: the log's fault, if it lacks some of it.
    fn answer(&self, how: Result<RunEnd, ServeFault>) -> Result<RunEnd, ServeFault>
        ensures { result ≡ answer_holding self.now.waiting how }
    {
        if self.waiting.is_empty() {
            how
        } else {
            Err(ServeFault::Log)
        }
    }

    /// Serves a wire for the turns that are left, as [`Running::serve`] does, but that it goes on if the log fails: what the log
    /// lacks waits, in order, and what is denied is withheld until it is written. It is tried to be written after each tick, and
    /// once more at the end.
    ///
    /// # Errors
    ///
    /// Those of [`serve`](gw_turns::serve). `Log` if more than 8 MiB would wait or there is no memory for it, or if the log lacks some
    /// of it at the end.
    pub fn serve<W: Wire, L: Notes, E: OctetSink>(
        &mut self,
        wire: &mut W,
        log: &mut L,
        errors: &mut E,
        schedule: &Schedule,
    ) -> Result<RunEnd, ServeFault>
        requires count { CanGoOn self.old.running.state (W.failure_count wire.old) }
        ensures runs { (c : Configuration) → self.old.running.origin ≡ origin_of c →
            let before = hold (stage_of Q.recorded c self.old.running (L.held log.old) (W.calls wire.old)) self.old.waiting in
            (d : Configuration) × (text : List ℕ) × (self.new.running.origin ≡ origin_of d)
            × RunsHolding (holding_manner K.Passes K.conduct (reporting_by schedule.now)) self.old.running.state.left before result text
            (hold (stage_of Q.recorded d self.new.running (L.held log.new) (W.calls wire.new)) self.new.waiting)
            × (E.NeverFails errors.old → Appends (E.held errors.old) (E.held errors.new) text) }
        ensures asking { is_stopped result ≡ true → IsAsking (Q.recorded self.new.running.requests) }
        ensures lasts { E.NeverFails errors.old → E.NeverFails errors.new }
    {
        let how = self.serve_steps(wire, log, errors, schedule);
        self.write(log, errors);
        self.answer(how)
    }

    /// Serves a wire for the turns that are left, as [`HoldingRun::serve`] does, and does before and after it what [`Running::run`] does.
    ///
    /// # Errors
    ///
    /// Those of [`HoldingRun::serve`].
    pub fn run<W: Wire, L: Notes, E: OctetSink>(
        &mut self,
        wire: &mut W,
        log: &mut L,
        errors: &mut E,
        schedule: &Schedule,
    ) -> Result<RunEnd, ServeFault>
        requires count { CanGoOn self.old.running.state (W.failure_count wire.old) }
        requires untold { self.old.running.said ≡ no_troubles }
        requires none { self.old.waiting ≡ [] }
        ensures runs { (c : Configuration) → self.old.running.origin ≡ origin_of c →
            let how = reporting_by schedule.now in
            let before = stage_of Q.recorded c (record self.old.running { said = K.conduct.troubles self.old.running.keeper.keeper })
            (L.held log.old) (W.calls wire.old) in
            let after = ends (L.held log.new) (W.calls wire.new) in
            (text : List ℕ) × RunsFromHolding (holding_manner K.Passes K.conduct how)
            (end_stats (λ h. K.conduct.unkept h.keeper) (more_holding K.conduct.more) how) how.start
            self.old.running.state.left before result after (rest self.new.running.keeper (Q.recorded self.new.running.requests)) text
            × (E.NeverFails errors.old → Appends (E.held errors.old) (E.held errors.new) text) }
        ensures lasts { E.NeverFails errors.old → E.NeverFails errors.new }
    {
        self.running.said = self.running.notice(errors);
        self.running
            .announcing
            .announce(self.running.state.alloc, &self.running.gateway, wire);
        let answer = self.serve(wire, log, errors, schedule);
        self.running.end(answer, schedule, errors);
        answer
    }
}
