//! A gateway that runs by stretches: each is served to a tick, and then its state is kept, and its configuration read again
//! if that was asked for.

ghost use Rattle.std.specs.Prelude.{◌≡◌, ◌+◌, ◌≤◌, ◌<◌, ◌^◌, ◌++◌, ◌∷◌, [], ℕ, List, Option, IfOk, IsErrOf, Ok, OnOk, Some, false, true};
ghost use Rattle.std.specs.Option.{option_map_or};
ghost use Rattle.std.specs.Io.KnownBytes.{Appends, Keeps};
ghost use Rattle.gw_configuration.specs.Configuration.{Configuration};
ghost use Rattle.gw_state.specs.Saved.{origin_of};
ghost use Rattle.gw_turns.specs.Serve.{scene};
ghost use Rattle.gw_turns.specs.Stretch.{moment};
ghost use Rattle.gw_system.specs.Requests.{Asking, GoesOn, IsAsking, answered, asked, text_found};
ghost use Rattle.gw_service.specs.Chain.{Advances, AtTick, CanGoOn, FailsToLast, IsLooked, IsNotedWith, Link, Looks, Runs, WasLasting};
ghost use Rattle.gw_service.specs.Chain.{chain_text, edge, end_of, stage, standing};
ghost use Rattle.gw_notices.specs.Notices.{no_troubles, notice_of, stop_line};
ghost use Rattle.gw_notices.specs.Reload.{refusal_line};
ghost use Rattle.gw_service.specs.Holding.{holding_of, stage_of};
ghost use Rattle.gw_service.specs.Kept.{EndsRun, RunsFrom, is_stopped, rest, status_or};
ghost use Rattle.gw_service.specs.Metering.{MetersLast, lost_by, metered, seconds_of};
ghost use Rattle.gw_service.specs.Serving.{ends};
ghost use Rattle.gw_wire.specs.Wire.{Call};
ghost use Rattle.gw_service.specs.Scheduled.{reporting_by};
ghost use Rattle.gw_service.specs.Conduct.{manner_by};
ghost use Rattle.gw_service.specs.Stats.{all_stats, end_stats};

use crate::holding::Holding;
use crate::holding_run::HoldingRun;
use crate::keeping::StateKeeper;
use crate::metrics::{failing_of, put_due, put_last};
use crate::reload::{Adopted, reloaded};
use crate::stats::Schedule;
use crate::waiting::Waiting;
use gw_core::Gateway;
use gw_log_words::Notes;
use gw_notices::metrics::Metrics;
use gw_notices::{
    ReloadCounts, ReloadFault, Troubles, line_with_place, no_status_line, refusal_line,
    report_metrics, report_notices, stop_line, untaken_line, write_note,
};
use gw_policy_text::MAX_OCTETS;
use gw_script::{OctetSink, WriteFailed};
use gw_state::Origin;
use gw_system::{ReadFailure, Request, Requests};
use gw_turns::{Announcing, ServeFault, ServeState, StretchEnd};
use gw_wire::{Store, Wire};
use std::alloc::Global;

/// A gateway that runs by stretches, with what is configured of it, what keeps its state and what asks to read the
/// configuration again.
pub struct Running<K, Q, M: Store + Drop> {
    /// The gateway.
    pub gateway: Gateway,
    /// What is configured of what can be written.
    pub origin: Origin,
    /// What keeps its state.
    pub keeper: K,
    /// What asks to read the configuration again.
    pub requests: Q,
    /// How often it was.
    pub counts: ReloadCounts,
    /// What is to be announced, and what was.
    pub announcing: Announcing,
    /// What is kept from turn to turn, and what was counted.
    pub state: ServeState,
    /// What was reported last of what isn't kept or recorded.
    pub said: Troubles,
    /// What puts its metrics into a store, if something does.
    pub metrics: Option<Metrics<M>>,
}

// By hand: a derived one is proved part by part wherever one is dropped (docs/GATE.md).
impl<K: Drop, Q: Drop, M: Store + Drop> Drop for Running<K, Q, M> {
    fn drop(self) {
        let Running {
            gateway: _,
            origin: _,
            keeper: _,
            requests: _,
            counts: _,
            announcing: _,
            state: _,
            said: _,
            metrics: _,
        } = self;
    }
}

/// How a run ends whose last turn no fault ended.
#[derive(Clone, Copy)]
pub enum RunEnd {
    /// All turns were served.
    Turns,
    /// It was asked to stop.
    Stopped,
    /// The log couldn't be made to last at a tick.
    Unsynced,
}

/// Whether a run was asked to stop, by how it ended.
fn is_stopped(answer: Result<RunEnd, ServeFault>) -> bool
    ensures { result ≡ is_stopped answer }
{
    matches!(answer, Ok(RunEnd::Stopped))
}

/// How a run ends after a tick, if it was asked to stop then.
fn end_of(stops: bool) -> Option<RunEnd>
    ensures { result ≡ end_of stops }
{
    if stops { Some(RunEnd::Stopped) } else { None }
}

/// The report that answers a request to say what is counted, or else that there was no memory for it.
fn status_or(text: &Result<Vec<u8>, WriteFailed>) -> &[u8]
    ensures { result.now ≡ status_or text.now }
{
    match text {
        Ok(text) => text.as_slice(),
        Err(_) => no_status_line().as_bytes(),
    }
}

/// This line of what isn't taken over, or else that of the fault, which takes no memory.
fn line_or(line: &Option<Vec<u8>>, fault: ReloadFault) -> &[u8]
    ensures { result.now ≡ option_map_or (λ line. line.items) line.now (refusal_line fault) }
{
    match line {
        Some(line) => line.as_slice(),
        None => refusal_line(fault).as_bytes(),
    }
}

impl<K: StateKeeper, Q: Requests, M: Store + Drop> Running<K, Q, M> {
    /// Takes the configuration of what was read over, or goes on as before; answers the request, and reports and notes it.
    fn reload<L: Notes, E: OctetSink>(
        &mut self,
        read: &Result<Option<Vec<u8>>, ReadFailure>,
        log: &mut L,
        errors: &mut E,
    )
        requires { IsAsking (Q.recorded self.old.requests) }
        ensures looked { (first : Asking) (report : List ℕ) →
            GoesOn first (Q.recorded self.old.requests) (asked (text_found read.now) ∷ []) →
            Looks (IsLooked K.conduct.Adopts) (IsNotedWith L.Takes log.old log.new false report) self.old.origin
            (standing self.old.gateway self.old.keeper first self.old.counts self.old.announcing)
            self.new.origin (standing self.new.gateway self.new.keeper (Q.recorded self.new.requests) self.new.counts self.new.announcing)
            (E.NeverFails errors.old) (E.held errors.old) (E.held errors.new) }
        ensures log { Keeps (L.held log.old) (L.held log.new) }
        ensures state { self.new.state ≡ self.old.state }
        ensures said { self.new.said ≡ self.old.said }
        ensures metrics { self.new.metrics ≡ self.old.metrics }
        ensures lasts { E.NeverFails errors.old → E.NeverFails errors.new }
    {
        let alloc = self.state.alloc;
        match reloaded(alloc, &self.gateway, &self.origin, read) {
            Ok(
                Adopted {
                    gateway,
                    origin,
                    checksum,
                    successor,
                    line,
                },
            ) => {
                self.counts = self
                    .counts
                    .with_taken_over(self.gateway.counts().ticks, checksum);
                self.announcing = self.announcing.with_due();
                self.gateway = gateway;
                self.origin = origin;
                self.keeper.adopt(alloc, successor, &self.gateway);
                self.requests.answer(&line);
                let _ = log.take_note(&line);
                write_note(&line, errors);
            }
            Err(fault) => {
                self.counts = self.counts.with_refused();
                let located = line_with_place(alloc, read, fault);
                let line = line_or(&located, fault);
                self.requests.answer(line);
                let _ = log.take_note(line);
                write_note(line, errors);
            }
        }
    }

    /// Looks for a request, and if there is one to read the configuration again, or to say what is counted, does so. It answers
    /// whether there is one to stop.
    fn look<L: Notes, E: OctetSink>(
        &mut self,
        schedule: &Schedule,
        log: &mut L,
        errors: &mut E,
    ) -> bool
        ensures looked { let report = all_stats K.conduct.unkept K.conduct.more (reporting_by schedule.now) self.new.keeper self.new.counts
            self.new.announcing (lost_by (metered self.new.metrics)) self.new.gateway self.new.state.served self.new.state.tally in
            Looks (IsLooked K.conduct.Adopts) (IsNotedWith L.Takes log.old log.new result report) self.old.origin
            (standing self.old.gateway self.old.keeper (Q.recorded self.old.requests) self.old.counts self.old.announcing)
            self.new.origin (standing self.new.gateway self.new.keeper (Q.recorded self.new.requests) self.new.counts self.new.announcing)
            (E.NeverFails errors.old) (E.held errors.old) (E.held errors.new) }
        ensures log { Keeps (L.held log.old) (L.held log.new) }
        ensures state { self.new.state ≡ self.old.state }
        ensures said { self.new.said ≡ self.old.said }
        ensures metrics { self.new.metrics ≡ self.old.metrics }
        ensures asking { result ≡ true → IsAsking (Q.recorded self.new.requests) }
        ensures lasts { E.NeverFails errors.old → E.NeverFails errors.new }
    {
        match self.requests.take(self.state.alloc, MAX_OCTETS) {
            None => false,
            Some(Request::Reload(read)) => {
                self.reload(&read, log, errors);
                false
            }
            Some(Request::Stop) => true,
            Some(Request::Status) => {
                let text = schedule.status(self);
                self.requests.answer(status_or(&text));
                false
            }
            Some(Request::Untaken) => {
                write_note(untaken_line().as_bytes(), errors);
                false
            }
        }
    }

    /// Reports what isn't kept or recorded, if that changed since the last report; and returns it.
    pub(crate) fn notice<E: OctetSink>(&self, errors: &mut E) -> Troubles
        ensures troubles { result ≡ K.conduct.troubles self.now.keeper }
        ensures text { E.NeverFails errors.old →
            Appends (E.held errors.old) (E.held errors.new) (notice_of self.now.said result) }
        ensures lasts { E.NeverFails errors.old → E.NeverFails errors.new }
    {
        let troubles = self.keeper.troubles();
        report_notices(self.said, troubles, errors);
        troubles
    }

    /// Does what is due at a tick: does what is due of the state, and looks for a request. It answers whether there is one to stop.
    fn at_tick<L: Notes, E: OctetSink>(
        &mut self,
        schedule: &Schedule,
        log: &mut L,
        errors: &mut E,
    ) -> bool
        ensures done { let report = all_stats K.conduct.unkept K.conduct.more (reporting_by schedule.now) self.new.keeper self.new.counts
            self.new.announcing (lost_by (metered self.new.metrics)) self.new.gateway self.new.state.served self.new.state.tally in
            Looks (AtTick K.conduct.Ticks K.conduct.Adopts) (IsNotedWith L.Takes log.old log.new result report) self.old.origin
            (standing self.old.gateway self.old.keeper (Q.recorded self.old.requests) self.old.counts self.old.announcing)
            self.new.origin (standing self.new.gateway self.new.keeper (Q.recorded self.new.requests) self.new.counts self.new.announcing)
            (E.NeverFails errors.old) (E.held errors.old) (E.held errors.new) }
        ensures log { Keeps (L.held log.old) (L.held log.new) }
        ensures state { self.new.state ≡ self.old.state }
        ensures said { self.new.said ≡ self.old.said }
        ensures metrics { self.new.metrics ≡ self.old.metrics }
        ensures asking { result ≡ true → IsAsking (Q.recorded self.new.requests) }
        ensures lasts { E.NeverFails errors.old → E.NeverFails errors.new }
    {
        self.keeper.keep_at_tick(self.state.alloc, &self.gateway);
        self.look(schedule, log, errors)
    }

    /// Serves a stretch of at most the turns that are left, and does what is due after it: after a tick it makes the log last
    /// first, and then does also what is to be announced. If another tick is due already, what is due is left to that one. It
    /// answers how the run ends, if it is to stop, or the log can't be made to last; then nothing else is done. Faults: those of
    /// serving.
    pub(crate) fn advance<W: Wire, L: Notes, E: OctetSink>(
        &mut self,
        wire: &mut W,
        log: &mut L,
        errors: &mut E,
        schedule: &Schedule,
    ) -> Result<Option<RunEnd>, ServeFault>
        requires count { CanGoOn self.old.state (W.failure_count wire.old) }
        ensures advances { (c : Configuration) → self.old.origin ≡ origin_of c →
            let before = stage_of Q.recorded c self.old (L.held log.old) (W.calls wire.old) in
            (d : Configuration) × (text : List ℕ) × (self.new.origin ≡ origin_of d)
            × Advances (manner_by K.Passes K.conduct (reporting_by schedule.now)) self.old.state.left before result text
            (stage_of Q.recorded d self.new (L.held log.new) (W.calls wire.new))
            (edge (W.behind wire.new) (WasLasting L.IsLasting L.held log.new) (FailsToLast L.Syncs log.new)
            self.new.state.unwritten.items)
            × (E.NeverFails errors.old → Appends (E.held errors.old) (E.held errors.new) text) }
        ensures left { self.new.state.served.turns + self.new.state.left ≡ self.old.state.served.turns + self.old.state.left }
        ensures rest { CanGoOn self.new.state (W.failure_count wire.new) }
        ensures more { 0 < self.old.state.left → self.old.state.served.turns < self.new.state.served.turns }
        ensures asking { result ≡ Ok (Some RunEnd.Stopped) → IsAsking (Q.recorded self.new.requests) }
        ensures lasts { E.NeverFails errors.old → E.NeverFails errors.new }
    {
        let keeper = &mut self.keeper;
        match self
            .state
            .serve_to_tick(&mut self.gateway, wire, log, keeper)
        {
            Ok(StretchEnd::Turns) => Ok(None),
            Ok(StretchEnd::Tick) => {
                if wire.is_behind() {
                    return Ok(None);
                }
                let Ok(_synced) = log.sync() else {
                    return Ok(Some(RunEnd::Unsynced));
                };
                let alloc = self.state.alloc;
                let stops = self.at_tick(schedule, log, errors);
                self.announcing.announce(alloc, &self.gateway, wire);
                self.said = self.notice(errors);
                schedule.report_due(self, errors);
                let measured = schedule.measure(self);
                let was = failing_of(&self.metrics);
                put_due(
                    alloc,
                    &mut self.metrics,
                    &measured,
                    &self.gateway,
                    &self.keeper,
                );
                report_metrics(was, failing_of(&self.metrics), errors);
                Ok(end_of(stops))
            }
            Ok(StretchEnd::Withheld) => {
                self.said = self.notice(errors);
                Ok(None)
            }
            Err(fault) => Err(fault),
        }
    }

    /// Serves a wire for the turns that are left, by stretches. After each tick behind which no other is due already the log is
    /// made to last, and nothing more is served if it can't be; the keeper does what is due, and a request is looked for; if there
    /// is one to read the configuration again, that is done, and the gateway goes on by it, or as it is; after one to stop nothing
    /// more is served. If an announcement is due, it is made then. It reports as the schedule asks, and its metrics are put into
    /// their store when that is due.
    ///
    /// # Errors
    ///
    /// Those of [`serve`](gw_turns::serve).
    pub fn serve<W: Wire, L: Notes, E: OctetSink>(
        &mut self,
        wire: &mut W,
        log: &mut L,
        errors: &mut E,
        schedule: &Schedule,
    ) -> Result<RunEnd, ServeFault>
        requires count { CanGoOn self.old.state (W.failure_count wire.old) }
        ensures runs { (c : Configuration) → self.old.origin ≡ origin_of c →
            let before = stage_of Q.recorded c self.old (L.held log.old) (W.calls wire.old) in
            (d : Configuration) × (links : List Link) × (self.new.origin ≡ origin_of d)
            × Runs (manner_by K.Passes K.conduct (reporting_by schedule.now)) self.old.state.left before result links
            (stage_of Q.recorded d self.new (L.held log.new) (W.calls wire.new))
            × (E.NeverFails errors.old → Appends (E.held errors.old) (E.held errors.new) (chain_text links)) }
        ensures asking { is_stopped result ≡ true → IsAsking (Q.recorded self.new.requests) }
        ensures lasts { E.NeverFails errors.old → E.NeverFails errors.new }
    {
        for _ in 0..self.state.left {
            if self.state.left == 0 {
                return Ok(RunEnd::Turns);
            }
            let ended = self.advance(wire, log, errors, schedule)?;
            match ended {
                Some(end) => return Ok(end),
                None => {}
            }
        }
        Ok(RunEnd::Turns)
    }

    /// Reports at the end what was done, if the schedule asks for that.
    fn report_end<E: OctetSink>(&self, schedule: &Schedule, errors: &mut E)
        ensures said { E.NeverFails errors.old → Appends (E.held errors.old) (E.held errors.new)
            (end_stats K.conduct.unkept K.conduct.more (reporting_by schedule.now) self.now.keeper self.now.counts self.now.announcing
            (lost_by (metered self.now.metrics)) self.now.gateway self.now.state.served self.now.state.tally) }
        ensures lasts { E.NeverFails errors.old → E.NeverFails errors.new }
    {
        schedule.report_last(self, errors);
    }

    /// Does what is due at the end of a run that was asked to stop, once its state was kept: puts its metrics once more, reports
    /// what was done, and answers that it stopped, or why its state isn't kept.
    fn stop<E: OctetSink>(&mut self, schedule: &Schedule, errors: &mut E)
        requires asking { IsAsking (Q.recorded self.old.requests) }
        ensures keeper { self.new.keeper ≡ self.old.keeper }
        ensures put { MetersLast (metered self.old.metrics) (seconds_of schedule.now.start self.old.gateway self.old.state.served
            self.old.state.tally) (metered self.new.metrics) }
        ensures answers { GoesOn (Q.recorded self.old.requests) (Q.recorded self.new.requests)
            (answered (stop_line (K.conduct.troubles self.old.keeper).state) ∷ []) }
        ensures said { E.NeverFails errors.old → Appends (E.held errors.old) (E.held errors.new)
            (end_stats K.conduct.unkept K.conduct.more (reporting_by schedule.now) self.old.keeper self.old.counts self.old.announcing
            (lost_by (metered self.new.metrics)) self.old.gateway self.old.state.served self.old.state.tally
            ++ stop_line (K.conduct.troubles self.old.keeper).state) }
        ensures lasts { E.NeverFails errors.old → E.NeverFails errors.new }
    {
        let measured = schedule.measure(self);
        put_last(
            self.state.alloc,
            &mut self.metrics,
            &measured,
            &self.gateway,
            &self.keeper,
        );
        self.report_end(schedule, errors);
        let line = stop_line(self.keeper.troubles().state).as_bytes();
        self.requests.answer(line);
        write_note(line, errors);
    }

    /// Does what is due at the end of a run that ended so: keeps its state once more, and reports what was done, and what else is
    /// due if it was asked to stop.
    pub(crate) fn end<E: OctetSink>(
        &mut self,
        answer: Result<RunEnd, ServeFault>,
        schedule: &Schedule,
        errors: &mut E,
    )
        requires asking { is_stopped answer ≡ true → IsAsking (Q.recorded self.old.requests) }
        ensures ends { (c : Configuration) (log : Option (List ℕ)) (calls : Option (List Call)) →
            let last = stage c (moment (scene self.old.gateway log calls) self.old.keeper self.old.state.served self.old.state.tally)
            (Q.recorded self.old.requests) self.old.counts self.old.announcing self.old.said (metered self.old.metrics) in
            let how = reporting_by schedule.now in
            (text : List ℕ) × EndsRun (manner_by K.Passes K.conduct how)
            (end_stats K.conduct.unkept K.conduct.more how) how.start answer last (rest self.new.keeper (Q.recorded self.new.requests)) text
            × (E.NeverFails errors.old → Appends (E.held errors.old) (E.held errors.new) text) }
        ensures lasts { E.NeverFails errors.old → E.NeverFails errors.new }
    {
        self.keeper.keep_last(self.state.alloc, &self.gateway);
        if is_stopped(answer) {
            self.stop(schedule, errors);
        } else {
            self.report_end(schedule, errors);
        }
    }

    /// Serves a wire for the turns that are left, as [`Running::serve`] does. Before it reports what isn't kept or recorded, and announces
    /// the gateway's networks on each port. After it, whatever ended it, it keeps its state once more; puts its metrics once more
    /// if it was asked to stop; reports what was done, if the schedule asks for that; and answers that it stopped, or why its state
    /// isn't kept.
    ///
    /// # Errors
    ///
    /// Those of [`serve`](gw_turns::serve).
    pub(crate) fn run<W: Wire, L: Notes, E: OctetSink>(
        &mut self,
        wire: &mut W,
        log: &mut L,
        errors: &mut E,
        schedule: &Schedule,
    ) -> Result<RunEnd, ServeFault>
        requires count { CanGoOn self.old.state (W.failure_count wire.old) }
        requires untold { self.old.said ≡ no_troubles }
        ensures runs { (c : Configuration) → self.old.origin ≡ origin_of c →
            let before = stage c (moment (scene self.old.gateway (L.held log.old) (W.calls wire.old)) self.old.keeper
            self.old.state.served self.old.state.tally) (Q.recorded self.old.requests) self.old.counts self.old.announcing
            (K.conduct.troubles self.old.keeper) (metered self.old.metrics) in
            let how = reporting_by schedule.now in
            let after = ends (L.held log.new) (W.calls wire.new) in
            (text : List ℕ) × RunsFrom (manner_by K.Passes K.conduct how)
            (end_stats K.conduct.unkept K.conduct.more how) how.start self.old.state.left before result after
            (rest self.new.keeper (Q.recorded self.new.requests)) text
            × (E.NeverFails errors.old → Appends (E.held errors.old) (E.held errors.new) text) }
        ensures lasts { E.NeverFails errors.old → E.NeverFails errors.new }
    {
        let alloc = self.state.alloc;
        self.said = self.notice(errors);
        self.announcing.announce(alloc, &self.gateway, wire);
        let answer = self.serve(wire, log, errors, schedule);
        self.end(answer, schedule, errors);
        answer
    }

    /// The same gateway, which goes on if its log fails. Nothing waits.
    pub fn holding(self, alloc: Global) -> HoldingRun<K, Q, M>
        ensures running { result.running ≡ holding_of self }
        ensures waiting { result.waiting ≡ [] }
    {
        let Running {
            gateway,
            origin,
            keeper,
            requests,
            counts,
            announcing,
            state,
            said,
            metrics,
        } = self;
        HoldingRun {
            running: Running {
                gateway,
                origin,
                keeper: Holding {
                    keeper,
                    waiting: 0,
                    withheld: 0,
                },
                requests,
                counts,
                announcing,
                state,
                said,
                metrics,
            },
            waiting: Waiting::new(alloc),
        }
    }
}
