//! Reports of a run, each so many seconds and at its end; and what is said each minute of a verbose one.

ghost use Rattle.std.proofs.Props.{props};
ghost use Rattle.std.specs.Prelude.{◌≡◌, ◌-◌, ◌/◌, ◌%◌, ◌==◌, ◌&&◌, ◌||◌, ◌<◌, ◌≤◌, IfOk, IfSome, IsOk, IsTrue, OnOk, if◌then◌else◌, []};
ghost use Rattle.std.specs.Prelude.{List, ℕ, true};
ghost use Rattle.std.specs.Io.KnownBytes.{Appends};
ghost use Rattle.gw_service.specs.Metering.{lost_by, metered};
ghost use Rattle.gw_service.specs.Metrics.{measures_of};
ghost use Rattle.gw_service.specs.Stats.{all_stats, due_stats, end_stats, ends_hour, is_due, minute_text, reporting, stats_text};
ghost use Rattle.gw_service.specs.Stats.{tries_text, troubles_text, whole, with_rules};

use crate::keeping::StateKeeper;
use crate::metrics::{Measures, lost_of};
use crate::running::Running;
use gw_core::{Counts, Gateway};
use gw_notices::{write_lost_metrics, write_put_off, write_reloads, write_unkept};
use gw_script::{OctetSink, WriteFailed};
use gw_turns::{
    ServeState, has_gone_on, report_of, write_announcing, write_culprits, write_healths,
    write_ports, write_report,
};
use gw_wire::Store;

/// When a report is due: the counts of the gateway at first, and the seconds from one to the next, if reports are asked for;
/// whether it says how many asks each rule decided, how often the state couldn't be kept, and how often the configuration
/// was read again; and whether something is said each minute, if reports aren't asked for.
#[derive(Clone, Copy)]
pub struct Schedule {
    /// The counts of the gateway at first.
    pub start: Counts,
    /// How many seconds lie between two reports.
    pub seconds: Option<u64>,
    /// Whether each report says how many asks each rule decided.
    pub rules: bool,
    /// Whether the state is kept, or the configuration read again if that is asked for.
    pub keeps: bool,
    /// Whether the configuration is read again if that is asked for.
    pub reloads: bool,
    /// Whether it is said each minute what was dropped and on which ports sends fail, if reports aren't asked for.
    pub verbose: bool,
    pub ghost some: { IfSome seconds (λ n. 0 < n) } by { Prim.hlevel props },
}

/// Whether so many seconds have passed, or a multiple of that.
fn is_due(start: Counts, gateway: &Gateway, seconds: u64) -> bool
    requires { 0 < seconds }
    ensures { result ≡ is_due start gateway.now seconds }
{
    gateway.counts().ticks.saturating_sub(start.ticks) % seconds == 0
}

/// How many seconds a minute has.
const MINUTE: u64 = 60;

/// How many seconds an hour has.
const HOUR: u64 = 3600;

/// Whether an hour since the gateway began ended in the last so many seconds.
fn ends_hour(start: Counts, gateway: &Gateway, seconds: u64) -> bool
    ensures { result ≡ ends_hour start gateway.now seconds }
{
    let elapsed = gateway.counts().ticks.saturating_sub(start.ticks);
    elapsed / HOUR != elapsed.saturating_sub(seconds) / HOUR
}

/// Writes from whom the last datagrams came that were dropped, and on which ports sends fail or succeed again: in the last so many seconds,
/// or whenever it was.
fn write_troubles<E: OctetSink>(
    seconds: Option<u64>,
    gateway: &Gateway,
    state: &ServeState,
    errors: &mut E,
) -> Result<(), WriteFailed>
    ensures ok { OnOk result (Appends (E.held errors.old) (E.held errors.new)
        (troubles_text seconds gateway.now state.now.served state.now.tally)) }
    ensures sure { E.NeverFails errors.old → IsOk result }
    ensures lasts { E.NeverFails errors.old → E.NeverFails errors.new }
{
    write_culprits(seconds, gateway.counts().ticks, &state.tally, errors)?;
    write_healths(seconds, gateway, &state.served, errors)
}

impl Schedule {
    /// The same schedule, of the whole time, with how many asks each rule decided.
    fn whole(&self) -> Schedule
        ensures { reporting result.seconds result.rules result.start result.keeps result.reloads result.verbose
            ≡ whole (reporting self.now.seconds self.now.rules self.now.start self.now.keeps self.now.reloads self.now.verbose) }
    {
        Schedule {
            start: self.start,
            seconds: None,
            rules: true,
            keeps: self.keeps,
            reloads: self.reloads,
            verbose: self.verbose,
        }
    }

    /// The same schedule, where each report says how many asks each rule decided, or doesn't.
    fn with_rules(&self, rules: bool) -> Schedule
        ensures { reporting result.seconds result.rules result.start result.keeps result.reloads result.verbose
            ≡ with_rules (reporting self.now.seconds self.now.rules self.now.start self.now.keeps self.now.reloads self.now.verbose) rules }
    {
        Schedule {
            start: self.start,
            seconds: self.seconds,
            rules,
            keeps: self.keeps,
            reloads: self.reloads,
            verbose: self.verbose,
        }
    }

    /// Writes how often the state couldn't be kept, if it is, how often the configuration was read again, if it is, how many
    /// texts of metrics were lost, if they are put, what was announced, if anything was, how often an announcement was put off,
    /// if one was, and what else the keeper reports, with the rules if the schedule says so.
    fn write_tries<K: StateKeeper, Q, M: Store + Drop, E: OctetSink>(
        &self,
        running: &Running<K, Q, M>,
        errors: &mut E,
    ) -> Result<(), WriteFailed>
        ensures ok { let how = reporting self.now.seconds self.now.rules self.now.start
            self.now.keeps self.now.reloads self.now.verbose in
            OnOk result (Appends (E.held errors.old) (E.held errors.new)
            (tries_text K.conduct.unkept K.conduct.more how running.now.keeper running.now.counts running.now.announcing
            (lost_by (metered running.now.metrics)) running.now.gateway)) }
        ensures sure { E.NeverFails errors.old → IsOk result }
        ensures lasts { E.NeverFails errors.old → E.NeverFails errors.new }
    {
        write_unkept(self.keeps, running.keeper.unkept(), errors)?;
        write_reloads(self.reloads, running.counts, errors)?;
        write_lost_metrics(lost_of(&running.metrics), errors)?;
        write_announcing(running.announcing, errors)?;
        write_put_off(running.announcing.put_off, errors)?;
        running
            .keeper
            .write_more(self.rules, &running.gateway, errors)
    }

    /// Writes what was done since a gateway began.
    fn write_stats<K: StateKeeper, Q, M: Store + Drop, E: OctetSink>(
        &self,
        running: &Running<K, Q, M>,
        errors: &mut E,
    ) -> Result<(), WriteFailed>
        ensures ok { let how = reporting self.now.seconds self.now.rules self.now.start
            self.now.keeps self.now.reloads self.now.verbose in
            OnOk result (Appends (E.held errors.old) (E.held errors.new)
            (stats_text how running.now.gateway running.now.state.served running.now.state.tally
            (tries_text K.conduct.unkept K.conduct.more how running.now.keeper running.now.counts running.now.announcing
            (lost_by (metered running.now.metrics)) running.now.gateway))) }
        ensures sure { E.NeverFails errors.old → IsOk result }
        ensures lasts { E.NeverFails errors.old → E.NeverFails errors.new }
    {
        let gateway = &running.gateway;
        let state = &running.state;
        if !has_gone_on(self.start, gateway, &state.served) {
            return Ok(());
        }
        let report = report_of(self.start, gateway, &state.served, state.tally);
        write_report(&report, errors)?;
        write_ports(&report, errors)?;
        write_troubles(self.seconds, gateway, state, errors)?;
        self.write_tries(running, errors)
    }

    /// A report with how many asks each rule decided, whether one is due or not. `WriteFailed` only if memory was refused.
    pub(crate) fn status<K: StateKeeper, Q, M: Store + Drop>(
        &self,
        running: &Running<K, Q, M>,
    ) -> Result<Vec<u8>, WriteFailed>
        ensures { let how = reporting self.now.seconds self.now.rules self.now.start
            self.now.keeps self.now.reloads self.now.verbose in
            IfOk result (λ text. text.items ≡ all_stats K.conduct.unkept K.conduct.more how running.now.keeper running.now.counts
            running.now.announcing (lost_by (metered running.now.metrics)) running.now.gateway
            running.now.state.served running.now.state.tally) }
    {
        let mut text = Vec::new(running.state.alloc);
        self.whole().write_stats(running, &mut text)?;
        Ok(text)
    }

    /// What is measured at a tick. It is always something.
    pub(crate) fn measure<K: StateKeeper, Q, M: Store + Drop>(
        &self,
        running: &Running<K, Q, M>,
    ) -> Option<Measures>
        ensures { result ≡ measures_of self.now.start running.now.gateway running.now.state.served running.now.state.tally
            running.now.counts running.now.announcing (K.conduct.losses running.now.keeper) (K.conduct.tries running.now.keeper) }
    {
        let gateway = &running.gateway;
        let state = &running.state;
        if has_gone_on(self.start, gateway, &state.served) {
            Some(Measures {
                report: report_of(self.start, gateway, &state.served, state.tally),
                reloads: running.counts,
                age: gateway.counts().ticks.saturating_sub(running.counts.since),
                announcing: running.announcing,
                losses: running.keeper.losses(),
                tries: running.keeper.tries(),
            })
        } else {
            None
        }
    }

    /// Writes what was dropped and on which ports sends fail in the last minute, if the run is verbose and a full one has passed.
    fn report_minute<E: OctetSink>(&self, gateway: &Gateway, state: &ServeState, errors: &mut E)
        ensures said { let how = reporting self.now.seconds self.now.rules self.now.start
            self.now.keeps self.now.reloads self.now.verbose in
            E.NeverFails errors.old → Appends (E.held errors.old) (E.held errors.new)
            (minute_text how gateway.now state.now.served state.now.tally) }
        ensures lasts { E.NeverFails errors.old → E.NeverFails errors.new }
    {
        if self.verbose && is_due(self.start, gateway, MINUTE) {
            let _ = write_troubles(Some(MINUTE), gateway, state, errors);
        }
    }

    /// Writes a report at a tick, if one is due. It says how many asks each rule decided if all do, or if an hour ended since the
    /// one before. If reports aren't asked for, a verbose run says what is due each minute.
    pub(crate) fn report_due<K: StateKeeper, Q, M: Store + Drop, E: OctetSink>(
        &self,
        running: &Running<K, Q, M>,
        errors: &mut E,
    )
        ensures said { let how = reporting self.now.seconds self.now.rules self.now.start
            self.now.keeps self.now.reloads self.now.verbose in
            E.NeverFails errors.old → Appends (E.held errors.old) (E.held errors.new)
            (due_stats K.conduct.unkept K.conduct.more how running.now.keeper running.now.counts running.now.announcing
            (lost_by (metered running.now.metrics)) running.now.gateway running.now.state.served running.now.state.tally) }
        ensures lasts { E.NeverFails errors.old → E.NeverFails errors.new }
    {
        let gateway = &running.gateway;
        match self.seconds {
            Some(seconds) => {
                if is_due(self.start, gateway, seconds) {
                    let rules = self.rules || ends_hour(self.start, gateway, seconds);
                    let schedule = self.with_rules(rules);
                    let _ = schedule.write_stats(running, errors);
                }
            }
            None => self.report_minute(gateway, &running.state, errors),
        }
    }

    /// Writes a report at the end, if reports are asked for. It says how many asks each rule decided.
    pub(crate) fn report_last<K: StateKeeper, Q, M: Store + Drop, E: OctetSink>(
        &self,
        running: &Running<K, Q, M>,
        errors: &mut E,
    )
        ensures said { let how = reporting self.now.seconds self.now.rules self.now.start
            self.now.keeps self.now.reloads self.now.verbose in
            E.NeverFails errors.old → Appends (E.held errors.old) (E.held errors.new)
            (end_stats K.conduct.unkept K.conduct.more how running.now.keeper running.now.counts running.now.announcing
            (lost_by (metered running.now.metrics)) running.now.gateway running.now.state.served running.now.state.tally) }
        ensures lasts { E.NeverFails errors.old → E.NeverFails errors.new }
    {
        if self.seconds.is_some() {
            let schedule = self.whole();
            let _ = schedule.write_stats(running, errors);
        }
    }
}
