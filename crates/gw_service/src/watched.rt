//! A gateway that is watched, if something is to be watched, and whose state may then be kept.

ghost use Rattle.std.specs.Prelude.{◌≡◌, if◌then◌else◌, [], IsOk, OnOk};
ghost use Rattle.std.specs.Io.KnownBytes.{Appends};
ghost use Rattle.gw_notices.specs.Watch.{counts_text};
ghost use Rattle.gw_service.specs.Watch.{BeginAnew, conduct_beside, counted_of, has_lost, has_watched, log_count, lost_of, watcher_text};

use crate::keeping::{Kept, StateKeeper};
use crate::successor::Successor;
use gw_core::{BothGuards, Gateway, Guard};
use gw_decisions::tally::Tally;
use gw_notices::metrics::StateTries;
use gw_notices::{LogCount, Losses, Troubles, WatchCounts, write_counts, write_watched};
use gw_rules::RuleList;
use gw_script::{OctetSink, WriteFailed};
use gw_watchers::{Beside, Watcher};
use gw_wire::Store;
use std::alloc::Global;

/// Whether lines of a log beside the log were lost, if there is one.
fn has_lost<C, S>(log: &Option<Beside<C, S>>) -> bool
    ensures { result ≡ has_lost log.now }
{
    match log {
        Some(log) => log.lost > 0,
        None => false,
    }
}

/// How many lines of a log beside the log were lost, if there is one.
fn lost_of<C, S>(log: &Option<Beside<C, S>>) -> u64
    ensures { result ≡ lost_of log.now }
{
    match log {
        Some(log) => log.lost,
        None => 0,
    }
}

/// What is counted of a log beside the log, if there is one.
fn log_count<C, S>(log: &Option<Beside<C, S>>) -> Option<LogCount>
    ensures { result ≡ log_count log.now }
{
    match log {
        Some(log) => Some(LogCount {
            number: log.number,
            lost: log.lost,
        }),
        None => None,
    }
}

/// What is counted of what watches.
fn counted_of<T: OctetSink + Drop, A: OctetSink + Drop>(watcher: &Watcher<T, A>) -> WatchCounts
    ensures { result ≡ counted_of watcher.now }
{
    WatchCounts {
        trial: log_count(watcher.trial()),
        audit: log_count(watcher.audit()),
        unseen: watcher.unseen(),
    }
}

/// Writes how many asks each of these rules decided, if that is asked for.
fn write_counts_if<E: OctetSink>(
    is_asked: bool,
    rules: &RuleList,
    counts: &Option<Tally>,
    errors: &mut E,
) -> Result<(), WriteFailed>
    ensures ok { OnOk result (Appends (E.held errors.old) (E.held errors.new)
        (if is_asked then counts_text rules.now counts.now else [])) }
    ensures sure { E.NeverFails errors.old → IsOk result }
    ensures lasts { E.NeverFails errors.old → E.NeverFails errors.new }
{
    if is_asked {
        write_counts(rules, counts, errors)
    } else {
        Ok(())
    }
}

/// Whether something is watched, or a policy was on trial until it ended.
fn has_watched<T: OctetSink + Drop, A: OctetSink + Drop>(watcher: &Watcher<T, A>) -> bool
    ensures { result ≡ has_watched watcher.now }
{
    watcher.watches() || watcher.has_ended()
}

/// Writes what a watcher recorded, with how many asks each rule decided if that is asked for.
fn write_watcher<T: OctetSink + Drop, A: OctetSink + Drop, E: OctetSink>(
    rules: bool,
    gateway: &Gateway,
    watcher: &Watcher<T, A>,
    errors: &mut E,
) -> Result<(), WriteFailed>
    ensures ok { OnOk result (Appends (E.held errors.old) (E.held errors.new) (watcher_text watcher.now rules gateway.now)) }
    ensures sure { E.NeverFails errors.old → IsOk result }
    ensures lasts { E.NeverFails errors.old → E.NeverFails errors.new }
{
    write_watched(counted_of(watcher), errors)?;
    write_counts_if(rules, gateway.rules(), watcher.counts(), errors)
}

/// The counts from which a watcher goes on that has these so far: new ones, if it counts.
fn begun_anew(so_far: &Option<Tally>, counts: Tally) -> Option<Tally>
    ensures { BeginAnew counts so_far.now result }
{
    match so_far {
        Some(_) => Some(counts),
        None => None,
    }
}

impl<S: Store + Drop, T: OctetSink + Drop, A: OctetSink + Drop> StateKeeper
    for BothGuards<Watcher<T, A>, Kept<S>> {
    ghost conduct = { conduct_beside S.held };

    fn keep_at_tick(&mut self, alloc: Global, gateway: &Gateway) {
        self.second.keep_at_tick(alloc, gateway);
    }

    fn adopt(&mut self, alloc: Global, successor: Successor, gateway: &Gateway) {
        let Successor {
            origin,
            marks,
            counts,
            format,
        } = successor;
        self.second.keep_for(alloc, origin, gateway);
        let counts = begun_anew(self.first.counts(), counts);
        self.first.go_on(marks, counts, format);
    }

    fn keep_last(&mut self, alloc: Global, gateway: &Gateway) {
        self.second.keep_once_more(alloc, gateway);
    }

    fn troubles(&self) -> Troubles {
        Troubles {
            state: self.second.failing(),
            trial: has_lost(self.first.trial()),
            audit: has_lost(self.first.audit()),
            ended: self.first.has_ended(),
        }
    }

    fn unkept(&self) -> u64 {
        self.second.unkept()
    }

    fn tries(&self) -> Option<StateTries> {
        self.second.tries()
    }

    fn decisions(&self) -> &Option<Tally> {
        self.first.counts()
    }

    fn losses(&self) -> Losses {
        Losses {
            unwatched: self.first.unseen(),
            trial_lines: lost_of(self.first.trial()),
            audit_lines: lost_of(self.first.audit()),
        }
    }

    fn write_more<E: OctetSink>(
        &self,
        rules: bool,
        gateway: &Gateway,
        errors: &mut E,
    ) -> Result<(), WriteFailed> {
        if has_watched(&self.first) {
            write_watcher(rules, gateway, &self.first, errors)
        } else {
            Ok(())
        }
    }
}
