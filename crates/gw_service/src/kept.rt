//! A run: a gateway that may keep its state, read its configuration again, report and be watched.
//!
//! A function that owns a configuration or a gateway does nothing fallible after making it, and passes
//! a reference on: each way out would drop a large value.

ghost use Rattle.std.specs.Prelude.{◌≡◌, ◌<◌, ◌^◌, ◌||◌, ℕ, List, None, Some, Ok, [], is_some, option_map, string_bytes, IfErr, IfOk, OnOk};
ghost use Rattle.std.specs.Io.Buffered.{writer_buffer, writer_contents};
ghost use Rattle.std.specs.Io.KnownBytes.{Appends};
ghost use Rattle.gw_configuration.specs.Configuration.{Configuration};
ghost use Rattle.gw_notices.specs.metrics.Writing.{nothing_written};
ghost use Rattle.gw_state.specs.Saved.{origin_of};
ghost use Rattle.gw_turns.specs.Announcing.{first_announcing};
ghost use Rattle.gw_turns.specs.Serve.{zero_counts};
ghost use Rattle.gw_turns.specs.Stretch.{CanCount};
ghost use Rattle.gw_turns.specs.Tally.{no_tally};
ghost use Rattle.gw_service.specs.Fault.{fault_of_opening};
ghost use Rattle.gw_system.specs.Opening.{IsNote};
ghost use Rattle.gw_service.specs.Kept.{AreRequestsUnder, IsLastDenial, IsMetricsUnder, IsStateUnder, IsStoreUnder, IsTextBefore};
ghost use Rattle.gw_service.specs.Kept.{IsTrialNote, IsTrialNoteOf, IsUnprepared, KeepsFirst, LeavesKept, LeavesWithState, given};
ghost use Rattle.gw_service.specs.Kept.{line_read, names_of, outcome_by, outcome_of_stop, service_by, states_of, text_before};
ghost use Rattle.gw_notices.specs.Startup.{startup_line};
ghost use Rattle.gw_notices.specs.Reload.{counts_since};
ghost use Rattle.gw_service.specs.Serving.{IsFlushedFor, LogStays, ends, log_held, machine_of};
ghost use Rattle.gw_notices.specs.Notices.{no_troubles};
ghost use Rattle.gw_service.specs.Start.{BeginsAs};
ghost use Rattle.gw_service.specs.Watch.{WatchesUnder, watch_names};
ghost use Rattle.gw_system.specs.Offers.{OpensLog};
ghost use Rattle.gw_system.specs.Requests.{text_found};

use crate::edition::Edition;
use crate::fault::ServiceFault;
use crate::keeping::{Kept, StateKeeper};
use crate::metrics::metrics_in;
use crate::order::Order;
use crate::running::{RunEnd, Running};
use crate::serving::{Opening, open};
use crate::start::{MAX_STATE_OCTETS, begin_after, saved_in, start_text};
use crate::stats::Schedule;
use crate::watch::watcher_under;
use gw_configuration::{Config, RunOptions};
use gw_core::{BothGuards, Gateway};
use gw_log_words::Notes;
use gw_notices::{Checksum, ReloadCounts, Troubles, trial_line, warning_of, write_note};
use gw_policy_text::{MAX_OCTETS, read_config};
use gw_script::OctetSink;
use gw_state::{Origin, Saved};
use gw_system::{Host, OpenFailure, ReadFailure, Requests, StoreKind, note_of};
use gw_turns::{Announcing, Keeper, ServeFault, ServeState};
use gw_watchers::Watcher;
use gw_wire::{Store, StoreFault, Wire};
use std::alloc::{AllocError, Global};
use std::io::{BufWriter, Write};

/// What is read and made before the log is opened: what was saved, the last denial of the log, what is said of
/// the state, its store, that of the metrics, and what asks to read the configuration again; what watches; and the checksum of the
/// configuration's text.
#[derive(Drop)]
pub(crate) struct Before<S, Q, L: OctetSink + Drop> {
    /// What was saved, if something was.
    pub saved: Option<Saved>,
    /// The line of the log's last denial, if it shows one.
    pub line: Option<Vec<u8>>,
    /// What is said of the state, and of the trial.
    pub text: Vec<u8>,
    /// Its store, if it is kept.
    pub store: Option<S>,
    /// The store of the metrics, if there is one.
    pub metrics: Option<S>,
    /// What asks to read the configuration again, if something does.
    pub requests: Option<Q>,
    /// What watches. It may watch nothing.
    pub watcher: Watcher<L, L>,
    /// The checksum of the configuration's text.
    pub checksum: Checksum,
}

/// What was saved in the file of this name. Nothing is read if none is named.
fn saved_under<H: Host>(
    alloc: Global,
    name: &Option<String>,
    host: &H,
) -> Result<Option<Saved>, ServiceFault>
    ensures { IsStateUnder (H.offers host.now).FileReads (option_map string_bytes name.now) result }
{
    match name {
        Some(name) => {
            let read = host.read_file(alloc, name, MAX_STATE_OCTETS);
            saved_in(alloc, &read)
        }
        None => Ok(None),
    }
}

/// The line of the log's last denial, if a state is kept and the log is in a file.
fn last_denial<H: Host>(
    alloc: Global,
    options: &RunOptions,
    host: &H,
) -> Result<Option<Vec<u8>>, ServiceFault>
    ensures { IsLastDenial (H.offers host.now).LastDenials (option_map string_bytes options.now.state)
        (option_map string_bytes options.now.log) (line_read result) }
{
    match (&options.state, &options.log) {
        (Some(_), Some(log)) => match host.last_denial(alloc, log) {
            Ok(line) => Ok(line),
            Err(ReadFailure::Memory) => Err(ServiceFault::Memory),
            Err(ReadFailure::Unreadable(_)) => Err(ServiceFault::Log),
        },
        _ => Ok(None),
    }
}

/// Opens the place of the state, if one is named.
fn store_under<H: Host>(
    alloc: Global,
    name: &Option<String>,
    host: &H,
) -> Result<Option<H::StateStore>, ServiceFault>
    ensures { IsStoreUnder (H.offers host.now).StoreOpens (option_map string_bytes name.now) result }
{
    match name {
        Some(name) => match host.open_store(alloc, name, StoreKind::Kept) {
            Ok(store) => Ok(Some(store)),
            Err(fault) => Err(ServiceFault::Store(fault)),
        },
        None => Ok(None),
    }
}

/// Opens the place of the metrics, if one is named.
fn metrics_under<H: Host>(
    alloc: Global,
    name: &Option<String>,
    host: &H,
) -> Result<Option<H::StateStore>, ServiceFault>
    ensures { IsMetricsUnder (H.offers host.now).StoreOpens (option_map string_bytes name.now) result }
{
    match name {
        Some(name) => match host.open_store(alloc, name, StoreKind::Shown) {
            Ok(store) => Ok(Some(store)),
            Err(fault) => Err(ServiceFault::Metrics(fault)),
        },
        None => Ok(None),
    }
}

/// What asks to read the configuration again, if a file for that is named.
fn requests_under<H: Host>(
    alloc: Global,
    options: &RunOptions,
    host: &H,
) -> Result<Option<H::Reloads>, AllocError>
    ensures { IfOk result (AreRequestsUnder (H.offers host.now).ReloadsOpen (option_map string_bytes options.now.reload)
        (string_bytes options.now.config)) }
{
    match &options.reload {
        Some(name) => Ok(Some(host.open_reloads(alloc, name, &options.config)?)),
        None => Ok(None),
    }
}

/// What is said of the state at the start, if one is kept.
fn text_of_state(
    alloc: Global,
    options: &RunOptions,
    config: &Config,
    saved: &Option<Saved>,
) -> Result<Vec<u8>, AllocError>
    ensures { IfOk result (λ text. text.items
        ≡ text_before (option_map string_bytes options.now.state) options.now.verbose config.now saved.now) }
{
    match &options.state {
        Some(name) => start_text(alloc, options.verbose, name, config, saved),
        None => Ok(Vec::new(alloc)),
    }
}

/// What is said of a policy that is to be on trial, by the text of its configuration.
fn note_of_text(alloc: Global, config: &Config, text: &[u8]) -> Vec<u8>
    ensures { IsTrialNoteOf config.now (Ok (Some text.now)) result.items }
{
    match read_config(alloc, text) {
        Ok(trial) => match trial_line(alloc, config, &trial) {
            Ok(line) => line,
            Err(_) => Vec::new(alloc),
        },
        Err(_) => Vec::new(alloc),
    }
}

/// What is said of a policy that is to be on trial, by what its file gave.
fn note_of_trial(
    alloc: Global,
    config: &Config,
    read: &Result<Option<Vec<u8>>, ReadFailure>,
) -> Vec<u8>
    ensures { IsTrialNoteOf config.now (text_found read.now) result.items }
{
    match read {
        Ok(Some(text)) => note_of_text(alloc, config, text),
        Ok(None) | Err(_) => Vec::new(alloc),
    }
}

/// What is said of the policy of this file, if there is to be a trial.
fn trial_note<H: Host>(alloc: Global, config: &Config, name: &Option<String>, host: &H) -> Vec<u8>
    ensures { IsTrialNote (H.offers host.now).FileReads (option_map string_bytes name.now) config.now result.items }
{
    match name {
        Some(name) => {
            let read = host.read_file(alloc, name, MAX_OCTETS);
            note_of_trial(alloc, config, &read)
        }
        None => Vec::new(alloc),
    }
}

/// What is said at the start: of the state, and of the trial.
fn text_of<H: Host>(
    alloc: Global,
    options: &RunOptions,
    config: &Config,
    saved: &Option<Saved>,
    host: &H,
) -> Result<Vec<u8>, AllocError>
    ensures { IfOk result (λ text. IsTextBefore (H.offers host.now).FileReads (option_map string_bytes options.now.state)
        (option_map string_bytes options.now.trial) options.now.verbose config.now saved.now text.items) }
{
    let mut text = text_of_state(alloc, options, config, saved)?;
    let note = trial_note(alloc, config, &options.trial, host);
    text.extend_from_slice(&note)?;
    Ok(text)
}

/// Reads and makes what is due before the log is opened.
pub(crate) fn prepare<H: Host>(
    alloc: Global,
    config: &Config,
    checksum: Checksum,
    options: &RunOptions,
    host: &H,
) -> Result<Before<H::StateStore, H::Reloads, H::Log>, ServiceFault>
    ensures saved { IfOk result (λ before.
        IsStateUnder (H.offers host.now).FileReads (option_map string_bytes options.now.state) (Ok before.saved)) }
    ensures line { IfOk result (λ before. IsLastDenial (H.offers host.now).LastDenials (option_map string_bytes options.now.state)
        (option_map string_bytes options.now.log) (Ok (option_map (λ line. line.items) before.line))) }
    ensures text { IfOk result (λ before. IsTextBefore (H.offers host.now).FileReads (option_map string_bytes options.now.state)
        (option_map string_bytes options.now.trial) options.now.verbose config.now before.saved before.text.items) }
    ensures store { IfOk result (λ before.
        IsStoreUnder (H.offers host.now).StoreOpens (option_map string_bytes options.now.state) (Ok before.store)) }
    ensures metrics { IfOk result (λ before.
        IsMetricsUnder (H.offers host.now).StoreOpens (option_map string_bytes options.now.metrics) (Ok before.metrics)) }
    ensures requests { IfOk result (λ before. AreRequestsUnder (H.offers host.now).ReloadsOpen
        (option_map string_bytes options.now.reload) (string_bytes options.now.config) before.requests) }
    ensures watcher { let offers = H.offers host.now in
        IfOk result (λ before. WatchesUnder offers.FileReads offers.LastDenials (OpensLog offers H.Log.held) config.now
        (watch_names options.now) before.watcher) }
    ensures checksum { IfOk result (λ before. before.checksum ≡ checksum) }
    ensures fault { IfErr result (IsUnprepared (states_of (H.offers host.now) H.StateStore.held H.Reloads.recorded)
        (OpensLog (H.offers host.now) H.Log.held) (names_of options.now) config.now) }
{
    let saved = match saved_under(alloc, &options.state, host) {
        Ok(saved) => saved,
        Err(fault) => return Err(fault),
    };
    let line = match last_denial(alloc, options, host) {
        Ok(line) => line,
        Err(fault) => return Err(fault),
    };
    let store = match store_under(alloc, &options.state, host) {
        Ok(store) => store,
        Err(fault) => return Err(fault),
    };
    let metrics = match metrics_under(alloc, &options.metrics, host) {
        Ok(metrics) => metrics,
        Err(fault) => return Err(fault),
    };
    let Ok(text) = text_of(alloc, options, config, &saved, host) else {
        return Err(ServiceFault::Memory);
    };
    let Ok(requests) = requests_under(alloc, options, host) else {
        return Err(ServiceFault::Memory);
    };
    let watcher = match watcher_under(alloc, config, options, host) {
        Ok(watcher) => watcher,
        Err(fault) => return Err(fault),
    };
    Ok(Before {
        saved,
        line,
        text,
        store,
        metrics,
        requests,
        watcher,
        checksum,
    })
}

/// What keeps the state of a gateway, which is kept at once if there is a store for it.
fn kept_in<S: Store + Drop>(
    alloc: Global,
    store: Option<S>,
    origin: Origin,
    gateway: &Gateway,
) -> Kept<S>
    ensures { (c : Configuration) → origin ≡ origin_of c → KeepsFirst S.held store c gateway.now result }
{
    match store {
        Some(store) => Kept::In(Keeper::begin(alloc, store, origin, gateway)),
        None => Kept::Nowhere,
    }
}

/// What watches a gateway, and then keeps its state: what is recorded of an event is written before its state is kept, so no write is
/// in force that an audit lacks.
type WatchedKeeper<S, L> = BothGuards<Watcher<L, L>, Kept<S>>;

/// A gateway of this configuration that is about to run for so many turns.
fn make_running<S: Store + Drop, Q: Requests + Drop, T: OctetSink + Drop>(
    alloc: Global,
    config: Config,
    before: Before<S, Q, T>,
    turns: u64,
) -> Result<Running<WatchedKeeper<S, T>, Option<Q>, S>, AllocError>
    ensures origin { IfOk result (λ r. r.origin ≡ origin_of config) }
    ensures begins { IfOk result
        (λ r. BeginsAs config before.saved (option_map (λ line. line.items) before.line) r.gateway) }
    ensures watches { IfOk result (λ r. r.keeper.first ≡ before.watcher) }
    ensures keeps { IfOk result (λ r. KeepsFirst S.held before.store config r.gateway r.keeper.second) }
    ensures requests { IfOk result (λ r. r.requests ≡ before.requests) }
    ensures counts { IfOk result (λ r. r.counts ≡ counts_since r.gateway.ticks before.checksum) }
    ensures announcing { IfOk result (λ r. r.announcing ≡ first_announcing) }
    ensures left { IfOk result (λ r. r.state.left ≡ turns) }
    ensures served { IfOk result (λ r. r.state.served ≡ zero_counts) }
    ensures tally { IfOk result (λ r. r.state.tally ≡ no_tally) }
    ensures said { IfOk result (λ r. r.said ≡ no_troubles) }
    ensures metrics { IfOk result (λ r. r.metrics ≡ option_map nothing_written before.metrics) }
    ensures ready { IfOk result (λ r. (failures : ℕ) → failures < 2 ^ 127 → turns < 2 ^ 63 →
        CanCount r.state.served r.state.tally failures r.state.left) }
{
    let Before {
        saved,
        line,
        text: _,
        store,
        metrics,
        requests,
        watcher,
        checksum,
    } = before;
    let origin = Origin::of(alloc, &config)?;
    let kept = Origin::of(alloc, &config)?;
    let gateway = begin_after(alloc, config, saved, &line)?;
    let kept = kept_in(alloc, store, kept, &gateway);
    let counts = ReloadCounts::since(gateway.counts().ticks, checksum);
    Ok(Running {
        gateway,
        origin,
        keeper: BothGuards {
            first: watcher,
            second: kept,
        },
        requests,
        counts,
        announcing: Announcing::first(),
        state: ServeState::new(alloc, turns),
        said: Troubles::none(),
        metrics: metrics_in(metrics),
    })
}

/// The outcome of a run that was asked to stop, by why its state isn't kept.
fn outcome_of_stop(failing: Option<StoreFault>) -> Result<(), ServiceFault>
    ensures { result ≡ outcome_of_stop failing }
{
    match failing {
        None => Ok(()),
        Some(fault) => Err(ServiceFault::Store(fault)),
    }
}

/// The outcome of a run, by the answer of serving, and by why its state isn't kept.
fn outcome_of(
    answer: Result<RunEnd, ServeFault>,
    failing: Option<StoreFault>,
) -> Result<(), ServiceFault>
    ensures { result ≡ outcome_by answer failing }
{
    match answer {
        Ok(RunEnd::Turns) => Ok(()),
        Ok(RunEnd::Stopped) => outcome_of_stop(failing),
        Ok(RunEnd::Unsynced) => Err(ServiceFault::Log),
        Err(fault) => Err(ServiceFault::from(fault)),
    }
}

/// Whether the state is kept, or requests are looked for.
fn is_kept<S, Q, T: OctetSink + Drop>(before: &Before<S, Q, T>) -> bool
    ensures { result ≡ (is_some before.now.requests || is_some before.now.store) }
{
    before.requests.is_some() || before.store.is_some()
}

/// What a run begins with once all is open: the configuration of its gateway, what was read and made before, and its options.
#[derive(Drop)]
struct Ready<'a, S, Q, L: OctetSink + Drop> {
    config: Config,
    before: Before<S, Q, L>,
    options: &'a RunOptions,
}

/// The sockets and the log, if it is in a file, that are open.
#[derive(Drop)]
struct OpenedMachine<X, L> {
    sockets: X,
    log: Option<L>,
}

/// Runs a gateway on a log, as its options ask, and says at the start if its state isn't kept.
/// Faults: `Log`, `Memory` and `CountEnd`, and `Store` if it was asked to stop and its state isn't kept.
fn run_on<
    S: Store + Drop,
    Q: Requests + Drop,
    T: OctetSink + Drop,
    X: Wire,
    L: Notes,
    E: OctetSink,
>(
    alloc: Global,
    ready: Ready<'_, S, Q, T>,
    sockets: &mut X,
    log: &mut L,
    errors: &mut E,
) -> Result<(), ServiceFault>
    requires failures { X.failure_count sockets.old < 2 ^ 127 }
    ensures ran { (text : List ℕ) × LeavesKept (given S.held Q.recorded T.held ready.entry.before) ready.entry.config
        (service_by ready.entry.options.now) (ends (L.held log.old) (X.calls sockets.old))
        (ends (L.held log.new) (X.calls sockets.new)) text result
        × (E.NeverFails errors.old → Appends (E.held errors.old) (E.held errors.new) text) }
    ensures lasting { E.NeverFails errors.old → E.NeverFails errors.new }
{
    let Ready {
        config,
        before,
        options,
    } = ready;
    let reloads = before.requests.is_some();
    let keeps = is_kept(&before);
    let turns = options.turns;
    let mut running = make_running(alloc, config, before, turns)?;
    let schedule = Schedule {
        start: running.gateway.counts(),
        seconds: options.stats,
        rules: options.stats_rules,
        keeps,
        reloads,
        verbose: options.verbose,
    };
    if options.holds {
        let mut held = running.holding(alloc);
        let answer = held.run(sockets, log, errors, &schedule);
        outcome_of(answer, held.running.keeper.troubles().state)
    } else {
        let answer = running.run(sockets, log, errors, &schedule);
        outcome_of(answer, running.keeper.troubles().state)
    }
}

/// Runs on what is open. Each event's lines are written to standard output at once if the log is there.
fn run_open<
    S: Store + Drop,
    Q: Requests + Drop,
    X: Wire,
    L: Notes + Drop,
    W: Write + Drop,
    E: OctetSink,
>(
    alloc: Global,
    ready: Ready<'_, S, Q, L>,
    opened: &mut OpenedMachine<X, L>,
    output: &mut BufWriter<W>,
    errors: &mut E,
) -> Result<(), ServiceFault>
    requires failures { X.failure_count opened.old.sockets < 2 ^ 127 }
    requires unbuffered { opened.old.log ≡ None → writer_buffer output.old ≡ [] }
    ensures ran { let held = writer_contents W.contents output.old in
        let holds = writer_contents W.contents output.new in
        (text : List ℕ) × LeavesKept (given S.held Q.recorded L.held ready.entry.before) ready.entry.config
        (service_by ready.entry.options.now)
        (ends (log_held L.held opened.old.log held) (X.calls opened.old.sockets))
        (ends (log_held L.held opened.new.log holds) (X.calls opened.new.sockets)) text result
        × (E.NeverFails errors.old → Appends (E.held errors.old) (E.held errors.new) text) }
    ensures lasting { E.NeverFails errors.old → E.NeverFails errors.new }
    ensures log { LogStays opened.old.log opened.new.log (writer_contents W.contents output.old)
        (writer_contents W.contents output.new) }
    ensures buffer { writer_buffer output.new ≡ writer_buffer output.old }
{
    let OpenedMachine { sockets, log } = opened;
    match log {
        Some(log) => run_on(alloc, ready, sockets, log, errors),
        None => {
            let log = output.get_mut();
            run_on(alloc, ready, sockets, log, errors)
        }
    }
}

/// Says why not all can be opened, where that is asked for, and gives the fault of that.
fn refused<E: OctetSink>(
    alloc: Global,
    options: &RunOptions,
    failure: OpenFailure,
    errors: &mut E,
) -> ServiceFault
    ensures fault { result ≡ fault_of_opening failure }
    ensures said { (said : List ℕ) × IsNote options.now.verbose failure said
        × (E.NeverFails errors.old → Appends (E.held errors.old) (E.held errors.new) said) }
    ensures lasting { E.NeverFails errors.old → E.NeverFails errors.new }
{
    let note = note_of(alloc, options.verbose, failure);
    write_note(&note, errors);
    ServiceFault::from(failure)
}

/// Serves the ports of a configuration as the options ask. The sockets are opened first, so a start that fails there leaves the log
/// and all else as it was. Faults: those of [`serve_ports`](crate::serve_ports).
pub(crate) fn serve_kept<H: Host, W: Write + Drop, E: OctetSink>(
    alloc: Global,
    order: Order<'_>,
    host: &mut H,
    output: &mut BufWriter<W>,
    errors: &mut E,
) -> Result<(), ServiceFault>
    ensures served { (said : List ℕ) × LeavesWithState
        (machine_of (H.offers host.old) (H.Closes host.new) H.Log.held H.Sockets.calls)
        (states_of (H.offers host.old) H.StateStore.held H.Reloads.recorded) (names_of order.entry.options.now)
        (writer_contents W.contents output.old) (writer_contents W.contents output.new) order.entry.edition
        (service_by order.entry.options.now) order.entry.options.now.verbose (startup_line order.entry.options.now.verbose
        order.entry.edition.config (option_map string_bytes order.entry.options.now.log)) said result
        × (E.NeverFails errors.old → Appends (E.held errors.old) (E.held errors.new) said) }
    ensures lasting { E.NeverFails errors.old → E.NeverFails errors.new }
    ensures flush { OnOk result (IsFlushedFor (option_map string_bytes order.entry.options.now.log)
        (writer_buffer output.old) (writer_buffer output.new)) }
{
    let Order { edition, options } = order;
    let Edition { config, checksum } = edition;
    let sockets = match host.open_sockets(alloc, config.ports()) {
        Ok(sockets) => sockets,
        Err(failure) => return Err(refused(alloc, options, OpenFailure::Sockets(failure), errors)),
    };
    let before = match prepare(alloc, &config, checksum, options, host) {
        Ok(before) => before,
        Err(fault) => return Err(fault),
    };
    match open(alloc, &config, options, host, output) {
        Ok(Opening { line, log }) => {
            write_note(&line, errors);
            write_note(warning_of(host, options.verbose), errors);
            write_note(&before.text, errors);
            let ready = Ready {
                config,
                before,
                options,
            };
            let mut opened = OpenedMachine { sockets, log };
            let outcome = run_open(alloc, ready, &mut opened, output, errors);
            let OpenedMachine { sockets, log } = opened;
            host.close(sockets, log);
            outcome
        }
        Err(failure) => Err(refused(alloc, options, OpenFailure::Log(failure), errors)),
    }
}
