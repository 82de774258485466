//! The metrics of a run, which are put into a store.

ghost use Rattle.std.specs.Prelude.{◌≡◌, ◌<◌, ◌≤◌, length, option_map};
ghost use Rattle.gw_addr.specs.declared.TheConstants.{MAX_PORTS};
ghost use Rattle.gw_notices.specs.metrics.Writing.{nothing_written};
ghost use Rattle.gw_service.specs.Metering.{failing_by, lost_by, metered};
ghost use Rattle.gw_service.specs.Metrics.{AreCounts, PutsDue, PutsLast, drops_of, port_counts, ports_of, reloads_of};

use crate::keeping::StateKeeper;
use arrayvec::ArrayVec;
use gw_addr::MAX_PORTS;
use gw_core::Gateway;
use gw_decisions::tally::Tally;
use gw_notices::metrics::{Drops, GatewayCounts, Metrics, PortCounts, Reloads, StateTries};
use gw_notices::{Losses, ReloadCounts};
use gw_relay::PortState;
use gw_rules::RuleList;
use gw_turns::{Announcing, Report};
use gw_wire::{Store, StoreFault};
use std::alloc::Global;

/// What is measured of a run at a moment, beside what each rule decided and what each port has.
#[derive(Clone, Copy)]
pub(crate) struct Measures {
    /// What was done since the gateway began, and what its tables hold.
    pub report: Report,
    /// How often its configuration was read again, and which text the one in force has.
    pub reloads: ReloadCounts,
    /// How many ticks ago the configuration in force was read.
    pub age: u64,
    /// What was announced.
    pub announcing: Announcing,
    /// How much of what is watched was lost.
    pub losses: Losses,
    /// How its state is kept, if it is.
    pub tries: Option<StateTries>,
}

/// How many datagrams weren't passed on, by the reason.
fn drops_of(report: &Report) -> Drops
    ensures { result ≡ drops_of report.now }
{
    Drops {
        enter: report.tally.enter,
        claim: report.tally.claim,
        malformed: report.tally.malformed,
        own_network: report.tally.own_network,
        no_peer: report.tally.no_peer,
        memory: report.memory_drops,
    }
}

/// How often the configuration was read again.
fn reloads_of(counts: ReloadCounts) -> Reloads
    ensures { result ≡ reloads_of counts }
{
    Reloads {
        taken_over: counts.taken_over,
        refused: counts.refused,
    }
}

/// What is written of the port at a place: what was done on it, and how many foreign devices are registered there.
fn port_counts(report: &Report, place: usize, port: &PortState) -> PortCounts
    requires { place < MAX_PORTS }
    ensures { result ≡ port_counts report.now place port.now }
{
    let tally = report.tally.ports[place];
    let sends = report.ports[place];
    PortCounts {
        foreign_devices: port.fdt.count() as u64,
        datagrams: tally.datagrams,
        drops: tally.drops,
        sends: sends.sends,
        send_failures: sends.failures,
    }
}

/// What is written of each port, in order.
fn ports_of(report: &Report, ports: &[PortState]) -> ArrayVec<PortCounts, MAX_PORTS>
    requires few { length ports.now ≤ MAX_PORTS }
    ensures { result.items ≡ ports_of report.now ports.now }
{
    let mut counts = ArrayVec::new();
    for place in 0..ports.len() {
        counts.push(port_counts(report, place, &ports[place]));
    }
    counts
}

/// What is written of a run: what was measured, how many asks each of these rules decided, what is counted of each port, and how
/// many texts were lost.
fn counts_of<'a>(
    measures: &Measures,
    rules: &'a RuleList,
    decisions: &'a Option<Tally>,
    ports: &'a [PortCounts],
    lost_metrics: u64,
) -> GatewayCounts<'a>
    ensures { AreCounts measures.now rules.now decisions.now ports.now lost_metrics result }
{
    let Measures {
        report,
        reloads,
        age,
        announcing,
        losses,
        tries,
    } = *measures;
    GatewayCounts {
        ticks: report.seconds,
        received: report.datagrams.saturating_add(report.memory_drops),
        taken: report.datagrams,
        drops: drops_of(&report),
        sends: report.sends,
        send_failures: report.send_failures,
        announcements: announcing.sends,
        announcement_failures: announcing.send_failures,
        receive_failures: report.receive_failures,
        denials: report.denials,
        rules,
        decisions,
        unwatched: losses.unwatched,
        ports,
        peers: report.peers,
        learned_routes: report.learned_routes,
        reloads: reloads_of(reloads),
        checksum: reloads.checksum,
        configuration_age: age,
        state: tries,
        lost_trial_lines: losses.trial_lines,
        lost_audit_lines: losses.audit_lines,
        lost_metrics,
    }
}

/// Puts the text of what was measured into a store, if there is one and something was measured, whether it is due or not.
pub(crate) fn put_last<K: StateKeeper, S: Store + Drop>(
    alloc: Global,
    metrics: &mut Option<Metrics<S>>,
    measured: &Option<Measures>,
    gateway: &Gateway,
    keeper: &K,
)
    ensures { PutsLast S.held metrics.old measured.now gateway.now (K.conduct.decisions keeper.now) metrics.new }
{
    if let Some(metrics) = metrics {
        if let Some(measures) = measured {
            let decisions = keeper.decisions();
            let ports = ports_of(&measures.report, gateway.relay().ports());
            let lost = metrics.lost();
            let counts = counts_of(measures, gateway.rules(), decisions, ports.as_slice(), lost);
            metrics.put_now(alloc, measures.report.seconds, &counts);
        }
    }
}

/// Puts the text of what was measured into a store, if there is one, something was measured and a text is due.
pub(crate) fn put_due<K: StateKeeper, S: Store + Drop>(
    alloc: Global,
    metrics: &mut Option<Metrics<S>>,
    measured: &Option<Measures>,
    gateway: &Gateway,
    keeper: &K,
)
    ensures { PutsDue S.held metrics.old measured.now gateway.now (K.conduct.decisions keeper.now) metrics.new }
{
    if let Some(metrics) = metrics {
        if let Some(measures) = measured {
            let decisions = keeper.decisions();
            let ports = ports_of(&measures.report, gateway.relay().ports());
            let lost = metrics.lost();
            let counts = counts_of(measures, gateway.rules(), decisions, ports.as_slice(), lost);
            metrics.at_tick(alloc, measures.report.seconds, &counts);
        }
    }
}

/// Why the last try to put metrics failed, if it did.
pub(crate) fn failing_of<S: Store + Drop>(metrics: &Option<Metrics<S>>) -> Option<StoreFault>
    ensures { result ≡ failing_by (metered metrics.now) }
{
    match metrics {
        Some(metrics) => metrics.failing(),
        None => None,
    }
}

/// How many texts of metrics were lost, if they are put.
pub(crate) fn lost_of<S: Store + Drop>(metrics: &Option<Metrics<S>>) -> Option<u64>
    ensures { result ≡ lost_by (metered metrics.now) }
{
    match metrics {
        Some(metrics) => Some(metrics.lost()),
        None => None,
    }
}

/// What puts metrics into this store, nothing yet, if there is one.
pub(crate) fn metrics_in<S: Store + Drop>(store: Option<S>) -> Option<Metrics<S>>
    ensures { result ≡ option_map nothing_written store }
{
    match store {
        Some(store) => Some(Metrics::new(store)),
        None => None,
    }
}
