//! What writes metrics into a store.

ghost use Rattle.std.specs.Prelude.{◌≡◌, ◌⊎◌, OnErr, OnOk};
ghost use Rattle.gw_notices.specs.metrics.Text.{metrics_text};
ghost use Rattle.gw_wire.specs.Store.{Holds};
ghost use Rattle.gw_notices.specs.metrics.Writing.{IsTried, Tries, WritesAtTick, is_due, nothing_written};

use crate::metrics::{GatewayCounts, put_metrics};
use gw_wire::{Store, StoreFault};
use std::alloc::Global;
use std::marker::Model;

/// After how many ticks metrics are written again.
const WRITTEN_TICKS: u64 = 10;

/// Writes metrics into a store. Contracts see the store, the tick of the last try, how many tries failed, and why the last one
/// did, if it did.
#[derive(Drop)]
pub struct Metrics<S: Store + Drop> {
    store: S,
    last: Option<u64>,
    lost: u64,
    failing: Option<StoreFault>,
}

impl<S: Store + Drop> Model for Metrics<S> {
    ghost use Rattle.gw_notices.specs.metrics.Writing.{Writing};

    ghost Value = { Writing S };

    ghost view = { λ m. record { store = m.store; last = m.last; lost = m.lost; failing = m.failing } };
}

/// Puts the text of metrics into a store. `Memory` if a growth was refused; the store then wasn't asked.
fn put<S: Store>(alloc: Global, store: &mut S, counts: &GatewayCounts<'_>) -> Result<(), StoreFault>
    ensures ok { OnOk result (Holds (S.held store.new) (metrics_text counts.now)) }
    ensures err { OnErr result
        ((S.held store.new ≡ S.held store.old) ⊎ Holds (S.held store.new) (metrics_text counts.now)) }
{
    let mut text = Vec::new(alloc);
    match put_metrics(alloc, counts, &mut text) {
        Ok(()) => store.replace(&text),
        Err(_) => Err(StoreFault::Memory),
    }
}

impl<S: Store + Drop> Metrics<S> {
    /// Writes into this store, nothing yet.
    pub fn new(store: S) -> Self
        ensures { result ≡ nothing_written store }
    {
        Metrics {
            store,
            last: None,
            lost: 0,
            failing: None,
        }
    }

    /// Whether a text is due at a tick: none was tried yet, or the last ten ticks ago or more.
    pub fn is_due(&self, ticks: u64) -> bool
        ensures { result ≡ is_due self.now.last ticks }
    {
        match self.last {
            Some(last) => ticks.saturating_sub(last) >= WRITTEN_TICKS,
            None => true,
        }
    }

    /// Replaces the text at a tick, of which this is the number, if one is due. If that fails it is counted, and tried
    /// again when the next text is due.
    pub fn at_tick(&mut self, alloc: Global, ticks: u64, counts: &GatewayCounts<'_>)
        ensures { WritesAtTick S.held self.old ticks (metrics_text counts.now) self.new }
    {
        if self.is_due(ticks) {
            self.try_at(alloc, ticks, counts);
        }
    }

    /// Replaces the text at a tick, of which this is the number, whether one is due or not.
    pub fn put_now(&mut self, alloc: Global, ticks: u64, counts: &GatewayCounts<'_>)
        ensures { IsTried S.held self.old ticks (metrics_text counts.now) self.new }
    {
        self.try_at(alloc, ticks, counts);
    }

    /// Why the last try failed, if it did.
    pub fn failing(&self) -> Option<StoreFault>
        ensures { result ≡ self.now.failing }
    {
        self.failing
    }

    /// How many tries failed so far. It stays at 2^64 - 1.
    pub fn lost(&self) -> u64
        ensures { result ≡ self.now.lost }
    {
        self.lost
    }

    /// The store.
    pub fn store(&self) -> &S
        ensures { result.now ≡ self.now.store }
    {
        &self.store
    }

    /// Tries to replace the text, and says whether that succeeded.
    fn try_at(&mut self, alloc: Global, ticks: u64, counts: &GatewayCounts<'_>) -> bool
        ensures { Tries S.held self.old ticks (metrics_text counts.now) self.new result }
    {
        self.last = Some(ticks);
        match put(alloc, &mut self.store, counts) {
            Ok(()) => {
                self.failing = None;
                true
            }
            Err(fault) => {
                self.failing = Some(fault);
                self.lost = self.lost.saturating_add(1);
                false
            }
        }
    }
}
