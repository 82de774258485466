//! What keeps the state of a gateway from stretch to stretch, or doesn't, beside what watches it.

ghost use Rattle.std.specs.Prelude.{◌≡◌, ℕ, Bool, IsOk, List, OnOk, Option, false};
ghost use Rattle.std.specs.Io.KnownBytes.{Appends};
ghost use Rattle.gw_configuration.specs.Configuration.{Configuration};
ghost use Rattle.gw_state.specs.Saved.{origin_of};
ghost use Rattle.gw_service.specs.Conduct.{Conduct};
ghost use Rattle.gw_service.specs.Keeping.{IsKeptAtTick, IsKeptFor, IsKeptLast, IsPassed, IsSuccessor, failing_in, tries_in, unkept_in};

use crate::successor::Successor;
use gw_core::{Gateway, Guard, SeenAsks, Taken};
use gw_decisions::tally::Tally;
use gw_notices::metrics::StateTries;
use gw_notices::{Losses, Troubles};
use gw_rules::Ask;
use gw_script::{OctetSink, WriteFailed};
use gw_state::Origin;
use gw_turns::Keeper;
use gw_wire::{Store, StoreFault};
use std::alloc::Global;

/// What keeps the state of a gateway from stretch to stretch.
pub trait StateKeeper: Guard {
    /// What it does, and what it says of itself.
    ghost conduct: { Conduct Self };

    /// Does what is due at a tick.
    fn keep_at_tick(&mut self, alloc: Global, gateway: &Gateway)
        ensures { conduct.Ticks self.old gateway.now self.new };

    /// Goes on with another gateway, of whose configuration this is made.
    fn adopt(&mut self, alloc: Global, successor: Successor, gateway: &Gateway)
        ensures { (c : Configuration) → IsSuccessor c successor → conduct.Adopts self.old c gateway.now self.new };

    /// Does what is due at the end, whatever ended the run.
    fn keep_last(&mut self, alloc: Global, gateway: &Gateway)
        ensures { conduct.Lasts self.old gateway.now self.new };

    /// What isn't kept or recorded.
    fn troubles(&self) -> Troubles
        ensures { result ≡ conduct.troubles self.now };

    /// How many tries failed so far.
    fn unkept(&self) -> u64
        ensures { result ≡ conduct.unkept self.now };

    /// How the state is kept, if it is.
    fn tries(&self) -> Option<StateTries>
        ensures { result ≡ conduct.tries self.now };

    /// How many asks each rule decided, if that is counted.
    fn decisions(&self) -> &Option<Tally>
        ensures { result.now ≡ conduct.decisions self.now };

    /// How much of what is watched was lost.
    fn losses(&self) -> Losses
        ensures { result ≡ conduct.losses self.now };

    /// Writes more of itself, and how many asks each rule decided if that is asked for.
    fn write_more<E: OctetSink>(
        &self,
        rules: bool,
        gateway: &Gateway,
        errors: &mut E,
    ) -> Result<(), WriteFailed>
        ensures ok { OnOk result (Appends (E.held errors.old) (E.held errors.new) (conduct.more self.now rules gateway.now)) }
        ensures sure { E.NeverFails errors.old → IsOk result }
        ensures lasts { E.NeverFails errors.old → E.NeverFails errors.new };
}

/// What keeps the state of a gateway, if something does.
#[derive(Drop)]
pub enum Kept<S: Store + Drop> {
    /// Nothing keeps it.
    Nowhere,
    /// It is kept in a store.
    In(Keeper<S>),
}

impl<S: Store + Drop> Guard for Kept<S> {
    ghost Passes = { IsPassed S.held };

    ghost watching = { λ _. false };

    ghost keeps = { λ _ _. false };

    fn watches(&self) -> bool {
        false
    }

    #[inline(always)]
    fn keeps(&self, _ask: &Ask, _by: Option<u16>, _is_allowed: bool) -> bool {
        false
    }

    fn pass(
        &mut self,
        alloc: Global,
        gateway: &Gateway,
        taken: &Taken,
        asked: Option<&SeenAsks>,
    ) -> bool {
        match self {
            Kept::Nowhere => true,
            Kept::In(keeper) => keeper.pass(alloc, gateway, taken, asked),
        }
    }
}

impl<S: Store + Drop> Kept<S> {
    /// Keeps the state of the gateway at a tick, if that is due.
    pub(crate) fn keep_at_tick(&mut self, alloc: Global, gateway: &Gateway)
        ensures { IsKeptAtTick S.held self.old gateway.now self.new }
    {
        if let Kept::In(keeper) = self {
            keeper.keep_at_tick(alloc, gateway);
        }
    }

    /// Keeps the state of another gateway at once, of which this is configured.
    pub(crate) fn keep_for(&mut self, alloc: Global, origin: Origin, gateway: &Gateway)
        ensures { (c : Configuration) → origin ≡ origin_of c → IsKeptFor S.held self.old c gateway.now self.new }
    {
        if let Kept::In(keeper) = self {
            keeper.adopt(alloc, origin, gateway);
        }
    }

    /// Keeps the state of the gateway at once, whether that is due or not.
    pub(crate) fn keep_once_more(&mut self, alloc: Global, gateway: &Gateway)
        ensures { IsKeptLast S.held self.old gateway.now self.new }
    {
        if let Kept::In(keeper) = self {
            keeper.keep_last(alloc, gateway);
        }
    }

    /// Why the last try failed, if it did.
    pub(crate) fn failing(&self) -> Option<StoreFault>
        ensures { result ≡ failing_in self.now }
    {
        match self {
            Kept::Nowhere => None,
            Kept::In(keeper) => keeper.failing(),
        }
    }

    /// How many tries failed so far.
    pub(crate) fn unkept(&self) -> u64
        ensures { result ≡ unkept_in self.now }
    {
        match self {
            Kept::Nowhere => 0,
            Kept::In(keeper) => keeper.unkept(),
        }
    }

    /// How the state is kept, if it is.
    pub(crate) fn tries(&self) -> Option<StateTries>
        ensures { result ≡ tries_in self.now }
    {
        match self {
            Kept::Nowhere => None,
            Kept::In(keeper) => Some(StateTries {
                is_kept: !keeper.failing().is_some(),
                unkept: keeper.unkept(),
            }),
        }
    }
}
