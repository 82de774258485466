//! How registrations are kept: by address in their order, and beside them a tick before which none
//! ends, so that a tick before that looks at no registration.
ghost use Rattle.std.specs.Prelude.{◌≡◌, ◌≤◌, [], length, filter, is_some, OnOk, OnErr};
ghost use Rattle.std.specs.List.{AllByRecursion, IsDistinct};
ghost use Rattle.std.specs.Map.{keys_of, lookup, remove_entry};
ghost use Rattle.indexmap.specs.IndexMap.{insert_entry};
ghost use Rattle.gw_tables.specs.bdt_fdt.internal.Leases.{AreFrom, ends_from, holds_at};
ghost use Rattle.gw_tables.specs.bdt_fdt.Registrations.{same};

use gw_addr::BipAddr;
use indexmap::IndexMap;
use std::alloc::{AllocError, Global};
use std::marker::Model;

/// How long a foreign device is registered.
#[derive(Clone, Copy)]
pub(crate) struct Lease {
    /// The time to live that it registered with.
    pub(crate) time_to_live: u16,
    /// The number of the tick with which it is gone.
    pub(crate) deadline: u64,
}

/// The leases by address, in their order, and a tick before which none ends. Contracts see the list of them.
#[derive(Drop)]
pub(crate) struct Leases {
    by_address: IndexMap<BipAddr, Lease>,
    first_end: u64,
}

impl Model for Leases {
    ghost use Rattle.gw_tables.specs.bdt_fdt.internal.Leases.{AreFrom, LeaseList};

    ghost Value = { LeaseList };

    ghost view = { λ a. a.by_address.entries };

    ghost invariant = { λ a. AreFrom a.first_end a.by_address.entries };
}

impl Leases {
    /// No lease.
    pub(crate) fn new(alloc: Global) -> Self
        ensures { result ≡ [] }
    {
        Leases {
            by_address: IndexMap::new(alloc),
            first_end: u64::MAX,
        }
    }

    /// The leases by address.
    pub(crate) fn by_address(&self) -> &IndexMap<BipAddr, Lease>
        ensures { result.now.entries ≡ self.now }
    {
        &self.by_address
    }

    /// Whether an address has one.
    pub(crate) fn contains(&self, address: BipAddr) -> bool
        ensures { result ≡ is_some (lookup (same address) self.now) }
    {
        self.by_address.contains_key(&address)
    }

    /// How many there are.
    pub(crate) fn len(&self) -> usize
        ensures len { result ≡ length self.now }
        ensures once { IsDistinct same (keys_of self.now) }
    {
        self.by_address.len()
    }

    /// Gives an address a lease: one that has one keeps its place, and another goes last. The only
    /// fault is want of memory; then nothing changed.
    pub(crate) fn put(&mut self, address: BipAddr, lease: Lease) -> Result<(), AllocError>
        ensures ok { OnOk result (self.new ≡ insert_entry same self.old address lease) }
        ensures err { OnErr result (self.new ≡ self.old) }
    {
        self.by_address.insert(address, lease)?;
        self.first_end = self.first_end.min(lease.deadline);
        Ok(())
    }

    /// Takes the lease of an address, if it has one.
    pub(crate) fn take(&mut self, address: BipAddr)
        ensures { self.new ≡ remove_entry (same address) self.old }
    {
        self.by_address.shift_remove(&address);
    }

    /// Takes the leases that end with a tick or before it. Before the first end it looks at none.
    pub(crate) fn end_by(&mut self, now: u64)
        ensures { self.new ≡ filter (holds_at now) self.old }
    {
        if self.first_end <= now {
            self.first_end = take_ended(&mut self.by_address, now);
        }
    }
}

/// Takes the leases that end with a tick or before it, which is seldom, and answers the first end of the others.
#[inline(never)]
fn take_ended(by_address: &mut IndexMap<BipAddr, Lease>, now: u64) -> u64
    ensures leases { by_address.new.entries ≡ filter (holds_at now) by_address.old.entries }
    ensures kept { AreFrom result by_address.new.entries }
{
    by_address.retain(|_, lease| now < lease.deadline);
    first_end(by_address)
}

/// The first tick with which a lease ends, or the last there is if there is none.
fn first_end(by_address: &IndexMap<BipAddr, Lease>) -> u64
    ensures { AllByRecursion (ends_from result) by_address.now.entries }
{
    let mut first = u64::MAX;
    for (_, lease) in by_address {
        first = first.min(lease.deadline);
    }
    first
}
