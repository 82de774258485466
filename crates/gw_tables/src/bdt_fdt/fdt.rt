//! The foreign device table (Annex J.5).
ghost use Rattle.std.specs.Prelude.{◌≡◌, ◌+◌, ◌<◌, ◌≤◌, ◌↔◌, ◌∷◌, ◌^◌, [], length, map};
ghost use Rattle.std.specs.Prelude.{true, IsTrue, IsFalse, IfOk, IsOk, OnOk, OnErr, IsErrOf};
ghost use Rattle.std.specs.List.{IsDistinct};
ghost use Rattle.std.specs.Map.{keys_of};
ghost use Rattle.std.specs.Iterator.{YieldsFirstRef, item_count};
ghost use Rattle.gw_tables.specs.bdt_fdt.internal.Leases.{AreKept, lease_kept, table_at};
ghost use Rattle.gw_tables.specs.bdt_fdt.internal.Iterators.{addresses_left};
ghost use Rattle.gw_tables.specs.bdt_fdt.Registrations.{contains, emptied, has_room, no_registration, same, shown};
ghost use Rattle.gw_tables.specs.bdt_fdt.Registrations.{with_registration, with_tick, without};
ghost use Rattle.gw_tables.specs.bdt_fdt.Kept.{are_restorable, kept, restored};
ghost use Rattle.gw_tables.specs.bdt_fdt.History.{Delete, History, IsStateAfter, Register, Tick};

use crate::bdt_fdt::fault::{DeleteFault, RegisterFault};
use crate::bdt_fdt::kept::{KeptDevice, KeptDevices};
use crate::bdt_fdt::leases::{Lease, Leases};
use gw_addr::{BipAddr, FdtEntry};
use indexmap::map::Keys;
use std::alloc::{AllocError, Global};
use std::marker::Model;

/// How many foreign devices may be registered at a time (a limit of our own).
pub const MAX_REGISTRATIONS: usize = 128;

/// The seconds of grace that a registration lives after its time to live (Annex J.5.2.3).
pub const GRACE: u64 = 30;

/// The most seconds that are shown to remain: those that 16 bits can say (our own rule).
pub const MAX_REMAINING: u64 = 65535;

/// The foreign devices of a port, at most 128, each registered for its time to live and 30 seconds
/// of grace from its last registration on (Annex J.5.2). They are in the order in which their
/// unbroken times of being registered began (our own rule). A tick is one second.
#[derive(Drop)]
pub struct Fdt {
    leases: Leases,
    ticks: u64,
}

impl Model for Fdt {
    ghost use Rattle.gw_tables.specs.bdt_fdt.Registrations.{Registrations};
    ghost use Rattle.gw_tables.specs.bdt_fdt.internal.Leases.{AreKept, table_at};

    ghost Value = { Registrations };

    ghost view = { λ a. table_at a.ticks a.leases };

    ghost invariant = { λ a. AreKept a.ticks a.leases };
}

impl Fdt {
    /// A table in which nobody is registered, before the first tick.
    pub fn new(alloc: Global) -> Self
        ensures rows { result ≡ no_registration }
        ensures stands { IsStateAfter result [] }
    {
        Fdt {
            leases: Leases::new(alloc),
            ticks: 0,
        }
    }

    /// The table once nobody is registered any more. It takes no memory.
    pub fn emptied(self, alloc: Global) -> Self
        ensures { result ≡ emptied self }
    {
        Fdt {
            leases: Leases::new(alloc),
            ticks: self.ticks,
        }
    }

    /// Registers a foreign device for `time_to_live` seconds and 30 of grace from now on (Annex
    /// J.5.2). One that is registered keeps its place and takes the new time, also if that is
    /// shorter; another goes last.
    ///
    /// `Full` if 128 others are registered; `Memory` if there is none for the registration.
    /// Then nothing changed.
    pub fn register(&mut self, address: BipAddr, time_to_live: u16) -> Result<(), RegisterFault>
        ensures rows { OnOk result (self.new ≡ with_registration self.old address time_to_live) }
        ensures stands { OnOk result ((h : History) → IsStateAfter self.old h →
            IsStateAfter self.new (Register address time_to_live ∷ h)) }
        ensures full { IsErrOf result RegisterFault.Full ↔ IsFalse (has_room self.old address) }
        ensures err { OnErr result (self.new ≡ self.old) }
    {
        if !self.has_room(address) {
            return Err(RegisterFault::Full);
        }
        let deadline = self.ticks + u64::from(time_to_live) + GRACE;
        let lease = Lease {
            time_to_live,
            deadline,
        };
        let Ok(()) = self.leases.put(address, lease) else {
            return Err(RegisterFault::Memory);
        };
        Ok(())
    }

    /// Whether there is room for an address.
    fn has_room(&self, address: BipAddr) -> bool
        ensures { result ≡ has_room self.now address }
    {
        self.count() < MAX_REGISTRATIONS || self.contains(address)
    }

    /// Deletes the registration of a foreign device (Annex J.5.2.1). `Absent` where it isn't
    /// registered; then nothing changed.
    pub fn delete(&mut self, address: BipAddr) -> Result<(), DeleteFault>
        ensures rows { OnOk result (self.new ≡ without self.old address) }
        ensures stands { OnOk result ((h : History) → IsStateAfter self.old h →
            IsStateAfter self.new (Delete address ∷ h)) }
        ensures absent { IsErrOf result DeleteFault.Absent ↔ IsFalse (contains self.old address) }
        ensures err { OnErr result (self.new ≡ self.old) }
    {
        if !self.contains(address) {
            return Err(DeleteFault::Absent);
        }
        self.leases.take(address);
        Ok(())
    }

    /// One second passes: who has no tick more to come is gone with it (Annex J.5.2.3). The caller
    /// sees to it that there are no more than 2 to the power of 63 ticks.
    pub fn tick(&mut self)
        requires { self.old.ticks < 2 ^ 63 }
        ensures rows { self.new ≡ with_tick self.old }
        ensures stands { (h : History) → IsStateAfter self.old h →
            IsStateAfter self.new (Tick ∷ h) }
    {
        let now = self.ticks + 1;
        self.leases.end_by(now);
        self.ticks = now;
    }

    /// How many ticks have passed.
    pub fn ticks(&self) -> u64
        ensures { result ≡ self.now.ticks }
    {
        self.ticks
    }

    /// Whether a foreign device is registered.
    pub fn contains(&self, address: BipAddr) -> bool
        ensures { result ≡ contains self.now address }
    {
        self.leases.contains(address)
    }

    /// How many foreign devices are registered. No two registrations are of one address.
    pub fn count(&self) -> usize
        ensures count { result ≡ length self.now.rows }
        ensures few { result ≤ MAX_REGISTRATIONS }
        ensures once { IsDistinct same (keys_of self.now.rows) }
    {
        self.leases.len()
    }

    /// The addresses of the foreign devices, in their order.
    pub fn addresses(&self) -> Addresses<'_>
        ensures { addresses_left result ≡ keys_of self.now.rows }
    {
        Addresses {
            keys: self.leases.by_address().keys(),
        }
    }

    /// The foreign devices in their order, each with its time to live and the seconds that remain,
    /// the grace among them, shown as at most 65535. The only fault is want of memory for the list,
    /// and none is wanted if nobody is registered.
    pub fn rows(&self, alloc: Global) -> Result<Vec<FdtEntry>, AllocError>
        ensures rows { IfOk result (λ rows. rows.items ≡ map shown self.now.rows) }
        ensures none { self.now.rows ≡ [] → IsOk result }
    {
        let mut rows = Vec::with_capacity(alloc, self.leases.len())?;
        for (address, lease) in self.leases.by_address() {
            rows.push(FdtEntry {
                address: *address,
                time_to_live: lease.time_to_live,
                remaining: (lease.deadline - self.ticks).min(MAX_REMAINING) as u16,
            })?;
        }
        Ok(rows)
    }

    /// The foreign devices in their order, with the ticks that are left to each: as many as there
    /// are, and not as [`Fdt::rows`] shows them. [`Fdt::restore`] makes an equal table of them. The only
    /// fault is want of memory for the list, and none is wanted if nobody is registered.
    pub fn kept(&self, alloc: Global) -> Result<KeptDevices, AllocError>
        ensures devices { IfOk result (λ devices. devices ≡ map kept self.now.rows) }
        ensures back { IfOk result (λ devices. restored self.now.ticks devices ≡ self.now) }
        ensures none { self.now.rows ≡ [] → IsOk result }
    {
        let mut devices = Vec::with_capacity(alloc, self.leases.len())?;
        for (address, lease) in self.leases.by_address() {
            devices.push(KeptDevice {
                address: *address,
                time_to_live: lease.time_to_live,
                left: lease.deadline - self.ticks,
            })?;
        }
        Ok(KeptDevices::of_table(devices))
    }

    /// The table of these foreign devices, in their order, after so many ticks, at most 2 to the
    /// power of 63. The only fault is want of memory, and none is wanted if there are no devices.
    pub fn restore(alloc: Global, ticks: u64, devices: &KeptDevices) -> Result<Self, AllocError>
        requires { ticks ≤ 2 ^ 63 }
        ensures table { IfOk result (λ table. table ≡ restored ticks devices.now) }
        ensures none { devices.now ≡ [] → IsOk result }
    {
        let leases = leases_of(alloc, ticks, devices.as_slice())?;
        Ok(Fdt { leases, ticks })
    }
}

/// The leases of devices that a table can have, after so many ticks. The only fault is want of memory.
fn leases_of(alloc: Global, ticks: u64, devices: &[KeptDevice]) -> Result<Leases, AllocError>
    requires ticks { ticks ≤ 2 ^ 63 }
    requires restorable { IsTrue (are_restorable devices.now) }
    ensures leases { IfOk result (λ leases. leases ≡ map (lease_kept ticks) devices.now) }
    ensures none { devices.now ≡ [] → IsOk result }
{
    let mut leases = Leases::new(alloc);
    for device in devices {
        leases.put(device.address, lease_kept(ticks, *device))?;
    }
    Ok(leases)
}

/// The lease of a device that was kept, after so many ticks.
fn lease_kept(ticks: u64, device: KeptDevice) -> Lease
    requires ticks { ticks ≤ 2 ^ 63 }
    requires due { device.left ≤ device.time_to_live + GRACE }
    ensures { result ≡ (lease_kept ticks device).1 }
{
    Lease {
        time_to_live: device.time_to_live,
        deadline: ticks + device.left,
    }
}

/// The addresses of the foreign devices of a table.
#[derive(Clone, Drop)]
pub struct Addresses<'a> {
    keys: Keys<'a, BipAddr, Lease>,
}

impl<'a> Iterator for Addresses<'a> {
    ghost use Rattle.gw_tables.specs.bdt_fdt.internal.Iterators.{addresses_left};

    type Item = &'a BipAddr;

    ghost next_gives = { YieldsFirstRef addresses_left };

    ghost remaining = { item_count addresses_left };

    fn next(&mut self) -> Option<&'a BipAddr> {
        self.keys.next()
    }
}
