//! Which tables a port takes over.
ghost use Rattle.std.specs.Prelude.{◌≡◌, ◌≤◌, ◌^◌, [], length, find, option_copied, IfOk, IsFalse};
ghost use Rattle.std.specs.List.{AllByRecursion};
ghost use Rattle.gw_tables.specs.bdt_fdt.Kept.{restored};
ghost use Rattle.gw_tables.specs.bdt_fdt.Peers.{has_twice};
ghost use Rattle.gw_state.specs.Carried.{are_same, entries_from, is_port, manager_tables, no_tables, same_entry, tables_carried, tables_from};

use crate::{Saved, SavedPort};
use gw_addr::BdtEntry;
use gw_configuration::Port;
use gw_tables::bdt_fdt::{Bdt, Fdt, KeptDevices, PortTables};
use std::alloc::{AllocError, Global};

impl Saved {
    /// The tables that the ports of a configuration take over, in order of these ports: the foreign devices
    /// of a port that was saved, and its table of peers if the peers are still configured as they were. A port
    /// that has another broadcast manager beside it takes over nothing: its tables are empty. The only fault is
    /// want of memory.
    pub fn carry_tables(&self, alloc: Global, ports: &[Port]) -> Result<Vec<PortTables>, AllocError>
        requires once { AllByRecursion (λ p. IsFalse (has_twice p.peers)) ports.now }
        ensures tables { IfOk result (λ tables.
            tables.items ≡ tables_carried self.now.counts.since ports.now self.now.ports) }
        ensures each { IfOk result (λ tables. length tables.items ≡ length ports.now) }
        ensures ticks { IfOk result (λ tables.
            AllByRecursion (λ t. t.fdt.ticks ≡ self.now.counts.since) tables.items) }
    {
        tables_of(alloc, self.counts().since, ports, self.ports())
    }
}

/// The tables of ports after so many ticks, of which these were saved.
fn tables_of(
    alloc: Global,
    ticks: u64,
    ports: &[Port],
    saved: &[SavedPort],
) -> Result<Vec<PortTables>, AllocError>
    requires ticks { ticks ≤ 2 ^ 63 }
    requires once { AllByRecursion (λ p. IsFalse (has_twice p.peers)) ports.now }
    ensures { IfOk result (λ tables. tables.items ≡ tables_carried ticks ports.now saved.now) }
{
    let mut tables = Vec::new(alloc);
    for port in ports {
        tables.push(tables_for(alloc, ticks, port, port_saved(saved, port))?)?;
    }
    Ok(tables)
}

/// Whether a port is the one that was saved.
pub fn is_port(port: &Port, saved: &SavedPort) -> bool
    ensures { result ≡ is_port port.now saved.now }
{
    port.network == saved.network && port.address == saved.address
}

/// The port as it was saved.
pub fn port_saved<'a>(saved: &'a [SavedPort], port: &Port) -> Option<&'a SavedPort>
    ensures { option_copied result ≡ find (is_port port.now) saved.now }
{
    saved.iter().find(|saved| is_port(port, saved))
}

/// The tables of a port after so many ticks, which was saved or not.
fn tables_for(
    alloc: Global,
    ticks: u64,
    port: &Port,
    saved: Option<&SavedPort>,
) -> Result<PortTables, AllocError>
    requires ticks { ticks ≤ 2 ^ 63 }
    requires once { IsFalse (has_twice port.now.peers) }
    ensures { IfOk result (λ tables. tables ≡ tables_from ticks port.now (option_copied saved.entry)) }
{
    if port.bbmd.is_some() {
        return no_tables(alloc, ticks);
    }
    manager_tables(alloc, ticks, port, saved)
}

/// The tables of a port that has another broadcast manager beside it.
fn no_tables(alloc: Global, ticks: u64) -> Result<PortTables, AllocError>
    requires { ticks ≤ 2 ^ 63 }
    ensures { IfOk result (λ tables. tables ≡ no_tables ticks) }
{
    Ok(PortTables {
        bdt: Bdt::from_vec(Vec::new(alloc)).unwrap(),
        fdt: no_devices(alloc, ticks)?,
    })
}

/// The tables of a port that is the broadcast manager of its subnet, which was saved or not.
fn manager_tables(
    alloc: Global,
    ticks: u64,
    port: &Port,
    saved: Option<&SavedPort>,
) -> Result<PortTables, AllocError>
    requires ticks { ticks ≤ 2 ^ 63 }
    requires once { IsFalse (has_twice port.now.peers) }
    ensures { IfOk result (λ tables. tables ≡ manager_tables ticks port.now (option_copied saved.entry)) }
{
    match saved {
        Some(saved) => Ok(PortTables {
            bdt: entries_for(alloc, port, saved)?,
            fdt: Fdt::restore(alloc, ticks, &saved.devices)?,
        }),
        None => Ok(PortTables {
            bdt: configured(alloc, port)?,
            fdt: no_devices(alloc, ticks)?,
        }),
    }
}

/// No foreign devices, after so many ticks.
fn no_devices(alloc: Global, ticks: u64) -> Result<Fdt, AllocError>
    requires { ticks ≤ 2 ^ 63 }
    ensures { IfOk result (λ fdt. fdt ≡ restored ticks []) }
{
    Fdt::restore(alloc, ticks, &KeptDevices::new(Vec::new(alloc)).unwrap())
}

/// The table of peers of a port that was saved.
fn entries_for(alloc: Global, port: &Port, saved: &SavedPort) -> Result<Bdt, AllocError>
    requires { IsFalse (has_twice port.now.peers) }
    ensures { IfOk result (λ bdt. bdt ≡ entries_from port.now saved.now) }
{
    if are_same(saved.peers.as_slice(), port.peers.as_slice()) {
        saved.entries.copy(alloc)
    } else {
        configured(alloc, port)
    }
}

/// The table of the peers that a port is configured with.
fn configured(alloc: Global, port: &Port) -> Result<Bdt, AllocError>
    requires { IsFalse (has_twice port.now.peers) }
    ensures { IfOk result (λ bdt. bdt ≡ port.now.peers) }
{
    let peers = Vec::from_slice(alloc, port.peers.as_slice())?;
    Ok(Bdt::from_vec(peers).unwrap())
}

/// Whether two lists have the same entries of tables of peers, in the same order.
pub fn are_same(a: &[BdtEntry], b: &[BdtEntry]) -> bool
    ensures { result ≡ are_same a.now b.now }
{
    if a.len() != b.len() {
        return false;
    }
    for (place, entry) in a.iter().enumerate() {
        if !is_same(*entry, b[place]) {
            return false;
        }
    }
    true
}

/// Whether two entries are one.
fn is_same(a: BdtEntry, b: BdtEntry) -> bool
    ensures { result ≡ same_entry a b }
{
    a.address == b.address && a.mask == b.mask
}
