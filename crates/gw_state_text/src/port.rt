//! The ports with their tables.

ghost use Rattle.std.specs.Prelude.{◌≡◌, ◌≤◌, ◌||◌, ◌++◌, codes, length, IfOk, IfErr, IsFalse, IsTrue, OnErr};
ghost use Rattle.std.specs.List.{list_any};
ghost use Rattle.gw_tables.specs.bdt_fdt.Kept.{are_restorable};
ghost use Rattle.gw_tables.specs.bdt_fdt.Peers.{are_too_many, has_twice};
ghost use Rattle.gw_state_text.specs.Fit.{FitsPorts, is_at};
ghost use Rattle.gw_state_text.specs.Reading.{port_after};
ghost use Rattle.gw_state_text.specs.Text.{port_text};

use crate::block::{Block, read_all};
use crate::fault::{FaultKind, Stop};
use crate::items::{ItemLines, put_all};
use crate::lines::{port_at, put_port};
use crate::tables::{Devices, EntryLines};
use gw_addr::{BdtEntry, BipAddr, MAX_PORTS, NetNum, Sequence};
use gw_configuration::Peers;
use gw_state::SavedPort;
use gw_tables::bdt_fdt::{Bdt, KeptDevice, KeptDevices};
use std::alloc::{AllocError, Global};

/// Whether a port has this network and this address.
fn has_port(ports: &[SavedPort], network: NetNum, address: BipAddr) -> bool
    ensures { result ≡ list_any (is_at network address) ports.now }
{
    ports
        .iter()
        .any(|port| network == port.network && address == port.address)
}

/// These peers, in their order.
fn peers_of(alloc: Global, entries: &[BdtEntry]) -> Result<Peers, AllocError>
    requires { length entries.now ≤ 64 }
    ensures { IfOk result (λ peers. peers ≡ entries.now) }
{
    let mut peers = Sequence::new(alloc);
    for entry in entries {
        peers.push(*entry)?;
    }
    Ok(Peers::new(peers).unwrap())
}

/// Ports with their tables.
#[derive(Clone, Copy)]
pub(crate) struct PortLines;

impl ItemLines for PortLines {
    type Item = SavedPort;

    ghost lines = { λ ports port. port_text port };

    fn put(&self, out: &mut Vec<u8>, item: &SavedPort) -> Result<(), AllocError> {
        let peers = EntryLines { word: b"peer " };
        let entries = EntryLines { word: b"entry " };
        put_port(out, item.network, item.address)?;
        put_all(&peers, out, item.peers.as_slice())?;
        put_all(&entries, out, item.entries.entries())?;
        put_all(&Devices, out, item.devices.as_slice())
    }
}

impl Block for PortLines {
    type Item = SavedPort;

    ghost line = { λ ports port. port_text port };

    ghost Fits = { λ ports before port. FitsPorts before port };

    ghost count = { λ ports. 8 };

    ghost opens = { λ ports. codes "port " };

    ghost reads = { λ ports before text. port_after before text };

    fn word(&self) -> &'static [u8] {
        b"port "
    }

    fn most(&self) -> usize {
        MAX_PORTS
    }

    #[tactic(auto, unfolding(crate::specs::Reading::port_after))]
    fn read<'a>(
        &self,
        alloc: Global,
        before: &[SavedPort],
        text: &'a [u8],
    ) -> Result<(SavedPort, &'a [u8]), Stop> {
        let (network, address, lines) = match port_at(text) {
            Some(read) => read,
            None => return Err(Stop::at(text, FaultKind::Line)),
        };
        if has_port(before, network, address) {
            return Err(Stop::at(text, FaultKind::Twice));
        }
        let peer_lines = EntryLines { word: b"peer " };
        let entry_lines = EntryLines { word: b"entry " };
        let (peers, lines) = match read_all(alloc, &peer_lines, lines) {
            Ok(read) => read,
            Err(stop) => return Err(stop),
        };
        let (entries, lines) = match read_all(alloc, &entry_lines, lines) {
            Ok(read) => read,
            Err(stop) => return Err(stop),
        };
        let (devices, rest) = match read_all(alloc, &Devices, lines) {
            Ok(read) => read,
            Err(stop) => return Err(stop),
        };
        match tables_of(alloc, peers, entries, devices) {
            Ok((peers, entries, devices)) => Ok((
                SavedPort {
                    network,
                    address,
                    peers,
                    entries,
                    devices,
                },
                rest,
            )),
            Err(_) => Err(Stop::at(text, FaultKind::Memory)),
        }
    }
}

/// The tables of these peers, entries and devices. Only the peers want memory.
fn tables_of(
    alloc: Global,
    peers: Vec<BdtEntry>,
    entries: Vec<BdtEntry>,
    devices: Vec<KeptDevice>,
) -> Result<(Peers, Bdt, KeptDevices), AllocError>
    requires peers { length peers.items ≤ 64 }
    requires entries { IsFalse (are_too_many entries.items || has_twice entries.items) }
    requires devices { IsTrue (are_restorable devices.items) }
    ensures { IfOk result (λ x. (x.0 ≡ peers.items) × (x.1 ≡ entries.items) × (x.2 ≡ devices.items)) }
{
    let peers = peers_of(alloc, peers.as_slice())?;
    let entries = Bdt::from_vec(entries).unwrap();
    let devices = KeptDevices::new(devices).unwrap();
    Ok((peers, entries, devices))
}
