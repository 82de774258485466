//! The peers, entries and foreign devices of a port, and the learned routes.

ghost use Rattle.std.specs.Prelude.{◌≡◌, codes};
ghost use Rattle.std.specs.List.{list_any};
ghost use Rattle.gw_tables.specs.bdt_fdt.Kept.{is_of_device};
ghost use Rattle.gw_tables.specs.bdt_fdt.Peers.{is_of};
ghost use Rattle.gw_state_text.specs.Fit.{FitsDevices, FitsEntries, FitsRoutes, is_to};
ghost use Rattle.gw_state_text.specs.Reading.{device_after, entry_after, route_after};
ghost use Rattle.gw_state_text.specs.Text.{device_line, entry_line, route_line};

use crate::block::Block;
use crate::fault::{FaultKind, Stop};
use crate::items::ItemLines;
use crate::lines::{device_at, entry_at, put_device, put_entry, put_route, route_at};
use gw_addr::{BdtEntry, BipAddr, NetNum};
use gw_tables::bdt_fdt::{KeptDevice, MAX_ENTRIES, MAX_REGISTRATIONS};
use gw_tables::routes::{MAX_ROUTES, Route};
use std::alloc::{AllocError, Global};

/// Whether an entry has this address.
fn has_entry(entries: &[BdtEntry], address: BipAddr) -> bool
    ensures { result ≡ list_any (is_of address) entries.now }
{
    entries.iter().any(|entry| address == entry.address)
}

/// Whether a device has this address.
fn has_device(devices: &[KeptDevice], address: BipAddr) -> bool
    ensures { result ≡ list_any (is_of_device address) devices.now }
{
    devices.iter().any(|device| address == device.address)
}

/// Whether a route goes to this network.
fn has_route(routes: &[(NetNum, Route)], network: NetNum) -> bool
    ensures { result ≡ list_any (is_to network) routes.now }
{
    routes.iter().any(|route| network == route.0)
}

/// Entries of a table, whose lines begin with this word.
#[derive(Clone, Copy)]
pub(crate) struct EntryLines {
    /// The word, and its space.
    pub word: &'static [u8],
}

impl ItemLines for EntryLines {
    type Item = BdtEntry;

    ghost lines = { λ kind item. entry_line kind.word.now item };

    fn put(&self, out: &mut Vec<u8>, item: &BdtEntry) -> Result<(), AllocError> {
        put_entry(out, self.word, *item)
    }
}

impl Block for EntryLines {
    type Item = BdtEntry;

    ghost line = { λ entries entry. entry_line entries.word.now entry };

    ghost Fits = { λ entries before entry. FitsEntries before entry };

    ghost count = { λ entries. 64 };

    ghost opens = { λ entries. entries.word.now };

    ghost reads = { λ entries before text. entry_after entries.word.now before text };

    fn word(&self) -> &'static [u8] {
        self.word
    }

    fn most(&self) -> usize {
        MAX_ENTRIES
    }

    #[tactic(auto, unfolding(crate::specs::Reading::entry_after))]
    fn read<'a>(
        &self,
        _alloc: Global,
        before: &[BdtEntry],
        text: &'a [u8],
    ) -> Result<(BdtEntry, &'a [u8]), Stop> {
        let Some((entry, rest)) = entry_at(self.word, text) else {
            return Err(Stop::at(text, FaultKind::Line));
        };
        if has_entry(before, entry.address) {
            return Err(Stop::at(text, FaultKind::Twice));
        }
        Ok((entry, rest))
    }
}

/// Foreign devices.
#[derive(Clone, Copy)]
pub(crate) struct Devices;

impl ItemLines for Devices {
    type Item = KeptDevice;

    ghost lines = { λ kind item. device_line item };

    fn put(&self, out: &mut Vec<u8>, item: &KeptDevice) -> Result<(), AllocError> {
        put_device(out, *item)
    }
}

impl Block for Devices {
    type Item = KeptDevice;

    ghost line = { λ devices device. device_line device };

    ghost Fits = { λ devices before device. FitsDevices before device };

    ghost count = { λ devices. 128 };

    ghost opens = { λ devices. codes "device " };

    ghost reads = { λ devices before text. device_after before text };

    fn word(&self) -> &'static [u8] {
        b"device "
    }

    fn most(&self) -> usize {
        MAX_REGISTRATIONS
    }

    #[tactic(auto, unfolding(crate::specs::Reading::device_after))]
    fn read<'a>(
        &self,
        _alloc: Global,
        before: &[KeptDevice],
        text: &'a [u8],
    ) -> Result<(KeptDevice, &'a [u8]), Stop> {
        let Some((device, rest)) = device_at(text) else {
            return Err(Stop::at(text, FaultKind::Line));
        };
        if !device.is_due() {
            return Err(Stop::at(text, FaultKind::Range));
        }
        if has_device(before, device.address) {
            return Err(Stop::at(text, FaultKind::Twice));
        }
        Ok((device, rest))
    }
}

/// Learned routes by one of so many ports.
#[derive(Clone, Copy)]
pub(crate) struct RouteLines {
    /// How many ports there are.
    pub ports: usize,
}

impl ItemLines for RouteLines {
    type Item = (NetNum, Route);

    ghost lines = { λ kind item. route_line item };

    fn put(&self, out: &mut Vec<u8>, item: &(NetNum, Route)) -> Result<(), AllocError> {
        let (network, route) = *item;
        put_route(out, network, route)
    }
}

impl Block for RouteLines {
    type Item = (NetNum, Route);

    ghost line = { λ routes route. route_line route };

    ghost Fits = { λ routes before route. FitsRoutes routes.ports before route };

    ghost count = { λ routes. 512 };

    ghost opens = { λ routes. codes "route " };

    ghost reads = { λ routes before text. route_after routes.ports before text };

    fn word(&self) -> &'static [u8] {
        b"route "
    }

    fn most(&self) -> usize {
        MAX_ROUTES
    }

    #[tactic(auto, unfolding(crate::specs::Reading::route_after))]
    fn read<'a>(
        &self,
        _alloc: Global,
        before: &[(NetNum, Route)],
        text: &'a [u8],
    ) -> Result<((NetNum, Route), &'a [u8]), Stop> {
        let (network, route, rest) = match route_at(text) {
            Some(read) => read,
            None => return Err(Stop::at(text, FaultKind::Line)),
        };
        if route.port == 0 || self.ports < usize::from(route.port) {
            return Err(Stop::at(text, FaultKind::Range));
        }
        if has_route(before, network) {
            return Err(Stop::at(text, FaultKind::Twice));
        }
        Ok(((network, route), rest))
    }
}
