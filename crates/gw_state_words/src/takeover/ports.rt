//! What is found of ports.
ghost use Rattle.std.specs.Prelude.{◌≡◌, ◌≤◌, ◌++◌, length, option_copied, OnOk};
ghost use Rattle.gw_addr.specs.declared.TheConstants.{MAX_PORTS};
ghost use Rattle.gw_state_words.specs.takeover.Findings.{device_count, devices_kept, devices_of, port_finding, port_findings, sizes_of};
ghost use Rattle.gw_state_words.specs.takeover.Findings.{table_fate};

use crate::takeover::{PortName, Sizes, TableFate, TakeoverFinding};
use gw_configuration::Port;
use gw_state::{SavedPort, are_same, port_saved};
use std::alloc::AllocError;

/// Adds what is found of the configured ports, in order.
pub(crate) fn add_ports(
    found: &mut Vec<TakeoverFinding>,
    ports: &[Port],
    saved: &[SavedPort],
) -> Result<(), AllocError>
    ensures { OnOk result (found.new.items ≡ found.old.items ++ port_findings 1 ports.now saved.now) }
{
    for (place, port) in ports.iter().enumerate() {
        found.push(port_finding(place + 1, port, port_saved(saved, port)))?;
    }
    Ok(())
}

/// What is found of the configured port of this number, which was saved or not.
fn port_finding(number: usize, port: &Port, saved: Option<&SavedPort>) -> TakeoverFinding
    ensures { result ≡ port_finding number port.now (option_copied saved.entry) }
{
    let name = PortName::new(port.network, port.address);
    match saved {
        Some(saved) => TakeoverFinding::Port {
            number,
            port: name,
            sizes: sizes_of(saved),
            table: table_fate(port, saved),
        },
        None => TakeoverFinding::NewPort { number, port: name },
    }
}

/// How much is in the tables of a port.
pub(crate) fn sizes_of(saved: &SavedPort) -> Sizes
    ensures { result ≡ sizes_of saved.now }
{
    Sizes {
        peers: saved.entries.entries().len(),
        devices: saved.devices.as_slice().len(),
    }
}

/// What a configured port that was saved takes over of its table of peers.
fn table_fate(port: &Port, saved: &SavedPort) -> TableFate
    ensures { result ≡ table_fate port.now saved.now }
{
    if port.bbmd.is_some() {
        return TableFate::OtherManager;
    }
    let configured = port.peers.as_slice();
    if are_same(saved.entries.entries(), configured) {
        return TableFate::AsConfigured;
    }
    if are_same(saved.peers.as_slice(), configured) {
        return TableFate::TakenOver;
    }
    if are_same(saved.entries.entries(), saved.peers.as_slice()) {
        return TableFate::AsConfigured;
    }
    TableFate::OtherPeers
}

/// How many foreign devices the ports, at most 8, take over.
pub(crate) fn devices_kept(ports: &[Port], saved: &[SavedPort]) -> usize
    requires { length ports.now ≤ MAX_PORTS }
    ensures { result ≡ devices_kept ports.now saved.now }
{
    let mut devices = 0;
    for port in ports {
        devices += devices_of(port, port_saved(saved, port));
    }
    devices
}

/// How many foreign devices a port takes over, which was saved or not.
fn devices_of(port: &Port, saved: Option<&SavedPort>) -> usize
    ensures count { result ≡ devices_of port.now (option_copied saved.entry) }
    ensures few { result ≤ 128 }
{
    if port.bbmd.is_some() {
        0
    } else {
        device_count(saved)
    }
}

/// How many foreign devices were saved of a port, if it was saved.
fn device_count(saved: Option<&SavedPort>) -> usize
    ensures count { result ≡ device_count (option_copied saved.entry) }
    ensures few { result ≤ 128 }
{
    match saved {
        Some(saved) => saved.devices.as_slice().len(),
        None => 0,
    }
}
