//! Which parts of a configuration beside its rules differ from those of a gateway that runs.

ghost use Rattle.std.specs.Prelude.{◌≡◌, IfOk};
ghost use Rattle.std.specs.Cmp.Lexicographic.{pointwise};
ghost use Rattle.gw_notices.specs.rule_changes.Changes.{same_truth};
ghost use Rattle.gw_service.specs.Reload.{differing, same_manager, same_neighbours, same_peers, same_subnet};
ghost use Rattle.gw_state.specs.Carried.{same_entry};

use gw_addr::{BdtEntry, BipAddr};
use gw_configuration::{Config, Port, Subnet};
use gw_core::Gateway;
use gw_notices::{ConfigurationPart, push_unless};
use gw_relay::PortState;
use gw_state::{Saved, SavedPort};
use gw_watchers::files::is_same_format;
use std::alloc::{AllocError, Global};

/// Whether both are true, or neither is.
fn same_truth(a: bool, b: bool) -> bool
    ensures { result ≡ same_truth a b }
{
    if a { b } else { !b }
}

/// Whether two subnets have the same addresses.
fn same_subnet(a: Subnet, b: Subnet) -> bool
    ensures { result ≡ same_subnet a b }
{
    let (keys, others) = (a.keys(), b.keys());
    keys.low == others.low && keys.high == others.high
}

/// Whether these are the same subnets in the same order.
fn same_stations(a: &[Subnet], b: &[Subnet]) -> bool
    ensures { result ≡ pointwise same_subnet a.now b.now }
{
    if a.len() != b.len() {
        return false;
    }
    for (place, subnet) in a.iter().enumerate() {
        if !same_subnet(*subnet, b[place]) {
            return false;
        }
    }
    true
}

/// Whether neither port has another broadcast manager beside it, or both have the same.
fn same_manager(a: Option<BipAddr>, b: Option<BipAddr>) -> bool
    ensures { result ≡ same_manager a b }
{
    match (a, b) {
        (None, None) => true,
        (Some(one), Some(two)) => one == two,
        _ => false,
    }
}

/// Whether a port has the stations and the broadcast manager beside it that another one is configured with.
fn same_neighbours(state: &PortState, port: &Port) -> bool
    ensures { result ≡ same_neighbours state.now port.now }
{
    same_stations(state.stations.as_slice(), port.stations.as_slice())
        && same_manager(state.port.bbmd, port.bbmd)
}

/// Whether ports have the stations and the broadcast managers that these are configured with.
fn have_same_neighbours(states: &[PortState], ports: &[Port]) -> bool
    ensures { result ≡ pointwise same_neighbours states.now ports.now }
{
    if states.len() != ports.len() {
        return false;
    }
    for (place, state) in states.iter().enumerate() {
        if !same_neighbours(state, &ports[place]) {
            return false;
        }
    }
    true
}

/// Whether two entries of a table of peers are one.
fn same_entry(a: BdtEntry, b: BdtEntry) -> bool
    ensures { result ≡ same_entry a b }
{
    a.address == b.address && a.mask == b.mask
}

/// Whether these are the same entries in the same order.
fn same_entries(a: &[BdtEntry], b: &[BdtEntry]) -> bool
    ensures { result ≡ pointwise same_entry a.now b.now }
{
    if a.len() != b.len() {
        return false;
    }
    for (place, entry) in a.iter().enumerate() {
        if !same_entry(*entry, b[place]) {
            return false;
        }
    }
    true
}

/// Whether of ports that were saved these peers were configured.
fn have_same_peers(saved: &[SavedPort], ports: &[Port]) -> bool
    ensures { result ≡ pointwise same_peers saved.now ports.now }
{
    if saved.len() != ports.len() {
        return false;
    }
    for (place, port) in saved.iter().enumerate() {
        if !same_entries(port.peers.as_slice(), ports[place].peers.as_slice()) {
            return false;
        }
    }
    true
}

/// The parts in which a configuration differs from that of a gateway, of which this is saved: the format, whether it announces
/// networks, and the ports' stations, peers and broadcast managers. The only fault is want of memory.
pub(crate) fn differing(
    alloc: Global,
    gateway: &Gateway,
    saved: &Saved,
    config: &Config,
) -> Result<Vec<ConfigurationPart>, AllocError>
    ensures { IfOk result (λ parts. parts.items ≡ differing gateway.now saved.now config.now) }
{
    let relay = gateway.relay();
    let ports = config.ports();
    let is_format = is_same_format(relay.format(), config.format());
    let is_announced = same_truth(relay.announces(), config.announces());
    let are_ports = have_same_neighbours(relay.ports(), ports)
        && have_same_peers(saved.ports(), ports);
    let mut parts = Vec::new(alloc);
    push_unless(&mut parts, is_format, ConfigurationPart::Format)?;
    push_unless(&mut parts, is_announced, ConfigurationPart::Announce)?;
    push_unless(&mut parts, are_ports, ConfigurationPart::Ports)?;
    Ok(parts)
}
