//! What the stations of ports surely lack.
ghost use Rattle.std.specs.Prelude.{◌≡◌, ◌-◌, ◌++◌, ◌≤◌, length, position, take, OnOk};
ghost use Rattle.std.specs.List.{list_all, list_any};
ghost use Rattle.gw_ask_sets.specs.shapes.Meeting.{overlaps};
ghost use Rattle.gw_configuration.specs.Subnet.{keys_of, subnet_holds};
ghost use Rattle.gw_script.specs.Order.{in_order};
ghost use Rattle.gw_policy_review.specs.warnings.Oversights.{apart_line, apart_lines, enter_ask, first_address, has_stations, is_accounted};
ghost use Rattle.gw_policy_review.specs.warnings.Oversights.{is_apart, is_left_out, is_near, is_station, is_unheard, overlap_line};
ghost use Rattle.gw_policy_review.specs.warnings.Oversights.{overlap_lines, port_oversights, shares_with, hostless_line, hostless_lines};
ghost use Rattle.gw_policy_review.specs.warnings.Oversights.{hostless_words, is_hostless, overlap_words, unheard_line, unheard_lines};

use crate::warnings::port_warnings::is_same;
use crate::warnings::subnet::has_beside;
use gw_addr::{BdtEntry, BipAddr, put_decimal, put_slice, put_text_number};
use gw_ask_sets::ask_text::address_of;
use gw_ask_sets::shapes::overlaps;
use gw_configuration::{Config, Port, Subnet};
use gw_rules::{Ask, Operation, Range, RuleList};
use std::alloc::AllocError;

fn has_stations(port: &Port) -> bool
    ensures { result ≡ has_stations port.now }
{
    !port.stations.as_slice().is_empty()
}

/// Whether a subnet of the port's stations has the address.
pub fn is_station(port: &Port, address: BipAddr) -> bool
    ensures { result ≡ is_station port.now address }
{
    port.stations
        .as_slice()
        .iter()
        .any(|subnet| subnet.holds(address))
}

fn first_address(subnet: Subnet) -> BipAddr
    ensures { result ≡ first_address subnet }
{
    address_of(subnet.keys().low)
}

/// Whether a subnet has the port's own address, or begins in a subnet on which the port may be.
pub(crate) fn is_near(port: &Port, subnet: Subnet) -> bool
    ensures { result ≡ is_near port.now subnet }
{
    subnet.holds(port.address) || has_beside(port.address, port.broadcast, first_address(subnet))
}

fn has_peer(peers: &[BdtEntry], subnet: Subnet) -> bool
    ensures { result ≡ list_any (λ peer. subnet_holds subnet peer.address) peers.now }
{
    peers.iter().any(|peer| subnet.holds(peer.address))
}

/// Whether a subnet is near, or has a peer of the port.
fn is_accounted(port: &Port, subnet: Subnet) -> bool
    ensures { result ≡ is_accounted port.now subnet }
{
    is_near(port, subnet) || has_peer(port.peers.as_slice(), subnet)
}

fn has_accounted(port: &Port, stations: &[Subnet]) -> bool
    ensures { result ≡ list_any (is_accounted port.now) stations.now }
{
    stations.iter().any(|subnet| is_accounted(port, *subnet))
}

fn are_accounted(port: &Port, stations: &[Subnet]) -> bool
    ensures { result ≡ list_all (is_accounted port.now) stations.now }
{
    stations.iter().all(|subnet| is_accounted(port, *subnet))
}

/// Whether all stations of the port are elsewhere, and nobody is beside it to pass on to them what it broadcasts.
fn is_apart(port: &Port) -> bool
    ensures { result ≡ is_apart port.now }
{
    has_stations(port) && port.bbmd.is_none() && !has_accounted(port, port.stations.as_slice())
}

/// A port of a configuration, by its number, from 1.
#[derive(Clone, Copy)]
struct Numbered<'a> {
    /// The configuration.
    config: &'a Config,
    /// The number.
    number: usize,
    /// The port.
    port: &'a Port,
}

/// Appends what the ports of a configuration lack, in their order.
pub(crate) fn put_ports(out: &mut Vec<u8>, config: &Config) -> Result<(), AllocError>
    ensures { OnOk result (out.new.items ≡ out.old.items ++ in_order (port_oversights config.now) 1 config.now.ports) }
{
    let ports = config.ports();
    for place in 0..ports.len() {
        put_port(out, config, place + 1, &ports[place])?;
    }
    Ok(())
}

/// Appends what the port of this number lacks.
fn put_port(
    out: &mut Vec<u8>,
    config: &Config,
    number: usize,
    port: &Port,
) -> Result<(), AllocError>
    ensures { OnOk result (out.new.items ≡ out.old.items ++ port_oversights config.now number port.now) }
{
    let numbered = Numbered {
        config,
        number,
        port,
    };
    put_apart(out, number, port)?;
    put_overlaps(out, &numbered, port.stations.as_slice())?;
    put_hostless(out, number, port.stations.as_slice())?;
    put_peers(out, &numbered, port.peers.as_slice())
}

fn put_apart(out: &mut Vec<u8>, number: usize, port: &Port) -> Result<(), AllocError>
    ensures { OnOk result (out.new.items ≡ out.old.items ++ apart_lines number port.now) }
{
    if is_apart(port) {
        put_apart_line(out, number, port)
    } else {
        Ok(())
    }
}

fn put_apart_line(out: &mut Vec<u8>, number: usize, port: &Port) -> Result<(), AllocError>
    ensures { OnOk result (out.new.items ≡ out.old.items ++ apart_line number port.now) }
{
    put_text_number(out, "warning: port ", number)?;
    out.extend_from_slice(b": address: ")?;
    port.address.put_text(out)?;
    put_slice(out, b" is on no subnet of the port's stations\n")
}

// ---- stations of two ports

fn overlaps_any(keys: &Range, stations: &[Subnet]) -> bool
    ensures { result ≡ list_any (λ its. overlaps keys.now (keys_of its)) stations.now }
{
    stations.iter().any(|its| overlaps(keys, &its.keys()))
}

/// Whether another port of the same UDP port has addresses of a subnet among its stations.
fn shares_with(port: &Port, subnet: Subnet, other: &Port) -> bool
    ensures { result ≡ shares_with port.now subnet other.now }
{
    port.address.udp == other.address.udp && overlaps_any(&subnet.keys(), other.stations.as_slice())
}

fn first_sharing(ports: &[Port], port: &Port, subnet: Subnet) -> Option<usize>
    ensures { result ≡ position (shares_with port.now subnet) ports.now }
{
    ports
        .iter()
        .position(|other| shares_with(port, subnet, other))
}

/// Appends a line for each of these subnets of a port's stations that overlaps with those of a port before it.
fn put_overlaps(
    out: &mut Vec<u8>,
    numbered: &Numbered<'_>,
    stations: &[Subnet],
) -> Result<(), AllocError>
    requires { length stations.now ≤ 16 }
    ensures { OnOk result (out.new.items ≡ out.old.items
        ++ in_order (overlap_lines numbered.now.config.now.ports numbered.now.number numbered.now.port.now) 1 stations.now) }
{
    for place in 0..stations.len() {
        put_overlap(out, numbered, place + 1, stations[place])?;
    }
    Ok(())
}

fn put_overlap(
    out: &mut Vec<u8>,
    numbered: &Numbered<'_>,
    item: usize,
    subnet: Subnet,
) -> Result<(), AllocError>
    ensures { OnOk result (out.new.items ≡ out.old.items
        ++ overlap_lines numbered.now.config.now.ports numbered.now.number numbered.now.port.now item subnet) }
{
    let ports = numbered.config.ports();
    let before = numbered.number.saturating_sub(1).min(ports.len());
    match first_sharing(&ports[..before], numbered.port, subnet) {
        Some(place) => put_overlap_line(out, numbered.number, item, subnet, place as u128 + 1),
        None => Ok(()),
    }
}

fn put_overlap_line(
    out: &mut Vec<u8>,
    number: usize,
    item: usize,
    subnet: Subnet,
    other: u128,
) -> Result<(), AllocError>
    ensures { OnOk result (out.new.items ≡ out.old.items ++ overlap_line number item subnet other) }
{
    put_text_number(out, "warning: port ", number)?;
    put_text_number(out, ": stations: item ", item)?;
    out.extend_from_slice(b": ")?;
    put_overlap_words(out, subnet, other)
}

fn put_overlap_words(out: &mut Vec<u8>, subnet: Subnet, other: u128) -> Result<(), AllocError>
    ensures { OnOk result (out.new.items ≡ out.old.items ++ overlap_words subnet other) }
{
    let text = subnet.to_string(*out.allocator())?;
    out.extend_from_slice(text.as_bytes())?;
    out.extend_from_slice(b" overlaps with those of port ")?;
    put_decimal(out, other)?;
    put_slice(out, b"\n")
}

// ---- stations that nobody is

/// The keys of the addresses that no host has: this network, the loopback of a host, and groups with what is reserved above them.
const HOSTLESS: [Range; 3] = [
    Range {
        low: 0,
        high: 0x00FF_FFFF_FFFF,
    },
    Range {
        low: 0x7F00_0000_0000,
        high: 0x7FFF_FFFF_FFFF,
    },
    Range {
        low: 0xE000_0000_0000,
        high: 0xFFFF_FFFF_FFFF,
    },
];

/// Whether a subnet of stations has such addresses.
fn is_hostless(subnet: Subnet) -> bool
    ensures { result ≡ is_hostless subnet }
{
    let keys = subnet.keys();
    HOSTLESS.iter().any(|block| overlaps(&keys, block))
}

/// Appends a line for each of these subnets of a port's stations that has addresses of no host.
fn put_hostless(out: &mut Vec<u8>, number: usize, stations: &[Subnet]) -> Result<(), AllocError>
    requires { length stations.now ≤ 16 }
    ensures { OnOk result (out.new.items ≡ out.old.items ++ in_order (hostless_lines number) 1 stations.now) }
{
    for place in 0..stations.len() {
        put_hostless_item(out, number, place + 1, stations[place])?;
    }
    Ok(())
}

fn put_hostless_item(
    out: &mut Vec<u8>,
    number: usize,
    item: usize,
    subnet: Subnet,
) -> Result<(), AllocError>
    ensures { OnOk result (out.new.items ≡ out.old.items ++ hostless_lines number item subnet) }
{
    if is_hostless(subnet) {
        put_hostless_line(out, number, item, subnet)
    } else {
        Ok(())
    }
}

fn put_hostless_line(
    out: &mut Vec<u8>,
    number: usize,
    item: usize,
    subnet: Subnet,
) -> Result<(), AllocError>
    ensures { OnOk result (out.new.items ≡ out.old.items ++ hostless_line number item subnet) }
{
    put_text_number(out, "warning: port ", number)?;
    put_text_number(out, ": stations: item ", item)?;
    out.extend_from_slice(b": ")?;
    put_hostless_words(out, subnet)
}

fn put_hostless_words(out: &mut Vec<u8>, subnet: Subnet) -> Result<(), AllocError>
    ensures { OnOk result (out.new.items ≡ out.old.items ++ hostless_words subnet) }
{
    let text = subnet.to_string(*out.allocator())?;
    out.extend_from_slice(text.as_bytes())?;
    put_slice(
        out,
        b" has addresses of no host: some of 0.0.0.0/8, 127.0.0.0/8 or 224.0.0.0/3\n",
    )
}

// ---- peers that aren't heard

/// The ask of a message of a peer itself that enters by the port of this number.
fn enter_ask(number: usize, port: &Port, peer: BipAddr) -> Ask
    ensures { result ≡ enter_ask number port.now peer }
{
    let key = peer.key48();
    Ask {
        port: Some(number as u64),
        source_network: Some(u64::from(port.network.get())),
        source_key: Some(key),
        sender: Some(key),
        ..Ask::new(Operation::Enter)
    }
}

/// Whether the port names stations, of which neither the peer is one nor anybody who might be beside it.
fn is_left_out(port: &Port, peer: BipAddr) -> bool
    ensures { result ≡ is_left_out port.now peer }
{
    has_stations(port)
        && !is_same(peer, port.address)
        && !is_station(port, peer)
        && are_accounted(port, port.stations.as_slice())
}

/// Whether a peer is left out, and no rule lets it enter.
fn is_unheard(rules: &RuleList, number: usize, port: &Port, peer: BipAddr) -> bool
    ensures { result ≡ is_unheard rules.now number port.now peer }
{
    is_left_out(port, peer) && !rules.allows(&enter_ask(number, port, peer))
}

/// Appends a line for each of these peers of a port that isn't heard.
fn put_peers(
    out: &mut Vec<u8>,
    numbered: &Numbered<'_>,
    peers: &[BdtEntry],
) -> Result<(), AllocError>
    requires { length peers.now ≤ 64 }
    ensures { OnOk result (out.new.items ≡ out.old.items
        ++ in_order (unheard_lines numbered.now.config.now.rules numbered.now.number numbered.now.port.now) 1 peers.now) }
{
    for place in 0..peers.len() {
        put_peer(out, numbered, place + 1, &peers[place])?;
    }
    Ok(())
}

fn put_peer(
    out: &mut Vec<u8>,
    numbered: &Numbered<'_>,
    item: usize,
    peer: &BdtEntry,
) -> Result<(), AllocError>
    ensures { OnOk result (out.new.items ≡ out.old.items
        ++ unheard_lines numbered.now.config.now.rules numbered.now.number numbered.now.port.now item peer.now) }
{
    let number = numbered.number;
    if is_unheard(numbered.config.rules(), number, numbered.port, peer.address) {
        put_unheard_line(out, number, item, peer.address)
    } else {
        Ok(())
    }
}

fn put_unheard_line(
    out: &mut Vec<u8>,
    number: usize,
    item: usize,
    peer: BipAddr,
) -> Result<(), AllocError>
    ensures { OnOk result (out.new.items ≡ out.old.items ++ unheard_line number item peer) }
{
    put_text_number(out, "warning: port ", number)?;
    put_text_number(out, ": peer ", item)?;
    out.extend_from_slice(b": address: ")?;
    peer.put_text(out)?;
    put_slice(
        out,
        b" is no station of the port, nor is a subnet for it, and no rule lets it enter: what it passes on is a stranger's\n",
    )
}
