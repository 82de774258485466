//! Warnings of ports and their peers.
ghost use Rattle.std.specs.Prelude.{◌≡◌, ◌==◌, position};
ghost use Rattle.gw_addr.specs.Appending.{IsAppended};
ghost use Rattle.gw_configuration.specs.Duplicates.{key};
ghost use Rattle.gw_script.specs.Order.{in_order};
ghost use Rattle.gw_policy_review.specs.warnings.Warnings.{broadcast_lines, has_low_port, has_zero_port, other_than, own_lines, owner};
ghost use Rattle.gw_policy_review.specs.warnings.Warnings.{peer_lines, port_lines, unusual_lines};

use crate::warnings::oddity::{Oddity, put_mask, put_owned, put_where};
use crate::warnings::spot::Spot;
use crate::warnings::subnet::{is_limited, is_multicast, is_off_subnet};
use gw_addr::{BdtEntry, BipAddr};
use gw_configuration::Port;
use std::alloc::AllocError;

/// A port of a gateway by its position, from 0, among all its ports.
#[derive(Clone, Copy)]
pub(crate) struct PlacedPort<'a> {
    /// All ports.
    pub ports: &'a [Port],
    /// The position.
    pub place: usize,
    /// The port.
    pub port: &'a Port,
}

/// The least UDP port that isn't one of the system's services.
const LEAST_USUAL: u16 = 1024;

/// Whether two addresses are one, with its UDP port.
pub(crate) fn is_same(a: BipAddr, b: BipAddr) -> bool
    ensures { result ≡ (key a == key b) }
{
    a.key48() == b.key48()
}

fn has_zero_port(address: BipAddr) -> bool
    ensures { result ≡ has_zero_port address }
{
    address.udp == 0
}

/// Whether the UDP port is one of the system's services.
fn has_low_port(address: BipAddr) -> bool
    ensures { result ≡ has_low_port address }
{
    0 < address.udp && address.udp < LEAST_USUAL
}

/// Appends the lines of an address at which no BACnet/IP device is.
pub(crate) fn put_unusual(out: &mut Vec<u8>, spot: Spot, address: BipAddr) -> Result<(), AllocError>
    ensures { IsAppended (unusual_lines spot address) out.old out.new result }
{
    put_where(out, has_low_port(address), spot, address, Oddity::LowPort)?;
    put_where(out, is_multicast(address), spot, address, Oddity::Multicast)
}

/// The position of the port whose own address it is.
pub(crate) fn owner(ports: &[Port], address: BipAddr) -> Option<usize>
    ensures { result ≡ owner ports.now address }
{
    ports.iter().position(|port| is_same(port.address, address))
}

/// The position, unless it is this one.
fn other_than(place: usize, found: Option<usize>) -> Option<usize>
    ensures { result ≡ other_than place found }
{
    match found {
        Some(other) if other != place => Some(other),
        _ => None,
    }
}

/// Appends the lines of the ports in their order.
pub(crate) fn put_ports(out: &mut Vec<u8>, ports: &[Port]) -> Result<(), AllocError>
    ensures { IsAppended (in_order (port_lines ports.now) 0 ports.now) out.old out.new result }
{
    for (place, port) in ports.iter().enumerate() {
        put_port(out, &PlacedPort { ports, place, port })?;
    }
    Ok(())
}

/// Appends the lines of a port, and then those of its peers.
fn put_port(out: &mut Vec<u8>, at: &PlacedPort<'_>) -> Result<(), AllocError>
    ensures { IsAppended (port_lines at.now.ports.now at.now.place at.now.port.now) out.old out.new result }
{
    put_own(out, at.place, at.port)?;
    put_broadcast(out, at.place, at.port)?;
    put_peers(out, at, at.port.peers.as_slice())
}

fn put_own(out: &mut Vec<u8>, place: usize, port: &Port) -> Result<(), AllocError>
    ensures { IsAppended (own_lines place port.now) out.old out.new result }
{
    let own = port.address;
    let spot = Spot::Address(place);
    put_where(out, has_zero_port(own), spot, own, Oddity::ZeroPort)?;
    put_unusual(out, spot, own)
}

fn put_broadcast(out: &mut Vec<u8>, place: usize, port: &Port) -> Result<(), AllocError>
    ensures { IsAppended (broadcast_lines place port.now) out.old out.new result }
{
    let own = port.address;
    let broadcast = port.broadcast;
    let spot = Spot::Broadcast(place);
    let other_port = broadcast.udp != own.udp;
    let off = is_off_subnet(own, broadcast);
    put_where(
        out,
        is_multicast(broadcast),
        spot,
        broadcast,
        Oddity::Multicast,
    )?;
    put_where(out, other_port, spot, broadcast, Oddity::OtherPort(own))?;
    put_where(out, off, spot, broadcast, Oddity::OffSubnet(own))?;
    put_where(out, is_limited(broadcast), spot, broadcast, Oddity::Limited)
}

/// Appends the lines of these peers of a port in their order.
fn put_peers(out: &mut Vec<u8>, at: &PlacedPort<'_>, peers: &[BdtEntry]) -> Result<(), AllocError>
    ensures { IsAppended
        (in_order (peer_lines at.now.ports.now at.now.place at.now.port.now) 0 peers.now) out.old out.new result }
{
    for (index, peer) in peers.iter().enumerate() {
        put_peer(out, at, index, peer)?;
    }
    Ok(())
}

fn put_peer(
    out: &mut Vec<u8>,
    at: &PlacedPort<'_>,
    index: usize,
    peer: &BdtEntry,
) -> Result<(), AllocError>
    ensures { IsAppended
        (peer_lines at.now.ports.now at.now.place at.now.port.now index peer.now) out.old out.new result }
{
    let address = peer.address;
    let spot = Spot::PeerAddress {
        port: at.place,
        peer: index,
    };
    let broadcasts = is_same(address, at.port.broadcast);
    let owner = other_than(at.place, owner(at.ports, address));
    put_unusual(out, spot, address)?;
    put_where(
        out,
        broadcasts,
        spot,
        address,
        Oddity::IsBroadcast(at.place),
    )?;
    put_owned(out, spot, address, owner)?;
    put_mask(
        out,
        Spot::PeerMask {
            port: at.place,
            peer: index,
        },
        peer.mask,
    )
}
