//! Warnings of peers that may register.
ghost use Rattle.std.specs.Prelude.{◌≡◌, ◌≤◌, ◌<◌, length};
ghost use Rattle.gw_addr.specs.Appending.{IsAppended};
ghost use Rattle.gw_script.specs.Order.{in_order};
ghost use Rattle.gw_policy_review.specs.warnings.Warnings.{allowing, peers_lines, register_ask, register_line, register_lines};
ghost use Rattle.gw_policy_review.specs.warnings.Warnings.{registering_lines};

use crate::warnings::port_warnings::is_same;
use crate::warnings::spot::{Spot, put_spot};
use gw_addr::{BdtEntry, BipAddr, put_decimal, put_octet, put_slice};
use gw_configuration::Port;
use gw_rules::{Ask, Format, Operation, RuleList, Service};
use std::alloc::AllocError;

/// The BVLL function by which a foreign device registers (Annex J.2.6).
const REGISTER_FOREIGN_DEVICE: u8 = 5;

/// A port, by what a peer asks to register there.
#[derive(Clone, Copy)]
struct Registry<'a> {
    /// The format of the policy.
    format: Format,
    /// The policy.
    rules: &'a RuleList,
    /// The position of the port, from 0.
    place: usize,
    /// The port.
    port: &'a Port,
}

/// Appends a line for each peer of these ports that may register as a foreign device.
pub(crate) fn put_registering(
    out: &mut Vec<u8>,
    format: Format,
    rules: &RuleList,
    ports: &[Port],
) -> Result<(), AllocError>
    requires { length ports.now ≤ 8 }
    ensures { IsAppended
        (in_order (peers_lines format rules.now) 0 ports.now) out.old out.new result }
{
    for (place, port) in ports.iter().enumerate() {
        let registry = Registry {
            format,
            rules,
            place,
            port,
        };
        put_peers(out, &registry, port.peers.as_slice())?;
    }
    Ok(())
}

fn put_peers(
    out: &mut Vec<u8>,
    registry: &Registry<'_>,
    peers: &[BdtEntry],
) -> Result<(), AllocError>
    requires { registry.now.place < 8 }
    ensures { IsAppended
        (in_order (registering_lines registry.now.format registry.now.rules.now registry.now.place registry.now.port.now)
        0 peers.now)
        out.old out.new result }
{
    for (index, peer) in peers.iter().enumerate() {
        put_peer(out, registry, index, peer.address)?;
    }
    Ok(())
}

/// Appends the line of a peer, where it isn't the port itself and may register.
fn put_peer(
    out: &mut Vec<u8>,
    registry: &Registry<'_>,
    index: usize,
    peer: BipAddr,
) -> Result<(), AllocError>
    requires { registry.now.place < 8 }
    ensures { IsAppended
        (register_lines registry.now.format registry.now.rules.now registry.now.place
        registry.now.port.now index peer)
        out.old out.new result }
{
    if is_same(peer, registry.port.address) {
        return Ok(());
    }
    let ask = register_ask(registry.format, registry.place, registry.port, peer);
    match allowing(registry.rules, &ask) {
        Some(number) => put_line(out, registry.place, index, peer, number),
        None => Ok(()),
    }
}

/// The ask of a peer that registers at the port of this position (Annex J.5.2).
fn register_ask(format: Format, place: usize, port: &Port, peer: BipAddr) -> Ask
    requires { place < 8 }
    ensures { result ≡ register_ask format place port.now peer }
{
    let key = peer.key48();
    Ask {
        port: Some(place as u64 + 1),
        source_network: Some(u64::from(port.network.get())),
        source_key: Some(key),
        service: Some(Service::BvllFunction(REGISTER_FOREIGN_DEVICE).number()),
        sender: if format.names_stations() {
            Some(key)
        } else {
            None
        },
        ..Ask::new(Operation::Register)
    }
}

/// The number of the rule by which an ask is allowed, if it is.
fn allowing(rules: &RuleList, ask: &Ask) -> Option<u16>
    ensures { result ≡ allowing rules.now ask.now }
{
    if rules.allows(ask) {
        rules.first(ask)
    } else {
        None
    }
}

/// Appends the line of a peer that may register by the rule of this number.
fn put_line(
    out: &mut Vec<u8>,
    place: usize,
    index: usize,
    peer: BipAddr,
    number: u16,
) -> Result<(), AllocError>
    ensures { IsAppended (register_line place index peer number) out.old out.new result }
{
    put_slice(out, b"warning: ")?;
    put_spot(
        out,
        Spot::PeerAddress {
            port: place,
            peer: index,
        },
    )?;
    peer.put_text(out)?;
    put_slice(out, b" may register by rule ")?;
    put_decimal(out, number)?;
    put_slice(
        out,
        b": two that register at each other pass a broadcast on without end",
    )?;
    put_octet(out, b'\n')
}
