//! The configuration that is read again while the gateway runs: whether it is taken over, and by what the gateway goes on.

ghost use Rattle.std.specs.Prelude.{◌≡◌, IfErr, IfOk, true};
ghost use Rattle.std.specs.Cmp.Lexicographic.{pointwise};
ghost use Rattle.gw_core.specs.Resumed.{saved_of};
ghost use Rattle.gw_state.specs.Saved.{origin_of};
ghost use Rattle.gw_service.specs.Keeping.{IsSuccessor};
ghost use Rattle.gw_service.specs.Reload.{IsAdopted, IsPortsOrMemory, IsRefused, IsReloaded, have_same_ports, same_port, taken_over_line};
ghost use Rattle.gw_system.specs.Requests.{text_found};

use crate::differing::differing;
use crate::edition::Edition;
use crate::successor::Successor;
use gw_configuration::{Config, Port};
use gw_core::Gateway;
use gw_notices::{Checksum, ReloadFault, reload_line};
use gw_relay::PortState;
use gw_state::{Origin, Saved};
use gw_system::{Obstacle, ReadFailure};
use std::alloc::{AllocError, Global};

/// Whether a port has the network and the addresses that another one is configured with.
fn same_port(state: &PortState, port: &Port) -> bool
    ensures { result ≡ same_port state.now port.now }
{
    state.port.network == port.network
        && state.port.address == port.address
        && state.port.broadcast == port.broadcast
}

/// Whether the ports that are served are those of a configuration, in the same order.
fn have_same_ports(states: &[PortState], ports: &[Port]) -> bool
    ensures { result ≡ have_same_ports states.now ports.now }
{
    if states.len() != ports.len() {
        return false;
    }
    for (place, state) in states.iter().enumerate() {
        if !same_port(state, &ports[place]) {
            return false;
        }
    }
    true
}

/// By what a gateway goes on: the gateway, what is configured of it, the checksum of its configuration's text, what is made for the
/// keeper of its state and what watches it, and the line that is reported.
#[derive(Drop)]
pub struct Adopted {
    /// The gateway.
    pub gateway: Gateway,
    /// What is configured of what can be written.
    pub origin: Origin,
    /// The checksum of its configuration's text.
    pub checksum: Checksum,
    /// What is made for what keeps its state and watches it.
    pub successor: Successor,
    /// The line.
    pub line: Vec<u8>,
}

/// What is made of a configuration before the gateway that goes on by it.
#[derive(Drop)]
struct Prepared {
    saved: Saved,
    origin: Origin,
    successor: Successor,
    line: Vec<u8>,
}

/// Saves a gateway, and makes what is needed to go on by another configuration.
fn prepare(
    alloc: Global,
    gateway: &Gateway,
    origin: &Origin,
    config: &Config,
) -> Result<Prepared, AllocError>
    ensures saved { IfOk result (λ made. made.saved ≡ saved_of origin.now gateway.now) }
    ensures origin { IfOk result (λ made. made.origin ≡ origin_of config.now) }
    ensures successor { IfOk result (λ made. IsSuccessor config.now made.successor) }
    ensures line { IfOk result
        (λ made. made.line.items ≡ taken_over_line gateway.now config.now (saved_of origin.now gateway.now)) }
{
    let saved = gateway.save(alloc, origin)?;
    let differ = differing(alloc, gateway, &saved, config)?;
    let line = reload_line(alloc, gateway.rules(), config, &saved, &differ)?;
    let origin = Origin::of(alloc, config)?;
    let successor = Successor::of(alloc, config)?;
    Ok(Prepared {
        saved,
        origin,
        successor,
        line,
    })
}

/// A gateway of another configuration that goes on from what is saved of this one. The only fault is want of memory.
fn adopt(
    alloc: Global,
    gateway: &Gateway,
    origin: &Origin,
    edition: Edition,
) -> Result<Adopted, AllocError>
    ensures { IfOk result (IsAdopted gateway.now origin.now edition) }
{
    let Edition { config, checksum } = edition;
    let Prepared {
        saved,
        origin,
        successor,
        line,
    } = prepare(alloc, gateway, origin, &config)?;
    let gateway = Gateway::resume(alloc, config, &saved)?;
    Ok(Adopted {
        gateway,
        origin,
        checksum,
        successor,
        line,
    })
}

/// A gateway of this configuration that goes on from what is saved of this one, if it has the same ports.
fn adopt_ports(
    alloc: Global,
    gateway: &Gateway,
    origin: &Origin,
    edition: Edition,
) -> Result<Adopted, ReloadFault>
    ensures adopted { IfOk result (IsAdopted gateway.now origin.now edition) }
    ensures same { IfOk result (λ _. have_same_ports gateway.now.relay.ports edition.config.ports ≡ true) }
    ensures fault { IfErr result (IsPortsOrMemory gateway.now edition.config) }
{
    if !have_same_ports(gateway.relay().ports(), edition.config.ports()) {
        return Err(ReloadFault::Ports);
    }
    Ok(adopt(alloc, gateway, origin, edition)?)
}

/// What becomes of what was read again: the gateway of its configuration with what is saved of this one, or why this
/// one goes on. Both gateways are there for a moment; this one is only read.
pub fn reloaded(
    alloc: Global,
    gateway: &Gateway,
    origin: &Origin,
    read: &Result<Option<Vec<u8>>, ReadFailure>,
) -> Result<Adopted, ReloadFault>
    ensures adopted { IfOk result (IsReloaded gateway.now origin.now (text_found read.now)) }
    ensures fault { IfErr result (IsRefused gateway.now (text_found read.now)) }
{
    match read {
        Ok(Some(text)) => adopt_ports(alloc, gateway, origin, Edition::of(alloc, text)?),
        Ok(None) => Err(ReloadFault::Unreadable(Obstacle::Absent)),
        Err(failure) => Err(ReloadFault::from(*failure)),
    }
}
