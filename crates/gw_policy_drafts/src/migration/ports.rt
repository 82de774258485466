//! The ports and the routes of a configuration, as they are written.

ghost use Rattle.std.specs.Prelude.{◌≡◌, ◌++◌, OnOk};
ghost use Rattle.std.specs.List.{flat_map};
ghost use Rattle.gw_policy_drafts.specs.migration.Ports.{peer_table, port_head, port_table};

use crate::migration::advice::{put_route_note, put_stations_note};
use crate::migration::lines::{put_address, put_number};
use gw_addr::{BdtEntry, Mask};
use gw_configuration::{Port, Route};
use std::alloc::AllocError;

/// Appends the tables of the ports, each with the stations that are proposed for it.
pub(crate) fn put_ports(out: &mut Vec<u8>, ports: &[Port]) -> Result<(), AllocError>
    ensures { OnOk result (out.new.items ≡ out.old.items ++ flat_map port_table ports.now) }
{
    for port in ports {
        put_port(out, port)?;
    }
    Ok(())
}

fn put_port(out: &mut Vec<u8>, port: &Port) -> Result<(), AllocError>
    ensures { OnOk result (out.new.items ≡ out.old.items ++ port_table port.now) }
{
    put_port_head(out, port)?;
    put_stations_note(out, port)?;
    put_peers(out, port.peers.as_slice())
}

/// Appends the head of the table of a port.
#[tactic(auto, unfolding(crate::specs::migration::Ports::port_head))]
pub(crate) fn put_port_head(out: &mut Vec<u8>, port: &Port) -> Result<(), AllocError>
    ensures { OnOk result (out.new.items ≡ out.old.items ++ port_head port.now) }
{
    out.extend_from_slice(b"\n[[port]]\n")?;
    put_number(out, "network", u64::from(port.network.get()))?;
    put_address(out, "address", port.address)?;
    put_address(out, "broadcast", port.broadcast)
}

/// Appends the tables of the peers of a port.
pub(crate) fn put_peers(out: &mut Vec<u8>, peers: &[BdtEntry]) -> Result<(), AllocError>
    ensures { OnOk result (out.new.items ≡ out.old.items ++ flat_map peer_table peers.now) }
{
    for peer in peers {
        put_peer(out, *peer)?;
    }
    Ok(())
}

#[tactic(auto, unfolding(crate::specs::migration::Ports::peer_table))]
fn put_peer(out: &mut Vec<u8>, peer: BdtEntry) -> Result<(), AllocError>
    ensures { OnOk result (out.new.items ≡ out.old.items ++ peer_table peer) }
{
    out.extend_from_slice(b"[[port.peer]]\n")?;
    put_address(out, "address", peer.address)?;
    out.extend_from_slice(b"mask = \"")?;
    let octets = peer.mask;
    Mask { octets }.put_text(out)?;
    out.extend_from_slice(b"\"\n")
}

/// Appends the tables of the routes.
pub(crate) fn put_routes(out: &mut Vec<u8>, routes: &[Route]) -> Result<(), AllocError> {
    for route in routes {
        put_route(out, route)?;
    }
    Ok(())
}

fn put_route(out: &mut Vec<u8>, route: &Route) -> Result<(), AllocError> {
    out.extend_from_slice(b"\n[[route]]\n")?;
    put_route_note(out, route)?;
    put_number(out, "network", u64::from(route.network.get()))?;
    put_number(out, "port", u64::from(route.port))?;
    put_address(out, "next", route.next)
}
