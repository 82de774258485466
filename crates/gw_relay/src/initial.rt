//! A relay as it is configured, and one that goes on.

ghost use Rattle.std.specs.Prelude.{◌≡◌, ◌≤◌, [], length, map, is_some, if◌then◌else◌, IsFalse, IfOk};
ghost use Rattle.std.specs.List.{AllByRecursion};
ghost use Rattle.gw_addr.specs.declared.TheConstants.{MAX_PORTS};
ghost use Rattle.gw_tables.specs.bdt_fdt.Peers.{has_twice};
ghost use Rattle.gw_tables.specs.bdt_fdt.Registrations.{emptied};
ghost use Rattle.gw_relay.specs.Initial.{first_table, port_state, port_state_with, port_states_from, port_states_with, routed_of};

use crate::port::{Port, PortState};
use gw_addr::NetNum;
use gw_configuration::{Config, Port as ConfiguredPort, Route as ConfiguredRoute};
use gw_tables::bdt_fdt::{Bdt, Fdt, PortTables};
use gw_tables::routes::{Route, Routes};
use std::alloc::{AllocError, Global};

/// The ports with the peers that they start with, where nobody is registered.
pub(crate) fn port_states(
    alloc: Global,
    ports: &[ConfiguredPort],
) -> Result<Vec<PortState>, AllocError>
    requires few { length ports.now ≤ MAX_PORTS }
    requires once { AllByRecursion (λ p. IsFalse (has_twice p.peers)) ports.now }
    ensures { IfOk result (λ states. states.items ≡ port_states_from 1 ports.now) }
{
    let mut states = Vec::new(alloc);
    for (place, port) in ports.iter().enumerate() {
        states.push(port_state(alloc, place as u8 + 1, port)?)?;
    }
    Ok(states)
}

/// A port of this number with the peers that it starts with, which are at most 64 and have no
/// address twice.
fn port_state(alloc: Global, number: u8, port: &ConfiguredPort) -> Result<PortState, AllocError>
    requires { IsFalse (has_twice port.now.peers) }
    ensures { IfOk result (λ state. state ≡ port_state number port.now) }
{
    let peers = Vec::from_slice(alloc, port.peers.as_slice())?;
    let bdt = Bdt::from_vec(peers).unwrap();
    let fdt = Fdt::new(alloc);
    port_state_with(alloc, number, port, PortTables { bdt, fdt })
}

/// The ports, each with the tables at its place.
pub(crate) fn port_states_with(
    alloc: Global,
    ports: &[ConfiguredPort],
    tables: Vec<PortTables>,
) -> Result<Vec<PortState>, AllocError>
    requires { length ports.now ≤ MAX_PORTS }
    ensures { IfOk result (λ states. states.items ≡ port_states_with 1 ports.now tables.items) }
{
    let mut states = Vec::new(alloc);
    for (port, tables) in ports.iter().zip(tables) {
        let number = states.len() as u8 + 1;
        states.push(port_state_with(alloc, number, port, tables)?)?;
    }
    Ok(states)
}

/// The tables that a port goes on with: empty ones where another broadcast manager is beside it.
fn tables_for(alloc: Global, port: &ConfiguredPort, tables: PortTables) -> PortTables
    ensures bdt { result.bdt ≡ (if is_some port.now.bbmd then [] else tables.bdt) }
    ensures fdt { result.fdt ≡ (if is_some port.now.bbmd then emptied tables.fdt else tables.fdt) }
{
    if port.bbmd.is_some() {
        tables.emptied(alloc)
    } else {
        tables
    }
}

/// A port of this number with these tables, or empty ones where another broadcast manager is beside it.
fn port_state_with(
    alloc: Global,
    number: u8,
    port: &ConfiguredPort,
    tables: PortTables,
) -> Result<PortState, AllocError>
    ensures { IfOk result (λ state. state ≡ port_state_with number port.now tables) }
{
    let stations = port.stations.copy(alloc)?;
    let (bdt, fdt) = tables_for(alloc, port, tables).into_parts();
    Ok(PortState {
        port: Port {
            number,
            network: port.network,
            address: port.address,
            broadcast: port.broadcast,
            bbmd: port.bbmd,
        },
        stations,
        bdt,
        fdt,
    })
}

/// The table of routes with which a relay of this configuration begins: the networks of the ports and of the device, and
/// the configured routes. The only fault is want of memory.
pub fn first_table(alloc: Global, config: &Config) -> Result<Routes, AllocError>
    ensures { IfOk result (λ table. table ≡ first_table config.now) }
{
    let direct = config.own_networks(alloc)?;
    let configured = routed_of(alloc, config.routes())?;
    let table = Routes::new(alloc, direct, configured)?;
    Ok(table)
}

/// The configured routes, by their networks.
fn routed_of(alloc: Global, routes: &[ConfiguredRoute]) -> Result<Vec<(NetNum, Route)>, AllocError>
    ensures { IfOk result (λ routed. routed.items ≡ map routed_of routes.now) }
{
    let mut routed = Vec::new(alloc);
    for route in routes {
        let way = Route {
            port: route.port,
            next: route.next,
        };
        routed.push((route.network, way))?;
    }
    Ok(routed)
}
