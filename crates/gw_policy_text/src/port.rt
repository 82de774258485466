//! What the ports of a configuration are read to.

ghost use Rattle.std.specs.Prelude.{◌≡◌, ◌≤◌, ◌||◌, ◌==◌, codes, is_some, length, map, not, option_map, IfOk, IsTrue};
ghost use Rattle.std.specs.List.{list_all};
ghost use Rattle.toml.specs.View.{table_view, view};
ghost use Rattle.gw_policy_text.specs.Parts.{each_at, is_plain_in, managed, manager_at, manager_or, misplaced, peer_in, peer_of, peer_parts, peers_at, port_in, port_of, port_parts, stations_at};
ghost use Rattle.gw_policy_text.specs.keys.Items.{each};
ghost use Rattle.gw_policy_text.specs.keys.Value.{subnet_in};
ghost use Rattle.gw_rules.specs.Format.{names_stations};
ghost use Rattle.gw_policy_text.specs.keys.Field.{located_in};
ghost use Rattle.gw_configuration.specs.Reading.{Finds, Gives, NamesLocated};
ghost use Rattle.gw_configuration.specs.declared.located.Place.TheVariants as places;
ghost use Rattle.gw_configuration.specs.Configuration.{is_managed};
ghost use Rattle.gw_configuration.specs.Located.{located_view};
ghost use Rattle.gw_policy_text.specs.keys.Tables.{port_fields};
ghost use Rattle.gw_addr.specs.Reading as plain;

use crate::keys::located_in;
use crate::keys::tables::{MANAGER, MANAGER_KEY, peer_fields, port_located};
use crate::keys::value::{self, address, member, table};
use crate::reading::{address_at, list_at, mask_at, network_at};
use gw_addr::{BdtEntry, BipAddr, Sequence};
use gw_configuration::{
    ConfigFault, Format, Located, MAX_PEERS, MAX_STATIONS, Peers, Place, Port, Stations, Subnet,
};
use std::alloc::Global;
use toml::{Table, Value};

/// The ports that some values say, in order, or the first fault with its place.
pub(crate) fn ports<'a>(
    alloc: Global,
    format: Format,
    values: &'a [Value],
) -> Result<Sequence<Port>, Located<'a>>
    ensures count { IfOk result (λ ps. length ps ≡ length values.now) }
    ensures ports { Finds (λ ps. ps) result (each_at (port_in format) 0 (map view values.now)) }
    ensures managed { IfOk result (λ ps. IsTrue (list_all is_managed ps)) }
    ensures plain { IfOk result (λ ps. IsTrue (list_all (is_plain_in format) ps)) }
{
    let mut all = Sequence::new(alloc);
    for (place, value) in values.iter().enumerate() {
        all.push(port(alloc, format, place, value)?)?;
    }
    Ok(all)
}

/// The port that a value says, at this position.
fn port<'a>(
    alloc: Global,
    format: Format,
    port: usize,
    value: &'a Value,
) -> Result<Port, Located<'a>>
    ensures port { Finds (λ p. p) result (port_in format port (view value.now)) }
    ensures managed { IfOk result (λ p. IsTrue (is_managed p)) }
    ensures plain { IfOk result (λ p. IsTrue (is_plain_in format p)) }
{
    port_of_table(alloc, format, port, table(value)?)
}

fn port_of_table<'a>(
    alloc: Global,
    format: Format,
    port: usize,
    table: &'a Table,
) -> Result<Port, Located<'a>>
    ensures port { Finds (λ p. p) result (port_of format port (table_view table.now)) }
    ensures fault_named { NamesLocated result
        (located_in (places.Port port) (port_fields format) (table_view table.now)) }
    ensures managed { IfOk result (λ p. IsTrue (is_managed p)) }
    ensures plain { IfOk result (λ p. IsTrue (is_plain_in format p)) }
{
    match port_located(format, port, table) {
        Some(located) => Err(located),
        None => port_parts(alloc, format, port, table),
    }
}

/// The parts of a table without a fault of its own.
fn port_parts<'a>(
    alloc: Global,
    format: Format,
    port: usize,
    table: &'a Table,
) -> Result<Port, Located<'a>>
    ensures port { Finds (λ p. p) result (port_parts format port (table_view table.now)) }
    ensures managed { IfOk result (λ p. IsTrue (is_managed p)) }
    ensures plain { IfOk result (λ p. IsTrue (is_plain_in format p)) }
{
    let read = Port {
        network: network_at("network", table)?,
        address: address_at("address", table)?,
        broadcast: address_at("broadcast", table)?,
        stations: stations_at(alloc, format, table)?,
        bbmd: manager_at(format, table)?,
        peers: peers_at(alloc, port, table)?,
    };
    managed(port, read)
}

/// The port at this position as it was read, unless its manager isn't beside it.
fn managed<'a>(port: usize, read: Port) -> Result<Port, Located<'a>>
    ensures port { Finds (λ p. p) result (managed port read) }
    ensures same { IfOk result (λ p. p ≡ read) }
    ensures managed { IfOk result (λ p. IsTrue (is_managed p)) }
{
    if read.is_managed() {
        Ok(read)
    } else {
        Err(misplaced(port))
    }
}

/// That the manager of the port at this position isn't beside it.
fn misplaced<'a>(port: usize) -> Located<'a>
    ensures { located_view result ≡ misplaced port }
{
    Located {
        fault: ConfigFault::Range,
        place: Place::Port(port),
        key: MANAGER_KEY,
        item: None,
        wanted: Some(MANAGER),
    }
}

/// The address of the manager beside a port, if there is one, in format 3.
fn manager_at(format: Format, table: &Table) -> Result<Option<BipAddr>, ConfigFault>
    ensures manager { plain.Gives (λ m. m) result (manager_at format (codes "bbmd") (table_view table.now)) }
    ensures plain { IfOk result (λ m. IsTrue (names_stations format || not (is_some m))) }
{
    if format.names_stations() {
        manager_or(member(table, MANAGER_KEY))
    } else {
        Ok(None)
    }
}

fn manager_or(value: Option<&Value>) -> Result<Option<BipAddr>, ConfigFault>
    ensures { plain.Gives (λ m. m) result (manager_or (option_map (λ v. view v.now) value.entry)) }
{
    match value {
        Some(value) => Ok(Some(address(value)?)),
        None => Ok(None),
    }
}

/// The stations in the table of a port, in format 3.
fn stations_at(alloc: Global, format: Format, table: &Table) -> Result<Stations, ConfigFault>
    ensures stations { Gives (λ s. s) result (stations_at format (codes "stations") (table_view table.now)) }
    ensures plain { IfOk result (λ s. IsTrue (names_stations format || (length s == 0))) }
{
    if !format.names_stations() {
        return Stations::new(Sequence::new(alloc)).ok_or(ConfigFault::TooMany);
    }
    let subnets = subnets(alloc, list_at(0, MAX_STATIONS, "stations", table)?)?;
    Stations::new(subnets).ok_or(ConfigFault::TooMany)
}

fn subnets(alloc: Global, values: &[Value]) -> Result<Sequence<Subnet>, ConfigFault>
    ensures count { IfOk result (λ ss. length ss ≡ length values.now) }
    ensures subnets { Gives (λ ss. ss) result (each subnet_in (map view values.now)) }
{
    let mut all = Sequence::new(alloc);
    for value in values {
        all.push(value::subnet(value)?)?;
    }
    Ok(all)
}

/// The peers in the table of the port at this position.
fn peers_at<'a>(alloc: Global, port: usize, table: &'a Table) -> Result<Peers, Located<'a>>
    ensures { Finds (λ ps. ps) result (peers_at port (codes "peer") (table_view table.now)) }
{
    let entries = entries(alloc, port, list_at(0, MAX_PEERS, "peer", table)?)?;
    Ok(Peers::new(entries).ok_or(ConfigFault::TooMany)?)
}

fn entries<'a>(
    alloc: Global,
    port: usize,
    values: &'a [Value],
) -> Result<Sequence<BdtEntry>, Located<'a>>
    ensures count { IfOk result (λ ps. length ps ≡ length values.now) }
    ensures entries { Finds (λ ps. ps) result (each_at (peer_in port) 0 (map view values.now)) }
{
    let mut all = Sequence::new(alloc);
    for (place, value) in values.iter().enumerate() {
        all.push(peer(port, place, value)?)?;
    }
    Ok(all)
}

/// The peer that a value says.
fn peer<'a>(port: usize, peer: usize, value: &'a Value) -> Result<BdtEntry, Located<'a>>
    ensures { Finds (λ p. p) result (peer_in port peer (view value.now)) }
{
    peer_of_table(port, peer, table(value)?)
}

fn peer_of_table<'a>(port: usize, peer: usize, table: &'a Table) -> Result<BdtEntry, Located<'a>>
    ensures { Finds (λ p. p) result (peer_of port peer (table_view table.now)) }
{
    match located_in(Place::Peer { port, peer }, &peer_fields(), table) {
        Some(located) => Err(located),
        None => Ok(peer_parts(table)?),
    }
}

/// The parts of a table without a fault.
fn peer_parts(table: &Table) -> Result<BdtEntry, ConfigFault>
    ensures { plain.Gives (λ p. p) result (peer_parts (table_view table.now)) }
{
    let address = address_at("address", table)?;
    let mask = mask_at("mask", table)?.octets;
    Ok(BdtEntry { address, mask })
}
