//! The ports and the routes of a site.

ghost use Rattle.std.specs.Prelude.{◌≡◌, ◌+◌, ◌==◌, ◌++◌, ◌∷◌, ◌<◌, [], find, length, map, position, IfOk, IfSome, OnOk};
ghost use Rattle.std.specs.Option.{option_map, option_map_or};
ghost use Rattle.gw_policy_drafts.specs.beginning.Part.{has_station, host_of};
ghost use Rattle.gw_policy_drafts.specs.beginning.Flaws.{of_number};
ghost use Rattle.gw_policy_drafts.specs.beginning.Ports.{address_of, broadcast_of, entry_of, port_of, ports_of, route_of, routes_of};
ghost use Rattle.gw_policy_drafts.specs.beginning.Ports.{subnet_at, udp_of};
ghost use Rattle.gw_policy_drafts.specs.beginning.Site.{site_of};

use crate::beginning::part::SitePart;
use crate::beginning::site::Site;
use crate::listing::ListingFault;
use gw_addr::{BdtEntry, BipAddr, MAX_PORTS, NetNum, Sequence};
use gw_configuration::{Peers, Port, Route, Stations, Subnet};
use std::alloc::{AllocError, Global};

/// The UDP port of an address that names none (Annex J.1.2).
const USUAL_PORT: u16 = 0xBAC0;

/// The UDP port of a part.
fn udp_of(part: SitePart) -> u16
    ensures { result ≡ udp_of part }
{
    match part.udp {
        Some(udp) => udp,
        None => USUAL_PORT,
    }
}

/// The address of a part.
pub(crate) fn address_of(part: SitePart) -> BipAddr
    ensures { result ≡ address_of part }
{
    let ip = part.ip;
    BipAddr {
        ip,
        udp: udp_of(part),
    }
}

/// Where its broadcasts go.
fn broadcast_of(part: SitePart) -> BipAddr
    ensures { result ≡ broadcast_of part }
{
    let [_, _, _, _, a, b, c, d] = part.last().to_be_bytes();
    BipAddr {
        ip: [a, b, c, d],
        udp: udp_of(part),
    }
}

/// Its subnet. `Unlike` if there is none, which no part has of which nothing is wrong.
fn subnet_at(part: SitePart) -> Result<Subnet, ListingFault>
    ensures { IfOk result (λ subnet. subnet ≡ subnet_at part) }
{
    let [_, _, _, _, a, b, c, d] = part.first().to_be_bytes();
    match Subnet::new([a, b, c, d], part.prefix) {
        Some(subnet) => Ok(subnet),
        None => Err(ListingFault::Unlike),
    }
}

/// The parts of a number.
fn of_number(alloc: Global, number: u16, parts: &[SitePart]) -> Result<Vec<SitePart>, AllocError>
    ensures { IfOk result (λ some. some.items ≡ of_number number parts.now) }
{
    let mut some = Vec::new(alloc);
    for part in parts {
        if part.number == number {
            some.push(*part)?;
        }
    }
    Ok(some)
}

/// The subnet of a port and those of its peers.
fn subnets_of(
    alloc: Global,
    part: SitePart,
    peers: &[SitePart],
) -> Result<Sequence<Subnet>, ListingFault>
    ensures { IfOk result (λ subnets. subnets ≡ map subnet_at (part ∷ peers.now)) }
{
    let mut subnets = Sequence::new(alloc);
    subnets.push(subnet_at(part)?)?;
    for peer in peers {
        subnets.push(subnet_at(*peer)?)?;
    }
    Ok(subnets)
}

/// The entries of peers.
fn entries_of(alloc: Global, peers: &[SitePart]) -> Result<Sequence<BdtEntry>, AllocError>
    ensures { IfOk result (λ entries. entries ≡ map entry_of peers.now) }
{
    let mut entries = Sequence::new(alloc);
    for peer in peers {
        entries.push(entry_of(*peer))?;
    }
    Ok(entries)
}

/// A broadcast manager that sends broadcasts on in its subnet itself (Annex J.4.3.2).
fn entry_of(part: SitePart) -> BdtEntry
    ensures { result ≡ entry_of part }
{
    BdtEntry {
        address: address_of(part),
        mask: [255, 255, 255, 255],
    }
}

fn first_manager(number: u16, managers: &[SitePart]) -> Option<SitePart>
    ensures { result ≡ find (λ manager. manager.number == number) managers.now }
{
    managers
        .iter()
        .copied()
        .find(|manager| manager.number == number)
}

/// The broadcast manager beside the port of a number.
fn manager_of(number: u16, managers: &[SitePart]) -> Option<BipAddr>
    ensures { result ≡ option_map address_of (find (λ manager. manager.number == number) managers.now) }
{
    match first_manager(number, managers) {
        Some(manager) => Some(address_of(manager)),
        None => None,
    }
}

/// The network of a number. `Unlike` if there is none.
fn network_of(number: u16) -> Result<NetNum, ListingFault>
    ensures { IfOk result (λ network. network ≡ number) }
{
    match NetNum::new(number) {
        Some(network) => Ok(network),
        None => Err(ListingFault::Unlike),
    }
}

/// The stations of a port with these peers. `Unlike` if they are too many subnets.
fn stations_of(alloc: Global, part: SitePart, peers: &[SitePart]) -> Result<Stations, ListingFault>
    ensures { IfOk result (λ stations. stations ≡ map subnet_at (part ∷ peers.now)) }
{
    let subnets = subnets_of(alloc, part, peers)?;
    match Stations::new(subnets) {
        Some(stations) => Ok(stations),
        None => Err(ListingFault::Unlike),
    }
}

/// The peers of a port. `Unlike` if they are too many.
fn peers_of(alloc: Global, peers: &[SitePart]) -> Result<Peers, ListingFault>
    ensures { IfOk result (λ list. list ≡ map entry_of peers.now) }
{
    let entries = entries_of(alloc, peers)?;
    match Peers::new(entries) {
        Some(list) => Ok(list),
        None => Err(ListingFault::Unlike),
    }
}

/// The port of this number. `Unlike` if a configuration can't have it.
fn port_of(alloc: Global, site: &Site, number: u16, part: SitePart) -> Result<Port, ListingFault>
    ensures { IfOk result (λ port. port ≡ port_of (site_of site.now) number part) }
{
    let others = of_number(alloc, number, &site.peers)?;
    let network = network_of(number)?;
    let stations = stations_of(alloc, part, &others)?;
    let peers = peers_of(alloc, &others)?;
    Ok(Port {
        network,
        address: address_of(part),
        broadcast: broadcast_of(part),
        stations,
        bbmd: manager_of(number, &site.managers),
        peers,
    })
}

/// The number of the port at a place. `Unlike` if there is none.
fn number_at(place: usize) -> Result<u16, ListingFault>
    ensures { IfOk result (λ number. number ≡ place + 1) }
{
    if place >= MAX_PORTS {
        return Err(ListingFault::Unlike);
    }
    Ok(place as u16 + 1)
}

/// The ports.
pub(crate) fn ports_of(alloc: Global, site: &Site) -> Result<Vec<Port>, ListingFault>
    ensures { IfOk result (λ ports. ports.items ≡ ports_of (site_of site.now)) }
{
    let mut ports = Vec::new(alloc);
    for place in 0..site.ports.len() {
        let number = number_at(place)?;
        let port = port_of(alloc, site, number, site.ports[place])?;
        add_port(&mut ports, port)?;
    }
    Ok(ports)
}

fn add_port(ports: &mut Vec<Port>, port: Port) -> Result<(), AllocError>
    ensures { OnOk result (ports.new.items ≡ ports.old.items ++ port ∷ []) }
{
    ports.push(port)?;
    Ok(())
}

fn place_with(part: SitePart, ports: &[SitePart]) -> Option<usize>
    ensures place { result ≡ position (has_station (host_of part)) ports.now }
    ensures within { IfSome result (λ place. place < length ports.now) }
{
    let host = part.host();
    ports.iter().position(|port| port.has_station(host))
}

/// The number of the port whose subnet has a router, or 0.
fn port_with(part: SitePart, ports: &[SitePart]) -> usize
    ensures { result ≡ option_map_or (λ place. place + 1) (position (has_station (host_of part)) ports.now) 0 }
{
    match place_with(part, ports) {
        Some(place) => place + 1,
        None => 0,
    }
}

/// A port's number. `Unlike` if there is no such port.
fn port_number(number: usize) -> Result<u8, ListingFault>
    ensures { IfOk result (λ port. port ≡ number) }
{
    if number > MAX_PORTS {
        return Err(ListingFault::Unlike);
    }
    Ok(number as u8)
}

/// A network behind a router. `Unlike` if a configuration can't have it.
fn route_of(site: &Site, part: SitePart) -> Result<Route, ListingFault>
    ensures { IfOk result (λ route. route ≡ route_of (site_of site.now) part) }
{
    let network = network_of(part.number)?;
    let port = port_number(port_with(part, &site.ports))?;
    Ok(Route {
        network,
        port,
        next: address_of(part),
    })
}

/// The routes.
pub(crate) fn routes_of(alloc: Global, site: &Site) -> Result<Vec<Route>, ListingFault>
    ensures { IfOk result (λ routes. routes.items ≡ routes_of (site_of site.now)) }
{
    let mut routes = Vec::new(alloc);
    for router in &site.routers {
        add_route(&mut routes, route_of(site, *router)?)?;
    }
    Ok(routes)
}

fn add_route(routes: &mut Vec<Route>, route: Route) -> Result<(), AllocError>
    ensures { OnOk result (routes.new.items ≡ routes.old.items ++ route ∷ []) }
{
    routes.push(route)?;
    Ok(())
}
