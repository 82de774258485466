//! Who asks and who is asked: stations, and the ways to them.

ghost use Rattle.std.specs.Prelude.{◌≡◌, ◌+◌, ◌==◌, ◌<◌, [], ◌∷◌, drop, length, position, option_copied, option_map, IfOk, IfSome, IsNone};
ghost use Rattle.std.specs.List.{find};
ghost use Rattle.gw_addr.specs.Address.{IsAddress};
ghost use Rattle.hex.specs.Hex.{decode_of};
ghost use Rattle.gw_verdicts.specs.questions.Places.{first_with, has_station, local, local_station, mac_of, only_from, place_of, routed};
ghost use Rattle.gw_verdicts.specs.questions.Places.{routed_station, station_at, station_by, station_on};
ghost use Rattle.gw_verdicts.specs.questions.Read.{IsAddressIn, IsAddressStation, IsNetworkBefore, IsNetworkIn, IsNumberIn, IsSpelledIn};
ghost use Rattle.gw_verdicts.specs.questions.Read.{IsSpelledStation, IsStationOf, IsTargetIn, IsTargetOf, IsWritten, after_hex, mac_in};
ghost use Rattle.gw_verdicts.specs.questions.Read.{parted, spelled_by};

use crate::questions::deed::Deed;
use crate::questions::fault::PlaceFault;
use crate::questions::text::parted;
use gw_addr::{BipAddr, Mac, Mask, NetNum, Source};
use gw_configuration::{Config, Port, Route};

/// The UDP port of an address that names none (Annex J.1.2).
const USUAL_PORT: u16 = 0xBAC0;

/// The address of the gateway's own device on its network.
const DEVICE_STATION: [u8; 1] = [1];

/// How many octets a station has at most.
const MAX_STATION: usize = 255;

/// What names the gateway's own device.
const DEVICE: &str = "device";

/// A station, and the way by which its datagrams come to the gateway and others go to it.
#[derive(Clone, Copy)]
pub struct Station {
    /// The number of the port on whose network it or its router is, from 1.
    pub port: u8,
    /// Its own address there, or its router's.
    pub link: BipAddr,
    /// Its network, and its address there (clause 6.2.2).
    pub place: Source,
    /// Whether a router is between.
    pub is_routed: bool,
}

/// Who is asked.
#[derive(Clone, Copy)]
pub enum Addressee {
    /// A station of another network.
    Station(Station),
    /// The gateway's own device, on its network.
    Device(NetNum),
}

/// A question: may this station do this.
#[derive(Clone, Copy)]
pub struct Question<'a> {
    /// Who asks.
    pub asker: Station,
    /// Who is asked.
    pub target: Addressee,
    /// What is asked for.
    pub deed: Deed<'a>,
}

/// A station as it is written on its network.
#[derive(Clone, Copy)]
pub enum Spelled {
    /// By its address of BACnet/IP.
    Address(BipAddr),
    /// By its octets.
    Octets(Mac),
}

/// The address that a text writes, perhaps without its UDP port.
fn address_in(text: &str) -> Option<BipAddr>
    ensures { IsAddressIn text.now result }
{
    if let Some(four) = Mask::parse(text) {
        let ip = four.octets;
        return Some(BipAddr {
            ip,
            udp: USUAL_PORT,
        });
    }
    match BipAddr::parse(text) {
        Ok(address) => Some(address),
        Err(_) => None,
    }
}

/// The octet that a text is in decimal.
fn octet_in(text: &str) -> Option<u8>
    ensures { IsNumberIn 8 text.now result }
{
    match text.parse::<u8>() {
        Ok(octet) => Some(octet),
        Err(_) => None,
    }
}

/// What follows `0x`.
fn after_hex(text: &[u8]) -> Option<&[u8]>
    ensures { option_map (λ t. t.now) result ≡ after_hex text.now }
{
    if text.len() < 2 || &text[..2] != b"0x".as_slice() {
        return None;
    }
    Some(&text[2..])
}

/// The octets that pairs of hexadecimal digits write.
fn mac_in(digits: &[u8]) -> Option<Mac>
    ensures { result ≡ mac_in (decode_of digits.now) }
{
    let len = digits.len() / 2;
    if len > MAX_STATION {
        return None;
    }
    let mut octets = [0; MAX_STATION];
    let octets = &mut octets[..len];
    match hex::decode_to_slice(digits, octets) {
        Ok(()) => Mac::new(octets),
        Err(_) => None,
    }
}

/// The station of one octet, or of the octets that a text writes.
fn spelled_by(octet: Option<u8>, text: &[u8]) -> Option<Spelled>
    ensures { result ≡ spelled_by octet text.now }
{
    if let Some(octet) = octet {
        return Some(Spelled::Octets(Mac::new(&[octet]).unwrap()));
    }
    let digits = after_hex(text)?;
    match mac_in(digits) {
        Some(mac) => Some(Spelled::Octets(mac)),
        None => None,
    }
}

/// The station that a text writes on its network.
fn spelled_in(text: &str) -> Option<Spelled>
    ensures { IsSpelledIn text.now result }
{
    if let Some(address) = address_in(text) {
        return Some(Spelled::Address(address));
    }
    spelled_by(octet_in(text), text.as_bytes())
}

/// The network of a number that a text is in decimal.
pub fn network_in(text: &str) -> Option<NetNum>
    ensures { IsNetworkIn text.now result }
{
    match text.parse::<u16>() {
        Ok(number) => NetNum::new(number),
        Err(_) => None,
    }
}

/// The network that is written before a colon, and what is written after it.
fn network_before(text: &str) -> Option<(NetNum, &str)>
    ensures { IsNetworkBefore (parted 58 text.now) (option_map (λ x. (x.0, x.1.now)) result) }
{
    let (network, rest) = parted(':', text)?;
    match network_in(network) {
        Some(network) => Some((network, rest)),
        None => None,
    }
}

/// Whether an address is one of the stations of a port.
fn has_station(port: &Port, address: BipAddr) -> bool
    ensures { result ≡ has_station address port.now }
{
    port.stations
        .as_slice()
        .iter()
        .any(|subnet| subnet.holds(address))
}

/// The place of the first port that has an address among its stations.
fn first_with(ports: &[Port], address: BipAddr) -> Option<usize>
    ensures place { result ≡ first_with ports.now address }
    ensures within { IfSome result (λ place. place < length ports.now) }
{
    ports.iter().position(|port| has_station(port, address))
}

/// The place of the only port that has an address among its stations.
fn only_with(ports: &[Port], address: BipAddr) -> Result<usize, PlaceFault>
    ensures place { result ≡ only_from ports.now address (first_with ports.now address) }
    ensures within { IfOk result (λ place. place < length ports.now) }
{
    let Some(place) = first_with(ports, address) else {
        return Err(PlaceFault::NoPort);
    };
    match first_with(&ports[place + 1..], address) {
        Some(_) => Err(PlaceFault::SeveralPorts),
        None => Ok(place),
    }
}

/// The place of the port whose network it is.
pub fn place_on(ports: &[Port], network: NetNum) -> Option<usize>
    ensures place { result ≡ position (λ port. port.network == network) ports.now }
    ensures within { IfSome result (λ place. place < length ports.now) }
{
    ports
        .iter()
        .position(|port| port.network.get() == network.get())
}

/// The route to a network.
pub fn route_to(routes: &[Route], network: NetNum) -> Option<&Route>
    ensures { option_copied result ≡ find (λ route. route.network == network) routes.now }
{
    routes
        .iter()
        .find(|route| route.network.get() == network.get())
}

/// A station of the network of the port at this place.
fn local(place: usize, network: NetNum, address: BipAddr) -> Station
    requires { place < 8 }
    ensures { result ≡ local place network address }
{
    Station {
        port: place as u8 + 1,
        link: address,
        place: Source {
            net: network,
            mac: address.mac(),
        },
        is_routed: false,
    }
}

/// The address of a station on its network.
fn mac_of(spelled: Spelled) -> Mac
    ensures { result ≡ mac_of spelled }
{
    match spelled {
        Spelled::Address(address) => address.mac(),
        Spelled::Octets(mac) => mac,
    }
}

/// A station by a route.
fn routed(route: &Route, spelled: Spelled) -> Station
    ensures { result ≡ routed route.now spelled }
{
    Station {
        port: route.port,
        link: route.next,
        place: Source {
            net: route.network,
            mac: mac_of(spelled),
        },
        is_routed: true,
    }
}

/// A station of the network of the port at this place, if it is written by its address.
fn local_station(place: usize, network: NetNum, spelled: Spelled) -> Result<Station, PlaceFault>
    requires { place < 8 }
    ensures { result ≡ local_station place network spelled }
{
    match spelled {
        Spelled::Address(address) => Ok(local(place, network, address)),
        Spelled::Octets(_) => Err(PlaceFault::NoAddress),
    }
}

/// A station of a network that a route leads to.
fn routed_station(
    routes: &[Route],
    network: NetNum,
    spelled: Spelled,
) -> Result<Station, PlaceFault>
    ensures { result ≡ routed_station routes.now network spelled }
{
    match route_to(routes, network) {
        Some(route) => Ok(routed(route, spelled)),
        None => Err(PlaceFault::NoWay),
    }
}

/// A station of a network that is named.
fn station_on(config: &Config, network: NetNum, spelled: Spelled) -> Result<Station, PlaceFault>
    ensures { result ≡ station_on config.now network spelled }
{
    match place_on(config.ports(), network) {
        Some(place) => local_station(place, network, spelled),
        None => routed_station(config.routes(), network, spelled),
    }
}

/// The station of an address that one port alone has among its stations.
fn station_at(config: &Config, address: BipAddr) -> Result<Station, PlaceFault>
    ensures { result ≡ station_at config.now.ports address }
{
    let ports = config.ports();
    let place = match only_with(ports, address) {
        Ok(place) => place,
        Err(fault) => return Err(fault),
    };
    match ports.get(place) {
        Some(port) => Ok(local(place, port.network, address)),
        None => Err(PlaceFault::NoPort),
    }
}

/// The station of a network that is named.
fn spelled_station(config: &Config, network: NetNum, text: &str) -> Result<Station, PlaceFault>
    ensures { IsSpelledStation config.now network text.now result }
{
    match spelled_in(text) {
        Some(spelled) => station_on(config, network, spelled),
        None => Err(PlaceFault::Text),
    }
}

/// The station of an address alone.
fn address_station(config: &Config, text: &str) -> Result<Station, PlaceFault>
    ensures { IsAddressStation config.now text.now result }
{
    match address_in(text) {
        Some(address) => station_at(config, address),
        None => Err(PlaceFault::Text),
    }
}

/// The station that a text names: `NETWORK:ADDRESS`, `NETWORK:OCTET`, `NETWORK:0xOCTETS`, or the `ADDRESS` alone of a station
/// that one port alone has. An address may lack its UDP port, which is then 47808.
pub fn station_of(config: &Config, text: &str) -> Result<Station, PlaceFault>
    ensures { IsStationOf config.now text.now result }
{
    match network_before(text) {
        Some((network, rest)) => spelled_station(config, network, rest),
        None => address_station(config, text),
    }
}

/// Whom a text names: the gateway's own `device`, or a station.
pub fn target_of(config: &Config, text: &str) -> Result<Addressee, PlaceFault>
    ensures { IsTargetOf config.now text.now result }
{
    if text == DEVICE {
        return Ok(Addressee::Device(config.device().network));
    }
    match station_of(config, text) {
        Ok(station) => Ok(Addressee::Station(station)),
        Err(fault) => Err(fault),
    }
}

/// Whom a text names, if there is one.
pub fn target_in(config: &Config, text: Option<&str>) -> Result<Addressee, PlaceFault>
    ensures { IsTargetIn config.now (option_map (λ t. t.now) text.entry) result }
{
    match text {
        Some(text) => target_of(config, text),
        None => Err(PlaceFault::Nobody),
    }
}

impl Addressee {
    /// Its network, and its address there.
    pub fn place(self) -> Source
        ensures { result ≡ place_of self }
    {
        match self {
            Addressee::Station(station) => station.place,
            Addressee::Device(network) => Source {
                net: network,
                mac: Mac::new(&DEVICE_STATION).unwrap(),
            },
        }
    }
}
