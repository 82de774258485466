//! Lines on the ports and routes of two configurations.
ghost use Rattle.std.specs.Prelude.{◌≡◌, ◌++◌, ◌∷◌, [], ◌==◌, ◌&&◌, codes, if◌then◌else◌, length, IfOk, List, ℕ, OnOk, Option, Some, None};
ghost use Rattle.std.specs.List.{flat_map, list_any};
ghost use Rattle.std.specs.Option.{option_map};
ghost use Rattle.gw_addr.specs.Address.{text_of};
ghost use Rattle.gw_configuration.specs.Configuration.{is_same_address};
ghost use Rattle.gw_configuration.specs.Subnet.{keys_of};
ghost use Rattle.gw_policy_review.specs.comparison.Details.{by_mask, has_some, is_same_peer, is_same_route, manager_line, manager_text};
ghost use Rattle.gw_policy_review.specs.comparison.Details.{peer_change, peer_gone, peer_words, port_head, replaced, route_change};
ghost use Rattle.gw_policy_review.specs.comparison.Details.{route_gone, route_words, said, stations_lines, subnet_line, subnet_lines};
ghost use Rattle.gw_policy_review.specs.comparison.Details.{way_text};
ghost use Rattle.gw_policy_review.specs.comparison.PartLines.{of_both, port_part_lines};

use crate::comparison::listing::{Thing, put_said, put_things, put_three};
use crate::comparison::parts::PortPart;
use gw_addr::{BdtEntry, BipAddr, Mask, put_text_number};
use gw_ask_sets::regions::{both, without};
use gw_configuration::{Port, Route, Subnet};
use gw_rules::Range;
use std::alloc::{AllocError, Global};

// ---- ports

/// What a line on the port of this number begins with.
pub(crate) fn port_head(alloc: Global, number: u8) -> Result<Vec<u8>, AllocError>
    ensures { IfOk result (λ head. head.items ≡ port_head number) }
{
    let mut head = Vec::new(alloc);
    put_text_number(&mut head, "port ", number)?;
    head.extend_from_slice(b": ")?;
    Ok(head)
}

/// Appends the lines of a part of two ports.
pub(crate) fn put_port_part(
    out: &mut Vec<u8>,
    head: &[u8],
    part: PortPart,
    now: &Port,
    was: &Port,
) -> Result<(), AllocError>
    ensures { OnOk result (out.new.items ≡ out.old.items ++ port_part_lines head.now part now.now was.now) }
{
    match part {
        PortPart::Network => put_network(out, head, now, was),
        PortPart::Address => put_addresses(out, head, b"address ", now.address, was.address),
        PortPart::Broadcast => {
            put_addresses(
                out,
                head,
                b"broadcast address ",
                now.broadcast,
                was.broadcast,
            )
        }
        PortPart::Stations => {
            put_stations(out, head, now.stations.as_slice(), was.stations.as_slice())
        }
        PortPart::Manager => put_manager(out, head, now.bbmd, was.bbmd),
        PortPart::Peers => {
            put_things(
                out,
                head,
                b"the peers are",
                now.peers.as_slice(),
                was.peers.as_slice(),
            )
        }
    }
}

fn put_network(out: &mut Vec<u8>, head: &[u8], now: &Port, was: &Port) -> Result<(), AllocError>
    ensures { OnOk result (out.new.items ≡ out.old.items ++ port_part_lines head.now PortPart.Network now.now was.now) }
{
    let alloc = *out.allocator();
    let (now, was) = (
        now.network.get().to_string(alloc)?,
        was.network.get().to_string(alloc)?,
    );
    put_said(out, head, b"network ", now.as_bytes(), was.as_bytes())
}

fn put_addresses(
    out: &mut Vec<u8>,
    head: &[u8],
    words: &[u8],
    now: BipAddr,
    was: BipAddr,
) -> Result<(), AllocError>
    ensures { OnOk result (out.new.items ≡ out.old.items ++ said head.now words.now (text_of now) (text_of was)) }
{
    let alloc = *out.allocator();
    let (now, was) = (address_text(alloc, now)?, address_text(alloc, was)?);
    put_said(out, head, words, &now, &was)
}

fn address_text(alloc: Global, address: BipAddr) -> Result<Vec<u8>, AllocError>
    ensures { IfOk result (λ text. text.items ≡ text_of address) }
{
    let mut text = Vec::new(alloc);
    address.put_text(&mut text)?;
    Ok(text)
}

// ---- stations

/// Appends who is a station any more, and who is one now.
fn put_stations(
    out: &mut Vec<u8>,
    head: &[u8],
    now: &[Subnet],
    was: &[Subnet],
) -> Result<(), AllocError>
    ensures { OnOk result (out.new.items ≡ out.old.items ++ stations_lines head.now now.now was.now) }
{
    if now.is_empty() {
        return put_two(out, head, b"everyone is a station now\n");
    }
    if was.is_empty() {
        return put_two(out, head, b"not everyone is a station any more\n");
    }
    put_subnets(out, head, b" is no station any more", was, now)?;
    put_subnets(out, head, b" is a station now", now, was)
}

fn put_two(out: &mut Vec<u8>, text: &[u8], more: &[u8]) -> Result<(), AllocError>
    ensures { OnOk result (out.new.items ≡ out.old.items ++ (text.now ++ more.now)) }
{
    out.extend_from_slice(text)?;
    out.extend_from_slice(more)
}

/// The keys of these subnets.
fn keys_of(alloc: Global, subnets: &[Subnet]) -> Result<Vec<Range>, AllocError>
    ensures { IfOk result (λ keys. keys.items ≡ flat_map (λ s. keys_of s ∷ []) subnets.now) }
{
    let mut keys = Vec::new(alloc);
    for subnet in subnets {
        keys.push(subnet.keys())?;
    }
    Ok(keys)
}

/// Appends the lines of the subnets that the others don't hold as a whole.
fn put_subnets(
    out: &mut Vec<u8>,
    head: &[u8],
    words: &[u8],
    subnets: &[Subnet],
    others: &[Subnet],
) -> Result<(), AllocError>
    ensures { OnOk result (out.new.items ≡ out.old.items ++ subnet_lines head.now words.now subnets.now others.now) }
{
    let ranges = keys_of(*out.allocator(), others)?;
    for subnet in subnets {
        put_subnet(out, head, words, &ranges, *subnet)?;
    }
    Ok(())
}

fn put_subnet(
    out: &mut Vec<u8>,
    head: &[u8],
    words: &[u8],
    ranges: &[Range],
    subnet: Subnet,
) -> Result<(), AllocError>
    ensures { OnOk result (out.new.items ≡ out.old.items ++ subnet_line head.now words.now ranges.now subnet) }
{
    let alloc = *out.allocator();
    let keys = subnet.keys();
    if without(alloc, &[keys], ranges)?.is_empty() {
        return Ok(());
    }
    let text = subnet.to_string(alloc)?;
    out.extend_from_slice(head)?;
    out.extend_from_slice(portion(keys, ranges))?;
    out.extend_from_slice(text.as_bytes())?;
    out.extend_from_slice(words)?;
    out.push(b'\n')?;
    Ok(())
}

/// The words before a subnet of which the ranges have some.
fn portion(keys: Range, ranges: &[Range]) -> &'static [u8]
    ensures { result.now ≡ (if has_some keys ranges.now then codes "a part of " else []) }
{
    if has_some(keys, ranges) {
        b"a part of "
    } else {
        b""
    }
}

fn has_some(keys: Range, ranges: &[Range]) -> bool
    ensures { result ≡ has_some keys ranges.now }
{
    ranges.iter().any(|range| both(&keys, range).is_some())
}

// ---- the manager beside a port

fn put_manager(
    out: &mut Vec<u8>,
    head: &[u8],
    now: Option<BipAddr>,
    was: Option<BipAddr>,
) -> Result<(), AllocError>
    ensures { OnOk result (out.new.items ≡ out.old.items ++ manager_line head.now now was) }
{
    let alloc = *out.allocator();
    let (now, was) = (manager_text(alloc, now)?, manager_text(alloc, was)?);
    put_replaced(out, head, &now, &was)
}

fn put_replaced(out: &mut Vec<u8>, head: &[u8], now: &[u8], was: &[u8]) -> Result<(), AllocError>
    ensures { OnOk result (out.new.items ≡ out.old.items ++ replaced head.now now.now was.now) }
{
    put_three(out, head, b"broadcast manager ", now)?;
    put_three(out, b" in the place of ", was, b"\n")
}

/// The address of a manager, or `none`.
fn manager_text(alloc: Global, manager: Option<BipAddr>) -> Result<Vec<u8>, AllocError>
    ensures { IfOk result (λ text. text.items ≡ manager_text manager) }
{
    match manager {
        Some(address) => address_text(alloc, address),
        None => Vec::from_slice(alloc, b"none"),
    }
}

// ---- peers

/// The words before what is said of a peer.
fn peer_words(alloc: Global, peer: &BdtEntry) -> Result<Vec<u8>, AllocError>
    ensures { IfOk result (λ words. words.items ≡ peer_words peer.now) }
{
    let mut words = Vec::new(alloc);
    words.extend_from_slice(b"peer ")?;
    peer.address.put_text(&mut words)?;
    words.extend_from_slice(b": ")?;
    Ok(words)
}

/// By which mask broadcasts go to a peer.
fn by_mask(alloc: Global, peer: &BdtEntry) -> Result<Vec<u8>, AllocError>
    ensures { IfOk result (λ words. words.items ≡ by_mask peer.now) }
{
    let mask = Mask { octets: peer.mask };
    let mut words = Vec::new(alloc);
    words.extend_from_slice(b"by mask ")?;
    mask.put_text(&mut words)?;
    Ok(words)
}

impl Thing for BdtEntry {
    ghost use Rattle.gw_policy_review.specs.comparison.Details.{is_same_peer, peer_change, peer_gone};

    ghost is_for = { is_same_peer };

    ghost change = { peer_change };

    ghost gone = { peer_gone };

    fn is_for(&self, other: &Self) -> bool {
        self.address == other.address
    }

    fn put_change(
        &self,
        head: &[u8],
        was: Option<&Self>,
        out: &mut Vec<u8>,
    ) -> Result<(), AllocError> {
        match was {
            Some(was) if self.mask == was.mask => Ok(()),
            Some(was) => put_peer(out, head, self, &by_mask(*out.allocator(), was)?),
            None => put_peer(out, head, self, b"none"),
        }
    }

    fn put_gone(&self, head: &[u8], out: &mut Vec<u8>) -> Result<(), AllocError> {
        let alloc = *out.allocator();
        let (words, was) = (peer_words(alloc, self)?, by_mask(alloc, self)?);
        put_said(out, head, &words, b"none", &was)
    }
}

/// Appends by which mask broadcasts go to a peer now, and what was.
fn put_peer(out: &mut Vec<u8>, head: &[u8], peer: &BdtEntry, was: &[u8]) -> Result<(), AllocError>
    ensures { OnOk result (out.new.items ≡
        out.old.items ++ said head.now (peer_words peer.now) (by_mask peer.now) was.now) }
{
    let alloc = *out.allocator();
    let (words, now) = (peer_words(alloc, peer)?, by_mask(alloc, peer)?);
    put_said(out, head, &words, &now, was)
}

// ---- routes

/// The words before what is said of a route.
fn route_words(alloc: Global, route: &Route) -> Result<Vec<u8>, AllocError>
    ensures { IfOk result (λ words. words.items ≡ route_words route.now) }
{
    let mut words = Vec::new(alloc);
    put_text_number(&mut words, "route to ", route.network.get())?;
    words.extend_from_slice(b": ")?;
    Ok(words)
}

/// The way of a route.
fn way_text(alloc: Global, route: &Route) -> Result<Vec<u8>, AllocError>
    ensures { IfOk result (λ words. words.items ≡ way_text route.now) }
{
    let mut words = Vec::new(alloc);
    words.extend_from_slice(b"by ")?;
    route.next.put_text(&mut words)?;
    put_text_number(&mut words, " on port ", route.port)?;
    Ok(words)
}

impl Thing for Route {
    ghost use Rattle.gw_policy_review.specs.comparison.Details.{is_same_route, route_change, route_gone};

    ghost is_for = { is_same_route };

    ghost change = { λ head. route_change };

    ghost gone = { λ head. route_gone };

    fn is_for(&self, other: &Self) -> bool {
        self.network.get() == other.network.get()
    }

    fn put_change(
        &self,
        head: &[u8],
        was: Option<&Self>,
        out: &mut Vec<u8>,
    ) -> Result<(), AllocError> {
        let _ = head;
        match was {
            Some(was) if is_same_way(self, was) => Ok(()),
            Some(was) => put_route(out, self, &way_text(*out.allocator(), was)?),
            None => put_route(out, self, b"none"),
        }
    }

    fn put_gone(&self, head: &[u8], out: &mut Vec<u8>) -> Result<(), AllocError> {
        let _ = head;
        let alloc = *out.allocator();
        let (words, was) = (route_words(alloc, self)?, way_text(alloc, self)?);
        put_said(out, b"", &words, b"none", &was)
    }
}

fn is_same_way(route: &Route, other: &Route) -> bool
    ensures { result ≡ (is_same_address route.now.next other.now.next && (route.now.port == other.now.port)) }
{
    route.next == other.next && route.port == other.port
}

/// Appends by which way a route is now, and what was.
fn put_route(out: &mut Vec<u8>, route: &Route, was: &[u8]) -> Result<(), AllocError>
    ensures { OnOk result (out.new.items ≡ out.old.items ++ said [] (route_words route.now) (way_text route.now) was.now) }
{
    let alloc = *out.allocator();
    let (words, now) = (route_words(alloc, route)?, way_text(alloc, route)?);
    put_said(out, b"", &words, &now, was)
}
