//! What is wrong with what words say.

ghost use Rattle.std.specs.Prelude.{◌≡◌, ◌==◌, ◌≤◌, ◌&&◌, [], find, is_some, length, take, drop};
ghost use Rattle.gw_policy_drafts.specs.beginning.Part.{has_station};
ghost use Rattle.std.specs.List.{list_any};
ghost use Rattle.gw_policy_drafts.specs.beginning.Flaws.{first_flaw, flaw_of, is_at_port, is_beside, is_given, is_named, is_port};
ghost use Rattle.gw_policy_drafts.specs.beginning.Flaws.{is_station, is_subnet, is_taken, lacks_udp, lacks_udp_of, manager_flaw, of_number};
ghost use Rattle.gw_policy_drafts.specs.beginning.Flaws.{operator_flaw, or_else, overlaps_one, peer_flaw, port_flaw, router_flaw};
ghost use Rattle.gw_policy_drafts.specs.beginning.Flaws.{wrong_from, wrong_in, wrong_of};
ghost use Rattle.gw_policy_drafts.specs.beginning.Site.{site_of};

use crate::beginning::fault::{Flaw, WrongWord};
use crate::beginning::part::{SiteOption, SitePart};
use crate::beginning::site::Site;
use gw_addr::MAX_PORTS;

/// How many peers a port has at most: with its own subnet, theirs are the stations of the port.
pub const MAX_PORT_PEERS: usize = 15;

/// How many networks have a router at most, and how many operators there are.
pub const MAX_ROUTERS: usize = 32;

pub const MAX_OPERATORS: usize = 32;

/// The network of the gateway's own device.
const DEVICE_NETWORK: u16 = 100;

/// The number of all networks.
const ALL_NETWORKS: u16 = 65535;

fn first_there(flaws: &[(bool, Flaw)]) -> Option<(bool, Flaw)>
    ensures { result ≡ find (λ f. f.0) flaws.now }
{
    flaws.iter().copied().find(|flaw| flaw.0)
}

/// The first of these flaws that is there.
fn first_flaw(flaws: &[(bool, Flaw)]) -> Option<Flaw>
    ensures { result ≡ first_flaw flaws.now }
{
    match first_there(flaws) {
        Some((_, flaw)) => Some(flaw),
        None => None,
    }
}

fn is_subnet(part: SitePart) -> bool
    ensures { result ≡ is_subnet part }
{
    8 <= part.prefix && part.prefix <= 30
}

fn overlaps_one(part: SitePart, parts: &[SitePart]) -> bool
    ensures { result ≡ overlaps_one part parts.now }
{
    parts.iter().any(|other| part.overlaps(*other))
}

fn is_given(number: u16, parts: &[SitePart]) -> bool
    ensures { result ≡ is_given number parts.now }
{
    parts.iter().any(|other| other.number == number)
}

fn is_station(part: SitePart, parts: &[SitePart]) -> bool
    ensures { result ≡ is_station part parts.now }
{
    let host = part.host();
    parts.iter().any(|other| other.has_station(host))
}

fn is_named(part: SitePart, parts: &[SitePart]) -> bool
    ensures { result ≡ is_named part parts.now }
{
    let host = part.host();
    parts.iter().any(|other| other.host() == host)
}

/// Whether a router's address is that of a station of one of these ports, and no port's own.
fn is_beside(part: SitePart, ports: &[SitePart]) -> bool
    ensures { result ≡ is_beside part ports.now }
{
    is_station(part, ports) && !is_named(part, ports)
}

fn is_port(site: &Site, number: u16) -> bool
    ensures { result ≡ is_port (site_of site.now) number }
{
    1 <= number && usize::from(number) <= site.ports.len()
}

/// Whether a manager's address is that of a station of the port of its number.
fn is_at_port(site: &Site, part: SitePart) -> bool
    ensures { result ≡ is_at_port (site_of site.now) part }
{
    let place = usize::from(part.number.saturating_sub(1));
    match site.ports.get(place) {
        Some(port) => port.has_station(part.host()) && port.host() != part.host(),
        None => false,
    }
}

/// Whether one of these ports names a UDP port and has a station of this address.
fn is_of_named(host: u64, ports: &[SitePart]) -> bool
    ensures { result ≡ list_any (λ port. is_some port.udp && has_station host port) ports.now }
{
    ports
        .iter()
        .any(|port| port.udp.is_some() && port.has_station(host))
}

/// Whether a part names no UDP port, while the port of these does whose subnet has its address.
fn lacks_udp(part: SitePart, ports: &[SitePart]) -> bool
    ensures { result ≡ lacks_udp part ports.now }
{
    let is_beyond = is_of_named(part.host(), ports);
    part.udp.is_none() && is_beyond
}

/// Whether a peer names no UDP port, while its port does.
fn lacks_udp_of(site: &Site, part: SitePart) -> bool
    ensures { result ≡ lacks_udp_of (site_of site.now) part }
{
    let place = usize::from(part.number.saturating_sub(1));
    match site.ports.get(place) {
        Some(port) => part.udp.is_none() && port.udp.is_some(),
        None => false,
    }
}

/// How many of these have a number.
fn count_of(number: u16, parts: &[SitePart]) -> usize
    ensures { result ≡ length (of_number number parts.now) }
{
    parts.iter().filter(|part| part.number == number).count()
}

#[tactic(auto, unfolding(crate::specs::beginning::Flaws::port_flaw))]
fn port_flaw(site: &Site, before: &[SitePart], part: SitePart) -> Option<Flaw>
    ensures { result ≡ port_flaw (site_of site.now) before.now part }
{
    first_flaw(&[
        (!is_subnet(part), Flaw::Prefix),
        (!part.has_station(part.host()), Flaw::End),
        (overlaps_one(part, before), Flaw::Overlap),
        (MAX_PORTS <= before.len(), Flaw::TooMany),
        (site.ports.len() == 1, Flaw::Alone),
    ])
}

#[tactic(auto, unfolding(crate::specs::beginning::Flaws::peer_flaw))]
fn peer_flaw(site: &Site, before: &[SitePart], part: SitePart) -> Option<Flaw>
    ensures { result ≡ peer_flaw (site_of site.now) before.now part }
{
    let overlaps = overlaps_one(part, &site.ports) || overlaps_one(part, before);
    first_flaw(&[
        (!is_subnet(part), Flaw::Prefix),
        (!part.has_station(part.host()), Flaw::End),
        (!is_port(site, part.number), Flaw::NoPort),
        (overlaps, Flaw::Overlap),
        (lacks_udp_of(site, part), Flaw::Udp),
        (
            MAX_PORT_PEERS <= count_of(part.number, before),
            Flaw::TooMany,
        ),
    ])
}

/// Whether a number is no network's, or that of the gateway's device, of a port or of another network behind a router.
fn is_taken(site: &Site, before: &[SitePart], number: u16) -> bool
    ensures { result ≡ is_taken (site_of site.now) before.now number }
{
    number == 0
        || number == ALL_NETWORKS
        || number == DEVICE_NETWORK
        || is_port(site, number)
        || is_given(number, before)
}

#[tactic(auto, unfolding(crate::specs::beginning::Flaws::router_flaw))]
fn router_flaw(site: &Site, before: &[SitePart], part: SitePart) -> Option<Flaw>
    ensures { result ≡ router_flaw (site_of site.now) before.now part }
{
    first_flaw(&[
        (is_taken(site, before, part.number), Flaw::Taken),
        (!is_beside(part, &site.ports), Flaw::NoPort),
        (lacks_udp(part, &site.ports), Flaw::Udp),
        (MAX_ROUTERS <= before.len(), Flaw::TooMany),
    ])
}

#[tactic(auto, unfolding(crate::specs::beginning::Flaws::operator_flaw))]
fn operator_flaw(site: &Site, before: &[SitePart], part: SitePart) -> Option<Flaw>
    ensures { result ≡ operator_flaw (site_of site.now) before.now part }
{
    let is_stranger = !is_station(part, &site.ports) && !is_station(part, &site.peers);
    first_flaw(&[
        (is_stranger, Flaw::NoPort),
        (lacks_udp(part, &site.ports), Flaw::Udp),
        (is_named(part, before), Flaw::Taken),
        (MAX_OPERATORS <= before.len(), Flaw::TooMany),
    ])
}

#[tactic(auto, unfolding(crate::specs::beginning::Flaws::manager_flaw))]
fn manager_flaw(site: &Site, before: &[SitePart], part: SitePart) -> Option<Flaw>
    ensures { result ≡ manager_flaw (site_of site.now) before.now part }
{
    first_flaw(&[
        (!is_port(site, part.number), Flaw::NoPort),
        (!is_at_port(site, part), Flaw::NoPort),
        (lacks_udp(part, &site.ports), Flaw::Udp),
        (is_given(part.number, before), Flaw::Taken),
        (is_given(part.number, &site.peers), Flaw::HasPeers),
    ])
}

/// What is wrong with a part that comes after these of its option.
fn flaw_of(site: &Site, option: SiteOption, before: &[SitePart], part: SitePart) -> Option<Flaw>
    ensures { result ≡ flaw_of (site_of site.now) option before.now part }
{
    match option {
        SiteOption::Port => port_flaw(site, before, part),
        SiteOption::Peer => peer_flaw(site, before, part),
        SiteOption::Router => router_flaw(site, before, part),
        SiteOption::Operator => operator_flaw(site, before, part),
        SiteOption::Manager => manager_flaw(site, before, part),
    }
}

/// The first of some parts of an option that is wrong.
fn wrong_among(site: &Site, option: SiteOption, parts: &[SitePart]) -> Option<WrongWord>
    ensures { result ≡ wrong_from (site_of site.now) option [] parts.now }
{
    for place in 0..parts.len() {
        if let Some(flaw) = flaw_of(site, option, &parts[..place], parts[place]) {
            return Some(WrongWord {
                option,
                place,
                flaw,
            });
        }
    }
    None
}

/// The first word of an option that is wrong.
fn wrong_of(site: &Site, option: SiteOption) -> Option<WrongWord>
    ensures { result ≡ wrong_of (site_of site.now) option }
{
    wrong_among(site, option, site.parts(option))
}

fn or_else(wrong: Option<WrongWord>, later: Option<WrongWord>) -> Option<WrongWord>
    ensures { result ≡ or_else wrong later }
{
    match wrong {
        Some(word) => Some(word),
        None => later,
    }
}

/// The first word that is wrong.
pub(crate) fn wrong_in(site: &Site) -> Option<WrongWord>
    ensures { result ≡ wrong_in (site_of site.now) }
{
    let writing = or_else(
        wrong_of(site, SiteOption::Operator),
        wrong_of(site, SiteOption::Manager),
    );
    let beyond = or_else(wrong_of(site, SiteOption::Router), writing);
    or_else(
        wrong_of(site, SiteOption::Port),
        or_else(wrong_of(site, SiteOption::Peer), beyond),
    )
}
