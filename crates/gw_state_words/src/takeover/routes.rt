//! What is found of learned routes.
ghost use Rattle.std.specs.Prelude.{◌≡◌, ◌++◌, find, map, nat_eq, option_copied, IfOk, OnOk};
ghost use Rattle.std.specs.List.{list_any};
ghost use Rattle.gw_state_words.specs.takeover.Findings.{fate_beside, finding_of_route, is_own, is_routed, is_same_route, refusal};
ghost use Rattle.gw_state_words.specs.takeover.Findings.{route_fate, route_finding, routes_kept};

use crate::takeover::{RouteFate, RouteFinding, TakeoverFinding};
use gw_addr::NetNum;
use gw_configuration::{Config, Port, Route as ConfiguredRoute};
use gw_relay::first_table;
use gw_state::{Saved, SavedPort, route_from};
use gw_tables::routes::Route;
use std::alloc::{AllocError, Global};

/// The learned routes that a gateway of this configuration has once it has taken over those of the state.
pub(crate) fn routes_kept(
    alloc: Global,
    config: &Config,
    saved: &Saved,
) -> Result<Vec<(NetNum, Route)>, AllocError>
    ensures { IfOk result (λ kept. kept.items ≡ routes_kept config.now saved.now) }
{
    let carried = saved.carry_routes(alloc, config.ports())?;
    let mut table = first_table(alloc, config)?;
    table.learn_by(&carried)?;
    table.learned(alloc)
}

/// Adds what is found of the learned routes, in order, if these are kept.
pub(crate) fn add_routes(
    found: &mut Vec<TakeoverFinding>,
    config: &Config,
    saved: &Saved,
    kept: &[(NetNum, Route)],
) -> Result<(), AllocError>
    ensures { OnOk result (found.new.items ≡ found.old.items ++
        map (finding_of_route config.now saved.now.ports kept.now) saved.now.routes) }
{
    for learned in saved.routes() {
        found.push(finding_of_route(config, saved.ports(), kept, learned))?;
    }
    Ok(())
}

/// What is found of a learned route.
fn finding_of_route(
    config: &Config,
    ports: &[SavedPort],
    kept: &[(NetNum, Route)],
    learned: &(NetNum, Route),
) -> TakeoverFinding
    ensures { result ≡ finding_of_route config.now ports.now kept.now learned.now }
{
    let now = route_from(config.ports(), ports, *learned);
    TakeoverFinding::Route(route_finding(config, kept, learned, now))
}

/// What is found of a learned route, which is this one now or by no port that is there.
fn route_finding(
    config: &Config,
    kept: &[(NetNum, Route)],
    learned: &(NetNum, Route),
    now: Option<(NetNum, Route)>,
) -> RouteFinding
    ensures { result ≡ route_finding config.now kept.now learned.now now }
{
    let (network, route) = *learned;
    match now {
        Some((net, way)) => RouteFinding {
            network: network.get(),
            port: Some(way.port),
            next: route.next,
            fate: route_fate(config, kept, net, way),
        },
        None => RouteFinding {
            network: network.get(),
            port: None,
            next: route.next,
            fate: RouteFate::NoPort,
        },
    }
}

/// Whether a route by a port that is there is taken over, or why not.
fn route_fate(config: &Config, kept: &[(NetNum, Route)], network: NetNum, route: Route) -> RouteFate
    ensures { result ≡ route_fate config.now kept.now (network, route) }
{
    match route_kept(kept, network) {
        Some(other) => fate_beside(route, *other),
        None => refusal(config, network),
    }
}

fn route_kept(kept: &[(NetNum, Route)], network: NetNum) -> Option<&(NetNum, Route)>
    ensures { option_copied result ≡ find (λ e. nat_eq network e.0) kept.now }
{
    kept.iter().find(|entry| network == entry.0)
}

/// What becomes of a route beside the one to its network that is kept.
fn fate_beside(route: Route, kept: (NetNum, Route)) -> RouteFate
    ensures { result ≡ fate_beside route kept }
{
    if is_same_route(kept.1, route) {
        RouteFate::TakenOver
    } else {
        RouteFate::Replaced
    }
}

fn is_same_route(a: Route, b: Route) -> bool
    ensures { result ≡ is_same_route a b }
{
    a.port == b.port && a.next == b.next
}

/// Why a network has no learned route, though the port of one is there.
fn refusal(config: &Config, network: NetNum) -> RouteFate
    ensures { result ≡ refusal config.now network }
{
    if is_own(config, network) {
        return RouteFate::Own;
    }
    if is_routed(config.routes(), network) {
        return RouteFate::Configured;
    }
    RouteFate::Full
}

fn is_own(config: &Config, network: NetNum) -> bool
    ensures { result ≡ is_own config.now network }
{
    has_port(config.ports(), network) || network == config.device().network
}

fn has_port(ports: &[Port], network: NetNum) -> bool
    ensures { result ≡ list_any (λ p. nat_eq network p.network) ports.now }
{
    ports.iter().any(|port| network == port.network)
}

fn is_routed(routes: &[ConfiguredRoute], network: NetNum) -> bool
    ensures { result ≡ list_any (λ r. nat_eq network r.network) routes.now }
{
    routes.iter().any(|route| network == route.network)
}
