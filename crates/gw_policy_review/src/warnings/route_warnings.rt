//! Warnings of routes.
ghost use Rattle.gw_addr.specs.Appending.{IsAppended};
ghost use Rattle.gw_script.specs.Order.{in_order};
ghost use Rattle.gw_policy_review.specs.warnings.Warnings.{next_lines, route_lines, way_lines};

use crate::warnings::oddity::{Oddity, put_owned, put_where};
use crate::warnings::port_warnings::{PlacedPort, is_same, owner, put_unusual};
use crate::warnings::spot::Spot;
use crate::warnings::subnet::is_elsewhere;
use gw_addr::BipAddr;
use gw_configuration::{Port, Route};
use std::alloc::AllocError;

/// Appends the lines of the routes by these ports in their order.
pub(crate) fn put_routes(
    out: &mut Vec<u8>,
    ports: &[Port],
    routes: &[Route],
) -> Result<(), AllocError>
    ensures { IsAppended (in_order (route_lines ports.now) 0 routes.now) out.old out.new result }
{
    for (index, route) in routes.iter().enumerate() {
        put_route(out, ports, index, route)?;
    }
    Ok(())
}

fn put_route(
    out: &mut Vec<u8>,
    ports: &[Port],
    index: usize,
    route: &Route,
) -> Result<(), AllocError>
    ensures { IsAppended (route_lines ports.now index route.now) out.old out.new result }
{
    let place = usize::from(route.port).saturating_sub(1);
    put_next(out, ports, index, route.next, place)
}

/// Appends the lines of a route to this router by the port at this position, where there is one.
fn put_next(
    out: &mut Vec<u8>,
    ports: &[Port],
    index: usize,
    next: BipAddr,
    place: usize,
) -> Result<(), AllocError>
    ensures { IsAppended (next_lines ports.now index next place) out.old out.new result }
{
    match ports.get(place) {
        Some(port) => put_way(out, &PlacedPort { ports, place, port }, index, next),
        None => Ok(()),
    }
}

/// Appends the lines of a route to this router by this port.
fn put_way(
    out: &mut Vec<u8>,
    by: &PlacedPort<'_>,
    index: usize,
    next: BipAddr,
) -> Result<(), AllocError>
    ensures { IsAppended (way_lines by.now.ports.now index next by.now.place by.now.port.now) out.old out.new result }
{
    let spot = Spot::Next(index);
    let broadcasts = is_same(next, by.port.broadcast);
    let elsewhere = is_elsewhere(by.port.address, by.port.broadcast, next);
    put_unusual(out, spot, next)?;
    put_owned(out, spot, next, owner(by.ports, next))?;
    put_where(out, broadcasts, spot, next, Oddity::IsBroadcast(by.place))?;
    put_where(out, elsewhere, spot, next, Oddity::Elsewhere(by.place))
}
