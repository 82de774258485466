//! Which learned routes a gateway takes over.
ghost use Rattle.std.specs.Prelude.{◌≡◌, ◌≤◌, length, filter_map, option_copied, IfOk};
ghost use Rattle.gw_addr.specs.declared.TheConstants.{MAX_PORTS};
ghost use Rattle.gw_state.specs.Carried.{number_now, port_then, route_from, routes_carried};

use crate::tables::is_port;
use crate::{Saved, SavedPort};
use gw_addr::NetNum;
use gw_configuration::Port;
use gw_tables::routes::Route;
use std::alloc::{AllocError, Global};

impl Saved {
    /// The learned routes by the ports that are still configured, in their order, each under the number
    /// that its port has now. The only fault is want of memory.
    pub fn carry_routes(
        &self,
        alloc: Global,
        ports: &[Port],
    ) -> Result<Vec<(NetNum, Route)>, AllocError>
        requires few { length ports.now ≤ MAX_PORTS }
        ensures { IfOk result (λ routes. routes.items ≡ routes_carried ports.now self.now) }
    {
        routes_of(alloc, ports, self.ports(), self.routes())
    }
}

/// The routes by the ports that are still there.
fn routes_of(
    alloc: Global,
    ports: &[Port],
    saved: &[SavedPort],
    learned: &[(NetNum, Route)],
) -> Result<Vec<(NetNum, Route)>, AllocError>
    requires few { length ports.now ≤ MAX_PORTS }
    ensures { IfOk result (λ routes.
        routes.items ≡ filter_map (route_from ports.now saved.now) learned.now) }
{
    let mut routes = Vec::new(alloc);
    for one in learned {
        if let Some(route) = route_from(ports, saved, *one) {
            routes.push(route)?;
        }
    }
    Ok(routes)
}

/// A route by the same port under the number that it has now, or none if the port isn't there any more.
pub fn route_from(
    ports: &[Port],
    saved: &[SavedPort],
    learned: (NetNum, Route),
) -> Option<(NetNum, Route)>
    requires { length ports.now ≤ MAX_PORTS }
    ensures { result ≡ route_from ports.now saved.now learned }
{
    let (network, route) = learned;
    let port = number_now(ports, port_then(saved, usize::from(route.port))?)?;
    let next = route.next;
    Some((network, Route { port, next }))
}

/// The port that had this number, counted from 1.
fn port_then(saved: &[SavedPort], number: usize) -> Option<&SavedPort>
    ensures { option_copied result ≡ port_then saved.now number }
{
    if number == 0 {
        return None;
    }
    saved.get(number - 1)
}

/// The number, counted from 1, that the port has now which was saved so.
fn number_now(ports: &[Port], saved: &SavedPort) -> Option<u8>
    requires { length ports.now ≤ MAX_PORTS }
    ensures { result ≡ number_now 1 ports.now saved.now }
{
    for (place, port) in ports.iter().enumerate() {
        if is_port(port, saved) {
            return Some(place as u8 + 1);
        }
    }
    None
}
