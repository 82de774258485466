//! The table of routes, and which way a network lies by it (clause 6).
ghost use Rattle.std.specs.Prelude.{◌≡◌, ◌+◌, ◌-◌, ◌≤◌, ◌<◌, ◌↔◌, ◌∷◌, ◌++◌, if◌then◌else◌};
ghost use Rattle.std.specs.Prelude.{[], ℕ, List, length, count_by, position};
ghost use Rattle.std.specs.Prelude.{true, false, is_some, nat_eq};
ghost use Rattle.std.specs.Prelude.{IsTrue, IsOk, IfOk, OnOk, OnErr, IfSome, IsErrOf};
ghost use Rattle.std.specs.List.{list_any};
ghost use Rattle.std.specs.Map.{keys_of};
ghost use Rattle.std.specs.Option.{option_or};
ghost use Rattle.indexmap.specs.IndexMap.{get, spare, insert_entry, insert_all};
ghost use Rattle.gw_tables.specs.routes.internal.Fixed.{IsWithinLimit, has_fixed, places, table_with};
ghost use Rattle.gw_tables.specs.routes.internal.News.{is_found};
ghost use Rattle.gw_tables.specs.routes.Table.{are_distinct, direct_but, routed_but};
ghost use Rattle.gw_tables.specs.routes.Table.{grants, growth, has_room, is_fixed, is_full_for, is_new};
ghost use Rattle.gw_tables.specs.declared.routes.route.Route.{Route};
ghost use Rattle.gw_tables.specs.routes.Table.{learned_by, route_by, routes_held, with_each, with_granted, with_learned};

use crate::routes::fault::LearnFault;
use crate::routes::route::{EVERYWHERE, Route, Way};
use gw_addr::{BipAddr, NetNum};
use indexmap::IndexMap;
use std::alloc::{AllocError, Global};
use std::marker::Model;

/// How many networks a table holds a route to, configured and learned together: a limit of our own.
pub const MAX_ROUTES: usize = 512;

/// Which way each network lies: the direct networks, which the gateway reaches itself, the
/// configured routes, and the learned ones, at most 512 routes in all. What is direct or configured
/// never changes.
#[derive(Drop)]
pub struct Routes {
    fixed: Fixed,
    learned: IndexMap<NetNum, Route>,
}

/// The part that no learning changes.
#[derive(Drop)]
struct Fixed {
    direct: Vec<NetNum>,
    configured: IndexMap<NetNum, Route>,
}

impl Model for Routes {
    ghost use Rattle.gw_tables.specs.routes.Table.{Table};
    ghost use Rattle.gw_tables.specs.routes.internal.Fixed.{IsWithinLimit, table_with};

    ghost Value = { Table };

    ghost view = { λ a. table_with a.fixed a.learned };

    ghost invariant = { λ a. IsWithinLimit (table_with a.fixed a.learned) };
}

impl Routes {
    ghost use Rattle.gw_tables.specs.routes.Table.{IsWayOf, Routed, new_networks, reachable_from, way};
    ghost use Rattle.gw_tables.specs.routes.History.{History, IsStateAfter, history_by, history_with};

    /// A table of these direct networks, which are the ports' in order of ports and then the
    /// device's, and of these configured routes in their order; nothing is learned. The only fault
    /// is want of memory for the configured routes.
    pub fn new(
        alloc: Global,
        direct: Vec<NetNum>,
        configured: Vec<(NetNum, Route)>,
    ) -> Result<Self, AllocError>
        // No network appears twice in the two lists together.
        requires distinct { IsTrue (are_distinct (direct.items ++ keys_of configured.items)) }
        requires few { length configured.items ≤ MAX_ROUTES }
        ensures made { IfOk result (λ t. IsStateAfter t direct.items configured.items []) }
        ensures no_routes { configured.items ≡ [] → IsOk result }
    {
        let configured = in_order(alloc, &configured)?;
        let fixed = Fixed { direct, configured };
        let learned = IndexMap::new(alloc);
        Ok(Routes { fixed, learned })
    }

    /// The networks that the gateway reaches itself: the ports' in order of ports, then the
    /// device's.
    pub fn direct(&self) -> &[NetNum]
        ensures { result.now ≡ self.now.direct }
    {
        self.fixed.direct.as_slice()
    }

    /// The learned networks, each with its route, in the order in which they were first learned. The
    /// only fault is want of memory for the list, and none is wanted if nothing is learned.
    pub fn learned(&self, alloc: Global) -> Result<Vec<(NetNum, Route)>, AllocError>
        ensures learned { IfOk result (λ learned. learned.items ≡ self.now.learned) }
        ensures few { length self.now.learned ≤ MAX_ROUTES }
        ensures none { self.now.learned ≡ [] → IsOk result }
    {
        let mut learned = Vec::with_capacity(alloc, self.learned.len())?;
        for (net, route) in &self.learned {
            learned.push((*net, *route))?;
        }
        Ok(learned)
    }

    /// How many networks have a learned route, 0 to 512.
    pub fn learned_count(&self) -> usize
        ensures { result ≡ length self.now.learned }
    {
        self.learned.len()
    }

    /// Which way the network of this number lies (clauses 6.2.2, 6.5). The number is a DNET: 65535
    /// is everywhere, and 0, which is no network's, is unknown.
    pub fn find(&self, net: u16) -> Way
        ensures way { result ≡ way self.now net }
        ensures port { IsWayOf self.now result }
    {
        let mut way = Way::Unknown;
        self.find_to(net, &mut way);
        way
    }

    /// Writes which way the network of this number lies into its place, as [`Routes::find`] answers it.
    pub fn find_to(&self, net: u16, found: &mut Way)
        ensures way { found.new ≡ way self.now net }
        ensures port { IsWayOf self.now found.new }
    {
        if net == EVERYWHERE {
            *found = Way::Everywhere;
            return;
        }
        let Some(net) = NetNum::new(net) else {
            *found = Way::Unknown;
            return;
        };
        match place_of(&self.fixed.direct, net) {
            Some(place) if place + 1 == self.fixed.direct.len() => *found = Way::Device,
            Some(place) => *found = Way::Port(place + 1),
            None => match route_to(&self.fixed.configured, &self.learned, net) {
                Some(route) => *found = Way::Router(route),
                None => *found = Way::Unknown,
            },
        }
    }

    /// Learns that a network is reached by a port and the next router there (clause 6.6). A
    /// network that was learned before keeps its place and takes the new route, which needs no
    /// memory; another goes last.
    ///
    /// The faults are our own rules: `Fixed` where the network is direct or configured; else `Full`
    /// where it isn't learned and 512 others have a route; else `Memory` where there is none for
    /// one more route. Then nothing changed.
    pub fn learn(&mut self, net: NetNum, port: u8, next: BipAddr) -> Result<(), LearnFault>
        ensures rows { OnOk result (self.new ≡ with_learned self.old net (route_by port next)) }
        ensures stands { OnOk result ((direct : List ℕ) (configured : Routed) (h : History) →
            IsStateAfter self.old direct configured h →
            IsStateAfter self.new direct configured ((net, route_by port next) ∷ h)) }
        ensures granted { OnOk result (IsTrue (grants self.old net)) }
        ensures full { IsErrOf result LearnFault.Full ↔ IsTrue (is_full_for self.old net) }
        ensures fixed { IsErrOf result LearnFault.Fixed ↔ IsTrue (is_fixed self.old net) }
        ensures memory { IsErrOf result LearnFault.Memory → IsTrue (is_new self.old net) }
        ensures err { OnErr result (self.new ≡ self.old) }
        ensures limit { routes_held self.new ≤ MAX_ROUTES }
    {
        if self.fixed.has(net) {
            return Err(LearnFault::Fixed);
        }
        if !self.fixed.has_room(&self.learned, net) {
            return Err(LearnFault::Full);
        }
        self.learned.insert(net, Route { port, next })?;
        Ok(())
    }

    /// Learns each network of one I-Am-Router-To-Network, in order, all by the port and the next
    /// router there (clause 6.6). One that is fixed or finds the table full is passed over (our
    /// own rule). The only fault is want of memory for those that are new; then nothing changed,
    /// so all are learned or none.
    pub fn learn_all(&mut self, nets: &[NetNum], port: u8, next: BipAddr) -> Result<(), AllocError>
        ensures rows { OnOk result (self.new ≡ with_each self.old nets.now (route_by port next)) }
        ensures stands { OnOk result ((direct : List ℕ) (configured : Routed) (h : History) →
            IsStateAfter self.old direct configured h → IsStateAfter self.new direct configured
            (history_with self.old nets.now (route_by port next) h)) }
        // Where none is new, or the table is full, there is no growth.
        ensures no_growth { growth self.old nets.now ≡ 0 → IsOk result }
        ensures err { OnErr result (self.new ≡ self.old) }
        ensures limit { routes_held self.new ≤ MAX_ROUTES }
    {
        let needed = self.growth(nets);
        self.learned.reserve(needed)?;
        self.fixed
            .learn_each(&mut self.learned, nets, Route { port, next });
        Ok(())
    }

    /// The networks of one I-Am-Router-To-Network that [`Routes::learn_all`] would learn for the first time, whatever
    /// their router, in their order and each once. The only fault is want of memory for the list.
    pub fn new_networks(&self, alloc: Global, nets: &[NetNum]) -> Result<Vec<NetNum>, AllocError>
        ensures { (route : Route) → IfOk result (λ new. new.items ≡ new_networks self.now nets.now route) }
    {
        let mut found = Vec::new(alloc);
        for net in nets {
            if self.is_found(&found, *net) {
                found.push(*net)?;
            }
        }
        Ok(found)
    }

    /// Whether a network would be learned for the first time, after these that were found.
    fn is_found(&self, found: &[NetNum], net: NetNum) -> bool
        ensures { result ≡ is_found self.now found.now net }
    {
        found.len() < self.room() && self.fixed.is_new(&self.learned, net) && !is_among(found, net)
    }

    /// Learns each network by its own route, in order, as learned routes that were kept. One that is
    /// fixed or finds the table full is passed over (our own rule). The only fault is want of memory
    /// for those that are new; then nothing changed, so all are learned or none.
    pub fn learn_by(&mut self, learned: &[(NetNum, Route)]) -> Result<(), AllocError>
        ensures rows { OnOk result (self.new ≡ learned_by self.old learned.now) }
        ensures stands { OnOk result ((direct : List ℕ) (configured : Routed) (h : History) →
            IsStateAfter self.old direct configured h → IsStateAfter self.new direct configured
            (history_by self.old learned.now h)) }
        // If none is new, or the table is full, there is no growth.
        ensures no_growth { growth self.old (keys_of learned.now) ≡ 0 → IsOk result }
        ensures err { OnErr result (self.new ≡ self.old) }
        ensures limit { routes_held self.new ≤ MAX_ROUTES }
    {
        let needed = self.growth_by(learned);
        self.learned.reserve(needed)?;
        self.fixed.learn_each_by(&mut self.learned, learned);
        Ok(())
    }

    /// How many routes more the networks may need.
    fn growth(&self, nets: &[NetNum]) -> usize
        ensures { result ≡ growth self.now nets.now }
    {
        self.fixed.new_among(&self.learned, nets).min(self.room())
    }

    /// How many routes more the networks with routes may need.
    fn growth_by(&self, learnings: &[(NetNum, Route)]) -> usize
        ensures { result ≡ growth self.now (keys_of learnings.now) }
    {
        self.fixed.new_by(&self.learned, learnings).min(self.room())
    }

    /// How many routes more the table may hold.
    fn room(&self) -> usize
        ensures { result ≡ MAX_ROUTES - routes_held self.now }
    {
        MAX_ROUTES - (self.fixed.configured.len() + self.learned.len())
    }

    /// The networks that lie another way than by this port, which a Who-Is-Router-To-Network without
    /// a network asks for there (clause 6.4): the other ports' in order of ports, the device's, then
    /// those of the routes by other ports, the configured before the learned. The order is our own.
    /// The only fault is want of memory for the list, if it isn't empty.
    pub fn reachable_from(&self, alloc: Global, port: u8) -> Result<Vec<NetNum>, AllocError>
        ensures reachable { IfOk result (λ nets. nets.items ≡ reachable_from self.now port) }
        ensures none { reachable_from self.now port ≡ [] → IsOk result }
    {
        let mut nets = Vec::new(alloc);
        push_direct(&mut nets, &self.fixed.direct, port)?;
        push_routed(&mut nets, &self.fixed.configured, port)?;
        push_routed(&mut nets, &self.learned, port)?;
        Ok(nets)
    }

    /// An equal table. The only fault is want of memory for it, if it isn't empty.
    pub fn copy(&self) -> Result<Routes, AllocError>
        ensures equal { IfOk result (λ copy. copy ≡ self.now) }
        ensures none { self.now.direct ≡ [] → routes_held self.now ≡ 0 → IsOk result }
    {
        let direct = copied_networks(&self.fixed.direct)?;
        let configured = copied_routes(&self.fixed.configured)?;
        let learned = copied_routes(&self.learned)?;
        Ok(Routes {
            fixed: Fixed { direct, configured },
            learned,
        })
    }
}

impl Fixed {
    /// Whether the way of a network is fixed.
    fn has(&self, net: NetNum) -> bool
        ensures { result ≡ has_fixed self.now net }
    {
        place_of(&self.direct, net).is_some() || self.configured.contains_key(&net)
    }

    /// Whether there is room for a network.
    fn has_room(&self, learned: &IndexMap<NetNum, Route>, net: NetNum) -> bool
        ensures { result ≡ has_room (table_with self.now learned.now) net }
    {
        learned.contains_key(&net) || self.configured.len() + learned.len() < MAX_ROUTES
    }

    /// How many of the networks are new to the table.
    fn new_among(&self, learned: &IndexMap<NetNum, Route>, nets: &[NetNum]) -> usize
        ensures { result ≡ count_by (is_new (table_with self.now learned.now)) nets.now }
    {
        nets.iter()
            .filter(|net| self.is_new(learned, **net))
            .count()
    }

    /// Whether a network is new to the table.
    fn is_new(&self, learned: &IndexMap<NetNum, Route>, net: NetNum) -> bool
        ensures { result ≡ is_new (table_with self.now learned.now) net }
    {
        !self.has(net) && !learned.contains_key(&net)
    }

    /// Learns each of the networks that may be learned, for which there is room.
    fn learn_each(&self, learned: &mut IndexMap<NetNum, Route>, nets: &[NetNum], route: Route)
        requires limit { IsWithinLimit (table_with self.now learned.old) }
        requires room { growth (table_with self.now learned.old) nets.now ≤ spare learned.old }
        ensures limit { IsWithinLimit (table_with self.now learned.new) }
        ensures rows { table_with self.now learned.new ≡
            with_each (table_with self.now learned.old) nets.now route }
    {
        for net in nets {
            self.learn_one(learned, *net, route);
        }
    }

    /// How many of the networks with routes are new to the table.
    fn new_by(&self, learned: &IndexMap<NetNum, Route>, learnings: &[(NetNum, Route)]) -> usize
        ensures { result ≡
            count_by (is_new (table_with self.now learned.now)) (keys_of learnings.now) }
    {
        learnings
            .iter()
            .filter(|learning| self.is_new(learned, learning.0))
            .count()
    }

    /// Learns each of the networks by its own route if it may be learned, for which there is room.
    fn learn_each_by(&self, learned: &mut IndexMap<NetNum, Route>, learnings: &[(NetNum, Route)])
        requires limit { IsWithinLimit (table_with self.now learned.old) }
        requires room { growth (table_with self.now learned.old) (keys_of learnings.now) ≤
            spare learned.old }
        ensures limit { IsWithinLimit (table_with self.now learned.new) }
        ensures rows { table_with self.now learned.new ≡
            learned_by (table_with self.now learned.old) learnings.now }
    {
        for (net, route) in learnings {
            self.learn_one(learned, *net, *route);
        }
    }

    /// Learns a network if it may be learned, where there is room for it.
    fn learn_one(&self, learned: &mut IndexMap<NetNum, Route>, net: NetNum, route: Route)
        requires limit { IsWithinLimit (table_with self.now learned.old) }
        requires room { places (table_with self.now learned.old) net ≤ spare learned.old }
        ensures limit { IsWithinLimit (table_with self.now learned.new) }
        ensures rows { table_with self.now learned.new ≡
            with_granted (table_with self.now learned.old) net route }
        ensures room { spare learned.old ≤
            spare learned.new + places (table_with self.now learned.old) net }
    {
        if self.has(net) || !self.has_room(learned, net) {
            return;
        }
        put(learned, net, route);
    }
}

/// Gives a network a route: one that is there keeps its place, and another goes last, for which
/// there is room.
fn put(routes: &mut IndexMap<NetNum, Route>, net: NetNum, route: Route)
    requires { is_some (get nat_eq routes.old net) ≡ false → 0 < spare routes.old }
    ensures entries { routes.new.entries ≡ insert_entry nat_eq routes.old.entries net route }
    ensures len { length routes.new.entries ≡
        length routes.old.entries + (if is_some (get nat_eq routes.old net) then 0 else 1) }
    ensures kept { is_some (get nat_eq routes.old net) ≡ true →
        spare routes.old ≤ spare routes.new }
    ensures used { spare routes.old ≤ spare routes.new + 1 }
{
    match routes.get_index_of(&net) {
        Some(place) => routes[place] = route,
        None => {
            routes.insert(net, route).unwrap();
        },
    }
}

/// The routes one after the other in a map, which has room for all from the start.
fn in_order(
    alloc: Global,
    routes: &[(NetNum, Route)],
) -> Result<IndexMap<NetNum, Route>, AllocError>
    ensures entries { IfOk result (λ map. map.entries ≡ insert_all nat_eq [] routes.now) }
    ensures none { routes.now ≡ [] → IsOk result }
{
    let mut map = IndexMap::with_capacity(alloc, routes.len())?;
    for (net, route) in routes {
        map.insert(*net, *route)?;
    }
    Ok(map)
}

/// Whether a network is in a list.
fn is_among(nets: &[NetNum], net: NetNum) -> bool
    ensures { result ≡ list_any (nat_eq net) nets.now }
{
    nets.iter().any(|held| net == *held)
}

/// The place of a network in a list.
fn place_of(nets: &[NetNum], net: NetNum) -> Option<usize>
    ensures place { result ≡ position (nat_eq net) nets.now }
    ensures within { IfSome result (λ place. place < length nets.now) }
{
    nets.iter().position(|held| net == *held)
}

/// The configured route of a network, else the learned one.
fn route_to(
    configured: &IndexMap<NetNum, Route>,
    learned: &IndexMap<NetNum, Route>,
    net: NetNum,
) -> Option<Route>
    ensures { result ≡ option_or (get nat_eq configured.now net) (get nat_eq learned.now net) }
{
    match configured.get(&net) {
        Some(route) => Some(*route),
        None => learned.get(&net).copied(),
    }
}

/// Adds the direct networks but the port's own.
fn push_direct(nets: &mut Vec<NetNum>, direct: &[NetNum], port: u8) -> Result<(), AllocError>
    ensures added { OnOk result (nets.new.items ≡ nets.old.items ++ direct_but port direct.now) }
    ensures none { direct_but port direct.now ≡ [] → IsOk result }
{
    let port = usize::from(port);
    if 1 <= port && port < direct.len() {
        nets.extend_from_slice(&direct[..port - 1])?;
        nets.extend_from_slice(&direct[port..])?;
    } else {
        nets.extend_from_slice(direct)?;
    }
    Ok(())
}

/// Adds the networks of the routes by other ports.
fn push_routed(
    nets: &mut Vec<NetNum>,
    routes: &IndexMap<NetNum, Route>,
    port: u8,
) -> Result<(), AllocError>
    ensures added { OnOk result
        (nets.new.items ≡ nets.old.items ++ routed_but port routes.now.entries) }
    ensures none { routed_but port routes.now.entries ≡ [] → IsOk result }
{
    for (net, route) in routes {
        if route.port != port {
            nets.push(*net)?;
        }
    }
    Ok(())
}

/// A list of the same networks. An empty one takes no memory.
fn copied_networks(nets: &Vec<NetNum>) -> Result<Vec<NetNum>, AllocError>
    ensures same { IfOk result (λ copy. copy.items ≡ nets.now.items) }
    ensures none { nets.now.items ≡ [] → IsOk result }
{
    let mut copy = Vec::with_capacity(*nets.allocator(), nets.len())?;
    copy.extend_from_slice(nets)?;
    Ok(copy)
}

/// A map with equal entries in the same order. An empty one takes no memory.
fn copied_routes(routes: &IndexMap<NetNum, Route>) -> Result<IndexMap<NetNum, Route>, AllocError>
    ensures same { IfOk result (λ copy. copy.entries ≡ routes.now.entries) }
    ensures none { routes.now.entries ≡ [] → IsOk result }
{
    if routes.is_empty() {
        return Ok(IndexMap::new(*routes.allocator()));
    }
    routes.clone()
}
