//! What may appear only once in a configuration.
ghost use Rattle.std.specs.Prelude.{◌≡◌, ◌++◌, ◌∷◌, codes, length, map, nat_eq, option_map, slice_get, unwrap_or, IfOk, OnOk};
ghost use Rattle.std.specs.Cmp.Lexicographic.{pointwise};
ghost use Rattle.gw_configuration.specs.Duplicates as spec;
ghost use Rattle.gw_configuration.specs.Located.{located_view};
ghost use Rattle.gw_configuration.specs.Duplicates.{assertion_names, identifier, identifiers, names, peer_addresses, peers_twice, port_addresses, repetition, rule_names, second, set_names, twice};

use crate::{
    Assertion, ConfigFault, Device, Located, Object, ObjectValue, Parts, Place, Port, Route, Set,
};
use gw_addr::BdtEntry;
use gw_rules::Rule;
use std::alloc::{AllocError, Global};
use std::collections::BTreeSet;

/// Where something appears for the second time that may appear only once. `AllocError` if memory
/// was refused.
#[tactic(auto, unfolding(crate::specs::Duplicates::repetition))]
pub(crate) fn repetition<'a>(
    alloc: Global,
    parts: &Parts,
) -> Result<Option<Located<'a>>, AllocError>
    ensures { IfOk result (λ l. option_map located_view l ≡ repetition parts.now) }
{
    let (device, ports, objects) = (parts.device(), parts.ports(), parts.objects());
    if let Some(located) = network_twice(alloc, device, ports, parts.routes())? {
        return Ok(Some(located));
    }
    if let Some(located) = address_twice(alloc, ports)? {
        return Ok(Some(located));
    }
    if let Some(located) = peer_twice(alloc, ports)? {
        return Ok(Some(located));
    }
    if let Some(located) = identifier_twice(alloc, objects)? {
        return Ok(Some(located));
    }
    if let Some(located) = name_twice(alloc, device, objects)? {
        return Ok(Some(located));
    }
    if let Some(located) = set_twice(alloc, parts.sets())? {
        return Ok(Some(located));
    }
    if let Some(located) = rule_twice(alloc, parts.tables(), parts.rules().rules())? {
        return Ok(Some(located));
    }
    assertion_twice(alloc, parts.assertions())
}

/// This key appears there for the second time.
fn twice<'a>(place: Place, key: &'static str) -> Located<'a>
    ensures { located_view result ≡ spec.twice place key.now }
{
    Located::at_table(place, ConfigFault::Duplicate, Some(key))
}

fn network_twice<'a>(
    alloc: Global,
    device: &Device,
    ports: &[Port],
    routes: &[Route],
) -> Result<Option<Located<'a>>, AllocError>
    ensures { let numbers = map (λ port. port.network) ports.now
        ++ device.now.network ∷ map (λ route. route.network) routes.now in
        let found = option_map (spec.network_twice (length ports.now)) (second nat_eq numbers) in
        IfOk result (λ l. option_map located_view l ≡ found) }
{
    let mut all = Vec::new(alloc);
    put_port_networks(&mut all, ports)?;
    all.push(u64::from(device.network.get()))?;
    put_route_networks(&mut all, routes)?;
    match second(alloc, &all)? {
        Some(index) => Ok(Some(twice(network_place(ports.len(), index), "network"))),
        None => Ok(None),
    }
}

/// The table of a network, of so many ports, the device and the routes.
fn network_place(ports: usize, index: usize) -> Place
    ensures { twice result (codes "network") ≡ spec.network_twice ports index }
{
    if index < ports {
        Place::Port(index)
    } else if index == ports {
        Place::Device
    } else {
        Place::Route(index - ports - 1)
    }
}

fn put_port_networks(all: &mut Vec<u64>, ports: &[Port]) -> Result<(), AllocError>
    ensures { OnOk result (all.new.items ≡ all.old.items ++ map (λ port. port.network) ports.now) }
{
    for port in ports {
        all.push(u64::from(port.network.get()))?;
    }
    Ok(())
}

fn put_route_networks(all: &mut Vec<u64>, routes: &[Route]) -> Result<(), AllocError>
    ensures { OnOk result (all.new.items ≡ all.old.items ++ map (λ route. route.network) routes.now) }
{
    for route in routes {
        all.push(u64::from(route.network.get()))?;
    }
    Ok(())
}

/// Own and broadcast addresses are numbered in turn, port by port.
fn second_address(alloc: Global, ports: &[Port]) -> Result<Option<usize>, AllocError>
    ensures { IfOk result (λ p. p ≡ second nat_eq (port_addresses ports.now)) }
{
    let mut all = Vec::new(alloc);
    for port in ports {
        all.push(port.address.key48())?;
        all.push(port.broadcast.key48())?;
    }
    second(alloc, &all)
}

fn address_twice<'a>(alloc: Global, ports: &[Port]) -> Result<Option<Located<'a>>, AllocError>
    ensures { let found = option_map spec.address_twice (second nat_eq (port_addresses ports.now)) in
        IfOk result (λ l. option_map located_view l ≡ found) }
{
    match second_address(alloc, ports)? {
        Some(index) => {
            let key = if index % 2 == 0 {
                "address"
            } else {
                "broadcast"
            };
            Ok(Some(twice(Place::Port(index / 2), key)))
        }
        None => Ok(None),
    }
}

/// The first peer whose address one before it has, of the same port.
fn peer_twice<'a>(alloc: Global, ports: &[Port]) -> Result<Option<Located<'a>>, AllocError>
    ensures { IfOk result (λ l. option_map located_view l ≡ peers_twice 0 ports.now) }
{
    for (port, entry) in ports.iter().enumerate() {
        if let Some(peer) = second_peer(alloc, entry.peers.as_slice())? {
            return Ok(Some(twice(Place::Peer { port, peer }, "address")));
        }
    }
    Ok(None)
}

fn second_peer(alloc: Global, peers: &[BdtEntry]) -> Result<Option<usize>, AllocError>
    ensures { IfOk result (λ p. p ≡ second nat_eq (peer_addresses peers.now)) }
{
    let mut all = Vec::new(alloc);
    for peer in peers {
        all.push(peer.address.key48())?;
    }
    second(alloc, &all)
}

fn second_identifier(alloc: Global, objects: &[Object]) -> Result<Option<usize>, AllocError>
    ensures { IfOk result (λ p. p ≡ second nat_eq (identifiers objects.now)) }
{
    let mut all = Vec::new(alloc);
    for object in objects {
        all.push(identifier(object))?;
    }
    second(alloc, &all)
}

fn identifier_twice<'a>(
    alloc: Global,
    objects: &[Object],
) -> Result<Option<Located<'a>>, AllocError>
    ensures { let found = option_map spec.identifier_twice (second nat_eq (identifiers objects.now)) in
        IfOk result (λ l. option_map located_view l ≡ found) }
{
    match second_identifier(alloc, objects)? {
        Some(index) => Ok(Some(twice(Place::Object(index), "instance"))),
        None => Ok(None),
    }
}

/// Type and instance as one number of 32 bits (clause 20.2.14).
fn identifier(object: &Object) -> u64
    ensures { result ≡ identifier object.now }
{
    object.value.type_number() * (1 << 22) + u64::from(object.instance.get())
}

/// The name of the device comes before those of the objects.
fn second_name(
    alloc: Global,
    device: &Device,
    objects: &[Object],
) -> Result<Option<usize>, AllocError>
    ensures { let names = names device.now objects.now in
        IfOk result (λ p. p ≡ second (pointwise nat_eq) names) }
{
    let mut all = Vec::new(alloc);
    all.push(device.name.as_str())?;
    for object in objects {
        all.push(object.name.as_str())?;
    }
    second_text(alloc, &all)
}

fn name_twice<'a>(
    alloc: Global,
    device: &Device,
    objects: &[Object],
) -> Result<Option<Located<'a>>, AllocError>
    ensures { let names = names device.now objects.now in
        let found = option_map spec.name_twice (second (pointwise nat_eq) names) in
        IfOk result (λ l. option_map located_view l ≡ found) }
{
    match second_name(alloc, device, objects)? {
        Some(0) => Ok(Some(twice(Place::Device, "name"))),
        Some(index) => Ok(Some(twice(Place::Object(index - 1), "name"))),
        None => Ok(None),
    }
}

fn second_set(alloc: Global, sets: &[Set]) -> Result<Option<usize>, AllocError>
    ensures { IfOk result (λ p. p ≡ second (pointwise nat_eq) (set_names sets.now)) }
{
    let mut all = Vec::new(alloc);
    for set in sets {
        all.push(set.name.as_str())?;
    }
    second_text(alloc, &all)
}

fn set_twice<'a>(alloc: Global, sets: &[Set]) -> Result<Option<Located<'a>>, AllocError>
    ensures { let found = option_map spec.set_twice (second (pointwise nat_eq) (set_names sets.now)) in
        IfOk result (λ l. option_map located_view l ≡ found) }
{
    match second_set(alloc, sets)? {
        Some(index) => Ok(Some(twice(Place::Set(index), "name"))),
        None => Ok(None),
    }
}

fn second_rule(alloc: Global, rules: &[Rule]) -> Result<Option<usize>, AllocError>
    ensures { IfOk result (λ p. p ≡ second (pointwise nat_eq) (rule_names rules.now)) }
{
    let mut all = Vec::new(alloc);
    for rule in rules {
        all.push(rule.name.as_str())?;
    }
    second_text(alloc, &all)
}

/// The tables are those that the rules come from, in their order.
fn rule_twice<'a>(
    alloc: Global,
    tables: &[u16],
    rules: &[Rule],
) -> Result<Option<Located<'a>>, AllocError>
    ensures { let found = option_map (spec.rule_twice tables.now) (second (pointwise nat_eq) (rule_names rules.now)) in
        IfOk result (λ l. option_map located_view l ≡ found) }
{
    match second_rule(alloc, rules)? {
        Some(index) => Ok(Some(twice(Place::Rule(table_of(tables, index)), "name"))),
        None => Ok(None),
    }
}

/// The table that the rule at a position of the list comes from.
fn table_of(tables: &[u16], index: usize) -> usize
    ensures { result ≡ unwrap_or (slice_get tables.now index) 0 }
{
    match tables.get(index) {
        Some(table) => usize::from(*table),
        None => 0,
    }
}

fn second_assertion(alloc: Global, assertions: &[Assertion]) -> Result<Option<usize>, AllocError>
    ensures { IfOk result (λ p. p ≡ second (pointwise nat_eq) (assertion_names assertions.now)) }
{
    let mut all = Vec::new(alloc);
    for assertion in assertions {
        all.push(assertion.name.as_str())?;
    }
    second_text(alloc, &all)
}

fn assertion_twice<'a>(
    alloc: Global,
    assertions: &[Assertion],
) -> Result<Option<Located<'a>>, AllocError>
    ensures { let names = assertion_names assertions.now in
        let found = option_map spec.assertion_twice (second (pointwise nat_eq) names) in
        IfOk result (λ l. option_map located_view l ≡ found) }
{
    match second_assertion(alloc, assertions)? {
        Some(index) => Ok(Some(twice(Place::Assertion(index), "name"))),
        None => Ok(None),
    }
}

/// The position of the first number that also appears before it.
fn second(alloc: Global, numbers: &[u64]) -> Result<Option<usize>, AllocError>
    ensures { IfOk result (λ p. p ≡ second nat_eq numbers.now) }
{
    let mut seen = BTreeSet::new(alloc);
    for (index, number) in numbers.iter().enumerate() {
        if !seen.insert(*number)? {
            return Ok(Some(index));
        }
    }
    Ok(None)
}

/// The position of the first text that also appears before it.
fn second_text(alloc: Global, texts: &[&str]) -> Result<Option<usize>, AllocError>
    ensures { IfOk result (λ p. p ≡ second (pointwise nat_eq) (map (λ t. t.now) texts.now)) }
{
    let mut seen = BTreeSet::new(alloc);
    for (index, text) in texts.iter().enumerate() {
        if !seen.insert(*text)? {
            return Ok(Some(index));
        }
    }
    Ok(None)
}
