//! The asks that assertions are judged by: those of the shapes, without some that no event raises.
ghost use Rattle.std.specs.Prelude.{◌≡◌, ◌≤◌, ◌&&◌, ◌||◌, map, not, IfOk, OnOk, length};
ghost use Rattle.gw_configuration.specs.Subnet.{keys_of};
ghost use Rattle.gw_rules.specs.Ask.{Ask as SpecAsk};
ghost use Rattle.gw_rules.specs.Rule.{matches};
ghost use Rattle.gw_ask_sets.specs.assertions.Asserted.{enters_at, enters_home, host_keys};
ghost use Rattle.gw_ask_sets.specs.assertions.internal.Unraised.{AreAsserted, enter_rule, exactly, homeward_rule, matches_some, rule_for, station_keys};
ghost use Rattle.gw_ask_sets.specs.regions.Regions.{lies, lies_in_one};
ghost use Rattle.gw_ask_sets.specs.shapes.Regions.{region_of};

use crate::regions::coverage::{Coverage, coverage_of};
use crate::regions::ranges::without;
use crate::regions::{Region, default_rule, part};
use crate::shapes::{Shape, region_of, shapes_of};
use gw_addr::{BipAddr, Sequence};
use gw_configuration::{Config, Port, Stations};
use gw_rules::{Operation, Range, Ranges, Rule};
use std::alloc::{AllocError, Global};

/// How many UDP ports there are.
const PORTS: u64 = 1 << 16;

/// One number as the ranges of a field.
fn exactly(alloc: Global, number: u64) -> Result<Ranges, AllocError>
    ensures { IfOk result (λ made. made ≡ exactly number) }
{
    let mut ranges = Sequence::new(alloc);
    ranges.push(Range::only(number))?;
    Ok(ranges)
}

/// A rule of this operation that names no other field.
fn rule_for(alloc: Global, operation: Operation) -> Result<Rule, AllocError>
    ensures { IfOk result (λ rule. rule ≡ rule_for operation) }
{
    let mut rule = default_rule(alloc);
    rule.ranges.operation = exactly(alloc, operation.number())?;
    Ok(rule)
}

/// What is routed to the device's network.
fn homeward_rule(alloc: Global, device: u64) -> Result<Rule, AllocError>
    ensures { IfOk result (λ rule. rule ≡ homeward_rule device) }
{
    let mut rule = rule_for(alloc, Operation::Route)?;
    rule.ranges.destination_network = exactly(alloc, device)?;
    Ok(rule)
}

/// Who enters by the port of a number, of these keys: of all, if there is none.
fn enter_rule(alloc: Global, number: u64, keys: Ranges) -> Result<Rule, AllocError>
    ensures { IfOk result (λ rule. rule ≡ enter_rule number keys) }
{
    let mut rule = rule_for(alloc, Operation::Enter)?;
    rule.ranges.port = exactly(alloc, number)?;
    rule.ranges.source_key = keys;
    Ok(rule)
}

/// The keys of an IPv4 address at every UDP port.
fn host_keys(address: BipAddr) -> Range
    ensures { result ≡ host_keys address }
{
    let low = u64::from(u32::from_be_bytes(address.ip)) * PORTS;
    Range {
        low,
        high: low + (PORTS - 1),
    }
}

/// The keys of all subnets.
fn subnet_keys(alloc: Global, stations: &Stations) -> Result<Ranges, AllocError>
    ensures { IfOk result (λ keys. keys ≡ map keys_of stations.now) }
{
    let mut keys = Sequence::new(alloc);
    for subnet in stations.as_slice() {
        keys.push(subnet.keys())?;
    }
    Ok(keys)
}

/// The keys of a port's stations.
fn station_keys(alloc: Global, port: &Port) -> Result<Ranges, AllocError>
    ensures { IfOk result (λ keys. keys ≡ station_keys port.now) }
{
    let keys = subnet_keys(alloc, &port.stations)?;
    let reserved = [Range::only(port.address.key48()), host_keys(port.broadcast)];
    without(alloc, keys.as_slice(), &reserved)
}

/// The rule of those who enter by a port without an ask: of all, if it has no stations, else of these, if there are some.
fn home_rule(alloc: Global, number: u64, port: &Port) -> Result<Option<Rule>, AllocError>
    ensures { IfOk result (λ rule. (ask : SpecAsk) → matches_some rule ask ≡ enters_at number port.now ask) }
{
    if port.stations.as_slice().is_empty() {
        let rule = enter_rule(alloc, number, Sequence::new(alloc))?;
        return Ok(Some(rule));
    }
    let keys = station_keys(alloc, port)?;
    if keys.is_empty() {
        return Ok(None);
    }
    let rule = enter_rule(alloc, number, keys)?;
    Ok(Some(rule))
}

/// Puts the asks of a region that the rule doesn't match after those that are there.
fn push_outside(
    alloc: Global,
    out: &mut Vec<Region>,
    rule: &Rule,
    region: Region,
) -> Result<(), AllocError>
    ensures { OnOk result ((ask : SpecAsk) → lies_in_one out.new.items ask
        ≡ (lies_in_one out.old.items ask || (lies region ask && not (matches rule.now ask)))) }
{
    match coverage_of(rule, &region) {
        Coverage::Nothing => {
            out.push(region)?;
            Ok(())
        }
        Coverage::All => Ok(()),
        Coverage::Perhaps => {
            let mut inner = region;
            part(alloc, out, rule, &mut inner)?;
            Ok(())
        }
    }
}

/// The asks of the regions that the rule doesn't match.
fn outside(alloc: Global, regions: Vec<Region>, rule: &Rule) -> Result<Vec<Region>, AllocError>
    ensures { IfOk result (λ made. (ask : SpecAsk) →
        lies_in_one made.items ask ≡ (lies_in_one regions.items ask && not (matches rule.now ask))) }
{
    let mut rest = regions;
    let mut out = Vec::new(alloc);
    while let Some(region) = rest.pop() {
        push_outside(alloc, &mut out, rule, region)?;
    }
    Ok(out)
}

/// The asks of the regions but of those who enter by a port of theirs.
fn without_enters(
    alloc: Global,
    regions: Vec<Region>,
    number: u64,
    port: &Port,
) -> Result<Vec<Region>, AllocError>
    ensures { IfOk result (λ made. (ask : SpecAsk) →
        lies_in_one made.items ask ≡ (lies_in_one regions.items ask && not (enters_at number port.now ask))) }
{
    match home_rule(alloc, number, port)? {
        Some(rule) => outside(alloc, regions, &rule),
        None => Ok(regions),
    }
}

/// The same of all ports.
fn without_all_enters(
    alloc: Global,
    regions: Vec<Region>,
    ports: &[Port],
) -> Result<Vec<Region>, AllocError>
    requires { length ports.now ≤ 8 }
    ensures { IfOk result (λ made. (ask : SpecAsk) →
        lies_in_one made.items ask ≡ (lies_in_one regions.items ask && not (enters_home 1 ports.now ask))) }
{
    let mut rest = regions;
    for (place, port) in ports.iter().enumerate() {
        rest = without_enters(alloc, rest, place as u64 + 1, port)?;
    }
    Ok(rest)
}

fn regions_of(alloc: Global, shapes: &[Shape]) -> Result<Vec<Region>, AllocError>
    ensures { IfOk result (λ regions. regions.items ≡ map region_of shapes.now) }
{
    let mut regions = Vec::new(alloc);
    for shape in shapes {
        let region = region_of(alloc, shape)?;
        regions.push(region)?;
    }
    Ok(regions)
}

/// The asks that a configuration's assertions are judged by. An `Err` if there is no memory.
pub(crate) fn asserted(alloc: Global, config: &Config) -> Result<Vec<Region>, AllocError>
    ensures { IfOk result (λ made. AreAsserted config.now made.items) }
{
    let shapes = shapes_of(alloc, config)?;
    let regions = regions_of(alloc, &shapes)?;
    let home = homeward_rule(alloc, u64::from(config.device().network.get()))?;
    let rest = outside(alloc, regions, &home)?;
    without_all_enters(alloc, rest, config.ports())
}
