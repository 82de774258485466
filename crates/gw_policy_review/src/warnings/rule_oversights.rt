//! What rules surely lack.
ghost use Rattle.std.specs.Prelude.{◌≡◌, ◌++◌, ◌==◌, OnOk};
ghost use Rattle.std.specs.List.{list_all, list_any};
ghost use Rattle.gw_ask_sets.specs.shapes.Meeting.{overlaps};
ghost use Rattle.gw_configuration.specs.Subnet.{keys_of};
ghost use Rattle.gw_rules.specs.Bounds.{is_within};
ghost use Rattle.gw_rules.specs.Range.{holds};
ghost use Rattle.gw_rules.specs.Rule.{each_field};
ghost use Rattle.gw_script.specs.Order.{in_order};
ghost use Rattle.gw_policy_review.specs.warnings.Oversights.{admits_number, admits_passage, asks_beyond, behind_line, behind_lines};
ghost use Rattle.gw_policy_review.specs.warnings.Oversights.{behinds_lines, carries_field, front_words, is_behind, is_carried, is_of_port};
ghost use Rattle.gw_policy_review.specs.warnings.Oversights.{is_of_some_port, is_unsent, may_carry, names_near_stations, passes_to};
ghost use Rattle.gw_policy_review.specs.warnings.Oversights.{rule_oversights, share, unsent_lines, unsent_of, unsent_words};

use crate::permissions::Placed;
use crate::places::is_derived;
use gw_addr::put_text_number;
use gw_ask_sets::shapes::overlaps;
use gw_configuration::{Config, Port, Route, Subnet};
use gw_rules::{FieldName, Operation, Range, Rule};
use std::alloc::AllocError;

/// How many UDP ports there are.
const UDP_PORTS: u64 = 65536;

/// A rule of a configuration by its number, from 1, with the lines of the text on which the tables of the rules begin, or none if they
/// aren't known.
#[derive(Clone, Copy)]
struct NumberedRule<'a> {
    /// The configuration.
    config: &'a Config,
    /// The lines.
    lines: &'a [u32],
    /// The number.
    number: u16,
    /// The rule.
    rule: &'a Rule,
}

/// Appends what the rules lack, in their order, by the lines on which their tables begin.
pub(crate) fn put_rules(out: &mut Vec<u8>, config: &Config, lines: &[u32]) -> Result<(), AllocError>
    ensures { OnOk result (out.new.items ≡ out.old.items
        ++ in_order (rule_oversights config.now lines.now) 1 config.now.rules) }
{
    let rules = config.rules().rules();
    for place in 0..rules.len() {
        put_rule(out, config, lines, place as u16 + 1, &rules[place])?;
    }
    Ok(())
}

/// Appends what the rule of this number lacks.
fn put_rule(
    out: &mut Vec<u8>,
    config: &Config,
    lines: &[u32],
    number: u16,
    rule: &Rule,
) -> Result<(), AllocError>
    ensures { OnOk result (out.new.items ≡ out.old.items ++ rule_oversights config.now lines.now number rule.now) }
{
    let numbered = NumberedRule {
        config,
        lines,
        number,
        rule,
    };
    numbered.put_unsent(out)?;
    numbered.put_behinds(out)
}

impl NumberedRule<'_> {
    /// Appends how a line on the rule begins.
    fn put_front(&self, out: &mut Vec<u8>) -> Result<(), AllocError>
        ensures { OnOk result (out.new.items ≡ out.old.items
            ++ front_words self.now.config.now self.now.lines.now self.now.number self.now.rule.now) }
    {
        let placed = Placed {
            config: self.config,
            lines: self.lines,
        };
        out.extend_from_slice(b"warning: ")?;
        placed.put_rule(out, self.number, self.rule)?;
        out.extend_from_slice(b": ")
    }

    /// Appends a line each if none of the reads and none of the writes is sent that the rule allows in other networks.
    fn put_unsent(&self, out: &mut Vec<u8>) -> Result<(), AllocError>
        ensures { OnOk result (out.new.items ≡ out.old.items
            ++ unsent_lines self.now.config.now self.now.lines.now self.now.number self.now.rule.now) }
    {
        self.put_unsent_of(out, Operation::Read, &[12, 14])?;
        self.put_unsent_of(out, Operation::Write, &[15])
    }

    /// Appends that line of an operation, by the services with which it is asked for.
    fn put_unsent_of(
        &self,
        out: &mut Vec<u8>,
        operation: Operation,
        services: &[u64],
    ) -> Result<(), AllocError>
        ensures { OnOk result (out.new.items ≡ out.old.items
            ++ unsent_of self.now.config.now self.now.lines.now self.now.number self.now.rule.now operation services.now) }
    {
        if !is_unsent(self.config, self.rule, operation, services) {
            return Ok(());
        }
        self.put_front(out)?;
        out.extend_from_slice(unsent_words(operation))?;
        out.extend_from_slice(b", so none is sent\n")
    }

    /// Appends a line for each destination where the rule names no station, if its table is its own.
    fn put_behinds(&self, out: &mut Vec<u8>) -> Result<(), AllocError>
        ensures { OnOk result (out.new.items ≡ out.old.items
            ++ behinds_lines self.now.config.now self.now.lines.now self.now.number self.now.rule.now) }
    {
        if is_derived(self.config.tables(), self.number) {
            return Ok(());
        }
        self.put_each_behind(out, self.rule.ranges.destination_network.as_slice())
    }

    fn put_each_behind(&self, out: &mut Vec<u8>, ranges: &[Range]) -> Result<(), AllocError>
        ensures { OnOk result (out.new.items ≡ out.old.items
            ++ in_order (behind_lines self.now.config.now self.now.lines.now self.now.number self.now.rule.now) 1 ranges.now) }
    {
        for place in 0..ranges.len() {
            self.put_behind(out, place + 1, &ranges[place])?;
        }
        Ok(())
    }

    fn put_behind(&self, out: &mut Vec<u8>, item: usize, range: &Range) -> Result<(), AllocError>
        ensures { OnOk result (out.new.items ≡ out.old.items
            ++ behind_lines self.now.config.now self.now.lines.now self.now.number self.now.rule.now item range.now) }
    {
        if names_near_stations(self.config.ports(), self.rule.ranges.station.as_slice())
            && is_behind(self.config.routes(), range)
        {
            self.put_behind_line(out, item, range.low)
        } else {
            Ok(())
        }
    }

    fn put_behind_line(
        &self,
        out: &mut Vec<u8>,
        item: usize,
        network: u64,
    ) -> Result<(), AllocError>
        ensures { OnOk result (out.new.items ≡ out.old.items
            ++ behind_line self.now.config.now self.now.lines.now self.now.number self.now.rule.now item network) }
    {
        self.put_front(out)?;
        put_text_number(out, "destination: range ", item)?;
        put_text_number(out, ": network ", network)?;
        out.extend_from_slice(
            b" lies behind a router, and each station that the rule names is one of a port\n",
        )
    }
}

// ---- reads and writes that nobody passes on

fn overlaps_one(range: &Range, ranges: &[Range]) -> bool
    ensures { result ≡ list_any (overlaps range.now) ranges.now }
{
    ranges.iter().any(|other| overlaps(range, other))
}

/// Whether two lists of ranges have a number in common; a list without ranges has each.
pub(crate) fn share(one: &[Range], other: &[Range]) -> bool
    ensures { result ≡ share one.now other.now }
{
    one.is_empty() || other.is_empty() || overlap_any(one, other)
}

fn overlap_any(one: &[Range], other: &[Range]) -> bool
    ensures { result ≡ list_any (λ range. list_any (overlaps range) other.now) one.now }
{
    one.iter().any(|range| overlaps_one(range, other))
}

pub(crate) fn holds_number(number: u64, ranges: &[Range]) -> bool
    ensures { result ≡ list_any (holds number) ranges.now }
{
    ranges.iter().any(|range| range.holds(number))
}

/// Whether ranges admit this number; none admit each.
pub(crate) fn admits_number(number: u64, ranges: &[Range]) -> bool
    ensures { result ≡ admits_number number ranges.now }
{
    ranges.is_empty() || holds_number(number, ranges)
}

/// Whether ranges of operations admit that a message is passed on or distributed.
fn admits_passage(operations: &[Range]) -> bool
    ensures { result ≡ admits_passage operations.now }
{
    admits_number(Operation::Route.number(), operations)
        || admits_number(Operation::Cast.number(), operations)
}

/// Whether they admit that it is passed on, or that what it names is read or written there.
pub(crate) fn passes_to(operations: &[Range]) -> bool
    ensures { result ≡ passes_to operations.now }
{
    admits_number(Operation::Route.number(), operations)
        || admits_number(Operation::Read.number(), operations)
        || admits_number(Operation::Write.number(), operations)
}

/// Whether a rule may match, as to a field, the ask to pass on a message with this service of which another rule matches what it
/// names.
fn carries_field(service: u64, rule: &Rule, carrier: &Rule, field: FieldName) -> bool
    ensures { result ≡ carries_field service rule.now carrier.now field }
{
    let ranges = carrier.ranges(field).as_slice();
    match field {
        FieldName::Operation => admits_passage(ranges),
        FieldName::Service => admits_number(service, ranges),
        FieldName::ObjectType | FieldName::Instance | FieldName::Property | FieldName::Priority =>
            ranges.is_empty(),
        _ => share(rule.ranges(field).as_slice(), ranges),
    }
}

fn carries_all(service: u64, rule: &Rule, carrier: &Rule) -> bool
    ensures { result ≡ each_field (carries_field service rule.now carrier.now) }
{
    FieldName::ALL
        .iter()
        .all(|field| carries_field(service, rule, carrier, *field))
}

fn may_carry(service: u64, rule: &Rule, carrier: &Rule) -> bool
    ensures { result ≡ may_carry service rule.now carrier.now }
{
    carrier.allow && carries_all(service, rule, carrier)
}

fn has_carrier(rules: &[Rule], rule: &Rule, service: u64) -> bool
    ensures { result ≡ list_any (may_carry service rule.now) rules.now }
{
    rules
        .iter()
        .any(|carrier| may_carry(service, rule, carrier))
}

/// Whether the rule may match such messages, and one of these rules may pass them on.
fn is_carried(rules: &[Rule], rule: &Rule, service: u64) -> bool
    ensures { result ≡ is_carried rules.now rule.now service }
{
    admits_number(service, rule.ranges.service.as_slice()) && has_carrier(rules, rule, service)
}

fn is_any_carried(rules: &[Rule], rule: &Rule, services: &[u64]) -> bool
    ensures { result ≡ list_any (is_carried rules.now rule.now) services.now }
{
    services
        .iter()
        .any(|service| is_carried(rules, rule, *service))
}

/// Whether the rule names an operation, and destinations without the device's network.
fn asks_beyond(device: u64, operation: Operation, rule: &Rule) -> bool
    ensures { result ≡ asks_beyond device operation rule.now }
{
    let destinations = rule.ranges.destination_network.as_slice();
    holds_number(operation.number(), rule.ranges.operation.as_slice())
        && !destinations.is_empty()
        && !holds_number(device, destinations)
}

/// Whether the rule allows a read or a write in another network than the device's, of which no message with one of these services may
/// pass.
fn is_unsent(config: &Config, rule: &Rule, operation: Operation, services: &[u64]) -> bool
    ensures { result ≡ is_unsent config.now rule.now operation services.now }
{
    let device = u64::from(config.device().network.get());
    rule.allow
        && asks_beyond(device, operation, rule)
        && !is_any_carried(config.rules().rules(), rule, services)
}

/// The reads or the writes that no rule lets pass.
fn unsent_words(operation: Operation) -> &'static [u8]
    ensures { result.now ≡ unsent_words operation }
{
    match operation {
        Operation::Write => {
            b"operation: no rule lets the writes that it allows pass (route, service 15)"
        }
        _ => b"operation: no rule lets the reads that it allows pass (route, service 12 or 14)",
    }
}

// ---- stations of a port in a network behind a router

fn is_within_one(stations: &[Subnet], range: &Range) -> bool
    ensures { result ≡ list_any (λ subnet. is_within (keys_of subnet) range.now) stations.now }
{
    stations
        .iter()
        .any(|subnet| range.is_within(&subnet.keys()))
}

/// Whether a range has stations of the port alone: it lies in a subnet of its stations, and if it is one address, that has the port's
/// UDP port.
fn is_of_port(range: &Range, port: &Port) -> bool
    ensures { result ≡ is_of_port range.now port.now }
{
    (range.low != range.high || range.low % UDP_PORTS == u64::from(port.address.udp))
        && is_within_one(port.stations.as_slice(), range)
}

fn is_of_some_port(ports: &[Port], range: &Range) -> bool
    ensures { result ≡ is_of_some_port ports.now range.now }
{
    ports.iter().any(|port| is_of_port(range, port))
}

fn are_of_ports(ports: &[Port], stations: &[Range]) -> bool
    ensures { result ≡ list_all (is_of_some_port ports.now) stations.now }
{
    stations.iter().all(|range| is_of_some_port(ports, range))
}

/// Whether stations are named, and each is one of a port.
fn names_near_stations(ports: &[Port], stations: &[Range]) -> bool
    ensures { result ≡ names_near_stations ports.now stations.now }
{
    !stations.is_empty() && are_of_ports(ports, stations)
}

fn is_network_of_one(routes: &[Route], network: u64) -> bool
    ensures { result ≡ list_any (λ route. route.network == network) routes.now }
{
    routes
        .iter()
        .any(|route| u64::from(route.network.get()) == network)
}

/// Whether a range is one network, that of a route.
fn is_behind(routes: &[Route], range: &Range) -> bool
    ensures { result ≡ is_behind routes.now range.now }
{
    range.low == range.high && is_network_of_one(routes, range.low)
}
