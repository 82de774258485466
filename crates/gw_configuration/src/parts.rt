//! The parts of a configuration, before the check for what appears twice.
ghost use Rattle.std.specs.Prelude.{◌≡◌, ◌≤◌, ◌==◌, ◌&&◌, ◌||◌, not, Some, None, length, if◌then◌else◌, IsTrue};
ghost use Rattle.std.specs.List.{list_all};
ghost use Rattle.gw_addr.specs.declared.TheConstants.{MAX_PORTS};
ghost use Rattle.gw_rules.specs.Bounds.{are_bounded, is_within};
ghost use Rattle.gw_rules.specs.Format.{names_stations};
ghost use Rattle.gw_rules.specs.Rule.{has_few_ranges};
ghost use Rattle.gw_rules.specs.RuleList.{has_no_quiet, keeps_counts as has_short_fields};
ghost use Rattle.gw_configuration.specs.Configuration.{Configuration, are_counted, are_named, are_places, has_long_fields, is_assertable, is_by, is_configurable, is_managed, is_named, is_plain, is_plain_port, keeps_assertions, keeps_limits, keeps_rules, policing_of};

use crate::assertion::MAX_ASSERTIONS;
use crate::{Assertion, Device, Networks, Object, Policing, Port, Route, Set, Text, TopValues};
use gw_addr::{MAX_PORTS, Sequence};
use gw_rules::{
    FieldName, Fields, Format, MAX_LONG_RANGES, MAX_RANGES, MAX_RULES, Range, Ranges, Rule,
    RuleList, RuleName,
};
use std::marker::Model;

/// How many routes it starts with at most.
pub const MAX_ROUTES: usize = 512;
/// How many objects its device has at most, beside the Device object.
pub const MAX_OBJECTS: usize = 256;

/// The parts of a configuration, each in the order of its text. Contracts see them.
pub struct Parts {
    top: TopValues,
    device: Device,
    ports: Sequence<Port>,
    routes: Sequence<Route>,
    objects: Sequence<Object>,
    policy: Policing,
}

// By hand: a derived one is proved part by part wherever one is dropped (docs/GATE.md).
impl Drop for Parts {
    fn drop(self) {
        let Parts {
            top: _,
            device: _,
            ports: _,
            routes: _,
            objects: _,
            policy: _,
        } = self;
    }
}

impl Model for Parts {
    ghost use Rattle.std.specs.Prelude.{◌≡◌, ◌≤◌, ◌||◌, ◌&&◌, length, not, IsTrue};
    ghost use Rattle.std.specs.List.{list_all};
    ghost use Rattle.gw_rules.specs.Format.{names_stations};
    ghost use Rattle.gw_addr.specs.declared.TheConstants.{MAX_PORTS};
    ghost use Rattle.gw_configuration.specs.Configuration.{Configuration, are_named, is_by, is_managed, is_plain, keeps_assertions, keeps_rules};

    ghost Value = { Configuration };

    ghost view = { λ c. record {
      format = c.top.format;
      announce = c.top.announce;
      device = c.device;
      ports = c.ports;
      routes = c.routes;
      objects = c.objects;
      rules = c.policy.rules;
      tables = c.policy.tables;
      notes = c.policy.notes;
      audits = c.policy.audits;
      written = c.policy.written;
      sets = c.policy.sets;
      assertions = c.policy.assertions;
    } };

    ghost invariant = { λ c. (1 ≤ length c.ports) × ((length c.ports ≤ MAX_PORTS) × ((length c.routes ≤ 512)
        × ((length c.objects ≤ 256) × (IsTrue (list_all (is_by (length c.ports)) c.routes)
        × (IsTrue (are_named c.device c.objects) × (IsTrue (list_all is_managed c.ports)
        × (IsTrue (keeps_rules c.top.format c.policy)
        × (IsTrue (keeps_assertions c.policy.assertions)
        × IsTrue (names_stations c.top.format || (not c.top.announce && is_plain c.ports c.policy)))))))))) };
}

impl Parts {
    /// These parts, or `None` if a limit isn't kept: there is no port or more than 8, there are more
    /// than 512 routes or 256 objects, a route is by a port that isn't there, the device or an object has
    /// an empty name, a port isn't managed, there isn't a table, a note or an audit for each rule, the tables aren't
    /// those of a text that has at most 512, in order, there are more than 512 assertions, a rule or an assertion is
    /// named `default` or names what its field can't have, or an assertion has more than 256 ranges for a field; or if
    /// the format is 1 or 2, and networks are announced, a port has stations or another broadcast manager, there is a
    /// set, an assertion, a note that isn't empty, a rule that is audited or quiet or has more than four ranges for a
    /// field, or a table whose rule isn't the one of its position.
    pub fn new(
        top: TopValues,
        device: Device,
        networks: Networks,
        objects: Sequence<Object>,
        policy: Policing,
    ) -> Option<Self>
        ensures { let parts : Configuration = record {
          format = top.format;
          announce = top.announce;
          device = device;
          ports = networks.ports;
          routes = networks.routes;
          objects = objects;
          rules = policy.rules;
          tables = policy.tables;
          notes = policy.notes;
          audits = policy.audits;
          written = policy.written;
          sets = policy.sets;
          assertions = policy.assertions;
        } in result ≡ (if keeps_limits parts then Some parts else None) }
    {
        let Networks { ports, routes } = networks;
        let few = !ports.is_empty()
            && ports.len() <= MAX_PORTS
            && routes.len() <= MAX_ROUTES
            && objects.len() <= MAX_OBJECTS;
        if few
            && are_by(ports.len(), routes.as_slice())
            && are_named(&device, objects.as_slice())
            && are_managed(ports.as_slice())
            && keeps_rules(top.format, &policy)
            && keeps_assertions(policy.assertions.as_slice())
            && (top.format.names_stations()
                || (!top.announce && is_plain(ports.as_slice(), &policy)))
        {
            Some(Parts {
                top,
                device,
                ports,
                routes,
                objects,
                policy,
            })
        } else {
            None
        }
    }

    /// The format of the policy.
    pub fn format(&self) -> Format
        ensures format { result ≡ self.now.format }
        // In formats 1 and 2 nothing is announced, no port has stations or another broadcast manager, there is no
        // set, no note, no audit and no assertion, no rule has more than four ranges for a field or is quiet, and
        // each is that of its own table.
        ensures plain { IsTrue (names_stations self.now.format
            || (not self.now.announce && is_plain self.now.ports (policing_of self.now))) }
    {
        self.top.format
    }

    /// Whether it announces networks.
    pub fn announces(&self) -> bool
        ensures { result ≡ self.now.announce }
    {
        self.top.announce
    }

    /// The gateway's own device, which has a name.
    pub fn device(&self) -> &Device
        ensures device { result.now ≡ self.now.device }
        ensures named { IsTrue (is_named self.now.device.name) }
    {
        &self.device
    }

    /// The ports in order, 1 to 8 of them: the first is port 1.
    pub fn ports(&self) -> &[Port]
        ensures ports { result.now ≡ self.now.ports }
        ensures some { 1 ≤ length self.now.ports }
        ensures most { length self.now.ports ≤ MAX_PORTS }
        ensures managed { IsTrue (list_all is_managed self.now.ports) }
    {
        self.ports.as_slice()
    }

    /// The routes in order, at most 512, each by one of the ports.
    pub fn routes(&self) -> &[Route]
        ensures routes { result.now ≡ self.now.routes }
        ensures most { length self.now.routes ≤ 512 }
        ensures by { IsTrue (list_all (is_by (length self.now.ports)) self.now.routes) }
    {
        self.routes.as_slice()
    }

    /// The objects in order, at most 256, each with a name.
    pub fn objects(&self) -> &[Object]
        ensures objects { result.now ≡ self.now.objects }
        ensures most { length self.now.objects ≤ 256 }
        ensures named { IsTrue (list_all (λ object. is_named object.name) self.now.objects) }
    {
        self.objects.as_slice()
    }

    /// The policy, of rules whose fields can have what they name, and of which none is named `default`.
    pub fn rules(&self) -> &RuleList
        ensures rules { result.now ≡ self.now.rules }
        ensures configurable { IsTrue (list_all (is_configurable self.now.format) self.now.rules) }
    {
        &self.policy.rules
    }

    /// For each rule in their order the position, from 0, of the table of the text that it comes from.
    pub fn tables(&self) -> &[u16]
        ensures tables { result.now ≡ self.now.tables }
        ensures each { length self.now.tables ≡ length self.now.rules }
        // In order, and each is that of a table.
        ensures places { IsTrue (are_places self.now.written 0 self.now.tables) }
    {
        self.policy.tables.as_slice()
    }

    /// How many tables of rules the text has, at most 512, those of rules that are turned off too.
    pub fn written_rules(&self) -> u16
        ensures written { result ≡ self.now.written }
        ensures most { self.now.written ≤ 512 }
    {
        self.policy.written
    }

    /// The note of each rule in their order, empty if it has none.
    pub fn notes(&self) -> &[Text]
        ensures notes { result.now ≡ self.now.notes }
        ensures each { length self.now.notes ≡ length self.now.rules }
    {
        self.policy.notes.as_slice()
    }

    /// For each rule in their order, whether what it allows is written too.
    pub fn audits(&self) -> &[bool]
        ensures audits { result.now ≡ self.now.audits }
        ensures each { length self.now.audits ≡ length self.now.rules }
    {
        self.policy.audits.as_slice()
    }

    /// The sets in order.
    pub fn sets(&self) -> &[Set]
        ensures { result.now ≡ self.now.sets }
    {
        self.policy.sets.as_slice()
    }

    /// The assertions in order, at most 512, none of them named `default`, of fields that can have what they name in
    /// format 3, with at most 256 ranges each.
    pub fn assertions(&self) -> &[Assertion]
        ensures assertions { result.now ≡ self.now.assertions }
        ensures most { length self.now.assertions ≤ 512 }
        ensures each { IsTrue (list_all is_assertable self.now.assertions) }
    {
        self.policy.assertions.as_slice()
    }

    /// The policy, where the rest isn't wanted any more.
    pub fn into_rules(self) -> RuleList
        ensures { result ≡ self.rules }
    {
        let Parts {
            top: _,
            device: _,
            ports: _,
            routes: _,
            objects: _,
            policy,
        } = self;
        policy.into_rules()
    }
}

/// Whether each route is by one of so many ports.
fn are_by(ports: usize, routes: &[Route]) -> bool
    ensures { result ≡ list_all (is_by ports) routes.now }
{
    routes.iter().all(|route| 1 <= route.port && usize::from(route.port) <= ports)
}

/// Whether each port is managed.
fn are_managed(ports: &[Port]) -> bool
    ensures { result ≡ list_all is_managed ports.now }
{
    ports.iter().all(|port| port.is_managed())
}

/// Whether the device and each object have a name.
fn are_named(device: &Device, objects: &[Object]) -> bool
    ensures { result ≡ are_named device.now objects.now }
{
    !device.name.as_str().is_empty() && have_names(objects)
}

fn have_names(objects: &[Object]) -> bool
    ensures { result ≡ list_all (λ object. is_named object.name) objects.now }
{
    objects
        .iter()
        .all(|object| !object.name.as_str().is_empty())
}

/// Whether there are a table, a note and an audit for each rule, and a configuration of the format can have each
/// of them.
fn keeps_rules(format: Format, policy: &Policing) -> bool
    ensures { result ≡ keeps_rules format policy.now }
{
    let rules = policy.rules.rules();
    policy.tables.len() == rules.len()
        && policy.notes.len() == rules.len()
        && policy.audits.len() == rules.len()
        && are_configurable(format, rules)
        && usize::from(policy.written) <= MAX_RULES
        && are_places(policy.written, policy.tables.as_slice())
}

/// Whether these are positions of tables, of so many, in order.
fn are_places(written: u16, places: &[u16]) -> bool
    ensures { result ≡ are_places written 0 places.now }
{
    let mut least = 0;
    for place in places {
        if *place < least || written <= *place {
            return false;
        }
        least = *place;
    }
    true
}

/// Whether there are few assertions, and a configuration can have each of them.
fn keeps_assertions(assertions: &[Assertion]) -> bool
    ensures { result ≡ keeps_assertions assertions.now }
{
    assertions.len() <= MAX_ASSERTIONS && are_assertable(assertions)
}

fn are_assertable(assertions: &[Assertion]) -> bool
    ensures { result ≡ list_all is_assertable assertions.now }
{
    assertions.iter().all(|assertion| is_assertable(assertion))
}

fn is_assertable(assertion: &Assertion) -> bool
    ensures { result ≡ is_assertable assertion.now }
{
    !RuleName::is_no_rule(assertion.name.as_str())
        && are_bounded(Format::Three, &assertion.ranges)
        && has_long_fields(&assertion.ranges)
}

/// Whether each field can have what these ranges name for it.
fn are_bounded(format: Format, ranges: &Fields<Ranges>) -> bool
    ensures { result ≡ are_bounded format ranges.now }
{
    FieldName::ALL.iter().all(|field| are_within(
        ranges.get(*field).as_slice(),
        field.bounds(format),
    ))
}

fn are_within(ranges: &[Range], bounds: Range) -> bool
    ensures { result ≡ list_all (is_within bounds) ranges.now }
{
    ranges.iter().all(|range| range.is_within(&bounds))
}

fn has_long_fields(ranges: &Fields<Ranges>) -> bool
    ensures { result ≡ has_long_fields ranges.now }
{
    FieldName::ALL
        .iter()
        .all(|field| ranges.get(*field).len() <= MAX_LONG_RANGES)
}

/// Whether a configuration of the format can have each of these rules.
fn are_configurable(format: Format, rules: &[Rule]) -> bool
    ensures { result ≡ list_all (is_configurable format) rules.now }
{
    rules.iter().all(|rule| !RuleName::is_no_rule(rule.name.as_str()) && rule.is_bounded(format))
}

/// Whether these parts have nothing that a configuration of format 1 or 2 doesn't have.
fn is_plain(ports: &[Port], policy: &Policing) -> bool
    ensures { result ≡ is_plain ports.now policy.now }
{
    are_plain(ports)
        && have_short_fields(&policy.rules)
        && have_no_quiet(&policy.rules)
        && are_empty(policy.notes.as_slice())
        && audit_nothing(policy.audits.as_slice())
        && policy.sets.is_empty()
        && policy.assertions.is_empty()
        && usize::from(policy.written) == policy.tables.len()
        && are_counted(policy.tables.as_slice())
}

/// Whether each of these is its own position.
fn are_counted(places: &[u16]) -> bool
    ensures { result ≡ are_counted 0 places.now }
{
    for (position, place) in places.iter().enumerate() {
        if usize::from(*place) != position {
            return false;
        }
    }
    true
}

fn have_no_quiet(list: &RuleList) -> bool
    ensures { result ≡ has_no_quiet list.now }
{
    are_loud(list.rules())
}

fn are_loud(rules: &[Rule]) -> bool
    ensures { result ≡ has_no_quiet rules.now }
{
    rules.iter().all(|rule| !rule.quiet)
}

fn are_plain(ports: &[Port]) -> bool
    ensures { result ≡ list_all is_plain_port ports.now }
{
    ports.iter().all(|port| port.stations.as_slice().is_empty() && port.bbmd.is_none())
}

fn are_empty(notes: &[Text]) -> bool
    ensures { result ≡ list_all (λ note. length note == 0) notes.now }
{
    notes.iter().all(|note| note.as_str().is_empty())
}

fn audit_nothing(audits: &[bool]) -> bool
    ensures { result ≡ list_all not audits.now }
{
    audits.iter().all(|audit| !*audit)
}

/// Whether each rule of the list has at most four ranges for each field.
fn have_short_fields(list: &RuleList) -> bool
    ensures { result ≡ has_short_fields list.now }
{
    have_few_ranges(list.rules())
}

fn have_few_ranges(rules: &[Rule]) -> bool
    ensures { result ≡ list_all has_few_ranges rules.now }
{
    rules.iter().all(|rule| has_few_ranges(rule))
}

fn has_few_ranges(rule: &Rule) -> bool
    ensures { result ≡ has_few_ranges rule.now }
{
    FieldName::ALL
        .iter()
        .all(|field| rule.ranges(*field).len() <= MAX_RANGES)
}
