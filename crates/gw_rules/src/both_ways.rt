//! The two rules that go with a rule whose requests pass to another network: their way, and that of their answers.
ghost use Rattle.std.specs.Prelude.{◌≡◌, ◌↔◌, ◌++◌, [], ◌∷◌, codes, IfOk, IsErrOf, IsFalse, OnOk};
ghost use Rattle.gw_rules.specs.BothWays.{answers, askers, back_of, back_ranges, judged, judges, only, requests, routing, way_of, way_ranges};
ghost use Rattle.gw_rules.specs.Name.{is_name};

use crate::ranges::any_holds;
use crate::{Fields, Operation, Range, Ranges, Rule, RuleFault, admit};
use std::alloc::{AllocError, Global};

/// What the name of the rule of the requests' way adds to the rule's.
const WAY: &str = "-way";
/// What the name of the rule of the answers adds.
const BACK: &str = "-back";

impl Rule {
    /// The rule by which the requests that this one judges are routed: those of ReadProperty and
    /// ReadPropertyMultiple where it names the operation `read`, and of WriteProperty where it names `write`,
    /// if it names their service or none; and what acknowledges or aborts their answers. It allows, and has this
    /// rule's ranges for port, networks, source, sender and station. `None` if this one judges no request.
    ///
    /// `Range` if the name with `-way` behind it is none, as [`RuleName`](crate::RuleName) says; else `Memory`.
    pub fn way(&self, alloc: Global) -> Result<Option<Rule>, RuleFault>
        ensures way { IfOk result (λ way. way ≡ way_of self.now) }
        ensures range { IsErrOf result RuleFault.Range ↔ IsFalse (is_name (self.now.name ++ codes "-way")) }
        ensures few { ¬ IsErrOf result RuleFault.TooMany }
    {
        let name = self.name.followed_by(WAY)?;
        let mut service = requests(alloc, self)?;
        if service.is_empty() {
            return Ok(None);
        }
        put_replies(&mut service)?;
        Ok(Some(Rule {
            name,
            allow: true,
            quiet: false,
            ranges: way_ranges(alloc, self, service)?,
        }))
    }

    /// The rule by which answers to this rule's requests are routed back: from its destination to its source
    /// network, from its station to its source, or where it names none, to its sender. It allows.
    ///
    /// `Range` if the name with `-back` behind it is none, as [`RuleName`](crate::RuleName) says; else `Memory`.
    pub fn back(&self, alloc: Global) -> Result<Rule, RuleFault>
        ensures back { IfOk result (λ back. back ≡ back_of self.now) }
        ensures range { IsErrOf result RuleFault.Range ↔ IsFalse (is_name (self.now.name ++ codes "-back")) }
        ensures few { ¬ IsErrOf result RuleFault.TooMany }
    {
        Ok(Rule {
            name: self.name.followed_by(BACK)?,
            allow: true,
            quiet: false,
            ranges: back_ranges(alloc, self)?,
        })
    }

    /// Whether the rule judges a request of a service that raises asks for an operation.
    fn judges(&self, operation: Operation, service: u64) -> bool
        ensures { result ≡ judges operation service self.now }
    {
        any_holds(self.ranges.operation.as_slice(), operation.number())
            && admit(self.ranges.service.as_slice(), Some(service))
    }

    /// The ranges for the source key, or if the rule names none, those for the sender.
    fn askers(&self) -> &[Range]
        ensures { result.now ≡ askers self.now }
    {
        if self.ranges.source_key.is_empty() {
            self.ranges.sender.as_slice()
        } else {
            self.ranges.source_key.as_slice()
        }
    }
}

/// The services of the requests that a rule judges, one range each.
fn requests(alloc: Global, rule: &Rule) -> Result<Ranges, AllocError>
    ensures { IfOk result (λ made. made ≡ requests rule.now) }
{
    let mut made = Ranges::new(alloc);
    put_judged(&mut made, rule, Operation::Read, 12)?;
    put_judged(&mut made, rule, Operation::Read, 14)?;
    put_judged(&mut made, rule, Operation::Write, 15)?;
    Ok(made)
}

/// Puts a service behind the others, if the rule judges its requests.
fn put_judged(
    made: &mut Ranges,
    rule: &Rule,
    operation: Operation,
    service: u64,
) -> Result<(), AllocError>
    ensures { OnOk result (made.new ≡ made.old ++ judged operation service rule.now) }
{
    if rule.judges(operation, service) {
        made.push(Range::only(service))?;
    }
    Ok(())
}

/// Puts SegmentACK and Abort behind the others.
fn put_replies(made: &mut Ranges) -> Result<(), AllocError>
    ensures { OnOk result (made.new ≡ (made.old ++ only 1028 ∷ []) ++ only 1031 ∷ []) }
{
    made.push(Range::only(1028))?;
    made.push(Range::only(1031))
}

/// The ranges of the rule of the requests' way, with these services.
fn way_ranges(alloc: Global, rule: &Rule, service: Ranges) -> Result<Fields<Ranges>, AllocError>
    ensures { IfOk result (λ made. made ≡ way_ranges service rule.now) }
{
    let ranges = &rule.ranges;
    Ok(Fields {
        operation: routing(alloc)?,
        port: listed(alloc, ranges.port.as_slice())?,
        source_network: listed(alloc, ranges.source_network.as_slice())?,
        source_key: listed(alloc, ranges.source_key.as_slice())?,
        destination_network: listed(alloc, ranges.destination_network.as_slice())?,
        service,
        object_type: Ranges::new(alloc),
        instance: Ranges::new(alloc),
        property: Ranges::new(alloc),
        priority: Ranges::new(alloc),
        sender: listed(alloc, ranges.sender.as_slice())?,
        station: listed(alloc, ranges.station.as_slice())?,
    })
}

/// The ranges of the rule of the answers.
fn back_ranges(alloc: Global, rule: &Rule) -> Result<Fields<Ranges>, AllocError>
    ensures { IfOk result (λ made. made ≡ back_ranges rule.now) }
{
    let ranges = &rule.ranges;
    Ok(Fields {
        operation: routing(alloc)?,
        port: Ranges::new(alloc),
        source_network: listed(alloc, ranges.destination_network.as_slice())?,
        source_key: listed(alloc, ranges.station.as_slice())?,
        destination_network: listed(alloc, ranges.source_network.as_slice())?,
        service: answers(alloc)?,
        object_type: Ranges::new(alloc),
        instance: Ranges::new(alloc),
        property: Ranges::new(alloc),
        priority: Ranges::new(alloc),
        sender: Ranges::new(alloc),
        station: listed(alloc, rule.askers())?,
    })
}

/// The operation to route.
fn routing(alloc: Global) -> Result<Ranges, AllocError>
    ensures { IfOk result (λ made. made ≡ routing) }
{
    let route = Range::only(Operation::Route.number());
    listed(alloc, &[route])
}

/// The services of answers.
fn answers(alloc: Global) -> Result<Ranges, AllocError>
    ensures { IfOk result (λ made. made ≡ answers) }
{
    let answers = Range {
        low: 1026,
        high: 1031,
    };
    listed(alloc, &[answers])
}

/// A list of these ranges.
fn listed(alloc: Global, ranges: &[Range]) -> Result<Ranges, AllocError>
    ensures { IfOk result (λ made. made ≡ ranges.now) }
{
    let mut made = Ranges::new(alloc);
    for range in ranges {
        made.push(*range)?;
    }
    Ok(made)
}
