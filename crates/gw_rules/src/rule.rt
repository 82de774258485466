//! A rule: the ranges by which it picks asks, and what it says of those that it matches.
ghost use Rattle.std.specs.Prelude.{◌≡◌, ◌↔◌, [], ◌∷◌, ◌++◌, IfOk, IsErrOf, IsFalse, IsOkUnless, OnOk};
ghost use Rattle.gw_rules.specs.Bounds.{are_bounded};
ghost use Rattle.gw_rules.specs.Hides.{may_match, may_match_some, must_match, must_match_all, names_no_other, settles};
ghost use Rattle.gw_rules.specs.Name.{is_name};
ghost use Rattle.gw_rules.specs.Fields.{in_each, value_of, with_value};
ghost use Rattle.gw_rules.specs.Rule.{has_few_ranges, has_long_ranges, has_ordered_ranges, matches, quiet_mark, ranges_of, rule_without_fields, with_range};
ghost use Rattle.gw_rules.specs.internal.Grouped.{meets_object, meets_others, names_another};

use crate::ranges::{admit, are_ordered, are_within};
use crate::{Ask, FieldName, Fields, Format, Range, Ranges, RuleFault, RuleName};
use std::alloc::{AllocError, Global};

/// How many ranges a rule may have for one field in a list that [`RuleList::new`](crate::RuleList::new)
/// makes.
pub const MAX_RANGES: usize = 4;

/// How many it may have in one that [`RuleList::new_long`](crate::RuleList::new_long) makes.
pub const MAX_LONG_RANGES: usize = 256;

/// What follows the name of a rule that is quiet, where rules are listed with what they decide; nothing follows that of
/// another one.
pub fn quiet_mark(is_quiet: bool) -> &'static str
    ensures { result.now ≡ quiet_mark is_quiet }
{
    if is_quiet { " (quiet)" } else { "" }
}

/// A rule. It matches an ask if, for every field that the rule names, the ask has that field and
/// one of the rule's ranges holds the value. A field with no range isn't named.
///
/// Build one by [`Rule::new`] and [`Rule::with`], or as a struct.
pub struct Rule {
    /// The name that the log shows if the rule denies.
    pub name: RuleName,
    /// Whether an ask is allowed whose first matching rule this is.
    pub allow: bool,
    /// Whether an ask that it denies is left out of the log.
    pub quiet: bool,
    /// The ranges for each field.
    pub ranges: Fields<Ranges>,
}

// By hand: a derived one is proved part by part wherever one is dropped (docs/ARCHITECTURE.md).
impl Drop for Rule {
    fn drop(self) {
        let Rule {
            name: _,
            allow: _,
            quiet: _,
            ranges: _,
        } = self;
    }
}

impl Rule {
    /// A rule that names no field, and so matches every ask, and isn't quiet. `Range`, its only fault, if its name is none, as
    /// [`RuleName`] says.
    pub fn new(alloc: Global, name: &str, allow: bool) -> Result<Self, RuleFault>
        ensures rule { IfOk result (λ rule. rule ≡ rule_without_fields name.now allow) }
        ensures range { IsErrOf result RuleFault.Range ↔ IsFalse (is_name name.now) }
        ensures only { IsOkUnless result RuleFault.Range }
    {
        Ok(Rule {
            name: RuleName::new(name)?,
            allow,
            quiet: false,
            ranges: no_ranges(alloc),
        })
    }

    /// The rule with one more range for a field, after those that it has. With `Memory` the rule
    /// is dropped.
    pub fn with(mut self, field: FieldName, range: Range) -> Result<Self, RuleFault>
        ensures rule { IfOk result (λ rule. rule ≡ with_range field range self) }
        ensures memory { IsOkUnless result RuleFault.Memory }
    {
        put(&mut self.ranges, field, range)?;
        Ok(self)
    }

    /// The ranges for a field.
    pub fn ranges(&self, field: FieldName) -> &Ranges
        ensures { result.now ≡ ranges_of field self.now }
    {
        self.ranges.get(field)
    }

    /// Whether each range of the rule is within the bounds of its field in this format.
    pub fn is_bounded(&self, format: Format) -> bool
        ensures { result ≡ are_bounded format self.now.ranges }
    {
        FieldName::ALL.iter().all(|field| are_within(
            self.ranges(*field).as_slice(),
            field.bounds(format),
        ))
    }

    /// Whether the rule matches the ask.
    pub fn matches(&self, ask: &Ask) -> bool
        ensures { result ≡ matches self.now ask.now }
    {
        self.meets_object(ask) && self.meets_others(ask)
    }

    /// Whether the rule names another field than the operation and the three of an object.
    pub(crate) fn names_another(&self) -> bool
        ensures { result ≡ names_another self.now }
    {
        let ranges = &self.ranges;
        !(ranges.port.as_slice().is_empty()
            && ranges.source_network.as_slice().is_empty()
            && ranges.source_key.as_slice().is_empty()
            && ranges.destination_network.as_slice().is_empty()
            && ranges.service.as_slice().is_empty()
            && ranges.priority.as_slice().is_empty()
            && ranges.sender.as_slice().is_empty()
            && ranges.station.as_slice().is_empty())
    }

    /// Whether the rule matches the ask, if it names another field than the operation and the three of an object as is said.
    /// Those of an object come first, since they part most rules from most asks to read.
    #[inline]
    pub(crate) fn matches_by(&self, has_another: bool, ask: &Ask) -> bool
        requires named { has_another ≡ names_another self.now }
        ensures { result ≡ matches self.now ask.now }
    {
        self.meets_object(ask) && (!has_another || self.meets_others(ask))
    }

    /// Whether the operation and the three fields of an object are met.
    #[inline]
    fn meets_object(&self, ask: &Ask) -> bool
        ensures { result ≡ meets_object ask.now self.now }
    {
        let ranges = &self.ranges;
        admit(ranges.object_type.as_slice(), ask.object_type)
            && admit(ranges.instance.as_slice(), ask.instance)
            && admit(ranges.property.as_slice(), ask.property)
            && admit(ranges.operation.as_slice(), ask.operation)
    }

    /// Whether the other fields are.
    fn meets_others(&self, ask: &Ask) -> bool
        ensures { result ≡ meets_others ask.now self.now }
    {
        let ranges = &self.ranges;
        admit(ranges.port.as_slice(), ask.port)
            && admit(ranges.source_network.as_slice(), ask.source_network)
            && admit(ranges.source_key.as_slice(), ask.source_key)
            && admit(
                ranges.destination_network.as_slice(),
                ask.destination_network,
            )
            && admit(ranges.service.as_slice(), ask.service)
            && admit(ranges.priority.as_slice(), ask.priority)
            && admit(ranges.sender.as_slice(), ask.sender)
            && admit(ranges.station.as_slice(), ask.station)
    }

    /// Whether the rule may match an ask of some source that has these four fields, whatever else that
    /// says: each of them that the rule names holds what is there.
    fn may_match_some(&self, ask: &Ask) -> bool
        ensures { result ≡ may_match_some ask.now self.now }
    {
        let ranges = &self.ranges;
        admit(ranges.operation.as_slice(), ask.operation)
            && admit(ranges.source_network.as_slice(), ask.source_network)
            && admit(ranges.object_type.as_slice(), ask.object_type)
            && admit(ranges.instance.as_slice(), ask.instance)
    }

    /// Whether it may match one of this source key, too.
    fn may_match(&self, ask: &Ask) -> bool
        ensures { result ≡ may_match ask.now self.now }
    {
        self.may_match_some(ask) && admit(self.ranges.source_key.as_slice(), ask.source_key)
    }

    /// Whether the rule names none of the other seven fields.
    fn names_no_other(&self) -> bool
        ensures { result ≡ names_no_other self.now }
    {
        let ranges = &self.ranges;
        ranges.port.as_slice().is_empty()
            && ranges.destination_network.as_slice().is_empty()
            && ranges.service.as_slice().is_empty()
            && ranges.property.as_slice().is_empty()
            && ranges.priority.as_slice().is_empty()
            && ranges.sender.as_slice().is_empty()
            && ranges.station.as_slice().is_empty()
    }

    /// Whether the rule settles what asks of a source come to: it allows and may match, or it denies
    /// and must.
    pub(crate) fn settles(&self, ask: &Ask) -> bool
        ensures { result ≡ settles (may_match ask.now) (must_match ask.now) self.now }
    {
        if self.allow {
            self.may_match(ask)
        } else {
            self.may_match(ask) && self.names_no_other()
        }
    }

    /// The same for asks of every source of the network.
    pub(crate) fn settles_all(&self, ask: &Ask) -> bool
        ensures { result ≡ settles (may_match_some ask.now) (must_match_all ask.now) self.now }
    {
        if self.allow {
            self.may_match_some(ask)
        } else {
            self.may_match_some(ask)
                && self.ranges.source_key.as_slice().is_empty()
                && self.names_no_other()
        }
    }

    /// Whether the rule has at most four ranges for each field.
    pub(crate) fn has_few_ranges(&self) -> bool
        ensures { result ≡ has_few_ranges self.now }
    {
        FieldName::ALL
            .iter()
            .all(|field| self.ranges(*field).len() <= MAX_RANGES)
    }

    /// Whether the rule has at most 256 ranges for each field.
    pub(crate) fn has_long_ranges(&self) -> bool
        ensures { result ≡ has_long_ranges self.now }
    {
        FieldName::ALL
            .iter()
            .all(|field| self.ranges(*field).len() <= MAX_LONG_RANGES)
    }

    /// Whether no range of the rule has its low end above its high end.
    pub(crate) fn has_ordered_ranges(&self) -> bool
        ensures { result ≡ has_ordered_ranges self.now }
    {
        FieldName::ALL
            .iter()
            .all(|field| are_ordered(self.ranges(*field).as_slice()))
    }
}

/// No range for any field. It takes no memory.
fn no_ranges(alloc: Global) -> Fields<Ranges>
    ensures { result ≡ in_each [] }
{
    Fields {
        operation: Ranges::new(alloc),
        port: Ranges::new(alloc),
        source_network: Ranges::new(alloc),
        source_key: Ranges::new(alloc),
        destination_network: Ranges::new(alloc),
        service: Ranges::new(alloc),
        object_type: Ranges::new(alloc),
        instance: Ranges::new(alloc),
        property: Ranges::new(alloc),
        priority: Ranges::new(alloc),
        sender: Ranges::new(alloc),
        station: Ranges::new(alloc),
    }
}

/// Puts one more range for a field after those that are there.
fn put(ranges: &mut Fields<Ranges>, field: FieldName, range: Range) -> Result<(), AllocError>
    ensures { OnOk result (ranges.new ≡
        with_value field (value_of field ranges.old ++ range ∷ []) ranges.old) }
{
    match field {
        FieldName::Operation => ranges.operation.push(range),
        FieldName::Port => ranges.port.push(range),
        FieldName::SourceNetwork => ranges.source_network.push(range),
        FieldName::SourceKey => ranges.source_key.push(range),
        FieldName::DestinationNetwork => ranges.destination_network.push(range),
        FieldName::Service => ranges.service.push(range),
        FieldName::ObjectType => ranges.object_type.push(range),
        FieldName::Instance => ranges.instance.push(range),
        FieldName::Property => ranges.property.push(range),
        FieldName::Priority => ranges.priority.push(range),
        FieldName::Sender => ranges.sender.push(range),
        FieldName::Station => ranges.station.push(range),
    }
}
