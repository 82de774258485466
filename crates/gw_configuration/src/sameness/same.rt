//! Whether two values are the same.
ghost use Rattle.std.specs.Prelude.{◌≡◌, ◌↔◌, IsTrue};

use crate::{Assertion, Device, Object, ObjectValue, Port, Route, Subnet, Text, laws};
use gw_addr::{BdtEntry, BipAddr};
use gw_rules::{FieldName, Fields, Format, Range, Ranges, Rule};

/// What can be compared.
pub trait Same {
    /// Whether it is the same as another.
    fn is_same(&self, other: &Self) -> bool
        ensures { IsTrue result ↔ (self.now ≡ other.now) };
}

/// Whether two lists have the same elements in the same order.
pub fn are_same<T: Same>(some: &[T], others: &[T]) -> bool
    ensures { IsTrue result ↔ (some.now ≡ others.now) }
{
    if some.len() != others.len() {
        return false;
    }
    for place in 0..some.len() {
        if !some[place].is_same(&others[place]) {
            return false;
        }
    }
    true
}

impl Same for Text {
    fn is_same(&self, other: &Self) -> bool {
        self.as_str() == other.as_str()
    }
}

impl Same for bool {
    fn is_same(&self, other: &Self) -> bool {
        *self == *other
    }
}

impl Same for u16 {
    fn is_same(&self, other: &Self) -> bool {
        *self == *other
    }
}

impl Same for Range {
    fn is_same(&self, other: &Self) -> bool {
        self.low == other.low && self.high == other.high
    }
}

impl Same for BdtEntry {
    fn is_same(&self, other: &Self) -> bool {
        self.address.is_same(other.address) && self.mask == other.mask
    }
}

impl Same for Format {
    fn is_same(&self, other: &Self) -> bool {
        matches!(
            (self, other),
            (Format::One, Format::One) | (Format::Two, Format::Two) | (Format::Three, Format::Three)
        )
    }
}

impl Same for Subnet {
    fn is_same(&self, other: &Self) -> bool {
        have_same_keys(*self, *other)
    }
}

/// Whether two subnets have the same keys: then they are one.
fn have_same_keys(subnet: Subnet, other: Subnet) -> bool
    ensures { IsTrue result ↔ (subnet ≡ other) }
{
    laws::fits(subnet);
    laws::fits(other);
    let keys = subnet.keys();
    let others = other.keys();
    keys.is_same(&others)
}

impl Same for Port {
    fn is_same(&self, other: &Self) -> bool {
        self.network.is_same(other.network)
            && self.address.is_same(other.address)
            && self.broadcast.is_same(other.broadcast)
            && are_same(self.stations.as_slice(), other.stations.as_slice())
            && is_same_manager(self.bbmd, other.bbmd)
            && are_same(self.peers.as_slice(), other.peers.as_slice())
    }
}

/// Whether two ports have the same broadcast manager beside them, or neither has one.
fn is_same_manager(manager: Option<BipAddr>, other: Option<BipAddr>) -> bool
    ensures { IsTrue result ↔ (manager ≡ other) }
{
    match (manager, other) {
        (Some(address), Some(other)) => address.is_same(other),
        (None, None) => true,
        _ => false,
    }
}

impl Same for Route {
    fn is_same(&self, other: &Self) -> bool {
        self.network.is_same(other.network)
            && self.port == other.port
            && self.next.is_same(other.next)
    }
}

impl Same for ObjectValue {
    fn is_same(&self, other: &Self) -> bool {
        match (self, other) {
            (
                ObjectValue::BinaryValue {
                    default: a,
                    active: b,
                    inactive: c,
                },
                ObjectValue::BinaryValue {
                    default: d,
                    active: e,
                    inactive: f,
                },
            ) => a == d && b.is_same(e) && c.is_same(f),
            (ObjectValue::MultiStateValue(a), ObjectValue::MultiStateValue(b)) => {
                a.default() == b.default() && are_same(a.states(), b.states())
            }
            (
                ObjectValue::CharacterStringValue { default: a },
                ObjectValue::CharacterStringValue { default: b },
            ) => a.is_same(b),
            (
                ObjectValue::IntegerValue {
                    default: a,
                    units: b,
                },
                ObjectValue::IntegerValue {
                    default: c,
                    units: d,
                },
            ) => a == c && b == d,
            (
                ObjectValue::PositiveIntegerValue {
                    default: a,
                    units: b,
                },
                ObjectValue::PositiveIntegerValue {
                    default: c,
                    units: d,
                },
            ) => a == c && b == d,
            _ => false,
        }
    }
}

impl Same for Object {
    fn is_same(&self, other: &Self) -> bool {
        self.instance.get() == other.instance.get()
            && self.name.is_same(&other.name)
            && self.description.is_same(&other.description)
            && self.value.is_same(&other.value)
    }
}

impl Same for Device {
    fn is_same(&self, other: &Self) -> bool {
        self.network.is_same(other.network)
            && self.instance.get() == other.instance.get()
            && self.name.is_same(&other.name)
            && self.vendor == other.vendor
            && self.vendor_name.is_same(&other.vendor_name)
            && self.model.is_same(&other.model)
            && self.firmware.is_same(&other.firmware)
            && self.software.is_same(&other.software)
            && self.revision == other.revision
            && self.database == other.database
            && self.description.is_same(&other.description)
    }
}

impl Same for Rule {
    fn is_same(&self, other: &Self) -> bool {
        self.name.as_str() == other.name.as_str()
            && self.allow == other.allow
            && self.quiet == other.quiet
            && have_same_ranges(&self.ranges, &other.ranges)
    }
}

impl Same for Assertion {
    fn is_same(&self, other: &Self) -> bool {
        self.name.as_str() == other.name.as_str()
            && self.is_allowed == other.is_allowed
            && have_same_ranges(&self.ranges, &other.ranges)
            && self.any_read == other.any_read
            && self.any_write == other.any_write
            && self.unnamed == other.unnamed
            && self.note.is_same(&other.note)
    }
}

/// Whether two have the same ranges for each field.
fn have_same_ranges(ranges: &Fields<Ranges>, other: &Fields<Ranges>) -> bool
    ensures { IsTrue result ↔ (ranges.now ≡ other.now) }
{
    for field in FieldName::ALL.iter() {
        if !are_same(ranges.get(*field).as_slice(), other.get(*field).as_slice()) {
            return false;
        }
    }
    true
}
