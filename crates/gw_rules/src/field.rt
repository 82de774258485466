//! The twelve fields by which a rule picks asks.
ghost use Rattle.std.specs.Prelude.{◌≡◌};
ghost use Rattle.gw_rules.specs.Bounds.{bounds, last_destination, last_key, last_operation};
ghost use Rattle.gw_rules.specs.Field.{field_key, field_number};

use crate::{Format, Operation, Range};
use gw_addr::MAX_PORTS;

/// A field of an ask, and of the rules that look at it. [`Fields`](crate::Fields) says what each is.
#[derive(Clone, Copy)]
pub enum FieldName {
    /// 1: the operation.
    Operation = 1,
    /// 2: the port.
    Port = 2,
    /// 3: the source network.
    SourceNetwork = 3,
    /// 4: the source key.
    SourceKey = 4,
    /// 5: the destination network.
    DestinationNetwork = 5,
    /// 6: the service.
    Service = 6,
    /// 7: the type of the object.
    ObjectType = 7,
    /// 8: the instance of the object.
    Instance = 8,
    /// 9: the property.
    Property = 9,
    /// 10: the priority.
    Priority = 10,
    /// 11: the sender, in format 3 alone.
    Sender = 11,
    /// 12: the station, in format 3 alone.
    Station = 12,
}

impl FieldName {
    /// The twelve fields in the order of their numbers.
    pub const ALL: [FieldName; 12] = [
        FieldName::Operation,
        FieldName::Port,
        FieldName::SourceNetwork,
        FieldName::SourceKey,
        FieldName::DestinationNetwork,
        FieldName::Service,
        FieldName::ObjectType,
        FieldName::Instance,
        FieldName::Property,
        FieldName::Priority,
        FieldName::Sender,
        FieldName::Station,
    ];

    /// The number of the field, from 1 to 12.
    pub fn number(self) -> u64
        ensures { result ≡ field_number self }
    {
        self as u64
    }

    /// The key of the field in the table of a rule.
    pub fn key(self) -> &'static str
        ensures { result.now ≡ field_key self }
    {
        match self {
            FieldName::Operation => "operation",
            FieldName::Port => "port",
            FieldName::SourceNetwork => "source_network",
            FieldName::SourceKey => "source",
            FieldName::DestinationNetwork => "destination",
            FieldName::Service => "service",
            FieldName::ObjectType => "object_type",
            FieldName::Instance => "instance",
            FieldName::Property => "property",
            FieldName::Priority => "priority",
            FieldName::Sender => "sender",
            FieldName::Station => "station",
        }
    }

    /// The least and the greatest number that the field can have in a policy of this format: 1 to 11 of an
    /// operation, and to 13 in format 3; 1 to 8 of a port; 1 to 65534 of a network (clause 6), and in format
    /// 3 to 65535 of a destination, which is then all networks; 48 bits of a sender (Annex J.1.2), and so of a
    /// source key and a station, which in format 3 have 59; 0 to 1031 of a service; 10 bits of an object's type and 22
    /// of its instance (clause 20.2.14); 22 bits of a property (clause 21); 1 to 16 of a priority (clause 19.2).
    pub fn bounds(self, format: Format) -> Range
        ensures { result ≡ bounds format self }
    {
        let (low, high) = match self {
            FieldName::Operation => (1, last_operation(format)),
            FieldName::Port => (1, MAX_PORTS as u64),
            FieldName::SourceNetwork => (1, 65534),
            FieldName::DestinationNetwork => (1, last_destination(format)),
            FieldName::SourceKey | FieldName::Station => (0, last_key(format)),
            FieldName::Sender => (0, 0xFFFF_FFFF_FFFF),
            FieldName::Service => (0, 1031),
            FieldName::ObjectType => (0, 1023),
            FieldName::Instance | FieldName::Property => (0, 4_194_303),
            FieldName::Priority => (1, 16),
        };
        Range { low, high }
    }
}

/// The number of the last operation that a policy of this format can name.
fn last_operation(format: Format) -> u64
    ensures { result ≡ last_operation format }
{
    match format {
        Format::One | Format::Two => Operation::List.number(),
        Format::Three => Operation::Claim.number(),
    }
}

/// The greatest destination that a policy of this format can name.
fn last_destination(format: Format) -> u64
    ensures { result ≡ last_destination format }
{
    match format {
        Format::One | Format::Two => 65534,
        Format::Three => 65535,
    }
}

/// The greatest key of a station that a policy of this format can name: in format 3 that of seven octets, else
/// that of six.
fn last_key(format: Format) -> u64
    ensures { result ≡ last_key format }
{
    match format {
        Format::One | Format::Two => 0xFFFF_FFFF_FFFF,
        Format::Three => 0x07FF_FFFF_FFFF_FFFF,
    }
}
