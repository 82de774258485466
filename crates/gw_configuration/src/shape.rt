//! What the value at a key may be.

use gw_rules::Format;

/// The names that a configuration may have in place of a number, as the log writes them.
#[derive(Clone, Copy)]
pub enum Names {
    /// Those of services, messages, functions and types of PDUs.
    Services,
    /// Those of the types of objects.
    ObjectTypes,
    /// Those of properties.
    Properties,
}

/// Whose a field is: what it may name hangs on that.
#[derive(Clone, Copy)]
pub enum Naming {
    /// That of a rule of this format.
    Rule(Format),
    /// That of a rule of format 3 that goes both ways.
    BothWays,
    /// That of an assertion.
    Assertion,
}

/// What a single value may be.
#[derive(Clone, Copy)]
pub enum Scalar {
    /// A number in this range.
    Number { low: u64, high: u64 },
    /// A number of 32 bits with its sign.
    Signed,
    /// The type of an object, by its number.
    ObjectType,
    /// A text of at least so many octets, and at most 255.
    Text { least: usize },
    /// The name of a rule, a set or an assertion.
    RuleName,
    /// The name of a rule that goes both ways, of at most 27 octets.
    ShortName,
    /// An operation that can be named there, by its name.
    Operation(Naming),
    /// True or false.
    Boolean,
    /// True, as a rule allows that goes both ways.
    True,
    /// False, as a rule that allows isn't quiet.
    False,
    /// What an assertion says of asks: `allowed` or `denied`.
    Verdict,
    /// An address, `a.b.c.d:port`.
    Address,
    /// The broadcast manager beside a port: an address `a.b.c.d:port` that is neither the port's own nor its
    /// broadcast address, at a port that has no peers.
    Manager,
    /// A mask, `a.b.c.d`.
    Mask,
    /// A table.
    Table,
    /// A number of the field that has these names, or one of the names.
    Named(Names),
    /// Stations of BACnet/IP: one by its address, `a.b.c.d:port`; those at every UDP port of a node,
    /// `a.b.c.d`, or of a subnet, `a.b.c.d/n`.
    Stations,
    /// Stations of every length: those of BACnet/IP, or one by its octets, `mac:` and 1, 2, 3, 4, 5 or 7 pairs of
    /// hexadecimal digits.
    AnyStations,
    /// A subnet, `a.b.c.d/n`.
    Subnet,
    /// An item of a set, whatever the field is in whose rule it is named: a text that doesn't begin with
    /// `@`, a whole number, or a list of two.
    Item,
}

/// What the value at a key may be.
#[derive(Clone, Copy)]
pub enum Shape {
    /// One value.
    One(Scalar),
    /// A list of so many values.
    List {
        of: Scalar,
        least: usize,
        most: usize,
    },
    /// A list of one to four items for a field of a rule of format 1 or 2, each of which is one value, or a list of
    /// two, low and high.
    Ranges(Scalar),
    /// A list of one to 64 items for a field of a rule or an assertion, each of which is one value, a list of two, low and
    /// high, or `@` and the name of a set, whose items are meant; at most 256 in all.
    Items(Scalar),
}
