//! What the bodies of confirmed requests say (clause 15).

ghost use Rattle.std.specs.Prelude.{◌≡◌, ◌≤◌, IfSome};
ghost use Rattle.std.proofs.Props.{props};
ghost use Rattle.gw_codecs.specs.services.Limits.{last_property, last_priority, priority_of};

use crate::tags::ObjectId;

/// The last property identifier: 22 bits.
pub(crate) const LAST_PROPERTY: u32 = 4_194_303;
/// The priority of a write that names none: the lowest (clause 19.2).
const LAST_PRIORITY: u8 = 16;

/// A ReadProperty request: a property of an object, or one element of it.
///
/// | Tag | Parameter |
/// |---|---|
/// | 0 | object |
/// | 1 | property |
/// | 2 | index, may be absent |
#[derive(Clone, Copy, Debug)]
pub struct ReadReq {
    /// The object.
    pub object: ObjectId,
    /// The property, 0 to 4194303.
    pub property: u32,
    /// The index of an element; 0 asks how many there are.
    pub index: Option<u32>,
    pub ghost numbered: { property ≤ last_property },
}

/// A WriteProperty request: a value for a property of an object, or for one element of it. The
/// value is lent from the octets that it was read from.
///
/// | Tag | Parameter |
/// |---|---|
/// | 0 | object |
/// | 1 | property |
/// | 2 | index, may be absent |
/// | 3 | the value, between an opening and a closing tag |
/// | 4 | priority, may be absent |
#[derive(Clone, Copy, Debug)]
pub struct WriteReq<'a> {
    /// The object.
    pub object: ObjectId,
    /// The property, 0 to 4194303.
    pub property: u32,
    /// The index of an element.
    pub index: Option<u32>,
    /// The octets of the value, or of values; their tags are balanced where they were read.
    pub value: &'a [u8],
    /// The priority, 1 to 16. `None` counts as 16, the lowest.
    pub priority: Option<u8>,
    pub ghost numbered: { property ≤ last_property },
    pub ghost ranked: { IfSome priority (λ p. (1 ≤ p) × (p ≤ last_priority)) } by { Prim.hlevel props },
}

impl WriteReq<'_> {
    /// The priority of the command: the one that is given, or the lowest (clause 19.2).
    pub fn command_priority(&self) -> u8
        ensures priority { result ≡ priority_of self.now.priority }
        ensures least { 1 ≤ result }
        ensures most { result ≤ last_priority }
    {
        match self.priority {
            None => LAST_PRIORITY,
            Some(priority) => priority,
        }
    }
}
