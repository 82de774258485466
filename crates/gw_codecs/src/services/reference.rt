//! A property that a ReadPropertyMultiple request asks for (clause 15.7).

ghost use Rattle.std.specs.Prelude.{◌≤◌};
ghost use Rattle.gw_codecs.specs.services.Limits.{last_property};

use crate::tags::ObjectId;

/// A property of an object, or one element of it, among those that a request asks for.
#[derive(Clone, Copy, Debug)]
pub struct Reference {
    /// Whether an object's list begins with this one. One object may have several lists, one
    /// after the other.
    pub begins: bool,
    /// The object.
    pub object: ObjectId,
    /// The property, 0 to 4194303.
    pub property: u32,
    /// The index of an element.
    pub index: Option<u32>,
    pub ghost numbered: { property ≤ last_property },
}
