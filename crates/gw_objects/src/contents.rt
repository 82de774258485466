//! What a property holds, lent from its object.

use crate::{PropertyValue, States, ValueObjects};
use gw_codecs::tags::ObjectId;
use gw_configuration::Text;
use gw_tables::priority::PriorityArray;

/// The bit strings that properties hold, all of them constant.
#[derive(Clone, Copy)]
pub(crate) enum Flags {
    /// Status_Flags: none of the four is set.
    Status,
    /// Protocol_Services_Supported.
    Services,
    /// Protocol_Object_Types_Supported.
    ObjectTypes,
}

/// A value of a property, or of an element of one.
#[derive(Clone, Copy)]
pub(crate) enum Item<'a> {
    /// No value: an empty slot.
    Null,
    /// True or false.
    Boolean(bool),
    /// A number from 0.
    Unsigned(u32),
    /// A number with a sign.
    Signed(i32),
    /// One of the choices of an enumeration.
    Enumerated(u32),
    /// A text in character set 0.
    Text(&'a Text),
    /// A bit string.
    Bits(Flags),
    /// An object.
    Object(ObjectId),
}

/// An array of a property.
#[derive(Clone, Copy)]
pub(crate) enum Array<'a> {
    /// Object_List: the device, and the value objects.
    Objects(ObjectId, &'a ValueObjects),
    /// Priority_Array.
    Slots(&'a PriorityArray<PropertyValue>),
    /// State_Text.
    Texts(&'a States),
}

/// What a property holds.
#[derive(Clone, Copy)]
pub(crate) enum Contents<'a> {
    /// A value.
    One(Item<'a>),
    /// An array.
    Array(Array<'a>),
    /// A list without elements.
    EmptyList,
}
