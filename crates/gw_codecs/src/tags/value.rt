//! Application values: a tag of application class and a content (clause 20.2).

use crate::tags::object::ObjectId;
use crate::tags::strings::{BitString, CharacterString};

/// A value of a property, by its kind. Octets are lent from where the value was read.
#[derive(Clone, Copy, Debug)]
pub enum AppValue<'a> {
    /// No value (clause 20.2.2).
    Null,
    /// True or false (clause 20.2.3).
    Boolean(bool),
    /// A number from 0 (clause 20.2.4).
    Unsigned(u32),
    /// A number with a sign (clause 20.2.5).
    Signed(i32),
    /// The four octets of a floating point number, never computed (clause 20.2.6).
    Real([u8; 4]),
    /// The eight octets of a floating point number, never computed (clause 20.2.7).
    Double([u8; 8]),
    /// An octet string (clause 20.2.8).
    Octets(&'a [u8]),
    /// A character string (clause 20.2.9).
    Text(CharacterString<'a>),
    /// A bit string (clause 20.2.10).
    Bits(BitString<'a>),
    /// One of the choices of an enumeration, by its number (clause 20.2.11).
    Enumerated(u32),
    /// The four octets of a date (clause 20.2.12).
    Date([u8; 4]),
    /// The four octets of a time of day (clause 20.2.13).
    Time([u8; 4]),
    /// An object of a device (clause 20.2.14).
    Object(ObjectId),
}
