//! What the bodies of Who-Is, Who-Has, I-Am and I-Have say (clauses 16.9 and 16.10).

ghost use Rattle.std.specs.Prelude.{◌≤◌};
ghost use Rattle.gw_codecs.specs.services.Limits.{last_instance};

use crate::services::segmentation::Segmentation;
use crate::tags::{CharacterString, ObjectId};

/// The last instance of an object: 22 bits.
pub(crate) const LAST_INSTANCE: u32 = 4_194_303;

/// Whose instances are asked for. A low end above the high one is nobody's.
///
/// | Tag | Parameter |
/// |---|---|
/// | 0 | low |
/// | 1 | high |
#[derive(Clone, Copy, Debug)]
pub struct Limits {
    /// The lowest instance, 0 to 4194303.
    pub low: u32,
    /// The highest instance, 0 to 4194303.
    pub high: u32,
    pub ghost low_fits: { low ≤ last_instance },
    pub ghost high_fits: { high ≤ last_instance },
}

/// A Who-Is request: limits, or none.
#[derive(Clone, Copy, Debug)]
pub struct WhoIs {
    /// The limits. `None` asks everyone.
    pub limits: Option<Limits>,
}

/// What a Who-Has request seeks.
///
/// | Tag | Parameter |
/// |---|---|
/// | 2 | object |
/// | 3 | name |
#[derive(Clone, Copy, Debug)]
pub enum Sought<'a> {
    /// An object.
    Object(ObjectId),
    /// The object of this name.
    Name(CharacterString<'a>),
}

/// A Who-Has request: limits, or none, and what is sought. A name is lent from the octets that it
/// was read from.
#[derive(Clone, Copy, Debug)]
pub struct WhoHas<'a> {
    /// The limits. `None` asks everyone.
    pub limits: Option<Limits>,
    /// What is sought.
    pub sought: Sought<'a>,
}

/// An I-Am: four application values.
#[derive(Clone, Copy, Debug)]
pub struct IAm {
    /// The device.
    pub device: ObjectId,
    /// The longest APDU that it takes, in octets.
    pub max_apdu: u16,
    /// Its segmentation.
    pub segmentation: Segmentation,
    /// Its vendor.
    pub vendor: u16,
}

/// An I-Have: three application values. The name is lent from the octets that it was read from.
#[derive(Clone, Copy, Debug)]
pub struct IHave<'a> {
    /// The device.
    pub device: ObjectId,
    /// The object that it has.
    pub object: ObjectId,
    /// The object's name.
    pub name: CharacterString<'a>,
}
