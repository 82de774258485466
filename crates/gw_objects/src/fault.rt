//! Why a property isn't read or written.
use thiserror::Error;

/// Why a property isn't read. The faults are judged in the order of their numbers (clause 15.5).
#[derive(Clone, Copy, Debug, Error)]
pub enum ReadFault {
    /// 1: there is no such object.
    #[error("unknown object")]
    UnknownObject,
    /// 2: the object has no such property.
    #[error("unknown property")]
    UnknownProperty,
    /// 3: an index was given, and the property is no array.
    #[error("property is not an array")]
    NotArray,
    /// 4: the array has no element of that index.
    #[error("array index is over the length")]
    BadIndex,
    /// 5: there is no memory for the octets.
    #[error("out of memory")]
    Memory,
}

/// Why a property isn't written. The faults are judged in the order of their numbers (clause 15.9).
#[derive(Clone, Copy, Debug, Error)]
pub enum WriteFault {
    /// 1: there is no such object.
    #[error("unknown object")]
    UnknownObject,
    /// 2: the object has no such property.
    #[error("unknown property")]
    UnknownProperty,
    /// 3: the property can't be written: only Present_Value and Relinquish_Default can (our own
    /// rule).
    #[error("property can't be written")]
    NotWritable,
    /// 4: an index was given, and the property is no array.
    #[error("property is not an array")]
    NotArray,
    /// 5: Present_Value at priority 6 (our own rule).
    #[error("priority 6 is reserved")]
    Reserved,
    /// 6: the octets aren't one value of the kind that the property has.
    #[error("value is of another kind")]
    WrongKind,
    /// 7: a text in another character set than 0.
    #[error("character set isn't supported")]
    CharacterSet,
    /// 8: a number outside its range, or a text that isn't UTF-8.
    #[error("value is out of range")]
    OutOfRange,
    /// 9: a text of more than 255 octets.
    #[error("no space for the value")]
    NoSpace,
    /// 10: there is no memory for the value.
    #[error("out of memory")]
    Memory,
}
