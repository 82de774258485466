//! The thirteen application datatypes (clause 20.2.1.4).

ghost use Rattle.std.specs.Prelude.{◌≡◌};
ghost use Rattle.gw_codecs.specs.tags.Reading.{datatype_of};

use crate::tags::fault::ValueFault;

/// A kind of value. Its place here is the number of its tag.
#[derive(Clone, Copy)]
pub enum Datatype {
    Null,
    Boolean,
    Unsigned,
    Signed,
    Real,
    Double,
    Octets,
    Text,
    Bits,
    Enumerated,
    Date,
    Time,
    Object,
}

/// The kind whose application tag has this number (clause 20.2.1.4). `BadTag` for 13 and above, which are reserved.
pub fn of_number(number: u8) -> Result<Datatype, ValueFault>
    ensures { result ≡ datatype_of number }
{
    match number {
        0 => Ok(Datatype::Null),
        1 => Ok(Datatype::Boolean),
        2 => Ok(Datatype::Unsigned),
        3 => Ok(Datatype::Signed),
        4 => Ok(Datatype::Real),
        5 => Ok(Datatype::Double),
        6 => Ok(Datatype::Octets),
        7 => Ok(Datatype::Text),
        8 => Ok(Datatype::Bits),
        9 => Ok(Datatype::Enumerated),
        10 => Ok(Datatype::Date),
        11 => Ok(Datatype::Time),
        12 => Ok(Datatype::Object),
        _ => Err(ValueFault::BadTag),
    }
}
