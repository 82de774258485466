//! Why octets are no body of a service.

use thiserror::Error;

/// Why octets are no body of a service: the first thing that is wrong, in the order of the octets.
#[derive(Clone, Copy, Debug, Error)]
pub enum BodyFault {
    /// 1: something else is where a parameter is due: no tag, another tag, a content that the
    /// parameter can't have, or values that aren't balanced or nest too deep. Where a parameter may
    /// be absent, another tag isn't this fault.
    #[error("a parameter has an invalid tag")]
    InvalidTag,
    /// 2: the body ends where a parameter is due.
    #[error("a required parameter is missing")]
    Missing,
    /// 3: a number is outside the range of its parameter.
    #[error("a parameter is out of range")]
    OutOfRange,
    /// 4: octets follow the last parameter, or a ReadPropertyMultiple names more than 128
    /// properties.
    #[error("there are too many arguments")]
    TooMany,
    /// 5: a ReadPropertyMultiple names an index beside ALL, REQUIRED or OPTIONAL.
    #[error("the parameters are inconsistent")]
    Inconsistent,
    /// 6: a growth was refused.
    #[error("out of memory")]
    Memory,
}
