//! Why octets are no message, and why a message could not be written (Annex J.2).

use thiserror::Error;

/// Why a datagram is no message of the virtual link layer: the first of these that holds. A
/// datagram of fewer than four octets is `Length`, whatever they are.
#[derive(Clone, Copy, Debug, Error)]
pub enum BvllFault {
    /// 1: the first octet is not `81`.
    #[error("the message does not begin with 81")]
    Marker,
    /// 2: fewer than four octets, or a length field that is not the datagram's length.
    #[error("the length field is not the length of the datagram")]
    Length,
    /// 3: the second octet is above `0B`.
    #[error("the function is not one of Annex J.2")]
    Function,
    /// 4: the body has not the shape of its function.
    #[error("the body has not the shape of its function")]
    Body,
}

/// Why a message could not be written.
#[derive(Clone, Copy, Debug, Error)]
pub enum EncodeFault {
    /// 1: the message would have over 1507 octets.
    #[error("the message has over 1507 octets")]
    TooLong,
    /// 2: a growth of the buffer was refused.
    #[error("out of memory")]
    Memory,
}
