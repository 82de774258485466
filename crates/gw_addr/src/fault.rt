//! Why octets or a text are no address.

use thiserror::Error;

/// Why octets are no BACnet/IP address.
#[derive(Clone, Copy, Debug, Error)]
pub enum OctetsFault {
    /// 1: not six octets.
    #[error("a BACnet/IP address has six octets")]
    Length,
}

/// Why a text is no BACnet/IP address.
#[derive(Clone, Copy, Debug, Error)]
pub enum TextFault {
    /// 1: not of the form `a.b.c.d:port`, in decimal digits without leading zeros and within range.
    #[error("a BACnet/IP address is written `a.b.c.d:port`")]
    Text,
}
