//! Why octets are no APDU.

use thiserror::Error;

/// Why octets are no APDU (ISO 16484-5, clause 20.1).
#[derive(Clone, Copy, Debug, Drop, Error)]
pub enum ApduFault {
    /// 1: there is no octet, or the octets end within the header of a type that there is.
    #[error("the octets end within a header")]
    Short,
    /// 2: the first octet has a type from 8 to 15, which the standard reserves.
    #[error("the PDU type is reserved")]
    Kind,
}
