//! Why octets are no message of the network layer, and why a message was not written.

use thiserror::Error;

/// Why octets are no NPDU (ISO 16484-5, clause 6.2). The first fault by number is answered.
#[derive(Clone, Copy, Debug, Drop, Error)]
pub enum NpduFault {
    /// 1: the octets end before a field that the control octet or the message type names.
    #[error("the message ends before a field that it names")]
    Short,
    /// 2: the version is not 1.
    #[error("the message is not of version 1")]
    Version,
    /// 3: DNET is 0, or 65535 with an address; or SNET is 0 or 65535, or SLEN is 0.
    #[error("the message has an address that no station can have")]
    Address,
}

/// Why a message or a header was not written. The buffer's octets are as before.
#[derive(Clone, Copy, Debug, Drop, Error)]
pub enum EncodeFault {
    /// 1: the whole message would be over 1497 octets, the most that BACnet/IP carries (Annex J).
    #[error("the message would be over 1497 octets")]
    TooLong,
    /// 2: a growth of the buffer was refused.
    #[error("out of memory")]
    Memory,
}
