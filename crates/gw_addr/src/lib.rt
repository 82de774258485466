//! Addresses of BACnet/IP and of BACnet networks (Annex J.1.2, clauses 6.1 and 6.3), and, in
//! `specs/`, the common ground of all codecs above.
#![tactic(auto)]

mod bip;
mod digits;
mod entry;
mod fault;
pub mod laws;
mod mask;
mod network;
mod readers;
mod sequence;
mod station;
mod writers;

/// How many ports a gateway has at most, a limit of ours. A script names each by one digit.
pub const MAX_PORTS: usize = 8;

pub use bip::{BipAddr, bip_from_slice};
pub use entry::{BdtEntry, FdtEntry};
pub use fault::{OctetsFault, TextFault};
pub use mask::Mask;
pub use network::NetNum;
pub use readers::{address, front, long_number, number, octet};
pub use sequence::Sequence;
pub use station::{Mac, Source, key_of, key48};
pub use writers::{
    keep_whole, put_decimal, put_long_number, put_number, put_octet, put_slice, put_text_number,
};
