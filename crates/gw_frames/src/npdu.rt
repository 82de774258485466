//! The network layer's messages of BACnet, ISO 16484-5, clause 6.2: read and written exactly.
mod address;
mod control;
mod fault;
mod kind;
pub mod laws;
mod message;
mod npdu;
mod onward;
mod raw;
mod reading;
mod writing;

pub use address::{AddressRef, Destination};
pub use control::Control;
pub use fault::{EncodeFault, NpduFault};
pub use kind::MessageKind;
pub use message::NetMessage;
pub use npdu::{Npdu, Payload, Priority};
pub use onward::{Onward, relay_header};
pub use reading::{decode, decode_to};
pub use writing::{MAX_LEN, encode};
