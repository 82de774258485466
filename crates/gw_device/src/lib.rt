//! The gateway's own device: what it answers to an APDU, under a policy that is asked before any
//! look-up (ISO 16484-5, clauses 12, 15, 16 and 20).
#![tactic(auto)]

mod access;
mod answer;
mod change;
mod context;
mod device;
mod dispatch;
mod error;
pub mod laws;
mod limited;
mod multi;
mod piece;
mod read;
mod served;
mod services;
mod short;
mod who_has;
mod who_is;
mod write;

pub use access::Access;
pub use answer::{Answer, HEADER_ROOM};
pub use change::Change;
pub use context::Context;
pub use device::Device;
pub use served::Served;
pub use short::BUFFER_ROOM;
