//! What the gateway passes on: broadcast management on each of its ports, and the distribution of
//! broadcasts (Annex J.4, J.5).
//!
//! A [`Relay`] adds to a [`Turn`] what a frame gives: the sends in order, what its asker keeps of the
//! asks, and at most one [`Change`]. It changes nothing then; [`Relay::commit`] makes the change whole.
#![tactic(auto)]

mod announcement;
mod ask;
mod cast;
mod change;
mod commit;
mod entry;
mod initial;
pub mod laws;
mod link;
mod manage;
mod message;
mod named;
mod npdu;
mod octets;
mod outgoing;
mod port;
mod relay;
mod route;
mod sends;
mod stations;
mod turn;

pub use ask::sender_of;
pub use change::Change;
pub use initial::first_table;
pub use message::{Message, TableMessage, local_source};
pub use port::{Port, PortState, port_at};
pub use relay::Relay;
pub use sends::{BUFFER_ROOM, Batch, KEPT_ROOM, Sends};
pub use turn::Turn;
