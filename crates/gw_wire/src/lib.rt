//! Wires and stores; and the sockets of all ports and the clock, as one wire: whose turn it is, and what a second brings.
//!
//! It is over any sockets, clock and waiter, and opens none: those of the system are `gw_system`'s.
#![tactic(auto)]

pub mod laws;
mod ports;
mod sock_pair;
mod socket;
mod store;
mod timed;
mod timepiece;
mod waiter;
mod waking;
mod watch;
mod wire;

pub use ports::Ports;
pub use sock_pair::SockPair;
pub use socket::{Sock, SockFault};
pub use store::{Store, StoreFault};
pub use timed::TimedPorts;
pub use timepiece::Timepiece;
pub use waiter::{Waiter, socket_number};
pub use watch::Watch;
pub use wire::{Got, RECEIVE_ROOM, Wire, WireFault};
