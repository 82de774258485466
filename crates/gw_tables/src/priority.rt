//! Command prioritization (ISO 16484-5 clause 19.2): sixteen slots for commands of one property, by
//! priority, and the default that holds if every slot is empty.
mod array;
mod fault;
pub mod laws;

pub use array::{LOWEST, PRIORITIES, PriorityArray, RESERVED};
pub use fault::{PriorityFault, RefusedCommand};
