//! The text of a saved state, line by line: written, and read back.
#![tactic(auto)]

mod block;
mod fault;
mod items;
pub mod laws;
mod lines;
mod object;
mod port;
mod reading;
mod tables;
mod value;
mod words;
mod writing;

pub use fault::{FaultKind, StateFault};
pub use reading::read_state;
pub use writing::put_state;
