//! What a policy decides: which rule would decide the asks of a log; and that what a lint says of the
//! rules is true of every ask that a gateway raises.
#![tactic(auto)]

mod asking;
pub mod asks;
pub mod laws;
pub mod questions;

pub use asking::why;
