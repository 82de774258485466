//! What a saved state holds, and what of it a gateway of a configuration takes over, in words.
#![tactic(auto)]

pub mod laws;
mod lines;
mod state;
mod summary;
pub mod takeover;
mod words;

pub use state::{put_dropped, put_state_words};
pub use summary::put_take_over;
