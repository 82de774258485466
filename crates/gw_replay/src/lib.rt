//! The replay of a script: what its events do, what they ask, and how many of their asks each rule decides.
#![tactic(auto)]

mod counting;
mod entry;
mod event_writer;
pub mod laws;
mod replaying;
mod shown;

pub use counting::count_script;
pub use replaying::{RunFault, replay, replay_explaining};
