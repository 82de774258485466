//! The command line of `bacgw`: which command its words choose.
//!
//! [`choice_of`] reads the words with `clap`. A command that is added has its options in `commands.rt`, what it asks
//! for in `specs/Requests.antt`, and how it is chosen in `command_line.rt`.
#![tactic(auto)]

mod command_line;
mod commands;
pub mod laws;
mod moved;
pub mod options;

pub use command_line::{Choice, choice_of};
