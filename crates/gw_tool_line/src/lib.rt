//! The command line of `bacgwctl`: which command its words choose.
//!
//! [`choice_of`] reads the words with `clap`. A command that is added has its options in `commands.rt`, what it asks
//! for in `specs/Requests.antt`, and how it is chosen in `command_line.rt`.
#![tactic(auto)]

mod ask_choice;
mod ask_command;
mod command_line;
mod commands;
mod init_choice;
mod init_command;
pub mod laws;
mod moments;
mod options;

pub use ask_choice::DeedWords;
pub use command_line::{Choice, choice_of};
pub use init_choice::SiteWords;
pub use options::Shown;
