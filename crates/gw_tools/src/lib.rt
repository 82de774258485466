//! The program `bacgwctl` over any words, files, streams and machine: what an operator asks of configurations, logs and a
//! running gateway.
//!
//! [`run`] is the whole program: the words choose a command, and the files that they name have the configuration, the log or
//! the state. A fault is one line on standard error, and the exit status says of which kind it is.
#![tactic(auto)]

mod asking;
mod asserting;
mod beginning;
mod checked;
mod comparing;
mod ending;
mod following;
mod json;
mod kept;
mod lines;
mod machine;
mod objects;
mod placed;
mod program;
mod questioning;
mod reloading;
mod reporting;
mod rewritten;
mod suggesting;
mod translating;
mod unread;

pub use gw_command_line::options::WordsFault;
pub use gw_ending::reading::{ConfigFiles, SystemFiles};
pub use gw_ending::{Fault, Streams, end};
pub use gw_system::{Obstacle, SystemHost};
pub use gw_tool_line::{Choice, DeedWords, Shown, SiteWords, choice_of};
pub use machine::{HostMachine, Machine};
pub use program::run;
