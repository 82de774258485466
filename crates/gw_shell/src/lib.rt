//! The program `bacgw` over any words, files, streams and machine.
//!
//! [`run`] is the whole program: the words choose a command, the file that they name has the configuration, and `check`,
//! `replay` or `run` is done under it; help needs none. A fault is one line on standard error, and the exit status says of
//! which kind it is.
#![tactic(auto)]

mod deciding;
mod ending;
mod program;
mod replaying;
mod serving;

pub use gw_command_line::options::WordsFault;
pub use gw_command_line::{Choice, choice_of};
pub use gw_configuration::RunOptions;
pub use gw_ending::reading::{ConfigFiles, SystemFiles};
pub use gw_ending::{Fault, Streams, end, words_of};
pub use gw_system::{
    FailedStep, Host, LogFailure, Obstacle, OpenFailure, PollWaiter, Reason, SocketFailure, Step,
    SystemClock, SystemHost, UdpSock,
};
pub use program::run;
pub use replaying::replay;
