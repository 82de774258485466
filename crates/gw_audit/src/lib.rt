//! The log: what the policy denies, and the line that shows it, written and read back.
//!
//! The line is this project's own. `docs/spec/log.md` says it for whoever reads a log.
#![tactic(auto)]

mod denial;
mod entry;
pub mod laws;
mod reading;
mod text;

pub use denial::{Denial, Denials};
pub use entry::{Shown, ShownAsk, Stations};
pub use reading::{read_ask, read_line};
pub use text::{KEYS, line, operation_named, put_ask, put_key};
