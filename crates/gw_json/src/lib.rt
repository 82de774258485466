//! A log, the answers to its asks, what two policies decide otherwise and what `check` says of a configuration, as JSON
//! objects: one a line, for other programs to read.
//!
//! A field of an ask has the key that a rule has for it. `docs/spec/log.md` and the README list the keys.
#![tactic(auto)]

mod ask;
mod check;
mod comparison;
pub mod laws;
mod log;
mod results;
mod unheld;
mod value;
mod why;

pub use check::{put_check, put_fault};
pub use comparison::put_differences;
pub use log::log_in_json;
pub use results::{ResultListing, put_results};
pub use unheld::unheld_line;
pub use why::why_in_json;
