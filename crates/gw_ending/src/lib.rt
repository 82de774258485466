//! How a program ends: its faults, their lines on standard error, and the exit status.
//!
//! [`end`] and [`report_fault`] write the line of a fault after the program's name. A fault of a lower crate becomes a
//! [`Fault`] by `From`.
#![tactic(auto)]

mod ending;
mod fault;
pub mod reading;
mod streams;

pub use ending::{end, report_fault, write_number};
pub use fault::{Fault, MigrationFlaw, words_of};
pub use streams::Streams;
