//! How many asks of a log each rule of a policy decides.
//!
//! [`count_asks`] reads the asks line by line and keeps only the counts; [`write_tally`] writes them, a line for each rule.
mod counting;
pub mod laws;
mod tally;
mod text;

pub use counting::count_asks;
pub use tally::Tally;
pub use text::{put_tally, write_tally};
