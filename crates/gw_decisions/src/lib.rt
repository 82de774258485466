//! How many of the asks of events each rule of a policy decides.
#![tactic(auto)]

mod counted;
pub mod tally;

pub use counted::count_asked;
