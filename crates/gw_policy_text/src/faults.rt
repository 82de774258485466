//! Where the fault of a configuration is and what is wrong there, in a line for an operator.
mod diagnosis;
mod explanation;
mod first;
mod keys;
pub mod laws;
mod near;
mod reason;
mod value;
mod words;

pub use diagnosis::explain;
pub use explanation::Explanation;
