//! What is odd about a policy: rules that can never decide, since no ask that the gateway raises
//! reaches them, and rules that may not mean what they say.
mod discovery_note;
mod finding;
pub mod laws;
mod lint;
mod note;
mod passage;
mod text;
mod trust;
mod trust_note;

pub(crate) use finding::steps_given;
pub use finding::{ALL_STEPS, Finding, Findings, MAX_STEPS, findings_of};
pub use lint::put_lint;
