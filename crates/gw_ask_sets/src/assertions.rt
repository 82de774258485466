//! Assertions: whether what a configuration asserts of its policy holds of every ask that it can raise.
//!
//! An assertion is a few conditions, of which each ask that is meant meets one. What of the shapes meets one is
//! searched, rule by rule, for an ask that is decided otherwise than it is asserted.
mod asserted;
mod condition;
mod judging;
mod passing;

pub use judging::{JUDGING_STEPS, Judged, judge};
