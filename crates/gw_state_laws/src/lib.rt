//! The laws of a state that outlives the process: nothing is lost when it is taken over, what is saved is read back, and what lasts is
//! stored before it is answered.
#![tactic(auto)]

pub mod continuity;
pub mod keeping;
pub mod restoring;
