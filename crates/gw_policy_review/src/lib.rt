//! What a reader of a policy wants to know: who may do what, which settings are surely mistakes, and which rules can never decide.
#![tactic(auto)]

pub mod comparison;
pub mod lint;
mod numbered;
pub mod permissions;
pub mod places;
pub mod warnings;
