//! Policies that the program writes: a configuration to begin with, rules that allow what a log denied, a configuration of an older
//! format in format 3, and the rules of a configuration as they are judged.
#![tactic(auto)]

pub mod beginning;
pub mod listing;
pub mod migration;
pub mod suggestion;
