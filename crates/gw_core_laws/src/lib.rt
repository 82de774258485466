//! What holds of every gateway, in plain words: laws of its definitions, and worked examples of them.
#![tactic(auto)]

pub mod laws;
