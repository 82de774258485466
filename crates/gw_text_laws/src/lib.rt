//! Laws of the text of a configuration: what the keys of a later day leave as it was.
#![tactic(auto)]

pub mod laws;
