//! Rules from what was seen: the rules that allow the asks of a log, few and readable, to be put in front of
//! those of a configuration.
mod cutting;
mod fault;
mod front;
mod given;
mod group;
mod joining;
pub mod laws;
mod leaving;
mod places;
mod reading;
mod rules;
mod suggestion;
mod text;

pub use fault::SuggestFault;
pub use given::MAX_ASKS;
pub use suggestion::{Manner, suggest};
