//! Sets of asks: regions, which are sets of field values, shapes, which are the asks that a configuration can raise, and
//! assertions, which speak of some of these. And one ask as a text, and what has a number.
#![tactic(auto)]

pub mod ask_text;
pub mod assertions;
pub mod numbered;
pub mod regions;
pub mod shapes;
