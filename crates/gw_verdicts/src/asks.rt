//! The asks that a text shows, line by line, whatever is in front of them and whatever else the text has.
mod cursor;
pub mod laws;
mod lent;
mod nothing;
mod reader;

pub use lent::Lent;
pub use reader::AskLines;
