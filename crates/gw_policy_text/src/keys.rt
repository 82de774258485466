//! The tables of a configuration, key by key: what each key's value may be, what a value is read to, and
//! the fault of a table with its place.
mod field;
pub mod items;
pub mod laws;
pub mod range;
pub mod tables;
pub mod value;

pub use field::{Field, MAX_ITEMS, located_beside, located_in};
