//! Who may do what under a configuration: the lines that `bacgwctl explain` has of it.
mod allowances;
mod grants;
pub mod laws;
mod networks;
mod notes;
mod objects;
mod passing;
mod permissions;
mod ports;
mod questions;
mod reach;
mod words;

pub use passing::search_decided;
pub(crate) use passing::{Passage, allows_at, is_never, search_allowed};
pub use permissions::put_permissions;
pub(crate) use words::Placed;
