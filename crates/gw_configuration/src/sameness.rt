//! Whether two configurations have the same parts.
mod same;

pub use same::{Same, are_same};
