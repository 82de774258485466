//! Why parts can't be saved together.

use thiserror::Error;

/// Why parts can't be those of a saved state.
#[derive(Clone, Copy, Debug, Error)]
pub enum SavedFault {
    /// 1: there are more than 8 ports, 512 learned routes or 256 value objects.
    #[error("too many ports, routes or objects")]
    TooMany,
    /// 2: the tables have seen more ticks than the gateway, or a count is past 2^63.
    #[error("a count is out of range")]
    Counts,
}
