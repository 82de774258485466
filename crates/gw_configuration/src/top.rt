//! What the top table of a configuration says by itself.
use gw_rules::Format;

/// The values of the top table that are no tables.
#[derive(Clone, Copy)]
pub struct TopValues {
    /// The format of the policy.
    pub format: Format,
    /// Whether the gateway announces networks.
    pub announce: bool,
}
