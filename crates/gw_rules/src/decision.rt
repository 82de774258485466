//! What a policy says of an ask.

/// What a policy says of an ask.
#[derive(Clone, Copy, PartialEq, Eq)]
pub enum Decision {
    /// The first rule that matches says allow.
    Allow,
    /// The first rule that matches says deny, or none matches.
    Deny {
        /// The number of that rule, counted from 1; `None` if no rule matches.
        by: Option<u16>,
    },
}
