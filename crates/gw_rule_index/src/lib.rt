//! The rules of a policy, compiled: the first rule that matches an ask by one search a field.
//!
//! The rules are this project's own; `gw_rules` says what they mean. An index answers as the list
//! that it was built from, and keeps no list.
#![tactic(auto)]

mod bound;
mod counted;
mod field_ask;
mod field_build;
mod field_index;
mod field_indexes;
pub mod laws;
mod policy;
mod row;
mod rule_index;
mod search;

pub use counted::{COMPARISONS_A_FIELD, Counted, MAX_ANDS, MAX_COMPARISONS};
pub use policy::{LEAST_INDEXED, Policy};
pub use rule_index::RuleIndex;
