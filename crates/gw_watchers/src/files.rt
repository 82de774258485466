//! The files of what watches a gateway: a policy on trial with its log, and an audit.
mod fault;
mod fitting;
mod numbers;
mod opening;

pub use fault::{TrialFault, WatchFault};
pub use fitting::is_same_format;
pub use opening::{TrialNames, open_audit, open_trial};
