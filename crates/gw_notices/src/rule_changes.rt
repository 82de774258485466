//! How the rules of one policy differ from those of another: how many are new, gone and moved. A rule is known by its
//! name and its content, so one of which something changed is gone, and another is new.
mod changes;
mod same;

pub use changes::{Changes, changes_of, put_changes};
