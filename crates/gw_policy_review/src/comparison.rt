//! What two configurations decide otherwise, in lines that a person reads.
mod asks;
mod comparing;
mod comparison;
mod details;
mod groups;
pub mod laws;
mod lines;
mod listing;
mod naming;
mod object_details;
mod operations;
mod pairs;
mod parts;
mod port_details;
mod rule_details;
pub(crate) mod words;

pub use asks::asks_of;
pub use comparing::{Comparing, put_steps};
pub use comparison::{Compared, Printing, Results, compared_by, judged_by};
pub use details::put_details;
pub use groups::MOST_UNGROUPED;
pub use parts::{Part, PortPart, differing_parts, put_part_names};
