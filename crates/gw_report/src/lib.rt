//! A page that shows a configuration and what its policy denied: `bacgwctl report`.
#![tactic(auto)]

mod access;
mod assertions;
mod counts;
mod document;
mod fault;
pub mod laws;
mod lines;
mod log;
pub mod page;
mod passing;
mod plots;
pub mod points;
mod rules;
mod site;
mod words;

pub use counts::MAX_LABELS;
pub use document::{report, report_with_log};
pub use fault::ReportFault;
pub use passing::{CELL_STEPS, Extent, TABLE_STEPS};
