//! What watches a gateway's asks beside its traffic: a trial policy, an audit of allowed asks, and counts by rule.
//!
//! A [`Watcher`] is a guard that withholds nothing, and whatever fails of it, the traffic and the log stay what they are.
#![tactic(auto)]

mod audit;
mod beside;
mod choice;
pub mod files;
pub mod laws;
mod trial;
mod watcher;
mod writing;

pub use audit::Marks;
pub use beside::Beside;
pub use choice::RecordChoice;
pub use trial::Trial;
pub use watcher::Watcher;
