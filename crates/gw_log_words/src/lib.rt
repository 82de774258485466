//! The words of the log and its time: lines in words, moments, stamps in front of lines, notes between them, and a log whose file is renamed.
#![tactic(auto)]

mod calendar;
mod dates;
mod fields;
mod form;
mod last_line;
mod lasting;
pub mod laws;
mod moment;
mod named_log;
mod noted;
mod notes;
mod stamped;
mod translating;
mod words;

pub use calendar::{Calendar, SystemCalendar, moment_after};
pub use fields::{ask_front, denial_front, says_allow};
pub use last_line::last_denial;
pub use lasting::Lasting;
pub use moment::Moment;
pub use named_log::{NamedFiles, NamedLog};
pub use noted::{Noted, Place};
pub use notes::Notes;
pub use stamped::Stamped;
pub use translating::translate_log;
pub use words::translate_line;
