//! What the cases of both programs share: the words of a call, files in memory, streams, and what a run left.
#![tactic(auto)]

mod calendar;
mod files;
mod runs;
mod words;

pub use calendar::MemCalendar;
pub use files::{MemFiles, UNREADABLE};
pub use runs::{Left, MemStreams, Program, Section, put_fronts, put_left, put_lines};
pub use words::{call, put, put_faults, put_file, put_flag, status_text};
