//! Cases: how they are written, how a program answers them section by section, and what cases read from and write to in memory.
//!
//! A section begins with a line `== KIND NAME`. Of most kinds each line is a case; a script, and a text to be checked, is one case. A
//! configuration holds for the sections that follow it.
#![tactic(auto)]

mod edits;
mod memory;
mod notation;
mod sections;
mod sink;
mod source;
mod written;

pub use edits::edited;
pub use memory::{CaseStreams, MemReader, MemWriter};
pub use notation::{
    event_lines, is_case, made, number, number_behind, number_or_none, octets_of, put_end,
    put_octets, put_other, put_word, unfolded, wanted,
};
pub use sections::{Case, Kinds, write_groups, write_sections};
pub use sink::MemSink;
pub use source::MemSource;
pub use written::WrittenOctets;
