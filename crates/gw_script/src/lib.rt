//! Scripts of events: their lines, read from any source of octets, and the text of what events do.
//!
//! It knows lines and texts alone, and no gateway: what an event does is `gw_core`'s.
#![tactic(auto)]

mod event;
mod finding;
mod flaw;
mod law;
mod line;
mod lines;
mod reader;
mod sink;
mod source;
mod text;
mod translator;

pub use event::{Event, SpelledAddr};
pub use flaw::{LineFlaw, flaw_of};
pub use law::{script_laws, script_limits};
pub use line::{MAX_DATAGRAM, parse_line, parse_spelled};
pub use lines::{LinesFault, translate_lines};
pub use reader::{LineReader, NextLine};
pub use sink::{OctetSink, WriteFailed, write_count, write_count_line, write_whole};
pub use source::{OctetSource, ReadFailed};
pub use text::{append_end, append_send, append_sends_to};
pub use translator::LineTranslator;
