//! Replays from a reader of one octet a call, to a writer of some octets a call, each of which fails at a call of the case's choice.

use crate::replays::end_of;
use gw_cases::{CaseStreams, MemReader, put_end, put_word};
use std::alloc::Global;
use std::io;

/// What a replay writes, and how it ends.
pub fn stream(alloc: Global, config: &str, line: &str, out: &mut Vec<u8>) -> io::Result<()> {
    let CaseStreams {
        text,
        fails,
        mut writer,
    } = CaseStreams::parse(alloc, line)?;
    let mut reader = MemReader::slow(&text, fails);
    put_end(end_of(alloc, config, &mut reader, &mut writer)?, out)?;
    put_word(writer.held(), out)
}
