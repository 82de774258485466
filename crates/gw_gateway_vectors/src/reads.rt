//! How many reads a replay takes, by a source that counts them.

ghost use Rattle.std.specs.Prelude.{◌+◌, ◌≤◌, ◌<◌};

use crate::configurations::read;
use gw_cases::{CaseStreams, put_end};
use gw_replay::replay;
use gw_script::{OctetSource, ReadFailed};
use std::alloc::Global;
use std::io;
use std::io::{Read, Write};

/// A source over a reader, which counts its reads.
#[derive(Drop)]
struct CountedReads<R> {
    reader: R,
    reads: u64,
}

impl<R: Read> OctetSource for CountedReads<R> {
    ghost left = { λ source. R.remaining source.reader };

    ghost NeverFails = { λ _. ⊥ };

    ghost reads = { λ source. source.reads };

    fn read_octets(&mut self, buffer: &mut [u8]) -> Result<usize, ReadFailed> {
        self.reads = self.reads.saturating_add(1);
        match self.reader.read(buffer) {
            Ok(count) => Ok(count),
            Err(_) => Err(ReadFailed),
        }
    }
}

/// How the replay of a script ends, and after how many reads of a reader that gives all that it has.
pub fn reads(alloc: Global, config: &str, line: &str, out: &mut Vec<u8>) -> io::Result<()> {
    let CaseStreams {
        text,
        mut writer,
        ..
    } = CaseStreams::parse(alloc, line)?;
    let config = read(alloc, config)?;
    let mut source = CountedReads {
        reader: text.as_slice(),
        reads: 0,
    };
    put_end(replay(alloc, config, &mut source, &mut writer), out)?;
    write!(out, " after {} reads", source.reads)
}
