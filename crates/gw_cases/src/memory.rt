//! A reader and a writer over memory, which fail at a call of a case's choice.

ghost use Rattle.std.specs.Prelude.{Some};

use crate::notation::{number, number_or_none, unfolded};
use std::alloc::{AllocError, Global};
use std::io;
use std::io::{ErrorKind, Read, Write};

/// For how many octets a writer has room at the start.
const ROOM: usize = 4096;

/// Gives one octet a call if it is slow, and fails at the call of this number, from 0.
#[derive(Drop)]
pub struct MemReader<'a> {
    octets: &'a [u8],
    is_slow: bool,
    fails: Option<u64>,
}

impl<'a> MemReader<'a> {
    /// One that gives as many octets a call as it is asked for.
    pub fn new(octets: &'a [u8], fails: Option<u64>) -> Self {
        MemReader {
            octets,
            is_slow: false,
            fails,
        }
    }

    /// One that gives one octet a call.
    pub fn slow(octets: &'a [u8], fails: Option<u64>) -> Self {
        MemReader {
            octets,
            is_slow: true,
            fails,
        }
    }
}

impl Read for MemReader<'_> {
    ghost remaining = { λ reader. Some reader.octets.now };

    fn read(&mut self, buf: &mut [u8]) -> io::Result<usize> {
        if self.fails == Some(0) {
            return Err(ErrorKind::Other.into());
        }
        self.fails = self.fails.map(|number| number.saturating_sub(1));
        if self.is_slow {
            let count = buf.len().min(1);
            return self.octets.read(&mut buf[..count]);
        }
        self.octets.read(buf)
    }
}

/// Takes so many octets a call at most, and so many in all. It fails then, at the call of this number,
/// from 0, and at a flush if it doesn't flush.
#[derive(Drop)]
pub struct MemWriter {
    held: Vec<u8>,
    fails: Option<u64>,
    octets: usize,
    left: usize,
    flushes: bool,
}

impl MemWriter {
    /// One that takes so many octets a call, and may fail at one. It has room for what a case writes.
    pub fn new(alloc: Global, fails: Option<u64>, octets: usize) -> Result<Self, AllocError> {
        Ok(MemWriter {
            held: Vec::with_capacity(alloc, ROOM)?,
            fails,
            octets,
            left: usize::MAX,
            flushes: true,
        })
    }

    /// One that takes so many octets in all. It has room for them, so no write of it wants memory.
    pub fn with_room(alloc: Global, room: usize, flushes: bool) -> Result<Self, AllocError> {
        Ok(MemWriter {
            held: Vec::with_capacity(alloc, room)?,
            fails: None,
            octets: room,
            left: room,
            flushes,
        })
    }

    /// What it holds.
    pub fn held(&self) -> &[u8] {
        &self.held
    }
}

impl Write for MemWriter {
    ghost contents = { λ writer. Some writer.held.items };

    fn write(&mut self, buf: &[u8]) -> io::Result<usize> {
        if self.fails == Some(0) || self.left == 0 {
            return Err(ErrorKind::Other.into());
        }
        self.fails = self.fails.map(|number| number.saturating_sub(1));
        let count = buf.len().min(self.octets).min(self.left);
        if self.held.extend_from_slice(&buf[..count]).is_err() {
            return Err(ErrorKind::OutOfMemory.into());
        }
        self.left -= count;
        Ok(count)
    }

    fn flush(&mut self) -> io::Result<()> {
        if self.flushes {
            Ok(())
        } else {
            Err(ErrorKind::Other.into())
        }
    }
}

/// The streams of a case: the text that is read, the read that fails, from 0, and the writer.
#[derive(Drop)]
pub struct CaseStreams {
    pub text: Vec<u8>,
    pub fails: Option<u64>,
    pub writer: MemWriter,
}

impl CaseStreams {
    /// Those of a line: the read that fails, from 0, or `-`, the write that fails, how many octets a write takes, and the text.
    ///
    /// # Errors
    ///
    /// If the line has another form, or memory is refused.
    pub fn parse(alloc: Global, line: &str) -> io::Result<Self> {
        let mut words = line.splitn(4, ' ');
        let fails = number_or_none(words.next())?;
        let write = number_or_none(words.next())?;
        let octets = number(words.next())?;
        let text = unfolded(alloc, words.next().unwrap_or(""))?;
        let writer = MemWriter::new(alloc, write, octets)?;
        Ok(CaseStreams {
            text,
            fails,
            writer,
        })
    }
}
