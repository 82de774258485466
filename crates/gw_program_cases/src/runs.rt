//! One run of a program, and what it leaves.
//!
//! A section has the words on its first line, with a bar between two of them; then lines that say what the machine is like;
//! and after a line `input` standard input.

ghost use Rattle.std.specs.Prelude.{◌≡◌, [], IfOk};

use crate::words::{call, put, status_text};
use gw_cases::{MemSink, MemSource, MemWriter, number_behind};
use gw_ending::{Fault, Streams};
use itoa::Buffer;
use std::alloc::{AllocError, Global};
use std::io;
use std::io::{BufWriter, ErrorKind};
use std::process::ExitCode;

/// More octets than any run of a section writes.
const AMPLE: usize = 1 << 20;

/// How many octets of output are gathered where a section doesn't say it.
const CAPACITY: usize = 4096;

/// The section of a run.
#[derive(Clone, Copy)]
pub struct Section<'a> {
    /// The words of the call, with a bar between two.
    pub words: &'a str,
    /// What the machine is like, a line each.
    pub lines: &'a str,
    /// Standard input.
    pub input: &'a str,
}

impl<'a> Section<'a> {
    /// The section of this text.
    pub fn of(text: &'a str) -> Section<'a> {
        let (head, input) = text.split_once("\ninput\n").unwrap_or((text, ""));
        let (words, lines) = head.split_once('\n').unwrap_or((head, ""));
        Section {
            words,
            lines,
            input,
        }
    }

    /// Whether a line is there.
    pub fn has(&self, wanted: &str) -> bool {
        self.lines.lines().any(|line| line == wanted)
    }

    /// The number after this word.
    pub fn number(&self, word: &str) -> Option<usize> {
        number_behind(self.lines, '\n', word)
    }

    /// The words of a call of the program of this name, or the fault where there are none to be had.
    pub fn call(
        &self,
        alloc: Global,
        program: &str,
    ) -> Result<Result<Vec<String>, Fault>, AllocError> {
        if self.has("no words") {
            return Ok(Err(Fault::of_words(ErrorKind::InvalidData)));
        }
        Ok(Ok(call(alloc, program, self.words)?))
    }

    /// Standard input.
    fn reader(&self) -> MemSource<'a> {
        MemSource::new(self.input.as_bytes(), self.has("input fails"))
    }

    /// Standard output, which has room for so many octets after its buffer.
    fn output(&self, alloc: Global, room: usize) -> Result<BufWriter<MemWriter>, AllocError> {
        let narrow = MemWriter::with_room(alloc, room, !self.has("flushes fail"))?;
        let capacity = self.number("buffer ").unwrap_or(CAPACITY);
        match BufWriter::with_capacity(alloc, capacity, narrow) {
            Ok(output) => Ok(output),
            Err(_) => Err(AllocError),
        }
    }

    /// Standard error, which takes all unless the section says how much.
    fn errors(&self, alloc: Global) -> Result<MemSink, AllocError>
        ensures { IfOk result (λ errors. errors.written.octets ≡ []) }
    {
        let room = self.number("errors ");
        MemSink::new(alloc, room, room.unwrap_or(AMPLE))
    }

    /// The standard streams, the output with room for so many octets after its buffer.
    pub fn streams(&self, alloc: Global, room: usize) -> Result<MemStreams<'a>, AllocError>
        ensures { IfOk result (λ streams. streams.errors.written.octets ≡ []) }
    {
        Ok(Streams {
            input: self.reader(),
            output: self.output(alloc, room)?,
            errors: self.errors(alloc)?,
        })
    }

    /// For how many octets standard output has room after its buffer.
    pub fn room(&self) -> usize {
        self.number("output ").unwrap_or(AMPLE)
    }
}

/// The standard streams of a run.
pub type MemStreams<'a> = Streams<MemSource<'a>, MemWriter, MemSink>;

/// What a run leaves: its exit status and both streams.
#[derive(Drop)]
pub struct Left {
    pub code: ExitCode,
    pub output: MemWriter,
    pub errors: MemSink,
}

impl Left {
    /// What a run on these streams leaves that ended with this status.
    pub fn new(code: ExitCode, streams: MemStreams<'_>) -> Left
        ensures errors { result.errors ≡ streams.entry.errors }
        ensures code { result.code ≡ code }
    {
        let Streams { output, errors, .. } = streams;
        let (output, _unwritten) = output.into_parts();
        Left {
            code,
            output,
            errors,
        }
    }
}

/// A program on a machine in memory.
pub trait Program {
    /// Its name.
    fn name(&self) -> &'static str;

    /// Runs it as a section says under this configuration, with an output that has room for so many octets.
    fn run(
        &self,
        alloc: Global,
        config: &str,
        section: &Section<'_>,
        room: usize,
    ) -> Result<Left, AllocError>;
}

/// What a run left: its exit status, and each line of its streams.
pub fn put_left(left: &Left, out: &mut Vec<u8>) -> Result<(), AllocError> {
    put(out, &["status ", status_text(left.code), "\n"])?;
    put_lines("out ", left.output.held(), out)?;
    put_lines("err ", left.errors.shown()?, out)
}

/// Each line of a text after a word.
pub fn put_lines(word: &str, text: &[u8], out: &mut Vec<u8>) -> Result<(), AllocError> {
    if text.is_empty() {
        return Ok(());
    }
    for line in text
        .strip_suffix(b"\n")
        .unwrap_or(text)
        .split(|octet| *octet == b'\n')
    {
        put(out, &[word])?;
        out.extend_from_slice(line)?;
        out.push(b'\n')?;
    }
    Ok(())
}

/// Runs a section with ample room for its output, and then with less, octet by octet, and says of
/// how many octets it is. Each run with less that doesn't leave a front of them and tell that a
/// write failed has a line of its own.
pub fn put_fronts<P: Program>(
    program: &P,
    alloc: Global,
    config: &str,
    text: &str,
    out: &mut Vec<u8>,
) -> io::Result<()> {
    let section = Section::of(text);
    let ample = program.run(alloc, config, &section, AMPLE)?;
    let whole = ample.output.held();
    for room in 0..whole.len() {
        let left = program.run(alloc, config, &section, room)?;
        if !is_front(program.name(), &left, &whole[..room])? {
            put(out, &["not a front at ", Buffer::new().format(room), "\n"])?;
        }
    }
    Ok(put(
        out,
        &["fronts of ", Buffer::new().format(whole.len()), " octets\n"],
    )?)
}

/// Whether a run of the program of this name left this front and reported that a write failed.
fn is_front(program: &str, left: &Left, front: &[u8]) -> Result<bool, AllocError> {
    let line = left.errors.shown()?.strip_prefix(program.as_bytes());
    Ok(
        left.code == ExitCode::FAILURE
            && left.output.held() == front
            && line == Some(b": write failed\n".as_slice()),
    )
}
