//! A text for each line of a text.

ghost use Rattle.std.specs.Prelude.{◌≡◌, ◌+◌, ◌*◌, ◌≤◌, ◌<◌, ℕ, List, [], length, Ok, Some, vec_capacity, IfOk, IsErrOf, true};
ghost use Rattle.std.specs.Io.KnownBytes.{prepend_known};
ghost use Rattle.gw_script.specs.Known.{IsShorter, OnKnown};
ghost use Rattle.gw_script.specs.Lines.{LeavesLines, OnKnownLine};
ghost use Rattle.gw_script.specs.Reader.{IsPaid};

use crate::reader::{LineReader, NextLine};
use crate::sink::{OctetSink, write_whole};
use crate::source::OctetSource;
use crate::translator::LineTranslator;
use std::alloc::{AllocError, Global};
use thiserror::Error;

/// How many octets of text there is room for at the start.
const TEXT_ROOM: usize = 256;

/// Why the writing ends before the lines do.
#[derive(Clone, Copy, Debug, Error)]
pub enum LinesFault {
    /// 1: a read failed, or there were 4,294,967,295 reads.
    #[error("read failed")]
    Read,
    /// 2: the line of this number, from 1, has more than 4096 octets, or is refused.
    #[error("line {0}")]
    Line(u64),
    /// 3: a write failed, or took nothing.
    #[error("write failed")]
    Write,
    /// 4: a growth was refused.
    #[error("out of memory")]
    Memory,
}

/// An empty text with the room that there is at the start.
fn empty_text(alloc: Global) -> Result<Vec<u8>, AllocError>
    ensures empty { IfOk result (λ text. text.items ≡ []) }
    ensures room { IfOk result (λ text. vec_capacity text ≡ 256) }
{
    Vec::with_capacity(alloc, TEXT_ROOM)
}

/// Writes the text for each line, in order, before it takes up the next line. The writer isn't flushed.
///
/// A line ends with a line feed, which the last may lack. It has at most 4096 octets without it.
pub fn translate_lines<T: LineTranslator, R: OctetSource, W: OctetSink>(
    alloc: Global,
    translator: &T,
    reader: &mut R,
    writer: &mut W,
) -> Result<(), LinesFault>
    // What is written then, where the octets of the reader and the writer are known.
    ensures translated { OnKnown (R.left reader.old) (W.held writer.old) (W.held writer.new)
        (LeavesLines (T.Translates translator.now) (T.Refuses translator.now) result) }
    // What never fails doesn't end the writing: a reader, of a text of less than 2 GiB, and a writer.
    ensures sure_reader { R.NeverFails reader.old → (text : List ℕ) →
        R.left reader.old ≡ Some text → 2 * length text + 1 < 4294967295 →
        ¬ (IsErrOf result LinesFault.Read) }
    ensures sure_writer { W.NeverFails writer.old → ¬ (IsErrOf result LinesFault.Write) }
    ensures few { R.reads reader.new ≤ R.reads reader.old + 4294967295 }
{
    let Ok(text) = empty_text(alloc) else {
        return Err(LinesFault::Memory);
    };
    let mut translating = Translating {
        lines: LineReader::new(),
        text,
    };
    translating.translate_each(translator, reader, writer)
}

/// What is kept from line to line.
#[derive(Drop)]
struct Translating {
    lines: LineReader,
    text: Vec<u8>,
}

impl Translating {
    /// Writes the text for each line, in order.
    fn translate_each<T: LineTranslator, R: OctetSource, W: OctetSink>(
        &mut self,
        translator: &T,
        reader: &mut R,
        writer: &mut W,
    ) -> Result<(), LinesFault>
        requires unread { self.old.lines.unread ≡ [] }
        requires calls { self.old.lines.calls ≡ 0 }
        ensures translated { OnKnown (R.left reader.old) (W.held writer.old) (W.held writer.new)
            (LeavesLines (T.Translates translator.now) (T.Refuses translator.now) result) }
        ensures sure_reader { R.NeverFails reader.old → (text : List ℕ) →
            R.left reader.old ≡ Some text → 2 * length text + 1 < 4294967295 →
            ¬ (IsErrOf result LinesFault.Read) }
        ensures sure_writer { W.NeverFails writer.old → ¬ (IsErrOf result LinesFault.Write) }
        ensures few { R.reads reader.new ≤ R.reads reader.old + 4294967295 }
    {
        for number in 1..u64::MAX {
            if !self.translate_next(translator, number, reader, writer)? {
                return Ok(());
            }
        }
        Err(LinesFault::Read)
    }

    /// Writes the text for the line of this number. It answers whether there was one.
    fn translate_next<T: LineTranslator, R: OctetSource, W: OctetSink>(
        &mut self,
        translator: &T,
        number: u64,
        reader: &mut R,
        writer: &mut W,
    ) -> Result<bool, LinesFault>
        ensures outcome { OnKnownLine (T.Translates translator.now) (T.Refuses translator.now) number
            (prepend_known self.old.lines.unread (R.left reader.old))
            (prepend_known self.new.lines.unread (R.left reader.new))
            (W.held writer.old) (W.held writer.new) result }
        ensures shorter { (text : List ℕ) →
            prepend_known self.old.lines.unread (R.left reader.old) ≡ Some text → result ≡ Ok true →
            IsShorter text (prepend_known self.new.lines.unread (R.left reader.new)) }
        ensures paid { IsPaid self.old.lines.calls (R.left reader.old)
            self.new.lines.calls (R.left reader.new) }
        ensures sure_reader { R.NeverFails reader.old → IsErrOf result LinesFault.Read →
            self.new.lines.calls ≡ 4294967295 }
        ensures sure_writer { W.NeverFails writer.old → ¬ (IsErrOf result LinesFault.Write) }
        ensures lasting_reader { R.NeverFails reader.old → R.NeverFails reader.new }
        ensures lasting_writer { W.NeverFails writer.old → W.NeverFails writer.new }
        ensures counted { R.reads reader.new + self.old.lines.calls ≤ R.reads reader.old + self.new.lines.calls }
        ensures most { self.old.lines.calls ≤ 4294967295 → self.new.lines.calls ≤ 4294967295 }
    {
        let (len, span) = match self.lines.find_line(reader) {
            Ok(NextLine::Line { len, span }) => (len, span),
            Ok(NextLine::Long) => return Err(LinesFault::Line(number)),
            Ok(NextLine::End) => return Ok(false),
            Err(_) => return Err(LinesFault::Read),
        };
        let alloc = *self.text.allocator();
        let Ok(is_made) = translator.translate(alloc, self.lines.front(len), &mut self.text) else {
            return Err(LinesFault::Memory);
        };
        if !is_made {
            return Err(LinesFault::Line(number));
        }
        let Ok(()) = write_whole(writer, &self.text) else {
            return Err(LinesFault::Write);
        };
        self.lines.consume(span);
        Ok(true)
    }
}
