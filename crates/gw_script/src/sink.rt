//! What the text of a run is written to.

ghost use Rattle.std.specs.Prelude.{◌≡◌, ◌≤◌, ◌<◌, ◌++◌, ℕ, List, Option, codes, decimal, length, IfOk, IsOk, OnOk, OnErr};
ghost use Rattle.std.specs.Io.KnownBytes.{Appends, WriteAppends};

use itoa::Buffer;
use std::io::Write;

/// A write failed, or took nothing.
#[derive(Drop)]
pub struct WriteFailed;

/// What octets are written to. Each writer is one, and a contract knows nothing of its failures. What never fails can say so by an
/// implementation of its own.
pub trait OctetSink {
    /// The octets that it holds, where they are known.
    ghost held: { Self → Option (List ℕ) };

    /// No write to it fails, now or later.
    ghost NeverFails: { Self → Type 0 };

    /// Writes some octets of the text's front, and answers how many: one at least, where the text
    /// has any. `WriteFailed` where the write failed, or took nothing of a text that has some.
    fn write_octets(&mut self, text: &[u8]) -> Result<usize, WriteFailed>
        ensures bound { IfOk result (λ n. n ≤ length text.now) }
        ensures some { IfOk result (λ n. 0 < length text.now → 0 < n) }
        ensures octets { WriteAppends (held self.old) (held self.new) result text.now }
        ensures sure { NeverFails self.old → IsOk result }
        ensures lasts { NeverFails self.old → NeverFails self.new };
}

impl<W: Write> OctetSink for W {
    ghost held = { λ writer. W.contents writer };

    ghost NeverFails = { λ _. ⊥ };

    fn write_octets(&mut self, text: &[u8]) -> Result<usize, WriteFailed> {
        match self.write(text) {
            Ok(0) if !text.is_empty() => Err(WriteFailed),
            Ok(count) => Ok(count),
            Err(_) => Err(WriteFailed),
        }
    }
}

/// Writes a text whole. `WriteFailed` only after a failed write; then a front of the text is written.
#[inline(always)]
pub fn write_whole<S: OctetSink>(sink: &mut S, text: &[u8]) -> Result<(), WriteFailed>
    ensures ok { OnOk result (Appends (S.held sink.old) (S.held sink.new) text.now) }
    ensures front { OnErr result ((front : List ℕ) × (rest : List ℕ)
        × (text.now ≡ front ++ rest) × Appends (S.held sink.old) (S.held sink.new) front) }
    ensures sure { S.NeverFails sink.old → IsOk result }
    ensures lasts { S.NeverFails sink.old → S.NeverFails sink.new }
{
    let mut rest = text;
    while !rest.is_empty() {
        let count = sink.write_octets(rest)?;
        rest = &rest[count..];
    }
    Ok(())
}

/// Writes a text and the decimal digits of a count. `WriteFailed` only after a failed write.
pub fn write_count<S: OctetSink>(sink: &mut S, text: &str, count: u128) -> Result<(), WriteFailed>
    ensures ok { OnOk result (Appends (S.held sink.old) (S.held sink.new) (text.now ++ decimal count)) }
    ensures sure { S.NeverFails sink.old → IsOk result }
    ensures lasts { S.NeverFails sink.old → S.NeverFails sink.new }
{
    write_whole(sink, text.as_bytes())?;
    write_whole(sink, Buffer::new().format(count).as_bytes())
}

/// Writes a line that ends with a count: a text, its decimal digits and a line feed. `WriteFailed` only after a failed write.
pub fn write_count_line<S: OctetSink>(
    sink: &mut S,
    text: &str,
    count: u128,
) -> Result<(), WriteFailed>
    ensures ok { OnOk result (Appends (S.held sink.old) (S.held sink.new) (text.now ++ decimal count ++ codes "\n")) }
    ensures sure { S.NeverFails sink.old → IsOk result }
    ensures lasts { S.NeverFails sink.old → S.NeverFails sink.new }
{
    write_count(sink, text, count)?;
    write_whole(sink, b"\n")
}
