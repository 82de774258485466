//! What the text of a script is read from.

ghost use Rattle.std.specs.Prelude.{◌+◌, ◌≤◌, ℕ, List, Option, length, IfOk, IsOk};
ghost use Rattle.std.specs.Io.KnownBytes.{ReadConsumes};

use std::io::Read;

/// A read failed.
#[derive(Drop)]
pub struct ReadFailed;

/// What octets are read from. Each reader is one, and a contract knows nothing of its failures. What never fails can say so by an
/// implementation of its own.
pub trait OctetSource {
    /// The octets that it has left, where they are known.
    ghost left: { Self → Option (List ℕ) };

    /// No read of it fails, now or later.
    ghost NeverFails: { Self → Type 0 };

    /// How many reads it counted, each by one at most. A source that counts none has 0.
    ghost reads: { Self → ℕ };

    /// Reads some octets to the buffer's front, and answers how many. None: it has none left, or
    /// the buffer has no room. `ReadFailed` where the read failed.
    fn read_octets(&mut self, buffer: &mut [u8]) -> Result<usize, ReadFailed>
        ensures bound { IfOk result (λ n. n ≤ length buffer.new) }
        ensures octets { ReadConsumes (left self.old) (left self.new) result buffer.new }
        ensures sure { NeverFails self.old → IsOk result }
        ensures lasts { NeverFails self.old → NeverFails self.new }
        ensures few { reads self.new ≤ reads self.old + 1 };
}

impl<R: Read> OctetSource for R {
    ghost left = { λ reader. R.remaining reader };

    ghost NeverFails = { λ _. ⊥ };

    ghost reads = { λ _. 0 };

    fn read_octets(&mut self, buffer: &mut [u8]) -> Result<usize, ReadFailed> {
        match self.read(buffer) {
            Ok(count) => Ok(count),
            Err(_) => Err(ReadFailed),
        }
    }
}
