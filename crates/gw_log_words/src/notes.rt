//! What a log is given beside its lines.

ghost use Rattle.std.specs.Prelude.{◌≡◌, ℕ, Bool, false, List, Result};
ghost use Rattle.std.specs.Io.KnownBytes.{Keeps};
ghost use Rattle.gw_script.specs.declared.sink.WriteFailed.{WriteFailed};

use crate::lasting::Lasting;
use gw_script::WriteFailed;
use std::io::Write;

/// A log that may take notes between its lines, and that may go on in a new file. What it holds is seen without its notes.
pub trait Notes: Lasting {
    /// How it may be after a note of this text, by the outcome.
    ghost Takes: { Self → List ℕ → Result (Unit {0}) WriteFailed → Self → Type 0 };

    /// What it may answer if it is asked whether it began anew, and how it may be then.
    ghost BeginsAnew: { Self → Bool → Self → Type 0 };

    /// Takes a note of what of a text is before its first line feed; a log without notes stays as it is. `WriteFailed` if it
    /// couldn't be written. What is held stays, also then.
    fn take_note(&mut self, text: &[u8]) -> Result<(), WriteFailed>
        ensures takes { Takes self.old text.now result self.new }
        ensures keeps { Keeps (Self.held self.old) (Self.held self.new) };

    /// Goes on in a new file if a line begins and that of the log was moved or removed. Whether it did, since it was asked last.
    fn begins_anew(&mut self) -> bool
        ensures begins { BeginsAnew self.old result self.new }
        ensures keeps { Keeps (Self.held self.old) (Self.held self.new) };
}

impl<W: Write> Notes for W {
    ghost Takes = { λ was _ _ is. is ≡ was };

    ghost BeginsAnew = { λ was anew is. (anew ≡ false) × (is ≡ was) };

    fn take_note(&mut self, _text: &[u8]) -> Result<(), WriteFailed> {
        Ok(())
    }

    fn begins_anew(&mut self) -> bool {
        false
    }
}
