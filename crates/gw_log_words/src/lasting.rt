//! A log that can be made to last.

ghost use Rattle.std.specs.Prelude.{◌≡◌, ⊤, Ok, Result, IsOk, OnOk};
ghost use Rattle.std.specs.Io.KnownBytes.{Keeps};
ghost use Rattle.gw_script.specs.declared.sink.WriteFailed.{WriteFailed};

use gw_script::{OctetSink, WriteFailed};
use std::io::Write;

/// What octets are written to, and can be made to last: a power cut doesn't take them then. A writer of which nothing more is known
/// has nothing to do for it.
pub trait Lasting: OctetSink {
    /// Nothing was written to it since it was made to last.
    ghost IsLasting: { Self → Type 0 };

    /// How it may be after it was made to last, by the outcome.
    ghost Syncs: { Self → Result (Unit {0}) WriteFailed → Self → Type 0 };

    /// Makes what was written last, if something was since it did so. `WriteFailed` if that failed. What it holds stays, also then.
    fn sync(&mut self) -> Result<(), WriteFailed>
        ensures syncs { Syncs self.old result self.new }
        ensures lasts { OnOk result (IsLasting self.new) }
        ensures keeps { Keeps (Self.held self.old) (Self.held self.new) }
        ensures sure { Self.NeverFails self.old → IsOk result }
        ensures still { Self.NeverFails self.old → Self.NeverFails self.new };
}

impl<W: Write> Lasting for W {
    ghost IsLasting = { λ _. ⊤ };

    ghost Syncs = { λ was result is. (result ≡ Ok tt) × (is ≡ was) };

    fn sync(&mut self) -> Result<(), WriteFailed> {
        Ok(())
    }
}
