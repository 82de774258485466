//! What an operator reads.

ghost use Rattle.std.specs.Prelude.{◌≡◌};
ghost use Rattle.std.specs.Io.KnownBytes.{Appends};

use gw_script::{OctetSink, write_whole};

/// Writes what an operator may want to know beside a fault's line. If standard error takes nothing the program
/// goes on all the same.
pub fn write_note<E: OctetSink>(text: &[u8], errors: &mut E)
    ensures said { E.NeverFails errors.old → Appends (E.held errors.old) (E.held errors.new) text.now }
    ensures lasts { E.NeverFails errors.old → E.NeverFails errors.new }
{
    let _ = write_whole(errors, text);
}
