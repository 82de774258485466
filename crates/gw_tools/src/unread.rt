//! Lines that show no ask.

ghost use Rattle.std.specs.Io.KnownBytes.{Appends};
ghost use Rattle.gw_tools.specs.Unread.{unread_after, unread_text};

use gw_ending::{Fault, write_number};
use gw_script::{OctetSink, write_whole};

/// Reports how many lines show no ask, if there are any.
fn report_count<E: OctetSink>(count: u64, errors: &mut E)
    ensures said { E.NeverFails errors.old → Appends (E.held errors.old) (E.held errors.new) (unread_text count) }
    ensures lasts { E.NeverFails errors.old → E.NeverFails errors.new }
{
    if count == 0 {
        return;
    }
    if count == 1 {
        let _ = write_whole(errors, b"bacgwctl: 1 line shows no ask\n");
        return;
    }
    let _ = write_number("bacgwctl: ", count, " lines show no ask\n", errors);
}

/// Reports how many lines show no ask if there was no fault.
pub fn report_unread<E: OctetSink>(outcome: Result<(), Fault>, count: u64, errors: &mut E)
    ensures said { E.NeverFails errors.old →
        Appends (E.held errors.old) (E.held errors.new) (unread_after count outcome) }
    ensures lasts { E.NeverFails errors.old → E.NeverFails errors.new }
{
    match outcome {
        Ok(()) => report_count(count, errors),
        Err(_) => {}
    }
}
