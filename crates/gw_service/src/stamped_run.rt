//! A run whose log in a file may have stamps and notes.

ghost use Rattle.std.specs.Prelude.{◌≡◌, List, ℕ, Option, Some, OnOk, option_map, string_bytes};
ghost use Rattle.std.specs.Io.Buffered.{writer_buffer, writer_contents};
ghost use Rattle.std.specs.Io.KnownBytes.{Appends};
ghost use Rattle.gw_log_words.specs.declared.noted.Noted.{Noted};
ghost use Rattle.gw_log_words.specs.declared.stamped.Stamped.{Stamped};
ghost use Rattle.gw_system.specs.StampedHost.{log_if};
ghost use Rattle.gw_service.specs.Kept.{LeavesService, whole_of};
ghost use Rattle.gw_service.specs.Serving.{IsFlushedFor};
ghost use Rattle.gw_service.specs.StampedRun.{EndsIn, IsEndedIn, LeavesTimed, timed_machine, whole_with_stamps};

use crate::fault::ServiceFault;
use crate::order::Order;
use crate::serving::serve_ports;
use gw_log_words::{Calendar, Noted, Stamped};
use gw_script::OctetSink;
use gw_system::{Host, StampedHost, into_log};
use std::alloc::Global;
use std::io::{BufWriter, Write};

/// The last note of a log, with the version of the program.
const ENDED: &[u8] = b"bacgw 0.1.0 ended";

/// The sockets and the log that were closed on a machine with stamps, if some were.
type Closed<S, L, C> = Option<(S, Option<Noted<Stamped<L, C>>>)>;

/// Gives a log its last note. If that can't be written the log goes without.
fn note_end<L: OctetSink + Drop, C: Calendar + Drop>(noted: &mut Noted<Stamped<L, C>>)
    ensures { IsEndedIn L.held noted.old noted.new }
{
    let _ = noted.note(ENDED);
}

/// The log with its last note, if there is one.
fn ended<L: OctetSink + Drop, C: Calendar + Drop>(
    log: Option<Noted<Stamped<L, C>>>,
) -> Option<Noted<Stamped<L, C>>>
    ensures { EndsIn L.held log result }
{
    match log {
        Some(log) => {
            let mut noted = log;
            note_end(&mut noted);
            Some(noted)
        }
        None => None,
    }
}

/// Closes what was closed on a machine with stamps. The log gets its last note first.
fn close_on<H: Host>(host: &mut H, closed: Closed<H::Sockets, H::Log, H::Calendar>)
    ensures { (sockets : H.Sockets) → (log : Option (Noted (Stamped H.Log H.Calendar))) → closed ≡ Some (sockets, log) →
        (last : Option (Noted (Stamped H.Log H.Calendar))) × EndsIn H.Log.held log last
        × H.Closes host.new sockets (log_if last) }
{
    if let Some((sockets, log)) = closed {
        host.close(sockets, into_log(ended(log)));
    }
}

/// Serves the ports of a configuration with stamps and notes: each line of a log in a file begins with the time, and each log gets a
/// note when it is opened, and that of the denials another when it is closed. What a log holds without them is what it holds by
/// [`serve_ports`]. A log on standard output has neither.
/// Faults: those of [`serve_ports`].
fn serve_stamped<H: Host, W: Write + Drop, E: OctetSink>(
    alloc: Global,
    order: Order<'_>,
    host: &mut H,
    output: &mut BufWriter<W>,
    errors: &mut E,
) -> Result<(), ServiceFault>
    ensures served { (said : List ℕ)
        × LeavesService (whole_with_stamps {C = H.Calendar}
        (whole_of (H.offers host.old) (H.Closes host.new) H.Log.held H.Sockets.calls H.StateStore.held H.Reloads.recorded))
        order.entry.options.now (writer_contents W.contents output.old)
        (writer_contents W.contents output.new) order.entry.edition said result
        × (E.NeverFails errors.old → Appends (E.held errors.old) (E.held errors.new) said) }
    ensures lasting { E.NeverFails errors.old → E.NeverFails errors.new }
    ensures flush { OnOk result (IsFlushedFor (option_map string_bytes order.entry.options.now.log)
        (writer_buffer output.old) (writer_buffer output.new)) }
{
    let mut machine = StampedHost { host, closed: None };
    let outcome = serve_ports(alloc, order, &mut machine, output, errors);
    let StampedHost { closed, .. } = machine;
    close_on(host, closed);
    outcome
}

/// Serves the ports of a configuration as [`serve_ports`] does. If the options ask for stamps, each line of a log in a file begins with
/// the time, and each log gets a note when it is opened, and that of the denials another when it is closed; without both it
/// holds what it would hold then. A log on standard output has neither.
///
/// # Errors
///
/// Those of [`serve_ports`].
pub fn serve_run<H: Host, W: Write + Drop, E: OctetSink>(
    alloc: Global,
    order: Order<'_>,
    host: &mut H,
    output: &mut BufWriter<W>,
    errors: &mut E,
) -> Result<(), ServiceFault>
    ensures served { (said : List ℕ)
        × LeavesTimed (timed_machine {C = H.Calendar}
        (whole_of (H.offers host.old) (H.Closes host.new) H.Log.held H.Sockets.calls H.StateStore.held H.Reloads.recorded))
        order.entry.options.now (writer_contents W.contents output.old)
        (writer_contents W.contents output.new) order.entry.edition said result
        × (E.NeverFails errors.old → Appends (E.held errors.old) (E.held errors.new) said) }
    ensures lasting { E.NeverFails errors.old → E.NeverFails errors.new }
    ensures flush { OnOk result (IsFlushedFor (option_map string_bytes order.entry.options.now.log)
        (writer_buffer output.old) (writer_buffer output.new)) }
{
    if order.options.stamp {
        serve_stamped(alloc, order, host, output, errors)
    } else {
        serve_ports(alloc, order, host, output, errors)
    }
}
