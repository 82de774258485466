//! The gateway at work: what `run` opens, and a gateway that serves it.

ghost use Rattle.std.specs.Prelude.{◌≡◌, ◌⊎◌, [], ℕ, List, None, MatchResult, is_some, option_map, string_bytes, IfOk, OnOk};
ghost use Rattle.std.specs.Io.Buffered.{writer_buffer, writer_contents};
ghost use Rattle.std.specs.Io.KnownBytes.{Appends};
ghost use Rattle.gw_notices.specs.Startup.{startup_line};
ghost use Rattle.gw_system.specs.Offers.{OpensLog};
ghost use Rattle.gw_system.specs.declared.opening.LogFailure.TheVariants as log_failure;
ghost use Rattle.gw_service.specs.Kept.{IsWaiting, LeavesService, waiting_note, whole_of};
ghost use Rattle.std.specs.List.{list_any};
ghost use Rattle.gw_service.specs.Watch.{is_unaudited, unaudited_note};
ghost use Rattle.gw_service.specs.Serving.{IsFlushedFor, LogIsOpen, LogIsShut};

use crate::fault::ServiceFault;
use crate::kept::serve_kept;
use crate::order::Order;
use gw_configuration::{Config, RunOptions};
use gw_notices::{startup_line, write_note};
use gw_script::OctetSink;
use gw_system::{Host, LogFailure, open_at_line};
use std::alloc::Global;
use std::io::{BufWriter, Write};

/// Opens the log: the file of this name, or standard output, whose buffer is flushed.
fn open_log<H: Host, W: Write + Drop>(
    alloc: Global,
    log: &Option<String>,
    host: &H,
    output: &mut BufWriter<W>,
) -> Result<Option<H::Log>, LogFailure>
    ensures log { let name = option_map string_bytes log.now in
        let held = writer_contents W.contents output.old in
        let holds = writer_contents W.contents output.new in
        let LogOpens = OpensLog (H.offers host.now) H.Log.held in
        MatchResult result (LogIsOpen LogOpens name held holds) (LogIsShut LogOpens name held holds) }
    ensures unbuffered { IfOk result (λ opened. opened ≡ None → writer_buffer output.new ≡ []) }
    ensures buffer { OnOk result (IsFlushedFor (option_map string_bytes log.now)
        (writer_buffer output.old) (writer_buffer output.new)) }
{
    match log {
        Some(name) => Ok(Some(open_at_line(alloc, name, host)?)),
        None => match output.flush() {
            Ok(()) => Ok(None),
            Err(_) => Err(LogFailure::Failed),
        },
    }
}

/// What is reported at the start, and the log where it is a file.
#[derive(Drop)]
pub(crate) struct Opening<L> {
    /// What is reported at the start.
    pub line: Vec<u8>,
    /// The log, if it is in a file.
    pub log: Option<L>,
}

/// Makes the line that is reported at the start, and opens the log.
pub(crate) fn open<H: Host, W: Write + Drop>(
    alloc: Global,
    config: &Config,
    options: &RunOptions,
    host: &H,
    output: &mut BufWriter<W>,
) -> Result<Opening<H::Log>, LogFailure>
    ensures line { let name = option_map string_bytes options.now.log in
        IfOk result (λ opening. opening.line.items ≡ startup_line options.now.verbose config.now name) }
    ensures open { let name = option_map string_bytes options.now.log in
        let held = writer_contents W.contents output.old in
        let holds = writer_contents W.contents output.new in
        let LogOpens = OpensLog (H.offers host.now) H.Log.held in
        MatchResult result
        (λ opening. LogIsOpen LogOpens name held holds opening.log)
        (λ f. ((f ≡ log_failure.Memory) × (holds ≡ held)) ⊎ LogIsShut LogOpens name held holds f) }
    ensures unbuffered { IfOk result (λ opening. opening.log ≡ None → writer_buffer output.new ≡ []) }
    ensures buffer { OnOk result (IsFlushedFor (option_map string_bytes options.now.log)
        (writer_buffer output.old) (writer_buffer output.new)) }
{
    let line = startup_line(alloc, config, &options.log, options.verbose)?;
    match open_log(alloc, &options.log, host, output) {
        Ok(log) => Ok(Opening { line, log }),
        Err(failure) => Err(failure),
    }
}

/// Whether a rule says `audit = true`.
fn has_audit(audits: &[bool]) -> bool
    ensures { result ≡ list_any (λ audit. audit) audits.now }
{
    audits.iter().any(|audit| *audit)
}

/// Whether a rule says `audit = true`, and no audit is named.
fn is_unaudited(config: &Config, options: &RunOptions) -> bool
    ensures { result ≡ is_unaudited config.now.audits (is_some options.now.audit) }
{
    !options.audit.is_some() && has_audit(config.audits())
}

/// What is written of rules that say `audit = true` if no audit is named.
fn unaudited_note(config: &Config, options: &RunOptions) -> &'static str
    ensures { result.now ≡ unaudited_note config.now.audits (is_some options.now.audit) }
{
    if is_unaudited(config, options) {
        "bacgw: audit = true writes nothing without --audit\n"
    } else {
        ""
    }
}

/// Whether opening the log may wait for its reader.
fn is_waiting<H: Host>(log: &Option<String>, host: &H) -> bool
    ensures { IsWaiting (H.offers host.now).Waits (option_map string_bytes log.now) result }
{
    match log {
        Some(name) => host.waits(name),
        None => false,
    }
}

/// What is written of that.
fn waiting_note(waits: bool) -> &'static str
    ensures { result.now ≡ waiting_note waits }
{
    if waits {
        "bacgw: the log waits for its reader\n"
    } else {
        ""
    }
}

/// Serves the ports of a configuration as the options ask. With none of what follows this is [`serve`](gw_turns::serve), from a
/// gateway that nothing came to yet. If they ask for more it writes at the start what is
/// served and whether the machine routes IP past the gateway, or why sockets can't be opened. If they name a state it begins with
/// that, and keeps it; if they name a request it reads the configuration again when it is asked to;
/// if they name a trial or an audit, or ask for reports, what is asked is watched.
///
/// # Errors
///
/// `Log`, `Socket`, `Memory` and `CountEnd`; if a state is named, `StateUnreadable`, `State` and `Store`; and if a trial or an
/// audit is, `Trial` and `Audit`. At `Socket` nothing else was opened, and at those of a state, a trial or an audit the log wasn't.
pub fn serve_ports<H: Host, W: Write + Drop, E: OctetSink>(
    alloc: Global,
    order: Order<'_>,
    host: &mut H,
    output: &mut BufWriter<W>,
    errors: &mut E,
) -> Result<(), ServiceFault>
    ensures served { (said : List ℕ)
        × LeavesService (whole_of (H.offers host.old) (H.Closes host.new) H.Log.held H.Sockets.calls H.StateStore.held H.Reloads.recorded)
        order.entry.options.now
        (writer_contents W.contents output.old) (writer_contents W.contents output.new) order.entry.edition said result
        × (E.NeverFails errors.old → Appends (E.held errors.old) (E.held errors.new) said) }
    ensures lasting { E.NeverFails errors.old → E.NeverFails errors.new }
    ensures flush { OnOk result (IsFlushedFor (option_map string_bytes order.entry.options.now.log)
        (writer_buffer output.old) (writer_buffer output.new)) }
{
    let Order { edition, options } = order;
    write_note(unaudited_note(&edition.config, options).as_bytes(), errors);
    let waits = is_waiting(&options.log, host);
    write_note(waiting_note(waits).as_bytes(), errors);
    serve_kept(alloc, Order { edition, options }, host, output, errors)
}
