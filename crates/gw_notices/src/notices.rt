//! What an operator reads of what is kept and recorded, or isn't.

ghost use Rattle.std.specs.Prelude.{◌≡◌, None, Some};
ghost use Rattle.std.specs.Io.KnownBytes.{Appends};
ghost use Rattle.gw_notices.specs.Notices.{audit_notice, ended_notice, metrics_notice, no_status_line, notice_of, state_notice, stop_line};
ghost use Rattle.gw_notices.specs.Notices.{trial_notice, unkept_line, untaken_line};

use crate::note::write_note;
use crate::troubles::Troubles;
use gw_script::OctetSink;
use gw_wire::StoreFault;

/// The line of a state that isn't kept.
fn unkept_line(fault: StoreFault) -> &'static str
    ensures { result.now ≡ unkept_line fault }
{
    match fault {
        StoreFault::NoSpace => "bacgw: state isn't kept: no space\n",
        StoreFault::NotPermitted => "bacgw: state isn't kept: not permitted\n",
        StoreFault::ReadOnly => "bacgw: state isn't kept: read-only\n",
        StoreFault::Memory => "bacgw: state isn't kept: out of memory\n",
        StoreFault::System => "bacgw: state isn't kept: refused by the system\n",
        StoreFault::TooMany => "bacgw: state isn't kept: too many changes\n",
    }
}

/// What is reported if the state was kept, or not, and is so now: a line if that changed, and else nothing.
fn state_notice(was: Option<StoreFault>, is: Option<StoreFault>) -> &'static str
    ensures { result.now ≡ state_notice was is }
{
    match (was, is) {
        (None, Some(fault)) => unkept_line(fault),
        (Some(_), None) => "bacgw: state is kept again\n",
        _ => "",
    }
}

/// The line of metrics that aren't written.
fn unwritten_line(fault: StoreFault) -> &'static str
    ensures { result.now ≡ metrics_notice None (Some fault) }
{
    match fault {
        StoreFault::NoSpace => "bacgw: metrics aren't written: no space\n",
        StoreFault::NotPermitted => "bacgw: metrics aren't written: not permitted\n",
        StoreFault::ReadOnly => "bacgw: metrics aren't written: read-only\n",
        StoreFault::Memory => "bacgw: metrics aren't written: out of memory\n",
        StoreFault::System => "bacgw: metrics aren't written: refused by the system\n",
        StoreFault::TooMany => "bacgw: metrics aren't written: too many changes\n",
    }
}

/// What is reported if metrics were written, or not, and are so now: a line if that changed, and else nothing.
fn metrics_notice(was: Option<StoreFault>, is: Option<StoreFault>) -> &'static str
    ensures { result.now ≡ metrics_notice was is }
{
    match (was, is) {
        (None, Some(fault)) => unwritten_line(fault),
        (Some(_), None) => "bacgw: metrics are written again\n",
        _ => "",
    }
}

/// What is reported if lines of a policy on trial were lost before, and are now: a line the first time.
fn trial_notice(was: bool, is: bool) -> &'static str
    ensures { result.now ≡ trial_notice was is }
{
    if is && !was {
        "bacgw: trial: lines are lost\n"
    } else {
        ""
    }
}

/// What is reported if lines of an audit were lost before, and are now: a line the first time.
fn audit_notice(was: bool, is: bool) -> &'static str
    ensures { result.now ≡ audit_notice was is }
{
    if is && !was {
        "bacgw: audit: lines are lost\n"
    } else {
        ""
    }
}

/// What is reported if a trial had ended before, or not, and has now: a line if it ended.
fn ended_notice(was: bool, is: bool) -> &'static str
    ensures { result.now ≡ ended_notice was is }
{
    if is && !was {
        "bacgw: trial: ended: the configuration has another format\n"
    } else {
        ""
    }
}

/// The line on what has the name of a request and isn't taken.
pub fn untaken_line() -> &'static str
    ensures { result.now ≡ untaken_line }
{
    "bacgw: request isn't taken: it is none, or can't be read or taken away\n"
}

/// The answer to a request to say what is counted, if there is no memory for that.
pub fn no_status_line() -> &'static str
    ensures { result.now ≡ no_status_line }
{
    "bacgw: status: out of memory\n"
}

/// The answer to a request to stop, by why the state isn't kept, if it isn't. It takes no memory.
pub fn stop_line(failing: Option<StoreFault>) -> &'static str
    ensures { result.now ≡ stop_line failing }
{
    match failing {
        None => "stopped\n",
        Some(StoreFault::NoSpace) => "stopped: state isn't kept: no space\n",
        Some(StoreFault::NotPermitted) => "stopped: state isn't kept: not permitted\n",
        Some(StoreFault::ReadOnly) => "stopped: state isn't kept: read-only\n",
        Some(StoreFault::Memory) => "stopped: state isn't kept: out of memory\n",
        Some(StoreFault::System) => "stopped: state isn't kept: refused by the system\n",
        Some(StoreFault::TooMany) => "stopped: state isn't kept: too many changes\n",
    }
}

/// Reports what isn't kept or recorded, if that changed.
pub fn report_notices<E: OctetSink>(was: Troubles, is: Troubles, errors: &mut E)
    ensures said { E.NeverFails errors.old → Appends (E.held errors.old) (E.held errors.new) (notice_of was is) }
    ensures lasts { E.NeverFails errors.old → E.NeverFails errors.new }
{
    write_note(state_notice(was.state, is.state).as_bytes(), errors);
    write_note(trial_notice(was.trial, is.trial).as_bytes(), errors);
    write_note(audit_notice(was.audit, is.audit).as_bytes(), errors);
    write_note(ended_notice(was.ended, is.ended).as_bytes(), errors);
}

/// Reports why metrics aren't written, or that they are again, if that changed.
pub fn report_metrics<E: OctetSink>(was: Option<StoreFault>, is: Option<StoreFault>, errors: &mut E)
    ensures said { E.NeverFails errors.old → Appends (E.held errors.old) (E.held errors.new) (metrics_notice was is) }
    ensures lasts { E.NeverFails errors.old → E.NeverFails errors.new }
{
    write_note(metrics_notice(was, is).as_bytes(), errors);
}
