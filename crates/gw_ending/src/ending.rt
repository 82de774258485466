//! How the program ends: the line on standard error, and the exit status.

ghost use Rattle.std.specs.Prelude.{◌≡◌, ◌++◌, ◌∷◌, [], codes, decimal, IsOk, OnOk};
ghost use Rattle.std.specs.Io.KnownBytes.{Appends};
ghost use Rattle.std.specs.Process.{exit_status};
ghost use Rattle.gw_ending.specs.declared.fault.Fault.TheVariants as fault;
ghost use Rattle.gw_configuration.specs.Shown.{shown};
ghost use Rattle.gw_notices.specs.Reload.{name_of};
ghost use Rattle.gw_ending.specs.Ending.{cause_of, error_text, failed_line, line_by, line_of, named, reason_of, rest_naming, rest_of};
ghost use Rattle.gw_ending.specs.Ending.{status_after, store_words, text_of, trial_rest, unread_line, words_of};
ghost use Rattle.gw_system.specs.Obstacle.{obstacle_words};

use crate::fault::{
    Fault, MigrationFlaw, cause_of, reason_of, store_words, trial_reason, trial_words, words_of,
};
use gw_configuration::{ConfigFault, shown};
use gw_notices::name_of;
use gw_script::{LineFlaw, OctetSink, WriteFailed, write_whole};
use gw_state_text::StateFault;
use gw_system::{Obstacle, obstacle_words};
use gw_watchers::files::TrialFault;
use gw_wire::StoreFault;
use itoa::Buffer;
use std::process::ExitCode;

/// Writes a text, this number, and another text.
pub fn write_number<E: OctetSink>(
    text: &str,
    number: u64,
    behind: &str,
    errors: &mut E,
) -> Result<(), WriteFailed>
    ensures ok { OnOk result (Appends (E.held errors.old) (E.held errors.new)
        (text.now ++ (decimal number ++ behind.now))) }
    ensures sure { E.NeverFails errors.old → IsOk result }
    ensures lasts { E.NeverFails errors.old → E.NeverFails errors.new }
{
    write_whole(errors, text.as_bytes())?;
    write_whole(errors, Buffer::new().format(number).as_bytes())?;
    write_whole(errors, behind.as_bytes())
}

/// Writes `configuration: ` and the name of this fault, and a line feed.
fn write_configuration_fault<E: OctetSink>(
    fault: ConfigFault,
    errors: &mut E,
) -> Result<(), WriteFailed>
    ensures ok { let line = codes "configuration: " ++ name_of fault ++ 10 ∷ [] in
        OnOk result (Appends (E.held errors.old) (E.held errors.new) line) }
    ensures sure { E.NeverFails errors.old → IsOk result }
    ensures lasts { E.NeverFails errors.old → E.NeverFails errors.new }
{
    write_whole(errors, b"configuration: ")?;
    write_whole(errors, name_of(fault).as_bytes())?;
    write_whole(errors, b"\n")
}

/// Writes `migration: ` and why a configuration isn't written in format 3, and a line feed.
fn write_migration_fault<E: OctetSink>(
    fault: MigrationFlaw,
    errors: &mut E,
) -> Result<(), WriteFailed>
    ensures ok { let line = codes "migration: " ++ reason_of fault ++ 10 ∷ [] in
        OnOk result (Appends (E.held errors.old) (E.held errors.new) line) }
    ensures sure { E.NeverFails errors.old → IsOk result }
    ensures lasts { E.NeverFails errors.old → E.NeverFails errors.new }
{
    write_whole(errors, b"migration: ")?;
    write_whole(errors, reason_of(fault).as_bytes())?;
    write_whole(errors, b"\n")
}

/// Writes the number of a line, and what is wrong with it.
fn write_flaw<E: OctetSink>(number: u64, flaw: LineFlaw, errors: &mut E) -> Result<(), WriteFailed>
    ensures ok { OnOk result (Appends (E.held errors.old) (E.held errors.new)
        (text_of (fault.FlawedLine number flaw) ++ 10 ∷ [])) }
    ensures sure { E.NeverFails errors.old → IsOk result }
    ensures lasts { E.NeverFails errors.old → E.NeverFails errors.new }
{
    write_number("line ", number, ": ", errors)?;
    write_whole(errors, words_of(flaw).as_bytes())?;
    write_whole(errors, b"\n")
}

/// Writes the number of a line of a state's text, and what is wrong with it.
fn write_state_fault<E: OctetSink>(flaw: StateFault, errors: &mut E) -> Result<(), WriteFailed>
    ensures ok { OnOk result (Appends (E.held errors.old) (E.held errors.new)
        (text_of (fault.State flaw) ++ 10 ∷ [])) }
    ensures sure { E.NeverFails errors.old → IsOk result }
    ensures lasts { E.NeverFails errors.old → E.NeverFails errors.new }
{
    write_number("state: line ", flaw.line, ": ", errors)?;
    write_whole(errors, cause_of(flaw.kind).as_bytes())?;
    write_whole(errors, b"\n")
}

/// Writes a text, why a file isn't written, and a line feed.
fn write_store_fault<E: OctetSink>(
    text: &str,
    why: StoreFault,
    errors: &mut E,
) -> Result<(), WriteFailed>
    ensures ok { OnOk result (Appends (E.held errors.old) (E.held errors.new)
        (text.now ++ (store_words why ++ 10 ∷ []))) }
    ensures sure { E.NeverFails errors.old → IsOk result }
    ensures lasts { E.NeverFails errors.old → E.NeverFails errors.new }
{
    write_whole(errors, text.as_bytes())?;
    write_whole(errors, store_words(why).as_bytes())?;
    write_whole(errors, b"\n")
}

/// Writes why a policy isn't on trial.
fn write_trial_fault<E: OctetSink>(why: TrialFault, errors: &mut E) -> Result<(), WriteFailed>
    ensures ok { OnOk result (Appends (E.held errors.old) (E.held errors.new)
        (text_of (fault.Trial why) ++ 10 ∷ [])) }
    ensures sure { E.NeverFails errors.old → IsOk result }
    ensures lasts { E.NeverFails errors.old → E.NeverFails errors.new }
{
    write_whole(errors, b"trial: ")?;
    write_whole(errors, trial_words(why).as_bytes())?;
    write_whole(errors, trial_reason(why).as_bytes())?;
    write_whole(errors, b"\n")
}

/// Writes a text, why a file can't be read, and a line feed.
fn write_obstacle<E: OctetSink>(
    text: &str,
    why: Obstacle,
    errors: &mut E,
) -> Result<(), WriteFailed>
    ensures ok { OnOk result (Appends (E.held errors.old) (E.held errors.new)
        (text.now ++ (obstacle_words why ++ 10 ∷ []))) }
    ensures sure { E.NeverFails errors.old → IsOk result }
    ensures lasts { E.NeverFails errors.old → E.NeverFails errors.new }
{
    write_whole(errors, text.as_bytes())?;
    write_whole(errors, obstacle_words(why).as_bytes())?;
    write_whole(errors, b"\n")
}

/// Writes the line of a fault that has one, after the program's name.
fn write_fault<E: OctetSink>(fault: Fault, errors: &mut E) -> Result<(), WriteFailed>
    ensures ok { OnOk result (Appends (E.held errors.old) (E.held errors.new) (rest_of fault)) }
    ensures sure { E.NeverFails errors.old → IsOk result }
    ensures lasts { E.NeverFails errors.old → E.NeverFails errors.new }
{
    match fault {
        Fault::CommandLine => write_whole(errors, b"bad command line\n"),
        Fault::Unreadable(why) | Fault::OtherUnreadable(why) => {
            write_obstacle("cannot read configuration: ", why, errors)
        }
        Fault::LogUnreadable(why) => write_obstacle("cannot read log: ", why, errors),
        Fault::Configuration(fault) | Fault::OtherConfiguration(fault) => {
            write_configuration_fault(fault, errors)
        }
        Fault::Migration(fault) => write_migration_fault(fault, errors),
        Fault::Line(number) => write_number("line ", number, "\n", errors),
        Fault::FlawedLine(number, flaw) => write_flaw(number, flaw, errors),
        Fault::Read => write_whole(errors, b"read failed\n"),
        Fault::Write => write_whole(errors, b"write failed\n"),
        Fault::Log => write_whole(errors, b"log failed\n"),
        Fault::Socket(port) => {
            write_number("socket failed on port ", u64::from(port), "\n", errors)
        }
        Fault::Memory => write_whole(errors, b"out of memory\n"),
        Fault::CountEnd => write_whole(errors, b"count at its end\n"),
        Fault::StateUnreadable(why) => write_obstacle("cannot read state: ", why, errors),
        Fault::State(fault) => write_state_fault(fault, errors),
        Fault::Store(why) => write_store_fault("state isn't kept: ", why, errors),
        Fault::Trial(why) => write_trial_fault(why, errors),
        Fault::Audit => write_whole(errors, b"audit failed\n"),
        Fault::Metrics(why) => write_store_fault("metrics failed: ", why, errors),
        Fault::Request(why) => write_store_fault("request failed: ", why, errors),
        Fault::NoAnswer => write_whole(errors, b"no answer\n"),
        Fault::TooManyAsks => write_whole(errors, b"suggestion: too many asks\n"),
        Fault::TooManyRules => write_whole(errors, b"suggestion: too many rules\n"),
        Fault::Unwritable => { write_whole(errors, b"suggestion: the rules can't be written\n") }
        Fault::Unlisted => write_whole(errors, b"the rules can't be written\n"),
        Fault::Refused | Fault::Broken | Fault::Different | Fault::OtherParts | Fault::NotAllowed =>
            write_whole(errors, b"\n"),
    }
}

/// Writes the name of a file as a line shows it.
fn write_name<E: OctetSink>(name: &[u8], errors: &mut E) -> Result<(), WriteFailed>
    ensures ok { OnOk result (Appends (E.held errors.old) (E.held errors.new) (shown name.now)) }
    ensures sure { E.NeverFails errors.old → IsOk result }
    ensures lasts { E.NeverFails errors.old → E.NeverFails errors.new }
{
    for octet in shown(name) {
        write_whole(errors, &[octet])?;
    }
    Ok(())
}

/// Writes the line of a file that can't be read: a text, the file's name, and why.
fn write_unread<E: OctetSink>(
    text: &str,
    name: &str,
    why: Obstacle,
    errors: &mut E,
) -> Result<(), WriteFailed>
    ensures ok { OnOk result (Appends (E.held errors.old) (E.held errors.new) (unread_line text.now name.now why)) }
    ensures sure { E.NeverFails errors.old → IsOk result }
    ensures lasts { E.NeverFails errors.old → E.NeverFails errors.new }
{
    write_whole(errors, text.as_bytes())?;
    write_name(name.as_bytes(), errors)?;
    write_obstacle(": ", why, errors)
}

/// Writes the name of a file after a colon and a space, if it has one.
fn write_named<E: OctetSink>(file: &str, errors: &mut E) -> Result<(), WriteFailed>
    ensures ok { OnOk result (Appends (E.held errors.old) (E.held errors.new) (named file.now)) }
    ensures sure { E.NeverFails errors.old → IsOk result }
    ensures lasts { E.NeverFails errors.old → E.NeverFails errors.new }
{
    if file.is_empty() {
        return Ok(());
    }
    write_whole(errors, b": ")?;
    write_name(file.as_bytes(), errors)
}

/// Writes the line of a file that can't be written: a text, why, and the file's name, if it has one.
fn write_failed<E: OctetSink>(
    text: &str,
    why: &str,
    file: &str,
    errors: &mut E,
) -> Result<(), WriteFailed>
    ensures ok { OnOk result (Appends (E.held errors.old) (E.held errors.new) (failed_line file.now text.now why.now)) }
    ensures sure { E.NeverFails errors.old → IsOk result }
    ensures lasts { E.NeverFails errors.old → E.NeverFails errors.new }
{
    write_whole(errors, text.as_bytes())?;
    write_whole(errors, why.as_bytes())?;
    write_named(file, errors)?;
    write_whole(errors, b"\n")
}

/// Writes why a policy isn't on trial. It names this file if that can't be read, or if it is the log that can't be opened.
fn write_trial_fault_naming<E: OctetSink>(
    file: &str,
    fault: TrialFault,
    errors: &mut E,
) -> Result<(), WriteFailed>
    ensures ok { OnOk result (Appends (E.held errors.old) (E.held errors.new) (trial_rest file.now fault)) }
    ensures sure { E.NeverFails errors.old → IsOk result }
    ensures lasts { E.NeverFails errors.old → E.NeverFails errors.new }
{
    match fault {
        TrialFault::Unreadable(why) => {
            write_unread("trial: cannot read configuration ", file, why, errors)
        }
        TrialFault::Log => write_failed("trial: ", "log failed", file, errors),
        _ => write_trial_fault(fault, errors),
    }
}

/// Writes the line of a fault that has one, after the program's name. It names this file if that can't be read or written.
fn write_fault_naming<E: OctetSink>(
    file: &str,
    fault: Fault,
    errors: &mut E,
) -> Result<(), WriteFailed>
    ensures ok { OnOk result (Appends (E.held errors.old) (E.held errors.new) (rest_naming file.now fault)) }
    ensures sure { E.NeverFails errors.old → IsOk result }
    ensures lasts { E.NeverFails errors.old → E.NeverFails errors.new }
{
    match fault {
        Fault::Unreadable(why) => write_unread("cannot read configuration ", file, why, errors),
        Fault::OtherUnreadable(why) => {
            write_unread("cannot read configuration ", file, why, errors)
        }
        Fault::LogUnreadable(why) => write_unread("cannot read log ", file, why, errors),
        Fault::StateUnreadable(why) => write_unread("cannot read state ", file, why, errors),
        Fault::Trial(why) => write_trial_fault_naming(file, why, errors),
        Fault::Log => write_failed("log failed", "", file, errors),
        Fault::Audit => write_failed("audit failed", "", file, errors),
        Fault::Store(why) => write_failed("state isn't kept: ", store_words(why), file, errors),
        Fault::Metrics(why) => write_failed("metrics failed: ", store_words(why), file, errors),
        _ => write_fault(fault, errors),
    }
}

/// Writes the program's name, and a colon and a space.
fn write_program<E: OctetSink>(program: &str, errors: &mut E) -> Result<(), WriteFailed>
    ensures ok { OnOk result (Appends (E.held errors.old) (E.held errors.new) (program.now ++ codes ": ")) }
    ensures sure { E.NeverFails errors.old → IsOk result }
    ensures lasts { E.NeverFails errors.old → E.NeverFails errors.new }
{
    write_whole(errors, program.as_bytes())?;
    write_whole(errors, b": ")
}

/// Writes the line of a fault, if it has one.
fn write_line<E: OctetSink>(program: &str, fault: Fault, errors: &mut E) -> Result<(), WriteFailed>
    ensures ok { OnOk result (Appends (E.held errors.old) (E.held errors.new) (line_of program.now fault)) }
    ensures sure { E.NeverFails errors.old → IsOk result }
    ensures lasts { E.NeverFails errors.old → E.NeverFails errors.new }
{
    if !fault.has_line() {
        return Ok(());
    }
    write_program(program, errors)?;
    write_fault(fault, errors)
}

/// Writes the line of a fault, if it has one. It names this file if that can't be read or written.
fn write_line_naming<E: OctetSink>(
    program: &str,
    file: &str,
    fault: Fault,
    errors: &mut E,
) -> Result<(), WriteFailed>
    ensures ok { OnOk result (Appends (E.held errors.old) (E.held errors.new) (line_by program.now file.now fault)) }
    ensures sure { E.NeverFails errors.old → IsOk result }
    ensures lasts { E.NeverFails errors.old → E.NeverFails errors.new }
{
    if !fault.has_line() {
        return Ok(());
    }
    write_program(program, errors)?;
    write_fault_naming(file, fault, errors)
}

/// Reports a fault of the program of this name in one line, if it has one. It names this file if that can't be read or written.
pub fn report_fault<E: OctetSink>(program: &str, file: &str, fault: Fault, errors: &mut E)
    ensures line { E.NeverFails errors.old →
        Appends (E.held errors.old) (E.held errors.new) (line_by program.now file.now fault) }
    ensures lasts { E.NeverFails errors.old → E.NeverFails errors.new }
{
    // Where standard error takes nothing the exit status alone says that there was a fault.
    let _ = write_line_naming(program, file, fault, errors);
}

/// Writes the line of a fault of the program of this name, and nothing where there is none. It answers the exit status:
/// 0 where there is no fault, and else the fault's.
pub fn end<E: OctetSink>(program: &str, outcome: Result<(), Fault>, errors: &mut E) -> ExitCode
    ensures line { E.NeverFails errors.old → Appends (E.held errors.old) (E.held errors.new) (error_text program.now outcome) }
    ensures lasts { E.NeverFails errors.old → E.NeverFails errors.new }
    ensures status { exit_status result ≡ status_after outcome }
{
    match outcome {
        Ok(()) => ExitCode::SUCCESS,
        Err(fault) => {
            // Where standard error takes nothing the exit status alone says that there was a fault.
            let _ = write_line(program, fault, errors);
            ExitCode::from(fault.status())
        }
    }
}
