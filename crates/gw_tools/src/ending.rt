//! How the program ends after a choice: the line on standard error, and the exit status.

ghost use Rattle.std.specs.Prelude.{◌≡◌, [], Err, string_bytes};
ghost use Rattle.std.specs.Io.KnownBytes.{Appends};
ghost use Rattle.std.specs.Option.{option_map_or};
ghost use Rattle.std.specs.Process.{exit_status};
ghost use Rattle.gw_tools.specs.Ending.{ReportsPlaceBy, error_text_by, explains_itself, file_of, first_file};
ghost use Rattle.gw_tools.specs.Ending.{log_file, other_file, state_file};
ghost use Rattle.gw_tools.specs.Ending.{status_by, status_of_comparison, usage_of};

use gw_ending::reading::{ConfigFiles, report_place};
use gw_ending::{Fault, report_fault};
use gw_script::OctetSink;
use gw_tool_line::{Choice, Shown};
use std::alloc::Global;
use std::process::ExitCode;

/// The file that the configuration of a choice is read from, or the first of two; nothing if it names none.
fn first_file(choice: &Result<Choice, Fault>) -> &str
    ensures { result.now ≡ first_file choice.now }
{
    match choice {
        Ok(Choice::Check { file, .. }) => file.as_str(),
        Ok(Choice::CheckJson(file)) => file.as_str(),
        Ok(Choice::Migrate(file)) => file.as_str(),
        Ok(Choice::Why { file, .. }) => file.as_str(),
        Ok(Choice::Compare { old, .. }) => old.as_str(),
        Ok(Choice::CompareJson { old, .. }) => old.as_str(),
        Ok(Choice::State { config, .. }) => config.as_str(),
        Ok(Choice::Reload { config, .. }) => config.as_str(),
        Ok(Choice::Suggest { file, .. }) => file.as_str(),
        Ok(Choice::Judge { file, .. }) => file.as_str(),
        Ok(Choice::Report { file, .. }) => file.as_str(),
        Ok(Choice::Points(file)) => file.as_str(),
        Ok(Choice::Rules(file)) => file.as_str(),
        Ok(Choice::Ask { file, .. }) => file.as_str(),
        _ => "",
    }
}

/// The file of the configuration that it is compared with; nothing if there is none.
fn other_file(choice: &Result<Choice, Fault>) -> &str
    ensures { result.now ≡ other_file choice.now }
{
    match choice {
        Ok(Choice::Compare { new, .. }) => new.as_str(),
        Ok(Choice::CompareJson { new, .. }) => new.as_str(),
        Ok(
            Choice::Reload {
                was: Some(Shown { old, .. }),
                ..
            },
        ) => old.as_str(),
        _ => "",
    }
}

/// The file of the log of a choice; nothing if it names none.
fn log_file(choice: &Result<Choice, Fault>) -> &str
    ensures { result.now ≡ log_file choice.now }
{
    match choice {
        Ok(
            Choice::Log {
                file: Some(file),
                ..
            },
        ) => file.as_str(),
        Ok(Choice::Objects(Some(file))) => file.as_str(),
        Ok(Choice::Report { log, .. }) => name_if(log),
        _ => "",
    }
}

/// The name of a file, if there is one.
fn name_if(name: &Option<String>) -> &str
    ensures { result.now ≡ option_map_or string_bytes name.now [] }
{
    match name {
        Some(name) => name.as_str(),
        None => "",
    }
}

/// The file of the state of a choice; nothing if it names none.
fn state_file(choice: &Result<Choice, Fault>) -> &str
    ensures { result.now ≡ state_file choice.now }
{
    match choice {
        Ok(Choice::State { state, .. }) => state.as_str(),
        _ => "",
    }
}

/// The file that a fault is of, if it names one.
fn file_of(choice: &Result<Choice, Fault>, fault: Fault) -> &str
    ensures { result.now ≡ file_of choice.now fault }
{
    match fault {
        Fault::Unreadable(_) => first_file(choice),
        Fault::OtherUnreadable(_) => other_file(choice),
        Fault::LogUnreadable(_) => log_file(choice),
        Fault::StateUnreadable(_) => state_file(choice),
        _ => "",
    }
}

/// Whether it prints where a fault is on standard output.
fn explains_itself(choice: &Result<Choice, Fault>) -> bool
    ensures { result ≡ explains_itself choice.now }
{
    matches!(choice, Ok(Choice::Check { .. } | Choice::CheckJson(_)))
}

/// Reports where the fault is of the configuration that a choice names, or of the one that it is compared with, unless that was
/// printed.
pub fn report_place_by<F: ConfigFiles, E: OctetSink>(
    alloc: Global,
    files: &F,
    choice: &Result<Choice, Fault>,
    outcome: Result<(), Fault>,
    errors: &mut E,
)
    ensures place { ReportsPlaceBy (F.Reads files.now) choice.now outcome
        (λ place. E.NeverFails errors.old → Appends (E.held errors.old) (E.held errors.new) place) }
    ensures lasts { E.NeverFails errors.old → E.NeverFails errors.new }
{
    match outcome {
        Err(Fault::Configuration(fault)) if !explains_itself(choice) => {
            report_place(alloc, files, first_file(choice), fault, errors);
        }
        Err(Fault::OtherConfiguration(fault)) => {
            report_place(alloc, files, other_file(choice), fault, errors);
        }
        _ => {}
    }
}

/// What is reported after the line of words that are no command line, and nothing after another.
pub fn usage_of(choice: &Result<Choice, Fault>) -> &[u8]
    ensures { result.now ≡ usage_of choice.now }
{
    match choice {
        Ok(Choice::Usage(text)) => text.as_bytes(),
        _ => b"",
    }
}

/// Writes the line of a fault, if there is one, and answers the exit status after this choice: after
/// `compare` it says whether the two configurations are alike.
pub fn end_by<E: OctetSink>(
    choice: &Result<Choice, Fault>,
    outcome: Result<(), Fault>,
    errors: &mut E,
) -> ExitCode
    ensures line { E.NeverFails errors.old →
        Appends (E.held errors.old) (E.held errors.new) (error_text_by choice.now outcome) }
    ensures lasts { E.NeverFails errors.old → E.NeverFails errors.new }
    ensures status { exit_status result ≡ status_by choice.now outcome }
{
    match outcome {
        Ok(()) => ExitCode::SUCCESS,
        Err(fault) => {
            report_fault("bacgwctl", file_of(choice, fault), fault, errors);
            ExitCode::from(status_by(choice, fault))
        }
    }
}

/// The exit status of `compare`: 1 if an ask may be decided otherwise, 3 if only other parts differ, else 2.
fn status_of_comparison(fault: Fault) -> u8
    ensures { result ≡ status_of_comparison fault }
{
    match fault {
        Fault::Different => 1,
        Fault::OtherParts => 3,
        _ => 2,
    }
}

/// The exit status of a fault after this choice.
fn status_by(choice: &Result<Choice, Fault>, fault: Fault) -> u8
    ensures { result ≡ status_by choice.now (Err fault) }
{
    match choice {
        Ok(Choice::Compare { .. } | Choice::CompareJson { .. }) => status_of_comparison(fault),
        _ => fault.status(),
    }
}
