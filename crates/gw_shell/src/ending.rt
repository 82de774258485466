//! How the program ends after a choice: the line on standard error, and the exit status.

ghost use Rattle.std.specs.Prelude.{◌≡◌, [], string_bytes};
ghost use Rattle.std.specs.Io.KnownBytes.{Appends};
ghost use Rattle.std.specs.Option.{option_map_or};
ghost use Rattle.std.specs.Process.{exit_status};
ghost use Rattle.gw_ending.specs.Ending.{status_after};
ghost use Rattle.gw_shell.specs.Ending.{ReportsPlaceBy, error_text_by, explains_itself, file_of, file_of_run, first_file, trial_file};
ghost use Rattle.gw_shell.specs.Ending.{usage_of};

use gw_command_line::Choice;
use gw_configuration::RunOptions;
use gw_ending::reading::{ConfigFiles, report_place};
use gw_ending::{Fault, report_fault};
use gw_script::OctetSink;
use gw_watchers::files::TrialFault;
use std::alloc::Global;
use std::process::ExitCode;

/// The file that the configuration of a choice is read from; nothing if it names none.
fn first_file(choice: &Result<Choice, Fault>) -> &str
    ensures { result.now ≡ first_file choice.now }
{
    match choice {
        Ok(Choice::Check(file)) => file.as_str(),
        Ok(
            Choice::Replay {
                file: Some(file),
                ..
            },
        ) => file.as_str(),
        Ok(Choice::Run(options)) => options.config.as_str(),
        _ => "",
    }
}

/// The name of a file, if there is one.
fn name_if(name: &Option<String>) -> &str
    ensures { result.now ≡ option_map_or string_bytes name.now [] }
{
    match name {
        Some(name) => name.as_str(),
        None => "",
    }
}

/// The file of the policy that is to be on trial; nothing if there is none.
fn trial_file(choice: &Result<Choice, Fault>) -> &str
    ensures { result.now ≡ trial_file choice.now }
{
    match choice {
        Ok(Choice::Run(options)) => name_if(&options.trial),
        _ => "",
    }
}

/// The file that a fault of `run` is of; nothing if it has none.
fn file_of_run(options: &RunOptions, fault: Fault) -> &str
    ensures { result.now ≡ file_of_run options.now fault }
{
    match fault {
        Fault::StateUnreadable(_) | Fault::Store(_) => name_if(&options.state),
        Fault::Trial(TrialFault::Log) => name_if(&options.trial_log),
        Fault::Trial(_) => name_if(&options.trial),
        Fault::Log => name_if(&options.log),
        Fault::Audit => name_if(&options.audit),
        Fault::Metrics(_) => name_if(&options.metrics),
        _ => "",
    }
}

/// The file that a fault is of, if it names one.
fn file_of(choice: &Result<Choice, Fault>, fault: Fault) -> &str
    ensures { result.now ≡ file_of choice.now fault }
{
    match (choice, fault) {
        (_, Fault::Unreadable(_)) => first_file(choice),
        (Ok(Choice::Run(options)), _) => file_of_run(options, fault),
        _ => "",
    }
}

/// Whether it prints where a fault is on standard output.
fn explains_itself(choice: &Result<Choice, Fault>) -> bool
    ensures { result ≡ explains_itself choice.now }
{
    matches!(choice, Ok(Choice::Check(_)))
}

/// Reports where the fault is of the configuration that a choice names, or of the one on trial, unless that was printed.
pub fn report_place_by<F: ConfigFiles, E: OctetSink>(
    alloc: Global,
    files: &F,
    choice: &Result<Choice, Fault>,
    outcome: Result<(), Fault>,
    errors: &mut E,
)
    ensures place { ReportsPlaceBy (F.Reads files.now) choice.now outcome
        (λ place. E.NeverFails errors.old → Appends (E.held errors.old) (E.held errors.new) place) }
    ensures lasts { E.NeverFails errors.old → E.NeverFails errors.new }
{
    match outcome {
        Err(Fault::Configuration(fault)) if !explains_itself(choice) => {
            report_place(alloc, files, first_file(choice), fault, errors);
        }
        Err(Fault::Trial(TrialFault::Configuration(fault))) => {
            report_place(alloc, files, trial_file(choice), fault, errors);
        }
        _ => {}
    }
}

/// What is reported after the line of words that are no command line, and nothing after another.
pub fn usage_of(choice: &Result<Choice, Fault>) -> &[u8]
    ensures { result.now ≡ usage_of choice.now }
{
    match choice {
        Ok(Choice::Usage(text)) => text.as_bytes(),
        _ => b"",
    }
}

/// Writes the line of a fault after this choice, if there is one, and answers the exit status.
pub fn end_by<E: OctetSink>(
    choice: &Result<Choice, Fault>,
    outcome: Result<(), Fault>,
    errors: &mut E,
) -> ExitCode
    ensures line { E.NeverFails errors.old →
        Appends (E.held errors.old) (E.held errors.new) (error_text_by choice.now outcome) }
    ensures lasts { E.NeverFails errors.old → E.NeverFails errors.new }
    ensures status { exit_status result ≡ status_after outcome }
{
    match outcome {
        Ok(()) => ExitCode::SUCCESS,
        Err(fault) => {
            report_fault("bacgw", file_of(choice, fault), fault, errors);
            ExitCode::from(fault.status())
        }
    }
}
