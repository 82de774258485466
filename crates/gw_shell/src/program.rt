//! The whole program, over any words, reader and writers.

ghost use Rattle.std.specs.Prelude.{◌≡◌, ◌++◌, [], List, ℕ, Ok, Some, Result, map, option_map, string_bytes, MatchResult, OnOk};
ghost use Rattle.std.specs.Io.Buffered.{writer_buffer, writer_contents};
ghost use Rattle.std.specs.Io.KnownBytes.{Appends};
ghost use Rattle.std.specs.Process.{exit_status};
ghost use Rattle.gw_ending.specs.reading.Files.{result_map};
ghost use Rattle.gw_shell.specs.Serving.{IsEditionOf, LeavesRun, served};
ghost use Rattle.gw_shell.specs.Program.{IsChoiceOf, IsFlushed, IsFollowed, IsRun, LeavesConfigured, LeavesOfText, LeavesOutput};
ghost use Rattle.gw_service.specs.Kept.{whole_of};
ghost use Rattle.gw_service.specs.Serving.{IsFlushedFor};
ghost use Rattle.gw_service.specs.StampedRun.{timed_machine};
ghost use Rattle.gw_service.specs.declared.edition.Edition.{Edition as SpecEdition};
ghost use Rattle.gw_ending.specs.declared.fault.Fault.{Fault};

use crate::deciding::{Playing, play_in};
use crate::ending::{end_by, report_place_by, usage_of};
use crate::serving::fault_of_service;
use gw_ask_sets::assertions::{JUDGING_STEPS, judge};
use gw_command_line::{Choice, choice_of};
use gw_configuration::{Config, RunOptions};
use gw_ending::reading::{
    ConfigFiles, configuration_of, fault_note, judged_text, print, print_judged,
};
use gw_ending::{Fault, Streams};
use gw_notices::write_note;
use gw_script::{OctetSink, OctetSource};
use gw_service::{Edition, Order, ServiceFault, serve_run};
use gw_system::Host;
use std::alloc::Global;
use std::io::{BufWriter, Write};
use std::process::ExitCode;

/// What the words ask for, or the fault for which there are none.
fn choice_from(alloc: Global, words: Result<Vec<String>, Fault>) -> Result<Choice, Fault>
    ensures { MatchResult words
        (λ w. IsChoiceOf (map string_bytes w.items) result)
        (λ f. result ≡ Err f) }
{
    choice_by(alloc, words?.as_slice())
}

fn choice_by(alloc: Global, words: &[String]) -> Result<Choice, Fault>
    ensures { IsChoiceOf (map string_bytes words.now) result }
{
    match choice_of(alloc, words) {
        Ok(choice) => Ok(choice),
        Err(fault) => Err(Fault::from(fault)),
    }
}

/// Prints what a configuration has, or which of its assertions don't hold.
fn print_checked<W: Write + Drop>(
    alloc: Global,
    config: &Config,
    output: &mut BufWriter<W>,
) -> Result<(), Fault>
    ensures output { let held = writer_contents W.contents output.old in
        let holds = writer_contents W.contents output.new in
        LeavesConfigured held holds config.now result }
    ensures flush { OnOk result (writer_buffer output.new ≡ []) }
{
    let judged = judge(alloc, config, JUDGING_STEPS)?;
    let text = judged_text(alloc, config, &judged)?;
    print_judged(&text, &judged, output)
}

/// Prints what the configuration has that was read, or what is wrong with it.
fn check<W: Write + Drop>(
    alloc: Global,
    text: &Result<Vec<u8>, Fault>,
    output: &mut BufWriter<W>,
) -> Result<(), Fault>
    ensures output { let held = writer_contents W.contents output.old in
        let holds = writer_contents W.contents output.new in
        LeavesOfText (result_map (λ octets. octets.items) text.now) held holds result }
    ensures flush { OnOk result (writer_buffer output.new ≡ []) }
{
    match configuration_of(alloc, text) {
        Ok(config) => print_checked(alloc, &config, output),
        Err(fault) => {
            // Where this can't be printed the fault is reported all the same.
            let _ = print(&fault_note(alloc, true, text, fault), output);
            Err(fault)
        }
    }
}

/// How serving ended.
fn served(done: Result<(), ServiceFault>) -> Result<(), Fault>
    ensures { result ≡ served done }
{
    match done {
        Ok(()) => Ok(()),
        Err(fault) => Err(fault_of_service(fault)),
    }
}

/// The configuration of a text that was read, with the text's checksum. Faults: the fault of reading; `Configuration` with
/// the text's first fault; and `Memory`.
fn edition_of(alloc: Global, text: &Result<Vec<u8>, Fault>) -> Result<Edition, Fault>
    ensures { IsEditionOf (result_map (λ octets. octets.items) text.now) result }
{
    match text {
        Ok(text) => Ok(Edition::of(alloc, text)?),
        Err(fault) => Err(*fault),
    }
}

/// Serves the ports of the configuration of a text that was read.
fn serve<H: Host, R, W: Write + Drop, E: OctetSink>(
    alloc: Global,
    text: &Result<Vec<u8>, Fault>,
    options: &RunOptions,
    host: &mut H,
    streams: &mut Streams<R, W, E>,
) -> Result<(), Fault>
    ensures served { let was = streams.old in
        let is = streams.new in
        (said : List ℕ) × (edition : Result SpecEdition Fault)
        × IsEditionOf (result_map (λ octets. octets.items) text.now) edition
        × LeavesRun (timed_machine {C = H.Calendar}
        (whole_of (H.offers host.old) (H.Closes host.new) H.Log.held H.Sockets.calls H.StateStore.held H.Reloads.recorded))
        (writer_contents W.contents was.output) (writer_contents W.contents is.output) options.now
        edition said result
        × (E.NeverFails was.errors → Appends (E.held was.errors) (E.held is.errors) said) }
    ensures lasting { E.NeverFails streams.old.errors → E.NeverFails streams.new.errors }
    ensures flush { OnOk result (IsFlushedFor (option_map string_bytes options.now.log)
        (writer_buffer streams.old.output) (writer_buffer streams.new.output)) }
{
    match edition_of(alloc, text) {
        Ok(edition) => {
            let order = Order { edition, options };
            let done = serve_run(alloc, order, host, &mut streams.output, &mut streams.errors);
            served(done)
        }
        Err(fault) => Err(fault),
    }
}

/// Does what was chosen.
fn follow<F: ConfigFiles, H: Host, R: OctetSource, W: Write + Drop, E: OctetSink>(
    alloc: Global,
    choice: &Result<Choice, Fault>,
    files: &F,
    host: &mut H,
    streams: &mut Streams<R, W, E>,
) -> Result<(), Fault>
    ensures followed { let was = streams.old in
        let is = streams.new in
        IsFollowed
        (LeavesOutput (F.Reads files.now)
        (timed_machine {C = H.Calendar}
        (whole_of (H.offers host.old) (H.Closes host.new) H.Log.held H.Sockets.calls H.StateStore.held H.Reloads.recorded))
        (R.left was.input) (writer_contents W.contents was.output) (writer_contents W.contents is.output))
        (λ said. E.NeverFails was.errors → Appends (E.held was.errors) (E.held is.errors) said)
        choice.now result }
    ensures lasting { E.NeverFails streams.old.errors → E.NeverFails streams.new.errors }
    ensures flush { OnOk result
        (IsFlushed choice.now (writer_buffer streams.old.output) (writer_buffer streams.new.output)) }
{
    match choice {
        Ok(Choice::Check(file)) => {
            let text = files.read(alloc, file);
            check(alloc, &text, &mut streams.output)
        }
        Ok(
            Choice::Replay {
                file,
                explains,
                counts,
            },
        ) => {
            let how = Playing {
                explains: *explains,
                counts: *counts,
            };
            play_in(alloc, files, file, how, streams)
        }
        Ok(Choice::Run(options)) => {
            let text = files.read(alloc, &options.config);
            serve(alloc, &text, options, host, streams)
        }
        Ok(Choice::Help(text)) => print(text.as_bytes(), &mut streams.output),
        Ok(Choice::Usage(_)) => Err(Fault::CommandLine),
        Err(fault) => Err(*fault),
    }
}

/// Runs the program on these words, or on the fault for which there are none: the configuration that they name is read from
/// `files`, what it has is printed to standard output, or the script of standard input is replayed there, or what `host` opens is
/// served, or help is printed; what is served, or where a fault is, may be reported on standard error, a fault is one line there,
/// after words that are no command line it says how the program is called, and the exit status says of which kind the fault is.
/// The words begin with the program's name.
pub fn run<F: ConfigFiles, H: Host, R: OctetSource, W: Write + Drop, E: OctetSink>(
    alloc: Global,
    words: Result<Vec<String>, Fault>,
    files: &F,
    host: &mut H,
    streams: &mut Streams<R, W, E>,
) -> ExitCode
    ensures run { let was = streams.old in
        let is = streams.new in
        IsRun (F.Reads files.now)
        (λ choice. MatchResult words
        (λ w. IsChoiceOf (map string_bytes w.items) choice)
        (λ f. choice ≡ Err f))
        (LeavesOutput (F.Reads files.now)
        (timed_machine {C = H.Calendar}
        (whole_of (H.offers host.old) (H.Closes host.new) H.Log.held H.Sockets.calls H.StateStore.held H.Reloads.recorded))
        (R.left was.input) (writer_contents W.contents was.output) (writer_contents W.contents is.output))
        (writer_buffer was.output) (writer_buffer is.output)
        (λ line. E.NeverFails was.errors → Appends (E.held was.errors) (E.held is.errors) line)
        (exit_status result) }
{
    let choice = choice_from(alloc, words);
    let outcome = follow(alloc, &choice, files, host, streams);
    report_place_by(alloc, files, &choice, outcome, &mut streams.errors);
    let exit = end_by(&choice, outcome, &mut streams.errors);
    write_note(usage_of(&choice), &mut streams.errors);
    exit
}
