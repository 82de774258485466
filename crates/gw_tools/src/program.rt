//! The whole program, over any words, reader and writers.

ghost use Rattle.std.specs.Prelude.{◌≡◌, map, string_bytes, MatchResult};
ghost use Rattle.std.specs.Io.Buffered.{writer_buffer, writer_contents};
ghost use Rattle.std.specs.Io.KnownBytes.{Appends};
ghost use Rattle.std.specs.Process.{exit_status};
ghost use Rattle.gw_tools.specs.Program.{IsChoiceOf, IsRun, LeavesOutput};
ghost use Rattle.gw_tools.specs.Reloading.{answers_by};

use crate::ending::{end_by, report_place_by, usage_of};
use crate::following::follow;
use crate::machine::Machine;
use gw_ending::reading::ConfigFiles;
use gw_ending::{Fault, Streams};
use gw_notices::write_note;
use gw_script::{OctetSink, OctetSource};
use gw_tool_line::{Choice, choice_of};
use std::alloc::Global;
use std::io::Write;
use std::process::ExitCode;

/// What the words ask for, or the fault for which there are none.
fn choice_from(alloc: Global, words: Result<Vec<String>, Fault>) -> Result<Choice, Fault>
    ensures { MatchResult words
        (λ w. IsChoiceOf (map string_bytes w.items) result)
        (λ f. result ≡ Err f) }
{
    choice_by(alloc, words?.as_slice())
}

fn choice_by(alloc: Global, words: &[String]) -> Result<Choice, Fault>
    ensures { IsChoiceOf (map string_bytes words.now) result }
{
    match choice_of(alloc, words) {
        Ok(choice) => Ok(choice),
        Err(fault) => Err(Fault::from(fault)),
    }
}

/// Runs the program on these words, or on the fault for which there are none: the configuration that they name is read from
/// `files`, what is said of it is printed to standard output, or the asks of standard input are answered there, or its log or that
/// of a file is put into words, or a running gateway is asked through `machine` to read its configuration again, to stop or to say
/// what it counts, or two configurations are compared, or help is printed; how far a comparison is and how many lines show no ask
/// may be reported on standard error, a fault is one line there, after words that are no command line it says how the program is
/// called, and the exit status says of which kind the fault is. The words begin with the program's name.
pub fn run<F: ConfigFiles, M: Machine, R: OctetSource, W: Write + Drop, E: OctetSink>(
    alloc: Global,
    words: Result<Vec<String>, Fault>,
    files: &F,
    machine: &M,
    streams: &mut Streams<R, W, E>,
) -> ExitCode
    ensures run { let was = streams.old in
        let is = streams.new in
        IsRun (F.Reads files.now)
        (λ choice. MatchResult words
        (λ w. IsChoiceOf (map string_bytes w.items) choice)
        (λ f. choice ≡ Err f))
        (LeavesOutput (F.Reads files.now) (F.ReadsState files.now) (F.ReadsLog files.now) (answers_by (M.Asks machine.now) M.Answers)
        (R.left was.input)
        (writer_contents W.contents was.output) (writer_contents W.contents is.output))
        (writer_buffer is.output)
        (λ line. E.NeverFails was.errors → Appends (E.held was.errors) (E.held is.errors) line)
        (exit_status result) }
{
    let choice = choice_from(alloc, words);
    let outcome = follow(alloc, &choice, files, machine, streams);
    report_place_by(alloc, files, &choice, outcome, &mut streams.errors);
    let exit = end_by(&choice, outcome, &mut streams.errors);
    write_note(usage_of(&choice), &mut streams.errors);
    exit
}
