//! A log, and the answers to its asks, as JSON objects.

ghost use Rattle.std.specs.Prelude.{◌≡◌, [], ℕ, List, false, option_map, string_bytes, OnOk};
ghost use Rattle.std.specs.Io.Buffered.{writer_buffer, writer_contents};
ghost use Rattle.std.specs.Io.KnownBytes.{Appends};
ghost use Rattle.gw_script.specs.Known.{OnKnown};
ghost use Rattle.gw_tools.specs.Asking.{ReportsUnread, asks_in};
ghost use Rattle.gw_ending.specs.reading.Files.{result_map};
ghost use Rattle.gw_tools.specs.Objects.{Judges, LeavesJudged, LeavesJudgedIn, Lists};
ghost use Rattle.gw_tools.specs.Program.{LeavesOfLog, LeavesOpened};

use crate::lines::first_lines_fault;
use crate::placed::{Placed, placed_in};
use crate::unread::report_unread;
use gw_ending::reading::ConfigFiles;
use gw_ending::{Fault, Streams};
use gw_json::{log_in_json, why_in_json};
use gw_script::{OctetSink, OctetSource};
use gw_verdicts::asks::{AskLines, Lent};
use std::alloc::Global;
use std::io::{BufWriter, Write};

/// Writes each line of the log that `reader` has left as a JSON object. What was written is flushed at every outcome.
/// Faults: those of the writing, and `Write` also if the flush alone fails.
fn list<R: OctetSource, W: Write + Drop>(
    alloc: Global,
    reader: &mut R,
    writer: &mut BufWriter<W>,
) -> Result<(), Fault>
    ensures lists { OnKnown (R.left reader.old) (writer_contents W.contents writer.old)
        (writer_contents W.contents writer.new) (λ log before. Lists log before result) }
    ensures flush { OnOk result (writer_buffer writer.new ≡ []) }
{
    let listing = log_in_json(alloc, reader, writer);
    let is_flushed = writer.flush().is_ok();
    first_lines_fault(listing, is_flushed)
}

/// Writes each line of a log that was opened as a JSON object, if it was.
fn list_opened<L: OctetSource + Drop, W: Write + Drop>(
    alloc: Global,
    opened: Result<L, Fault>,
    writer: &mut BufWriter<W>,
) -> Result<(), Fault>
    ensures output { LeavesOpened Lists (result_map L.left opened)
        (writer_contents W.contents writer.old) (writer_contents W.contents writer.new) result }
    ensures flush { OnOk result (writer_buffer writer.new ≡ []) }
{
    match opened {
        Ok(mut log) => list(alloc, &mut log, writer),
        Err(fault) => Err(fault),
    }
}

/// Writes each line of the log in the file of this name, or of that on standard input, as a JSON object. Faults: those
/// of the writing, `Write`, and `LogUnreadable` if there is no such file.
pub fn list_in<F: ConfigFiles, R: OctetSource, W: Write + Drop>(
    alloc: Global,
    files: &F,
    file: &Option<String>,
    input: &mut R,
    output: &mut BufWriter<W>,
) -> Result<(), Fault>
    ensures output { LeavesOfLog (F.ReadsLog files.now) Lists (option_map string_bytes file.now) (R.left input.old)
        (writer_contents W.contents output.old) (writer_contents W.contents output.new) result }
    ensures flush { OnOk result (writer_buffer output.new ≡ []) }
{
    match file {
        Some(file) => list_opened(alloc, files.open_log(file), output),
        None => list(alloc, input, output),
    }
}

/// Answers each ask that `reader` has left by the rules of a configuration, with their notes and places, as a JSON object.
fn judge<R: OctetSource, W: Write + Drop>(
    alloc: Global,
    placed: &Placed,
    reader: &mut R,
    writer: &mut BufWriter<W>,
) -> Result<(), Fault>
    ensures judges { OnKnown (R.left reader.old) (writer_contents W.contents writer.old)
        (writer_contents W.contents writer.new)
        (λ text before. Judges placed.now text before result) }
    ensures flush { OnOk result (writer_buffer writer.new ≡ []) }
{
    let verdicts = why_in_json(alloc, &placed.config, &placed.lines, reader, writer);
    let is_flushed = writer.flush().is_ok();
    first_lines_fault(verdicts, is_flushed)
}

/// Answers them by the rules of the configuration that was read.
fn judge_by<R: OctetSource, W: Write + Drop>(
    alloc: Global,
    placed: Result<Placed, Fault>,
    input: &mut R,
    output: &mut BufWriter<W>,
) -> Result<(), Fault>
    ensures output { LeavesJudged (R.left input.old) (writer_contents W.contents output.old)
        (writer_contents W.contents output.new) placed result }
    ensures flush { OnOk result (writer_buffer output.new ≡ []) }
{
    let placed = placed?;
    judge(alloc, &placed, input, output)
}

/// Answers them by those of the file of this name.
fn judge_strictly<F: ConfigFiles, R: OctetSource, W: Write + Drop>(
    alloc: Global,
    files: &F,
    file: &str,
    input: &mut R,
    output: &mut BufWriter<W>,
) -> Result<(), Fault>
    ensures output { LeavesJudgedIn (F.Reads files.now) file.now (R.left input.old)
        (writer_contents W.contents output.old) (writer_contents W.contents output.new) result }
    ensures flush { OnOk result (writer_buffer output.new ≡ []) }
{
    let placed = placed_in(alloc, files, file);
    judge_by(alloc, placed, input, output)
}

/// Answers the asks that standard input shows, whatever is in front of them, and reports how many lines show none.
fn judge_shown<F: ConfigFiles, R: OctetSource, W: Write + Drop, E: OctetSink>(
    alloc: Global,
    files: &F,
    file: &str,
    streams: &mut Streams<R, W, E>,
) -> Result<(), Fault>
    ensures shown { let was = streams.old in
        let is = streams.new in
        (said : List ℕ) × LeavesJudgedIn (F.Reads files.now) file.now (asks_in false (R.left was.input))
        (writer_contents W.contents was.output) (writer_contents W.contents is.output) result
        × ReportsUnread false result said
        × (E.NeverFails was.errors → Appends (E.held was.errors) (E.held is.errors) said) }
    ensures lasting { E.NeverFails streams.old.errors → E.NeverFails streams.new.errors }
    ensures flush { OnOk result (writer_buffer streams.new.output ≡ []) }
{
    let mut asks = AskLines::new(Lent::new(&mut streams.input));
    let outcome = judge_strictly(alloc, files, file, &mut asks, &mut streams.output);
    report_unread(outcome, asks.unread(), &mut streams.errors);
    outcome
}

/// Answers the asks of standard input by the rules of the configuration in the file of this name, as JSON objects.
pub fn judge_in<F: ConfigFiles, R: OctetSource, W: Write + Drop, E: OctetSink>(
    alloc: Global,
    files: &F,
    file: &str,
    strict: bool,
    streams: &mut Streams<R, W, E>,
) -> Result<(), Fault>
    ensures judged { let was = streams.old in
        let is = streams.new in
        (said : List ℕ) × LeavesJudgedIn (F.Reads files.now) file.now (asks_in strict (R.left was.input))
        (writer_contents W.contents was.output) (writer_contents W.contents is.output) result
        × ReportsUnread strict result said
        × (E.NeverFails was.errors → Appends (E.held was.errors) (E.held is.errors) said) }
    ensures lasting { E.NeverFails streams.old.errors → E.NeverFails streams.new.errors }
    ensures flush { OnOk result (writer_buffer streams.new.output ≡ []) }
{
    if strict {
        judge_strictly(alloc, files, file, &mut streams.input, &mut streams.output)
    } else {
        judge_shown(alloc, files, file, streams)
    }
}
