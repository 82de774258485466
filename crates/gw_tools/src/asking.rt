//! Asks of a log, answered by the rules of a configuration.

ghost use Rattle.std.specs.Prelude.{◌≡◌, ◌+◌, [], ℕ, List, Some, false, length, IfOk, OnOk};
ghost use Rattle.std.specs.Io.Buffered.{writer_buffer, writer_contents};
ghost use Rattle.std.specs.Io.KnownBytes.{Appends};
ghost use Rattle.gw_script.specs.Known.{OnKnown};
ghost use Rattle.gw_tools.specs.Asking.{Answers, Counts, ReportsUnread, asks_in};
ghost use Rattle.gw_tools.specs.Program.{LeavesAnswered, LeavesAnsweredIn};
ghost use Rattle.gw_tools.specs.Saying.{SaysMade};
ghost use Rattle.gw_verdicts.specs.Why.{said_text};
ghost use Rattle.gw_decisions.specs.tally.Tally.{tally_text};

use crate::lines::first_lines_fault;
use crate::placed::{Placed, placed_in};
use crate::unread::report_unread;
use gw_decisions::tally::{Tally, count_asks, put_tally};
use gw_ending::reading::{ConfigFiles, Said, print_said};
use gw_ending::{Fault, Streams};
use gw_rules::RuleList;
use gw_script::{OctetSink, OctetSource};
use gw_verdicts::asks::{AskLines, Lent};
use std::alloc::{AllocError, Global};
use std::io::{BufWriter, Write};

/// Answers each ask that `reader` has left by the rules of a configuration, with the places of their tables and their notes. What was
/// written is flushed at every outcome. Faults: those of the answers, and `Write` also where the flush alone fails.
fn why<R: OctetSource, W: Write + Drop>(
    alloc: Global,
    placed: &Placed,
    reader: &mut R,
    writer: &mut BufWriter<W>,
) -> Result<(), Fault>
    ensures answers { OnKnown (R.left reader.old) (writer_contents W.contents writer.old)
        (writer_contents W.contents writer.new)
        (λ text before. Answers placed.now.config.rules (said_text placed.now.config placed.now.lines.items) text before result) }
    ensures flushed { OnOk result (writer_buffer writer.new ≡ []) }
{
    let answers = gw_verdicts::why(alloc, &placed.config, &placed.lines, reader, writer);
    let is_flushed = writer.flush().is_ok();
    first_lines_fault(answers, is_flushed)
}

/// What `why --count` says of the asks that `reader` has left: how many of them each of these rules decides, in lines. Faults: `Line`
/// with the first that says no ask, `Read`, and `Memory`.
fn count<R: OctetSource>(alloc: Global, rules: &RuleList, reader: &mut R) -> Result<Said, Fault>
    ensures { (text : List ℕ) → R.left reader.old ≡ Some text → SaysMade (Counts rules.now text) result }
{
    match count_asks(alloc, rules, reader) {
        Ok(tally) => Ok(Said::well(tally_lines(alloc, rules, &tally)?)),
        Err(fault) => Err(Fault::from(fault)),
    }
}

fn tally_lines(alloc: Global, rules: &RuleList, tally: &Tally) -> Result<Vec<u8>, AllocError>
    requires { length tally.now ≡ length rules.now + 1 }
    ensures { IfOk result (λ text. text.items ≡ tally_text rules.now tally.now) }
{
    let mut text = Vec::new(alloc);
    put_tally(rules, tally, &mut text)?;
    Ok(text)
}

/// Answers each ask of standard input by the rules of a configuration, or counts them.
fn answer<R: OctetSource, W: Write + Drop>(
    alloc: Global,
    counts: bool,
    placed: Result<Placed, Fault>,
    input: &mut R,
    output: &mut BufWriter<W>,
) -> Result<(), Fault>
    ensures output { LeavesAnswered counts (R.left input.old) (writer_contents W.contents output.old)
        (writer_contents W.contents output.new) placed result }
    ensures flush { OnOk result (writer_buffer output.new ≡ []) }
{
    let placed = placed?;
    if counts {
        print_said(count(alloc, placed.config.rules(), input), output)
    } else {
        why(alloc, &placed, input, output)
    }
}

/// Answers the asks that standard input shows, whatever is in front of them, and reports how many lines show none.
fn answer_shown<R: OctetSource, W: Write + Drop, E: OctetSink>(
    alloc: Global,
    counts: bool,
    placed: Result<Placed, Fault>,
    streams: &mut Streams<R, W, E>,
) -> Result<(), Fault>
    ensures shown { let was = streams.old in
        let is = streams.new in
        (said : List ℕ) × LeavesAnswered counts (asks_in false (R.left was.input))
        (writer_contents W.contents was.output) (writer_contents W.contents is.output) placed result
        × ReportsUnread false result said
        × (E.NeverFails was.errors → Appends (E.held was.errors) (E.held is.errors) said) }
    ensures lasting { E.NeverFails streams.old.errors → E.NeverFails streams.new.errors }
    ensures flush { OnOk result (writer_buffer streams.new.output ≡ []) }
{
    let mut asks = AskLines::new(Lent::new(&mut streams.input));
    let outcome = answer(alloc, counts, placed, &mut asks, &mut streams.output);
    report_unread(outcome, asks.unread(), &mut streams.errors);
    outcome
}

/// How asks are answered.
#[derive(Clone, Copy)]
pub struct Answering {
    /// Whether they are counted by rule.
    pub counts: bool,
    /// Whether a line that is no ask alone is a fault.
    pub strict: bool,
}

/// Answers the asks of standard input by the rules of the configuration in the file of this name.
pub fn answer_in<F: ConfigFiles, R: OctetSource, W: Write + Drop, E: OctetSink>(
    alloc: Global,
    files: &F,
    file: &str,
    how: Answering,
    streams: &mut Streams<R, W, E>,
) -> Result<(), Fault>
    ensures answered { let was = streams.old in
        let is = streams.new in
        (said : List ℕ) × LeavesAnsweredIn (F.Reads files.now) file.now how (R.left was.input)
        (writer_contents W.contents was.output) (writer_contents W.contents is.output) said result
        × (E.NeverFails was.errors → Appends (E.held was.errors) (E.held is.errors) said) }
    ensures lasting { E.NeverFails streams.old.errors → E.NeverFails streams.new.errors }
    ensures flush { OnOk result (writer_buffer streams.new.output ≡ []) }
{
    let Answering { counts, strict } = how;
    let placed = placed_in(alloc, files, file);
    if strict {
        answer(
            alloc,
            counts,
            placed,
            &mut streams.input,
            &mut streams.output,
        )
    } else {
        answer_shown(alloc, counts, placed, streams)
    }
}
