//! Rules suggested for the asks of a log.

ghost use Rattle.std.specs.Prelude.{◌≡◌, [], ℕ, List, false, OnOk};
ghost use Rattle.std.specs.Io.Buffered.{writer_buffer, writer_contents};
ghost use Rattle.std.specs.Io.KnownBytes.{Appends};
ghost use Rattle.gw_script.specs.Known.{OnKnown};
ghost use Rattle.gw_tools.specs.Asking.{ReportsUnread, asks_in};
ghost use Rattle.gw_ending.specs.reading.Files.{result_map};
ghost use Rattle.gw_tools.specs.Program.{LeavesSuggested, LeavesSuggestedIn};
ghost use Rattle.gw_tools.specs.Suggesting.{Suggests, fault_of_suggestion, first_suggestion_fault};

use crate::unread::report_unread;
use gw_ending::reading::ConfigFiles;
use gw_ending::{Fault, Streams};
use gw_policy_drafts::suggestion::{Manner, SuggestFault};
use gw_script::{OctetSink, OctetSource};
use gw_verdicts::asks::{AskLines, Lent};
use std::alloc::Global;
use std::io::{BufWriter, Write};

/// Writes rules that allow what the lines ask for that `reader` has left and the configuration of this text denies.
/// What was written is flushed at every outcome. Faults: those of the suggestion, and `Write` also if the flush alone
/// fails.
pub fn suggest<R: OctetSource, W: Write + Drop>(
    alloc: Global,
    text: &[u8],
    manner: Manner,
    reader: &mut R,
    writer: &mut BufWriter<W>,
) -> Result<(), Fault>
    ensures suggests { OnKnown (R.left reader.old) (writer_contents W.contents writer.old)
        (writer_contents W.contents writer.new) (λ log before. Suggests text.now manner log before result) }
    ensures flushed { OnOk result (writer_buffer writer.new ≡ []) }
{
    let suggestion = gw_policy_drafts::suggestion::suggest(alloc, text, manner, reader, writer);
    let is_flushed = writer.flush().is_ok();
    first_fault(suggestion, is_flushed)
}

/// The fault of the program by that of a suggestion.
fn fault_of_suggestion(fault: SuggestFault) -> Fault
    ensures { result ≡ fault_of_suggestion fault }
{
    match fault {
        SuggestFault::Configuration(config) => Fault::from(config),
        SuggestFault::Read => Fault::Read,
        SuggestFault::Line(number) => Fault::Line(number),
        SuggestFault::TooManyAsks => Fault::TooManyAsks,
        SuggestFault::TooManyRules => Fault::TooManyRules,
        SuggestFault::Unlike => Fault::Unwritable,
        SuggestFault::Write => Fault::Write,
        SuggestFault::Memory => Fault::Memory,
    }
}

/// The first fault of the suggestion and of the flush after it.
fn first_fault(suggestion: Result<(), SuggestFault>, is_flushed: bool) -> Result<(), Fault>
    ensures { result ≡ first_suggestion_fault suggestion is_flushed }
{
    match suggestion {
        Ok(()) if is_flushed => Ok(()),
        Ok(()) => Err(Fault::Write),
        Err(fault) => Err(fault_of_suggestion(fault)),
    }
}

/// Suggests rules for the asks of standard input under the configuration of a text that was read.
fn suggest_rules<R: OctetSource, W: Write + Drop>(
    alloc: Global,
    text: &Result<Vec<u8>, Fault>,
    manner: Manner,
    input: &mut R,
    output: &mut BufWriter<W>,
) -> Result<(), Fault>
    ensures output { LeavesSuggested manner (R.left input.old) (writer_contents W.contents output.old)
        (writer_contents W.contents output.new) (result_map (λ octets. octets.items) text.now) result }
    ensures flush { OnOk result (writer_buffer output.new ≡ []) }
{
    match text {
        Ok(text) => suggest(alloc, text, manner, input, output),
        Err(fault) => Err(*fault),
    }
}

/// Suggests rules under the configuration of a file for the asks that standard input shows, whatever is in front of them, and
/// reports how many lines show none.
pub fn suggest_shown<F: ConfigFiles, R: OctetSource, W: Write + Drop, E: OctetSink>(
    alloc: Global,
    files: &F,
    file: &str,
    manner: Manner,
    streams: &mut Streams<R, W, E>,
) -> Result<(), Fault>
    ensures suggested { let was = streams.old in
        let is = streams.new in
        (said : List ℕ) × LeavesSuggestedIn (F.Reads files.now) file.now manner
        (asks_in false (R.left was.input))
        (writer_contents W.contents was.output) (writer_contents W.contents is.output) result
        × ReportsUnread false result said
        × (E.NeverFails was.errors → Appends (E.held was.errors) (E.held is.errors) said) }
    ensures lasting { E.NeverFails streams.old.errors → E.NeverFails streams.new.errors }
    ensures flush { OnOk result (writer_buffer streams.new.output ≡ []) }
{
    let text = files.read(alloc, file);
    let mut asks = AskLines::new(Lent::new(&mut streams.input));
    let outcome = suggest_rules(alloc, &text, manner, &mut asks, &mut streams.output);
    report_unread(outcome, asks.unread(), &mut streams.errors);
    outcome
}
