//! Which rule would decide the asks of a log: one answer a line.

ghost use Rattle.std.specs.Prelude.{◌≡◌, ◌+◌, ◌*◌, ◌<◌, ◌++◌, ℕ, List, length, Some, IsErrOf, OnOk};
ghost use Rattle.gw_addr.specs.Appending.{IsAppended};
ghost use Rattle.gw_audit.specs.Entry.{ask_shown};
ghost use Rattle.gw_script.specs.Known.{OnKnown};
ghost use Rattle.gw_verdicts.specs.Why.{IsAnswered, LeavesAnswers, ShowsNoAsk, answer, answer_to, note_text, noted, place_text, said_text};

use gw_audit::{ShownAsk, read_ask};
use gw_configuration::{Config, Text, put_shown};
use gw_core::put_verdict;
use gw_policy_review::places::put_place;
use gw_rules::Ask;
use gw_script::{LineTranslator, LinesFault, OctetSink, OctetSource, translate_lines};
use std::alloc::{AllocError, Global};

/// Answers for each line, in order, which rule of the configuration is the first to match the ask that the
/// line has, what it says, and its note, if it has one, before it takes up the next line. The writer isn't
/// flushed.
///
/// A line is one of the log, or the eight words in the middle of one, and ends with a line feed,
/// which the last may lack. It has at most 4096 octets without it. Another ends the answers.
///
/// ```text
/// 1 0 1 1:C0A80105BAC0 read dst=100 svc=12 obj=5,2 prop=85 prio=- rule=hide
/// 1 1:C0A80105BAC0 read dst=100 svc=12 obj=5,1 prop=85 prio=-
/// 2 2:C0A80209BAC0 read dst=100 svc=12 obj=5,1 prop=85 prio=-
/// ```
///
/// An answer names the rule, or says that none matches. If the rule's table has another number in the text, it has that, too, and the
/// line on which the table begins: `lines` are those of all tables of rules in their order, or none if they aren't known. A note has
/// a question mark for each control character.
///
/// ```text
/// deny rule 1 hide: the door is the caretaker's
/// allow rule 3 panel-back (table 2, line 14)
/// deny default
/// ```
pub fn why<R: OctetSource, W: OctetSink>(
    alloc: Global,
    config: &Config,
    lines: &[u32],
    reader: &mut R,
    writer: &mut W,
) -> Result<(), LinesFault>
    // What is written then, where the octets of the reader and the writer are known.
    ensures answers { OnKnown (R.left reader.old) (W.held writer.old) (W.held writer.new)
        (LeavesAnswers config.now.rules (said_text config.now lines.now) result) }
    // What never fails doesn't end the answers: a reader, of a text of less than 2 GiB, and a writer.
    ensures sure_reader { R.NeverFails reader.old → (text : List ℕ) →
        R.left reader.old ≡ Some text → 2 * length text + 1 < 4294967295 →
        ¬ (IsErrOf result LinesFault.Read) }
    ensures sure_writer { W.NeverFails writer.old → ¬ (IsErrOf result LinesFault.Write) }
{
    let answerer = Answerer { config, lines };
    translate_lines(alloc, &answerer, reader, writer)
}

/// Answers the asks of a log by the rules of a configuration, whose tables begin on these lines of its text.
#[derive(Drop)]
struct Answerer<'a> {
    config: &'a Config,
    lines: &'a [u32],
}

impl<'a> LineTranslator for Answerer<'a> {
    ghost Translates = { λ answerer line text.
        IsAnswered answerer.config.now.rules (said_text answerer.config.now answerer.lines.now) line text };

    ghost Refuses = { λ _ line. ShowsNoAsk line };

    fn translate(
        &self,
        _alloc: Global,
        line: &[u8],
        text: &mut Vec<u8>,
    ) -> Result<bool, AllocError> {
        let Some(ask) = read_ask(line) else {
            return Ok(false);
        };
        self.make_answer(&ask, text)?;
        Ok(true)
    }
}

impl Answerer<'_> {
    /// Makes the answer to an ask that is shown.
    fn make_answer(&self, shown: &ShownAsk, text: &mut Vec<u8>) -> Result<(), AllocError>
        ensures { OnOk result (text.new.items
            ≡ answer_to self.now.config.now.rules (said_text self.now.config.now self.now.lines.now) shown.now) }
    {
        text.clear();
        self.put_answer(text, &shown.ask())
    }

    /// Appends the answer to an ask.
    fn put_answer(&self, out: &mut Vec<u8>, ask: &Ask) -> Result<(), AllocError>
        ensures { OnOk result (out.new.items ≡ out.old.items
            ++ answer self.now.config.now.rules (said_text self.now.config.now self.now.lines.now) ask.now) }
    {
        let rules = self.config.rules();
        put_verdict(out, rules, ask)?;
        self.put_said(out, rules.first(ask))?;
        out.push(b'\n')?;
        Ok(())
    }

    /// Appends what is said of the rule of this number, if there is one.
    fn put_said(&self, out: &mut Vec<u8>, number: Option<u16>) -> Result<(), AllocError>
        ensures { OnOk result (out.new.items ≡ out.old.items ++ said_text self.now.config.now self.now.lines.now number) }
    {
        put_place_of(out, self.config.tables(), self.lines, number)?;
        put_note_of(out, self.config.notes(), number)
    }
}

/// Appends the place of the table of the rule of this number, if there is one.
fn put_place_of(
    out: &mut Vec<u8>,
    tables: &[u16],
    lines: &[u32],
    number: Option<u16>,
) -> Result<(), AllocError>
    ensures { OnOk result (out.new.items ≡ out.old.items ++ place_text tables.now lines.now number) }
{
    match number {
        Some(number) => put_place(out, tables, lines, number),
        None => Ok(()),
    }
}

/// Appends the note of the rule of this number, if it has one.
fn put_note_of(out: &mut Vec<u8>, notes: &[Text], number: Option<u16>) -> Result<(), AllocError>
    ensures { OnOk result (out.new.items ≡ out.old.items ++ note_text notes.now number) }
{
    let Some(number) = number else {
        return Ok(());
    };
    match notes.get((number as usize).saturating_sub(1)) {
        Some(note) => put_note(out, note.as_str().as_bytes()),
        None => Ok(()),
    }
}

/// Appends a note, if it isn't empty.
fn put_note(out: &mut Vec<u8>, note: &[u8]) -> Result<(), AllocError>
    ensures { OnOk result (out.new.items ≡ out.old.items ++ noted note.now) }
{
    if note.is_empty() {
        return Ok(());
    }
    out.extend_from_slice(b": ")?;
    put_shown(out, note)
}
