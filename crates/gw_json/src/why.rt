//! Which rule would decide the asks of a text: a JSON object for each line.

ghost use Rattle.std.specs.Prelude.{◌≡◌, ◌+◌, ◌*◌, ◌<◌, ℕ, List, Some, length, option_map, IfOk, IsErrOf};
ghost use Rattle.gw_script.specs.Known.{OnKnown};
ghost use Rattle.gw_json.specs.Document.{line_of};
ghost use Rattle.gw_json.specs.Why.{IsAnswerIn, LeavesVerdicts, SaysNoAsk, answer_value, beside_members, name_value, note_value};
ghost use Rattle.gw_json.specs.Why.{noted_value, place_members, quiet_members, verdict_members};
ghost use Rattle.gw_json.specs.internal.View.{members_view, value_view};

use crate::ask::ask_members;
use crate::value::{Member, Value, joined, number_value, object_line, text_value};
use gw_ask_sets::numbered::item_at;
use gw_audit::{ShownAsk, read_ask};
use gw_configuration::{Config, Text};
use gw_policy_review::places::{line_of, table_of};
use gw_rules::{NO_RULE, Rule};
use gw_script::{LineTranslator, LinesFault, OctetSink, OctetSource, translate_lines};
use std::alloc::{AllocError, Global};

/// Writes for each line, in order, which rule of the configuration is the first to match the ask that the line has, and
/// what it says, before it takes up the next line. The writer isn't flushed.
///
/// A line is one of the log, or the eight words in the middle of one, and ends with a line feed, which the last may lack.
/// It has at most 4096 octets without it. Another ends the answers.
///
/// ```text
/// {"allow":false,"rule":"hide","rule_number":1,"note":"the caretaker's","port":1,"source_network":1,"source":"192.168.1.5:47808","operation":"read","destination":100,"service":12,"object_type":5,"instance":2,"property":85,"priority":null,"sender":null,"station":null}
/// {"allow":false,"rule":"default","rule_number":null,"note":null,"port":1,..}
/// {"allow":false,"rule":"hush","rule_number":2,"note":null,"quiet":true,"port":1,..}
/// {"allow":true,"rule":"panel-back","rule_number":5,"note":null,"table":3,"line":41,"port":2,..}
/// ```
///
/// A rule whose table has another number in the text has that, and the line on which the table begins, or null: `lines` are those of
/// all tables of rules in their order, or none if they aren't known.
pub fn why_in_json<R: OctetSource, W: OctetSink>(
    alloc: Global,
    config: &Config,
    lines: &[u32],
    reader: &mut R,
    writer: &mut W,
) -> Result<(), LinesFault>
    // What is written then, if the octets of the reader and the writer are known.
    ensures verdicts { OnKnown (R.left reader.old) (W.held writer.old) (W.held writer.new)
        (LeavesVerdicts config.now.rules config.now.notes (place_members config.now.tables lines.now) result) }
    // What never fails doesn't end the answers: a reader, of a text of less than 2 GiB, and a writer.
    ensures sure_reader { R.NeverFails reader.old → (text : List ℕ) →
        R.left reader.old ≡ Some text → 2 * length text + 1 < 4294967295 →
        ¬ (IsErrOf result LinesFault.Read) }
    ensures sure_writer { W.NeverFails writer.old → ¬ (IsErrOf result LinesFault.Write) }
{
    let answers = Answers { config, lines };
    translate_lines(alloc, &answers, reader, writer)
}

/// Makes the objects that answer the asks of a text by the rules of a configuration, whose tables begin on these lines of its text.
#[derive(Drop)]
struct Answers<'a> {
    config: &'a Config,
    lines: &'a [u32],
}

impl<'a> LineTranslator for Answers<'a> {
    ghost Translates = { λ answers line text. IsAnswerIn answers.config.now.rules answers.config.now.notes
        (place_members answers.config.now.tables answers.lines.now) line text };

    ghost Refuses = { λ _ line. SaysNoAsk line };

    fn translate(
        &self,
        alloc: Global,
        line: &[u8],
        text: &mut Vec<u8>,
    ) -> Result<bool, AllocError> {
        let Some(ask) = read_ask(line) else {
            return Ok(false);
        };
        *text = self.answer(alloc, &ask)?;
        Ok(true)
    }
}

impl Answers<'_> {
    /// The object of the answer to an ask.
    fn answer(&self, alloc: Global, ask: &ShownAsk) -> Result<Vec<u8>, AllocError>
        ensures { IfOk result (λ text. text.items
            ≡ line_of (answer_value self.now.config.now.rules self.now.config.now.notes
            (place_members self.now.config.now.tables self.now.lines.now) ask.now)) }
    {
        let rules = self.config.rules();
        let judged = ask.ask();
        let (is_allowed, by) = (rules.allows(&judged), rules.first(&judged));
        let verdict = verdict_members(alloc, rules.rules(), self.config.notes(), is_allowed, by)?;
        let place = place_members(alloc, self.config.tables(), self.lines, by)?;
        let quiet = quiet_members(alloc, rules.is_quiet(by))?;
        let rest = joined(quiet, ask_members(alloc, ask)?)?;
        object_line(alloc, joined(verdict, joined(place, rest)?)?)
    }
}

/// The table and the line of the rule of this number, if the table has another number.
fn place_members(
    alloc: Global,
    tables: &[u16],
    lines: &[u32],
    by: Option<u16>,
) -> Result<Vec<Member>, AllocError>
    ensures { IfOk result (λ members. members_view members.items ≡ place_members tables.now lines.now by) }
{
    match by {
        Some(number) => beside_members(alloc, lines, number, table_of(tables, number)),
        None => Ok(Vec::new(alloc)),
    }
}

fn beside_members(
    alloc: Global,
    lines: &[u32],
    number: u16,
    table: Option<u32>,
) -> Result<Vec<Member>, AllocError>
    ensures { IfOk result (λ members. members_view members.items ≡ beside_members lines.now number table) }
{
    match table {
        Some(table) if table != u32::from(number) => {
            let line = number_value(wide(line_of(lines, table)));
            Ok(vec![in alloc;
                ("table", number_value(Some(u64::from(table)))),
                ("line", line),
            ]?)
        }
        _ => Ok(Vec::new(alloc)),
    }
}

fn wide(number: Option<u32>) -> Option<u64>
    ensures { result ≡ number }
{
    match number {
        Some(number) => Some(u64::from(number)),
        None => None,
    }
}

/// That the rule which denies is quiet, if it is.
fn quiet_members(alloc: Global, is_quiet: bool) -> Result<Vec<Member>, AllocError>
    ensures { IfOk result (λ members. members_view members.items ≡ quiet_members is_quiet) }
{
    if is_quiet {
        Ok(vec![in alloc; ("quiet", Value::Boolean(true))]?)
    } else {
        Ok(Vec::new(alloc))
    }
}

/// What the policy says, by the rule of this number or by none.
fn verdict_members(
    alloc: Global,
    rules: &[Rule],
    notes: &[Text],
    is_allowed: bool,
    by: Option<u16>,
) -> Result<Vec<Member>, AllocError>
    ensures { IfOk result (λ members. members_view members.items
        ≡ verdict_members rules.now notes.now is_allowed by) }
{
    let rule = name_value(alloc, item_at(rules, by))?;
    let note = note_value(alloc, item_at(notes, by))?;
    Ok(vec![in alloc;
        ("allow", Value::Boolean(is_allowed)),
        ("rule", rule),
        ("rule_number", number_value(number_of(by))),
        ("note", note),
    ]?)
}

fn number_of(by: Option<u16>) -> Option<u64>
    ensures { result ≡ by }
{
    match by {
        Some(number) => Some(u64::from(number)),
        None => None,
    }
}

/// The name of a rule, or `default` if there is none.
pub(crate) fn name_value(alloc: Global, rule: Option<&Rule>) -> Result<Value, AllocError>
    ensures { IfOk result (λ value. value_view value
        ≡ name_value (option_map (λ rule. rule.now) rule.entry)) }
{
    match rule {
        Some(rule) => text_value(alloc, rule.name.as_str()),
        None => Ok(Value::Word(NO_RULE)),
    }
}

/// A note, or null if there is none or it is empty.
fn note_value(alloc: Global, note: Option<&Text>) -> Result<Value, AllocError>
    ensures { IfOk result (λ value. value_view value
        ≡ note_value (option_map (λ note. note.now) note.entry)) }
{
    match note {
        Some(note) => noted_value(alloc, note.as_str()),
        None => Ok(Value::Null),
    }
}

fn noted_value(alloc: Global, note: &str) -> Result<Value, AllocError>
    ensures { IfOk result (λ value. value_view value ≡ noted_value note.now) }
{
    if note.is_empty() {
        Ok(Value::Null)
    } else {
        text_value(alloc, note)
    }
}
