//! A log as JSON objects, one a line.

ghost use Rattle.std.specs.Prelude.{◌≡◌, ◌+◌, ◌*◌, ◌<◌, ◌≤◌, ℕ, List, length, take, drop, true, Some, IfOk, IsErrOf};
ghost use Rattle.gw_script.specs.Known.{OnKnown};
ghost use Rattle.json.specs.Json.{Json};
ghost use Rattle.gw_json.specs.Document.{line_of};
ghost use Rattle.gw_json.specs.Log.{AreFrontMembers, IsDenialIn, IsEntryIn, IsOther, LeavesEntries, place_members, rule_members};
ghost use Rattle.gw_json.specs.Log.{shown_value};
ghost use Rattle.gw_json.specs.internal.View.{members_view};
ghost use Rattle.gw_log_words.specs.Fields.{is_denial, says_allow};

use crate::ask::ask_members;
use crate::value::{Member, Value, joined, object_line, octets_member, text_member, text_value};
use gw_audit::{Shown, read_line};
use gw_log_words::{denial_front, says_allow};
use gw_script::{LineTranslator, LinesFault, OctetSink, OctetSource, translate_lines};
use std::alloc::{AllocError, Global};

/// Writes each line of a log as a JSON object, in order, before it takes up the next line: one that ends in the line of a
/// denial by what it shows, and by what is in front, such as a stamp; another as a text. If the last word in front is `allow`, as
/// in an audit, the ask was allowed. What isn't UTF-8 is hexadecimal digits. The writer isn't flushed.
///
/// A line ends with a line feed, which the last may lack. It has at most 4096 octets without it: a longer one ends the
/// writing.
///
/// ```text
/// {"number":1,"tick":0,"port":1,"source_network":1,"source":"192.168.1.5:47808","operation":"read","destination":100,"service":12,"object_type":5,"instance":2,"property":85,"priority":null,"sender":null,"station":null,"allow":false,"rule":"hide"}
/// {"number":2,"tick":9,"port":1,"source_network":1,"source":"192.168.1.5:47808","operation":"read","destination":100,"service":12,"object_type":5,"instance":2,"property":85,"priority":null,"sender":null,"station":null,"allow":true,"rule":"operators-write","front":"2026-11-27T08:00:17Z allow "}
/// {"line":"bacgw: write failed"}
/// {"octets":"FF00"}
/// ```
pub fn log_in_json<R: OctetSource, W: OctetSink>(
    alloc: Global,
    reader: &mut R,
    writer: &mut W,
) -> Result<(), LinesFault>
    // What is written then, if the octets of the reader and the writer are known.
    ensures entries { OnKnown (R.left reader.old) (W.held writer.old) (W.held writer.new)
        (LeavesEntries result) }
    // What never fails doesn't end the writing: a reader, of a text of less than 2 GiB, and a writer.
    ensures sure_reader { R.NeverFails reader.old → (text : List ℕ) →
        R.left reader.old ≡ Some text → 2 * length text + 1 < 4294967295 →
        ¬ (IsErrOf result LinesFault.Read) }
    ensures sure_writer { W.NeverFails writer.old → ¬ (IsErrOf result LinesFault.Write) }
{
    translate_lines(alloc, &LogObjects {}, reader, writer)
}

/// Makes the objects of the lines of a log.
#[derive(Drop)]
struct LogObjects {}

impl LineTranslator for LogObjects {
    ghost Translates = { λ _ line text. IsEntryIn line text };

    ghost Refuses = { λ _ _. ⊥ };

    fn translate(
        &self,
        alloc: Global,
        line: &[u8],
        text: &mut Vec<u8>,
    ) -> Result<bool, AllocError> {
        *text = entry(alloc, line)?;
        Ok(true)
    }
}

/// The object of a line of a log, with a line feed.
fn entry(alloc: Global, line: &[u8]) -> Result<Vec<u8>, AllocError>
    ensures { IfOk result (λ text. IsEntryIn line.now text.items) }
{
    match denial_front(line) {
        Some(at) => entry_from(alloc, line, at),
        None => other(alloc, line),
    }
}

/// The object of a line whose own fields begin at this place.
fn entry_from(alloc: Global, line: &[u8], at: usize) -> Result<Vec<u8>, AllocError>
    requires within { at ≤ length line.now }
    requires fields { is_denial (drop at line.now) ≡ true }
    ensures { IfOk result (λ text. IsDenialIn (take at line.now) (drop at line.now) text.items) }
{
    denial_in(alloc, &line[..at], &line[at..])
}

/// The object of own fields that are the line of a denial, with what is in front of them.
fn denial_in(alloc: Global, front: &[u8], fields: &[u8]) -> Result<Vec<u8>, AllocError>
    requires { is_denial fields.now ≡ true }
    ensures { IfOk result (λ text. IsDenialIn front.now fields.now text.items) }
{
    match read_line(fields) {
        Some(shown) => fronted(alloc, front, &shown),
        // It can't be, since these fields are the line of a denial.
        None => Ok(Vec::new(alloc)),
    }
}

/// The object of a denial with what is in front of its line.
fn fronted(alloc: Global, front: &[u8], shown: &Shown<'_>) -> Result<Vec<u8>, AllocError>
    ensures { IfOk result (λ text. (before : List (List ℕ × Json)) × AreFrontMembers front.now before
        × (text.items ≡ line_of
        (shown_value (says_allow front.now) before shown.now.number shown.now.tick shown.now.ask shown.now.rule.now))) }
{
    let before = front_members(alloc, front)?;
    denial(alloc, says_allow(front), shown, before)
}

/// The member of what is in front: none if nothing is.
fn front_members(alloc: Global, front: &[u8]) -> Result<Vec<Member>, AllocError>
    ensures { IfOk result (λ members. AreFrontMembers front.now (members_view members.items)) }
{
    if front.is_empty() {
        return Ok(Vec::new(alloc));
    }
    match str::from_utf8(front) {
        Ok(text) => text_member(alloc, "front", text),
        Err(_) => octets_member(alloc, "front_octets", front),
    }
}

/// The object of a denial, with the member of what is in front of its line at the end.
fn denial(
    alloc: Global,
    is_allowed: bool,
    shown: &Shown<'_>,
    before: Vec<Member>,
) -> Result<Vec<u8>, AllocError>
    ensures { IfOk result (λ text. text.items ≡ line_of (shown_value is_allowed (members_view before.entry.items)
        shown.now.number shown.now.tick shown.now.ask shown.now.rule.now)) }
{
    let place = place_members(alloc, shown.number, shown.tick)?;
    let ask = ask_members(alloc, &shown.ask)?;
    let rule = rule_members(alloc, is_allowed, shown.rule)?;
    object_line(alloc, joined(joined(place, ask)?, joined(rule, before)?)?)
}

/// The number of a denial, and its tick.
fn place_members(alloc: Global, number: u64, tick: u64) -> Result<Vec<Member>, AllocError>
    ensures { IfOk result (λ members. members_view members.items ≡ place_members number tick) }
{
    Ok(vec![in alloc;
        ("number", Value::Number(number)),
        ("tick", Value::Number(tick)),
    ]?)
}

/// What the rule said, and its name.
fn rule_members(alloc: Global, is_allowed: bool, rule: &str) -> Result<Vec<Member>, AllocError>
    ensures { IfOk result (λ members. members_view members.items ≡ rule_members is_allowed rule.now) }
{
    let name = text_value(alloc, rule)?;
    Ok(vec![in alloc; ("allow", Value::Boolean(is_allowed)), ("rule", name)]?)
}

/// The object of a line without own fields.
fn other(alloc: Global, line: &[u8]) -> Result<Vec<u8>, AllocError>
    ensures { IfOk result (λ text. IsOther line.now text.items) }
{
    match str::from_utf8(line) {
        Ok(text) => object_line(alloc, text_member(alloc, "line", text)?),
        Err(_) => object_line(alloc, octets_member(alloc, "octets", line)?),
    }
}
