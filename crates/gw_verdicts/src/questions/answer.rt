//! The answer to a question.

ghost use Rattle.std.specs.Prelude.{◌≡◌, ◌++◌, IfOk, OnOk, find, not, option_copied};
ghost use Rattle.std.specs.List.{list_any};
ghost use Rattle.gw_addr.specs.Appending.{IsAppended};
ghost use Rattle.gw_codecs.specs.apdu.Reading.{apdu_at};
ghost use Rattle.gw_frames.specs.npdu.Reading.{npdu_at};
ghost use Rattle.gw_configuration.specs.Configuration.{is_same_address};
ghost use Rattle.gw_script.specs.Event.{event_view};
ghost use Rattle.gw_verdicts.specs.questions.Answers.{answer_text, answered_text, back_text, batch_reaches, batch_refuses, is_answered};
ghost use Rattle.gw_verdicts.specs.questions.Answers.{may, may_after, no_line, outcome_of, reaches, refuses, rest_text, served_text};
ghost use Rattle.gw_verdicts.specs.questions.Answers.{serves, why_text};
ghost use Rattle.gw_verdicts.specs.questions.Datagrams.{event_of};
ghost use Rattle.gw_verdicts.specs.questions.Refusals.{denies, is_refusal, message_denies, says_denied};
ghost use Rattle.gw_verdicts.specs.questions.Words.{IsAnswer};

use crate::questions::datagram::{make_answer, make_request};
use crate::questions::place::{Addressee, Question, Station};
use crate::questions::step::{put_way, take};
use gw_addr::{BipAddr, put_octet, put_slice};
use gw_codecs::apdu::{Header, decode as decode_apdu};
use gw_configuration::Config;
use gw_core::{AllAsked, Asked, Batch, Counts, Event, Gateway, Reported, Sends, rule_name};
use gw_frames::bvll::{Bvll, decode as decode_frame};
use gw_frames::npdu::{Payload, decode as decode_npdu};
use gw_rules::RuleList;
use std::alloc::{AllocError, Global};

/// An Error's class and code that say that a read is denied, and a write (clauses 18 and 20.2.11).
const READ_DENIED: [u8; 4] = [0x91, 2, 0x91, 27];

const WRITE_DENIED: [u8; 4] = [0x91, 2, 0x91, 40];

/// The answer to a question.
#[derive(Drop)]
pub struct QuestionAnswer {
    /// Its text.
    pub text: Vec<u8>,
    /// Which it is.
    pub outcome: AnswerKind,
}

/// Which answer it is.
#[derive(Clone, Copy)]
pub enum AnswerKind {
    /// The station may do it.
    Yes,
    /// It may not.
    No,
    /// The words ask no question.
    Unasked,
}

/// That a station's datagram comes.
pub fn event_of<'a>(station: &Station, octets: &'a [u8]) -> Event<'a>
    ensures { event_view result ≡ event_of station.now octets.now }
{
    Event::Datagram {
        port: station.port,
        from: station.link,
        octets,
    }
}

/// Whether one of these addresses is that one.
fn contains(targets: &[BipAddr], address: BipAddr) -> bool
    ensures { result ≡ list_any (λ to. is_same_address to address) targets.now }
{
    targets.iter().any(|to| *to == address)
}

/// Whether a message goes to a station, or to the router before it.
fn batch_reaches(station: &Station, batch: &Batch) -> bool
    ensures { result ≡ batch_reaches station.now batch.now }
{
    batch.port() == station.port && contains(batch.targets(), station.link)
}

/// Whether one of these messages does.
fn any_reaches(station: &Station, batches: &[Batch]) -> bool
    ensures { result ≡ list_any (batch_reaches station.now) batches.now }
{
    batches.iter().any(|batch| batch_reaches(station, batch))
}

/// Whether a datagram is sent to a station, or to the router before it.
pub fn reaches(station: &Station, sends: &Sends) -> bool
    ensures { result ≡ reaches station.now sends.now }
{
    any_reaches(station, sends.batches())
}

/// Whether the body of an Error says that a read or a write is denied.
fn says_denied(body: &[u8]) -> bool
    ensures { result ≡ says_denied body.now }
{
    body == READ_DENIED.as_slice() || body == WRITE_DENIED.as_slice()
}

/// Whether an APDU is an Error that says so.
fn denies(octets: &[u8]) -> bool
    ensures { result ≡ denies (apdu_at octets.now) }
{
    match decode_apdu(octets) {
        Ok(apdu) => matches!(apdu.header, Header::Error { .. }) && says_denied(apdu.rest),
        Err(_) => false,
    }
}

/// Whether an NPDU carries one.
fn message_denies(octets: &[u8]) -> bool
    ensures { result ≡ message_denies (npdu_at octets.now) }
{
    match decode_npdu(octets) {
        Ok(message) => match message.payload {
            Payload::Apdu(octets) => denies(octets),
            Payload::Message(_) => false,
        },
        Err(_) => false,
    }
}

/// Whether a datagram does.
fn is_refusal(octets: &[u8]) -> bool
    ensures { result ≡ is_refusal octets.now }
{
    match decode_frame(octets) {
        Ok(Bvll::OriginalUnicast(octets)) => message_denies(octets),
        _ => false,
    }
}

/// Whether one of these messages is a refusal that goes to somebody.
fn batch_refuses(batch: &Batch) -> bool
    ensures { result ≡ batch_refuses batch.now }
{
    match batch.targets() {
        [_, ..] => is_refusal(batch.octets()),
        [] => false,
    }
}

fn any_refuses(batches: &[Batch]) -> bool
    ensures { result ≡ list_any batch_refuses batches.now }
{
    batches.iter().any(batch_refuses)
}

/// Whether a datagram that is sent is a refusal.
fn refuses(sends: &Sends) -> bool
    ensures { result ≡ refuses sends.now }
{
    any_refuses(sends.batches())
}

/// The first ask that is denied.
fn first_denied(asked: &[Asked]) -> Option<&Asked>
    ensures { option_copied result ≡ find (λ one. not one.verdict.is_allowed) asked.now }
{
    asked.iter().find(|one| !one.verdict.is_allowed)
}

/// Appends by which rule the first ask is denied that is, or why it is no if none is.
fn put_why(
    text: &mut Vec<u8>,
    rules: &RuleList,
    asked: &[Asked],
    why: &[u8],
) -> Result<(), AllocError>
    ensures { IsAppended (why_text rules.now asked.now why.now) text.old text.new result }
{
    match first_denied(asked) {
        Some(denied) => {
            put_slice(text, b"denied by ")?;
            put_slice(text, rule_name(rules, denied.verdict.by).as_bytes())
        }
        None => put_slice(text, why),
    }
}

/// Appends that the answer is no, and why.
pub fn put_no(
    text: &mut Vec<u8>,
    word: &[u8],
    rules: &RuleList,
    asked: &[Asked],
    why: &[u8],
) -> Result<(), AllocError>
    ensures { IsAppended (no_line word.now rules.now asked.now why.now) text.old text.new result }
{
    put_slice(text, word)?;
    put_why(text, rules, asked, why)?;
    put_octet(text, b'\n')
}

/// Appends what comes of an answer.
fn put_back(
    rules: &RuleList,
    asker: &Station,
    answer: &Reported<AllAsked>,
    text: &mut Vec<u8>,
) -> Result<bool, AllocError>
    ensures text { let due = back_text rules.now asker.now answer.now.asked answer.now.taken.effects.sends in
        OnOk result (text.new.items ≡ text.old.items ++ due) }
    ensures is { IfOk result (λ is_yes. is_yes ≡ reaches asker.now answer.now.taken.effects.sends) }
{
    if reaches(asker, &answer.taken.effects.sends) {
        put_slice(text, b"yes\n")?;
        return Ok(true);
    }
    let asked = answer.asked.as_slice();
    put_no(text, b"no: the answer: ", rules, asked, b"no way back")?;
    Ok(false)
}

/// Has a gateway take the answer of a station that got the request, and appends what comes of it.
fn put_answered(
    alloc: Global,
    gateway: &mut Gateway,
    question: &Question<'_>,
    station: &Station,
    text: &mut Vec<u8>,
) -> Result<bool, AllocError>
    ensures text { OnOk result
        (text.new.items ≡ text.old.items ++ answered_text gateway.old question.now station.now) }
    ensures is { IfOk result (λ is_yes. is_yes ≡ is_answered gateway.old question.now station.now) }
{
    let octets = make_answer(alloc, question, station)?;
    put_way(text, b"the answer comes from ", station.link, station.port)?;
    let answer = take(alloc, gateway, &event_of(station, &octets), text)?;
    put_back(gateway.rules(), &question.asker, &answer, text)
}

/// Whether the gateway's own device answers a station, and not that access is denied.
fn is_served(asker: &Station, sends: &Sends) -> bool
    ensures { result ≡ serves asker.now sends.now }
{
    reaches(asker, sends) && !refuses(sends)
}

/// Appends what comes of a request to the gateway's own device.
fn put_served(
    rules: &RuleList,
    asker: &Station,
    request: &Reported<AllAsked>,
    text: &mut Vec<u8>,
) -> Result<bool, AllocError>
    ensures text { let due = served_text rules.now asker.now request.now.asked request.now.taken.effects.sends in
        OnOk result (text.new.items ≡ text.old.items ++ due) }
    ensures is { IfOk result (λ is_yes. is_yes ≡ serves asker.now request.now.taken.effects.sends) }
{
    if is_served(asker, &request.taken.effects.sends) {
        put_slice(text, b"yes\n")?;
        return Ok(true);
    }
    let asked = request.asked.as_slice();
    put_no(text, b"no: ", rules, asked, b"the device refuses it")?;
    Ok(false)
}

/// Appends what comes of a request that a gateway took.
fn put_rest(
    alloc: Global,
    gateway: &mut Gateway,
    question: &Question<'_>,
    request: &Reported<AllAsked>,
    text: &mut Vec<u8>,
) -> Result<bool, AllocError>
    ensures text { let sends = request.now.taken.effects.sends in
        let due = rest_text gateway.old question.now request.now.asked sends question.now.target in
        OnOk result (text.new.items ≡ text.old.items ++ due) }
    ensures is { let sends = request.now.taken.effects.sends in
        IfOk result (λ is_yes. is_yes ≡ may_after gateway.old question.now sends question.now.target) }
{
    let rules = gateway.rules();
    let station = match &question.target {
        Addressee::Station(station) => station,
        Addressee::Device(_) => return put_served(rules, &question.asker, request, text),
    };
    if reaches(station, &request.taken.effects.sends) {
        return put_answered(alloc, gateway, question, station, text);
    }
    put_no(
        text,
        b"no: ",
        rules,
        request.asked.as_slice(),
        b"no way there",
    )?;
    Ok(false)
}

/// Puts a question to a gateway, and appends the answer.
fn put_question(
    alloc: Global,
    gateway: &mut Gateway,
    question: &Question<'_>,
    text: &mut Vec<u8>,
) -> Result<bool, AllocError>
    ensures text { OnOk result (text.new.items ≡ text.old.items ++ answer_text gateway.old question.now) }
    ensures is { IfOk result (λ is_yes. is_yes ≡ may gateway.old question.now) }
{
    let asker = &question.asker;
    let octets = make_request(alloc, question)?;
    put_way(text, b"the request comes from ", asker.link, asker.port)?;
    let request = take(alloc, gateway, &event_of(asker, &octets), text)?;
    put_rest(alloc, gateway, question, &request, text)
}

/// Which answer it is.
pub fn outcome_of(is_yes: bool) -> AnswerKind
    ensures { result ≡ outcome_of is_yes }
{
    if is_yes {
        AnswerKind::Yes
    } else {
        AnswerKind::No
    }
}

/// The answer to a question by a gateway of this configuration that has taken nothing yet. An `Err` only if a growth of memory
/// was refused.
pub fn answer_question(
    alloc: Global,
    config: Config,
    question: &Question<'_>,
) -> Result<QuestionAnswer, AllocError>
    ensures { IfOk result (λ answer. IsAnswer config question.now answer.text.items answer.outcome) }
{
    let mut gateway = Gateway::new(alloc, config, Counts::default())?;
    let mut text = Vec::new(alloc);
    let is_yes = put_question(alloc, &mut gateway, question, &mut text)?;
    Ok(QuestionAnswer {
        text,
        outcome: outcome_of(is_yes),
    })
}
