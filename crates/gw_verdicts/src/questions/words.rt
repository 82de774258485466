//! A question in words, and the answer to it.

ghost use Rattle.std.specs.Prelude.{◌≡◌, ◌++◌, codes, option_map, IfOk};
ghost use Rattle.gw_addr.specs.Appending.{IsAppended};
ghost use Rattle.gw_verdicts.specs.questions.Unasked.{place_words, unasked_text};
ghost use Rattle.gw_verdicts.specs.questions.Words.{IsAnswerTo, IsCallAnswered, IsDeedAnswered, IsQuestionOf, IsUnasked, are_by_one_port};
ghost use Rattle.gw_verdicts.specs.questions.Words.{is_service_of_device, joined, question_by, question_text};
ghost use Rattle.gw_verdicts.specs.questions.Deeds.{deed_text};

use crate::questions::answer::{AnswerKind, QuestionAnswer, answer_question};
use crate::questions::call::{Call, answer_call_by, registration_of, who_is_of};
use crate::questions::deed::{Deed, DeedInWords, deed_of};
use crate::questions::fault::{PlaceFault, Unasked};
use crate::questions::place::{Addressee, Question, Station, station_of, target_in};
use gw_addr::put_slice;
use gw_configuration::Config;
use std::alloc::{AllocError, Global};

/// A question in words.
#[derive(Clone, Copy)]
pub struct QuestionWords<'a> {
    /// The station that asks.
    pub from: &'a str,
    /// Whom it asks, if that is said.
    pub to: Option<&'a str>,
    /// What it is about.
    pub subject: Subject<'a>,
}

/// What a question is about.
#[derive(Clone, Copy)]
pub enum Subject<'a> {
    /// Whether a station may do this with another.
    Deed(DeedInWords<'a>),
    /// Whether the stations of a network, or of each, hear its Who-Is (clause 16.10).
    WhoIs,
    /// Whether it may register as a foreign device (Annex J.5.2).
    Registration,
}

/// Whether both lie by one port, so that the gateway isn't between them.
fn are_by_one_port(asker: &Station, target: &Addressee) -> bool
    ensures { result ≡ are_by_one_port asker.now target.now }
{
    match target {
        Addressee::Station(station) => station.port == asker.port,
        Addressee::Device(_) => false,
    }
}

/// Whether the gateway's own device is asked for a service.
fn is_service_of_device(target: &Addressee, deed: &Deed<'_>) -> bool
    ensures { result ≡ is_service_of_device target.now deed.now }
{
    match target {
        Addressee::Device(_) => matches!(deed, Deed::Serve(_)),
        Addressee::Station(_) => false,
    }
}

/// The question of these parts.
fn question_by<'a>(
    asker: Station,
    target: Addressee,
    deed: Deed<'a>,
) -> Result<Question<'a>, Unasked>
    ensures { result ≡ question_by asker target deed.entry }
{
    if are_by_one_port(&asker, &target) {
        return Err(Unasked::OnePort);
    }
    if is_service_of_device(&target, &deed) {
        return Err(Unasked::OfDevice);
    }
    Ok(Question {
        asker,
        target,
        deed,
    })
}

/// The question of these parts, or what the first fault among them says.
fn joined<'a>(
    asker: Result<Station, PlaceFault>,
    target: Result<Addressee, PlaceFault>,
    deed: Result<Deed<'a>, Unasked>,
) -> Result<Question<'a>, Unasked>
    ensures { result ≡ joined asker target deed.entry }
{
    match (asker, target, deed) {
        (Err(fault), _, _) => Err(Unasked::From(fault)),
        (Ok(_), Err(fault), _) => Err(Unasked::To(fault)),
        (Ok(_), Ok(_), Err(unasked)) => Err(unasked),
        (Ok(asker), Ok(target), Ok(deed)) => question_by(asker, target, deed),
    }
}

/// The question that words ask under a configuration, or why they ask none.
fn question_of(
    config: &Config,
    from: &str,
    to: Option<&str>,
    deed: &DeedInWords<'_>,
) -> Result<Question<'static>, Unasked>
    ensures { IsQuestionOf config.now from.now (option_map (λ t. t.now) to.entry) (deed_text deed.now) result }
{
    let asker = station_of(config, from);
    let target = target_in(config, to);
    joined(asker, target, deed_of(deed))
}

/// Appends what is said of an option that names no station.
fn put_fault(text: &mut Vec<u8>, option: &[u8], fault: PlaceFault) -> Result<(), AllocError>
    ensures { IsAppended (option.now ++ place_words fault ++ codes "\n") text.old text.new result }
{
    put_slice(text, option)?;
    put_slice(text, fault.words().as_bytes())?;
    put_slice(text, b"\n")
}

/// Appends why words ask no question.
fn put_unasked(text: &mut Vec<u8>, unasked: Unasked) -> Result<(), AllocError>
    ensures { IsAppended (unasked_text unasked) text.old text.new result }
{
    match unasked {
        Unasked::From(fault) => put_fault(text, b"--from: ", fault),
        Unasked::To(fault) => put_fault(text, b"--to: ", fault),
        Unasked::Read => put_slice(
            text,
            b"--read takes TYPE,INSTANCE or TYPE,INSTANCE,PROPERTY\n",
        ),
        Unasked::Write => put_slice(
            text,
            b"--write takes TYPE,INSTANCE or TYPE,INSTANCE,PROPERTY, and --priority a number from 1 to 16\n",
        ),
        Unasked::OnePort => put_slice(
            text,
            b"--from and --to lie by one port: what they send each other doesn't pass the gateway\n",
        ),
        Unasked::Service => put_slice(
            text,
            b"--service takes a confirmed request, as SubscribeCOV\n",
        ),
        Unasked::OfDevice => put_slice(
            text,
            b"--service asks another station: of the gateway's own device ask by --read or --write\n",
        ),
        Unasked::Routed => put_slice(
            text,
            b"--from: a foreign device has an address: none behind a router registers\n",
        ),
        Unasked::Registrar => put_slice(
            text,
            b"--register takes no --to: the port of --from registers\n",
        ),
    }
}

/// What is said of words that ask no question.
fn answer_unasked(alloc: Global, unasked: Unasked) -> Result<QuestionAnswer, AllocError>
    ensures { IfOk result (λ answer. IsUnasked unasked answer.text.items answer.outcome) }
{
    let mut text = Vec::new(alloc);
    put_unasked(&mut text, unasked)?;
    Ok(QuestionAnswer {
        text,
        outcome: AnswerKind::Unasked,
    })
}

/// The answer to a question whether a station may do this with another.
fn answer_deed(
    alloc: Global,
    config: Config,
    from: &str,
    to: Option<&str>,
    deed: &DeedInWords<'_>,
) -> Result<QuestionAnswer, AllocError>
    ensures { let whom = option_map (λ t. t.now) to.entry in
        IfOk result (λ answer. IsDeedAnswered config from.now whom (deed_text deed.now) answer.text.items answer.outcome) }
{
    match question_of(&config, from, to, deed) {
        Ok(question) => answer_question(alloc, config, &question),
        Err(unasked) => answer_unasked(alloc, unasked),
    }
}

/// The answer to a question of one datagram, or why words ask none.
fn answer_call(
    alloc: Global,
    config: Config,
    call: Result<Call, Unasked>,
) -> Result<QuestionAnswer, AllocError>
    ensures { IfOk result (λ answer. IsCallAnswered config call answer.text.items answer.outcome) }
{
    match call {
        Ok(call) => answer_call_by(alloc, config, &call),
        Err(unasked) => answer_unasked(alloc, unasked),
    }
}

/// The answer to a question in words under a configuration, whose gateway has taken nothing yet; or why the words ask none.
/// An `Err` only if a growth of memory was refused.
pub fn answer_words(
    alloc: Global,
    config: Config,
    words: &QuestionWords<'_>,
) -> Result<QuestionAnswer, AllocError>
    ensures { IfOk result (λ answer. IsAnswerTo config (question_text words.now) answer.text.items answer.outcome) }
{
    match &words.subject {
        Subject::Deed(deed) => answer_deed(alloc, config, words.from, words.to, deed),
        Subject::WhoIs => {
            let call = who_is_of(&config, words.from, words.to);
            answer_call(alloc, config, call)
        }
        Subject::Registration => {
            let call = registration_of(&config, words.from, words.to);
            answer_call(alloc, config, call)
        }
    }
}
