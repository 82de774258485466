//! A question whether a station may do something.

ghost use Rattle.std.specs.Prelude.{◌≡◌, option_map, string_bytes};
ghost use Rattle.gw_tools.specs.Questioning.{SaysAnswer, asked_text, outcome_of_answer, subject_text};
ghost use Rattle.gw_tools.specs.Saying.{SaysOf};
ghost use Rattle.gw_verdicts.specs.questions.Words.{question_text, subject_text as subject_said};

use gw_configuration::Config;
use gw_ending::Fault;
use gw_ending::reading::Said;
use gw_tool_line::DeedWords;
use gw_verdicts::questions::{AnswerKind, DeedInWords, QuestionWords, Subject, answer_words};
use std::alloc::Global;

/// A question in the words of a call.
#[derive(Clone, Copy)]
pub struct Questioned<'a> {
    /// Who asks.
    pub from: &'a str,
    /// Who is asked, if that is said.
    pub to: &'a Option<String>,
    /// What for.
    pub deed: &'a DeedWords,
}

/// The text of a string, if there is one.
fn text_if(text: &Option<String>) -> Option<&str>
    ensures { option_map (λ t. t.now) result ≡ option_map string_bytes text.now }
{
    match text {
        Some(text) => Some(text.as_str()),
        None => None,
    }
}

/// What is asked for.
fn subject_of(deed: &DeedWords) -> Subject<'_>
    ensures { subject_said result ≡ subject_text deed.now }
{
    match deed {
        DeedWords::Read(object) => Subject::Deed(DeedInWords::Read(object.as_str())),
        DeedWords::Write { object, priority } => {
            let priority = text_if(priority);
            Subject::Deed(DeedInWords::Write(object.as_str(), priority))
        }
        DeedWords::Serve(service) => Subject::Deed(DeedInWords::Serve(service.as_str())),
        DeedWords::WhoIs => Subject::WhoIs,
        DeedWords::Register => Subject::Registration,
    }
}

/// The question.
fn words_of<'a>(asked: &Questioned<'a>) -> QuestionWords<'a>
    ensures { question_text result ≡ asked_text asked.now.from.now (option_map string_bytes asked.now.to.now) asked.now.deed.now }
{
    QuestionWords {
        from: asked.from,
        to: text_if(asked.to),
        subject: subject_of(asked.deed),
    }
}

/// How the program ends after an answer.
fn outcome_of(outcome: AnswerKind) -> Result<(), Fault>
    ensures { result ≡ outcome_of_answer outcome }
{
    match outcome {
        AnswerKind::Yes => Ok(()),
        AnswerKind::No => Err(Fault::NotAllowed),
        AnswerKind::Unasked => Err(Fault::CommandLine),
    }
}

/// What `ask` says under the configuration that was read. Faults: why there is none, and `Memory`.
pub fn say_answer(
    alloc: Global,
    config: Result<Config, Fault>,
    asked: &Questioned<'_>,
) -> Result<Said, Fault>
    ensures { let words = asked_text asked.now.from.now (option_map string_bytes asked.now.to.now) asked.now.deed.now in
        SaysOf (SaysAnswer words) config result }
{
    let config = config?;
    let answer = answer_words(alloc, config, &words_of(asked))?;
    Ok(Said::ending(answer.text, outcome_of(answer.outcome)))
}
