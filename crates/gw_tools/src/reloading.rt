//! A running gateway is asked to read its configuration again, to stop, or to say what it counts.

ghost use Rattle.std.specs.Prelude.{◌≡◌, ℕ, List, MatchResult};
ghost use Rattle.std.specs.Io.Buffered.{writer_contents};
ghost use Rattle.std.specs.Io.KnownBytes.{Appends};
ghost use Rattle.gw_ending.specs.Ending.{IsUnanswered};
ghost use Rattle.gw_ending.specs.reading.Files.{result_map};
ghost use Rattle.gw_tools.specs.Reloading.{IsAnswerTo, IsHeldTo, SaysAfter, SaysAsked, SaysAskedAgain, SaysReload, SaysReloadIn};
ghost use Rattle.gw_tools.specs.Reloading.{SaysStatus, SaysStopped, ShowsReload, answers_by, outcome_of_answer};
ghost use Rattle.gw_tools.specs.Saying.{SaysOf};

use crate::comparing::{Both, Layout, Limits, Seconds, Sides, say_compared};
use crate::machine::Machine;
use crate::placed::{octets_or, placed_in, placed_of};
use gw_ask_sets::assertions::{JUDGING_STEPS, judge};
use gw_configuration::Config;
use gw_ending::reading::{ConfigFiles, Said, configuration_of, do_hold, print_said, put_unheld};
use gw_ending::{Fault, Streams};
use gw_script::OctetSink;
use gw_system::{ReadFailure, STATUS_REQUEST, STOP_REQUEST, reload_request};
use gw_tool_line::Shown;
use std::alloc::Global;
use std::io::Write;

/// How many seconds an answer is waited for at most.
const MAX_WAIT: u8 = 10;

/// And if that is to be longer.
const LONG_WAIT: u8 = 240;

/// What is asked of a running gateway: by the file of which name, with which text, what its answer begins with if it did that,
/// and how many seconds that is waited for at most.
#[derive(Drop)]
struct Asking<'a> {
    request: &'a str,
    text: &'a [u8],
    granted: &'a str,
    seconds: u8,
}

/// Makes a request, and waits for its answer. Faults: `Request` if it can't be made, `NoAnswer`, and `Memory`.
fn ask<M: Machine>(alloc: Global, asking: &Asking<'_>, machine: &M) -> Result<Vec<u8>, Fault>
    ensures { IsAnswerTo (answers_by (M.Asks machine.now) M.Answers asking.now.request.now asking.now.text.now)
        (result_map (λ octets. octets.items) result) }
{
    match machine.make_request(alloc, asking.request, asking.text) {
        Ok(asked) => answer(alloc, &asked, asking.seconds, machine),
        Err(fault) => Err(Fault::of_request(fault)),
    }
}

/// Waits for the answer to a request. Faults: `NoAnswer`, and `Memory`.
fn answer<M: Machine>(
    alloc: Global,
    asked: &M::Asked,
    seconds: u8,
    machine: &M,
) -> Result<Vec<u8>, Fault>
    ensures { MatchResult result (λ answer. M.Answers asked.now answer.items) IsUnanswered }
{
    match machine.await_answer(alloc, asked, seconds) {
        Ok(Some(answer)) => Ok(answer),
        Ok(None) | Err(ReadFailure::Unreadable(_)) => Err(Fault::NoAnswer),
        Err(ReadFailure::Memory) => Err(Fault::Memory),
    }
}

/// How a request ends by this answer: `Refused` unless it begins with what says that it was done.
fn outcome_of(granted: &str, answer: &[u8]) -> Result<(), Fault>
    ensures { result ≡ outcome_of_answer granted.now answer.now }
{
    if answer.starts_with(granted.as_bytes()) {
        Ok(())
    } else {
        Err(Fault::Refused)
    }
}

/// Makes a request, and says its answer. Faults: those of [`ask`].
fn say_asked<M: Machine>(alloc: Global, asking: &Asking<'_>, machine: &M) -> Result<Said, Fault>
    ensures { SaysAsked (answers_by (M.Asks machine.now) M.Answers asking.now.request.now asking.now.text.now)
        asking.now.granted.now result }
{
    let answer = ask(alloc, asking, machine)?;
    let ends = outcome_of(asking.granted, &answer);
    Ok(Said::ending(answer, ends))
}

/// Asks the gateway that looks for this request to stop, and says what it answers.
pub fn stop<M: Machine>(
    alloc: Global,
    request: &str,
    waits: bool,
    machine: &M,
) -> Result<Said, Fault>
    ensures { SaysStopped (answers_by (M.Asks machine.now) M.Answers) request.now result }
{
    let asking = Asking {
        request,
        text: STOP_REQUEST,
        granted: "stopped\n",
        seconds: if waits { LONG_WAIT } else { MAX_WAIT },
    };
    say_asked(alloc, &asking, machine)
}

/// Asks the gateway that looks for this request what it counts, and says what it answers.
pub fn status<M: Machine>(
    alloc: Global,
    request: &str,
    waits: bool,
    machine: &M,
) -> Result<Said, Fault>
    ensures { SaysStatus (answers_by (M.Asks machine.now) M.Answers) request.now result }
{
    let asking = Asking {
        request,
        text: STATUS_REQUEST,
        granted: "stats ",
        seconds: if waits { LONG_WAIT } else { MAX_WAIT },
    };
    say_asked(alloc, &asking, machine)
}

/// A configuration that is to be read again: the name of the request, the configuration's text, and the machine by which the
/// gateway is asked.
#[derive(Drop)]
struct Reloading<'a, M> {
    request: &'a str,
    text: &'a [u8],
    machine: &'a M,
}

/// Asks to read a configuration again, and says the answer.
fn ask_again<M: Machine>(alloc: Global, asked: &Reloading<'_, M>) -> Result<Said, Fault>
    ensures { SaysAskedAgain (answers_by (M.Asks asked.now.machine.now) M.Answers) asked.now.request.now asked.now.text.now result }
{
    let line = reload_request(alloc, asked.text)?;
    let asking = Asking {
        request: asked.request,
        text: &line,
        granted: "reload: ",
        seconds: MAX_WAIT,
    };
    say_asked(alloc, &asking, asked.machine)
}

/// What is said of a configuration whose assertions don't all hold: a line for each that doesn't, and `Broken`. `Memory` is its only
/// fault.
fn refuse_unsound(alloc: Global, config: &Config) -> Result<Option<Said>, Fault>
    ensures { IsHeldTo config.now result }
{
    let judged = judge(alloc, config, JUDGING_STEPS)?;
    if do_hold(&judged) {
        return Ok(None);
    }
    let mut lines = Vec::new(alloc);
    put_unheld(&mut lines, config, &judged)?;
    Ok(Some(Said::ending(lines, Err(Fault::Broken))))
}

/// Asks the gateway that runs under the configuration that was read to read it again, if its assertions hold.
fn reload<M: Machine>(
    alloc: Global,
    config: Result<Config, Fault>,
    asked: &Reloading<'_, M>,
) -> Result<Said, Fault>
    ensures { SaysOf (SaysReload (answers_by (M.Asks asked.now.machine.now) M.Answers) asked.now.request.now asked.now.text.now)
        config result }
{
    let config = config?;
    match refuse_unsound(alloc, &config)? {
        Some(refused) => Ok(refused),
        None => ask_again(alloc, asked),
    }
}

/// Asks to read a configuration again after a comparison that ended so. One that isn't finished, or finds something, is no fault.
fn ask_after<M: Machine>(
    alloc: Global,
    compared: Result<(), Fault>,
    asked: &Reloading<'_, M>,
) -> Result<Said, Fault>
    ensures { SaysAfter (answers_by (M.Asks asked.now.machine.now) M.Answers) asked.now.request.now asked.now.text.now compared result }
{
    if let Err(fault) = compared {
        if !fault.is_different() {
            return Err(fault);
        }
    }
    ask_again(alloc, asked)
}

/// Prints what the new configuration changes of the old one, and then asks as [`reload`] does.
fn reload_shown<M: Machine, R, W: Write + Drop, E: OctetSink>(
    alloc: Global,
    both: Both,
    asked: &Reloading<'_, M>,
    most: u64,
    streams: &mut Streams<R, W, E>,
) -> Result<Said, Fault>
    ensures shown { let was = streams.old in
        let is = streams.new in
        (reported : List ℕ) × ShowsReload (answers_by (M.Asks asked.now.machine.now) M.Answers) asked.now.request.now asked.now.text.now
        most (writer_contents W.contents was.output) (writer_contents W.contents is.output) reported both.old both.new result
        × (E.NeverFails was.errors → Appends (E.held was.errors) (E.held is.errors) reported) }
    ensures lasts { E.NeverFails streams.old.errors → E.NeverFails streams.new.errors }
{
    let new = both.new?;
    if let Some(refused) = refuse_unsound(alloc, &new.config)? {
        return Ok(refused);
    }
    match both.old {
        Ok(old) => {
            let limits = Limits {
                most,
                layout: Layout::Text { steps: false },
            };
            let mut seconds = Seconds::new(asked.machine.calendar());
            let sides = Sides {
                old: &old,
                new: &new,
            };
            let compared = say_compared(alloc, limits, &sides, &mut seconds, &mut streams.errors);
            let shown = print_said(compared, &mut streams.output);
            ask_after(alloc, shown, asked)
        }
        Err(fault) => Err(fault.of_other()),
    }
}

/// What `reload` is asked for: the files of the configuration and of the request, and what is compared first.
#[derive(Drop)]
pub struct AskedReload<'a> {
    pub config: &'a str,
    pub request: &'a str,
    pub was: &'a Option<Shown>,
}

/// Asks the gateway that runs under the configuration of a file to read it again, if its assertions hold; after what that changes of
/// the configuration in another file was printed, if one is named. What it says is still to be printed.
pub fn reload_in<F: ConfigFiles, M: Machine, R, W: Write + Drop, E: OctetSink>(
    alloc: Global,
    files: &F,
    asking: &AskedReload<'_>,
    machine: &M,
    streams: &mut Streams<R, W, E>,
) -> Result<Said, Fault>
    ensures reloaded { let was = streams.old in
        let is = streams.new in
        (reported : List ℕ) × SaysReloadIn (F.Reads files.now) (answers_by (M.Asks machine.now) M.Answers)
        asking.now.config.now asking.now.request.now asking.now.was.now
        (writer_contents W.contents was.output) (writer_contents W.contents is.output) reported result
        × (E.NeverFails was.errors → Appends (E.held was.errors) (E.held is.errors) reported) }
    ensures lasts { E.NeverFails streams.old.errors → E.NeverFails streams.new.errors }
{
    let text = files.read(alloc, asking.config);
    let asked = Reloading {
        request: asking.request,
        text: octets_or(&text),
        machine,
    };
    match asking.was {
        Some(shown) => {
            let old = placed_in(alloc, files, &shown.old);
            let new = placed_of(alloc, &text);
            let both = Both { old, new };
            reload_shown(alloc, both, &asked, shown.most, streams)
        }
        None => reload(alloc, configuration_of(alloc, &text), &asked),
    }
}
