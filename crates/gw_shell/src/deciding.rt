//! A script that is played, and how many of its asks each rule decides.

ghost use Rattle.std.specs.Prelude.{◌≡◌, ℕ, List, [], Ok, Some, false, option_map, string_bytes, IfErr, IfOk, OnOk};
ghost use Rattle.std.specs.Io.Buffered.{writer_buffer, writer_contents};
ghost use Rattle.std.specs.Io.KnownBytes.{Appends, IsAtEnd, Keeps, prepend_known};
ghost use Rattle.gw_configuration.specs.Configuration.{Configuration};
ghost use Rattle.gw_script.specs.Known.{OnKnown};
ghost use Rattle.gw_ending.specs.reading.Configured.{IsConfigurationOf};
ghost use Rattle.gw_shell.specs.Deciding.{IsDecided, IsDecidedAt, IsTextFor, IsUnread, decisions_text};
ghost use Rattle.gw_ending.specs.reading.Files.{result_map};
ghost use Rattle.gw_shell.specs.Program.{LeavesCounted, LeavesPlayed, LeavesPlayedIn};
ghost use Rattle.gw_shell.specs.Replay.{Plays};

use crate::replaying::replay;
use gw_configuration::Config;
use gw_ending::reading::{ConfigFiles, configuration, configuration_of};
use gw_ending::{Fault, Streams};
use gw_notices::write_note;
use gw_policy_text::SETTING;
use gw_replay::count_script;
use gw_script::{OctetSink, OctetSource};
use std::alloc::Global;
use std::io::{BufWriter, Write};

/// How many octets of a script are read at once.
const CHUNK: usize = 4096;

/// What is reported of the asks of a script.
#[derive(Drop)]
pub enum Decisions {
    /// A line for each rule, and one for no rule.
    Counted(Vec<u8>),
    /// They aren't counted, since memory was refused.
    Uncounted,
    /// Nothing.
    Silent,
}

impl Decisions {
    /// What is written of them.
    pub fn as_bytes(&self) -> &[u8]
        ensures { result.now ≡ decisions_text self.now }
    {
        match self {
            Decisions::Counted(lines) => lines,
            Decisions::Uncounted => b"bacgw: asks aren't counted: out of memory\n",
            Decisions::Silent => b"",
        }
    }
}

/// How a replay ended, and what is reported of its asks.
#[derive(Drop)]
pub struct Counted {
    pub outcome: Result<(), Fault>,
    pub decisions: Decisions,
}

impl Counted {
    /// Nothing was played, and this is why.
    fn failed(fault: Fault) -> Counted
        ensures outcome { result.outcome ≡ Err fault }
        ensures silent { decisions_text result.decisions ≡ [] }
    {
        Counted {
            outcome: Err(fault),
            decisions: Decisions::Silent,
        }
    }
}

/// The text of the configuration in the file of this name, or the built-in one if none is named. Faults: those of reading
/// the file, and `Memory`.
pub fn text_for<F: ConfigFiles>(
    alloc: Global,
    files: &F,
    name: &Option<String>,
) -> Result<Vec<u8>, Fault>
    ensures { IsTextFor (F.Reads files.now) (option_map string_bytes name.now)
        (result_map (λ octets. octets.items) result) }
{
    match name {
        Some(name) => files.read(alloc, name.as_str()),
        None => Ok(Vec::from_slice(alloc, SETTING.as_bytes())?),
    }
}

/// Reads on, and answers whether something came. Faults: `Read` and `Memory`.
fn read_chunk<R: OctetSource>(input: &mut R, script: &mut Vec<u8>) -> Result<bool, Fault>
    ensures text { OnOk result (Keeps (prepend_known script.old.items (R.left input.old))
        (prepend_known script.new.items (R.left input.new))) }
    ensures end { result ≡ Ok false → IsAtEnd (R.left input.new) }
    ensures fault { IfErr result IsUnread }
{
    let mut chunk = [0; CHUNK];
    let Ok(count) = input.read_octets(&mut chunk) else {
        return Err(Fault::Read);
    };
    if count == 0 {
        return Ok(false);
    }
    match script.extend_from_slice(&chunk[..count]) {
        Ok(()) => Ok(true),
        Err(_) => Err(Fault::Memory),
    }
}

/// All octets that `input` has left. Faults: `Read` and `Memory`.
fn read_script<R: OctetSource>(alloc: Global, input: &mut R) -> Result<Vec<u8>, Fault>
    ensures octets { (script : List ℕ) → R.left input.old ≡ Some script →
        IfOk result (λ octets. octets.items ≡ script) }
    ensures fault { IfErr result IsUnread }
{
    let mut script = Vec::new(alloc);
    for _chunk in 0..u64::MAX {
        match read_chunk(input, &mut script) {
            Ok(true) => {}
            Ok(false) => return Ok(script),
            Err(fault) => return Err(fault),
        }
    }
    Err(Fault::Read)
}

/// Plays a script that was read.
fn play_script<W: Write + Drop>(
    alloc: Global,
    explains: bool,
    config: Config,
    script: &[u8],
    output: &mut BufWriter<W>,
) -> Result<(), Fault>
    ensures plays { OnKnown (Some script.now) (writer_contents W.contents output.old)
        (writer_contents W.contents output.new)
        (λ script before. Plays explains config script before result) }
    ensures flush { OnOk result (writer_buffer output.new ≡ []) }
{
    let mut reader = script;
    replay(alloc, explains, config, &mut reader, output)
}

/// How many asks of a script each rule of the configuration of this text decides.
fn decide(alloc: Global, text: &Result<Vec<u8>, Fault>, script: &[u8]) -> Decisions
    ensures { (c : Configuration) → IsConfigurationOf (result_map (λ octets. octets.items) text.now) (Ok c) →
        IsDecided c script.now (decisions_text result) }
{
    let Ok(config) = configuration_of(alloc, text) else {
        return Decisions::Uncounted;
    };
    let mut reader = script;
    match count_script(alloc, config, &mut reader) {
        Some(lines) => Decisions::Counted(lines),
        None => Decisions::Uncounted,
    }
}

/// The same after a replay with this outcome: nothing if it ended before the last event, at another fault than that of a
/// line.
fn decide_after(
    alloc: Global,
    text: &Result<Vec<u8>, Fault>,
    script: &[u8],
    outcome: Result<(), Fault>,
) -> Decisions
    ensures { (c : Configuration) → IsConfigurationOf (result_map (λ octets. octets.items) text.now) (Ok c) →
        IsDecidedAt c script.now outcome (decisions_text result) }
{
    match outcome {
        Ok(()) | Err(Fault::Line(_)) | Err(Fault::FlawedLine(_, _)) => decide(alloc, text, script),
        Err(_) => Decisions::Silent,
    }
}

/// Plays the script that `input` has left under the configuration of this text as [`replay`] does, and counts which rule
/// decides each of its asks. The script is read to its end first. Faults: those of the configuration, and of the replay.
pub fn replay_counting<R: OctetSource, W: Write + Drop>(
    alloc: Global,
    explains: bool,
    text: &Result<Vec<u8>, Fault>,
    input: &mut R,
    output: &mut BufWriter<W>,
) -> Counted
    ensures output { LeavesCounted explains (result_map (λ octets. octets.items) text.now) (R.left input.old)
        (writer_contents W.contents output.old) (writer_contents W.contents output.new)
        result.outcome (decisions_text result.decisions) }
    ensures flush { OnOk result.outcome (writer_buffer output.new ≡ []) }
{
    let config = match configuration_of(alloc, text) {
        Ok(config) => config,
        Err(fault) => return Counted::failed(fault),
    };
    let script = match read_script(alloc, input) {
        Ok(script) => script,
        Err(fault) => return Counted::failed(fault),
    };
    let outcome = play_script(alloc, explains, config, &script, output);
    let decisions = decide_after(alloc, text, &script, outcome);
    Counted { outcome, decisions }
}

/// Plays the script under a configuration, and reports its asks if `explains`.
fn play<R: OctetSource, W: Write + Drop>(
    alloc: Global,
    explains: bool,
    config: Result<Config, Fault>,
    input: &mut R,
    output: &mut BufWriter<W>,
) -> Result<(), Fault>
    ensures output { LeavesPlayed explains (R.left input.old) (writer_contents W.contents output.old)
        (writer_contents W.contents output.new) config result }
    ensures flush { OnOk result (writer_buffer output.new ≡ []) }
{
    replay(alloc, explains, config?, input, output)
}

/// Plays the script of standard input under the configuration of this text, and reports which rule decides each of its
/// asks.
fn play_counting<R: OctetSource, W: Write + Drop, E: OctetSink>(
    alloc: Global,
    explains: bool,
    text: &Result<Vec<u8>, Fault>,
    streams: &mut Streams<R, W, E>,
) -> Result<(), Fault>
    ensures counted { let was = streams.old in
        let is = streams.new in
        (said : List ℕ) × LeavesCounted explains (result_map (λ octets. octets.items) text.now)
        (R.left was.input) (writer_contents W.contents was.output) (writer_contents W.contents is.output) result said
        × (E.NeverFails was.errors → Appends (E.held was.errors) (E.held is.errors) said) }
    ensures lasting { E.NeverFails streams.old.errors → E.NeverFails streams.new.errors }
    ensures flush { OnOk result (writer_buffer streams.new.output ≡ []) }
{
    let counted = replay_counting(
        alloc,
        explains,
        text,
        &mut streams.input,
        &mut streams.output,
    );
    write_note(counted.decisions.as_bytes(), &mut streams.errors);
    counted.outcome
}

/// How a script is played.
#[derive(Clone, Copy)]
pub struct Playing {
    /// Whether it is said of each ask which rule decides it.
    pub explains: bool,
    /// Whether it is reported at the end how many asks each rule decided.
    pub counts: bool,
}

/// Plays the script of standard input under the configuration in the file of this name, or the built-in one.
pub fn play_in<F: ConfigFiles, R: OctetSource, W: Write + Drop, E: OctetSink>(
    alloc: Global,
    files: &F,
    file: &Option<String>,
    how: Playing,
    streams: &mut Streams<R, W, E>,
) -> Result<(), Fault>
    ensures played { let was = streams.old in
        let is = streams.new in
        (said : List ℕ) × LeavesPlayedIn (F.Reads files.now) (option_map string_bytes file.now) how
        (R.left was.input) (writer_contents W.contents was.output) (writer_contents W.contents is.output) said result
        × (E.NeverFails was.errors → Appends (E.held was.errors) (E.held is.errors) said) }
    ensures lasting { E.NeverFails streams.old.errors → E.NeverFails streams.new.errors }
    ensures flush { OnOk result (writer_buffer streams.new.output ≡ []) }
{
    let Playing { explains, counts } = how;
    if counts {
        let text = text_for(alloc, files, file);
        play_counting(alloc, explains, &text, streams)
    } else {
        let config = configuration(alloc, files, file);
        play(
            alloc,
            explains,
            config,
            &mut streams.input,
            &mut streams.output,
        )
    }
}
