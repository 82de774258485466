//! The replay of a script: its events one by one through a fresh gateway, and the text of what
//! they do.

ghost use Rattle.std.specs.Prelude.{◌≡◌, ◌+◌, ◌*◌, ◌<◌, ◌≤◌, ℕ, List, [], length, Ok, Some, IfOk, IsErrOf, true, vec_capacity};
ghost use Rattle.std.specs.Io.KnownBytes.{prepend_known};
ghost use Rattle.gw_script.specs.Reader.{IsPaid};
ghost use Rattle.gw_configuration.specs.Configuration.{Configuration};
ghost use Rattle.gw_core.specs.History.{IsStateAfter, no_counts};
ghost use Rattle.gw_replay.specs.Explained.{explained_text};
ghost use Rattle.gw_replay.specs.Shown.{event_text};
ghost use Rattle.gw_replay.specs.Replay.{Replays};
ghost use Rattle.gw_script.specs.Known.{IsShorter, OnKnown};
ghost use Rattle.gw_replay.specs.internal.LineOutcome.{OnKnownLine};
ghost use Rattle.gw_replay.specs.Flawed.{HasFlaw, IsFirstFlaw};

use crate::entry::parse_entry_for;
use crate::event_writer::{EventText, Explaining, Plain, make_entry_text};
use gw_configuration::Config;
use gw_core::{Counts, Gateway, Taken};
use gw_script::{
    LineFlaw, LineReader, MAX_DATAGRAM, NextLine, OctetSink, OctetSource, flaw_of, write_whole,
};
use std::alloc::{AllocError, Global};
use thiserror::Error;

/// How many octets of text there is room for at the start.
const TEXT_ROOM: usize = 4096;

/// Why a replay ends before its script does.
#[derive(Clone, Copy, Debug, Error)]
pub enum RunFault {
    /// 1: a read failed, or there were 4,294,967,295 reads.
    #[error("read failed")]
    Read,
    /// 2: the line of this number, from 1, writes no event, and isn't `announce` to a gateway that announces.
    #[error("line {0}")]
    Line(u64),
    /// 3: a write failed, or took nothing.
    #[error("write failed")]
    Write,
    /// 4: a growth was refused.
    #[error("out of memory")]
    Memory,
    /// 5: the count of ticks or the number of the last denial would pass 2^63.
    #[error("count at its end")]
    CountEnd,
}

/// An empty text with the room that there is at the start.
fn empty_text(alloc: Global) -> Result<Vec<u8>, AllocError>
    ensures empty { IfOk result (λ text. text.items ≡ []) }
    ensures room { IfOk result (λ text. vec_capacity text ≡ 4096) }
{
    Vec::with_capacity(alloc, TEXT_ROOM)
}

/// What a replay keeps from line to line, and what is wrong with the line that ends it.
#[derive(Drop)]
struct ScriptRun {
    gateway: Gateway,
    lines: LineReader,
    datagram: [u8; MAX_DATAGRAM],
    text: Vec<u8>,
    flaw: LineFlaw,
    ghost room: { 4 ≤ vec_capacity text },
}

/// Runs the events of a script through a fresh gateway of this configuration, whose counts start at
/// 0, and writes what each of them does before it takes up the next line. The writer isn't flushed.
///
/// A line is `tick`, or the number of a port, whom a datagram comes from and its octets, and ends
/// with a line feed, which the last may lack. It has at most 4096 octets without it.
///
/// ```text
/// tick
/// 1 192.168.1.5:47808 810A0016012400640101FF0005070C0C014000011955
/// 1 192.168.1.5:47808 -
/// ```
///
/// For a configuration that announces a line is also `announce`, which is no event and changes nothing.
///
/// For each event there is a line for each of its denials, `deny ` and the line of the log, then one
/// for each of its sends, and then `end`.
///
/// ```text
/// deny 1 0 1 1:C0A80105BAC0 read dst=100 svc=12 obj=5,2 prop=85 prio=- rule=hide
/// send 1 192.168.1.5:47808 810A001101080064010150080C9102911B
/// end
/// ```
///
/// For `announce` there is a line for each datagram by which the gateway tells each port, in order, which networks it leads to, and
/// then `end`.
///
/// # Errors
///
/// 1 `Read` where a read failed, or there were 4,294,967,295. 2 `Line` with the number, from 1, of
/// the first line that writes neither. 3 `Write` where a write failed or took nothing. 4 `Memory`
/// where a growth was refused. 5 `CountEnd` where an event would pass the end of a count. What some
/// first events do is then written, whole; of it, at `Write` alone, perhaps only a front.
pub fn replay<R: OctetSource, W: OctetSink>(
    alloc: Global,
    config: Config,
    reader: &mut R,
    writer: &mut W,
) -> Result<(), RunFault>
    // What is written then, where the octets of the reader and the writer are known.
    ensures run { OnKnown (R.left reader.old) (W.held writer.old) (W.held writer.new)
        (Replays event_text config result) }
    // What never fails doesn't end the replay: a reader, of a script of less than 2 GiB, and a
    // writer.
    ensures sure_reader { R.NeverFails reader.old → (script : List ℕ) →
        R.left reader.old ≡ Some script → 2 * length script + 1 < 4294967295 →
        ¬ (IsErrOf result RunFault.Read) }
    ensures sure_writer { W.NeverFails writer.old → ¬ (IsErrOf result RunFault.Write) }
    // It ends after so many reads at the latest.
    ensures few { R.reads reader.new ≤ R.reads reader.old + 4294967295 }
{
    let mut flaw = LineFlaw::Form;
    let taken = Taken::nothing(alloc);
    replay_with(&mut Plain { taken }, config, reader, writer, &mut flaw)
}

/// As [`replay`], and before the lines of what an event does there is one for each of its asks, allowed or
/// denied, in the order of the steps: `ask `, what was asked as a line of the log shows it, and what the
/// policy says, with the number and the name of the first rule that matches, or `deny default` where none
/// does.
///
/// ```text
/// ask 1:C0A80105BAC0 read dst=100 svc=12 obj=5,2 prop=85 prio=- deny rule 1 hide
/// deny 1 0 1 1:C0A80105BAC0 read dst=100 svc=12 obj=5,2 prop=85 prio=- rule=hide
/// send 1 192.168.1.5:47808 810A001101080064010150080C9102911B
/// end
/// ```
///
/// At `Line` it also says what is wrong with that line.
pub fn replay_explaining<R: OctetSource, W: OctetSink>(
    alloc: Global,
    config: Config,
    reader: &mut R,
    writer: &mut W,
    flaw: &mut LineFlaw,
) -> Result<(), RunFault>
    // What is written then, as of `replay`, and what is wrong with the line that ends it.
    ensures run { OnKnown (R.left reader.old) (W.held writer.old) (W.held writer.new)
        (Replays explained_text config result) }
    ensures flaw { (n : ℕ) → IsErrOf result (RunFault.Line n) →
        OnKnown (R.left reader.old) (W.held writer.old) (W.held writer.new)
        (λ script before after. HasFlaw (length config.ports) n script flaw.new) }
    ensures sure_reader { R.NeverFails reader.old → (script : List ℕ) →
        R.left reader.old ≡ Some script → 2 * length script + 1 < 4294967295 →
        ¬ (IsErrOf result RunFault.Read) }
    ensures sure_writer { W.NeverFails writer.old → ¬ (IsErrOf result RunFault.Write) }
    // It ends after so many reads at the latest.
    ensures few { R.reads reader.new ≤ R.reads reader.old + 4294967295 }
{
    let taken = Taken::nothing(alloc);
    replay_with(&mut Explaining { taken }, config, reader, writer, flaw)
}

/// Runs the events of a script through a fresh gateway, and reports each by `event_writer`. It is a function of its own, so
/// that what calls it takes none of its loop's registers.
#[inline(never)]
fn replay_with<T: EventText, R: OctetSource, W: OctetSink>(
    event_writer: &mut T,
    config: Config,
    reader: &mut R,
    writer: &mut W,
    flaw: &mut LineFlaw,
) -> Result<(), RunFault>
    ensures run { OnKnown (R.left reader.old) (W.held writer.old) (W.held writer.new)
        (Replays T.wording config result) }
    ensures flaw { (n : ℕ) → IsErrOf result (RunFault.Line n) →
        OnKnown (R.left reader.old) (W.held writer.old) (W.held writer.new)
        (λ script before after. HasFlaw (length config.ports) n script flaw.new) }
    ensures sure_reader { R.NeverFails reader.old → (script : List ℕ) →
        R.left reader.old ≡ Some script → 2 * length script + 1 < 4294967295 →
        ¬ (IsErrOf result RunFault.Read) }
    ensures sure_writer { W.NeverFails writer.old → ¬ (IsErrOf result RunFault.Write) }
    // It ends after so many reads at the latest.
    ensures few { R.reads reader.new ≤ R.reads reader.old + 4294967295 }
{
    let alloc = event_writer.alloc();
    let counts = Counts {
        ticks: 0,
        denials: 0,
    };
    let Ok(gateway) = Gateway::new(alloc, config, counts) else {
        return Err(RunFault::Memory);
    };
    let Ok(text) = empty_text(alloc) else {
        return Err(RunFault::Memory);
    };
    let mut run = ScriptRun {
        gateway,
        lines: LineReader::new(),
        datagram: [0; MAX_DATAGRAM],
        text,
        flaw: *flaw,
    };
    let done = run.replay_script(event_writer, reader, writer);
    *flaw = run.flaw;
    done
}

impl ScriptRun {
    /// Replays each line, in order.
    fn replay_script<T: EventText, R: OctetSource, W: OctetSink>(
        &mut self,
        event_writer: &mut T,
        reader: &mut R,
        writer: &mut W,
    ) -> Result<(), RunFault>
        requires unread { self.old.lines.unread ≡ [] }
        requires calls { self.old.lines.calls ≡ 0 }
        ensures run { (c : Configuration) → IsStateAfter self.old.gateway c no_counts [] →
            OnKnown (R.left reader.old) (W.held writer.old) (W.held writer.new)
            (Replays T.wording c result) }
        ensures flaw { (c : Configuration) (n : ℕ) → IsStateAfter self.old.gateway c no_counts [] →
            IsErrOf result (RunFault.Line n) →
            OnKnown (R.left reader.old) (W.held writer.old) (W.held writer.new)
            (λ script before after. HasFlaw (length c.ports) n script self.new.flaw) }
        ensures sure_reader { R.NeverFails reader.old → (script : List ℕ) →
            R.left reader.old ≡ Some script → 2 * length script + 1 < 4294967295 →
            ¬ (IsErrOf result RunFault.Read) }
        ensures sure_writer { W.NeverFails writer.old → ¬ (IsErrOf result RunFault.Write) }
        ensures few { R.reads reader.new ≤ R.reads reader.old + 4294967295 }
    {
        for number in 1..u64::MAX {
            if !self.replay_line(event_writer, number, reader, writer)? {
                return Ok(());
            }
        }
        Err(RunFault::Read)
    }

    /// Replays the line of this number. It answers whether there was one.
    fn replay_line<T: EventText, R: OctetSource, W: OctetSink>(
        &mut self,
        event_writer: &mut T,
        number: u64,
        reader: &mut R,
        writer: &mut W,
    ) -> Result<bool, RunFault>
        ensures outcome { OnKnownLine T.wording number self.old.gateway self.new.gateway
            (prepend_known self.old.lines.unread (R.left reader.old))
            (prepend_known self.new.lines.unread (R.left reader.new))
            (W.held writer.old) (W.held writer.new) result }
        ensures flaw { (n : ℕ) → IsErrOf result (RunFault.Line n) → (text : List ℕ) →
            prepend_known self.old.lines.unread (R.left reader.old) ≡ Some text →
            IsFirstFlaw (length self.old.gateway.relay.ports) text self.new.flaw }
        ensures shorter { (text : List ℕ) →
            prepend_known self.old.lines.unread (R.left reader.old) ≡ Some text → result ≡ Ok true →
            IsShorter text (prepend_known self.new.lines.unread (R.left reader.new)) }
        ensures paid { IsPaid self.old.lines.calls (R.left reader.old)
            self.new.lines.calls (R.left reader.new) }
        ensures sure_reader { R.NeverFails reader.old → IsErrOf result RunFault.Read →
            self.new.lines.calls ≡ 4294967295 }
        ensures sure_writer { W.NeverFails writer.old → ¬ (IsErrOf result RunFault.Write) }
        ensures lasting_reader { R.NeverFails reader.old → R.NeverFails reader.new }
        ensures lasting_writer { W.NeverFails writer.old → W.NeverFails writer.new }
        ensures counted { R.reads reader.new + self.old.lines.calls ≤ R.reads reader.old + self.new.lines.calls }
        ensures most { self.old.lines.calls ≤ 4294967295 → self.new.lines.calls ≤ 4294967295 }
    {
        let (len, span) = match self.lines.find_line(reader) {
            Ok(NextLine::Line { len, span }) => (len, span),
            Ok(NextLine::Long) => {
                self.flaw = LineFlaw::Long;
                return Err(RunFault::Line(number));
            }
            Ok(NextLine::End) => return Ok(false),
            Err(_) => return Err(RunFault::Read),
        };
        let line = self.lines.front(len);
        let ports = self.gateway.ports();
        let datagram = &mut self.datagram;
        let Some((entry, sender)) = parse_entry_for(&self.gateway, ports, line, datagram) else {
            self.flaw = flaw_of(ports, line);
            return Err(RunFault::Line(number));
        };
        make_entry_text(
            event_writer,
            &mut self.gateway,
            &entry,
            &sender,
            &mut self.text,
        )?;
        let Ok(()) = write_whole(writer, &self.text) else {
            return Err(RunFault::Write);
        };
        self.lines.consume(span);
        Ok(true)
    }
}
