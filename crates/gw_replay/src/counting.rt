//! The asks of a script, counted event by event.

ghost use Rattle.std.specs.Prelude.{◌≡◌, ◌≤◌, ◌+◌, ℕ, List, [], Some, length, IfOk, IfSome, OnOk};
ghost use Rattle.std.specs.Io.KnownBytes.{prepend_known};
ghost use Rattle.gw_addr.specs.declared.TheConstants.{MAX_PORTS};
ghost use Rattle.gw_core.specs.Asked.{asked_at};
ghost use Rattle.gw_core.specs.History.{next};
ghost use Rattle.gw_replay.specs.Decisions.{AreCountedFrom, IsNext, IsReport, entry_asked, fresh};
ghost use Rattle.gw_replay.specs.Entry.{entry_view, moved_by};
ghost use Rattle.gw_script.specs.Event.{event_view};
ghost use Rattle.gw_decisions.specs.tally.Tally.{IsTally, tally_text};
ghost use Rattle.gw_decisions.specs.Counted.{AreCounted};

use crate::entry::{ScriptEntry, parse_entry};
use gw_configuration::Config;
use gw_core::{Counts, Event, Gateway, SeenBy, Unguarded, take_event};
use gw_decisions::count_asked;
use gw_decisions::tally::{Tally, put_tally};
use gw_script::{LineReader, MAX_DATAGRAM, NextLine, OctetSource};
use std::alloc::{AllocError, Global};

/// The asks aren't counted: memory was refused, a read failed, or a count of the gateway is at its end.
#[derive(Drop)]
pub(crate) struct Uncounted;

/// What is kept from line to line.
#[derive(Drop)]
struct ScriptCounting {
    gateway: Gateway,
    lines: LineReader,
    datagram: [u8; MAX_DATAGRAM],
    tally: Tally,
}

/// How many asks of a script each rule of this configuration decides, in lines as `gw_decisions::tally` writes them: the asks of the
/// events of all its lines, or of those before the first that writes nothing, in a fresh gateway. `announce` asks nothing. `None` if
/// memory was refused, a read failed, or an event would pass the end of a count.
pub fn count_script<R: OctetSource>(
    alloc: Global,
    config: Config,
    reader: &mut R,
) -> Option<Vec<u8>>
    ensures { (script : List ℕ) → R.left reader.old ≡ Some script →
        IfSome result (λ text. IsReport config script text.items) }
{
    let Ok(mut counting) = ScriptCounting::new(alloc, config) else {
        return None;
    };
    let ports = counting.gateway.ports();
    let announces = counting.gateway.announces();
    let Ok(()) = counting.count_each(alloc, announces, ports, reader) else {
        return None;
    };
    counting.lines(alloc)
}

/// Has the gateway take an event, and counts its asks.
fn count_event(
    alloc: Global,
    gateway: &mut Gateway,
    event: &Event<'_>,
    tally: &mut Tally,
) -> Result<(), Uncounted>
    ensures moved { OnOk result (gateway.new ≡ next gateway.old (event_view event.now)) }
    ensures counted { OnOk result (AreCounted tally.old (asked_at gateway.old (event_view event.now)) tally.new) }
    ensures rules { gateway.new.rules ≡ gateway.old.rules }
    ensures places { length tally.new ≡ length tally.old }
{
    let decided = SeenBy { guard: &Unguarded };
    match take_event(alloc, gateway, event, &decided) {
        Ok(watched) => {
            count_asked(tally, &watched.asked);
            Ok(())
        }
        Err(_) => Err(Uncounted),
    }
}

/// Plays what a line writes, and counts its asks. An announcement has none.
fn count_entry(
    alloc: Global,
    gateway: &mut Gateway,
    entry: &ScriptEntry<'_>,
    tally: &mut Tally,
) -> Result<(), Uncounted>
    ensures moved { OnOk result (gateway.new ≡ moved_by gateway.old (entry_view entry.now)) }
    ensures counted { OnOk result (AreCounted tally.old (entry_asked gateway.old (entry_view entry.now)) tally.new) }
    ensures rules { gateway.new.rules ≡ gateway.old.rules }
    ensures places { length tally.new ≡ length tally.old }
{
    match entry {
        ScriptEntry::Comes(event) => count_event(alloc, gateway, event, tally),
        ScriptEntry::Announces => Ok(()),
    }
}

impl ScriptCounting {
    /// Nothing is counted yet, in a fresh gateway. An `Err` only if a growth of memory was refused.
    fn new(alloc: Global, config: Config) -> Result<ScriptCounting, AllocError>
        ensures state { IfOk result (λ counting. counting.gateway ≡ fresh config) }
        ensures unread { IfOk result (λ counting. counting.lines.unread ≡ []) }
        ensures none { IfOk result (λ counting. IsTally config.rules [] counting.tally) }
    {
        let counts = Counts {
            ticks: 0,
            denials: 0,
        };
        let gateway = Gateway::new(alloc, config, counts)?;
        let tally = Tally::new(alloc, gateway.rules())?;
        Ok(ScriptCounting {
            gateway,
            lines: LineReader::new(),
            datagram: [0; MAX_DATAGRAM],
            tally,
        })
    }

    /// The counts, in lines. `None` if a growth of memory was refused.
    fn lines(&self, alloc: Global) -> Option<Vec<u8>>
        requires { length self.now.tally ≡ length self.now.gateway.rules + 1 }
        ensures { IfSome result (λ text. text.items ≡ tally_text self.now.gateway.rules self.now.tally) }
    {
        let mut text = Vec::new(alloc);
        match put_tally(self.gateway.rules(), &self.tally, &mut text) {
            Ok(()) => Some(text),
            Err(_) => None,
        }
    }

    /// Counts the asks of all lines up to the first that writes no event.
    fn count_each<R: OctetSource>(
        &mut self,
        alloc: Global,
        announces: bool,
        ports: u8,
        reader: &mut R,
    ) -> Result<(), Uncounted>
        requires unread { self.old.lines.unread ≡ [] }
        requires ports { ports ≤ MAX_PORTS }
        ensures counted { (text : List ℕ) → R.left reader.old ≡ Some text →
            OnOk result (AreCountedFrom announces ports self.old.gateway text self.old.tally self.new.tally) }
        ensures rules { self.new.gateway.rules ≡ self.old.gateway.rules }
        ensures places { length self.new.tally ≡ length self.old.tally }
    {
        for _number in 1..u64::MAX {
            if !self.count_next(alloc, announces, ports, reader)? {
                return Ok(());
            }
        }
        Err(Uncounted)
    }

    /// Counts the asks of the next line. It answers whether there was one that writes an event.
    fn count_next<R: OctetSource>(
        &mut self,
        alloc: Global,
        announces: bool,
        ports: u8,
        reader: &mut R,
    ) -> Result<bool, Uncounted>
        requires ports { ports ≤ MAX_PORTS }
        ensures outcome { (text : List ℕ) →
            prepend_known self.old.lines.unread (R.left reader.old) ≡ Some text →
            IsNext announces ports text (prepend_known self.new.lines.unread (R.left reader.new))
            self.old.gateway self.new.gateway self.old.tally self.new.tally result }
        ensures rules { self.new.gateway.rules ≡ self.old.gateway.rules }
        ensures places { length self.new.tally ≡ length self.old.tally }
    {
        let (len, span) = match self.lines.find_line(reader) {
            Ok(NextLine::Line { len, span }) => (len, span),
            Ok(NextLine::Long) => return Ok(false),
            Ok(NextLine::End) => return Ok(false),
            Err(_) => return Err(Uncounted),
        };
        let line = self.lines.front(len);
        let Some((entry, _)) = parse_entry(announces, ports, line, &mut self.datagram) else {
            return Ok(false);
        };
        let Ok(()) = count_entry(alloc, &mut self.gateway, &entry, &mut self.tally) else {
            return Err(Uncounted);
        };
        self.lines.consume(span);
        Ok(true)
    }
}
