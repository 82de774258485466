//! A log beside the log, whose failures touch nothing else.

ghost use Rattle.std.specs.Prelude.{◌≡◌, ◌++◌, ℕ, Bool, List, false, true, length};
ghost use Rattle.gw_core.specs.Seen.{IsSeenOf};
ghost use Rattle.gw_core.specs.declared.asked.Asked.{Asked};
ghost use Rattle.gw_rules.specs.declared.verdict.Verdict.{Verdict};
ghost use Rattle.gw_watchers.specs.Records.{records};
ghost use Rattle.gw_watchers.specs.Beside.{IsEnded, IsRecorded, ended};
ghost use Rattle.gw_watchers.specs.Watching.{wants_in};
ghost use Rattle.gw_watchers.specs.internal.RecordedIn.{IsRecordedIn};

use crate::choice::RecordChoice;
use crate::writing::{RecordOutcome, Writing};
use gw_core::{Gateway, SeenAsks};
use gw_rules::Ask;
use gw_script::{OctetSink, write_whole};

/// A log beside the log of denials: of what was asked it has a line for each ask that is chosen. If a line can't be made
/// or written, it is counted as lost, and nothing else happens.
#[derive(Drop)]
pub struct Beside<C, S> {
    /// Which asks it records.
    pub choice: C,
    /// What it is written to.
    pub sink: S,
    /// The number of the last record. It stays at 2^64 - 1.
    pub number: u64,
    /// How many records were lost. It stays at 2^64 - 1.
    pub lost: u64,
    /// Whether the last records were lost. A part of a line may then be there, and the next line begins with a line feed.
    pub is_cut: bool,
}

impl<C: RecordChoice, S: OctetSink> Beside<C, S> {
    /// A log of the asks that are chosen so, with no record yet.
    pub fn new(choice: C, sink: S) -> Self
        ensures choice { result.choice ≡ choice }
        ensures sink { result.sink ≡ sink }
        ensures number { result.number ≡ 0 }
        ensures lost { result.lost ≡ 0 }
        ensures cut { result.is_cut ≡ false }
    {
        Beside {
            choice,
            sink,
            number: 0,
            lost: 0,
            is_cut: false,
        }
    }

    /// Records the asks that are chosen. The text is only a place to make their lines.
    pub(crate) fn record_asks(&mut self, gateway: &Gateway, asked: &SeenAsks, text: &mut Vec<u8>)
        ensures { let rules = C.naming self.old.choice gateway.now.rules in
            let front = C.front self.old.choice gateway.now.rules in
            let due = records (C.chosen self.old.choice) front rules self.old.number gateway.now.ticks asked.now.kept in
            IsRecorded S.held due self.old self.new }
    {
        text.clear();
        let is_begun = self.begin_text(text);
        let (whom, verdicts) = asked.kept();
        let writing = Writing {
            choice: &self.choice,
            rules: gateway.rules(),
            tick: gateway.counts().ticks,
            whom,
        };
        let put = writing.put_all(self.number, verdicts, text);
        if put.count == 0 {
            return;
        }
        self.end_lines(is_begun, put, text);
    }

    /// Appends the line feed that ends a cut line. It answers whether there was memory for it.
    fn begin_text(&self, text: &mut Vec<u8>) -> bool
        ensures { result ≡ true → text.new.items ≡ text.old.items ++ ended self.now.is_cut }
    {
        if !self.is_cut {
            return true;
        }
        match text.push(b'\n') {
            Ok(()) => true,
            Err(_) => false,
        }
    }

    /// Writes the lines of some records, if their text is begun and whole; else they are lost.
    fn end_lines(&mut self, is_begun: bool, put: RecordOutcome, text: &[u8])
        ensures { (due : List ℕ) → (is_begun ≡ true → put.is_whole ≡ true → text.now ≡ due) →
            IsEnded S.held due put.last put.count self.old self.new }
    {
        self.number = put.last;
        self.is_cut = true;
        if is_begun && put.is_whole && write_whole(&mut self.sink, text).is_ok() {
            self.is_cut = false;
        } else {
            self.lost = self.lost.saturating_add(put.count);
        }
    }
}

/// Records the asks that are chosen, if something is recorded beside the log: of all that were asked, if each that may be chosen is seen
/// whole.
pub(crate) fn record_in<C: RecordChoice, S: OctetSink>(
    beside: &mut Option<Beside<C, S>>,
    gateway: &Gateway,
    asked: &SeenAsks,
    text: &mut Vec<u8>,
)
    ensures { (all : List Asked) (keeps : Verdict → Bool) → IsSeenOf keeps all asked.now →
        ((v : Verdict) → wants_in C.wants beside.old v ≡ true → keeps v ≡ true) →
        IsRecordedIn C.chosen C.front C.naming S.held gateway.now all beside.old beside.new }
{
    if let Some(beside) = beside {
        beside.record_asks(gateway, asked, text);
    }
}

/// Whether an ask may be recorded, if something is recorded beside the log.
#[inline(always)]
pub(crate) fn wants_in<C: RecordChoice, S>(
    beside: &Option<Beside<C, S>>,
    ask: &Ask,
    by: Option<u16>,
    is_allowed: bool,
) -> bool
    ensures { (is_quiet : Bool) →
        result ≡ wants_in C.wants beside.now (record { ask = ask.now; is_allowed = is_allowed; by = by; is_quiet = is_quiet }) }
{
    match beside {
        Some(beside) => beside.choice.wants(ask, by, is_allowed),
        None => false,
    }
}
