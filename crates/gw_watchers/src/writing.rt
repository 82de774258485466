//! The lines of recorded asks, one after the other.

ghost use Rattle.std.specs.Prelude.{◌≡◌, ◌++◌, ◌∷◌, ◌<◌, ◌-◌, ◌^◌, [], map, OnOk};
ghost use Rattle.gw_audit.specs.Line.{line_text};
ghost use Rattle.gw_core.specs.Asked.{asked_from};
ghost use Rattle.gw_watchers.specs.Records.{record_of, records};
ghost use Rattle.gw_watchers.specs.Beside.{IsPut, start};

use crate::choice::RecordChoice;
use gw_audit::line;
use gw_core::{Denial, Whom};
use gw_rules::{RuleList, Verdict};
use std::alloc::AllocError;

/// How asks are recorded: which, under whose names, and at which tick.
#[derive(Drop)]
pub(crate) struct Writing<'a, C> {
    /// Which asks are recorded.
    pub choice: &'a C,
    /// The rules in force.
    pub rules: &'a RuleList,
    /// How many ticks there were.
    pub tick: u64,
    /// Whom the asks are of.
    pub whom: &'a Whom,
}

/// What came of recording some asks.
#[derive(Clone, Copy)]
pub(crate) struct RecordOutcome {
    /// The number of the last record.
    pub last: u64,
    /// How many records there were.
    pub count: u64,
    /// Whether all their lines were made. If not, a growth was refused.
    pub is_whole: bool,
}

impl<C: RecordChoice> Writing<'_, C> {
    /// Appends the line of a record. An `Err` only if a growth was refused; a part of it may then be there.
    fn put(
        &self,
        number: u64,
        verdict: &Verdict,
        by: Option<u16>,
        text: &mut Vec<u8>,
    ) -> Result<(), AllocError>
        ensures { let rules = C.naming self.now.choice.now self.now.rules.now in
            let asked = asked_from self.now.whom.now verdict.now in
            let front = C.front self.now.choice.now self.now.rules.now asked in
            let line = record_of front rules number self.now.tick asked by in
            OnOk result (text.new.items ≡ text.old.items ++ (line.front ++ line_text line.denial)) }
    {
        self.choice.put_front(self.rules, verdict, text)?;
        let denial = Denial {
            number,
            tick: self.tick,
            port: self.whom.port(),
            source: *self.whom.source_of(&verdict.ask),
            ask: verdict.ask,
            rule: self.choice.name(self.rules, by),
        };
        line(&denial, text)
    }

    /// Appends the line of an ask, if it is chosen.
    fn put_next(
        &self,
        so_far: RecordOutcome,
        verdict: &Verdict,
        text: &mut Vec<u8>,
    ) -> RecordOutcome
        requires { so_far.count < 2 ^ 64 - 1 }
        ensures { let rules = C.naming self.now.choice.now self.now.rules.now in
            let front = C.front self.now.choice.now self.now.rules.now in
            let due = records (C.chosen self.now.choice.now) front rules so_far.last self.now.tick
            (asked_from self.now.whom.now verdict.now ∷ []) in
            IsPut due so_far text.old.items text.new.items result }
    {
        let Some(by) = self.choice.chosen(verdict) else {
            return so_far;
        };
        let mut next = RecordOutcome {
            last: so_far.last.saturating_add(1),
            count: so_far.count + 1,
            is_whole: false,
        };
        if so_far.is_whole {
            match self.put(next.last, verdict, by, text) {
                Ok(()) => next.is_whole = true,
                Err(_) => {}
            }
        }
        next
    }

    /// Appends the lines of the asks that are chosen, numbered on from the number of the last record. If a growth is
    /// refused, a part of them may be there.
    pub(crate) fn put_all(
        &self,
        last: u64,
        verdicts: &[Verdict],
        text: &mut Vec<u8>,
    ) -> RecordOutcome
        ensures { let rules = C.naming self.now.choice.now self.now.rules.now in
            let front = C.front self.now.choice.now self.now.rules.now in
            let due = records (C.chosen self.now.choice.now) front rules last self.now.tick
            (map (asked_from self.now.whom.now) verdicts.now) in
            IsPut due (start last) text.old.items text.new.items result }
    {
        let mut put = RecordOutcome {
            last,
            count: 0,
            is_whole: true,
        };
        for verdict in verdicts {
            put = self.put_next(put, verdict, text);
        }
        put
    }
}
