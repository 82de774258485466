//! What watches the asks of a gateway, and withholds nothing.

ghost use Rattle.std.specs.Prelude.{◌≡◌, ◌+◌, ◌-◌, List, option_map, false, true};
ghost use Rattle.gw_core.specs.Seen.{IsSeenOf};
ghost use Rattle.gw_core.specs.declared.asked.Asked.{Asked};
ghost use Rattle.gw_watchers.specs.Watching.{HasWatched, Missed, Watches, Watching, ended_by, is_wanted, is_watching, with_marks};

use crate::audit::Marks;
use crate::beside::{Beside, record_in, wants_in};
use crate::files::is_same_format;
use crate::trial::Trial;
use gw_core::{Gateway, Guard, SeenAsks, Taken};
use gw_decisions::count_asked;
use gw_decisions::tally::Tally;
use gw_rules::{Ask, Format};
use gw_script::OctetSink;
use std::alloc::Global;
use std::marker::Model;

/// Watches what a gateway is asked: a policy on trial, an audit, and how often each rule decides, each if it is wanted.
/// As a guard it withholds nothing.
pub struct Watcher<T, A> {
    trial: Option<Beside<Trial, T>>,
    audit: Option<Beside<Marks, A>>,
    counts: Option<Tally>,
    unseen: u64,
    format: Format,
    ended: bool,
    text: Vec<u8>,
}

// By hand: a derived one is proved part by part wherever one is dropped (docs/GATE.md).
impl<T: Drop, A: Drop> Drop for Watcher<T, A> {
    fn drop(self) {
        let Watcher {
            trial: _,
            audit: _,
            counts: _,
            unseen: _,
            format: _,
            ended: _,
            text: _,
        } = self;
    }
}

impl<T, A> Model for Watcher<T, A> {
    ghost use Rattle.gw_watchers.specs.Watching.{Watching};

    ghost Value = { Watching T A };

    ghost view = { λ w. record {
      trial = w.trial;
      audit = w.audit;
      counts = w.counts;
      unseen = w.unseen;
      format = w.format;
      ended = w.ended;
    } };
}

impl<T: OctetSink + Drop, A: OctetSink + Drop> Watcher<T, A> {
    /// Watches for these, by a configuration of this format: each only if there is one. It takes no memory.
    pub fn new(
        alloc: Global,
        format: Format,
        trial: Option<Beside<Trial, T>>,
        audit: Option<Beside<Marks, A>>,
        counts: Option<Tally>,
    ) -> Self
        ensures { result ≡ record { trial = trial; audit = audit; counts = counts; unseen = 0; format = format; ended = false } }
    {
        Watcher {
            trial,
            audit,
            counts,
            unseen: 0,
            format,
            ended: false,
            text: Vec::new(alloc),
        }
    }

    /// The policy on trial, with its log.
    pub fn trial(&self) -> &Option<Beside<Trial, T>>
        ensures { result.now ≡ self.now.trial }
    {
        &self.trial
    }

    /// The audit.
    pub fn audit(&self) -> &Option<Beside<Marks, A>>
        ensures { result.now ≡ self.now.audit }
    {
        &self.audit
    }

    /// How often each rule decided.
    pub fn counts(&self) -> &Option<Tally>
        ensures { result.now ≡ self.now.counts }
    {
        &self.counts
    }

    /// How many events weren't watched, since there was no memory for what they asked. It stays at 2^64 - 1.
    pub fn unseen(&self) -> u64
        ensures { result ≡ self.now.unseen }
    {
        self.unseen
    }

    /// Whether the trial ended, since a configuration of another format is in force.
    pub fn has_ended(&self) -> bool
        ensures { result ≡ self.now.ended }
    {
        self.ended
    }

    /// Ends a trial of another format than this one.
    fn end_trial(&mut self, format: Format)
        ensures { self.new ≡ ended_by format self.old }
    {
        if !is_same_format(self.format, format) && self.trial.is_some() {
            self.trial = None;
            self.ended = true;
        }
    }

    /// Goes on by other rules, of a configuration of this format: these of them are marked, and these are their counts so far. A
    /// trial of another format ends.
    pub fn go_on(&mut self, marks: Marks, counts: Option<Tally>, format: Format)
        ensures { self.new ≡ ended_by format
            (record self.old { audit = option_map (with_marks marks) self.old.audit; counts = counts }) }
    {
        self.end_trial(format);
        if let Some(audit) = &mut self.audit {
            audit.choice = marks;
        }
        self.counts = counts;
    }

    /// Watches what an event asked.
    fn watch(&mut self, gateway: &Gateway, asked: &SeenAsks)
        ensures { (all : List Asked) → IsSeenOf (is_wanted self.old) all asked.now
            → Watches T.held A.held self.old gateway.now all self.new }
    {
        record_in(&mut self.trial, gateway, asked, &mut self.text);
        record_in(&mut self.audit, gateway, asked, &mut self.text);
        if let Some(counts) = &mut self.counts {
            count_asked(counts, asked);
        }
    }

    /// Counts an event that isn't seen, if something is watched.
    fn miss(&mut self)
        ensures { Missed self.old self.new }
    {
        if self.watches() {
            self.unseen = self.unseen.saturating_add(1);
        }
    }
}

impl<T: OctetSink + Drop, A: OctetSink + Drop> Guard for Watcher<T, A> {
    ghost Passes = { HasWatched T.held A.held };

    ghost watching = { is_watching };

    ghost keeps = { is_wanted };

    fn watches(&self) -> bool {
        self.trial.is_some() || self.audit.is_some() || self.counts.is_some()
    }

    #[inline(always)]
    fn keeps(&self, ask: &Ask, by: Option<u16>, is_allowed: bool) -> bool {
        wants_in(&self.trial, ask, by, is_allowed) || wants_in(&self.audit, ask, by, is_allowed)
    }

    fn pass(
        &mut self,
        _alloc: Global,
        gateway: &Gateway,
        _taken: &Taken,
        asked: Option<&SeenAsks>,
    ) -> bool {
        match asked {
            Some(asked) => self.watch(gateway, asked),
            None => self.miss(),
        }
        true
    }
}
