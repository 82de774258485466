//! What an event asks, as a guard sees it: what decided each ask, what of it is kept whole, and once whom the asks are of.

ghost use Rattle.std.specs.Prelude.{◌≡◌, Bool, List, filter, map};
ghost use Rattle.gw_rules.specs.declared.verdict.Verdict.{Verdict};
ghost use Rattle.gw_core.specs.Asked.{asked_from, asked_of};
ghost use Rattle.gw_core.specs.Receive.{source_of};
ghost use Rattle.gw_core.specs.Seen.{nothing_seen, seen_of};
ghost use Rattle.gw_core.specs.internal.Sieved.{deciders_of};
ghost use Rattle.gw_core.specs.internal.View.{origin_of};

use crate::deciders::Deciders;
use crate::denial::origin_of;
use crate::receive::Received;
use gw_addr::{Mac, NetNum, Source};
use gw_rules::{Ask, Operation, Verdict, Verdicts};
use std::alloc::Global;
use std::marker::Model;

/// Whom asks are of: the number of the port that they came on, from 1, whom the datagram claims to come from, and its link source.
/// Contracts see these.
#[derive(Drop)]
pub struct Whom {
    port: u8,
    source: Source,
    link: Source,
}

impl Model for Whom {
    ghost use Rattle.gw_core.specs.Receive.{Origin};

    ghost Value = { Origin };

    ghost view = { λ w. record { port = w.port; source = w.source; link = w.link } };
}

impl Whom {
    /// Whoever asks by this port, claims to be that source, and has that link source.
    pub(crate) fn new(port: u8, source: Source, link: Source) -> Self
        ensures { result ≡ record { port = port; source = source; link = link } }
    {
        Whom { port, source, link }
    }

    /// Anybody: whoever asks nothing.
    fn anybody() -> Self {
        Whom::new(0, any_source(), any_source())
    }

    /// The number of the port that the asks came on, from 1.
    pub fn port(&self) -> u8
        ensures { result ≡ self.now.port }
    {
        self.port
    }

    /// Whom an ask is of: an ask to enter is of the link source, and any other of whom the datagram claims to come from.
    pub fn source_of(&self, ask: &Ask) -> &Source
        ensures { result.now ≡ source_of self.now ask.now }
    {
        if ask.operation != Some(Operation::Enter.number()) {
            &self.source
        } else {
            &self.link
        }
    }
}

/// Any source.
fn any_source() -> Source {
    Source {
        net: NetNum::new(1).unwrap(),
        mac: Mac::of_six([0; 6]),
    }
}

/// What a guard sees of what an event asks: by which rule each ask was decided, in order, and whole those verdicts that the guard wants
/// to see whole. Whom the asks are of is kept once. Contracts see both lists.
#[derive(Drop)]
pub struct SeenAsks {
    whom: Whom,
    deciders: Deciders,
    kept: Verdicts,
}

impl Model for SeenAsks {
    ghost use Rattle.std.specs.Prelude.{map};
    ghost use Rattle.gw_core.specs.Asked.{asked_from};
    ghost use Rattle.gw_core.specs.Seen.{Seen};

    ghost Value = { Seen };

    ghost view = { λ s. record { deciders = s.deciders; kept = map (asked_from s.whom) s.kept } };
}

impl SeenAsks {
    /// Nothing is asked. It takes no memory.
    pub(crate) fn none(alloc: Global) -> Self
        ensures { result ≡ nothing_seen }
    {
        SeenAsks {
            whom: Whom::anybody(),
            deciders: Deciders::new(alloc),
            kept: Verdicts::new(alloc),
        }
    }

    /// What is seen of what is received, if these rules decided what it asks and these verdicts are kept of it. It takes no memory.
    pub(crate) fn of(
        alloc: Global,
        received: &Received<'_>,
        deciders: Deciders,
        kept: Verdicts,
    ) -> Self
        ensures { (keeps : Verdict → Bool) (verdicts : List Verdict) → deciders ≡ deciders_of verdicts → kept ≡ filter keeps verdicts →
            result ≡ seen_of keeps (asked_of (origin_of received.now) verdicts) }
    {
        match origin_of(received) {
            Some(from) => SeenAsks {
                whom: from.whom(),
                deciders,
                kept,
            },
            None => SeenAsks::none(alloc),
        }
    }

    /// By which rule each ask was decided, in order.
    pub fn deciders(&self) -> &Deciders
        ensures { result.now ≡ self.now.deciders }
    {
        &self.deciders
    }

    /// Whom the asks are of, and the verdicts that are kept whole, in order.
    pub fn kept(&self) -> (&Whom, &[Verdict])
        ensures { self.now.kept ≡ map (asked_from result.0.now) result.1.now }
    {
        (&self.whom, self.kept.as_slice())
    }
}
