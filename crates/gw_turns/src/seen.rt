//! An event that is taken, and what of its asks is seen; and how often memory was refused for one.

ghost use Rattle.std.specs.Prelude.{◌≡◌, IfOk, IsErrOf, IsOk, None, OnErr, true};
ghost use Rattle.gw_turns.specs.Pace.{one_more};
ghost use Rattle.gw_turns.specs.ServeTurn.{refusals_after};
ghost use Rattle.gw_script.specs.Event.{event_view};
ghost use Rattle.gw_core.specs.Effects.{NeedsNoMemory, passes_end};
ghost use Rattle.gw_core.specs.Guard.{IsSeen, IsTaken};

use crate::pace::one_more;
use gw_core::{DenialsAlone, Gateway, Guard, SeenAsks, SeenBy, StepFault, Taken, take_event};
use gw_script::Event;
use std::alloc::Global;
use std::marker::Model;

/// How often the gateway was asked to take an event, with this allocator, and answered that memory was refused. It stays at 2^64 - 1.
/// Only the call that asks the gateway raises it.
#[derive(Drop)]
pub struct Refusals {
    alloc: Global,
    count: u64,
}

impl Model for Refusals {
    ghost use Rattle.std.specs.Prelude.{ℕ};

    ghost Value = { ℕ };

    ghost view = { λ r. r.count };
}

impl Refusals {
    /// None so far.
    pub(crate) fn none(alloc: Global) -> Self
        ensures { result ≡ 0 }
    {
        Refusals { alloc, count: 0 }
    }

    /// How many there were.
    pub fn count(&self) -> u64
        ensures { result ≡ self.now }
    {
        self.count
    }

    /// One more.
    fn add(&mut self)
        ensures { self.new ≡ one_more self.old }
    {
        self.count = one_more(self.count);
    }
}

/// Has the gateway take an event as [`take_event`] does; and if the guard watches, puts beside what that sees of what is asked. If
/// there is no memory for that, the event is taken all the same. If there is none for the event, that is counted.
#[inline(always)]
pub(crate) fn take_seen<G: Guard>(
    gateway: &mut Gateway,
    event: &Event<'_>,
    guard: &G,
    asked: &mut Option<SeenAsks>,
    refusals: &mut Refusals,
) -> Result<Taken, StepFault>
    requires none { asked.old ≡ None }
    ensures taken { IfOk result (IsTaken gateway.old (event_view event.now) gateway.new) }
    ensures seen { IsOk result →
        IsSeen (G.watching guard.now) (G.keeps guard.now) gateway.old (event_view event.now) asked.new }
    ensures count_end { IsErrOf result StepFault.CountEnd →
        passes_end gateway.old (event_view event.now) ≡ true }
    ensures memory { IsErrOf result StepFault.Memory →
        ¬ (NeedsNoMemory gateway.old (event_view event.now)) }
    ensures err { OnErr result (gateway.new ≡ gateway.old) }
    ensures refused { refusals.new ≡ refusals_after refusals.old result }
{
    let alloc = refusals.alloc;
    if guard.watches() {
        match take_event(alloc, gateway, event, &SeenBy { guard }) {
            Ok(watched) => {
                *asked = Some(watched.asked);
                return Ok(watched.taken);
            }
            Err(StepFault::Memory) => {}
            Err(StepFault::CountEnd) => return Err(StepFault::CountEnd),
        }
    }
    match take_event(alloc, gateway, event, &DenialsAlone) {
        Ok(reported) => Ok(reported.taken),
        Err(StepFault::Memory) => {
            refusals.add();
            Err(StepFault::Memory)
        }
        Err(StepFault::CountEnd) => Err(StepFault::CountEnd),
    }
}
