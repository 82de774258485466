//! What is reported of what an event asks, beside its denials: nothing, all of it, or what a guard sees of it.

ghost use Rattle.std.specs.Prelude.{◌≡◌, true, IsOk, IfOk, OnOk, IsErrOf};
ghost use Rattle.gw_script.specs.Event.{Event, Tick};
ghost use Rattle.gw_core.specs.Effects.{NeedsNoMemory, passes_end};
ghost use Rattle.gw_core.specs.State.{State};
ghost use Rattle.gw_core.specs.Arrivals.{event_of};
ghost use Rattle.gw_core.specs.internal.Outcome.{IsOutcome};

use crate::asked::AllAsked;
use crate::fault::StepFault;
use crate::gateway::{Gateway, Taken};
use crate::guard::Guard;
use crate::receive::Arrival;
use crate::seen::SeenAsks;
use crate::sieve::Sieve;
use gw_rules::{Authorizer, Recorder};
use std::alloc::Global;

/// What is reported of what an event asks, beside its denials. What takes an event is generic in it, so that one walk
/// serves who watches what is asked and who doesn't.
pub trait Reporting {
    /// What is reported.
    type Asked: Drop;

    /// What is reported of an event in a state.
    ghost asked: { Self → State → Event → Self.Asked };

    /// What is reported of a tick, which asks nothing. It takes no memory.
    fn nothing(&self, alloc: Global) -> Self::Asked
        ensures { (w : State) → result ≡ asked self.now w Tick };

    /// Writes what is done about a datagram into its place, and answers what is reported of it, while the gateway stays as
    /// it is. The faults are those of [`Gateway::step`]; what is in the place is then of no use.
    fn outcome(
        &self,
        gateway: &Gateway,
        alloc: Global,
        arrival: &Arrival<'_>,
        taken: &mut Taken,
    ) -> Result<Self::Asked, StepFault>
        ensures outcome { OnOk result (IsOutcome gateway.now (event_of arrival.now) taken.new) }
        ensures asked { let event = event_of arrival.now in
            IfOk result (λ reported. reported ≡ asked self.now gateway.now event) }
        ensures count_end { IsErrOf result StepFault.CountEnd
            → passes_end gateway.now (event_of arrival.now) ≡ true }
        ensures silent { NeedsNoMemory gateway.now (event_of arrival.now) → IsOk result };
}

/// Nothing is reported beside the denials: only a denied ask wants memory.
#[derive(Clone, Copy, Default)]
pub struct DenialsAlone;

impl Reporting for DenialsAlone {
    type Asked = ();

    ghost asked = { λ _ w event. tt };

    fn nothing(&self, _alloc: Global) {}

    #[inline(always)]
    fn outcome(
        &self,
        gateway: &Gateway,
        alloc: Global,
        arrival: &Arrival<'_>,
        taken: &mut Taken,
    ) -> Result<(), StepFault> {
        let asker = Authorizer::new(alloc, gateway.policy());
        gateway.outcome(alloc, arrival, asker, taken)
    }
}

/// All that is asked is reported, allowed or denied, in order, with what the policy says of it. Each ask wants memory.
#[derive(Clone, Copy, Default)]
pub struct AllAsks;

impl Reporting for AllAsks {
    ghost use Rattle.gw_core.specs.Asked.{asked_at};

    type Asked = AllAsked;

    ghost asked = { λ _. asked_at };

    fn nothing(&self, alloc: Global) -> AllAsked {
        AllAsked::new(alloc)
    }

    #[inline(always)]
    fn outcome(
        &self,
        gateway: &Gateway,
        alloc: Global,
        arrival: &Arrival<'_>,
        taken: &mut Taken,
    ) -> Result<AllAsked, StepFault> {
        let asker = Recorder::new(alloc, gateway.policy());
        gateway.outcome(alloc, arrival, asker, taken)
    }
}

/// What a guard sees of all that is asked. What decided each ask wants memory.
#[derive(Clone, Copy)]
pub struct SeenBy<'a, G> {
    /// The guard.
    pub guard: &'a G,
}

impl<G: Guard> Reporting for SeenBy<'_, G> {
    ghost use Rattle.gw_core.specs.Asked.{asked_at};
    ghost use Rattle.gw_core.specs.Seen.{seen_of};

    type Asked = SeenAsks;

    ghost asked = { λ seen w event. seen_of (G.keeps seen.guard.now) (asked_at w event) };

    fn nothing(&self, alloc: Global) -> SeenAsks {
        SeenAsks::none(alloc)
    }

    #[inline(always)]
    fn outcome(
        &self,
        gateway: &Gateway,
        alloc: Global,
        arrival: &Arrival<'_>,
        taken: &mut Taken,
    ) -> Result<SeenAsks, StepFault> {
        let asker = Sieve::new(alloc, gateway.policy(), self.guard);
        gateway.outcome(alloc, arrival, asker, taken)
    }
}
