//! What is done about an event that was taken, before anything of it is sent.

ghost use Rattle.std.specs.Prelude.{◌≡◌, ◌||◌, Bool, false, option_map, true};
ghost use Rattle.gw_rules.specs.declared.verdict.Verdict.{Verdict};
ghost use Rattle.gw_script.specs.Event.{Event};
ghost use Rattle.gw_core.specs.State.{State};
ghost use Rattle.gw_core.specs.Guard.{IsSeen, IsTaken, PassesBoth};

use crate::gateway::{Gateway, Taken};
use crate::seen::SeenAsks;
use gw_rules::Ask;
use std::alloc::Global;

/// What is done about an event that was taken and whose denials are logged, before anything of it is sent.
pub trait Guard {
    /// What passing an event may do: the guard before, the gateway's state before, the event, the guard
    /// after, and whether the event's datagrams may go.
    ghost Passes: { Self → State → Event → Self → Bool → Type 0 };

    /// It watches what is asked.
    ghost watching: { Self → Bool };

    /// It wants to see this verdict whole.
    ghost keeps: { Self → Verdict → Bool };

    /// Whether it watches what is asked. If it does, what decided each ask of an event is kept for it, and whole what it wants to see
    /// whole, if there is memory.
    fn watches(&self) -> bool
        ensures { result ≡ watching self.now };

    /// Whether it wants to see an ask whole, with its verdict: the number of the rule that decided it, if one did, and whether it is
    /// allowed. It is the same whether that rule is quiet or not.
    fn keeps(&self, ask: &Ask, by: Option<u16>, is_allowed: bool) -> bool
        ensures { (is_quiet : Bool) →
            result ≡ keeps self.now (record { ask = ask.now; is_allowed = is_allowed; by = by; is_quiet = is_quiet }) };

    /// Passes an event that the gateway took, and says whether its datagrams may go. If the guard watches what it asked and
    /// there was memory to keep what it sees of that, it is there.
    fn pass(
        &mut self,
        alloc: Global,
        gateway: &Gateway,
        taken: &Taken,
        asked: Option<&SeenAsks>,
    ) -> bool
        ensures { (w : State) (event : Event) → IsTaken w event gateway.now taken.now →
            IsSeen (watching self.old) (keeps self.old) w event (option_map (λ a. a.now) asked.entry)
            → Passes self.old w event self.new result };
}

/// No guard: all datagrams may go.
#[derive(Clone, Copy, Default)]
pub struct Unguarded;

impl Guard for Unguarded {
    ghost Passes = { λ _ _ _ _ passes. passes ≡ true };

    ghost watching = { λ _. false };

    ghost keeps = { λ _ _. false };

    #[inline(always)]
    fn watches(&self) -> bool {
        false
    }

    #[inline(always)]
    fn keeps(&self, _ask: &Ask, _by: Option<u16>, _is_allowed: bool) -> bool {
        false
    }

    #[inline(always)]
    fn pass(
        &mut self,
        _alloc: Global,
        _gateway: &Gateway,
        _taken: &Taken,
        _asked: Option<&SeenAsks>,
    ) -> bool {
        true
    }
}

/// Two guards: each passes every event, the first before the second, and its datagrams may go if both let them.
#[derive(Drop)]
pub struct BothGuards<G, H> {
    /// The guard that is asked first.
    pub first: G,
    /// The guard that is asked then.
    pub second: H,
}

impl<G: Guard, H: Guard> Guard for BothGuards<G, H> {
    ghost Passes = { PassesBoth G.Passes H.Passes };

    ghost watching = { λ both. G.watching both.first || H.watching both.second };

    ghost keeps = { λ both verdict. G.keeps both.first verdict || H.keeps both.second verdict };

    fn watches(&self) -> bool {
        self.first.watches() || self.second.watches()
    }

    #[inline(always)]
    fn keeps(&self, ask: &Ask, by: Option<u16>, is_allowed: bool) -> bool {
        self.first.keeps(ask, by, is_allowed) || self.second.keeps(ask, by, is_allowed)
    }

    fn pass(
        &mut self,
        alloc: Global,
        gateway: &Gateway,
        taken: &Taken,
        asked: Option<&SeenAsks>,
    ) -> bool {
        let first = self.first.pass(alloc, gateway, taken, asked);
        let second = self.second.pass(alloc, gateway, taken, asked);
        first && second
    }
}
