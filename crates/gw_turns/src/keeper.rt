//! What keeps the state of a gateway in a store.

ghost use Rattle.std.specs.Prelude.{◌≡◌, ◌⊎◌, IfOk, OnOk, OnErr, Err, false};
ghost use Rattle.gw_core.specs.Resumed.{saved_of};
ghost use Rattle.gw_state_text.specs.Text.{state_text};
ghost use Rattle.gw_turns.specs.Keeping.{HasPassed, IsHeld, IsTried, IsTriedLast, KeepsAtTick, KeepsBy, KeepsChanged, KeepsDue, Tries};
ghost use Rattle.gw_turns.specs.Keeping.{due_of, failing_of, is_due, is_kept, nothing_kept, spared, spared_by};
ghost use Rattle.gw_turns.specs.Pace.{may_try, one_more, paced, ticked};
ghost use Rattle.gw_wire.specs.Store.{Holds};

use crate::ahead::{is_ahead, number_for};
use crate::alike::{SavedPart, is_same};
use crate::pace::{Pace, one_more};
use gw_core::{Gateway, Guard, SeenAsks, Taken};
use gw_rules::Ask;
use gw_state::{Origin, Saved};
use gw_state_text::put_state;
use gw_wire::{Store, StoreFault};
use std::alloc::{AllocError, Global};
use std::marker::Model;

/// After how many ticks a state is kept again.
const KEPT_TICKS: u64 = 10;

/// Keeps the state of a gateway in a store. As a guard it keeps the state after each event that lasts before
/// anything of it is sent, unless what lasts is kept already; and doesn't let it be answered if that
/// fails. A store that failed rests before it is tried again, and between two ticks it is tried at few events ([`Pace`]). The text has
/// a number of a denial that none has yet, so that a gateway which goes on from it after a kill repeats none.
/// Contracts see the store, what was configured, what the store holds the text of, or why the last
/// try failed, how many tries failed, and how often the store is tried.
pub struct Keeper<S: Store + Drop> {
    store: S,
    origin: Origin,
    text: Vec<u8>,
    kept: Result<Saved, StoreFault>,
    unkept: u64,
    pace: Pace,
}

// By hand: a derived one is proved part by part wherever one is dropped (docs/GATE.md).
impl<S: Store + Drop> Drop for Keeper<S> {
    fn drop(self) {
        let Keeper {
            store: _,
            origin: _,
            text: _,
            kept: _,
            unkept: _,
            pace: _,
        } = self;
    }
}

impl<S: Store + Drop> Model for Keeper<S> {
    ghost use Rattle.gw_turns.specs.Keeping.{IsHeld, Keeping};

    ghost Value = { Keeping S };

    ghost view = { λ k. record { store = k.store; origin = k.origin; kept = k.kept; unkept = k.unkept; pace = k.pace } };

    ghost invariant = { λ k. IsHeld (S.held k.store) k.kept };
}

/// Puts the text of a state into a store. `Memory` if a growth was refused; the store then wasn't asked.
fn put<S: Store>(store: &mut S, text: &mut Vec<u8>, saved: &Saved) -> Result<(), StoreFault>
    ensures ok { OnOk result (Holds (S.held store.new) (state_text saved.now)) }
    ensures err { OnErr result ((S.held store.new ≡ S.held store.old) ⊎ Holds (S.held store.new) (state_text saved.now)) }
{
    text.clear();
    match put_state(saved, text) {
        Ok(()) => store.replace(text),
        Err(_) => Err(StoreFault::Memory),
    }
}

impl<S: Store + Drop> Keeper<S> {
    /// Keeps the state of a gateway in this store, and does so at once. The origin is that of the gateway's
    /// configuration ([`Origin::of`]). If that fails, it is [failing](Keeper::failing) then.
    pub fn begin(alloc: Global, store: S, origin: Origin, gateway: &Gateway) -> Self
        ensures { IsTried S.held (nothing_kept store origin) gateway.now result }
    {
        let mut keeper = Keeper {
            store,
            origin,
            text: Vec::new(alloc),
            kept: Err(StoreFault::Memory),
            unkept: 0,
            pace: Pace::fresh(),
        };
        keeper.keep_now(alloc, gateway);
        keeper
    }

    /// Does what is due at a tick: keeps the state, if the text is that of a state ten ticks ago or more, or its number of a denial
    /// isn't 500 ahead, or if the last try failed and the rest after it ends with this tick; unless it differs only in its ticks.
    /// From then on tries at events are counted anew.
    pub fn keep_at_tick(&mut self, alloc: Global, gateway: &Gateway)
        ensures { KeepsAtTick S.held self.old gateway.now self.new }
    {
        self.keep_due(alloc, gateway);
        self.count_anew();
    }

    /// Goes on with another gateway, of another configuration, and keeps its state at once.
    pub fn adopt(&mut self, alloc: Global, origin: Origin, gateway: &Gateway)
        ensures { IsTried S.held (record self.old { origin = origin }) gateway.now self.new }
    {
        self.origin = origin;
        self.keep_now(alloc, gateway);
    }

    /// Keeps the state of a gateway that ends at once, whether that is due or not, with the number of its last denial.
    pub fn keep_last(&mut self, alloc: Global, gateway: &Gateway)
        ensures { IsTriedLast S.held self.old gateway.now self.new }
    {
        self.keep_as_it_is(alloc, gateway);
    }

    /// Why the last try failed, if it did.
    pub fn failing(&self) -> Option<StoreFault>
        ensures { result ≡ failing_of self.now.kept }
    {
        match &self.kept {
            Ok(_) => None,
            Err(fault) => Some(*fault),
        }
    }

    /// How many tries failed so far. It stays at 2^64 - 1.
    pub fn unkept(&self) -> u64
        ensures { result ≡ self.now.unkept }
    {
        self.unkept
    }

    /// The store, which holds the text of what is kept.
    pub fn store(&self) -> &S
        ensures store { result.now ≡ self.now.store }
        ensures held { IsHeld (S.held self.now.store) self.now.kept }
    {
        &self.store
    }

    /// How often the store is tried.
    pub fn pace(&self) -> Pace
        ensures { result ≡ self.now.pace }
    {
        self.pace
    }

    /// Whether a text is due at a tick.
    fn is_due(&self, gateway: &Gateway) -> bool
        ensures { result ≡ is_due self.now.kept self.now.pace gateway.now }
    {
        let counts = gateway.counts();
        match &self.kept {
            Ok(kept) => {
                let was = kept.counts();
                was.ticks + KEPT_TICKS <= counts.ticks || !is_ahead(was.denials, counts.denials)
            }
            Err(_) => self.pace.left <= 1,
        }
    }

    /// What is due to be kept of a gateway. An `Err` only if a growth was refused.
    fn due(&self, alloc: Global, gateway: &Gateway) -> Result<Saved, AllocError>
        ensures { IfOk result (λ due. due ≡ due_of self.now gateway.now) }
    {
        let saved = gateway.save(alloc, &self.origin)?;
        let number = number_for(&self.kept, saved.counts().denials);
        Ok(saved.with_denials(number))
    }

    /// Keeps the state if that is due at a tick, or else rests one tick less.
    fn keep_due(&mut self, alloc: Global, gateway: &Gateway)
        ensures { KeepsDue S.held self.old gateway.now self.new }
    {
        if self.is_due(gateway) {
            self.keep_changed(alloc, gateway, SavedPart::AllButTicks);
        } else {
            self.pace = self.pace.rested();
        }
    }

    /// Whether this of a state is kept.
    fn is_kept(&self, part: SavedPart, saved: &Saved) -> bool
        ensures { result ≡ is_kept part self.now.kept saved.now }
    {
        match &self.kept {
            Ok(kept) => is_same(part, kept, saved),
            Err(_) => false,
        }
    }

    /// Counts tries at events anew.
    fn count_anew(&mut self)
        ensures { self.new ≡ record self.old { pace = ticked self.old.pace } }
    {
        self.pace = self.pace.ticked();
    }

    /// Counts a try for which memory was refused.
    fn fail(&mut self)
        ensures { self.new ≡ record self.old {
          kept = Err StoreFault.Memory;
          unkept = one_more self.old.unkept;
          pace = paced false self.old.pace;
        } }
    {
        self.kept = Err(StoreFault::Memory);
        self.unkept = one_more(self.unkept);
        self.pace = self.pace.paced(false);
    }

    /// Why what lasts is withheld without a try.
    fn spared_by(&self) -> StoreFault
        ensures { result ≡ spared_by self.now.kept }
    {
        match &self.kept {
            Ok(_) => StoreFault::TooMany,
            Err(fault) => *fault,
        }
    }

    /// Withholds what lasts without a try, which is counted as one that failed.
    fn spare(&mut self)
        ensures { self.new ≡ spared self.old }
    {
        self.kept = Err(self.spared_by());
        self.unkept = one_more(self.unkept);
    }

    /// Tries to keep a state, and says whether it is kept.
    fn keep(&mut self, saved: Saved) -> bool
        ensures { Tries S.held self.old saved self.new result }
    {
        match put(&mut self.store, &mut self.text, &saved) {
            Ok(()) => {
                self.kept = Ok(saved);
                self.pace = self.pace.paced(true);
                true
            }
            Err(fault) => {
                self.kept = Err(fault);
                self.unkept = one_more(self.unkept);
                self.pace = self.pace.paced(false);
                false
            }
        }
    }

    /// Tries to keep the state of a gateway, and says whether it is kept.
    fn keep_now(&mut self, alloc: Global, gateway: &Gateway) -> bool
        ensures { Tries S.held self.old (due_of self.old gateway.now) self.new result }
    {
        match self.due(alloc, gateway) {
            Ok(due) => self.keep(due),
            Err(_) => {
                self.fail();
                false
            }
        }
    }

    /// Tries to keep the state of a gateway with the number of its last denial, and says whether it is kept.
    fn keep_as_it_is(&mut self, alloc: Global, gateway: &Gateway) -> bool
        ensures { Tries S.held self.old (saved_of self.old.origin gateway.now) self.new result }
    {
        match gateway.save(alloc, &self.origin) {
            Ok(saved) => self.keep(saved),
            Err(_) => {
                self.fail();
                false
            }
        }
    }

    /// Tries to keep the state of a gateway unless this of it is kept, and says whether it is kept.
    fn keep_changed(&mut self, alloc: Global, gateway: &Gateway, part: SavedPart) -> bool
        ensures { KeepsChanged part S.held self.old (due_of self.old gateway.now) self.new result }
    {
        match self.due(alloc, gateway) {
            Ok(due) => self.is_kept(part, &due) || self.keep(due),
            Err(_) => {
                self.fail();
                false
            }
        }
    }

    /// Keeps what lasts of a gateway, if the store may be tried, and says whether it is kept.
    fn keep_lasting(&mut self, alloc: Global, gateway: &Gateway) -> bool
        ensures { KeepsBy (may_try self.old.pace) S.held self.old (due_of self.old gateway.now) self.new result }
    {
        if !self.pace.may_try() {
            self.spare();
            return false;
        }
        self.keep_changed(alloc, gateway, SavedPart::Lasting)
    }
}

impl<S: Store + Drop> Guard for Keeper<S> {
    ghost Passes = { HasPassed S.held };

    ghost watching = { λ _. false };

    ghost keeps = { λ _ _. false };

    fn watches(&self) -> bool {
        false
    }

    #[inline(always)]
    fn keeps(&self, _ask: &Ask, _by: Option<u16>, _is_allowed: bool) -> bool {
        false
    }

    fn pass(
        &mut self,
        alloc: Global,
        gateway: &Gateway,
        taken: &Taken,
        _asked: Option<&SeenAsks>,
    ) -> bool {
        !taken.lasts || self.keep_lasting(alloc, gateway)
    }
}
