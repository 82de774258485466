//! What keeps the state of a gateway, and withholds what is denied while lines wait for its log.

ghost use Rattle.std.specs.Prelude.{◌≡◌, ◌==◌, ◌&&◌, ◌++◌, IsOk, OnOk, length, not};
ghost use Rattle.std.specs.Io.KnownBytes.{Appends};
ghost use Rattle.gw_service.specs.Holding.{PassesHolding, conduct_holding, held_line, held_text};

use crate::keeping::StateKeeper;
use crate::successor::Successor;
use gw_core::{Gateway, Guard, SeenAsks, Taken};
use gw_decisions::tally::Tally;
use gw_notices::metrics::StateTries;
use gw_notices::{Losses, Troubles};
use gw_rules::Ask;
use gw_script::{OctetSink, WriteFailed, write_whole};
use gw_turns::one_more;
use itoa::Buffer;
use std::alloc::Global;

/// What keeps the state of a gateway, and withholds what is denied while lines wait for its log.
#[derive(Drop)]
pub struct Holding<K> {
    /// What keeps its state.
    pub keeper: K,
    /// How many octets of lines wait for the log.
    pub waiting: u64,
    /// How many events were withheld since lines waited. It stays at 2^64 - 1.
    pub withheld: u64,
}

/// Writes how many events were withheld, and how many octets wait.
fn write_held_line<E: OctetSink>(
    withheld: u64,
    waiting: u64,
    errors: &mut E,
) -> Result<(), WriteFailed>
    ensures ok { OnOk result (Appends (E.held errors.old) (E.held errors.new) (held_line withheld waiting)) }
    ensures sure { E.NeverFails errors.old → IsOk result }
    ensures lasts { E.NeverFails errors.old → E.NeverFails errors.new }
{
    write_whole(errors, b"stats held=")?;
    write_whole(errors, Buffer::new().format(withheld).as_bytes())?;
    write_whole(errors, b" waiting=")?;
    write_whole(errors, Buffer::new().format(waiting).as_bytes())?;
    write_whole(errors, b"\n")
}

/// Writes how many events were withheld, and how many octets wait, if one was.
fn write_held<E: OctetSink>(withheld: u64, waiting: u64, errors: &mut E) -> Result<(), WriteFailed>
    ensures ok { OnOk result (Appends (E.held errors.old) (E.held errors.new) (held_text withheld waiting)) }
    ensures sure { E.NeverFails errors.old → IsOk result }
    ensures lasts { E.NeverFails errors.old → E.NeverFails errors.new }
{
    if withheld != 0 {
        write_held_line(withheld, waiting, errors)
    } else {
        Ok(())
    }
}

impl<K> Holding<K> {
    /// Whether an event that was taken is withheld: lines wait, and it denies something.
    fn withholds(&self, taken: &Taken) -> bool
        ensures { result ≡ (not (self.now.waiting == 0) && not (length taken.now.effects.denials == 0)) }
    {
        self.waiting != 0 && !taken.effects.denials.is_empty()
    }
}

impl<K: Guard> Guard for Holding<K> {
    ghost Passes = { PassesHolding K.Passes };

    ghost watching = { λ h. K.watching h.keeper };

    ghost keeps = { λ h verdict. K.keeps h.keeper verdict };

    fn watches(&self) -> bool {
        self.keeper.watches()
    }

    #[inline(always)]
    fn keeps(&self, ask: &Ask, by: Option<u16>, is_allowed: bool) -> bool {
        self.keeper.keeps(ask, by, is_allowed)
    }

    fn pass(
        &mut self,
        alloc: Global,
        gateway: &Gateway,
        taken: &Taken,
        asked: Option<&SeenAsks>,
    ) -> bool {
        let passes = self.keeper.pass(alloc, gateway, taken, asked);
        if self.withholds(taken) {
            self.withheld = one_more(self.withheld);
            return false;
        }
        passes
    }
}

impl<K: StateKeeper> StateKeeper for Holding<K> {
    ghost conduct = { conduct_holding K.conduct };

    fn keep_at_tick(&mut self, alloc: Global, gateway: &Gateway) {
        self.keeper.keep_at_tick(alloc, gateway);
    }

    fn adopt(&mut self, alloc: Global, successor: Successor, gateway: &Gateway) {
        self.keeper.adopt(alloc, successor, gateway);
    }

    fn keep_last(&mut self, alloc: Global, gateway: &Gateway) {
        self.keeper.keep_last(alloc, gateway);
    }

    fn troubles(&self) -> Troubles {
        self.keeper.troubles()
    }

    fn unkept(&self) -> u64 {
        self.keeper.unkept()
    }

    fn tries(&self) -> Option<StateTries> {
        self.keeper.tries()
    }

    fn decisions(&self) -> &Option<Tally> {
        self.keeper.decisions()
    }

    fn losses(&self) -> Losses {
        self.keeper.losses()
    }

    fn write_more<E: OctetSink>(
        &self,
        rules: bool,
        gateway: &Gateway,
        errors: &mut E,
    ) -> Result<(), WriteFailed> {
        self.keeper.write_more(rules, gateway, errors)?;
        write_held(self.withheld, self.waiting, errors)
    }
}
