//! Serving by stretches, each until a tick was taken.

ghost use Rattle.std.specs.Prelude.{◌≡◌, ◌+◌, ◌≤◌, IsErrOf};
ghost use Rattle.gw_turns.specs.Serve.{AreRefused, scene};
ghost use Rattle.gw_turns.specs.Stretch.{CanCount, EndsStretch, moment};

use crate::serving::{ServeFault, ServeState};
use gw_core::{Gateway, Guard};
use gw_script::OctetSink;
use gw_wire::Wire;

/// Why a stretch of serving ended.
#[derive(Clone, Copy)]
pub enum StretchEnd {
    /// All its turns were done, and no tick was taken.
    Turns,
    /// A tick was taken, in its last turn.
    Tick,
    /// The guard didn't let the datagrams of an event go, which was taken in its last turn. Nothing of it
    /// was sent.
    Withheld,
}

impl ServeState {
    /// Serves a wire as [`serve`](crate::serve) does, until a tick was taken or no turns are left; and
    /// asks a guard about each event that was taken and logged, before anything of it is sent. If the guard
    /// doesn't let its datagrams go, the stretch ends. The counts go on from what they were:
    /// `served.turns` says how many turns were done.
    ///
    /// # Errors
    ///
    /// Those of [`serve`](crate::serve). If the log failed at the last event, `unwritten` has what it lacks of the event's lines, and
    /// the guard passed the event; else the guard wasn't asked about it.
    pub fn serve_to_tick<W: Wire, L: OctetSink, G: Guard>(
        &mut self,
        gateway: &mut Gateway,
        wire: &mut W,
        log: &mut L,
        guard: &mut G,
    ) -> Result<StretchEnd, ServeFault>
        requires { CanCount self.old.served self.old.tally (W.failure_count wire.old) self.old.left }
        // What there is then, as some list of turns leads to.
        ensures end { let before = moment
            (scene gateway.old (L.held log.old) (W.calls wire.old)) guard.old self.old.served self.old.tally in
            let after = moment
            (scene gateway.new (L.held log.new) (W.calls wire.new)) guard.new self.new.served self.new.tally in
            EndsStretch G.Passes self.old.left before result self.new.unwritten.items after }
        // The turns that weren't done are left, and can still be counted.
        ensures left { self.new.served.turns + self.new.left ≡ self.old.served.turns + self.old.left }
        ensures rest { CanCount self.new.served self.new.tally (W.failure_count wire.new) self.new.left }
        ensures least { self.old.served.turns ≤ self.new.served.turns }
        // The wire's own count of failures rose by those that are counted.
        ensures failures { let was = self.old.served in
            let is = self.new.served in
            W.failure_count wire.new + was.recv_failures + was.send_failures
            ≡ W.failure_count wire.old + is.recv_failures + is.send_failures }
        // An event counts as lost to memory only if the gateway was asked to take it, and answered so.
        ensures refused { AreRefused self.old.served self.old.refusals self.new.served self.new.refusals }
        ensures ports { W.port_count wire.new ≡ W.port_count wire.old }
        // A log that never fails doesn't end it.
        ensures sure_log { L.NeverFails log.old → ¬ (IsErrOf result ServeFault.Log) }
        ensures lasting_log { L.NeverFails log.old → L.NeverFails log.new }
    {
        for _ in 0..self.left {
            let ticks = gateway.counts().ticks;
            let is_passed = match self.take_guarded_turn(gateway, wire, log, guard) {
                Ok(is_passed) => is_passed,
                Err(fault) => return Err(fault),
            };
            if !is_passed {
                return Ok(StretchEnd::Withheld);
            }
            if ticks < gateway.counts().ticks {
                return Ok(StretchEnd::Tick);
            }
        }
        Ok(StretchEnd::Turns)
    }
}
