//! The announcements of a gateway: at the start and once another configuration is in force it tells each port which networks it
//! leads to, and a port of which a send failed once more.

ghost use Rattle.std.specs.Prelude.{◌≡◌, ◌<◌, ℕ};
ghost use Rattle.gw_addr.specs.declared.TheConstants.{MAX_PORTS};
ghost use Rattle.gw_turns.specs.Announcing.{Announces, AnnouncesAt, first_announcing, pause_after_try, put_off, with_due};
ghost use Rattle.gw_turns.specs.Stretch.{CanCount};
ghost use Rattle.gw_turns.specs.declared.serving.Served.{Served as Counts};
ghost use Rattle.gw_turns.specs.declared.tally.DropTally.{DropTally};

use crate::pace::next_pause;
use crate::serving::{Served, try_sends};
use gw_addr::MAX_PORTS;
use gw_core::Gateway;
use gw_wire::Wire;
use std::alloc::Global;

/// With how many failed calls of the wire something is announced at most, so that each later turn can still be counted.
const MOST_FAILURES: u128 = (1 << 127) - (1 << 64);

/// On which ports an announcement is due, and what came of those that were tried.
#[derive(Clone, Copy)]
pub struct Announcing {
    /// For each port, in order, whether one is due: at the start, after a configuration was taken over, and where a send of the last
    /// one failed.
    pub due: [bool; MAX_PORTS],
    /// For each port, how many ticks after its last try it is tried again, if a send of that failed; else 0.
    pub pauses: [u64; MAX_PORTS],
    /// For each port, at how many ticks more it isn't tried.
    pub rests: [u64; MAX_PORTS],
    /// How many of their sends succeeded. It stays at 2^128 - 1.
    pub sends: u128,
    /// How many of their sends failed. It stays at 2^128 - 1.
    pub send_failures: u128,
    /// How often one that was due wasn't tried: memory was refused for it, or nearly 2^127 calls of the wire had failed. It stays at
    /// 2^128 - 1.
    pub put_off: u128,
}

/// How many ticks after a try the next one comes, by whether a send failed and how many came before it: 0 if none failed.
fn pause_after_try(has_failed: bool, pause: u64) -> u64
    ensures { result ≡ pause_after_try has_failed pause }
{
    if has_failed { next_pause(pause) } else { 0 }
}

impl Announcing {
    /// At the start: one is due on each port, and none was tried.
    pub fn first() -> Self
        ensures { result ≡ first_announcing }
    {
        Announcing {
            due: [true; MAX_PORTS],
            pauses: [0; MAX_PORTS],
            rests: [0; MAX_PORTS],
            sends: 0,
            send_failures: 0,
            put_off: 0,
        }
    }

    /// The same, and one is due on each port, at once.
    pub fn with_due(self) -> Self
        ensures { result ≡ with_due self }
    {
        Announcing {
            due: [true; MAX_PORTS],
            pauses: [0; MAX_PORTS],
            rests: [0; MAX_PORTS],
            ..self
        }
    }

    /// On each port at which an announcement is due, in order of ports, tries to send its datagrams once, and counts what came of it. It
    /// is due there again if one of them wasn't sent: at the next tick, and if one fails again after 2, 4, 8, 16, 32 and then 60 ticks.
    /// It stays due if there is no memory for it, or if nearly 2^127 calls of the wire failed, which is counted. A gateway that doesn't
    /// announce sends nothing.
    pub fn announce<W: Wire>(&mut self, alloc: Global, gateway: &Gateway, wire: &mut W)
        ensures announces { Announces self.old gateway.now (W.calls wire.old) self.new (W.calls wire.new) }
        // As many turns can still be counted.
        ensures counted { (served : Counts) (tally : DropTally) (more : ℕ) →
            CanCount served tally (W.failure_count wire.old) more → CanCount served tally (W.failure_count wire.new) more }
        ensures ports { W.port_count wire.new ≡ W.port_count wire.old }
        ensures behind { W.behind wire.new ≡ W.behind wire.old }
    {
        for place in 0..MAX_PORTS {
            self.announce_at(alloc, gateway, wire, place);
        }
    }

    /// The same on the port at this place, from 0.
    fn announce_at<W: Wire>(&mut self, alloc: Global, gateway: &Gateway, wire: &mut W, place: usize)
        requires { place < MAX_PORTS }
        ensures announces { AnnouncesAt place self.old gateway.now (W.calls wire.old) self.new (W.calls wire.new) }
        ensures counted { (served : Counts) (tally : DropTally) (more : ℕ) →
            CanCount served tally (W.failure_count wire.old) more → CanCount served tally (W.failure_count wire.new) more }
        ensures ports { W.port_count wire.new ≡ W.port_count wire.old }
        ensures behind { W.behind wire.new ≡ W.behind wire.old }
    {
        if !self.due[place] {
            return;
        }
        if self.rests[place] > 0 {
            self.rests[place] -= 1;
            return;
        }
        if wire.failures() > MOST_FAILURES {
            return self.put_off();
        }
        let Ok(sends) = gateway.announce(alloc, place as u8 + 1) else {
            return self.put_off();
        };
        let mut tried = Served::none();
        try_sends(wire, &sends, &mut tried);
        let has_failed = tried.send_failures > 0;
        let pause = pause_after_try(has_failed, self.pauses[place]);
        self.due[place] = has_failed;
        self.pauses[place] = pause;
        self.rests[place] = pause.saturating_sub(1);
        self.sends = self.sends.saturating_add(tried.sends);
        self.send_failures = self.send_failures.saturating_add(tried.send_failures);
    }

    /// Counts one that was due and wasn't tried.
    fn put_off(&mut self)
        ensures { self.new ≡ put_off self.old }
    {
        self.put_off = self.put_off.saturating_add(1);
    }
}
