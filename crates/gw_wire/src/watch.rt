//! A socket that is asked only while something may wait there.

ghost use Rattle.std.specs.Prelude.{◌≡◌, true, false};
ghost use Rattle.gw_wire.specs.Socket.{FitsBuffer};
ghost use Rattle.gw_wire.specs.Watch.{HasReceived, HasSent, WatchAnswer, holding, woken};

use crate::socket::{Sock, SockFault};
use crate::wire::RECEIVE_ROOM;
use gw_addr::BipAddr;

/// A socket that asks another one, but only while something may wait there: from the first time that
/// nothing waits it answers so by itself, until it is woken.
#[derive(Drop)]
pub struct Watch<S> {
    /// The socket that it asks.
    pub socket: S,
    /// Whether something may wait there.
    pub is_awake: bool,
    /// Whether it holds the next tick, until it is asked.
    pub holds_tick: bool,
    /// How often the watch was asked for a datagram, counted around at 2^64.
    pub looks: u64,
    /// Whether it answered that nothing waits when it was last asked.
    pub is_empty: bool,
}

impl<S: Sock> Watch<S> {
    /// A watch of a socket at which something may wait. Nobody asked the watch yet.
    pub fn new(socket: S) -> Self
        ensures { result ≡ record { socket = socket; is_awake = true; holds_tick = false; looks = 0; is_empty = false } }
    {
        Watch {
            socket,
            is_awake: true,
            holds_tick: false,
            looks: 0,
            is_empty: false,
        }
    }

    /// Notes whether something may have come. What waits since before isn't forgotten.
    pub(crate) fn wake(&mut self, has_come: bool)
        ensures { self.new ≡ woken has_come self.old }
    {
        if has_come {
            self.is_awake = true;
        }
    }

    /// Has it hold the next tick until it is asked, if something may wait there.
    pub(crate) fn hold_tick(&mut self)
        ensures { self.new ≡ holding self.old }
    {
        self.holds_tick = self.is_awake;
    }

    /// What the socket answers where something may wait there, and else nothing.
    #[inline(always)]
    fn ask(&mut self, buf: &mut [u8; RECEIVE_ROOM]) -> Result<Option<(usize, BipAddr)>, SockFault>
        ensures answered { WatchAnswer S.look_count S.is_empty S.Answered
            self.old.is_awake self.old.socket self.new.socket result buf.new }
        ensures rest { self.new ≡ record self.old { socket = self.new.socket } }
        ensures fits { FitsBuffer result }
    {
        if !self.is_awake {
            return Ok(None);
        }
        self.socket.receive(buf)
    }
}

impl<S: Sock> Sock for Watch<S> {
    ghost look_count = { λ watch. watch.looks };

    ghost is_empty = { λ watch. watch.is_empty };

    ghost Answered = { HasReceived S.look_count S.is_empty S.Answered };

    ghost Sent = { HasSent S.Sent };

    #[inline(always)]
    fn receive(
        &mut self,
        buf: &mut [u8; RECEIVE_ROOM],
    ) -> Result<Option<(usize, BipAddr)>, SockFault> {
        let answer = self.ask(buf);
        self.looks = self.looks.wrapping_add(1);
        self.is_empty = matches!(answer, Ok(None));
        self.is_awake = !self.is_empty;
        self.holds_tick = false;
        answer
    }

    fn send_to(&mut self, to: BipAddr, octets: &[u8]) -> Result<(), SockFault> {
        self.socket.send_to(to, octets)
    }

    fn looks(&self) -> u64 {
        self.looks
    }

    fn empty(&self) -> bool {
        self.is_empty
    }
}
