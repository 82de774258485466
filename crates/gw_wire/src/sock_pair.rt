//! The two sockets of a port.

ghost use Rattle.std.specs.Prelude.{◌≡◌, true, false, not, None, IfSome};
ghost use Rattle.gw_wire.specs.Socket.{FitsBuffer, HasAnswered, IsPassed, some_answer};
ghost use Rattle.gw_wire.specs.SockPair.{ArePassed, HasSentOwn, IsAnswer, socket};

use crate::socket::{Sock, SockFault};
use crate::wire::RECEIVE_ROOM;
use gw_addr::BipAddr;

/// What a socket answered, other than nothing.
pub(crate) type Said = Result<(usize, BipAddr), SockFault>;

/// The two sockets of a port: that of its own address, which sends too, and that of its broadcast
/// address.
#[derive(Drop)]
pub struct SockPair<S> {
    /// The socket of the port's own address.
    pub own: S,
    /// The socket of its broadcast address.
    pub broadcast: S,
}

impl<S: Sock> SockPair<S> {
    /// Sends the octets by the own socket, as one datagram to an address. `Failed` where the call
    /// failed.
    pub(crate) fn send(&mut self, to: BipAddr, octets: &[u8]) -> Result<(), SockFault>
        ensures { HasSentOwn S.Sent to octets.now result self.old self.new }
    {
        self.own.send_to(to, octets)
    }

    /// Asks the own socket, or that of the broadcast address: what it answers, if not nothing.
    #[inline(always)]
    fn ask_one(&mut self, own: bool, buf: &mut [u8; RECEIVE_ROOM]) -> Option<Said>
        ensures passed { result ≡ None →
            IsPassed S.look_count S.is_empty S.Answered (socket own self.old) (socket own self.new) }
        ensures answered { IfSome result (λ said. HasAnswered S.look_count S.is_empty S.Answered
            (socket own self.old) (socket own self.new) (some_answer said) buf.new) }
        ensures other { socket (not own) self.new ≡ socket (not own) self.old }
        ensures fits { IfSome result (λ said. FitsBuffer (some_answer said)) }
    {
        let answer = if own {
            self.own.receive(buf)
        } else {
            self.broadcast.receive(buf)
        };
        match answer {
            Ok(None) => None,
            Ok(Some(came)) => Some(Ok(came)),
            Err(fault) => Some(Err(fault)),
        }
    }

    /// Asks both sockets in turn until one answers, the own one first or last: whether that is the
    /// own one, and its answer.
    #[inline(always)]
    pub(crate) fn ask(
        &mut self,
        own_first: bool,
        buf: &mut [u8; RECEIVE_ROOM],
    ) -> Option<(bool, Said)>
        ensures passed { result ≡ None → ArePassed S.look_count S.is_empty S.Answered self.old self.new }
        ensures answered { IfSome result (λ heard. IsAnswer S.look_count S.is_empty S.Answered
            own_first heard.0 self.old self.new heard.1 buf.new) }
        ensures fits { IfSome result (λ heard. FitsBuffer (some_answer heard.1)) }
    {
        match self.ask_one(own_first, buf) {
            Some(said) => Some((own_first, said)),
            None => match self.ask_one(!own_first, buf) {
                Some(said) => Some((!own_first, said)),
                None => None,
            },
        }
    }
}
