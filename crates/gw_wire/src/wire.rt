//! The wire: where datagrams and ticks come from, and where datagrams go.

ghost use Rattle.std.specs.Prelude.{◌≡◌, ◌+◌, ◌-◌, ◌<◌, ◌^◌, ◌∷◌, [], ℕ, Bool, List, Option, IfOk};
ghost use Rattle.gw_wire.specs.Wire.{Call, IsHandedIn, Records, failures_of, receive_call, receive_answer, send_call};

use gw_addr::BipAddr;
use thiserror::Error;

/// How many octets a datagram is received to: one more than the longest that is heard, so that a
/// longer one is noticed.
pub const RECEIVE_ROOM: usize = gw_frames::bvll::MAX_LEN + 1;

/// What a wire hands in.
#[derive(Clone, Copy)]
pub enum Got {
    /// A datagram, which is at the front of the buffer.
    Datagram {
        /// The number of the port that it came on, from 1.
        port: u8,
        /// Whom it came from.
        from: BipAddr,
        /// How many octets it has.
        len: usize,
    },
    /// One second.
    Tick,
    /// Nothing waits.
    Idle,
}

/// A call of a wire failed.
#[derive(Clone, Copy, Debug, Error)]
pub enum WireFault {
    /// A receive or a send failed.
    #[error("wire failed")]
    Failed,
}

/// What events come from and datagrams are sent to. It counts its calls that failed.
///
/// A contract can't say what a socket carried. A wire that can say it reports its calls, as one over
/// memory does.
pub trait Wire {
    /// How many ports it has.
    ghost port_count: { Self → ℕ };

    /// How many calls of it failed.
    ghost failure_count: { Self → ℕ };

    /// Its calls so far, in order, if it reports them.
    ghost calls: { Self → Option (List Call) };

    /// What is due at a tick may be left to another one, which is due already.
    ghost behind: { Self → Bool };

    /// How many ports it has. No call changes it.
    fn ports(&self) -> u8
        ensures { result ≡ port_count self.now };

    /// How many receives and sends failed.
    fn failures(&self) -> u128
        ensures { result ≡ failure_count self.now };

    /// Whether what is to be done once a second may be left to another tick, which is due already.
    fn is_behind(&self) -> bool
        ensures { result ≡ behind self.now };

    /// Receives what comes next, a datagram on one of its ports or a tick, or nothing. A fault is
    /// answered only where the count of failures rose, by one.
    fn recv(&mut self, buf: &mut [u8; RECEIVE_ROOM]) -> Result<Got, WireFault>
        requires { failure_count self.old < 2 ^ 128 - 1 }
        ensures ports { port_count self.new ≡ port_count self.old }
        ensures handed_in { IfOk result (IsHandedIn (port_count self.new)) }
        ensures calls { let call = receive_call (receive_answer result buf.new) in
            Records (calls self.old) (calls self.new) (call ∷ []) }
        ensures failures { failure_count self.new ≡ failure_count self.old + failures_of result };

    /// Sends a datagram on the port of this number. A fault is answered only where the count of
    /// failures rose, by one. No tick becomes due by it.
    fn send(&mut self, port: u8, to: BipAddr, octets: &[u8]) -> Result<(), WireFault>
        requires { failure_count self.old < 2 ^ 128 - 1 }
        ensures ports { port_count self.new ≡ port_count self.old }
        ensures calls { let call = send_call result
            (record { port = port; to = to; octets = octets.now }) in
            Records (calls self.old) (calls self.new) (call ∷ []) }
        ensures behind { behind self.new ≡ behind self.old }
        ensures failures { failure_count self.new ≡ failure_count self.old + failures_of result };
}
