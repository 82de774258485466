//! A UDP socket that never waits.

ghost use Rattle.std.specs.Prelude.{◌≡◌, ◌+◌, ◌%◌, ◌^◌, ℕ, List, Bool, Result};
ghost use Rattle.gw_addr.specs.declared.bip.BipAddr.{BipAddr};
ghost use Rattle.gw_wire.specs.declared.socket.SockFault.{SockFault};
ghost use Rattle.gw_wire.specs.Socket.{Answer, FitsBuffer, is_nothing};

use crate::wire::RECEIVE_ROOM;
use gw_addr::BipAddr;
use thiserror::Error;

/// A call of a socket failed.
#[derive(Clone, Copy, Debug, Error)]
pub enum SockFault {
    /// A receive or a send failed.
    #[error("socket failed")]
    Failed,
}

/// A UDP socket of a port. It never waits.
pub trait Sock {
    /// How often it was asked for a datagram, counted around at 2^64.
    ghost look_count: { Self → ℕ };

    /// Whether nothing waited when it was last asked; not before it was asked.
    ghost is_empty: { Self → Bool };

    /// What a receive may do: the socket before and after it, its answer, and what the buffer
    /// then holds.
    ghost Answered: { Self → Self → Answer → List ℕ → Type 0 };

    /// What a send may do: the socket before and after it, whom it is to, its octets, and
    /// whether it failed.
    ghost Sent: { Self → Self → BipAddr → List ℕ → Result Unit SockFault → Type 0 };

    /// Receives a datagram to the buffer's front: how many octets it has, and whom it came from; or
    /// none where nothing waits. `Failed` where the call failed.
    fn receive(
        &mut self,
        buf: &mut [u8; RECEIVE_ROOM],
    ) -> Result<Option<(usize, BipAddr)>, SockFault>
        ensures looks { look_count self.new ≡ (look_count self.old + 1) % 2 ^ 64 }
        ensures empty { is_empty self.new ≡ is_nothing result }
        ensures answered { Answered self.old self.new result buf.new }
        ensures fits { FitsBuffer result };

    /// Sends the octets as one datagram to an address. `Failed` where the call failed.
    fn send_to(&mut self, to: BipAddr, octets: &[u8]) -> Result<(), SockFault>
        ensures sent { Sent self.old self.new to octets.now result }
        ensures looks { look_count self.new ≡ look_count self.old }
        ensures empty { is_empty self.new ≡ is_empty self.old };

    /// How often it was asked for a datagram, counted around at 2^64.
    fn looks(&self) -> u64
        ensures { result ≡ look_count self.now };

    /// Whether nothing waited when it was last asked; not before it was asked.
    fn empty(&self) -> bool
        ensures { result ≡ is_empty self.now };
}
