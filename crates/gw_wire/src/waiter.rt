//! What waits for datagrams, while none is there.

ghost use Rattle.gw_addr.specs.declared.TheConstants.{MAX_PORTS};
ghost use Rattle.std.specs.Prelude.{◌≡◌, ◌<◌, ℕ, false, ⊤, OnOk};
ghost use Rattle.std.specs.Duration.{as_nanos};
ghost use Rattle.gw_wire.specs.Waking.{number_of};

use std::io;
use std::time::Duration;

/// The number of a socket, by which a waiter names it: that of the own address, or of the broadcast
/// address, of the port at this place, from 0.
pub fn socket_number(place: usize, is_own: bool) -> usize
    requires { place < MAX_PORTS }
    ensures { result ≡ number_of place is_own }
{
    if is_own { 2 * place } else { 2 * place + 1 }
}

/// What waits for datagrams.
pub trait Waiter {
    /// How long it may have been let wait when it was last asked, in nanoseconds.
    ghost Waited: { Self → ℕ → Type 0 };

    /// At the socket of which number nothing may have come when it last waited.
    ghost Quiet: { Self → ℕ → Type 0 } = { λ _ _. ⊤ };

    /// Waits until a datagram comes or so much time has passed. It may also end sooner, as at a
    /// signal. An `Err` where it can't wait.
    fn wait(&mut self, most: Duration) -> io::Result<()>
        ensures { OnOk result (Waited self.new (as_nanos most)) };

    /// Whether something may have come at the socket of this number when it last waited. What came is
    /// reported once. A waiter that doesn't know says yes of each.
    fn has_come(&self, number: usize) -> bool
        ensures { result ≡ false → Quiet self.now number }
    {
        true
    }
}
