//! Laws of wires and ports. The functions do nothing: their contracts are the laws.

ghost use Rattle.std.specs.Prelude.{◌≡◌};
ghost use Rattle.gw_wire.specs.Spaced.{TicksAreSpaced};
ghost use Rattle.gw_wire.specs.Timed.{DeferringCountsOn, IsDoneInTime};

use crate::socket::Sock;
use crate::timed::{LONGEST_DEFERRED, MOST_UNLOOKED};
use crate::waiter::Waiter;
use crate::wire::RECEIVE_ROOM;

/// A datagram is received to 1508 octets, one more than the longest that is heard. Seven receives may go by without a look at
/// what came: the eighth looks. What is due may be deferred for ten seconds.
pub fn limits()
    ensures room { RECEIVE_ROOM ≡ 1508 }
    ensures unlooked { MOST_UNLOOKED ≡ 7 }
    ensures deferred { LONGEST_DEFERRED ≡ 10 }
{}

/// A tick does what is due if ten seconds were counted since it was done, however many ticks are due; and as long as ticks defer it the
/// seconds are counted on.
pub fn deferring()
    ensures done { IsDoneInTime }
    ensures counts { DeferringCountsOn }
{}

/// Between two ticks that are handed in each awake socket was asked: from the moment at which those at which something may wait hold the
/// next tick, which the receive after a tick begins with, to that tick.
pub fn spacing<S: Sock, P: Waiter>()
    ensures { TicksAreSpaced S.look_count S.is_empty S.Answered P.Quiet }
{}
