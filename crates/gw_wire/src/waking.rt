//! What came at the sockets of the ports while it was waited.

ghost use Rattle.gw_addr.specs.declared.TheConstants.{MAX_PORTS};
ghost use Rattle.std.specs.Prelude.{◌≡◌, ◌<◌};
ghost use Rattle.std.specs.List.{list_any};
ghost use Rattle.gw_wire.specs.Waking.{AreAllHolding, AreAllWoken, AreWoken, holds_tick, is_awake, is_held, is_tick_held, pair_holding};

use crate::ports::Ports;
use crate::sock_pair::SockPair;
use crate::socket::Sock;
use crate::waiter::{Waiter, socket_number};
use crate::watch::Watch;

/// Whether something may wait at any socket.
pub(crate) fn is_any_awake<S: Sock>(ports: &Ports<Watch<S>>) -> bool
    ensures { result ≡ list_any is_awake ports.now.pairs }
{
    ports.pairs.iter().any(|pair| is_pair_awake(pair))
}

/// Whether something may wait at one of the two.
fn is_pair_awake<S>(pair: &SockPair<Watch<S>>) -> bool
    ensures { result ≡ is_awake pair.now }
{
    pair.own.is_awake || pair.broadcast.is_awake
}

/// Notes at which sockets something may have come when it was last waited.
pub(crate) fn wake_all<S: Sock, P: Waiter>(ports: &mut Ports<Watch<S>>, waiter: &P)
    ensures { AreAllWoken (P.Quiet waiter.now) ports.old ports.new }
{
    for place in 0..ports.count() {
        wake_pair(ports.pair_mut(place), place, waiter);
    }
}

/// Notes at which of the two sockets of the port at a place something may have come.
fn wake_pair<S: Sock, P: Waiter>(pair: &mut SockPair<Watch<S>>, place: usize, waiter: &P)
    requires { place < MAX_PORTS }
    ensures { AreWoken (P.Quiet waiter.now) place pair.old pair.new }
{
    pair.own.wake(waiter.has_come(socket_number(place, true)));
    pair.broadcast
        .wake(waiter.has_come(socket_number(place, false)));
}

/// Whether some socket holds the next tick.
fn is_any_holding<S: Sock>(ports: &Ports<Watch<S>>) -> bool
    ensures { result ≡ is_held ports.now }
{
    ports.pairs.iter().any(|pair| is_pair_holding(pair))
}

/// Whether a tick is due and some socket holds it.
pub(crate) fn is_tick_held<S: Sock>(ports: &Ports<Watch<S>>) -> bool
    ensures { result ≡ is_tick_held ports.now }
{
    ports.ticks_due() > 0 && is_any_holding(ports)
}

/// Whether one of the two holds the next tick.
fn is_pair_holding<S>(pair: &SockPair<Watch<S>>) -> bool
    ensures { result ≡ holds_tick pair.now }
{
    pair.own.holds_tick || pair.broadcast.holds_tick
}

/// Has each socket at which something may wait hold the next tick until it is asked, and no other.
pub(crate) fn hold_all<S: Sock>(ports: &mut Ports<Watch<S>>)
    ensures { AreAllHolding ports.old ports.new }
{
    for place in 0..ports.count() {
        hold_pair(ports.pair_mut(place));
    }
}

/// Has each of the two at which something may wait hold the next tick.
fn hold_pair<S: Sock>(pair: &mut SockPair<Watch<S>>)
    ensures { pair.new ≡ pair_holding pair.old }
{
    pair.own.hold_tick();
    pair.broadcast.hold_tick();
}
