//! What waits for datagrams at the sockets of the system.

ghost use Rattle.std.specs.Prelude.{◌≡◌, ◌≤◌, ◌<◌, false, length, ⊤};
ghost use Rattle.gw_system.specs.Waiting.{has_event_of};

use crate::system_clock::slowed;
use crate::udp::UdpSock;
use gw_addr::MAX_PORTS;
use gw_wire::{SockPair, Waiter, Watch, socket_number};
use mio::{Events, Poll, Registry};
use std::alloc::Global;
use std::io;
use std::net::Net;
use std::time::{Clock, Duration};

/// How many sockets may be reported at once: two of each port.
const MOST_SOCKETS: usize = 2 * MAX_PORTS;

/// What waits for datagrams at the sockets of the system. A wait that fails takes a tenth of a second more.
#[derive(Drop)]
pub struct PollWaiter<'a, R> {
    rt: &'a R,
    poll: Poll,
    events: Events,
}

impl<'a, R: Net + Clock> PollWaiter<'a, R> {
    /// What waits at the sockets of these ports, from 1 to 8, each of which is named by its
    /// number. An `Err` where the system can't wait, or not at one of them, or memory was refused.
    pub fn open(
        alloc: Global,
        rt: &'a R,
        pairs: &mut [SockPair<Watch<UdpSock>>],
    ) -> io::Result<Self>
        requires { length pairs.old ≤ MAX_PORTS }
    {
        let poll = Poll::new(rt)?;
        let events = Events::with_capacity(alloc, MOST_SOCKETS)?;
        register_all(poll.registry(), pairs)?;
        Ok(PollWaiter { rt, poll, events })
    }
}

/// Registers both sockets of each pair, under their numbers. An `Err` where the system doesn't take one.
fn register_all(registry: &Registry, pairs: &mut [SockPair<Watch<UdpSock>>]) -> io::Result<()>
    requires { length pairs.old ≤ MAX_PORTS }
{
    for place in 0..pairs.len() {
        register_pair(registry, place, &mut pairs[place])?;
    }
    Ok(())
}

/// Registers both sockets of the pair at this place, from 0.
fn register_pair(
    registry: &Registry,
    place: usize,
    pair: &mut SockPair<Watch<UdpSock>>,
) -> io::Result<()>
    requires { place < MAX_PORTS }
{
    pair.own
        .socket
        .register(registry, socket_number(place, true))?;
    pair.broadcast
        .socket
        .register(registry, socket_number(place, false))
}

/// Whether some event names the socket of this number.
fn names_socket(events: &Events, number: usize) -> bool
    ensures { result ≡ has_event_of number events.now }
{
    events.iter().any(|event| event.token().0 == number)
}

impl<R: Clock> Waiter for PollWaiter<'_, R> {
    ghost Waited = { λ _ _. ⊤ };

    ghost Quiet = { λ waiter number. has_event_of number waiter.events ≡ false };

    fn wait(&mut self, most: Duration) -> io::Result<()> {
        slowed(self.rt, self.poll.poll(&mut self.events, Some(most)))
    }

    fn has_come(&self, number: usize) -> bool {
        names_socket(&self.events, number)
    }
}
