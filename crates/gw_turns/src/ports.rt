//! What is counted by port: the datagrams that came to it, and what came of the sends that were tried on it.

ghost use Rattle.std.specs.Prelude.{◌≡◌, ◌<◌};
ghost use Rattle.gw_addr.specs.declared.TheConstants.{MAX_PORTS};
ghost use Rattle.gw_turns.specs.Ports.{no_datagrams, no_sends, place_of, received, received_at, restored, sent, sent_at};

use crate::tally::Culprit;
use gw_addr::MAX_PORTS;

/// How many datagrams came to a port. Each count stays at 2^64 - 1.
#[derive(Clone, Copy)]
pub struct PortTally {
    /// How many came.
    pub datagrams: u64,
    /// How many of them weren't passed on, whatever the reason.
    pub drops: u64,
}

/// How the sends on a port go.
#[derive(Clone, Copy)]
pub enum Health {
    /// None failed so far.
    Sound,
    /// The last one failed, when so many ticks had been taken.
    Failing(u64),
    /// They succeed again, since so many ticks had been taken: one succeeded then after one that had failed.
    Restored(u64),
}

/// What came of the sends that were tried on a port. Each count stays at 2^64 - 1.
#[derive(Clone, Copy)]
pub struct PortSends {
    /// How many succeeded.
    pub sends: u64,
    /// How many failed.
    pub failures: u64,
    /// How the last ones went.
    pub health: Health,
}

/// The place of a port among all, by its number from 1. A number that no port has is counted at the last place.
fn place_of(port: u8) -> usize
    ensures place { result ≡ place_of port }
    ensures inside { result < MAX_PORTS }
{
    usize::from(port.saturating_sub(1)).min(MAX_PORTS - 1)
}

impl PortTally {
    /// No datagram came.
    pub fn none() -> Self
        ensures { result ≡ no_datagrams }
    {
        PortTally {
            datagrams: 0,
            drops: 0,
        }
    }

    /// The counts after one more, which wasn't passed on for so many reasons.
    fn received(self, drops: u64) -> PortTally
        ensures { result ≡ received self drops }
    {
        PortTally {
            datagrams: self.datagrams.saturating_add(1),
            drops: self.drops.saturating_add(drops),
        }
    }
}

impl Health {
    /// How they go after one that succeeded when so many ticks had been taken.
    fn restored(self, ticks: u64) -> Health
        ensures { result ≡ restored self ticks }
    {
        match self {
            Health::Sound => Health::Sound,
            Health::Failing(_) => Health::Restored(ticks),
            Health::Restored(since) => Health::Restored(since),
        }
    }
}

impl PortSends {
    /// None was tried.
    pub fn none() -> Self
        ensures { result ≡ no_sends }
    {
        PortSends {
            sends: 0,
            failures: 0,
            health: Health::Sound,
        }
    }

    /// The counts after one more, which was tried when so many ticks had been taken, by whether it succeeded.
    fn sent(self, ticks: u64, success: bool) -> PortSends
        ensures { result ≡ sent self ticks success }
    {
        if success {
            PortSends {
                sends: self.sends.saturating_add(1),
                failures: self.failures,
                health: self.health.restored(ticks),
            }
        } else {
            PortSends {
                sends: self.sends,
                failures: self.failures.saturating_add(1),
                health: Health::Failing(ticks),
            }
        }
    }
}

/// Counts an event at the port that it came to, if it is a datagram, with for how many reasons it wasn't passed on.
pub(crate) fn count_received(
    ports: &mut [PortTally; MAX_PORTS],
    culprit: Option<Culprit>,
    drops: u64,
)
    ensures { ports.new ≡ received_at ports.old culprit drops }
{
    if let Some(culprit) = culprit {
        let place = place_of(culprit.port);
        ports[place] = ports[place].received(drops);
    }
}

/// Counts a send at the port that it was tried on when so many ticks had been taken, by whether it succeeded.
pub(crate) fn count_sent(ports: &mut [PortSends; MAX_PORTS], port: u8, ticks: u64, success: bool)
    ensures { ports.new ≡ sent_at ports.old port ticks success }
{
    let place = place_of(port);
    ports[place] = ports[place].sent(ticks, success);
}
