//! How many datagrams aren't passed on.

ghost use Rattle.std.specs.Prelude.{◌≡◌, ◌+◌, ◌<◌, ◌≤◌, ◌^◌};
ghost use Rattle.std.specs.List.{list_any};
ghost use Rattle.gw_script.specs.Event.{event_view};
ghost use Rattle.gw_turns.specs.Tally.{IsBelow, culprit_of, denies, is_for, newer, no_culprits, no_tally, number_if, only_if, tally_with};

use crate::ports::{PortTally, count_received};
use gw_addr::{BipAddr, MAX_PORTS};
use gw_audit::{Denial, Denials};
use gw_core::DropReason;
use gw_rules::Operation;
use gw_script::Event;

/// A datagram that was dropped: at which tick it came, on the port of which number, and from whom.
#[derive(Clone, Copy)]
pub struct Culprit {
    /// How many ticks the gateway had counted.
    pub tick: u64,
    /// The port's number, from 1.
    pub port: u8,
    /// Whom it came from.
    pub sender: BipAddr,
}

/// The last datagram that was dropped for each reason, if one was.
#[derive(Clone, Copy)]
pub struct Culprits {
    /// As [`DropReason::Malformed`].
    pub malformed: Option<Culprit>,
    /// As [`DropReason::OwnNetwork`].
    pub own_network: Option<Culprit>,
    /// As [`DropReason::NoPeer`].
    pub no_peer: Option<Culprit>,
}

/// How many datagrams weren't passed on, by the reason, and how many came, by the port; what a quiet rule denied isn't counted.
#[derive(Clone, Copy)]
pub struct DropTally {
    /// How many the policy didn't let enter.
    pub enter: u64,
    /// How many it didn't let speak for another network.
    pub claim: u64,
    /// How many were dropped as [`DropReason::Malformed`].
    pub malformed: u64,
    /// How many were dropped as [`DropReason::OwnNetwork`].
    pub own_network: u64,
    /// How many were dropped as [`DropReason::NoPeer`].
    pub no_peer: u64,
    /// The last one of these three.
    pub last: Culprits,
    /// How many came to each port, in order of their numbers, and how many of them weren't passed on.
    pub ports: [PortTally; MAX_PORTS],
}

/// Where and when an event that is a datagram came from.
fn culprit_of(tick: u64, event: &Event<'_>) -> Option<Culprit>
    ensures { result ≡ culprit_of tick (event_view event.now) }
{
    match *event {
        Event::Datagram { port, from, .. } => Some(Culprit {
            tick,
            port,
            sender: from,
        }),
        Event::Tick => None,
    }
}

/// That one, if something is so.
fn only_if(is: bool, culprit: Option<Culprit>) -> Option<Culprit>
    ensures { result ≡ only_if is culprit }
{
    if is { culprit } else { None }
}

/// The newer of two, if there is one.
fn newer(old: Option<Culprit>, new: Option<Culprit>) -> Option<Culprit>
    ensures { result ≡ newer old new }
{
    match new {
        Some(_) => new,
        None => old,
    }
}

/// One if something is so, and else none.
pub(crate) fn number_if(is: bool) -> u64
    ensures number { result ≡ number_if is }
    ensures most { result ≤ 1 }
{
    if is { 1 } else { 0 }
}

/// Whether an ask that is denied is for this operation.
fn is_for(operation: u64, denial: &Denial) -> bool
    ensures { result ≡ is_for operation denial.now }
{
    match denial.ask.operation {
        Some(number) => number == operation,
        None => false,
    }
}

/// Whether an ask for this operation is among those that are denied.
fn denies(operation: Operation, denials: &[Denial]) -> bool
    ensures { result ≡ denies operation denials.now }
{
    let number = operation.number();
    denials.iter().any(|denial| is_for(number, denial))
}

impl Culprits {
    /// Nothing was dropped.
    fn none() -> Self
        ensures { result ≡ no_culprits }
    {
        Culprits {
            malformed: None,
            own_network: None,
            no_peer: None,
        }
    }
}

impl DropTally {
    /// Nothing was counted.
    pub fn none() -> Self
        ensures { result ≡ no_tally }
    {
        DropTally {
            enter: 0,
            claim: 0,
            malformed: 0,
            own_network: 0,
            no_peer: 0,
            last: Culprits::none(),
            ports: [PortTally::none(); MAX_PORTS],
        }
    }

    /// Counts an event that was taken at this tick, by why it was dropped and what was denied of it.
    pub fn count(
        &mut self,
        tick: u64,
        event: &Event<'_>,
        drop: Option<DropReason>,
        denials: &Denials,
    )
        requires room { IsBelow (2 ^ 63) self.old }
        ensures { self.new ≡ tally_with self.old (culprit_of tick (event_view event.now)) drop denials.now }
    {
        let culprit = culprit_of(tick, event);
        let is_malformed = matches!(drop, Some(DropReason::Malformed));
        let is_own_network = matches!(drop, Some(DropReason::OwnNetwork));
        let is_no_peer = matches!(drop, Some(DropReason::NoPeer));
        let denials = denials.as_slice();
        let enter = number_if(denies(Operation::Enter, denials));
        let claim = number_if(denies(Operation::Claim, denials));
        let malformed = number_if(is_malformed);
        let own_network = number_if(is_own_network);
        let no_peer = number_if(is_no_peer);
        self.enter += enter;
        self.claim += claim;
        self.malformed += malformed;
        self.own_network += own_network;
        self.no_peer += no_peer;
        self.last.malformed = newer(self.last.malformed, only_if(is_malformed, culprit));
        self.last.own_network = newer(self.last.own_network, only_if(is_own_network, culprit));
        self.last.no_peer = newer(self.last.no_peer, only_if(is_no_peer, culprit));
        let drops = enter + claim + malformed + own_network + no_peer;
        count_received(&mut self.ports, culprit, drops);
    }
}
