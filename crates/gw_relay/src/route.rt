//! Routing (clauses 6.2.2, 6.4.4, 6.5): where a message goes by the way of its destination.

ghost use Rattle.std.specs.Prelude.{◌≡◌, ◌++◌, ◌∷◌, [], List, map, IfOk, IsOk, OnErr, OnOk, None};
ghost use Rattle.std.specs.List.{flat_map};
ghost use Rattle.std.specs.Option.{option_map};
ghost use Rattle.gw_frames.specs.npdu.Npdu.{view as npdu_view, address_view, destination_view, payload_view};
ghost use Rattle.gw_rules.specs.declared.rule.Rule.{Rule};
ghost use Rattle.gw_relay.specs.Message.{message_view};
ghost use Rattle.gw_relay.specs.Turn.{IsWalked};
ghost use Rattle.gw_relay.specs.Route.{copy, copy_to_port, delivered, forward, has_hops, hop, is_local, last_hop};
ghost use Rattle.gw_relay.specs.Route.{leaves, on_way, others, reject, reject_and_search, route_asks, route_response};
ghost use Rattle.gw_relay.specs.Route.{routed, steps_by, who_is_router};
ghost use Rattle.gw_relay.specs.Steps.{asks_of, broadcast, npdu_octets, unicast};
ghost use Rattle.gw_relay.specs.internal.Taken.{AreTaken};

use crate::ask::bound_for;
use crate::message::Message;
use crate::npdu::{add_unicast, is_kind, message_of};
use crate::outgoing::Outgoing;
use crate::port::{PortState, port_at};
use crate::relay::Relay;
use crate::sends::Sends;
use crate::turn::Turn;
use gw_frames::npdu::{AddressRef, Destination, MessageKind, Npdu, Onward, Payload};
use gw_rules::{Asker, Format, Operation};
use gw_tables::routes::{Route, Way};
use std::alloc::AllocError;

/// Reason 1 of a Reject-Message-To-Network: no way to the network is known (clause 6.4.4).
const UNREACHABLE: u8 = 1;

/// Whether a way leads on: not back by the port of this number, nor to the device.
pub(crate) fn leaves(number: u8, way: &Way) -> bool
    ensures { result ≡ leaves number way.now }
{
    match way {
        Way::Port(other) => *other != usize::from(number),
        Way::Router(route) => route.port != number,
        Way::Unknown => true,
        Way::Device | Way::Everywhere => false,
    }
}

/// Whether a hop count has one to take and one to go on with (clause 6.2.3).
fn has_hops(destination: &Destination<'_>) -> bool
    ensures { result ≡ has_hops (destination_view destination.now) }
{
    destination.hops > 1
}

/// Whether a message is for one network, and isn't routed (clauses 6.4.19, 6.4.20).
fn is_local(payload: &Payload<'_>) -> bool
    ensures { result ≡ is_local (payload_view payload.now) }
{
    is_kind(payload, MessageKind::WhatIsNetworkNumber)
        || is_kind(payload, MessageKind::NetworkNumberIs)
}

impl Message<'_> {
    /// The message for its next hop, whose destination stays or goes; the node that it came from is
    /// added if it names no source. None if it would be over 1497 octets.
    fn hop(
        &self,
        sends: &mut Sends,
        keeps_destination: bool,
    ) -> Result<Option<Outgoing>, AllocError>
        ensures made { let next = hop keeps_destination (message_view self.now) in
            IfOk result (λ made. made ≡ npdu_octets next) }
        ensures stays { sends.new ≡ sends.old }
    {
        let node = self.link().to_octets();
        let source = AddressRef {
            network: self.here.port.network.get(),
            mac: &node,
        };
        let how = Onward {
            keeps_destination,
            source,
        };
        Outgoing::onward(sends, self.npdu, &how)
    }

    /// Adds the message on the destination's own network: to all, or to an address that belongs to the
    /// port.
    fn add_delivered(
        &self,
        format: Format,
        mac: &[u8],
        port: &PortState,
        sends: &mut Sends,
    ) -> Result<(), AllocError>
        ensures { let npdu = last_hop (message_view self.now) in
            OnOk result (sends.new ≡ sends.old ++ delivered format mac.now npdu port.now) }
    {
        if mac.is_empty() {
            let next = self.hop(sends, false)?;
            return port.add_broadcast(next, sends);
        }
        match gw_addr::bip_from_slice(mac) {
            Ok(to) if port.belongs(format, to) => {
                let next = self.hop(sends, false)?;
                add_unicast(port.port.number, to, next, sends)
            }
            _ => Ok(()),
        }
    }

    /// Adds the message to the next router.
    fn add_routed(
        &self,
        destination: &Destination<'_>,
        route: &Route,
        sends: &mut Sends,
    ) -> Result<(), AllocError>
        ensures { let sent = routed (message_view self.now) (destination_view destination.now) route.now in
            OnOk result (sends.new ≡ sends.old ++ sent) }
    {
        if !has_hops(destination) {
            return Ok(());
        }
        let next = self.hop(sends, true)?;
        add_unicast(route.port, route.next, next, sends)
    }

    /// Adds the copy of a global broadcast for another port.
    fn copy_to_port(
        &self,
        destination: &Destination<'_>,
        port: &PortState,
        sends: &mut Sends,
    ) -> Result<(), AllocError>
        ensures { let sent = copy_to_port (message_view self.now) (destination_view destination.now) port.now in
            OnOk result (sends.new ≡ sends.old ++ sent) }
    {
        if !has_hops(destination) {
            return Ok(());
        }
        let next = self.hop(sends, true)?;
        port.add_broadcast(next, sends)
    }

    /// Adds the Reject-Message-To-Network for the message (clause 6.4.4).
    fn add_reject(&self, network: u16, sends: &mut Sends) -> Result<(), AllocError>
        ensures { let m = message_view self.now in
            let sent = unicast m.here.port.number m.link (reject network m.npdu) in
            OnOk result (sends.new ≡ sends.old ++ sent) }
    {
        let [high, low] = network.to_be_bytes();
        let octets = [UNREACHABLE, high, low];
        let destination = match &self.npdu.source {
            Some(source) => Some(Destination {
                network: source.network,
                mac: source.mac,
                hops: Destination::WHOLE_HOP_COUNT,
            }),
            None => None,
        };
        let rejected = Npdu {
            destination,
            ..message_of(MessageKind::RejectMessageToNetwork, &octets)
        };
        let made = Outgoing::made(sends, &rejected)?;
        add_unicast(self.here.port.number, self.link(), made, sends)
    }
}

/// Adds a message that the gateway makes as a broadcast on each port but that of this number.
pub(crate) fn add_on_others(
    ports: &[PortState],
    number: u8,
    npdu: &Npdu<'_>,
    sends: &mut Sends,
) -> Result<(), AllocError>
    ensures { let sent = flat_map (broadcast (npdu_view npdu.now)) (others number ports.now) in
        OnOk result (sends.new ≡ sends.old ++ sent) }
{
    let Some((port, rest)) = ports.split_first() else {
        return Ok(());
    };
    if port.port.number == number {
        return add_on_others(rest, number, npdu, sends);
    }
    let made = Outgoing::made(sends, npdu)?;
    port.add_broadcast(made, sends)?;
    add_on_others(rest, number, npdu, sends)
}

impl Relay {
    /// Adds a Who-Is-Router-To-Network for a network, from this source, as a broadcast by the gateway
    /// on each port but that of this number (clause 6.4.1).
    pub(crate) fn add_who_is_router(
        &self,
        number: u8,
        source: &Option<AddressRef<'_>>,
        network: u16,
        sends: &mut Sends,
    ) -> Result<(), AllocError>
        ensures { let asked = who_is_router (option_map address_view source.now) network in
            let sent = flat_map (broadcast asked) (others number self.now.ports) in
            OnOk result (sends.new ≡ sends.old ++ sent) }
    {
        let octets = network.to_be_bytes();
        let asked = Npdu {
            source: *source,
            ..message_of(MessageKind::WhoIsRouterToNetwork, &octets)
        };
        add_on_others(self.ports(), number, &asked, sends)
    }

    /// Rejects a message for which no way is known, and asks the other ports' routers for one.
    fn reject_and_search(
        &self,
        message: &Message<'_>,
        network: u16,
        sends: &mut Sends,
    ) -> Result<(), AllocError>
        ensures { let sent = reject_and_search self.now (message_view message.now) network in
            OnOk result (sends.new ≡ sends.old ++ sent) }
    {
        if is_kind(&message.npdu.payload, MessageKind::RejectMessageToNetwork) {
            return Ok(());
        }
        message.add_reject(network, sends)?;
        self.add_who_is_router(message.here.port.number, &None, network, sends)
    }

    /// Adds what is sent by a way that is one.
    fn forward(
        &self,
        message: &Message<'_>,
        destination: &Destination<'_>,
        way: &Way,
        sends: &mut Sends,
    ) -> Result<(), AllocError>
        ensures { let d = destination_view destination.now in
            let sent = forward self.now (message_view message.now) d way.now in
            OnOk result (sends.new ≡ sends.old ++ sent) }
    {
        match way {
            Way::Port(number) => match port_at(self.ports(), *number) {
                Some(port) => message.add_delivered(self.format(), destination.mac, port, sends),
                None => Ok(()),
            },
            Way::Router(route) => message.add_routed(destination, route, sends),
            Way::Unknown => self.reject_and_search(message, destination.network, sends),
            Way::Device | Way::Everywhere => Ok(()),
        }
    }

    /// Asks for each other port, and adds the copies of a global broadcast.
    fn add_copies<A: Asker>(
        &self,
        message: &Message<'_>,
        destination: &Destination<'_>,
        ports: &[PortState],
        turn: &mut Turn<A>,
    ) -> Result<(), AllocError>
        ensures steps { (rules : List Rule) → A.StandsFor turn.old.asker rules →
            let copy = copy self.now.format (message_view message.now) (destination_view destination.now) in
            let steps = map copy (others message.now.here.now.port.number ports.now) in
            OnOk result (AreTaken A.kept A.kept_of rules steps turn.old turn.new) }
        ensures stays { (rules : List Rule) → A.StandsFor turn.old.asker rules →
            A.StandsFor turn.new.asker rules }
        ensures picks { A.picks turn.new.asker ≡ A.picks turn.old.asker }
        ensures silent { others message.now.here.now.port.number ports.now ≡ [] → IsOk result }
        ensures unasked { others message.now.here.now.port.number ports.now ≡ [] → turn.new ≡ turn.old }
    {
        let Some((port, rest)) = ports.split_first() else {
            return Ok(());
        };
        if port.port.number == message.here.port.number {
            return self.add_copies(message, destination, rest, turn);
        }
        self.add_copy(message, destination, port, turn)?;
        self.add_copies(message, destination, rest, turn)
    }

    /// Asks for another port, and adds the copy of a global broadcast if it is allowed.
    fn add_copy<A: Asker>(
        &self,
        message: &Message<'_>,
        destination: &Destination<'_>,
        port: &PortState,
        turn: &mut Turn<A>,
    ) -> Result<(), AllocError>
        ensures steps { (rules : List Rule) → A.StandsFor turn.old.asker rules →
            let d = destination_view destination.now in
            let copy = copy self.now.format (message_view message.now) d port.now in
            OnOk result (AreTaken A.kept A.kept_of rules (copy ∷ []) turn.old turn.new) }
        ensures stays { (rules : List Rule) → A.StandsFor turn.old.asker rules →
            A.StandsFor turn.new.asker rules }
        ensures picks { A.picks turn.new.asker ≡ A.picks turn.old.asker }
    {
        let ask = message.passing_ask(
            self.format(),
            Operation::Route,
            Some(port.port.network.get()),
        );
        if self.authorize_forward(&mut turn.asker, &ask, &message.npdu.payload)? {
            message.copy_to_port(destination, port, &mut turn.sends)
        } else {
            Ok(())
        }
    }

    /// Asks for one way, and adds what is sent if it is allowed.
    fn add_on_way<A: Asker>(
        &self,
        message: &Message<'_>,
        destination: &Destination<'_>,
        way: &Way,
        turn: &mut Turn<A>,
    ) -> Result<(), AllocError>
        ensures steps { (rules : List Rule) → A.StandsFor turn.old.asker rules →
            let d = destination_view destination.now in
            let step = on_way self.now (message_view message.now) d way.now in
            OnOk result (AreTaken A.kept A.kept_of rules (step ∷ []) turn.old turn.new) }
        ensures stays { (rules : List Rule) → A.StandsFor turn.old.asker rules →
            A.StandsFor turn.new.asker rules }
        ensures picks { A.picks turn.new.asker ≡ A.picks turn.old.asker }
    {
        let ask = message.passing_ask(self.format(), Operation::Route, bound_for(message.npdu));
        if self.authorize_forward(&mut turn.asker, &ask, &message.npdu.payload)? {
            self.forward(message, destination, way, &mut turn.sends)
        } else {
            Ok(())
        }
    }

    /// Asks and adds by the way of the destination.
    #[tactic(auto, using(crate::proofs::WayLemmas::everywhere_silent))]
    #[inline(never)]
    fn add_by_way<A: Asker>(
        &self,
        message: &Message<'_>,
        destination: &Destination<'_>,
        way: &Way,
        turn: &mut Turn<A>,
    ) -> Result<(), AllocError>
        ensures steps { (rules : List Rule) → A.StandsFor turn.old.asker rules →
            let d = destination_view destination.now in
            let steps = steps_by self.now (message_view message.now) d way.now in
            OnOk result (AreTaken A.kept A.kept_of rules steps turn.old turn.new) }
        ensures stays { (rules : List Rule) → A.StandsFor turn.old.asker rules →
            A.StandsFor turn.new.asker rules }
        ensures picks { A.picks turn.new.asker ≡ A.picks turn.old.asker }
        ensures silent { let d = destination_view destination.now in
            let steps = steps_by self.now (message_view message.now) d way.now in
            asks_of steps ≡ [] → IsOk result }
        ensures unasked { let d = destination_view destination.now in
            let steps = steps_by self.now (message_view message.now) d way.now in
            asks_of steps ≡ [] → turn.new ≡ turn.old }
    {
        if *way == Way::Everywhere {
            return self.add_copies(message, destination, self.ports(), turn);
        }
        if !leaves(message.here.port.number, way) {
            return Ok(());
        }
        self.add_on_way(message, destination, way, turn)
    }

    /// Routes a message (clause 6.5). By the way of its destination the policy is asked, and what is
    /// allowed is sent: to a station of another port's network or to all there, to the next router,
    /// or to all other ports. If no way is known the link source gets a reject, and the other
    /// ports' routers are asked for one. What that gives is added to the turn. It changes nothing. The only
    /// fault is want of memory, and then a part may be added; what asks nothing wants none.
    #[inline(always)]
    pub fn route<A: Asker>(
        &self,
        message: &Message<'_>,
        turn: &mut Turn<A>,
    ) -> Result<(), AllocError>
        ensures turn { (rules : List Rule) → A.StandsFor turn.old.asker rules →
            let due = route_response rules self.now (message_view message.now) in
            OnOk result (IsWalked A.kept A.kept_of rules due turn.old turn.new) }
        ensures stays { (rules : List Rule) → A.StandsFor turn.old.asker rules →
            A.StandsFor turn.new.asker rules }
        ensures picks { A.picks turn.new.asker ≡ A.picks turn.old.asker }
        ensures silent { route_asks self.now (message_view message.now) ≡ [] → IsOk result }
        ensures unasked { route_asks self.now (message_view message.now) ≡ [] → turn.new ≡ turn.old }
    {
        let Some(destination) = &message.npdu.destination else {
            return Ok(());
        };
        if is_local(&message.npdu.payload) {
            return Ok(());
        }
        let mut way = Way::Unknown;
        self.routes().find_to(destination.network, &mut way);
        if way == Way::Device {
            return Ok(());
        }
        self.add_by_way(message, destination, &way, turn)
    }
}
