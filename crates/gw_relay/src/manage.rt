//! Network layer messages that a router answers or learns from (clauses 6.4.1, 6.4.2, 6.4.19,
//! 6.4.20).

ghost use Rattle.std.specs.Prelude.{◌≡◌, ◌++◌, ◌∷◌, [], List, map, nat_le, true, false, None, IfOk, IsOk, OnErr, OnOk};
ghost use Rattle.gw_frames.specs.npdu.Npdu.{view as npdu_view};
ghost use Rattle.gw_rules.specs.declared.rule.Rule.{Rule};
ghost use Rattle.gw_relay.specs.Manage.{announced_but, answer_steps, answer_who_is_router, are_networks, is_for_all, is_i_am_router};
ghost use Rattle.gw_relay.specs.Manage.{is_what_is_network_number, is_who_is_router, i_am_router, keep_allowed};
ghost use Rattle.gw_relay.specs.Manage.{learn_ask, manage_asks, manage_response, network_number_is, network_octets};
ghost use Rattle.gw_relay.specs.Manage.{networks_in, number_step, question_of, question_of_all, question_steps};
ghost use Rattle.gw_relay.specs.Message.{message_view};
ghost use Rattle.gw_relay.specs.Turn.{IsWalked};
ghost use Rattle.gw_relay.specs.Route.{made};
ghost use Rattle.gw_relay.specs.Steps.{asks_of, broadcast};
ghost use Rattle.gw_relay.specs.internal.Serving.{learn_response, onward_of};
ghost use Rattle.gw_relay.specs.internal.Taken.{AreTaken};
ghost use Rattle.gw_frames.specs.npdu.Kind.{kind_number};

use crate::change::Change;
use crate::message::Message;
use crate::npdu::{is_kind, message_of};
use crate::outgoing::Outgoing;
use crate::port::PortState;
use crate::relay::Relay;
use crate::route::add_on_others;
use crate::sends::Sends;
use crate::turn::Turn;
use gw_addr::{NetNum, Sequence, put_number};
use gw_frames::npdu::{AddressRef, Destination, MessageKind, Npdu};
use gw_rules::{Asker, Format, Operation};
use gw_tables::routes::Way;
use std::alloc::AllocError;

/// The number of a network is configured, not learned (clause 6.4.20).
const CONFIGURED: u8 = 1;

/// Whether the octets are numbers of networks, from 1 to 65534, and nothing else.
fn are_networks(octets: &[u8]) -> bool
    ensures { result ≡ are_networks octets.now }
{
    match octets {
        [] => true,
        [_] => false,
        [high, low, rest @ ..] => {
            NetNum::new(u16::from_be_bytes([*high, *low])).is_some() && are_networks(rest)
        }
    }
}

/// Whether a message has no DNET, or is for every network.
fn is_for_all(npdu: &Npdu<'_>) -> bool
    ensures { result ≡ is_for_all (npdu_view npdu.now) }
{
    match &npdu.destination {
        Some(destination) => destination.network == Destination::EVERY_NETWORK,
        None => true,
    }
}

/// Whether a message asks for routers.
fn is_who_is_router(npdu: &Npdu<'_>) -> bool
    ensures { result ≡ is_who_is_router (npdu_view npdu.now) }
{
    is_kind(&npdu.payload, MessageKind::WhoIsRouterToNetwork) && is_for_all(npdu)
}

/// Whether a router on the port's own network names the networks that it reaches.
fn is_i_am_router(npdu: &Npdu<'_>) -> bool
    ensures { result ≡ is_i_am_router (npdu_view npdu.now) }
{
    let octets = npdu.payload.octets();
    is_kind(&npdu.payload, MessageKind::IAmRouterToNetwork)
        && is_for_all(npdu)
        && npdu.source.is_none()
        && !octets.is_empty()
        && are_networks(octets)
}

/// Whether a message asks for the number of the port's network.
fn is_what_is_network_number(npdu: &Npdu<'_>) -> bool
    ensures { result ≡ is_what_is_network_number (npdu_view npdu.now) }
{
    is_kind(&npdu.payload, MessageKind::WhatIsNetworkNumber)
        && npdu.destination.is_none()
        && npdu.source.is_none()
        && npdu.payload.octets().is_empty()
}

/// Appends networks, each two octets.
fn put_networks(networks: &[NetNum], out: &mut Vec<u8>) -> Result<(), AllocError>
    ensures { OnOk result (out.new.items ≡ out.old.items ++ network_octets networks.now) }
{
    let Some((network, rest)) = networks.split_first() else {
        return Ok(());
    };
    put_number(out, network.get())?;
    put_networks(rest, out)
}

impl PortState {
    /// Broadcasts a message of a type that the gateway makes.
    fn add_message(
        &self,
        kind: MessageKind,
        octets: &[u8],
        sends: &mut Sends,
    ) -> Result<(), AllocError>
        requires { nat_le 128 (kind_number kind) ≡ false }
        ensures { let sent = broadcast (made None None kind octets.now) self.now in
            OnOk result (sends.new ≡ sends.old ++ sent) }
    {
        let message = message_of(kind, octets);
        let made = Outgoing::made(sends, &message)?;
        self.add_broadcast(made, sends)
    }

    /// Broadcasts an I-Am-Router-To-Network for these networks (clause 6.4.2).
    pub(crate) fn add_i_am_router(
        &self,
        networks: &[NetNum],
        sends: &mut Sends,
    ) -> Result<(), AllocError>
        ensures { let sent = broadcast (i_am_router networks.now) self.now in
            OnOk result (sends.new ≡ sends.old ++ sent) }
    {
        let mut octets = Vec::new(sends.alloc());
        put_networks(networks, &mut octets)?;
        let kind = MessageKind::IAmRouterToNetwork;
        self.add_message(kind, octets.as_slice(), sends)
    }

    /// Broadcasts an I-Am-Router-To-Network for one network (clause 6.4.2).
    fn add_i_am_router_to(&self, network: NetNum, sends: &mut Sends) -> Result<(), AllocError>
        ensures { let sent = broadcast (i_am_router (network ∷ [])) self.now in
            OnOk result (sends.new ≡ sends.old ++ sent) }
    {
        let octets = network.get().to_be_bytes();
        self.add_message(MessageKind::IAmRouterToNetwork, &octets, sends)
    }

    /// Broadcasts a Network-Number-Is (clause 6.4.20).
    fn add_number_is(&self, sends: &mut Sends) -> Result<(), AllocError>
        ensures { let sent = broadcast (network_number_is self.now.port.network) self.now in
            OnOk result (sends.new ≡ sends.old ++ sent) }
    {
        let [high, low] = self.port.network.get().to_be_bytes();
        let kind = MessageKind::NetworkNumberIs;
        self.add_message(kind, &[high, low, CONFIGURED], sends)
    }
}

impl Message<'_> {
    /// Asks, and answers a What-Is-Network-Number (clause 6.4.19).
    fn add_number_answer<A: Asker>(
        &self,
        format: Format,
        turn: &mut Turn<A>,
    ) -> Result<(), AllocError>
        ensures steps { (rules : List Rule) → A.StandsFor turn.old.asker rules →
            let step = number_step format (message_view self.now) in
            OnOk result (AreTaken A.kept A.kept_of rules (step ∷ []) turn.old turn.new) }
        ensures stays { (rules : List Rule) → A.StandsFor turn.old.asker rules →
            A.StandsFor turn.new.asker rules }
        ensures picks { A.picks turn.new.asker ≡ A.picks turn.old.asker }
    {
        let ask = self.ask(format, Operation::Network, None);
        if turn.asker.authorize(&ask)? {
            self.here.add_number_is(&mut turn.sends)
        } else {
            Ok(())
        }
    }

    /// Asks for each network that a router names, and keeps those that may be learned.
    fn keep_allowed<A: Asker>(
        &self,
        format: Format,
        octets: &[u8],
        networks: &mut Sequence<NetNum>,
        asker: &mut A,
    ) -> Result<(), AllocError>
        requires { are_networks octets.now ≡ true }
        ensures networks { (rules : List Rule) → A.StandsFor asker.old rules →
            let kept = keep_allowed rules format (message_view self.now) (networks_in octets.now) in
            OnOk result (networks.new ≡ networks.old ++ kept) }
        ensures verdicts { (rules : List Rule) → A.StandsFor asker.old rules →
            let asks = map (learn_ask format (message_view self.now)) (networks_in octets.now) in
            OnOk result (A.kept asker.new ≡ A.kept asker.old ++ A.kept_of rules asks) }
        ensures stays { (rules : List Rule) → A.StandsFor asker.old rules →
            A.StandsFor asker.new rules }
        ensures picks { A.picks asker.new ≡ A.picks asker.old }
    {
        let [high, low, rest @ ..] = octets else {
            return Ok(());
        };
        let network = NetNum::new(u16::from_be_bytes([*high, *low])).unwrap();
        let ask = self.ask(format, Operation::Learn, Some(network.get()));
        if asker.authorize(&ask)? {
            networks.push(network)?;
        }
        self.keep_allowed(format, rest, networks, asker)
    }
}

impl Relay {
    /// Announces networks that may be learned of a message on each other port, if networks are announced: those that are
    /// learned for the first time (clause 6.6.3.3).
    fn add_onward(
        &self,
        message: &Message<'_>,
        networks: &[NetNum],
        sends: &mut Sends,
    ) -> Result<(), AllocError>
        ensures { let sent = onward_of self.now (message_view message.now) networks.now in
            OnOk result (sends.new ≡ sends.old ++ sent) }
    {
        if !self.announces() {
            return Ok(());
        }
        let learned = self.routes().new_networks(sends.alloc(), networks)?;
        self.add_announced(message.here.port.number, learned.as_slice(), sends)
    }

    /// Announces networks on each port but that of this number. If there is none nothing is sent.
    fn add_announced(
        &self,
        number: u8,
        networks: &[NetNum],
        sends: &mut Sends,
    ) -> Result<(), AllocError>
        ensures { let sent = announced_but number self.now.ports networks.now in
            OnOk result (sends.new ≡ sends.old ++ sent) }
    {
        if networks.is_empty() {
            return Ok(());
        }
        let mut octets = Vec::new(sends.alloc());
        put_networks(networks, &mut octets)?;
        let announced = message_of(MessageKind::IAmRouterToNetwork, octets.as_slice());
        add_on_others(self.ports(), number, &announced, sends)
    }

    /// Asks for each network that a router names, and keeps those to be committed that may be learned. Those that are
    /// new are announced onward.
    fn learn<A: Asker>(&self, message: &Message<'_>, turn: &mut Turn<A>) -> Result<(), AllocError>
        requires { is_i_am_router (message_view message.now).npdu ≡ true }
        ensures turn { (rules : List Rule) → A.StandsFor turn.old.asker rules →
            let due = learn_response rules self.now (message_view message.now) in
            OnOk result (IsWalked A.kept A.kept_of rules due turn.old turn.new) }
        ensures stays { (rules : List Rule) → A.StandsFor turn.old.asker rules →
            A.StandsFor turn.new.asker rules }
        ensures picks { A.picks turn.new.asker ≡ A.picks turn.old.asker }
    {
        let mut networks = Sequence::new(turn.alloc());
        let octets = message.npdu.payload.octets();
        message.keep_allowed(self.format(), octets, &mut networks, &mut turn.asker)?;
        self.add_onward(message, networks.as_slice(), &mut turn.sends)?;
        turn.set_change(Some(Change::Learnings {
            port: message.here.port.number,
            next: message.link(),
            networks,
        }));
        Ok(())
    }

    /// Passes a question for a network on to the other ports' routers, with who asked.
    fn forward_who_is_router(
        &self,
        message: &Message<'_>,
        network: NetNum,
        sends: &mut Sends,
    ) -> Result<(), AllocError>
        ensures { let sent = answer_who_is_router self.now (message_view message.now) network Way.Unknown in
            OnOk result (sends.new ≡ sends.old ++ sent) }
    {
        let here = &message.here.port;
        let node = message.link().to_octets();
        let asker = message.npdu.source.unwrap_or(AddressRef {
            network: here.network.get(),
            mac: &node,
        });
        let asker = Some(asker);
        self.add_who_is_router(here.number, &asker, network.get(), sends)
    }

    /// Answers a question for a network, by its way.
    fn answer_who_is_router(
        &self,
        message: &Message<'_>,
        network: NetNum,
        way: &Way,
        sends: &mut Sends,
    ) -> Result<(), AllocError>
        ensures { let sent = answer_who_is_router self.now (message_view message.now) network way.now in
            OnOk result (sends.new ≡ sends.old ++ sent) }
    {
        let here = message.here;
        match way {
            Way::Port(other) if *other == usize::from(here.port.number) => Ok(()),
            Way::Router(route) if route.port == here.port.number => Ok(()),
            Way::Port(_) | Way::Device | Way::Router(_) => here.add_i_am_router_to(network, sends),
            Way::Unknown => self.forward_who_is_router(message, network, sends),
            Way::Everywhere => Ok(()),
        }
    }

    /// Asks, and answers a question for a network.
    fn add_answer<A: Asker>(
        &self,
        message: &Message<'_>,
        network: NetNum,
        turn: &mut Turn<A>,
    ) -> Result<(), AllocError>
        ensures steps { (rules : List Rule) → A.StandsFor turn.old.asker rules →
            let step = question_of self.now (message_view message.now) network in
            OnOk result (AreTaken A.kept A.kept_of rules (step ∷ []) turn.old turn.new) }
        ensures stays { (rules : List Rule) → A.StandsFor turn.old.asker rules →
            A.StandsFor turn.new.asker rules }
        ensures picks { A.picks turn.new.asker ≡ A.picks turn.old.asker }
    {
        let ask = message.ask(self.format(), Operation::Network, Some(network.get()));
        if !turn.asker.authorize(&ask)? {
            return Ok(());
        }
        let mut way = Way::Unknown;
        self.routes().find_to(network.get(), &mut way);
        self.answer_who_is_router(message, network, &way, &mut turn.sends)
    }

    /// Asks, and answers a question for all networks.
    fn add_answer_to_all<A: Asker>(
        &self,
        message: &Message<'_>,
        turn: &mut Turn<A>,
    ) -> Result<(), AllocError>
        ensures steps { (rules : List Rule) → A.StandsFor turn.old.asker rules →
            let step = question_of_all self.now (message_view message.now) in
            OnOk result (AreTaken A.kept A.kept_of rules (step ∷ []) turn.old turn.new) }
        ensures stays { (rules : List Rule) → A.StandsFor turn.old.asker rules →
            A.StandsFor turn.new.asker rules }
        ensures picks { A.picks turn.new.asker ≡ A.picks turn.old.asker }
    {
        let ask = message.ask(self.format(), Operation::Network, None);
        if !turn.asker.authorize(&ask)? {
            return Ok(());
        }
        let here = message.here;
        let networks = self
            .routes()
            .reachable_from(turn.alloc(), here.port.number)?;
        here.add_i_am_router(networks.as_slice(), &mut turn.sends)
    }

    /// Asks, and answers a Who-Is-Router-To-Network by its octets.
    fn add_answers<A: Asker>(
        &self,
        message: &Message<'_>,
        octets: &[u8],
        turn: &mut Turn<A>,
    ) -> Result<(), AllocError>
        ensures steps { (rules : List Rule) → A.StandsFor turn.old.asker rules →
            let steps = question_steps self.now (message_view message.now) octets.now in
            OnOk result (AreTaken A.kept A.kept_of rules steps turn.old turn.new) }
        ensures stays { (rules : List Rule) → A.StandsFor turn.old.asker rules →
            A.StandsFor turn.new.asker rules }
        ensures picks { A.picks turn.new.asker ≡ A.picks turn.old.asker }
        ensures silent { let steps = question_steps self.now (message_view message.now) octets.now in
            asks_of steps ≡ [] → IsOk result }
        ensures unasked { let steps = question_steps self.now (message_view message.now) octets.now in
            asks_of steps ≡ [] → turn.new ≡ turn.old }
    {
        match octets {
            [] => self.add_answer_to_all(message, turn),
            [_] => Ok(()),
            [high, low] => match NetNum::new(u16::from_be_bytes([*high, *low])) {
                Some(network) => self.add_answer(message, network, turn),
                None => Ok(()),
            },
            [_, _, _, ..] => Ok(()),
        }
    }

    /// Asks, and answers a question by its type.
    fn add_by_type<A: Asker>(
        &self,
        message: &Message<'_>,
        turn: &mut Turn<A>,
    ) -> Result<(), AllocError>
        ensures steps { (rules : List Rule) → A.StandsFor turn.old.asker rules →
            let steps = answer_steps self.now (message_view message.now) in
            OnOk result (AreTaken A.kept A.kept_of rules steps turn.old turn.new) }
        ensures stays { (rules : List Rule) → A.StandsFor turn.old.asker rules →
            A.StandsFor turn.new.asker rules }
        ensures picks { A.picks turn.new.asker ≡ A.picks turn.old.asker }
        ensures silent { asks_of (answer_steps self.now (message_view message.now)) ≡ [] → IsOk result }
        ensures unasked { asks_of (answer_steps self.now (message_view message.now)) ≡ [] →
            turn.new ≡ turn.old }
    {
        if is_who_is_router(message.npdu) {
            let octets = message.npdu.payload.octets();
            return self.add_answers(message, octets, turn);
        }
        if is_what_is_network_number(message.npdu) {
            return message.add_number_answer(self.format(), turn);
        }
        Ok(())
    }

    /// Answers a network layer message (clause 6.4): a Who-Is-Router-To-Network and a
    /// What-Is-Network-Number get an answer, and of an I-Am-Router-To-Network each network that the
    /// policy allows is to be learned, and announced onward if it is new. What that gives is added to the turn. It changes nothing. The
    /// only fault is want of memory, and then a part may be added; what asks nothing wants none.
    pub fn manage<A: Asker>(
        &self,
        message: &Message<'_>,
        turn: &mut Turn<A>,
    ) -> Result<(), AllocError>
        ensures turn { (rules : List Rule) → A.StandsFor turn.old.asker rules →
            let due = manage_response rules self.now (message_view message.now) in
            OnOk result (IsWalked A.kept A.kept_of rules due turn.old turn.new) }
        ensures stays { (rules : List Rule) → A.StandsFor turn.old.asker rules →
            A.StandsFor turn.new.asker rules }
        ensures picks { A.picks turn.new.asker ≡ A.picks turn.old.asker }
        ensures silent { manage_asks self.now (message_view message.now) ≡ [] → IsOk result }
        ensures unasked { manage_asks self.now (message_view message.now) ≡ [] → turn.new ≡ turn.old }
    {
        if is_i_am_router(message.npdu) {
            return self.learn(message, turn);
        }
        self.add_by_type(message, turn)
    }
}
