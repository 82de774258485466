//! What is asked before a message is taken, in a format that names stations: whether a station may enter
//! that doesn't belong to the port, and whether a station may speak for a network that doesn't lie behind
//! it.

ghost use Rattle.std.specs.Prelude.{◌≡◌, [], List, IfOk, IsOk, OnOk};
ghost use Rattle.gw_frames.specs.bvll.Bvll.{view as frame_view};
ghost use Rattle.gw_frames.specs.npdu.Npdu.{address_view};
ghost use Rattle.gw_rules.specs.declared.rule.Rule.{Rule};
ghost use Rattle.gw_relay.specs.Entry.{admits, claim_ask, comes_by_route, enter_ask, enters, entry_asks};
ghost use Rattle.gw_relay.specs.Entry.{entry_response, is_stranger, leads_by, speaks_for_others};
ghost use Rattle.gw_relay.specs.Message.{message_view};
ghost use Rattle.gw_relay.specs.Turn.{IsWalked};
ghost use Rattle.gw_relay.specs.internal.Entering.{asks_where};
ghost use Rattle.gw_relay.specs.internal.Taken.{AreAsked};

use crate::ask::sender_of;
use crate::message::Message;
use crate::named::authorize_one;
use crate::relay::Relay;
use crate::turn::Turn;
use gw_addr::BipAddr;
use gw_frames::bvll::Bvll;
use gw_frames::npdu::AddressRef;
use gw_rules::{Ask, Asker, Format, Operation};
use gw_tables::routes::Way;
use std::alloc::AllocError;

/// Whether a frame is one by which a station reaches the network of a port: an Original-Unicast-NPDU,
/// an Original-Broadcast-NPDU or a Forwarded-NPDU (Annex J.2.5, J.2.11, J.2.12).
fn enters(frame: &Bvll<'_>) -> bool
    ensures { result ≡ enters (frame_view frame.now) }
{
    matches!(
        frame,
        Bvll::Forwarded { .. } | Bvll::OriginalUnicast(_) | Bvll::OriginalBroadcast(_)
    )
}

/// Whether a way leads by the port of this number to this router.
fn leads_by(number: u8, router: BipAddr, way: &Way) -> bool
    ensures { result ≡ leads_by number router way.now }
{
    match way {
        Way::Router(route) => route.port == number && route.next == router,
        _ => false,
    }
}

impl Message<'_> {
    /// The ask of the link source, as a node of the port's network.
    #[tactic(auto, using(crate::proofs::SourceKeys::node_key))]
    fn enter_ask(&self, format: Format) -> Ask
        ensures { result ≡ enter_ask format (message_view self.now) }
    {
        Ask {
            port: Some(u64::from(self.here.port.number)),
            source_network: Some(u64::from(self.here.port.network.get())),
            source_key: Some(self.link().key48()),
            sender: sender_of(format, self.from),
            ..Ask::new(Operation::Enter)
        }
    }

    /// The ask of the source that the message claims.
    fn claim_ask(&self, format: Format) -> Ask
        ensures { result ≡ claim_ask format (message_view self.now) }
    {
        Ask {
            port: Some(u64::from(self.here.port.number)),
            source_network: Some(u64::from(self.source_network())),
            source_key: self.source_key(format),
            sender: sender_of(format, self.from),
            ..Ask::new(Operation::Claim)
        }
    }

    /// Whether the link source enters the network of the port and doesn't belong to it.
    fn is_stranger(&self, format: Format) -> bool
        ensures { result ≡ is_stranger format (message_view self.now) }
    {
        enters(self.frame) && !self.here.belongs(format, self.link())
    }
}

impl Relay {
    /// Whether the way of a source's network leads by the port of the message to its link source.
    fn comes_by_route(&self, message: &Message<'_>, source: &AddressRef<'_>) -> bool
        ensures { let m = message_view message.now in
            result ≡ comes_by_route self.now m (address_view source.now) }
    {
        let mut way = Way::Unknown;
        self.routes().find_to(source.network, &mut way);
        leads_by(message.here.port.number, message.link(), &way)
    }

    /// Whether a message names a source that doesn't come by its route.
    fn speaks_for_others(&self, message: &Message<'_>) -> bool
        ensures { result ≡ speaks_for_others self.now (message_view message.now) }
    {
        if !self.format().names_stations() {
            return false;
        }
        match &message.npdu.source {
            Some(source) => !self.comes_by_route(message, source),
            None => false,
        }
    }

    /// Puts the `enter` ask of a stranger, and if it is allowed the `claim` ask of one who speaks for
    /// others; and answers whether all are.
    fn authorize_entry<A: Asker>(
        &self,
        message: &Message<'_>,
        is_stranger: bool,
        speaks_for_others: bool,
        asker: &mut A,
    ) -> Result<bool, AllocError>
        ensures asked { (rules : List Rule) → A.StandsFor asker.old rules →
            let asks = asks_where rules self.now.format (message_view message.now) in
            let due = asks is_stranger speaks_for_others in
            IfOk result (AreAsked A.kept A.kept_of rules due asker.old asker.new) }
        ensures stays { (rules : List Rule) → A.StandsFor asker.old rules →
            A.StandsFor asker.new rules }
        ensures picks { A.picks asker.new ≡ A.picks asker.old }
    {
        if is_stranger && !authorize_one(asker, &message.enter_ask(self.format()))? {
            return Ok(false);
        }
        if speaks_for_others {
            return authorize_one(asker, &message.claim_ask(self.format()));
        }
        Ok(true)
    }

    /// Asks for a message in a format that names stations, and refuses one that isn't admitted.
    #[inline(never)]
    fn add_admission<A: Asker>(
        &self,
        message: &Message<'_>,
        turn: &mut Turn<A>,
    ) -> Result<bool, AllocError>
        ensures turn { (rules : List Rule) → A.StandsFor turn.old.asker rules →
            let due = entry_response rules self.now (message_view message.now) in
            OnOk result (IsWalked A.kept A.kept_of rules due turn.old turn.new) }
        ensures stays { (rules : List Rule) → A.StandsFor turn.old.asker rules →
            A.StandsFor turn.new.asker rules }
        ensures picks { A.picks turn.new.asker ≡ A.picks turn.old.asker }
        ensures admits { (rules : List Rule) → A.StandsFor turn.old.asker rules →
            IfOk result (λ yes. yes ≡ admits rules self.now (message_view message.now)) }
        ensures silent { (rules : List Rule) → entry_asks rules self.now (message_view message.now) ≡ [] →
            IsOk result }
        ensures unasked { (rules : List Rule) → entry_asks rules self.now (message_view message.now) ≡ [] →
            turn.new ≡ turn.old }
    {
        let is_stranger = message.is_stranger(self.format());
        let speaks_for_others = self.speaks_for_others(message);
        if !is_stranger && !speaks_for_others {
            return Ok(true);
        }
        if self.authorize_entry(message, is_stranger, speaks_for_others, &mut turn.asker)? {
            return Ok(true);
        }
        let here = message.here;
        here.add_refusal(message.from, message.frame, &mut turn.sends)?;
        Ok(false)
    }

    /// Asks for a message before it is taken, in a format that names stations: whether its link source may
    /// enter, if that doesn't belong to the port; and whether it may speak for the source that the message
    /// names, if that doesn't come by its route. A Distribute-Broadcast-To-Network that isn't admitted is
    /// refused by its code. What that gives is added to the turn. It answers whether the message is
    /// admitted. It changes nothing. The only fault is want of memory, and then a part may be added; what
    /// asks nothing wants none.
    #[inline(always)]
    pub fn admit<A: Asker>(
        &self,
        message: &Message<'_>,
        turn: &mut Turn<A>,
    ) -> Result<bool, AllocError>
        ensures turn { (rules : List Rule) → A.StandsFor turn.old.asker rules →
            let due = entry_response rules self.now (message_view message.now) in
            OnOk result (IsWalked A.kept A.kept_of rules due turn.old turn.new) }
        ensures stays { (rules : List Rule) → A.StandsFor turn.old.asker rules →
            A.StandsFor turn.new.asker rules }
        ensures picks { A.picks turn.new.asker ≡ A.picks turn.old.asker }
        ensures admits { (rules : List Rule) → A.StandsFor turn.old.asker rules →
            IfOk result (λ yes. yes ≡ admits rules self.now (message_view message.now)) }
        ensures silent { (rules : List Rule) → entry_asks rules self.now (message_view message.now) ≡ [] →
            IsOk result }
        ensures unasked { (rules : List Rule) → entry_asks rules self.now (message_view message.now) ≡ [] →
            turn.new ≡ turn.old }
    {
        if !self.format().names_stations() {
            return Ok(true);
        }
        self.add_admission(message, turn)
    }
}
