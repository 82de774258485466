//! Broadcasts, and whom they are distributed to (Annex J.4, J.5).

ghost use Rattle.std.specs.Prelude.{◌≡◌, ◌++◌, [], false, true, List, map, IfOk, IsOk, OnErr, OnOk, None, ◌+◌, ◌≤◌};
ghost use Rattle.std.specs.Prelude.{drop, length, vec_len};
ghost use Rattle.std.specs.List.{list_any};
ghost use Rattle.std.specs.Option.{option_map_or};
ghost use Rattle.gw_tables.specs.bdt_fdt.Peers.{is_of, peers};
ghost use Rattle.gw_frames.specs.bvll.Bvll.{forwarded};
ghost use Rattle.gw_frames.specs.bvll.Bvll.{view as frame_view};
ghost use Rattle.gw_rules.specs.declared.rule.Rule.{Rule};
ghost use Rattle.gw_relay.specs.Cast.{cast_asks, cast_response, devices, devices_but, directed, goes_on};
ghost use Rattle.gw_relay.specs.Cast.{is_broadcast, is_carried, is_forwarder, accepts, is_unregistered, managers, passed_on, spread, subnet};
ghost use Rattle.gw_relay.specs.Cast.{targets};
ghost use Rattle.gw_relay.specs.Link.{answer_to, refused};
ghost use Rattle.gw_relay.specs.Message.{message_view};
ghost use Rattle.gw_relay.specs.Turn.{IsWalked};
ghost use Rattle.gw_relay.specs.Sends.{sendings_of, sent};
ghost use Rattle.gw_relay.specs.internal.Serving.{judged};

use crate::message::Message;
use crate::octets::message_octets;
use crate::outgoing::Outgoing;
use crate::port::PortState;
use crate::relay::Relay;
use crate::sends::{Batch, Sends};
use crate::turn::Turn;
use gw_addr::{BdtEntry, BipAddr};
use gw_frames::bvll::Bvll;
use gw_rules::Asker;
use std::alloc::AllocError;

/// The mask by which a broadcast goes to a broadcast manager itself (Annex J.4).
const ALL_ONES: [u8; 4] = [255, 255, 255, 255];

/// Where a broadcast goes for an entry of a table: to its address with every bit set that its mask
/// leaves zero (Annex J.4).
fn directed(entry: &BdtEntry) -> BipAddr
    ensures { result ≡ directed entry.now }
{
    let [a, b, c, d] = entry.address.ip;
    let [mask0, mask1, mask2, mask3] = entry.mask;
    BipAddr {
        ip: [a | !mask0, b | !mask1, c | !mask2, d | !mask3],
        udp: entry.address.udp,
    }
}

/// Whether a frame is a broadcast.
fn is_broadcast(frame: &Bvll<'_>) -> bool
    ensures { result ≡ is_broadcast (frame_view frame.now) }
{
    matches!(
        frame,
        Bvll::Forwarded { .. } | Bvll::Distribute(_) | Bvll::OriginalBroadcast(_)
    )
}

/// What a broadcast goes on as.
fn passed_on<'a>(from: BipAddr, frame: &Bvll<'a>) -> Bvll<'a>
    ensures { frame_view result ≡ passed_on from (frame_view frame.now) }
{
    match frame {
        Bvll::OriginalBroadcast(npdu) | Bvll::Distribute(npdu) => Bvll::Forwarded {
            originator: from,
            npdu,
        },
        _ => *frame,
    }
}

impl PortState {
    /// Whether a frame is heard: a Forwarded-NPDU is from a peer alone, or from the broadcast manager beside the port
    /// alone if there is one, and not if the port itself is its originator (Annex J.4).
    pub fn accepts(&self, from: BipAddr, frame: &Bvll<'_>) -> bool
        ensures { result ≡ accepts self.now from (frame_view frame.now) }
    {
        match frame {
            Bvll::Forwarded { originator, .. } => {
                *originator != self.port.address && self.is_forwarder(from)
            }
            _ => true,
        }
    }

    /// Whether an address may forward broadcasts to the port: that of a peer, or of the broadcast manager beside it.
    fn is_forwarder(&self, address: BipAddr) -> bool
        ensures { result ≡ is_forwarder self.now address }
    {
        match self.port.bbmd {
            Some(manager) => address == manager,
            None => self.is_peer(address),
        }
    }

    /// Whether an address is that of a peer.
    fn is_peer(&self, address: BipAddr) -> bool
        ensures { let own = self.now.port.address in
            result ≡ list_any (is_of address) (peers own self.now.bdt) }
    {
        for entry in self.bdt.peers(self.port.address) {
            if address == entry.address {
                return true;
            }
        }
        false
    }

    /// Whether a frame is a Distribute-Broadcast-To-Network of someone who isn't registered (Annex
    /// J.5), as nobody is where another broadcast manager is beside the port.
    pub fn is_unregistered(&self, from: BipAddr, frame: &Bvll<'_>) -> bool
        ensures { result ≡ is_unregistered self.now from (frame_view frame.now) }
    {
        match frame {
            Bvll::Distribute(_) => !(self.port.is_manager() && self.fdt.contains(from)),
            _ => false,
        }
    }

    /// Whether a frame goes on to the network layer.
    pub fn goes_on(&self, from: BipAddr, frame: &Bvll<'_>) -> bool
        ensures { result ≡ goes_on self.now from (frame_view frame.now) }
    {
        self.accepts(from, frame) && !self.is_unregistered(from, frame)
    }

    /// Whether a frame is a broadcast that is to be distributed.
    fn is_carried(&self, frame: &Bvll<'_>) -> bool
        ensures { result ≡ is_carried self.now (frame_view frame.now) }
    {
        self.port.is_manager() && is_broadcast(frame)
    }

    /// Adds the sends of a broadcast that was judged.
    fn add_judged(
        &self,
        from: BipAddr,
        frame: &Bvll<'_>,
        is_allowed: bool,
        sends: &mut Sends,
    ) -> Result<(), AllocError>
        ensures { let sent = judged self.now from (frame_view frame.now) is_allowed in
            OnOk result (sends.new ≡ sends.old ++ sent) }
    {
        if is_allowed {
            self.distribute(from, frame, sends)
        } else {
            self.add_refusal(from, frame, sends)
        }
    }

    /// Adds the sends of a broadcast that is allowed: one message to all its targets.
    fn distribute(
        &self,
        from: BipAddr,
        frame: &Bvll<'_>,
        sends: &mut Sends,
    ) -> Result<(), AllocError>
        ensures { let message = passed_on from (frame_view frame.now) in
            let targets = targets self.now from (frame_view frame.now) in
            OnOk result (sends.new ≡ sends.old ++ sent self.now.port.number targets message) }
    {
        let mut targets = sends.targets(self.most_targets(frame))?;
        self.add_targets(from, frame, &mut targets)?;
        let message = passed_on(from, frame);
        match batch_of(sends, self.port.number, targets, &message)? {
            Some(batch) => sends.push(batch),
            None => Ok(()),
        }
    }

    /// How many entries the tables have: at most so many peers and foreign devices there are.
    fn entry_count(&self) -> usize
        ensures count { result ≡ length self.now.bdt + length self.now.fdt.rows }
        ensures few { result ≤ 192 }
    {
        self.bdt.entries().len() + self.fdt.count()
    }

    /// How many addresses a broadcast goes to at most.
    fn most_targets(&self, frame: &Bvll<'_>) -> usize
        ensures most { result ≤ 1 + (length self.now.bdt + length self.now.fdt.rows) }
        ensures few { result ≤ 193 }
    {
        let others = self.entry_count();
        match frame {
            Bvll::OriginalBroadcast(_) => others,
            Bvll::Distribute(_) => 1 + others,
            Bvll::Forwarded { .. } => 1 + self.fdt.count(),
            _ => 0,
        }
    }

    /// Adds whom a broadcast goes to.
    fn add_targets(
        &self,
        from: BipAddr,
        frame: &Bvll<'_>,
        out: &mut Vec<BipAddr>,
    ) -> Result<(), AllocError>
        ensures { let targets = targets self.now from (frame_view frame.now) in
            OnOk result (out.new.items ≡ out.old.items ++ targets) }
    {
        match frame {
            Bvll::OriginalBroadcast(_) => self.add_all(out),
            Bvll::Distribute(_) => {
                out.push(self.port.broadcast)?;
                self.add_managers(out)?;
                self.add_devices_but(from, out)
            }
            Bvll::Forwarded { .. } => {
                self.add_subnet(out)?;
                self.add_devices(out)
            }
            _ => Ok(()),
        }
    }

    /// Adds all peers and foreign devices.
    fn add_all(&self, out: &mut Vec<BipAddr>) -> Result<(), AllocError>
        ensures { let all = managers self.now ++ devices self.now in
            OnOk result (out.new.items ≡ out.old.items ++ all) }
    {
        self.add_managers(out)?;
        self.add_devices(out)
    }

    /// Adds where a broadcast goes for each peer.
    #[inline(always)]
    fn add_managers(&self, out: &mut Vec<BipAddr>) -> Result<(), AllocError>
        ensures { OnOk result (out.new.items ≡ out.old.items ++ managers self.now) }
    {
        for peer in self.bdt.peers(self.port.address) {
            out.push(directed(peer))?;
        }
        Ok(())
    }

    /// Adds the foreign devices.
    fn add_devices(&self, out: &mut Vec<BipAddr>) -> Result<(), AllocError>
        ensures { OnOk result (out.new.items ≡ out.old.items ++ devices self.now) }
    {
        for device in self.fdt.addresses() {
            out.push(*device)?;
        }
        Ok(())
    }

    /// Adds the foreign devices but one.
    fn add_devices_but(&self, address: BipAddr, out: &mut Vec<BipAddr>) -> Result<(), AllocError>
        ensures { OnOk result (out.new.items ≡ out.old.items ++ devices_but address self.now) }
    {
        for device in self.fdt.addresses() {
            if address != *device {
                out.push(*device)?;
            }
        }
        Ok(())
    }

    /// Adds the subnet's broadcast address, if a peer's message reached the port alone.
    fn add_subnet(&self, out: &mut Vec<BipAddr>) -> Result<(), AllocError>
        ensures { OnOk result (out.new.items ≡ out.old.items ++ subnet self.now) }
    {
        if self.bdt.own_mask(self.port.address) == ALL_ONES {
            out.push(self.port.broadcast)?;
        }
        Ok(())
    }

    /// Adds the sends of a broadcast by the gateway on the port: to its subnet, to all peers and to all foreign
    /// devices (Annex J.4, J.5). The NPDU is in a buffer, after four octets for the header of the frame. No policy
    /// is asked. The only fault is want of memory; a part may then be added.
    pub fn spread(&self, buffer: Vec<u8>, sends: &mut Sends) -> Result<(), AllocError>
        requires least { 4 ≤ vec_len buffer }
        requires most { vec_len buffer ≤ 1501 }
        ensures { OnOk result (sends.new ≡ sends.old ++ spread self.now (drop 4 buffer.items)) }
    {
        self.add_spread(Outgoing::in_buffer(buffer), sends)
    }

    /// Adds the broadcast of an NPDU by the gateway. The message to peers and foreign devices takes
    /// its octets from the buffer of the one on the subnet.
    pub(crate) fn add_spread(&self, npdu: Outgoing, sends: &mut Sends) -> Result<(), AllocError>
        ensures { OnOk result (sends.new ≡ sends.old ++ spread self.now npdu) }
    {
        let port = self.port.number;
        let elsewhere = self.elsewhere(npdu.npdu(), sends)?;
        sends.push(Batch::to_one(port, self.port.broadcast, npdu.into_broadcast()))?;
        match elsewhere {
            Some(forwarded) => sends.push(forwarded),
            None => Ok(()),
        }
    }

    /// The port's own Forwarded-NPDU to all peers and foreign devices, if there are any.
    fn elsewhere(&self, npdu: &[u8], sends: &mut Sends) -> Result<Option<Batch>, AllocError>
        ensures batch { let all = managers self.now ++ devices self.now in
            let message = forwarded self.now.port.address npdu.now in
            IfOk result (λ batch. option_map_or sendings_of batch []
            ≡ sent self.now.port.number all message) }
        ensures stays { sends.new ≡ sends.old }
    {
        let most = self.entry_count();
        if most == 0 {
            return Ok(None);
        }
        let mut targets = sends.targets(most)?;
        self.add_all(&mut targets)?;
        if targets.is_empty() {
            return Ok(None);
        }
        let message = Bvll::Forwarded {
            originator: self.port.address,
            npdu,
        };
        batch_of(sends, self.port.number, targets, &message)
    }
}

impl Relay {
    /// Distributes the broadcast that brought a message (Annex J.4, J.5): if the policy allows it,
    /// one message goes to all peers and foreign devices that are due; where another broadcast manager is beside the
    /// port, nothing is asked and nothing is distributed. What that gives is added to
    /// the turn. It answers whether the message goes on to the network layer: to routing, network
    /// messages and the device. It changes nothing. The only fault is want of memory, and then a part
    /// may be added.
    pub fn cast<A: Asker>(
        &self,
        message: &Message<'_>,
        turn: &mut Turn<A>,
    ) -> Result<bool, AllocError>
        ensures turn { (rules : List Rule) → A.StandsFor turn.old.asker rules →
            let due = cast_response rules self.now.format (message_view message.now) in
            OnOk result (IsWalked A.kept A.kept_of rules due turn.old turn.new) }
        ensures stays { (rules : List Rule) → A.StandsFor turn.old.asker rules →
            A.StandsFor turn.new.asker rules }
        ensures picks { A.picks turn.new.asker ≡ A.picks turn.old.asker }
        ensures goes_on { let m = message_view message.now in
            IfOk result (λ goes. goes ≡ goes_on m.here m.from m.frame) }
        // What asks nothing and refuses no unregistered sender wants no memory.
        ensures silent { let m = message_view message.now in
            cast_asks self.now.format m ≡ [] → is_unregistered m.here m.from m.frame ≡ false → IsOk result }
        ensures unasked { let m = message_view message.now in
            cast_asks self.now.format m ≡ [] → is_unregistered m.here m.from m.frame ≡ false → turn.new ≡ turn.old }
    {
        let here = message.here;
        let from = message.from;
        if !here.accepts(from, message.frame) {
            return Ok(false);
        }
        if here.is_unregistered(from, message.frame) {
            here.add_refusal(from, message.frame, &mut turn.sends)?;
            return Ok(false);
        }
        self.add_accepted_cast(message, turn)?;
        Ok(true)
    }

    /// Distributes a broadcast that is accepted, and no unregistered sender's, and adds what that gives.
    fn add_accepted_cast<A: Asker>(
        &self,
        message: &Message<'_>,
        turn: &mut Turn<A>,
    ) -> Result<(), AllocError>
        requires { let m = message_view message.now in goes_on m.here m.from m.frame ≡ true }
        ensures turn { (rules : List Rule) → A.StandsFor turn.old.asker rules →
            let due = cast_response rules self.now.format (message_view message.now) in
            OnOk result (IsWalked A.kept A.kept_of rules due turn.old turn.new) }
        ensures stays { (rules : List Rule) → A.StandsFor turn.old.asker rules →
            A.StandsFor turn.new.asker rules }
        ensures picks { A.picks turn.new.asker ≡ A.picks turn.old.asker }
        ensures silent { cast_asks self.now.format (message_view message.now) ≡ [] → IsOk result }
        ensures unasked { cast_asks self.now.format (message_view message.now) ≡ [] →
            turn.new ≡ turn.old }
    {
        if !message.here.is_carried(message.frame) {
            return Ok(());
        }
        let is_allowed = self.authorize_cast(&mut turn.asker, message)?;
        let here = message.here;
        here.add_judged(message.from, message.frame, is_allowed, &mut turn.sends)?;
        Ok(())
    }
}

/// A message to each of the addresses. None if it is too long, or if there is no address, which takes no memory.
#[inline(always)]
fn batch_of(
    sends: &mut Sends,
    port: u8,
    targets: Vec<BipAddr>,
    message: &Bvll<'_>,
) -> Result<Option<Batch>, AllocError>
    ensures batch { let all = sent port targets.items (frame_view message.now) in
        IfOk result (λ batch. option_map_or sendings_of batch [] ≡ all) }
    ensures stays { sends.new ≡ sends.old }
{
    if targets.is_empty() {
        return Ok(None);
    }
    match message_octets(sends, message)? {
        Some(octets) => Ok(Some(Batch::to_each(port, targets, octets))),
        None => Ok(None),
    }
}
