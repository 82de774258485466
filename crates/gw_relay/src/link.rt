//! The frames that read or change a table of their port (Annex J.2, J.4, J.5).

ghost use Rattle.std.specs.Prelude.{◌≡◌, ◌||◌, ◌++◌, ◌∷◌, [], false, List, not, map, IfOk, IsOk, OnErr, OnOk, if◌then◌else◌, Some, None};
ghost use Rattle.gw_addr.specs.Entry.{bdt_entry};
ghost use Rattle.gw_tables.specs.bdt_fdt.Peers.{are_too_many, has_twice};
ghost use Rattle.gw_tables.specs.bdt_fdt.Registrations.{contains, has_room};
ghost use Rattle.gw_frames.specs.bvll.Bvll.{view};
ghost use Rattle.gw_frames.specs.bvll.Entries.{lent};
ghost use Rattle.gw_rules.specs.declared.rule.Rule.{Rule};
ghost use Rattle.gw_relay.specs.Asks.{link_asks};
ghost use Rattle.gw_relay.specs.Link.{answer_to, change_of, granted, is_granted, is_misplaced, link_response, refused};
ghost use Rattle.gw_relay.specs.Turn.{IsWalked};
ghost use Rattle.gw_relay.specs.Sends.{sending};
ghost use Rattle.gw_relay.specs.internal.Grants.{granted_change};
ghost use Rattle.gw_relay.specs.internal.Serving.{served, served_change};

use crate::ask::{link_ask, management_of};
use crate::change::Change;
use crate::message::TableMessage;
use crate::octets::{bdt_ack, fdt_ack, result_octets};
use crate::port::PortState;
use crate::relay::Relay;
use crate::sends::{Batch, Sends};
use crate::turn::Turn;
use gw_addr::{BdtEntry, BipAddr};
use gw_frames::bvll::{BdtEntries, Bvll, ResultCode};
use gw_rules::Asker;
use gw_tables::bdt_fdt::{Bdt, MAX_REGISTRATIONS};
use std::alloc::{AllocError, Global};

/// Whether a frame is granted what it asks for.
enum Grant {
    /// It is, and this changes.
    Granted(Option<Change>),
    /// It isn't.
    Refused,
}

impl Relay {
    /// Answers a frame that reads or changes a table of the port that it came on (Annex J.2, J.4,
    /// J.5): the policy is asked once, and the answer goes to the sender. Where another broadcast manager is beside the
    /// port, it is refused without an ask. A frame of another kind asks nothing and gets no answer. What that gives is
    /// added to the turn. It changes nothing. The only fault is want of memory, and then a part may be added; what asks
    /// nothing and isn't refused so wants none.
    pub fn link<A: Asker>(
        &self,
        message: &TableMessage<'_>,
        turn: &mut Turn<A>,
    ) -> Result<(), AllocError>
        ensures turn { (rules : List Rule) → A.StandsFor turn.old.asker rules →
            let m = message.now in
            let due = link_response rules self.now.format m.here.now m.from (view m.frame.now) in
            OnOk result (IsWalked A.kept A.kept_of rules due turn.old turn.new) }
        ensures stays { (rules : List Rule) → A.StandsFor turn.old.asker rules →
            A.StandsFor turn.new.asker rules }
        ensures picks { A.picks turn.new.asker ≡ A.picks turn.old.asker }
        ensures silent { let m = message.now in
            link_asks self.now.format m.here.now.port m.from (view m.frame.now) ≡ [] →
            is_misplaced m.here.now.port (view m.frame.now) ≡ false → IsOk result }
        ensures unasked { let m = message.now in
            link_asks self.now.format m.here.now.port m.from (view m.frame.now) ≡ [] →
            is_misplaced m.here.now.port (view m.frame.now) ≡ false → turn.new ≡ turn.old }
    {
        let (here, from, frame) = (message.here, message.from, message.frame);
        let Some(operation) = management_of(frame) else {
            return Ok(());
        };
        if !here.port.is_manager() {
            here.add_refusal(from, frame, &mut turn.sends)?;
            return Ok(());
        }
        let ask = link_ask(self.format(), &here.port, from, frame, operation);
        let is_allowed = turn.asker.authorize(&ask)?;
        let change = here.add_table_answer(from, frame, is_allowed, &mut turn.sends)?;
        turn.set_change(change);
        Ok(())
    }
}

impl PortState {
    /// Adds the answer to a frame that was judged. It answers what that changes.
    #[inline(always)]
    fn add_table_answer(
        &self,
        from: BipAddr,
        frame: &Bvll<'_>,
        is_allowed: bool,
        sends: &mut Sends,
    ) -> Result<Option<Change>, AllocError>
        ensures sends { let sent = served self.now from (view frame.now) is_allowed in
            OnOk result (sends.new ≡ sends.old ++ sent) }
        ensures change { let due = served_change self.now from (view frame.now) is_allowed in
            IfOk result (λ change. change ≡ due) }
    {
        if !is_allowed {
            self.add_refusal(from, frame, sends)?;
            return Ok(None);
        }
        match self.grant(sends.alloc(), from, frame)? {
            Grant::Granted(change) => {
                self.add_granted(from, frame, sends)?;
                Ok(change)
            }
            Grant::Refused => {
                self.add_refusal(from, frame, sends)?;
                Ok(None)
            }
        }
    }

    /// Whether a frame that is allowed can have what it asks for.
    fn grant(&self, alloc: Global, from: BipAddr, frame: &Bvll<'_>) -> Result<Grant, AllocError>
        ensures { let frame = view frame.now in
            let had = Some (change_of self.now.port from frame) in
            IfOk result (λ grant. granted_change grant ≡
            (if is_granted self.now from frame then had else None)) }
    {
        match frame {
            Bvll::WriteBdt(entries) => self.grant_entries(alloc, entries),
            Bvll::Register { time_to_live } => Ok(self.grant_registration(from, *time_to_live)),
            Bvll::Delete(address) => Ok(self.grant_deletion(*address)),
            _ => Ok(Grant::Granted(None)),
        }
    }

    /// Whether entries can be a table.
    fn grant_entries(&self, alloc: Global, entries: &BdtEntries<'_>) -> Result<Grant, AllocError>
        ensures { let entries = lent bdt_entry entries.now in
            let had = Some (Some (Change.Entries self.now.port.number entries)) in
            IfOk result (λ grant. granted_change grant ≡
            (if not (are_too_many entries || has_twice entries) then had else None)) }
    {
        match Bdt::from_vec(copied(alloc, entries)?) {
            Ok(bdt) => Ok(Grant::Granted(Some(Change::Entries {
                port: self.port.number,
                bdt,
            }))),
            Err(_) => Ok(Grant::Refused),
        }
    }

    /// Whether there is room for a foreign device.
    fn grant_registration(&self, address: BipAddr, time_to_live: u16) -> Grant
        ensures { let change = Change.Registration self.now.port.number address time_to_live in
            let had = Some (Some change) in
            granted_change result ≡ (if has_room self.now.fdt address then had else None) }
    {
        if !self.has_room(address) {
            return Grant::Refused;
        }
        Grant::Granted(Some(Change::Registration {
            port: self.port.number,
            address,
            time_to_live,
        }))
    }

    /// Whether an address is registered, or fewer than 128 others are.
    fn has_room(&self, address: BipAddr) -> bool
        ensures { result ≡ has_room self.now.fdt address }
    {
        self.fdt.count() < MAX_REGISTRATIONS || self.fdt.contains(address)
    }

    /// Whether there is a registration to delete.
    fn grant_deletion(&self, address: BipAddr) -> Grant
        ensures { let had = Some (Some (Change.Deletion self.now.port.number address)) in
            granted_change result ≡ (if contains self.now.fdt address then had else None) }
    {
        if !self.fdt.contains(address) {
            return Grant::Refused;
        }
        Grant::Granted(Some(Change::Deletion {
            port: self.port.number,
            address,
        }))
    }

    /// Adds the answer to a frame that has what it asked for.
    fn add_granted(
        &self,
        from: BipAddr,
        frame: &Bvll<'_>,
        sends: &mut Sends,
    ) -> Result<(), AllocError>
        ensures { let sent = map (answer_to self.now.port from) (granted self.now (view frame.now)) in
            OnOk result (sends.new ≡ sends.old ++ sent) }
    {
        let alloc = sends.alloc();
        match frame {
            Bvll::ReadBdt => self.add_answer(from, bdt_ack(alloc, &self.bdt)?, sends),
            Bvll::ReadFdt => self.add_answer(from, fdt_ack(alloc, &self.fdt)?, sends),
            Bvll::WriteBdt(_) | Bvll::Register { .. } | Bvll::Delete(_) => {
                let octets = result_octets(sends, ResultCode::SUCCESS)?;
                self.add_answer(from, octets, sends)
            }
            _ => Ok(()),
        }
    }

    /// Adds an answer of these octets. After an `Err` the sends are as before.
    #[inline(always)]
    fn add_answer(
        &self,
        from: BipAddr,
        octets: Vec<u8>,
        sends: &mut Sends,
    ) -> Result<(), AllocError>
        ensures ok { let sent = sending self.now.port.number octets.items from ∷ [] in
            OnOk result (sends.new ≡ sends.old ++ sent) }
        ensures err { OnErr result (sends.new ≡ sends.old) }
    {
        sends.push(Batch::to_one(self.port.number, from, octets))
    }

    /// Adds the answer to a frame that doesn't have what it asked for: the code of its function. After
    /// an `Err` the sends are as before.
    pub(crate) fn add_refusal(
        &self,
        from: BipAddr,
        frame: &Bvll<'_>,
        sends: &mut Sends,
    ) -> Result<(), AllocError>
        ensures ok { let sent = map (answer_to self.now.port from) (refused (view frame.now)) in
            OnOk result (sends.new ≡ sends.old ++ sent) }
        ensures err { OnErr result (sends.new ≡ sends.old) }
    {
        let Some(code) = ResultCode::refusal(frame.function()) else {
            return Ok(());
        };
        let octets = result_octets(sends, code)?;
        self.add_answer(from, octets, sends)
    }
}

/// The entries that a frame lends.
fn copied(alloc: Global, entries: &BdtEntries<'_>) -> Result<Vec<BdtEntry>, AllocError>
    ensures { IfOk result (λ copy. copy.items ≡ lent bdt_entry entries.now) }
{
    let mut copy = Vec::new(alloc);
    for entry in entries.iter() {
        copy.push(entry)?;
    }
    Ok(copy)
}
