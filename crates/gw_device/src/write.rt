//! WriteProperty (clause 15.9).

ghost use Rattle.std.specs.Prelude.{◌≡◌, ◌++◌, ◌∷◌, [], ◌<◌, List, length, IfOk, OnOk};
ghost use Rattle.gw_rules.specs.declared.rule.Rule.{Rule};
ghost use Rattle.gw_addr.specs.Reading.{Gives};
ghost use Rattle.gw_codecs.specs.services.Limits.{priority_of};
ghost use Rattle.gw_codecs.specs.services.Write.{write_view};
ghost use Rattle.gw_objects.specs.Write.{write_of};
ghost use Rattle.gw_device.specs.Write.{or_error, write_answer, write_ask, write_decision, write_response};
ghost use Rattle.gw_device.specs.Response.{HasPlace, IsServed, with_room};

use crate::error::{WRITE_DENIED, write_error};
use crate::short::{error, simple_ack};
use crate::{Access, Answer, Change, Served};
use gw_codecs::apdu::ServiceError;
use gw_codecs::services::{WRITE_PROPERTY, WriteReq};
use gw_objects::AskedWrite;
use gw_rules::{Ask, Asker, Operation, Service};
use std::alloc::{AllocError, Global};

/// What is made of a write: a change, or an error.
type Decision = Result<Change, ServiceError>;

/// The answer to a write, after the room for headers.
fn write_apdu(spare: &mut Vec<u8>, invoke: u8, decision: &Decision) -> Result<Vec<u8>, AllocError>
    ensures { IfOk result (λ octets. octets.items ≡ with_room (write_answer invoke decision.now)) }
{
    match decision {
        Ok(_) => simple_ack(spare, invoke, WRITE_PROPERTY),
        Err(why) => error(spare, invoke, WRITE_PROPERTY, *why),
    }
}

impl Access<'_> {
    /// The ask that a request raises.
    fn write_ask(&self, request: &WriteReq<'_>) -> Ask
        ensures { result ≡ write_ask self.now.objects.now self.now.context.now (write_view request.now) }
    {
        let ask = self.property_ask(
            Operation::Write,
            Service::Confirmed(WRITE_PROPERTY),
            request.object,
            request.property,
        );
        Ask {
            priority: Some(u64::from(request.command_priority())),
            ..ask
        }
    }

    /// What is made of a write that is allowed.
    fn check(&self, alloc: Global, request: &WriteReq<'_>) -> Result<Decision, AllocError>
        ensures decision { let write = write_view request.now in
            let priority = priority_of write.priority in
            let due = write_of self.now.objects.now.configured write.object write.property write.index
            priority write.value in
            IfOk result (λ decision. Gives (λ c. c) decision (or_error due)) }
        ensures place { IfOk result (λ decision. IfOk decision (λ change.
            change.place < length self.now.objects.now.configured.objects)) }
    {
        let write = AskedWrite {
            id: request.object,
            property: request.property,
            index: request.index,
            priority: request.command_priority(),
            value: request.value,
        };
        match self.objects.check(alloc, &write) {
            Ok(put) => Ok(Ok(Change::new(put))),
            Err(fault) => Ok(Err(write_error(fault)?)),
        }
    }

    /// What is made of a write: the policy is asked before any look-up.
    fn decide<A: Asker>(
        &self,
        request: &WriteReq<'_>,
        asker: &mut A,
    ) -> Result<Decision, AllocError>
        ensures decision { (rules : List Rule) → A.StandsFor asker.old rules →
            let write = write_view request.now in
            let due = write_decision rules self.now.objects.now self.now.context.now write in
            IfOk result (λ decision. Gives (λ c. c) decision due) }
        ensures asks { (rules : List Rule) → A.StandsFor asker.old rules →
            let ask = write_ask self.now.objects.now self.now.context.now (write_view request.now) in
            OnOk result (A.kept asker.new ≡ A.kept asker.old ++ A.kept_of rules (ask ∷ [])) }
        ensures stays { (rules : List Rule) → A.StandsFor asker.old rules →
            A.StandsFor asker.new rules }
        ensures picks { A.picks asker.new ≡ A.picks asker.old }
        ensures place { IfOk result (λ decision. IfOk decision (λ change.
            change.place < length self.now.objects.now.configured.objects)) }
    {
        let ask = self.write_ask(request);
        if asker.authorize(&ask)? {
            self.check(asker.alloc(), request)
        } else {
            Ok(Err(WRITE_DENIED))
        }
    }

    /// What the device gives to a WriteProperty (clause 15.9). Its ask is put to `asker`; nothing is changed.
    ///
    /// # Errors
    ///
    /// 1 Memory. The asker may then have kept a part of what it is to keep.
    pub fn write<A: Asker>(
        &self,
        invoke: u8,
        request: &WriteReq<'_>,
        asker: &mut A,
        spare: &mut Vec<u8>,
    ) -> Result<Served, AllocError>
        ensures served { (rules : List Rule) → A.StandsFor asker.old rules →
            let write = write_view request.now in IfOk result
            (IsServed (write_response rules self.now.objects.now self.now.context.now invoke write)) }
        ensures asks { (rules : List Rule) → A.StandsFor asker.old rules →
            let write = write_view request.now in
            let due = write_response rules self.now.objects.now self.now.context.now invoke write in
            OnOk result (A.kept asker.new ≡ A.kept asker.old ++ A.kept_of rules due.asks) }
        ensures stays { (rules : List Rule) → A.StandsFor asker.old rules →
            A.StandsFor asker.new rules }
        ensures picks { A.picks asker.new ≡ A.picks asker.old }
        ensures place { IfOk result (λ served. HasPlace self.now.objects.now served.change) }
    {
        let decision = self.decide(request, asker)?;
        let octets = write_apdu(spare, invoke, &decision)?;
        Ok(Served {
            answer: Some(Answer {
                octets,
                broadcast: false,
            }),
            change: decision.ok(),
        })
    }
}
