//! ReadProperty (clause 15.5).

ghost use Rattle.std.specs.Prelude.{None, ◌≡◌, ◌≤◌, ◌++◌, ◌∷◌, [], List, vec_len, IfOk, OnOk};
ghost use Rattle.gw_rules.specs.declared.rule.Rule.{Rule};
ghost use Rattle.gw_codecs.specs.services.Read.{read_view};
ghost use Rattle.gw_objects.specs.Table.{read_of};
ghost use Rattle.gw_device.specs.Read.{named_read, or_error, read_answer, read_ask};
ghost use Rattle.gw_device.specs.Read.{read_response, read_value};
ghost use Rattle.gw_device.specs.Response.{IsServed, with_room};

use crate::error::{READ_DENIED, read_error};
use crate::short::{begin_apdu, error, fit};
use crate::{Access, HEADER_ROOM, Served};
use gw_codecs::apdu::{ConfirmedRequest, write_complex, write_error};
use gw_codecs::services::{READ_PROPERTY, ReadReq, write_read_answer_head, write_read_answer_tail};
use gw_rules::{Ask, Asker, Operation, Service};
use std::alloc::AllocError;

impl Access<'_> {
    /// The ask that a request raises.
    fn read_ask(&self, request: &ReadReq) -> Ask
        ensures { result ≡ read_ask self.now.objects.now self.now.context.now (read_view request.now) }
    {
        self.property_ask(
            Operation::Read,
            Service::Confirmed(READ_PROPERTY),
            request.object,
            request.property,
        )
    }

    /// The request by the device's real instance.
    fn named_read(&self, request: &ReadReq) -> ReadReq
        ensures { read_view result ≡ named_read self.now.objects.now (read_view request.now) }
    {
        ReadReq {
            object: self.named_object(request.object),
            property: request.property,
            index: request.index,
        }
    }

    /// The answer to a read that is allowed.
    #[inline(always)]
    fn value_apdu(
        &self,
        header: &ConfirmedRequest,
        request: &ReadReq,
        spare: &mut Vec<u8>,
    ) -> Result<Vec<u8>, AllocError>
        ensures apdu { let read = read_view request.now in IfOk result (λ octets. octets.items
            ≡ with_room (read_answer header.now self.now.context.now read
            (or_error (read_of self.now.objects.now read.object read.property read.index)))) }
    {
        let mut octets = begin_apdu(spare)?;
        write_complex(&mut octets, header.invoke, READ_PROPERTY)?;
        write_read_answer_head(&mut octets, request)?;
        match self.objects.read(request.object, request.property, request.index, &mut octets) {
            Ok(()) => {
                write_read_answer_tail(&mut octets)?;
                fit(octets, header, self.context)
            }
            Err(fault) => {
                let why = read_error(fault)?;
                octets.truncate(HEADER_ROOM);
                write_error(&mut octets, header.invoke, READ_PROPERTY, why)?;
                Ok(octets)
            }
        }
    }

    /// The answer to a read: the policy is asked before any look-up.
    fn read_apdu<A: Asker>(
        &self,
        header: &ConfirmedRequest,
        request: &ReadReq,
        asker: &mut A,
        spare: &mut Vec<u8>,
    ) -> Result<Vec<u8>, AllocError>
        ensures apdu { (rules : List Rule) → A.StandsFor asker.old rules →
            let read = read_view request.now in
            let ask = read_ask self.now.objects.now self.now.context.now read in
            let value = read_value rules self.now.objects.now ask read.object read.property read.index in
            IfOk result (λ octets.
            octets.items ≡ with_room (read_answer header.now self.now.context.now read value)) }
        ensures asks { (rules : List Rule) → A.StandsFor asker.old rules →
            let ask = read_ask self.now.objects.now self.now.context.now (read_view request.now) in
            OnOk result (A.kept asker.new ≡ A.kept asker.old ++ A.kept_of rules (ask ∷ [])) }
        ensures stays { (rules : List Rule) → A.StandsFor asker.old rules →
            A.StandsFor asker.new rules }
        ensures picks { A.picks asker.new ≡ A.picks asker.old }
        ensures room { IfOk result (λ octets. 10 ≤ vec_len octets) }
    {
        let ask = self.read_ask(request);
        if asker.authorize(&ask)? {
            self.value_apdu(header, request, spare)
        } else {
            error(spare, header.invoke, READ_PROPERTY, READ_DENIED)
        }
    }

    /// What the device gives to a ReadProperty (clause 15.5). Its ask is put to `asker`; nothing is changed.
    ///
    /// # Errors
    ///
    /// 1 Memory. The asker may then have kept a part of what it is to keep.
    pub fn read<A: Asker>(
        &self,
        header: &ConfirmedRequest,
        request: &ReadReq,
        asker: &mut A,
        spare: &mut Vec<u8>,
    ) -> Result<Served, AllocError>
        ensures served { (rules : List Rule) → A.StandsFor asker.old rules →
            let read = read_view request.now in IfOk result
            (IsServed (read_response rules self.now.objects.now self.now.context.now header.now read)) }
        ensures asks { (rules : List Rule) → A.StandsFor asker.old rules →
            let read = read_view request.now in
            let due = read_response rules self.now.objects.now self.now.context.now header.now read in
            OnOk result (A.kept asker.new ≡ A.kept asker.old ++ A.kept_of rules due.asks) }
        ensures stays { (rules : List Rule) → A.StandsFor asker.old rules →
            A.StandsFor asker.new rules }
        ensures picks { A.picks asker.new ≡ A.picks asker.old }
        ensures place { IfOk result (λ served. served.change ≡ None) }
    {
        let request = self.named_read(request);
        let octets = self.read_apdu(header, &request, asker, spare)?;
        Ok(Served::to_client(octets))
    }
}
