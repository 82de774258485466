//! From an APDU to its service (clauses 5.4.5 and 20.1).

ghost use Rattle.std.specs.Prelude.{◌≡◌, ◌++◌, List, [], None, IfOk, IsOk, OnOk};
ghost use Rattle.gw_codecs.specs.apdu.Answers.{abort, reject};
ghost use Rattle.gw_codecs.specs.apdu.Reasons.{segmentation_not_supported};
ghost use Rattle.gw_rules.specs.declared.rule.Rule.{Rule};
ghost use Rattle.gw_codecs.specs.services.MultiReading.{multi_at};
ghost use Rattle.gw_codecs.specs.services.Read.{read_at};
ghost use Rattle.gw_codecs.specs.services.Write.{write_at};
ghost use Rattle.gw_device.specs.Device.{confirmed_response, device_answer, device_asks, device_response, or_reject};
ghost use Rattle.gw_device.specs.Device.{unconfirmed_response};
ghost use Rattle.gw_device.specs.Multi.{multi_response};
ghost use Rattle.gw_device.specs.Read.{read_response};
ghost use Rattle.gw_device.specs.Response.{HasPlace, IsServed, turned_down};
ghost use Rattle.gw_device.specs.Write.{write_response};

use crate::error::reject_reason;
use crate::short::{abort, reject};
use crate::{Access, Context, Device, Served};
use gw_codecs::apdu::{AbortReason, ConfirmedRequest, Header, RejectReason, decode};
use gw_codecs::services::{
    READ_PROPERTY, READ_PROPERTY_MULTIPLE, WHO_HAS, WHO_IS, WRITE_PROPERTY, decode_multi,
    decode_read, decode_who_has, decode_who_is, decode_write,
};
use gw_rules::Asker;
use std::alloc::AllocError;

/// A Reject.
fn rejected(spare: &mut Vec<u8>, invoke: u8, reason: RejectReason) -> Result<Served, AllocError>
    ensures served { IfOk result (IsServed (turned_down (reject invoke reason.0))) }
    ensures place { IfOk result (λ served. served.change ≡ None) }
{
    Ok(Served::to_client(reject(spare, invoke, reason)?))
}

/// An Abort of what is segmented.
fn aborted(spare: &mut Vec<u8>, invoke: u8) -> Result<Served, AllocError>
    ensures served { IfOk result
        (IsServed (turned_down (abort invoke segmentation_not_supported))) }
    ensures place { IfOk result (λ served. served.change ≡ None) }
{
    let octets = abort(spare, invoke, AbortReason::SEGMENTATION_NOT_SUPPORTED)?;
    Ok(Served::to_client(octets))
}

impl Access<'_> {
    fn read_property<A: Asker>(
        &self,
        header: &ConfirmedRequest,
        body: &[u8],
        asker: &mut A,
        spare: &mut Vec<u8>,
    ) -> Result<Served, AllocError>
        ensures served { (rules : List Rule) → A.StandsFor asker.old rules →
            IfOk result (IsServed (or_reject header.now.invoke
            (read_response rules self.now.objects.now self.now.context.now header.now) (read_at body.now))) }
        ensures asks { (rules : List Rule) → A.StandsFor asker.old rules →
            let due = or_reject header.now.invoke
            (read_response rules self.now.objects.now self.now.context.now header.now) (read_at body.now) in
            OnOk result (A.kept asker.new ≡ A.kept asker.old ++ A.kept_of rules due.asks) }
        ensures stays { (rules : List Rule) → A.StandsFor asker.old rules →
            A.StandsFor asker.new rules }
        ensures picks { A.picks asker.new ≡ A.picks asker.old }
        ensures place { IfOk result (λ served. served.change ≡ None) }
    {
        match decode_read(body) {
            Ok(request) => self.read(header, &request, asker, spare),
            Err(fault) => rejected(spare, header.invoke, reject_reason(fault)?),
        }
    }

    fn read_property_multiple<A: Asker>(
        &self,
        header: &ConfirmedRequest,
        body: &[u8],
        asker: &mut A,
        spare: &mut Vec<u8>,
    ) -> Result<Served, AllocError>
        ensures served { (rules : List Rule) → A.StandsFor asker.old rules →
            IfOk result (IsServed (or_reject header.now.invoke
            (multi_response rules self.now.objects.now self.now.context.now header.now) (multi_at body.now))) }
        ensures asks { (rules : List Rule) → A.StandsFor asker.old rules →
            let due = or_reject header.now.invoke
            (multi_response rules self.now.objects.now self.now.context.now header.now) (multi_at body.now) in
            OnOk result (A.kept asker.new ≡ A.kept asker.old ++ A.kept_of rules due.asks) }
        ensures stays { (rules : List Rule) → A.StandsFor asker.old rules →
            A.StandsFor asker.new rules }
        ensures picks { A.picks asker.new ≡ A.picks asker.old }
        ensures place { IfOk result (λ served. served.change ≡ None) }
    {
        match decode_multi(asker.alloc(), body) {
            Ok(request) => self.read_multiple(header, &request, asker, spare),
            Err(fault) => rejected(spare, header.invoke, reject_reason(fault)?),
        }
    }

    fn write_property<A: Asker>(
        &self,
        header: &ConfirmedRequest,
        body: &[u8],
        asker: &mut A,
        spare: &mut Vec<u8>,
    ) -> Result<Served, AllocError>
        ensures served { (rules : List Rule) → A.StandsFor asker.old rules →
            IfOk result (IsServed (or_reject header.now.invoke
            (write_response rules self.now.objects.now self.now.context.now header.now.invoke) (write_at body.now))) }
        ensures asks { (rules : List Rule) → A.StandsFor asker.old rules →
            let due = or_reject header.now.invoke
            (write_response rules self.now.objects.now self.now.context.now header.now.invoke) (write_at body.now) in
            OnOk result (A.kept asker.new ≡ A.kept asker.old ++ A.kept_of rules due.asks) }
        ensures stays { (rules : List Rule) → A.StandsFor asker.old rules →
            A.StandsFor asker.new rules }
        ensures picks { A.picks asker.new ≡ A.picks asker.old }
        ensures place { IfOk result (λ served. HasPlace self.now.objects.now served.change) }
    {
        match decode_write(body) {
            Ok(request) => self.write(header.invoke, &request, asker, spare),
            Err(fault) => rejected(spare, header.invoke, reject_reason(fault)?),
        }
    }

    /// A confirmed request, by its service. One to a broadcast is dropped, and a segment is aborted.
    fn confirmed<A: Asker>(
        &self,
        header: &ConfirmedRequest,
        body: &[u8],
        asker: &mut A,
        spare: &mut Vec<u8>,
    ) -> Result<Served, AllocError>
        ensures served { (rules : List Rule) → A.StandsFor asker.old rules →
            IfOk result (IsServed
            (confirmed_response rules self.now.objects.now self.now.context.now header.now body.now)) }
        ensures asks { (rules : List Rule) → A.StandsFor asker.old rules →
            let due = confirmed_response rules self.now.objects.now self.now.context.now header.now body.now in
            OnOk result (A.kept asker.new ≡ A.kept asker.old ++ A.kept_of rules due.asks) }
        ensures stays { (rules : List Rule) → A.StandsFor asker.old rules →
            A.StandsFor asker.new rules }
        ensures picks { A.picks asker.new ≡ A.picks asker.old }
        ensures place { IfOk result (λ served. HasPlace self.now.objects.now served.change) }
        // What isn't answered needs no memory.
        ensures silent { (rules : List Rule) →
            let due = confirmed_response rules self.now.objects.now self.now.context.now header.now body.now in
            due.answer ≡ None → IsOk result }
    {
        if self.context.broadcast {
            return Ok(Served::silence());
        }
        if header.segment.is_some() {
            return aborted(spare, header.invoke);
        }
        match header.service {
            READ_PROPERTY => self.read_property(header, body, asker, spare),
            READ_PROPERTY_MULTIPLE => self.read_property_multiple(header, body, asker, spare),
            WRITE_PROPERTY => self.write_property(header, body, asker, spare),
            _ => {
                let reason = RejectReason::UNRECOGNIZED_SERVICE;
                rejected(spare, header.invoke, reason)
            }
        }
    }

    /// An unconfirmed request, by its service. What can't be read is dropped.
    fn unconfirmed<A: Asker>(
        &self,
        service: u8,
        body: &[u8],
        asker: &mut A,
        spare: &mut Vec<u8>,
    ) -> Result<Served, AllocError>
        ensures served { (rules : List Rule) → A.StandsFor asker.old rules →
            IfOk result (IsServed
            (unconfirmed_response rules self.now.objects.now self.now.context.now service body.now)) }
        ensures asks { (rules : List Rule) → A.StandsFor asker.old rules →
            let due = unconfirmed_response rules self.now.objects.now self.now.context.now service body.now in
            OnOk result (A.kept asker.new ≡ A.kept asker.old ++ A.kept_of rules due.asks) }
        ensures stays { (rules : List Rule) → A.StandsFor asker.old rules →
            A.StandsFor asker.new rules }
        ensures picks { A.picks asker.new ≡ A.picks asker.old }
        ensures place { IfOk result (λ served. served.change ≡ None) }
        // What asks nothing needs no memory.
        ensures silent { (rules : List Rule) →
            let due = unconfirmed_response rules self.now.objects.now self.now.context.now service body.now in
            due.asks ≡ [] → IsOk result }
    {
        match service {
            WHO_HAS => match decode_who_has(body) {
                Ok(request) => self.who_has(&request, asker, spare),
                Err(_) => Ok(Served::silence()),
            },
            WHO_IS => match decode_who_is(body) {
                Ok(request) => self.who_is(&request, asker, spare),
                Err(_) => Ok(Served::silence()),
            },
            _ => Ok(Served::silence()),
        }
    }
}

impl Device {
    /// What the device gives to the octets of an APDU, by its type: the answer if there is one, and the
    /// change that is granted, if there is one. What is no APDU, or no request, is dropped. Each ask is put to
    /// `asker`, in order. Nothing is changed. An answer is written into the spare buffer, if that has the room of
    /// [`BUFFER_ROOM`](crate::BUFFER_ROOM), or else into a new one; without an answer the spare buffer stays.
    ///
    /// # Errors
    ///
    /// 1 Memory. The asker may then have kept a part of what it is to keep.
    pub fn answer<A: Asker>(
        &self,
        context: &Context,
        apdu: &[u8],
        asker: &mut A,
        spare: &mut Vec<u8>,
    ) -> Result<Served, AllocError>
        ensures served { (rules : List Rule) → A.StandsFor asker.old rules → IfOk result
            (IsServed (device_response rules self.now context.now apdu.now)) }
        ensures asks { (rules : List Rule) → A.StandsFor asker.old rules →
            let due = device_asks rules self.now context.now apdu.now in
            OnOk result (A.kept asker.new ≡ A.kept asker.old ++ A.kept_of rules due) }
        ensures stays { (rules : List Rule) → A.StandsFor asker.old rules →
            A.StandsFor asker.new rules }
        ensures picks { A.picks asker.new ≡ A.picks asker.old }
        ensures place { IfOk result (λ served. HasPlace self.now served.change) }
        // What is neither asked about nor answered needs no memory.
        ensures silent { (rules : List Rule) →
            device_asks rules self.now context.now apdu.now ≡ [] →
            device_answer rules self.now context.now apdu.now ≡ None → IsOk result }
    {
        let Ok(apdu) = decode(apdu) else {
            return Ok(Served::silence());
        };
        let access = self.access(context);
        match apdu.header {
            Header::ConfirmedRequest(header) => access.confirmed(&header, apdu.rest, asker, spare),
            Header::UnconfirmedRequest { service } => access.unconfirmed(
                service, apdu.rest, asker, spare,
            ),
            _ => Ok(Served::silence()),
        }
    }
}
