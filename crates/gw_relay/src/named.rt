//! What a request reads or writes that is passed on: the asks after its `route` ask under the second and
//! third format of a policy, and after its `cast` ask under the third.

ghost use Rattle.std.specs.Prelude.{◌≡◌, ◌∷◌, [], true, is_ok, List, IfOk};
ghost use Rattle.std.specs.Option.{option_map};
ghost use Rattle.gw_frames.specs.npdu.Npdu.{payload_view};
ghost use Rattle.gw_rules.specs.declared.rule.Rule.{Rule};
ghost use Rattle.gw_codecs.specs.services.Multi.{reference_view};
ghost use Rattle.gw_codecs.specs.services.MultiReading.{multi_at, references_at};
ghost use Rattle.gw_codecs.specs.services.Read.{read_at};
ghost use Rattle.gw_codecs.specs.services.Write.{write_at};
ghost use Rattle.gw_codecs.specs.tags.Object.{object_view};
ghost use Rattle.gw_relay.specs.Cast.{cast_ask, carried_asks};
ghost use Rattle.gw_relay.specs.Message.{message_view};
ghost use Rattle.gw_relay.specs.Named.{forward_asks, multi_asks, named_ask, named_asks, read_asks, reference_ask};
ghost use Rattle.gw_relay.specs.Named.{request_asks, segment_asks, unnamed_ask, write_asks};
ghost use Rattle.gw_relay.specs.internal.Taken.{AreAsked};

use crate::ask::bound_for;
use crate::message::Message;
use crate::relay::Relay;
use gw_codecs::apdu::{Apdu, ConfirmedRequest, Header};
use gw_codecs::services::{
    MAX_REFERENCES, Next, READ_PROPERTY, READ_PROPERTY_MULTIPLE, Reference, WRITE_PROPERTY,
    decode_read, decode_write, read_reference,
};
use gw_codecs::tags::ObjectId;
use gw_frames::npdu::Payload;
use gw_rules::{Ask, Asker, Format, Operation};
use std::alloc::AllocError;

/// A read or a write of what the octets don't show.
fn unnamed_ask(route: &Ask, operation: Operation) -> Ask
    ensures { result ≡ unnamed_ask route.now operation }
{
    Ask {
        operation: Some(operation.number()),
        ..*route
    }
}

/// A read or a write of a property.
fn named_ask(
    route: &Ask,
    operation: Operation,
    object: ObjectId,
    property: u32,
    priority: Option<u8>,
) -> Ask
    ensures { result ≡ named_ask route.now operation (object_view object) property priority }
{
    Ask {
        operation: Some(operation.number()),
        object_type: Some(u64::from(object.kind)),
        instance: Some(u64::from(object.instance)),
        property: Some(u64::from(property)),
        priority: match priority {
            Some(priority) => Some(u64::from(priority)),
            None => None,
        },
        ..*route
    }
}

/// The ask of a ReadProperty.
fn read_ask(route: &Ask, body: &[u8]) -> Ask
    ensures { result ∷ [] ≡ read_asks route.now (read_at body.now) }
{
    match decode_read(body) {
        Ok(read) => named_ask(route, Operation::Read, read.object, read.property, None),
        Err(_) => unnamed_ask(route, Operation::Read),
    }
}

/// The ask of a WriteProperty.
fn write_ask(route: &Ask, body: &[u8]) -> Ask
    ensures { result ∷ [] ≡ write_asks route.now (write_at body.now) }
{
    match decode_write(body) {
        Ok(write) => {
            let priority = Some(write.command_priority());
            named_ask(
                route,
                Operation::Write,
                write.object,
                write.property,
                priority,
            )
        }
        Err(_) => unnamed_ask(route, Operation::Write),
    }
}

/// The ask of a property that a ReadPropertyMultiple names.
fn reference_ask(route: &Ask, reference: &Reference) -> Ask
    ensures { result ≡ reference_ask route.now (reference_view reference.now) }
{
    named_ask(
        route,
        Operation::Read,
        reference.object,
        reference.property,
        None,
    )
}

/// Whether octets are references, of which so many may still come, in the list of the current
/// object. It takes no memory.
fn are_references(left: u8, current: Option<ObjectId>, octets: &[u8]) -> bool
    ensures { result ≡ is_ok (references_at left (option_map object_view current) octets.now) }
{
    match read_reference(left, current, octets) {
        Err(_) => false,
        Ok((_, Next::Finished)) => true,
        Ok((_, Next::More(current, rest))) => are_references(left - 1, current, rest),
    }
}

/// Puts one ask, and answers whether it is allowed.
pub(crate) fn authorize_one<A: Asker>(asker: &mut A, ask: &Ask) -> Result<bool, AllocError>
    ensures asked { (rules : List Rule) → A.StandsFor asker.old rules →
        IfOk result (AreAsked A.kept A.kept_of rules (ask.now ∷ []) asker.old asker.new) }
    ensures stays { (rules : List Rule) → A.StandsFor asker.old rules →
        A.StandsFor asker.new rules }
    ensures picks { A.picks asker.new ≡ A.picks asker.old }
{
    let is_allowed = asker.authorize(ask)?;
    Ok(is_allowed)
}

/// Puts the ask of each of these references, of which so many may still come, in the list of the
/// current object; and answers whether all are allowed. The caller has seen that they can be read.
fn authorize_references<A: Asker>(
    asker: &mut A,
    route: &Ask,
    left: u8,
    current: Option<ObjectId>,
    octets: &[u8],
) -> Result<bool, AllocError>
    ensures asked { let read = references_at left (option_map object_view current) octets.now in
        is_ok read ≡ true → (rules : List Rule) → A.StandsFor asker.old rules →
        IfOk result (AreAsked A.kept A.kept_of rules (multi_asks route.now read) asker.old asker.new) }
    ensures stays { (rules : List Rule) → A.StandsFor asker.old rules →
        A.StandsFor asker.new rules }
    ensures picks { A.picks asker.new ≡ A.picks asker.old }
{
    let Ok((reference, next)) = read_reference(left, current, octets) else {
        return Ok(true);
    };
    let ask = reference_ask(route, &reference);
    let is_allowed = asker.authorize(&ask)?;
    match next {
        Next::Finished => Ok(is_allowed),
        Next::More(current, rest) => {
            let are_allowed = authorize_references(asker, route, left - 1, current, rest)?;
            Ok(is_allowed && are_allowed)
        }
    }
}

/// Puts the asks of a ReadPropertyMultiple, and answers whether all are allowed.
fn authorize_multi<A: Asker>(asker: &mut A, route: &Ask, body: &[u8]) -> Result<bool, AllocError>
    ensures asked { (rules : List Rule) → A.StandsFor asker.old rules →
        let asks = multi_asks route.now (multi_at body.now) in
        IfOk result (AreAsked A.kept A.kept_of rules asks asker.old asker.new) }
    ensures stays { (rules : List Rule) → A.StandsFor asker.old rules →
        A.StandsFor asker.new rules }
    ensures picks { A.picks asker.new ≡ A.picks asker.old }
{
    if are_references(MAX_REFERENCES, None, body) {
        authorize_references(asker, route, MAX_REFERENCES, None, body)
    } else {
        authorize_one(asker, &unnamed_ask(route, Operation::Read))
    }
}

/// Puts the ask of a segment, which doesn't show what it names.
fn authorize_segment<A: Asker>(asker: &mut A, route: &Ask, service: u8) -> Result<bool, AllocError>
    ensures asked { (rules : List Rule) → A.StandsFor asker.old rules →
        let asks = segment_asks route.now service in
        IfOk result (AreAsked A.kept A.kept_of rules asks asker.old asker.new) }
    ensures stays { (rules : List Rule) → A.StandsFor asker.old rules →
        A.StandsFor asker.new rules }
    ensures picks { A.picks asker.new ≡ A.picks asker.old }
{
    match service {
        READ_PROPERTY | READ_PROPERTY_MULTIPLE => {
            authorize_one(asker, &unnamed_ask(route, Operation::Read))
        }
        WRITE_PROPERTY => authorize_one(asker, &unnamed_ask(route, Operation::Write)),
        _ => Ok(true),
    }
}

/// Puts the asks of a request, and answers whether all are allowed.
fn authorize_request<A: Asker>(
    asker: &mut A,
    route: &Ask,
    request: &ConfirmedRequest,
    body: &[u8],
) -> Result<bool, AllocError>
    ensures asked { (rules : List Rule) → A.StandsFor asker.old rules →
        let asks = request_asks route.now request.now body.now in
        IfOk result (AreAsked A.kept A.kept_of rules asks asker.old asker.new) }
    ensures stays { (rules : List Rule) → A.StandsFor asker.old rules →
        A.StandsFor asker.new rules }
    ensures picks { A.picks asker.new ≡ A.picks asker.old }
{
    if request.segment.is_some() {
        return authorize_segment(asker, route, request.service);
    }
    match request.service {
        READ_PROPERTY => authorize_one(asker, &read_ask(route, body)),
        READ_PROPERTY_MULTIPLE => authorize_multi(asker, route, body),
        WRITE_PROPERTY => authorize_one(asker, &write_ask(route, body)),
        _ => Ok(true),
    }
}

impl Relay {
    /// Puts the asks of what a message names, and answers whether all are allowed.
    fn authorize_named<A: Asker>(
        &self,
        asker: &mut A,
        route: &Ask,
        payload: &Payload<'_>,
    ) -> Result<bool, AllocError>
        ensures asked { (rules : List Rule) → A.StandsFor asker.old rules →
            let asks = named_asks self.now.format route.now (payload_view payload.now) in
            IfOk result (AreAsked A.kept A.kept_of rules asks asker.old asker.new) }
        ensures stays { (rules : List Rule) → A.StandsFor asker.old rules →
            A.StandsFor asker.new rules }
        ensures picks { A.picks asker.new ≡ A.picks asker.old }
    {
        let (Format::Two | Format::Three, Payload::Apdu(octets)) = (self.format(), payload) else {
            return Ok(true);
        };
        match gw_codecs::apdu::decode(octets) {
            Ok(
                Apdu {
                    header: Header::ConfirmedRequest(request),
                    rest,
                },
            ) => authorize_request(asker, route, &request, rest),
            _ => Ok(true),
        }
    }

    /// Puts a `route` ask, and after it those of what the message names, whether or not it is
    /// allowed; and answers whether all are.
    pub(crate) fn authorize_forward<A: Asker>(
        &self,
        asker: &mut A,
        route: &Ask,
        payload: &Payload<'_>,
    ) -> Result<bool, AllocError>
        ensures asked { (rules : List Rule) → A.StandsFor asker.old rules →
            let asks = forward_asks self.now.format route.now (payload_view payload.now) in
            IfOk result (AreAsked A.kept A.kept_of rules asks asker.old asker.new) }
        ensures stays { (rules : List Rule) → A.StandsFor asker.old rules →
            A.StandsFor asker.new rules }
        ensures picks { A.picks asker.new ≡ A.picks asker.old }
    {
        let goes = asker.authorize(route)?;
        let are_allowed = self.authorize_named(asker, route, payload)?;
        Ok(goes && are_allowed)
    }

    /// Puts the `cast` ask of a message, and after it, in a format that names stations, those of what
    /// the message names, whether or not it is allowed; and answers whether all are.
    #[inline(always)]
    pub(crate) fn authorize_cast<A: Asker>(
        &self,
        asker: &mut A,
        message: &Message<'_>,
    ) -> Result<bool, AllocError>
        ensures asked { (rules : List Rule) → A.StandsFor asker.old rules →
            let format = self.now.format in
            let m = message_view message.now in
            let asks = cast_ask format m ∷ carried_asks format m in
            IfOk result (AreAsked A.kept A.kept_of rules asks asker.old asker.new) }
        ensures stays { (rules : List Rule) → A.StandsFor asker.old rules →
            A.StandsFor asker.new rules }
        ensures picks { A.picks asker.new ≡ A.picks asker.old }
    {
        let format = self.format();
        let ask = message.passing_ask(format, Operation::Cast, bound_for(message.npdu));
        if format.names_stations() {
            self.authorize_forward(asker, &ask, &message.npdu.payload)
        } else {
            authorize_one(asker, &ask)
        }
    }
}
