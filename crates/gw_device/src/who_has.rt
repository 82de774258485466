//! Who-Has, which an I-Have answers (clause 16.9).

ghost use Rattle.std.specs.Prelude.{None, ◌≡◌, ◌≤◌, ◌++◌, [], List, length, IfOk, IsOk, OnOk};
ghost use Rattle.std.specs.Option.{option_map};
ghost use Rattle.gw_rules.specs.declared.rule.Rule.{Rule};
ghost use Rattle.gw_objects.specs.Objects.{name_at};
ghost use Rattle.gw_codecs.specs.services.WhoHas.{sought_view, who_has_view};
ghost use Rattle.gw_codecs.specs.tags.Object.{object_view};
ghost use Rattle.gw_device.specs.Response.{IsServed, answer_view, announcement_of, with_room};
ghost use Rattle.gw_device.specs.WhoHas.{i_have_apdu, object_response, sought_object, who_has_ask, who_has_response};

use crate::short::begin_apdu;
use crate::who_is::put_unconfirmed;
use crate::{Access, Served};
use gw_codecs::services::{I_HAVE, IHave, Sought, WHO_HAS, WhoHas, encode_i_have};
use gw_codecs::tags::{CharacterString, ObjectId};
use gw_objects::{Configured, Property};
use gw_rules::{Ask, Asker, Operation, Service};
use std::alloc::AllocError;

/// Character set 0 (clause 20.2.9).
const UTF_8: u8 = 0;

/// The I-Have of an object of that name, after the room for headers.
fn i_have_apdu(
    spare: &mut Vec<u8>,
    configured: &Configured,
    object: ObjectId,
    name: &str,
) -> Result<Vec<u8>, AllocError>
    requires { length name.now ≤ 255 }
    ensures { IfOk result (λ octets. octets.items
        ≡ with_room (i_have_apdu configured.now (object_view object) name.now)) }
{
    let mut octets = begin_apdu(spare)?;
    put_unconfirmed(&mut octets, I_HAVE)?;
    let announced = IHave {
        device: configured.device_id(),
        object,
        name: CharacterString {
            charset: UTF_8,
            octets: name.as_bytes(),
        },
    };
    encode_i_have(&announced, &mut octets)?;
    Ok(octets)
}

impl Access<'_> {
    /// The object that is sought, whether or not it is there; by a name, the one that has it.
    fn sought_object(&self, sought: &Sought<'_>) -> Option<ObjectId>
        ensures { option_map object_view result ≡ sought_object self.now.objects.now.configured
            (sought_view sought.now) }
    {
        match sought {
            Sought::Object(object) => Some(*object),
            Sought::Name(name) if name.charset == UTF_8 => self.objects.find_name(name.octets),
            Sought::Name(_) => None,
        }
    }

    /// The ask for an object that is sought.
    fn who_has_ask(&self, object: ObjectId) -> Ask
        ensures { result
            ≡ who_has_ask self.now.objects.now.configured self.now.context.now (object_view object) }
    {
        self.property_ask(
            Operation::List,
            Service::Unconfirmed(WHO_HAS),
            object,
            Property::ObjectName.number(),
        )
    }

    /// The I-Have of an object that may be announced, if it is there.
    fn announce_object(&self, object: ObjectId, spare: &mut Vec<u8>) -> Result<Served, AllocError>
        ensures answer { let object = object_view object in
            let name = name_at self.now.objects.now.configured object in
            let due = announcement_of (option_map (i_have_apdu self.now.objects.now.configured object) name) in
            IfOk result (λ served. option_map answer_view served.answer ≡ due) }
        ensures place { IfOk result (λ served. served.change ≡ None) }
    {
        let Some(name) = self.objects.name(object) else {
            return Ok(Served::silence());
        };
        let octets = i_have_apdu(spare, self.objects.configured(), object, name.as_str())?;
        Ok(Served::to_everyone(octets))
    }

    /// What the device gives to a Who-Has of an object.
    fn about<A: Asker>(
        &self,
        object: ObjectId,
        asker: &mut A,
        spare: &mut Vec<u8>,
    ) -> Result<Served, AllocError>
        ensures served { (rules : List Rule) → A.StandsFor asker.old rules →
            let sought = Some (object_view object) in IfOk result
            (IsServed (object_response rules self.now.objects.now self.now.context.now sought)) }
        ensures asks { (rules : List Rule) → A.StandsFor asker.old rules →
            let sought = Some (object_view object) in
            let due = object_response rules self.now.objects.now self.now.context.now sought in
            OnOk result (A.kept asker.new ≡ A.kept asker.old ++ A.kept_of rules due.asks) }
        ensures stays { (rules : List Rule) → A.StandsFor asker.old rules →
            A.StandsFor asker.new rules }
        ensures picks { A.picks asker.new ≡ A.picks asker.old }
        ensures place { IfOk result (λ served. served.change ≡ None) }
    {
        if asker.authorize(&self.who_has_ask(object))? {
            self.announce_object(object, spare)
        } else {
            Ok(Served::silence())
        }
    }

    /// What the device gives to a Who-Has (clause 16.9). Its ask, if there is one, is put to `asker`; nothing is
    /// changed.
    ///
    /// # Errors
    ///
    /// 1 Memory. The asker may then have kept a part of what it is to keep.
    pub fn who_has<A: Asker>(
        &self,
        request: &WhoHas<'_>,
        asker: &mut A,
        spare: &mut Vec<u8>,
    ) -> Result<Served, AllocError>
        ensures served { (rules : List Rule) → A.StandsFor asker.old rules →
            let request = who_has_view request.now in IfOk result
            (IsServed (who_has_response rules self.now.objects.now self.now.context.now request)) }
        ensures asks { (rules : List Rule) → A.StandsFor asker.old rules →
            let request = who_has_view request.now in
            let due = who_has_response rules self.now.objects.now self.now.context.now request in
            OnOk result (A.kept asker.new ≡ A.kept asker.old ++ A.kept_of rules due.asks) }
        ensures stays { (rules : List Rule) → A.StandsFor asker.old rules →
            A.StandsFor asker.new rules }
        ensures picks { A.picks asker.new ≡ A.picks asker.old }
        ensures place { IfOk result (λ served. served.change ≡ None) }
        // What asks nothing needs no memory.
        ensures silent { (rules : List Rule) →
            let request = who_has_view request.now in
            (who_has_response rules self.now.objects.now self.now.context.now request).asks ≡ []
            → IsOk result }
    {
        if !self.is_within(&request.limits) {
            return Ok(Served::silence());
        }
        match self.sought_object(&request.sought) {
            Some(object) => self.about(object, asker, spare),
            None => Ok(Served::silence()),
        }
    }
}
