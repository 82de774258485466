//! ReadPropertyMultiple (clause 15.7): the answer is written while it is judged, each error in its
//! place. Once it is more than the client takes, it is only judged.

ghost use Rattle.std.specs.Prelude.{◌≡◌, ◌≤◌, ◌++◌, List, map, vec_len, None, IfOk, OnOk};
ghost use Rattle.gw_rules.specs.declared.rule.Rule.{Rule};
ghost use Rattle.gw_objects.specs.Objects.{type_at};
ghost use Rattle.gw_codecs.specs.services.Multi.{reference_view};
ghost use Rattle.gw_codecs.specs.services.MultiView.{multi_view};
ghost use Rattle.gw_codecs.specs.tags.Object.{object_view};
ghost use Rattle.gw_device.specs.Multi.{members_part, multi_ack, multi_ask, multi_part, multi_response, named_part};
ghost use Rattle.gw_device.specs.Multi.{properties_part, property_part, reference_part, set_part};
ghost use Rattle.gw_device.specs.Response.{IsServed, fitted, with_room};
ghost use Rattle.gw_device.specs.Services.{set_of};
ghost use Rattle.gw_device.specs.internal.Limit.{extended};

use crate::error::{READ_DENIED, UNKNOWN_OBJECT};
use crate::limited::Limited;
use crate::piece::{Piece, PropertyReference};
use crate::services::set_of;
use crate::short::{begin_apdu, most_octets};
use crate::{Access, Served};
use gw_codecs::apdu::{ConfirmedRequest, write_complex};
use gw_codecs::services::{MultiReq, READ_PROPERTY_MULTIPLE, Reference, list_ends};
use gw_codecs::tags::ObjectId;
use gw_objects::{ObjectDb, Property, PropertySet};
use gw_rules::{Ask, Asker, Operation, Service};
use std::alloc::AllocError;

impl Access<'_> {
    /// The ask for a property.
    fn multi_ask(&self, object: ObjectId, property: u32) -> Ask
        ensures { result
            ≡ multi_ask self.now.objects.now self.now.context.now (object_view object) property }
    {
        self.property_ask(
            Operation::Read,
            Service::Confirmed(READ_PROPERTY_MULTIPLE),
            object,
            property,
        )
    }

    /// Asks for a property by its ask, and appends its item.
    #[inline(always)]
    fn put_property<A: Asker>(
        &self,
        of: PropertyReference,
        ask: &Ask,
        asker: &mut A,
        out: &mut Limited,
    ) -> Result<(), AllocError>
        requires { ask.now ≡ multi_ask self.now.objects.now self.now.context.now
            (object_view of.object) of.property }
        ensures octets { (rules : List Rule) → A.StandsFor asker.old rules →
            let part = property_part rules self.now.objects.now self.now.context.now
            (object_view of.object) of.property of.index in
            OnOk result (out.new ≡ extended out.old part.octets) }
        ensures asks { (rules : List Rule) → A.StandsFor asker.old rules →
            let part = property_part rules self.now.objects.now self.now.context.now
            (object_view of.object) of.property of.index in
            OnOk result (A.kept asker.new ≡ A.kept asker.old ++ A.kept_of rules part.asks) }
        ensures stays { (rules : List Rule) → A.StandsFor asker.old rules →
            A.StandsFor asker.new rules }
        ensures picks { A.picks asker.new ≡ A.picks asker.old }
    {
        if asker.authorize(ask)? {
            out.put(self.objects, Piece::Item { of })
        } else {
            out.put(
                self.objects,
                Piece::ErrorItem {
                    property: of.property,
                    index: of.index,
                    why: READ_DENIED,
                },
            )
        }
    }

    /// Asks for properties of an object in their order, and appends their items.
    fn put_properties<A: Asker>(
        &self,
        object: ObjectId,
        properties: &[Property],
        asker: &mut A,
        out: &mut Limited,
    ) -> Result<(), AllocError>
        ensures octets { (rules : List Rule) → A.StandsFor asker.old rules →
            let part = properties_part rules self.now.objects.now self.now.context.now
            (object_view object) properties.now in
            OnOk result (out.new ≡ extended out.old part.octets) }
        ensures asks { (rules : List Rule) → A.StandsFor asker.old rules →
            let part = properties_part rules self.now.objects.now self.now.context.now
            (object_view object) properties.now in
            OnOk result (A.kept asker.new ≡ A.kept asker.old ++ A.kept_of rules part.asks) }
        ensures stays { (rules : List Rule) → A.StandsFor asker.old rules →
            A.StandsFor asker.new rules }
        ensures picks { A.picks asker.new ≡ A.picks asker.old }
    {
        // The asks differ in the property alone, so one is made and set for each.
        let mut ask = self.multi_ask(object, 0);
        for property in properties {
            let property = property.number();
            ask.property = Some(u64::from(property));
            let member = PropertyReference {
                object,
                property,
                index: None,
            };
            self.put_property(member, &ask, asker, out)?;
        }
        Ok(())
    }

    /// Appends the items of a set that is allowed.
    fn put_members<A: Asker>(
        &self,
        of: PropertyReference,
        set: PropertySet,
        asker: &mut A,
        out: &mut Limited,
    ) -> Result<(), AllocError>
        ensures octets { (rules : List Rule) → A.StandsFor asker.old rules →
            let object = object_view of.object in
            let kind = type_at self.now.objects.now.configured object in
            let part = members_part rules self.now.objects.now self.now.context.now
            object of.property set kind in
            OnOk result (out.new ≡ extended out.old part.octets) }
        ensures asks { (rules : List Rule) → A.StandsFor asker.old rules →
            let object = object_view of.object in
            let kind = type_at self.now.objects.now.configured object in
            let part = members_part rules self.now.objects.now self.now.context.now
            object of.property set kind in
            OnOk result (A.kept asker.new ≡ A.kept asker.old ++ A.kept_of rules part.asks) }
        ensures stays { (rules : List Rule) → A.StandsFor asker.old rules →
            A.StandsFor asker.new rules }
        ensures picks { A.picks asker.new ≡ A.picks asker.old }
    {
        match self.objects.find(of.object) {
            Some(kind) => {
                let properties = ObjectDb::properties(kind, set);
                self.put_properties(of.object, properties, asker, out)
            }
            None => out.put(
                self.objects,
                Piece::ErrorItem {
                    property: of.property,
                    index: None,
                    why: UNKNOWN_OBJECT,
                },
            ),
        }
    }

    /// Asks for a set of properties, and appends its items.
    fn put_set<A: Asker>(
        &self,
        of: PropertyReference,
        set: PropertySet,
        asker: &mut A,
        out: &mut Limited,
    ) -> Result<(), AllocError>
        ensures octets { (rules : List Rule) → A.StandsFor asker.old rules →
            let part = set_part rules self.now.objects.now self.now.context.now
            (object_view of.object) of.property set in
            OnOk result (out.new ≡ extended out.old part.octets) }
        ensures asks { (rules : List Rule) → A.StandsFor asker.old rules →
            let part = set_part rules self.now.objects.now self.now.context.now
            (object_view of.object) of.property set in
            OnOk result (A.kept asker.new ≡ A.kept asker.old ++ A.kept_of rules part.asks) }
        ensures stays { (rules : List Rule) → A.StandsFor asker.old rules →
            A.StandsFor asker.new rules }
        ensures picks { A.picks asker.new ≡ A.picks asker.old }
    {
        if asker.authorize(&self.multi_ask(of.object, of.property))? {
            self.put_members(of, set, asker, out)
        } else {
            out.put(
                self.objects,
                Piece::ErrorItem {
                    property: of.property,
                    index: None,
                    why: READ_DENIED,
                },
            )
        }
    }

    /// Appends the items of a property or a set of them.
    fn put_named<A: Asker>(
        &self,
        of: PropertyReference,
        asker: &mut A,
        out: &mut Limited,
    ) -> Result<(), AllocError>
        ensures octets { (rules : List Rule) → A.StandsFor asker.old rules →
            let part = named_part rules self.now.objects.now self.now.context.now
            (object_view of.object) of.property of.index (set_of of.property) in
            OnOk result (out.new ≡ extended out.old part.octets) }
        ensures asks { (rules : List Rule) → A.StandsFor asker.old rules →
            let part = named_part rules self.now.objects.now self.now.context.now
            (object_view of.object) of.property of.index (set_of of.property) in
            OnOk result (A.kept asker.new ≡ A.kept asker.old ++ A.kept_of rules part.asks) }
        ensures stays { (rules : List Rule) → A.StandsFor asker.old rules →
            A.StandsFor asker.new rules }
        ensures picks { A.picks asker.new ≡ A.picks asker.old }
    {
        match set_of(of.property) {
            Some(set) => self.put_set(of, set, asker, out),
            None => {
                let ask = self.multi_ask(of.object, of.property);
                self.put_property(of, &ask, asker, out)
            }
        }
    }

    /// Appends what a reference asks for; the list of its object ends with it, or goes on.
    fn put_reference<A: Asker>(
        &self,
        reference: &Reference,
        ends: bool,
        asker: &mut A,
        out: &mut Limited,
    ) -> Result<(), AllocError>
        ensures octets { (rules : List Rule) → A.StandsFor asker.old rules →
            let reference = reference_view reference.now in
            let part = reference_part rules self.now.objects.now self.now.context.now
            reference ends in
            OnOk result (out.new ≡ extended out.old part.octets) }
        ensures asks { (rules : List Rule) → A.StandsFor asker.old rules →
            let reference = reference_view reference.now in
            let part = reference_part rules self.now.objects.now self.now.context.now
            reference ends in
            OnOk result (A.kept asker.new ≡ A.kept asker.old ++ A.kept_of rules part.asks) }
        ensures stays { (rules : List Rule) → A.StandsFor asker.old rules →
            A.StandsFor asker.new rules }
        ensures picks { A.picks asker.new ≡ A.picks asker.old }
    {
        let of = PropertyReference {
            object: self.named_object(reference.object),
            property: reference.property,
            index: reference.index,
        };
        let head = Piece::ListHead {
            begins: reference.begins,
            object: of.object,
        };
        out.put(self.objects, head)?;
        self.put_named(of, asker, out)?;
        out.put(self.objects, Piece::ListTail { ends })
    }

    /// Appends what references ask for, in their order.
    fn put_references<A: Asker>(
        &self,
        references: &[Reference],
        asker: &mut A,
        out: &mut Limited,
    ) -> Result<(), AllocError>
        ensures octets { (rules : List Rule) → A.StandsFor asker.old rules →
            let references = map reference_view references.now in
            let part = multi_part rules self.now.objects.now self.now.context.now
            references in
            OnOk result (out.new ≡ extended out.old part.octets) }
        ensures asks { (rules : List Rule) → A.StandsFor asker.old rules →
            let references = map reference_view references.now in
            let part = multi_part rules self.now.objects.now self.now.context.now
            references in
            OnOk result (A.kept asker.new ≡ A.kept asker.old ++ A.kept_of rules part.asks) }
        ensures stays { (rules : List Rule) → A.StandsFor asker.old rules →
            A.StandsFor asker.new rules }
        ensures picks { A.picks asker.new ≡ A.picks asker.old }
    {
        let Some((first, others)) = references.split_first() else {
            return Ok(());
        };
        self.put_reference(first, list_ends(others), asker, out)?;
        self.put_references(others, asker, out)
    }

    /// The answer to a ReadPropertyMultiple, after the room for headers.
    fn multi_apdu<A: Asker>(
        &self,
        header: &ConfirmedRequest,
        references: &[Reference],
        asker: &mut A,
        spare: &mut Vec<u8>,
    ) -> Result<Vec<u8>, AllocError>
        ensures apdu { (rules : List Rule) → A.StandsFor asker.old rules →
            let references = map reference_view references.now in
            let part = multi_part rules self.now.objects.now self.now.context.now
            references in
            let ack = multi_ack header.now.invoke part.octets in
            IfOk result (λ octets.
            octets.items ≡ with_room (fitted header.now self.now.context.now ack)) }
        ensures asks { (rules : List Rule) → A.StandsFor asker.old rules →
            let references = map reference_view references.now in
            let part = multi_part rules self.now.objects.now self.now.context.now
            references in
            OnOk result (A.kept asker.new ≡ A.kept asker.old ++ A.kept_of rules part.asks) }
        ensures stays { (rules : List Rule) → A.StandsFor asker.old rules →
            A.StandsFor asker.new rules }
        ensures picks { A.picks asker.new ≡ A.picks asker.old }
        ensures room { IfOk result (λ octets. 10 ≤ vec_len octets) }
    {
        let mut octets = begin_apdu(spare)?;
        write_complex(&mut octets, header.invoke, READ_PROPERTY_MULTIPLE)?;
        let mut octets = Limited::new(octets, most_octets(header, self.context));
        self.put_references(references, asker, &mut octets)?;
        let octets = octets.finish(header.invoke)?;
        Ok(octets)
    }

    /// What the device gives to a ReadPropertyMultiple (clause 15.7). Each ask is put to `asker`, in order; nothing
    /// is changed.
    ///
    /// # Errors
    ///
    /// 1 Memory. The asker may then have kept a part of what it is to keep.
    pub fn read_multiple<A: Asker>(
        &self,
        header: &ConfirmedRequest,
        request: &MultiReq,
        asker: &mut A,
        spare: &mut Vec<u8>,
    ) -> Result<Served, AllocError>
        ensures served { (rules : List Rule) → A.StandsFor asker.old rules →
            let references = multi_view request.now in IfOk result
            (IsServed (multi_response rules self.now.objects.now self.now.context.now header.now references)) }
        ensures asks { (rules : List Rule) → A.StandsFor asker.old rules →
            let references = multi_view request.now in
            let due = multi_response rules self.now.objects.now self.now.context.now header.now references in
            OnOk result (A.kept asker.new ≡ A.kept asker.old ++ A.kept_of rules due.asks) }
        ensures stays { (rules : List Rule) → A.StandsFor asker.old rules →
            A.StandsFor asker.new rules }
        ensures picks { A.picks asker.new ≡ A.picks asker.old }
        ensures place { IfOk result (λ served. served.change ≡ None) }
    {
        let references = request.references.as_slice();
        let octets = self.multi_apdu(header, references, asker, spare)?;
        Ok(Served::to_client(octets))
    }
}
