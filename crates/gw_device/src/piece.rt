//! The pieces that the answer to a ReadPropertyMultiple is written in (clause 15.7).

ghost use Rattle.std.specs.Prelude.{◌≡◌, ◌≤◌, ◌++◌, vec_len, OnOk};
ghost use Rattle.gw_objects.specs.Table.{read_of};
ghost use Rattle.gw_codecs.specs.tags.Object.{object_view};
ghost use Rattle.gw_device.specs.Multi.{item};
ghost use Rattle.gw_device.specs.Read.{or_error};
ghost use Rattle.gw_device.specs.internal.Piece.{piece_octets};

use crate::error::read_error;
use gw_codecs::apdu::ServiceError;
use gw_codecs::services::{
    write_error_item, write_list_head, write_list_tail, write_value_item_head,
    write_value_item_tail,
};
use gw_codecs::tags::ObjectId;
use gw_objects::ObjectDb;
use std::alloc::AllocError;

/// A property of an object, a set of its properties, or one element of a property (clause 21,
/// BACnetObjectPropertyReference).
#[derive(Clone, Copy)]
pub(crate) struct PropertyReference {
    /// The object.
    pub object: ObjectId,
    /// The property, or the name of a set of properties.
    pub property: u32,
    /// The index of an element.
    pub index: Option<u32>,
}

/// A piece of the answer to a ReadPropertyMultiple.
#[derive(Clone, Copy)]
pub(crate) enum Piece {
    /// What the list of an object begins with, where one begins.
    ListHead {
        begins: bool,
        object: ObjectId,
    },
    /// What the list of an object ends with, where one ends.
    ListTail {
        ends: bool,
    },
    /// The item of a property that is allowed: its value, or the error in its place.
    Item {
        of: PropertyReference,
    },
    /// The item of a property that has an error in the place of its value.
    ErrorItem {
        property: u32,
        index: Option<u32>,
        why: ServiceError,
    },
}

/// Appends the item of a property that is allowed: its value, or the error in its place.
fn put_item(objects: &ObjectDb, of: PropertyReference, out: &mut Vec<u8>) -> Result<(), AllocError>
    ensures octets { let found = read_of objects.now (object_view of.object) of.property of.index in
        OnOk result (out.new.items ≡ out.old.items ++ item of.property of.index (or_error found)) }
    ensures longer { vec_len out.old ≤ vec_len out.new }
{
    let len = out.len();
    write_value_item_head(out, of.property, of.index)?;
    match objects.read(of.object, of.property, of.index, out) {
        Ok(()) => write_value_item_tail(out),
        Err(fault) => {
            let why = read_error(fault)?;
            out.truncate(len);
            write_error_item(out, of.property, of.index, why)
        }
    }
}

impl Piece {
    /// Appends the piece. `AllocError` where memory was refused; a front of it may then be there.
    #[inline(always)]
    pub fn put(self, objects: &ObjectDb, out: &mut Vec<u8>) -> Result<(), AllocError>
        ensures octets { OnOk result
            (out.new.items ≡ out.old.items ++ piece_octets objects.now self) }
        ensures longer { vec_len out.old ≤ vec_len out.new }
    {
        match self {
            Piece::ListHead { begins, object } => write_list_head(out, begins, object),
            Piece::ListTail { ends } => write_list_tail(out, ends),
            Piece::Item { of } => put_item(objects, of, out),
            Piece::ErrorItem {
                property,
                index,
                why,
            } => write_error_item(out, property, index, why),
        }
    }
}
