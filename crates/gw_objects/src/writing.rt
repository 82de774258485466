//! Writing what a property holds.
ghost use Rattle.std.specs.Prelude.{◌≡◌, ◌≢◌, ◌↔◌, ◌++◌, ◌+◌, ◌<◌, ◌≤◌, Some, Err, length};
ghost use Rattle.std.specs.Prelude.{vec_len, slice_get, option_map, IsOk, OnOk, OnErr};
ghost use Rattle.std.specs.List.{flat_map};
ghost use Rattle.std.specs.Vec.{vec_capacity};
ghost use Rattle.gw_addr.specs.Reading.{Keeps};
ghost use Rattle.gw_codecs.specs.tags.Value.{value_encoding, value_view};
ghost use Rattle.gw_objects.specs.Contents as contents;
ghost use Rattle.gw_objects.specs.Contents.{octets_of};
ghost use Rattle.gw_objects.specs.Table as table;
ghost use Rattle.gw_objects.specs.Answer.{Answers, HasRoom};
ghost use Rattle.gw_objects.specs.internal.View.{array_view, contents_view, flags_view, item_view};

use crate::contents::{Array, Contents, Flags, Item};
use crate::table::item_of;
use crate::{PropertyValue, ReadFault, States, ValueObjects};
use gw_codecs::tags::{AppValue, BitString, CharacterString, ObjectId, write_value};
use gw_configuration::Text;
use gw_tables::priority::PriorityArray;
use std::alloc::AllocError;

/// Protocol_Services_Supported: the bits of ReadProperty, ReadPropertyMultiple, WriteProperty,
/// Who-Has and Who-Is are set.
const SERVICES: [u8; 5] = [0x00, 0x0B, 0x00, 0x00, 0x60];
/// Protocol_Object_Types_Supported: the bit of each type is set.
const OBJECT_TYPES: [u8; 7] = [0x04, 0x80, 0x10, 0x00, 0x00, 0x84, 0x80];
/// Status_Flags: none of the four is set.
const STATUS: [u8; 1] = [0x00];

/// Appends a text.
fn write_text(out: &mut Vec<u8>, text: &Text) -> Result<(), AllocError>
    ensures ok { OnOk result
        (out.new.items ≡ out.old.items ++ value_encoding (table.text text.now)) }
    ensures err { OnErr result (out.new.items ≡ out.old.items) }
    ensures room { vec_len out.old + length (value_encoding (table.text text.now))
        ≤ vec_capacity out.old → IsOk result }
    ensures capacity { vec_capacity out.old ≤ vec_capacity out.new }
{
    let octets = text.as_str().as_bytes();
    write_value(out, AppValue::Text(CharacterString { charset: 0, octets }))
}

/// The bits.
fn bit_string(flags: Flags) -> BitString<'static>
    ensures { value_view (AppValue.Bits result) ≡ flags_view flags }
{
    match flags {
        Flags::Status => BitString {
            unused: 4,
            octets: &STATUS,
        },
        Flags::Services => BitString {
            unused: 0,
            octets: &SERVICES,
        },
        Flags::ObjectTypes => BitString {
            unused: 0,
            octets: &OBJECT_TYPES,
        },
    }
}

/// Appends a value. After an `Err` the buffer holds what it held.
fn write_item(out: &mut Vec<u8>, item: &Item<'_>) -> Result<(), AllocError>
    ensures ok { OnOk result
        (out.new.items ≡ out.old.items ++ value_encoding (item_view item.now)) }
    ensures err { OnErr result (out.new.items ≡ out.old.items) }
    ensures room { vec_len out.old + length (value_encoding (item_view item.now))
        ≤ vec_capacity out.old → IsOk result }
    ensures capacity { vec_capacity out.old ≤ vec_capacity out.new }
{
    match item {
        Item::Null => write_value(out, AppValue::Null),
        Item::Boolean(said) => write_value(out, AppValue::Boolean(*said)),
        Item::Unsigned(number) => write_value(out, AppValue::Unsigned(*number)),
        Item::Signed(number) => write_value(out, AppValue::Signed(*number)),
        Item::Enumerated(number) => write_value(out, AppValue::Enumerated(*number)),
        Item::Text(text) => write_text(out, text),
        Item::Bits(flags) => write_value(out, AppValue::Bits(bit_string(*flags))),
        Item::Object(id) => write_value(out, AppValue::Object(*id)),
    }
}

impl Array<'_> {
    /// How many elements there are.
    fn len(&self) -> usize
        ensures len { result ≡ length (array_view self.now) }
        ensures few { result ≤ 257 }
    {
        match self {
            Array::Objects(_, objects) => objects.as_slice().len() + 1,
            Array::Slots(slots) => slots.slots().len(),
            Array::Texts(texts) => texts.as_slice().len(),
        }
    }
}

/// An element of an array, counted from 0.
fn element<'a>(array: &Array<'a>, place: usize) -> Item<'a>
    requires { place < length (array_view array.now) }
    ensures { slice_get (array_view array.now) place ≡ Some (item_view result) }
{
    match array {
        Array::Objects(device, objects) => listed(*device, objects, place),
        Array::Slots(slots) => slot_item(slots, place),
        Array::Texts(texts) => state_text(texts, place),
    }
}

/// An object of Object_List.
fn listed<'a>(device: ObjectId, objects: &'a ValueObjects, place: usize) -> Item<'a>
    requires { place < length (array_view (Array.Objects device objects)) }
    ensures { slice_get (array_view (Array.Objects device objects.entry)) place
        ≡ Some (item_view result) }
{
    if place == 0 {
        Item::Object(device)
    } else {
        Item::Object(objects.as_slice()[place - 1].id())
    }
}

/// A slot of Priority_Array.
fn slot_item<'a>(slots: &'a PriorityArray<PropertyValue>, place: usize) -> Item<'a>
    requires { place < length (array_view (Array.Slots slots)) }
    ensures { slice_get (array_view (Array.Slots slots.entry)) place ≡ Some (item_view result) }
{
    match &slots.slots()[place] {
        Some(value) => item_of(value),
        None => Item::Null,
    }
}

/// A text of State_Text.
fn state_text<'a>(texts: &'a States, place: usize) -> Item<'a>
    requires { place < length (array_view (Array.Texts texts)) }
    ensures { slice_get (array_view (Array.Texts texts.entry)) place ≡ Some (item_view result) }
{
    Item::Text(&texts.as_slice()[place])
}

/// Appends the elements one after the other. After an `Err` `out` may hold a front of them.
fn write_array(out: &mut Vec<u8>, array: &Array<'_>) -> Result<(), AllocError>
    ensures ok { OnOk result
        (out.new.items ≡ out.old.items ++ flat_map value_encoding (array_view array.now)) }
    ensures front { Keeps out.old.items out.new.items }
    ensures room { vec_len out.old + length (flat_map value_encoding (array_view array.now))
        ≤ vec_capacity out.old
        → IsOk result }
    ensures capacity { vec_capacity out.old ≤ vec_capacity out.new }
{
    for place in 0..array.len() {
        write_item(out, &element(array, place))?;
    }
    Ok(())
}

/// Appends what a property holds, or one element of an array: index 0 is how many there are.
///
/// `NotArray` if an index is given and it is no array, `BadIndex` if the array has no element
/// of that index, `Memory` only if the buffer had no room. After an `Err` a front of the octets
/// may be in the buffer.
pub(crate) fn write_contents(
    out: &mut Vec<u8>,
    contents: &Contents<'_>,
    index: Option<u32>,
) -> Result<(), ReadFault>
    ensures answer { Answers result (octets_of (contents_view contents.now) index)
        out.old.items out.new.items }
    ensures front { Keeps out.old.items out.new.items }
    ensures room { HasRoom (octets_of (contents_view contents.now) index)
        (vec_len out.old) (vec_capacity out.old)
        → result ≢ Err ReadFault.Memory }
    ensures capacity { vec_capacity out.old ≤ vec_capacity out.new }
{
    match (contents, index) {
        (Contents::One(item), None) => or_memory(write_item(out, item)),
        (Contents::One(_), Some(_)) => Err(ReadFault::NotArray),
        (Contents::Array(array), None) => or_memory(write_array(out, array)),
        (Contents::Array(array), Some(index)) => write_element(out, array, index),
        (Contents::EmptyList, None) => Ok(()),
        (Contents::EmptyList, Some(_)) => Err(ReadFault::NotArray),
    }
}

/// Want of memory as a fault of reading.
fn or_memory(written: Result<(), AllocError>) -> Result<(), ReadFault>
    ensures ok { (IsOk result) ↔ IsOk written }
    ensures memory { OnErr result (result ≡ Err ReadFault.Memory) }
{
    match written {
        Ok(()) => Ok(()),
        Err(_) => Err(ReadFault::Memory),
    }
}

/// Appends the element of that index, counted from 1; index 0 is how many there are.
fn write_element(out: &mut Vec<u8>, array: &Array<'_>, index: u32) -> Result<(), ReadFault>
    ensures answer { Answers result
        (octets_of (contents.array (array_view array.now)) (Some index))
        out.old.items out.new.items }
    ensures front { Keeps out.old.items out.new.items }
    ensures room { HasRoom (octets_of (contents.array (array_view array.now)) (Some index))
        (vec_len out.old) (vec_capacity out.old)
        → result ≢ Err ReadFault.Memory }
    ensures capacity { vec_capacity out.old ≤ vec_capacity out.new }
{
    match indexed(array, index) {
        Some(item) => or_memory(write_item(out, &item)),
        None => Err(ReadFault::BadIndex),
    }
}

/// The element of that index, counted from 1, or how many there are at index 0; `None` where the
/// index is above that.
fn indexed<'a>(array: &Array<'a>, index: u32) -> Option<Item<'a>>
    ensures { option_map (λ item. item_view item) result
        ≡ contents.element (array_view array.now) index }
{
    if index == 0 {
        return Some(Item::Unsigned(array.len() as u32));
    }
    let place = index as usize - 1;
    if place < array.len() {
        Some(element(array, place))
    } else {
        None
    }
}
