//! The value objects with their slots: written, and read.

ghost use Rattle.std.specs.Prelude.{◌≡◌, ◌++◌, ◌∷◌, [], None, codes, get_or, length, IfOk, IfErr, IfSome};
ghost use Rattle.std.specs.Fmt.{decimal};
ghost use Rattle.std.specs.List.{list_any};
ghost use Rattle.gw_tables.specs.declared.priority.array.TheConstants.{PRIORITIES};
ghost use Rattle.gw_codecs.specs.tags.Object.{IsObject, object_view};
ghost use Rattle.gw_state_text.specs.Fit.{AreOfKind, FitsKind, FitsObjects, is_object};
ghost use Rattle.gw_state_text.specs.Text.{identifier_text, object_line, object_text, slot_text, slots_text, value_text};
ghost use Rattle.gw_state_text.specs.Reading.{Reads, ReadsLines, identifier_at, object_after, object_at};
ghost use Rattle.gw_state_text.specs.Reading.{slot_at, slot_fault, slots_after, value_to};
ghost use Rattle.gw_state_text.specs.Lines.{priority_at};
ghost use Rattle.gw_state_text.specs.Words.{Finds};
ghost use Rattle.gw_state_text.specs.internal.Objects.{IsHead, StopsInSlots, head_text, line_view};
ghost use Rattle.gw_state_text.specs.internal.Put.{IsPut};

use crate::block::Block;
use crate::fault::{FaultKind, Stop};
use crate::items::ItemLines;
use crate::value::{put_value, value_in};
use crate::words::{after_word, long_to, octet_to, parted_at, short_to};
use gw_addr::{put_decimal, put_octet, put_slice};
use gw_codecs::tags::ObjectId;
use gw_configuration::{MAX_OBJECTS, ObjectKind};
use gw_objects::PropertyValue;
use gw_state::SavedObject;
use gw_tables::priority::{LOWEST, PRIORITIES, PriorityArray, RESERVED};
use std::alloc::{AllocError, Global};
use std::array;

/// Appends the line of a slot, if it isn't empty.
fn put_slot(out: &mut Vec<u8>, priority: u8, slot: &Option<PropertyValue>) -> Result<(), AllocError>
    ensures { IsPut (slot_text priority slot.now) out.old.items out.new.items result }
{
    let Some(value) = slot else {
        return Ok(());
    };
    put_slice(out, b"slot ")?;
    put_decimal(out, priority)?;
    put_octet(out, b' ')?;
    put_value(out, value)?;
    put_octet(out, b'\n')
}

/// Appends the lines of slots, of which the first has priority 1.
fn put_slots(out: &mut Vec<u8>, slots: &[Option<PropertyValue>]) -> Result<(), AllocError>
    requires { length slots.now ≡ PRIORITIES }
    ensures { IsPut (slots_text 1 slots.now) out.old.items out.new.items result }
{
    for place in 0..PRIORITIES {
        put_slot(out, place as u8 + 1, &slots[place])?;
    }
    Ok(())
}

/// Appends what the line of an object begins with.
fn put_identifier(out: &mut Vec<u8>, object: ObjectId) -> Result<(), AllocError>
    ensures { IsPut (identifier_text (object_view object)) out.old.items out.new.items result }
{
    put_slice(out, b"object ")?;
    put_decimal(out, object.kind)?;
    put_octet(out, b' ')?;
    put_decimal(out, object.instance)?;
    put_octet(out, b' ')
}

/// Appends the line of an object.
fn put_head(
    out: &mut Vec<u8>,
    object: ObjectId,
    configured: &PropertyValue,
    default: &PropertyValue,
) -> Result<(), AllocError>
    ensures { IsPut (object_line (object_view object) configured.now default.now) out.old.items out.new.items result }
{
    put_identifier(out, object)?;
    put_value(out, configured)?;
    put_octet(out, b' ')?;
    put_value(out, default)?;
    put_octet(out, b'\n')
}

/// Appends a value object, and its slots that aren't empty.
fn put_object(out: &mut Vec<u8>, object: &SavedObject) -> Result<(), AllocError>
    ensures { IsPut (object_text object.now) out.old.items out.new.items result }
{
    let slots = object.slots();
    put_head(out, object.object(), object.configured(), slots.default())?;
    put_slots(out, slots.slots())
}

/// Value objects with their slots.
#[derive(Clone, Copy)]
pub(crate) struct Objects;

impl ItemLines for Objects {
    type Item = SavedObject;

    ghost lines = { λ objects object. object_text object };

    fn put(&self, out: &mut Vec<u8>, item: &SavedObject) -> Result<(), AllocError> {
        put_object(out, item)
    }
}

/// A value of an object of this type up to such a character, and what comes after it.
#[tactic(auto, unfolding(crate::specs::Reading::value_to))]
fn value_to(
    alloc: Global,
    kind: ObjectKind,
    c: u8,
    text: &[u8],
) -> Result<(PropertyValue, &[u8]), FaultKind>
    ensures found { IfOk result (λ x. text.now ≡ value_text x.0 ++ c ∷ x.1.now) }
    ensures is { IfOk result (λ x. FitsKind kind x.0) }
    ensures exact { Reads (λ x. (x.0, x.1.now)) result (value_to kind c text.now) }
{
    let Some((word, rest)) = parted_at(c, text) else {
        return Err(FaultKind::Line);
    };
    let value = value_in(alloc, kind, word)?;
    Ok((value, rest))
}

/// The priority that a line of a slot names at the front of a text, and what comes after it.
#[tactic(auto, unfolding(crate::specs::Lines::priority_at))]
fn priority_at(text: &[u8]) -> Option<(u8, &[u8])>
    ensures found { IfSome result (λ x. text.now ≡ codes "slot " ++ (decimal x.0 ++ 32 ∷ x.1.now)) }
    ensures exact { Finds (λ x. (x.0, x.1.now)) result (priority_at text.now) }
{
    let words = after_word(b"slot ", text)?;
    octet_to(b' ', words)
}

/// The slot of this priority, which is empty if the text doesn't begin with its line, and what comes after
/// that. No write can command or empty slot 6 (clause 19.2.3): its line is `Range`.
#[tactic(auto, unfolding(crate::specs::Reading::slot_at))]
fn slot_at(
    alloc: Global,
    kind: ObjectKind,
    priority: u8,
    text: &[u8],
) -> Result<(Option<PropertyValue>, &[u8]), FaultKind>
    ensures found { IfOk result (λ x. text.now ≡ slot_text priority x.0 ++ x.1.now) }
    ensures is { IfOk result (λ x. AreOfKind kind (x.0 ∷ [])) }
    ensures sixth { IfOk result (λ x. priority ≡ 6 → x.0 ≡ None) }
    ensures exact { Reads (λ x. (x.0, x.1.now)) result (slot_at kind priority text.now) }
{
    let Some((named, words)) = priority_at(text) else {
        return Ok((None, text));
    };
    if named == RESERVED {
        return Err(FaultKind::Range);
    }
    if named != priority {
        return Ok((None, text));
    }
    let (value, rest) = value_to(alloc, kind, b'\n', words)?;
    Ok((Some(value), rest))
}

/// The sixteen slots of an object of this type at the front of a text, and what comes after their lines.
fn slots_at(
    alloc: Global,
    kind: ObjectKind,
    text: &[u8],
) -> Result<([Option<PropertyValue>; PRIORITIES], &[u8]), Stop>
    ensures found { IfOk result (λ x. text.now ≡ slots_text 1 x.0 ++ x.1.now) }
    ensures is { IfOk result (λ x. AreOfKind kind x.0) }
    ensures sixteen { IfOk result (λ x. length x.0 ≡ 16) }
    ensures sixth { IfOk result (λ x. get_or x.0 5 None ≡ None) }
    ensures stop { IfErr result (λ stop. StopsInSlots text.now stop.left) }
    ensures exact { ReadsLines (λ x. (x.0, x.1.now)) result (slots_after kind 16 [] text.now) }
{
    let mut slots = array::from_fn(|_| None);
    let mut rest = text;
    for place in 0..PRIORITIES {
        let (slot, remaining) = match slot_at(alloc, kind, place as u8 + 1, rest) {
            Ok(read) => read,
            Err(fault) => return Err(Stop::at(rest, fault)),
        };
        slots[place] = slot;
        rest = remaining;
    }
    match priority_at(rest) {
        None => Ok((slots, rest)),
        Some((priority, _)) => Err(Stop::at(rest, slot_fault(&slots, priority))),
    }
}

/// What is wrong with a slot of this priority after the last one: there is no such priority, or it came
/// before, or it is out of order.
#[tactic(auto, unfolding(crate::specs::Reading::slot_fault))]
fn slot_fault(slots: &[Option<PropertyValue>; PRIORITIES], priority: u8) -> FaultKind
    ensures { result ≡ slot_fault slots.now priority }
{
    if priority == 0 || LOWEST < priority {
        return FaultKind::Range;
    }
    match slots[usize::from(priority - 1)] {
        Some(_) => FaultKind::Twice,
        None => FaultKind::Line,
    }
}

/// What the line of an object says.
struct Head {
    object: ObjectId,
    kind: ObjectKind,
    configured: PropertyValue,
    default: PropertyValue,
}

// By hand: a derived one is proved part by part wherever one is dropped (docs/GATE.md).
impl Drop for Head {
    fn drop(self) {
        let Head {
            object: _,
            kind: _,
            configured: _,
            default: _,
        } = self;
    }
}

/// The identifier of an object, and what comes after it in its line. `Range` if there is no such object.
#[tactic(auto, unfolding(crate::specs::Reading::identifier_at))]
fn identifier_at(text: &[u8]) -> Result<(ObjectId, &[u8]), FaultKind>
    ensures found { IfOk result (λ x. text.now ≡ identifier_text (object_view x.0) ++ x.1.now) }
    ensures is { IfOk result (λ x. IsObject (object_view x.0)) }
    ensures exact { Reads (λ x. (object_view x.0, x.1.now)) result (identifier_at text.now) }
{
    let Some(words) = after_word(b"object ", text) else {
        return Err(FaultKind::Line);
    };
    let Some((kind, words)) = short_to(b' ', words) else {
        return Err(FaultKind::Line);
    };
    let Some((instance, words)) = long_to(b' ', words) else {
        return Err(FaultKind::Line);
    };
    match ObjectId::new(kind, instance) {
        Some(object) => Ok((object, words)),
        None => Err(FaultKind::Range),
    }
}

/// The line of an object at the front of a text, and what comes after it.
#[tactic(auto, unfolding(crate::specs::Reading::object_at))]
fn head_at(alloc: Global, text: &[u8]) -> Result<(Head, &[u8]), FaultKind>
    ensures found { IfOk result (λ x. text.now ≡ head_text x.0 ++ x.1.now) }
    ensures is { IfOk result (λ x. IsHead x.0) }
    ensures exact { Reads (λ x. (line_view x.0, x.1.now)) result (object_at text.now) }
{
    let (object, words) = identifier_at(text)?;
    let Some(kind) = ObjectKind::from_number(u64::from(object.kind)) else {
        return Err(FaultKind::Range);
    };
    let (configured, words) = value_to(alloc, kind, b' ', words)?;
    let (default, rest) = value_to(alloc, kind, b'\n', words)?;
    let head = Head {
        object,
        kind,
        configured,
        default,
    };
    Ok((head, rest))
}

/// Whether an object has this identifier.
fn has_object(objects: &[SavedObject], wanted: ObjectId) -> bool
    ensures { result ≡ list_any (is_object (object_view wanted)) objects.now }
{
    objects.iter().any(|object| wanted == object.object())
}

impl Block for Objects {
    type Item = SavedObject;

    ghost line = { λ objects object. object_text object };

    ghost Fits = { λ objects before object. FitsObjects before object };

    ghost count = { λ objects. 256 };

    ghost opens = { λ objects. codes "object " };

    ghost reads = { λ objects before text. object_after before text };

    fn word(&self) -> &'static [u8] {
        b"object "
    }

    fn most(&self) -> usize {
        MAX_OBJECTS
    }

    #[tactic(auto, unfolding(crate::specs::Reading::object_after))]
    fn read<'a>(
        &self,
        alloc: Global,
        before: &[SavedObject],
        text: &'a [u8],
    ) -> Result<(SavedObject, &'a [u8]), Stop> {
        let (head, rest) = match head_at(alloc, text) {
            Ok(read) => read,
            Err(kind) => return Err(Stop::at(text, kind)),
        };
        if has_object(before, head.object) {
            return Err(Stop::at(text, FaultKind::Twice));
        }
        let (slots, rest) = match slots_at(alloc, head.kind, rest) {
            Ok(read) => read,
            Err(stop) => return Err(stop),
        };
        Ok((head.object_with(slots), rest))
    }
}

impl Head {
    /// The object of this line and of the slots after it.
    fn object_with(self, slots: [Option<PropertyValue>; PRIORITIES]) -> SavedObject
        ensures object { result.object ≡ object_view self.object }
        ensures configured { result.configured ≡ self.configured }
        ensures slots { result.slots ≡ record { slots = slots; default = self.default } }
    {
        let Head {
            object,
            kind: _,
            configured,
            default,
        } = self;
        SavedObject::new(
            object,
            configured,
            PriorityArray::from_slots(slots, default),
        )
    }
}
