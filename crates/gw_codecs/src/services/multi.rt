//! ReadPropertyMultiple (clause 15.7).

ghost use Rattle.std.specs.Prelude.{◌≡◌, ◌≢◌, ◌≤◌, ◌/◌, ◌⊎◌, List, [], length, map, min, None, vec_capacity, vec_len, IfOk, MatchResult, OnOk, Ok, Err};
ghost use Rattle.std.specs.Option.{option_map};
ghost use Rattle.gw_addr.specs.Appending.{IsAppended, IsAppendedWhole};
ghost use Rattle.gw_addr.specs.Reading.{Gives};
ghost use Rattle.gw_codecs.specs.tags.Object.{object_view};
ghost use Rattle.gw_codecs.specs.services.Multi.{Reference as ReferenceFields, reference_view, AreNamed, IsMulti, HasMultiFault, HasReference, is_consistent, is_set_name, most_references, head_part, tail_part, name_part, list_ends, reference_part, multi_encoding};
ghost use Rattle.gw_codecs.specs.services.MultiView.{multi_view};
ghost use Rattle.gw_codecs.specs.services.MultiReading.{opened_at, named_at, reference_at, next_at, references_at, step_at, multi_at, behind_these};
ghost use Rattle.gw_codecs.specs.services.internal.Next.{next_view};

use crate::services::fault::BodyFault;
use crate::services::multi_req::MultiReq;
use crate::services::next::Next;
use crate::services::parameter::{number, number_maybe, object};
use crate::services::read::put_number;
use crate::services::reference::Reference;
use crate::services::request::LAST_PROPERTY;
use crate::services::walk::read_reference;
use crate::tags::{
    ObjectId, read_closing, read_opening, write_closing, write_context, write_context_unsigned,
    write_opening,
};
use gw_addr::keep_whole;
use std::alloc::{AllocError, Global};

/// How many properties a body may name: our own limit.
pub const MAX_REFERENCES: u8 = 128;
/// The names for sets of properties (clause 15.7.3.1).
const ALL: u32 = 8;

const REQUIRED: u32 = 105;

const OPTIONAL: u32 = 80;

/// The opening tag of a list, which has to be there.
fn opened(octets: &[u8]) -> Result<&[u8], BodyFault>
    ensures { Gives (λ x. x.now) result (opened_at octets.now) }
{
    if octets.is_empty() {
        return Err(BodyFault::Missing);
    }
    match read_opening(1, octets) {
        Ok(inner) => Ok(inner),
        Err(_) => Err(BodyFault::InvalidTag),
    }
}

/// A property, and its index where it is given.
fn named(begins: bool, object: ObjectId, octets: &[u8]) -> Result<(Reference, &[u8]), BodyFault>
    ensures { Gives (λ x. (reference_view x.0, x.1.now)) result
        (named_at begins (object_view object) octets.now) }
{
    let (property, rest) = number(0, 0, LAST_PROPERTY, octets)?;
    let (index, rest) = number_maybe(1, 0, u32::MAX, rest)?;
    let reference = Reference {
        begins,
        object,
        property,
        index,
    };
    Ok((reference, rest))
}

/// The first property of an object's list.
fn first(octets: &[u8]) -> Result<(Reference, &[u8]), BodyFault>
    ensures { Gives (λ x. (reference_view x.0, x.1.now)) result (reference_at None octets.now) }
{
    let (object, rest) = object(0, octets)?;
    let inner = opened(rest)?;
    match read_closing(1, inner) {
        Ok(_) => Err(BodyFault::Missing),
        Err(_) => named(true, object, inner),
    }
}

/// A reference: of the object whose list is open, or where none is, the first of a new list.
/// `InvalidTag`, `Missing` or `OutOfRange`, as of any parameter.
pub(crate) fn reference(
    current: Option<ObjectId>,
    octets: &[u8],
) -> Result<(Reference, &[u8]), BodyFault>
    ensures { Gives (λ x. (reference_view x.0, x.1.now)) result
        (reference_at (option_map object_view current) octets.now) }
{
    match current {
        None => first(octets),
        Some(object) => named(false, object, octets),
    }
}

/// Whether the property is a name for a set.
pub(crate) fn is_set(property: u32) -> bool
    ensures { result ≡ is_set_name property }
{
    property == ALL || property == REQUIRED || property == OPTIONAL
}

/// Whether the reference names no element of a set.
pub(crate) fn is_consistent(reference: &Reference) -> bool
    ensures { result ≡ is_consistent (reference_view reference.now) }
{
    !(is_set(reference.property) && reference.index.is_some())
}

/// What follows a reference.
pub(crate) fn next<'a>(object: ObjectId, octets: &'a [u8]) -> Next<'a>
    ensures { next_view result ≡ next_at (object_view object) octets.now }
{
    match read_closing(1, octets) {
        Err(_) => Next::More(Some(object), octets),
        Ok(rest) if rest.is_empty() => Next::Finished,
        Ok(rest) => Next::More(None, rest),
    }
}

/// Appends the references, at most so many. After a fault a front of them may remain.
fn references(
    left: u8,
    current: Option<ObjectId>,
    octets: &[u8],
    out: &mut Vec<Reference>,
) -> Result<(), BodyFault>
    ensures ok { OnOk result
        (behind_these (map reference_view out.old.items)
        (references_at left (option_map object_view current) octets.now)
        ≡ Ok (map reference_view out.new.items)) }
    ensures err { (fault : BodyFault) → result ≡ Err fault → fault ≢ BodyFault.Memory
        → references_at left (option_map object_view current) octets.now ≡ Err fault }
    ensures nothing { octets.now ≡ [] → result ≡ Err BodyFault.Missing }
{
    let (reference, behind) = reference(current, octets)?;
    if left == 0 {
        return Err(BodyFault::TooMany);
    }
    if !is_consistent(&reference) {
        return Err(BodyFault::Inconsistent);
    }
    let Ok(()) = out.push(reference) else {
        return Err(BodyFault::Memory);
    };
    match next(reference.object, behind) {
        Next::Finished => Ok(()),
        Next::More(current, rest) => references(left - 1, current, rest, out),
    }
}

/// No reference, with memory for as many as these octets can have.
fn no_references(alloc: Global, octets: &[u8]) -> Result<Vec<Reference>, AllocError>
    ensures empty { IfOk result (λ list. list.items ≡ []) }
    ensures room { IfOk result (λ list. vec_capacity list ≡ min (length octets.now / 2) most_references) }
{
    Vec::with_capacity(alloc, most_of(octets.len()))
}

/// The references of a body. A first one that is refused takes no memory.
fn list_of(alloc: Global, octets: &[u8]) -> Result<Vec<Reference>, BodyFault>
    ensures nothing { octets.now ≡ [] → result ≡ Err BodyFault.Missing }
    ensures refused { (fault : BodyFault) →
        step_at most_references None octets.now ≡ Err fault → result ≡ Err fault }
    ensures ok { IfOk result
        (λ list. multi_at octets.now ≡ Ok (map reference_view list.items)) }
    ensures err { (fault : BodyFault) → result ≡ Err fault → fault ≢ BodyFault.Memory
        → multi_at octets.now ≡ Err fault }
{
    let (first, next) = read_reference(MAX_REFERENCES, None, octets)?;
    let Ok(mut list) = no_references(alloc, octets) else {
        return Err(BodyFault::Memory);
    };
    let Ok(()) = list.push(first) else {
        return Err(BodyFault::Memory);
    };
    if let Next::More(current, rest) = next {
        references(MAX_REFERENCES - 1, current, rest, &mut list)?;
    }
    Ok(list)
}

/// What `decode_multi` gives, said by the reading functions alone.
fn read(alloc: Global, octets: &[u8]) -> Result<MultiReq, BodyFault>
    ensures nothing { octets.now ≡ [] → result ≡ Err BodyFault.Missing }
    ensures refused { (fault : BodyFault) →
        step_at most_references None octets.now ≡ Err fault → result ≡ Err fault }
    ensures ok { IfOk result (λ m. multi_at octets.now ≡ Ok (multi_view m)) }
    ensures err { (fault : BodyFault) → result ≡ Err fault → fault ≢ BodyFault.Memory
        → multi_at octets.now ≡ Err fault }
{
    match list_of(alloc, octets) {
        Ok(references) => Ok(MultiReq { references }),
        Err(fault) => Err(fault),
    }
}

/// The most references that so many octets can have.
fn most_of(len: usize) -> usize
    ensures { result ≡ min (len / 2) most_references }
{
    (len / 2).min(MAX_REFERENCES as usize)
}

/// Reads the body of a ReadPropertyMultiple request, all of it. The list of references takes memory
/// once, as much as the octets can need.
///
/// # Errors
///
/// 1 `InvalidTag`, 2 `Missing`, 3 `OutOfRange`, 4 `TooMany` and 5 `Inconsistent`, as [`BodyFault`]
/// says: the first in the order of the octets. A reference is read whole, and then counted, and then
/// judged. 6 `Memory` if no memory was granted, only after a first reference that is right.
pub fn decode_multi(alloc: Global, octets: &[u8]) -> Result<MultiReq, BodyFault>
    // What is read is what the octets are.
    ensures found { IfOk result (λ m. IsMulti octets.now (multi_view m)) }
    // What the octets are is read, or memory was refused.
    ensures only { (rs : List ReferenceFields) → IsMulti octets.now rs
        → MatchResult result (λ m. multi_view m ≡ rs) (λ fault. fault ≡ BodyFault.Memory) }
    // What is wrong with octets that are no such body.
    ensures fault { (fault : BodyFault) → result ≡ Err fault → fault ≢ BodyFault.Memory
        → HasMultiFault fault octets.now }
    // What is wrong is reported, or memory was refused.
    ensures told { (fault : BodyFault) → HasMultiFault fault octets.now
        → (result ≡ Err fault) ⊎ (result ≡ Err BodyFault.Memory) }
    // Of nothing no list is made, so no memory is wanted; nor where the first reference is wrong.
    ensures nothing { octets.now ≡ [] → result ≡ Err BodyFault.Missing }
    ensures memory { result ≡ Err BodyFault.Memory → HasReference octets.now }
    // The answer as a function of the octets, unless memory was refused.
    ensures exact { IfOk result (λ m. multi_at octets.now ≡ Ok (multi_view m)) }
    ensures exact_fault { (fault : BodyFault) → result ≡ Err fault → fault ≢ BodyFault.Memory
        → multi_at octets.now ≡ Err fault }
{
    read(alloc, octets)
}

/// The head of an object's list, where a list begins.
fn put_list_head(out: &mut Vec<u8>, begins: bool, object: ObjectId) -> Result<(), AllocError>
    ensures { IsAppended (head_part begins (object_view object)) out.old out.new result }
{
    if begins {
        write_context(out, 0, &object.to_octets())?;
        write_opening(out, 1)?;
    }
    Ok(())
}

/// The end of an object's list, where a list ends.
fn put_list_tail(out: &mut Vec<u8>, ends: bool) -> Result<(), AllocError>
    ensures { IsAppended (tail_part ends) out.old out.new result }
{
    if ends {
        write_closing(out, 1)?;
    }
    Ok(())
}

/// Appends the head of an object's list, in a request or its answer, where a list begins: [0] the object,
/// [1] opening (clause 15.7). The buffer keeps what it held, also after an error.
///
/// # Errors
///
/// 1 Memory, only where the buffer had no room.
pub fn write_list_head(out: &mut Vec<u8>, begins: bool, object: ObjectId) -> Result<(), AllocError>
    ensures { IsAppendedWhole (head_part begins (object_view object)) out.old out.new result }
{
    let len = out.len();
    let written = put_list_head(out, begins, object);
    keep_whole(out, len, written)
}

/// Appends the end of an object's list, where a list ends: [1] closing (clause 15.7). The buffer keeps
/// what it held, also after an error.
///
/// # Errors
///
/// 1 Memory, only where the buffer had no room.
pub fn write_list_tail(out: &mut Vec<u8>, ends: bool) -> Result<(), AllocError>
    ensures { IsAppendedWhole (tail_part ends) out.old out.new result }
{
    let len = out.len();
    let written = put_list_tail(out, ends);
    keep_whole(out, len, written)
}

/// A property, and its index where it is given.
fn put_name(out: &mut Vec<u8>, property: u32, index: Option<u32>) -> Result<(), AllocError>
    ensures { IsAppended (name_part property index) out.old out.new result }
{
    write_context_unsigned(out, 0, property)?;
    put_number(out, 1, index)
}

fn put_reference(out: &mut Vec<u8>, reference: &Reference, ends: bool) -> Result<(), AllocError>
    ensures { IsAppended (reference_part (reference_view reference.now) ends) out.old out.new result }
{
    put_list_head(out, reference.begins, reference.object)?;
    put_name(out, reference.property, reference.index)?;
    put_list_tail(out, ends)
}

/// Whether an object's list ends before these references: there are none, or the first begins another
/// (clause 15.7.3.1).
pub fn list_ends(references: &[Reference]) -> bool
    ensures { result ≡ list_ends (map reference_view references.now) }
{
    match references {
        [] => true,
        [first, ..] => first.begins,
    }
}

/// Appends the references. After an `Err` a front of them may remain.
fn put(out: &mut Vec<u8>, references: &[Reference]) -> Result<(), AllocError>
    ensures { IsAppended (multi_encoding (map reference_view references.now)) out.old out.new result }
{
    let Some((first, others)) = references.split_first() else {
        return Ok(());
    };
    put_reference(out, first, list_ends(others))?;
    put(out, others)
}

/// Appends the body of a ReadPropertyMultiple request, in the fewest octets. The buffer keeps what
/// it held, also after an error.
///
/// # Errors
///
/// 1 Memory, only where the buffer had no room.
pub fn encode_multi(request: &MultiReq, out: &mut Vec<u8>) -> Result<(), AllocError>
    ensures octets { IsAppendedWhole (multi_encoding (multi_view request.now)) out.old out.new result }
    // What is written is a body that names these properties.
    ensures body { ∥ AreNamed (multi_view request.now) ∥₁ }
{
    let len = out.len();
    let written = put(out, request.references.as_slice());
    keep_whole(out, len, written)
}
