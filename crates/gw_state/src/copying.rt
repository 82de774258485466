//! Copies of peers and of slots.
ghost use Rattle.std.specs.Prelude.{◌≡◌, [], length, vec_capacity, IfOk};
ghost use Rattle.gw_tables.specs.declared.priority.array.TheConstants.{PRIORITIES};

use gw_addr::{BdtEntry, Sequence};
use gw_configuration::Peers;
use gw_objects::PropertyValue;
use gw_tables::priority::{PRIORITIES, PriorityArray};
use std::alloc::{AllocError, Global};
use std::array;

/// The same peers. The only fault is want of memory.
pub(crate) fn peers(alloc: Global, peers: &Peers) -> Result<Peers, AllocError>
    ensures { IfOk result (λ copy. copy ≡ peers.now) }
{
    let entries = entries(alloc, peers.as_slice())?;
    Ok(Peers::new(entries).unwrap())
}

/// No entry, with memory for so many.
fn no_entries(alloc: Global, count: usize) -> Result<Vec<BdtEntry>, AllocError>
    ensures empty { IfOk result (λ entries. entries.items ≡ []) }
    ensures room { IfOk result (λ entries. vec_capacity entries ≡ count) }
{
    Vec::with_capacity(alloc, count)
}

/// The same entries.
fn entries(alloc: Global, entries: &[BdtEntry]) -> Result<Sequence<BdtEntry>, AllocError>
    ensures { IfOk result (λ copies. copies ≡ entries.now) }
{
    let mut copies = Sequence::from_vec(no_entries(alloc, entries.len())?);
    for entry in entries {
        copies.push(*entry)?;
    }
    Ok(copies)
}

/// The same slots and default. The only fault is want of memory.
pub(crate) fn slots(
    alloc: Global,
    slots: &PriorityArray<PropertyValue>,
) -> Result<PriorityArray<PropertyValue>, AllocError>
    ensures { IfOk result (λ copy. copy ≡ slots.now) }
{
    let copies = contents(alloc, slots.slots())?;
    let default = slots.default().copy(alloc)?;
    Ok(PriorityArray::from_slots(copies, default))
}

/// What sixteen slots hold.
fn contents(
    alloc: Global,
    slots: &[Option<PropertyValue>],
) -> Result<[Option<PropertyValue>; PRIORITIES], AllocError>
    requires { length slots.now ≡ PRIORITIES }
    ensures { IfOk result (λ copies. copies ≡ slots.now) }
{
    let mut copies = array::from_fn(|_| None);
    for (place, slot) in slots.iter().enumerate() {
        copies[place] = content(alloc, slot)?;
    }
    Ok(copies)
}

/// What a slot holds.
fn content(alloc: Global, slot: &Option<PropertyValue>) -> Result<Option<PropertyValue>, AllocError>
    ensures { IfOk result (λ copy. copy ≡ slot.now) }
{
    match slot {
        Some(value) => Ok(Some(value.copy(alloc)?)),
        None => Ok(None),
    }
}
