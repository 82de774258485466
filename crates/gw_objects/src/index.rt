//! The places of the value objects, by their identifiers and by their names.
ghost use Rattle.std.specs.Prelude.{◌≡◌, [], take, IfOk, OnOk};
ghost use Rattle.gw_objects.specs.internal.Index.{FindsIds, FindsNames, with_place};

use crate::ConfiguredObject;
use gw_codecs::tags::ObjectId;
use indexmap::IndexMap;
use std::alloc::{AllocError, Global};
use std::hash::Hash;

/// The place of the first object of each identifier. The only fault is want of memory.
pub(crate) fn places_by_id(
    alloc: Global,
    objects: &[ConfiguredObject],
) -> Result<IndexMap<ObjectId, usize>, AllocError>
    ensures { IfOk result (λ places. FindsIds places.entries objects.now) }
{
    let mut places = IndexMap::new(alloc);
    for place in 0..objects.len() {
        note(&mut places, objects[place].id(), place)?;
    }
    Ok(places)
}

/// The place of the first object of each name, by its octets. The only fault is want of memory.
pub(crate) fn places_by_name(
    alloc: Global,
    objects: &[ConfiguredObject],
) -> Result<IndexMap<Vec<u8>, usize>, AllocError>
    ensures { IfOk result (λ places. FindsNames places.entries objects.now) }
{
    let mut places = IndexMap::new(alloc);
    for place in 0..objects.len() {
        note(&mut places, name(alloc, &objects[place])?, place)?;
    }
    Ok(places)
}

/// The octets of an object's name.
fn name(alloc: Global, object: &ConfiguredObject) -> Result<Vec<u8>, AllocError>
    ensures { IfOk result (λ name. name.items ≡ object.now.name) }
{
    Vec::from_slice(alloc, object.name.as_str().as_bytes())
}

/// Notes the place of a key that has none yet.
fn note<K: Eq + Hash + Drop>(
    places: &mut IndexMap<K, usize>,
    key: K,
    place: usize,
) -> Result<(), AllocError>
    ensures { OnOk result (places.new.entries ≡ with_place K.eq places.old.entries key place) }
{
    if !places.contains_key(&key) {
        places.insert(key, place)?;
    }
    Ok(())
}
