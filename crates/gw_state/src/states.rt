//! Which slots and defaults the value objects take over.
ghost use Rattle.std.specs.Prelude.{◌≡◌, length, find, map, option_copied, IfOk};
ghost use Rattle.gw_objects.specs.Objects.{details_of};
ghost use Rattle.gw_tables.specs.declared.priority.array.TheConstants.{PRIORITIES};
ghost use Rattle.gw_state.specs.Carried.{default_from, is_object, slot_from, slots_from, states_carried};

use crate::identity::id_of;
use crate::{Saved, SavedObject};
use gw_configuration::{Object, ObjectValue};
use gw_objects::PropertyValue;
use gw_tables::priority::{PRIORITIES, PriorityArray};
use std::alloc::{AllocError, Global};
use std::array;

impl Saved {
    /// The slots and the defaults that the objects of a configuration take over, in order of these objects:
    /// each value of an object that was saved if it is in range, and its default if moreover the default is
    /// still configured as it was. The only fault is want of memory.
    pub fn carry_states(
        &self,
        alloc: Global,
        objects: &[Object],
    ) -> Result<Vec<PriorityArray<PropertyValue>>, AllocError>
        ensures states { IfOk result (λ states.
            states.items ≡ states_carried objects.now self.now.objects) }
        ensures each { IfOk result (λ states. length states.items ≡ length objects.now) }
    {
        states_of(alloc, objects, self.objects())
    }
}

/// The slots and the defaults of objects, of which these were saved.
fn states_of(
    alloc: Global,
    objects: &[Object],
    saved: &[SavedObject],
) -> Result<Vec<PriorityArray<PropertyValue>>, AllocError>
    ensures { IfOk result (λ states. states.items ≡ states_carried objects.now saved.now) }
{
    let mut states = Vec::new(alloc);
    for object in objects {
        states.push(slots_for(alloc, object, object_saved(saved, object))?)?;
    }
    Ok(states)
}

/// Whether an object is the one that was saved.
pub fn is_object(object: &Object, saved: &SavedObject) -> bool
    ensures { result ≡ is_object object.now saved.now }
{
    id_of(object) == saved.object()
}

/// The object as it was saved.
pub fn object_saved<'a>(saved: &'a [SavedObject], object: &Object) -> Option<&'a SavedObject>
    ensures { option_copied result ≡ find (is_object object.now) saved.now }
{
    saved.iter().find(|saved| is_object(object, saved))
}

/// The slots and the default of an object, which was saved or not.
fn slots_for(
    alloc: Global,
    object: &Object,
    saved: Option<&SavedObject>,
) -> Result<PriorityArray<PropertyValue>, AllocError>
    ensures { IfOk result (λ slots. slots ≡ slots_from object.now (option_copied saved.entry)) }
{
    match saved {
        Some(saved) => Ok(PriorityArray::from_slots(
            contents_for(alloc, &object.value, saved.slots().slots())?,
            default_for(alloc, object, saved)?,
        )),
        None => Ok(PriorityArray::new(PropertyValue::default_of(alloc, &object.value)?)),
    }
}

/// What sixteen slots still hold.
fn contents_for(
    alloc: Global,
    object: &ObjectValue,
    slots: &[Option<PropertyValue>],
) -> Result<[Option<PropertyValue>; PRIORITIES], AllocError>
    requires { length slots.now ≡ PRIORITIES }
    ensures { IfOk result (λ contents. contents ≡ map (slot_from (details_of object.now)) slots.now) }
{
    let mut contents = array::from_fn(|_| None);
    for (place, slot) in slots.iter().enumerate() {
        contents[place] = content_for(alloc, object, slot)?;
    }
    Ok(contents)
}

/// What a slot still holds.
fn content_for(
    alloc: Global,
    object: &ObjectValue,
    slot: &Option<PropertyValue>,
) -> Result<Option<PropertyValue>, AllocError>
    ensures { IfOk result (λ content. content ≡ slot_from (details_of object.now) slot.now) }
{
    let Some(value) = slot else {
        return Ok(None);
    };
    if !value.fits(object) {
        return Ok(None);
    }
    Ok(Some(value.copy(alloc)?))
}

/// The default of an object that was saved.
fn default_for(
    alloc: Global,
    object: &Object,
    saved: &SavedObject,
) -> Result<PropertyValue, AllocError>
    ensures { IfOk result (λ default. default ≡ default_from object.now saved.now) }
{
    let configured = PropertyValue::default_of(alloc, &object.value)?;
    let default = saved.slots().default();
    if saved.configured().is_same(&configured) && default.fits(&object.value) {
        default.copy(alloc)
    } else {
        Ok(configured)
    }
}
