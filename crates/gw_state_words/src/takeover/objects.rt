//! What is found of configured objects.
ghost use Rattle.std.specs.Prelude.{◌≡◌, ◌++◌, ◌∷◌, [], option_copied, OnOk};
ghost use Rattle.std.specs.List.{flat_map};
ghost use Rattle.gw_objects.specs.Objects.{details_of};
ghost use Rattle.gw_state.specs.Saved.{id_of};
ghost use Rattle.gw_state_words.specs.takeover.Findings.{default_fate_by, default_finding, object_finding, object_findings, object_name};
ghost use Rattle.gw_state_words.specs.takeover.Findings.{slot_finding, slot_findings, value_fate, value_finding};

use crate::takeover::lost::is_written;
use crate::takeover::{HeldPlace, ObjectName, TakeoverFinding, ValueFate, ValueFinding};
use gw_configuration::{Object, ObjectValue};
use gw_objects::PropertyValue;
use gw_state::{SavedObject, id_of, object_saved};
use std::alloc::AllocError;

/// Adds what is found of the configured objects, in order.
pub(crate) fn add_objects(
    found: &mut Vec<TakeoverFinding>,
    objects: &[Object],
    saved: &[SavedObject],
) -> Result<(), AllocError>
    ensures { OnOk result (found.new.items ≡
        found.old.items ++ flat_map (object_findings saved.now) objects.now) }
{
    for object in objects {
        add_object(found, object, object_saved(saved, object))?;
    }
    Ok(())
}

/// Adds what is found of a configured object, which was saved or not.
fn add_object(
    found: &mut Vec<TakeoverFinding>,
    object: &Object,
    saved: Option<&SavedObject>,
) -> Result<(), AllocError>
    ensures { OnOk result (found.new.items ≡
        found.old.items ++ object_finding object.now (option_copied saved.entry)) }
{
    let Some(saved) = saved else {
        found.push(TakeoverFinding::NewObject(name_of(object)))?;
        return Ok(());
    };
    add_slots(found, name_of(object), &object.value, saved.slots().slots())?;
    add_default(found, object, saved)
}

fn name_of(object: &Object) -> ObjectName
    ensures { result ≡ object_name (id_of object.now) }
{
    ObjectName::new(id_of(object))
}

/// Adds what is found of the slots that aren't empty.
fn add_slots(
    found: &mut Vec<TakeoverFinding>,
    name: ObjectName,
    object: &ObjectValue,
    slots: &[Option<PropertyValue>],
) -> Result<(), AllocError>
    ensures { OnOk result (found.new.items ≡
        found.old.items ++ slot_findings name (details_of object.now) 1 slots.now) }
{
    for (place, slot) in slots.iter().enumerate() {
        add_slot(found, name, object, place + 1, slot)?;
    }
    Ok(())
}

/// Adds what is found of the slot of this priority if it isn't empty.
fn add_slot(
    found: &mut Vec<TakeoverFinding>,
    name: ObjectName,
    object: &ObjectValue,
    priority: usize,
    slot: &Option<PropertyValue>,
) -> Result<(), AllocError>
    ensures { OnOk result (found.new.items ≡
        found.old.items ++ slot_finding name (details_of object.now) priority slot.now) }
{
    match slot {
        Some(value) => add_value(
            found,
            name,
            HeldPlace::Slot(priority),
            value,
            value_fate(object, value),
        ),
        None => Ok(()),
    }
}

/// Adds what is found of a value.
fn add_value(
    found: &mut Vec<TakeoverFinding>,
    object: ObjectName,
    held: HeldPlace,
    value: &PropertyValue,
    fate: ValueFate,
) -> Result<(), AllocError>
    ensures { OnOk result (found.new.items ≡
        found.old.items ++ value_finding object held value.now fate ∷ []) }
{
    let value = value.copy(*found.allocator())?;
    found.push(TakeoverFinding::Value(ValueFinding {
        object,
        held,
        value,
        fate,
    }))?;
    Ok(())
}

fn value_fate(object: &ObjectValue, value: &PropertyValue) -> ValueFate
    ensures { result ≡ value_fate (details_of object.now) value.now }
{
    if value.fits(object) {
        ValueFate::TakenOver
    } else {
        ValueFate::OutOfRange
    }
}

/// Adds what is found of the default if it was written.
fn add_default(
    found: &mut Vec<TakeoverFinding>,
    object: &Object,
    saved: &SavedObject,
) -> Result<(), AllocError>
    ensures { OnOk result (found.new.items ≡ found.old.items ++ default_finding object.now saved.now) }
{
    if !is_written(saved) {
        return Ok(());
    }
    let configured = PropertyValue::default_of(*found.allocator(), &object.value)?;
    let fate = default_fate(&configured, &object.value, saved);
    add_value(
        found,
        name_of(object),
        HeldPlace::Default,
        saved.slots().default(),
        fate,
    )
}

/// Whether the default of an object is taken over, or why not, if this is configured now.
fn default_fate(configured: &PropertyValue, object: &ObjectValue, saved: &SavedObject) -> ValueFate
    ensures { result ≡ default_fate_by configured.now (details_of object.now) saved.now }
{
    let default = saved.slots().default();
    if default.is_same(configured) {
        return ValueFate::TakenOver;
    }
    if !saved.configured().is_same(configured) {
        return ValueFate::OtherDefault;
    }
    value_fate(object, default)
}
