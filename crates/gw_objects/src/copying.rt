//! Copies of what is configured.
ghost use Rattle.std.specs.Prelude.{◌≡◌, ◌≤◌, length, map, IfOk};
ghost use Rattle.gw_objects.specs.Objects.{configured_of, database_of, default_of, details_of};
ghost use Rattle.gw_tables.specs.priority.Commandable.{no_command};

use crate::{Configured, ConfiguredObject, Details, PropertyValue, States, ValueObjects};
use gw_addr::Sequence;
use gw_configuration::{Config, Device, Object, ObjectValue, Text};
use gw_tables::priority::PriorityArray;
use std::alloc::{AllocError, Global};

/// A text. The only fault is want of memory.
pub(crate) fn text(alloc: Global, text: &Text) -> Result<Text, AllocError>
    ensures { IfOk result (λ copy. copy ≡ text.now) }
{
    match Text::new(alloc, 0, text.as_str()) {
        Ok(copy) => Ok(copy),
        Err(_) => Err(AllocError),
    }
}

/// Texts, in their order.
fn texts(alloc: Global, texts: &[Text]) -> Result<Sequence<Text>, AllocError>
    ensures { IfOk result (λ copies. copies ≡ texts.now) }
{
    let mut copies = Sequence::new(alloc);
    for one in texts {
        copies.push(text(alloc, one)?)?;
    }
    Ok(copies)
}

/// A copy of what the Device object says. `AllocError` where memory was refused.
fn device(alloc: Global, device: &Device) -> Result<Device, AllocError>
    ensures { IfOk result (λ copy. copy ≡ device.now) }
{
    Ok(Device {
        network: device.network,
        instance: device.instance,
        name: text(alloc, &device.name)?,
        vendor: device.vendor,
        vendor_name: text(alloc, &device.vendor_name)?,
        model: text(alloc, &device.model)?,
        firmware: text(alloc, &device.firmware)?,
        software: text(alloc, &device.software)?,
        revision: device.revision,
        database: device.database,
        description: text(alloc, &device.description)?,
    })
}

/// What stays of a value object.
fn details(alloc: Global, value: &ObjectValue) -> Result<Details, AllocError>
    ensures { IfOk result (λ details. details ≡ details_of value.now) }
{
    match value {
        ObjectValue::BinaryValue {
            active,
            inactive,
            ..
        } => Ok(Details::BinaryValue {
            active: text(alloc, active)?,
            inactive: text(alloc, inactive)?,
        }),
        ObjectValue::MultiStateValue(value) => Ok(Details::MultiStateValue(States::new(texts(
            alloc,
            value.states(),
        )?))),
        ObjectValue::CharacterStringValue { .. } => Ok(Details::CharacterStringValue),
        ObjectValue::IntegerValue { units, .. } => Ok(Details::IntegerValue { units: *units }),
        ObjectValue::PositiveIntegerValue { units, .. } => {
            Ok(Details::PositiveIntegerValue { units: *units })
        }
    }
}

fn object(alloc: Global, object: &Object) -> Result<ConfiguredObject, AllocError>
    ensures { IfOk result (λ copy. copy ≡ configured_of object.now) }
{
    Ok(ConfiguredObject {
        instance: object.instance,
        name: text(alloc, &object.name)?,
        description: text(alloc, &object.description)?,
        details: details(alloc, &object.value)?,
    })
}

/// What stays of the value objects, in their order. `AllocError` where memory was refused.
fn objects(alloc: Global, objects: &[Object]) -> Result<Sequence<ConfiguredObject>, AllocError>
    ensures { IfOk result (λ copies. copies ≡ map configured_of objects.now) }
{
    let mut copies = Sequence::new(alloc);
    for one in objects {
        copies.push(object(alloc, one)?)?;
    }
    Ok(copies)
}

/// Empty slots with the default, for each value object in their order. `AllocError` where memory
/// was refused.
pub(crate) fn states(
    alloc: Global,
    objects: &[Object],
) -> Result<Vec<PriorityArray<PropertyValue>>, AllocError>
    ensures { IfOk result (λ states.
        states.items ≡ map (λ object. no_command (default_of object.value)) objects.now) }
{
    let mut states = Vec::new(alloc);
    for one in objects {
        states.push(PriorityArray::new(PropertyValue::default_of(alloc, &one.value)?))?;
    }
    Ok(states)
}

/// The device and what stays of the value objects. `AllocError` where memory was refused.
pub(crate) fn configured(alloc: Global, config: &Config) -> Result<Configured, AllocError>
    ensures { IfOk result (λ copy. copy ≡ (database_of config.now).configured) }
{
    Ok(Configured {
        device: device(alloc, config.device())?,
        objects: ValueObjects::new(alloc, objects(alloc, config.objects())?)?,
    })
}
