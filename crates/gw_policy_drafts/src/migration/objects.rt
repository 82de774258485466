//! The device and the objects of a configuration, as they are written.

use crate::migration::lines::{put_key, put_number, put_quoted, put_signed, put_text};
use gw_configuration::{Device, Object, ObjectValue, Text};
use std::alloc::AllocError;

/// Appends the table of the device.
pub(crate) fn put_device(out: &mut Vec<u8>, device: &Device) -> Result<(), AllocError> {
    out.extend_from_slice(b"\n[device]\n")?;
    put_number(out, "network", u64::from(device.network.get()))?;
    put_number(out, "instance", u64::from(device.instance.get()))?;
    put_text(out, "name", device.name.as_str())?;
    put_number(out, "vendor", u64::from(device.vendor))?;
    put_device_texts(out, device)?;
    put_number(out, "revision", u64::from(device.revision))?;
    put_number(out, "database", u64::from(device.database))
}

/// Appends what the device says of itself.
fn put_device_texts(out: &mut Vec<u8>, device: &Device) -> Result<(), AllocError> {
    put_text(out, "vendor_name", device.vendor_name.as_str())?;
    put_text(out, "model", device.model.as_str())?;
    put_text(out, "firmware", device.firmware.as_str())?;
    put_text(out, "software", device.software.as_str())?;
    put_description(out, &device.description)
}

/// Appends a description, if there is one.
fn put_description(out: &mut Vec<u8>, description: &Text) -> Result<(), AllocError> {
    if description.as_str().is_empty() {
        return Ok(());
    }
    put_text(out, "description", description.as_str())
}

/// Appends the tables of the objects.
pub(crate) fn put_objects(out: &mut Vec<u8>, objects: &[Object]) -> Result<(), AllocError> {
    for object in objects {
        put_object(out, object)?;
    }
    Ok(())
}

fn put_object(out: &mut Vec<u8>, object: &Object) -> Result<(), AllocError> {
    out.extend_from_slice(b"\n[[object]]\n")?;
    put_number(out, "type", object.value.type_number())?;
    put_number(out, "instance", u64::from(object.instance.get()))?;
    put_text(out, "name", object.name.as_str())?;
    put_description(out, &object.description)?;
    put_value(out, &object.value)
}

/// Appends what is configured of a type alone.
fn put_value(out: &mut Vec<u8>, value: &ObjectValue) -> Result<(), AllocError> {
    match value {
        ObjectValue::BinaryValue {
            default,
            active,
            inactive,
        } => {
            put_number(out, "default", u64::from(*default))?;
            put_text(out, "active", active.as_str())?;
            put_text(out, "inactive", inactive.as_str())
        }
        ObjectValue::MultiStateValue(value) => {
            put_number(out, "default", u64::from(value.default()))?;
            put_states(out, value.states())
        }
        ObjectValue::CharacterStringValue { default } => put_text(out, "default", default.as_str()),
        ObjectValue::IntegerValue { default, units } => {
            put_signed(out, "default", *default)?;
            put_number(out, "units", u64::from(*units))
        }
        ObjectValue::PositiveIntegerValue { default, units } => {
            put_number(out, "default", u64::from(*default))?;
            put_number(out, "units", u64::from(*units))
        }
    }
}

/// Appends the texts of the states of an object.
fn put_states(out: &mut Vec<u8>, states: &[Text]) -> Result<(), AllocError> {
    put_key(out, "states")?;
    out.extend_from_slice(b"[")?;
    for (place, state) in states.iter().enumerate() {
        if 0 < place {
            out.extend_from_slice(b", ")?;
        }
        put_quoted(out, state.as_str())?;
    }
    out.extend_from_slice(b"]\n")
}
