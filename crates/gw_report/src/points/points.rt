//! The lines of the device and of its objects.

ghost use Rattle.std.specs.Prelude.{◌≡◌, ◌++◌, ◌∷◌, [], codes, if◌then◌else◌, unwrap_or, IfOk, OnErr, OnOk};
ghost use Rattle.std.specs.List.{flat_map};
ghost use Rattle.gw_report.specs.points.Cells.{next_text, row_text};
ghost use Rattle.gw_report.specs.points.internal.View.{point_view};
ghost use Rattle.gw_codecs.specs.names.Names.{object_type_name};
ghost use Rattle.gw_report.specs.points.Points.{cells, column_row, default_cell, device_point, header_rows, identity_cells, key_of};
ghost use Rattle.gw_report.specs.points.Points.{limits_cells, object_point, point_row, points_text, setting_rows, settable_cell};
ghost use Rattle.gw_report.specs.points.Points.{units_cell, value_cells};

use crate::points::cells::{guarded, put_cell, put_end, put_next, put_row};
use gw_addr::{keep_whole, put_decimal, put_octet, put_slice};
use gw_codecs::names::object_type_name;
use gw_configuration::{Config, Device, Object, ObjectValue};
use itoa::{Buffer, Integer};
use std::alloc::{AllocError, Global};

/// The number of the type of a Device object (clause 21).
const DEVICE: u64 = 8;

/// Appends the list of the device and of its objects: five lines on the list, a line that names its sixteen columns, and
/// a line each. Cells are separated by semicolons; a line ends with a carriage return and a line feed. An `Err` only if
/// memory was refused; the buffer then holds what it held.
///
/// ```text
/// 1000-binary-value-1;1000;pump;5;1;the pump in the cellar;0;;;Y;N;;;;;
/// ```
pub fn put_points(alloc: Global, config: &Config, out: &mut Vec<u8>) -> Result<(), AllocError>
    ensures ok { OnOk result (out.new.items ≡ out.old.items ++ points_text config.now) }
    ensures err { OnErr result (out.new.items ≡ out.old.items) }
{
    let text = points_text(alloc, config)?;
    let len = out.len();
    let put = put_slice(out, &text);
    keep_whole(out, len, put)
}

fn points_text(alloc: Global, config: &Config) -> Result<Vec<u8>, AllocError>
    ensures { IfOk result (λ text. text.items ≡ points_text config.now) }
{
    let device = config.device();
    let mut text = Vec::new(alloc);
    put_header(alloc, &mut text, device)?;
    put_device(alloc, &mut text, device)?;
    put_objects(alloc, &mut text, device.instance.get(), config.objects())?;
    Ok(text)
}

/// Appends the lines before the objects.
fn put_header(alloc: Global, out: &mut Vec<u8>, device: &Device) -> Result<(), AllocError>
    ensures { OnOk result (out.new.items ≡ out.old.items ++ flat_map row_text (header_rows device.now)) }
{
    let project = guarded(alloc, device.name.as_str())?;
    put_row(out, b"PROJECT_NAME", &[project.as_slice()])?;
    put_settings(out)?;
    put_columns(out)?;
    Ok(())
}

/// Appends what is the same of every list.
fn put_settings(out: &mut Vec<u8>) -> Result<(), AllocError>
    ensures { OnOk result (out.new.items ≡ out.old.items ++ flat_map row_text setting_rows) }
{
    put_row(out, b"VERSION_OF_REFERENCEFILE", &[b"1"])?;
    put_row(out, b"TIMESTAMP_OF_LAST_CHANGE", &[b""])?;
    put_row(out, b"AUTHOR_OF_LAST_CHANGE", &[b"bacgw"])?;
    put_row(out, b"VERSION_OF_LAYOUT", &[b"2.3"])?;
    Ok(())
}

/// Appends the names of the columns.
#[tactic(auto, unfolding(crate::specs::points::Points::column_row))]
fn put_columns(out: &mut Vec<u8>) -> Result<(), AllocError>
    ensures { OnOk result (out.new.items ≡ out.old.items ++ row_text column_row) }
{
    put_row(
        out,
        b"# keyname",
        &[
            b"device obj.-instance",
            b"object-name",
            b"object-type",
            b"object-instance",
            b"description",
            b"present-value-default",
            b"min-present-value",
            b"max-present-value",
            b"settable",
            b"supports COV",
            b"hi-limit",
            b"low-limit",
            b"state-text-reference",
            b"unit-code",
            b"vendor-specific-address",
        ],
    )
}

/// What differs in a line from one object to another.
#[derive(Clone, Copy)]
struct PointLine<'a> {
    device: u32,
    kind: u64,
    instance: u32,
    name: &'a str,
    description: &'a str,
    default: &'a [u8],
    settable: bool,
    units: &'a [u8],
}

/// Appends the line of the device.
fn put_device(alloc: Global, out: &mut Vec<u8>, device: &Device) -> Result<(), AllocError>
    ensures { OnOk result (out.new.items ≡ out.old.items ++ row_text (point_row (device_point device.now))) }
{
    let instance = device.instance.get();
    let point = PointLine {
        device: instance,
        kind: DEVICE,
        instance,
        name: device.name.as_str(),
        description: device.description.as_str(),
        default: b"",
        settable: false,
        units: b"",
    };
    put_point(alloc, out, &point)
}

/// Appends the lines of these objects of the device of this instance.
fn put_objects(
    alloc: Global,
    out: &mut Vec<u8>,
    device: u32,
    objects: &[Object],
) -> Result<(), AllocError>
    ensures { OnOk result (out.new.items ≡ out.old.items
        ++ flat_map (λ object. row_text (point_row (object_point device object))) objects.now) }
{
    for object in objects {
        put_object(alloc, out, device, object)?;
    }
    Ok(())
}

fn put_object(
    alloc: Global,
    out: &mut Vec<u8>,
    device: u32,
    object: &Object,
) -> Result<(), AllocError>
    ensures { OnOk result (out.new.items ≡ out.old.items
        ++ row_text (point_row (object_point device object.now))) }
{
    let default = default_cell(alloc, &object.value)?;
    let units = units_cell(alloc, &object.value)?;
    let point = PointLine {
        device,
        kind: object.value.type_number(),
        instance: object.instance.get(),
        name: object.name.as_str(),
        description: object.description.as_str(),
        default: &default,
        settable: true,
        units: &units,
    };
    put_point(alloc, out, &point)
}

fn put_point(alloc: Global, out: &mut Vec<u8>, point: &PointLine<'_>) -> Result<(), AllocError>
    ensures { OnOk result (out.new.items ≡ out.old.items ++ row_text (point_row (point_view point.now))) }
{
    let key = key_of(alloc, point.device, point.kind, point.instance)?;
    let name = guarded(alloc, point.name)?;
    let description = guarded(alloc, point.description)?;
    put_cells(out, point, &key, &name, &description)
}

fn put_cells(
    out: &mut Vec<u8>,
    point: &PointLine<'_>,
    key: &[u8],
    name: &[u8],
    description: &[u8],
) -> Result<(), AllocError>
    ensures { OnOk result (out.new.items ≡ out.old.items
        ++ row_text (cells (point_view point.now) key.now name.now description.now)) }
{
    put_cell(out, key)?;
    put_identity(out, point, name, description)?;
    put_value(out, point)?;
    put_limits(out, point)?;
    put_end(out)?;
    Ok(())
}

/// Appends which object it is.
fn put_identity(
    out: &mut Vec<u8>,
    point: &PointLine<'_>,
    name: &[u8],
    description: &[u8],
) -> Result<(), AllocError>
    ensures { OnOk result (out.new.items ≡ out.old.items
        ++ flat_map next_text (identity_cells (point_view point.now) name.now description.now)) }
{
    put_next_number(out, point.device)?;
    put_next(out, name)?;
    put_next_number(out, point.kind)?;
    put_next_number(out, point.instance)?;
    put_next(out, description)?;
    Ok(())
}

/// Appends its default, no least and no greatest value, and whether it can be written and reports changes.
fn put_value(out: &mut Vec<u8>, point: &PointLine<'_>) -> Result<(), AllocError>
    ensures { OnOk result (out.new.items ≡ out.old.items
        ++ flat_map next_text (value_cells (point_view point.now))) }
{
    put_next(out, point.default)?;
    put_next(out, b"")?;
    put_next(out, b"")?;
    put_settable(out, point.settable)?;
    put_next(out, b"N")?;
    Ok(())
}

/// Appends no limits and no texts of states, the units, and no address of a vendor.
fn put_limits(out: &mut Vec<u8>, point: &PointLine<'_>) -> Result<(), AllocError>
    ensures { OnOk result (out.new.items ≡ out.old.items
        ++ flat_map next_text (limits_cells (point_view point.now))) }
{
    put_next(out, b"")?;
    put_next(out, b"")?;
    put_next(out, b"")?;
    put_next(out, point.units)?;
    put_next(out, b"")?;
    Ok(())
}

fn put_next_number<N: Integer>(out: &mut Vec<u8>, number: N) -> Result<(), AllocError>
    ensures { OnOk result (out.new.items ≡ out.old.items ++ next_text (N.text number)) }
{
    put_next(out, Buffer::new().format(number).as_bytes())
}

fn put_settable(out: &mut Vec<u8>, is_settable: bool) -> Result<(), AllocError>
    ensures { OnOk result (out.new.items ≡ out.old.items ++ next_text (settable_cell is_settable)) }
{
    put_next(out, settable(is_settable))
}

fn settable(settable: bool) -> &'static [u8]
    ensures { result.now ≡ settable_cell settable }
{
    if settable { b"Y" } else { b"N" }
}

/// The key of an object, which no other one has.
fn key_of(alloc: Global, device: u32, kind: u64, instance: u32) -> Result<Vec<u8>, AllocError>
    ensures { IfOk result (λ key. key.items ≡ key_of device kind instance) }
{
    let mut key = Vec::new(alloc);
    put_decimal(&mut key, device)?;
    put_octet(&mut key, b'-')?;
    put_slice(&mut key, kind_name(kind).as_bytes())?;
    put_octet(&mut key, b'-')?;
    put_decimal(&mut key, instance)?;
    Ok(key)
}

fn kind_name(kind: u64) -> &'static str
    ensures { result.now ≡ unwrap_or (object_type_name kind) [] }
{
    match object_type_name(kind) {
        Some(name) => name,
        None => "",
    }
}

/// The cell of Relinquish_Default.
fn default_cell(alloc: Global, value: &ObjectValue) -> Result<Vec<u8>, AllocError>
    ensures { IfOk result (λ cell. cell.items ≡ default_cell value.now) }
{
    match value {
        ObjectValue::BinaryValue { default, .. } => bit_cell(alloc, *default),
        ObjectValue::MultiStateValue(states) => number_cell(alloc, states.default()),
        ObjectValue::CharacterStringValue { default } => guarded(alloc, default.as_str()),
        ObjectValue::IntegerValue { default, .. } => number_cell(alloc, *default),
        ObjectValue::PositiveIntegerValue { default, .. } => number_cell(alloc, *default),
    }
}

fn bit_cell(alloc: Global, active: bool) -> Result<Vec<u8>, AllocError>
    ensures { IfOk result (λ cell. cell.items ≡ (if active then codes "1" else codes "0")) }
{
    Vec::from_slice(alloc, if active { b"1" } else { b"0" })
}

/// The cell of the units: empty if the type has none.
fn units_cell(alloc: Global, value: &ObjectValue) -> Result<Vec<u8>, AllocError>
    ensures { IfOk result (λ cell. cell.items ≡ units_cell value.now) }
{
    match value {
        ObjectValue::IntegerValue { units, .. } | ObjectValue::PositiveIntegerValue { units, .. } =>
            number_cell(alloc, *units),
        _ => Ok(Vec::new(alloc)),
    }
}

fn number_cell<N: Integer>(alloc: Global, number: N) -> Result<Vec<u8>, AllocError>
    ensures { IfOk result (λ cell. cell.items ≡ N.text number) }
{
    let mut cell = Vec::new(alloc);
    put_decimal(&mut cell, number)?;
    Ok(cell)
}
