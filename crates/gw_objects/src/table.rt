//! The table of properties: what each holds (clause 12).
ghost use Rattle.std.specs.Prelude.{◌≡◌};
ghost use Rattle.gw_objects.specs.Table.{details_line, device_line, object_line, value_of};
ghost use Rattle.gw_objects.specs.Contents.{one};
ghost use Rattle.gw_objects.specs.Property.{type_number};
ghost use Rattle.gw_objects.specs.internal.View.{contents_view, item_view};
ghost use Rattle.gw_codecs.specs.tags.Value.{enumerated};

use crate::contents::{Array, Contents, Flags, Item};
use crate::{Configured, ConfiguredObject, Details, ObjectType, Property, PropertyValue};
use gw_tables::priority::PriorityArray;

/// The version of the protocol (clause 12.11).
const PROTOCOL_VERSION: u32 = 1;
/// The most octets of an APDU that the device takes.
pub const MAX_APDU: u16 = 1476;
/// How long the device would wait for an answer, in milliseconds.
const APDU_TIMEOUT: u32 = 3000;
/// How often it would ask again.
const APDU_RETRIES: u32 = 3;
/// System_Status operational.
const OPERATIONAL: u32 = 0;
/// Segmentation_Supported no-segmentation.
const NO_SEGMENTATION: u32 = 3;
/// Event_State normal.
const NORMAL: u32 = 0;

/// What a property of the Device object holds.
pub(crate) fn device_line<'a>(configured: &'a Configured, property: Property) -> Contents<'a>
    ensures { contents_view result ≡ device_line configured.now property }
{
    let device = &configured.device;
    match property {
        Property::ObjectIdentifier => Contents::One(Item::Object(configured.device_id())),
        Property::ObjectName => Contents::One(Item::Text(&device.name)),
        Property::ObjectType => kind(ObjectType::Device),
        Property::SystemStatus => Contents::One(Item::Enumerated(OPERATIONAL)),
        Property::VendorName => Contents::One(Item::Text(&device.vendor_name)),
        Property::VendorIdentifier => Contents::One(Item::Unsigned(u32::from(device.vendor))),
        Property::ModelName => Contents::One(Item::Text(&device.model)),
        Property::FirmwareRevision => Contents::One(Item::Text(&device.firmware)),
        Property::ApplicationSoftwareVersion => Contents::One(Item::Text(&device.software)),
        Property::ProtocolVersion => Contents::One(Item::Unsigned(PROTOCOL_VERSION)),
        Property::ProtocolRevision => Contents::One(Item::Unsigned(u32::from(device.revision))),
        Property::ProtocolServicesSupported => Contents::One(Item::Bits(Flags::Services)),
        Property::ProtocolObjectTypesSupported => Contents::One(Item::Bits(Flags::ObjectTypes)),
        Property::ObjectList => Contents::Array(Array::Objects(
            configured.device_id(),
            &configured.objects,
        )),
        Property::MaxApduLengthAccepted => Contents::One(Item::Unsigned(MAX_APDU as u32)),
        Property::SegmentationSupported => Contents::One(Item::Enumerated(NO_SEGMENTATION)),
        Property::ApduTimeout => Contents::One(Item::Unsigned(APDU_TIMEOUT)),
        Property::NumberOfApduRetries => Contents::One(Item::Unsigned(APDU_RETRIES)),
        Property::DeviceAddressBinding => Contents::EmptyList,
        Property::DatabaseRevision => Contents::One(Item::Unsigned(device.database)),
        Property::Description => Contents::One(Item::Text(&device.description)),
        _ => Contents::EmptyList,
    }
}

/// What a property of a value object holds.
pub(crate) fn object_line<'a>(
    object: &'a ConfiguredObject,
    slots: &'a PriorityArray<PropertyValue>,
    property: Property,
) -> Contents<'a>
    ensures { contents_view result ≡ object_line object.now slots.now property }
{
    match property {
        Property::ObjectIdentifier => Contents::One(Item::Object(object.id())),
        Property::ObjectName => Contents::One(Item::Text(&object.name)),
        Property::ObjectType => kind(object.details.object_type()),
        Property::PresentValue => Contents::One(item_of(slots.present())),
        Property::PriorityArray => Contents::Array(Array::Slots(slots)),
        Property::RelinquishDefault => Contents::One(item_of(slots.default())),
        Property::StatusFlags => Contents::One(Item::Bits(Flags::Status)),
        Property::EventState => Contents::One(Item::Enumerated(NORMAL)),
        Property::OutOfService => Contents::One(Item::Boolean(false)),
        Property::Description => Contents::One(Item::Text(&object.description)),
        _ => details_line(&object.details, property),
    }
}

/// What a property holds that only objects of this type have.
fn details_line<'a>(details: &'a Details, property: Property) -> Contents<'a>
    ensures { contents_view result ≡ details_line details.now property }
{
    match (details, property) {
        (Details::BinaryValue { active, .. }, Property::ActiveText) => {
            Contents::One(Item::Text(active))
        }
        (Details::BinaryValue { inactive, .. }, Property::InactiveText) => {
            Contents::One(Item::Text(inactive))
        }
        (Details::MultiStateValue(states), Property::NumberOfStates) => {
            Contents::One(Item::Unsigned(states.count()))
        }
        (Details::MultiStateValue(states), Property::StateText) => {
            Contents::Array(Array::Texts(states))
        }
        (Details::IntegerValue { units }, Property::Units) => {
            Contents::One(Item::Enumerated(u32::from(*units)))
        }
        (Details::PositiveIntegerValue { units }, Property::Units) => {
            Contents::One(Item::Enumerated(u32::from(*units)))
        }
        _ => Contents::EmptyList,
    }
}

/// Object_Type.
fn kind<'a>(kind: ObjectType) -> Contents<'a>
    ensures { contents_view result ≡ one (enumerated (type_number kind)) }
{
    Contents::One(Item::Enumerated(u32::from(kind.number())))
}

/// A value of Present_Value or Relinquish_Default.
pub(crate) fn item_of(value: &PropertyValue) -> Item<'_>
    ensures { item_view result ≡ value_of value.now }
{
    match value {
        PropertyValue::Binary(active) => Item::Enumerated(u32::from(*active)),
        PropertyValue::State(number) => Item::Unsigned(*number),
        PropertyValue::Text(text) => Item::Text(text),
        PropertyValue::Integer(number) => Item::Signed(*number),
        PropertyValue::PositiveInteger(number) => Item::Unsigned(*number),
    }
}
