//! The properties of each type of object (clauses 12 and 21).
ghost use Rattle.std.specs.Prelude.{◌≡◌, ◌<◌, ◌≤◌, ◌^◌, length, take, drop};
ghost use Rattle.gw_objects.specs.Property.{properties, property_number, property_of, type_number};
ghost use Rattle.gw_objects.specs.internal.Part.{part};

/// The types of objects that a device of this gateway has, each with its number (clause 21).
#[derive(Clone, Copy)]
pub enum ObjectType {
    /// Binary Value (clause 12.8).
    BinaryValue = 5,
    /// Device (clause 12.11).
    Device = 8,
    /// Multi-state Value (clause 12.20).
    MultiStateValue = 19,
    /// CharacterString Value (clause 12.39).
    CharacterStringValue = 40,
    /// Integer Value (clause 12.43).
    IntegerValue = 45,
    /// Positive Integer Value (clause 12.44).
    PositiveIntegerValue = 48,
}

impl ObjectType {
    /// Its number, of ten bits.
    pub fn number(self) -> u16
        ensures number { result ≡ type_number self }
        ensures fits { result < 2 ^ 10 }
    {
        self as u16
    }
}

/// The properties that objects of these types have, each with its number (clause 21).
#[derive(Clone, Copy)]
pub enum Property {
    /// Active_Text.
    ActiveText = 4,
    /// APDU_Timeout.
    ApduTimeout = 11,
    /// Application_Software_Version.
    ApplicationSoftwareVersion = 12,
    /// Description.
    Description = 28,
    /// Device_Address_Binding.
    DeviceAddressBinding = 30,
    /// Event_State.
    EventState = 36,
    /// Firmware_Revision.
    FirmwareRevision = 44,
    /// Inactive_Text.
    InactiveText = 46,
    /// Max_APDU_Length_Accepted.
    MaxApduLengthAccepted = 62,
    /// Model_Name.
    ModelName = 70,
    /// Number_Of_APDU_Retries.
    NumberOfApduRetries = 73,
    /// Number_Of_States.
    NumberOfStates = 74,
    /// Object_Identifier.
    ObjectIdentifier = 75,
    /// Object_List.
    ObjectList = 76,
    /// Object_Name.
    ObjectName = 77,
    /// Object_Type.
    ObjectType = 79,
    /// Out_Of_Service.
    OutOfService = 81,
    /// Present_Value.
    PresentValue = 85,
    /// Priority_Array.
    PriorityArray = 87,
    /// Protocol_Object_Types_Supported.
    ProtocolObjectTypesSupported = 96,
    /// Protocol_Services_Supported.
    ProtocolServicesSupported = 97,
    /// Protocol_Version.
    ProtocolVersion = 98,
    /// Relinquish_Default.
    RelinquishDefault = 104,
    /// Segmentation_Supported.
    SegmentationSupported = 107,
    /// State_Text.
    StateText = 110,
    /// Status_Flags.
    StatusFlags = 111,
    /// System_Status.
    SystemStatus = 112,
    /// Units.
    Units = 117,
    /// Vendor_Identifier.
    VendorIdentifier = 120,
    /// Vendor_Name.
    VendorName = 121,
    /// Protocol_Revision.
    ProtocolRevision = 139,
    /// Database_Revision.
    DatabaseRevision = 155,
}

impl Property {
    /// Its number.
    pub fn number(self) -> u32
        ensures { result ≡ property_number self }
    {
        self as u32
    }
}

/// A set of the properties of a type (clause 15.7.3.1.2).
#[derive(Clone, Copy)]
pub enum PropertySet {
    /// ALL: the required ones, then the optional ones.
    All,
    /// REQUIRED.
    Required,
    /// OPTIONAL.
    Optional,
}

/// The properties of a type that a set has, in the order in which they are answered.
pub fn properties(kind: ObjectType, set: PropertySet) -> &'static [Property]
    ensures { result.now ≡ properties kind set }
{
    match kind {
        ObjectType::BinaryValue => part(&BINARY_VALUE, 7, set),
        ObjectType::Device => part(&DEVICE, 20, set),
        ObjectType::MultiStateValue => part(&MULTI_STATE_VALUE, 8, set),
        ObjectType::CharacterStringValue => part(&CHARACTER_STRING_VALUE, 5, set),
        ObjectType::IntegerValue => part(&INTEGER_VALUE, 6, set),
        ObjectType::PositiveIntegerValue => part(&INTEGER_VALUE, 6, set),
    }
}

/// The property of that number, where the type has it.
pub(crate) fn property_of(kind: ObjectType, number: u32) -> Option<Property>
    ensures { result ≡ property_of kind number }
{
    properties(kind, PropertySet::All)
        .iter()
        .copied()
        .find(|property| property.number() == number)
}

/// What a set has of all properties, of which so many are required.
fn part(all: &'static [Property], required: usize, set: PropertySet) -> &'static [Property]
    requires { required ≤ length all.now }
    ensures { result.now ≡ part all.now required set }
{
    match set {
        PropertySet::All => all,
        PropertySet::Required => &all[..required],
        PropertySet::Optional => &all[required..],
    }
}

const DEVICE: [Property; 21] = [
    Property::ObjectIdentifier,
    Property::ObjectName,
    Property::ObjectType,
    Property::SystemStatus,
    Property::VendorName,
    Property::VendorIdentifier,
    Property::ModelName,
    Property::FirmwareRevision,
    Property::ApplicationSoftwareVersion,
    Property::ProtocolVersion,
    Property::ProtocolRevision,
    Property::ProtocolServicesSupported,
    Property::ProtocolObjectTypesSupported,
    Property::ObjectList,
    Property::MaxApduLengthAccepted,
    Property::SegmentationSupported,
    Property::ApduTimeout,
    Property::NumberOfApduRetries,
    Property::DeviceAddressBinding,
    Property::DatabaseRevision,
    Property::Description,
];

const BINARY_VALUE: [Property; 12] = [
    Property::ObjectIdentifier,
    Property::ObjectName,
    Property::ObjectType,
    Property::PresentValue,
    Property::StatusFlags,
    Property::EventState,
    Property::OutOfService,
    Property::Description,
    Property::PriorityArray,
    Property::RelinquishDefault,
    Property::ActiveText,
    Property::InactiveText,
];

const MULTI_STATE_VALUE: [Property; 12] = [
    Property::ObjectIdentifier,
    Property::ObjectName,
    Property::ObjectType,
    Property::PresentValue,
    Property::StatusFlags,
    Property::EventState,
    Property::OutOfService,
    Property::NumberOfStates,
    Property::Description,
    Property::PriorityArray,
    Property::RelinquishDefault,
    Property::StateText,
];

const CHARACTER_STRING_VALUE: [Property; 10] = [
    Property::ObjectIdentifier,
    Property::ObjectName,
    Property::ObjectType,
    Property::PresentValue,
    Property::StatusFlags,
    Property::Description,
    Property::EventState,
    Property::OutOfService,
    Property::PriorityArray,
    Property::RelinquishDefault,
];

const INTEGER_VALUE: [Property; 11] = [
    Property::ObjectIdentifier,
    Property::ObjectName,
    Property::ObjectType,
    Property::PresentValue,
    Property::StatusFlags,
    Property::Units,
    Property::Description,
    Property::EventState,
    Property::OutOfService,
    Property::PriorityArray,
    Property::RelinquishDefault,
];
