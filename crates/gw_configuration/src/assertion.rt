//! The assertions of a configuration: what is to be allowed, or denied, whatever the rules say.
ghost use Rattle.std.specs.Prelude.{◌≡◌};
ghost use Rattle.gw_rules.specs.Rule.{each_field};
ghost use Rattle.gw_configuration.specs.Assertion.{is_any, is_for, is_meant, is_meant_by, is_meant_plainly, is_of_service, is_passed, may_lack, meets, meets_but_object, meets_but_operation, passes_object};

use crate::Text;
use gw_rules::{Ask, FieldName, Fields, Operation, Ranges, RuleName, admit};

/// How many assertions a configuration has at most.
pub const MAX_ASSERTIONS: usize = 512;

/// The services that read of a device and raise no `read` ask: GetAlarmSummary, GetEnrollmentSummary, SubscribeCOV,
/// AtomicReadFile, ReadPropertyConditional, ReadRange, SubscribeCOVProperty, GetEventInformation,
/// SubscribeCOVPropertyMultiple and AuditLogQuery, by the numbers of [`Service`](gw_rules::Service).
pub const READING_SERVICES: [u64; 10] = [3, 4, 5, 6, 13, 26, 28, 29, 30, 33];

/// The services that write or change a device and raise no `write` ask: AcknowledgeAlarm, AtomicWriteFile,
/// AddListElement, RemoveListElement, CreateObject, DeleteObject, WritePropertyMultiple, DeviceCommunicationControl,
/// ConfirmedPrivateTransfer, ConfirmedTextMessage, ReinitializeDevice, VT-Open, VT-Close, VT-Data and
/// LifeSafetyOperation, then UnconfirmedPrivateTransfer, UnconfirmedTextMessage, TimeSynchronization,
/// UTCTimeSynchronization, WriteGroup and You-Are, by the numbers of [`Service`](gw_rules::Service).
pub const WRITING_SERVICES: [u64; 21] = [
    0, 7, 8, 9, 10, 11, 16, 17, 18, 19, 20, 21, 22, 23, 27, 260, 261, 262, 265, 266, 270,
];

/// What is asserted of a policy: each ask that is meant, and that an event can raise, is allowed, or is denied. An
/// assertion is no rule: nothing that the gateway does rests on it.
pub struct Assertion {
    /// Its name.
    pub name: RuleName,
    /// Whether what is meant is to be allowed, or to be denied.
    pub is_allowed: bool,
    /// The ranges for each field that it names.
    pub ranges: Fields<Ranges>,
    /// Whether it means, in the place of an operation, whatever reads of a device.
    pub any_read: bool,
    /// The same of whatever writes or changes a device.
    pub any_write: bool,
    /// Whether an ask is meant that lacks the object type, instance, property, priority or station that it names.
    pub unnamed: bool,
    /// Its note, empty if it has none.
    pub note: Text,
}

// By hand: a derived one is proved part by part wherever one is dropped (docs/GATE.md).
impl Drop for Assertion {
    fn drop(self) {
        let Assertion {
            name: _,
            is_allowed: _,
            ranges: _,
            any_read: _,
            any_write: _,
            unnamed: _,
            note: _,
        } = self;
    }
}

impl Assertion {
    /// Whether it means the ask.
    pub fn means(&self, ask: &Ask) -> bool
        ensures { result ≡ is_meant self.now ask.now }
    {
        self.means_plainly(ask)
            || self.any_read && self.means_by(Operation::Read, &READING_SERVICES, ask)
            || self.any_write && self.means_by(Operation::Write, &WRITING_SERVICES, ask)
    }

    /// Whether it does by its ranges alone.
    fn means_plainly(&self, ask: &Ask) -> bool
        ensures { result ≡ is_meant_plainly self.now ask.now }
    {
        (!self.is_any() || !self.ranges.operation.is_empty()) && self.meets_all(ask)
    }

    fn is_any(&self) -> bool
        ensures { result ≡ is_any self.now }
    {
        self.any_read || self.any_write
    }

    /// Whether it does as an ask for this operation, or as one that passes on what one of these services does.
    fn means_by(&self, operation: Operation, services: &[u64], ask: &Ask) -> bool
        ensures { result ≡ is_meant_by operation services.now self.now ask.now }
    {
        is_for(operation, ask) && self.meets_but_operation(ask)
            || is_passed(ask) && is_of_service(services, ask) && self.meets_but_object(ask)
    }

    fn meets_all(&self, ask: &Ask) -> bool
        ensures { result ≡ each_field (meets self.now ask.now) }
    {
        FieldName::ALL.iter().all(|field| self.meets(ask, *field))
    }

    fn meets_but_operation(&self, ask: &Ask) -> bool
        ensures { result ≡ meets_but_operation self.now ask.now }
    {
        FieldName::ALL.iter().all(|field| matches!(field, FieldName::Operation)
            || self.meets(ask, *field))
    }

    fn meets_but_object(&self, ask: &Ask) -> bool
        ensures { result ≡ meets_but_object self.now ask.now }
    {
        FieldName::ALL
            .iter()
            .all(|field| passes_object(*field) || self.meets(ask, *field))
    }

    /// Whether the ask has what it names for a field, or may lack it.
    fn meets(&self, ask: &Ask, field: FieldName) -> bool
        ensures { result ≡ meets self.now ask.now field }
    {
        let value = *ask.get(field);
        admit(self.ranges.get(field).as_slice(), value)
            || self.unnamed && may_lack(field) && value.is_none()
    }
}

/// Whether a message may leave a field of what it does unsaid.
fn may_lack(field: FieldName) -> bool
    ensures { result ≡ may_lack field }
{
    matches!(
        field,
        FieldName::ObjectType
            | FieldName::Instance
            | FieldName::Property
            | FieldName::Priority
            | FieldName::Station
    )
}

/// Whether a field is the operation or says something of an object.
fn passes_object(field: FieldName) -> bool
    ensures { result ≡ passes_object field }
{
    matches!(
        field,
        FieldName::Operation
            | FieldName::ObjectType
            | FieldName::Instance
            | FieldName::Property
            | FieldName::Priority
    )
}

/// Whether an ask is for an operation.
fn is_for(operation: Operation, ask: &Ask) -> bool
    ensures { result ≡ is_for operation ask.now }
{
    match ask.operation {
        Some(number) => number == operation.number(),
        None => false,
    }
}

/// Whether an ask is of a message that is sent on or distributed.
fn is_passed(ask: &Ask) -> bool
    ensures { result ≡ is_passed ask.now }
{
    is_for(Operation::Route, ask) || is_for(Operation::Cast, ask)
}

/// Whether an ask is of one of these services.
fn is_of_service(services: &[u64], ask: &Ask) -> bool
    ensures { result ≡ is_of_service services.now ask.now }
{
    match ask.service {
        Some(number) => services.contains(&number),
        None => false,
    }
}
