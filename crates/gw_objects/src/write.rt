//! Writes of Present_Value and Relinquish_Default (clauses 15.9 and 19.2).
ghost use Rattle.std.specs.Prelude.{◌≡◌, ◌≢◌, ◌<◌, length, Err, IfOk, IfSome, IsFalse};
ghost use Rattle.gw_addr.specs.Reading.{Gives};
ghost use Rattle.gw_tables.specs.priority.Commandable.{IsPriority};
ghost use Rattle.gw_codecs.specs.tags.Object.{object_view};
ghost use Rattle.gw_codecs.specs.tags.Reading.{value_at};
ghost use Rattle.gw_codecs.specs.tags.Value.{value_view};
ghost use Rattle.gw_objects.specs.Write.{CanAct, Decides, act_for, act_of, binary_value};
ghost use Rattle.gw_objects.specs.Write.{device_write, is_reserved, is_writable, object_write};
ghost use Rattle.gw_objects.specs.Write.{is_text, present_act, property_for, puts_text, state_value, text_in};
ghost use Rattle.gw_objects.specs.Write.{value_for, whole, write_of, writes_text};
ghost use Rattle.gw_objects.specs.internal.Act.{act_view};

use crate::database::same;
use crate::property::property_of;
use crate::value::is_state;
use crate::{
    Configured, ConfiguredObject, Details, ObjectType, Property, PropertyValue, WriteFault,
};
use gw_codecs::tags::{AppValue, CharacterString, ObjectId, ValueFault, read_value};
use gw_configuration::{MAX_TEXT, Text};
use gw_tables::priority::RESERVED;
use std::alloc::Global;
use std::marker::Model;

/// A write that [`check`](crate::ObjectDb::check) found without a fault, for
/// [`put`](crate::ObjectDb::put). Contracts see the place of its object and what it does there.
#[derive(Drop)]
pub struct Put {
    place: usize,
    act: Act,
}

impl Model for Put {
    ghost use Rattle.gw_objects.specs.Write.{CanAct, Write};
    ghost use Rattle.gw_objects.specs.internal.Act.{act_view};

    ghost Value = { Write };

    ghost view = { λ p. record { place = p.place; act = act_view p.act } };

    ghost invariant = { λ p. CanAct (act_view p.act) };
}

/// What a write does.
#[derive(Drop)]
pub(crate) enum Act {
    /// Puts a value into the slot of a priority.
    Command(u8, PropertyValue),
    /// Empties the slot of a priority.
    Relinquish(u8),
    /// Puts another default in the place of the old one.
    SetDefault(PropertyValue),
}

impl Put {
    /// The place of its object, and what it does.
    pub(crate) fn parts(self) -> (usize, Act)
        ensures place { result.0 ≡ self.place }
        ensures act { act_view result.1 ≡ self.act }
        ensures can { CanAct (act_view result.1) }
    {
        (self.place, self.act)
    }
}

/// A write that is asked for, for [`check`](crate::ObjectDb::check).
#[derive(Drop)]
pub struct AskedWrite<'a> {
    /// The object that it names.
    pub id: ObjectId,
    /// The number of the property.
    pub property: u32,
    /// The index that it names, if it names one.
    pub index: Option<u32>,
    /// Its priority, 1 to 16.
    pub priority: u8,
    /// The octets of the value.
    pub value: &'a [u8],
}

impl AskedWrite<'_> {
    /// What it does, or its first fault.
    #[tactic(auto, unfolding(crate::specs::Write::write_of))]
    pub(crate) fn check(&self, alloc: Global, configured: &Configured) -> Result<Put, WriteFault>
        requires { IsPriority self.now.priority }
        ensures write { Decides (λ put. put) writes_text result
            (write_of configured.now (object_view self.now.id) self.now.property self.now.index
            self.now.priority self.now.value.now) }
        ensures place { IfOk result (λ put. put.place < length configured.now.objects) }
    {
        if same(self.id, configured.device_id()) {
            return Err(device_fault(self.property));
        }
        let Some(place) = configured.objects.place_of(self.id) else {
            return Err(WriteFault::UnknownObject);
        };
        self.check_object(alloc, place, &configured.objects.as_slice()[place])
    }

    /// What it does to the value object at that place, or its first fault.
    fn check_object(
        &self,
        alloc: Global,
        place: usize,
        object: &ConfiguredObject,
    ) -> Result<Put, WriteFault>
        requires { IsPriority self.now.priority }
        ensures write { Decides (λ put. put) writes_text result
            (object_write place object.now self.now.property self.now.index self.now.priority
            self.now.value.now) }
        ensures place { IfOk result (λ put. put.place ≡ place) }
    {
        let act = self.act_on(alloc, object)?;
        Ok(Put { place, act })
    }

    /// What it does to a value object, wherever that is, or its first fault.
    fn act_on(&self, alloc: Global, object: &ConfiguredObject) -> Result<Act, WriteFault>
        requires { IsPriority self.now.priority }
        ensures act { Decides (λ act. act_view act) puts_text result
            (act_of object.now self.now.property self.now.index self.now.priority
            self.now.value.now) }
        ensures can { IfOk result (λ act. CanAct (act_view act)) }
    {
        let kind = object.details.object_type();
        let property = property_for(kind, self.property, self.index, self.priority)?;
        let value = whole(self.value)?;
        act_for(alloc, &object.details, property, self.priority, &value)
    }
}

/// Why a property of the Device object isn't written.
fn device_fault(property: u32) -> WriteFault
    ensures { device_write property ≡ Err result }
{
    match property_of(ObjectType::Device, property) {
        Some(_) => WriteFault::NotWritable,
        None => WriteFault::UnknownProperty,
    }
}

/// The property, where it can be written.
fn property_for(
    kind: ObjectType,
    property: u32,
    index: Option<u32>,
    priority: u8,
) -> Result<Property, WriteFault>
    ensures property { Gives (λ p. p) result (property_for kind property index priority) }
    ensures reserved { IfOk result (λ p. IsFalse (is_reserved p priority)) }
{
    let Some(property) = property_of(kind, property) else {
        return Err(WriteFault::UnknownProperty);
    };
    if !is_writable(property) {
        return Err(WriteFault::NotWritable);
    }
    if index.is_some() {
        return Err(WriteFault::NotArray);
    }
    if is_reserved(property, priority) {
        return Err(WriteFault::Reserved);
    }
    Ok(property)
}

fn is_writable(property: Property) -> bool
    ensures { result ≡ is_writable property }
{
    matches!(
        property,
        Property::PresentValue | Property::RelinquishDefault
    )
}

fn is_reserved(property: Property, priority: u8) -> bool
    ensures { result ≡ is_reserved property priority }
{
    match property {
        Property::PresentValue => priority == RESERVED,
        _ => false,
    }
}

/// The one value that fills the octets.
fn whole(octets: &[u8]) -> Result<AppValue<'_>, WriteFault>
    ensures { Gives (λ v. value_view v) result (whole (value_at octets.now)) }
{
    match read_value(octets) {
        Ok((value, [])) => Ok(value),
        Ok(_) => Err(WriteFault::WrongKind),
        Err(ValueFault::BadText) => Err(WriteFault::OutOfRange),
        Err(_) => Err(WriteFault::WrongKind),
    }
}

/// What a write of that value does.
fn act_for(
    alloc: Global,
    details: &Details,
    property: Property,
    priority: u8,
    value: &AppValue<'_>,
) -> Result<Act, WriteFault>
    requires priority { IsPriority priority }
    requires reserved { IsFalse (is_reserved property priority) }
    ensures act { Decides (λ act. act_view act) puts_text result
        (act_for details.now property priority (value_view value.now)) }
    ensures can { IfOk result (λ act. CanAct (act_view act)) }
{
    match property {
        Property::PresentValue => present_act(alloc, details, priority, value),
        Property::RelinquishDefault => Ok(Act::SetDefault(value_for(alloc, details, value)?)),
        _ => Err(WriteFault::NotWritable),
    }
}

/// What a write of Present_Value does: Null empties the slot.
fn present_act(
    alloc: Global,
    details: &Details,
    priority: u8,
    value: &AppValue<'_>,
) -> Result<Act, WriteFault>
    requires priority { IsPriority priority }
    requires reserved { priority ≢ RESERVED }
    ensures act { Decides (λ act. act_view act) puts_text result
        (present_act details.now priority (value_view value.now)) }
    ensures can { IfOk result (λ act. CanAct (act_view act)) }
{
    if let AppValue::Null = value {
        return Ok(Act::Relinquish(priority));
    }
    Ok(Act::Command(priority, value_for(alloc, details, value)?))
}

/// The value that an object takes, by its type.
fn value_for(
    alloc: Global,
    details: &Details,
    value: &AppValue<'_>,
) -> Result<PropertyValue, WriteFault>
    ensures { Decides (λ v. v) is_text result (value_for details.now (value_view value.now)) }
{
    match (details, value) {
        (Details::BinaryValue { .. }, AppValue::Enumerated(number)) => binary(*number),
        (Details::MultiStateValue(states), AppValue::Unsigned(number)) => {
            state(states.count(), *number)
        }
        (Details::CharacterStringValue, AppValue::Text(text)) => text_in(alloc, text),
        (Details::IntegerValue { .. }, AppValue::Signed(number)) => {
            Ok(PropertyValue::Integer(*number))
        }
        (Details::PositiveIntegerValue { .. }, AppValue::Unsigned(number)) => {
            Ok(PropertyValue::PositiveInteger(*number))
        }
        _ => Err(WriteFault::WrongKind),
    }
}

fn binary(number: u32) -> Result<PropertyValue, WriteFault>
    ensures { result ≡ binary_value number }
{
    if number < 2 {
        Ok(PropertyValue::Binary(number == 1))
    } else {
        Err(WriteFault::OutOfRange)
    }
}

fn state(count: u32, number: u32) -> Result<PropertyValue, WriteFault>
    ensures { result ≡ state_value count number }
{
    if is_state(count, number) {
        Ok(PropertyValue::State(number))
    } else {
        Err(WriteFault::OutOfRange)
    }
}

/// A text in character set 0, of at most 255 octets.
fn text_in(alloc: Global, text: &CharacterString<'_>) -> Result<PropertyValue, WriteFault>
    ensures { Decides (λ v. v) is_text result (text_in text.now.charset text.now.octets.now) }
{
    if text.charset != 0 {
        return Err(WriteFault::CharacterSet);
    }
    if text.octets.len() > MAX_TEXT {
        return Err(WriteFault::NoSpace);
    }
    match own_text(alloc, text.octets) {
        Some(text) => Ok(PropertyValue::Text(text)),
        None => Err(WriteFault::Memory),
    }
}

/// A copy of a text, or `None` where there is no memory for it.
fn own_text(alloc: Global, octets: &[u8]) -> Option<Text>
    ensures { IfSome result (λ text. text ≡ octets.now) }
{
    let Ok(text) = str::from_utf8(octets) else {
        return None;
    };
    match Text::new(alloc, 0, text) {
        Ok(text) => Some(text),
        Err(_) => None,
    }
}
