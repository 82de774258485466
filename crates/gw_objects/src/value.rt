//! The values of Present_Value and Relinquish_Default.
ghost use Rattle.std.specs.Prelude.{◌≡◌, ◌&&◌, nat_le, IfOk, IsFalse, IsOk, IsTrue};
ghost use Rattle.gw_objects.specs.Objects.{default_of, details_of};
ghost use Rattle.gw_objects.specs.Values.{fits, same_value};
ghost use Rattle.gw_objects.specs.Write.{is_text};

use crate::copying;
use gw_configuration::{ObjectValue, Text};
use std::alloc::{AllocError, Global};

/// A value of Present_Value and Relinquish_Default, by the type of its object.
#[derive(Drop)]
pub enum PropertyValue {
    /// Of a Binary Value: whether it is active (clause 12.8).
    Binary(bool),
    /// Of a Multi-state Value: the number of the state, counted from 1 (clause 12.20).
    State(u32),
    /// Of a CharacterString Value (clause 12.39).
    Text(Text),
    /// Of an Integer Value (clause 12.43).
    Integer(i32),
    /// Of a Positive Integer Value (clause 12.44).
    PositiveInteger(u32),
}

impl PropertyValue {
    /// The default that a value object begins with. The only fault is want of memory, which only a
    /// text takes.
    pub fn default_of(alloc: Global, object: &ObjectValue) -> Result<PropertyValue, AllocError>
        ensures default { IfOk result (λ default. default ≡ default_of object.now) }
        ensures fits { IfOk result (λ default. IsTrue (fits (details_of object.now) default)) }
        ensures memory { IsFalse (is_text (default_of object.now)) → IsOk result }
    {
        match object {
            ObjectValue::BinaryValue { default, .. } => Ok(PropertyValue::Binary(*default)),
            ObjectValue::MultiStateValue(value) => {
                Ok(PropertyValue::State(u32::from(value.default())))
            }
            ObjectValue::CharacterStringValue { default } => {
                Ok(PropertyValue::Text(copying::text(alloc, default)?))
            }
            ObjectValue::IntegerValue { default, .. } => Ok(PropertyValue::Integer(*default)),
            ObjectValue::PositiveIntegerValue { default, .. } => {
                Ok(PropertyValue::PositiveInteger(*default))
            }
        }
    }

    /// A copy. The only fault is want of memory, which only a text takes.
    pub fn copy(&self, alloc: Global) -> Result<PropertyValue, AllocError>
        ensures copy { IfOk result (λ copy. copy ≡ self.now) }
        ensures memory { IsFalse (is_text self.now) → IsOk result }
    {
        match self {
            PropertyValue::Binary(active) => Ok(PropertyValue::Binary(*active)),
            PropertyValue::State(number) => Ok(PropertyValue::State(*number)),
            PropertyValue::Text(text) => Ok(PropertyValue::Text(copying::text(alloc, text)?)),
            PropertyValue::Integer(number) => Ok(PropertyValue::Integer(*number)),
            PropertyValue::PositiveInteger(number) => Ok(PropertyValue::PositiveInteger(*number)),
        }
    }

    /// Whether it is of the kind of another and equal to it.
    pub fn is_same(&self, other: &PropertyValue) -> bool
        ensures { result ≡ same_value self.now other.now }
    {
        match (self, other) {
            (PropertyValue::Binary(a), PropertyValue::Binary(b)) => a == b,
            (PropertyValue::State(a), PropertyValue::State(b)) => a == b,
            (PropertyValue::Text(a), PropertyValue::Text(b)) => a.as_str() == b.as_str(),
            (PropertyValue::Integer(a), PropertyValue::Integer(b)) => a == b,
            (PropertyValue::PositiveInteger(a), PropertyValue::PositiveInteger(b)) => a == b,
            _ => false,
        }
    }

    /// Whether it is of the kind of this object and in its range: of a Multi-state Value the number of
    /// one of its states (clause 12.20).
    pub fn fits(&self, object: &ObjectValue) -> bool
        ensures { result ≡ fits (details_of object.now) self.now }
    {
        match (object, self) {
            (ObjectValue::BinaryValue { .. }, PropertyValue::Binary(_)) => true,
            (ObjectValue::MultiStateValue(value), PropertyValue::State(number)) => {
                is_state(value.states().len() as u32, *number)
            }
            (ObjectValue::CharacterStringValue { .. }, PropertyValue::Text(_)) => true,
            (ObjectValue::IntegerValue { .. }, PropertyValue::Integer(_)) => true,
            (ObjectValue::PositiveIntegerValue { .. }, PropertyValue::PositiveInteger(_)) => true,
            _ => false,
        }
    }
}

/// Whether a number is that of one of so many states, which are counted from 1 (clause 12.20).
pub(crate) fn is_state(count: u32, number: u32) -> bool
    ensures { result ≡ (nat_le 1 number && nat_le number count) }
{
    1 <= number && number <= count
}
