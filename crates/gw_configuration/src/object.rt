//! The objects of a device.
ghost use Rattle.std.specs.Prelude.{◌≡◌, ◌≤◌, length};
ghost use Rattle.gw_configuration.specs.Kinds.{kind_numbered, type_number};
ghost use Rattle.gw_configuration.specs.States.{states_of};

use crate::{Instance, Text};
use gw_addr::Sequence;
use std::marker::Model;

/// How many states a Multi-state Value has at most.
pub const MAX_STATES: usize = 64;

/// The types of objects that a configuration may have, each with its number (clause 21).
#[derive(Clone, Copy)]
pub enum ObjectKind {
    /// Binary Value (clause 12.8).
    BinaryValue = 5,
    /// Multi-state Value (clause 12.20).
    MultiStateValue = 19,
    /// CharacterString Value (clause 12.39).
    CharacterStringValue = 40,
    /// Integer Value (clause 12.43).
    IntegerValue = 45,
    /// Positive Integer Value (clause 12.44).
    PositiveIntegerValue = 48,
}

impl ObjectKind {
    /// The type of this number, if it is one of these.
    pub fn from_number(number: u64) -> Option<Self>
        ensures { result ≡ kind_numbered number }
    {
        match number {
            5 => Some(ObjectKind::BinaryValue),
            19 => Some(ObjectKind::MultiStateValue),
            40 => Some(ObjectKind::CharacterStringValue),
            45 => Some(ObjectKind::IntegerValue),
            48 => Some(ObjectKind::PositiveIntegerValue),
            _ => None,
        }
    }
}

/// An object as it is configured.
pub struct Object {
    /// Its instance.
    pub instance: Instance,
    /// Object_Name, which isn't empty.
    pub name: Text,
    /// Description, which may be empty.
    pub description: Text,
    /// Its type, with what is configured of that type alone.
    pub value: ObjectValue,
}

// By hand: a derived one is proved part by part wherever one is dropped (docs/GATE.md).
impl Drop for Object {
    fn drop(self) {
        let Object {
            instance: _,
            name: _,
            description: _,
            value: _,
        } = self;
    }
}

/// The type of an object with its Relinquish_Default, which is in the range of its Present_Value,
/// and what else is configured of that type.
#[derive(Drop)]
pub enum ObjectValue {
    /// Binary Value: whether the default is active, and the texts of the two states.
    BinaryValue {
        default: bool,
        active: Text,
        inactive: Text,
    },
    /// Multi-state Value.
    MultiStateValue(MultiState),
    /// CharacterString Value.
    CharacterStringValue {
        default: Text,
    },
    /// Integer Value, with its Units.
    IntegerValue {
        default: i32,
        units: u16,
    },
    /// Positive Integer Value, with its Units.
    PositiveIntegerValue {
        default: u32,
        units: u16,
    },
}

impl ObjectValue {
    /// The number of its type.
    pub fn type_number(&self) -> u64
        ensures { result ≡ type_number self.now }
    {
        match self {
            ObjectValue::BinaryValue { .. } => 5,
            ObjectValue::MultiStateValue(_) => 19,
            ObjectValue::CharacterStringValue { .. } => 40,
            ObjectValue::IntegerValue { .. } => 45,
            ObjectValue::PositiveIntegerValue { .. } => 48,
        }
    }
}

/// The states of a Multi-state Value, 1 to 64 of them, and which is the default, counted from 1.
pub struct MultiState {
    default: u8,
    states: Sequence<Text>,
}

// By hand: a derived one is proved part by part wherever one is dropped (docs/GATE.md).
impl Drop for MultiState {
    fn drop(self) {
        let MultiState {
            default: _,
            states: _,
        } = self;
    }
}

impl Model for MultiState {
    ghost use Rattle.std.specs.Prelude.{◌≤◌, length};
    ghost use Rattle.gw_configuration.specs.States.{States};

    ghost Value = { States };

    ghost view = { λ m. record { default = m.default; states = m.states } };

    ghost invariant = { λ m. (1 ≤ m.default) × ((m.default ≤ length m.states) × (length m.states ≤ 64)) };
}

impl MultiState {
    /// These states, of which the one of that number is the default. `None` where none of them has that
    /// number, or where there are more than 64.
    pub fn new(default: u8, states: Sequence<Text>) -> Option<Self>
        ensures { result ≡ states_of default states }
    {
        if 1 <= default && usize::from(default) <= states.len() && states.len() <= MAX_STATES {
            Some(MultiState { default, states })
        } else {
            None
        }
    }

    /// The number of the default state, counted from 1.
    pub fn default(&self) -> u8
        ensures value { result ≡ self.now.default }
        ensures low { 1 ≤ result }
        ensures high { result ≤ length self.now.states }
    {
        self.default
    }

    /// The texts of the states in order, 1 to 64.
    pub fn states(&self) -> &[Text]
        ensures value { result.now ≡ self.now.states }
        ensures some { 1 ≤ length self.now.states }
        ensures most { length self.now.states ≤ 64 }
    {
        self.states.as_slice()
    }
}
