//! What is configured of objects, and never changes.

ghost use Rattle.std.specs.Prelude.{◌≡◌, ◌<◌, ◌≤◌, length, position, IfOk, IfSome};
ghost use Rattle.gw_objects.specs.Objects.{device_id, is_name, object_id_of, same, type_of};
ghost use Rattle.gw_codecs.specs.tags.Object.{object_view};

use crate::ObjectType;
use crate::index::{places_by_id, places_by_name};
use gw_addr::Sequence;
use gw_codecs::tags::ObjectId;
use gw_configuration::{Device, Instance, Text};
use indexmap::IndexMap;
use std::alloc::{AllocError, Global};
use std::marker::Model;

/// What is configured of a device: the Device object, and the value objects in the order of the
/// configuration.
#[derive(Drop)]
pub struct Configured {
    /// What the Device object says.
    pub device: Device,
    /// The value objects.
    pub objects: ValueObjects,
}

/// The value objects of a device in the order of the configuration, at most 256, with the place of
/// each by its identifier and by its name. Contracts see the list of them.
#[derive(Drop)]
pub struct ValueObjects {
    objects: Sequence<ConfiguredObject>,
    by_id: IndexMap<ObjectId, usize>,
    by_name: IndexMap<Vec<u8>, usize>,
}

impl Model for ValueObjects {
    ghost use Rattle.std.specs.Prelude.{◌≤◌, List, length};
    ghost use Rattle.gw_objects.specs.declared.configured.ConfiguredObject.{ConfiguredObject};
    ghost use Rattle.gw_objects.specs.internal.Index.{FindsIds, FindsNames};

    ghost Value = { List ConfiguredObject };

    ghost view = { λ o. o.objects };

    ghost invariant = { λ o. (length o.objects ≤ 256)
        × (FindsIds o.by_id.entries o.objects × FindsNames o.by_name.entries o.objects) };
}

impl ValueObjects {
    /// These objects, at most 256. The only fault is want of memory for their places.
    pub(crate) fn new(
        alloc: Global,
        objects: Sequence<ConfiguredObject>,
    ) -> Result<Self, AllocError>
        requires { length objects ≤ 256 }
        ensures { IfOk result (λ made. made ≡ objects) }
    {
        let by_id = places_by_id(alloc, objects.as_slice())?;
        let by_name = places_by_name(alloc, objects.as_slice())?;
        Ok(ValueObjects {
            objects,
            by_id,
            by_name,
        })
    }

    /// The objects in their order, at most 256.
    pub fn as_slice(&self) -> &[ConfiguredObject]
        ensures objects { result.now ≡ self.now }
        ensures most { length self.now ≤ 256 }
    {
        self.objects.as_slice()
    }

    /// The place of the object of an identifier.
    pub(crate) fn place_of(&self, id: ObjectId) -> Option<usize>
        ensures place { result ≡
            position (λ object. same (object_view id) (object_id_of object)) self.now }
        ensures within { IfSome result (λ place. place < length self.now) }
    {
        self.by_id.get(&id).copied()
    }

    /// The place of the object whose name has these octets.
    pub(crate) fn place_named(&self, name: &[u8]) -> Option<usize>
        ensures place { result ≡ position (λ object. is_name name.now object.name) self.now }
        ensures within { IfSome result (λ place. place < length self.now) }
    {
        self.by_name.get(name).copied()
    }
}

/// A value object as it is configured, but for its default.
#[derive(Drop)]
pub struct ConfiguredObject {
    /// Its instance.
    pub instance: Instance,
    /// Object_Name.
    pub name: Text,
    /// Description.
    pub description: Text,
    /// Its type, with what only that type has.
    pub details: Details,
}

/// The type of a value object, with what only that type has.
#[derive(Drop)]
pub enum Details {
    /// Binary Value, with its Active_Text and Inactive_Text.
    BinaryValue { active: Text, inactive: Text },
    /// Multi-state Value, with its State_Text.
    MultiStateValue(States),
    /// CharacterString Value.
    CharacterStringValue,
    /// Integer Value, with its Units.
    IntegerValue { units: u16 },
    /// Positive Integer Value, with its Units.
    PositiveIntegerValue { units: u16 },
}

/// The texts of the states of a Multi-state Value, at most 64. Contracts see the list of them.
#[derive(Drop)]
pub struct States {
    texts: Sequence<Text>,
}

impl Model for States {
    ghost use Rattle.std.specs.Prelude.{ℕ, ◌≤◌, List, length};

    ghost Value = { List (List ℕ) };

    ghost view = { λ s. s.texts };

    ghost invariant = { λ s. length s.texts ≤ 64 };
}

impl States {
    /// These texts, at most 64.
    pub(crate) fn new(texts: Sequence<Text>) -> Self
        requires { length texts ≤ 64 }
        ensures { result ≡ texts }
    {
        States { texts }
    }

    /// How many there are.
    pub fn count(&self) -> u32
        ensures { result ≡ length self.now }
    {
        self.texts.len() as u32
    }

    /// The texts in their order, at most 64.
    pub fn as_slice(&self) -> &[Text]
        ensures texts { result.now ≡ self.now }
        ensures most { length self.now ≤ 64 }
    {
        self.texts.as_slice()
    }
}

impl Details {
    /// The type of the object.
    pub fn object_type(&self) -> ObjectType
        ensures { result ≡ type_of self.now }
    {
        match self {
            Details::BinaryValue { .. } => ObjectType::BinaryValue,
            Details::MultiStateValue(_) => ObjectType::MultiStateValue,
            Details::CharacterStringValue => ObjectType::CharacterStringValue,
            Details::IntegerValue { .. } => ObjectType::IntegerValue,
            Details::PositiveIntegerValue { .. } => ObjectType::PositiveIntegerValue,
        }
    }
}

impl Configured {
    /// The identifier of the device.
    pub fn device_id(&self) -> ObjectId
        ensures { object_view result ≡ device_id self.now.device }
    {
        ObjectId {
            kind: ObjectType::Device.number(),
            instance: self.device.instance.get(),
        }
    }
}

impl ConfiguredObject {
    /// Its identifier.
    pub fn id(&self) -> ObjectId
        ensures { object_view result ≡ object_id_of self.now }
    {
        ObjectId {
            kind: self.details.object_type().number(),
            instance: self.instance.get(),
        }
    }
}
