//! The slots and the default of a value object.
ghost use Rattle.std.specs.Prelude.{◌≡◌};
ghost use Rattle.gw_codecs.specs.tags.Object.{object_view};

use gw_codecs::tags::ObjectId;
use gw_objects::PropertyValue;
use gw_tables::priority::PriorityArray;
use std::marker::Model;

/// A value object as it is saved. Its identifier identifies it. Contracts see the identifier, the default
/// that was configured, and the slots with the default that it had.
pub struct SavedObject {
    object: ObjectId,
    configured: PropertyValue,
    slots: PriorityArray<PropertyValue>,
}

// By hand: a derived one is proved part by part wherever one is dropped (docs/GATE.md).
impl Drop for SavedObject {
    fn drop(self) {
        let SavedObject {
            object: _,
            configured: _,
            slots: _,
        } = self;
    }
}

impl Model for SavedObject {
    ghost use Rattle.gw_state.specs.Saved.{SavedObject};
    ghost use Rattle.gw_codecs.specs.tags.Object.{object_view};

    ghost Value = { SavedObject };

    ghost view = { λ o. record {
      object = object_view o.object;
      configured = o.configured;
      slots = o.slots;
    } };
}

impl SavedObject {
    /// An object of this identifier, with the default that was configured, and its slots with the default
    /// that it had.
    pub fn new(
        object: ObjectId,
        configured: PropertyValue,
        slots: PriorityArray<PropertyValue>,
    ) -> Self
        ensures object { result.object ≡ object_view object }
        ensures configured { result.configured ≡ configured }
        ensures slots { result.slots ≡ slots }
    {
        SavedObject {
            object,
            configured,
            slots,
        }
    }

    /// Its identifier.
    pub fn object(&self) -> ObjectId
        ensures { object_view result ≡ self.now.object }
    {
        self.object
    }

    /// The default that was configured.
    pub fn configured(&self) -> &PropertyValue
        ensures { result.now ≡ self.now.configured }
    {
        &self.configured
    }

    /// Its slots, and the default that it had.
    pub fn slots(&self) -> &PriorityArray<PropertyValue>
        ensures { result.now ≡ self.now.slots }
    {
        &self.slots
    }
}
