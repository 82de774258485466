//! The identifier of a configured object.
ghost use Rattle.std.specs.Prelude.{◌≡◌};
ghost use Rattle.gw_objects.specs.Objects.{details_of, type_of};
ghost use Rattle.gw_codecs.specs.tags.Object.{object_view};
ghost use Rattle.gw_state.specs.Saved.{id_of};

use gw_codecs::tags::ObjectId;
use gw_configuration::{Object, ObjectValue};
use gw_objects::ObjectType;

/// The identifier of a configured object.
pub fn id_of(object: &Object) -> ObjectId
    ensures { object_view result ≡ id_of object.now }
{
    ObjectId {
        kind: type_of(&object.value).number(),
        instance: object.instance.get(),
    }
}

/// The type of a value object.
fn type_of(value: &ObjectValue) -> ObjectType
    ensures { result ≡ type_of (details_of value.now) }
{
    match value {
        ObjectValue::BinaryValue { .. } => ObjectType::BinaryValue,
        ObjectValue::MultiStateValue(_) => ObjectType::MultiStateValue,
        ObjectValue::CharacterStringValue { .. } => ObjectType::CharacterStringValue,
        ObjectValue::IntegerValue { .. } => ObjectType::IntegerValue,
        ObjectValue::PositiveIntegerValue { .. } => ObjectType::PositiveIntegerValue,
    }
}
