//! The indexes of all fields.
ghost use Rattle.std.specs.Prelude.{◌≡◌, filter};
ghost use Rattle.gw_rules.specs.Fields.{value_of};
ghost use Rattle.gw_rules.specs.declared.field.TheConstants.FieldName.{ALL};
ghost use Rattle.gw_rule_index.specs.internal.Field.{has_bounds};

use crate::field_index::FieldIndex;
use gw_rules::{FieldName, Fields};

/// The index of each field, and the fields that have a bound, in the order of their numbers: those that
/// some rule names.
pub(crate) struct FieldIndexes {
    pub(crate) each: Fields<FieldIndex>,
    pub(crate) named: Vec<FieldName>,
    ghost in_order: { named.items ≡ filter (λ field. has_bounds (value_of field each)) ALL },
}

// By hand: a derived one is proved part by part wherever one is dropped (docs/GATE.md).
impl Drop for FieldIndexes {
    fn drop(self) {
        let FieldIndexes { each: _, named: _ } = self;
    }
}
