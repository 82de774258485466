//! The names that a ReadPropertyMultiple has for sets of properties (clause 15.7.3.1.2).

ghost use Rattle.std.specs.Prelude.{◌≡◌};
ghost use Rattle.gw_device.specs.Services.{set_of};

use gw_objects::PropertySet;

/// The names of sets of properties (clause 15.7.3.1.2).
const ALL: u32 = 8;

const REQUIRED: u32 = 105;

const OPTIONAL: u32 = 80;

/// The set that a property of this number names.
pub(crate) fn set_of(property: u32) -> Option<PropertySet>
    ensures { result ≡ set_of property }
{
    match property {
        ALL => Some(PropertySet::All),
        REQUIRED => Some(PropertySet::Required),
        OPTIONAL => Some(PropertySet::Optional),
        _ => None,
    }
}
