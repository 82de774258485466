//! What is so of each configuration that is accepted.
ghost use Rattle.std.specs.List.{AllByRecursion};
ghost use Rattle.gw_state_laws.specs.continuity.StateOf.{IsAccepted, IsDefaultInRange};

use gw_configuration::{Config, Object, ObjectValue};

/// Nothing appears twice that may appear only once, routes are at most 512, and each default is in the range of its
/// object.
pub(crate) fn accepted(config: &Config)
    ensures { IsAccepted config.now }
{
    let _ports = config.ports();
    let _routes = config.routes();
    defaults_fit(config.objects());
}

/// Each default is in the range of its object.
fn defaults_fit(objects: &[Object])
    ensures { AllByRecursion IsDefaultInRange objects.now }
{
    for object in objects {
        default_fits(object);
    }
}

/// A default is in the range of its object.
fn default_fits(object: &Object)
    ensures { IsDefaultInRange object.now }
{
    if let ObjectValue::MultiStateValue(value) = &object.value {
        let _default = value.default();
    }
}
