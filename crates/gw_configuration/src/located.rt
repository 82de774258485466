//! Where a fault of a configuration is.
ghost use Rattle.std.specs.Prelude.{◌≡◌, option_map};
ghost use Rattle.gw_configuration.specs.Located.{at_key, located_view, of_text};
ghost use Rattle.gw_configuration.specs.declared.fault.ConfigFault.TheVariants.{Memory};

use crate::{ConfigFault, Shape};
use std::alloc::{AllocError, AllocFailed};

/// A table of a configuration. Of several it is one by its position, from 0.
#[derive(Clone, Copy)]
pub enum Place {
    /// No table: the text as a whole.
    Text,
    /// The table that has the others.
    Top,
    /// The gateway's own device.
    Device,
    /// A port.
    Port(usize),
    /// A peer of a port.
    Peer { port: usize, peer: usize },
    /// A route.
    Route(usize),
    /// An object.
    Object(usize),
    /// A set.
    Set(usize),
    /// A rule.
    Rule(usize),
    /// An assertion.
    Assertion(usize),
}

/// A fault with its place. `located_view` is what contracts see of it.
#[derive(Clone, Copy)]
pub struct Located<'a> {
    /// The fault.
    pub fault: ConfigFault,
    /// The table where it is.
    pub place: Place,
    /// The key there, empty where there is none.
    pub key: &'a str,
    /// Of a list the position of the item, from 0.
    pub item: Option<usize>,
    /// What the value at the key was to be.
    pub wanted: Option<Shape>,
}

impl<'a> Located<'a> {
    /// A fault of the text as a whole.
    pub fn of_text(fault: ConfigFault) -> Self
        ensures { located_view result ≡ of_text fault }
    {
        Located {
            fault,
            place: Place::Text,
            key: "",
            item: None,
            wanted: None,
        }
    }

    /// A fault of a table at this key, or at none.
    pub fn at_table(place: Place, fault: ConfigFault, key: Option<&'a str>) -> Self
        ensures { located_view result ≡ at_key place fault (option_map (λ k. k.now) key.entry) }
    {
        Located {
            fault,
            place,
            key: key.unwrap_or(""),
            item: None,
            wanted: None,
        }
    }
}

impl<'a> From<ConfigFault> for Located<'a> {
    ghost from_gives = { λ fault located. located_view located ≡ of_text fault };

    fn from(fault: ConfigFault) -> Self {
        Located::of_text(fault)
    }
}

impl<'a> From<AllocError> for Located<'a> {
    ghost from_gives = { λ _ located. located.fault ≡ Memory };

    fn from(_error: AllocError) -> Self {
        Located::of_text(ConfigFault::Memory)
    }
}

impl<'a, T: Drop> From<AllocFailed<T>> for Located<'a> {
    ghost from_gives = { λ _ located. located.fault ≡ Memory };

    fn from(_error: AllocFailed<T>) -> Self {
        Located::of_text(ConfigFault::Memory)
    }
}
