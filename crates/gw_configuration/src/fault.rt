//! Why a text is no configuration.
ghost use Rattle.std.specs.Prelude.{◌≡◌};
ghost use Rattle.gw_configuration.specs.declared.fault.ConfigFault.TheVariants.{Memory};
ghost use Rattle.gw_configuration.specs.Reading.{fault_of};

use gw_rules::RuleFault;
use std::alloc::{AllocError, AllocFailed};
use thiserror::Error;

/// Why a text is no configuration. If it has several faults, the first is reported that is met on
/// the way from table to table; of those of one table, the one with the lowest number.
#[derive(Clone, Copy, Debug, Error, PartialEq, Eq)]
pub enum ConfigFault {
    /// 1: it isn't UTF-8, or no TOML document.
    #[error("the text is no TOML document")]
    NotToml,
    /// 2: a table has a key that isn't one of its own.
    #[error("a table has an unknown key")]
    UnknownKey,
    /// 3: a table lacks a key.
    #[error("a table lacks a key")]
    Missing,
    /// 4: a value isn't of the kind that its key wants, as a text where a number is due.
    #[error("a value is of the wrong kind")]
    Kind,
    /// 5: a value is out of its range, or a text isn't of its shape.
    #[error("a value is out of range")]
    Range,
    /// 6: two parts have the same name, number or address.
    #[error("a name, number or address appears twice")]
    Duplicate,
    /// 7: a list is too long, or the text has more than 1,048,576 octets.
    #[error("too many")]
    TooMany,
    /// 8: there is no memory for it.
    #[error("out of memory")]
    Memory,
}

impl From<AllocError> for ConfigFault {
    ghost from_gives = { λ _ fault. fault ≡ Memory };

    fn from(_error: AllocError) -> Self {
        ConfigFault::Memory
    }
}

impl<T: Drop> From<AllocFailed<T>> for ConfigFault {
    ghost from_gives = { λ _ fault. fault ≡ Memory };

    fn from(_error: AllocFailed<T>) -> Self {
        ConfigFault::Memory
    }
}

impl From<RuleFault> for ConfigFault {
    ghost from_gives = { λ rule fault. fault ≡ fault_of rule };

    fn from(fault: RuleFault) -> Self {
        match fault {
            RuleFault::TooMany => ConfigFault::TooMany,
            RuleFault::Range => ConfigFault::Range,
            RuleFault::Memory => ConfigFault::Memory,
        }
    }
}
