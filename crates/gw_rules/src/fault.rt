//! Why a rule list isn't made.
ghost use Rattle.std.specs.Prelude.{◌≡◌};
ghost use Rattle.gw_rules.specs.declared.fault.RuleFault.TheVariants.{Memory};

use std::alloc::{AllocError, AllocFailed};
use thiserror::Error;

/// Why a rule or a rule list isn't made.
#[derive(Clone, Copy, Debug, Error)]
pub enum RuleFault {
    /// 1: there are more than 512 rules, or one has too many ranges for a field, or all together have.
    #[error("too many rules or ranges")]
    TooMany,
    /// 2: the low end of a range is above its high end, or a text is no rule's name.
    #[error("a range's low end is above its high end, or a name is none")]
    Range,
    /// 3: there is no memory for a rule's name or ranges.
    #[error("out of memory")]
    Memory,
}

impl From<AllocError> for RuleFault {
    ghost from_gives = { λ _ fault. fault ≡ Memory };

    fn from(_error: AllocError) -> Self {
        RuleFault::Memory
    }
}

impl<T: Drop> From<AllocFailed<T>> for RuleFault {
    ghost from_gives = { λ _ fault. fault ≡ Memory };

    fn from(_error: AllocFailed<T>) -> Self {
        RuleFault::Memory
    }
}
