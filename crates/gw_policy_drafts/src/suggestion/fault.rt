//! Why no rules are suggested.
ghost use Rattle.std.specs.Prelude.{◌≡◌};
ghost use Rattle.gw_policy_drafts.specs.declared.suggestion.fault.SuggestFault.TheVariants.{Memory};

use gw_configuration::ConfigFault;
use std::alloc::{AllocError, AllocFailed};
use thiserror::Error;

/// Why no rules are suggested. With each but `Write` nothing is written.
#[derive(Clone, Copy, Debug, Error)]
pub enum SuggestFault {
    /// 1: the text of the configuration is none, and why.
    #[error("configuration: {0}")]
    Configuration(ConfigFault),
    /// 2: a read failed, or there were 4,294,967,295 reads.
    #[error("read failed")]
    Read,
    /// 3: the line of this number, from 1, has more than 4096 octets.
    #[error("line {0}")]
    Line(u64),
    /// 4: there are more than 16,384 different asks that the configuration denies.
    #[error("too many asks")]
    TooManyAsks,
    /// 5: there would be more rules, with those of the configuration, or more ranges in them, than a policy
    /// may have.
    #[error("too many rules")]
    TooManyRules,
    /// 6: the text of the rules, put in front of those of the configuration, isn't read as these rules.
    #[error("the rules can't be written")]
    Unlike,
    /// 7: a write failed, or took nothing.
    #[error("write failed")]
    Write,
    /// 8: a growth was refused.
    #[error("out of memory")]
    Memory,
}

impl From<AllocError> for SuggestFault {
    ghost from_gives = { λ _ fault. fault ≡ Memory };

    fn from(_error: AllocError) -> Self {
        SuggestFault::Memory
    }
}

impl<T: Drop> From<AllocFailed<T>> for SuggestFault {
    ghost from_gives = { λ _ fault. fault ≡ Memory };

    fn from(_error: AllocFailed<T>) -> Self {
        SuggestFault::Memory
    }
}
