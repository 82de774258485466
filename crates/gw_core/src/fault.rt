//! Why an event isn't taken.

ghost use Rattle.std.specs.Prelude.{◌≡◌};
ghost use Rattle.gw_core.specs.declared.fault.StepFault.TheVariants.{Memory};

use std::alloc::AllocError;
use thiserror::Error;

/// Why an event isn't taken. The gateway is then as it was.
#[derive(Clone, Copy, Debug, Error)]
pub enum StepFault {
    /// 1: a growth was refused.
    #[error("out of memory")]
    Memory,
    /// 2: the count of ticks or the number of the last denial would pass 2^63.
    #[error("count at its end")]
    CountEnd,
}

impl From<AllocError> for StepFault {
    ghost from_gives = { λ _ fault. fault ≡ Memory };

    fn from(_: AllocError) -> Self {
        StepFault::Memory
    }
}
