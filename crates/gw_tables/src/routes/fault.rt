//! Why a route isn't learned.
ghost use Rattle.std.specs.Prelude.{◌≡◌};
ghost use Rattle.gw_tables.specs.declared.routes.fault.LearnFault.TheVariants.{Memory};

use std::alloc::AllocFailed;
use thiserror::Error;

/// Why a route isn't learned.
#[derive(Clone, Copy, Debug, Error)]
pub enum LearnFault {
    /// 1: 512 other networks are held.
    #[error("512 other networks have a route")]
    Full,
    /// 2: the network is one of the gateway's own, or has a configured route.
    #[error("the network's way is fixed")]
    Fixed,
    /// 3: there is no memory for one more route.
    #[error("out of memory")]
    Memory,
}

impl<T: Drop> From<AllocFailed<T>> for LearnFault {
    ghost from_gives = { λ _ fault. fault ≡ Memory };

    fn from(_error: AllocFailed<T>) -> Self {
        LearnFault::Memory
    }
}
