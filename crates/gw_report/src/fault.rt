//! Why there is no page.
ghost use Rattle.std.specs.Prelude.{◌≡◌};
ghost use Rattle.gw_report.specs.declared.fault.ReportFault.TheVariants.{Memory, Read};

use gw_script::ReadFailed;
use std::alloc::AllocError;
use thiserror::Error;

/// Why there is no page.
#[derive(Clone, Copy, Debug, Error)]
pub enum ReportFault {
    /// 1: a read of the log failed.
    #[error("read failed")]
    Read,
    /// 2: a growth of memory was refused.
    #[error("out of memory")]
    Memory,
}

impl From<AllocError> for ReportFault {
    ghost from_gives = { λ _ fault. fault ≡ Memory };

    fn from(_error: AllocError) -> Self {
        ReportFault::Memory
    }
}

impl From<ReadFailed> for ReportFault {
    ghost from_gives = { λ _ fault. fault ≡ Read };

    fn from(_error: ReadFailed) -> Self {
        ReportFault::Read
    }
}
