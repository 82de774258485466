//! Why a configuration isn't written in format 3.
ghost use Rattle.std.specs.Prelude.{◌≡◌};
ghost use Rattle.gw_policy_drafts.specs.declared.migration.fault.MigrationFault.TheVariants.{Memory};

use std::alloc::AllocError;
use thiserror::Error;

/// Why a configuration isn't written in format 3.
#[derive(Clone, Copy, Debug, Error)]
pub enum MigrationFault {
    /// It is of format 3.
    #[error("Already")]
    Already,
    /// What was written isn't read as the same configuration: its text would be over 1,048,576 octets, or
    /// a rule has a range that no text says.
    #[error("Unlike")]
    Unlike,
    /// There is no memory for the text.
    #[error("Memory")]
    Memory,
}

impl From<AllocError> for MigrationFault {
    ghost from_gives = { λ _ fault. fault ≡ Memory };

    fn from(_error: AllocError) -> Self {
        MigrationFault::Memory
    }
}
