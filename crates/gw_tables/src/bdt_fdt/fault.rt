//! Why entries or devices are no table, and why a registration isn't granted or deleted.
use thiserror::Error;

/// Why entries are no broadcast distribution table.
#[derive(Clone, Copy, Debug, Error)]
pub enum BdtFault {
    /// 1: there are more than 64 (a limit of our own).
    #[error("a broadcast distribution table has at most 64 entries")]
    Full,
    /// 2: an address is in two of them (our own rule).
    #[error("an address has two entries")]
    Duplicate,
    /// 3: there is no memory for them.
    #[error("out of memory")]
    Memory,
}

/// Why a foreign device isn't registered.
#[derive(Clone, Copy, Debug, Error)]
pub enum RegisterFault {
    /// 1: 128 other foreign devices are registered (a limit of our own).
    #[error("128 other foreign devices are registered")]
    Full,
    /// 3: there is no memory for the registration.
    #[error("out of memory")]
    Memory,
}

/// Why a foreign device isn't deleted.
#[derive(Clone, Copy, Debug, Error)]
pub enum DeleteFault {
    /// 2: it isn't registered.
    #[error("the foreign device is not registered")]
    Absent,
}

/// Why foreign devices that were kept can't be those of a table.
#[derive(Clone, Copy, Debug, Error)]
pub enum KeptFault {
    /// 1: there are more than 128 (a limit of our own).
    #[error("at most 128 foreign devices are registered")]
    TooMany,
    /// 2: a device has no tick to come, or more than its time to live and the grace.
    #[error("a foreign device has no tick to come, or more than it was granted")]
    Left,
    /// 3: two devices have one address.
    #[error("an address has two registrations")]
    Twice,
}
