//! Why a configuration that was read again isn't taken over, how often one was read again, and which text the one in force has.

ghost use Rattle.std.specs.Prelude.{◌≡◌};
ghost use Rattle.gw_decisions.specs.tally.Tally.{one_more};
ghost use Rattle.gw_notices.specs.Reload.{counts_since, with_refused, with_taken_over};

use crate::checksum::Checksum;
use gw_configuration::ConfigFault;
use gw_system::{Obstacle, ReadFailure};
use std::alloc::AllocError;

/// Why a configuration that was read again isn't taken over. The gateway then goes on as it is.
#[derive(Clone, Copy)]
pub enum ReloadFault {
    /// 1: its file can't be read, and why.
    Unreadable(Obstacle),
    /// 2: what the file says is none, and why.
    Configuration(ConfigFault),
    /// 3: its ports aren't those that are served: in this order, with these networks, own and broadcast addresses.
    Ports,
    /// 4: a growth was refused.
    Memory,
}

impl From<ConfigFault> for ReloadFault {
    ghost use Rattle.std.specs.Prelude.{◌≡◌};
    ghost use Rattle.gw_notices.specs.Reload.{fault_of_configuration};

    ghost from_gives = { λ config fault. fault ≡ fault_of_configuration config };

    fn from(fault: ConfigFault) -> ReloadFault {
        match fault {
            ConfigFault::Memory => ReloadFault::Memory,
            _ => ReloadFault::Configuration(fault),
        }
    }
}

impl From<ReadFailure> for ReloadFault {
    ghost use Rattle.std.specs.Prelude.{◌≡◌};
    ghost use Rattle.gw_notices.specs.Reload.{fault_of_reading};

    ghost from_gives = { λ reading fault. fault ≡ fault_of_reading reading };

    fn from(failure: ReadFailure) -> ReloadFault {
        match failure {
            ReadFailure::Unreadable(why) => ReloadFault::Unreadable(why),
            ReadFailure::Memory => ReloadFault::Memory,
        }
    }
}

impl From<AllocError> for ReloadFault {
    ghost use Rattle.std.specs.Prelude.{◌≡◌};
    ghost use Rattle.gw_notices.specs.declared.reload.ReloadFault.TheVariants.{Memory};

    ghost from_gives = { λ _ fault. fault ≡ Memory };

    fn from(_refused: AllocError) -> ReloadFault {
        ReloadFault::Memory
    }
}

/// How often a configuration was read again, and which text the one in force has.
#[derive(Clone, Copy)]
pub struct ReloadCounts {
    /// How many were taken over.
    pub taken_over: u64,
    /// How many were refused.
    pub refused: u64,
    /// The tick since which the one in force is.
    pub since: u64,
    /// The checksum of its text.
    pub checksum: Checksum,
}

/// A count and one more, unless it would pass its end.
fn one_more(count: u64) -> u64
    ensures { result ≡ one_more count }
{
    count.saturating_add(1)
}

impl ReloadCounts {
    /// None was read again since the one in force, of whose text this is the checksum, began at this tick.
    pub fn since(tick: u64, checksum: Checksum) -> Self
        ensures { result ≡ counts_since tick checksum }
    {
        ReloadCounts {
            taken_over: 0,
            refused: 0,
            since: tick,
            checksum,
        }
    }

    /// One more was taken over, at this tick, of whose text this is the checksum.
    pub fn with_taken_over(self, tick: u64, checksum: Checksum) -> Self
        ensures { result ≡ with_taken_over self tick checksum }
    {
        ReloadCounts {
            taken_over: one_more(self.taken_over),
            refused: self.refused,
            since: tick,
            checksum,
        }
    }

    /// One more was refused.
    pub fn with_refused(self) -> Self
        ensures { result ≡ with_refused self }
    {
        ReloadCounts {
            taken_over: self.taken_over,
            refused: one_more(self.refused),
            since: self.since,
            checksum: self.checksum,
        }
    }
}
