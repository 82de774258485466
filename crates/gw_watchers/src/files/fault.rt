//! Why a gateway can't be watched.

use gw_configuration::ConfigFault;
use gw_system::Obstacle;
use std::alloc::AllocError;

/// Why a policy isn't on trial.
#[derive(Clone, Copy)]
pub enum TrialFault {
    /// 1: its file can't be read, and why.
    Unreadable(Obstacle),
    /// 2: what the file says is no configuration, and why.
    Configuration(ConfigFault),
    /// 3: it is of another format than the configuration in force.
    Format,
    /// 4: its ports aren't those of the configuration in force: in this order, with these networks, own and broadcast
    /// addresses.
    Ports,
    /// 5: its log can't be opened or read.
    Log,
}

/// Why a gateway can't be watched.
#[derive(Clone, Copy)]
pub enum WatchFault {
    /// 1: the policy isn't on trial, and why.
    Trial(TrialFault),
    /// 2: the audit can't be opened or read.
    Audit,
    /// 3: a growth was refused.
    Memory,
}

impl From<AllocError> for WatchFault {
    ghost use Rattle.std.specs.Prelude.{◌≡◌};
    ghost use Rattle.gw_watchers.specs.declared.files.fault.WatchFault.TheVariants.{Memory};

    ghost from_gives = { λ _ fault. fault ≡ Memory };

    fn from(_refused: AllocError) -> WatchFault {
        WatchFault::Memory
    }
}
