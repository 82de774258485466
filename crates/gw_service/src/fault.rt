//! Why serving doesn't begin, or ends.

use gw_state_text::StateFault;
use gw_system::{LogFailure, Obstacle, OpenFailure, SocketFailure};
use gw_turns::ServeFault;
use gw_watchers::files::{TrialFault, WatchFault};
use gw_wire::StoreFault;
use std::alloc::AllocError;

/// Why a configuration isn't served, or not to the end.
#[derive(Clone, Copy)]
pub enum ServiceFault {
    /// 1: the log can't be opened, or a write to it failed; or it can't be read, if a state is kept.
    Log,
    /// 2: a socket of the port of this number can't be opened; with 1 also what waits, or the clock.
    Socket(u8),
    /// 3: a growth was refused.
    Memory,
    /// 4: the count of ticks or the number of the last denial is at its end.
    CountEnd,
    /// 5: the file of the state is there and can't be read, or is none that a state can be in, and why.
    StateUnreadable(Obstacle),
    /// 6: what the file of the state says is none, at this line, and why.
    State(StateFault),
    /// 7: the place of the state can't be opened, and why.
    Store(StoreFault),
    /// 8: the policy that is to be on trial isn't, and why.
    Trial(TrialFault),
    /// 9: the audit can't be opened or read.
    Audit,
    /// 10: the place of the metrics can't be opened, and why.
    Metrics(StoreFault),
}

impl From<WatchFault> for ServiceFault {
    ghost use Rattle.std.specs.Prelude.{◌≡◌};
    ghost use Rattle.gw_service.specs.Watch.{fault_of_watching};

    ghost from_gives = { λ watching fault. fault ≡ fault_of_watching watching };

    fn from(watching: WatchFault) -> ServiceFault {
        match watching {
            WatchFault::Trial(fault) => ServiceFault::Trial(fault),
            WatchFault::Audit => ServiceFault::Audit,
            WatchFault::Memory => ServiceFault::Memory,
        }
    }
}

impl From<ServeFault> for ServiceFault {
    ghost use Rattle.std.specs.Prelude.{◌≡◌};
    ghost use Rattle.gw_service.specs.Fault.{fault_of_serving};

    ghost from_gives = { λ serving fault. fault ≡ fault_of_serving serving };

    fn from(serving: ServeFault) -> ServiceFault {
        match serving {
            ServeFault::Log => ServiceFault::Log,
            ServeFault::Memory => ServiceFault::Memory,
            ServeFault::CountEnd => ServiceFault::CountEnd,
        }
    }
}

impl From<OpenFailure> for ServiceFault {
    ghost use Rattle.std.specs.Prelude.{◌≡◌};
    ghost use Rattle.gw_service.specs.Fault.{fault_of_opening};

    ghost from_gives = { λ failure fault. fault ≡ fault_of_opening failure };

    fn from(failure: OpenFailure) -> ServiceFault {
        match failure {
            OpenFailure::Log(LogFailure::Failed) => ServiceFault::Log,
            OpenFailure::Log(LogFailure::Memory) => ServiceFault::Memory,
            OpenFailure::Sockets(SocketFailure::Failed(failed)) => {
                ServiceFault::Socket(failed.port)
            }
            OpenFailure::Sockets(SocketFailure::Memory) => ServiceFault::Memory,
        }
    }
}

impl From<AllocError> for ServiceFault {
    ghost use Rattle.std.specs.Prelude.{◌≡◌};
    ghost use Rattle.gw_service.specs.declared.fault.ServiceFault.TheVariants.{Memory};

    ghost from_gives = { λ _ fault. fault ≡ Memory };

    fn from(_refused: AllocError) -> ServiceFault {
        ServiceFault::Memory
    }
}
