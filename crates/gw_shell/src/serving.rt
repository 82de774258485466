//! Why a configuration isn't served, or not to the end, as the program reports it.

ghost use Rattle.std.specs.Prelude.{◌≡◌};
ghost use Rattle.gw_shell.specs.Serving.{fault_of_service};

use gw_ending::Fault;
use gw_service::ServiceFault;

/// The fault of the program by that of `run`.
pub fn fault_of_service(fault: ServiceFault) -> Fault
    ensures { result ≡ fault_of_service fault }
{
    match fault {
        ServiceFault::Log => Fault::Log,
        ServiceFault::Socket(port) => Fault::Socket(port),
        ServiceFault::Memory => Fault::Memory,
        ServiceFault::CountEnd => Fault::CountEnd,
        ServiceFault::StateUnreadable(why) => Fault::StateUnreadable(why),
        ServiceFault::State(state) => Fault::from(state),
        ServiceFault::Store(store) => Fault::of_store(store),
        ServiceFault::Trial(trial) => Fault::Trial(trial),
        ServiceFault::Audit => Fault::Audit,
        ServiceFault::Metrics(store) => Fault::of_metrics(store),
    }
}
