//! What the commands take of the machine.

ghost use Rattle.std.specs.Prelude.{ℕ, List, IfOk, IfSome};

use gw_log_words::Calendar;
use gw_system::{Host, ReadFailure};
use gw_wire::StoreFault;
use std::alloc::Global;

/// What the commands take of the machine: requests to a running gateway, their answers, and the time of day.
pub trait Machine {
    /// A request that was made.
    type Asked: Drop;

    /// What gives the time of day.
    type Calendar: Calendar + Drop;

    /// What asking by the file of a name, with a text, may give.
    ghost Asks: { Self → List ℕ → List ℕ → Self.Asked → Type 0 };

    /// What may be answered to a request.
    ghost Answers: { Self.Asked → List ℕ → Type 0 };

    /// Makes the request of this text by the file of this name, after an older answer was taken away.
    fn make_request(
        &self,
        alloc: Global,
        name: &str,
        text: &[u8],
    ) -> Result<Self::Asked, StoreFault>
        ensures { IfOk result (Asks self.now name.now text.now) };

    /// Waits at most so many seconds for the answer to this request, gives its octets and takes its file away. `None`
    /// if none came; then the request is taken away. Faults: `Unreadable`, also if the system can't wait, and `Memory`.
    fn await_answer(
        &self,
        alloc: Global,
        asked: &Self::Asked,
        seconds: u8,
    ) -> Result<Option<Vec<u8>>, ReadFailure>
        ensures { IfOk result (λ found. IfSome found (λ answer. Answers asked.now answer.items)) };

    /// What gives the time of day.
    fn calendar(&self) -> Self::Calendar;
}

/// What the commands take of a host of the gateway.
#[derive(Drop)]
pub struct HostMachine<'a, H> {
    /// The host.
    pub host: &'a H,
}

impl<H: Host> Machine for HostMachine<'_, H> {
    type Asked = H::Asked;

    type Calendar = H::Calendar;

    ghost Asks = { λ machine. H.Asks machine.host.now };

    ghost Answers = { H.Answers };

    fn make_request(&self, alloc: Global, name: &str, text: &[u8]) -> Result<H::Asked, StoreFault> {
        self.host.make_request(alloc, name, text)
    }

    fn await_answer(
        &self,
        alloc: Global,
        asked: &H::Asked,
        seconds: u8,
    ) -> Result<Option<Vec<u8>>, ReadFailure> {
        self.host.await_answer(alloc, asked, seconds)
    }

    fn calendar(&self) -> H::Calendar {
        self.host.calendar()
    }
}
