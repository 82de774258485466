//! The clock of the system.

ghost use Rattle.std.specs.Prelude.{◌≡◌};

use gw_wire::Timepiece;
use std::io;
use std::time::{Clock, Duration};

/// How many milliseconds are let pass after the clock couldn't be read, or a wait failed: whoever asks again and again doesn't keep a
/// processor busy.
pub(crate) const FAILED_PAUSE: u64 = 100;

/// Lets that time pass if a call failed, and gives what came of it.
pub(crate) fn slowed<T, R: Clock>(rt: &R, outcome: io::Result<T>) -> io::Result<T>
    ensures { result ≡ outcome }
{
    if outcome.is_err() {
        rt.sleep(Duration::from_millis(FAILED_PAUSE));
    }
    outcome
}

/// The clock of the system, which never goes back. A read that fails takes a tenth of a second.
#[derive(Drop)]
pub struct SystemClock<'a, R> {
    /// By what it is read.
    pub rt: &'a R,
}

impl<R: Clock> Timepiece for SystemClock<'_, R> {
    ghost use Rattle.std.specs.Prelude.{⊤};

    ghost Shows = { λ _ _. ⊤ };

    fn elapsed(&mut self) -> io::Result<Duration> {
        slowed(self.rt, self.rt.monotonic())
    }
}
