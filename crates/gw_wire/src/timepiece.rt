//! What gives the time.

ghost use Rattle.std.specs.Prelude.{ℕ, IfOk};
ghost use Rattle.std.specs.Duration.{as_nanos};

use std::io;
use std::time::Duration;

/// What gives the time.
pub trait Timepiece {
    /// What it may have given when it was last asked, in nanoseconds since a start of its own.
    ghost Shows: { Self → ℕ → Type 0 };

    /// How long it is since a start of its own. An `Err` where the time isn't known.
    fn elapsed(&mut self) -> io::Result<Duration>
        ensures { IfOk result (λ elapsed. Shows self.new (as_nanos elapsed)) };
}
