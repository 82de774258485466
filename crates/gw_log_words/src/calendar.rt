//! What gives the time of day.

ghost use Rattle.std.specs.Prelude.{◌≡◌, ◌*◌, ℕ, Option, IfSome, ⊤};
ghost use Rattle.gw_log_words.specs.declared.moment.Moment.{Moment};
ghost use Rattle.gw_log_words.specs.Stamped.{IsSecondsLater};

use crate::moment::Moment;
use jiff_core::civil::DateTime;
use std::time::Clock;
use toml_datetime::Offset;

/// How many nanoseconds a second has.
const SECOND: i128 = 1_000_000_000;

/// What gives the time of day.
pub trait Calendar {
    /// What it may show when it was asked last.
    ghost Shows: { Self → Option Moment → Type 0 };

    /// The moment at which it is asked. `None` if that isn't known.
    fn moment(&mut self) -> Option<Moment>
        ensures { Shows self.new result };
}

/// The clock of the system, by UTC, to the second.
#[derive(Drop)]
pub struct SystemCalendar<'a, R> {
    /// By what it is read.
    pub rt: &'a R,
}

impl<R: Clock> Calendar for SystemCalendar<'_, R> {
    ghost Shows = { λ _ _. ⊤ };

    fn moment(&mut self) -> Option<Moment> {
        match self.rt.since_1970() {
            Ok(time) => moment_after(time.as_secs()),
            Err(_) => None,
        }
    }
}

/// The moment so many seconds after 1970-01-01T00:00:00Z. `None` if that is past the year 9999.
pub fn moment_after(seconds: u64) -> Option<Moment>
    ensures { IfSome result (IsSecondsLater seconds) }
{
    let local = match DateTime::from_nanosecond(i128::from(seconds) * SECOND) {
        Ok(local) => local,
        Err(_) => return None,
    };
    if local.date.year < 0 {
        return None;
    }
    Some(Moment {
        local,
        offset: Offset::Z,
    })
}
