//! The time of day.

ghost use Rattle.std.specs.Prelude.{⊤};

use gw_log_words::{Calendar, Moment, moment_after};

/// A clock that always shows the first second of 1970.
#[derive(Drop)]
pub struct MemCalendar;

impl Calendar for MemCalendar {
    ghost Shows = { λ _ _. ⊤ };

    fn moment(&mut self) -> Option<Moment> {
        moment_after(1)
    }
}
