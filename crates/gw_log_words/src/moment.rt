//! A moment by a clock, as RFC 3339 writes it: what the ticks of a log are written as.

ghost use Rattle.std.specs.Prelude.{◌≡◌, ◌*◌, pos, ◌≤ℤ◌};

use crate::dates::{civil_date, civil_time};
use jiff_core::civil;
use std::fmt;
use toml_datetime::{Date, Datetime, Offset, Time};

/// The nanoseconds of a tick.
const TICK: i128 = 1_000_000_000;

/// A moment by a clock whose offset from UTC is known, in a year from 0 to 9999.
#[derive(Clone, Copy)]
pub struct Moment {
    /// What the clock shows. There are no leap seconds.
    pub local: civil::DateTime,
    /// How far the clock is from UTC.
    pub offset: Offset,
    pub ghost year: { pos 0 ≤ℤ local.date.year },
}

impl Moment {
    ghost use Rattle.gw_log_words.specs.Moment.{ComesLater, IsRead, written};

    /// The moment that a text gives in the form of RFC 3339, as `2026-11-25T08:00:00+01:00`: a date, a
    /// time with its second, and an offset, which is `Z` or hours and minutes. A fraction of the second
    /// may follow it, of which nine digits count. Any other text gives none, and so does a
    /// leap second.
    pub fn parse(text: &str) -> Option<Moment>
        ensures { IsRead text.now result }
    {
        let Ok(read) = text.parse::<Datetime>() else {
            return None;
        };
        let (Some(date), Some(time), Some(offset)) = (read.date, read.time, read.offset) else {
            return None;
        };
        let local = civil::DateTime {
            date: civil_date(date)?,
            time: civil_time(time)?,
        };
        Some(Moment { local, offset })
    }

    /// The moment so many ticks later, of a second each, by the same clock. `None` where that is past
    /// the year 9999.
    pub fn later(self, ticks: u64) -> Option<Moment>
        ensures { ComesLater self ticks result }
    {
        match self.local.checked_add_nanos(nanoseconds_of(ticks)) {
            Ok(local) => Some(Moment {
                local,
                offset: self.offset,
            }),
            Err(_) => None,
        }
    }

    /// What RFC 3339 writes of the moment.
    fn written(self) -> Datetime
        ensures { result ≡ written self }
    {
        let date = self.local.date;
        let time = self.local.time;
        Datetime {
            date: Some(Date {
                year: date.year.unsigned_abs(),
                month: date.month,
                day: date.day,
            }),
            time: Some(Time {
                hour: time.hour,
                minute: time.minute,
                second: Some(time.second),
                nanosecond: (time.subsec_nanosecond > 0).then_some(time.subsec_nanosecond),
            }),
            offset: Some(self.offset),
        }
    }
}

impl fmt::Display for Moment {
    ghost use Rattle.std.specs.Prelude.{Some};
    ghost use Rattle.gw_log_words.specs.Moment.{moment_text};

    ghost output = { λ m. Some (moment_text m) };

    fn fmt<W: fmt::Write>(&self, f: &mut fmt::Formatter<W>) -> fmt::Result {
        write!(f, "{}", self.written())
    }
}

/// How many nanoseconds so many ticks have.
fn nanoseconds_of(ticks: u64) -> i128
    ensures { result ≡ pos (ticks * 1000000000) }
{
    i128::from(ticks) * TICK
}
