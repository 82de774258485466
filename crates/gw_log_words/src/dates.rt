//! Days and times of day as RFC 3339 writes them, by the calendar.

ghost use Rattle.gw_log_words.specs.internal.Written.{IsClock, IsDay};

use jiff_core::civil;
use toml_datetime::{Date, Time};

/// The day that a date writes. `None` where the calendar lacks it.
pub(crate) fn civil_date(date: Date) -> Option<civil::Date>
    ensures { IsDay date result }
{
    let year = i16::try_from(date.year).ok()?;
    let month = i8::try_from(date.month).ok()?;
    let day = i8::try_from(date.day).ok()?;
    match civil::Date::new(year, month, day) {
        Ok(date) => Some(date),
        Err(_) => None,
    }
}

/// The time of day that is written with its second. `None` where no clock shows it.
pub(crate) fn civil_time(time: Time) -> Option<civil::Time>
    ensures { IsClock time result }
{
    let hour = i8::try_from(time.hour).ok()?;
    let minute = i8::try_from(time.minute).ok()?;
    let second = i8::try_from(time.second?).ok()?;
    let nanosecond = i32::try_from(time.nanosecond.unwrap_or(0)).ok()?;
    match civil::Time::new(hour, minute, second, nanosecond) {
        Ok(time) => Some(time),
        Err(_) => None,
    }
}
