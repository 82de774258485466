//! Reports of how often the state couldn't be kept, how often the configuration was read again, and what else wasn't done.

ghost use Rattle.std.specs.Prelude.{◌≡◌, IsOk, OnOk, true};
ghost use Rattle.std.specs.Io.KnownBytes.{Appends};
ghost use Rattle.gw_notices.specs.Stats.{lost_metrics_text, put_off_text, reloads_text, unkept_text};

use crate::reload::ReloadCounts;
use gw_script::{OctetSink, WriteFailed, write_count, write_count_line};

/// Writes how often the state couldn't be kept, if it is.
pub fn write_unkept<E: OctetSink>(
    is_kept: bool,
    unkept: u64,
    errors: &mut E,
) -> Result<(), WriteFailed>
    ensures ok { OnOk result (Appends (E.held errors.old) (E.held errors.new) (unkept_text is_kept unkept)) }
    ensures sure { E.NeverFails errors.old → IsOk result }
    ensures lasts { E.NeverFails errors.old → E.NeverFails errors.new }
{
    if is_kept {
        write_count_line(errors, "stats unkept=", u128::from(unkept))
    } else {
        Ok(())
    }
}

/// Writes how often a configuration was taken over and refused, and since when the one in force is.
fn write_reloads_line<E: OctetSink>(counts: ReloadCounts, errors: &mut E) -> Result<(), WriteFailed>
    ensures ok { OnOk result (Appends (E.held errors.old) (E.held errors.new) (reloads_text true counts)) }
    ensures sure { E.NeverFails errors.old → IsOk result }
    ensures lasts { E.NeverFails errors.old → E.NeverFails errors.new }
{
    write_count(errors, "stats reloads=", u128::from(counts.taken_over))?;
    write_count(errors, " refused=", u128::from(counts.refused))?;
    write_count_line(errors, " since=", u128::from(counts.since))
}

/// Writes how often the configuration was read again, if it is.
pub fn write_reloads<E: OctetSink>(
    is_read: bool,
    counts: ReloadCounts,
    errors: &mut E,
) -> Result<(), WriteFailed>
    ensures ok { OnOk result (Appends (E.held errors.old) (E.held errors.new) (reloads_text is_read counts)) }
    ensures sure { E.NeverFails errors.old → IsOk result }
    ensures lasts { E.NeverFails errors.old → E.NeverFails errors.new }
{
    if is_read {
        write_reloads_line(counts, errors)
    } else {
        Ok(())
    }
}

/// Writes how many texts of metrics were lost, if metrics are written.
pub fn write_lost_metrics<E: OctetSink>(
    lost: Option<u64>,
    errors: &mut E,
) -> Result<(), WriteFailed>
    ensures ok { OnOk result (Appends (E.held errors.old) (E.held errors.new) (lost_metrics_text lost)) }
    ensures sure { E.NeverFails errors.old → IsOk result }
    ensures lasts { E.NeverFails errors.old → E.NeverFails errors.new }
{
    match lost {
        Some(lost) => write_count_line(errors, "stats lost_metrics=", u128::from(lost)),
        None => Ok(()),
    }
}

/// Writes how often an announcement that was due wasn't tried, if one wasn't.
pub fn write_put_off<E: OctetSink>(put_off: u128, errors: &mut E) -> Result<(), WriteFailed>
    ensures ok { OnOk result (Appends (E.held errors.old) (E.held errors.new) (put_off_text put_off)) }
    ensures sure { E.NeverFails errors.old → IsOk result }
    ensures lasts { E.NeverFails errors.old → E.NeverFails errors.new }
{
    if put_off != 0 {
        write_count_line(errors, "stats announcements_put_off=", put_off)
    } else {
        Ok(())
    }
}
