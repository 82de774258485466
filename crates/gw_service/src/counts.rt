//! The counts from which a gateway goes on.

ghost use Rattle.std.specs.Prelude.{◌≡◌, ◌≤◌, ◌^◌, option_map};
ghost use Rattle.gw_service.specs.Counts.{GoesOnAfter, GoesOnFrom, IsNumbered, IsNumberedAfter, counts_with, number_after, number_by};

use gw_audit::read_line;
use gw_core::Counts;
use gw_state::Saved;
use gw_turns::MOST_AHEAD;

/// Where each count of a gateway ends.
pub(crate) const LAST_COUNT: u64 = 1 << 63;

/// The number of the last denial by that of the state and that which the log shows: the latter, unless that of the state is more than
/// 1,000 ahead.
fn number_by(kept: u64, shown: u64) -> u64
    requires kept { kept ≤ 2 ^ 63 }
    requires shown { shown ≤ 2 ^ 63 }
    ensures is { result ≡ number_by kept shown }
    ensures most { result ≤ 2 ^ 63 }
{
    if kept <= shown + MOST_AHEAD {
        shown
    } else {
        kept
    }
}

/// The same, where the log may show a number past the end.
fn number_after(kept: u64, shown: u64) -> u64
    requires { kept ≤ 2 ^ 63 }
    ensures is { result ≡ number_after kept shown }
    ensures most { result ≤ 2 ^ 63 }
{
    number_by(kept, shown.min(LAST_COUNT))
}

/// What was saved, with the number that goes on after the line of a denial.
fn numbered_after(saved: Saved, line: &[u8]) -> Saved
    ensures { IsNumberedAfter saved line.now result }
{
    match read_line(line) {
        Some(shown) => {
            let number = number_after(saved.counts().denials, shown.number);
            saved.with_denials(number)
        }
        None => saved,
    }
}

/// What was saved, with the number that goes on after the line of its log's last denial, if one is shown.
pub(crate) fn numbered(saved: Option<Saved>, line: &Option<Vec<u8>>) -> Option<Saved>
    ensures { IsNumbered saved (option_map (λ line. line.items) line.now) result }
{
    let Some(saved) = saved else {
        return None;
    };
    match line {
        Some(line) => Some(numbered_after(saved, line)),
        None => Some(saved),
    }
}

/// The counts after a denial of this tick and number.
fn counts_with(counts: Counts, tick: u64, number: u64) -> Counts
    ensures { result ≡ counts_with counts tick number }
{
    Counts {
        ticks: counts.ticks.max(tick.min(LAST_COUNT)),
        denials: counts.denials.max(number.min(LAST_COUNT)),
    }
}

/// The counts after the line of a denial: the greater ones.
fn after_line(counts: Counts, line: &[u8]) -> Counts
    ensures { GoesOnAfter counts line.now result }
{
    match read_line(line) {
        Some(shown) => counts_with(counts, shown.tick, shown.number),
        None => counts,
    }
}

/// The counts from which a gateway goes on after the line of its log's last denial, if one is shown: no number of a denial that is
/// shown there or was counted is used again.
pub(crate) fn go_on_from(counts: Counts, line: &Option<Vec<u8>>) -> Counts
    requires ticks { counts.ticks ≤ 2 ^ 63 }
    requires denials { counts.denials ≤ 2 ^ 63 }
    ensures from { GoesOnFrom counts (option_map (λ line. line.items) line.now) result }
    ensures least_ticks { counts.ticks ≤ result.ticks }
    ensures least_denials { counts.denials ≤ result.denials }
    ensures ticks { result.ticks ≤ 2 ^ 63 }
    ensures denials { result.denials ≤ 2 ^ 63 }
{
    match line {
        Some(line) => after_line(counts, line),
        None => counts,
    }
}
