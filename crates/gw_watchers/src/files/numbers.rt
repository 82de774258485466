//! The number from which a log goes on.

ghost use Rattle.std.specs.Prelude.{option_map};
ghost use Rattle.gw_watchers.specs.files.Numbers.{IsNumberAfter, IsNumberOf};

use gw_audit::read_line;

/// The number that a line of a log shows, or 0 if it shows none.
fn number_of(line: &[u8]) -> u64
    ensures { IsNumberOf line.now result }
{
    match read_line(line) {
        Some(shown) => shown.number,
        None => 0,
    }
}

/// The number from which a log goes on: that of its last denial, whose line this is, or 0 if it shows none.
pub(crate) fn number_after(line: &Option<Vec<u8>>) -> u64
    ensures { IsNumberAfter (option_map (λ l. l.items) line.now) result }
{
    match line {
        Some(line) => number_of(line),
        None => 0,
    }
}
