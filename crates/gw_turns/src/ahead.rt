//! Which number of a denial a text has: one that no denial has yet, so that a gateway which goes on from it repeats none.

ghost use Rattle.std.specs.Prelude.{◌≡◌, ◌≤◌, ◌^◌};
ghost use Rattle.gw_turns.specs.Keeping.{far_ahead, is_ahead, number_for};

use gw_state::{MAX_COUNT, Saved};
use gw_wire::StoreFault;

/// How far the number of a text is ahead of that of the last denial once it is written anew.
pub const MOST_AHEAD: u64 = 1_000;

/// How far it is ahead at least; else it is written anew.
pub(crate) const LEAST_AHEAD: u64 = 500;

/// Whether a number is ahead of that of the last denial: none of the next 500 has a greater one, or there is no greater one.
pub(crate) fn is_ahead(number: u64, denials: u64) -> bool
    ensures { result ≡ is_ahead number denials }
{
    u128::from(denials) + u128::from(LEAST_AHEAD) <= u128::from(number) || number == MAX_COUNT
}

/// 1,000 more than the number of the last denial, as far as it is counted.
fn far_ahead(denials: u64) -> u64
    requires { denials ≤ 2 ^ 63 }
    ensures is { result ≡ far_ahead denials }
    ensures most { result ≤ 2 ^ 63 }
{
    if denials + MOST_AHEAD <= MAX_COUNT {
        denials + MOST_AHEAD
    } else {
        MAX_COUNT
    }
}

/// The number that a text has if it is written now: that of the text which is kept, while it is ahead.
pub(crate) fn number_for(kept: &Result<Saved, StoreFault>, denials: u64) -> u64
    requires { denials ≤ 2 ^ 63 }
    ensures is { result ≡ number_for kept.now denials }
    ensures most { result ≤ 2 ^ 63 }
{
    match kept {
        Ok(kept) => {
            let number = kept.counts().denials;
            if is_ahead(number, denials) {
                number
            } else {
                far_ahead(denials)
            }
        }
        Err(_) => far_ahead(denials),
    }
}
