//! The text of what an event does: a line for each denial and for each send, and then `end`.

ghost use Rattle.std.specs.Prelude.{◌≡◌, ◌+◌, ◌≤◌, ◌++◌, length, IsOk, OnOk, vec_len, vec_capacity};
ghost use Rattle.std.specs.List.{flat_map};
ghost use Rattle.gw_script.specs.Text.{end_line};
ghost use Rattle.gw_replay.specs.Shown.{batch_text, denial_line, denials_text, effects_text, sends_text};

use gw_addr::put_slice;
use gw_audit::{Denial, line};
use gw_core::Effects;
use gw_relay::{Batch, Sends};
use gw_script::{SpelledAddr, append_end, append_sends_to};
use std::alloc::AllocError;

/// Appends the lines of what one event does. Refused only if the buffer had no room for them. The text of an address
/// that is at hand is not made again.
#[inline(always)]
pub(crate) fn append_effects(
    out: &mut Vec<u8>,
    effects: &Effects,
    at_hand: &Option<SpelledAddr<'_>>,
) -> Result<(), AllocError>
    ensures ok { OnOk result (out.new.items ≡ out.old.items ++ effects_text effects.now) }
    ensures room { vec_len out.old + length (effects_text effects.now) ≤ vec_capacity out.old →
        IsOk result }
    ensures capacity { vec_capacity out.old ≤ vec_capacity out.new }
{
    append_denials(out, effects.denials.as_slice())?;
    append_sends(out, &effects.sends, at_hand)?;
    append_end(out)
}

/// Appends the lines of what is announced. Refused only if the buffer had no room for them.
pub(crate) fn append_announcements(out: &mut Vec<u8>, sends: &Sends) -> Result<(), AllocError>
    ensures ok { OnOk result (out.new.items ≡ out.old.items ++ sends_text sends.now ++ end_line) }
    ensures capacity { vec_capacity out.old ≤ vec_capacity out.new }
{
    append_sends(out, sends, &None)?;
    append_end(out)
}

/// Appends a line for each denial. Refused only where the buffer had no room for them.
fn append_denials(out: &mut Vec<u8>, denials: &[Denial]) -> Result<(), AllocError>
    ensures ok { OnOk result (out.new.items ≡ out.old.items ++ denials_text denials.now) }
    ensures room { vec_len out.old + length (denials_text denials.now) ≤ vec_capacity out.old →
        IsOk result }
    ensures capacity { vec_capacity out.old ≤ vec_capacity out.new }
{
    for denial in denials {
        append_denial(out, denial)?;
    }
    Ok(())
}

/// Appends the line of a denial, after `deny `. Refused only if the buffer had no room for it.
fn append_denial(out: &mut Vec<u8>, denial: &Denial) -> Result<(), AllocError>
    ensures ok { OnOk result (out.new.items ≡ out.old.items ++ denial_line denial.now) }
    ensures room { vec_len out.old + length (denial_line denial.now) ≤ vec_capacity out.old →
        IsOk result }
    ensures capacity { vec_capacity out.old ≤ vec_capacity out.new }
{
    put_slice(out, b"deny ")?;
    line(denial, out)
}

/// Appends a line for each datagram that is sent. Refused only where the buffer had no room for them.
fn append_sends(
    out: &mut Vec<u8>,
    sends: &Sends,
    at_hand: &Option<SpelledAddr<'_>>,
) -> Result<(), AllocError>
    ensures ok { OnOk result (out.new.items ≡ out.old.items ++ sends_text sends.now) }
    ensures room { vec_len out.old + length (sends_text sends.now) ≤ vec_capacity out.old →
        IsOk result }
    ensures capacity { vec_capacity out.old ≤ vec_capacity out.new }
{
    append_batches(out, sends.batches(), at_hand)
}

/// Appends the lines of messages, each with all its addresses.
fn append_batches(
    out: &mut Vec<u8>,
    batches: &[Batch],
    at_hand: &Option<SpelledAddr<'_>>,
) -> Result<(), AllocError>
    ensures ok { OnOk result (out.new.items ≡ out.old.items ++ flat_map batch_text batches.now) }
    ensures room { vec_len out.old + length (flat_map batch_text batches.now)
        ≤ vec_capacity out.old → IsOk result }
    ensures capacity { vec_capacity out.old ≤ vec_capacity out.new }
{
    for batch in batches {
        append_batch(out, batch, at_hand)?;
    }
    Ok(())
}

/// Appends a line for each address that a message goes to.
fn append_batch(
    out: &mut Vec<u8>,
    batch: &Batch,
    at_hand: &Option<SpelledAddr<'_>>,
) -> Result<(), AllocError>
    ensures ok { OnOk result (out.new.items ≡ out.old.items ++ batch_text batch.now) }
    ensures room { vec_len out.old + length (batch_text batch.now) ≤ vec_capacity out.old →
        IsOk result }
    ensures capacity { vec_capacity out.old ≤ vec_capacity out.new }
{
    append_sends_to(out, batch.port(), batch.targets(), at_hand, batch.octets())
}
