//! Who-Is (clause 16.10).

ghost use Rattle.std.specs.Prelude.{◌≡◌, ◌↔◌, IfOk, IsOkAnd, Err};
ghost use Rattle.gw_addr.specs.Reading.{Gives};
ghost use Rattle.gw_codecs.specs.services.Body.{HasFault};
ghost use Rattle.std.specs.Option.{option_map};
ghost use Rattle.gw_addr.specs.Appending.{IsAppended, IsAppendedWhole};
ghost use Rattle.gw_codecs.specs.services.WhoIs.{WhoIs as WhoIsFields, who_is_view, who_is_body, IsWhoIs, who_is_at, who_is_encoding, limits_view, limits_at, limits_part};

use crate::services::discovery::{LAST_INSTANCE, Limits, WhoIs};
use crate::services::fault::BodyFault;
use crate::services::parameter::{number, number_maybe};
use crate::tags::write_context_unsigned;
use gw_addr::keep_whole;
use std::alloc::AllocError;

/// The limits, where the first of them is there. `InvalidTag`, `Missing` or `OutOfRange`, as of any
/// parameter.
pub(crate) fn limits(octets: &[u8]) -> Result<(Option<Limits>, &[u8]), BodyFault>
    ensures { Gives (λ x. (option_map limits_view x.0, x.1.now)) result (limits_at octets.now) }
{
    let (low, rest) = number_maybe(0, 0, LAST_INSTANCE, octets)?;
    match low {
        None => Ok((None, rest)),
        Some(low) => {
            let (high, rest) = number(1, 0, LAST_INSTANCE, rest)?;
            Ok((Some(Limits { low, high }), rest))
        }
    }
}

fn read(octets: &[u8]) -> Result<WhoIs, BodyFault>
    ensures { Gives (λ w. who_is_view w) result (who_is_at octets.now) }
{
    let (limits, rest) = limits(octets)?;
    if !rest.is_empty() {
        return Err(BodyFault::TooMany);
    }
    Ok(WhoIs { limits })
}

/// Reads the body of a Who-Is request, all of it.
///
/// # Errors
///
/// 1 `InvalidTag`, 2 `Missing`, 3 `OutOfRange` and 4 `TooMany`, as [`BodyFault`] says: the first in
/// the order of the octets.
pub fn decode_who_is(octets: &[u8]) -> Result<WhoIs, BodyFault>
    // What is read is what the octets are.
    ensures found { IfOk result (λ w. IsWhoIs octets.now (who_is_view w)) }
    // What the octets are is read.
    ensures only { (w : WhoIsFields) → IsWhoIs octets.now w
        → IsOkAnd result (λ x. who_is_view x ≡ w) }
    // What is wrong with octets that are no such body.
    ensures fault { (fault : BodyFault) → (result ≡ Err fault)
        ↔ HasFault fault who_is_body octets.now }
    // The answer as a function of the octets.
    ensures exact { Gives (λ w. who_is_view w) result (who_is_at octets.now) }
{
    read(octets)
}

/// The limits, if there are any. After an `Err` a front of them may remain.
pub(crate) fn put_limits(out: &mut Vec<u8>, limits: &Option<Limits>) -> Result<(), AllocError>
    ensures { IsAppended (limits_part (option_map limits_view limits.now)) out.old out.new result }
{
    match limits {
        None => Ok(()),
        Some(limits) => {
            write_context_unsigned(out, 0, limits.low)?;
            write_context_unsigned(out, 1, limits.high)
        }
    }
}

fn put(out: &mut Vec<u8>, request: &WhoIs) -> Result<(), AllocError>
    ensures { IsAppended (who_is_encoding (who_is_view request.now)) out.old out.new result }
{
    put_limits(out, &request.limits)
}

/// Appends the body of a Who-Is request, in the fewest octets. The buffer keeps what it held, also after
/// an error.
///
/// # Errors
///
/// 1 Memory, only where the buffer had no room.
pub fn encode_who_is(request: &WhoIs, out: &mut Vec<u8>) -> Result<(), AllocError>
    ensures { IsAppendedWhole (who_is_encoding (who_is_view request.now)) out.old out.new result }
{
    let len = out.len();
    let written = put(out, request);
    keep_whole(out, len, written)
}
