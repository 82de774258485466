//! ReadProperty (clause 15.5).

ghost use Rattle.std.specs.Prelude.{◌≡◌, ◌↔◌, ◌<◌, IfOk, IsOkAnd, Err};
ghost use Rattle.gw_addr.specs.Appending.{IsAppended, IsAppendedWhole};
ghost use Rattle.gw_addr.specs.Reading.{Gives};
ghost use Rattle.gw_codecs.specs.services.Body.{HasFault};
ghost use Rattle.gw_codecs.specs.services.Read.{Read, read_view, read_body, IsRead, read_at, read_encoding, number_part};

use crate::services::fault::BodyFault;
use crate::services::parameter::{number, number_maybe, object};
use crate::services::request::{LAST_PROPERTY, ReadReq};
use crate::tags::{write_context, write_context_unsigned};
use gw_addr::keep_whole;
use std::alloc::AllocError;

fn read(octets: &[u8]) -> Result<ReadReq, BodyFault>
    ensures { Gives (λ r. read_view r) result (read_at octets.now) }
{
    let (object, rest) = object(0, octets)?;
    let (property, rest) = number(1, 0, LAST_PROPERTY, rest)?;
    let (index, rest) = number_maybe(2, 0, u32::MAX, rest)?;
    if !rest.is_empty() {
        return Err(BodyFault::TooMany);
    }
    Ok(ReadReq {
        object,
        property,
        index,
    })
}

/// Reads the body of a ReadProperty request, all of it.
///
/// # Errors
///
/// 1 `InvalidTag`, 2 `Missing`, 3 `OutOfRange` and 4 `TooMany`, as [`BodyFault`] says: the first in
/// the order of the octets.
#[inline(always)]
pub fn decode_read(octets: &[u8]) -> Result<ReadReq, BodyFault>
    // What is read is what the octets are.
    ensures found { IfOk result (λ r. IsRead octets.now (read_view r)) }
    // What the octets are is read.
    ensures only { (r : Read) → IsRead octets.now r → IsOkAnd result (λ x. read_view x ≡ r) }
    // What is wrong with octets that are no such body.
    ensures fault { (fault : BodyFault) → (result ≡ Err fault) ↔ HasFault fault read_body octets.now }
    // The answer as a function of the octets.
    ensures exact { Gives (λ r. read_view r) result (read_at octets.now) }
{
    read(octets)
}

/// Appends a number that may be there. An `Err` only where the buffer had no room for it; the
/// buffer then holds what it held.
pub(crate) fn put_number(out: &mut Vec<u8>, tag: u8, number: Option<u32>) -> Result<(), AllocError>
    requires { tag < 255 }
    ensures { IsAppendedWhole (number_part tag number) out.old out.new result }
{
    match number {
        None => Ok(()),
        Some(number) => write_context_unsigned(out, tag, number),
    }
}

/// Appends the body. After an `Err` a front of it may remain.
#[inline(always)]
pub(crate) fn put(out: &mut Vec<u8>, request: &ReadReq) -> Result<(), AllocError>
    ensures { IsAppended (read_encoding (read_view request.now)) out.old out.new result }
{
    write_context(out, 0, &request.object.to_octets())?;
    write_context_unsigned(out, 1, request.property)?;
    put_number(out, 2, request.index)
}

/// Appends the body of a ReadProperty request, in the fewest octets. The buffer keeps what it held,
/// also after an error.
///
/// # Errors
///
/// 1 Memory, only where the buffer had no room.
pub fn encode_read(request: &ReadReq, out: &mut Vec<u8>) -> Result<(), AllocError>
    ensures { IsAppendedWhole (read_encoding (read_view request.now)) out.old out.new result }
{
    let len = out.len();
    let written = put(out, request);
    keep_whole(out, len, written)
}
