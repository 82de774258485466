//! WriteProperty (clause 15.9).

ghost use Rattle.std.specs.Prelude.{◌≡◌, ◌↔◌, ◌≤◌, ◌<◌, IfOk, IfSome, IsOkAnd, Err};
ghost use Rattle.gw_addr.specs.Appending.{IsAppended, IsAppendedWhole};
ghost use Rattle.gw_addr.specs.Reading.{Gives};
ghost use Rattle.gw_codecs.specs.services.Body.{HasFault};
ghost use Rattle.gw_codecs.specs.services.Limits.{last_priority};
ghost use Rattle.gw_codecs.specs.services.Write.{Write, write_view, write_body, IsWrite, write_at, write_encoding, values_part, priority_at, target_of};
ghost use Rattle.gw_codecs.specs.services.Read.{read_view};

use crate::services::fault::BodyFault;
use crate::services::parameter::{number, number_maybe, object, values};
use crate::services::read::{put as put_target, put_number};
use crate::services::request::{LAST_PROPERTY, ReadReq, WriteReq};
use crate::tags::{write_closing, write_opening};
use gw_addr::{keep_whole, put_slice};
use std::alloc::AllocError;

/// The lowest priority of a write; 1 is the highest.
const LAST_PRIORITY: u32 = 16;

/// A priority in an octet.
fn priority_of(priority: Option<u32>) -> Option<u8>
    requires { IfSome priority (λ p. p ≤ last_priority) }
    ensures { result ≡ priority }
{
    match priority {
        None => None,
        Some(priority) => Some(priority as u8),
    }
}

/// A priority as a number of any size.
fn priority_number(priority: Option<u8>) -> Option<u32>
    ensures { result ≡ priority }
{
    match priority {
        None => None,
        Some(priority) => Some(u32::from(priority)),
    }
}

/// The priority, and the end.
fn with_priority<'a>(
    target: ReadReq,
    value: &'a [u8],
    octets: &[u8],
) -> Result<WriteReq<'a>, BodyFault>
    ensures { Gives (λ w. write_view w) result
        (priority_at (read_view target) value.now octets.now) }
{
    let (priority, rest) = number_maybe(4, 1, LAST_PRIORITY, octets)?;
    if !rest.is_empty() {
        return Err(BodyFault::TooMany);
    }
    Ok(WriteReq {
        object: target.object,
        property: target.property,
        index: target.index,
        value,
        priority: priority_of(priority),
    })
}

fn read(octets: &[u8]) -> Result<WriteReq<'_>, BodyFault>
    ensures { Gives (λ w. write_view w) result (write_at octets.now) }
{
    let (object, rest) = object(0, octets)?;
    let (property, rest) = number(1, 0, LAST_PROPERTY, rest)?;
    let (index, rest) = number_maybe(2, 0, u32::MAX, rest)?;
    let (value, rest) = values(3, rest)?;
    let target = ReadReq {
        object,
        property,
        index,
    };
    with_priority(target, value, rest)
}

/// Reads the body of a WriteProperty request, all of it.
///
/// # Errors
///
/// 1 `InvalidTag`, 2 `Missing`, 3 `OutOfRange` and 4 `TooMany`, as [`BodyFault`] says: the first in
/// the order of the octets.
pub fn decode_write(octets: &[u8]) -> Result<WriteReq<'_>, BodyFault>
    // What is read is what the octets are.
    ensures found { IfOk result (λ w. IsWrite octets.now (write_view w)) }
    // What the octets are is read.
    ensures only { (w : Write) → IsWrite octets.now w
        → IsOkAnd result (λ x. write_view x ≡ w) }
    // What is wrong with octets that are no such body.
    ensures fault { (fault : BodyFault) → (result ≡ Err fault)
        ↔ HasFault fault write_body octets.now }
    // The answer as a function of the octets.
    ensures exact { Gives (λ w. write_view w) result (write_at octets.now) }
{
    read(octets)
}

/// Values between an opening and a closing tag. After an `Err` a front of them may remain.
pub(crate) fn put_values(out: &mut Vec<u8>, tag: u8, own: &[u8]) -> Result<(), AllocError>
    requires { tag < 255 }
    ensures { IsAppended (values_part tag own.now) out.old out.new result }
{
    write_opening(out, tag)?;
    put_slice(out, own)?;
    write_closing(out, tag)
}

/// What the value is for.
fn target(request: &WriteReq<'_>) -> ReadReq
    ensures { read_view result ≡ target_of (write_view request.now) }
{
    ReadReq {
        object: request.object,
        property: request.property,
        index: request.index,
    }
}

fn put(out: &mut Vec<u8>, request: &WriteReq<'_>) -> Result<(), AllocError>
    ensures { IsAppended (write_encoding (write_view request.now)) out.old out.new result }
{
    put_target(out, &target(request))?;
    put_values(out, 3, request.value)?;
    put_number(out, 4, priority_number(request.priority))
}

/// Appends the body of a WriteProperty request, in the fewest octets. The buffer keeps what it held, also after
/// an error.
///
/// # Errors
///
/// 1 Memory, only where the buffer had no room.
pub fn encode_write(request: &WriteReq<'_>, out: &mut Vec<u8>) -> Result<(), AllocError>
    ensures { IsAppendedWhole (write_encoding (write_view request.now)) out.old out.new result }
{
    let len = out.len();
    let written = put(out, request);
    keep_whole(out, len, written)
}
