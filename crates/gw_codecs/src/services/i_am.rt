//! I-Am (clause 16.10).

ghost use Rattle.std.specs.Prelude.{◌≡◌, ◌↔◌, ◌≤◌, IfOk, IsOkAnd, Err};
ghost use Rattle.gw_addr.specs.Appending.{IsAppended, IsAppendedWhole};
ghost use Rattle.gw_addr.specs.Reading.{Gives};
ghost use Rattle.gw_codecs.specs.tags.Value.{enumerated, unsigned, value_encoding};
ghost use Rattle.gw_codecs.specs.services.Body.{HasFault};
ghost use Rattle.gw_codecs.specs.services.Limits.{last_segmentation};
ghost use Rattle.gw_codecs.specs.services.IAm.{IAm as IAmFields, i_am_view, i_am_body, IsIAm, i_am_at, i_am_encoding, segmentation_number};

use crate::services::discovery::IAm;
use crate::services::fault::BodyFault;
use crate::services::parameter::{plain_enumerated, plain_object, plain_unsigned};
use crate::services::segmentation::Segmentation;
use crate::tags::{AppValue, write_value};
use gw_addr::keep_whole;
use std::alloc::AllocError;

/// The last choice of [`Segmentation`].
const LAST_SEGMENTATION: u32 = 3;
/// The last number of two octets.
const LAST_SHORT: u32 = 65535;

/// The choice of a number.
fn segmentation_of(number: u32) -> Segmentation
    requires { number ≤ last_segmentation }
    ensures { segmentation_number result ≡ number }
{
    match number {
        0 => Segmentation::Both,
        1 => Segmentation::Transmit,
        2 => Segmentation::Receive,
        _ => Segmentation::None,
    }
}

fn read(octets: &[u8]) -> Result<IAm, BodyFault>
    ensures { Gives (λ i. i_am_view i) result (i_am_at octets.now) }
{
    let (device, rest) = plain_object(octets)?;
    let (max_apdu, rest) = plain_unsigned(LAST_SHORT, rest)?;
    let (segmentation, rest) = plain_enumerated(LAST_SEGMENTATION, rest)?;
    let (vendor, rest) = plain_unsigned(LAST_SHORT, rest)?;
    if !rest.is_empty() {
        return Err(BodyFault::TooMany);
    }
    Ok(IAm {
        device,
        max_apdu: max_apdu as u16,
        segmentation: segmentation_of(segmentation),
        vendor: vendor as u16,
    })
}

/// Reads the body of an I-Am, all of it.
///
/// # Errors
///
/// 1 `InvalidTag`, 2 `Missing`, 3 `OutOfRange` and 4 `TooMany`, as [`BodyFault`] says: the first in
/// the order of the octets.
pub fn decode_i_am(octets: &[u8]) -> Result<IAm, BodyFault>
    // What is read is what the octets are.
    ensures found { IfOk result (λ i. IsIAm octets.now (i_am_view i)) }
    // What the octets are is read.
    ensures only { (i : IAmFields) → IsIAm octets.now i
        → IsOkAnd result (λ x. i_am_view x ≡ i) }
    // What is wrong with octets that are no such body.
    ensures fault { (fault : BodyFault) → (result ≡ Err fault)
        ↔ HasFault fault i_am_body octets.now }
    // The answer as a function of the octets.
    ensures exact { Gives (λ i. i_am_view i) result (i_am_at octets.now) }
{
    read(octets)
}

fn put_number(out: &mut Vec<u8>, number: u16) -> Result<(), AllocError>
    ensures { IsAppendedWhole (value_encoding (unsigned number)) out.old out.new result }
{
    write_value(out, AppValue::Unsigned(u32::from(number)))
}

fn put_segmentation(out: &mut Vec<u8>, choice: Segmentation) -> Result<(), AllocError>
    ensures { let number = segmentation_number choice in
        IsAppendedWhole (value_encoding (enumerated number)) out.old out.new result }
{
    write_value(out, AppValue::Enumerated(u32::from(choice.number())))
}

fn put(out: &mut Vec<u8>, announced: &IAm) -> Result<(), AllocError>
    ensures { IsAppended (i_am_encoding (i_am_view announced.now)) out.old out.new result }
{
    write_value(out, AppValue::Object(announced.device))?;
    put_number(out, announced.max_apdu)?;
    put_segmentation(out, announced.segmentation)?;
    put_number(out, announced.vendor)
}

/// Appends the body of an I-Am, in the fewest octets. The buffer keeps what it held, also after
/// an error.
///
/// # Errors
///
/// 1 Memory, only where the buffer had no room.
pub fn encode_i_am(announced: &IAm, out: &mut Vec<u8>) -> Result<(), AllocError>
    ensures { IsAppendedWhole (i_am_encoding (i_am_view announced.now)) out.old out.new result }
{
    let len = out.len();
    let written = put(out, announced);
    keep_whole(out, len, written)
}
