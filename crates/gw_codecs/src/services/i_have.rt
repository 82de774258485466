//! I-Have (clause 16.9).

ghost use Rattle.std.specs.Prelude.{◌≡◌, ◌↔◌, IfOk, IsOkAnd, Err};
ghost use Rattle.gw_addr.specs.Appending.{IsAppended, IsAppendedWhole};
ghost use Rattle.gw_addr.specs.Reading.{Gives};
ghost use Rattle.gw_codecs.specs.services.Body.{HasFault};
ghost use Rattle.gw_codecs.specs.tags.Value.{LengthFits, character_string};
ghost use Rattle.gw_codecs.specs.services.IHave.{IHave as IHaveFields, i_have_view, i_have_body, IsIHave, i_have_at, i_have_encoding};

use crate::services::discovery::IHave;
use crate::services::fault::BodyFault;
use crate::services::parameter::{plain_object, plain_text};
use crate::tags::{AppValue, write_value};
use gw_addr::keep_whole;
use std::alloc::AllocError;

fn read(octets: &[u8]) -> Result<IHave<'_>, BodyFault>
    ensures { Gives (λ i. i_have_view i) result (i_have_at octets.now) }
{
    let (device, rest) = plain_object(octets)?;
    let (object, rest) = plain_object(rest)?;
    let (name, rest) = plain_text(rest)?;
    if !rest.is_empty() {
        return Err(BodyFault::TooMany);
    }
    Ok(IHave {
        device,
        object,
        name,
    })
}

/// Reads the body of an I-Have, all of it.
///
/// # Errors
///
/// 1 `InvalidTag`, 2 `Missing`, 3 `OutOfRange` and 4 `TooMany`, as [`BodyFault`] says: the first in
/// the order of the octets.
pub fn decode_i_have(octets: &[u8]) -> Result<IHave<'_>, BodyFault>
    // What is read is what the octets are.
    ensures found { IfOk result (λ i. IsIHave octets.now (i_have_view i)) }
    // What the octets are is read.
    ensures only { (i : IHaveFields) → IsIHave octets.now i
        → IsOkAnd result (λ x. i_have_view x ≡ i) }
    // What is wrong with octets that are no such body.
    ensures fault { (fault : BodyFault) → (result ≡ Err fault)
        ↔ HasFault fault i_have_body octets.now }
    // The answer as a function of the octets.
    ensures exact { Gives (λ i. i_have_view i) result (i_have_at octets.now) }
{
    read(octets)
}

fn put(out: &mut Vec<u8>, announced: &IHave<'_>) -> Result<(), AllocError>
    // A name has fewer than 2 to the power of 32 octets.
    requires { LengthFits (character_string announced.now.name.charset announced.now.name.octets.now) }
    ensures { IsAppended (i_have_encoding (i_have_view announced.now)) out.old out.new result }
{
    write_value(out, AppValue::Object(announced.device))?;
    write_value(out, AppValue::Object(announced.object))?;
    write_value(out, AppValue::Text(announced.name))
}

/// Appends the body of an I-Have, in the fewest octets. The buffer keeps what it held, also after
/// an error.
///
/// # Errors
///
/// 1 Memory, only where the buffer had no room.
pub fn encode_i_have(announced: &IHave<'_>, out: &mut Vec<u8>) -> Result<(), AllocError>
    // A name has fewer than 2 to the power of 32 octets.
    requires { LengthFits (character_string announced.now.name.charset announced.now.name.octets.now) }
    ensures { IsAppendedWhole (i_have_encoding (i_have_view announced.now)) out.old out.new result }
{
    let len = out.len();
    let written = put(out, announced);
    keep_whole(out, len, written)
}
