//! Writing after what a buffer holds. An `Err` only if the buffer had no room and its growth
//! was refused.

ghost use Rattle.std.specs.Prelude.{◌≡◌, ◌∷◌, ◌++◌, [], ℕ, List, length, OnOk};
ghost use Rattle.std.specs.Global.{Vec};
ghost use Rattle.std.specs.Int.{w16, w32, to_be_bytes};
ghost use Rattle.gw_addr.specs.Appending.{IsAppended, IsAppendedWhole};

use itoa::{Buffer, Integer};
use std::alloc::AllocError;

/// Appends an octet. An `Err` only if the buffer had no room for it.
pub fn put_octet(out: &mut Vec<u8>, octet: u8) -> Result<(), AllocError>
    ensures { IsAppended (octet ∷ []) out.old out.new result }
{
    out.push(octet)?;
    Ok(())
}

/// Appends a number as two octets, the first octet its highest. An `Err` only if the buffer had
/// no room for them; then the buffer may hold a front of them.
pub fn put_number(out: &mut Vec<u8>, number: u16) -> Result<(), AllocError>
    ensures { IsAppended (to_be_bytes w16 number) out.old out.new result }
{
    out.extend_from_slice(&number.to_be_bytes())
}

/// Appends a number as four octets, the first octet its highest. An `Err` only if the buffer had
/// no room for them; then the buffer may hold a front of them.
pub fn put_long_number(out: &mut Vec<u8>, number: u32) -> Result<(), AllocError>
    ensures { IsAppended (to_be_bytes w32 number) out.old out.new result }
{
    out.extend_from_slice(&number.to_be_bytes())
}

/// Appends octets. An `Err` only if the buffer had no room for them; then the buffer may
/// hold a front of them.
pub fn put_slice(out: &mut Vec<u8>, octets: &[u8]) -> Result<(), AllocError>
    ensures { IsAppended octets.now out.old out.new result }
{
    out.extend_from_slice(octets)
}

/// Appends the decimal digits of a number. An `Err` only if the buffer had no room for them;
/// then the buffer may hold a front of them.
pub fn put_decimal<N: Integer>(out: &mut Vec<u8>, number: N) -> Result<(), AllocError>
    ensures { IsAppended (N.text number) out.old out.new result }
{
    out.extend_from_slice(Buffer::new().format(number).as_bytes())
}

/// Appends a text and a number after it in decimal digits. An `Err` only if a growth of memory was
/// refused; then a front of them may follow what the buffer held.
pub fn put_text_number<N: Integer>(
    out: &mut Vec<u8>,
    text: &str,
    number: N,
) -> Result<(), AllocError>
    ensures { OnOk result (out.new.items ≡ out.old.items ++ text.now ++ N.text number) }
{
    out.extend_from_slice(text.as_bytes())?;
    put_decimal(out, number)
}

/// Makes an appending whole: if it failed, the buffer is cut to its first `len` octets, those
/// before it. The answer is that of the appending, its `Err` too.
pub fn keep_whole(
    out: &mut Vec<u8>,
    len: usize,
    appended: Result<(), AllocError>,
) -> Result<(), AllocError>
    ensures { (text : List ℕ) (before : Vec ℕ) → length before.items ≡ len
        → IsAppended text before out.old appended → IsAppendedWhole text before out.new result }
{
    if appended.is_err() {
        out.truncate(len);
    }
    appended
}
