//! Lines of a text of TOML.
ghost use Rattle.std.specs.Prelude.{◌≡◌, ◌<◌, ◌++◌, ◌∷◌, ◌/◌, ◌%◌, [], codes, decimal, OnOk};
ghost use Rattle.std.specs.List.{flat_map};
ghost use Rattle.gw_policy_drafts.specs.migration.Items.{digit_text, quoted, quoted_octet};
ghost use Rattle.gw_policy_drafts.specs.migration.Ports.{address_line};

use gw_addr::{BipAddr, put_decimal};
use std::alloc::AllocError;

/// The first octet that is no control character, and the control character after the others.
const SPACE: u8 = 32;

const DELETE: u8 = 127;

/// Appends a text in quotes, with an escape in the place of each quote, backslash and control character.
#[tactic(auto, unfolding(crate::specs::migration::Items::quoted))]
pub(crate) fn put_quoted(out: &mut Vec<u8>, text: &str) -> Result<(), AllocError>
    ensures { OnOk result (out.new.items ≡ out.old.items ++ quoted text.now) }
{
    out.push(b'"')?;
    put_each(out, text.as_bytes())?;
    out.push(b'"')?;
    Ok(())
}

/// Appends the octets of a text in quotes.
fn put_each(out: &mut Vec<u8>, octets: &[u8]) -> Result<(), AllocError>
    ensures { OnOk result (out.new.items ≡ out.old.items ++ flat_map quoted_octet octets.now) }
{
    for octet in octets {
        put_quoted_octet(out, *octet)?;
    }
    Ok(())
}

/// Appends an octet of a text in quotes.
fn put_quoted_octet(out: &mut Vec<u8>, octet: u8) -> Result<(), AllocError>
    ensures { OnOk result (out.new.items ≡ out.old.items ++ quoted_octet octet) }
{
    if octet < SPACE || octet == DELETE {
        return put_control(out, octet);
    }
    if octet == b'"' || octet == b'\\' {
        out.push(b'\\')?;
    }
    out.push(octet)?;
    Ok(())
}

/// Appends the escape of a control character.
fn put_control(out: &mut Vec<u8>, octet: u8) -> Result<(), AllocError>
    ensures { OnOk result (out.new.items ≡ out.old.items ++ ((codes "\\u00" ++ digit_text (octet / 16)) ++ digit_text (octet % 16))) }
{
    out.extend_from_slice(b"\\u00")?;
    put_digit(out, octet / 16)?;
    put_digit(out, octet % 16)
}

/// Appends a hexadecimal digit.
fn put_digit(out: &mut Vec<u8>, digit: u8) -> Result<(), AllocError>
    requires { digit < 16 }
    ensures { OnOk result (out.new.items ≡ out.old.items ++ digit_text digit) }
{
    let octet = if digit < 10 {
        b'0' + digit
    } else {
        b'a' + (digit - 10)
    };
    out.push(octet)?;
    Ok(())
}

/// Appends a key and the sign after it.
pub(crate) fn put_key(out: &mut Vec<u8>, key: &str) -> Result<(), AllocError>
    ensures { OnOk result (out.new.items ≡ out.old.items ++ (key.now ++ codes " = ")) }
{
    out.extend_from_slice(key.as_bytes())?;
    out.extend_from_slice(b" = ")
}

/// Appends a line with a number.
pub(crate) fn put_number(out: &mut Vec<u8>, key: &str, number: u64) -> Result<(), AllocError>
    ensures { OnOk result (out.new.items ≡ out.old.items ++ ((key.now ++ codes " = ") ++ (decimal number ++ 10 ∷ []))) }
{
    put_key(out, key)?;
    put_decimal(out, number)?;
    out.extend_from_slice(b"\n")
}

/// Appends a line with a number that may be below 0.
pub(crate) fn put_signed(out: &mut Vec<u8>, key: &str, number: i32) -> Result<(), AllocError> {
    put_key(out, key)?;
    put_decimal(out, number)?;
    out.extend_from_slice(b"\n")
}

/// Appends a line with a text.
pub(crate) fn put_text(out: &mut Vec<u8>, key: &str, text: &str) -> Result<(), AllocError> {
    put_key(out, key)?;
    put_quoted(out, text)?;
    out.extend_from_slice(b"\n")
}

/// Appends a line with an address.
#[tactic(auto, unfolding(crate::specs::migration::Ports::address_line))]
pub(crate) fn put_address(out: &mut Vec<u8>, key: &str, address: BipAddr) -> Result<(), AllocError>
    ensures { OnOk result (out.new.items ≡ out.old.items ++ address_line key.now address) }
{
    put_key(out, key)?;
    out.extend_from_slice(b"\"")?;
    address.put_text(out)?;
    out.extend_from_slice(b"\"\n")
}
