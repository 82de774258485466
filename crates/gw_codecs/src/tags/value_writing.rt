//! Writing a value after what a buffer has (clause 20.2).

ghost use Rattle.std.specs.Prelude.{◌<◌, ◌∷◌, ◌^◌, length};
ghost use Rattle.gw_addr.specs.Appending.{IsAppended, IsAppendedWhole};
ghost use Rattle.gw_codecs.specs.tags.Number.{unsigned_encoding, signed_encoding};
ghost use Rattle.gw_codecs.specs.tags.Tag.{canonical};
ghost use Rattle.gw_codecs.specs.tags.Value.{value_view, value_encoding, application, tagged, LengthFits};

use crate::tags::number::{leading_signs, leading_zeros};
use crate::tags::tag::{Kind, Tag};
use crate::tags::value::AppValue;
use crate::tags::writing::{put_four, put_one, put_tag};
use gw_addr::{keep_whole, put_octet, put_slice};
use std::alloc::AllocError;

/// A tag of application class that announces so many octets.
fn put_header(out: &mut Vec<u8>, number: u8, count: u32) -> Result<(), AllocError>
    requires { number < 255 }
    ensures { IsAppended (canonical (application number count)) out.old out.new result }
{
    let tag = Tag {
        number,
        context: false,
        kind: Kind::Length(count),
    };
    put_tag(out, tag)
}

/// A content after its tag.
fn put_content(out: &mut Vec<u8>, number: u8, content: &[u8]) -> Result<(), AllocError>
    requires numbered { number < 255 }
    requires fits { length content.now < 2 ^ 32 }
    ensures { IsAppended (tagged number content.now) out.old out.new result }
{
    put_header(out, number, content.len() as u32)?;
    put_slice(out, content)
}

/// An octet and those after it, as one content.
fn put_prefixed(out: &mut Vec<u8>, number: u8, first: u8, others: &[u8]) -> Result<(), AllocError>
    requires numbered { number < 255 }
    requires fits { length (first ∷ others.now) < 2 ^ 32 }
    ensures { IsAppended (tagged number (first ∷ others.now)) out.old out.new result }
{
    put_header(out, number, others.len() as u32 + 1)?;
    put_octet(out, first)?;
    put_slice(out, others)
}

#[tactic(auto, using(crate::proofs::tags_lemmas::Numbers::in_one_octet))]
fn put_unsigned(out: &mut Vec<u8>, kind: u8, number: u32) -> Result<(), AllocError>
    requires { kind < 255 }
    ensures { IsAppended (tagged kind (unsigned_encoding number)) out.old out.new result }
{
    if number < 256 && kind < 15 {
        return put_one(out, kind, false, number as u8);
    }
    let octets = number.to_be_bytes();
    put_content(out, kind, &octets[leading_zeros(number)..])
}

fn put_signed(out: &mut Vec<u8>, kind: u8, number: i32) -> Result<(), AllocError>
    requires { kind < 255 }
    ensures { IsAppended (tagged kind (signed_encoding number)) out.old out.new result }
{
    let octets = number.to_be_bytes();
    put_content(out, kind, &octets[leading_signs(number)..])
}

/// Appends the value. After an `Err` the buffer may hold a front of it.
fn put_value(out: &mut Vec<u8>, value: &AppValue<'_>) -> Result<(), AllocError>
    requires { LengthFits (value_view value.now) }
    ensures { IsAppended (value_encoding (value_view value.now)) out.old out.new result }
{
    match value {
        AppValue::Null => put_header(out, 0, 0),
        AppValue::Boolean(said) => put_header(out, 1, u32::from(*said)),
        AppValue::Unsigned(number) => put_unsigned(out, 2, *number),
        AppValue::Signed(number) => put_signed(out, 3, *number),
        AppValue::Real(octets) => put_content(out, 4, octets),
        AppValue::Double(octets) => put_content(out, 5, octets),
        AppValue::Octets(octets) => put_content(out, 6, octets),
        AppValue::Text(text) => put_prefixed(out, 7, text.charset, text.octets),
        AppValue::Bits(bits) => put_prefixed(out, 8, bits.unused, bits.octets),
        AppValue::Enumerated(number) => put_unsigned(out, 9, *number),
        AppValue::Date(octets) => put_content(out, 10, octets),
        AppValue::Time(octets) => put_content(out, 11, octets),
        AppValue::Object(object) => put_four(out, 12, false, object.to_octets()),
    }
}

/// Appends the value, which is lent. After an `Err` the buffer holds what it held.
fn write_lent(out: &mut Vec<u8>, value: &AppValue<'_>) -> Result<(), AllocError>
    requires { LengthFits (value_view value.now) }
    ensures { IsAppendedWhole (value_encoding (value_view value.now)) out.old out.new result }
{
    let len = out.len();
    let written = put_value(out, value);
    keep_whole(out, len, written)
}

/// Appends the one encoding of the value that has the fewest octets.
///
/// # Errors
///
/// 1 Memory, only if the buffer had no room for the value. The buffer then holds what it held.
#[inline(always)]
pub fn write_value(out: &mut Vec<u8>, value: AppValue<'_>) -> Result<(), AllocError>
    // A content has fewer than 2 to the power of 32 octets.
    requires { LengthFits (value_view value) }
    ensures { IsAppendedWhole (value_encoding (value_view value.entry)) out.old out.new result }
{
    write_lent(out, &value)
}
