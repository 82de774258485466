//! Parameters of a body under context tags (clauses 20.2.1.1 and 20.2.1.3).

ghost use Rattle.std.specs.Prelude.{◌≡◌, ◌↔◌, ◌<◌, ◌^◌, ℕ, List, length, IfOk, IsOkAnd, Err};
ghost use Rattle.gw_addr.specs.Appending.{IsAppended, IsAppendedWhole};
ghost use Rattle.gw_addr.specs.Reading.{Gives};
ghost use Rattle.gw_codecs.specs.declared.tags.tag.Kind.TheVariants.{Opening, Closing};
ghost use Rattle.gw_codecs.specs.tags.Tag.{BeginsWith, IsBadTag, canonical};
ghost use Rattle.gw_codecs.specs.tags.List.{context};
ghost use Rattle.gw_codecs.specs.tags.Context.{BeginsWithContent, BeginsWithOther, in_context};
ghost use Rattle.gw_codecs.specs.tags.ContextReading.{content_at, opening_at, closing_tag_at};
ghost use Rattle.gw_codecs.specs.tags.Number.{unsigned_encoding};

use crate::tags::fault::ContextFault;
use crate::tags::number::leading_zeros;
use crate::tags::reading::read_tag;
use crate::tags::tag::{Kind, Tag};
use crate::tags::writing::{put_four, put_one, put_tag, write_tag};
use gw_addr::{front, keep_whole, put_slice};
use std::alloc::AllocError;

/// What `read_context` gives, said by the reading function alone.
fn content(number: u8, octets: &[u8]) -> Result<(&[u8], &[u8]), ContextFault>
    ensures { Gives (λ x. (x.0.now, x.1.now)) result (content_at number octets.now) }
{
    let header = read_tag(octets)?;
    let is_own = header.tag.context && header.tag.number == number;
    match header.tag.kind {
        Kind::Length(count) if is_own => front(ContextFault::Short, count as usize, header.rest),
        _ => Err(ContextFault::OtherTag),
    }
}

/// Reads the content under the context tag of this number, and lends it with the octets after it.
///
/// # Errors
///
/// 1 `Short`, 2 `BadTag` and 3 `OtherTag`, as [`ContextFault`] says. The content of another tag is
/// not looked at.
pub fn read_context(number: u8, octets: &[u8]) -> Result<(&[u8], &[u8]), ContextFault>
    requires { number < 255 }
    ensures found { IfOk result (λ x. BeginsWithContent number octets.now x.0.now x.1.now) }
    ensures only { (content rest : List ℕ) → BeginsWithContent number octets.now content rest
        → IsOkAnd result (λ x. (x.0.now ≡ content) × (x.1.now ≡ rest)) }
    ensures bad_tag { (result ≡ Err ContextFault.BadTag) ↔ IsBadTag octets.now }
    ensures other_tag { (result ≡ Err ContextFault.OtherTag) ↔ BeginsWithOther number octets.now }
    ensures exact { Gives (λ x. (x.0.now, x.1.now)) result (content_at number octets.now) }
{
    content(number, octets)
}

fn opening(number: u8, octets: &[u8]) -> Result<&[u8], ContextFault>
    ensures { Gives (λ x. x.now) result (opening_at number octets.now) }
{
    let header = read_tag(octets)?;
    match header.tag.kind {
        Kind::Opening if header.tag.number == number => Ok(header.rest),
        _ => Err(ContextFault::OtherTag),
    }
}

fn closing(number: u8, octets: &[u8]) -> Result<&[u8], ContextFault>
    ensures { Gives (λ x. x.now) result (closing_tag_at number octets.now) }
{
    let header = read_tag(octets)?;
    match header.tag.kind {
        Kind::Closing if header.tag.number == number => Ok(header.rest),
        _ => Err(ContextFault::OtherTag),
    }
}

/// Reads the opening tag of this number, and lends the octets after it.
///
/// # Errors
///
/// 1 `Short`, 2 `BadTag` and 3 `OtherTag`, as [`ContextFault`] says.
pub fn read_opening(number: u8, octets: &[u8]) -> Result<&[u8], ContextFault>
    requires { number < 255 }
    ensures found { IfOk result (λ x. BeginsWith octets.now (context number Opening) x.now) }
    ensures only { (rest : List ℕ) → BeginsWith octets.now (context number Opening) rest
        → IsOkAnd result (λ x. x.now ≡ rest) }
    ensures exact { Gives (λ x. x.now) result (opening_at number octets.now) }
{
    opening(number, octets)
}

/// Reads the closing tag of this number, and lends the octets after it.
///
/// # Errors
///
/// 1 `Short`, 2 `BadTag` and 3 `OtherTag`, as [`ContextFault`] says.
pub fn read_closing(number: u8, octets: &[u8]) -> Result<&[u8], ContextFault>
    requires { number < 255 }
    ensures found { IfOk result (λ x. BeginsWith octets.now (context number Closing) x.now) }
    ensures only { (rest : List ℕ) → BeginsWith octets.now (context number Closing) rest
        → IsOkAnd result (λ x. x.now ≡ rest) }
    ensures exact { Gives (λ x. x.now) result (closing_tag_at number octets.now) }
{
    closing(number, octets)
}

/// Appends a content after its context tag. After an `Err` the buffer may hold a front of them.
fn put_context(out: &mut Vec<u8>, number: u8, content: &[u8]) -> Result<(), AllocError>
    requires numbered { number < 255 }
    requires fits { length content.now < 2 ^ 32 }
    ensures { IsAppended (in_context number content.now) out.old out.new result }
{
    let tag = Tag {
        number,
        context: true,
        kind: Kind::Length(content.len() as u32),
    };
    put_tag(out, tag)?;
    put_slice(out, content)
}

/// Appends a content under the context tag of this number. The buffer keeps what it held, also
/// after an error.
///
/// # Errors
///
/// 1 Memory, only if the buffer had no room.
pub fn write_context(out: &mut Vec<u8>, number: u8, content: &[u8]) -> Result<(), AllocError>
    requires numbered { number < 255 }
    requires fits { length content.now < 2 ^ 32 }
    ensures { IsAppendedWhole (in_context number content.now) out.old out.new result }
{
    match content {
        [a, b, c, d] if number < 15 => return put_four(out, number, true, [*a, *b, *c, *d]),
        _ => {}
    }
    let len = out.len();
    let written = put_context(out, number, content);
    keep_whole(out, len, written)
}

/// Appends a number in the fewest octets under the context tag of this number. The buffer keeps
/// what it held, also after an error.
///
/// # Errors
///
/// 1 Memory, only if the buffer had no room.
#[tactic(auto, using(crate::proofs::tags_lemmas::Numbers::in_one_octet))]
pub fn write_context_unsigned(out: &mut Vec<u8>, number: u8, value: u32) -> Result<(), AllocError>
    requires { number < 255 }
    ensures { IsAppendedWhole (in_context number (unsigned_encoding value)) out.old out.new result }
{
    if value < 256 && number < 15 {
        return put_one(out, number, true, value as u8);
    }
    let octets = value.to_be_bytes();
    write_context(out, number, &octets[leading_zeros(value)..])
}

/// Appends the opening tag of this number. The buffer keeps what it held, also after an error.
///
/// # Errors
///
/// 1 Memory, only if the buffer had no room.
pub fn write_opening(out: &mut Vec<u8>, number: u8) -> Result<(), AllocError>
    requires { number < 255 }
    ensures { IsAppendedWhole (canonical (context number Opening)) out.old out.new result }
{
    let tag = Tag {
        number,
        context: true,
        kind: Kind::Opening,
    };
    write_tag(out, tag)
}

/// Appends the closing tag of this number. The buffer keeps what it held, also after an error.
///
/// # Errors
///
/// 1 Memory, only if the buffer had no room.
#[inline(always)]
pub fn write_closing(out: &mut Vec<u8>, number: u8) -> Result<(), AllocError>
    requires { number < 255 }
    ensures { IsAppendedWhole (canonical (context number Closing)) out.old out.new result }
{
    let tag = Tag {
        number,
        context: true,
        kind: Kind::Closing,
    };
    write_tag(out, tag)
}
