//! Writing a tag after what a buffer has (clause 20.2.1).

ghost use Rattle.std.specs.Prelude.{◌≡◌, ◌↔◌, ◌<◌, ◌+◌, ◌*◌, ◌++◌, ◌∷◌, [], IsTrue};
ghost use Rattle.gw_addr.specs.Appending.{IsAppended, IsAppendedWhole};
ghost use Rattle.gw_codecs.specs.tags.Tag.{tag_view, class_of, low_of, length_octets, length_tag, shortest_length, canonical};

use crate::tags::tag::{Kind, Tag};
use gw_addr::{keep_whole, put_long_number, put_number, put_octet};
use std::alloc::AllocError;

fn low_bits(kind: Kind) -> u8
    ensures below { result < 8 }
    ensures value { result ≡ low_of kind (shortest_length kind) }
{
    match kind {
        Kind::Length(length) if length < 5 => length as u8,
        Kind::Length(_) => 5,
        Kind::Opening => 6,
        Kind::Closing => 7,
    }
}

fn put_length(out: &mut Vec<u8>, kind: Kind) -> Result<(), AllocError>
    ensures { IsAppended (length_octets kind (shortest_length kind)) out.old out.new result }
{
    match kind {
        Kind::Length(length) if length < 5 => {}
        Kind::Length(length) if length < 254 => put_octet(out, length as u8)?,
        Kind::Length(length) if length < 0x1_0000 => {
            put_octet(out, 254)?;
            put_number(out, length as u16)?;
        }
        Kind::Length(length) => {
            put_octet(out, 255)?;
            put_long_number(out, length)?;
        }
        Kind::Opening | Kind::Closing => {}
    }
    Ok(())
}

fn class_bit(context: bool) -> u8
    ensures { result ≡ class_of context }
{
    if context { 0x08 } else { 0 }
}

#[tactic(auto, using(crate::proofs::tags_lemmas::Octets::first_octet_joins))]
fn first_octet(high: u8, context: bool, low: u8) -> u8
    requires high { high < 16 }
    requires low { low < 8 }
    ensures { result ≡ 16 * high + class_of context + low }
{
    high << 4 | class_bit(context) | low
}

/// Whether the first octet says all that such a tag announces.
#[inline(always)]
fn is_told_by_low_bits(kind: Kind) -> bool
    ensures { IsTrue result ↔ (length_octets kind (shortest_length kind) ≡ []) }
{
    match kind {
        Kind::Length(length) => length < 5,
        Kind::Opening | Kind::Closing => true,
    }
}

/// Appends the shortest encoding of the tag, which is one octet for most. After an `Err` the buffer
/// may hold a front of it.
#[inline(always)]
pub fn put_tag(out: &mut Vec<u8>, tag: Tag) -> Result<(), AllocError>
    ensures { IsAppended (canonical (tag_view tag)) out.old out.new result }
{
    if tag.number < 15 && is_told_by_low_bits(tag.kind) {
        return put_octet(
            out,
            first_octet(tag.number, tag.context, low_bits(tag.kind)),
        );
    }
    put_long_tag(out, tag)
}

/// Appends the shortest encoding of a tag of any number and kind. After an `Err` the buffer may hold
/// a front of it.
#[inline(never)]
fn put_long_tag(out: &mut Vec<u8>, tag: Tag) -> Result<(), AllocError>
    ensures { IsAppended (canonical (tag_view tag)) out.old out.new result }
{
    let low = low_bits(tag.kind);
    if tag.number < 15 {
        put_octet(out, first_octet(tag.number, tag.context, low))?;
    } else {
        put_octet(out, first_octet(15, tag.context, low))?;
        put_octet(out, tag.number)?;
    }
    put_length(out, tag.kind)
}

/// Appends a content of one octet after its tag, which is one octet too, both at once. After an `Err`
/// the buffer holds what it held.
#[inline(always)]
#[tactic(auto, using(crate::proofs::tags_lemmas::Canonical::in_one_octet))]
pub fn put_one(out: &mut Vec<u8>, number: u8, context: bool, content: u8) -> Result<(), AllocError>
    requires { number < 15 }
    ensures appended { IsAppended (canonical (length_tag number context 1) ++ content ∷ []) out.old out.new result }
    ensures whole { IsAppendedWhole (canonical (length_tag number context 1) ++ content ∷ []) out.old out.new result }
{
    out.extend_from_slice(&[first_octet(number, context, 1), content])
}

/// Appends a content of four octets after its tag, which is one octet, all five at once. After an `Err`
/// the buffer holds what it held.
#[inline(always)]
#[tactic(auto, using(crate::proofs::tags_lemmas::Canonical::in_one_octet))]
pub fn put_four(
    out: &mut Vec<u8>,
    number: u8,
    context: bool,
    content: [u8; 4],
) -> Result<(), AllocError>
    requires { number < 15 }
    ensures appended { IsAppended (canonical (length_tag number context 4) ++ content) out.old out.new result }
    ensures whole { IsAppendedWhole (canonical (length_tag number context 4) ++ content) out.old out.new result }
{
    let [a, b, c, d] = content;
    out.extend_from_slice(&[first_octet(number, context, 4), a, b, c, d])
}

/// Appends the one encoding of the tag that has the fewest octets. The buffer keeps what it had,
/// and is unchanged after an error.
///
/// # Errors
///
/// 1 Memory, only if the buffer had no room for the tag.
#[inline(always)]
pub fn write_tag(out: &mut Vec<u8>, tag: Tag) -> Result<(), AllocError>
    ensures { IsAppendedWhole (canonical (tag_view tag)) out.old out.new result }
{
    let len = out.len();
    let written = put_tag(out, tag);
    keep_whole(out, len, written)
}
