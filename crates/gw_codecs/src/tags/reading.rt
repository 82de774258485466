//! Reading a tag from the front of octets (clause 20.2.1).

ghost use Rattle.std.specs.Prelude.{◌≡◌, ◌↔◌, ◌%◌, List, ℕ, IfOk, IsOkAnd, nat_lt};
ghost use Rattle.gw_addr.specs.Reading.{Gives};
ghost use Rattle.gw_codecs.specs.tags.Tag.{Tag as TagFields, IsTag, tag_view, BeginsWith, IsBadTag, IsShortTag};
ghost use Rattle.gw_codecs.specs.tags.Reading.{tag_number_at, length_at, kind_at, header_at, tag_at, low_bits_at};

use crate::tags::fault::TagFault;
use crate::tags::tag::{Kind, Tag};
use gw_addr::{long_number, number, octet};

/// A tag at the front of octets.
#[derive(Clone, Copy)]
pub struct Header<'a> {
    /// The tag.
    pub tag: Tag,
    /// The three low bits of the first octet, 0 to 7. Of an application Boolean they are the value,
    /// and not the length, which may also have octets of its own (clause 20.2.3).
    pub low_bits: u8,
    /// The octets after the tag.
    pub rest: &'a [u8],
}

/// A tag's number, class and kind as they are read, not yet judged.
struct Whole<'a> {
    number: u8,
    context: bool,
    kind: Kind,
    low_bits: u8,
    rest: &'a [u8],
}

fn tag_number(first: u8, rest: &[u8]) -> Result<(u8, &[u8]), TagFault>
    ensures { Gives (λ x. (x.0, x.1.now)) result (tag_number_at first rest.now) }
{
    match first >> 4 {
        15 => octet(TagFault::Short, rest),
        number => Ok((number, rest)),
    }
}

fn length(octets: &[u8]) -> Result<(u32, &[u8]), TagFault>
    ensures { Gives (λ x. (x.0, x.1.now)) result (length_at octets.now) }
{
    let (first, rest) = octet(TagFault::Short, octets)?;
    match first {
        254 => {
            let (length, rest) = number(TagFault::Short, rest)?;
            Ok((u32::from(length), rest))
        }
        255 => long_number(TagFault::Short, rest),
        length => Ok((u32::from(length), rest)),
    }
}

fn kind(low_bits: u8, rest: &[u8]) -> Result<(Kind, &[u8]), TagFault>
    ensures { Gives (λ x. (x.0, x.1.now)) result (kind_at low_bits rest.now) }
{
    match low_bits {
        5 => {
            let (length, rest) = length(rest)?;
            Ok((Kind::Length(length), rest))
        }
        6 => Ok((Kind::Opening, rest)),
        7 => Ok((Kind::Closing, rest)),
        length => Ok((Kind::Length(u32::from(length)), rest)),
    }
}

#[tactic(auto, using(crate::proofs::tags_lemmas::Octets::class_bit_set))]
fn is_context(first: u8) -> bool
    ensures { result ≡ nat_lt 7 (first % 16) }
{
    first & 0x08 != 0
}

fn read_whole(octets: &[u8]) -> Result<Whole<'_>, TagFault>
    ensures exact { Gives
        (λ p. (record { number = p.number; context = p.context; kind = p.kind }, p.rest.now))
        result (header_at octets.now) }
    ensures low_bits { IfOk result (λ p. p.low_bits ≡ low_bits_at octets.now) }
{
    let (first, rest) = octet(TagFault::Short, octets)?;
    let (number, rest) = tag_number(first, rest)?;
    let low_bits = first & 0x07;
    let (kind, rest) = kind(low_bits, rest)?;
    Ok(Whole {
        number,
        context: is_context(first),
        kind,
        low_bits,
        rest,
    })
}

/// What `read_tag` gives, said by the reading function alone.
fn read(octets: &[u8]) -> Result<Header<'_>, TagFault>
    ensures exact { Gives (λ header. (tag_view header.tag, header.rest.now))
        result (tag_at octets.now) }
    ensures low_bits { IfOk result (λ header. header.low_bits ≡ low_bits_at octets.now) }
{
    let Whole {
        number,
        context,
        kind,
        low_bits,
        rest,
    } = read_whole(octets)?;
    if number == 255 || !(kind.is_length() || context) {
        return Err(TagFault::BadTag);
    }
    let tag = Tag {
        number,
        context,
        kind,
    };
    Ok(Header {
        tag,
        low_bits,
        rest,
    })
}

/// Reads the tag at the front of the octets. A number or a length may have more octets than it
/// needs.
///
/// # Errors
///
/// 1 `Short` if the octets end within the tag, and 2 `BadTag` if the tag is whole and its
/// number is 255, or it opens or closes a list and its class is application.
pub fn read_tag(octets: &[u8]) -> Result<Header<'_>, TagFault>
    // What is read is encoded so, and can be written.
    ensures found { IfOk
        result (λ header. BeginsWith octets.now (tag_view header.tag) header.rest.now) }
    ensures valid { IfOk result (λ header. IsTag (tag_view header.tag)) }
    // What is encoded so is read, and the octets after it are the rest.
    ensures only { (tag : TagFields) (rest : List ℕ) → IsTag tag → BeginsWith octets.now tag rest
        → IsOkAnd result (λ header. (tag_view header.tag ≡ tag) × (header.rest.now ≡ rest)) }

    // Which fault it is.
    ensures short { (result ≡ Err TagFault.Short) ↔ IsShortTag octets.now }
    ensures bad_tag { (result ≡ Err TagFault.BadTag) ↔ IsBadTag octets.now }

    ensures low_bits { IfOk result (λ header. header.low_bits ≡ low_bits_at octets.now) }
    ensures exact { Gives (λ header. (tag_view header.tag, header.rest.now))
        result (tag_at octets.now) }
{
    read(octets)
}
