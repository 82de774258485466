//! Reading a value from the front of octets (clause 20.2).

ghost use Rattle.std.specs.Prelude.{◌≡◌, ◌<◌, ◌≤◌, ◌^◌, ◌==◌, nat_lt, true, Ok, ℕ, List, length, IfOk, IsOkAnd, ◌↔◌, Err};
ghost use Rattle.gw_addr.specs.Reading.{Gives, front_at};
ghost use Rattle.gw_addr.specs.Address.{big_endian};
ghost use Rattle.gw_codecs.specs.tags.Number.{twos_complement};
ghost use Rattle.gw_codecs.specs.tags.Object.{object_of};
ghost use Rattle.gw_codecs.specs.tags.Reading.{head_at, octets_at, content_at, number_in, judged_text_at, judged_body_at, one_to_four, null_at, boolean_at, text_at, bits_at, body_at, judged, value_at};
ghost use Rattle.gw_codecs.specs.tags.Value.{double as double_value, octet_string as string_value, signed as signed_value};
ghost use Rattle.gw_codecs.specs.tags.Value.{Value, value_view, IsValue, BeginsWithValue, IsShortValue, IsBadValueTag, IsBadLength, IsBadText};
ghost use Rattle.gw_codecs.specs.tags.internal.Body.{body_view};

use crate::tags::body::Body;
use crate::tags::datatype::{Datatype, of_number};
use crate::tags::fault::ValueFault;
use crate::tags::number;
use crate::tags::object::ObjectId;
use crate::tags::reading::read_tag;
use crate::tags::strings::{BitString, CharacterString};
use crate::tags::tag::Kind;
use crate::tags::utf8::is_utf8;
use crate::tags::value::AppValue;
use gw_addr::{front, octet};

type Found<'a> = Result<(AppValue<'a>, &'a [u8]), ValueFault>;

/// The kind of the value at the front, and what follows its tag.
fn head(octets: &[u8]) -> Result<(Datatype, Body<'_>), ValueFault>
    ensures { Gives (λ x. (x.0, body_view x.1)) result (head_at octets.now) }
{
    let header = read_tag(octets)?;
    if header.tag.context {
        return Err(ValueFault::BadTag);
    }
    let datatype = of_number(header.tag.number)?;
    let Kind::Length(count) = header.tag.kind else {
        return Err(ValueFault::BadTag);
    };
    Ok((
        datatype,
        Body {
            low_bits: header.low_bits,
            count,
            octets: header.rest,
        },
    ))
}

/// The content, if the kind has one of this length.
fn content(has_length: bool, body: Body<'_>) -> Result<(&[u8], &[u8]), ValueFault>
    ensures { Gives (λ x. (x.0.now, x.1.now)) result (octets_at has_length (body_view body.entry)) }
{
    if has_length {
        front(ValueFault::Short, body.count as usize, body.octets)
    } else {
        Err(ValueFault::BadLength)
    }
}

fn null(body: Body<'_>) -> Found<'_>
    ensures { Gives (λ x. (value_view x.0, x.1.now)) result (null_at (body_view body.entry)) }
{
    if body.count != 0 {
        return Err(ValueFault::BadLength);
    }
    Ok((AppValue::Null, body.octets))
}

fn boolean(body: Body<'_>) -> Found<'_>
    ensures { Gives (λ x. (value_view x.0, x.1.now)) result (boolean_at (body_view body.entry)) }
{
    match body.low_bits {
        0 => Ok((AppValue::Boolean(false), body.octets)),
        1 => Ok((AppValue::Boolean(true), body.octets)),
        _ => Err(ValueFault::BadLength),
    }
}

/// A number in one to four octets, as what its content is.
fn unsigned(body: Body<'_>) -> Result<(u32, &[u8]), ValueFault>
    ensures { Gives (λ x. (x.0, x.1.now)) result (number_in big_endian (body_view body.entry)) }
{
    let (content, rest) = content((1..=4).contains(&body.count), body)?;
    match number::unsigned(content) {
        Some(n) => Ok((n, rest)),
        None => Err(ValueFault::BadLength),
    }
}

fn signed(body: Body<'_>) -> Found<'_>
    ensures { Gives (λ x. (value_view x.0, x.1.now)) result
        (content_at one_to_four (λ o. signed_value (twos_complement o)) (body_view body.entry)) }
{
    let (content, rest) = content((1..=4).contains(&body.count), body)?;
    match number::signed(content) {
        Some(z) => Ok((AppValue::Signed(z), rest)),
        None => Err(ValueFault::BadLength),
    }
}

fn four(body: Body<'_>) -> Result<([u8; 4], &[u8]), ValueFault>
    ensures { Gives (λ x. (x.0, x.1.now))
        result (octets_at (body.entry.count == 4) (body_view body.entry)) }
{
    let (content, rest) = content(body.count == 4, body)?;
    let [a, b, c, d] = content else {
        return Err(ValueFault::BadLength);
    };
    Ok(([*a, *b, *c, *d], rest))
}

fn double(body: Body<'_>) -> Found<'_>
    ensures { Gives (λ x. (value_view x.0, x.1.now))
        result (content_at (λ n. n == 8) double_value (body_view body.entry)) }
{
    let (content, rest) = content(body.count == 8, body)?;
    let [a, b, c, d, e, f, g, h] = content else {
        return Err(ValueFault::BadLength);
    };
    Ok((AppValue::Double([*a, *b, *c, *d, *e, *f, *g, *h]), rest))
}

fn octet_string(body: Body<'_>) -> Found<'_>
    ensures { Gives (λ x. (value_view x.0, x.1.now))
        result (content_at (λ n. true) string_value (body_view body.entry)) }
{
    let (octets, rest) = content(true, body)?;
    Ok((AppValue::Octets(octets), rest))
}

fn text(body: Body<'_>) -> Found<'_>
    ensures { Gives (λ x. (value_view x.0, x.1.now)) result (judged_text_at (body_view body.entry)) }
{
    let (content, rest) = content(body.count > 0, body)?;
    let [charset, octets @ ..] = content else {
        return Err(ValueFault::BadLength);
    };
    if *charset == 0 && !is_utf8(octets) {
        return Err(ValueFault::BadText);
    }
    let text = CharacterString {
        charset: *charset,
        octets,
    };
    Ok((AppValue::Text(text), rest))
}

fn bits(body: Body<'_>) -> Found<'_>
    ensures { Gives (λ x. (value_view x.0, x.1.now)) result (bits_at (body_view body.entry)) }
{
    if body.count == 0 {
        return Err(ValueFault::BadLength);
    }
    let (unused, octets) = octet(ValueFault::Short, body.octets)?;
    let count = body.count - 1;
    if unused > 7 || count == 0 && unused != 0 {
        return Err(ValueFault::BadLength);
    }
    let rest = Body {
        low_bits: body.low_bits,
        count,
        octets,
    };
    let (octets, rest) = content(true, rest)?;
    Ok((AppValue::Bits(BitString { unused, octets }), rest))
}

/// The content of a kind.
fn value(datatype: Datatype, body: Body<'_>) -> Found<'_>
    ensures { Gives (λ x. (value_view x.0, x.1.now))
        result (judged_body_at datatype (body_view body.entry)) }
{
    match datatype {
        Datatype::Null => null(body),
        Datatype::Boolean => boolean(body),
        Datatype::Unsigned => {
            let (n, rest) = unsigned(body)?;
            Ok((AppValue::Unsigned(n), rest))
        }
        Datatype::Signed => signed(body),
        Datatype::Real => {
            let (octets, rest) = four(body)?;
            Ok((AppValue::Real(octets), rest))
        }
        Datatype::Double => double(body),
        Datatype::Octets => octet_string(body),
        Datatype::Text => text(body),
        Datatype::Bits => bits(body),
        Datatype::Enumerated => {
            let (n, rest) = unsigned(body)?;
            Ok((AppValue::Enumerated(n), rest))
        }
        Datatype::Date => {
            let (octets, rest) = four(body)?;
            Ok((AppValue::Date(octets), rest))
        }
        Datatype::Time => {
            let (octets, rest) = four(body)?;
            Ok((AppValue::Time(octets), rest))
        }
        Datatype::Object => {
            let (octets, rest) = four(body)?;
            Ok((AppValue::Object(ObjectId::from_octets(octets)), rest))
        }
    }
}

/// The value at the front, said by the reading function alone.
fn read(octets: &[u8]) -> Found<'_>
    ensures { Gives (λ x. (value_view x.0, x.1.now)) result (value_at octets.now) }
{
    let (datatype, body) = head(octets)?;
    value(datatype, body)
}

/// Reads the value at the front of the octets, and lends the octets after it. A number, a length
/// or a tag number may have more octets than it needs.
///
/// # Errors
///
/// 1 `Short`, 2 `BadTag`, 3 `BadLength` and 4 `BadText`, as [`ValueFault`] says. The tag is read
/// whole before it is judged, and a content's length before it is cut.
pub fn read_value(octets: &[u8]) -> Found<'_>
    // What is read is encoded so, and can be written.
    ensures found { IfOk result (λ x. BeginsWithValue octets.now (value_view x.0) x.1.now) }
    ensures valid { IfOk result (λ x. IsValue (value_view x.0)) }
    // What is encoded so is read, and the octets after it are the rest.
    ensures only { (value : Value) (rest : List ℕ) → IsValue value
        → BeginsWithValue octets.now value rest
        → IsOkAnd result (λ x. (value_view x.0 ≡ value) × (x.1.now ≡ rest)) }

    // Which fault it is.
    ensures short { (result ≡ Err ValueFault.Short) ↔ IsShortValue octets.now }
    ensures bad_tag { (result ≡ Err ValueFault.BadTag) ↔ IsBadValueTag octets.now }
    ensures bad_length { (result ≡ Err ValueFault.BadLength) ↔ IsBadLength octets.now }
    ensures bad_text { (result ≡ Err ValueFault.BadText) ↔ IsBadText octets.now }

    ensures exact { Gives (λ x. (value_view x.0, x.1.now)) result (value_at octets.now) }
{
    read(octets)
}
