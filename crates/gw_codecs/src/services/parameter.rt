//! The parameters of a body, each read from the front of octets with what follows it.

ghost use Rattle.std.specs.Prelude.{◌≡◌, ◌≤◌, ◌<◌, IfOk, IfSome, Option};
ghost use Rattle.gw_addr.specs.Reading.{Gives};
ghost use Rattle.std.specs.Option.{option_map};
ghost use Rattle.gw_codecs.specs.tags.Object.{object_view};
ghost use Rattle.gw_codecs.specs.tags.Value.{Value, value_view};
ghost use Rattle.gw_codecs.specs.services.Reading.{object_in, number_in, text_in, due_at, given_at, object_at, number_at, text_at, number_maybe_at, object_maybe_at, values_at, any_value_at, value_of_kind_at, number_of_kind_at, object_value, unsigned_value, enumerated_value, text_value, ranged};

use crate::services::fault::BodyFault;
use crate::tags::{
    AppValue, CharacterString, ContextFault, ObjectId, read_context, read_list, read_opening,
    read_unsigned, read_value,
};

/// A content under a context tag, and the octets after it.
type Content<'a> = (&'a [u8], &'a [u8]);

/// Four octets are an object.
fn object_of(own: &[u8]) -> Result<ObjectId, BodyFault>
    ensures { Gives (λ o. object_view o) result (object_in own.now) }
{
    let [a, b, c, d] = own else {
        return Err(BodyFault::InvalidTag);
    };
    Ok(ObjectId::from_octets([*a, *b, *c, *d]))
}

/// One to four octets are a number, which has its range.
fn number_of(least: u32, most: u32, own: &[u8]) -> Result<u32, BodyFault>
    ensures exact { Gives (λ n. n) result (number_in least most own.now) }
    ensures range { IfOk result (λ n. (least ≤ n) × (n ≤ most)) }
{
    let Some(number) = read_unsigned(own) else {
        return Err(BodyFault::InvalidTag);
    };
    within(least, most, number)
}

/// A number in its range.
fn within(least: u32, most: u32, number: u32) -> Result<u32, BodyFault>
    ensures exact { Gives (λ n. n) result (ranged least most number) }
    ensures range { IfOk result (λ n. (least ≤ n) × (n ≤ most)) }
{
    if number < least || number > most {
        return Err(BodyFault::OutOfRange);
    }
    Ok(number)
}

/// A character set and octets, which in set 0 are UTF-8.
fn text_of(own: &[u8]) -> Result<CharacterString<'_>, BodyFault>
    ensures { Gives (λ t. (t.charset, t.octets.now)) result (text_in own.now) }
{
    let [charset, octets @ ..] = own else {
        return Err(BodyFault::InvalidTag);
    };
    match CharacterString::new(*charset, octets) {
        Some(text) => Ok(text),
        None => Err(BodyFault::InvalidTag),
    }
}

/// The content under the tag, which has to be there.
fn due(tag: u8, octets: &[u8]) -> Result<Content<'_>, BodyFault>
    requires { tag < 255 }
    ensures { Gives (λ x. (x.0.now, x.1.now)) result (due_at tag octets.now) }
{
    if octets.is_empty() {
        return Err(BodyFault::Missing);
    }
    match read_context(tag, octets) {
        Ok(content) => Ok(content),
        Err(_) => Err(BodyFault::InvalidTag),
    }
}

/// The content under the tag, which may be there.
fn given(tag: u8, octets: &[u8]) -> Result<Option<Content<'_>>, BodyFault>
    requires { tag < 255 }
    ensures { Gives (λ g. option_map (λ x. (x.0.now, x.1.now)) g) result (given_at tag octets.now) }
{
    if octets.is_empty() {
        return Ok(None);
    }
    match read_context(tag, octets) {
        Ok(content) => Ok(Some(content)),
        Err(ContextFault::OtherTag) => Ok(None),
        Err(ContextFault::Short | ContextFault::BadTag) => Err(BodyFault::InvalidTag),
    }
}

/// An object identifier under this context tag, and the octets after it. `Missing` if the octets end here, and
/// `InvalidTag` if something else is there.
pub fn object(tag: u8, octets: &[u8]) -> Result<(ObjectId, &[u8]), BodyFault>
    requires { tag < 255 }
    ensures { Gives (λ x. (object_view x.0, x.1.now)) result (object_at tag octets.now) }
{
    let (own, rest) = due(tag, octets)?;
    let object = object_of(own)?;
    Ok((object, rest))
}

/// A number of at least `least` and at most `most` under this context tag, and the octets after it. `Missing` if the
/// octets end here, `InvalidTag` if something else is there, and `OutOfRange` for another number.
pub fn number(tag: u8, least: u32, most: u32, octets: &[u8]) -> Result<(u32, &[u8]), BodyFault>
    requires { tag < 255 }
    ensures exact { Gives (λ x. (x.0, x.1.now)) result (number_at tag least most octets.now) }
    ensures range { IfOk result (λ x. (least ≤ x.0) × (x.0 ≤ most)) }
{
    let (own, rest) = due(tag, octets)?;
    let number = number_of(least, most, own)?;
    Ok((number, rest))
}

/// The same number, if its tag is there, or none. `InvalidTag` if there is no whole tag or no number under it,
/// and `OutOfRange` for a number outside its range.
pub fn number_maybe(
    tag: u8,
    least: u32,
    most: u32,
    octets: &[u8],
) -> Result<(Option<u32>, &[u8]), BodyFault>
    requires { tag < 255 }
    ensures exact { Gives (λ x. (x.0, x.1.now)) result (number_maybe_at tag least most octets.now) }
    ensures range { IfOk result (λ x. IfSome x.0 (λ n. (least ≤ n) × (n ≤ most))) }
{
    let Some((own, rest)) = given(tag, octets)? else {
        return Ok((None, octets));
    };
    let number = number_of(least, most, own)?;
    Ok((Some(number), rest))
}

/// An object identifier under this context tag, if that is there, or none, and the octets after it. `InvalidTag`
/// if there is no whole tag or no object identifier under it.
pub fn object_maybe(tag: u8, octets: &[u8]) -> Result<(Option<ObjectId>, &[u8]), BodyFault>
    requires { tag < 255 }
    ensures { Gives (λ x. (option_map object_view x.0, x.1.now))
        result (object_maybe_at tag octets.now) }
{
    let Some((own, rest)) = given(tag, octets)? else {
        return Ok((None, octets));
    };
    let object = object_of(own)?;
    Ok((Some(object), rest))
}

/// A character string under this context tag, and the octets after it. `Missing` if the octets end here, and
/// `InvalidTag` if something else is there.
pub fn text(tag: u8, octets: &[u8]) -> Result<(CharacterString<'_>, &[u8]), BodyFault>
    requires { tag < 255 }
    ensures { Gives (λ x. ((x.0.charset, x.0.octets.now), x.1.now)) result (text_at tag octets.now) }
{
    let (own, rest) = due(tag, octets)?;
    let text = text_of(own)?;
    Ok((text, rest))
}

/// The octets of the values between this opening tag and its closing one, and the octets after it. `Missing` if the
/// octets end here, and `InvalidTag` if the tags aren't there or what is between them isn't balanced.
pub fn values(tag: u8, octets: &[u8]) -> Result<(&[u8], &[u8]), BodyFault>
    requires { tag < 255 }
    ensures { Gives (λ x. (x.0.now, x.1.now)) result (values_at tag octets.now) }
{
    if octets.is_empty() {
        return Err(BodyFault::Missing);
    }
    let Ok(inner) = read_opening(tag, octets) else {
        return Err(BodyFault::InvalidTag);
    };
    match read_list(tag, inner) {
        Some(list) => Ok(list),
        None => Err(BodyFault::InvalidTag),
    }
}

/// A value that has to be there.
fn any_value(octets: &[u8]) -> Result<(AppValue<'_>, &[u8]), BodyFault>
    ensures { Gives (λ x. (value_view x.0, x.1.now)) result (any_value_at octets.now) }
{
    if octets.is_empty() {
        return Err(BodyFault::Missing);
    }
    match read_value(octets) {
        Ok(value) => Ok(value),
        Err(_) => Err(BodyFault::InvalidTag),
    }
}

/// An object identifier by its application tag, and the octets after it. `Missing` if the octets end here, and
/// `InvalidTag` for any other value.
pub fn plain_object(octets: &[u8]) -> Result<(ObjectId, &[u8]), BodyFault>
    ensures { Gives (λ x. (object_view x.0, x.1.now))
        result (value_of_kind_at object_value octets.now) }
{
    let (value, rest) = any_value(octets)?;
    match value {
        AppValue::Object(object) => Ok((object, rest)),
        _ => Err(BodyFault::InvalidTag),
    }
}

/// An Unsigned of at most `most`, and the octets after it. `Missing` if the octets end here, `InvalidTag` for any other
/// value, and `OutOfRange` for a greater one.
pub fn plain_unsigned(most: u32, octets: &[u8]) -> Result<(u32, &[u8]), BodyFault>
    ensures exact { Gives (λ x. (x.0, x.1.now))
        result (number_of_kind_at unsigned_value 0 most octets.now) }
    ensures range { IfOk result (λ x. x.0 ≤ most) }
{
    let (value, rest) = any_value(octets)?;
    match value {
        AppValue::Unsigned(number) => {
            let number = within(0, most, number)?;
            Ok((number, rest))
        }
        _ => Err(BodyFault::InvalidTag),
    }
}

/// An Enumerated of at most `most`, and the octets after it. `Missing` if the octets end here, `InvalidTag` for any
/// other value, and `OutOfRange` for a greater one.
pub fn plain_enumerated(most: u32, octets: &[u8]) -> Result<(u32, &[u8]), BodyFault>
    ensures exact { Gives (λ x. (x.0, x.1.now))
        result (number_of_kind_at enumerated_value 0 most octets.now) }
    ensures range { IfOk result (λ x. x.0 ≤ most) }
{
    let (value, rest) = any_value(octets)?;
    match value {
        AppValue::Enumerated(number) => {
            let number = within(0, most, number)?;
            Ok((number, rest))
        }
        _ => Err(BodyFault::InvalidTag),
    }
}

/// A character string by its application tag, and the octets after it. `Missing` if the octets end here, and
/// `InvalidTag` for any other value.
pub fn plain_text(octets: &[u8]) -> Result<(CharacterString<'_>, &[u8]), BodyFault>
    ensures { Gives (λ x. ((x.0.charset, x.0.octets.now), x.1.now))
        result (value_of_kind_at text_value octets.now) }
{
    let (value, rest) = any_value(octets)?;
    match value {
        AppValue::Text(text) => Ok((text, rest)),
        _ => Err(BodyFault::InvalidTag),
    }
}
