//! Values of Present_Value and Relinquish_Default: the octets of their encoding (clause 20.2) in
//! upper-case hexadecimal digits.

ghost use Rattle.std.specs.Prelude.{◌≡◌, ◌↔◌, IfOk, IfErr, IsTrue};
ghost use Rattle.gw_objects.specs.Table as table;
ghost use Rattle.gw_objects.specs.Table.{value_of};
ghost use Rattle.gw_codecs.specs.tags.Value.{value_encoding};
ghost use Rattle.gw_state_text.specs.Fit.{FitsKind};
ghost use Rattle.gw_state_text.specs.Reading.{Reads};
ghost use Rattle.gw_state_text.specs.Text.{value_text};
ghost use Rattle.gw_state_text.specs.Values.{octets_in, property_of, text_of, value_in, value_of as whole_value_of};
ghost use Rattle.gw_codecs.specs.tags.Value.{value_view};
ghost use Rattle.gw_state_text.specs.internal.Put.{IsPut};

use crate::fault::FaultKind;
use gw_addr::put_slice;
use gw_codecs::tags::{AppValue, CharacterString, read_value, write_value};
use gw_configuration::{ConfigFault, ObjectKind, Text};
use gw_objects::PropertyValue;
use hex::FromHexError;
use std::alloc::{AllocError, Global};

/// How many octets a value has at most: a text of 255 octets, its character set, and its tag.
const MAX_VALUE: usize = 260;

/// Appends the octets of a text's encoding.
fn put_text(out: &mut Vec<u8>, text: &Text) -> Result<(), AllocError>
    ensures { IsPut (value_encoding (table.text text.now)) out.old.items out.new.items result }
{
    let octets = text.as_str().as_bytes();
    write_value(out, AppValue::Text(CharacterString { charset: 0, octets }))
}

/// Appends the octets of a value's encoding.
fn put_octets(out: &mut Vec<u8>, value: &PropertyValue) -> Result<(), AllocError>
    ensures { IsPut (value_encoding (value_of value.now)) out.old.items out.new.items result }
{
    match value {
        PropertyValue::Binary(active) => {
            write_value(out, AppValue::Enumerated(u32::from(*active)))
        }
        PropertyValue::State(number) => write_value(out, AppValue::Unsigned(*number)),
        PropertyValue::Text(text) => put_text(out, text),
        PropertyValue::Integer(number) => write_value(out, AppValue::Signed(*number)),
        PropertyValue::PositiveInteger(number) => write_value(out, AppValue::Unsigned(*number)),
    }
}

/// Appends a value.
pub(crate) fn put_value(out: &mut Vec<u8>, value: &PropertyValue) -> Result<(), AllocError>
    ensures { IsPut (value_text value.now) out.old.items out.new.items result }
{
    let alloc = *out.allocator();
    let mut octets = Vec::new(alloc);
    put_octets(&mut octets, value)?;
    let digits = hex::encode_upper(alloc, octets.as_slice())?;
    put_slice(out, digits.as_bytes())
}

/// Whether a word is that value.
fn is_spelled(alloc: Global, value: &PropertyValue, word: &[u8]) -> Result<bool, FaultKind>
    ensures spelled { IfOk result (λ said. IsTrue said ↔ (word.now ≡ value_text value.now)) }
    ensures memory { IfErr result (λ kind. kind ≡ FaultKind.Memory) }
{
    let mut text = Vec::new(alloc);
    match put_value(&mut text, value) {
        Ok(()) => Ok(text.as_slice() == word),
        Err(_) => Err(FaultKind::Memory),
    }
}

/// The octets that a word is in digits, at most 260.
#[tactic(auto, unfolding(crate::specs::Values::octets_in))]
fn octets_in(alloc: Global, word: &[u8]) -> Result<Vec<u8>, FaultKind>
    ensures { Reads (λ octets. octets.items) result (octets_in word.now) }
{
    if word.len() > 2 * MAX_VALUE {
        return Err(FaultKind::Line);
    }
    match hex::decode(alloc, word) {
        Ok(octets) => Ok(octets),
        Err(FromHexError::OutOfMemory) => Err(FaultKind::Memory),
        Err(_) => Err(FaultKind::Line),
    }
}

/// A text of the value of an object.
fn text_of(alloc: Global, text: CharacterString<'_>) -> Result<PropertyValue, FaultKind>
    ensures is { IfOk result (λ value. FitsKind ObjectKind.CharacterStringValue value) }
    ensures exact { Reads (λ value. value) result (text_of text.entry.charset text.entry.octets.now) }
{
    if text.charset != 0 {
        return Err(FaultKind::Range);
    }
    let Ok(octets) = str::from_utf8(text.octets) else {
        return Err(FaultKind::Range);
    };
    match Text::new(alloc, 0, octets) {
        Ok(text) => Ok(PropertyValue::Text(text)),
        Err(ConfigFault::Memory) => Err(FaultKind::Memory),
        Err(_) => Err(FaultKind::Range),
    }
}

/// The value of an object of this type, by its kind.
#[tactic(auto, unfolding(crate::specs::Values::property_of))]
fn property_of(
    alloc: Global,
    kind: ObjectKind,
    value: AppValue<'_>,
) -> Result<PropertyValue, FaultKind>
    ensures is { IfOk result (λ value. FitsKind kind value) }
    ensures exact { Reads (λ value. value) result (property_of kind (value_view value.entry)) }
{
    match (kind, value) {
        (ObjectKind::BinaryValue, AppValue::Enumerated(0)) => Ok(PropertyValue::Binary(false)),
        (ObjectKind::BinaryValue, AppValue::Enumerated(1)) => Ok(PropertyValue::Binary(true)),
        (ObjectKind::MultiStateValue, AppValue::Unsigned(number)) => {
            Ok(PropertyValue::State(number))
        }
        (ObjectKind::CharacterStringValue, AppValue::Text(text)) => text_of(alloc, text),
        (ObjectKind::IntegerValue, AppValue::Signed(number)) => Ok(PropertyValue::Integer(number)),
        (ObjectKind::PositiveIntegerValue, AppValue::Unsigned(number)) => {
            Ok(PropertyValue::PositiveInteger(number))
        }
        _ => Err(FaultKind::Range),
    }
}

/// The value of an object of this type that octets encode.
#[tactic(auto, unfolding(crate::specs::Values::value_of))]
fn value_of(alloc: Global, kind: ObjectKind, octets: &[u8]) -> Result<PropertyValue, FaultKind>
    ensures is { IfOk result (λ value. FitsKind kind value) }
    ensures exact { Reads (λ value. value) result (whole_value_of kind octets.now) }
{
    let Ok((value, rest)) = read_value(octets) else {
        return Err(FaultKind::Line);
    };
    if !rest.is_empty() {
        return Err(FaultKind::Line);
    }
    property_of(alloc, kind, value)
}

/// The value of an object of this type that a word is. `Line` if the word is no value in its only form,
/// `Range` if it is a value of another type.
#[tactic(auto, unfolding(crate::specs::Values::value_in))]
pub(crate) fn value_in(
    alloc: Global,
    kind: ObjectKind,
    word: &[u8],
) -> Result<PropertyValue, FaultKind>
    ensures found { IfOk result (λ value. word.now ≡ value_text value) }
    ensures is { IfOk result (λ value. FitsKind kind value) }
    ensures exact { Reads (λ value. value) result (value_in kind word.now) }
{
    let octets = octets_in(alloc, word)?;
    let value = value_of(alloc, kind, octets.as_slice())?;
    if is_spelled(alloc, &value, word)? {
        Ok(value)
    } else {
        Err(FaultKind::Line)
    }
}
