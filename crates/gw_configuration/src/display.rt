//! How a line shows a text that may have characters that could end the line, control a terminal or turn the
//! direction of writing.
ghost use Rattle.std.specs.Prelude.{◌≡◌, ◌≤◌, ◌+◌, ◌++◌, ◌∷◌, [], ◌==◌, if◌then◌else◌, length, IfSome, None, OnOk};
ghost use Rattle.std.specs.Iterator.{YieldsFirst, item_count};
ghost use Rattle.gw_configuration.specs.Shown.{hidden, hidden_by_three, hidden_by_two, is_hidden_pair, is_hidden_triple, is_printed, shown};
ghost use Rattle.gw_configuration.specs.internal.Display.{shown_left};

use std::alloc::AllocError;

/// What is shown in the place of a character.
const HIDDEN: u8 = b'?';

/// What a line shows of a text, octet by octet: one `?` in the place of each control character (U+0000 to U+001F,
/// U+007F to U+009F), of the separators U+2028 and U+2029, and of what turns the direction of writing (U+061C,
/// U+200E, U+200F, U+202A to U+202E, U+2066 to U+2069).
pub fn shown(text: &[u8]) -> ShownOctets<'_>
    ensures { shown_left result ≡ shown text.now }
{
    ShownOctets { rest: text }
}

/// Appends a text as a line shows it, as [`shown`] says. An `Err` only if a growth of memory was refused; then a front
/// of it may follow what the buffer held.
pub fn put_shown(out: &mut Vec<u8>, text: &[u8]) -> Result<(), AllocError>
    ensures { OnOk result (out.new.items ≡ out.old.items ++ shown text.now) }
{
    for octet in shown(text) {
        out.push(octet)?;
    }
    Ok(())
}

/// The octets that a line shows of a text.
#[derive(Clone, Drop)]
pub struct ShownOctets<'a> {
    rest: &'a [u8],
}

impl<'a> Iterator for ShownOctets<'a> {
    ghost use Rattle.gw_configuration.specs.internal.Display.{shown_left};

    type Item = u8;

    ghost next_gives = { YieldsFirst shown_left };

    ghost remaining = { item_count shown_left };

    fn next(&mut self) -> Option<u8> {
        let (octet, rest) = next_shown(self.rest)?;
        self.rest = rest;
        Some(octet)
    }
}

/// The first octet that a line shows of a text, and the part of the text that it shows after that.
fn next_shown(text: &[u8]) -> Option<(u8, &[u8])>
    ensures some { IfSome result (λ next. shown text.now ≡ next.0 ∷ shown next.1.now) }
    ensures none { result ≡ None → shown text.now ≡ [] }
{
    let (first, rest) = text.split_first()?;
    let len = hidden(text);
    Some((shown_octet(*first, len), &rest[len.saturating_sub(1)..]))
}

/// What is shown of the first octet of a character, of which so many octets are hidden.
fn shown_octet(first: u8, len: usize) -> u8
    ensures { result ≡ (if len == 0 then first else 63) }
{
    if len == 0 { first } else { HIDDEN }
}

/// How many octets the character has that the text begins with, if a line doesn't show it; else 0.
fn hidden(text: &[u8]) -> usize
    ensures len { result ≡ hidden text.now }
    ensures within { result ≤ length text.now }
{
    match text.split_first() {
        Some((first, rest)) if is_printed(*first) => hidden_by_two(*first, rest),
        Some(_) => 1,
        None => 0,
    }
}

/// The same of one of two octets or three, if what follows the first is this.
fn hidden_by_two(first: u8, rest: &[u8]) -> usize
    ensures len { result ≡ hidden_by_two first rest.now }
    ensures within { result ≤ length rest.now + 1 }
{
    match rest.split_first() {
        Some((second, _)) if is_hidden_pair(first, *second) => 2,
        Some((second, rest)) => hidden_by_three(first, *second, rest),
        None => 0,
    }
}

/// The same of one of three octets, if what follows the first two is this.
fn hidden_by_three(first: u8, second: u8, rest: &[u8]) -> usize
    ensures len { result ≡ hidden_by_three first second rest.now }
    ensures within { result ≤ length rest.now + 2 }
{
    match rest.split_first() {
        Some((third, _)) if is_hidden_triple(first, second, *third) => 3,
        _ => 0,
    }
}

/// Whether an octet is no control character of ASCII.
fn is_printed(octet: u8) -> bool
    ensures { result ≡ is_printed octet }
{
    31 < octet && octet != 127
}

/// Whether two octets are a character that a line doesn't show: U+0080 to U+009F, or U+061C.
fn is_hidden_pair(first: u8, second: u8) -> bool
    ensures { result ≡ is_hidden_pair first second }
{
    first == 0xC2 && 0x80 <= second && second <= 0x9F || first == 0xD8 && second == 0x9C
}

/// Whether three octets are one: U+200E, U+200F, U+2028 to U+202E, or U+2066 to U+2069.
fn is_hidden_triple(first: u8, second: u8, third: u8) -> bool
    ensures { result ≡ is_hidden_triple first second third }
{
    first == 0xE2
        && (second == 0x80 && (0x8E <= third && third <= 0x8F || 0xA8 <= third && third <= 0xAE)
            || second == 0x81 && 0xA6 <= third && third <= 0xA9)
}
