//! How cases and answers are written: numbers, the octets of digits, line feeds, carriage returns and repetitions.

use hex::FromHexError;
use std::alloc::Global;
use std::fmt::Display;
use std::io;
use std::io::{ErrorKind, Write};
use std::str::FromStr;

/// Whether a line is a case: it isn't empty, and no comment.
pub fn is_case(line: &str) -> bool {
    !line.is_empty() && !line.starts_with('#')
}

/// What a case lacks that isn't written as its kind wants.
pub fn wanted<T: Drop>(found: Option<T>) -> io::Result<T> {
    match found {
        Some(found) => Ok(found),
        None => Err(ErrorKind::InvalidData.into()),
    }
}

/// What is made, unless its fault is one. The fault of refused memory is given; any other says that the case isn't written as its kind
/// wants.
pub fn made<T: Drop, F: PartialEq + Drop>(made: Result<T, F>, memory: F) -> io::Result<T> {
    match made {
        Ok(made) => Ok(made),
        Err(fault) if fault == memory => Err(ErrorKind::OutOfMemory.into()),
        Err(_) => Err(ErrorKind::InvalidData.into()),
    }
}

/// A number.
pub fn number<T>(word: Option<&str>) -> io::Result<T>
where
    T: FromStr + Drop,
    T::Err: Drop,
{
    match wanted(word)?.parse() {
        Ok(number) => Ok(number),
        Err(_) => Err(ErrorKind::InvalidData.into()),
    }
}

/// A number, or `-` for none.
pub fn number_or_none(word: Option<&str>) -> io::Result<Option<u64>> {
    match word {
        Some("-") => Ok(None),
        _ => Ok(Some(number(word)?)),
    }
}

/// The number after a word, in the first part of a text that begins with it.
pub fn number_behind<T>(text: &str, separator: char, word: &str) -> Option<T>
where
    T: FromStr + Drop,
    T::Err: Drop,
{
    let text = text
        .split(separator)
        .find_map(|part| part.strip_prefix(word))?;
    text.parse().ok()
}

/// Appends a text, with a line feed for `~` and a carriage return for `^`.
fn put_text(text: &str, out: &mut Vec<u8>) -> io::Result<()> {
    for octet in text.bytes() {
        out.push(match octet {
            b'~' => b'\n',
            b'^' => b'\r',
            _ => octet,
        })?;
    }
    Ok(())
}

/// Appends a text with a number in the place of each `#`.
fn put_numbered(text: &str, number: u64, out: &mut Vec<u8>) -> io::Result<()> {
    for (place, part) in text.split('#').enumerate() {
        if place > 0 {
            write!(out, "{number}")?;
        }
        put_text(part, out)?;
    }
    Ok(())
}

/// Appends a text so many times, numbered from 0.
fn put_repeated(repetition: &str, out: &mut Vec<u8>) -> io::Result<()> {
    let (count, text) = wanted(repetition.split_once(' '))?;
    let count: u64 = number(Some(count))?;
    for place in 0..count {
        put_numbered(text, place, out)?;
    }
    Ok(())
}

/// The text that is written with `~` for a line feed, `^` for a carriage return, and `<3 ab#>` for `ab0ab1ab2`.
pub fn unfolded(alloc: Global, text: &str) -> io::Result<Vec<u8>> {
    let mut out = Vec::new(alloc);
    for part in text.split('>') {
        match part.split_once('<') {
            Some((front, repetition)) => {
                put_text(front, &mut out)?;
                put_repeated(repetition, &mut out)?;
            }
            None => put_text(part, &mut out)?,
        }
    }
    Ok(out)
}

/// The event lines of a script, without comments and empty lines.
pub fn event_lines(alloc: Global, body: &str) -> io::Result<Vec<u8>> {
    let mut lines = Vec::new(alloc);
    for line in body.lines() {
        if is_case(line) {
            writeln!(&mut lines, "{line}")?;
        }
    }
    Ok(lines)
}

/// Appends how something ended: `ok`, or the fault.
pub fn put_end<F: Display + Drop>(end: Result<(), F>, out: &mut Vec<u8>) -> io::Result<()> {
    match end {
        Ok(()) => write!(out, "ok"),
        Err(fault) => write!(out, "{fault}"),
    }
}

/// Appends a space and a text, with `~` for each line feed and `^` for each carriage return; nothing where the text is empty.
pub fn put_word(text: &[u8], out: &mut Vec<u8>) -> io::Result<()> {
    if !text.is_empty() {
        out.push(b' ')?;
    }
    for octet in text {
        out.push(match octet {
            b'\n' => b'~',
            b'\r' => b'^',
            _ => *octet,
        })?;
    }
    Ok(())
}

/// The octets that digits write, with spaces between for reading, and `-` for none.
pub fn octets_of(alloc: Global, text: &str) -> io::Result<Vec<u8>> {
    let mut digits = unfolded(alloc, text)?;
    digits.retain(|octet| !matches!(*octet, b' ' | b'-'));
    made(
        hex::decode(alloc, digits.as_slice()),
        FromHexError::OutOfMemory,
    )
}

/// Appends the digits of octets.
pub fn put_octets(alloc: Global, octets: &[u8], out: &mut Vec<u8>) -> io::Result<()> {
    let digits = hex::encode_upper(alloc, octets)?;
    out.extend_from_slice(digits.as_bytes())?;
    Ok(())
}

/// Appends the digits of the octets that a message is written in, where they aren't those that it was read of.
pub fn put_other(alloc: Global, read: &[u8], written: &[u8], out: &mut Vec<u8>) -> io::Result<()> {
    if read == written {
        return Ok(());
    }
    write!(out, " as ")?;
    put_octets(alloc, written, out)
}
