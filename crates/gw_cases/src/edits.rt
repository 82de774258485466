//! Texts that are made of another by an edit.

use crate::notation::{unfolded, wanted};
use std::alloc::Global;
use std::io;
use std::io::ErrorKind;

/// The text of a section `config`: the built-in one if it is empty, or edits of that, each in a line after the word `edit`.
pub fn config_text(alloc: Global, built_in: &str, body: &str) -> io::Result<String> {
    let body = body.trim();
    if body.is_empty() {
        return Ok(String::from_str(alloc, built_in)?);
    }
    if body.starts_with("edit ") {
        return all_edited(alloc, built_in, body);
    }
    Ok(String::from_str(alloc, body)?)
}

/// The text with each of these edits made, one after the other.
fn all_edited(alloc: Global, text: &str, lines: &str) -> io::Result<String> {
    let mut text = String::from_str(alloc, text)?;
    for line in lines.lines() {
        let line = wanted(line.strip_prefix("edit "))?;
        text = edited(alloc, text.as_str(), line)?;
    }
    Ok(text)
}

/// The text edited by a line, `old | new`.
///
/// # Errors
///
/// If the line has another form, the old part isn't there, or memory is refused.
pub fn edited(alloc: Global, text: &str, line: &str) -> io::Result<String> {
    let (old, new) = wanted(line.split_once(" |"))?;
    let old = unfolded(alloc, old)?;
    let new = unfolded(alloc, new.strip_prefix(' ').unwrap_or(new))?;
    replaced(alloc, text, utf8(&old)?, utf8(&new)?)
}

/// The text with a new part in the place of the first old one.
fn replaced(alloc: Global, text: &str, old: &str, new: &str) -> io::Result<String> {
    let (front, rest) = wanted(text.split_once(old))?;
    let mut replaced = String::from_str(alloc, front)?;
    replaced.push_str(new)?;
    replaced.push_str(rest)?;
    Ok(replaced)
}

fn utf8(octets: &[u8]) -> io::Result<&str> {
    match str::from_utf8(octets) {
        Ok(text) => Ok(text),
        Err(_) => Err(ErrorKind::InvalidData.into()),
    }
}
