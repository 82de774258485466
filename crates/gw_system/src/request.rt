//! The text of a request to a running gateway.

ghost use Rattle.std.specs.Prelude.{◌≡◌, ◌-◌, ◌==◌, length, take, IfOk};
ghost use Rattle.std.specs.List.{list_any};
ghost use Rattle.gw_system.specs.Request.{IsChecked, IsGiven, is_line, is_reload, is_request, is_status, is_stop, reload_request};
ghost use Rattle.gw_system.specs.Requests.{text_found};

use crate::obstacle::Obstacle;
use crate::reading::ReadFailure;
use itoa::Buffer;
use sha2::{Digest, Sha256};
use std::alloc::{AllocError, Global};

/// How many octets a request has at most. Its line has up to 93.
pub(crate) const MAX_REQUEST: usize = 128;

/// The text of a request to read a configuration of this text again, and no other: a line with `reload`, how many octets
/// the text has, and its SHA-256 in hexadecimal digits. An `Err` only if a growth was refused.
pub fn reload_request(alloc: Global, text: &[u8]) -> Result<Vec<u8>, AllocError>
    ensures { IfOk result (λ line. line.items ≡ reload_request text.now) }
{
    let mut line = Vec::from_slice(alloc, b"reload ")?;
    line.extend_from_slice(Buffer::new().format(text.len()).as_bytes())?;
    line.push(b' ')?;
    let digest = hex::encode(alloc, Sha256::digest(text))?;
    line.extend_from_slice(digest.as_bytes())?;
    line.push(b'\n')?;
    Ok(line)
}

/// Whether a text has a line feed.
fn has_feed(text: &[u8]) -> bool
    ensures { result ≡ list_any (λ o. o == 10) text.now }
{
    text.iter().any(|octet| *octet == b'\n')
}

/// Whether a text ends in its only line feed.
fn is_line(text: &[u8]) -> bool
    ensures { result ≡ is_line text.now }
{
    let front = &text[..text.len().saturating_sub(1)];
    text.ends_with(b"\n") && !has_feed(front)
}

/// What a running gateway is asked for.
#[derive(Drop)]
pub enum Request {
    /// To read its configuration again, of which this is the text, or `Ok(None)` if its file isn't there, or why that can't
    /// be read, or isn't what the request asks for.
    Reload(Result<Option<Vec<u8>>, ReadFailure>),
    /// To stop.
    Stop,
    /// To say what it counts.
    Status,
    /// Nothing: what has the name of a request isn't taken, since it is none, or can't be read or taken away.
    Untaken,
}

/// The text of a request to stop.
pub const STOP_REQUEST: &[u8] = b"stop\n";

/// The text of a request to say what is counted.
pub const STATUS_REQUEST: &[u8] = b"status\n";

/// Whether a text is a request to read the configuration again: nothing, or a line that names the text of one.
fn is_reload(text: &[u8]) -> bool
    ensures { result ≡ is_reload text.now }
{
    text.is_empty() || (text.starts_with(b"reload ") && is_line(text))
}

/// Whether a text is a request to stop.
pub(crate) fn is_stop(text: &[u8]) -> bool
    ensures { result ≡ is_stop text.now }
{
    text == STOP_REQUEST
}

/// Whether a text is a request to say what is counted.
pub(crate) fn is_status(text: &[u8]) -> bool
    ensures { result ≡ is_status text.now }
{
    text == STATUS_REQUEST
}

/// Whether a text is a request.
pub(crate) fn is_request(text: &[u8]) -> bool
    ensures { result ≡ is_request text.now }
{
    is_reload(text) || is_stop(text) || is_status(text)
}

/// A text that was read, if it is the one that a request names. Faults: `Unreadable` with `Changed`, and `Memory`.
fn checked_text(
    alloc: Global,
    request: &[u8],
    text: Vec<u8>,
) -> Result<Option<Vec<u8>>, ReadFailure>
    ensures { IsChecked request.now text.items (text_found result) }
{
    let Ok(line) = reload_request(alloc, &text) else {
        return Err(ReadFailure::Memory);
    };
    if line.as_slice() == request {
        Ok(Some(text))
    } else {
        Err(ReadFailure::Unreadable(Obstacle::Changed))
    }
}

/// What is given of a configuration that was read, by the text of the request: all that was read if that is empty, and
/// else the text that it names.
pub(crate) fn given_by(
    alloc: Global,
    request: &[u8],
    read: Result<Option<Vec<u8>>, ReadFailure>,
) -> Result<Option<Vec<u8>>, ReadFailure>
    ensures { IsGiven request.now (text_found read) (text_found result) }
{
    if request.is_empty() {
        return read;
    }
    match read {
        Ok(Some(text)) => checked_text(alloc, request, text),
        Ok(None) => Ok(None),
        Err(failure) => Err(failure),
    }
}
