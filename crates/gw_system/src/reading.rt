//! Files that are read whole, and the last denial of a log.

ghost use Rattle.std.specs.Fs.{IsDir, file_type};
ghost use Rattle.std.specs.Prelude.{◌≡◌, ◌≢◌, ◌++◌, ◌∷◌, MatchOption};
ghost use Rattle.gw_addr.specs.Text.{Lacks};
ghost use Rattle.gw_system.specs.LogEnd.{IsFromLine};
ghost use Rattle.gw_system.specs.declared.obstacle.Obstacle.TheVariants.{Absent, Folder, NotPermitted, Other};
ghost use Rattle.gw_system.specs.declared.reading.ReadFailure.TheVariants.{Memory, Unreadable};

use crate::obstacle::Obstacle;
use gw_log_words::last_denial;
use memchr::memchr;
use std::alloc::{AllocError, Global};
use std::fs::Metadata;
use std::io::{ErrorKind, Read, Seek, SeekFrom};
use std::rt::Files;
use std::{fs, io};

/// Why what a file holds isn't known.
#[derive(Clone, Copy)]
pub enum ReadFailure {
    /// It can't be read, and why: also if it is no regular file, or is longer than what is read of it.
    Unreadable(Obstacle),
    /// A growth was refused.
    Memory,
}

impl ReadFailure {
    /// The failure of a call, by what the system reports.
    fn of(kind: ErrorKind) -> Self
        ensures memory { kind ≡ ErrorKind.OutOfMemory → result ≡ Memory }
        ensures absent { kind ≡ ErrorKind.NotFound → result ≡ Unreadable Absent }
        ensures not_permitted { kind ≡ ErrorKind.PermissionDenied → result ≡ Unreadable NotPermitted }
        ensures folder { kind ≡ ErrorKind.IsADirectory → result ≡ Unreadable Folder }
        ensures other { kind ≢ ErrorKind.OutOfMemory → kind ≢ ErrorKind.NotFound → kind ≢ ErrorKind.PermissionDenied
            → kind ≢ ErrorKind.IsADirectory → result ≡ Unreadable Other }
    {
        match kind {
            ErrorKind::OutOfMemory => ReadFailure::Memory,
            _ => ReadFailure::Unreadable(Obstacle::of(kind)),
        }
    }
}

impl From<AllocError> for ReadFailure {
    ghost use Rattle.std.specs.Prelude.{◌≡◌};
    ghost use Rattle.gw_system.specs.declared.reading.ReadFailure.TheVariants.{Memory};

    ghost from_gives = { λ _ failure. failure ≡ Memory };

    fn from(_refused: AllocError) -> ReadFailure {
        ReadFailure::Memory
    }
}

/// How many octets the end of a log has in which the last denial is looked for: at first few, then more.
pub const LOG_ENDS: [u64; 3] = [65_536, 1_048_576, 16_777_216];

/// Why what has this metadata can't be read as a file.
fn obstacle_by(metadata: &Metadata) -> Obstacle
    ensures folder { IsDir (file_type metadata.now) → result ≡ Folder }
    ensures other { (IsDir (file_type metadata.now) → ⊥) → result ≡ Other }
{
    if metadata.is_dir() {
        Obstacle::Folder
    } else {
        Obstacle::Other
    }
}

/// The octets of the regular file of this name, of which there are at most so many, or `None` if there is no
/// such file.
pub(crate) fn read_file<R: Files>(
    rt: &R,
    alloc: Global,
    name: &str,
    most: usize,
) -> Result<Option<Vec<u8>>, ReadFailure> {
    match rt.metadata(name) {
        Ok(metadata) if metadata.is_file() => {}
        Ok(metadata) => return Err(ReadFailure::Unreadable(obstacle_by(&metadata))),
        Err(error) => return absent_by(&error),
    }
    match read_front(rt, alloc, name, most) {
        Ok(octets) if octets.len() <= most => Ok(Some(octets)),
        Ok(_) => Err(ReadFailure::Unreadable(Obstacle::Other)),
        Err(error) => absent_by(&error),
    }
}

/// What is known of a file by this error: there is none, or it can't be read.
fn absent_by(error: &io::Error) -> Result<Option<Vec<u8>>, ReadFailure> {
    match error.kind() {
        ErrorKind::NotFound => Ok(None),
        kind => Err(ReadFailure::of(kind)),
    }
}

/// The first octets of a file: at most one more than so many.
fn read_front<R: Files>(rt: &R, alloc: Global, name: &str, most: usize) -> io::Result<Vec<u8>> {
    let file = fs::open(rt, name)?;
    let mut octets = Vec::new(alloc);
    file.take((most as u64).saturating_add(1))
        .read_to_end(&mut octets)?;
    Ok(octets)
}

/// The line of the denial that the regular file of this name shows last, without what is in front of it and its line feed, looked
/// for in its last 16,777,216 octets. `None` if there is no such file, it isn't a regular one, or no whole line there shows one.
pub(crate) fn read_last_denial<R: Files>(
    rt: &R,
    alloc: Global,
    name: &str,
) -> Result<Option<Vec<u8>>, ReadFailure> {
    match rt.metadata(name) {
        Ok(metadata) if metadata.is_file() => read_last(rt, alloc, name),
        Ok(_) => Ok(None),
        Err(error) => absent_by(&error),
    }
}

/// The same of a log that must be a regular file, if there is one of its name.
pub(crate) fn read_last_record<R: Files>(
    rt: &R,
    alloc: Global,
    name: &str,
) -> Result<Option<Vec<u8>>, ReadFailure> {
    match rt.metadata(name) {
        Ok(metadata) if metadata.is_file() => read_last(rt, alloc, name),
        Ok(metadata) => Err(ReadFailure::Unreadable(obstacle_by(&metadata))),
        Err(error) => absent_by(&error),
    }
}

/// The same of a regular file.
fn read_last<R: Files>(rt: &R, alloc: Global, name: &str) -> Result<Option<Vec<u8>>, ReadFailure> {
    for most in LOG_ENDS {
        let end = match read_end(rt, alloc, name, most) {
            Ok(end) => end,
            Err(error) => return absent_by(&error),
        };
        if let Some(line) = last_denial(end.whole_lines()) {
            return Ok(Some(Vec::from_slice(alloc, line)?));
        }
        if end.is_whole {
            return Ok(None);
        }
    }
    Ok(None)
}

/// The end of a text: its last octets, and whether they are all of it.
#[derive(Drop)]
struct End {
    octets: Vec<u8>,
    is_whole: bool,
}

impl End {
    /// What of it begins with a whole line: all of it if the text is whole, and else what comes after its first line feed.
    fn whole_lines(&self) -> &[u8]
        ensures { IsFromLine self.now.is_whole self.now.octets.items result.now }
    {
        if self.is_whole {
            return &self.octets;
        }
        match split_line(&self.octets) {
            Some((_cut, lines)) => lines,
            None => &[],
        }
    }
}

/// What comes before the first line feed of a text, and what comes after it.
fn split_line(text: &[u8]) -> Option<(&[u8], &[u8])>
    ensures { MatchOption result (Lacks 10 text.now) (λ parts. (text.now ≡ parts.0.now ++ 10 ∷ parts.1.now) × Lacks 10 parts.0.now) }
{
    match memchr(b'\n', text) {
        Some(place) => Some((&text[..place], &text[place + 1..])),
        None => None,
    }
}

/// The last octets of a file, at most so many.
fn read_end<R: Files>(rt: &R, alloc: Global, name: &str, most: u64) -> io::Result<End> {
    let mut file = fs::open(rt, name)?;
    let len = file.seek(SeekFrom::End(0))?;
    file.seek(SeekFrom::Start(len.saturating_sub(most)))?;
    let mut octets = Vec::new(alloc);
    file.take(most).read_to_end(&mut octets)?;
    Ok(End {
        octets,
        is_whole: len <= most,
    })
}
