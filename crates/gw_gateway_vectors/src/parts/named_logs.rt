//! A log in files in memory, which are renamed while it is written.

ghost use Rattle.std.specs.Prelude.{◌≡◌, ◌≤◌, ◌<◌, ◌++◌, [], ℕ, List, Some, false, length, OnErr, OnOk};
ghost use Rattle.gw_gateway_vectors.specs.NamedLogs.{given};

use gw_cases::{MemSink, WrittenOctets, number, put_word, unfolded, wanted};
use gw_log_words::{Lasting, NamedFiles, NamedLog};
use gw_script::{OctetSink, WriteFailed, write_whole};
use memchr::memchr;
use std::alloc::Global;
use std::cell::RefCell;
use std::io;
use std::io::{ErrorKind, Write};

/// A file in memory. A write takes what is left of a line at most, and so many octets, but one at least. What it is given and that it
/// is synced is shown.
#[derive(Drop)]
pub struct NamedMemFile<'a> {
    octets: Vec<u8>,
    is_unsynced: bool,
    most: usize,
    shown: &'a RefCell<MemSink>,
}

/// Files in memory, one after the other of one name. At each look a letter says whether the file was renamed: `r`, it was.
#[derive(Drop)]
pub struct MemNamedFiles<'a> {
    alloc: Global,
    left: WrittenOctets,
    looks: &'a [u8],
    most: usize,
    shown: &'a RefCell<MemSink>,
}

/// Shows something, after what was shown.
fn show(shown: &RefCell<MemSink>, text: &[u8]) {
    if let Ok(mut sink) = shown.try_borrow_mut() {
        sink.add(text);
    }
}

/// How many octets of a text a write takes.
fn taken(text: &[u8], most: usize) -> usize
    ensures bound { result ≤ length text.now }
    ensures some { 0 < length text.now → 0 < result }
{
    let line = match memchr(b'\n', text) {
        Some(at) => at + 1,
        None => text.len(),
    };
    line.min(most.max(1))
}

impl OctetSink for NamedMemFile<'_> {
    ghost held = { λ file. Some file.octets.items };

    ghost NeverFails = { λ _. ⊥ };

    fn write_octets(&mut self, text: &[u8]) -> Result<usize, WriteFailed> {
        let count = taken(text, self.most);
        if self.octets.extend_from_slice(&text[..count]).is_err() {
            return Err(WriteFailed);
        }
        self.is_unsynced = true;
        show(self.shown, &text[..count]);
        Ok(count)
    }
}

impl Lasting for NamedMemFile<'_> {
    ghost IsLasting = { λ file. file.is_unsynced ≡ false };

    ghost Syncs = { λ was _ is. is.octets ≡ was.octets };

    fn sync(&mut self) -> Result<(), WriteFailed> {
        self.is_unsynced = false;
        show(self.shown, b"!");
        Ok(())
    }
}

impl<'a> MemNamedFiles<'a> {
    /// An empty file.
    fn file(&self) -> NamedMemFile<'a>
        ensures { result.octets.items ≡ [] }
    {
        NamedMemFile {
            octets: Vec::new(self.alloc),
            is_unsynced: false,
            most: self.most,
            shown: self.shown,
        }
    }

    /// Whether the file was renamed before the look that begins now.
    fn is_renamed(&mut self) -> bool
        ensures { self.new.left ≡ self.old.left }
    {
        match self.looks {
            [look, rest @ ..] => {
                let is_renamed = *look == b'r';
                self.looks = rest;
                is_renamed
            }
            [] => false,
        }
    }
}

impl<'a> NamedFiles for MemNamedFiles<'a> {
    type File = NamedMemFile<'a>;

    ghost left = { λ files. Some files.left.octets };

    fn renewed(&mut self, _file: &NamedMemFile<'a>) -> Option<NamedMemFile<'a>> {
        if self.is_renamed() {
            Some(self.file())
        } else {
            None
        }
    }

    fn leave(&mut self, file: NamedMemFile<'a>) {
        self.left.add(&file.octets);
        show(self.shown, b"|");
    }
}

/// Writes a text to a log. Whatever is renamed, the files are given it whole and once; if a write fails, a front of it.
fn write_text(text: &[u8], log: &mut NamedLog<MemNamedFiles<'_>>) -> Result<(), WriteFailed>
    ensures whole { OnOk result (given log.new ≡ given log.old ++ text.now) }
    ensures front { OnErr result ((front : List ℕ) × (rest : List ℕ)
        × (text.now ≡ front ++ rest) × (given log.new ≡ given log.old ++ front)) }
{
    write_whole(log, text)
}

/// What the files of a log were given that is written and then synced. A case has a letter for each time that a line begins, `r` if the
/// file was renamed before; how many octets a write takes; and the text. A bar is where a file is left, an exclamation mark where one is synced.
pub fn renamed(alloc: Global, line: &str, out: &mut Vec<u8>) -> io::Result<()> {
    let mut words = line.splitn(3, ' ');
    let looks = wanted(words.next())?;
    let most = number(words.next())?;
    let text = unfolded(alloc, words.next().unwrap_or(""))?;
    let shown = RefCell::new(MemSink::new(alloc, None, 0)?);
    let files = MemNamedFiles {
        alloc,
        left: WrittenOctets::new(),
        looks: looks.as_bytes(),
        most,
        shown: &shown,
    };
    let file = files.file();
    let mut log = NamedLog::new(files, file);
    if write_text(&text, &mut log).is_err() || log.sync().is_err() {
        return Err(ErrorKind::OutOfMemory.into());
    }
    write!(out, "given")?;
    match shown.try_borrow() {
        Ok(sink) => put_word(sink.shown()?, out),
        Err(_) => Err(ErrorKind::InvalidData.into()),
    }
}
