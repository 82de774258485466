//! A file is replaced on a disk in memory, and a call fails or the machine crashes.

use crate::mem_disk::{DiskDeed, FailingDisk, MemDisk};
use gw_cases::{number, wanted};
use gw_program_cases::put;
use gw_system::{Access, FileName, replace_file, show_file};
use gw_wire::StoreFault;
use std::alloc::{AllocError, Global};
use std::io;
use std::io::ErrorKind;

/// The text that the file has before.
const OLD: &[u8] = b"old";

/// The text by which it is replaced.
const NEW: &[u8] = b"new";

/// A file: its text, and whether it was synced.
#[derive(Drop)]
struct HeldFile {
    text: Vec<u8>,
    is_synced: bool,
}

impl HeldFile {
    /// A copy of it, which was synced or not.
    fn copy(&self, alloc: Global, is_synced: bool) -> Result<Self, AllocError> {
        let text = Vec::from_slice(alloc, &self.text)?;
        Ok(HeldFile { text, is_synced })
    }
}

/// A name: its file, and those that had it since its folder was synced, the newest last.
#[derive(Drop)]
struct DiskName {
    name: String,
    file: Option<HeldFile>,
    earlier: Vec<Option<HeldFile>>,
}

impl DiskName {
    fn new(alloc: Global, name: &str) -> Result<Self, AllocError> {
        Ok(DiskName {
            name: String::from_str(alloc, name)?,
            file: None,
            earlier: Vec::new(alloc),
        })
    }

    /// A copy of its file.
    fn copy(&self, alloc: Global) -> Result<Option<HeldFile>, AllocError> {
        match &self.file {
            Some(held) => Ok(Some(held.copy(alloc, held.is_synced)?)),
            None => Ok(None),
        }
    }

    /// It has another file, or none.
    fn give(&mut self, alloc: Global, file: Option<HeldFile>) -> Result<(), AllocError> {
        let was = self.copy(alloc)?;
        self.earlier.push(was)?;
        self.file = file;
        Ok(())
    }

    /// Its file has more text, which isn't synced.
    fn write(&mut self, alloc: Global, more: &[u8]) -> Result<(), AllocError> {
        let Some(mut held) = self.copy(alloc)? else {
            return Ok(());
        };
        held.text.extend_from_slice(more)?;
        held.is_synced = false;
        self.file = Some(held);
        Ok(())
    }

    /// Its file has this text, which isn't synced.
    fn spoil(&mut self, alloc: Global, text: &[u8]) -> Result<(), AllocError> {
        if self.file.is_some() {
            self.file = Some(HeldFile {
                text: Vec::from_slice(alloc, text)?,
                is_synced: false,
            });
        }
        Ok(())
    }

    /// Its file is synced.
    fn sync(&mut self, alloc: Global) -> Result<(), AllocError> {
        if let Some(held) = self.copy(alloc)? {
            self.file = Some(held.copy(alloc, true)?);
        }
        Ok(())
    }

    /// Whether it is this name.
    fn is(&self, name: &str) -> bool {
        self.name.as_str() == name
    }

    /// What a deed makes of it. `moved` is a copy of the file that may get this name.
    fn take(
        &mut self,
        alloc: Global,
        deed: &DiskDeed,
        moved: Option<HeldFile>,
    ) -> Result<(), AllocError> {
        match deed {
            DiskDeed::Created(at, _) if self.is(at) => {
                let held = HeldFile {
                    text: Vec::new(alloc),
                    is_synced: false,
                };
                self.give(alloc, Some(held))
            }
            DiskDeed::Wrote(at, more) if self.is(at) => self.write(alloc, more),
            DiskDeed::Spoiled(at, text) if self.is(at) => self.spoil(alloc, text),
            DiskDeed::Synced(at) if self.is(at) => self.sync(alloc),
            DiskDeed::FolderSynced(at) if self.is(at) => {
                self.earlier = Vec::new(alloc);
                Ok(())
            }
            DiskDeed::Renamed(_, to) if self.is(to) => self.give(alloc, moved),
            DiskDeed::Renamed(from, _) if self.is(from) => self.give(alloc, None),
            DiskDeed::Removed(at) if self.is(at) => self.give(alloc, None),
            _ => Ok(()),
        }
    }

    /// Appends what it shows.
    fn put_shown(&self, out: &mut Vec<u8>) -> Result<(), AllocError> {
        match &self.file {
            Some(held) if held.text.is_empty() => put(out, &["empty"]),
            Some(held) => out.extend_from_slice(&held.text),
            None => put(out, &["-"]),
        }
    }

    /// Appends what it may show after a crash.
    fn put_left(&self, out: &mut Vec<u8>) -> Result<(), AllocError> {
        put_file(&self.file, out)?;
        for file in self.earlier.iter().rev() {
            put_file(file, out)?;
        }
        Ok(())
    }
}

/// Appends what a crash leaves of a file; if it wasn't synced, any text.
fn put_file(file: &Option<HeldFile>, out: &mut Vec<u8>) -> Result<(), AllocError> {
    match file {
        Some(held) if held.is_synced => {
            out.push(b' ')?;
            out.extend_from_slice(&held.text)
        }
        Some(_) => put(out, &[" any"]),
        None => put(out, &[" -"]),
    }
}

/// Replaces a file as a case says.
fn replace(
    disk: &mut MemDisk,
    file: &FileName,
    kind: &str,
    text: &[u8],
) -> io::Result<Result<(), StoreFault>> {
    match kind {
        "kept" => Ok(replace_file(disk, file, Access::Owner, text)),
        "shown" => Ok(show_file(disk, file, Access::Everyone, text)),
        _ => Err(ErrorKind::InvalidData.into()),
    }
}

/// How calls fail in a case, by its words.
fn failing(word: &str, call: u64) -> io::Result<FailingDisk> {
    match word {
        "never" => Ok(FailingDisk::Never),
        "undone" => Ok(FailingDisk::Undone(call)),
        "done" => Ok(FailingDisk::Done(call)),
        "crashed" => Ok(FailingDisk::Crashed(call)),
        _ => Err(ErrorKind::InvalidData.into()),
    }
}

/// How a replacement went.
fn word(is_done: bool) -> &'static str {
    if is_done { "done" } else { "failed" }
}

/// What is left of a file that is replaced on a disk in memory. A case says whether its text is `kept` or `shown`; how a call fails
/// (`never`, `undone`, `done`, `crashed`), and which one, from 1. The answer says how it went, how many calls there were, what the
/// name shows, what it may show after a crash, and what the file beside it shows.
pub fn replaced(alloc: Global, line: &str, out: &mut Vec<u8>) -> io::Result<()> {
    let mut words = line.splitn(3, ' ');
    let kind = wanted(words.next())?;
    let how = wanted(words.next())?;
    let failing = failing(how, number(words.next())?)?;
    let file = FileName::of(alloc, "state")?;
    let mut disk = MemDisk::new(alloc, FailingDisk::Never);
    if replace_file(&mut disk, &file, Access::Owner, OLD).is_err() {
        return Err(ErrorKind::OutOfMemory.into());
    }
    disk.fail(failing);
    let done = replace(&mut disk, &file, kind, NEW)?;
    let Some(deeds) = disk.deeds() else {
        return Err(ErrorKind::OutOfMemory.into());
    };
    let mut name = DiskName::new(alloc, &file.name)?;
    let mut beside = DiskName::new(alloc, &file.beside)?;
    for deed in deeds {
        let moved = beside.copy(alloc)?;
        name.take(alloc, deed, moved)?;
        beside.take(alloc, deed, None)?;
    }
    put(out, &[word(done.is_ok()), ", shows "])?;
    name.put_shown(out)?;
    put(out, &[", after a crash"])?;
    name.put_left(out)?;
    put(out, &[", beside it "])?;
    Ok(beside.put_shown(out)?)
}
