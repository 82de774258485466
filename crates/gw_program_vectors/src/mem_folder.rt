//! A folder in memory, which shows what is done to its files.

ghost use Rattle.std.specs.Prelude.{◌≡◌, ◌≢◌, ℕ, List, Some, option_map, OnErr, OnOk};
ghost use Rattle.gw_program_vectors.specs.Folders.{IsPut, shown_by};

use gw_cases::MemSink;
use gw_system::{Access, FileName, Folder, Obstacle, ReadFailure};
use gw_wire::StoreFault;
use std::alloc::{AllocError, Global};
use std::cell::RefCell;

/// What a name has from some moment on: a file with these octets, or none.
#[derive(Drop)]
pub struct NameEntry {
    name: String,
    octets: Option<Vec<u8>>,
}

/// A folder in memory. It keeps each entry, the newest first, so that contracts see which file has which name. The change of one number,
/// from 0, may fail.
#[derive(Drop)]
pub struct MemFolder<'a> {
    alloc: Global,
    entries: Vec<NameEntry>,
    changes: u64,
    failing: Option<u64>,
    shown: &'a RefCell<MemSink>,
}

/// Shows a text, after what was shown.
fn show(shown: &RefCell<MemSink>, parts: &[&[u8]]) {
    if let Ok(mut sink) = shown.try_borrow_mut() {
        sink.add(b"; ");
        for part in parts {
            sink.add(part);
        }
    }
}

/// What is shown where there was no memory.
const OUT_OF_MEMORY: &[u8] = b"out of memory";

/// The octets that the file of a name has by these entries, if there is one.
fn find<'e>(entries: &'e [NameEntry], name: &str) -> Option<&'e [u8]>
    ensures { option_map (λ octets. octets.now) result ≡ shown_by entries.now name.now }
{
    for entry in entries {
        if entry.name.as_str() == name {
            return match &entry.octets {
                Some(octets) => Some(octets),
                None => None,
            };
        }
    }
    None
}

impl<'a> MemFolder<'a> {
    /// An empty folder.
    pub fn new(alloc: Global, shown: &'a RefCell<MemSink>) -> Self {
        MemFolder {
            alloc,
            entries: Vec::new(alloc),
            changes: 0,
            failing: None,
            shown,
        }
    }

    /// Has the change of this number fail, counted from 0 from now on.
    pub fn fail(&mut self, failing: Option<u64>) {
        self.changes = 0;
        self.failing = failing;
    }

    /// Gives a name this file, or none. The only fault is want of memory.
    pub fn put(&mut self, name: &str, octets: Option<Vec<u8>>) -> Result<(), AllocError>
        ensures shows { OnOk result (shown_by self.new.entries.items name.now ≡ option_map (λ o. o.items) octets) }
        ensures others { (other : List ℕ) → other ≢ name.now →
            shown_by self.new.entries.items other ≡ shown_by self.old.entries.items other }
        ensures err { OnErr result (self.new.entries.items ≡ self.old.entries.items) }
    {
        let name = String::from_str(self.alloc, name)?;
        match self.entries.insert(0, NameEntry { name, octets }) {
            Ok(()) => Ok(()),
            Err(_) => Err(AllocError),
        }
    }

    /// Whether the change that begins now fails.
    fn is_failing(&mut self) -> bool
        ensures { self.new.entries ≡ self.old.entries }
    {
        let number = self.changes;
        self.changes = self.changes.wrapping_add(1);
        self.failing == Some(number)
    }

    /// Shows that a name gets this file, or none.
    fn show_change(&self, name: &str, octets: &Option<Vec<u8>>) {
        let name = name.as_bytes();
        match octets {
            Some(octets) => show(self.shown, &[name, b"=".as_slice(), octets.as_slice()]),
            None => show(self.shown, &[name, b" gone".as_slice()]),
        }
    }

    /// Gives a name this file, or none, unless that fails.
    fn change(&mut self, name: &str, octets: Option<Vec<u8>>) -> Result<(), StoreFault>
        ensures shows { OnOk result (shown_by self.new.entries.items name.now ≡ option_map (λ o. o.items) octets) }
        ensures others { (other : List ℕ) → other ≢ name.now →
            shown_by self.new.entries.items other ≡ shown_by self.old.entries.items other }
        ensures err { OnErr result (self.new.entries.items ≡ self.old.entries.items) }
    {
        if self.is_failing() {
            return Err(StoreFault::System);
        }
        self.show_change(name, &octets);
        match self.put(name, octets) {
            Ok(()) => Ok(()),
            Err(_) => {
                show(self.shown, &[OUT_OF_MEMORY]);
                Err(StoreFault::Memory)
            }
        }
    }
}

impl Folder for MemFolder<'_> {
    ghost known = { λ folder name. Some (shown_by folder.entries.items name) };

    ghost Replaces = { λ was name _ _ octets result is. IsPut name octets result was.entries.items is.entries.items };

    fn has(&self, name: &str) -> bool {
        find(&self.entries, name).is_some()
    }

    fn take_away(&mut self, name: &str) -> Result<bool, StoreFault> {
        if find(&self.entries, name).is_none() {
            return Ok(false);
        }
        match self.change(name, None) {
            Ok(()) => Ok(true),
            Err(fault) => Err(fault),
        }
    }

    fn make(&mut self, name: &str) -> Result<bool, StoreFault> {
        if self.has(name) {
            return Ok(false);
        }
        match self.change(name, Some(Vec::new(self.alloc))) {
            Ok(()) => Ok(true),
            Err(fault) => Err(fault),
        }
    }

    fn is_regular(&self, name: &str) -> bool {
        self.has(name)
    }

    fn read(&self, alloc: Global, name: &str, most: usize) -> Result<Option<Vec<u8>>, ReadFailure> {
        match find(&self.entries, name) {
            Some(octets) if octets.len() > most => Err(ReadFailure::Unreadable(Obstacle::Other)),
            Some(octets) => match Vec::from_slice(alloc, octets) {
                Ok(copy) => Ok(Some(copy)),
                Err(_) => {
                    show(self.shown, &[OUT_OF_MEMORY]);
                    Err(ReadFailure::Memory)
                }
            },
            None => Ok(None),
        }
    }

    fn replace(
        &mut self,
        file: &FileName,
        _access: Access,
        octets: &[u8],
    ) -> Result<(), StoreFault> {
        match Vec::from_slice(self.alloc, octets) {
            Ok(copy) => self.change(&file.name, Some(copy)),
            Err(_) => {
                show(self.shown, &[OUT_OF_MEMORY]);
                Err(StoreFault::Memory)
            }
        }
    }
}
