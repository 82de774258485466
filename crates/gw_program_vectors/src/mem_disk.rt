//! A disk in memory, which remembers what was done to it, and whose calls fail as a case says.

ghost use Rattle.std.specs.Prelude.{◌≡◌, true, string_bytes, IfSome};
ghost use Rattle.gw_system.specs.Disk.{Does, DoesTo, Leads};
ghost use Rattle.gw_program_vectors.specs.Deeds.{IsNext, change_of, changes_of};

use gw_system::{Access, Disk};
use gw_wire::StoreFault;
use std::alloc::Global;

/// What a call did to a disk.
#[derive(Drop)]
pub enum DiskDeed {
    /// A new file has this name.
    Created(String, Access),
    /// More text was written to the file of this name.
    Wrote(String, Vec<u8>),
    /// The file of this name was synced.
    Synced(String),
    /// So was the folder in which this name is.
    FolderSynced(String),
    /// A file got another name.
    Renamed(String, String),
    /// This name has no file any more.
    Removed(String),
    /// The file of this name has this text after a failure.
    Spoiled(String, Vec<u8>),
    /// A call failed.
    Failed,
}

/// How calls of a disk fail.
#[derive(Clone, Copy)]
pub enum FailingDisk {
    /// None does.
    Never,
    /// That of this number, from 1, does nothing and fails.
    Undone(u64),
    /// That of this number does its work and fails.
    Done(u64),
    /// From that of this number on none does anything, since the machine has crashed.
    Crashed(u64),
}

/// What becomes of a call.
#[derive(Clone, Copy)]
enum CallFate {
    Does,
    Fails,
    DoesAndFails,
}

/// A disk in memory.
#[derive(Drop)]
pub struct MemDisk {
    alloc: Global,
    deeds: Vec<DiskDeed>,
    forgot: bool,
    calls: u64,
    failing: FailingDisk,
}

/// A file that was made on a disk in memory.
#[derive(Drop)]
pub struct MemFile {
    name: String,
}

impl MemDisk {
    /// An empty disk, whose calls fail so.
    pub fn new(alloc: Global, failing: FailingDisk) -> Self {
        MemDisk {
            alloc,
            deeds: Vec::new(alloc),
            forgot: false,
            calls: 0,
            failing,
        }
    }

    /// What was done to it, unless some of that was forgotten, since memory was refused.
    pub fn deeds(&self) -> Option<&[DiskDeed]> {
        if self.forgot { None } else { Some(&self.deeds) }
    }

    /// Has calls fail so from now on; the next one has the number 1.
    pub fn fail(&mut self, failing: FailingDisk) {
        self.calls = 0;
        self.failing = failing;
    }

    /// How many calls there were.
    pub fn calls(&self) -> u64 {
        self.calls
    }

    /// What becomes of the call that begins now.
    fn next_fate(&mut self) -> CallFate
        ensures deeds { self.new.deeds ≡ self.old.deeds }
        ensures forgot { self.new.forgot ≡ self.old.forgot }
    {
        self.calls = self.calls.saturating_add(1);
        match self.failing {
            FailingDisk::Undone(call) if call == self.calls => CallFate::Fails,
            FailingDisk::Done(call) if call == self.calls => CallFate::DoesAndFails,
            FailingDisk::Crashed(call) if call <= self.calls => CallFate::Fails,
            _ => CallFate::Does,
        }
    }

    /// Remembers what a call did.
    fn remember(&mut self, deed: DiskDeed)
        ensures { Leads (IsNext (change_of deed)) (changes_of self.old.forgot self.old.deeds.items)
            (changes_of self.new.forgot self.new.deeds.items) }
    {
        if self.deeds.push(deed).is_err() {
            self.forgot = true;
        }
    }

    /// A copy of a name. If there is no memory for it, what comes is forgotten.
    fn copy(&mut self, name: &str) -> Option<String>
        ensures name { IfSome result (λ copy. string_bytes copy ≡ name.now) }
        ensures kept { IfSome result (λ _. changes_of self.new.forgot self.new.deeds.items
            ≡ changes_of self.old.forgot self.old.deeds.items) }
        ensures lost { result ≡ None → self.new.forgot ≡ true }
    {
        match String::from_str(self.alloc, name) {
            Ok(copy) => Some(copy),
            Err(_) => {
                self.forgot = true;
                None
            }
        }
    }

    /// A copy of a text. If there is no memory for it, what comes is forgotten.
    fn copy_text(&mut self, text: &[u8]) -> Option<Vec<u8>>
        ensures text { IfSome result (λ copy. copy.items ≡ text.now) }
        ensures kept { IfSome result (λ _. changes_of self.new.forgot self.new.deeds.items
            ≡ changes_of self.old.forgot self.old.deeds.items) }
        ensures lost { result ≡ None → self.new.forgot ≡ true }
    {
        match Vec::from_slice(self.alloc, text) {
            Ok(copy) => Some(copy),
            Err(_) => {
                self.forgot = true;
                None
            }
        }
    }

    /// A call that does this.
    fn act(&mut self, deed: DiskDeed) -> Result<(), StoreFault>
        ensures { Leads (Does (change_of deed) result) (changes_of self.old.forgot self.old.deeds.items)
            (changes_of self.new.forgot self.new.deeds.items) }
    {
        match self.next_fate() {
            CallFate::Does => {
                self.remember(deed);
                Ok(())
            }
            CallFate::Fails => {
                self.remember(DiskDeed::Failed);
                Err(StoreFault::System)
            }
            CallFate::DoesAndFails => {
                self.remember(deed);
                self.remember(DiskDeed::Failed);
                Err(StoreFault::System)
            }
        }
    }

    /// A call that does this to the file of a name, which has that text if it fails midway.
    fn act_on(&mut self, name: String, deed: DiskDeed, text: Vec<u8>) -> Result<(), StoreFault>
        ensures { Leads (DoesTo (string_bytes name) (change_of deed) result) (changes_of self.old.forgot self.old.deeds.items)
            (changes_of self.new.forgot self.new.deeds.items) }
    {
        match self.next_fate() {
            CallFate::Does => {
                self.remember(deed);
                Ok(())
            }
            CallFate::Fails => {
                self.remember(DiskDeed::Failed);
                Err(StoreFault::System)
            }
            CallFate::DoesAndFails => {
                self.remember(DiskDeed::Spoiled(name, text));
                self.remember(DiskDeed::Failed);
                Err(StoreFault::System)
            }
        }
    }
}

impl Disk for MemDisk {
    type File = MemFile;

    ghost changes = { λ disk. changes_of disk.forgot disk.deeds.items };

    ghost HasName = { λ disk file name. string_bytes file.name ≡ name };

    fn remove(&mut self, name: &str) -> Result<(), StoreFault> {
        match self.copy(name) {
            Some(name) => self.act(DiskDeed::Removed(name)),
            None => Err(StoreFault::Memory),
        }
    }

    fn create(&mut self, name: &str, access: Access) -> Result<MemFile, StoreFault> {
        let (Some(made), Some(name)) = (self.copy(name), self.copy(name)) else {
            return Err(StoreFault::Memory);
        };
        match self.act(DiskDeed::Created(made, access)) {
            Ok(()) => Ok(MemFile { name }),
            Err(fault) => Err(fault),
        }
    }

    fn write(&mut self, file: &mut MemFile, octets: &[u8]) -> Result<(), StoreFault> {
        let (Some(at), Some(name)) = (self.copy(&file.name), self.copy(&file.name)) else {
            return Err(StoreFault::Memory);
        };
        let half = &octets[..octets.len() / 2];
        let (Some(more), Some(part)) = (self.copy_text(octets), self.copy_text(half)) else {
            return Err(StoreFault::Memory);
        };
        self.act_on(name, DiskDeed::Wrote(at, more), part)
    }

    fn sync(&mut self, file: &MemFile) -> Result<(), StoreFault> {
        let (Some(at), Some(name)) = (self.copy(&file.name), self.copy(&file.name)) else {
            return Err(StoreFault::Memory);
        };
        let nothing = Vec::new(self.alloc);
        self.act_on(name, DiskDeed::Synced(at), nothing)
    }

    fn rename(&mut self, from: &str, to: &str) -> Result<(), StoreFault> {
        let (Some(from), Some(to)) = (self.copy(from), self.copy(to)) else {
            return Err(StoreFault::Memory);
        };
        self.act(DiskDeed::Renamed(from, to))
    }

    fn sync_folder(&mut self, name: &str) -> Result<(), StoreFault> {
        match self.copy(name) {
            Some(name) => self.act(DiskDeed::FolderSynced(name)),
            None => Err(StoreFault::Memory),
        }
    }
}
