//! The files of a state and of metrics.

ghost use Rattle.std.specs.Prelude.{◌≡◌, ◌++◌, string_bytes, IfOk};
ghost use Rattle.gw_system.specs.Disk.{Leads};
ghost use Rattle.gw_system.specs.Store.{IsPut, IsStoreOf, IsStoreOn, held_at};

use crate::disk::{Disk, SystemDisk, folder_of};
use crate::host::{MODE, is_link};
use crate::replacing::{FileName, replace_file, show_file};
use gw_wire::{Store, StoreFault};
use std::alloc::{AllocError, Global};
use std::io::ErrorKind;
use std::marker::Model;
use std::rt::Files;
use std::{fs, io};

/// What a file that is replaced is for.
#[derive(Clone, Copy)]
pub enum StoreKind {
    /// Its owner alone may read it, and a text is on the disk before it counts as written.
    Kept,
    /// Everybody may read it. A text needn't be on the disk: after a power cut it may be an older one, or cut.
    Shown,
}

/// A file that is replaced whole. The new text is written to a file beside it, whose name has `.new` after its
/// name, before that file gets its name. Contracts see its disk, the names of both, and what it is for.
#[derive(Drop)]
pub struct FileStore<D> {
    disk: D,
    file: FileName,
    kind: StoreKind,
}

impl<D> Model for FileStore<D> {
    ghost use Rattle.gw_system.specs.Store.{StoreFile};
    ghost use Rattle.std.specs.Prelude.{string_bytes};

    ghost Value = { StoreFile D };

    ghost view = { λ s. record {
      disk = s.disk;
      name = string_bytes s.file.name;
      beside = string_bytes s.file.beside;
      kind = s.kind;
    } };
}

/// Why a text isn't kept, by the error of the system.
pub(crate) fn store_fault(error: &io::Error) -> StoreFault {
    match error.kind() {
        ErrorKind::StorageFull | ErrorKind::QuotaExceeded | ErrorKind::FileTooLarge => {
            StoreFault::NoSpace
        }
        ErrorKind::PermissionDenied => StoreFault::NotPermitted,
        ErrorKind::ReadOnlyFilesystem => StoreFault::ReadOnly,
        ErrorKind::OutOfMemory => StoreFault::Memory,
        _ => StoreFault::System,
    }
}

/// A name with this after it.
pub(crate) fn name_with(alloc: Global, name: &str, ending: &str) -> Result<String, AllocError>
    ensures { IfOk result (λ longer. string_bytes longer ≡ name.now ++ ending.now) }
{
    let mut longer = String::new(alloc);
    longer.push_str(name)?;
    longer.push_str(ending)?;
    Ok(longer)
}

/// Who may read a file that is made. Its owner alone may write it.
#[derive(Clone, Copy)]
pub enum Access {
    /// Its owner alone.
    Owner,
    /// Everybody, whatever the process takes from the files that it makes.
    Everyone,
}

impl Access {
    /// The mode of the file.
    pub(crate) fn mode(self) -> u32 {
        match self {
            Access::Owner => MODE,
            Access::Everyone => 0o644,
        }
    }
}

/// Whether something has this name that isn't to be replaced: a symbolic link, or by metrics anything but a regular file.
fn is_taken<R: Files>(rt: &R, name: &str, kind: StoreKind) -> bool {
    match kind {
        StoreKind::Kept => is_link(rt, name),
        StoreKind::Shown => match rt.symlink_metadata(name) {
            Ok(metadata) => !metadata.is_file(),
            Err(_) => false,
        },
    }
}

impl<D: Disk + Drop> FileStore<D> {
    /// The store of the file of this name on a disk. The file is neither made nor read. The only fault is want of memory.
    pub fn on(disk: D, alloc: Global, name: &str, kind: StoreKind) -> Result<Self, AllocError>
        ensures { IfOk result (IsStoreOn disk name.now kind) }
    {
        Ok(FileStore {
            disk,
            file: FileName::of(alloc, name)?,
            kind,
        })
    }
}

impl<'a, R: Files> FileStore<SystemDisk<'a, R>> {
    /// The store of this file, whose folder can be opened. The file itself is neither made nor read. An `Err` if
    /// the folder can't be opened, or if it would replace a symbolic link, or with metrics anything but a regular file.
    pub fn open(rt: &'a R, alloc: Global, name: &str, kind: StoreKind) -> Result<Self, StoreFault>
        ensures { IfOk result (IsStoreOf name.now kind) }
    {
        if is_taken(rt, name, kind) {
            return Err(StoreFault::NotPermitted);
        }
        if let Err(error) = fs::open(rt, folder_of(name)) {
            return Err(store_fault(&error));
        }
        match FileStore::on(SystemDisk { rt }, alloc, name, kind) {
            Ok(store) => Ok(store),
            Err(_) => Err(StoreFault::Memory),
        }
    }
}

impl<D: Disk> FileStore<D> {
    /// Replaces the file by a text, as its kind asks.
    pub fn put(&mut self, octets: &[u8]) -> Result<(), StoreFault>
        ensures put { Leads (IsPut self.old.kind self.old.name self.old.beside octets.now result)
            (D.changes self.old.disk) (D.changes self.new.disk) }
        ensures same { self.new ≡ record self.old { disk = self.new.disk } }
    {
        match self.kind {
            StoreKind::Kept => replace_file(&mut self.disk, &self.file, Access::Owner, octets),
            StoreKind::Shown => show_file(&mut self.disk, &self.file, Access::Everyone, octets),
        }
    }
}

impl<D: Disk> Store for FileStore<D> {
    ghost held = { λ store. held_at (D.changes store.disk) store.name };

    ghost NeverFails = { λ _. ⊥ };

    fn replace(&mut self, octets: &[u8]) -> Result<(), StoreFault> {
        self.put(octets)
    }
}
