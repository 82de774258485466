//! Files by their names, and what a crash may leave of them.

ghost use Rattle.std.specs.Prelude.{List, ℕ, None, ⊤, IfOk};
ghost use Rattle.gw_system.specs.Disk.{Changes, Created, Does, DoesTo, FolderSynced, Leads, Removed, Renamed, Synced, Wrote};

use crate::store::{Access, store_fault};
use gw_wire::StoreFault;
use std::fs::{File, OpenFile, Permissions};
use std::io::{ErrorKind, Write};
use std::os::unix::fs::{OpenOptionsExt, PermissionsExt};
use std::rt::Files;
use std::{fs, io};

/// A disk, as what replaces a file uses it. Contracts know of it what its calls did; a call that fails may have done its work too.
pub trait Disk {
    /// A file that was made.
    type File: Drop;

    /// What was done to it since it was empty, the newest first, if that is known.
    ghost changes: { Self → Changes };

    /// A file that was made has this name.
    ghost HasName: { Self → Self.File → List ℕ → Type 0 };

    /// Takes the file of this name away, if there is one.
    fn remove(&mut self, name: &str) -> Result<(), StoreFault>
        ensures { Leads (Does (Removed name.now) result) (changes self.old) (changes self.new) };

    /// Makes a file of this name, without a text. It fails if there is one.
    fn create(&mut self, name: &str, access: Access) -> Result<Self::File, StoreFault>
        ensures does { Leads (Does (Created name.now access) result) (changes self.old) (changes self.new) }
        ensures named { IfOk result (λ file. HasName self.new file name.now) };

    /// Writes these octets to the end of a file that was made.
    fn write(&mut self, file: &mut Self::File, octets: &[u8]) -> Result<(), StoreFault>
        ensures does { (name : List ℕ) → HasName self.old file.old name →
            Leads (DoesTo name (Wrote name octets.now) result) (changes self.old) (changes self.new) }
        ensures named { (name : List ℕ) → HasName self.old file.old name → HasName self.new file.new name };

    /// Waits until what was written to a file that was made is on the disk.
    fn sync(&mut self, file: &Self::File) -> Result<(), StoreFault>
        ensures { (name : List ℕ) → HasName self.old file.now name →
            Leads (DoesTo name (Synced name) result) (changes self.old) (changes self.new) };

    /// Gives the file of a name another name, in the place of the file that has that one.
    fn rename(&mut self, from: &str, to: &str) -> Result<(), StoreFault>
        ensures { Leads (Does (Renamed from.now to.now) result) (changes self.old) (changes self.new) };

    /// Waits until it is on the disk which file has this name.
    fn sync_folder(&mut self, name: &str) -> Result<(), StoreFault>
        ensures { Leads (Does (FolderSynced name.now) result) (changes self.old) (changes self.new) };
}

/// The disk of the system, of which contracts know nothing.
#[derive(Drop)]
pub struct SystemDisk<'a, R> {
    /// By what files are opened.
    pub rt: &'a R,
}

/// The folder of the file of this name.
pub(crate) fn folder_of(name: &str) -> &str {
    match name.rsplit_once('/') {
        Some(("", _)) => "/",
        Some((folder, _)) => folder,
        None => ".",
    }
}

/// What a call gives, or why it failed.
fn outcome<T: Drop>(given: io::Result<T>) -> Result<T, StoreFault> {
    match given {
        Ok(done) => Ok(done),
        Err(error) => Err(store_fault(&error)),
    }
}

/// Makes a file of this name, whose mode is this one whatever the process takes from the files that it makes. A link that has the
/// name isn't followed.
pub(crate) fn create_file<R: Files>(rt: &R, name: &str, mode: u32) -> io::Result<R::File> {
    let file = File::options()
        .write(true)
        .create_new(true)
        .mode(mode)
        .open(rt, name)?;
    file.set_permissions(Permissions::from_mode(mode))?;
    Ok(file)
}

/// Waits until it is on the disk which files a folder has.
pub(crate) fn sync_names<R: Files>(rt: &R, folder: &str) -> io::Result<()> {
    fs::open(rt, folder)?.sync_all()
}

impl<R: Files> Disk for SystemDisk<'_, R> {
    type File = R::File;

    ghost changes = { λ _. None };

    ghost HasName = { λ _ _ _. ⊤ };

    fn remove(&mut self, name: &str) -> Result<(), StoreFault> {
        match self.rt.remove_file(name) {
            Ok(()) => Ok(()),
            Err(error) => match error.kind() {
                ErrorKind::NotFound => Ok(()),
                _ => Err(store_fault(&error)),
            },
        }
    }

    fn create(&mut self, name: &str, access: Access) -> Result<R::File, StoreFault> {
        outcome(create_file(self.rt, name, access.mode()))
    }

    fn write(&mut self, file: &mut R::File, octets: &[u8]) -> Result<(), StoreFault> {
        outcome(file.write_all(octets))
    }

    fn sync(&mut self, file: &R::File) -> Result<(), StoreFault> {
        outcome(file.sync_all())
    }

    fn rename(&mut self, from: &str, to: &str) -> Result<(), StoreFault> {
        outcome(self.rt.rename(from, to))
    }

    fn sync_folder(&mut self, name: &str) -> Result<(), StoreFault> {
        outcome(sync_names(self.rt, folder_of(name)))
    }
}
