//! Files by their names, as requests and their answers use them.

ghost use Rattle.std.specs.Prelude.{◌≡◌, ◌≢◌, ⊤, [], Some, None, Ok, Result, false, true, List, ℕ, string_bytes, IfOk, OnOk};
ghost use Rattle.gw_system.specs.Folder.{Holds, IsTakenAway, Known, octets_of};
ghost use Rattle.gw_system.specs.declared.store.Access.{Access};
ghost use Rattle.gw_wire.specs.declared.store.StoreFault.{StoreFault};

use crate::disk::{SystemDisk, create_file};
use crate::reading::{ReadFailure, read_file};
use crate::replacing::{FileName, show_file};
use crate::store::{Access, store_fault};
use gw_wire::StoreFault;
use std::alloc::Global;
use std::io::ErrorKind;
use std::rt::Files;

/// Files by their names. What contracts know of one is what it has if nobody else changes it.
pub trait Folder {
    /// What is known of the file of a name.
    ghost known: { Self → List ℕ → Known };

    /// What replacing the file of a name may do: the names of the file and of the one beside it, who may read it, its text,
    /// and whether it was done.
    ghost Replaces: { Self → List ℕ → List ℕ → Access → List ℕ → Result (Unit {0}) StoreFault → Self → Type 0 };

    /// Whether there may be a file of this name.
    fn has(&self, name: &str) -> bool
        ensures { result ≡ false → Holds (known self.now name.now) None };

    /// Takes the file of this name away, and answers whether there was one.
    fn take_away(&mut self, name: &str) -> Result<bool, StoreFault>
        ensures taken { result ≡ Ok true → IsTakenAway (known self.old name.now) (known self.new name.now) }
        ensures gone { OnOk result (Holds (known self.new name.now) None) }
        ensures others { (other : List ℕ) → other ≢ name.now → known self.new other ≡ known self.old other };

    /// Makes an empty file of this name, unless something has the name; and answers whether it did.
    fn make(&mut self, name: &str) -> Result<bool, StoreFault>
        ensures new { result ≡ Ok true → Holds (known self.old name.now) None }
        ensures made { result ≡ Ok true → Holds (known self.new name.now) (Some []) }
        ensures others { (other : List ℕ) → other ≢ name.now → known self.new other ≡ known self.old other };

    /// Whether a file of this name may be a regular one, and is no link to one.
    fn is_regular(&self, name: &str) -> bool;

    /// The octets of the regular file of this name, or `None` if there is no such file. Faults: `Unreadable` if it
    /// can't be read, is no regular file or has more than so many octets; and `Memory`.
    fn read(&self, alloc: Global, name: &str, most: usize) -> Result<Option<Vec<u8>>, ReadFailure>
        ensures { IfOk result (λ octets. Holds (known self.now name.now) (octets_of octets)) };

    /// Replaces a file whole by these octets, which are written to the file beside it first. Who may read it is by `access`.
    fn replace(&mut self, file: &FileName, access: Access, octets: &[u8]) -> Result<(), StoreFault>
        ensures replaces { Replaces self.old (string_bytes file.now.name) (string_bytes file.now.beside) access octets.now result self.new }
        ensures made { OnOk result (Holds (known self.new (string_bytes file.now.name)) (Some octets.now)) }
        ensures others { (other : List ℕ) → other ≢ string_bytes file.now.name → other ≢ string_bytes file.now.beside →
            known self.new other ≡ known self.old other };
}

/// The files of the system, of which contracts know nothing.
#[derive(Drop)]
pub struct SystemFolder<'a, R> {
    /// By what they are opened.
    pub rt: &'a R,
}

impl<R: Files> Folder for SystemFolder<'_, R> {
    ghost known = { λ _ _. None };

    ghost Replaces = { λ _ _ _ _ _ _ _. ⊤ };

    fn has(&self, name: &str) -> bool {
        match self.rt.symlink_metadata(name) {
            Ok(_) => true,
            Err(error) => !matches!(error.kind(), ErrorKind::NotFound),
        }
    }

    fn take_away(&mut self, name: &str) -> Result<bool, StoreFault> {
        match self.rt.remove_file(name) {
            Ok(()) => Ok(true),
            Err(error) => match error.kind() {
                ErrorKind::NotFound => Ok(false),
                _ => Err(store_fault(&error)),
            },
        }
    }

    fn make(&mut self, name: &str) -> Result<bool, StoreFault> {
        match create_file(self.rt, name, Access::Everyone.mode()) {
            Ok(_made) => Ok(true),
            Err(error) => match error.kind() {
                ErrorKind::AlreadyExists => Ok(false),
                _ => Err(store_fault(&error)),
            },
        }
    }

    fn is_regular(&self, name: &str) -> bool {
        match self.rt.symlink_metadata(name) {
            Ok(metadata) => metadata.is_file(),
            Err(_) => false,
        }
    }

    fn read(&self, alloc: Global, name: &str, most: usize) -> Result<Option<Vec<u8>>, ReadFailure> {
        read_file(self.rt, alloc, name, most)
    }

    fn replace(
        &mut self,
        file: &FileName,
        access: Access,
        octets: &[u8],
    ) -> Result<(), StoreFault> {
        show_file(&mut SystemDisk { rt: self.rt }, file, access, octets)
    }
}
