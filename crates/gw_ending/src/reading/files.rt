//! The files that configurations are read from.

ghost use Rattle.std.specs.Prelude.{ℕ, List, Option, Result};
ghost use Rattle.gw_ending.specs.reading.Files.{IsFaultShown, IsLogFaultShown, IsStateFaultShown, result_map};
ghost use Rattle.gw_ending.specs.declared.fault.Fault.{Fault};

use crate::Fault;
use gw_policy_text::MAX_OCTETS;
use gw_script::OctetSource;
use gw_system::Obstacle;
use std::alloc::Global;
use std::io::{ErrorKind, Read};
use std::rt::Files;
use std::{fs, io};

/// More octets than the text of any state has: 256 objects of 16 slots of a line of 526 octets are most of it.
const MAX_STATE: u64 = 4_194_304;

/// Where configurations and states are read from.
pub trait ConfigFiles {
    /// What a read of the file of a name may give: its octets, or a fault.
    ghost Reads: { Self → List ℕ → Result (List ℕ) Fault → Type 0 };

    /// The octets of the file of this name, or so many of its first ones that no configuration has
    /// more. Faults: `Unreadable`, and `Memory`.
    fn read(&self, alloc: Global, name: &str) -> Result<Vec<u8>, Fault>
        ensures { Reads self.now name.now (result_map (λ octets. octets.items) result) };

    /// Whether the file of this name is one that gives its text more than once, and no pipe.
    fn is_regular(&self, name: &str) -> bool;

    /// What a read of the file of a state of a name may give: its octets, or a fault.
    ghost ReadsState: { Self → List ℕ → Result (List ℕ) Fault → Type 0 };

    /// The octets of the file of this name, or so many of its first ones that no state has more. Faults:
    /// `StateUnreadable`, and `Memory`.
    fn read_state(&self, alloc: Global, name: &str) -> Result<Vec<u8>, Fault>
        ensures { ReadsState self.now name.now (result_map (λ octets. octets.items) result) };

    /// The text of a log.
    type Log: OctetSource + Drop;

    /// What opening the log of a name may give: its octets, as far as they are known, or a fault.
    ghost ReadsLog: { Self → List ℕ → Result (Option (List ℕ)) Fault → Type 0 };

    /// The log of this name. Faults: `LogUnreadable`, and `Memory`.
    fn open_log(&self, name: &str) -> Result<Self::Log, Fault>
        ensures { ReadsLog self.now name.now (result_map Self.Log.left result) };
}

/// The files of the system.
#[derive(Drop)]
pub struct SystemFiles<'a, R> {
    /// By what they are opened.
    pub rt: &'a R,
}

impl<R: Files> ConfigFiles for SystemFiles<'_, R> {
    type Log = R::File;

    ghost ReadsLog = { λ _ _ log. IsLogFaultShown log };

    fn open_log(&self, name: &str) -> Result<R::File, Fault> {
        match fs::open(self.rt, name) {
            Ok(file) => Ok(file),
            Err(error) => match error.kind() {
                ErrorKind::OutOfMemory => Err(Fault::Memory),
                kind => Err(Fault::LogUnreadable(Obstacle::of(kind))),
            },
        }
    }

    ghost Reads = { λ _ _ octets. IsFaultShown octets };

    fn read(&self, alloc: Global, name: &str) -> Result<Vec<u8>, Fault> {
        match read_front(self.rt, alloc, name, MAX_OCTETS as u64 + 1) {
            Ok(octets) => Ok(octets),
            Err(error) => match error.kind() {
                ErrorKind::OutOfMemory => Err(Fault::Memory),
                kind => Err(Fault::Unreadable(Obstacle::of(kind))),
            },
        }
    }

    fn is_regular(&self, name: &str) -> bool {
        match self.rt.metadata(name) {
            Ok(metadata) => metadata.is_file(),
            Err(_) => false,
        }
    }

    ghost ReadsState = { λ _ _ octets. IsStateFaultShown octets };

    fn read_state(&self, alloc: Global, name: &str) -> Result<Vec<u8>, Fault> {
        match read_front(self.rt, alloc, name, MAX_STATE) {
            Ok(octets) => Ok(octets),
            Err(error) => match error.kind() {
                ErrorKind::OutOfMemory => Err(Fault::Memory),
                kind => Err(Fault::StateUnreadable(Obstacle::of(kind))),
            },
        }
    }
}

/// The first octets of a file, at most so many.
fn read_front<R: Files>(rt: &R, alloc: Global, name: &str, most: u64) -> io::Result<Vec<u8>> {
    let file = fs::open(rt, name)?;
    let mut octets = Vec::new(alloc);
    file.take(most).read_to_end(&mut octets)?;
    Ok(octets)
}
