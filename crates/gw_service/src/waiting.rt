//! What waits for a log that failed.

ghost use Rattle.std.specs.Prelude.{◌≡◌, ◌≤◌, ◌++◌, ◌==◌, ⊤, [], ℕ, Ok, Some, List, false, length, true};
ghost use Rattle.std.specs.Io.KnownBytes.{Appends};

use gw_log_words::{Lasting, Notes};
use gw_script::{OctetSink, WriteFailed};
use gw_turns::write_out;
use std::alloc::Global;
use std::marker::Model;

/// How many octets may wait for a log: 8 MiB.
pub(crate) const MOST_WAITING: usize = 8_388_608;

/// Lines that wait for a log, at most so many octets. Contracts see their text. What is written to it is taken whole or not at all; it
/// takes no notes.
#[derive(Drop)]
pub struct Waiting {
    octets: Vec<u8>,
}

impl Model for Waiting {
    ghost use Rattle.std.specs.Prelude.{◌≤◌, ℕ, List, length};

    ghost Value = { List ℕ };

    ghost view = { λ w. w.octets.items };

    ghost invariant = { λ w. length w.octets.items ≤ 8388608 };
}

impl Waiting {
    /// Nothing waits. It takes no memory.
    pub(crate) fn new(alloc: Global) -> Self
        ensures { result ≡ [] }
    {
        Waiting {
            octets: Vec::new(alloc),
        }
    }

    /// How many octets wait.
    pub(crate) fn len(&self) -> u64
        ensures count { result ≡ length self.now }
        ensures most { result ≤ 8388608 }
    {
        self.octets.len() as u64
    }

    /// Whether nothing waits.
    pub(crate) fn is_empty(&self) -> bool
        ensures { result ≡ (length self.now == 0) }
    {
        self.octets.is_empty()
    }

    /// Has a text wait after what waits, unless that would be too many octets or there is no memory. Whether it does; else what waits
    /// stays.
    pub(crate) fn push(&mut self, text: &[u8]) -> bool
        ensures taken { result ≡ true → self.new ≡ self.old ++ text.now }
        ensures left { result ≡ false → self.new ≡ self.old }
    {
        if text.len() > MOST_WAITING - self.octets.len() {
            return false;
        }
        match self.octets.extend_from_slice(text) {
            Ok(()) => true,
            Err(_) => false,
        }
    }

    /// Writes what waits to a log until all of it is written or a write fails. What the log lacks waits on. Whether that is nothing.
    pub(crate) fn write_to<L: OctetSink>(&mut self, log: &mut L) -> bool
        ensures parts { (front : List ℕ) × (self.old ≡ front ++ self.new) × Appends (L.held log.old) (L.held log.new) front }
        ensures all { result ≡ true → self.new ≡ [] }
        ensures sure { L.NeverFails log.old → result ≡ true }
    {
        write_out(&mut self.octets, log)
    }
}

impl OctetSink for Waiting {
    ghost held = { λ text. Some text };

    ghost NeverFails = { λ _. ⊥ };

    fn write_octets(&mut self, text: &[u8]) -> Result<usize, WriteFailed> {
        if self.push(text) {
            Ok(text.len())
        } else {
            Err(WriteFailed)
        }
    }
}

impl Lasting for Waiting {
    ghost IsLasting = { λ _. ⊤ };

    ghost Syncs = { λ was result is. (result ≡ Ok tt) × (is ≡ was) };

    fn sync(&mut self) -> Result<(), WriteFailed> {
        Ok(())
    }
}

impl Notes for Waiting {
    ghost Takes = { λ was _ _ is. is ≡ was };

    ghost BeginsAnew = { λ was anew is. (anew ≡ false) × (is ≡ was) };

    fn take_note(&mut self, _text: &[u8]) -> Result<(), WriteFailed> {
        Err(WriteFailed)
    }

    fn begins_anew(&mut self) -> bool {
        false
    }
}
