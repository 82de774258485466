//! A log in memory, which can be made to last.

ghost use Rattle.std.specs.Prelude.{◌≡◌, Ok, Option, None, false};

use gw_log_words::{Lasting, Notes};
use gw_script::{OctetSink, WriteFailed};

/// Which calls of a log fail.
#[derive(Clone, Copy)]
pub struct FailingLog {
    /// The sync of this number, from 0.
    pub sync: Option<u64>,
    /// The writes from this number, from 0.
    pub write: Option<u64>,
    /// How many of them, one after the other.
    pub writes: u64,
}

/// A log in what is written to, which holds what that holds. It is synced only if something was written since the last sync, and some
/// calls may fail.
#[derive(Drop)]
pub struct MemLog<S> {
    text: S,
    is_unsynced: bool,
    syncs: u64,
    writes: u64,
    failing: FailingLog,
}

impl<S> MemLog<S> {
    /// One of which these calls fail.
    pub fn new(text: S, failing: FailingLog) -> Self {
        MemLog {
            text,
            is_unsynced: false,
            syncs: 0,
            writes: 0,
            failing,
        }
    }

    /// Whether the next write fails. It is counted.
    fn fails(&mut self) -> bool
        ensures { self.new.text ≡ self.old.text }
    {
        let number = self.writes;
        self.writes = self.writes.wrapping_add(1);
        match self.failing.write {
            Some(first) => number >= first && number - first < self.failing.writes,
            None => false,
        }
    }

    /// What it is written to.
    pub fn text(&self) -> &S {
        &self.text
    }

    /// How often it was synced.
    pub fn syncs(&self) -> u64 {
        self.syncs
    }
}

impl<S: OctetSink> OctetSink for MemLog<S> {
    ghost held = { λ log. S.held log.text };

    ghost NeverFails = { λ _. ⊥ };

    #[tactic(auto, using(gw_script::proofs::UnreadLemmas::keeps_same))]
    fn write_octets(&mut self, text: &[u8]) -> Result<usize, WriteFailed> {
        self.is_unsynced = true;
        if self.fails() {
            return Err(WriteFailed);
        }
        self.text.write_octets(text)
    }
}

impl<S: OctetSink> Lasting for MemLog<S> {
    ghost IsLasting = { λ log. log.is_unsynced ≡ false };

    ghost Syncs = { λ was _ is. is.text ≡ was.text };

    #[tactic(auto, using(gw_script::proofs::UnreadLemmas::keeps_same))]
    fn sync(&mut self) -> Result<(), WriteFailed> {
        if !self.is_unsynced {
            return Ok(());
        }
        let number = self.syncs;
        self.syncs = self.syncs.wrapping_add(1);
        if self.failing.sync == Some(number) {
            return Err(WriteFailed);
        }
        self.is_unsynced = false;
        Ok(())
    }
}

impl<S: OctetSink> Notes for MemLog<S> {
    ghost Takes = { λ was _ _ is. is ≡ was };

    ghost BeginsAnew = { λ was anew is. (anew ≡ false) × (is ≡ was) };

    fn take_note(&mut self, _text: &[u8]) -> Result<(), WriteFailed> {
        Ok(())
    }

    fn begins_anew(&mut self) -> bool {
        false
    }
}
