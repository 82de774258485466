//! A log in files that one after the other have its name.

ghost use Rattle.std.specs.Prelude.{◌≡◌, ◌≤◌, ◌<◌, ⊤, ℕ, true, false, List, Option, length, IfOk, IfSome};
ghost use Rattle.std.specs.Io.KnownBytes.{Keeps, WriteAppends};
ghost use Rattle.gw_log_words.specs.NamedLog.{BeginsEmpty, IsFileSynced, IsLogSynced, joined};

use crate::lasting::Lasting;
use crate::notes::Notes;
use gw_script::{OctetSink, WriteFailed};
use std::mem;

/// The files that one after the other have a name.
pub trait NamedFiles {
    /// A file that can be appended to.
    type File: Lasting + Drop;

    /// What the files that were left were given, in the order in which they were left, if that is known.
    ghost left: { Self → Option (List ℕ) };

    /// A new file of the name if this one has it no more. `None` while it has it or isn't looked for, and if no file
    /// can be opened.
    fn renewed(&mut self, file: &Self::File) -> Option<Self::File>
        ensures left { left self.new ≡ left self.old }
        ensures empty { IfSome result (λ next. BeginsEmpty (joined (left self.old) (Self.File.held file.now))
            (Self.File.held next)) };

    /// Leaves a file.
    fn leave(&mut self, file: Self::File)
        ensures { left self.new ≡ joined (left self.old) (Self.File.held file) };
}

/// A log in the file that has a name: if that was renamed or removed, a line goes to a new file of the name, and so does the rest
/// of one of which a write failed. What was written is what the files were given, in their order. It takes no notes.
#[derive(Drop)]
pub struct NamedLog<F: NamedFiles> {
    files: F,
    file: F::File,
    is_at_line: bool,
    /// Whether the last write failed: then a file of the name is looked for within a line, too.
    is_stuck: bool,
    is_anew: bool,
    /// Whether something was written to the file since it was made to last.
    is_unsynced: bool,
    /// Whether a file that was left couldn't be made to last.
    has_failed: bool,
}

impl<F: NamedFiles> NamedLog<F> {
    /// The log in this file, at which a line begins.
    pub fn new(files: F, file: F::File) -> Self {
        NamedLog {
            files,
            file,
            is_at_line: true,
            is_stuck: false,
            is_anew: false,
            is_unsynced: false,
            has_failed: false,
        }
    }

    /// Makes the file last if something was written to it since it did so.
    fn sync_file(&mut self) -> Result<(), WriteFailed>
        ensures { IsFileSynced F.File.Syncs F.File.held self.old result self.new }
    {
        if self.is_unsynced {
            self.file.sync()?;
            self.is_unsynced = false;
        }
        Ok(())
    }

    /// Goes on in a new file if that of the log has its name no more. The old one is made to last.
    fn follow_name(&mut self)
        ensures { Keeps (joined (F.left self.old.files) (F.File.held self.old.file))
            (joined (F.left self.new.files) (F.File.held self.new.file)) }
    {
        if let Some(next) = self.files.renewed(&self.file) {
            self.has_failed = self.has_failed || self.sync_file().is_err();
            let left = mem::replace(&mut self.file, next);
            self.files.leave(left);
            self.is_anew = true;
        }
    }

    /// Goes on in a new file if that of the log has its name no more, and a line begins or the last write failed: who has removed a
    /// file on a full disk has room for the rest of its last line.
    fn follow_at_line(&mut self)
        ensures { Keeps (joined (F.left self.old.files) (F.File.held self.old.file))
            (joined (F.left self.new.files) (F.File.held self.new.file)) }
    {
        if self.is_at_line || self.is_stuck {
            self.follow_name();
        }
    }

    /// Writes some octets of a text to the file that is open.
    fn write_here(&mut self, text: &[u8]) -> Result<usize, WriteFailed>
        ensures bound { IfOk result (λ n. n ≤ length text.now) }
        ensures some { IfOk result (λ n. 0 < length text.now → 0 < n) }
        ensures octets { WriteAppends (joined (F.left self.old.files) (F.File.held self.old.file))
            (joined (F.left self.new.files) (F.File.held self.new.file)) result text.now }
        ensures unsynced { self.new.is_unsynced ≡ true }
    {
        self.is_unsynced = true;
        self.is_stuck = true;
        let count = self.file.write_octets(text)?;
        self.is_stuck = false;
        self.is_at_line = text[..count].ends_with(b"\n");
        Ok(count)
    }
}

impl<F: NamedFiles> OctetSink for NamedLog<F> {
    ghost held = { λ log. joined (F.left log.files) (F.File.held log.file) };

    ghost NeverFails = { λ _. ⊥ };

    fn write_octets(&mut self, text: &[u8]) -> Result<usize, WriteFailed> {
        self.follow_at_line();
        self.write_here(text)
    }
}

impl<F: NamedFiles> Lasting for NamedLog<F> {
    ghost IsLasting = { λ log. (log.is_unsynced ≡ false) × (log.has_failed ≡ false) };

    ghost Syncs = { λ was result is. IsLogSynced F.File.Syncs F.File.held was result is };

    fn sync(&mut self) -> Result<(), WriteFailed> {
        if self.has_failed {
            return Err(WriteFailed);
        }
        self.sync_file()
    }
}

impl<F: NamedFiles> Notes for NamedLog<F> {
    ghost Takes = { λ was _ _ is. is ≡ was };

    ghost BeginsAnew = { λ _ _ _. ⊤ };

    fn take_note(&mut self, _text: &[u8]) -> Result<(), WriteFailed> {
        Ok(())
    }

    fn begins_anew(&mut self) -> bool {
        self.follow_at_line();
        mem::replace(&mut self.is_anew, false)
    }
}
