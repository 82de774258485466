//! The file of a log.

ghost use Rattle.std.specs.Prelude.{None, ⊤, ◌≤◌, length, IfOk};

use crate::disk::{folder_of, sync_names};
use crate::host::{MODE, is_link};
use crate::opening::LogFailure;
use crate::store::name_with;
use gw_log_words::{Lasting, NamedFiles, NamedLog};
use gw_script::{OctetSink, WriteFailed};
use std::alloc::Global;
use std::fs::{File, Metadata, OpenFile};
use std::io::{self, ErrorKind, Write};
use std::os::unix::fs::{MetadataExt, OpenOptionsExt};
use std::rt::Files;
use std::time::Clock;

/// The log of the system: it is appended to the file of a name, whatever file that is.
pub type FileLog<'a, R> = NamedLog<LogFiles<'a, R>>;

/// A file of a log.
#[derive(Drop)]
pub struct LogFile<R: Files> {
    file: R::File,
    place: Option<Place>,
}

/// Which file it is: its device, and its number there.
#[derive(Clone, Copy)]
struct Place {
    device: u64,
    number: u64,
}

impl Place {
    fn of(metadata: &Metadata) -> Self {
        Place {
            device: metadata.dev(),
            number: metadata.ino(),
        }
    }

    fn is_same(self, other: Self) -> bool {
        self.device == other.device && self.number == other.number
    }
}

impl<R: Files> OctetSink for LogFile<R> {
    ghost held = { λ _. None };

    ghost NeverFails = { λ _. ⊥ };

    fn write_octets(&mut self, text: &[u8]) -> Result<usize, WriteFailed> {
        match self.write_again(text) {
            Ok(0) if !text.is_empty() => Err(WriteFailed),
            Ok(count) => Ok(count),
            Err(_) => Err(WriteFailed),
        }
    }
}

impl<R: Files> LogFile<R> {
    /// Writes some octets of a text, again if a signal interrupts it.
    fn write_again(&mut self, text: &[u8]) -> io::Result<usize>
        ensures { IfOk result (λ n. n ≤ length text.now) }
    {
        for _ in 0..u64::MAX {
            match self.file.write(text) {
                Err(error) if is_interrupted(&error) => {}
                outcome => return outcome,
            }
        }
        Err(ErrorKind::Interrupted.into())
    }
}

/// Whether a signal interrupted a call.
fn is_interrupted(error: &io::Error) -> bool {
    matches!(error.kind(), ErrorKind::Interrupted)
}

/// Whether what was to be synced is nothing that can be, as a pipe or a terminal.
fn is_unsyncable(error: &io::Error) -> bool {
    matches!(error.kind(), ErrorKind::InvalidInput)
}

impl<R: Files> Lasting for LogFile<R> {
    ghost IsLasting = { λ _. ⊤ };

    ghost Syncs = { λ _ _ _. ⊤ };

    fn sync(&mut self) -> Result<(), WriteFailed> {
        match self.file.sync_data() {
            Ok(()) => Ok(()),
            Err(error) if is_unsyncable(&error) => Ok(()),
            Err(_) => Err(WriteFailed),
        }
    }
}

/// The files that one after the other have a name. It is looked at once a second at most.
#[derive(Drop)]
pub struct LogFiles<'a, R> {
    rt: &'a R,
    name: String,
    looked: u64,
}

/// Opens the file of a log to append to it. An `Err` if the system doesn't, or it is a symbolic link.
fn open_file<R: Files>(rt: &R, name: &str) -> io::Result<LogFile<R>> {
    if is_link(rt, name) {
        return Err(ErrorKind::PermissionDenied.into());
    }
    let file = File::options()
        .append(true)
        .create(true)
        .mode(MODE)
        .open(rt, name)?;
    // The name lasts too, as far as the system lets it.
    let _ = sync_names(rt, folder_of(name));
    let place = match file.metadata() {
        Ok(metadata) => Some(Place::of(&metadata)),
        Err(_) => None,
    };
    Ok(LogFile { file, place })
}

/// Opens the log in the file of this name. Faults: `Failed` if the system doesn't, or it is a symbolic link; and
/// `Memory`.
pub fn open_log<'a, R: Files + Clock>(
    rt: &'a R,
    alloc: Global,
    name: &str,
) -> Result<FileLog<'a, R>, LogFailure> {
    let file = match open_file(rt, name) {
        Ok(file) => file,
        Err(error) => return Err(log_failure(&error)),
    };
    let Ok(name) = name_with(alloc, name, "") else {
        return Err(LogFailure::Memory);
    };
    let looked = seconds(rt);
    Ok(NamedLog::new(LogFiles { rt, name, looked }, file))
}

/// The seconds of a clock that never goes back, 0 if it can't be read.
fn seconds<R: Clock>(rt: &R) -> u64 {
    match rt.monotonic() {
        Ok(time) => time.as_secs(),
        Err(_) => 0,
    }
}

/// Why a log isn't opened, by the error of the system.
fn log_failure(error: &io::Error) -> LogFailure {
    match error.kind() {
        ErrorKind::OutOfMemory => LogFailure::Memory,
        _ => LogFailure::Failed,
    }
}

/// Whether the file of the name is this one, or can't be looked at, or is none that opens at once, as a pipe.
fn has_name<R: Files>(rt: &R, name: &str, place: Place) -> bool {
    match rt.metadata(name) {
        Ok(metadata) => place.is_same(Place::of(&metadata)) || !metadata.is_file(),
        Err(error) => !matches!(error.kind(), ErrorKind::NotFound),
    }
}

impl<R: Files + Clock> NamedFiles for LogFiles<'_, R> {
    type File = LogFile<R>;

    ghost left = { λ _. None };

    fn renewed(&mut self, file: &LogFile<R>) -> Option<LogFile<R>> {
        let now = seconds(self.rt);
        if now == self.looked {
            return None;
        }
        self.looked = now;
        if has_name(self.rt, &self.name, file.place?) {
            return None;
        }
        open_file(self.rt, &self.name).ok()
    }

    fn leave(&mut self, _file: LogFile<R>) {}
}
