//! Why a log or the sockets of `run` can't be opened, and how an operator learns of it.

ghost use Rattle.std.specs.Prelude.{◌≡◌, ◌≤◌, ◌++◌, ℕ, IfOk, OnOk};
ghost use Rattle.gw_system.specs.Host.{IsSocketFailure};
ghost use Rattle.gw_system.specs.Opening.{IsNote, IsNoteOf, failure_text, reason_text, step_text};

use gw_addr::{BipAddr, put_decimal};
use std::alloc::{AllocError, Global};
use std::io;
use std::io::ErrorKind;

/// What of a port is opened.
#[derive(Clone, Copy)]
pub enum Step {
    /// The socket of its own address.
    Own,
    /// The socket of its broadcast address.
    Broadcast,
    /// What waits for datagrams, and the clock.
    Waiting,
}

/// Why the system doesn't open it.
#[derive(Clone, Copy)]
pub enum Reason {
    /// The machine has no such address.
    NoAddress,
    /// Another socket has the address.
    InUse,
    /// The system doesn't permit it.
    NotPermitted,
    /// Another error of the system.
    Other,
}

impl Reason {
    /// The reason of a call that failed.
    pub fn of(error: &io::Error) -> Self {
        match error.kind() {
            ErrorKind::AddrNotAvailable => Reason::NoAddress,
            ErrorKind::AddrInUse => Reason::InUse,
            ErrorKind::PermissionDenied => Reason::NotPermitted,
            _ => Reason::Other,
        }
    }

    /// The reason in words.
    fn text(self) -> &'static str
        ensures { result.now ≡ reason_text self }
    {
        match self {
            Reason::NoAddress => "no address of this machine",
            Reason::InUse => "another socket has the address",
            Reason::NotPermitted => "not permitted",
            Reason::Other => "refused by the system",
        }
    }
}

impl Step {
    /// The step in words.
    fn text(self) -> &'static str
        ensures { result.now ≡ step_text self }
    {
        match self {
            Step::Own => "own",
            Step::Broadcast => "broadcast",
            Step::Waiting => "waiting at",
        }
    }
}

/// A step that failed.
#[derive(Clone, Copy)]
pub struct FailedStep {
    /// The number of the port, from 1.
    pub port: u8,
    /// What of it was opened.
    pub step: Step,
    /// At which address.
    pub address: BipAddr,
    /// Why it isn't open.
    pub reason: Reason,
}

impl FailedStep {
    /// The line on it.
    fn line(&self, alloc: Global) -> Result<Vec<u8>, AllocError>
        ensures { IfOk result (λ line. line.items ≡ failure_text self.now) }
    {
        let mut line = Vec::new(alloc);
        self.put_line(&mut line)?;
        Ok(line)
    }

    /// Appends the line on it: the port, what of it, the address, and the reason.
    fn put_line(&self, out: &mut Vec<u8>) -> Result<(), AllocError>
        ensures { OnOk result (out.new.items ≡ out.old.items ++ failure_text self.now) }
    {
        out.extend_from_slice(b"port ")?;
        put_decimal(out, self.port)?;
        out.extend_from_slice(b": ")?;
        out.extend_from_slice(self.step.text().as_bytes())?;
        out.push(b' ')?;
        self.address.put_text(out)?;
        out.extend_from_slice(b": ")?;
        out.extend_from_slice(self.reason.text().as_bytes())?;
        out.push(b'\n')?;
        Ok(())
    }
}

/// Why the log can't be opened.
#[derive(Clone, Copy)]
pub enum LogFailure {
    /// A growth was refused.
    Memory,
    /// The system doesn't open it, or doesn't take the line feed that its last line lacks.
    Failed,
}

impl From<AllocError> for LogFailure {
    ghost use Rattle.std.specs.Prelude.{◌≡◌};
    ghost use Rattle.gw_system.specs.declared.opening.LogFailure.TheVariants.{Memory};

    ghost from_gives = { λ _ failure. failure ≡ Memory };

    fn from(_refused: AllocError) -> LogFailure {
        LogFailure::Memory
    }
}

/// Why the sockets can't be opened.
#[derive(Clone, Copy)]
pub enum SocketFailure {
    /// A growth was refused.
    Memory,
    /// A step failed.
    Failed(FailedStep),
}

impl SocketFailure {
    /// The failure of a step at the port of this number, by what the system reported.
    pub fn at(port: u8, step: Step, address: BipAddr, error: &io::Error) -> Self
        ensures { (ports : ℕ) → 1 ≤ port → port ≤ ports → IsSocketFailure ports result }
    {
        match error.kind() {
            ErrorKind::OutOfMemory => SocketFailure::Memory,
            _ => SocketFailure::Failed(FailedStep {
                port,
                step,
                address,
                reason: Reason::of(error),
            }),
        }
    }
}

/// Why not all of what `run` serves is open.
#[derive(Clone, Copy)]
pub enum OpenFailure {
    /// The log isn't, or memory ran out before it.
    Log(LogFailure),
    /// The sockets aren't.
    Sockets(SocketFailure),
}

impl OpenFailure {
    /// What is said of it: the line of a step that failed, which is left out where there is no memory
    /// for it.
    fn note(self, alloc: Global) -> Vec<u8>
        ensures { IsNoteOf self result.items }
    {
        if let OpenFailure::Sockets(SocketFailure::Failed(failed)) = self {
            if let Ok(line) = failed.line(alloc) {
                return line;
            }
        }
        Vec::new(alloc)
    }
}

/// What is said of a failure, where that is asked for.
pub fn note_of(alloc: Global, is_asked: bool, failure: OpenFailure) -> Vec<u8>
    ensures { IsNote is_asked failure result.items }
{
    if is_asked {
        failure.note(alloc)
    } else {
        Vec::new(alloc)
    }
}

impl From<AllocError> for OpenFailure {
    ghost use Rattle.std.specs.Prelude.{◌≡◌};
    ghost use Rattle.gw_system.specs.declared.opening.LogFailure.TheVariants.{Memory};
    ghost use Rattle.gw_system.specs.declared.opening.OpenFailure.TheVariants.{Log};

    ghost from_gives = { λ _ failure. failure ≡ Log Memory };

    fn from(_refused: AllocError) -> OpenFailure {
        OpenFailure::Log(LogFailure::Memory)
    }
}
