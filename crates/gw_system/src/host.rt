//! What `run` takes of the machine: a log, and a wire over the sockets of the ports.

ghost use Rattle.std.specs.Prelude.{◌≡◌, ◌≤◌, ℕ, Bool, List, length, ⊤, Result, Option, IfOk, IfErr, IfSome};
ghost use Rattle.gw_addr.specs.declared.TheConstants.{MAX_PORTS};
ghost use Rattle.gw_system.specs.FileRequests.{AreFilesOf};
ghost use Rattle.gw_system.specs.Making.{IsMade};
ghost use Rattle.gw_system.specs.Host.{IsSocketFailure};
ghost use Rattle.gw_system.specs.Offers.{Offers, OpensLog};
ghost use Rattle.gw_system.specs.declared.folder.SystemFolder.{SystemFolder};
ghost use Rattle.gw_system.specs.Requests.{text_found};
ghost use Rattle.gw_system.specs.Store.{IsStoreOf};

use crate::disk::SystemDisk;
use crate::file_log::{self, FileLog};
use crate::folder::{Folder, SystemFolder};
use crate::making::{MadeRequest, end_turn, make_in_turn};
use crate::opening::{LogFailure, SocketFailure, Step};
use crate::poll_waiter::PollWaiter;
use crate::reading::{ReadFailure, read_file, read_last_denial, read_last_record};
use crate::requests::{FileRequests, Requests, wait_for_answer};
use crate::store::{FileStore, StoreKind};
use crate::system_clock::SystemClock;
use crate::udp::{UdpSock, open_pairs};
use gw_configuration::Port;
use gw_log_words::{Calendar, Notes, SystemCalendar};
use gw_script::write_whole;
use gw_wire::{Ports, SockPair, Store, StoreFault, TimedPorts, Watch, Wire};
use std::alloc::{AllocError, Global};
use std::io::{ErrorKind, Read, Seek, SeekFrom};
use std::net::Net;
use std::os::unix::fs::FileTypeExt;
use std::rt::Files;
use std::time::Clock;
use std::{fs, io};

/// What `run` takes of a machine.
pub trait Host {
    /// A log that can be appended to.
    type Log: Notes + Drop;

    /// A wire over the sockets of some ports.
    type Sockets: Wire + Drop;

    /// A place that holds a state, or metrics.
    type StateStore: Store + Drop;

    /// What asks to read the configuration again.
    type Reloads: Requests + Drop;

    /// A request that was made.
    type Asked: Drop;

    /// What gives the time of day.
    type Calendar: Calendar + Drop;

    /// What asking by the file of a name, with a text, may give.
    ghost Asks: { Self → List ℕ → List ℕ → Self.Asked → Type 0 };

    /// What may be answered to a request.
    ghost Answers: { Self.Asked → List ℕ → Type 0 };

    /// What it may give to a run.
    ghost offers: { Self → Offers Self.Log Self.Sockets Self.StateStore Self.Reloads };

    /// How the sockets, and the log where one was opened, may have been when they were closed.
    ghost Closes: { Self → Self.Sockets → Option Self.Log → Type 0 };

    /// Opens the log of this name, to append to it. Faults: `Failed` if the system doesn't, or the file is
    /// a symbolic link; and `Memory`.
    fn open_log(&self, alloc: Global, name: &str) -> Result<Self::Log, LogFailure>
        ensures { (offers self.now).LogOpens name.now result };

    /// Whether the log of this name has octets and doesn't end in a line feed, as where a disk was
    /// full or the power failed. Not where it can't be read.
    fn is_cut(&self, name: &str) -> bool
        ensures { (offers self.now).LogIsCut name.now result };

    /// Whether it routes IP from one interface to another, past the gateway. Not if that can't be read.
    fn routes_ip(&self) -> bool
        ensures { (offers self.now).RoutesIp result };

    /// Opens the sockets of these ports, from 1 to 8, in their order, of each port that of its own
    /// address first. Faults: `Failed`, with the port, the step, the address and the reason, where
    /// the system doesn't open one or can't wait at it; and `Memory`.
    fn open_sockets(&self, alloc: Global, ports: &[Port]) -> Result<Self::Sockets, SocketFailure>
        requires least { 1 ≤ length ports.now }
        requires most { length ports.now ≤ MAX_PORTS }
        ensures opens { (offers self.now).SocketsOpen ports.now result }
        ensures ports { IfOk result (λ wire. Self.Sockets.port_count wire ≡ length ports.now) }
        ensures fresh { IfOk result (λ wire. Self.Sockets.failure_count wire ≡ 0) }
        ensures failure { IfErr result (IsSocketFailure (length ports.now)) };

    /// The octets of the regular file of this name, or `None` if there is no such file. Faults: `Unreadable` if
    /// it can't be read, is no regular file or has more than so many octets; and `Memory`.
    fn read_file(
        &self,
        alloc: Global,
        name: &str,
        most: usize,
    ) -> Result<Option<Vec<u8>>, ReadFailure>
        ensures { (offers self.now).FileReads name.now (text_found result) };

    /// The line of the denial that the log of this name shows last, without what is in front of it, such as a stamp, and its line
    /// feed, looked for in its last 16,777,216 octets. Lines after it show none, as notes. `None` if there is no such file, it isn't
    /// a regular one, or no whole line there shows one. Faults: `Unreadable`, and `Memory`.
    fn last_denial(&self, alloc: Global, name: &str) -> Result<Option<Vec<u8>>, ReadFailure>
        ensures { (offers self.now).LastDenials name.now (text_found result) };

    /// What [`last_denial`](Host::last_denial) gives, of a log that a stalled reader can't hold up: what has the name must be a regular
    /// file, or nothing. Faults: `Unreadable`, also if it is a pipe, a device or a folder; and `Memory`.
    fn last_record(&self, alloc: Global, name: &str) -> Result<Option<Vec<u8>>, ReadFailure>
        ensures { (offers self.now).LastDenials name.now (text_found result) };

    /// Whether opening the log of this name may wait for its reader, as that of a named pipe does. Not if it can't be looked at.
    fn waits(&self, name: &str) -> bool
        ensures { (offers self.now).Waits name.now result };

    /// Opens the place that holds a text under this name for that, without reading or making anything. Faults:
    /// `NotPermitted` if it is a symbolic link, and those of the system.
    fn open_store(
        &self,
        alloc: Global,
        name: &str,
        kind: StoreKind,
    ) -> Result<Self::StateStore, StoreFault>
        ensures { (offers self.now).StoreOpens kind name.now result };

    /// What asks by the file of this name to read that configuration again. The only fault is want of memory.
    fn open_reloads(
        &self,
        alloc: Global,
        request: &str,
        config: &str,
    ) -> Result<Self::Reloads, AllocError>
        ensures { IfOk result ((offers self.now).ReloadsOpen request.now config.now) };

    /// Makes the request of this text by the file of this name, after an older answer was taken away. It waits, some seconds at most,
    /// for others who made one by that file to have their answer.
    fn make_request(
        &self,
        alloc: Global,
        name: &str,
        text: &[u8],
    ) -> Result<Self::Asked, StoreFault>
        ensures { IfOk result (Asks self.now name.now text.now) };

    /// Waits at most so many seconds for the answer to this request, gives its octets and takes its file away. `None`
    /// if none came; then the request is taken away. Faults: `Unreadable`, also if the system can't wait, and `Memory`.
    fn await_answer(
        &self,
        alloc: Global,
        asked: &Self::Asked,
        seconds: u8,
    ) -> Result<Option<Vec<u8>>, ReadFailure>
        ensures { IfOk result (λ found. IfSome found (λ answer. Answers asked.now answer.items)) };

    /// What gives the time of day for the stamps of a log.
    fn calendar(&self) -> Self::Calendar;

    /// Closes the sockets and the log.
    fn close(&mut self, sockets: Self::Sockets, log: Option<Self::Log>)
        ensures { Closes self.new sockets log };
}

/// Opens the log of this name. Where its last line was cut, that gets its line feed, so that the next
/// one has a line of its own. Faults: `Failed`, and `Memory`.
pub fn open_at_line<H: Host>(alloc: Global, name: &str, host: &H) -> Result<H::Log, LogFailure>
    ensures { OpensLog (H.offers host.now) H.Log.held name.now result }
{
    let mut log = host.open_log(alloc, name)?;
    if !host.is_cut(name) {
        return Ok(log);
    }
    match write_whole(&mut log, b"\n") {
        Ok(()) => Ok(log),
        Err(_) => Err(LogFailure::Failed),
    }
}

/// Who may read and write a file that is made: its owner alone.
pub(crate) const MODE: u32 = 0o600;

/// Where Linux says whether it routes IP: `0` if it doesn't.
const FORWARDING: &str = "/proc/sys/net/ipv4/ip_forward";

/// Whether the file of this name is a symbolic link.
pub(crate) fn is_link<R: Files>(rt: &R, name: &str) -> bool {
    match rt.symlink_metadata(name) {
        Ok(metadata) => metadata.is_symlink(),
        Err(_) => false,
    }
}

/// The first octet of a file.
fn first_octet<R: Files>(rt: &R, name: &str) -> io::Result<u8> {
    let mut first = [0];
    fs::open(rt, name)?.read_exact(&mut first)?;
    Ok(first[0])
}

/// The last octet of a regular file, an `Err` where it has none or can't be read. A pipe or a terminal is left alone.
fn last_octet<R: Files>(rt: &R, name: &str) -> io::Result<u8> {
    if !rt.metadata(name)?.is_file() {
        return Err(ErrorKind::NotSeekable.into());
    }
    read_last(&mut fs::open(rt, name)?)
}

/// The last octet of what can be read from any place on, an `Err` where there is none.
fn read_last<F: Read + Seek>(file: &mut F) -> io::Result<u8> {
    file.seek(SeekFrom::End(-1))?;
    let mut last = [0];
    file.read_exact(&mut last)?;
    Ok(last[0])
}

/// The machine of the process.
#[derive(Drop)]
pub struct SystemHost<'a, R> {
    /// By what files and sockets are opened, and the clock.
    pub rt: &'a R,
}

impl<'a, R: Net + Clock> SystemHost<'a, R> {
    /// The ports of these sockets, from now on.
    fn start(
        &self,
        alloc: Global,
        mut pairs: Vec<SockPair<Watch<UdpSock>>>,
    ) -> io::Result<TimedPorts<UdpSock, SystemClock<'a, R>, PollWaiter<'a, R>>>
        requires { length pairs.items ≤ MAX_PORTS }
        ensures ports { IfOk result
            (λ timed. length timed.ports.pairs ≡ length pairs.items) }
        ensures fresh { IfOk result (λ timed. timed.ports.failures ≡ 0) }
    {
        let waiter = PollWaiter::open(alloc, self.rt, &mut pairs)?;
        TimedPorts::start(Ports::new(pairs), SystemClock { rt: self.rt }, waiter)
    }
}

impl<'a, R: Files + Net + Clock> Host for SystemHost<'a, R> {
    type Log = FileLog<'a, R>;

    type Sockets = TimedPorts<UdpSock, SystemClock<'a, R>, PollWaiter<'a, R>>;

    type StateStore = FileStore<SystemDisk<'a, R>>;

    type Reloads = FileRequests<SystemFolder<'a, R>>;

    type Asked = MadeRequest;

    type Calendar = SystemCalendar<'a, R>;

    ghost Asks = { λ _ name text asked. IsMade name text asked };

    ghost Answers = { λ _ _. ⊤ };

    ghost offers = { λ host.
        let folder : SystemFolder R = record { rt = host.rt } in
        record {
          FileReads = λ _ _. ⊤;
          LastDenials = λ _ _. ⊤;
          StoreOpens = λ kind name opened. IfOk opened (IsStoreOf name kind);
          ReloadsOpen = λ request config. AreFilesOf folder request config;
          LogOpens = λ _ _. ⊤;
          LogIsCut = λ _ _. ⊤;
          Waits = λ _ _. ⊤;
          SocketsOpen = λ _ _. ⊤;
          RoutesIp = λ _. ⊤;
        } };

    ghost Closes = { λ _ _ _. ⊤ };

    fn open_log(&self, alloc: Global, name: &str) -> Result<FileLog<'a, R>, LogFailure> {
        file_log::open_log(self.rt, alloc, name)
    }

    fn is_cut(&self, name: &str) -> bool {
        match last_octet(self.rt, name) {
            Ok(octet) => octet != b'\n',
            Err(_) => false,
        }
    }

    fn routes_ip(&self) -> bool {
        match first_octet(self.rt, FORWARDING) {
            Ok(octet) => octet != b'0',
            Err(_) => false,
        }
    }

    fn open_sockets(
        &self,
        alloc: Global,
        ports: &[Port],
    ) -> Result<TimedPorts<UdpSock, SystemClock<'a, R>, PollWaiter<'a, R>>, SocketFailure> {
        let pairs = open_pairs(alloc, self.rt, ports)?;
        match self.start(alloc, pairs) {
            Ok(timed) => Ok(timed),
            Err(error) => Err(SocketFailure::at(1, Step::Waiting, ports[0].address, &error)),
        }
    }

    fn read_file(
        &self,
        alloc: Global,
        name: &str,
        most: usize,
    ) -> Result<Option<Vec<u8>>, ReadFailure> {
        read_file(self.rt, alloc, name, most)
    }

    fn last_denial(&self, alloc: Global, name: &str) -> Result<Option<Vec<u8>>, ReadFailure> {
        read_last_denial(self.rt, alloc, name)
    }

    fn last_record(&self, alloc: Global, name: &str) -> Result<Option<Vec<u8>>, ReadFailure> {
        read_last_record(self.rt, alloc, name)
    }

    fn waits(&self, name: &str) -> bool {
        match self.rt.metadata(name) {
            Ok(metadata) => metadata.file_type().is_fifo(),
            Err(_) => false,
        }
    }

    fn open_store(
        &self,
        alloc: Global,
        name: &str,
        kind: StoreKind,
    ) -> Result<FileStore<SystemDisk<'a, R>>, StoreFault> {
        FileStore::open(self.rt, alloc, name, kind)
    }

    fn open_reloads(
        &self,
        alloc: Global,
        request: &str,
        config: &str,
    ) -> Result<FileRequests<SystemFolder<'a, R>>, AllocError> {
        FileRequests::new(SystemFolder { rt: self.rt }, alloc, request, config)
    }

    fn make_request(
        &self,
        alloc: Global,
        name: &str,
        text: &[u8],
    ) -> Result<MadeRequest, StoreFault> {
        let mut folder = SystemFolder { rt: self.rt };
        make_in_turn(self.rt, &mut folder, alloc, name, text)
    }

    fn await_answer(
        &self,
        alloc: Global,
        asked: &MadeRequest,
        seconds: u8,
    ) -> Result<Option<Vec<u8>>, ReadFailure> {
        let mut folder = SystemFolder { rt: self.rt };
        let files = &asked.files;
        let found = wait_for_answer(self.rt, &folder, alloc, files, seconds);
        let done = match found {
            Ok(Some(_)) => &files.answer.name,
            Ok(None) | Err(_) => &files.request.name,
        };
        let _ = folder.take_away(done);
        end_turn(&mut folder, &asked.turn);
        found
    }

    fn calendar(&self) -> SystemCalendar<'a, R> {
        SystemCalendar { rt: self.rt }
    }

    fn close(
        &mut self,
        _sockets: TimedPorts<UdpSock, SystemClock<'a, R>, PollWaiter<'a, R>>,
        _log: Option<FileLog<'a, R>>,
    )
        ensures { self.new ≡ self.old }
    {}
}
