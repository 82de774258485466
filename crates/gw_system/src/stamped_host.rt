//! A machine whose logs have stamps and notes.

ghost use Rattle.std.specs.Prelude.{◌≡◌, Some, IfErr, IfOk};
ghost use Rattle.gw_system.specs.StampedHost.{IsBegunIn, log_if, stamped_offers};
ghost use Rattle.gw_system.specs.declared.opening.LogFailure.TheVariants as failure;

use crate::host::{Host, open_at_line};
use crate::opening::{LogFailure, SocketFailure};
use crate::reading::ReadFailure;
use crate::store::StoreKind;
use gw_configuration::Port;
use gw_log_words::{Calendar, Noted, Notes, Stamped};
use gw_wire::StoreFault;
use std::alloc::{AllocError, Global};

/// The note of a log that was opened, with the version of the program.
const BEGAN: &[u8] = b"bacgw 0.1.0 began";

/// The log with stamps and notes that goes on in this one, at which a line begins, with its first note. `Failed` if that can't be
/// written.
fn begun_in<L: Notes + Drop, C: Calendar + Drop>(
    alloc: Global,
    log: L,
    calendar: C,
) -> Result<Noted<Stamped<L, C>>, LogFailure>
    ensures begun { IfOk result (IsBegunIn L.held log) }
    ensures fault { IfErr result (λ f. f ≡ failure.Failed) }
{
    let mut noted = Noted::new(Stamped::new(alloc, log, calendar));
    match noted.note(BEGAN) {
        Ok(()) => Ok(noted),
        Err(_) => Err(LogFailure::Failed),
    }
}

/// A machine that opens what another one does. Each line of its logs begins with the time, and each log that is opened gets a note.
/// What is closed it keeps.
#[derive(Drop)]
pub struct StampedHost<'a, H: Host> {
    /// The other machine.
    pub host: &'a H,
    /// The sockets and the log that were closed, if some were.
    pub closed: Option<(H::Sockets, Option<Noted<Stamped<H::Log, H::Calendar>>>)>,
}

impl<H: Host> Host for StampedHost<'_, H> {
    type Log = Noted<Stamped<H::Log, H::Calendar>>;

    type Sockets = H::Sockets;

    type StateStore = H::StateStore;

    type Reloads = H::Reloads;

    type Asked = H::Asked;

    type Calendar = H::Calendar;

    ghost Asks = { λ machine. H.Asks machine.host.now };

    ghost Answers = { H.Answers };

    ghost offers = { λ machine. stamped_offers (H.offers machine.host.now) H.Log.held };

    ghost Closes = { λ machine sockets log. machine.closed ≡ Some (sockets, log) };

    fn open_log(
        &self,
        alloc: Global,
        name: &str,
    ) -> Result<Noted<Stamped<H::Log, H::Calendar>>, LogFailure> {
        let log = open_at_line(alloc, name, self.host)?;
        begun_in(alloc, log, self.host.calendar())
    }

    fn is_cut(&self, _name: &str) -> bool {
        false
    }

    fn routes_ip(&self) -> bool {
        self.host.routes_ip()
    }

    fn open_sockets(&self, alloc: Global, ports: &[Port]) -> Result<H::Sockets, SocketFailure> {
        self.host.open_sockets(alloc, ports)
    }

    fn read_file(
        &self,
        alloc: Global,
        name: &str,
        most: usize,
    ) -> Result<Option<Vec<u8>>, ReadFailure> {
        self.host.read_file(alloc, name, most)
    }

    fn last_denial(&self, alloc: Global, name: &str) -> Result<Option<Vec<u8>>, ReadFailure> {
        self.host.last_denial(alloc, name)
    }

    fn last_record(&self, alloc: Global, name: &str) -> Result<Option<Vec<u8>>, ReadFailure> {
        self.host.last_record(alloc, name)
    }

    fn waits(&self, name: &str) -> bool {
        self.host.waits(name)
    }

    fn open_store(
        &self,
        alloc: Global,
        name: &str,
        kind: StoreKind,
    ) -> Result<H::StateStore, StoreFault> {
        self.host.open_store(alloc, name, kind)
    }

    fn open_reloads(
        &self,
        alloc: Global,
        request: &str,
        config: &str,
    ) -> Result<H::Reloads, AllocError> {
        self.host.open_reloads(alloc, request, config)
    }

    fn make_request(&self, alloc: Global, name: &str, text: &[u8]) -> Result<H::Asked, StoreFault> {
        self.host.make_request(alloc, name, text)
    }

    fn await_answer(
        &self,
        alloc: Global,
        asked: &H::Asked,
        seconds: u8,
    ) -> Result<Option<Vec<u8>>, ReadFailure> {
        self.host.await_answer(alloc, asked, seconds)
    }

    fn calendar(&self) -> H::Calendar {
        self.host.calendar()
    }

    fn close(&mut self, sockets: H::Sockets, log: Option<Noted<Stamped<H::Log, H::Calendar>>>)
        ensures { self.new.closed ≡ Some (sockets, log) }
    {
        self.closed = Some((sockets, log));
    }
}

/// The log in which one with stamps and notes went on.
pub fn into_log<L: Drop, C: Drop>(log: Option<Noted<Stamped<L, C>>>) -> Option<L>
    ensures { result ≡ log_if log }
{
    match log {
        Some(noted) => Some(noted.into_sink().into_sink()),
        None => None,
    }
}
