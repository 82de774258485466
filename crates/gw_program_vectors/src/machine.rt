//! One run of the program on a machine in memory, and what it leaves.
//!
//! A section has the words on its first line, with a bar between two of them; then lines that say
//! what the machine is like, as `log 9` for a log with room for 9 octets; and after a line `input`
//! standard input. Each file has the text of the last configuration, but for `unreadable`.

ghost use Rattle.std.specs.Prelude.{◌≡◌, ◌++◌, ⊤, [], ℕ, List, Err, None, Some, false, map, option_map, string_bytes, IfOk, MatchResult};
ghost use Rattle.std.specs.Process.{exit_status};
ghost use Rattle.gw_shell.specs.Program.{IsChoiceOf};
ghost use Rattle.gw_system.specs.Requests.{known};
ghost use Rattle.gw_program_vectors.specs.Exchanges.{asking_of};
ghost use Rattle.gw_program_vectors.specs.Reported.{IsReported};

use crate::mem_log::{FailingLog, MemLog};
use crate::mem_requests::MemRequests;
use gw_addr::BipAddr;
use gw_cases::MemWriter;
use gw_configuration::Port;
use gw_program_cases::{
    Left, MemCalendar, MemFiles, MemStreams, Program, Section, UNREADABLE, put, put_left, put_lines,
};
use gw_script::append_send;
use gw_shell::{FailedStep, Fault, Host, LogFailure, Obstacle, Reason, SocketFailure, Step, run};
use gw_system::{ReadFailure, Request, StoreKind};
use gw_wire::{Got, RECEIVE_ROOM, Store, StoreFault, Wire, WireFault};
use itoa::Buffer;
use std::alloc::{AllocError, Global};
use std::cell::RefCell;
use std::io;
use std::process::ExitCode;

/// The name of the configuration that is on trial.
const TRIAL: &str = "trial";

/// The names of the logs beside the log.
const BESIDE: [&str; 2] = ["trial.log", "audit.log"];

/// The name of a named pipe.
const PIPE: &str = "pipe";

/// The name of the file of the metrics.
const METRICS: &str = "bacgw.prom";

/// A read of Binary Value 2, which the built-in policy denies.
const DENIED_READ: [u8; 22] = [
    0x81, 0x0A, 0x00, 0x16, 0x01, 0x24, 0x00, 0x64, 0x01, 0x01, 0xFF, 0x00, 0x05, 0x08, 0x0C, 0x0C,
    0x01, 0x40, 0x00, 0x02, 0x19, 0x55,
];

/// A wire in memory: so many denied reads, the first of which comes first, a tick after each, and then a tick at each receive. The send
/// of one number, from 0, may fail. It shows its calls, if that is asked for.
#[derive(Drop)]
pub struct MemSockets {
    ports: u8,
    reads: u64,
    receives: u64,
    sends: u64,
    failures: u128,
    failing: Option<u64>,
    calls: Option<Vec<u8>>,
}

/// Shows a receive, if calls are shown.
fn show_receive(calls: &mut Option<Vec<u8>>) {
    if let Some(calls) = calls {
        let _ = calls.extend_from_slice(b"receive\n");
    }
}

/// Shows a send, if calls are shown.
fn show_send(calls: &mut Option<Vec<u8>>, port: u8, to: BipAddr, octets: &[u8]) {
    if let Some(calls) = calls {
        let _ = append_send(calls, port, to, octets);
    }
}

impl Wire for MemSockets {
    ghost port_count = { λ s. s.ports };

    ghost failure_count = { λ s. s.failures };

    ghost calls = { λ _. None };

    ghost behind = { λ _. false };

    fn ports(&self) -> u8 {
        self.ports
    }

    fn is_behind(&self) -> bool {
        false
    }

    fn failures(&self) -> u128 {
        self.failures
    }

    fn recv(&mut self, buf: &mut [u8; RECEIVE_ROOM]) -> Result<Got, WireFault> {
        self.receives = self.receives.wrapping_add(1);
        show_receive(&mut self.calls);
        if self.receives % 2 == 0 || self.receives / 2 >= self.reads || self.ports == 0 {
            return Ok(Got::Tick);
        }
        for (octet, sent) in buf.iter_mut().zip(DENIED_READ) {
            *octet = sent;
        }
        let from = BipAddr {
            ip: [192, 168, 1, 5],
            udp: 47808,
        };
        Ok(Got::Datagram {
            port: 1,
            from,
            len: DENIED_READ.len(),
        })
    }

    fn send(&mut self, port: u8, to: BipAddr, octets: &[u8]) -> Result<(), WireFault> {
        let number = self.sends;
        self.sends = self.sends.wrapping_add(1);
        show_send(&mut self.calls, port, to, octets);
        if self.failing == Some(number) {
            self.failures += 1;
            return Err(WireFault::Failed);
        }
        Ok(())
    }
}

/// A store that holds and shows the last text that was put into it, or fails.
#[derive(Drop)]
pub struct MemStore<'a> {
    alloc: Global,
    fault: Option<StoreFault>,
    text: Option<Vec<u8>>,
    shown: &'a RefCell<Vec<u8>>,
}

impl Store for MemStore<'_> {
    ghost held = { λ store. option_map (λ text. text.items) store.text };

    ghost NeverFails = { λ _. ⊥ };

    fn replace(&mut self, octets: &[u8]) -> Result<(), StoreFault> {
        if let Some(fault) = self.fault {
            return Err(fault);
        }
        let Ok(text) = Vec::from_slice(self.alloc, octets) else {
            return Err(StoreFault::Memory);
        };
        let Ok(shown) = Vec::from_slice(self.alloc, octets) else {
            return Err(StoreFault::Memory);
        };
        self.text = Some(text);
        let _ = self.shown.try_replace(shown);
        Ok(())
    }
}

/// A request that was made.
#[derive(Drop)]
pub struct MemAsked;

/// The text of a request whose configuration isn't there.
const ABSENT: &[u8] = b"absent";

/// That of a request to stop.
const STOP: &[u8] = b"stop";

/// That of a request to say what is counted.
const STATUS: &[u8] = b"status";

/// That of what isn't taken.
const UNTAKEN: &[u8] = b"untaken";

/// The request of this text: to read a configuration again, or another one.
fn request_of(alloc: Global, text: &[u8]) -> Result<Request, AllocError> {
    match text {
        STOP => Ok(Request::Stop),
        STATUS => Ok(Request::Status),
        UNTAKEN => Ok(Request::Untaken),
        ABSENT => Ok(Request::Reload(Ok(None))),
        b"" => Ok(Request::Reload(Err(ReadFailure::Unreadable(Obstacle::Folder)))),
        _ => Ok(Request::Reload(Ok(Some(Vec::from_slice(alloc, text)?)))),
    }
}

/// The wire and the log that a machine closed.
type Closed = (MemSockets, Option<MemLog<MemWriter>>);

/// A machine in memory: its log takes so many octets, or can't be opened, some calls of it may fail, and it may end in a line that
/// was cut; the broadcast socket of one port may fail; and it may route IP. It keeps which logs were opened, and what was closed.
#[derive(Drop)]
struct MemHost<'a> {
    alloc: Global,
    metrics: &'a RefCell<Vec<u8>>,
    state_text: &'a RefCell<Vec<u8>>,
    opened: &'a RefCell<Vec<u8>>,
    answers: &'a RefCell<Vec<u8>>,
    log: Option<usize>,
    failing_log: FailingLog,
    beside: Option<usize>,
    trial: Option<Vec<u8>>,
    is_cut: bool,
    failing: Option<usize>,
    failing_send: Option<usize>,
    reads: usize,
    shows_calls: bool,
    routes: bool,
    state: Option<Vec<u8>>,
    unkept: Option<StoreFault>,
    reload: Option<Vec<u8>>,
    closed: Option<Closed>,
}

/// Adds the name of a log that is opened, on a line of its own.
fn note_opened(opened: &RefCell<Vec<u8>>, name: &str) -> Result<(), AllocError> {
    if let Ok(mut names) = opened.try_borrow_mut() {
        put(&mut names, &[name, "\n"])?;
    }
    Ok(())
}

impl MemHost<'_> {
    /// Which calls of the log of this name fail. Those beside the log take each write.
    fn failing_of(&self, name: &str) -> FailingLog {
        FailingLog {
            write: if BESIDE.contains(&name) {
                None
            } else {
                self.failing_log.write
            },
            ..self.failing_log
        }
    }
}

impl<'a> Host for MemHost<'a> {
    type Log = MemLog<MemWriter>;

    type Sockets = MemSockets;

    type StateStore = MemStore<'a>;

    type Reloads = MemRequests<'a>;

    type Asked = MemAsked;

    type Calendar = MemCalendar;

    ghost Asks = { λ _ _ _ _. ⊤ };

    ghost Answers = { λ _ _. ⊤ };

    ghost offers = { λ host. record {
      FileReads = λ _ _. ⊤;
      LastDenials = λ _ _. ⊤;
      StoreOpens = λ _ _ _. ⊤;
      ReloadsOpen = λ _ _ requests. asking_of requests.exchanges ≡ known [];
      LogOpens = λ _ _. ⊤;
      LogIsCut = λ _ is_cut. host.is_cut ≡ is_cut;
      Waits = λ _ _. ⊤;
      SocketsOpen = λ _ _. ⊤;
      RoutesIp = λ routes. host.routes ≡ routes;
    } };

    ghost Closes = { λ host sockets log. host.closed ≡ Some (sockets, log) };

    fn open_log(&self, _alloc: Global, name: &str) -> Result<MemLog<MemWriter>, LogFailure> {
        let room = if BESIDE.contains(&name) {
            self.beside
        } else {
            self.log
        };
        match room {
            Some(room) => {
                let text = MemWriter::with_room(self.alloc, room, true)?;
                note_opened(self.opened, name)?;
                Ok(MemLog::new(text, self.failing_of(name)))
            }
            None => Err(LogFailure::Failed),
        }
    }

    fn is_cut(&self, _name: &str) -> bool
        ensures { self.now.is_cut ≡ result }
    {
        self.is_cut
    }

    fn routes_ip(&self) -> bool
        ensures { self.now.routes ≡ result }
    {
        self.routes
    }

    fn open_sockets(&self, alloc: Global, ports: &[Port]) -> Result<MemSockets, SocketFailure> {
        match self.failing {
            Some(port) if 1 <= port && port <= ports.len() => {
                Err(SocketFailure::Failed(FailedStep {
                    port: port as u8,
                    step: Step::Broadcast,
                    address: ports[port - 1].broadcast,
                    reason: Reason::NoAddress,
                }))
            }
            _ => Ok(MemSockets {
                ports: ports.len() as u8,
                reads: self.reads as u64,
                receives: 0,
                sends: 0,
                failures: 0,
                failing: self.failing_send.map(|number| number as u64),
                calls: if self.shows_calls {
                    Some(Vec::new(alloc))
                } else {
                    None
                },
            }),
        }
    }

    fn read_file(
        &self,
        alloc: Global,
        name: &str,
        _most: usize,
    ) -> Result<Option<Vec<u8>>, ReadFailure> {
        if name == UNREADABLE {
            return Err(ReadFailure::Unreadable(Obstacle::NotPermitted));
        }
        let text = if name == TRIAL {
            &self.trial
        } else {
            &self.state
        };
        match text {
            Some(text) => Ok(Some(Vec::from_slice(alloc, text)?)),
            None => Ok(None),
        }
    }

    fn last_denial(&self, _alloc: Global, _name: &str) -> Result<Option<Vec<u8>>, ReadFailure> {
        Ok(None)
    }

    fn last_record(&self, _alloc: Global, name: &str) -> Result<Option<Vec<u8>>, ReadFailure> {
        if name == PIPE {
            return Err(ReadFailure::Unreadable(Obstacle::Other));
        }
        Ok(None)
    }

    fn waits(&self, name: &str) -> bool {
        name == PIPE
    }

    fn open_store(
        &self,
        alloc: Global,
        name: &str,
        _kind: StoreKind,
    ) -> Result<MemStore<'a>, StoreFault> {
        let shown = if name == METRICS {
            self.metrics
        } else {
            self.state_text
        };
        Ok(MemStore {
            alloc,
            fault: self.unkept,
            text: None,
            shown,
        })
    }

    fn open_reloads(
        &self,
        alloc: Global,
        _request: &str,
        _config: &str,
    ) -> Result<MemRequests<'a>, AllocError> {
        let asked = match &self.reload {
            Some(text) => Some(request_of(alloc, text)?),
            None => None,
        };
        Ok(MemRequests::new(alloc, asked, self.answers))
    }

    fn make_request(
        &self,
        _alloc: Global,
        _name: &str,
        _text: &[u8],
    ) -> Result<MemAsked, StoreFault> {
        Err(StoreFault::System)
    }

    fn await_answer(
        &self,
        _alloc: Global,
        _asked: &MemAsked,
        _seconds: u8,
    ) -> Result<Option<Vec<u8>>, ReadFailure> {
        Ok(None)
    }

    fn calendar(&self) -> MemCalendar {
        MemCalendar
    }

    fn close(&mut self, sockets: MemSockets, log: Option<MemLog<MemWriter>>)
        ensures { self.new.closed ≡ Some (sockets, log) }
    {
        self.closed = Some((sockets, log));
    }
}

/// A text, if there is one.
fn text_if(alloc: Global, is_there: bool, text: &str) -> Result<Option<Vec<u8>>, AllocError> {
    if is_there {
        Ok(Some(Vec::from_slice(alloc, text.as_bytes())?))
    } else {
        Ok(None)
    }
}

/// The text of a state with a peer and a foreign device of each of two ports.
const TABLES: &str = "bacgw state 1
counts 5 5 0
port 1 192.168.1.10:47808
entry 192.168.4.1:47808 255.255.255.255
device 192.168.3.9:47808 60 89
port 2 192.168.2.10:47808
entry 192.168.5.1:47808 255.255.255.255
device 192.168.3.8:47808 60 89
end
";

/// The text of the state that a section has: one that is cut, one with more after its end, one whose counts and port
/// are none, one of which a count is at its end, one with tables of both ports, or none.
fn state_of(alloc: Global, section: &Section<'_>) -> Result<Option<Vec<u8>>, AllocError> {
    if section.has("state more") {
        return text_if(alloc, true, "bacgw state 1\ncounts 0 0 0\nend\nmore");
    }
    if section.has("state counts") {
        return text_if(
            alloc,
            true,
            "bacgw state 1\ncounts 2 1 0\nport 1 nowhere\nend\n",
        );
    }
    if section.has("state at its end") {
        return text_if(
            alloc,
            true,
            "bacgw state 1\ncounts 0 9223372036854775808 0\nend\n",
        );
    }
    if section.has("state denied to its end") {
        return text_if(
            alloc,
            true,
            "bacgw state 1\ncounts 0 0 9223372036854775808\nend\n",
        );
    }
    if section.has("state tables") {
        return text_if(alloc, true, TABLES);
    }
    text_if(alloc, section.has("state cut"), "bacgw state 1\n")
}

/// A text with another in the place of this part.
fn text_with(
    alloc: Global,
    text: &str,
    old: &str,
    new: &str,
) -> Result<Option<Vec<u8>>, AllocError> {
    let mut made = Vec::new(alloc);
    for (place, part) in text.split(old).enumerate() {
        if place > 0 {
            made.extend_from_slice(new.as_bytes())?;
        }
        made.extend_from_slice(part.as_bytes())?;
    }
    Ok(Some(made))
}

/// The configuration that is on trial: that of the section; one with another broadcast address, with fewer stations, of another
/// format, or with rules that all deny or all allow; one that is none; or nothing.
fn trial_of(
    alloc: Global,
    section: &Section<'_>,
    config: &str,
) -> Result<Option<Vec<u8>>, AllocError> {
    if section.has("trial other ports") {
        return text_with(alloc, config, "192.168.1.255", "192.168.1.254");
    }
    if section.has("trial other format") {
        return text_with(alloc, config, "format = 1", "format = 2");
    }
    if section.has("trial other stations") {
        return text_with(alloc, config, STATIONS, "stations = [\"192.168.1.0/25\"]\n");
    }
    if section.has("trial denies") {
        return text_with(alloc, config, "allow = true", "allow = false");
    }
    if section.has("trial allows") {
        return text_with(alloc, config, "allow = false", "allow = true");
    }
    if section.has("trial faulty") {
        return text_if(alloc, true, "format = 4\n");
    }
    text_if(alloc, section.has("trial same"), config)
}

/// The stations of the first port, and what comes after them.
const STATIONS: &str = "stations = [\"192.168.1.0/24\"]\n";

/// The same, and a broadcast manager beside the port.
const MANAGED: &str = "stations = [\"192.168.1.0/24\"]\nbbmd = \"192.168.1.3:47808\"\n";

/// The text that a section's request has: that of the configuration, also of another format, with a broadcast manager beside its first port or
/// without it, one that is none, or nothing if it can't be read; or that of another request.
fn reload_of(
    alloc: Global,
    section: &Section<'_>,
    config: &str,
) -> Result<Option<Vec<u8>>, AllocError> {
    if section.has("reload same") {
        return text_if(alloc, true, config);
    }
    if section.has("reload other format") {
        return text_with(alloc, config, "format = 1", "format = 2");
    }
    if section.has("reload manager") {
        return text_with(alloc, config, STATIONS, MANAGED);
    }
    if section.has("reload no manager") {
        return text_with(alloc, config, MANAGED, STATIONS);
    }
    if section.has("reload status") {
        return Ok(Some(Vec::from_slice(alloc, STATUS)?));
    }
    if section.has("reload faulty") {
        return text_if(alloc, true, "x");
    }
    if section.has("reload ranged") {
        return text_if(alloc, true, "format = 4\n");
    }
    if section.has("reload absent") {
        return text_if(alloc, true, "absent");
    }
    if section.has("reload stop") {
        return text_if(alloc, true, "stop");
    }
    if section.has("reload untaken") {
        return text_if(alloc, true, "untaken");
    }
    text_if(alloc, section.has("reload unreadable"), "")
}

/// What one run leaves: its exit status and both streams, which logs the machine opened and what it closed, what requests were
/// answered, and the text of the metrics.
#[derive(Drop)]
struct ServedRun {
    left: Left,
    opened: Vec<u8>,
    answers: Vec<u8>,
    closed: Option<Closed>,
    metrics: Vec<u8>,
}

/// The text that such a cell holds, which is empty from then on.
fn taken_from(alloc: Global, text: &RefCell<Vec<u8>>) -> Vec<u8> {
    text.try_replace(Vec::new(alloc)).unwrap_or(Vec::new(alloc))
}

/// Runs the program on these words, with all files of one text. If standard error takes all, it gets exactly what a run reports.
fn run_on(
    alloc: Global,
    words: Result<Vec<String>, Fault>,
    text: &str,
    host: &mut MemHost<'_>,
    streams: &mut MemStreams<'_>,
) -> ExitCode
    ensures { streams.old.errors.room ≡ None → (written : List ℕ)
        × (streams.new.errors.written.octets ≡ streams.old.errors.written.octets ++ written)
        × IsReported (λ _ read. IfOk read (λ octets. octets ≡ text.now))
        (λ choice. MatchResult words
        (λ w. IsChoiceOf (map string_bytes w.items) choice)
        (λ f. choice ≡ Err f)) written (exit_status result) }
{
    let files = MemFiles { text };
    run(alloc, words, &files, host, streams)
}

/// Runs the program of a section, whose output has room for so many octets.
fn run_with(
    alloc: Global,
    config: &str,
    section: &Section<'_>,
    room: usize,
) -> Result<ServedRun, AllocError> {
    let words = section.call(alloc, "bacgw")?;
    let metrics = RefCell::new(Vec::new(alloc));
    let state_text = RefCell::new(Vec::new(alloc));
    let opened = RefCell::new(Vec::new(alloc));
    let answers = RefCell::new(Vec::new(alloc));
    let mut host = MemHost {
        alloc,
        metrics: &metrics,
        state_text: &state_text,
        opened: &opened,
        answers: &answers,
        log: section.number("log "),
        failing_log: FailingLog {
            sync: section.number("failing sync ").map(|number| number as u64),
            write: section.number("failing write ").map(|number| number as u64),
            writes: section
                .number("writes ")
                .map(|number| number as u64)
                .unwrap_or(1),
        },
        beside: section.number("beside "),
        trial: trial_of(alloc, section, config)?,
        is_cut: section.has("cut log"),
        failing: section.number("failing port "),
        failing_send: section.number("failing send "),
        reads: section.number("reads ").unwrap_or(1),
        shows_calls: section.has("calls"),
        routes: section.has("routes ip"),
        state: state_of(alloc, section)?,
        unkept: if section.has("store full") {
            Some(StoreFault::NoSpace)
        } else {
            None
        },
        reload: reload_of(alloc, section, config)?,
        closed: None,
    };
    let mut streams = section.streams(alloc, room)?;
    let code = run_on(alloc, words, config, &mut host, &mut streams);
    Ok(ServedRun {
        left: Left::new(code, streams),
        closed: host.closed,
        opened: taken_from(alloc, &opened),
        answers: taken_from(alloc, &answers),
        metrics: taken_from(alloc, &metrics),
    })
}

/// The program on a machine in memory.
#[derive(Clone, Copy)]
pub struct Bacgw;

impl Program for Bacgw {
    fn name(&self) -> &'static str {
        "bacgw"
    }

    fn run(
        &self,
        alloc: Global,
        config: &str,
        section: &Section<'_>,
        room: usize,
    ) -> Result<Left, AllocError> {
        Ok(run_with(alloc, config, section, room)?.left)
    }
}

/// What the run of a section leaves: its exit status, each line of its streams, of its metrics and of its log, which logs the
/// machine opened and what it answered, if that is shown, and what it closed.
pub fn machine(alloc: Global, config: &str, text: &str, out: &mut Vec<u8>) -> io::Result<()> {
    let section = Section::of(text);
    let served = run_with(alloc, config, &section, section.room())?;
    put_left(&served.left, out)?;
    put_lines("metrics ", &served.metrics, out)?;
    if section.has("opened") {
        put_lines("opened ", &served.opened, out)?;
    }
    if section.has("answers") {
        put_lines("answer ", &served.answers, out)?;
    }
    match &served.closed {
        Some(closed) => Ok(put_closed(closed, section.has("syncs"), out)?),
        None => Ok(()),
    }
}

/// The log in a file, and how often it was synced if that is shown, the calls of the wire if they are shown, and how often it was
/// called.
fn put_closed(closed: &Closed, shows_syncs: bool, out: &mut Vec<u8>) -> Result<(), AllocError> {
    let (sockets, log) = closed;
    if let Some(log) = log {
        put_lines("log ", log.text().held(), out)?;
        if shows_syncs {
            put(out, &["syncs ", Buffer::new().format(log.syncs()), "\n"])?;
        }
    }
    if let Some(calls) = &sockets.calls {
        put_lines("wire ", calls, out)?;
    }
    put(out, &["receives ", Buffer::new().format(sockets.receives)])?;
    put(out, &[" sends ", Buffer::new().format(sockets.sends), "\n"])
}
