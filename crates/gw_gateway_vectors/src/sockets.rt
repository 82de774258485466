//! Whose turn it is, and how time passes, over sockets, a clock and a waiter in memory.

ghost use Rattle.std.specs.Prelude.{◌≡◌, ⊤};
ghost use Rattle.std.specs.Duration.{as_nanos};
ghost use Rattle.gw_wire.specs.Socket.{FitsBuffer};

use gw_addr::BipAddr;
use gw_cases::number_behind;
use gw_wire::{
    Got, Ports, RECEIVE_ROOM, Sock, SockFault, SockPair, TimedPorts, Timepiece, Waiter, Watch,
    Wire, WireFault,
};
use std::alloc::{AllocError, Global};
use std::io;
use std::io::{ErrorKind, Write};
use std::time::Duration;

/// Whom all datagrams come from.
const SENDER: BipAddr = BipAddr {
    ip: [192, 168, 1, 5],
    udp: 47808,
};

/// How many datagrams wait at each port in a course over time, where the line doesn't say it.
const TIMED_WAITING: u64 = 2;

/// How many calls such a course has, where the line doesn't say it.
const TIMED_CALLS: u64 = 8;

/// A socket in memory at which so many datagrams wait, after so many looks that find none, which
/// fails at one of its calls.
#[derive(Drop)]
struct MemSock {
    waiting: u64,
    late: u64,
    failing: Option<u64>,
    looks: u64,
    empty: bool,
}

impl MemSock {
    fn with(waiting: u64, late: u64, failing: Option<u64>) -> Self {
        MemSock {
            waiting,
            late,
            failing,
            looks: 0,
            empty: false,
        }
    }

    fn take(&mut self) -> Result<Option<(usize, BipAddr)>, SockFault>
        ensures fits { FitsBuffer result }
        ensures looks { self.new.looks ≡ self.old.looks }
    {
        if self.failing == Some(self.looks) {
            return Err(SockFault::Failed);
        }
        if self.looks < self.late || self.waiting == 0 {
            return Ok(None);
        }
        self.waiting -= 1;
        Ok(Some((1, SENDER)))
    }
}

impl Sock for MemSock {
    ghost look_count = { λ s. s.looks };

    ghost is_empty = { λ s. s.empty };

    ghost Answered = { λ _ _ _ _. ⊤ };

    ghost Sent = { λ _ _ _ _ _. ⊤ };

    fn receive(
        &mut self,
        _buf: &mut [u8; RECEIVE_ROOM],
    ) -> Result<Option<(usize, BipAddr)>, SockFault> {
        let answer = self.take();
        self.looks = self.looks.wrapping_add(1);
        self.empty = matches!(answer, Ok(None));
        answer
    }

    fn send_to(&mut self, _to: BipAddr, _octets: &[u8]) -> Result<(), SockFault> {
        Err(SockFault::Failed)
    }

    fn looks(&self) -> u64 {
        self.looks
    }

    fn empty(&self) -> bool {
        self.empty
    }
}

/// How many datagrams wait at the own socket of each of two ports, after how many looks at that of
/// port 2, and which socket fails, from 0, at which of its calls. None waits at the others.
#[derive(Clone, Copy)]
struct WaitingDatagrams {
    datagrams: u64,
    late: u64,
    failing: Option<(u64, u64)>,
}

impl WaitingDatagrams {
    /// What a line says, where so many datagrams wait unless it says so.
    fn of(line: &str, datagrams: u64) -> Self {
        WaitingDatagrams {
            datagrams: number_behind(line, ' ', "waiting=").unwrap_or(datagrams),
            late: number_behind(line, ' ', "late=").unwrap_or(0),
            failing: failing_of(line),
        }
    }

    /// The sockets of a port, from 0.
    fn pair(self, port: u64) -> SockPair<MemSock> {
        let late = if port == 0 { 0 } else { self.late };
        SockPair {
            own: MemSock::with(self.datagrams, late, self.call_of(port, 0)),
            broadcast: MemSock::with(0, 0, self.call_of(port, 1)),
        }
    }

    /// At which of its calls the own or the other socket of a port fails.
    fn call_of(self, port: u64, other: u64) -> Option<u64> {
        match self.failing {
            Some((socket, call)) if socket / 2 == port && socket % 2 == other => Some(call),
            _ => None,
        }
    }

    /// The ports of these sockets.
    fn ports(self, alloc: Global) -> Result<Ports<MemSock>, AllocError> {
        let mut pairs = Vec::with_capacity(alloc, 2)?;
        for port in 0..2 {
            pairs.push(self.pair(port))?;
        }
        if pairs.len() > 2 {
            return Err(AllocError);
        }
        Ok(Ports::new(pairs))
    }

    /// The ports of watches of these sockets.
    fn watches(self, alloc: Global) -> Result<Ports<Watch<MemSock>>, AllocError> {
        let mut pairs = Vec::with_capacity(alloc, 2)?;
        for port in 0..2 {
            let SockPair { own, broadcast } = self.pair(port);
            pairs.push(SockPair {
                own: Watch::new(own),
                broadcast: Watch::new(broadcast),
            })?;
        }
        if pairs.len() > 2 {
            return Err(AllocError);
        }
        Ok(Ports::new(pairs))
    }
}

/// What comes next, by a letter: the port of a datagram, `t` for a tick, `f` for a fault and `-` for
/// nothing.
fn next_of(wire: &mut impl Wire) -> u8 {
    let mut buf = [0; RECEIVE_ROOM];
    if wire.failures() > 9 {
        return b'?';
    }
    match wire.recv(&mut buf) {
        Ok(Got::Datagram { port: 1, .. }) => b'1',
        Ok(Got::Datagram { .. }) => b'2',
        Ok(Got::Tick) => b't',
        Ok(Got::Idle) => b'-',
        Err(WireFault::Failed) => b'f',
    }
}

/// What comes in so many calls.
fn put_course(wire: &mut impl Wire, calls: u64, out: &mut Vec<u8>) -> io::Result<()> {
    for _ in 0..calls {
        out.push(next_of(wire))?;
    }
    Ok(())
}

/// The socket that fails, and at which of its calls.
fn failing_of(line: &str) -> Option<(u64, u64)> {
    Some((
        number_behind(line, ' ', "socket=")?,
        number_behind(line, ' ', "fails=")?,
    ))
}

/// What comes of ports, with so many ticks due and in so many calls as the line says.
fn put_turns<S: Sock>(mut ports: Ports<S>, line: &str, out: &mut Vec<u8>) -> io::Result<()>
where
    S: Drop,
{
    ports.due(number_behind(line, ' ', "ticks=").unwrap_or(0));
    let calls = number_behind(line, ' ', "calls=").unwrap_or(0);
    put_course(&mut ports, calls, out)
}

/// What comes of two ports, with so many datagrams waiting and ticks due as the line says.
pub fn turns(alloc: Global, line: &str, out: &mut Vec<u8>) -> io::Result<()> {
    put_turns(WaitingDatagrams::of(line, 0).ports(alloc)?, line, out)
}

/// The same where each socket is watched, and nothing wakes one that sleeps.
pub fn watches(alloc: Global, line: &str, out: &mut Vec<u8>) -> io::Result<()> {
    put_turns(WaitingDatagrams::of(line, 0).watches(alloc)?, line, out)
}

/// A clock on which 0.3 seconds pass from each look to the next, and five more before one of them, and which fails at one of them.
#[derive(Drop)]
struct SlowClock {
    looks: u64,
    failing: Option<u64>,
    jump: Option<u64>,
}

impl SlowClock {
    /// How many milliseconds passed at once before a look.
    fn jumped(&self, look: u64) -> u64 {
        match self.jump {
            Some(jump) if look >= jump => 5000,
            _ => 0,
        }
    }
}

impl Timepiece for SlowClock {
    ghost Shows = { λ _ _. ⊤ };

    fn elapsed(&mut self) -> io::Result<Duration> {
        let look = self.looks;
        self.looks = look.wrapping_add(1);
        if self.failing == Some(look) {
            return Err(ErrorKind::Other.into());
        }
        let passed = look.wrapping_mul(300);
        Ok(Duration::from_millis(passed.wrapping_add(self.jumped(look))))
    }
}

/// Waits for nothing, and fails at one of its calls, from 1. It keeps how long it was let wait, and
/// counts its calls, and those without time.
#[derive(Drop)]
struct MemWaiter {
    waits: u64,
    looks: u64,
    failing: Option<u64>,
    last: Duration,
}

impl Waiter for MemWaiter {
    ghost Waited = { λ waiter most. as_nanos waiter.last ≡ most };

    fn wait(&mut self, most: Duration) -> io::Result<()> {
        self.waits = self.waits.wrapping_add(1);
        if most.is_zero() {
            self.looks = self.looks.wrapping_add(1);
        }
        if self.failing == Some(self.waits) || most > Duration::from_secs(1) {
            return Err(ErrorKind::Other.into());
        }
        self.last = most;
        Ok(())
    }
}

/// What comes of two ports in so many receives, where the clock and the waiter fail as the line says,
/// and how often it was waited, and without time. The looks at the clock are at 0.0, 0.3, 0.6, ..
/// seconds, from one of them on five seconds later; a receive looks once, and where nothing waits again.
pub fn seconds(alloc: Global, line: &str, out: &mut Vec<u8>) -> io::Result<()> {
    let clock = SlowClock {
        looks: 0,
        failing: number_behind(line, ' ', "look="),
        jump: number_behind(line, ' ', "jump="),
    };
    let waiter = MemWaiter {
        waits: 0,
        looks: 0,
        failing: number_behind(line, ' ', "wait="),
        last: Duration::from_secs(0),
    };
    let ports = WaitingDatagrams::of(line, TIMED_WAITING).watches(alloc)?;
    let Ok(mut timed) = TimedPorts::start(ports, clock, waiter) else {
        return Ok(out.extend_from_slice(b"not started")?);
    };
    let calls = number_behind(line, ' ', "calls=").unwrap_or(TIMED_CALLS);
    put_course(&mut timed, calls, out)?;
    let waiter = &timed.waiter;
    write!(out, " waits={} looks={}", waiter.waits, waiter.looks)
}
