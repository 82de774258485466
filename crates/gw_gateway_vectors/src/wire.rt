//! A wire over memory, whose calls fail at the choice of a case, and which reports each call with its answer.

ghost use Rattle.std.specs.Prelude.{◌≡◌, ◌∷◌, [], None, false, IfOk, IfErr, if◌then◌else◌};
ghost use Rattle.gw_wire.specs.Wire.{Records, arrival, departure, failed_send};
ghost use Rattle.gw_relay.specs.Sends.{sending};
ghost use Rattle.gw_script.specs.Event.{Datagram};
ghost use Rattle.gw_gateway_vectors.specs.Calls.{call_of, calls_of};

use crate::replays::event_of;
use gw_addr::BipAddr;
use gw_core::Event;
use gw_script::MAX_DATAGRAM;
use gw_wire::{Got, RECEIVE_ROOM, Wire, WireFault};
use std::alloc::{AllocError, Global};

/// How many ports a wire over memory has.
const PORTS: u8 = 2;

/// A call of a wire, with its answer.
#[derive(Drop, PartialEq)]
enum WireCall {
    /// A receive that found nothing.
    EmptyReceive,
    /// A receive that failed.
    FailedReceive,
    /// A receive of a tick.
    Tick,
    /// A receive of a datagram.
    Arrival {
        port: u8,
        from: BipAddr,
        octets: Vec<u8>,
    },
    /// A send.
    Departure {
        port: u8,
        to: BipAddr,
        octets: Vec<u8>,
    },
    /// A send that failed.
    FailedSend {
        port: u8,
        to: BipAddr,
        octets: Vec<u8>,
    },
}

/// The letter of a call.
fn letter(call: &WireCall) -> u8 {
    match call {
        WireCall::EmptyReceive => b'i',
        WireCall::FailedReceive => b'x',
        WireCall::Tick => b't',
        WireCall::Arrival { .. } => b'd',
        WireCall::Departure { .. } => b's',
        WireCall::FailedSend { .. } => b'u',
    }
}

/// The receive of a datagram.
fn received(alloc: Global, port: u8, from: BipAddr, octets: &[u8]) -> Result<WireCall, AllocError>
    ensures { IfOk result (λ call. call_of call ≡ arrival (Datagram port from octets.now)) }
{
    let octets = Vec::from_slice(alloc, octets)?;
    Ok(WireCall::Arrival { port, from, octets })
}

/// A send, that failed or not.
fn sent(
    alloc: Global,
    port: u8,
    to: BipAddr,
    octets: &[u8],
    is_failed: bool,
) -> Result<WireCall, AllocError>
    ensures { let sent = sending port octets.now to in
        IfOk result (λ call. call_of call ≡ if is_failed then failed_send sent else departure sent) }
{
    let octets = Vec::from_slice(alloc, octets)?;
    if is_failed {
        Ok(WireCall::FailedSend { port, to, octets })
    } else {
        Ok(WireCall::Departure { port, to, octets })
    }
}

/// A wire whose events are the lines of a script, and whose call of one number, from 0, fails. What failed to be received comes at
/// the next receive. It reports its calls, as long as there is memory for them.
#[derive(Drop)]
pub struct MemWire<'a> {
    alloc: Global,
    lines: &'a [u8],
    datagram: [u8; MAX_DATAGRAM],
    fails: Option<u64>,
    failures: u128,
    calls: Option<Vec<WireCall>>,
}

impl<'a> MemWire<'a> {
    /// A wire to which nothing has come yet.
    pub fn new(alloc: Global, lines: &'a [u8], fails: Option<u64>) -> Self {
        MemWire {
            alloc,
            lines,
            datagram: [0; MAX_DATAGRAM],
            fails,
            failures: 0,
            calls: Some(Vec::new(alloc)),
        }
    }

    /// Whether both reported the same calls with the same answers, octet for octet.
    pub fn is_same(&self, other: &MemWire<'_>) -> bool {
        match (&self.calls, &other.calls) {
            (Some(calls), Some(others)) => calls == others,
            _ => false,
        }
    }

    /// A letter for each call: a receive of a datagram `d`, of a tick `t`, or of nothing `i`, or one that failed `x`; a send `s`, or one
    /// that failed `u`.
    ///
    /// # Errors
    ///
    /// Where there was no memory for a call, or there is none for the letters.
    pub fn letters(&self, alloc: Global) -> Result<Vec<u8>, AllocError> {
        let mut letters = Vec::new(alloc);
        match &self.calls {
            Some(calls) => {
                for call in calls {
                    letters.push(letter(call))?;
                }
                Ok(letters)
            }
            None => Err(AllocError),
        }
    }

    /// Of each call after so many: the letter, and of a send the number of its port behind it.
    ///
    /// # Errors
    ///
    /// Those of [`MemWire::letters`].
    pub fn letters_after(&self, alloc: Global, count: usize) -> Result<Vec<u8>, AllocError> {
        let mut letters = Vec::new(alloc);
        let Some(calls) = &self.calls else {
            return Err(AllocError);
        };
        for call in calls.iter().skip(count) {
            letters.push(letter(call))?;
            if let WireCall::Departure { port, .. } | WireCall::FailedSend { port, .. } = call {
                letters.push(b'0'.saturating_add(*port))?;
            }
        }
        Ok(letters)
    }

    /// How many calls it reports.
    pub fn count(&self) -> usize {
        match &self.calls {
            Some(calls) => calls.len(),
            None => 0,
        }
    }

    /// Whether the call that begins now is the one that fails.
    fn is_failing(&mut self) -> bool
        ensures failures { self.new.failures ≡ self.old.failures }
        ensures calls { self.new.calls ≡ self.old.calls }
    {
        match self.fails {
            Some(0) => {
                self.fails = None;
                true
            }
            Some(number) => {
                self.fails = Some(number - 1);
                false
            }
            None => false,
        }
    }

    /// Reports a call; if there is no memory for it, it reports none from then on.
    fn record_call(&mut self, call: Result<WireCall, AllocError>)
        ensures failures { self.new.failures ≡ self.old.failures }
        ensures recorded { IfOk call (λ recorded. Records (calls_of self.old.calls) (calls_of self.new.calls) (call_of recorded ∷ [])) }
        ensures ends { IfErr call (λ fault. self.new.calls ≡ None) }
    {
        let calls = self.calls.take();
        if let (Some(mut calls), Ok(call)) = (calls, call) {
            if calls.push(call).is_ok() {
                self.calls = Some(calls);
            }
        }
    }

    /// The next line, which is empty where none is left.
    fn next_line(&mut self) -> &'a [u8]
        ensures failures { self.new.failures ≡ self.old.failures }
        ensures calls { self.new.calls ≡ self.old.calls }
    {
        let lines = self.lines;
        match lines.iter().position(|octet| *octet == b'\n') {
            Some(end) => {
                self.lines = &lines[end + 1..];
                &lines[..end]
            }
            None => {
                self.lines = &[];
                lines
            }
        }
    }
}

impl Wire for MemWire<'_> {
    ghost port_count = { λ wire. 2 };

    ghost failure_count = { λ wire. wire.failures };

    ghost calls = { λ wire. calls_of wire.calls };

    ghost behind = { λ _. false };

    fn ports(&self) -> u8 {
        PORTS
    }

    fn failures(&self) -> u128 {
        self.failures
    }

    fn is_behind(&self) -> bool {
        false
    }

    fn recv(&mut self, buf: &mut [u8; RECEIVE_ROOM]) -> Result<Got, WireFault> {
        if self.is_failing() {
            self.failures += 1;
            self.record_call(Ok(WireCall::FailedReceive));
            return Err(WireFault::Failed);
        }
        let line = self.next_line();
        match event_of(PORTS, line, &mut self.datagram) {
            Some(Event::Datagram { port, from, octets }) => {
                let len = octets.len().min(RECEIVE_ROOM);
                buf[..len].copy_from_slice(&octets[..len]);
                let call = received(self.alloc, port, from, &buf[..len]);
                self.record_call(call);
                Ok(Got::Datagram { port, from, len })
            }
            Some(Event::Tick) => {
                self.record_call(Ok(WireCall::Tick));
                Ok(Got::Tick)
            }
            None => {
                self.record_call(Ok(WireCall::EmptyReceive));
                Ok(Got::Idle)
            }
        }
    }

    fn send(&mut self, port: u8, to: BipAddr, octets: &[u8]) -> Result<(), WireFault> {
        let is_failing = self.is_failing();
        let call = sent(self.alloc, port, to, octets, is_failing);
        self.record_call(call);
        if is_failing {
            self.failures += 1;
            return Err(WireFault::Failed);
        }
        Ok(())
    }
}
