//! Serving under a keeper, with a wire, a log and a store over memory.

ghost use Rattle.std.specs.Prelude.{◌≡◌, ◌≤◌, ◌<◌, ◌-◌, ◌^◌, Some};

use crate::configurations::read;
use crate::replays::make_gateway;
use crate::wire::MemWire;
use gw_cases::{MemWriter, number, put_word, unfolded};
use gw_core::{Counts, Gateway};
use gw_state::Origin;
use gw_turns::{Keeper, ServeFault, ServeState, StretchEnd};
use gw_wire::{Store, StoreFault, Wire};
use std::alloc::Global;
use std::io;
use std::io::{ErrorKind, Write};

/// How many octets a write to the log takes.
const AMPLE: usize = 4096;

/// A store over memory, which reports what it holds. Each call does what the case says of it: `f`, it fails and holds
/// what it held; `n`, it fails and holds the text; and else it takes the text.
#[derive(Drop)]
struct ShownMemStore<'a> {
    alloc: Global,
    answers: &'a [u8],
    calls: u64,
    text: Vec<u8>,
}

impl ShownMemStore<'_> {
    /// What the case says of the call that begins now.
    fn next_answer(&mut self) -> u8
        ensures { self.new.text ≡ self.old.text }
    {
        self.calls = self.calls.saturating_add(1);
        match self.answers {
            [answer, rest @ ..] => {
                let answer = *answer;
                self.answers = rest;
                answer
            }
            [] => b'o',
        }
    }
}

impl Store for ShownMemStore<'_> {
    ghost held = { λ store. Some store.text.items };

    ghost NeverFails = { λ _. ⊥ };

    fn replace(&mut self, octets: &[u8]) -> Result<(), StoreFault> {
        let answer = self.next_answer();
        let Ok(text) = Vec::from_slice(self.alloc, octets) else {
            return Err(StoreFault::Memory);
        };
        if answer == b'f' {
            return Err(StoreFault::NoSpace);
        }
        self.text = text;
        if answer == b'n' {
            return Err(StoreFault::System);
        }
        Ok(())
    }
}

/// A wire, what the log is written to, and what keeps the state.
#[derive(Drop)]
struct KeepingEdges<'a> {
    wire: MemWire<'a>,
    log: MemWriter,
    keeper: Keeper<ShownMemStore<'a>>,
}

/// The letter of a pause.
fn letter(pause: StretchEnd) -> u8 {
    match pause {
        StretchEnd::Turns => b'e',
        StretchEnd::Tick => b't',
        StretchEnd::Withheld => b'w',
    }
}

/// Has the keeper keep the state after a pause, if it is a tick. A fault if memory was refused for a text.
fn keep_after(
    alloc: Global,
    pause: StretchEnd,
    gateway: &Gateway,
    keeper: &mut Keeper<ShownMemStore<'_>>,
) -> io::Result<()> {
    if let StretchEnd::Tick = pause {
        keeper.keep_at_tick(alloc, gateway);
    }
    match keeper.failing() {
        Some(StoreFault::Memory) => Err(ErrorKind::OutOfMemory.into()),
        _ => Ok(()),
    }
}

/// Serves so many turns, stretch by stretch, and has the keeper keep the state at each tick. Appends the letter of each pause.
fn serve_stretches(
    alloc: Global,
    gateway: &mut Gateway,
    edges: &mut KeepingEdges<'_>,
    turns: u64,
    out: &mut Vec<u8>,
) -> io::Result<Result<(), ServeFault>>
    requires turns { turns < 2 ^ 63 }
    requires failures { edges.old.wire.failures < 2 ^ 127 }
{
    let mut state = ServeState::new(alloc, turns);
    for _ in 0..turns {
        if state.left == 0 {
            return Ok(Ok(()));
        }
        let pause = match state.serve_to_tick(
            gateway,
            &mut edges.wire,
            &mut edges.log,
            &mut edges.keeper,
        ) {
            Ok(pause) => pause,
            Err(fault) => return Ok(Err(fault)),
        };
        if state.served.memory_drops > 0 {
            return Err(ErrorKind::OutOfMemory.into());
        }
        out.push(letter(pause))?;
        keep_after(alloc, pause, gateway, &mut edges.keeper)?;
    }
    Ok(Ok(()))
}

/// Appends the lines of entries, devices and slots of a text.
fn put_lines(text: &[u8], out: &mut Vec<u8>) -> io::Result<()> {
    for line in text.split(|c| *c == b'\n') {
        if line.starts_with(b"entry") || line.starts_with(b"device") || line.starts_with(b"slot") {
            put_word(line, out)?;
        }
    }
    Ok(())
}

/// How serving under a keeper goes. A case has how many turns are asked for, a letter for each call of the store, or `-`, and the
/// script.
pub fn keeping(alloc: Global, config: &str, line: &str, out: &mut Vec<u8>) -> io::Result<()> {
    let mut words = line.splitn(3, ' ');
    let turns: u64 = number(words.next())?;
    let answers = words.next().unwrap_or("");
    let script = unfolded(alloc, words.next().unwrap_or(""))?;
    if turns >= 1 << 63 {
        return Err(ErrorKind::InvalidData.into());
    }
    let mut gateway = make_gateway(alloc, config, Counts::default())?;
    let origin = Origin::of(alloc, &read(alloc, config)?)?;
    let store = ShownMemStore {
        alloc,
        answers: answers.as_bytes(),
        calls: 0,
        text: Vec::new(alloc),
    };
    let mut edges = KeepingEdges {
        wire: MemWire::new(alloc, &script, None),
        log: MemWriter::new(alloc, None, AMPLE)?,
        keeper: Keeper::begin(alloc, store, origin, &gateway),
    };
    if edges.wire.failures() > 0 {
        return Err(ErrorKind::InvalidData.into());
    }
    let end = serve_stretches(alloc, &mut gateway, &mut edges, turns, out)?;
    put_word(&edges.wire.letters(alloc)?, out)?;
    if let Err(fault) = end {
        write!(out, " {}", fault)?;
    }
    let keeper = &edges.keeper;
    write!(out, " {} of {}", keeper.unkept(), keeper.store().calls)?;
    if let Some(fault) = keeper.failing() {
        write!(out, " {}", fault)?;
    }
    put_lines(keeper.store().text.as_slice(), out)
}
