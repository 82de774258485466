//! Serving a wire over memory, with a log over memory: every count, and what is left if a receive, a send, a write
//! or a growth fails.

ghost use Rattle.std.specs.Prelude.{◌<◌, ◌^◌};

use crate::replays::make_gateway;
use crate::wire::MemWire;
use gw_cases::{MemWriter, number, number_or_none, put_word, unfolded};
use gw_core::{Counts, Gateway, Unguarded};
use gw_turns::{
    ServeFault, ServeState, ServeStop, Served, StretchEnd, has_gone_on, report_of, serve,
    write_culprits, write_healths, write_ports, write_report,
};
use gw_wire::Wire;
use std::alloc::Global;
use std::io;
use std::io::{ErrorKind, Write};

/// How many octets a write takes where a case doesn't say it.
const AMPLE: usize = 4096;

/// What a gateway has counted before reports are written.
const BEFORE: Counts = Counts {
    ticks: 7,
    denials: 40,
};

/// Appends the turns, the events taken, those dropped for want of memory, the receives that failed, the sends that succeeded and those
/// that failed.
fn put_served(served: &Served, out: &mut Vec<u8>) -> io::Result<()> {
    write!(
        out,
        "{} {} {} {} {} {}",
        served.turns,
        served.taken,
        served.memory_drops,
        served.recv_failures,
        served.sends,
        served.send_failures
    )
}

/// Appends how serving ended: `ok` or the fault, and the counts.
fn put_end(end: &Result<Served, ServeStop>, out: &mut Vec<u8>) -> io::Result<()> {
    match end {
        Ok(served) => {
            write!(out, "ok ")?;
            put_served(served, out)
        },
        Err(stop) => {
            write!(out, "{} ", stop.fault)?;
            put_served(&stop.served, out)
        },
    }
}

/// Serves so many turns.
fn serve_turns(
    alloc: Global,
    gateway: &mut Gateway,
    wire: &mut MemWire<'_>,
    log: &mut MemWriter,
    turns: u64,
) -> io::Result<Result<Served, ServeStop>> {
    if turns >= 1 << 63 || wire.failures() > 0 {
        return Err(ErrorKind::InvalidData.into());
    }
    Ok(serve(alloc, gateway, wire, log, turns))
}

/// How a call ends; a letter for each call of the wire; and the log. A case has how many turns are asked for, the call of the wire and
/// the write to the log that fail, from 0, or `-`, how many octets a write takes, the number of the last denial before, and the
/// script.
pub fn call(alloc: Global, config: &str, line: &str, out: &mut Vec<u8>) -> io::Result<()> {
    let mut words = line.splitn(6, ' ');
    let turns = number(words.next())?;
    let failing_call = number_or_none(words.next())?;
    let failing_write = number_or_none(words.next())?;
    let octets = number(words.next())?;
    let denials = number(words.next())?;
    let script = unfolded(alloc, words.next().unwrap_or(""))?;
    let mut wire = MemWire::new(alloc, &script, failing_call);
    let mut log = MemWriter::new(alloc, failing_write, octets)?;
    let mut gateway = make_gateway(alloc, config, Counts { ticks: 0, denials })?;
    let end = serve_turns(alloc, &mut gateway, &mut wire, &mut log, turns)?;
    put_end(&end, out)?;
    put_word(&wire.letters(alloc)?, out)?;
    put_word(log.held(), out)
}

/// A wire, and what the log and the reports are written to.
#[derive(Drop)]
struct ServingEdges<'a> {
    wire: MemWire<'a>,
    log: MemWriter,
    reports: MemWriter,
}

/// Reports what was done since the counts were those of [`BEFORE`].
fn report(
    seconds: Option<u64>,
    gateway: &Gateway,
    state: &ServeState,
    reports: &mut MemWriter,
) -> io::Result<()> {
    if !has_gone_on(BEFORE, gateway, &state.served) {
        return Err(ErrorKind::InvalidData.into());
    }
    let report = report_of(BEFORE, gateway, &state.served, state.tally);
    let _ = write_report(&report, reports);
    let _ = write_ports(&report, reports);
    let _ = write_culprits(seconds, gateway.counts().ticks, &state.tally, reports);
    let _ = write_healths(seconds, gateway, &state.served, reports);
    Ok(())
}

/// Reports what was done if a multiple of so many seconds has passed.
fn report_due(
    gateway: &Gateway,
    state: &ServeState,
    reports: &mut MemWriter,
    seconds: u64,
) -> io::Result<()>
    requires { 0 < seconds }
{
    if gateway.counts().ticks.saturating_sub(BEFORE.ticks) % seconds == 0 {
        report(Some(seconds), gateway, state, reports)?;
    }
    Ok(())
}

/// Reports what was done after a stretch that ended in a fault, or at a tick if a multiple of so many seconds has passed.
fn report_after(
    answer: &Result<StretchEnd, ServeFault>,
    gateway: &Gateway,
    state: &ServeState,
    reports: &mut MemWriter,
    seconds: u64,
) -> io::Result<()>
    requires { 0 < seconds }
{
    match answer {
        Ok(StretchEnd::Tick) => report_due(gateway, state, reports, seconds),
        Ok(_) => Ok(()),
        Err(_) => report(None, gateway, state, reports),
    }
}

/// Serves so many turns, stretch by stretch, and reports what was done each so many seconds and at the end.
fn serve_reporting(
    alloc: Global,
    gateway: &mut Gateway,
    edges: &mut ServingEdges<'_>,
    seconds: u64,
    turns: u64,
) -> io::Result<Result<Served, ServeStop>>
    requires seconds { 0 < seconds }
    requires turns { turns < 2 ^ 63 }
    requires failures { edges.old.wire.failures < 2 ^ 127 }
{
    let mut state = ServeState::new(alloc, turns);
    for _ in 0..turns {
        if state.left == 0 {
            break;
        }
        let answer = state.serve_to_tick(gateway, &mut edges.wire, &mut edges.log, &mut Unguarded);
        report_after(&answer, gateway, &state, &mut edges.reports, seconds)?;
        if let Err(fault) = answer {
            let served = state.served;
            return Ok(Err(ServeStop { fault, served }));
        }
    }
    report(None, gateway, &state, &mut edges.reports)?;
    Ok(Ok(state.served))
}

/// Serves so many turns, if they can be served, and reports what was done each so many seconds and at the end.
fn serve_with(
    alloc: Global,
    gateway: &mut Gateway,
    edges: &mut ServingEdges<'_>,
    seconds: u64,
    turns: u64,
) -> io::Result<Result<Served, ServeStop>> {
    if seconds == 0 || turns >= 1 << 63 || edges.wire.failures() > 0 {
        return Err(ErrorKind::InvalidData.into());
    }
    serve_reporting(alloc, gateway, edges, seconds, turns)
}

/// How serving by stretches with reports ends, and the reports. A case has how many seconds lie between two, how many turns are asked for, the call
/// of the wire, the write to the log and the write of a report that fail, from 0, or `-`, and the script.
pub fn reports(alloc: Global, config: &str, line: &str, out: &mut Vec<u8>) -> io::Result<()> {
    let mut words = line.splitn(6, ' ');
    let seconds = number(words.next())?;
    let turns = number(words.next())?;
    let failing_call = number_or_none(words.next())?;
    let failing_write = number_or_none(words.next())?;
    let failing_report = number_or_none(words.next())?;
    let script = unfolded(alloc, words.next().unwrap_or(""))?;
    let mut edges = ServingEdges {
        wire: MemWire::new(alloc, &script, failing_call),
        log: MemWriter::new(alloc, failing_write, AMPLE)?,
        reports: MemWriter::new(alloc, failing_report, AMPLE)?,
    };
    let mut gateway = make_gateway(alloc, config, BEFORE)?;
    let end = serve_with(alloc, &mut gateway, &mut edges, seconds, turns)?;
    put_end(&end, out)?;
    put_word(edges.reports.held(), out)
}
