//! Scripts under a configuration: what replay writes, and the same through the gateway's own calls.

ghost use Rattle.std.specs.Prelude.{◌≤◌, IfSome};
ghost use Rattle.gw_script.specs.Event.{IsOnPort, event_view};

use crate::configurations::{behind_others, read};
use gw_addr::BipAddr;
use gw_cases::{event_lines, is_case, put_end, put_octets, wanted};
use gw_core::{Counts, Denial, Effects, Event, Gateway, Sends, StepFault, run};
use gw_replay::{RunFault, replay};
use gw_script::{MAX_DATAGRAM, append_end, append_send, parse_line};
use std::alloc::Global;
use std::io;
use std::io::{ErrorKind, Read, Write};

/// How many octets a line of a script has at most.
const MAX_LINE: usize = 4096;

/// How a replay ends.
pub fn end_of<R: Read, W: Write>(
    alloc: Global,
    config: &str,
    reader: &mut R,
    writer: &mut W,
) -> io::Result<Result<(), RunFault>> {
    let config = read(alloc, config)?;
    Ok(replay(alloc, config, reader, writer))
}

/// What the replay of a script writes, and how it ends.
pub fn script(alloc: Global, config: &str, body: &str, out: &mut Vec<u8>) -> io::Result<()> {
    let lines = event_lines(alloc, body)?;
    let mut reader = lines.as_slice();
    let end = end_of(alloc, config, &mut reader, out)?;
    put_end(end, out)?;
    writeln!(out)
}

/// What the replay of a script writes in short: its first line and its last three, how many lines and octets it has, and a sum of these;
/// and how it ends.
pub fn brief(alloc: Global, config: &str, body: &str, out: &mut Vec<u8>) -> io::Result<()> {
    let mut whole = Vec::new(alloc);
    script(alloc, config, body, &mut whole)?;
    let count = whole.split(|octet| *octet == b'\n').count();
    for (number, line) in whole.split(|octet| *octet == b'\n').enumerate() {
        if !line.is_empty() && (number == 0 || number.saturating_add(4) >= count) {
            out.extend_from_slice(line)?;
            out.push(b'\n')?;
        }
    }
    let sum = whole.iter().fold(0_u32, |sum, octet| {
        sum.wrapping_mul(31).wrapping_add(u32::from(*octet))
    });
    writeln!(
        out,
        "{} lines, {} octets, sum {sum}",
        count.saturating_sub(1),
        whole.len()
    )
}

/// Whether a script's replay writes and ends alike under two configurations.
fn is_alike(alloc: Global, config: &str, other: &str, body: &str) -> io::Result<bool> {
    let mut one = Vec::new(alloc);
    let mut two = Vec::new(alloc);
    script(alloc, config, body, &mut one)?;
    script(alloc, other, body, &mut two)?;
    Ok(one.as_slice() == two.as_slice())
}

/// How many scripts of these sections give the same after forty more rules that match nothing, in front of them the
/// name of each that doesn't.
pub fn behind(alloc: Global, config: &str, sections: &str, out: &mut Vec<u8>) -> io::Result<()> {
    let other = behind_others(alloc, config)?;
    let mut alike = 0_u32;
    for section in sections.split("== ").skip(1) {
        if let Some(named) = section.strip_prefix("script ") {
            let (name, body) = named.split_once('\n').unwrap_or((named, ""));
            if is_alike(alloc, config, other.as_str(), body)? {
                alike = alike.saturating_add(1);
            } else {
                writeln!(out, "not alike: {name}")?;
            }
        }
    }
    writeln!(out, "{alike} alike")
}

/// A gateway that goes on from these counts.
pub fn make_gateway(alloc: Global, config: &str, counts: Counts) -> io::Result<Gateway> {
    if counts.ticks > 1 << 63 || counts.denials > 1 << 63 {
        return Err(ErrorKind::InvalidData.into());
    }
    Ok(Gateway::new(alloc, read(alloc, config)?, counts)?)
}

/// The event that a line writes under so many ports, if it writes one.
pub fn event_of<'a>(
    ports: u8,
    line: &[u8],
    datagram: &'a mut [u8; MAX_DATAGRAM],
) -> Option<Event<'a>>
    requires { ports ≤ 8 }
    ensures { IfSome result (λ event. IsOnPort ports (event_view event)) }
{
    if line.len() > MAX_LINE {
        return None;
    }
    parse_line(ports, line, datagram)
}

/// Appends the line of each denial.
fn put_denials(denials: &[Denial], out: &mut Vec<u8>) -> io::Result<()> {
    for denial in denials {
        out.extend_from_slice(b"deny ")?;
        gw_audit::line(denial, out)?;
    }
    Ok(())
}

/// Appends the line of each datagram that is sent.
fn put_sends(sends: &Sends, out: &mut Vec<u8>) -> io::Result<()> {
    for batch in sends.batches() {
        for to in batch.targets() {
            append_send(out, batch.port(), *to, batch.octets())?;
        }
    }
    Ok(())
}

/// Appends what an event does.
fn put_effects(effects: &Effects, out: &mut Vec<u8>) -> io::Result<()> {
    put_denials(effects.denials.as_slice(), out)?;
    put_sends(&effects.sends, out)?;
    append_end(out)?;
    Ok(())
}

fn stopped(fault: StepFault) -> io::Error {
    match fault {
        StepFault::Memory => ErrorKind::OutOfMemory.into(),
        StepFault::CountEnd => ErrorKind::InvalidData.into(),
    }
}

/// What a datagram does. Where a growth is refused, it isn't taken, and is given again.
fn step(
    alloc: Global,
    gateway: &mut Gateway,
    port: u8,
    from: BipAddr,
    octets: &[u8],
) -> Result<Effects, StepFault> {
    match gateway.step(alloc, port, from, octets) {
        Err(StepFault::Memory) => gateway.step(alloc, port, from, octets),
        stepped => stepped,
    }
}

/// What a tick does: nothing that is seen.
fn tick(alloc: Global, gateway: &mut Gateway) -> Result<Effects, StepFault> {
    gateway.tick()?;
    Ok(Effects::none(alloc))
}

/// What the event of a line does.
fn take_line(
    alloc: Global,
    gateway: &mut Gateway,
    line: &str,
    out: &mut Vec<u8>,
) -> io::Result<()> {
    let mut datagram = [0; MAX_DATAGRAM];
    let taken = match wanted(event_of(gateway.ports(), line.as_bytes(), &mut datagram))? {
        Event::Tick => tick(alloc, gateway),
        Event::Datagram { port, from, octets } => step(alloc, gateway, port, from, octets),
    };
    match taken {
        Ok(effects) => put_effects(&effects, out),
        Err(fault) => Err(stopped(fault)),
    }
}

/// What each event of a script does.
fn take_lines(
    alloc: Global,
    gateway: &mut Gateway,
    body: &str,
    out: &mut Vec<u8>,
) -> io::Result<()> {
    for line in body.lines() {
        if is_case(line) {
            take_line(alloc, gateway, line, out)?;
        }
    }
    Ok(())
}

/// What a script does where each event that found no memory is given again: with memory, what its replay writes.
pub fn again(alloc: Global, config: &str, body: &str, out: &mut Vec<u8>) -> io::Result<()> {
    let mut gateway = make_gateway(alloc, config, Counts::default())?;
    take_lines(alloc, &mut gateway, body, out)?;
    writeln!(out, "ok")
}

/// What a list of three events does: the one of a line, a tick, and the first again.
fn run_list(alloc: Global, gateway: &mut Gateway, line: &str, out: &mut Vec<u8>) -> io::Result<()> {
    let mut datagram = [0; MAX_DATAGRAM];
    let event = wanted(event_of(gateway.ports(), line.as_bytes(), &mut datagram))?;
    match run(alloc, gateway, &[event, Event::Tick, event]) {
        Ok(all) => put_all(&all, out),
        Err(fault) => Err(stopped(fault)),
    }
}

/// Appends what each event of a list does.
fn put_all(all: &[Effects], out: &mut Vec<u8>) -> io::Result<()> {
    for effects in all {
        put_effects(effects, out)?;
    }
    Ok(())
}

/// A line's event, a tick, and that event again, given as one list.
pub fn list(alloc: Global, config: &str, body: &str, out: &mut Vec<u8>) -> io::Result<()> {
    let mut gateway = make_gateway(alloc, config, Counts::default())?;
    run_list(alloc, &mut gateway, body.trim(), out)?;
    writeln!(out, "ok")
}

/// What a line writes under two ports.
pub fn line(alloc: Global, line: &str, out: &mut Vec<u8>) -> io::Result<()> {
    let mut datagram = [0; MAX_DATAGRAM];
    match event_of(2, line.trim_matches('"').as_bytes(), &mut datagram) {
        Some(Event::Tick) => write!(out, "tick"),
        Some(Event::Datagram { port, from, octets }) => {
            write!(out, "port {port}, {from}, ")?;
            if octets.is_empty() {
                return write!(out, "no octets");
            }
            put_octets(alloc, octets, out)
        },
        None => write!(out, "nothing"),
    }
}
