//! Announcing on a wire over memory: at the start, at each tick, and once a configuration was taken over.

use crate::replays::make_gateway;
use crate::wire::MemWire;
use gw_cases::{number_or_none, put_word};
use gw_core::{Counts, Gateway};
use gw_turns::Announcing;
use std::alloc::Global;
use std::io;
use std::io::{ErrorKind, Write};

/// Announces what is due at a moment, and appends a letter for each call of the wire and the number of its port.
fn announce(
    alloc: Global,
    gateway: &Gateway,
    announcing: &mut Announcing,
    wire: &mut MemWire<'_>,
    out: &mut Vec<u8>,
) -> io::Result<()> {
    let before = wire.count();
    announcing.announce(alloc, gateway, wire);
    let letters = wire.letters_after(alloc, before)?;
    if letters.is_empty() {
        out.push(b'-')?;
    }
    out.extend_from_slice(&letters)?;
    out.push(b' ')?;
    Ok(())
}

/// What is announced. A case has the call of the wire that fails, from 0, or `-`, and a letter for each moment: `t` the start or a tick,
/// `r` a tick at which a configuration was taken over.
pub fn moments(alloc: Global, config: &str, line: &str, out: &mut Vec<u8>) -> io::Result<()> {
    let mut words = line.splitn(2, ' ');
    let failing_call = number_or_none(words.next())?;
    let gateway = make_gateway(alloc, config, Counts::default())?;
    let mut wire = MemWire::new(alloc, &[], failing_call);
    let mut announcing = Announcing::first();
    for moment in words.next().unwrap_or("").as_bytes() {
        match *moment {
            b't' => {}
            b'r' => announcing = announcing.with_due(),
            _ => return Err(ErrorKind::InvalidData.into()),
        }
        announce(alloc, &gateway, &mut announcing, &mut wire, out)?;
    }
    write!(out, "{} {}", announcing.sends, announcing.send_failures)?;
    if announcing.put_off > 0 {
        put_word(b"for want of memory", out)?;
        write!(out, " {}", announcing.put_off)?;
    }
    Ok(())
}
