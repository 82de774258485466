//! Replays that explain.

use gw_cases::{event_lines, made, put_end};
use gw_configuration::ConfigFault;
use gw_policy_text::read_config;
use gw_replay::{RunFault, replay_explaining};
use gw_script::LineFlaw;
use gw_shell::words_of;
use std::alloc::Global;
use std::io;
use std::io::Write;

/// What the replay of a script writes that explains, and how it ends.
pub fn explained(alloc: Global, config: &str, body: &str, out: &mut Vec<u8>) -> io::Result<()> {
    let lines = event_lines(alloc, body)?;
    let mut reader = lines.as_slice();
    let config = made(read_config(alloc, config.as_bytes()), ConfigFault::Memory)?;
    let mut flaw = LineFlaw::Form;
    let end = replay_explaining(alloc, config, &mut reader, out, &mut flaw);
    put_end(end, out)?;
    if let Err(RunFault::Line(_)) = end {
        write!(out, ": {}", words_of(flaw))?;
    }
    writeln!(out)
}
