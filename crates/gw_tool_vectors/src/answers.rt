//! Which rules would decide the asks of a log's lines.

use gw_cases::{event_lines, made, put_end};
use gw_configuration::ConfigFault;
use gw_policy_text::read_config;
use gw_verdicts::why;
use std::alloc::Global;
use std::io;
use std::io::Write;

/// Which rule would decide the asks of these lines, and how the answers end.
pub fn answers(alloc: Global, config: &str, body: &str, out: &mut Vec<u8>) -> io::Result<()> {
    let lines = event_lines(alloc, body)?;
    let config = made(read_config(alloc, config.as_bytes()), ConfigFault::Memory)?;
    let mut reader = lines.as_slice();
    let end = why(alloc, &config, &[], &mut reader, out);
    put_end(end, out)?;
    writeln!(out)
}
