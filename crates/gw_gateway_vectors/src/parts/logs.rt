//! Lines of a log, read back and written in words.

use gw_addr::Source;
use gw_audit::{ShownAsk, read_ask, read_line};
use gw_cases::{CaseStreams, MemReader, put_end, put_octets, put_word, unfolded};
use gw_log_words::{Moment, last_denial, translate_log};
use gw_rules::FieldName;
use std::alloc::Global;
use std::io;
use std::io::Write;

/// Appends a space and a field, or `-` where there is none.
fn put_field(value: Option<u64>, out: &mut Vec<u8>) -> io::Result<()> {
    match value {
        Some(number) => write!(out, " {number}"),
        None => write!(out, " -"),
    }
}

/// Appends the fields of an ask that a line shows, after a semicolon.
fn put_fields(ask: &ShownAsk, out: &mut Vec<u8>) -> io::Result<()> {
    write!(out, ";")?;
    put_field(ask.operation, out)?;
    let judged = ask.ask();
    for field in &FieldName::ALL[4..10] {
        put_field(*judged.get(*field), out)?;
    }
    match &ask.stations {
        Some(stations) => {
            put_field(Some(stations.sender), out)?;
            put_field(stations.station, out)
        }
        None => Ok(()),
    }
}

/// Appends a port, a network and a station.
fn put_source(alloc: Global, port: u8, source: &Source, out: &mut Vec<u8>) -> io::Result<()> {
    let network = source.net.get();
    write!(out, "{port} {network} ")?;
    put_octets(alloc, source.mac.as_slice(), out)
}

/// What a line says, as a case of `audit` is written; of the words of an ask alone without the number, the tick and
/// the rule; or `no line`.
pub fn line(alloc: Global, case: &str, out: &mut Vec<u8>) -> io::Result<()> {
    let Some(ask) = read_ask(case.as_bytes()) else {
        return write!(out, "no line");
    };
    match read_line(case.as_bytes()) {
        Some(shown) => {
            let (number, tick, rule) = (shown.number, shown.tick, shown.rule);
            write!(out, "{number} {tick} ")?;
            put_source(alloc, ask.port, &ask.source, out)?;
            write!(out, " {rule}")?;
        }
        None => put_source(alloc, ask.port, &ask.source, out)?,
    }
    put_fields(&ask, out)
}

/// A log in words, and how the writing of it ends. A case has the read that fails, from 0, or `-`,
/// the write that fails, how many octets a write takes, and the log.
pub fn told(alloc: Global, line: &str, out: &mut Vec<u8>) -> io::Result<()> {
    put_translation(alloc, None, line, out)
}

/// The same of a log that began at the moment in front of the case.
pub fn since(alloc: Global, line: &str, out: &mut Vec<u8>) -> io::Result<()> {
    let (start, line) = line.split_once(' ').unwrap_or((line, ""));
    match Moment::parse(start) {
        Some(start) => put_translation(alloc, Some(start), line, out),
        None => write!(out, "no moment"),
    }
}

/// The line of the denial that a log shows last, or `no denial`.
pub fn last(alloc: Global, line: &str, out: &mut Vec<u8>) -> io::Result<()> {
    let text = unfolded(alloc, line)?;
    match last_denial(&text) {
        Some(fields) => out.write_all(fields),
        None => write!(out, "no denial"),
    }
}

/// Writes the log of a case in words, and appends how that ends and what was written.
fn put_translation(
    alloc: Global,
    start: Option<Moment>,
    line: &str,
    out: &mut Vec<u8>,
) -> io::Result<()> {
    let CaseStreams {
        text,
        fails,
        mut writer,
    } = CaseStreams::parse(alloc, line)?;
    let mut reader = MemReader::slow(&text, fails);
    put_end(translate_log(alloc, start, &mut reader, &mut writer), out)?;
    put_word(writer.held(), out)
}
