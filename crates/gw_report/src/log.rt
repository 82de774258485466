//! What a log shows, counted.

use crate::counts::LabelCounts;
use crate::fault::ReportFault;
use crate::lines::{Line, split_line};
use crate::words::{hour_label, object_label, source_label};
use gw_audit::{Shown, read_line};
use gw_script::OctetSource;
use std::alloc::{AllocError, Global};

/// How many octets are read at once.
const CHUNK: usize = 16_384;

/// The denials of a log, counted.
#[derive(Drop)]
pub(crate) struct Denials {
    /// How many there are.
    pub all: u64,
    /// How many lines show none.
    pub unread: u64,
    /// How many there are in each hour.
    pub hours: LabelCounts,
    /// By each rule.
    pub rules: LabelCounts,
    /// Of each source.
    pub sources: LabelCounts,
    /// For each object.
    pub objects: LabelCounts,
}

impl Denials {
    fn new(alloc: Global) -> Self {
        Denials {
            all: 0,
            unread: 0,
            hours: LabelCounts::new(alloc),
            rules: LabelCounts::new(alloc),
            sources: LabelCounts::new(alloc),
            objects: LabelCounts::new(alloc),
        }
    }

    /// Counts the denial that a line shows, which comes after these octets of the line.
    fn add(&mut self, alloc: Global, front: &[u8], shown: &Shown<'_>) -> Result<(), AllocError> {
        self.all = self.all.saturating_add(1);
        self.hours.add(hour_label(alloc, front, shown.tick)?)?;
        self.rules.add(String::from_str(alloc, shown.rule)?)?;
        self.sources.add(source_label(alloc, &shown.ask)?)?;
        self.objects.add(object_label(alloc, shown)?)
    }

    /// Counts a line, of which `None` is kept if it is too long.
    fn add_line(&mut self, alloc: Global, line: Option<&[u8]>) -> Result<(), AllocError> {
        if let Some(line) = line {
            if let Some((front, shown)) = denial_in(line) {
                return self.add(alloc, front, &shown);
            }
        }
        self.unread = self.unread.saturating_add(1);
        Ok(())
    }
}

/// What begins the lines of an audit, which has what was allowed.
const ALLOWED: &[u8] = b"allow";

/// The denial that a line shows, and what comes before it: a stamp, or what another program wrote in front. It is the
/// longest end of the line that is the line of a denial, and begins after a space. A line of an audit shows none.
fn denial_in(line: &[u8]) -> Option<(&[u8], Shown<'_>)> {
    match shown_in(line) {
        Some((front, _)) if front.ends_with(ALLOWED) => None,
        found => found,
    }
}

fn shown_in(line: &[u8]) -> Option<(&[u8], Shown<'_>)> {
    if let Some(shown) = read_line(line) {
        return Some((&line[..0], shown));
    }
    for place in 0..line.len() {
        if line[place] == b' ' {
            if let Some(shown) = read_line(&line[place + 1..]) {
                return Some((&line[..place], shown));
            }
        }
    }
    None
}

/// A log as far as it was read.
#[derive(Drop)]
struct LogReading {
    line: Line,
    denials: Denials,
}

impl LogReading {
    /// Counts the line that was read, and begins the next.
    fn end_line(&mut self, alloc: Global) -> Result<(), AllocError> {
        self.denials.add_line(alloc, self.line.octets())?;
        self.line.clear();
        Ok(())
    }

    /// Counts the lines that end among these octets.
    fn take(&mut self, alloc: Global, octets: &[u8]) -> Result<(), AllocError> {
        let mut rest = octets;
        for _ in 0..octets.len() {
            let Some((front, others)) = split_line(rest) else {
                break;
            };
            self.line.extend(front)?;
            self.end_line(alloc)?;
            rest = others;
        }
        self.line.extend(rest)
    }

    /// Counts the last line if it lacks its line feed.
    fn end(&mut self, alloc: Global) -> Result<(), AllocError> {
        if self.line.is_empty() {
            return Ok(());
        }
        self.end_line(alloc)
    }
}

/// Counts what a log shows, to its end. `Read` and `Memory`.
pub(crate) fn read_log<R: OctetSource>(
    alloc: Global,
    reader: &mut R,
) -> Result<Denials, ReportFault> {
    let mut reading = LogReading {
        line: Line::new(alloc),
        denials: Denials::new(alloc),
    };
    let mut octets = [0; CHUNK];
    for _ in 0..u64::MAX {
        let count = reader.read_octets(&mut octets)?;
        if count == 0 {
            break;
        }
        reading.take(alloc, &octets[..count])?;
    }
    reading.end(alloc)?;
    let LogReading { line: _, denials } = reading;
    Ok(denials)
}
