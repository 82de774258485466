//! Serving under a watcher, with a wire and all logs over memory; and the same without it.

ghost use Rattle.std.specs.Prelude.{◌<◌, ◌^◌};

use crate::configurations::read;
use crate::replays::make_gateway;
use crate::wire::MemWire;
use gw_cases::{MemWriter, number, number_or_none, put_word, unfolded};
use gw_core::{Counts, Gateway, Guard, Unguarded};
use gw_decisions::tally::Tally;
use gw_rule_index::Policy;
use gw_rules::RuleList;
use gw_turns::{ServeFault, ServeState};
use gw_watchers::{Beside, Marks, Trial, Watcher};
use gw_wire::Wire;
use std::alloc::Global;
use std::io;
use std::io::{ErrorKind, Write};

/// How many octets a write takes.
const AMPLE: usize = 4096;

/// A wire, and what the log is written to.
#[derive(Drop)]
struct WatchingEdges<'a> {
    wire: MemWire<'a>,
    log: MemWriter,
}

/// Serves so many turns under a guard, stretch by stretch.
fn serve_under<G: Guard>(
    alloc: Global,
    gateway: &mut Gateway,
    edges: &mut WatchingEdges<'_>,
    guard: &mut G,
    turns: u64,
) -> io::Result<Result<(), ServeFault>>
    requires turns { turns < 2 ^ 63 }
    requires failures { edges.old.wire.failures < 2 ^ 127 }
{
    let mut state = ServeState::new(alloc, turns);
    for _ in 0..turns {
        if state.left == 0 {
            return Ok(Ok(()));
        }
        let _pause = match state.serve_to_tick(gateway, &mut edges.wire, &mut edges.log, guard) {
            Ok(pause) => pause,
            Err(fault) => return Ok(Err(fault)),
        };
        if state.served.memory_drops > 0 {
            return Err(ErrorKind::OutOfMemory.into());
        }
    }
    Ok(Ok(()))
}

/// The rules on trial: `none`, which denies all, `same`, those in force, or `open`, which differ from these in that each allows.
fn rules_of(alloc: Global, config: &str, word: &str) -> io::Result<RuleList> {
    match word {
        "none" => match RuleList::new(Vec::new(alloc)) {
            Ok(rules) => Ok(rules),
            Err(_) => Err(ErrorKind::OutOfMemory.into()),
        },
        "open" => {
            let open = config.replace(alloc, "allow = false", "allow = true")?;
            Ok(read(alloc, open.as_str())?.into_rules())
        }
        _ => Ok(read(alloc, config)?.into_rules()),
    }
}

/// A trial by its word: of rules, with all that they deny, or, after `otherwise-`, with what they decide otherwise.
fn trial_of(alloc: Global, config: &str, word: &str) -> io::Result<Trial> {
    let (word, has_all_denied) = match word.strip_prefix("otherwise-") {
        Some(rules) => (rules, false),
        None => (word, true),
    };
    let rules = rules_of(alloc, config, word)?;
    Ok(Trial {
        policy: Policy::new(alloc, rules)?,
        has_all_denied,
    })
}

/// A watcher with a trial, an audit of all rules, and counts.
fn make_watcher(
    alloc: Global,
    config: &str,
    tried: Trial,
    trial: MemWriter,
    audit: MemWriter,
) -> io::Result<Watcher<MemWriter, MemWriter>> {
    let config = read(alloc, config)?;
    let format = config.format();
    let in_force = config.into_rules();
    let marks = Vec::from_elem(alloc, true, in_force.rules().len())?;
    let trial = Beside::new(tried, trial);
    let audit = Beside::new(Marks::new(alloc, &marks)?, audit);
    let counts = Tally::new(alloc, &in_force)?;
    Ok(Watcher::new(alloc, format, Some(trial), Some(audit), Some(counts)))
}

/// What the watcher's logs have and lost, and the counts.
fn put_watched(
    gateway: &Gateway,
    watcher: &Watcher<MemWriter, MemWriter>,
    out: &mut Vec<u8>,
) -> io::Result<()> {
    if let Some(trial) = watcher.trial() {
        write!(out, " trial {} {}", trial.number, trial.lost)?;
        put_word(trial.sink.held(), out)?;
    }
    if let Some(audit) = watcher.audit() {
        write!(out, " audit {} {}", audit.number, audit.lost)?;
        put_word(audit.sink.held(), out)?;
    }
    if let Some(counts) = watcher.counts() {
        for number in 0..gateway.rules().rules().len() + 1 {
            write!(out, " {}", counts.count(number))?;
        }
    }
    write!(out, " unseen {}", watcher.unseen())
}

/// What a watcher records, and that without it the wire's calls and the log are the same. A case has how many turns are asked
/// for, the rules on trial, the write to the trial's log and the one to the audit that fail, from 0, or `-`, and the script.
pub fn watched(alloc: Global, config: &str, line: &str, out: &mut Vec<u8>) -> io::Result<()> {
    let mut words = line.splitn(5, ' ');
    let turns: u64 = number(words.next())?;
    let tried = trial_of(alloc, config, words.next().unwrap_or(""))?;
    let trial = MemWriter::new(alloc, number_or_none(words.next())?, AMPLE)?;
    let audit = MemWriter::new(alloc, number_or_none(words.next())?, AMPLE)?;
    let script = unfolded(alloc, words.next().unwrap_or(""))?;
    if turns >= 1 << 63 {
        return Err(ErrorKind::InvalidData.into());
    }
    let mut watcher = make_watcher(alloc, config, tried, trial, audit)?;
    let mut gateway = make_gateway(alloc, config, Counts::default())?;
    let mut edges = WatchingEdges {
        wire: MemWire::new(alloc, &script, None),
        log: MemWriter::new(alloc, None, AMPLE)?,
    };
    let mut plain = make_gateway(alloc, config, Counts::default())?;
    let mut others = WatchingEdges {
        wire: MemWire::new(alloc, &script, None),
        log: MemWriter::new(alloc, None, AMPLE)?,
    };
    if edges.wire.failures() > 0 || others.wire.failures() > 0 {
        return Err(ErrorKind::InvalidData.into());
    }
    let end = serve_under(alloc, &mut gateway, &mut edges, &mut watcher, turns)?;
    let other = serve_under(alloc, &mut plain, &mut others, &mut Unguarded, turns)?;
    put_word(&edges.wire.letters(alloc)?, out)?;
    put_word(edges.log.held(), out)?;
    put_watched(&gateway, &watcher, out)?;
    let is_same = end.is_ok() == other.is_ok()
        && edges.wire.is_same(&others.wire)
        && edges.log.held() == others.log.held();
    write!(out, " {}", if is_same { "same" } else { "other" })
}
