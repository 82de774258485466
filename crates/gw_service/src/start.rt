//! From where a gateway begins that keeps its state.

ghost use Rattle.std.specs.Prelude.{◌≡◌, IfOk, option_map};
ghost use Rattle.gw_service.specs.Start.{BeginsAs, IsStateRead, IsTextRead, are_at_end, begun, fault_of_reading, fault_of_text, start_text};
ghost use Rattle.gw_system.specs.Requests.{text_found};

use crate::counts::{LAST_COUNT, go_on_from, numbered};
use crate::fault::ServiceFault;
use gw_configuration::{Config, put_shown};
use gw_core::{Counts, Gateway};
use gw_state::{Saved, SavedCounts};
use gw_state_text::{FaultKind, StateFault, read_state};
use gw_state_words::put_dropped;
use gw_system::ReadFailure;
use std::alloc::{AllocError, Global};

/// How many octets the text of a state has at most.
pub const MAX_STATE_OCTETS: usize = 4_194_304;

/// The fault of a text that is none of a state.
fn fault_of_text(fault: StateFault) -> ServiceFault
    ensures { result ≡ fault_of_text fault }
{
    match fault.kind {
        FaultKind::Memory => ServiceFault::Memory,
        _ => ServiceFault::State(fault),
    }
}

/// The fault of a file that can't be read.
fn fault_of_reading(failure: ReadFailure) -> ServiceFault
    ensures { result ≡ fault_of_reading failure }
{
    match failure {
        ReadFailure::Unreadable(why) => ServiceFault::StateUnreadable(why),
        ReadFailure::Memory => ServiceFault::Memory,
    }
}

/// Whether a count of what was saved is at its end.
fn are_at_end(counts: SavedCounts) -> bool
    ensures { result ≡ are_at_end counts }
{
    counts.ticks == LAST_COUNT || counts.denials == LAST_COUNT
}

/// What was saved, by its text. A state of which a count is at its end is faulty in its second line, which has the counts: a gateway
/// that began with it would end at once, at each start.
fn saved_of_text(alloc: Global, text: &[u8]) -> Result<Saved, ServiceFault>
    ensures { IsTextRead text.now result }
{
    match read_state(alloc, text) {
        Ok(saved) => {
            if are_at_end(saved.counts()) {
                return Err(ServiceFault::State(StateFault {
                    line: 2,
                    kind: FaultKind::Range,
                }));
            }
            Ok(saved)
        }
        Err(fault) => Err(fault_of_text(fault)),
    }
}

/// What was saved, by what its file gave: nothing if there is no file. Faults: `StateUnreadable` with why, `State` with the
/// line at which the text isn't that of a state, and `Memory`.
pub(crate) fn saved_in(
    alloc: Global,
    read: &Result<Option<Vec<u8>>, ReadFailure>,
) -> Result<Option<Saved>, ServiceFault>
    ensures { IsStateRead (text_found read.now) result }
{
    match read {
        Ok(Some(text)) => match saved_of_text(alloc, text) {
            Ok(saved) => Ok(Some(saved)),
            Err(fault) => Err(fault),
        },
        Ok(None) => Ok(None),
        Err(failure) => Err(fault_of_reading(*failure)),
    }
}

/// A gateway of a configuration that takes over what was saved, or to which nothing came yet.
fn begin(alloc: Global, config: Config, saved: &Option<Saved>) -> Result<Gateway, AllocError>
    ensures { IfOk result (λ gateway. gateway ≡ begun config saved.now) }
{
    match saved {
        Some(saved) => Gateway::resume(alloc, config, saved),
        None => Gateway::new(
            alloc,
            config,
            Counts {
                ticks: 0,
                denials: 0,
            },
        ),
    }
}

/// A gateway of a configuration that takes over what was saved, and goes on from the greater ones of its counts and those
/// of the last denial of its log, where the number that was saved isn't ahead of what the log shows. The only fault is want of memory.
pub(crate) fn begin_after(
    alloc: Global,
    config: Config,
    saved: Option<Saved>,
    line: &Option<Vec<u8>>,
) -> Result<Gateway, AllocError>
    ensures { IfOk result (BeginsAs config saved (option_map (λ line. line.items) line.now)) }
{
    let saved = numbered(saved, line);
    let mut gateway = begin(alloc, config, &saved)?;
    let counts = go_on_from(gateway.counts(), line);
    gateway.count_on(counts);
    Ok(gateway)
}

/// What is said of a state at the start: that it is new, if more is asked for, or what of it isn't taken over.
pub(crate) fn start_text(
    alloc: Global,
    is_asked: bool,
    name: &str,
    config: &Config,
    saved: &Option<Saved>,
) -> Result<Vec<u8>, AllocError>
    ensures { IfOk result (λ text. text.items ≡ start_text is_asked name.now config.now saved.now) }
{
    let mut text = Vec::new(alloc);
    match saved {
        Some(saved) => put_dropped(config, saved, &mut text)?,
        None if is_asked => {
            text.extend_from_slice(b"state: ")?;
            put_shown(&mut text, name.as_bytes())?;
            text.extend_from_slice(b" is new\n")?;
        }
        None => {}
    }
    Ok(text)
}
