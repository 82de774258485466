//! The text of a state, read.

ghost use Rattle.std.specs.Prelude.{◌≡◌, ◌≤◌, ◌-◌, ◌+◌, ◌==◌, ◌++◌, IfOk, IfErr, drop, length, take};
ghost use Rattle.std.specs.List.{list_any};
ghost use Rattle.gw_state_text.specs.Fit.{AreFit};
ghost use Rattle.gw_state_text.specs.Place.{IsPlaceOf, line_count};
ghost use Rattle.gw_state.specs.Saved.{Saved as SavedState};
ghost use Rattle.gw_state_text.specs.Reading.{IsReadAs, ReadsLines, ReadsState, is_whole, kind_at, lines_of, state_of};
ghost use Rattle.gw_state_text.specs.Text.{state_text};
ghost use Rattle.gw_state_text.specs.internal.Stop.{StopsIn};

use crate::block::read_all;
use crate::fault::{FaultKind, StateFault, Stop};
use crate::lines::{are_countable, counts_at};
use crate::object::Objects;
use crate::port::PortLines;
use crate::tables::RouteLines;
use crate::words::after_word;
use gw_state::{Saved, SavedFault};
use std::alloc::Global;

/// Reads the state that a text is of ([`put_state`](crate::put_state) writes it). Nothing else has this
/// text.
///
/// # Errors
///
/// The line that can't follow those before it, and why, as [`FaultKind`] says; `Memory` at the line for which
/// there was none.
pub fn read_state(alloc: Global, text: &[u8]) -> Result<Saved, StateFault>
    ensures found { IfOk result (λ saved. text.now ≡ state_text saved) }
    ensures fit { IfOk result (λ saved. AreFit saved) }
    ensures place { IfErr result (λ fault. IsPlaceOf text.now fault.line) }
    // Which state, and which fault at which line, unless memory was refused.
    ensures exact { ReadsState (λ saved. saved) result (state_of text.now) }
    // The text of each state that fits is read.
    ensures back { (saved : SavedState) → AreFit saved → text.now ≡ state_text saved → IsReadAs saved result }
{
    match state_at(alloc, text) {
        Ok(saved) => Ok(saved),
        Err(stop) => Err(StateFault {
            line: line_of(text, stop.left),
            kind: kind_at(text, stop),
        }),
    }
}

/// The number of the line that begins before the last so many octets.
fn line_of(text: &[u8], left: usize) -> u64
    requires { left ≤ length text.now }
    ensures { result ≡ line_count (take (length text.now - left) text.now) + 1 }
{
    let front = &text[..text.len() - left];
    let lines = front.iter().filter(|c| **c == b'\n').count();
    lines as u64 + 1
}

/// What is wrong with the line at which reading stopped: a line without its line feed is `Cut`, unless it
/// comes after the last, or memory was refused.
fn kind_at(text: &[u8], stop: Stop) -> FaultKind
    requires { stop.left ≤ length text.now }
    ensures { result ≡ kind_at (is_whole (take (length text.now - stop.left) text.now)
        (drop (length text.now - stop.left) text.now)) stop.kind }
{
    let (front, rest) = text.split_at(text.len() - stop.left);
    match stop.kind {
        FaultKind::Memory => FaultKind::Memory,
        kind => {
            if is_whole(front, rest) {
                kind
            } else {
                FaultKind::Cut
            }
        }
    }
}

/// Whether a text of these two parts has a whole line where the second begins: with its line feed, or after
/// the last line.
fn is_whole(front: &[u8], rest: &[u8]) -> bool
    ensures { result ≡ is_whole front.now rest.now }
{
    front.ends_with(b"\nend\n") || has_feed(rest)
}

/// Whether a text has a line feed.
fn has_feed(text: &[u8]) -> bool
    ensures { result ≡ list_any (λ c. c == 10) text.now }
{
    text.iter().any(|c| *c == b'\n')
}

/// The state that a text is of.
#[tactic(auto, unfolding(crate::specs::Reading::lines_of))]
fn state_at(alloc: Global, text: &[u8]) -> Result<Saved, Stop>
    ensures found { IfOk result (λ saved. text.now ≡ state_text saved) }
    ensures fit { IfOk result (λ saved. AreFit saved) }
    ensures stop { IfErr result (λ stop. StopsIn text.now stop.left) }
    ensures exact { ReadsLines (λ saved. saved) result (lines_of text.now) }
{
    let Some(lines) = after_word(b"bacgw state 1\n", text) else {
        return Err(Stop::at(text, FaultKind::Version));
    };
    let Some((counts, lines_of_ports)) = counts_at(lines) else {
        return Err(Stop::at(lines, FaultKind::Line));
    };
    if !are_countable(counts) {
        return Err(Stop::at(lines, FaultKind::Range));
    }
    let (ports, lines_of_routes) = match read_all(alloc, &PortLines, lines_of_ports) {
        Ok(read) => read,
        Err(stop) => return Err(stop),
    };
    let routes_of = RouteLines { ports: ports.len() };
    let (routes, lines_of_objects) = match read_all(alloc, &routes_of, lines_of_routes) {
        Ok(read) => read,
        Err(stop) => return Err(stop),
    };
    let (objects, end) = match read_all(alloc, &Objects, lines_of_objects) {
        Ok(read) => read,
        Err(stop) => return Err(stop),
    };
    let Some(after) = after_word(b"end\n", end) else {
        return Err(Stop::at(end, FaultKind::Line));
    };
    if !after.is_empty() {
        return Err(Stop::at(after, FaultKind::Line));
    }
    match Saved::new(ports, routes, objects, counts) {
        Ok(saved) => Ok(saved),
        Err(SavedFault::TooMany) => Err(Stop::at(lines, FaultKind::TooMany)),
        Err(SavedFault::Counts) => Err(Stop::at(lines, FaultKind::Range)),
    }
}
