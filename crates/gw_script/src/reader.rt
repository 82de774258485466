//! The lines of a text, one by one, lent from what was read of it.

ghost use Rattle.std.specs.Prelude.{◌≡◌, ◌+◌, ◌-◌, ◌≤◌, ◌<◌, ◌∷◌, ◌++◌, ℕ, List, [], length, codes, slice_range, take, drop, IsOk, OnErr, IfOk, IfSome, IsNone};
ghost use Rattle.std.specs.Bool.{OnTrue};
ghost use Rattle.std.specs.Io.KnownBytes.{Keeps, IsAtEnd, prepend_known};
ghost use Rattle.gw_addr.specs.Text.{Lacks};
ghost use Rattle.gw_script.specs.Reader.{IsAtHand, IsGiven, IsNextLine, IsPaid, IsWithin};

use crate::finding::place_of;
use crate::line::is_tick;
use crate::source::{OctetSource, ReadFailed};
use std::marker::Model;

/// How many octets can be unread at most.
const MAX_UNREAD: usize = 16_384;

/// How many octets a line has at most, without its line feed.
pub(crate) const MAX_LINE: usize = 4096;

/// How many octets the line of a tick has, without its line feed.
const TICK_LEN: usize = 4;

/// What comes first in the text that is left.
#[derive(Drop)]
pub enum NextLine {
    /// A line of at most 4096 octets.
    Line {
        /// How many octets it has without its line feed.
        len: usize,
        /// How many it has with it.
        span: usize,
    },
    /// A longer line.
    Long,
    /// Nothing: the text is at its end.
    End,
}

/// Reads the lines of a text. Contracts see the octets that are unread, and how many calls of the source there were: at most
/// 4,294,967,295 in all.
#[derive(Drop)]
pub struct LineReader {
    octets: [u8; MAX_UNREAD],
    start: usize,
    end: usize,
    calls: u32,
}

impl Model for LineReader {
    ghost use Rattle.std.specs.Prelude.{◌≤◌, slice_range};
    ghost use Rattle.gw_script.specs.Reader.{Reading};

    ghost Value = { Reading };

    ghost view = { λ r. record { unread = slice_range r.octets r.start r.end; calls = r.calls } };

    ghost invariant = { λ r. (r.start ≤ r.end) × (r.end ≤ 16384) };
}

/// Moves the octets between two places to the front, so that all other room is after them.
fn move_to_front(octets: &mut [u8; MAX_UNREAD], start: usize, end: usize)
    requires ordered { start ≤ end }
    requires within { end ≤ 16384 }
    ensures { slice_range octets.new 0 (end - start) ≡ slice_range octets.old start end }
{
    octets.copy_within(start..end, 0);
}

/// Whether a text begins with the whole line of a tick.
#[inline(always)]
fn begins_with_tick(text: &[u8]) -> bool
    ensures { OnTrue result (text.now ≡ codes "tick" ++ 10 ∷ drop 5 text.now) }
{
    match text {
        [a, b, c, d, b'\n', ..] => is_tick([*a, *b, *c, *d]),
        _ => false,
    }
}

impl LineReader {
    /// Nothing is read yet.
    pub fn new() -> Self
        ensures unread { result.unread ≡ [] }
        ensures calls { result.calls ≡ 0 }
    {
        LineReader {
            octets: [0; MAX_UNREAD],
            start: 0,
            end: 0,
            calls: 0,
        }
    }

    /// All octets that are unread, lent.
    fn as_slice(&self) -> &[u8]
        ensures { result.now ≡ self.now.unread }
    {
        &self.octets[self.start..self.end]
    }

    /// The first octets that are unread, lent.
    pub fn front(&self, len: usize) -> &[u8]
        requires { len ≤ length self.now.unread }
        ensures { result.now ≡ take len self.now.unread }
    {
        &self.as_slice()[..len]
    }

    /// Drops the first unread octets.
    pub fn consume(&mut self, count: usize)
        requires { count ≤ length self.old.unread }
        ensures unread { self.new.unread ≡ drop count self.old.unread }
        ensures calls { self.new.calls ≡ self.old.calls }
    {
        self.start += count;
    }

    /// The first line, if what is unread shows its end, or that it is too long.
    #[inline(always)]
    fn whole_line(&self) -> Option<NextLine>
        ensures within { IfSome result (λ next. IsWithin self.now.unread next) }
        ensures found { IfSome result
            (λ next. (rest : List ℕ) → IsNextLine self.now.unread rest next) }
        ensures few { IsNone result → length self.now.unread ≤ 4096 }
        ensures open { IsNone result → Lacks 10 self.now.unread }
    {
        let unread = self.as_slice();
        // The line of a tick, the shortest, is found without a search.
        if begins_with_tick(unread) {
            return Some(NextLine::Line {
                len: TICK_LEN,
                span: TICK_LEN + 1,
            });
        }
        match place_of(b'\n', unread) {
            Some(len) if len <= MAX_LINE => Some(NextLine::Line { len, span: len + 1 }),
            Some(_) => Some(NextLine::Long),
            None if unread.len() > MAX_LINE => Some(NextLine::Long),
            None => None,
        }
    }

    /// What is left at the end of the text, where it is short and has no line feed.
    fn last_line(&self) -> NextLine
        requires few { length self.now.unread ≤ 4096 }
        requires open { Lacks 10 self.now.unread }
        ensures within { IsWithin self.now.unread result }
        ensures found { IsNextLine self.now.unread [] result }
    {
        let len = self.as_slice().len();
        if len == 0 {
            NextLine::End
        } else {
            NextLine::Line { len, span: len }
        }
    }

    /// Calls the source once, and answers how many octets it gave.
    fn read_more<S: OctetSource>(&mut self, source: &mut S) -> Result<usize, ReadFailed>
        requires few { length self.old.unread ≤ 4096 }
        requires calls { self.old.calls < 4294967295 }
        ensures text { Keeps (prepend_known self.old.unread (S.left source.old))
            (prepend_known self.new.unread (S.left source.new)) }
        ensures end { IfOk result
            (λ n. n ≡ 0 → (self.new.unread ≡ self.old.unread) × IsAtEnd (S.left source.new)) }
        ensures calls { self.new.calls ≡ self.old.calls + 1 }
        ensures paid { IsPaid self.old.calls (S.left source.old) self.new.calls
            (S.left source.new) }
        ensures given { IfOk result (λ n. 0 < n →
            IsGiven self.old.calls (S.left source.old) self.new.calls (S.left source.new)) }
        ensures sure { S.NeverFails source.old → IsOk result }
        ensures lasts { S.NeverFails source.old → S.NeverFails source.new }
        ensures few { S.reads source.new ≤ S.reads source.old + 1 }
    {
        let (start, end) = (self.start, self.end);
        move_to_front(&mut self.octets, start, end);
        self.start = 0;
        self.end = end - start;
        self.calls += 1;
        let end = self.end;
        let count = source.read_octets(&mut self.octets[end..])?;
        self.end = end + count;
        Ok(count)
    }

    /// What comes first in the text that is left. It calls the source only if what is unread doesn't show that.
    /// `ReadFailed` only after a failed read, and where the calls are at their end.
    #[inline(always)]
    pub fn find_line<S: OctetSource>(&mut self, source: &mut S) -> Result<NextLine, ReadFailed>
        ensures text { Keeps (prepend_known self.old.unread (S.left source.old))
            (prepend_known self.new.unread (S.left source.new)) }
        ensures within { IfOk result (λ next. IsWithin self.new.unread next) }
        ensures found { IfOk result
            (λ next. IfSome (S.left source.new) (λ rest. IsNextLine self.new.unread rest next)) }
        // Calls are counted on and on: the count never goes back, and a call more is an octet less, but for one at the end.
        ensures calls { self.old.calls ≤ self.new.calls }
        ensures paid { IsPaid self.old.calls (S.left source.old) self.new.calls
            (S.left source.new) }
        ensures sure { S.NeverFails source.old → OnErr result (self.new.calls ≡ 4294967295) }
        ensures lasts { S.NeverFails source.old → S.NeverFails source.new }
        // No read is left out of the count, which has an end.
        ensures counted { S.reads source.new + self.old.calls ≤ S.reads source.old + self.new.calls }
        ensures most { self.old.calls ≤ 4294967295 → self.new.calls ≤ 4294967295 }
        // If what is unread shows it, it is returned: nothing is asked of the source, and nothing changes.
        ensures translated { IsAtHand self.old.unread → IsOk result }
        ensures same { IsAtHand self.old.unread → self.new ≡ self.old }
        ensures unasked { IsAtHand self.old.unread → source.new ≡ source.old }
    {
        if let Some(at_hand) = self.whole_line() {
            return Ok(at_hand);
        }
        while self.calls < u32::MAX {
            if self.read_more(source)? == 0 {
                return Ok(self.last_line());
            }
            if let Some(next) = self.whole_line() {
                return Ok(next);
            }
        }
        Err(ReadFailed)
    }
}
