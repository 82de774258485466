//! A source of a text's asks, over a source of the text.

ghost use Rattle.std.specs.Prelude.{◌≡◌, ◌+◌, ◌≤◌, ◌<◌, ℕ, List, Option, length, min, IfOk, IfSome, IsOk, option_map, ◌-◌, ◌^◌, Some};
ghost use Rattle.std.specs.Io.KnownBytes.{Keeps, ReadConsumes};
ghost use Rattle.gw_script.specs.Script.{lines_of};
ghost use Rattle.gw_verdicts.specs.asks.Asks.{ask_lines, unread_of};
ghost use Rattle.gw_verdicts.specs.asks.Left.{asks_left, unread_by, unread_in_all};

use crate::asks::cursor::Cursor;
use gw_script::{OctetSource, ReadFailed};

/// Gives of each line that shows an ask its own fields and a line feed, of another line nothing. What is in front of the own
/// fields, such as a stamp, the journal's prefix, or `deny `, is left out.
///
/// A line ends with a line feed, which the last may lack. One of more than 4096 octets shows no ask.
///
/// ```text
/// 2026-11-27T08:00:00Z # bacgw 0.1.0 began
/// Nov 27 08:00:17 gate bacgw[12]: 1 17 1 1:C0A80105BAC0 read dst=100 svc=12 obj=5,2 prop=85 prio=- rule=hide
/// ```
///
/// ```text
/// 1 17 1 1:C0A80105BAC0 read dst=100 svc=12 obj=5,2 prop=85 prio=- rule=hide
/// ```
#[derive(Drop)]
pub struct AskLines<R> {
    source: R,
    cursor: Cursor,
}

impl<R: OctetSource> AskLines<R> {
    /// The asks of what this source has left.
    pub fn new(source: R) -> Self
        ensures left { asks_left R.left result ≡ option_map ask_lines (R.left source) }
        ensures all { unread_in_all R.left result
            ≡ option_map (λ text. min (unread_of (lines_of text)) (2 ^ 64 - 1)) (R.left source) }
        ensures none { unread_by result ≡ 0 }
    {
        AskLines {
            source,
            cursor: Cursor::new(),
        }
    }

    /// How many lines that show no ask were passed over, up to 2^64 - 1.
    pub fn unread(&self) -> u64
        ensures { result ≡ unread_by self.now }
    {
        self.cursor.unread()
    }
}

impl<R: OctetSource> OctetSource for AskLines<R> {
    ghost left = { λ asks. asks_left R.left asks };

    ghost NeverFails = { λ _. ⊥ };

    ghost reads = { λ _. 0 };

    fn read_octets(&mut self, buffer: &mut [u8]) -> Result<usize, ReadFailed>
        ensures bound { IfOk result (λ n. n ≤ length buffer.new) }
        ensures octets { ReadConsumes (asks_left R.left self.old) (asks_left R.left self.new) result buffer.new }
        ensures sure { ⊥ → IsOk result }
        ensures lasts { ⊥ → ⊥ }
        ensures few { 0 ≤ 0 + 1 }
        // How many lines show no ask stays the same, and at the end so many were counted.
        ensures all { IfSome (unread_in_all R.left self.old) (λ n. unread_in_all R.left self.new ≡ Some n) }
        ensures counted { IfOk result (λ n. n ≡ 0 → 0 < length buffer.new →
            IfSome (unread_in_all R.left self.new) (λ all. unread_by self.new ≡ all)) }
    {
        if buffer.is_empty() {
            return Ok(0);
        }
        for _ in 0..u64::MAX {
            let count = self.cursor.give(buffer);
            if count > 0 {
                return Ok(count);
            }
            if !self.cursor.go_on(&mut self.source)? {
                return Ok(0);
            }
        }
        Err(ReadFailed)
    }
}
