//! The asks of a text, counted line by line.

ghost use Rattle.std.specs.Prelude.{◌≡◌, ◌+◌, ℕ, List, [], Some, length, IfOk};
ghost use Rattle.std.specs.Io.KnownBytes.{prepend_known};
ghost use Rattle.gw_decisions.specs.tally.Counting.{IsCounted, IsCountedIn, IsNext};
ghost use Rattle.gw_decisions.specs.tally.Tally.{IsTally};

use crate::tally::tally::{Tally, place_of};
use gw_audit::read_ask;
use gw_rules::RuleList;
use gw_script::{LineReader, LinesFault, NextLine, OctetSource};
use std::alloc::Global;

/// Counts the asks of a text by the rule that decides them. A line is one of the log, or the eight words in the middle of
/// one, and ends with a line feed, which the last may lack. Faults: `Line` with the first that says no ask or has more than
/// 4096 octets; `Read`; and `Memory`.
pub fn count_asks<R: OctetSource>(
    alloc: Global,
    rules: &RuleList,
    reader: &mut R,
) -> Result<Tally, LinesFault>
    ensures counted { (text : List ℕ) → R.left reader.old ≡ Some text → IsCounted rules.now text result }
    ensures places { IfOk result (λ tally. length tally ≡ length rules.now + 1) }
{
    let Ok(tally) = Tally::new(alloc, rules) else {
        return Err(LinesFault::Memory);
    };
    let mut counting = AskCounting {
        lines: LineReader::new(),
        tally,
    };
    counting.count_each(rules, reader)?;
    Ok(counting.tally)
}

/// What is kept from line to line.
#[derive(Drop)]
struct AskCounting {
    lines: LineReader,
    tally: Tally,
}

impl AskCounting {
    /// Counts the asks of all lines.
    fn count_each<R: OctetSource>(
        &mut self,
        rules: &RuleList,
        reader: &mut R,
    ) -> Result<(), LinesFault>
        requires unread { self.old.lines.unread ≡ [] }
        requires none { IsTally rules.now [] self.old.tally }
        ensures counted { (text : List ℕ) → R.left reader.old ≡ Some text →
            IsCountedIn rules.now text self.new.tally result }
        ensures places { length self.new.tally ≡ length self.old.tally }
    {
        for number in 1..u64::MAX {
            if !self.count_next(rules, number, reader)? {
                return Ok(());
            }
        }
        Err(LinesFault::Read)
    }

    /// Counts the ask of the line of this number. It answers whether there was one.
    fn count_next<R: OctetSource>(
        &mut self,
        rules: &RuleList,
        number: u64,
        reader: &mut R,
    ) -> Result<bool, LinesFault>
        ensures outcome { (text : List ℕ) →
            prepend_known self.old.lines.unread (R.left reader.old) ≡ Some text →
            IsNext rules.now number text (prepend_known self.new.lines.unread (R.left reader.new))
            self.old.tally self.new.tally result }
        ensures places { length self.new.tally ≡ length self.old.tally }
    {
        let (len, span) = match self.lines.find_line(reader) {
            Ok(NextLine::Line { len, span }) => (len, span),
            Ok(NextLine::Long) => return Err(LinesFault::Line(number)),
            Ok(NextLine::End) => return Ok(false),
            Err(_) => return Err(LinesFault::Read),
        };
        let Some(shown) = read_ask(self.lines.front(len)) else {
            return Err(LinesFault::Line(number));
        };
        self.tally.add(place_of(rules, &shown.ask()))?;
        self.lines.consume(span);
        Ok(true)
    }
}
