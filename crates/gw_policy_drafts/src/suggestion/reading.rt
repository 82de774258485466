//! The asks that the lines of a text show.
ghost use Rattle.std.specs.Prelude.{◌≡◌, ◌∷◌, [], ℕ, List, Some, IfOk, OnOk};
ghost use Rattle.std.specs.Io.KnownBytes.{prepend_known};
ghost use Rattle.gw_script.specs.Script.{lines_of};
ghost use Rattle.gw_policy_drafts.specs.suggestion.Given.{AddsAll, denied};
ghost use Rattle.gw_policy_drafts.specs.suggestion.Lines.{AreSeen, IsTaken, HasAsk, TakesNext, words_of};

use crate::suggestion::fault::SuggestFault;
use crate::suggestion::given::Given;
use gw_audit::read_ask;
use gw_rules::{Ask, RuleList};
use gw_script::{LineReader, NextLine, OctetSource};
use std::alloc::{AllocError, Global};

/// What a replay writes in front of the line of a denial.
const DENY: &[u8] = b"deny ";

/// What is read of a text: the asks that its lines show and a policy denies, and how many lines show none.
#[derive(Drop)]
pub(crate) struct Seen {
    pub(crate) given: Given,
    pub(crate) unread: u64,
}

/// The words that show the ask of a line: without the word that a replay writes in front.
fn words_of(line: &[u8]) -> &[u8]
    ensures { result.now ≡ words_of line.now }
{
    if line.starts_with(DENY) {
        &line[DENY.len()..]
    } else {
        line
    }
}

/// The ask that a line shows: a line of the log, with `deny ` in front or not, or the eight words in the
/// middle of one.
fn ask_in_line(line: &[u8]) -> Option<Ask>
    ensures { HasAsk line.now result }
{
    match read_ask(words_of(line)) {
        Some(shown) => Some(shown.ask()),
        None => None,
    }
}

/// Whether a line is another one of those that a replay writes: it shows no ask that could be read back.
fn is_other(line: &[u8]) -> bool {
    line.starts_with(b"send ") || line.starts_with(b"ask ") || line == b"end".as_slice()
}

/// Takes a line: its ask is given if the policy denies it.
fn take_line(rules: &RuleList, line: &[u8], seen: &mut Seen) -> Result<(), SuggestFault>
    ensures { OnOk result (IsTaken rules.now line.now seen.old.given seen.new.given) }
{
    match ask_in_line(line) {
        Some(ask) => take_ask(rules, &ask, &mut seen.given),
        None => {
            if !is_other(line) {
                seen.unread = seen.unread.saturating_add(1);
            }
            Ok(())
        }
    }
}

/// Takes an ask if the policy denies it.
#[tactic(auto, using(crate::proofs::suggestion_lemmas::GivenLaw::taken_none, crate::proofs::suggestion_lemmas::GivenLaw::taken_one))]
fn take_ask(rules: &RuleList, ask: &Ask, given: &mut Given) -> Result<(), SuggestFault>
    ensures { OnOk result (AddsAll given.old given.new (denied rules.now (ask.now ∷ []))) }
{
    if rules.allows(ask) {
        return Ok(());
    }
    given.add(ask)
}

/// The lines that are read, and what was seen in them.
#[derive(Drop)]
struct LinesRead {
    lines: LineReader,
    seen: Seen,
}

impl LinesRead {
    /// Takes the line of this number. It answers whether there was one.
    fn take_next<R: OctetSource>(
        &mut self,
        rules: &RuleList,
        number: u64,
        reader: &mut R,
    ) -> Result<bool, SuggestFault>
        ensures { (text : List ℕ) → prepend_known self.old.lines.unread (R.left reader.old) ≡ Some text →
            TakesNext rules.now text (prepend_known self.new.lines.unread (R.left reader.new))
            self.old.seen.given self.new.seen.given result }
    {
        let (len, span) = match self.lines.find_line(reader) {
            Ok(NextLine::Line { len, span }) => (len, span),
            Ok(NextLine::Long) => return Err(SuggestFault::Line(number)),
            Ok(NextLine::End) => return Ok(false),
            Err(_) => return Err(SuggestFault::Read),
        };
        take_line(rules, self.lines.front(len), &mut self.seen)?;
        self.lines.consume(span);
        Ok(true)
    }

    /// Takes each line, in order.
    fn take_each<R: OctetSource>(
        mut self,
        rules: &RuleList,
        reader: &mut R,
    ) -> Result<Seen, SuggestFault>
        requires unread { self.lines.unread ≡ [] }
        requires none { self.seen.given ≡ [] }
        ensures { IfOk result (λ seen. (text : List ℕ) → R.left reader.old ≡ Some text →
            AreSeen rules.now (lines_of text) seen.given) }
    {
        for number in 1..u64::MAX {
            if !self.take_next(rules, number, reader)? {
                return Ok(self.seen);
            }
        }
        Err(SuggestFault::Read)
    }
}

/// The asks that the lines of a text show and these rules deny. Faults: `Read`; `Line` of a line of more than
/// 4096 octets; `TooManyAsks`; `Memory`.
pub(crate) fn read_asks<R: OctetSource>(
    alloc: Global,
    rules: &RuleList,
    reader: &mut R,
) -> Result<Seen, SuggestFault>
    ensures { IfOk result (λ seen. (text : List ℕ) → R.left reader.old ≡ Some text →
        AreSeen rules.now (lines_of text) seen.given) }
{
    let reading = LinesRead {
        lines: LineReader::new(),
        seen: Seen {
            given: Given::new(alloc)?,
            unread: 0,
        },
    };
    reading.take_each(rules, reader)
}
