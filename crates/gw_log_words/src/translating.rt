//! A log written in words, whatever is in front of its lines' own fields.

ghost use Rattle.std.specs.Prelude.{◌≡◌, ◌+◌, ◌*◌, ◌<◌, ◌≤◌, ◌++◌, ◌∷◌, [], ℕ, List, length, take, drop, Some, IsErrOf, OnOk};
ghost use Rattle.gw_script.specs.Known.{OnKnown};
ghost use Rattle.gw_log_words.specs.Translating.{IsTranslatedAfterFront, IsTranslatedBehind, LeavesTranslated};

use crate::fields::{denial_front, says_allow};
use crate::moment::Moment;
use crate::words::translate_line;
use gw_addr::{put_octet, put_slice};
use gw_script::{LineTranslator, LinesFault, OctetSink, OctetSource, translate_lines};
use std::alloc::{AllocError, Global};

/// Writes each line of a log in words, in order, before it takes up the next line: of a line that ends in that of a denial
/// what is in front of it, such as a stamp, and then the words of what it shows; another as it is. If the last word in front is
/// `allow`, as in an audit, the ask was allowed. If it is known when the log began, the moment of its tick comes before the
/// words, in a year up to 9999. The writer isn't flushed.
///
/// A line ends with a line feed, which the last may lack. It has at most 4096 octets without it: a longer one ends the
/// writing.
///
/// ```text
/// 2026-11-27T08:00:00Z # bacgw 0.1.0 began
/// Nov 27 08:00:17 gate bacgw[12]: 1 17 1 1:C0A80105BAC0 read dst=100 svc=12 obj=5,2 prop=85 prio=- rule=hide
/// ```
///
/// ```text
/// 2026-11-27T08:00:00Z # bacgw 0.1.0 began
/// Nov 27 08:00:17 gate bacgw[12]: 192.168.1.5:47808 on network 1 reads 85 present-value of 5,2 binary-value of the device on network 100: denied by hide
/// ```
pub fn translate_log<R: OctetSource, W: OctetSink>(
    alloc: Global,
    start: Option<Moment>,
    reader: &mut R,
    writer: &mut W,
) -> Result<(), LinesFault>
    // What is written then, if the octets of the reader and the writer are known.
    ensures translated { OnKnown (R.left reader.old) (W.held writer.old) (W.held writer.new)
        (LeavesTranslated start result) }
    // What never fails doesn't end the writing: a reader, of a text of less than 2 GiB, and a writer.
    ensures sure_reader { R.NeverFails reader.old → (text : List ℕ) →
        R.left reader.old ≡ Some text → 2 * length text + 1 < 4294967295 →
        ¬ (IsErrOf result LinesFault.Read) }
    ensures sure_writer { W.NeverFails writer.old → ¬ (IsErrOf result LinesFault.Write) }
{
    translate_lines(alloc, &LogTranslator { start }, reader, writer)
}

/// Makes the texts for the lines of a log that began at this moment, if it is known.
#[derive(Drop)]
struct LogTranslator {
    start: Option<Moment>,
}

impl LineTranslator for LogTranslator {
    ghost Translates = { λ translator line text. IsTranslatedAfterFront translator.start line text };

    ghost Refuses = { λ _ _. ⊥ };

    fn translate(
        &self,
        alloc: Global,
        line: &[u8],
        text: &mut Vec<u8>,
    ) -> Result<bool, AllocError> {
        translate_any(alloc, self.start, line, text)?;
        Ok(true)
    }
}

/// Makes the text for a line, with a line feed after it, in the place of what the buffer holds.
fn translate_any(
    alloc: Global,
    start: Option<Moment>,
    line: &[u8],
    text: &mut Vec<u8>,
) -> Result<(), AllocError>
    ensures { OnOk result (IsTranslatedAfterFront start line.now text.new.items) }
{
    match denial_front(line) {
        Some(at) => translate_from(alloc, start, line, at, text),
        None => pass_on(line, text),
    }
}

/// Makes the text for a line whose own fields begin at this place.
fn translate_from(
    alloc: Global,
    start: Option<Moment>,
    line: &[u8],
    at: usize,
    text: &mut Vec<u8>,
) -> Result<(), AllocError>
    requires { at ≤ length line.now }
    ensures { OnOk result (IsTranslatedBehind start (take at line.now) (drop at line.now) text.new.items) }
{
    translate_behind(alloc, start, &line[..at], &line[at..], text)
}

/// Makes the text for own fields and what is in front of them.
fn translate_behind(
    alloc: Global,
    start: Option<Moment>,
    front: &[u8],
    fields: &[u8],
    text: &mut Vec<u8>,
) -> Result<(), AllocError>
    ensures { OnOk result (IsTranslatedBehind start front.now fields.now text.new.items) }
{
    let mut translated = Vec::new(alloc);
    translate_line(alloc, start, says_allow(front), fields, &mut translated)?;
    text.clear();
    put_slice(text, front)?;
    put_slice(text, &translated)
}

/// Makes the text for a line that is passed on.
fn pass_on(line: &[u8], text: &mut Vec<u8>) -> Result<(), AllocError>
    ensures { OnOk result (text.new.items ≡ line.now ++ 10 ∷ []) }
{
    text.clear();
    put_slice(text, line)?;
    put_octet(text, b'\n')
}
