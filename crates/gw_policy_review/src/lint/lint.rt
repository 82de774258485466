//! What `bacgwctl lint` says of a configuration.
ghost use Rattle.std.specs.Prelude.{◌≡◌, IfOk, OnErr, OnOk};
ghost use Rattle.gw_policy_review.specs.lint.Lint.{AppendsLint, IsLint};

use crate::lint::finding::{ALL_STEPS, findings_of};
use crate::lint::note::put_notes;
use crate::lint::text::Lint;
use gw_addr::{keep_whole, put_slice};
use gw_ask_sets::shapes::shapes_of;
use gw_configuration::Config;
use std::alloc::{AllocError, Global};

/// Appends a line for each rule of which there is something to say, in order of the rules, and after
/// them the notes. If the rules are to be explained, a rule that decides has a line too, with an ask
/// that it decides.
///
/// ```text
/// rule 1 no-late-writes: matches no ask that this gateway raises
/// rule 3 all: decides, for one, operation=cast port=1 source_network=1 source=0.0.0.0:0 ..
/// rule 6 hide-door (table 4, line 37): never decides: rule 5 all-reads takes all that it matches, and says the opposite
/// rule 9 rest: never decides: the rules before it together take all that it matches
/// rule 12 odd-ones: can't tell within the steps given
/// note: rule 3 all: look at instance: two of its ranges overlap
/// ```
///
/// A rule of which the table of the text has another number has that, too, and the line on which it begins: `lines` are those of
/// all tables of rules in their order, or none if they aren't known. A rule for the way or for the answers of one that decides
/// something has no line, if what it is for is allowed before it.
///
/// An `Err` only where a growth of memory was refused: the buffer then holds what it held.
pub fn put_lint(
    alloc: Global,
    config: &Config,
    lines: &[u32],
    explains: bool,
    out: &mut Vec<u8>,
) -> Result<(), AllocError>
    ensures ok { OnOk result (AppendsLint config.now lines.now explains out.old.items out.new.items) }
    ensures err { OnErr result (out.new.items ≡ out.old.items) }
{
    let text = lint(alloc, config, lines, explains)?;
    let len = out.len();
    let put = put_slice(out, &text);
    keep_whole(out, len, put)
}

/// The lines of the rules, and the notes after them.
fn lint(
    alloc: Global,
    config: &Config,
    lines: &[u32],
    explains: bool,
) -> Result<Vec<u8>, AllocError>
    ensures { IfOk result (λ text. IsLint config.now lines.now explains text.items) }
{
    let shapes = shapes_of(alloc, config)?;
    let findings = findings_of(alloc, &shapes, config.rules(), ALL_STEPS)?;
    let lint = Lint {
        explains,
        config,
        lines,
        findings: &findings.found,
    };
    let mut text = Vec::new(alloc);
    lint.put_lines(&mut text)?;
    put_notes(alloc, &mut text, &shapes, &lint)?;
    Ok(text)
}
