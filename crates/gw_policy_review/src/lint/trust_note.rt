//! Notes on rules that allow by what anyone may say of a message.
ghost use Rattle.std.specs.Prelude.{◌≡◌, ◌+◌, ◌++◌, OnOk};
ghost use Rattle.gw_policy_review.specs.lint.Notes.{ending_note, note_text, reach_note, reached_note, source_note, trust_notes};
ghost use Rattle.gw_policy_review.specs.lint.Trust.{port_words};

use crate::lint::note::put_head;
use crate::lint::text::Lint;
use crate::lint::trust::{
    ending_words, is_open_end, is_source_alone, is_source_network_alone, open_place,
    put_port_words, reach_words, source_words,
};
use gw_rules::{Range, Rule};
use std::alloc::AllocError;

/// Appends the notes on one rule, the one of this number.
pub(crate) fn put_trust_notes(
    out: &mut Vec<u8>,
    lint: &Lint<'_>,
    number: u16,
    rule: &Rule,
) -> Result<(), AllocError>
    ensures { OnOk result
        (out.new.items ≡ out.old.items ++ trust_notes lint.now.config.now lint.now.lines.now number rule.now) }
{
    put_source_note(out, lint, number, rule)?;
    put_reach_note(out, lint, number, rule)?;
    put_ending_note(out, lint, number, rule)
}

/// Appends a note of these words.
fn put_note(out: &mut Vec<u8>, lint: &Lint<'_>, number: u16, words: &[u8]) -> Result<(), AllocError>
    ensures { OnOk result (out.new.items ≡ out.old.items ++ note_text lint.now.config.now lint.now.lines.now number words.now) }
{
    put_head(out, lint, number)?;
    out.extend_from_slice(words)?;
    out.push(b'\n')?;
    Ok(())
}

/// Appends a note where the rule names a source without its network or a sender.
fn put_source_note(
    out: &mut Vec<u8>,
    lint: &Lint<'_>,
    number: u16,
    rule: &Rule,
) -> Result<(), AllocError>
    ensures { OnOk result
        (out.new.items ≡ out.old.items ++ source_note lint.now.config.now lint.now.lines.now number rule.now) }
{
    if is_source_alone(rule) {
        put_note(out, lint, number, source_words(lint.config.format()))
    } else {
        Ok(())
    }
}

/// Appends a note where the rule names a source network without a source or a sender, and anyone may be
/// of that.
fn put_reach_note(
    out: &mut Vec<u8>,
    lint: &Lint<'_>,
    number: u16,
    rule: &Rule,
) -> Result<(), AllocError>
    ensures { OnOk result
        (out.new.items ≡ out.old.items ++ reach_note lint.now.config.now lint.now.lines.now number rule.now) }
{
    if is_source_network_alone(rule) {
        put_reached_note(out, lint, number, rule.ranges.source_network.as_slice())
    } else {
        Ok(())
    }
}

fn put_reached_note(
    out: &mut Vec<u8>,
    lint: &Lint<'_>,
    number: u16,
    ranges: &[Range],
) -> Result<(), AllocError>
    ensures { OnOk result
        (out.new.items ≡ out.old.items ++ reached_note lint.now.config.now lint.now.lines.now number ranges.now) }
{
    let rules = lint.config.rules();
    if !lint.config.format().names_stations() {
        return put_note(out, lint, number, reach_words());
    }
    match open_place(ranges, lint.config.ports()) {
        Some(place) => put_port_note(out, lint, number, place),
        None => Ok(()),
    }
}

fn put_port_note(
    out: &mut Vec<u8>,
    lint: &Lint<'_>,
    number: u16,
    place: usize,
) -> Result<(), AllocError>
    ensures { OnOk result (out.new.items ≡
        out.old.items ++ note_text lint.now.config.now lint.now.lines.now number (port_words (place + 1))) }
{
    put_head(out, lint, number)?;
    put_port_words(out, place)?;
    out.push(b'\n')?;
    Ok(())
}

/// Appends a note if the rule is the last one and allows whatever reaches it.
fn put_ending_note(
    out: &mut Vec<u8>,
    lint: &Lint<'_>,
    number: u16,
    rule: &Rule,
) -> Result<(), AllocError>
    ensures { OnOk result
        (out.new.items ≡ out.old.items ++ ending_note lint.now.config.now lint.now.lines.now number rule.now) }
{
    let rules = lint.config.rules();
    if is_open_end(rules.rules(), number, rule) {
        put_note(out, lint, number, ending_words(lint.config.format()))
    } else {
        Ok(())
    }
}
