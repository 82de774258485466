//! The notes of rules.
ghost use Rattle.std.specs.Prelude.{◌≡◌, ◌++◌, OnOk};
ghost use Rattle.gw_script.specs.Order.{in_order};
ghost use Rattle.gw_policy_review.specs.permissions.Permissions.{named_note, note_line};

use crate::permissions::words::Placed;
use gw_ask_sets::numbered::item_at;
use gw_configuration::{Text, put_shown};
use gw_rules::Rule;
use std::alloc::AllocError;

/// Appends the notes that aren't empty, each after its rule.
pub(crate) fn put_notes(out: &mut Vec<u8>, placed: &Placed<'_>) -> Result<(), AllocError>
    ensures { OnOk result (out.new.items ≡ out.old.items
        ++ in_order (note_line placed.now.config.now placed.now.lines.now) 1 placed.now.config.now.notes) }
{
    let notes = placed.config.notes();
    for place in 0..placed.config.rules().rules().len() {
        put_note(out, placed, place as u16 + 1, &notes[place])?;
    }
    Ok(())
}

/// Appends the note of the rule of this number, if it has one.
fn put_note(
    out: &mut Vec<u8>,
    placed: &Placed<'_>,
    number: u16,
    note: &Text,
) -> Result<(), AllocError>
    ensures { OnOk result
        (out.new.items ≡ out.old.items ++ note_line placed.now.config.now placed.now.lines.now number note.now) }
{
    if note.as_str().is_empty() {
        return Ok(());
    }
    match item_at(placed.config.rules().rules(), Some(number)) {
        Some(rule) => put_named(out, placed, number, rule, note),
        None => Ok(()),
    }
}

fn put_named(
    out: &mut Vec<u8>,
    placed: &Placed<'_>,
    number: u16,
    rule: &Rule,
    note: &Text,
) -> Result<(), AllocError>
    ensures { OnOk result (out.new.items ≡ out.old.items
        ++ named_note placed.now.config.now placed.now.lines.now number rule.now.name note.now) }
{
    placed.put_rule(out, number, rule)?;
    out.extend_from_slice(b": ")?;
    put_shown(out, note.as_str().as_bytes())?;
    out.extend_from_slice(b"\n")
}
