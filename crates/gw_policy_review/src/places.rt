//! Where the text of a configuration has the table that a rule of the list comes from. `tables` are the positions, from 0, of the
//! tables of the rules in their order; `lines` are the lines of the text, from 1, on which its tables begin, in their order, or none
//! if they aren't known.
ghost use Rattle.std.specs.Prelude.{◌≡◌, ◌++◌, OnOk};
ghost use Rattle.gw_policy_review.specs.Places.{PlacesAreLeftOut, is_derived, line_of, line_words, place_words, table_of, table_words};
ghost use Rattle.gw_policy_review.specs.Places.{words_beside};

use gw_addr::put_decimal;
use std::alloc::AllocError;

/// The number, from 1, of the table of the rule of this number. `None` if there is no such rule.
pub fn table_of(tables: &[u16], number: u16) -> Option<u32>
    ensures { result ≡ table_of tables.now number }
{
    table_at(tables, usize::from(number))
}

fn table_at(tables: &[u16], number: usize) -> Option<u32>
    ensures { result ≡ table_of tables.now number }
{
    match tables.get(number.saturating_sub(1)) {
        Some(table) => Some(u32::from(*table) + 1),
        None => None,
    }
}

/// The line, from 1, on which the table of this number begins. `None` if it isn't known.
pub fn line_of(lines: &[u32], table: u32) -> Option<u32>
    ensures { result ≡ line_of lines.now table }
{
    match lines.get((table as usize).saturating_sub(1)) {
        Some(line) => Some(*line),
        None => None,
    }
}

/// Whether the rule of this number is for the way or for the answers of another one.
pub fn is_derived(tables: &[u16], number: u16) -> bool
    ensures { result ≡ is_derived tables.now number }
{
    if number < 2 {
        return false;
    }
    match (table_of(tables, number - 1), table_of(tables, number)) {
        (Some(table), Some(other)) => table == other,
        _ => false,
    }
}

/// Appends the table and the line of the rule of this number, ` (table 3, line 41)`; nothing if the table has the rule's own
/// number. An `Err` if there is no memory.
pub fn put_place(
    out: &mut Vec<u8>,
    tables: &[u16],
    lines: &[u32],
    number: u16,
) -> Result<(), AllocError>
    ensures { OnOk result (out.new.items ≡ out.old.items ++ place_words tables.now lines.now number) }
{
    put_place_at(out, tables, lines, usize::from(number))
}

/// The same of a number of any size.
pub(crate) fn put_place_at(
    out: &mut Vec<u8>,
    tables: &[u16],
    lines: &[u32],
    number: usize,
) -> Result<(), AllocError>
    ensures { OnOk result (out.new.items ≡ out.old.items ++ place_words tables.now lines.now number) }
{
    put_beside(out, lines, number, table_at(tables, number))
}

fn put_beside(
    out: &mut Vec<u8>,
    lines: &[u32],
    number: usize,
    table: Option<u32>,
) -> Result<(), AllocError>
    ensures { OnOk result (out.new.items ≡ out.old.items ++ words_beside lines.now number table) }
{
    match table {
        Some(table) if table as usize != number => put_table(out, table, line_of(lines, table)),
        _ => Ok(()),
    }
}

#[tactic(auto, unfolding(crate::specs::Places::table_words))]
fn put_table(out: &mut Vec<u8>, table: u32, line: Option<u32>) -> Result<(), AllocError>
    ensures { OnOk result (out.new.items ≡ out.old.items ++ table_words table line) }
{
    out.extend_from_slice(b" (table ")?;
    put_decimal(out, table)?;
    put_line(out, line)
}

#[tactic(auto, unfolding(crate::specs::Places::line_words))]
fn put_line(out: &mut Vec<u8>, line: Option<u32>) -> Result<(), AllocError>
    ensures { OnOk result (out.new.items ≡ out.old.items ++ line_words line) }
{
    let Some(line) = line else {
        return out.extend_from_slice(b")");
    };
    out.extend_from_slice(b", line ")?;
    put_decimal(out, line)?;
    out.extend_from_slice(b")")
}

/// Law: where each table is the rule of its own number, no place is named.
pub fn left_out()
    ensures { PlacesAreLeftOut }
{}
