//! Cells and lines of a table of separated values (RFC 4180).

ghost use Rattle.std.specs.Prelude.{◌≡◌, ◌++◌, ◌∷◌, [], map, IfOk, OnOk};
ghost use Rattle.std.specs.List.{flat_map, list_any};
ghost use Rattle.gw_report.specs.points.Cells.{begins_wide, cell_text, doubled, guarded, is_marked, is_one_of, is_risky, marks, next_text};
ghost use Rattle.gw_report.specs.points.Cells.{quoted, risks, row_text};

use gw_addr::{put_octet, put_slice};
use std::alloc::{AllocError, Global};

/// The octets that only a quoted cell can have.
const MARKS: [u8; 4] = [b';', b'"', b'\r', b'\n'];

/// With which octets a text begins that a spreadsheet takes for a formula, and the apostrophe that keeps it a text.
const RISKS: [u8; 8] = [b'=', b'+', b'-', b'@', b'\t', b'\n', b'\r', b'\''];

/// The four signs in full width: U+FF1D, U+FF0B, U+FF0D and U+FF20.
const WIDE_RISKS: [[u8; 3]; 4] = [
    [239, 188, 157],
    [239, 188, 139],
    [239, 188, 141],
    [239, 188, 160],
];

fn is_mark(octet: u8) -> bool
    ensures { result ≡ is_one_of marks octet }
{
    MARKS.iter().any(|mark| octet == *mark)
}

fn is_marked(cell: &[u8]) -> bool
    ensures { result ≡ is_marked cell.now }
{
    cell.iter().any(|octet| is_mark(*octet))
}

/// Appends an octet of a quoted cell, a quote twice.
fn put_doubled(out: &mut Vec<u8>, octet: u8) -> Result<(), AllocError>
    ensures { OnOk result (out.new.items ≡ out.old.items ++ doubled octet) }
{
    if octet == b'"' {
        put_octet(out, octet)?;
    }
    put_octet(out, octet)
}

fn put_each_doubled(out: &mut Vec<u8>, cell: &[u8]) -> Result<(), AllocError>
    ensures { OnOk result (out.new.items ≡ out.old.items ++ flat_map doubled cell.now) }
{
    for octet in cell {
        put_doubled(out, *octet)?;
    }
    Ok(())
}

fn put_quoted(out: &mut Vec<u8>, cell: &[u8]) -> Result<(), AllocError>
    ensures { OnOk result (out.new.items ≡ out.old.items ++ quoted cell.now) }
{
    put_octet(out, b'"')?;
    put_each_doubled(out, cell)?;
    put_octet(out, b'"')
}

/// Appends a cell, between quotes if it has to be.
#[tactic(auto, unfolding(crate::specs::points::Cells::cell_text))]
pub(crate) fn put_cell(out: &mut Vec<u8>, cell: &[u8]) -> Result<(), AllocError>
    ensures { OnOk result (out.new.items ≡ out.old.items ++ cell_text cell.now) }
{
    if is_marked(cell) {
        put_quoted(out, cell)
    } else {
        put_slice(out, cell)
    }
}

pub(crate) fn put_next(out: &mut Vec<u8>, cell: &[u8]) -> Result<(), AllocError>
    ensures { OnOk result (out.new.items ≡ out.old.items ++ next_text cell.now) }
{
    put_octet(out, b';')?;
    put_cell(out, cell)
}

fn put_others(out: &mut Vec<u8>, cells: &[&[u8]]) -> Result<(), AllocError>
    ensures { OnOk result (out.new.items ≡ out.old.items ++ flat_map (λ cell. next_text cell.now) cells.now) }
{
    for cell in cells {
        put_next(out, cell)?;
    }
    Ok(())
}

/// Appends a line of these cells: the first, the others, and the two octets at its end.
pub(crate) fn put_row(out: &mut Vec<u8>, first: &[u8], others: &[&[u8]]) -> Result<(), AllocError>
    ensures { OnOk result (out.new.items ≡ out.old.items
        ++ row_text (first.now ∷ map (λ cell. cell.now) others.now)) }
{
    put_cell(out, first)?;
    put_others(out, others)?;
    put_end(out)?;
    Ok(())
}

/// Appends the two octets at the end of a line.
pub(crate) fn put_end(out: &mut Vec<u8>) -> Result<(), AllocError>
    ensures { OnOk result (out.new.items ≡ out.old.items ++ 13 ∷ 10 ∷ []) }
{
    put_slice(out, b"\r\n")
}

fn is_risk(octet: u8) -> bool
    ensures { result ≡ is_one_of risks octet }
{
    RISKS.iter().any(|risk| octet == *risk)
}

/// Whether a text begins with a sign in full width that a spreadsheet takes for that of a formula.
fn begins_wide(text: &[u8]) -> bool
    ensures { result ≡ begins_wide text.now }
{
    WIDE_RISKS.iter().any(|sign| text.starts_with(sign))
}

/// Whether a spreadsheet may take a text for a formula.
#[tactic(auto, unfolding(crate::specs::points::Cells::is_risky))]
fn is_risky(text: &[u8]) -> bool
    ensures { result ≡ is_risky text.now }
{
    match text.first() {
        Some(first) => is_risk(*first) || begins_wide(text),
        None => false,
    }
}

/// The cell of a text: with an apostrophe in front if a spreadsheet would take it for a formula.
#[tactic(auto, unfolding(crate::specs::points::Cells::guarded))]
pub(crate) fn guarded(alloc: Global, text: &str) -> Result<Vec<u8>, AllocError>
    ensures { IfOk result (λ cell. cell.items ≡ guarded text.now) }
{
    let octets = text.as_bytes();
    let mut cell = Vec::new(alloc);
    if is_risky(octets) {
        cell.push(b'\'')?;
    }
    put_slice(&mut cell, octets)?;
    Ok(cell)
}
