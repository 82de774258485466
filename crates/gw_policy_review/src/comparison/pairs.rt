//! The pairs of rules that decide an ask otherwise, and their lines.
ghost use Rattle.std.specs.Prelude.{◌≡◌, ◌-◌, ◌++◌, ◌==◌, not, codes, if◌then◌else◌, length, take, IfOk, IfSome, OnOk};
ghost use Rattle.std.specs.List.{flat_map};
ghost use Rattle.std.specs.Option.{is_some};
ghost use Rattle.gw_ask_sets.specs.regions.Pairs.{AreSought};
ghost use Rattle.gw_policy_review.specs.comparison.Comparison.{has_lines};
ghost use Rattle.gw_policy_review.specs.comparison.PairLines.{given_up_text, known_of, more_pairs_text, now_by_text, pair_text, pairs_text};
ghost use Rattle.gw_policy_review.specs.comparison.PairLines.{was_by_text};

use crate::comparison::lines::{put_name, verdict};
use crate::comparison::naming::Names;
use gw_addr::{put_decimal, put_slice};
use gw_ask_sets::ask_text::put_ask;
use gw_ask_sets::regions::{Pair, Pairs, Policies, ShownPair, pairs_of};
use std::alloc::{AllocError, Global};

/// The pairs of rules that decide an ask otherwise, if so many regions are left.
pub(crate) fn pairs_if(
    alloc: Global,
    policies: &Policies<'_>,
    left: usize,
) -> Result<Option<Pairs>, AllocError>
    ensures asked { IfOk result (λ pairs. is_some (known_of pairs) ≡ not (left == 0)) }
    ensures pairs { IfOk result (λ pairs. IfSome (known_of pairs) (λ known.
        AreSought policies.now.shapes.now policies.now.old.now policies.now.new.now known)) }
{
    if left == 0 {
        return Ok(None);
    }
    let pairs = pairs_of(alloc, policies)?;
    Ok(Some(pairs))
}

/// Whether regions have lines: unless all pairs of rules are found.
pub(crate) fn have_lines(pairs: &Option<Pairs>) -> bool
    ensures { result ≡ has_lines (known_of pairs.now) }
{
    match pairs {
        Some(pairs) => !pairs.given_up.is_empty(),
        None => true,
    }
}

/// Appends the lines of at most so many pairs, and how many are left out.
pub(crate) fn put_pairs(
    out: &mut Vec<u8>,
    old: &Names<'_>,
    new: &Names<'_>,
    most: usize,
    found: &[ShownPair],
) -> Result<(), AllocError>
    ensures { OnOk result (out.new.items ≡ out.old.items ++ pairs_text old.now new.now most found.now) }
{
    let shown = most.min(found.len());
    put_each_pair(out, old, new, &found[..shown])?;
    put_more_pairs(out, found.len().saturating_sub(most))
}

fn put_each_pair(
    out: &mut Vec<u8>,
    old: &Names<'_>,
    new: &Names<'_>,
    found: &[ShownPair],
) -> Result<(), AllocError>
    ensures { OnOk result (out.new.items ≡ out.old.items ++ flat_map (pair_text old.now new.now) found.now) }
{
    for shown in found {
        put_pair(out, old, new, shown)?;
    }
    Ok(())
}

/// Appends the line of a pair.
fn put_pair(
    out: &mut Vec<u8>,
    old: &Names<'_>,
    new: &Names<'_>,
    shown: &ShownPair,
) -> Result<(), AllocError>
    ensures { OnOk result (out.new.items ≡ out.old.items ++ pair_text old.now new.now shown.now) }
{
    put_now_by(out, new, shown.pair)?;
    put_was_by(out, old, shown.pair)?;
    out.extend_from_slice(b", for one:")?;
    put_ask(out, &shown.ask)?;
    put_slice(out, b"\n")
}

fn put_now_by(out: &mut Vec<u8>, new: &Names<'_>, pair: Pair) -> Result<(), AllocError>
    ensures { OnOk result (out.new.items ≡ out.old.items ++ now_by_text new.now pair) }
{
    out.extend_from_slice(b"now ")?;
    out.extend_from_slice(verdict(pair.allows).as_bytes())?;
    out.extend_from_slice(b" by ")?;
    put_name(out, new, pair.new)
}

fn put_was_by(out: &mut Vec<u8>, old: &Names<'_>, pair: Pair) -> Result<(), AllocError>
    ensures { OnOk result (out.new.items ≡ out.old.items ++ was_by_text old.now pair) }
{
    out.extend_from_slice(b" (was ")?;
    out.extend_from_slice(verdict(!pair.allows).as_bytes())?;
    out.extend_from_slice(b" by ")?;
    put_name(out, old, pair.old)?;
    out.extend_from_slice(b")")
}

/// Appends how many more there are than are shown.
fn put_more_pairs(out: &mut Vec<u8>, count: usize) -> Result<(), AllocError>
    ensures { OnOk result (out.new.items ≡ out.old.items ++ more_pairs_text count) }
{
    if count == 0 {
        return Ok(());
    }
    out.extend_from_slice(b"and ")?;
    put_decimal(out, count)?;
    out.extend_from_slice(more_pairs_words(count).as_bytes())?;
    out.push(b'\n')?;
    Ok(())
}

fn more_pairs_words(count: usize) -> &'static str
    ensures { result.now ≡ (if count == 1 then codes " more pair" else codes " more pairs") }
{
    if count == 1 {
        " more pair"
    } else {
        " more pairs"
    }
}

/// Appends how many pairs were found, and how many were given up.
pub(crate) fn put_given_up(
    out: &mut Vec<u8>,
    found: usize,
    given_up: usize,
) -> Result<(), AllocError>
    ensures { OnOk result (out.new.items ≡ out.old.items ++ given_up_text found given_up) }
{
    put_slice(out, b"pairs of rules that decide asks otherwise: ")?;
    put_decimal(out, found)?;
    put_slice(out, b", and perhaps some of ")?;
    put_decimal(out, given_up)?;
    put_slice(out, b" that were given up\n")
}
