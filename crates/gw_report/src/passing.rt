//! How much of some asks a policy allows.
ghost use Rattle.std.specs.Prelude.{◌≡◌, IfOk};
ghost use Rattle.gw_report.specs.Access.{IsCell, extent_of, steps_given};

use gw_ask_sets::shapes::{Outcome, Shape};
use gw_policy_review::permissions::search_decided;
use gw_rules::RuleList;
use std::alloc::{AllocError, Global};

/// How many steps each of the two searches for a cell has at most, however many rules there are.
pub const CELL_STEPS: u32 = 16_384;

/// How many those for all cells of the table have.
pub const TABLE_STEPS: u32 = 262_144;

/// How much of some asks a policy allows.
#[derive(Clone, Copy)]
pub enum Extent {
    /// None of them.
    Nothing,
    /// Some of them, and others not.
    Some,
    /// Each of them.
    All,
    /// That isn't known: a search used up its steps.
    Unknown,
}

/// How much of them it allows, by what was found of one that it allows, and of one that it denies, or `None` if there is no ask.
fn extent_of(allowed: &Outcome, denied: &Outcome) -> Option<Extent>
    ensures { result ≡ extent_of allowed.now denied.now }
{
    match (allowed, denied) {
        (Outcome::Never, Outcome::Never) => None,
        (Outcome::Never, _) => Some(Extent::Nothing),
        (_, Outcome::Never) => Some(Extent::All),
        (Outcome::Decides(_), Outcome::Decides(_)) => Some(Extent::Some),
        _ => Some(Extent::Unknown),
    }
}

/// What a cell shows, and how many steps are left for the others.
#[derive(Clone, Copy)]
pub(crate) struct Cell {
    /// How much of its asks the rules allow, or `None` if there is no such ask.
    pub(crate) extent: Option<Extent>,
    /// The steps.
    pub(crate) left: u32,
}

/// How many steps a search is given, where so many are left for the table.
fn steps_given(left: u32) -> u32
    ensures { result ≡ steps_given left }
{
    CELL_STEPS.min(left)
}

/// What the cell shows of the asks of these shapes, where so many steps are left.
pub(crate) fn cell_of(
    alloc: Global,
    rules: &RuleList,
    shapes: &[Shape],
    left: u32,
) -> Result<Cell, AllocError>
    ensures { IfOk result (λ cell. IsCell shapes.now rules.now left cell.left cell.extent) }
{
    let first = steps_given(left);
    let allowed = search_decided(alloc, rules, shapes, true, first)?;
    let between = left - allowed.steps;
    let second = steps_given(between);
    let denied = search_decided(alloc, rules, shapes, false, second)?;
    Ok(Cell {
        extent: extent_of(&allowed.outcome, &denied.outcome),
        left: between - denied.steps,
    })
}
