//! What of a policy decides in a region.
ghost use Rattle.std.specs.Prelude.{◌≡◌, ◌+◌, ◌<◌, ◌≤◌, IfOk, OnOk, length};
ghost use Rattle.std.specs.List.{AllByRecursion};
ghost use Rattle.gw_ask_sets.specs.regions.Deciding.{DecidesIn};
ghost use Rattle.gw_ask_sets.specs.regions.internal.Looking.{AreDeciding, Divides};

use crate::regions::coverage::{Coverage, coverage_of};
use crate::regions::region::Region;
use gw_rules::Rule;
use std::alloc::{AllocError, Global};

/// What of a policy decides in a region: the places of some of its rules, that of the last one first,
/// and what is said where none of them matches.
#[derive(Drop)]
pub(crate) struct Deciding {
    pub places: Vec<usize>,
    pub otherwise: bool,
}

/// Takes the rule at a place that comes before those that are taken.
fn take_rule(
    deciding: &mut Deciding,
    rules: &[Rule],
    place: usize,
    region: &Region,
) -> Result<(), AllocError>
    requires { place < length rules.now }
    ensures decides { OnOk result
        (DecidesIn rules.now region.now (place + 1) deciding.old.places.items deciding.old.otherwise →
        DecidesIn rules.now region.now place deciding.new.places.items deciding.new.otherwise) }
    ensures divide { OnOk result
        (AllByRecursion (λ p. Divides rules.now region.now p) deciding.old.places.items →
        AllByRecursion (λ p. Divides rules.now region.now p) deciding.new.places.items) }
{
    let rule = &rules[place];
    match coverage_of(rule, region) {
        Coverage::Nothing => {}
        Coverage::All => {
            deciding.places.clear();
            deciding.otherwise = rule.allow;
        }
        Coverage::Perhaps => {
            if !deciding.places.is_empty() || rule.allow != deciding.otherwise {
                deciding.places.push(place)?;
            }
        }
    }
    Ok(())
}

/// What of a policy decides in a region.
pub(crate) fn deciding_of(
    alloc: Global,
    rules: &[Rule],
    region: &Region,
) -> Result<Deciding, AllocError>
    ensures { IfOk result (λ made. AreDeciding rules.now region.now made.places.items made.otherwise) }
{
    let mut made = Deciding {
        places: Vec::new(alloc),
        otherwise: false,
    };
    for count in 0..rules.len() {
        take_rule(&mut made, rules, rules.len() - 1 - count, region)?;
    }
    Ok(made)
}
