//! Which rules decide in a region, by their numbers.
ghost use Rattle.std.specs.Prelude.{◌≡◌, ◌+◌, ◌<◌, IfOk, OnOk, length};
ghost use Rattle.gw_ask_sets.specs.regions.Comparing.{AreDeciders, DecideFrom};
ghost use Rattle.gw_ask_sets.specs.regions.Deciding.{default_rule};

use crate::regions::coverage::{Coverage, coverage_of};
use crate::regions::region::Region;
use gw_addr::Sequence;
use gw_rules::{Fields, Rule, RuleName};
use std::alloc::{AllocError, Global};

/// The number of the default, which denies what no rule matches.
pub const DEFAULT: usize = 0;

/// The default as a rule after all others: it names no field, and denies.
pub fn default_rule(alloc: Global) -> Rule
    ensures { result ≡ default_rule }
{
    Rule {
        name: RuleName::of_no_rule(),
        allow: false,
        quiet: false,
        ranges: Fields {
            operation: Sequence::new(alloc),
            port: Sequence::new(alloc),
            source_network: Sequence::new(alloc),
            source_key: Sequence::new(alloc),
            destination_network: Sequence::new(alloc),
            service: Sequence::new(alloc),
            object_type: Sequence::new(alloc),
            instance: Sequence::new(alloc),
            property: Sequence::new(alloc),
            priority: Sequence::new(alloc),
            sender: Sequence::new(alloc),
            station: Sequence::new(alloc),
        },
    }
}

/// Takes the rule at a place that comes before those that are taken.
fn take_decider(
    numbers: &mut Vec<usize>,
    rules: &[Rule],
    place: usize,
    region: &Region,
) -> Result<(), AllocError>
    requires { place < length rules.now }
    ensures { OnOk result
        (DecideFrom rules.now region.now (place + 1) numbers.old.items →
        DecideFrom rules.now region.now place numbers.new.items) }
{
    let rule = &rules[place];
    match coverage_of(rule, region) {
        Coverage::Nothing => {}
        Coverage::All => {
            numbers.clear();
            numbers.push(place + 1)?;
        }
        Coverage::Perhaps => numbers.push(place + 1)?,
    }
    Ok(())
}

/// The numbers of the rules that decide the asks of a region, counted from 1, in order; the default is the last.
/// A rule that matches nothing there isn't one of them, nor one after the first that is seen to match all.
pub(crate) fn deciders_of(
    alloc: Global,
    rules: &[Rule],
    region: &Region,
) -> Result<Vec<usize>, AllocError>
    ensures { IfOk result (λ numbers. AreDeciders rules.now region.now numbers.items) }
{
    let mut numbers = Vec::new(alloc);
    numbers.push(DEFAULT)?;
    for count in 0..rules.len() {
        take_decider(&mut numbers, rules, rules.len() - 1 - count, region)?;
    }
    numbers.reverse();
    Ok(numbers)
}
