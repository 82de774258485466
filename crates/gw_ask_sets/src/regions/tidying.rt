//! Rules whose ranges are in order, and none overlaps or touches another. They match the same asks.
//!
//! Where a region is parted by a rule with ranges that overlap, what they share would be in its list once for each of
//! them, and once for each of those after the next such rule.
ghost use Rattle.std.specs.Prelude.{◌≡◌, IfOk};
ghost use Rattle.gw_rules.specs.Rule.{ranges_of};
ghost use Rattle.gw_ask_sets.specs.regions.Tidying.{all_tidied, tidied, tidy, tidy_each};

use crate::regions::ranges::tidy;
use gw_rules::{FieldName, Fields, Ranges, Rule};
use std::alloc::{AllocError, Global};

fn tidy_at(alloc: Global, rule: &Rule, field: FieldName) -> Result<Ranges, AllocError>
    ensures { IfOk result (λ made. made ≡ tidy (ranges_of field rule.now)) }
{
    tidy(alloc, rule.ranges(field).as_slice())
}

fn tidy_ranges(alloc: Global, rule: &Rule) -> Result<Fields<Ranges>, AllocError>
    ensures { IfOk result (λ made. made ≡ tidy_each rule.now.ranges) }
{
    Fields::try_from_each(|field| tidy_at(alloc, rule, field))
}

/// The rule with the ranges of each field in order, of which none overlaps or touches another. An `Err` if there is no
/// memory.
pub fn tidied(alloc: Global, rule: &Rule) -> Result<Rule, AllocError>
    ensures { IfOk result (λ made. made ≡ tidied rule.now) }
{
    let ranges = tidy_ranges(alloc, rule)?;
    Ok(Rule {
        name: rule.name.copy(),
        allow: rule.allow,
        quiet: rule.quiet,
        ranges,
    })
}

/// All these rules so. An `Err` if there is no memory.
pub fn all_tidied(alloc: Global, rules: &[Rule]) -> Result<Vec<Rule>, AllocError>
    ensures { IfOk result (λ made. made.items ≡ all_tidied rules.now) }
{
    let mut made = Vec::new(alloc);
    for rule in rules {
        let one = tidied(alloc, rule)?;
        made.push(one)?;
    }
    Ok(made)
}
