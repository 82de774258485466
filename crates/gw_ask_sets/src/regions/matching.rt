//! What rules match of regions.
ghost use Rattle.std.specs.Prelude.{◌≡◌, ◌&&◌, ◌||◌, IfOk, OnOk};
ghost use Rattle.gw_rules.specs.Ask.{Ask as SpecAsk};
ghost use Rattle.gw_rules.specs.Rule.{matches};
ghost use Rattle.gw_ask_sets.specs.regions.Regions.{lies, lies_in_one};

use crate::regions::coverage::meets_each;
use crate::regions::region::{Region, copy_region, region_within};
use gw_rules::Rule;
use std::alloc::{AllocError, Global};

/// Puts what the rule matches of a region after those that are there.
fn push_matched(
    alloc: Global,
    out: &mut Vec<Region>,
    rule: &Rule,
    region: &Region,
) -> Result<(), AllocError>
    ensures { OnOk result ((ask : SpecAsk) → lies_in_one out.new.items ask
        ≡ (lies_in_one out.old.items ask || (lies region.now ask && matches rule.now ask))) }
{
    if !meets_each(rule, region) {
        return Ok(());
    }
    let made = region_within(alloc, rule, region)?;
    out.push(made)?;
    Ok(())
}

/// What the rule matches of the regions.
pub(crate) fn matched(
    alloc: Global,
    regions: &[Region],
    rule: &Rule,
) -> Result<Vec<Region>, AllocError>
    ensures { IfOk result (λ made. (ask : SpecAsk) →
        lies_in_one made.items ask ≡ (lies_in_one regions.now ask && matches rule.now ask)) }
{
    let mut out = Vec::new(alloc);
    for region in regions {
        push_matched(alloc, &mut out, rule, region)?;
    }
    Ok(out)
}

/// These regions once more.
pub(crate) fn copies(alloc: Global, regions: &[Region]) -> Result<Vec<Region>, AllocError>
    ensures { IfOk result (λ made. made.items ≡ regions.now) }
{
    let mut made = Vec::new(alloc);
    for region in regions {
        let one = copy_region(alloc, region)?;
        made.push(one)?;
    }
    Ok(made)
}
