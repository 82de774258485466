//! The search for an ask of some regions that rules decide in one way: rule by rule, in order.
ghost use Rattle.std.specs.Prelude.{◌≡◌, ◌++◌, ◌∷◌, [], List, true, false, not, IfOk, Ok};
ghost use Rattle.gw_rules.specs.Ask.{Ask as SpecAsk};
ghost use Rattle.gw_rules.specs.Rule.{matches};
ghost use Rattle.gw_rules.specs.RuleList.{allows};
ghost use Rattle.gw_rules.specs.declared.rule.Rule.{Rule as SpecRule};
ghost use Rattle.gw_ask_sets.specs.assertions.internal.Passing.{IsPassed, IsReached, IsVain};
ghost use Rattle.gw_ask_sets.specs.regions.Regions.{lies_in_one};

use crate::regions::coverage::meets_each;
use crate::regions::matching::matched;
use crate::regions::pairs::is_unlike;
use crate::regions::tidying::tidied;
use crate::regions::{Region, Unmatched, search_unmatched};
use gw_rules::Rule;
use std::alloc::{AllocError, Global};

/// What is looked for: an ask of these regions that rules decide so, each search in at most so many steps.
#[derive(Clone, Copy)]
struct Quest<'a> {
    /// The asks.
    regions: &'a [Region],
    /// Whether one that is allowed is looked for, or one that is denied.
    says: bool,
    /// The steps.
    steps: u32,
}

/// Whether the rule may match an ask of the regions.
fn may_match(regions: &[Region], rule: &Rule) -> bool
    ensures { result ≡ false → (ask : SpecAsk) → lies_in_one regions.now ask ≡ true → matches rule.now ask ≡ false }
{
    for region in regions {
        if meets_each(rule, region) {
            return true;
        }
    }
    false
}

/// Looks at the rule behind those that were passed, of which those that say the other thing are kept: whether it is
/// the first to say what is looked for.
fn take_rule(
    alloc: Global,
    opposed: &mut Vec<Rule>,
    rule: &Rule,
    quest: &Quest<'_>,
) -> Result<Unmatched, AllocError>
    ensures nothing { result ≡ Ok Unmatched.Nothing → (passed : List SpecRule) →
        IsPassed quest.now.says quest.now.regions.now opposed.old.items passed →
        IsPassed quest.now.says quest.now.regions.now opposed.new.items (passed ++ rule.now ∷ []) }
    ensures found { (ask : SpecAsk) → result ≡ Ok (Unmatched.Found ask) → (passed : List SpecRule) →
        IsPassed quest.now.says quest.now.regions.now opposed.old.items passed →
        IsReached quest.now.says quest.now.regions.now passed rule.now ask }
    ensures unknown { result ≡ Ok Unmatched.Unknown → (passed : List SpecRule) →
        IsPassed quest.now.says quest.now.regions.now opposed.old.items passed →
        IsVain quest.now.regions.now passed quest.now.steps }
{
    if !may_match(quest.regions, rule) {
        return Ok(Unmatched::Nothing);
    }
    let tidy = tidied(alloc, rule)?;
    if is_unlike(tidy.allow, quest.says) {
        opposed.push(tidy)?;
        return Ok(Unmatched::Nothing);
    }
    let regions = matched(alloc, quest.regions, &tidy)?;
    search_unmatched(alloc, opposed, regions, quest.steps)
}

/// Looks, behind all rules, for an ask that none of them matches, if one that is denied is looked for.
fn take_default(
    alloc: Global,
    opposed: &[Rule],
    regions: Vec<Region>,
    says: bool,
    steps: u32,
) -> Result<Unmatched, AllocError>
    ensures nothing { result ≡ Ok Unmatched.Nothing → (passed : List SpecRule) →
        IsPassed says regions.items opposed.now passed → (ask : SpecAsk) →
        lies_in_one regions.items ask ≡ true → allows passed ask ≡ not says }
    ensures there { (ask : SpecAsk) → result ≡ Ok (Unmatched.Found ask) → lies_in_one regions.items ask ≡ true }
    ensures decided { (ask : SpecAsk) → result ≡ Ok (Unmatched.Found ask) → (passed : List SpecRule) →
        IsPassed says regions.items opposed.now passed → allows passed ask ≡ says }
    ensures unknown { result ≡ Ok Unmatched.Unknown → (passed : List SpecRule) →
        IsPassed says regions.items opposed.now passed → IsVain regions.items passed steps }
{
    if says {
        return Ok(Unmatched::Nothing);
    }
    search_unmatched(alloc, opposed, regions, steps)
}

/// Searches for an ask of the regions that the rules decide so: `Found` with one, `Nothing` if they decide each
/// otherwise, `Unknown` only if a search used up its steps. An `Err` if there is no memory.
pub(crate) fn search_decided(
    alloc: Global,
    rules: &[Rule],
    regions: Vec<Region>,
    says: bool,
    steps: u32,
) -> Result<Unmatched, AllocError>
    ensures nothing { result ≡ Ok Unmatched.Nothing → (ask : SpecAsk) →
        lies_in_one regions.items ask ≡ true → allows rules.now ask ≡ not says }
    ensures there { (ask : SpecAsk) → result ≡ Ok (Unmatched.Found ask) → lies_in_one regions.items ask ≡ true }
    ensures decided { (ask : SpecAsk) → result ≡ Ok (Unmatched.Found ask) → allows rules.now ask ≡ says }
    ensures unknown { result ≡ Ok Unmatched.Unknown → IsVain regions.items rules.now steps }
{
    let mut opposed = Vec::new(alloc);
    for rule in rules {
        let quest = Quest {
            regions: &regions,
            says,
            steps,
        };
        let found = take_rule(alloc, &mut opposed, rule, &quest)?;
        match found {
            Unmatched::Nothing => {}
            Unmatched::Found(ask) => return Ok(Unmatched::Found(ask)),
            Unmatched::Unknown => return Ok(Unmatched::Unknown),
        }
    }
    take_default(alloc, &opposed, regions, says, steps)
}
