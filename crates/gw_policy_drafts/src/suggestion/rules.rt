//! The rules that are suggested, each with a name.
ghost use Rattle.std.specs.Prelude.{◌≡◌, true, ◌&&◌, ◌||◌, IfOk, OnOk};
ghost use Rattle.std.specs.List.{list_all};
ghost use Rattle.gw_rules.specs.Ask.{Ask as SpecAsk};
ghost use Rattle.gw_policy_drafts.specs.suggestion.Own.{covered, covers};
ghost use Rattle.gw_policy_drafts.specs.suggestion.Suggestion.{matched};

use crate::suggestion::fault::SuggestFault;
use crate::suggestion::group::Group;
use gw_ask_sets::regions::copy_fields;
use gw_rules::{Rule, RuleName};
use itoa::Buffer;
use std::alloc::{AllocError, Global};

/// What the name of a rule that is suggested begins with. Its number follows.
const NAME: &str = "suggested-";

/// The name of a number.
fn name_of(alloc: Global, number: usize) -> Result<RuleName, SuggestFault> {
    let mut text = String::new(alloc);
    text.push_str(NAME)?;
    text.push_str(Buffer::new().format(number))?;
    match RuleName::new(text.as_str()) {
        Ok(name) => Ok(name),
        Err(_) => Err(SuggestFault::Unlike),
    }
}

/// The number in the name of a rule that was suggested before; of another one 0.
fn number_in(name: &str) -> usize {
    match name.strip_prefix(NAME) {
        Some(digits) => digits.parse::<usize>().unwrap_or(0),
        None => 0,
    }
}

/// The greatest number in the names of rules that were suggested before.
fn last_number(rules: &[Rule]) -> usize {
    let mut last = 0;
    for rule in rules {
        let number = number_in(rule.name.as_str());
        if last < number {
            last = number;
        }
    }
    last
}

/// The rule of a number that allows what these ranges cover.
fn rule_of(alloc: Global, number: usize, group: &Group) -> Result<Rule, SuggestFault>
    ensures ranges { IfOk result (λ rule. rule.ranges ≡ group.now) }
    ensures allow { IfOk result (λ rule. rule.allow ≡ true) }
{
    let name = name_of(alloc, number)?;
    let ranges = copy_fields(alloc, group)?;
    Ok(Rule {
        name,
        allow: true,
        quiet: false,
        ranges,
    })
}

/// Puts a rule after the others.
fn push_rule(
    alloc: Global,
    rules: &mut Vec<Rule>,
    number: usize,
    group: &Group,
) -> Result<(), SuggestFault>
    ensures matching { OnOk result ((ask : SpecAsk) →
        matched rules.new.items ask ≡ (matched rules.old.items ask || covers group.now ask)) }
    ensures allow { OnOk result (list_all (λ rule. rule.allow) rules.old.items ≡ true →
        list_all (λ rule. rule.allow) rules.new.items ≡ true) }
{
    let rule = rule_of(alloc, number, group)?;
    rules.push(rule)?;
    Ok(())
}

/// The rules that allow what these ranges cover, one each. Their numbers follow those of rules that were
/// suggested before.
pub(crate) fn rules_of(
    alloc: Global,
    groups: &[Group],
    old: &[Rule],
) -> Result<Vec<Rule>, SuggestFault>
    ensures matching { IfOk result (λ rules. (ask : SpecAsk) → matched rules.items ask ≡ covered groups.now ask) }
    ensures allow { IfOk result (λ rules. list_all (λ rule. rule.allow) rules.items ≡ true) }
{
    let last = last_number(old);
    let mut rules = Vec::new(alloc);
    for place in 0..groups.len() {
        let number = last.saturating_add(place).saturating_add(1);
        push_rule(alloc, &mut rules, number, &groups[place])?;
    }
    Ok(rules)
}
