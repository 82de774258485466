//! How many rules are new, gone and moved.

ghost use Rattle.std.specs.Prelude.{◌≡◌, ◌++◌, ◌≤◌, length, OnOk};
ghost use Rattle.gw_notices.specs.rule_changes.Changes.{changes_of, changes_text, count_missing, count_moved, rules_after};

use crate::rule_changes::same::{is_among, same_rule};
use gw_addr::put_decimal;
use gw_rules::{Rule, RuleList};
use std::alloc::AllocError;

/// How the rules of one policy differ from those of another.
#[derive(Clone, Copy)]
pub struct Changes {
    /// How many of its rules the other one doesn't have.
    pub new: usize,
    /// How many rules of the other one it doesn't have.
    pub gone: usize,
    /// How many rules of both aren't in the other one's order. Each rule of this one is looked for among those of the
    /// other one that follow the last that was found there.
    pub moved: usize,
}

/// How the rules of a policy differ from those of an older one.
pub fn changes_of(old: &RuleList, new: &RuleList) -> Changes
    ensures { result ≡ changes_of old.now new.now }
{
    let (old, new) = (old.rules(), new.rules());
    Changes {
        new: count_missing(old, new),
        gone: count_missing(new, old),
        moved: count_moved(old, new),
    }
}

/// Appends how many rules are new, gone and moved, as `2 new, 1 gone, 1 moved`.
pub fn put_changes(changes: &Changes, out: &mut Vec<u8>) -> Result<(), AllocError>
    ensures { OnOk result (out.new.items ≡ out.old.items ++ changes_text changes.now) }
{
    put_decimal(out, changes.new)?;
    out.extend_from_slice(b" new, ")?;
    put_decimal(out, changes.gone)?;
    out.extend_from_slice(b" gone, ")?;
    put_decimal(out, changes.moved)?;
    out.extend_from_slice(b" moved")
}

/// How many of these rules aren't among the others.
fn count_missing(others: &[Rule], rules: &[Rule]) -> usize
    ensures { result ≡ count_missing others.now rules.now }
{
    rules.iter().filter(|rule| !is_among(others, rule)).count()
}

/// The rules after the first that is this one.
#[tactic(auto, unfolding(crate::specs::rule_changes::Changes::rules_after))]
fn rules_after<'a>(rule: &Rule, rules: &'a [Rule]) -> &'a [Rule]
    ensures { result.now ≡ rules_after rule.now rules.now }
{
    for place in 0..rules.len() {
        if same_rule(rule, &rules[place]) {
            return &rules[place + 1..];
        }
    }
    &rules[rules.len()..]
}

/// How many of the new rules are among the old ones, and not in their place.
#[tactic(auto, unfolding(crate::specs::rule_changes::Changes::count_moved))]
fn count_moved(old: &[Rule], new: &[Rule]) -> usize
    ensures { result ≡ count_moved old.now old.now new.now }
{
    let mut rest = old;
    let mut count = 0;
    for place in 0..new.len() {
        let rule = &new[place];
        if is_among(rest, rule) {
            rest = rules_after(rule, rest);
        } else if is_among(old, rule) {
            count += 1;
        }
    }
    count
}
