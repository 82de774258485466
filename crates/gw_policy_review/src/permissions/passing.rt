//! What a policy allows of the asks of some shapes.
ghost use Rattle.std.specs.Prelude.{◌≡◌, ◌-◌, ◌≤◌, length, take, IfOk};
ghost use Rattle.std.specs.List.{list_any};
ghost use Rattle.gw_ask_sets.specs.shapes.Meeting.{meets};
ghost use Rattle.gw_rules.specs.RuleList.{allows_at};
ghost use Rattle.gw_policy_review.specs.permissions.Passing.{IsDecision, IsPassage, IsSaidBy, decides_all, is_never, is_said};
ghost use Rattle.gw_policy_review.specs.permissions.Passing.{matches_all, searched_rules};

use crate::lint::steps_given;
use gw_ask_sets::numbered::item_at;
use gw_ask_sets::regions::{all_tidied, default_rule};
use gw_ask_sets::shapes::{Outcome, Shape, Sought, meets, search_for, takes_side};
use gw_rules::{FieldName, Rule, RuleList};
use std::alloc::{AllocError, Global};

/// Whether the rule matches each ask of the shape: in each field that it names one of its ranges holds
/// all that the shape has there.
fn matches_all(shape: &Shape, rule: &Rule) -> bool
    ensures { result ≡ matches_all shape.now rule.now }
{
    FieldName::ALL.iter().all(|field| takes_side(
        shape.get(*field),
        rule.ranges(*field).as_slice(),
        &[],
    ))
}

fn any_meets(shape: &Shape, rules: &[Rule]) -> bool
    ensures { result ≡ list_any (meets shape.now) rules.now }
{
    rules.iter().any(|rule| meets(shape, rule))
}

/// Whether the rule of this number, from 1, matches each ask of the shape, and no rule before it matches
/// any.
pub(crate) fn decides_all(shape: &Shape, rules: &[Rule], number: usize, rule: &Rule) -> bool
    requires { number ≤ length rules.now }
    ensures { result ≡ decides_all shape.now rules.now number rule.now }
{
    let before = number.saturating_sub(1);
    matches_all(shape, rule) && !any_meets(shape, &rules[..before])
}

/// The rules as they are searched: their ranges are in order, and the default is behind them.
fn searched_rules(alloc: Global, rules: &[Rule]) -> Result<Vec<Rule>, AllocError>
    ensures { IfOk result (λ made. made.items ≡ searched_rules rules.now) }
{
    let mut made = all_tidied(alloc, rules)?;
    made.push(default_rule(alloc))?;
    Ok(made)
}

/// Whether the rule of this number, from 1, is there and allows.
pub(crate) fn allows_at(rules: &[Rule], number: u16) -> bool
    ensures { result ≡ allows_at rules.now number }
{
    match item_at(rules, Some(number)) {
        Some(rule) => rule.allow,
        None => false,
    }
}

/// Whether it says so: it allows, or it denies.
fn is_said(rules: &[Rule], number: u16, says: bool) -> bool
    ensures { result ≡ is_said rules.now number says }
{
    let allows = allows_at(rules, number);
    if says { allows } else { !allows }
}

/// What is looked for: an ask of these shapes that these rules decide so.
#[derive(Clone, Copy)]
struct Quest<'a> {
    /// The rules.
    rules: &'a [Rule],
    /// The shapes.
    shapes: &'a [Shape],
    /// Whether one that is allowed is looked for, or one that is denied.
    says: bool,
}

/// Searches for one that the rule of this number decides, in at most so many steps.
fn search_rule(
    alloc: Global,
    quest: &Quest<'_>,
    number: u16,
    steps: u32,
) -> Result<Sought, AllocError>
    ensures said { IfOk result (λ s. IsSaidBy quest.now.says quest.now.shapes.now quest.now.rules.now number steps s.steps s.outcome) }
    ensures most { IfOk result (λ s. s.steps ≤ steps) }
{
    if !is_said(quest.rules, number, quest.says) {
        return Ok(Sought {
            outcome: Outcome::Never,
            steps: 0,
        });
    }
    let found = search_for(alloc, quest.rules, number, quest.shapes, steps)?;
    Ok(found)
}

/// Whether a search found that each ask is decided otherwise.
pub(crate) fn is_never(found: &Outcome) -> bool
    ensures { result ≡ is_never found.now }
{
    matches!(found, Outcome::Never)
}

/// Searches for an ask of these shapes that a policy allows, or for one that it denies: `Decides` with one, `Never` if it decides each
/// otherwise, `Unknown` only if all steps were used. So many steps are shared by the searches for an ask that one of its rules decides.
/// Says how many were made. An `Err` only if a growth of memory was refused.
pub fn search_decided(
    alloc: Global,
    policy: &RuleList,
    shapes: &[Shape],
    says: bool,
    steps: u32,
) -> Result<Sought, AllocError>
    ensures { IfOk result (λ s. IsDecision says shapes.now policy.now steps s.steps s.outcome) }
{
    let rules = policy.rules();
    let searched = searched_rules(alloc, rules)?;
    let quest = Quest {
        rules: &searched,
        shapes,
        says,
    };
    let mut used = 0;
    for place in 0..rules.len() + 1 {
        let found = search_rule(alloc, &quest, place as u16 + 1, steps - used)?;
        used += found.steps;
        if !is_never(&found.outcome) {
            return Ok(Sought {
                outcome: found.outcome,
                steps: used,
            });
        }
    }
    Ok(Sought {
        outcome: Outcome::Never,
        steps: used,
    })
}

/// What a search for an ask that a policy allows comes to, and how many steps are left for other searches.
#[derive(Clone, Copy)]
pub(crate) struct Passage {
    /// What it comes to.
    pub(crate) outcome: Outcome,
    /// The steps.
    pub(crate) left: u32,
}

/// Searches for an ask of these shapes that a policy allows, of which a line or a note speaks, where so many steps are
/// left for all such searches: it is given [`MAX_STEPS`](crate::lint::MAX_STEPS), or these. An `Err` only if a growth of
/// memory was refused.
pub(crate) fn search_allowed(
    alloc: Global,
    policy: &RuleList,
    shapes: &[Shape],
    left: u32,
) -> Result<Passage, AllocError>
    ensures { IfOk result (λ passage. IsPassage shapes.now policy.now left passage.left passage.outcome) }
{
    let found = search_decided(alloc, policy, shapes, true, steps_given(left))?;
    Ok(Passage {
        outcome: found.outcome,
        left: left - found.steps,
    })
}
