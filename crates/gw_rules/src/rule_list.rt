//! A policy: rules in order, of which the first that matches an ask decides.
ghost use Rattle.std.specs.Prelude.{◌≡◌, nat_le, ◌≤◌, ◌<◌, ◌↔◌, ◌&&◌, Bool, IsTrue, true, find, List, ℕ, Option, option_copied, IsFalse, IsOk, IfOk, IfSome, IsErrOf, [], false, length, position};
ghost use Rattle.std.specs.List.{list_all};
ghost use Rattle.gw_rules.specs.declared.rule.Rule.{Rule};
ghost use Rattle.gw_rules.specs.declared.rule_list.TheConstants.{MAX_RANGES_IN_ALL, MAX_RULES};
ghost use Rattle.gw_rules.specs.internal.Grouped.{SayOthers};
ghost use Rattle.gw_rules.specs.Hides.{HidesFrom, HidesFromNetwork, IsHidden, hides, may_match, may_match_some, must_match, must_match_all, reading, settles};
ghost use Rattle.gw_rules.specs.Rule.{each_field, has_few_ranges, has_long_ranges, matches};
ghost use Rattle.gw_rules.specs.RuleList.{IsNumberOf, KeepsLongCounts, KeepsOrder, allows, decide, first, is_quiet_at, is_quiet_by, keeps_counts, keeps_long_counts, keeps_order, ranges_in_all};

use crate::{Ask, Decision, FieldName, Operation, Rule, RuleFault};
use std::marker::Model;

/// How many rules a [`RuleList`] may have.
pub const MAX_RULES: usize = 512;

/// How many ranges all rules of a [`RuleList`] together may have for a field.
pub const MAX_RANGES_IN_ALL: usize = 2048;

/// A policy: at most 512 rules in order, each with at most 256 ranges for a field and all together with
/// at most 2048 for it, none of which has its low end above its high end. The first rule that matches an
/// ask decides; if none does, the ask is denied. Contracts see the list of the rules.
#[derive(Drop)]
pub struct RuleList {
    rules: Vec<Rule>,
    /// Of each rule, in order, whether it names another field than the operation and the three of an object.
    others: [bool; MAX_RULES],
}

impl Model for RuleList {
    ghost use Rattle.std.specs.Prelude.{◌&&◌, IsTrue, List};
    ghost use Rattle.gw_rules.specs.declared.rule.Rule.{Rule};
    ghost use Rattle.gw_rules.specs.RuleList.{keeps_long_counts, keeps_order};
    ghost use Rattle.gw_rules.specs.internal.Grouped.{SayOthers};

    ghost Value = { List Rule };

    ghost view = { λ a. a.rules.items };

    ghost invariant = { λ a. IsTrue (keeps_long_counts a.rules.items && keeps_order a.rules.items) × SayOthers a.others a.rules.items };
}

impl RuleList {
    /// The policy of these rules in their order. It takes no memory, so it never answers `Memory`.
    ///
    /// `TooMany` if there are more than 512 rules, or one has more than four ranges for a field; else
    /// `Range` if a range's low end is above its high end. The rules are dropped then.
    pub fn new(rules: Vec<Rule>) -> Result<Self, RuleFault>
        ensures list { IfOk result (λ list. list ≡ rules.items) }
        ensures accepted { IsOk result ↔
            IsTrue (keeps_counts rules.items && keeps_order rules.items) }
        ensures too_many { IsErrOf result RuleFault.TooMany ↔ IsFalse (keeps_counts rules.items) }
        ensures range { IsErrOf result RuleFault.Range ↔
            (IsTrue (keeps_counts rules.items) × IsFalse (keeps_order rules.items)) }
    {
        if !are_few(&rules) {
            return Err(RuleFault::TooMany);
        }
        if !are_ordered(&rules) {
            return Err(RuleFault::Range);
        }
        let others = others_of(&rules);
        Ok(RuleList { rules, others })
    }

    /// The policy of these rules in their order, with many ranges for a field. It takes no memory, so it
    /// never answers `Memory`.
    ///
    /// `TooMany` if there are more than 512 rules, or one has more than 256 ranges for a field, or all
    /// together have more than 2048 for one; else `Range` if a range's low end is above its high end. The
    /// rules are dropped then.
    pub fn new_long(rules: Vec<Rule>) -> Result<Self, RuleFault>
        ensures list { IfOk result (λ list. list ≡ rules.items) }
        ensures accepted { IsOk result ↔
            IsTrue (keeps_long_counts rules.items && keeps_order rules.items) }
        ensures too_many { IsErrOf result RuleFault.TooMany ↔
            IsFalse (keeps_long_counts rules.items) }
        ensures range { IsErrOf result RuleFault.Range ↔
            (IsTrue (keeps_long_counts rules.items) × IsFalse (keeps_order rules.items)) }
    {
        if !are_few_enough(&rules) {
            return Err(RuleFault::TooMany);
        }
        if !are_ordered(&rules) {
            return Err(RuleFault::Range);
        }
        let others = others_of(&rules);
        Ok(RuleList { rules, others })
    }

    /// The rules in order.
    pub fn rules(&self) -> &[Rule]
        ensures rules { result.now ≡ self.now }
        ensures counts { KeepsLongCounts self.now }
        ensures order { KeepsOrder self.now }
    {
        self.rules.as_slice()
    }

    /// The number of the first rule that matches the ask, counted from 1, or none.
    pub fn first(&self, ask: &Ask) -> Option<u16>
        ensures first { result ≡ first self.now ask.now }
        ensures within { IfSome result (IsNumberOf self.now) }
    {
        self.verdict(ask).0
    }

    /// Whether there is a first rule that matches the ask, and it says allow.
    pub fn allows(&self, ask: &Ask) -> bool
        ensures allows { result ≡ allows self.now ask.now }
        ensures no_rules { self.now ≡ [] → result ≡ false }
    {
        self.verdict(ask).1
    }

    /// Whether the rule of a number is quiet, if it is one's. The number is counted from 1.
    pub fn is_quiet(&self, by: Option<u16>) -> bool
        ensures { result ≡ is_quiet_by self.now by }
    {
        match by {
            Some(number) => self.is_quiet_at(number),
            None => false,
        }
    }

    fn is_quiet_at(&self, number: u16) -> bool
        ensures { result ≡ is_quiet_at self.now number }
    {
        match self.rules.get(usize::from(number).saturating_sub(1)) {
            Some(rule) => rule.quiet,
            None => false,
        }
    }

    /// Both at once, by one walk: whether the ask is allowed, and which rule denies it.
    pub fn decide(&self, ask: &Ask) -> Decision
        ensures { result ≡ decide self.now ask.now }
    {
        match self.verdict(ask) {
            (_, true) => Decision::Allow,
            (by, false) => Decision::Deny { by },
        }
    }

    /// The number of the first rule that matches the ask, and whether it says allow.
    #[inline(always)]
    #[tactic(auto, unfolding(crate::specs::RuleList::first, crate::specs::RuleList::allows))]
    pub(crate) fn verdict(&self, ask: &Ask) -> (Option<u16>, bool)
        ensures first { result.0 ≡ first self.now ask.now }
        ensures within { IfSome result.0 (IsNumberOf self.now) }
        ensures allows { result.1 ≡ allows self.now ask.now }
        ensures no_rules { self.now ≡ [] → result.1 ≡ false }
    {
        let rules = self.rules();
        match place_of(rules, &self.others, ask) {
            Some(place) => (Some(place as u16 + 1), rules[place].allow),
            None => (None, false),
        }
    }

    /// Whether the policy hides an object, of this type and instance, from a source of this network and
    /// source key, or of none, as far as the rules' fields of operation, source and object tell: each
    /// allow rule that may match there comes after a deny rule that must match there. Then no ask of
    /// that source to read the object is allowed. A false says nothing.
    pub fn hides(&self, net: u64, key: Option<u64>, kind: u64, instance: u64) -> bool
        ensures hides { IsTrue result ↔ HidesFrom self.now net key kind instance }
        ensures hidden { result ≡ true → IsHidden self.now net key kind instance }
    {
        let ask = reading(net, key, kind, instance);
        self.hides_by(&ask)
    }

    fn hides_by(&self, ask: &Ask) -> bool
        ensures { result ≡ hides (may_match ask.now) (must_match ask.now) self.now }
    {
        denies(first_settling(&self.rules, ask))
    }

    /// The same for every source of a network, whatever its key.
    pub fn hides_from_network(&self, net: u64, kind: u64, instance: u64) -> bool
        ensures hides { IsTrue result ↔ HidesFromNetwork self.now net kind instance }
        ensures hidden { result ≡ true → (key : Option ℕ) → IsHidden self.now net key kind instance }
    {
        let ask = reading(net, None, kind, instance);
        self.hides_all_by(&ask)
    }

    fn hides_all_by(&self, ask: &Ask) -> bool
        ensures { result ≡ hides (may_match_some ask.now) (must_match_all ask.now) self.now }
    {
        denies(first_settling_all(&self.rules, ask))
    }
}

/// What each ask of a source says that would read an object.
fn reading(net: u64, key: Option<u64>, kind: u64, instance: u64) -> Ask
    ensures { result ≡ reading net key kind instance }
{
    Ask {
        source_network: Some(net),
        source_key: key,
        object_type: Some(kind),
        instance: Some(instance),
        ..Ask::new(Operation::Read)
    }
}

/// The first rule that settles what such asks of a source come to, if there is one.
fn first_settling<'a>(rules: &'a [Rule], ask: &Ask) -> Option<&'a Rule>
    ensures { option_copied result ≡ find (settles (may_match ask.now) (must_match ask.now)) rules.now }
{
    rules.iter().find(|rule| rule.settles(ask))
}

/// The same for such asks of every source of the network.
fn first_settling_all<'a>(rules: &'a [Rule], ask: &Ask) -> Option<&'a Rule>
    ensures { option_copied result ≡ find (settles (may_match_some ask.now) (must_match_all ask.now)) rules.now }
{
    rules.iter().find(|rule| rule.settles_all(ask))
}

/// Whether the first rule that settles it denies, or there is none: then it is hidden.
#[tactic(auto, unfolding(crate::specs::Hides::hides))]
fn denies(rule: Option<&Rule>) -> bool
    ensures { (may : Rule → Bool) (must : Rule → Bool) (rules : List Rule) →
        option_copied rule.entry ≡ find (settles may must) rules → result ≡ hides may must rules }
{
    match rule {
        Some(rule) => !rule.allow,
        None => true,
    }
}

/// The place of the first rule that matches the ask, if one does, by what each names.
#[inline]
fn place_of(rules: &[Rule], others: &[bool; MAX_RULES], ask: &Ask) -> Option<usize>
    requires few { length rules.now ≤ MAX_RULES }
    requires others { SayOthers others.now rules.now }
    ensures place { result ≡ position (λ rule. matches rule ask.now) rules.now }
    ensures within { IfSome result (λ place. place < length rules.now) }
{
    for (place, rule) in rules.iter().enumerate() {
        if rule.matches_by(others[place], ask) {
            return Some(place);
        }
    }
    None
}

/// Of each rule, whether it names another field than the operation and the three of an object.
fn others_of(rules: &[Rule]) -> [bool; MAX_RULES]
    requires few { length rules.now ≤ MAX_RULES }
    ensures { SayOthers result rules.now }
{
    let mut others = [true; MAX_RULES];
    for (place, rule) in rules.iter().enumerate() {
        others[place] = rule.names_another();
    }
    others
}

fn are_few(rules: &[Rule]) -> bool
    ensures { result ≡ keeps_counts rules.now }
{
    rules.len() <= MAX_RULES && have_few_ranges(rules)
}

fn have_few_ranges(rules: &[Rule]) -> bool
    ensures { result ≡ list_all has_few_ranges rules.now }
{
    rules.iter().all(|rule| rule.has_few_ranges())
}

/// Whether the rules keep the counts of a list that has many ranges for a field.
#[tactic(auto, unfolding(crate::specs::RuleList::keeps_long_counts))]
fn are_few_enough(rules: &[Rule]) -> bool
    ensures { result ≡ keeps_long_counts rules.now }
{
    rules.len() <= MAX_RULES && have_long_ranges(rules) && have_few_in_all(rules)
}

fn have_long_ranges(rules: &[Rule]) -> bool
    ensures { result ≡ list_all has_long_ranges rules.now }
{
    rules.iter().all(|rule| rule.has_long_ranges())
}

fn have_few_in_all(rules: &[Rule]) -> bool
    ensures { result ≡ each_field (λ field. nat_le (ranges_in_all rules.now field) MAX_RANGES_IN_ALL) }
{
    FieldName::ALL
        .iter()
        .all(|field| have_few_for(rules, *field))
}

/// Whether the rules together have at most 2048 ranges for a field.
fn have_few_for(rules: &[Rule], field: FieldName) -> bool
    ensures { result ≡ nat_le (ranges_in_all rules.now field) MAX_RANGES_IN_ALL }
{
    let mut left = MAX_RANGES_IN_ALL;
    for rule in rules {
        match left.checked_sub(rule.ranges(field).len()) {
            Some(rest) => left = rest,
            None => return false,
        }
    }
    true
}

fn are_ordered(rules: &[Rule]) -> bool
    ensures { result ≡ keeps_order rules.now }
{
    rules.iter().all(|rule| rule.has_ordered_ranges())
}
