//! The index of a whole rule list, as a judge.
ghost use Rattle.std.specs.Prelude.{◌≡◌, ◌*◌, ◌≤◌, List, IfOk, IfSome, false, filter, length, map, true};
ghost use Rattle.std.specs.List.{sum_by};
ghost use Rattle.std.specs.Option.{option_map_or};
ghost use Rattle.gw_rules.specs.Rule.{matches};
ghost use Rattle.gw_rules.specs.Fields.{value_of};
ghost use Rattle.gw_rules.specs.RuleList.{KeepsLongCounts, allows, allows_at, decide, first, is_quiet_at};
ghost use Rattle.gw_rules.specs.declared.field.FieldName.{FieldName};
ghost use Rattle.gw_rules.specs.declared.rule.Rule.{Rule};
ghost use Rattle.gw_rule_index.specs.declared.counted.TheConstants.{COMPARISONS_A_FIELD, MAX_ANDS, MAX_COMPARISONS};
ghost use Rattle.gw_rule_index.specs.Comparisons.{least_comparisons_of, most_comparisons_in, most_comparisons_of, most_named_comparisons_of, named_fields, one_comparison};
ghost use Rattle.gw_rule_index.specs.internal.Field.{IsIndexOf, has_bounds};
ghost use Rattle.gw_rule_index.specs.internal.Index.{IsBuiltFrom};
ghost use Rattle.gw_rule_index.specs.internal.Row.{Marks, admits_all};

use crate::Counted;
use crate::field_index::FieldIndex;
use crate::field_indexes::FieldIndexes;
use crate::row::Row;
use gw_rules::{Ask, Decision, FieldName, Fields, Judge, Rule, RuleList};
use std::alloc::{AllocError, Global};

/// The rules of a list, compiled: for each field the elementary ranges of its values, and for each
/// of these the rules that admit it, a bit a rule. It answers as the list does that it was built
/// from, and doesn't keep that list.
///
/// An ask costs at most 13 comparisons for each field that it has and some rule names, and an AND of
/// 512 bits for each field that some rule names.
pub struct RuleIndex {
    fields: FieldIndexes,
    every: Row,
    verdicts: Vec<bool>,
    quiets: Vec<bool>,
}

// By hand: a derived one is proved part by part wherever one is dropped (docs/GATE.md).
impl Drop for RuleIndex {
    fn drop(self) {
        let RuleIndex {
            fields: _,
            every: _,
            verdicts: _,
            quiets: _,
        } = self;
    }
}

impl RuleIndex {
    /// The index of these rules. `AllocError` if there is no memory for it: up to 3.5 MiB, since
    /// each of the twelve fields may have 4096 bounds of 8 octets and 4097 rows of 64.
    pub fn build(alloc: Global, rules: &RuleList) -> Result<Self, AllocError>
        ensures { IfOk result (λ index. IsBuiltFrom index rules.now) }
    {
        let rules = rules.rules();
        Ok(RuleIndex {
            fields: indexes_of(alloc, rules)?,
            every: Row::every(rules),
            verdicts: verdicts_of(alloc, rules)?,
            quiets: quiets_of(alloc, rules)?,
        })
    }

    /// The number of the first rule that matches the ask, counted from 1, or none.
    pub fn first(&self, ask: &Ask) -> Option<u16>
        ensures first { (rules : List Rule) → IsBuiltFrom self.now rules →
            result ≡ first rules ask.now }
        ensures number { IfSome result (λ number. 1 ≤ number) }
    {
        self.first_counted(ask).rule
    }

    /// The same, and how much work it took: comparisons of a value of the ask with a bound, and
    /// ANDs of rows of 512 bits.
    pub fn first_counted(&self, ask: &Ask) -> Counted
        ensures first { (rules : List Rule) → IsBuiltFrom self.now rules →
            result.rule ≡ first rules ask.now }
        ensures number { IfSome result.rule (λ number. 1 ≤ number) }
        ensures each_field { result.comparisons ≤ most_comparisons_of ask.now }
        ensures comparisons { result.comparisons ≤ MAX_COMPARISONS }
        ensures named { (rules : List Rule) → IsBuiltFrom self.now rules →
            result.comparisons ≤ most_named_comparisons_of rules ask.now }
        // Each field that the ask has and a rule names takes a comparison.
        ensures least { (rules : List Rule) → IsBuiltFrom self.now rules →
            least_comparisons_of rules ask.now ≤ result.comparisons }
        ensures ands { result.ands ≤ MAX_ANDS }
        // Each field that a rule names takes an AND, and no other does.
        ensures joins { (rules : List Rule) → IsBuiltFrom self.now rules →
            result.ands ≡ named_fields rules }
    {
        let mut counted = Counted::start();
        let row = self.matching(ask, &mut counted);
        Counted {
            rule: row.first(),
            ..counted
        }
    }

    /// The row of the rules that match the ask.
    fn matching(&self, ask: &Ask, counted: &mut Counted) -> Row
        requires comparisons { counted.old.comparisons ≡ 0 }
        requires ands { counted.old.ands ≡ 0 }
        ensures row { (rules : List Rule) → IsBuiltFrom self.now rules →
            Marks result.words (λ rule. matches rule ask.now) rules }
        ensures each_field { counted.new.comparisons ≤ most_comparisons_of ask.now }
        ensures comparisons { counted.new.comparisons ≤ MAX_COMPARISONS }
        ensures named { (rules : List Rule) → IsBuiltFrom self.now rules →
            counted.new.comparisons ≤ most_named_comparisons_of rules ask.now }
        ensures least { (rules : List Rule) → IsBuiltFrom self.now rules →
            least_comparisons_of rules ask.now ≤ counted.new.comparisons }
        ensures ands { counted.new.ands ≤ MAX_ANDS }
        ensures joins { (rules : List Rule) → IsBuiltFrom self.now rules →
            counted.new.ands ≡ named_fields rules }
    {
        let mut row = self.every;
        self.keep_named(ask, &mut row, counted);
        row
    }

    /// Keeps the rules that admit what the ask has in each field that some rule names.
    fn keep_named(&self, ask: &Ask, row: &mut Row, counted: &mut Counted)
        requires comparisons { counted.old.comparisons ≡ 0 }
        requires ands { counted.old.ands ≡ 0 }
        ensures row { (rules : List Rule) → IsBuiltFrom self.now rules →
            Marks row.old.words (λ _. true) rules →
            Marks row.new.words (admits_all ask.now self.now.fields.named.items) rules }
        ensures each_field { counted.new.comparisons
            ≤ most_comparisons_in ask.now self.now.fields.named.items }
        ensures comparisons { counted.new.comparisons
            ≤ COMPARISONS_A_FIELD * length self.now.fields.named.items }
        ensures least { sum_by (λ field. one_comparison (value_of field ask.now))
            self.now.fields.named.items ≤ counted.new.comparisons }
        ensures ands { counted.new.ands ≡ length self.now.fields.named.items }
    {
        for field in &self.fields.named {
            let index = self.fields.each.get(*field);
            let value = *ask.get(*field);
            index.keep(value, row, counted);
        }
    }

    /// Whether there is a first rule, and it says allow.
    fn allows_first(&self, first: Option<u16>) -> bool
        requires { IfSome first (λ number. 1 ≤ number) }
        ensures { (rules : List Rule) → IsBuiltFrom self.now rules →
            result ≡ option_map_or (allows_at rules) first false }
    {
        match first {
            Some(number) => self.allows_rule(number),
            None => false,
        }
    }

    /// Whether the rule of a number says allow.
    fn allows_rule(&self, number: u16) -> bool
        requires { 1 ≤ number }
        ensures { (rules : List Rule) → IsBuiltFrom self.now rules →
            result ≡ allows_at rules number }
    {
        match self.verdicts.get(usize::from(number) - 1) {
            Some(verdict) => *verdict,
            None => false,
        }
    }

    /// Whether the rule of a number is quiet.
    fn is_quiet_rule(&self, number: u16) -> bool
        ensures { (rules : List Rule) → IsBuiltFrom self.now rules →
            result ≡ is_quiet_at rules number }
    {
        match self.quiets.get(usize::from(number).saturating_sub(1)) {
            Some(quiet) => *quiet,
            None => false,
        }
    }
}

impl Judge for RuleIndex {
    ghost StandsFor = { λ index rules. IsBuiltFrom index rules };

    fn first(&self, ask: &Ask) -> Option<u16> {
        RuleIndex::first(self, ask)
    }

    fn allows(&self, ask: &Ask) -> bool {
        self.allows_first(RuleIndex::first(self, ask))
    }

    fn is_quiet(&self, by: Option<u16>) -> bool {
        match by {
            Some(number) => self.is_quiet_rule(number),
            None => false,
        }
    }

    fn verdict(&self, ask: &Ask) -> (Option<u16>, bool) {
        let by = RuleIndex::first(self, ask);
        (by, self.allows_first(by))
    }

    fn decide(&self, ask: &Ask) -> Decision {
        let by = RuleIndex::first(self, ask);
        if self.allows_first(by) {
            Decision::Allow
        } else {
            Decision::Deny { by }
        }
    }
}

/// The index of each field, and the fields that some rule names.
fn indexes_of(alloc: Global, rules: &[Rule]) -> Result<FieldIndexes, AllocError>
    requires { KeepsLongCounts rules.now }
    ensures { IfOk result (λ fields. (field : FieldName) →
        IsIndexOf rules.now field (value_of field fields.each)) }
{
    let each = index_fields(alloc, rules)?;
    let named = named_of(alloc, &each)?;
    Ok(FieldIndexes { each, named })
}

/// The fields that have a bound, in the order of their numbers.
fn named_of(alloc: Global, fields: &Fields<FieldIndex>) -> Result<Vec<FieldName>, AllocError>
    ensures { IfOk result (λ named.
        named.items ≡ filter (λ field. has_bounds (value_of field fields.now)) FieldName.ALL) }
{
    FieldName::ALL
        .iter()
        .copied()
        .filter(|field| fields.get(*field).has_bounds())
        .collect(alloc)
}

/// The index of each field.
fn index_fields(alloc: Global, rules: &[Rule]) -> Result<Fields<FieldIndex>, AllocError>
    requires { KeepsLongCounts rules.now }
    ensures { IfOk result (λ fields. (field : FieldName) →
        IsIndexOf rules.now field (value_of field fields)) }
{
    Fields::try_from_each(|field| FieldIndex::build(alloc, rules, field))
}

/// Whether each rule says allow, in order.
fn verdicts_of(alloc: Global, rules: &[Rule]) -> Result<Vec<bool>, AllocError>
    ensures { IfOk result (λ verdicts. verdicts.items ≡ map (λ rule. rule.allow) rules.now) }
{
    let mut verdicts = Vec::new(alloc);
    for rule in rules {
        verdicts.push(rule.allow)?;
    }
    Ok(verdicts)
}

/// Whether each rule is quiet, in order.
fn quiets_of(alloc: Global, rules: &[Rule]) -> Result<Vec<bool>, AllocError>
    ensures { IfOk result (λ quiets. quiets.items ≡ map (λ rule. rule.quiet) rules.now) }
{
    let mut quiets = Vec::new(alloc);
    for rule in rules {
        quiets.push(rule.quiet)?;
    }
    Ok(quiets)
}
