//! A row of an index: a bit for each rule.
ghost use Rattle.std.specs.Prelude.{◌≡◌, ℕ, ◌+◌, ◌≤◌, ◌<◌, ◌&&◌, Bool, List, length, true, nat_lt, position, slice_index, bit_and, IfSome};
ghost use Rattle.std.specs.Int.{bit_at};
ghost use Rattle.std.specs.Option.{option_map};
ghost use Rattle.gw_rules.specs.declared.rule.Rule.{Rule};
ghost use Rattle.gw_rules.specs.declared.rule_list.TheConstants.{MAX_RULES};
ghost use Rattle.gw_rule_index.specs.declared.counted.TheConstants.{MAX_ANDS};
ghost use Rattle.gw_rule_index.specs.declared.row.TheConstants.{WORD_BITS};
ghost use Rattle.gw_rule_index.specs.internal.Row.{Marks, admits_in, bit, is_marked};

use crate::Counted;
use gw_rules::{FieldName, Rule, admit};
use std::simd::u64x8;

/// How many bits a word has.
const WORD_BITS: usize = 64;
/// How many words a row has: a bit for each of 512 rules.
const WORDS: usize = 8;

/// The rules that pass a test: bit `b` of word `k` is set if the rule at place `64 k + b` does.
#[derive(Clone, Copy)]
pub(crate) struct Row {
    words: [u64; WORDS],
}

impl Row {
    /// All rules that there are.
    pub(crate) fn every(rules: &[Rule]) -> Self
        requires { length rules.now ≤ MAX_RULES }
        ensures { Marks result.words (λ _. true) rules.now }
    {
        let mut words = [0; WORDS];
        for place in 0..WORDS {
            words[place] = low_bits(rules.len().saturating_sub(WORD_BITS * place));
        }
        Row { words }
    }

    /// The rules that admit the value in the field.
    pub(crate) fn admitting(rules: &[Rule], field: FieldName, value: Option<u64>) -> Self
        ensures { Marks result.words (admits_in field value) rules.now }
    {
        let mut words = [0; WORDS];
        for place in 0..WORDS {
            words[place] = word_at(rules, WORD_BITS * place, field, value);
        }
        Row { words }
    }

    /// Keeps the rules that the other row has too, and counts that.
    pub(crate) fn and(&mut self, other: &Row, counted: &mut Counted)
        requires { counted.old.ands < MAX_ANDS }
        ensures marks { (rules : List Rule) (one two : Rule → Bool) →
            Marks self.old.words one rules → Marks other.now.words two rules →
            Marks self.new.words (λ rule. one rule && two rule) rules }
        ensures comparisons { counted.new.comparisons ≡ counted.old.comparisons }
        ensures ands { counted.new.ands ≡ counted.old.ands + 1 }
    {
        counted.ands += 1;
        self.words = and_lanes(self.words, other.words);
    }

    /// The number of the first rule in the row, counted from 1.
    pub(crate) fn first(&self) -> Option<u16>
        ensures first { (rules : List Rule) (test : Rule → Bool) → length rules ≤ MAX_RULES →
            Marks self.now.words test rules →
            result ≡ option_map (λ place. place + 1) (position test rules) }
        ensures number { IfSome result (λ number. 1 ≤ number) }
    {
        for place in 0..WORDS {
            let word = self.words[place];
            if word != 0 {
                return Some((WORD_BITS * place) as u16 + lowest(word) + 1);
            }
        }
        None
    }
}

/// The bits that both rows have, as one vector.
fn and_lanes(one: [u64; WORDS], two: [u64; WORDS]) -> [u64; WORDS]
    ensures { (k : ℕ) → k < WORDS →
        slice_index result k ≡ bit_and (slice_index one k) (slice_index two k) }
{
    (u64x8::from_array(one) & u64x8::from_array(two)).to_array()
}

/// The place of the lowest bit that is set.
fn lowest(word: u64) -> u16
    requires { 0 < word }
    ensures within { result < WORD_BITS }
    ensures set { bit_at word result ≡ 1 }
    ensures clear { (b : ℕ) → b < result → bit_at word b ≡ 0 }
{
    word.trailing_zeros() as u16
}

/// The word whose lowest bits are set, so many as there are, or all.
fn low_bits(count: usize) -> u64
    ensures { (b : ℕ) → b < WORD_BITS → bit_at result b ≡ bit (nat_lt b count) }
{
    if count < WORD_BITS {
        (1 << count) - 1
    } else {
        u64::MAX
    }
}

/// The word whose bits mark the rules from a place on that admit the value in the field.
fn word_at(rules: &[Rule], from: usize, field: FieldName, value: Option<u64>) -> u64
    requires { from + WORD_BITS ≤ MAX_RULES }
    ensures { (b : ℕ) → b < WORD_BITS →
        bit_at result b ≡ bit (is_marked (admits_in field value) rules.now (from + b)) }
{
    let mut word = 0;
    for place in 0..WORD_BITS {
        if admits_at(rules, from + place, field, value) {
            word |= 1 << place;
        }
    }
    word
}

/// Whether there is a rule at the place, and it admits the value in the field.
fn admits_at(rules: &[Rule], place: usize, field: FieldName, value: Option<u64>) -> bool
    ensures { result ≡ is_marked (admits_in field value) rules.now place }
{
    match rules.get(place) {
        Some(rule) => admit(rule.ranges(field).as_slice(), value),
        None => false,
    }
}
