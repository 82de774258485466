//! A comparison that goes on in portions.
ghost use Rattle.std.specs.Prelude.{◌≡◌, ◌≤◌, ◌<◌, ◌+◌, [], length, true, IfOk, OnErr, OnOk};
ghost use Rattle.gw_addr.specs.Appending.{IsAppended, IsAppendedWhole};
ghost use Rattle.gw_policy_review.specs.comparison.Comparing.{IsUnderWay, is_finished, most_steps, steps_for, steps_text};
ghost use Rattle.gw_policy_review.specs.comparison.Comparison.{AppendsComparison, AppendsCounted, AreResults, manner_of};
ghost use Rattle.gw_policy_review.specs.comparison.PairLines.{known_of};

use crate::comparison::asks::asks_of;
use crate::comparison::comparison::{
    Compared, Printing, Results, comparison_of, put_whole, summary_if,
};
use crate::comparison::pairs::{have_lines, pairs_if};
use gw_addr::{keep_whole, put_decimal, put_slice};
use gw_ask_sets::regions::{Comparison, Policies, Region, all_tidied};
use gw_configuration::Config;
use gw_rules::Rule;
use std::alloc::{AllocError, Global};
use std::marker::Model;

/// How many steps a comparison makes of two lists without rules.
const FIRST_STEPS: u32 = 4_096;

/// How many it makes for each rule.
const RULE_STEPS: u32 = 60;

/// For how many rules of a list it does.
const COUNTED_RULES: usize = 512;

/// How many steps a comparison makes of two lists of so many rules, at most 65,536.
fn most_steps(old: usize, new: usize) -> u32
    ensures is { result ≡ most_steps old new }
    ensures most { result ≤ 65536 }
{
    let rules = COUNTED_RULES.min(old) + COUNTED_RULES.min(new);
    FIRST_STEPS + RULE_STEPS * rules as u32
}

/// A comparison of the rules of two configurations, over all asks that a gateway of either may raise. It goes on in
/// portions, so that a caller can report between them how far it is.
///
/// Contracts see the two, what is found and left, and how many steps were used.
pub struct Comparing<'a> {
    before: &'a Config,
    after: &'a Config,
    old_rules: Vec<Rule>,
    new_rules: Vec<Rule>,
    asks: Vec<Region>,
    comparison: Comparison,
}

// By hand: a derived one is proved part by part wherever one is dropped (docs/GATE.md).
impl<'a> Drop for Comparing<'a> {
    fn drop(self) {
        let Comparing {
            before: _,
            after: _,
            old_rules: _,
            new_rules: _,
            asks: _,
            comparison: _,
        } = self;
    }
}

impl<'a> Model for Comparing<'a> {
    ghost use Rattle.std.specs.Prelude.{◌≡◌};
    ghost use Rattle.gw_ask_sets.specs.regions.Tidying.{all_tidied};
    ghost use Rattle.gw_policy_review.specs.comparison.Asks.{asks_of};
    ghost use Rattle.gw_policy_review.specs.comparison.Comparing.{Progress};

    ghost Value = { Progress };

    ghost view = { λ c. record {
      old_one = c.before.now;
      new_one = c.after.now;
      found = c.comparison.found.items;
      left = c.comparison.left.items;
      steps = c.comparison.steps;
    } };

    ghost invariant = { λ c. (c.asks.items ≡ asks_of c.before.now c.after.now)
        × (c.old_rules.items ≡ all_tidied c.before.now.rules)
        × (c.new_rules.items ≡ all_tidied c.after.now.rules) };
}

impl<'a> Comparing<'a> {
    /// The beginning of a comparison: no step is used, and nothing is found. An `Err` if there is no memory.
    pub fn new(alloc: Global, old: &'a Config, new: &'a Config) -> Result<Self, AllocError>
        ensures old { IfOk result (λ c. c.old_one ≡ old.now) }
        ensures new { IfOk result (λ c. c.new_one ≡ new.now) }
        ensures is_right { IfOk result (λ c. IsUnderWay c) }
        ensures found { IfOk result (λ c. c.found ≡ []) }
        ensures steps { IfOk result (λ c. c.steps ≡ 0) }
    {
        let asks = asks_of(alloc, old, new)?;
        let comparison = Comparison::begin(alloc, &asks)?;
        let old_rules = all_tidied(alloc, old.rules().rules())?;
        let new_rules = all_tidied(alloc, new.rules().rules())?;
        Ok(Comparing {
            before: old,
            after: new,
            old_rules,
            new_rules,
            asks,
            comparison,
        })
    }

    /// How many steps it makes in all: 4,096, and 60 for each rule of the two, up to 512 of a list.
    fn most_steps(&self) -> u32
        ensures is { result ≡ steps_for self.now.old_one self.now.new_one }
        ensures most { result ≤ 65536 }
    {
        most_steps(
            self.before.rules().rules().len(),
            self.after.rules().rules().len(),
        )
    }

    /// Goes on by at most so many steps: by fewer only if it is finished then. It uses at most 65,536 steps in all, and
    /// fewer of short lists. An `Err` if there is no memory: what was found may be lost then.
    pub fn go_on(&mut self, alloc: Global, steps: u32) -> Result<(), AllocError>
        ensures old { self.new.old_one ≡ self.old.old_one }
        ensures new { self.new.new_one ≡ self.old.new_one }
        ensures is_right { OnOk result (IsUnderWay self.old → IsUnderWay self.new) }
        ensures least { OnOk result (self.old.steps ≤ self.new.steps) }
        ensures most { OnOk result (self.new.steps ≤ self.old.steps + steps) }
        ensures limit { OnOk result (self.old.steps ≤ 65536 → self.new.steps ≤ 65536) }
        ensures finished { OnOk result (self.new.steps < self.old.steps + steps → is_finished self.new ≡ true) }
    {
        let rest = self.most_steps().saturating_sub(self.comparison.steps);
        let portion = if steps < rest { steps } else { rest };
        let policies = Policies {
            old: &self.old_rules,
            new: &self.new_rules,
            shapes: &self.asks,
        };
        self.comparison.go_on(alloc, &policies, portion)
    }

    /// Whether nothing is left, or all steps are used that are made of two lists of so many rules.
    pub fn is_finished(&self) -> bool
        ensures { result ≡ is_finished self.now }
    {
        self.comparison.left.is_empty() || self.most_steps() <= self.comparison.steps
    }

    /// How many steps were used.
    pub fn steps(&self) -> u32
        ensures { result ≡ self.now.steps }
    {
        self.comparison.steps
    }

    /// How many regions are found so far. The text has fewer lines: there they are few and wide.
    pub fn found(&self) -> usize
        ensures { result ≡ length self.now.found }
    {
        self.comparison.found.len()
    }

    /// Appends in which parts the two differ, and what is found so far that they decide otherwise, over all asks that a gateway of
    /// either may raise: lines for each part that isn't the same; a line for each kind of asks, what is newly allowed first, at
    /// most so many lines of each group; and a last line that says whether these are all. Each rule is named, with the place of its
    /// table in its own text if that has another number than the rule.
    ///
    /// ```text
    /// port 1: 10.9.0.0/24 is a station now
    /// rule panel is new
    /// now allowed: write, type 5 binary-value, instance 1, property 85 present-value, priority 1..7, from network 2, by panel (was denied by no-writes)
    /// now denied: list, from network 1, by quiet (table 3, line 41) (was allowed by find)
    /// 2 kinds of asks are decided otherwise, and no other
    /// ```
    ///
    /// Where the steps don't find all kinds, pairs of rules are named:
    ///
    /// ```text
    /// now allowed by panel (was denied by no-writes), for one: operation=write port=1 source_network=2 ..
    /// pairs of rules that decide asks otherwise: 1, and no other
    /// ```
    ///
    /// An `Err` if there is no memory: the buffer then holds what it held.
    pub fn put(
        self,
        alloc: Global,
        how: Printing<'_>,
        out: &mut Vec<u8>,
    ) -> Result<Compared, AllocError>
        ensures ok { IfOk result (λ made. IsUnderWay self.entry →
            AppendsComparison self.entry.old_one self.entry.new_one (manner_of how.entry) made out.old.items out.new.items) }
        ensures counted { IfOk result (λ made. IsUnderWay self.entry →
            AppendsCounted self.entry.old_one self.entry.new_one (manner_of how.entry) made self.entry.steps
            out.old.items out.new.items) }
        ensures err { OnErr result (out.new.items ≡ out.old.items) }
    {
        let (old, new) = (self.before, self.after);
        let results = self.into_results(alloc)?;
        let written = comparison_of(alloc, old, new, &results, how)?;
        put_whole(out, &written.text)?;
        Ok(written.made)
    }

    /// What is found so far, in few and wide regions, and the pairs of rules that decide an ask otherwise if a region is
    /// left. An `Err` if there is no memory.
    pub fn into_results(self, alloc: Global) -> Result<Results, AllocError>
        ensures results { IfOk result (λ r. IsUnderWay self.entry → AreResults self.entry.old_one self.entry.new_one
            r.summary.found.items r.summary.left.items r.summary.steps (known_of r.pairs)) }
        ensures steps { IfOk result (λ r. r.summary.steps ≡ self.entry.steps) }
    {
        let Comparing {
            before,
            after,
            old_rules: _,
            new_rules: _,
            asks,
            comparison,
        } = self;
        let policies = Policies {
            old: before.rules().rules(),
            new: after.rules().rules(),
            shapes: &asks,
        };
        let pairs = pairs_if(alloc, &policies, comparison.left.len())?;
        let summary = summary_if(alloc, &asks, comparison, have_lines(&pairs))?;
        Ok(Results { summary, pairs })
    }
}

/// Appends how many steps a comparison used: `44 of 65536 steps were used`, and the end of the line. An `Err` if
/// there is no memory: the buffer then holds what it held.
pub fn put_steps(steps: u32, out: &mut Vec<u8>) -> Result<(), AllocError>
    ensures { IsAppendedWhole (steps_text steps) out.old out.new result }
{
    let len = out.len();
    let put = put_used(steps, out);
    keep_whole(out, len, put)
}

fn put_used(steps: u32, out: &mut Vec<u8>) -> Result<(), AllocError>
    ensures { IsAppended (steps_text steps) out.old out.new result }
{
    put_decimal(out, steps)?;
    put_slice(out, b" of 65536 steps were used\n")
}
