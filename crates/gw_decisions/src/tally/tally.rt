//! How many asks each rule of a policy decides.

ghost use Rattle.std.specs.Prelude.{◌≡◌, ◌==◌, ◌+◌, ◌<◌, [], length, slice_index, IfErr, IfOk, OnOk};
ghost use Rattle.gw_script.specs.declared.lines.LinesFault.TheVariants as fault;
ghost use Rattle.gw_decisions.specs.tally.Tally.{AddsOne, CountsMore, IsTally, place};

use gw_rules::{Ask, RuleList};
use gw_script::LinesFault;
use std::alloc::{AllocError, Global};
use std::marker::Model;

/// How many asks each rule decides, and how many none does. Contracts see the counts: that for no rule, and then that for
/// each rule, in order.
#[derive(Drop)]
pub struct Tally {
    counts: Vec<u64>,
}

impl Model for Tally {
    ghost use Rattle.std.specs.Prelude.{List, ℕ};

    ghost Value = { List ℕ };

    ghost view = { λ t. t.counts.items };
}

impl Tally {
    /// No ask was decided yet. An `Err` only if a growth of memory was refused.
    pub fn new(alloc: Global, rules: &RuleList) -> Result<Tally, AllocError>
        ensures { IfOk result (λ tally. IsTally rules.now [] tally) }
    {
        Ok(Tally {
            counts: Vec::from_elem(alloc, 0, rules.rules().len() + 1)?,
        })
    }

    /// How many asks the rule of this number decides, from 1, or no rule at 0.
    pub fn count(&self, number: usize) -> u64
        ensures { number < length self.now → result ≡ slice_index self.now number }
    {
        match self.counts.get(number) {
            Some(count) => *count,
            None => 0,
        }
    }

    /// Whether these are counts for rules of this number: one for each, and one for none.
    pub fn is_of(&self, rules: &RuleList) -> bool
        ensures { result ≡ (length self.now == length rules.now + 1) }
    {
        self.counts.len() == rules.rules().len() + 1
    }

    /// Counts so many asks more that the rule of this number decides, from 1, or no rule at 0. A count of 2^64 - 1 stays,
    /// and a rule that isn't there isn't counted.
    pub fn count_decided(&mut self, number: usize, asks: usize)
        ensures { CountsMore number asks self.old self.new }
    {
        if number < self.counts.len() {
            self.counts[number] = self.counts[number].saturating_add(asks as u64);
        }
    }

    /// Counts one ask more at its place. `Read` if the count is at its end.
    pub(crate) fn add(&mut self, at: usize) -> Result<(), LinesFault>
        ensures ok { OnOk result (AddsOne at self.old self.new) }
        ensures fault { IfErr result (λ f. f ≡ fault.Read) }
        ensures places { length self.new ≡ length self.old }
    {
        if at >= self.counts.len() {
            return Err(LinesFault::Read);
        }
        let Some(count) = self.counts[at].checked_add(1) else {
            return Err(LinesFault::Read);
        };
        self.counts[at] = count;
        Ok(())
    }
}

/// The place at which an ask is counted: the number of the first rule that matches, or 0.
pub(crate) fn place_of(rules: &RuleList, ask: &Ask) -> usize
    ensures { result ≡ place rules.now ask.now }
{
    match rules.first(ask) {
        Some(number) => usize::from(number),
        None => 0,
    }
}
