//! Regions that are crowded with rules: so many may match asks there that no ask is missed by all of them.
//!
//! A rule misses an ask if there is a field in which its ranges don't admit what the ask has. If few of some rules miss any
//! one value of a field, and those few of all fields together are fewer than the rules, then one of the rules matches each
//! ask.
ghost use Rattle.std.specs.Prelude.{◌≡◌, ◌≤◌, ◌<◌, ◌+◌, ◌==◌, ℕ, None, Some, true, IfOk};
ghost use Rattle.std.specs.List.{list_any};
ghost use Rattle.gw_rules.specs.Range.{holds};
ghost use Rattle.gw_ask_sets.specs.regions.internal.Crowding.{AreFew, ends_at, miss_count, misses};
ghost use Rattle.gw_rules.specs.Ask.{Ask as SpecAsk};
ghost use Rattle.gw_ask_sets.specs.regions.Regions.{lies};
ghost use Rattle.gw_ask_sets.specs.regions.Unmatched.{is_matched};

use crate::regions::coverage::meets_each;
use crate::regions::{Region, Values};
use gw_rules::{FieldName, Range, Rule, admit};
use std::alloc::{AllocError, Global};

/// How many rules are counted first.
const FIRST_RULES: usize = 32;

/// How many are counted at most.
const COUNTED_RULES: usize = 128;

/// Some rules, those at these places, in one field.
#[derive(Clone, Copy)]
struct Column<'a> {
    /// The rules among which they are.
    rules: &'a [Rule],
    /// Their places.
    places: &'a [usize],
    /// The field.
    field: FieldName,
}

fn greater(a: usize, b: usize) -> usize
    ensures first { a ≤ result }
    ensures second { b ≤ result }
{
    if a < b { b } else { a }
}

impl Column<'_> {
    /// Whether the rule at a place isn't there, or doesn't admit this value.
    fn misses(&self, value: Option<u64>, place: usize) -> bool
        ensures { result ≡ misses self.now.rules.now self.now.field value place }
    {
        match self.rules.get(place) {
            Some(rule) => !admit(rule.ranges(self.field).as_slice(), value),
            None => true,
        }
    }

    /// How many of the rules miss this value.
    fn count(&self, value: Option<u64>) -> usize
        ensures { result ≡ miss_count self.now.rules.now self.now.places.now self.now.field value }
    {
        self.places
            .iter()
            .filter(|place| self.misses(value, **place))
            .count()
    }

    /// How many miss the number behind an end that lies in a range before its own end.
    fn count_behind(&self, range: Range, end: u64) -> usize
        ensures { range.low ≤ end → end < range.high →
            miss_count self.now.rules.now self.now.places.now self.now.field (Some (end + 1)) ≤ result }
    {
        if range.low <= end && end < range.high {
            self.count(Some(end + 1))
        } else {
            0
        }
    }

    /// The most that miss a number behind the end of one of these ranges, or so many if these are more.
    fn most_behind(&self, range: Range, ends: &[Range], given: usize) -> usize
        ensures least { given ≤ result }
        ensures ends { (k : ℕ) → list_any (λ one. one.high == k) ends.now ≡ true → (range.low ≤ k) × (k < range.high) →
            miss_count self.now.rules.now self.now.places.now self.now.field (Some (k + 1)) ≤ result }
    {
        let mut most = given;
        for one in ends {
            most = greater(most, self.count_behind(range, one.high));
        }
        most
    }

    /// The same of the ranges of the rule at a place.
    fn most_of_rule(&self, range: Range, place: usize, given: usize) -> usize
        ensures least { given ≤ result }
        ensures ends { (k : ℕ) → ends_at self.now.rules.now self.now.field k place ≡ true → (range.low ≤ k) × (k < range.high) →
            miss_count self.now.rules.now self.now.places.now self.now.field (Some (k + 1)) ≤ result }
    {
        match self.rules.get(place) {
            Some(rule) => self.most_behind(range, rule.ranges(self.field).as_slice(), given),
            None => given,
        }
    }

    /// The most that miss one number of a range: from one number to the next they are more only behind the end of a range of
    /// one of the rules.
    fn most_in(&self, range: Range) -> usize
        ensures { (n : ℕ) → holds n range ≡ true →
            miss_count self.now.rules.now self.now.places.now self.now.field (Some n) ≤ result }
    {
        let mut most = self.count(Some(range.low));
        for place in self.places {
            most = self.most_of_rule(range, *place, most);
        }
        most
    }

    /// The most that miss one number of these ranges, or so many if these are more.
    fn most_in_each(&self, ranges: &[Range], given: usize) -> usize
        ensures least { given ≤ result }
        ensures numbers { (n : ℕ) → list_any (holds n) ranges.now ≡ true →
            miss_count self.now.rules.now self.now.places.now self.now.field (Some n) ≤ result }
    {
        let mut most = given;
        for range in ranges {
            most = greater(most, self.most_in(*range));
        }
        most
    }

    /// The most that miss one of these values.
    fn most_of(&self, values: &Values) -> usize
        ensures { AreFew self.now.rules.now self.now.places.now self.now.field values.now result }
    {
        self.most_in_each(values.ranges.as_slice(), self.count_absent(values))
    }

    /// How many miss an ask without the field, if it may be absent.
    fn count_absent(&self, values: &Values) -> usize
        ensures { values.now.absent ≡ true →
            miss_count self.now.rules.now self.now.places.now self.now.field None ≤ result }
    {
        if values.absent { self.count(None) } else { 0 }
    }
}

/// Whether these rules are too many for one ask of the region to be missed by all.
fn are_too_many(rules: &[Rule], places: &[usize], region: &Region) -> bool
    ensures { result ≡ true → (ask : SpecAsk) → lies region.now ask ≡ true → is_matched rules.now ask ≡ true }
{
    let mut sum = 0;
    for field in FieldName::ALL.iter() {
        let column = Column {
            rules,
            places,
            field: *field,
        };
        let Some(more) = column.most_of(region.get(*field)).checked_add(sum) else {
            return false;
        };
        sum = more;
    }
    if places.len() <= sum {
        return false;
    }
    true
}

/// A value that the field may have.
fn some_value(values: &Values) -> Option<u64> {
    match values.ranges.as_slice().first() {
        Some(range) => Some(range.low),
        None => None,
    }
}

/// Whether it is seen that they aren't: one ask of the region is missed by as many, counted for each field.
fn are_seen_few(rules: &[Rule], places: &[usize], region: &Region) -> bool {
    let mut sum: usize = 0;
    for field in FieldName::ALL.iter() {
        let column = Column {
            rules,
            places,
            field: *field,
        };
        sum = sum.saturating_add(column.count(some_value(region.get(*field))));
    }
    places.len() <= sum
}

/// The places of the rules that may match asks of the region, the first so many.
fn meeting_places(
    alloc: Global,
    rules: &[Rule],
    region: &Region,
) -> Result<Vec<usize>, AllocError> {
    let mut places = Vec::new(alloc);
    for place in 0..rules.len() {
        if places.len() < COUNTED_RULES && meets_each(&rules[place], region) {
            places.push(place)?;
        }
    }
    Ok(places)
}

/// Whether they are seen to be too many.
fn are_crowding(rules: &[Rule], places: &[usize], region: &Region) -> bool
    ensures { result ≡ true → (ask : SpecAsk) → lies region.now ask ≡ true → is_matched rules.now ask ≡ true }
{
    !are_seen_few(rules, places, region) && are_too_many(rules, places, region)
}

/// Whether rules are seen to match each ask of the region since they are so many. An `Err` if there is no memory.
pub(crate) fn is_crowded(alloc: Global, rules: &[Rule], region: &Region) -> Result<bool, AllocError>
    ensures { IfOk result (λ crowded. crowded ≡ true → (ask : SpecAsk) → lies region.now ask ≡ true → is_matched rules.now ask ≡ true) }
{
    let places = meeting_places(alloc, rules, region)?;
    let first = FIRST_RULES.min(places.len());
    if are_crowding(rules, &places[..first], region) {
        return Ok(true);
    }
    Ok(first < places.len() && are_crowding(rules, &places, region))
}
