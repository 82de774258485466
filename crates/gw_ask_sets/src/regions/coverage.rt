//! How much of a region a rule matches.
ghost use Rattle.std.specs.Prelude.{◌≡◌, ◌≤◌, ◌&&◌, true, false, not, nat_le};
ghost use Rattle.std.specs.List.{list_all, list_any};
ghost use Rattle.gw_rules.specs.Ask.{Ask};
ghost use Rattle.gw_rules.specs.Fields.{value_of};
ghost use Rattle.gw_rules.specs.Rule.{each_field, matches, ranges_of};
ghost use Rattle.gw_ask_sets.specs.regions.Regions.{lies};
ghost use Rattle.gw_ask_sets.specs.regions.Coverage.{covers, holds_all, is_within, meets, overlap, overlaps};
ghost use Rattle.gw_ask_sets.specs.regions.Steps.{divides};
ghost use Rattle.gw_ask_sets.specs.declared.regions.coverage.Coverage.{Coverage};

use crate::regions::region::Region;
use crate::regions::values::Values;
use gw_rules::{FieldName, Range, Rule};

/// How much of a region a rule matches.
#[derive(Clone, Copy)]
pub(crate) enum Coverage {
    /// It matches none of its asks.
    Nothing,
    /// It may match some.
    Perhaps,
    /// It matches all of them.
    All,
}

fn overlap(a: &Range, b: &Range) -> bool
    ensures { result ≡ overlap a.now b.now }
{
    a.low <= b.high && b.low <= a.high
}

fn overlaps_any(ranges: &[Range], range: &Range) -> bool
    ensures { result ≡ list_any (overlap range.now) ranges.now }
{
    ranges.iter().any(|other| overlap(range, other))
}

fn overlaps(values: &[Range], ranges: &[Range]) -> bool
    ensures { result ≡ overlaps values.now ranges.now }
{
    values.iter().any(|range| overlaps_any(ranges, range))
}

/// Whether the field may be so that the ranges of a rule admit it.
fn meets(values: &Values, ranges: &[Range]) -> bool
    ensures { result ≡ meets values.now ranges.now }
{
    ranges.is_empty() || overlaps(values.ranges.as_slice(), ranges)
}

fn is_within(range: &Range, other: &Range) -> bool
    ensures { result ≡ is_within range.now other.now }
{
    other.low <= range.low && range.high <= other.high
}

pub(crate) fn is_within_any(ranges: &[Range], range: &Range) -> bool
    ensures { result ≡ list_any (is_within range.now) ranges.now }
{
    ranges.iter().any(|other| is_within(range, other))
}

fn holds_all(values: &[Range], ranges: &[Range]) -> bool
    ensures { result ≡ holds_all values.now ranges.now }
{
    values.iter().all(|range| is_within_any(ranges, range))
}

/// Whether the ranges of a rule are seen to admit all the values.
pub(crate) fn covers(values: &Values, ranges: &[Range]) -> bool
    ensures { result ≡ covers values.now ranges.now }
{
    ranges.is_empty() || !values.absent && holds_all(values.ranges.as_slice(), ranges)
}

/// Whether the rule may match some of it.
pub(crate) fn meets_each(rule: &Rule, region: &Region) -> bool
    ensures { result ≡ each_field (λ field. meets (value_of field region.now) (ranges_of field rule.now)) }
{
    FieldName::ALL.iter().all(|field| meets(region.get(*field), rule.ranges(*field).as_slice()))
}

fn covers_each(rule: &Rule, region: &Region) -> bool
    ensures { result ≡ each_field (λ field. covers (value_of field region.now) (ranges_of field rule.now)) }
{
    FieldName::ALL.iter().all(|field| covers(region.get(*field), rule.ranges(*field).as_slice()))
}

/// How much of a region a rule matches, as far as a look at its ranges shows.
#[tactic(auto, using(crate::proofs::regions_lemmas::CoverageLaw::apart_law, crate::proofs::regions_lemmas::CoverageLaw::whole_law))]
pub(crate) fn coverage_of(rule: &Rule, region: &Region) -> Coverage
    ensures apart { result ≡ Coverage.Nothing →
        (ask : Ask) → lies region.now ask ≡ true → matches rule.now ask ≡ false }
    ensures whole { result ≡ Coverage.All →
        (ask : Ask) → lies region.now ask ≡ true → matches rule.now ask ≡ true }
    ensures perhaps { result ≡ Coverage.Perhaps → divides rule.now region.now ≡ true }
{
    if !meets_each(rule, region) {
        return Coverage::Nothing;
    }
    if covers_each(rule, region) {
        return Coverage::All;
    }
    Coverage::Perhaps
}
