//! The search for an ask of some regions that none of some rules matches.
ghost use Rattle.std.specs.Prelude.{◌≡◌, ◌≢◌, ◌+◌, ◌<◌, ◌≤◌, ◌++◌, ◌∷◌, [], List, length, take, true, false, not};
ghost use Rattle.std.specs.Prelude.{IfOk, IfSome, None, Ok, OnOk};
ghost use Rattle.gw_rules.specs.Ask.{Ask as SpecAsk};
ghost use Rattle.gw_rules.specs.Fields.{value_of};
ghost use Rattle.gw_rules.specs.Rule.{matches, ranges_of};
ghost use Rattle.gw_ask_sets.specs.regions.Coverage.{covers};
ghost use Rattle.gw_ask_sets.specs.regions.Regions.{Region as SpecRegion, lies};
ghost use Rattle.gw_ask_sets.specs.regions.Unmatched.{AreAllMatched, AreUsedUp, EndsWith, IsUnmatched, Narrows, is_matched, parts_at};
ghost use Rattle.gw_ask_sets.specs.regions.internal.Nearest.{IsNearest};

use crate::regions::Region;
use crate::regions::coverage::{Coverage, coverage_of, covers};
use crate::regions::crowding::is_crowded;
use crate::regions::meeting::ask_in;
use crate::regions::region::push_piece;
use gw_rules::{Ask, FieldName, Rule};
use std::alloc::{AllocError, Global};

/// The result of a search for an ask of some regions that none of some rules matches.
#[derive(Clone, Copy)]
pub enum Unmatched {
    /// None of them matches this ask of the regions.
    Found(Ask),
    /// They match each ask of the regions.
    Nothing,
    /// All steps were used.
    Unknown,
}

/// That, and how many steps the search made.
#[derive(Clone, Copy)]
pub struct Searched {
    pub outcome: Unmatched,
    pub steps: u32,
}

/// Which of some rules is nearest to matching all of a region.
#[derive(Clone, Copy)]
enum Nearest {
    /// None of them matches any of it.
    Apart,
    /// One of them matches all of it.
    Whole,
    /// The one at this place, which isn't seen to admit all values in this field, the first of so many.
    Open {
        place: usize,
        field: FieldName,
        lacking: usize,
    },
}

fn is_open(rule: &Rule, region: &Region, field: FieldName) -> bool
    ensures { result ≡ not (covers (value_of field region.now) (ranges_of field rule.now)) }
{
    !covers(region.get(field), rule.ranges(field).as_slice())
}

/// The first field in which a rule isn't seen to admit all values of a region.
fn open_field(rule: &Rule, region: &Region) -> Option<FieldName>
    ensures some { IfSome result (λ field. covers (value_of field region.now) (ranges_of field rule.now) ≡ false) }
    ensures none { result ≡ None → (ask : SpecAsk) → lies region.now ask ≡ true → matches rule.now ask ≡ true }
{
    for field in FieldName::ALL.iter() {
        if is_open(rule, region, *field) {
            return Some(*field);
        }
    }
    None
}

/// In how many fields it isn't.
fn open_count(rule: &Rule, region: &Region) -> usize {
    FieldName::ALL
        .iter()
        .filter(|field| is_open(rule, region, **field))
        .count()
}

/// Whether another rule was found that lacks no more fields.
fn lacks_fewer(found: &Nearest, lacking: usize) -> bool
    ensures { result ≡ true → found.now ≢ Nearest.Apart }
{
    match found {
        Nearest::Apart => false,
        Nearest::Whole => true,
        Nearest::Open {
            place: _,
            field: _,
            lacking: least,
        } => *least <= lacking,
    }
}

/// Looks at the rule at a place, after those before it.
fn take_rule(found: Nearest, rules: &[Rule], place: usize, region: &Region) -> Nearest
    requires { place < length rules.now }
    ensures { IsNearest (take place rules.now) rules.now region.now found →
        IsNearest (take (place + 1) rules.now) rules.now region.now result }
{
    let rule = &rules[place];
    match coverage_of(rule, region) {
        Coverage::Nothing => found,
        Coverage::All => Nearest::Whole,
        Coverage::Perhaps => {
            let lacking = open_count(rule, region);
            if lacks_fewer(&found, lacking) {
                return found;
            }
            match open_field(rule, region) {
                Some(field) => Nearest::Open {
                    place,
                    field,
                    lacking,
                },
                None => Nearest::Whole,
            }
        }
    }
}

/// Which rule is nearest to matching all of a region: one that does, or else the first of those that may match some
/// of it that lacks the fewest fields.
fn nearest_of(rules: &[Rule], region: &Region) -> Nearest
    ensures { IsNearest rules.now rules.now region.now result }
{
    let mut found = Nearest::Apart;
    for place in 0..rules.len() {
        found = take_rule(found, rules, place, region);
        if let Nearest::Whole = found {
            return found;
        }
    }
    found
}

/// Puts both parts of a region after the others: in a field the rule admits all values of the one, and none of the
/// other.
fn put_parts(
    alloc: Global,
    left: &mut Vec<Region>,
    rule: &Rule,
    field: FieldName,
    region: &Region,
) -> Result<(), AllocError>
    ensures { OnOk result (left.new.items ≡ left.old.items ++ parts_at field rule.now region.now) }
{
    let ranges = rule.ranges(field).as_slice();
    let inner = region.get(field).admitted(alloc, ranges)?;
    push_piece(alloc, left, field, region, inner)?;
    let outer = region.get(field).refused(alloc, ranges)?;
    push_piece(alloc, left, field, region, outer)
}

/// An ask of a region, if none of the rules is seen to match any of it. Else the region is dropped if they are seen to
/// match all of it, by one of them or by their number, or parted, and its parts are put back.
fn narrow(
    alloc: Global,
    rules: &[Rule],
    region: Region,
    left: &mut Vec<Region>,
) -> Result<Option<Ask>, AllocError>
    ensures found { IfOk result (λ found. IfSome found (λ ask. IsUnmatched (region ∷ []) rules.now ask)) }
    ensures left { result ≡ Ok None → (back : List SpecRegion) × Narrows rules.now region back
        × (left.new.items ≡ left.old.items ++ back) }
{
    match nearest_of(rules, &region) {
        Nearest::Whole => Ok(None),
        Nearest::Apart => Ok(ask_in(&region)),
        Nearest::Open {
            place,
            field,
            lacking: _,
        } => {
            if is_crowded(alloc, rules, &region)? {
                return Ok(None);
            }
            put_parts(alloc, left, &rules[place], field, &region)?;
            Ok(None)
        }
    }
}

/// Searches these regions for an ask that none of these rules matches, in at most so many steps: `Found` with one,
/// `Nothing` if the rules match each ask of the regions, `Unknown` only if all steps were used. Each step takes up a
/// region, which it drops if the rules are so many that no ask of it is missed by all; it looks at the rule that is nearest
/// to matching all of it, and parts the region in a field in which this rule doesn't. The rules' ranges are best in order ([`all_tidied`](crate::regions::all_tidied)). An `Err` if there
/// is no memory.
pub fn search_unmatched(
    alloc: Global,
    rules: &[Rule],
    regions: Vec<Region>,
    steps: u32,
) -> Result<Unmatched, AllocError>
    ensures found { (ask : SpecAsk) → result ≡ Ok (Unmatched.Found ask) → IsUnmatched regions.items rules.now ask }
    ensures nothing { result ≡ Ok Unmatched.Nothing → AreAllMatched regions.items rules.now }
    ensures unknown { result ≡ Ok Unmatched.Unknown → AreUsedUp rules.now steps regions.items }
{
    let searched = search_counted(alloc, rules, regions, steps)?;
    Ok(searched.outcome)
}

/// The same search, and how many steps it made: after the last one that was given it says `Unknown` only if a region is
/// left. An `Err` if there is no memory.
pub fn search_counted(
    alloc: Global,
    rules: &[Rule],
    regions: Vec<Region>,
    steps: u32,
) -> Result<Searched, AllocError>
    ensures ended { IfOk result (λ s. EndsWith rules.now regions.items steps s.steps s.outcome) }
    ensures most { IfOk result (λ s. s.steps ≤ steps) }
{
    let mut left = regions;
    for used in 0..steps {
        let Some(region) = left.pop() else {
            return Ok(Searched {
                outcome: Unmatched::Nothing,
                steps: used,
            });
        };
        if let Some(ask) = narrow(alloc, rules, region, &mut left)? {
            return Ok(Searched {
                outcome: Unmatched::Found(ask),
                steps: used + 1,
            });
        }
    }
    if left.is_empty() {
        return Ok(Searched {
            outcome: Unmatched::Nothing,
            steps: steps,
        });
    }
    Ok(Searched {
        outcome: Unmatched::Unknown,
        steps: steps,
    })
}
