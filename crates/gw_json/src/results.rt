//! What is found of what two policies decide otherwise, as JSON objects.

ghost use Rattle.std.specs.Prelude.{◌≡◌, ◌++◌, ◌∷◌, ◌==◌, [], if◌then◌else◌, length, IfOk, OnOk};
ghost use Rattle.std.specs.List.{flat_map};
ghost use Rattle.gw_ask_sets.specs.regions.Pairs.{findings};
ghost use Rattle.gw_json.specs.Comparison.{found_value, rules_value};
ghost use Rattle.gw_json.specs.Document.{IsLinePut, line_of, object_of};
ghost use Rattle.gw_json.specs.Results.{by_both_lines, by_pairs_lines, by_regions_lines, given_up_value, pair_members, pair_value};
ghost use Rattle.gw_json.specs.Results.{paired_value, pairs_lines, regions_lines, results_lines};
ghost use Rattle.gw_json.specs.internal.View.{members_view, value_view};
ghost use Rattle.gw_policy_review.specs.comparison.PairLines.{known_of};

use crate::comparison::{put_found, put_summary, rule_value, verdict_word};
use crate::unheld::ask_value;
use crate::value::{Member, Value, count_value, put_object};
use gw_ask_sets::regions::{Found, Pairs, ShownPair, Summary};
use gw_policy_review::comparison::Results;
use gw_rules::Rule;
use std::alloc::{AllocError, Global};

/// The rules of the two policies that have names for what is found, and how many lines there are at most of regions, and of pairs.
#[derive(Clone, Copy)]
pub struct ResultListing<'a> {
    pub old: &'a [Rule],
    pub new: &'a [Rule],
    pub most: usize,
}

/// Appends a line for each of at most so many regions in which two policies decide every ask otherwise, or for each of at most so
/// many pairs of rules if these are all that was found, or for both if pairs were given up; and a last line that counts them and
/// says whether they are all. An `Err` only if memory was refused; then some of them may follow what the buffer held.
///
/// ```text
/// {"verdict":"allowed","operation":["write"],"port":null,"source_network":{"absent":false,"ranges":[[2,2]]},"source":null,..,"by":["panel"],"was_by":["no-writes"]}
/// {"kinds":1,"finished":true,"steps":44}
/// ```
///
/// ```text
/// {"verdict":"allowed","by":["panel"],"was_by":["no-writes"],"ask":{"port":1,"source_network":2,..}}
/// {"pairs":1,"finished":true,"steps":65536}
/// ```
pub fn put_results(
    alloc: Global,
    out: &mut Vec<u8>,
    listing: &ResultListing<'_>,
    results: &Results,
) -> Result<(), AllocError>
    ensures { OnOk result (out.new.items ≡ out.old.items ++ results_lines listing.now.old.now listing.now.new.now listing.now.most
        results.now.summary.steps results.now.summary.found.items (known_of results.now.pairs)) }
{
    match &results.pairs {
        None => {
            let summary = &results.summary;
            put_by_regions(alloc, out, listing, summary.steps, &summary.found)
        }
        Some(pairs) => put_by(alloc, out, listing, &results.summary, pairs),
    }
}

/// Appends the lines of pairs, and of regions too if the pairs aren't all.
fn put_by(
    alloc: Global,
    out: &mut Vec<u8>,
    listing: &ResultListing<'_>,
    summary: &Summary,
    pairs: &Pairs,
) -> Result<(), AllocError>
    ensures { OnOk result (out.new.items ≡ out.old.items
        ++ (if length pairs.now.given_up.items == 0
        then by_pairs_lines listing.now.old.now listing.now.new.now listing.now.most summary.now.steps pairs.now.found.items
        else by_both_lines listing.now.old.now listing.now.new.now listing.now.most summary.now.steps summary.now.found.items
        (findings pairs.now.found.items pairs.now.given_up.items pairs.now.steps))) }
{
    if pairs.given_up.is_empty() {
        return put_by_pairs(alloc, out, listing, summary.steps, &pairs.found);
    }
    put_by_both(alloc, out, listing, summary, pairs)
}

fn put_by_regions(
    alloc: Global,
    out: &mut Vec<u8>,
    listing: &ResultListing<'_>,
    steps: u32,
    found: &[Found],
) -> Result<(), AllocError>
    ensures { OnOk result (out.new.items ≡ out.old.items
        ++ by_regions_lines listing.now.old.now listing.now.new.now listing.now.most steps found.now) }
{
    put_regions(alloc, out, listing, found)?;
    put_summary(alloc, out, found.len(), true, steps)
}

fn put_by_pairs(
    alloc: Global,
    out: &mut Vec<u8>,
    listing: &ResultListing<'_>,
    steps: u32,
    found: &[ShownPair],
) -> Result<(), AllocError>
    ensures { OnOk result (out.new.items ≡ out.old.items
        ++ by_pairs_lines listing.now.old.now listing.now.new.now listing.now.most steps found.now) }
{
    put_pairs(alloc, out, listing, found)?;
    put_paired(alloc, out, found.len(), steps)
}

fn put_by_both(
    alloc: Global,
    out: &mut Vec<u8>,
    listing: &ResultListing<'_>,
    summary: &Summary,
    pairs: &Pairs,
) -> Result<(), AllocError>
    ensures { OnOk result (out.new.items ≡ out.old.items
        ++ by_both_lines listing.now.old.now listing.now.new.now listing.now.most summary.now.steps summary.now.found.items
        (findings pairs.now.found.items pairs.now.given_up.items pairs.now.steps)) }
{
    put_regions(alloc, out, listing, &summary.found)?;
    put_pairs(alloc, out, listing, &pairs.found)?;
    put_given_up(alloc, out, summary, pairs)
}

/// Appends a line for each of the first regions.
fn put_regions(
    alloc: Global,
    out: &mut Vec<u8>,
    listing: &ResultListing<'_>,
    found: &[Found],
) -> Result<(), AllocError>
    ensures { OnOk result (out.new.items ≡ out.old.items
        ++ regions_lines listing.now.old.now listing.now.new.now listing.now.most found.now) }
{
    let shown = listing.most.min(found.len());
    put_each_region(alloc, out, listing, &found[..shown])
}

fn put_each_region(
    alloc: Global,
    out: &mut Vec<u8>,
    listing: &ResultListing<'_>,
    found: &[Found],
) -> Result<(), AllocError>
    ensures { OnOk result (out.new.items ≡ out.old.items
        ++ flat_map (λ f. line_of (found_value listing.now.old.now listing.now.new.now f)) found.now) }
{
    for each in found {
        put_found(alloc, out, listing.old, listing.new, each)?;
    }
    Ok(())
}

/// Appends a line for each of the first pairs.
fn put_pairs(
    alloc: Global,
    out: &mut Vec<u8>,
    listing: &ResultListing<'_>,
    found: &[ShownPair],
) -> Result<(), AllocError>
    ensures { OnOk result (out.new.items ≡ out.old.items
        ++ pairs_lines listing.now.old.now listing.now.new.now listing.now.most found.now) }
{
    let shown = listing.most.min(found.len());
    put_each_pair(alloc, out, listing, &found[..shown])
}

fn put_each_pair(
    alloc: Global,
    out: &mut Vec<u8>,
    listing: &ResultListing<'_>,
    found: &[ShownPair],
) -> Result<(), AllocError>
    ensures { OnOk result (out.new.items ≡ out.old.items
        ++ flat_map (λ shown. line_of (pair_value listing.now.old.now listing.now.new.now shown)) found.now) }
{
    for each in found {
        put_pair(alloc, out, listing, each)?;
    }
    Ok(())
}

/// Appends the line of a pair, or nothing.
fn put_pair(
    alloc: Global,
    out: &mut Vec<u8>,
    listing: &ResultListing<'_>,
    shown: &ShownPair,
) -> Result<(), AllocError>
    ensures { IsLinePut (pair_value listing.now.old.now listing.now.new.now shown.now) out.old.items out.new.items result }
{
    let members = pair_members(alloc, listing, shown)?;
    put_object(alloc, out, members)
}

fn pair_members(
    alloc: Global,
    listing: &ResultListing<'_>,
    shown: &ShownPair,
) -> Result<Vec<Member>, AllocError>
    ensures { IfOk result (λ members. object_of (members_view members.items)
        ≡ pair_value listing.now.old.now listing.now.new.now shown.now) }
{
    let by = one_rule_value(alloc, listing.new, shown.pair.new)?;
    let was_by = one_rule_value(alloc, listing.old, shown.pair.old)?;
    let ask = ask_value(alloc, &shown.ask)?;
    Ok(vec![in alloc;
        ("verdict", Value::Word(verdict_word(shown.pair.allows))),
        ("by", by),
        ("was_by", was_by),
        ("ask", ask),
    ]?)
}

/// The name of the rule of this number alone.
fn one_rule_value(alloc: Global, rules: &[Rule], number: usize) -> Result<Value, AllocError>
    ensures { IfOk result (λ value. value_view value ≡ rules_value rules.now (number ∷ [])) }
{
    let name = rule_value(alloc, rules, number)?;
    Ok(Value::Array(vec![in alloc; name]?))
}

/// Appends the last line where pairs are all that was found.
fn put_paired(alloc: Global, out: &mut Vec<u8>, pairs: usize, steps: u32) -> Result<(), AllocError>
    ensures { IsLinePut (paired_value pairs steps) out.old.items out.new.items result }
{
    let members = paired_members(alloc, pairs, steps)?;
    put_object(alloc, out, members)
}

fn paired_members(alloc: Global, pairs: usize, steps: u32) -> Result<Vec<Member>, AllocError>
    ensures { IfOk result (λ members. object_of (members_view members.items) ≡ paired_value pairs steps) }
{
    Ok(vec![in alloc;
        ("pairs", count_value(pairs)),
        ("finished", Value::Boolean(true)),
        ("steps", Value::Number(u64::from(steps))),
    ]?)
}

/// Appends the last line where pairs were given up.
fn put_given_up(
    alloc: Global,
    out: &mut Vec<u8>,
    summary: &Summary,
    pairs: &Pairs,
) -> Result<(), AllocError>
    ensures { let kinds = length summary.now.found.items in
        let count = length pairs.now.found.items in
        IsLinePut (given_up_value kinds summary.now.steps count (length pairs.now.given_up.items)) out.old.items out.new.items result }
{
    let kinds = summary.found.as_slice().len();
    let (found, given_up) = (pairs.found.as_slice(), pairs.given_up.as_slice());
    let members = given_up_members(alloc, kinds, summary.steps, found.len(), given_up.len())?;
    put_object(alloc, out, members)
}

fn given_up_members(
    alloc: Global,
    kinds: usize,
    steps: u32,
    pairs: usize,
    given_up: usize,
) -> Result<Vec<Member>, AllocError>
    ensures { IfOk result (λ members. object_of (members_view members.items) ≡ given_up_value kinds steps pairs given_up) }
{
    Ok(vec![in alloc;
        ("kinds", count_value(kinds)),
        ("finished", Value::Boolean(false)),
        ("steps", Value::Number(u64::from(steps))),
        ("pairs", count_value(pairs)),
        ("given_up", count_value(given_up)),
    ]?)
}
