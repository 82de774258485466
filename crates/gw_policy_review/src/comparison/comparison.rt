//! What `bacgwctl compare` says of two configurations.
ghost use Rattle.std.specs.Prelude.{◌≡◌, true, ◌++◌, ◌∷◌, ◌==◌, [], codes, decimal, if◌then◌else◌, length, IfOk, List, OnErr, OnOk};
ghost use Rattle.std.specs.List.Sorted.{IsNonDecreasingBy, IsPermutation};
ghost use Rattle.gw_policy_review.specs.comparison.Asks.{asks_of};
ghost use Rattle.gw_policy_review.specs.comparison.Comparison.{AreResults, IsComparisonText, asks_text, by_both_text, by_pairs_text};
ghost use Rattle.gw_policy_review.specs.comparison.Comparison.{by_regions_text, compared_by, ending_text, judged_by, kinds_text, manner_of};
ghost use Rattle.gw_policy_review.specs.comparison.Comparison.{paired_by, rank};
ghost use Rattle.gw_ask_sets.specs.regions.Comparing.{IsComparison, IsSummary};
ghost use Rattle.gw_ask_sets.specs.regions.Presence.{OrNoneIsMeant};
ghost use Rattle.gw_ask_sets.specs.regions.Pairs.{findings};
ghost use Rattle.gw_policy_review.specs.comparison.Operations.{OperationsAreMeant};
ghost use Rattle.gw_policy_review.specs.comparison.PairLines.{known_of};
ghost use Rattle.gw_policy_review.specs.comparison.PartLines.{details};
ghost use Rattle.gw_rules.specs.declared.rule.Rule.{Rule as SpecRule};

use crate::comparison::details::put_details;
use crate::comparison::groups::{Listing, put_regions};
use crate::comparison::naming::Names;
use crate::comparison::operations::narrow_all;
use crate::comparison::pairs::{put_given_up, put_pairs};
use crate::comparison::parts::{Part, differing_parts};
use gw_addr::{keep_whole, put_decimal, put_slice};
use gw_ask_sets::regions::{Comparison, Found, Pairs, Region, ShownPair, Summary};
use gw_configuration::Config;
use std::alloc::{AllocError, Global};

/// How the policies of two configurations compare.
#[derive(Clone, Copy)]
pub enum Compared {
    /// They decide each ask that a gateway of either may raise alike, and no other part of them differs.
    Alike,
    /// They decide each alike, but other parts differ.
    OtherParts,
    /// They decide some otherwise, which are all found.
    Different,
    /// They decide some otherwise, and all pairs of rules are found that do. The steps of the search for regions were used up.
    Paired,
    /// The steps were used up: they decide those that were found otherwise, and perhaps others.
    Unfinished,
}

/// How a comparison is printed.
#[derive(Clone, Copy)]
pub struct Printing<'a> {
    /// How many lines there are at most, or of each group.
    pub most: usize,
    /// The lines of the old text, from 1, on which the tables of its rules begin, in their order, or none if they aren't known.
    pub old_lines: &'a [u32],
    /// Those of the new text.
    pub new_lines: &'a [u32],
}

/// What is found of what two policies decide otherwise.
#[derive(Drop)]
pub struct Results {
    /// The regions, and how many are left.
    pub summary: Summary,
    /// The pairs of rules, which are looked for where a region is left.
    pub pairs: Option<Pairs>,
}

/// A text, and how the policies compare that it is about.
pub(crate) struct ComparisonText {
    pub text: Vec<u8>,
    pub made: Compared,
}

impl Drop for ComparisonText {
    fn drop(self) {
        let ComparisonText { text: _, made: _ } = self;
    }
}

/// Appends a text, or nothing.
pub(crate) fn put_whole(out: &mut Vec<u8>, text: &[u8]) -> Result<(), AllocError>
    ensures ok { OnOk result (out.new.items ≡ out.old.items ++ text.now) }
    ensures err { OnErr result (out.new.items ≡ out.old.items) }
{
    let len = out.len();
    let put = put_slice(out, text);
    keep_whole(out, len, put)
}

/// The lines of these parts.
fn details_of(
    alloc: Global,
    old: &Config,
    new: &Config,
    differ: &[Part],
) -> Result<Vec<u8>, AllocError>
    ensures { IfOk result (λ text. text.items ≡ details old.now new.now differ.now) }
{
    let mut text = Vec::new(alloc);
    put_details(&mut text, old, new, differ)?;
    Ok(text)
}

/// What there is to say of what two configurations decide otherwise.
pub(crate) fn comparison_of(
    alloc: Global,
    old: &Config,
    new: &Config,
    results: &Results,
    how: Printing<'_>,
) -> Result<ComparisonText, AllocError>
    ensures { IfOk result (λ written.
        AreResults old.now new.now results.now.summary.found.items results.now.summary.left.items results.now.summary.steps
        (known_of results.now.pairs) →
        (is : IsComparisonText old.now new.now (manner_of how.entry) written.made written.text.items)
        × (is.steps ≡ results.now.summary.steps)) }
{
    let differ = differing_parts(alloc, old, new)?;
    let mut text = details_of(alloc, old, new, &differ)?;
    let made = judged_by(
        differ.len(),
        results.summary.found.len(),
        results.summary.left.len(),
        &results.pairs,
    );
    let before = Names::new(old, how.old_lines);
    let after = Names::new(new, how.new_lines);
    let listing = Listing {
        found: &results.summary.found,
        old: &before,
        new: &after,
        most: how.most,
    };
    put_asks(alloc, &mut text, &listing, made, &results.pairs)?;
    Ok(ComparisonText { text, made })
}

/// Appends what is said of the asks, and the last line.
fn put_asks(
    alloc: Global,
    out: &mut Vec<u8>,
    listing: &Listing<'_>,
    made: Compared,
    pairs: &Option<Pairs>,
) -> Result<(), AllocError>
    ensures { OnOk result (out.new.items ≡ out.old.items ++ asks_text listing.now.old.now listing.now.new.now listing.now.most
        made listing.now.found.now (known_of pairs.now)) }
{
    match pairs {
        None => put_by_regions(alloc, out, listing, made),
        Some(pairs) => put_by(alloc, out, listing, made, pairs),
    }
}

/// Appends what is said of pairs, and of regions too if the pairs aren't all, and the last line.
fn put_by(
    alloc: Global,
    out: &mut Vec<u8>,
    listing: &Listing<'_>,
    made: Compared,
    pairs: &Pairs,
) -> Result<(), AllocError>
    ensures { OnOk result (out.new.items ≡ out.old.items
        ++ (if length pairs.now.given_up.items == 0
        then by_pairs_text listing.now.old.now listing.now.new.now listing.now.most made pairs.now.found.items
        else by_both_text listing.now.old.now listing.now.new.now listing.now.most made listing.now.found.now
        (findings pairs.now.found.items pairs.now.given_up.items pairs.now.steps))) }
{
    if pairs.given_up.is_empty() {
        return put_by_pairs(out, listing, made, &pairs.found);
    }
    put_by_both(alloc, out, listing, made, pairs)
}

/// Appends what is said of regions alone, and the last line.
fn put_by_regions(
    alloc: Global,
    out: &mut Vec<u8>,
    listing: &Listing<'_>,
    made: Compared,
) -> Result<(), AllocError>
    ensures { OnOk result (out.new.items ≡ out.old.items
        ++ by_regions_text listing.now.old.now listing.now.new.now listing.now.most made listing.now.found.now) }
{
    put_regions(alloc, out, listing)?;
    put_ending(out, made, listing.found.len())
}

fn put_by_pairs(
    out: &mut Vec<u8>,
    listing: &Listing<'_>,
    made: Compared,
    found: &[ShownPair],
) -> Result<(), AllocError>
    ensures { OnOk result (out.new.items ≡ out.old.items
        ++ by_pairs_text listing.now.old.now listing.now.new.now listing.now.most made found.now) }
{
    put_pairs(out, listing.old, listing.new, listing.most, found)?;
    put_ending(out, made, found.len())
}

fn put_by_both(
    alloc: Global,
    out: &mut Vec<u8>,
    listing: &Listing<'_>,
    made: Compared,
    pairs: &Pairs,
) -> Result<(), AllocError>
    ensures { OnOk result (out.new.items ≡ out.old.items
        ++ by_both_text listing.now.old.now listing.now.new.now listing.now.most made listing.now.found.now
        (findings pairs.now.found.items pairs.now.given_up.items pairs.now.steps)) }
{
    put_regions(alloc, out, listing)?;
    put_pairs(out, listing.old, listing.new, listing.most, &pairs.found)?;
    put_given_up(out, pairs.found.len(), pairs.given_up.len())?;
    put_ending(out, made, listing.found.len())
}

/// What a comparison over these asks has found so far, what is newly allowed first.
pub(crate) fn summary_of(
    alloc: Global,
    asks: &[Region],
    comparison: Comparison,
) -> Result<Summary, AllocError>
    ensures summary { IfOk result (λ s. (old new : List SpecRule) →
        IsComparison asks.now old new comparison.found.items comparison.left.items →
        IsSummary asks.now old new s.found.items s.left.items) }
    ensures or_none { IfOk result (λ s. OrNoneIsMeant asks.now s.found.items) }
    ensures operations { IfOk result (λ s. OperationsAreMeant asks.now s.found.items) }
    ensures in_order { IfOk result (λ s. IsNonDecreasingBy rank s.found.items) }
    ensures left { IfOk result (λ s. s.left.items ≡ comparison.left.items) }
    ensures steps { IfOk result (λ s. s.steps ≡ comparison.steps) }
{
    let wide = gw_ask_sets::regions::summary_of(alloc, asks, comparison)?;
    let mut summary = narrowed(alloc, asks, wide)?;
    sort_found(&mut summary.found)?;
    Ok(summary)
}

/// The same, with the operations that the asks of its regions have.
fn narrowed(alloc: Global, asks: &[Region], wide: Summary) -> Result<Summary, AllocError>
    requires { OrNoneIsMeant asks.now wide.found.items }
    ensures summary { IfOk result (λ s. (old new : List SpecRule) →
        IsSummary asks.now old new wide.found.items wide.left.items →
        IsSummary asks.now old new s.found.items s.left.items) }
    ensures or_none { IfOk result (λ s. OrNoneIsMeant asks.now s.found.items) }
    ensures operations { IfOk result (λ s. OperationsAreMeant asks.now s.found.items) }
    ensures left { IfOk result (λ s. s.left.items ≡ wide.left.items) }
    ensures steps { IfOk result (λ s. s.steps ≡ wide.steps) }
{
    let Summary { found, left, steps } = wide;
    let found = narrow_all(alloc, asks, found)?;
    Ok(Summary { found, left, steps })
}

/// The same, summed up only if the regions have lines.
pub(crate) fn summary_if(
    alloc: Global,
    asks: &[Region],
    comparison: Comparison,
    has_lines: bool,
) -> Result<Summary, AllocError>
    ensures summary { IfOk result (λ s. (old new : List SpecRule) →
        IsComparison asks.now old new comparison.found.items comparison.left.items →
        IsSummary asks.now old new s.found.items s.left.items) }
    ensures or_none { IfOk result (λ s. has_lines ≡ true → OrNoneIsMeant asks.now s.found.items) }
    ensures operations { IfOk result (λ s. has_lines ≡ true → OperationsAreMeant asks.now s.found.items) }
    ensures in_order { IfOk result (λ s. has_lines ≡ true → IsNonDecreasingBy rank s.found.items) }
    ensures left { IfOk result (λ s. s.left.items ≡ comparison.left.items) }
    ensures steps { IfOk result (λ s. s.steps ≡ comparison.steps) }
{
    if has_lines {
        return summary_of(alloc, asks, comparison);
    }
    let steps = comparison.steps;
    let (found, left) = comparison.into_parts();
    Ok(Summary { found, left, steps })
}

/// The place of a region among others: the lower comes first.
fn rank(found: &Found) -> u8
    ensures { result ≡ rank found.now }
{
    if found.allows { 0 } else { 1 }
}

/// Sorts them: what is newly allowed comes first.
fn sort_found(found: &mut Vec<Found>) -> Result<(), AllocError>
    ensures permutation { IsPermutation found.old.items found.new.items }
    ensures in_order { OnOk result (IsNonDecreasingBy rank found.new.items) }
{
    found.sort_by_key(|each| rank(each))?;
    Ok(())
}

/// How two policies compare, by how many other parts differ, how many regions were found, how many are left, and by the
/// pairs if they were looked for.
pub fn judged_by(differ: usize, found: usize, left: usize, pairs: &Option<Pairs>) -> Compared
    ensures { result ≡ judged_by differ found left (known_of pairs.now) }
{
    match pairs {
        Some(pairs) => paired_by(differ, pairs),
        None => compared_by(differ, found, left),
    }
}

fn paired_by(differ: usize, pairs: &Pairs) -> Compared
    ensures { result ≡ paired_by differ (findings pairs.now.found.items pairs.now.given_up.items pairs.now.steps) }
{
    if !pairs.given_up.is_empty() {
        Compared::Unfinished
    } else if !pairs.found.is_empty() {
        Compared::Paired
    } else if differ != 0 {
        Compared::OtherParts
    } else {
        Compared::Alike
    }
}

/// The same where pairs aren't looked for.
pub fn compared_by(differ: usize, found: usize, left: usize) -> Compared
    ensures { result ≡ compared_by differ found left }
{
    if left != 0 {
        Compared::Unfinished
    } else if found != 0 {
        Compared::Different
    } else if differ != 0 {
        Compared::OtherParts
    } else {
        Compared::Alike
    }
}

/// Appends the last line.
fn put_ending(out: &mut Vec<u8>, made: Compared, count: usize) -> Result<(), AllocError>
    ensures { OnOk result (out.new.items ≡ out.old.items ++ ending_text made count) }
{
    match made {
        Compared::Alike => out.extend_from_slice(b"no ask is decided otherwise\n"),
        Compared::OtherParts => {
            out.extend_from_slice(b"the rules decide alike, but other parts differ\n")
        }
        Compared::Different => put_finished(out, count),
        Compared::Paired => put_paired(out, count),
        Compared::Unfinished => {
            out.extend_from_slice(unfinished_words(count).as_bytes())?;
            put_kinds(out, count)?;
            out.push(b'\n')?;
            Ok(())
        }
    }
}

fn put_finished(out: &mut Vec<u8>, count: usize) -> Result<(), AllocError>
    ensures { OnOk result (out.new.items ≡
        out.old.items ++ (kinds_text count ++ (codes ", and no other" ++ 10 ∷ []))) }
{
    put_kinds(out, count)?;
    put_slice(out, b", and no other\n")
}

fn put_paired(out: &mut Vec<u8>, count: usize) -> Result<(), AllocError>
    ensures { OnOk result (out.new.items ≡ out.old.items ++ ending_text Compared.Paired count) }
{
    put_slice(out, b"pairs of rules that decide asks otherwise: ")?;
    put_decimal(out, count)?;
    put_slice(out, b", and no other\n")
}

fn unfinished_words(count: usize) -> &'static str
    ensures { result.now ≡ (if count == 1 then codes "not finished: at least this "
        else codes "not finished: at least these ") }
{
    if count == 1 {
        "not finished: at least this "
    } else {
        "not finished: at least these "
    }
}

fn put_kinds(out: &mut Vec<u8>, count: usize) -> Result<(), AllocError>
    ensures { OnOk result (out.new.items ≡ out.old.items ++ kinds_text count) }
{
    put_decimal(out, count)?;
    out.extend_from_slice(kind_words(count).as_bytes())
}

fn kind_words(count: usize) -> &'static str
    ensures { result.now ≡ (if count == 1 then codes " kind of asks is decided otherwise"
        else codes " kinds of asks are decided otherwise") }
{
    if count == 1 {
        " kind of asks is decided otherwise"
    } else {
        " kinds of asks are decided otherwise"
    }
}
