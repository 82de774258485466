//! The lines of what was found: many regions are grouped by the rules that decide in them.
ghost use Rattle.std.specs.Prelude.{◌≡◌, ◌<◌, ◌+◌, ◌-◌, ◌^◌, ◌++◌, ◌==◌, ◌&&◌, [], codes, if◌then◌else◌, length};
ghost use Rattle.std.specs.Prelude.{nat_lt, not, take, IfOk, OnOk};
ghost use Rattle.std.specs.List.{flat_map, list_any};
ghost use Rattle.gw_policy_review.specs.comparison.Groups.{before_text, count_text, firsts, found_text, group_head, group_of};
ghost use Rattle.gw_policy_review.specs.comparison.Groups.{group_text, groups_text, is_like, more_text, now_text, regions_text};
ghost use Rattle.gw_policy_review.specs.comparison.Groups.{was_text};
ghost use Rattle.gw_policy_review.specs.comparison.Lines.{line_text};
ghost use Rattle.gw_ask_sets.specs.regions.Comparing.{unlike};

use crate::comparison::lines::{put_line, put_lines, put_names, verdict};
use crate::comparison::naming::Names;
use gw_addr::put_decimal;
use gw_ask_sets::regions::Found;
use std::alloc::{AllocError, Global};

/// How many regions are printed without groups at most.
pub const MOST_UNGROUPED: usize = 40;

/// Regions that are printed, the rules of the two policies that have names for them, and how many lines there
/// are at most of each group.
#[derive(Clone, Copy)]
pub(crate) struct Listing<'a> {
    pub found: &'a [Found],
    pub old: &'a Names<'a>,
    pub new: &'a Names<'a>,
    pub most: usize,
}

/// Appends the lines of regions: of so many in groups, with a line for each group in front.
pub(crate) fn put_regions(
    alloc: Global,
    out: &mut Vec<u8>,
    listing: &Listing<'_>,
) -> Result<(), AllocError>
    ensures { OnOk result (out.new.items ≡ out.old.items
        ++ regions_text listing.now.old.now listing.now.new.now listing.now.most listing.now.found.now) }
{
    if MOST_UNGROUPED < listing.found.len() {
        put_groups(alloc, out, listing)
    } else {
        put_found(alloc, out, listing)
    }
}

/// Appends the lines of at most so many regions, and how many are left out.
fn put_found(alloc: Global, out: &mut Vec<u8>, listing: &Listing<'_>) -> Result<(), AllocError>
    ensures { OnOk result (out.new.items ≡ out.old.items
        ++ found_text listing.now.old.now listing.now.new.now listing.now.most listing.now.found.now) }
{
    let found = listing.found;
    if listing.most < found.len() {
        put_lines(alloc, out, listing.old, listing.new, &found[..listing.most])?;
        return put_more(out, found.len() - listing.most);
    }
    put_lines(alloc, out, listing.old, listing.new, found)
}

/// Appends how many more there are than are shown.
fn put_more(out: &mut Vec<u8>, count: usize) -> Result<(), AllocError>
    ensures { OnOk result (out.new.items ≡ out.old.items ++ more_text count) }
{
    if count == 0 {
        return Ok(());
    }
    out.extend_from_slice(b"and ")?;
    put_decimal(out, count)?;
    out.extend_from_slice(more_words(count).as_bytes())?;
    out.push(b'\n')?;
    Ok(())
}

fn more_words(count: usize) -> &'static str
    ensures { result.now ≡ (if count == 1 then codes " more kind" else codes " more kinds") }
{
    if count == 1 {
        " more kind"
    } else {
        " more kinds"
    }
}

fn same_verdict(a: bool, b: bool) -> bool
    ensures { result ≡ not (unlike a b) }
{
    if a { b } else { !b }
}

/// Whether the same becomes of the asks of two regions, and by the same rules.
fn is_like(a: &Found, b: &Found) -> bool
    ensures { result ≡ is_like a.now b.now }
{
    same_verdict(a.allows, b.allows)
        && a.new_rules.as_slice() == b.new_rules.as_slice()
        && a.old_rules.as_slice() == b.old_rules.as_slice()
}

/// Whether a region is like one of those that are seen.
fn is_seen(seen: &[Found], found: &Found) -> bool
    ensures { result ≡ list_any (is_like found.now) seen.now }
{
    seen.iter().any(|each| is_like(found, each))
}

fn size_of_group(found: &[Found], first: &Found) -> usize
    ensures { result ≡ length (group_of found.now first.now) }
{
    found.iter().filter(|each| is_like(first, each)).count()
}

/// Appends the lines of regions in groups, with a line for each group in front.
fn put_groups(alloc: Global, out: &mut Vec<u8>, listing: &Listing<'_>) -> Result<(), AllocError>
    ensures { OnOk result (out.new.items ≡ out.old.items
        ++ groups_text listing.now.old.now listing.now.new.now listing.now.most listing.now.found.now) }
{
    put_heads(out, listing)?;
    put_each_group(alloc, out, listing)
}

fn put_heads(out: &mut Vec<u8>, listing: &Listing<'_>) -> Result<(), AllocError>
    ensures { OnOk result (out.new.items ≡ out.old.items
        ++ flat_map (group_head listing.now.old.now listing.now.new.now listing.now.found.now) (firsts listing.now.found.now)) }
{
    for (place, each) in listing.found.iter().enumerate() {
        put_head_unless(out, listing, is_seen(&listing.found[..place], each), each)?;
    }
    Ok(())
}

/// Appends the line of the group of a region, unless one of the group is seen.
fn put_head_unless(
    out: &mut Vec<u8>,
    listing: &Listing<'_>,
    seen: bool,
    first: &Found,
) -> Result<(), AllocError>
    ensures { OnOk result (out.new.items ≡ out.old.items ++ (if seen then []
        else group_head listing.now.old.now listing.now.new.now listing.now.found.now first.now)) }
{
    if seen {
        return Ok(());
    }
    put_head(out, listing, first)
}

fn put_each_group(alloc: Global, out: &mut Vec<u8>, listing: &Listing<'_>) -> Result<(), AllocError>
    ensures { OnOk result (out.new.items ≡ out.old.items
        ++ flat_map (group_text listing.now.old.now listing.now.new.now listing.now.most listing.now.found.now)
        (firsts listing.now.found.now)) }
{
    for (place, each) in listing.found.iter().enumerate() {
        let seen = is_seen(&listing.found[..place], each);
        put_group_unless(alloc, out, listing, seen, each)?;
    }
    Ok(())
}

/// Appends the lines of the group of a region, unless one of the group is seen.
fn put_group_unless(
    alloc: Global,
    out: &mut Vec<u8>,
    listing: &Listing<'_>,
    seen: bool,
    first: &Found,
) -> Result<(), AllocError>
    ensures { OnOk result (out.new.items ≡ out.old.items ++ (if seen then [] else
        group_text listing.now.old.now listing.now.new.now listing.now.most listing.now.found.now first.now)) }
{
    if seen {
        return Ok(());
    }
    put_group(alloc, out, listing, first)
}

/// Appends the line of a group: how many regions it has, what becomes of their asks, and by which rules.
fn put_head(out: &mut Vec<u8>, listing: &Listing<'_>, first: &Found) -> Result<(), AllocError>
    ensures { OnOk result (out.new.items ≡ out.old.items
        ++ group_head listing.now.old.now listing.now.new.now listing.now.found.now first.now) }
{
    let count = size_of_group(listing.found, first);
    put_count(out, count)?;
    put_now(out, listing.new, first)?;
    out.extend_from_slice(was_words(count).as_bytes())?;
    put_before(out, listing.old, first)
}

fn put_count(out: &mut Vec<u8>, count: usize) -> Result<(), AllocError>
    ensures { OnOk result (out.new.items ≡ out.old.items ++ count_text count) }
{
    put_decimal(out, count)?;
    out.extend_from_slice(count_words(count).as_bytes())
}

fn count_words(count: usize) -> &'static str
    ensures { result.now ≡ (if count == 1 then codes " kind: now " else codes " kinds: now ") }
{
    if count == 1 {
        " kind: now "
    } else {
        " kinds: now "
    }
}

fn was_words(count: usize) -> &'static str
    ensures { result.now ≡ was_text count }
{
    if count == 1 { " (was " } else { " (were " }
}

fn put_now(out: &mut Vec<u8>, new: &Names<'_>, found: &Found) -> Result<(), AllocError>
    ensures { OnOk result (out.new.items ≡ out.old.items ++ now_text new.now found.now) }
{
    out.extend_from_slice(verdict(found.allows).as_bytes())?;
    out.extend_from_slice(b" by ")?;
    put_names(out, new, &found.new_rules)
}

fn put_before(out: &mut Vec<u8>, old: &Names<'_>, found: &Found) -> Result<(), AllocError>
    ensures { OnOk result (out.new.items ≡ out.old.items ++ before_text old.now found.now) }
{
    out.extend_from_slice(verdict(!found.allows).as_bytes())?;
    out.extend_from_slice(b" by ")?;
    put_names(out, old, &found.old_rules)?;
    out.extend_from_slice(b")\n")
}

/// Appends the lines of at most so many regions of a group, and how many are left out.
fn put_group(
    alloc: Global,
    out: &mut Vec<u8>,
    listing: &Listing<'_>,
    first: &Found,
) -> Result<(), AllocError>
    ensures { OnOk result (out.new.items ≡ out.old.items
        ++ group_text listing.now.old.now listing.now.new.now listing.now.most listing.now.found.now first.now) }
{
    let count = put_group_lines(alloc, out, listing, first)?;
    if listing.most < count {
        return put_more(out, count - listing.most);
    }
    Ok(())
}

/// Appends the lines of at most so many regions of a group. The answer is how many it has.
fn put_group_lines(
    alloc: Global,
    out: &mut Vec<u8>,
    listing: &Listing<'_>,
    first: &Found,
) -> Result<usize, AllocError>
    ensures text { OnOk result (out.new.items ≡ out.old.items
        ++ flat_map (line_text listing.now.old.now listing.now.new.now)
        (take listing.now.most (group_of listing.now.found.now first.now))) }
    ensures count { IfOk result (λ count. count ≡ length (group_of listing.now.found.now first.now)) }
{
    let mut count = 0;
    for each in listing.found {
        let like = is_like(first, each);
        put_if(
            alloc,
            out,
            listing,
            is_shown(like, count, listing.most),
            each,
        )?;
        count = with_one(count, like);
    }
    Ok(count)
}

/// Whether a region is shown: if it is one of the group, and fewer than the most are shown before it.
fn is_shown(like: bool, count: usize, most: usize) -> bool
    ensures { result ≡ (like && nat_lt count most) }
{
    like && count < most
}

/// Appends the line of a region, if it is to be shown.
fn put_if(
    alloc: Global,
    out: &mut Vec<u8>,
    listing: &Listing<'_>,
    shown: bool,
    found: &Found,
) -> Result<(), AllocError>
    ensures { OnOk result (out.new.items ≡ out.old.items
        ++ (if shown then line_text listing.now.old.now listing.now.new.now found.now else [])) }
{
    if shown {
        return put_line(alloc, out, listing.old, listing.new, found);
    }
    Ok(())
}

fn with_one(count: usize, more: bool) -> usize
    requires { count < 2 ^ 64 - 1 }
    ensures { result ≡ count + (if more then 1 else 0) }
{
    if more { count + 1 } else { count }
}
