//! What two lists of ranges share, and what is left of one outside the other.
ghost use Rattle.std.specs.Prelude.{◌≡◌, ◌++◌, ◌∷◌, true, IfOk, List, OnOk};
ghost use Rattle.std.specs.List.{flat_map};
ghost use Rattle.std.specs.Option.{option_to_list};
ghost use Rattle.gw_rules.specs.Fields.{value_of};
ghost use Rattle.gw_rules.specs.declared.range.Range.{Range as SpecRange};
ghost use Rattle.gw_ask_sets.specs.regions.Merging.{AreUnited};
ghost use Rattle.gw_ask_sets.specs.regions.Ranges.{both, first_number, greater, lesser, outside, over, shared, shared_with, under, without, without_one};
ghost use Rattle.gw_ask_sets.specs.regions.Tidying.{joined, put_all, put_into, reaches, tidy};

use gw_addr::Sequence;
use gw_rules::{FieldName, Fields, Range, Ranges};
use std::alloc::{AllocError, Global};

pub(crate) fn greater(a: u64, b: u64) -> u64
    ensures { result ≡ greater a b }
{
    if a < b { b } else { a }
}

fn lesser(a: u64, b: u64) -> u64
    ensures { result ≡ lesser a b }
{
    if b < a { b } else { a }
}

/// The numbers of both ranges, if there are some.
pub fn both(a: &Range, b: &Range) -> Option<Range>
    ensures { result ≡ both a.now b.now }
{
    let low = greater(a.low, b.low);
    let high = lesser(a.high, b.high);
    if low <= high {
        Some(Range { low, high })
    } else {
        None
    }
}

/// The numbers of one range below another one.
fn under(a: &Range, b: &Range) -> Option<Range>
    ensures { result ≡ under a.now b.now }
{
    if a.low < b.low {
        let high = if a.high < b.low { a.high } else { b.low - 1 };
        Some(Range { low: a.low, high })
    } else {
        None
    }
}

/// The numbers of one range above another one.
fn over(a: &Range, b: &Range) -> Option<Range>
    ensures { result ≡ over a.now b.now }
{
    if b.high < a.high {
        let low = if b.high < a.low { a.low } else { b.high + 1 };
        Some(Range { low, high: a.high })
    } else {
        None
    }
}

fn push_some(out: &mut Sequence<Range>, range: Option<Range>) -> Result<(), AllocError>
    ensures { OnOk result (out.new ≡ out.old ++ option_to_list range) }
{
    if let Some(range) = range {
        out.push(range)?;
    }
    Ok(())
}

fn push_shared(out: &mut Sequence<Range>, x: &Range, ys: &[Range]) -> Result<(), AllocError>
    ensures { OnOk result (out.new ≡ out.old ++ shared_with ys.now x.now) }
{
    for y in ys {
        push_some(out, both(x, y))?;
    }
    Ok(())
}

/// The numbers that both lists hold. An `Err` if there is no memory.
pub fn shared(alloc: Global, xs: &[Range], ys: &[Range]) -> Result<Sequence<Range>, AllocError>
    ensures { IfOk result (λ list. list ≡ shared xs.now ys.now) }
{
    let mut out = Sequence::new(alloc);
    for x in xs {
        push_shared(&mut out, x, ys)?;
    }
    Ok(out)
}

fn push_outside(out: &mut Sequence<Range>, y: &Range, x: &Range) -> Result<(), AllocError>
    ensures { OnOk result (out.new ≡ out.old ++ outside y.now x.now) }
{
    push_some(out, under(x, y))?;
    push_some(out, over(x, y))
}

/// The numbers of the list outside a range.
fn without_one(alloc: Global, xs: &[Range], y: &Range) -> Result<Sequence<Range>, AllocError>
    ensures { IfOk result (λ list. list ≡ without_one xs.now y.now) }
{
    let mut out = Sequence::new(alloc);
    for x in xs {
        push_outside(&mut out, y, x)?;
    }
    Ok(out)
}

/// The same ranges once more. An `Err` if there is no memory.
pub fn copy(alloc: Global, xs: &[Range]) -> Result<Sequence<Range>, AllocError>
    ensures { IfOk result (λ list. list ≡ xs.now) }
{
    let mut out = Sequence::new(alloc);
    for x in xs {
        out.push(*x)?;
    }
    Ok(out)
}

fn copy_of(alloc: Global, fields: &Fields<Ranges>, field: FieldName) -> Result<Ranges, AllocError>
    ensures { IfOk result (λ made. made ≡ value_of field fields.now) }
{
    copy(alloc, fields.get(field).as_slice())
}

/// The same ranges of each field once more. An `Err` if there is no memory.
pub fn copy_fields(alloc: Global, fields: &Fields<Ranges>) -> Result<Fields<Ranges>, AllocError>
    ensures { IfOk result (λ made. made ≡ fields.now) }
{
    Fields::try_from_each(|field| copy_of(alloc, fields, field))
}

/// The numbers of the list outside all of these ranges. An `Err` if there is no memory.
pub fn without(alloc: Global, xs: &[Range], ys: &[Range]) -> Result<Sequence<Range>, AllocError>
    ensures { IfOk result (λ list. list ≡ without xs.now ys.now) }
{
    let mut rest = copy(alloc, xs)?;
    for y in ys {
        rest = without_one(alloc, rest.as_slice(), y)?;
    }
    Ok(rest)
}

/// A number that a range and one of the list hold, if there is one.
fn common_with(x: &Range, ys: &[Range]) -> Option<u64>
    ensures { result ≡ first_number (shared_with ys.now x.now) }
{
    for y in ys {
        if let Some(range) = both(x, y) {
            return Some(range.low);
        }
    }
    None
}

/// A number that both lists hold, if there is one. It takes no memory.
pub(crate) fn common_number(xs: &[Range], ys: &[Range]) -> Option<u64>
    ensures { result ≡ first_number (shared xs.now ys.now) }
{
    for x in xs {
        if let Some(number) = common_with(x, ys) {
            return Some(number);
        }
    }
    None
}

/// Whether two lists are the same.
pub(crate) fn same_ranges(a: &[Range], b: &[Range]) -> bool
    ensures { result ≡ true → a.now ≡ b.now }
{
    if a.len() != b.len() {
        return false;
    }
    for place in 0..a.len() {
        if a[place].low != b[place].low || a[place].high != b[place].high {
            return false;
        }
    }
    true
}

/// Whether a range begins at the end of another one, right after it, or before that.
fn reaches(a: &Range, b: &Range) -> bool
    ensures { result ≡ reaches a.now b.now }
{
    b.low <= a.high || b.low - 1 == a.high
}

/// One range in the place of two, if they overlap or touch, or one of them has no number.
fn joined(a: &Range, b: &Range) -> Option<Range>
    ensures { result ≡ joined a.now b.now }
{
    if a.high < a.low {
        return Some(*b);
    }
    if b.high < b.low {
        return Some(*a);
    }
    if reaches(a, b) && reaches(b, a) {
        let low = lesser(a.low, b.low);
        let high = greater(a.high, b.high);
        return Some(Range { low, high });
    }
    None
}

/// Puts the lower one of two ranges after the others, and gives back the other one; or one in the place of
/// both.
#[tactic(auto, using(crate::proofs::regions_lemmas::TidyLaw::lower_joined, crate::proofs::regions_lemmas::TidyLaw::lower_first, crate::proofs::regions_lemmas::TidyLaw::lower_second))]
fn put_lower(out: &mut Sequence<Range>, a: Range, b: Range) -> Result<Range, AllocError>
    ensures { IfOk result (λ rest. (xs : List SpecRange) →
        out.new ++ put_into xs rest ≡ out.old ++ put_into (b ∷ xs) a) }
{
    if let Some(both) = joined(&a, &b) {
        return Ok(both);
    }
    if b.low < a.low {
        out.push(b)?;
        return Ok(a);
    }
    out.push(a)?;
    Ok(b)
}

/// The numbers of the list and of a range. A list in order stays so, and ranges that follow one another are
/// made one.
fn inserted(alloc: Global, list: &[Range], range: Range) -> Result<Sequence<Range>, AllocError>
    ensures { IfOk result (λ all. all ≡ put_into list.now range) }
{
    let mut out = Sequence::new(alloc);
    let mut carried = range;
    for next in list {
        carried = put_lower(&mut out, carried, *next)?;
    }
    out.push(carried)?;
    Ok(out)
}

/// The numbers of both lists.
fn with_all(
    alloc: Global,
    list: Sequence<Range>,
    more: &[Range],
) -> Result<Sequence<Range>, AllocError>
    ensures { IfOk result (λ all. all ≡ put_all list more.now) }
{
    let mut all = list;
    for range in more {
        all = inserted(alloc, all.as_slice(), *range)?;
    }
    Ok(all)
}

/// The numbers of a list, in order: no range overlaps or touches another. An `Err` if there is no memory.
pub fn tidy(alloc: Global, xs: &[Range]) -> Result<Sequence<Range>, AllocError>
    ensures { IfOk result (λ list. list ≡ tidy xs.now) }
{
    with_all(alloc, Sequence::new(alloc), xs)
}

/// The numbers of both lists, in order, and each range as long as it can be. An `Err` if there is no memory.
pub fn united(alloc: Global, xs: &[Range], ys: &[Range]) -> Result<Sequence<Range>, AllocError>
    ensures { IfOk result (λ all. AreUnited all xs.now ys.now) }
{
    let some = tidy(alloc, xs)?;
    with_all(alloc, some, ys)
}
