//! The line of a region in which every ask is decided otherwise.
ghost use Rattle.std.specs.Prelude.{◌≡◌, ◌-◌, ◌++◌, not, codes, take, OnOk};
ghost use Rattle.std.specs.List.{flat_map};
ghost use Rattle.gw_policy_review.specs.comparison.Lines.{deciders_text, line_text, name_of, names_text, rule_name, verdict_text};
ghost use Rattle.gw_policy_review.specs.comparison.Words.{any_of};

use crate::comparison::naming::Names;
use crate::comparison::words::put_region;
use crate::places::put_place_at;
use gw_ask_sets::regions::Found;
use gw_rules::Rule;
use std::alloc::{AllocError, Global};

/// Appends the lines of what was found.
pub(crate) fn put_lines(
    alloc: Global,
    out: &mut Vec<u8>,
    old: &Names<'_>,
    new: &Names<'_>,
    found: &[Found],
) -> Result<(), AllocError>
    ensures { OnOk result (out.new.items ≡
        out.old.items ++ flat_map (line_text old.now new.now) found.now) }
{
    for each in found {
        put_line(alloc, out, old, new, each)?;
    }
    Ok(())
}

/// Appends the line of one region.
pub(crate) fn put_line(
    alloc: Global,
    out: &mut Vec<u8>,
    old: &Names<'_>,
    new: &Names<'_>,
    found: &Found,
) -> Result<(), AllocError>
    ensures { OnOk result (out.new.items ≡ out.old.items ++ line_text old.now new.now found.now) }
{
    out.extend_from_slice(b"now ")?;
    out.extend_from_slice(verdict(found.allows).as_bytes())?;
    out.extend_from_slice(b": ")?;
    put_region(alloc, out, &found.region)?;
    put_deciders(out, old, new, found)?;
    out.push(b'\n')?;
    Ok(())
}

pub(crate) fn verdict(allows: bool) -> &'static str
    ensures { result.now ≡ verdict_text allows }
{
    if allows { "allowed" } else { "denied" }
}

/// Appends which rules decide the asks of a region, now and before.
fn put_deciders(
    out: &mut Vec<u8>,
    old: &Names<'_>,
    new: &Names<'_>,
    found: &Found,
) -> Result<(), AllocError>
    ensures { OnOk result (out.new.items ≡
        out.old.items ++ deciders_text old.now new.now found.now) }
{
    out.extend_from_slice(b", by ")?;
    put_names(out, new, &found.new_rules)?;
    out.extend_from_slice(b" (was ")?;
    out.extend_from_slice(verdict(!found.allows).as_bytes())?;
    out.extend_from_slice(b" by ")?;
    put_names(out, old, &found.old_rules)?;
    out.extend_from_slice(b")")
}

/// Appends the names of the rules of these numbers.
pub(crate) fn put_names(
    out: &mut Vec<u8>,
    names: &Names<'_>,
    numbers: &[usize],
) -> Result<(), AllocError>
    ensures { OnOk result (out.new.items ≡ out.old.items ++ names_text names.now numbers.now) }
{
    let Some((first, rest)) = numbers.split_first() else {
        return Ok(());
    };
    put_name(out, names, *first)?;
    put_more_names(out, names, rest)
}

fn put_more_names(out: &mut Vec<u8>, names: &Names<'_>, numbers: &[usize]) -> Result<(), AllocError>
    ensures { OnOk result (out.new.items ≡
        out.old.items ++ flat_map (λ other. codes " or " ++ rule_name names.now other) numbers.now) }
{
    for number in numbers {
        put_other_name(out, names, *number)?;
    }
    Ok(())
}

fn put_other_name(out: &mut Vec<u8>, names: &Names<'_>, number: usize) -> Result<(), AllocError>
    ensures { OnOk result (out.new.items ≡
        out.old.items ++ (codes " or " ++ rule_name names.now number)) }
{
    out.extend_from_slice(b" or ")?;
    put_name(out, names, number)
}

/// Appends the name of the rule of a number, and the place of its table if that has another number, or `default` for 0.
pub(crate) fn put_name(
    out: &mut Vec<u8>,
    names: &Names<'_>,
    number: usize,
) -> Result<(), AllocError>
    ensures { OnOk result (out.new.items ≡ out.old.items ++ rule_name names.now number) }
{
    if number == 0 {
        return out.extend_from_slice(b"default");
    }
    put_name_of(out, names.rules(), number)?;
    put_place_at(out, names.tables(), names.lines(), number)
}

fn put_name_of(out: &mut Vec<u8>, rules: &[Rule], number: usize) -> Result<(), AllocError>
    ensures { OnOk result (out.new.items ≡ out.old.items ++ name_of rules.now number) }
{
    match rules.get(number.saturating_sub(1)) {
        Some(rule) => out.extend_from_slice(rule.name.as_str().as_bytes()),
        None => Ok(()),
    }
}
