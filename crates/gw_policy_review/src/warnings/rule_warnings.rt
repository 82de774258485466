//! Warnings of rules.
ghost use Rattle.std.specs.Prelude.{◌≡◌, ◌++◌, codes, decimal};
ghost use Rattle.gw_addr.specs.Appending.{IsAppended};
ghost use Rattle.gw_script.specs.Order.{in_order};
ghost use Rattle.gw_policy_review.specs.warnings.Warnings.{cut_line, cut_lines, ends_words, is_cut, is_missing, item_words, missing_line};
ghost use Rattle.gw_policy_review.specs.warnings.Warnings.{missing_lines, none_line, none_lines, range_word, range_words, rule_lines};
ghost use Rattle.gw_policy_review.specs.warnings.Warnings.{with_udp};

use crate::warnings::spot::{put_name, put_numbered};
use crate::warnings::subnet::number_of;
use gw_addr::{BipAddr, put_decimal, put_octet, put_slice};
use gw_ask_sets::ask_text::address_of;
use gw_rules::{Format, Range, Rule, RuleName};
use std::alloc::AllocError;

/// The greatest UDP port.
const LAST_PORT: u16 = 65535;

/// A field of a rule whose ranges have a line each.
#[derive(Clone, Copy)]
struct RuleField<'a> {
    /// The format of the policy.
    format: Format,
    /// The position of the rule, from 0.
    index: usize,
    /// The rule's name.
    name: &'a RuleName,
    /// The key of the field.
    key: &'a [u8],
}

/// Appends the line of a policy without rules.
pub(crate) fn put_none(out: &mut Vec<u8>, rules: &[Rule]) -> Result<(), AllocError>
    ensures { IsAppended (none_lines rules.now) out.old out.new result }
{
    if rules.is_empty() {
        put_none_line(out)
    } else {
        Ok(())
    }
}

fn put_none_line(out: &mut Vec<u8>) -> Result<(), AllocError>
    ensures { IsAppended none_line out.old out.new result }
{
    put_slice(out, b"warning: there is no rule, so every ask is denied")?;
    put_octet(out, b'\n')
}

/// Appends the lines of the rules in their order, where there are so many ports.
pub(crate) fn put_rules(
    out: &mut Vec<u8>,
    format: Format,
    ports: u64,
    rules: &[Rule],
) -> Result<(), AllocError>
    ensures { IsAppended (in_order (rule_lines format ports) 0 rules.now) out.old out.new result }
{
    for (index, rule) in rules.iter().enumerate() {
        put_rule(out, format, ports, index, rule)?;
    }
    Ok(())
}

fn put_rule(
    out: &mut Vec<u8>,
    format: Format,
    ports: u64,
    index: usize,
    rule: &Rule,
) -> Result<(), AllocError>
    ensures { IsAppended (rule_lines format ports index rule.now) out.old out.new result }
{
    let port = RuleField {
        format,
        index,
        name: &rule.name,
        key: b"port",
    };
    let source = RuleField {
        key: b"source",
        ..port
    };
    let sender = RuleField {
        key: b"sender",
        ..port
    };
    let station = RuleField {
        key: b"station",
        ..port
    };
    put_missing(out, ports, &port, rule.ranges.port.as_slice())?;
    put_cuts(out, &source, rule.ranges.source_key.as_slice())?;
    put_cuts(out, &sender, rule.ranges.sender.as_slice())?;
    put_cuts(out, &station, rule.ranges.station.as_slice())
}

/// Appends a line for each range of ports that names one that isn't there.
fn put_missing(
    out: &mut Vec<u8>,
    ports: u64,
    field: &RuleField<'_>,
    ranges: &[Range],
) -> Result<(), AllocError>
    ensures { IsAppended
        (in_order (missing_lines ports field.now.format field.now.index field.now.name.now field.now.key.now) 0 ranges.now)
        out.old out.new result }
{
    for (item, range) in ranges.iter().enumerate() {
        put_missing_item(out, ports, field, item, range)?;
    }
    Ok(())
}

fn put_missing_item(
    out: &mut Vec<u8>,
    ports: u64,
    field: &RuleField<'_>,
    item: usize,
    range: &Range,
) -> Result<(), AllocError>
    ensures { IsAppended
        (missing_lines ports field.now.format field.now.index field.now.name.now field.now.key.now item range.now)
        out.old out.new result }
{
    if is_missing(ports, range) {
        put_missing_line(out, ports, field, item, range)
    } else {
        Ok(())
    }
}

fn put_missing_line(
    out: &mut Vec<u8>,
    ports: u64,
    field: &RuleField<'_>,
    item: usize,
    range: &Range,
) -> Result<(), AllocError>
    ensures { IsAppended
        (missing_line ports field.now.format field.now.index field.now.name.now field.now.key.now item range.now)
        out.old out.new result }
{
    put_item(out, field, item)?;
    put_range(out, range)?;
    put_slice(out, b" names a port that isn't there; the last is ")?;
    put_decimal(out, ports)?;
    put_octet(out, b'\n')
}

/// Whether a number of the range is none of a port, of so many.
fn is_missing(ports: u64, range: &Range) -> bool
    ensures { result ≡ is_missing ports range.now }
{
    range.low == 0 || ports < range.high
}

/// Appends a number, or a list of two.
fn put_range(out: &mut Vec<u8>, range: &Range) -> Result<(), AllocError>
    ensures { IsAppended (range_words range.now) out.old out.new result }
{
    if range.low == range.high {
        return put_decimal(out, range.low);
    }
    put_pair(out, range)
}

/// Appends the list of the two ends of a range.
fn put_pair(out: &mut Vec<u8>, range: &Range) -> Result<(), AllocError>
    ensures { IsAppended
        (codes "[" ++ decimal range.now.low ++ codes ", " ++ decimal range.now.high ++ codes "]")
        out.old out.new result }
{
    put_octet(out, b'[')?;
    put_decimal(out, range.low)?;
    put_slice(out, b", ")?;
    put_decimal(out, range.high)?;
    put_octet(out, b']')
}

/// Appends a line for each range of addresses that is cut.
fn put_cuts(out: &mut Vec<u8>, field: &RuleField<'_>, ranges: &[Range]) -> Result<(), AllocError>
    ensures { IsAppended
        (in_order (cut_lines field.now.format field.now.index field.now.name.now field.now.key.now) 0 ranges.now)
        out.old out.new result }
{
    for (item, range) in ranges.iter().enumerate() {
        put_cut(out, field, item, range)?;
    }
    Ok(())
}

fn put_cut(
    out: &mut Vec<u8>,
    field: &RuleField<'_>,
    item: usize,
    range: &Range,
) -> Result<(), AllocError>
    ensures { IsAppended
        (cut_lines field.now.format field.now.index field.now.name.now field.now.key.now item range.now)
        out.old out.new result }
{
    let low = address_of(range.low);
    let high = address_of(range.high);
    if is_cut(low, high) {
        put_cut_line(out, field, item, low, high)
    } else {
        Ok(())
    }
}

/// Whether a range from one address to another holds some UDP ports of these two and all of the
/// addresses between.
fn is_cut(low: BipAddr, high: BipAddr) -> bool
    ensures { result ≡ is_cut low high }
{
    low.udp == high.udp && number_of(low.ip) != number_of(high.ip)
}

/// Appends the line of a range that is cut, with the range to write.
fn put_cut_line(
    out: &mut Vec<u8>,
    field: &RuleField<'_>,
    item: usize,
    low: BipAddr,
    high: BipAddr,
) -> Result<(), AllocError>
    ensures { IsAppended
        (cut_line field.now.format field.now.index field.now.name.now field.now.key.now item low high)
        out.old out.new result }
{
    put_item(out, field, item)?;
    put_ends(out, low, high)?;
    put_slice(
        out,
        b" holds every UDP port of the addresses between and some of those at its ends; \
        with every UDP port it is ",
    )?;
    put_ends(out, with_udp(0, low), with_udp(LAST_PORT, high))?;
    put_octet(out, b'\n')
}

fn with_udp(udp: u16, address: BipAddr) -> BipAddr
    ensures { result ≡ with_udp udp address }
{
    BipAddr { udp, ..address }
}

/// Appends two addresses as a range has them.
#[tactic(auto, unfolding(crate::specs::warnings::Warnings::ends_words))]
fn put_ends(out: &mut Vec<u8>, low: BipAddr, high: BipAddr) -> Result<(), AllocError>
    ensures { IsAppended (ends_words low high) out.old out.new result }
{
    put_slice(out, b"[\"")?;
    low.put_text(out)?;
    put_slice(out, b"\", \"")?;
    high.put_text(out)?;
    put_slice(out, b"\"]")
}

/// What ranges are counted as: in formats 1 and 2 each is an item as it is written; in format 3 an item
/// may have several.
fn range_word(format: Format) -> &'static [u8]
    ensures { result.now ≡ range_word format }
{
    if format.names_stations() {
        b": range "
    } else {
        b": item "
    }
}

/// Appends the place of a range of a rule's field.
fn put_item(out: &mut Vec<u8>, field: &RuleField<'_>, item: usize) -> Result<(), AllocError>
    ensures { IsAppended (item_words field.now.format field.now.index field.now.name.now field.now.key.now item)
        out.old out.new result }
{
    put_numbered(out, b"warning: rule ", field.index)?;
    put_name(out, field.name)?;
    put_slice(out, field.key)?;
    put_numbered(out, range_word(field.format), item)?;
    put_slice(out, b": ")
}
