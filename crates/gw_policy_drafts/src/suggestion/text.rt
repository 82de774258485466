//! The text of the rules that are suggested.
ghost use Rattle.std.specs.Prelude.{◌≡◌, ◌==◌, ◌&&◌, ◌++◌, OnOk};
ghost use Rattle.std.specs.List.{flat_map, list_all};
ghost use Rattle.gw_rules.specs.Rule.{matches};
ghost use Rattle.gw_rules.specs.declared.field.TheConstants.FieldName.{ALL};
ghost use Rattle.gw_policy_drafts.specs.suggestion.Given.{is_open};
ghost use Rattle.gw_policy_drafts.specs.suggestion.Text.{asserted_name, commented_line, last_text, left_line, left_ranges, left_table};
ghost use Rattle.gw_policy_drafts.specs.suggestion.Text.{left_text, unnamed_line, any_line, apart_line, asks_line, counted_on};
ghost use Rattle.gw_policy_drafts.specs.suggestion.Text.{counted_text, is_for, is_own, is_request, is_traffic, matters, may_name_station};
ghost use Rattle.gw_policy_drafts.specs.suggestion.Text.{next_plain_item, none_line, note_line, notes_text, open_asks_line, open_line};
ghost use Rattle.gw_policy_drafts.specs.suggestion.Text.{plain_item, plain_items, plain_line, plain_value, ranges_line, rule_text};
ghost use Rattle.gw_policy_drafts.specs.suggestion.Text.{source_line, suggestion_text, table_text, total, unread_line};

use crate::migration::{put_field, put_field_items, put_operation, put_quoted_station};
use crate::suggestion::given::{Weighted, is_open};
use crate::suggestion::leaving::LeftOut;
use gw_addr::put_decimal;
use gw_configuration::{Assertion, Format};
use gw_rules::{FieldName, Operation, Range, Rule};
use std::alloc::AllocError;

/// Whose rules they are: the format of the configuration, and the network of its device.
#[derive(Clone, Copy)]
pub(crate) struct DraftSite {
    pub format: Format,
    pub network: u64,
}

/// What the comments are about: the rules that are left out, and the assertions that they would break; the asks that were
/// given, how many groups of them were left apart, and how many lines show no ask.
#[derive(Clone, Copy)]
pub(crate) struct CommentParts<'a> {
    pub left: &'a [LeftOut],
    pub assertions: &'a [Assertion],
    pub asks: &'a [Weighted],
    pub apart: u64,
    pub unread: u64,
}

/// The text of the rules: a table for each, with comments; how many asks have none; and how many lines show no ask.
pub(crate) fn put_text(
    out: &mut Vec<u8>,
    place: DraftSite,
    rules: &[Rule],
    said: &CommentParts<'_>,
) -> Result<(), AllocError>
    ensures { OnOk result (out.new.items ≡ out.old.items
        ++ suggestion_text place said.now.assertions.now rules.now said.now.left.now said.now.asks.now said.now.apart said.now.unread) }
{
    let open_asks = count_open(said.asks);
    put_none(out, rules, said.left, open_asks)?;
    put_rules(out, place, rules, said.asks)?;
    put_each_left(out, said.assertions, said.left, said.asks)?;
    put_last(out, open_asks, said.apart, said.unread)
}

/// Appends what is said after the rules.
#[tactic(auto, unfolding(crate::specs::suggestion::Text::last_text))]
fn put_last(out: &mut Vec<u8>, open_asks: u64, apart: u64, unread: u64) -> Result<(), AllocError>
    ensures { OnOk result (out.new.items ≡ out.old.items ++ last_text open_asks apart unread) }
{
    put_apart(out, apart)?;
    put_open(out, open_asks)?;
    put_unread(out, unread)
}

fn put_each_left(
    out: &mut Vec<u8>,
    assertions: &[Assertion],
    left: &[LeftOut],
    asks: &[Weighted],
) -> Result<(), AllocError>
    ensures { OnOk result (out.new.items ≡ out.old.items ++ flat_map (left_text assertions.now asks.now) left.now) }
{
    for one in left {
        put_left(out, assertions, one, asks)?;
    }
    Ok(())
}

/// Appends a rule that is left out, as comments.
#[tactic(auto, unfolding(crate::specs::suggestion::Text::left_text))]
fn put_left(
    out: &mut Vec<u8>,
    assertions: &[Assertion],
    left: &LeftOut,
    asks: &[Weighted],
) -> Result<(), AllocError>
    ensures { OnOk result (out.new.items ≡ out.old.items ++ left_text assertions.now asks.now left.now) }
{
    put_asks(out, &left.rule, asks)?;
    put_left_line(out, asserted_name(assertions, left.assertion))?;
    put_left_table(out, &left.rule)
}

/// The name of the assertion at a place, or nothing.
fn asserted_name(assertions: &[Assertion], place: usize) -> &str
    ensures { result.now ≡ asserted_name assertions.now place }
{
    match assertions.get(place) {
        Some(assertion) => assertion.name.as_str(),
        None => "",
    }
}

#[tactic(auto, unfolding(crate::specs::suggestion::Text::left_line))]
fn put_left_line(out: &mut Vec<u8>, name: &str) -> Result<(), AllocError>
    ensures { OnOk result (out.new.items ≡ out.old.items ++ left_line name.now) }
{
    out.extend_from_slice(b"# left out, since it would break the assertion \"")?;
    out.extend_from_slice(name.as_bytes())?;
    out.extend_from_slice(b"\"\n")?;
    Ok(())
}

#[tactic(auto, unfolding(crate::specs::suggestion::Text::left_table))]
fn put_left_table(out: &mut Vec<u8>, rule: &Rule) -> Result<(), AllocError>
    ensures { OnOk result (out.new.items ≡ out.old.items ++ left_table rule.now) }
{
    out.extend_from_slice(b"# [[rule]]\n# name = \"")?;
    out.extend_from_slice(rule.name.as_str().as_bytes())?;
    out.extend_from_slice(b"\"\n# allow = true\n")?;
    put_left_fields(out, rule)?;
    out.push(b'\n')?;
    Ok(())
}

fn put_left_fields(out: &mut Vec<u8>, rule: &Rule) -> Result<(), AllocError>
    ensures { OnOk result (out.new.items ≡ out.old.items ++ flat_map (left_ranges rule.now) ALL) }
{
    for field in FieldName::ALL.iter() {
        put_left_ranges(out, rule, *field)?;
    }
    Ok(())
}

fn put_left_ranges(out: &mut Vec<u8>, rule: &Rule, field: FieldName) -> Result<(), AllocError>
    ensures { OnOk result (out.new.items ≡ out.old.items ++ left_ranges rule.now field) }
{
    put_commented(out, field, rule.ranges(field).as_slice())
}

#[tactic(auto, unfolding(crate::specs::suggestion::Text::commented_line))]
fn put_commented(out: &mut Vec<u8>, field: FieldName, ranges: &[Range]) -> Result<(), AllocError>
    ensures { OnOk result (out.new.items ≡ out.old.items ++ commented_line field ranges.now) }
{
    if ranges.is_empty() {
        return Ok(());
    }
    out.extend_from_slice(b"# ")?;
    put_field_items(out, field, ranges)?;
    out.push(b'\n')?;
    Ok(())
}

/// Appends that there is nothing to suggest, if so.
#[tactic(auto, unfolding(crate::specs::suggestion::Text::none_line))]
fn put_none(
    out: &mut Vec<u8>,
    rules: &[Rule],
    left: &[LeftOut],
    open_asks: u64,
) -> Result<(), AllocError>
    ensures { OnOk result (out.new.items ≡ out.old.items ++ none_line rules.now left.now open_asks) }
{
    if rules.is_empty() && left.is_empty() && open_asks == 0 {
        out.extend_from_slice(b"# no ask is denied: there is nothing to suggest\n")
    } else {
        Ok(())
    }
}

fn put_rules(
    out: &mut Vec<u8>,
    place: DraftSite,
    rules: &[Rule],
    asks: &[Weighted],
) -> Result<(), AllocError>
    ensures { OnOk result (out.new.items ≡ out.old.items ++ flat_map (rule_text place asks.now) rules.now) }
{
    for rule in rules {
        put_rule(out, place, rule, asks)?;
    }
    Ok(())
}

/// A sum with a number more, if so.
fn counted_on(sum: u64, passes: bool, times: u64) -> u64
    ensures { result ≡ counted_on sum passes times }
{
    if passes {
        sum.saturating_add(times)
    } else {
        sum
    }
}

/// How many asks were given that have no rule.
fn count_open(asks: &[Weighted]) -> u64
    ensures { result ≡ total is_open asks.now }
{
    let mut count = 0u64;
    for each in asks {
        count = counted_on(count, is_open(&each.ask), each.times);
    }
    count
}

/// Appends a comment on the groups that were left apart, if there are such.
#[tactic(auto, unfolding(crate::specs::suggestion::Text::apart_line))]
fn put_apart(out: &mut Vec<u8>, apart: u64) -> Result<(), AllocError>
    ensures { OnOk result (out.new.items ≡ out.old.items ++ apart_line apart) }
{
    if apart == 0 {
        return Ok(());
    }
    out.extend_from_slice(b"# ")?;
    put_decimal(out, apart)?;
    out.extend_from_slice(
        b" groups of asks were left apart after 65536 looks: some of these rules may be one\n",
    )
}

/// Appends a comment on the asks that have no rule, if there are such.
#[tactic(auto, unfolding(crate::specs::suggestion::Text::open_line))]
fn put_open(out: &mut Vec<u8>, open_asks: u64) -> Result<(), AllocError>
    ensures { OnOk result (out.new.items ≡ out.old.items ++ open_line open_asks) }
{
    if open_asks == 0 {
        return Ok(());
    }
    put_open_asks(out, open_asks)
}

fn put_open_asks(out: &mut Vec<u8>, open_asks: u64) -> Result<(), AllocError>
    ensures { OnOk result (out.new.items ≡ out.old.items ++ open_asks_line open_asks) }
{
    out.extend_from_slice(b"# ")?;
    put_counted(out, open_asks, b"read or write", b"reads or writes")?;
    out.extend_from_slice(
        b" without an object, a property or a priority: a rule would allow each, so there is none\n",
    )?;
    Ok(())
}

/// Appends a comment on the lines that show no ask, if there are such.
#[tactic(auto, unfolding(crate::specs::suggestion::Text::unread_line))]
fn put_unread(out: &mut Vec<u8>, unread: u64) -> Result<(), AllocError>
    ensures { OnOk result (out.new.items ≡ out.old.items ++ unread_line unread) }
{
    if unread == 0 {
        return Ok(());
    }
    out.extend_from_slice(b"# ")?;
    put_counted(out, unread, b"line shows", b"lines show")?;
    out.extend_from_slice(b" no ask\n")
}

/// Appends a count and what is counted.
#[tactic(auto, unfolding(crate::specs::suggestion::Text::counted_text))]
fn put_counted(
    out: &mut Vec<u8>,
    count: u64,
    one: &'static [u8],
    many: &'static [u8],
) -> Result<(), AllocError>
    ensures { OnOk result (out.new.items ≡ out.old.items ++ counted_text count one.now many.now) }
{
    put_decimal(out, count)?;
    out.push(b' ')?;
    out.extend_from_slice(if count == 1 { one } else { many })
}

#[tactic(auto, unfolding(crate::specs::suggestion::Text::rule_text))]
fn put_rule(
    out: &mut Vec<u8>,
    place: DraftSite,
    rule: &Rule,
    asks: &[Weighted],
) -> Result<(), AllocError>
    ensures { OnOk result (out.new.items ≡ out.old.items ++ rule_text place asks.now rule.now) }
{
    put_asks(out, rule, asks)?;
    put_notes(out, place, rule)?;
    put_table(out, place.format, rule)
}

/// Appends how many asks the rule is for.
#[tactic(auto, unfolding(crate::specs::suggestion::Text::asks_line))]
fn put_asks(out: &mut Vec<u8>, rule: &Rule, asks: &[Weighted]) -> Result<(), AllocError>
    ensures { OnOk result (out.new.items ≡ out.old.items ++ asks_line rule.now asks.now) }
{
    out.extend_from_slice(b"# ")?;
    put_counted(out, asks_of(rule, asks), b"ask", b"asks")?;
    out.push(b'\n')?;
    Ok(())
}

/// How many asks were given that the rule matches.
fn asks_of(rule: &Rule, asks: &[Weighted]) -> u64
    ensures { result ≡ total (matches rule.now) asks.now }
{
    let mut count = 0u64;
    for each in asks {
        count = counted_on(count, rule.matches(&each.ask), each.times);
    }
    count
}

/// Appends a comment if the rule names no source: then it is about the whole network; and for each other field that the
/// asks it is for lack.
fn put_notes(out: &mut Vec<u8>, place: DraftSite, rule: &Rule) -> Result<(), AllocError>
    ensures { OnOk result (out.new.items ≡ out.old.items ++ notes_text place rule.now) }
{
    put_source(out, place.format, rule)?;
    put_each_note(out, place, rule)
}

#[tactic(auto, unfolding(crate::specs::suggestion::Text::source_line))]
fn put_source(out: &mut Vec<u8>, format: Format, rule: &Rule) -> Result<(), AllocError>
    ensures { OnOk result (out.new.items ≡ out.old.items ++ source_line format rule.now) }
{
    if rule.ranges(FieldName::SourceKey).as_slice().is_empty() {
        put_unnamed(out, format)
    } else {
        Ok(())
    }
}

#[tactic(auto, unfolding(crate::specs::suggestion::Text::unnamed_line))]
fn put_unnamed(out: &mut Vec<u8>, format: Format) -> Result<(), AllocError>
    ensures { OnOk result (out.new.items ≡ out.old.items ++ unnamed_line format) }
{
    if format.names_stations() {
        out.extend_from_slice(
            b"# no address of one to seven octets: the station can't be named, so its whole network is allowed\n",
        )
    } else {
        out.extend_from_slice(
            b"# no address of six octets: the station can't be named, so its whole network is allowed\n",
        )
    }
}

fn put_each_note(out: &mut Vec<u8>, place: DraftSite, rule: &Rule) -> Result<(), AllocError>
    ensures { OnOk result (out.new.items ≡ out.old.items ++ flat_map (note_line place rule.now) ALL) }
{
    for field in FieldName::ALL.iter() {
        put_note(out, place, rule, *field)?;
    }
    Ok(())
}

#[tactic(auto, unfolding(crate::specs::suggestion::Text::note_line))]
fn put_note(
    out: &mut Vec<u8>,
    place: DraftSite,
    rule: &Rule,
    field: FieldName,
) -> Result<(), AllocError>
    ensures { OnOk result (out.new.items ≡ out.old.items ++ note_line place rule.now field) }
{
    if rule.ranges(field).as_slice().is_empty() && matters(place, rule, field) {
        put_any(out, field)
    } else {
        Ok(())
    }
}

fn put_any(out: &mut Vec<u8>, field: FieldName) -> Result<(), AllocError>
    ensures { OnOk result (out.new.items ≡ out.old.items ++ any_line field) }
{
    out.extend_from_slice(b"# no ")?;
    out.extend_from_slice(field.key().as_bytes())?;
    out.extend_from_slice(b": any is allowed\n")?;
    Ok(())
}

/// Whether a field that a rule doesn't name is worth a comment: its asks lack it, and others of the operation may have it.
fn matters(place: DraftSite, rule: &Rule, field: FieldName) -> bool
    ensures { result ≡ matters place rule.now field }
{
    match field {
        FieldName::DestinationNetwork => is_traffic(rule) || is_request(rule),
        FieldName::ObjectType | FieldName::Instance | FieldName::Property => is_request(rule),
        FieldName::Priority => is_for(rule, Operation::Write),
        FieldName::Station => may_name_station(place, rule),
        _ => false,
    }
}

fn is_traffic(rule: &Rule) -> bool
    ensures { result ≡ is_traffic rule.now }
{
    is_for(rule, Operation::Cast) || is_for(rule, Operation::Route)
}

fn is_request(rule: &Rule) -> bool
    ensures { result ≡ is_request rule.now }
{
    is_for(rule, Operation::Read) || is_for(rule, Operation::Write)
}

/// Whether asks of the rule's operations may name a station: those that are passed on, and that delete a registration.
fn may_name_station(place: DraftSite, rule: &Rule) -> bool
    ensures { result ≡ may_name_station place rule.now }
{
    place.format.names_stations()
        && (is_traffic(rule)
            || is_for(rule, Operation::Delete)
            || (is_request(rule) && !is_own(place.network, rule)))
}

/// Whether all that the rule is for is bound for the network of the device.
fn is_own(network: u64, rule: &Rule) -> bool
    ensures { result ≡ is_own network rule.now }
{
    let ranges = rule.ranges(FieldName::DestinationNetwork).as_slice();
    !ranges.is_empty() && are_all(network, ranges)
}

fn are_all(network: u64, ranges: &[Range]) -> bool
    ensures { result ≡ list_all (λ range. (range.low == network) && (range.high == network)) ranges.now }
{
    ranges
        .iter()
        .all(|range| range.low == network && range.high == network)
}

/// Whether a rule names an operation.
fn is_for(rule: &Rule, operation: Operation) -> bool
    ensures { result ≡ is_for rule.now operation }
{
    let number = operation.number();
    rule.ranges(FieldName::Operation)
        .as_slice()
        .iter()
        .any(|range| range.holds(number))
}

/// Appends the table of a rule.
#[tactic(auto, unfolding(crate::specs::suggestion::Text::table_text))]
fn put_table(out: &mut Vec<u8>, format: Format, rule: &Rule) -> Result<(), AllocError>
    ensures { OnOk result (out.new.items ≡ out.old.items ++ table_text format rule.now) }
{
    out.extend_from_slice(b"[[rule]]\nname = \"")?;
    out.extend_from_slice(rule.name.as_str().as_bytes())?;
    out.extend_from_slice(b"\"\nallow = true\n")?;
    put_fields(out, format, rule)?;
    out.push(b'\n')?;
    Ok(())
}

fn put_fields(out: &mut Vec<u8>, format: Format, rule: &Rule) -> Result<(), AllocError>
    ensures { OnOk result (out.new.items ≡ out.old.items ++ flat_map (ranges_line format rule.now) ALL) }
{
    for field in FieldName::ALL.iter() {
        put_ranges(out, format, rule, *field)?;
    }
    Ok(())
}

/// Appends the line of a field that the rule names.
#[tactic(auto, unfolding(crate::specs::suggestion::Text::ranges_line))]
fn put_ranges(
    out: &mut Vec<u8>,
    format: Format,
    rule: &Rule,
    field: FieldName,
) -> Result<(), AllocError>
    ensures { OnOk result (out.new.items ≡ out.old.items ++ ranges_line format rule.now field) }
{
    let ranges = rule.ranges(field).as_slice();
    if format.names_stations() {
        put_field(out, field, ranges)
    } else {
        put_plain(out, field, ranges)
    }
}

/// Appends the line of a field as formats 1 and 2 write it.
fn put_plain(out: &mut Vec<u8>, field: FieldName, ranges: &[Range]) -> Result<(), AllocError>
    ensures { OnOk result (out.new.items ≡ out.old.items ++ plain_line field ranges.now) }
{
    if ranges.is_empty() {
        return Ok(());
    }
    out.extend_from_slice(field.key().as_bytes())?;
    out.extend_from_slice(b" = [")?;
    put_plain_items(out, field, ranges)?;
    out.extend_from_slice(b"]\n")
}

#[tactic(auto, unfolding(crate::specs::suggestion::Text::plain_items))]
fn put_plain_items(out: &mut Vec<u8>, field: FieldName, ranges: &[Range]) -> Result<(), AllocError>
    ensures { OnOk result (out.new.items ≡ out.old.items ++ plain_items field ranges.now) }
{
    let Some((first, rest)) = ranges.split_first() else {
        return Ok(());
    };
    put_plain_item(out, field, *first)?;
    put_more_plain_items(out, field, rest)
}

fn put_more_plain_items(
    out: &mut Vec<u8>,
    field: FieldName,
    ranges: &[Range],
) -> Result<(), AllocError>
    ensures { OnOk result (out.new.items ≡ out.old.items ++ flat_map (next_plain_item field) ranges.now) }
{
    for range in ranges {
        put_next_plain_item(out, field, *range)?;
    }
    Ok(())
}

fn put_next_plain_item(out: &mut Vec<u8>, field: FieldName, range: Range) -> Result<(), AllocError>
    ensures { OnOk result (out.new.items ≡ out.old.items ++ next_plain_item field range) }
{
    out.extend_from_slice(b", ")?;
    put_plain_item(out, field, range)
}

/// Appends the item of a range: its one number, or both ends.
#[tactic(auto, unfolding(crate::specs::suggestion::Text::plain_item))]
fn put_plain_item(out: &mut Vec<u8>, field: FieldName, range: Range) -> Result<(), AllocError>
    ensures { OnOk result (out.new.items ≡ out.old.items ++ plain_item field range) }
{
    if range.low == range.high {
        return put_value(out, field, range.low);
    }
    out.push(b'[')?;
    put_value(out, field, range.low)?;
    out.extend_from_slice(b", ")?;
    put_value(out, field, range.high)?;
    out.push(b']')?;
    Ok(())
}

fn put_value(out: &mut Vec<u8>, field: FieldName, number: u64) -> Result<(), AllocError>
    ensures { OnOk result (out.new.items ≡ out.old.items ++ plain_value field number) }
{
    match field {
        FieldName::Operation => put_operation(out, number),
        FieldName::SourceKey | FieldName::Sender | FieldName::Station => {
            put_quoted_station(out, number)
        }
        _ => put_decimal(out, number),
    }
}
