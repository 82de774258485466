//! The assertions of a configuration, with what is found of each.
ghost use Rattle.std.specs.Prelude.{◌≡◌, ◌+◌, ◌-◌, ◌<◌, ◌^◌, ◌++◌, option_map, slice_get, OnOk};
ghost use Rattle.std.specs.Option.{option_and_then, option_map_or};
ghost use Rattle.gw_script.specs.Order.{in_order};
ghost use Rattle.gw_report.specs.Report.{asserted_cell, assertion_cells, assertion_row, assertions_columns, assertions_head};
ghost use Rattle.gw_report.specs.Report.{assertions_table, assertions_text, broken_cell, broken_words, judged_at, judged_cell, rule_name};

use crate::page::{Page, PageElement};
use gw_ask_sets::assertions::Judged;
use gw_configuration::{Assertion, Config};
use gw_rules::{NO_RULE, Rule};
use std::alloc::AllocError;

/// Appends a table of the assertions, if there are such, with what was found of each.
pub(crate) fn put_assertions(
    page: &mut Page,
    config: &Config,
    judged: &[Judged],
) -> Result<(), AllocError>
    ensures { OnOk result (page.new ≡ page.old ++ assertions_text config.now judged.now) }
{
    if config.assertions().is_empty() {
        return Ok(());
    }
    put_table(page, config.rules().rules(), judged, config.assertions())
}

#[tactic(auto, unfolding(crate::specs::Report::assertions_table))]
fn put_table(
    page: &mut Page,
    rules: &[Rule],
    judged: &[Judged],
    assertions: &[Assertion],
) -> Result<(), AllocError>
    ensures { OnOk result (page.new ≡ page.old ++ assertions_table rules.now judged.now assertions.now) }
{
    page.element(PageElement::Heading, "Assertions")?;
    page.open(PageElement::Table)?;
    put_head(page)?;
    put_rows(page, rules, judged, assertions)?;
    page.close(PageElement::Table)
}

#[tactic(auto, unfolding(crate::specs::Report::assertions_head))]
fn put_head(page: &mut Page) -> Result<(), AllocError>
    ensures { OnOk result (page.new ≡ page.old ++ assertions_head) }
{
    page.open(PageElement::Row)?;
    put_columns(page)?;
    page.close(PageElement::Row)
}

#[tactic(auto, unfolding(crate::specs::Report::assertions_columns))]
fn put_columns(page: &mut Page) -> Result<(), AllocError>
    ensures { OnOk result (page.new ≡ page.old ++ assertions_columns) }
{
    page.element(PageElement::Head, "")?;
    page.element(PageElement::Head, "name")?;
    page.element(PageElement::Head, "is to be")?;
    page.element(PageElement::Head, "is found")?;
    page.element(PageElement::Head, "note")
}

fn put_rows(
    page: &mut Page,
    rules: &[Rule],
    judged: &[Judged],
    assertions: &[Assertion],
) -> Result<(), AllocError>
    ensures { OnOk result (page.new ≡ page.old ++ in_order (assertion_row rules.now judged.now) 1 assertions.now) }
{
    for place in 0..assertions.len() {
        put_row(page, rules, judged, place, &assertions[place])?;
    }
    Ok(())
}

#[tactic(auto, unfolding(crate::specs::Report::assertion_row))]
fn put_row(
    page: &mut Page,
    rules: &[Rule],
    judged: &[Judged],
    place: usize,
    assertion: &Assertion,
) -> Result<(), AllocError>
    requires { place < 2 ^ 64 - 1 }
    ensures { OnOk result (page.new ≡ page.old ++ assertion_row rules.now judged.now (place + 1) assertion.now) }
{
    page.open(PageElement::Row)?;
    page.number_cell(place as u64 + 1)?;
    put_cells(page, assertion)?;
    put_judged(page, rules, judged_at(judged, place))?;
    page.element(PageElement::Cell, assertion.note.as_str())?;
    page.close(PageElement::Row)
}

/// Appends the name of an assertion, and what it says of the asks that it means.
#[tactic(auto, unfolding(crate::specs::Report::assertion_cells))]
fn put_cells(page: &mut Page, assertion: &Assertion) -> Result<(), AllocError>
    ensures { OnOk result (page.new ≡ page.old ++ assertion_cells assertion.now) }
{
    page.element(PageElement::Cell, assertion.name.as_str())?;
    put_asserted(page, assertion.is_allowed)
}

#[tactic(auto, unfolding(crate::specs::Report::asserted_cell))]
fn put_asserted(page: &mut Page, is_allowed: bool) -> Result<(), AllocError>
    ensures { OnOk result (page.new ≡ page.old ++ asserted_cell is_allowed) }
{
    if is_allowed {
        page.element(PageElement::Cell, "allowed")
    } else {
        page.element(PageElement::Cell, "denied")
    }
}

/// What was found of the assertion at a place.
fn judged_at(judged: &[Judged], place: usize) -> Judged
    ensures { result ≡ judged_at judged.now place }
{
    match judged.get(place) {
        Some(one) => *one,
        None => Judged::Unknown,
    }
}

#[tactic(auto, unfolding(crate::specs::Report::judged_cell))]
fn put_judged(page: &mut Page, rules: &[Rule], judged: Judged) -> Result<(), AllocError>
    ensures { OnOk result (page.new ≡ page.old ++ judged_cell rules.now judged) }
{
    match judged {
        Judged::Holds => page.element(PageElement::All, "holds"),
        Judged::Broken {
            ask: _,
            by,
            is_allowed,
        } => put_broken(page, rules, by, is_allowed),
        Judged::Empty => page.element(PageElement::Nothing, "empty: no ask is meant"),
        Judged::Unknown => page.element(PageElement::Some, "unknown"),
    }
}

/// Appends that an ask breaks an assertion, and which rule decides it.
#[tactic(auto, unfolding(crate::specs::Report::broken_cell))]
fn put_broken(
    page: &mut Page,
    rules: &[Rule],
    by: Option<u16>,
    is_allowed: bool,
) -> Result<(), AllocError>
    ensures { OnOk result (page.new ≡ page.old ++ broken_cell rules.now by is_allowed) }
{
    page.open(PageElement::Nothing)?;
    put_broken_words(page, is_allowed)?;
    page.text(rule_name(rules, by))?;
    page.close(PageElement::Nothing)
}

#[tactic(auto, unfolding(crate::specs::Report::broken_words))]
fn put_broken_words(page: &mut Page, is_allowed: bool) -> Result<(), AllocError>
    ensures { OnOk result (page.new ≡ page.old ++ broken_words is_allowed) }
{
    if is_allowed {
        page.text("broken: an ask is allowed by ")
    } else {
        page.text("broken: an ask is denied by ")
    }
}

/// The name of the rule of a number, counted from 1, or of none.
fn rule_name(rules: &[Rule], by: Option<u16>) -> &str
    ensures { result.now ≡ rule_name rules.now by }
{
    match rule_of(rules, by) {
        Some(rule) => rule.name.as_str(),
        None => NO_RULE,
    }
}

fn rule_of(rules: &[Rule], by: Option<u16>) -> Option<&Rule>
    ensures { option_map (λ rule. rule.now) result ≡ option_and_then (λ number. slice_get rules.now (number - 1)) by }
{
    match by {
        Some(number) => rules.get(usize::from(number).saturating_sub(1)),
        None => None,
    }
}
