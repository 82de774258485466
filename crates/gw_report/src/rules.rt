//! The rules of a policy, with their notes.
ghost use Rattle.std.specs.Prelude.{◌≡◌, ◌-◌, ◌++◌, [], false, OnOk};
ghost use Rattle.std.specs.List.{flat_map};
ghost use Rattle.gw_script.specs.Order.{in_order};
ghost use Rattle.gw_rules.specs.declared.field.TheConstants.FieldName.{ALL as all_fields};
ghost use Rattle.gw_report.specs.Report.{count_cell, counted_head, decision_cell, default_cells, default_row, each_text, field_code};
ghost use Rattle.gw_report.specs.Report.{fields_cell, is_bare, note_at, note_text, placed_name};
ghost use Rattle.gw_report.specs.Report.{rule_cells, rule_row, rules_columns, rules_head, rules_table, rules_text, times_cell};
ghost use Rattle.gw_report.specs.page.Elements.{element_text};

use crate::page::{Page, PageElement};
use gw_configuration::{Config, Text};
use gw_policy_drafts::migration::put_field_items;
use gw_policy_review::places::{is_derived, put_place};
use gw_rules::{FieldName, NO_RULE, Rule};
use std::alloc::{AllocError, Global};

/// How often a log shows that each rule denied, in the order of the rules, and after them that none matched.
#[derive(Drop)]
pub(crate) struct Times {
    /// Whether they are shown.
    pub are_shown: bool,
    /// How often.
    pub counts: Vec<u64>,
}

impl Times {
    /// None, and none is shown.
    pub(crate) fn none(alloc: Global) -> Times
        ensures shown { result.are_shown ≡ false }
        ensures counts { result.counts.items ≡ [] }
    {
        Times {
            are_shown: false,
            counts: Vec::new(alloc),
        }
    }

    /// Appends a cell with the count at a place, or that there is none for a quiet rule, if they are shown.
    #[tactic(auto, unfolding(crate::specs::Report::times_cell))]
    fn put(&self, page: &mut Page, place: usize, quiet: bool) -> Result<(), AllocError>
        ensures { OnOk result (page.new ≡ page.old ++ times_cell self.now.are_shown quiet self.now.counts.items place) }
    {
        if self.are_shown {
            self.put_count(page, place, quiet)
        } else {
            Ok(())
        }
    }

    #[tactic(auto, unfolding(crate::specs::Report::count_cell))]
    fn put_count(&self, page: &mut Page, place: usize, quiet: bool) -> Result<(), AllocError>
        ensures { OnOk result (page.new ≡ page.old ++ count_cell quiet self.now.counts.items place) }
    {
        if quiet {
            return page.element(PageElement::Cell, "not logged");
        }
        match self.counts.get(place) {
            Some(count) => page.number_cell(*count),
            None => page.number_cell(0),
        }
    }
}

/// Appends a table of the rules in their order, with how many denials of a log each has. `lines` are those of the text on which the
/// tables of the rules begin, or none if they aren't known.
#[tactic(auto, unfolding(crate::specs::Report::rules_text))]
pub(crate) fn put_rules(
    alloc: Global,
    page: &mut Page,
    config: &Config,
    lines: &[u32],
    times: &Times,
) -> Result<(), AllocError>
    ensures { OnOk result (page.new ≡ page.old ++ rules_text config.now lines.now times.now.are_shown times.now.counts.items) }
{
    page.element(PageElement::Heading, "Rules")?;
    page.element(
        PageElement::Aside,
        "The first rule that matches an ask decides it. If none matches, it is denied.",
    )?;
    put_table(alloc, page, config, lines, times)
}

#[tactic(auto, unfolding(crate::specs::Report::rules_table))]
fn put_table(
    alloc: Global,
    page: &mut Page,
    config: &Config,
    lines: &[u32],
    times: &Times,
) -> Result<(), AllocError>
    ensures { OnOk result (page.new ≡ page.old ++ rules_table config.now lines.now times.now.are_shown times.now.counts.items) }
{
    page.open(PageElement::Table)?;
    put_head(page, times.are_shown)?;
    put_rows(alloc, page, config, lines, times)?;
    put_default(page, times, config.rules().rules().len())?;
    page.close(PageElement::Table)
}

fn put_rows(
    alloc: Global,
    page: &mut Page,
    config: &Config,
    lines: &[u32],
    times: &Times,
) -> Result<(), AllocError>
    ensures { OnOk result (page.new ≡ page.old
        ++ in_order (rule_row config.now lines.now times.now.are_shown times.now.counts.items) 1 config.now.rules) }
{
    let rules = config.rules().rules();
    for place in 0..rules.len() {
        let row = Row {
            config,
            lines,
            number: place as u16 + 1,
            rule: &rules[place],
        };
        row.put(alloc, page, times)?;
    }
    Ok(())
}

/// A rule of a configuration by its number, from 1, and the lines of the text on which the tables of the rules begin.
#[derive(Clone, Copy)]
struct Row<'a> {
    config: &'a Config,
    lines: &'a [u32],
    number: u16,
    rule: &'a Rule,
}

impl Row<'_> {
    #[tactic(auto, unfolding(crate::specs::Report::rule_row))]
    fn put(&self, alloc: Global, page: &mut Page, times: &Times) -> Result<(), AllocError>
        ensures { OnOk result (page.new ≡ page.old ++ rule_row self.now.config.now self.now.lines.now times.now.are_shown
            times.now.counts.items self.now.number self.now.rule.now) }
    {
        page.open(PageElement::Row)?;
        page.number_cell(u64::from(self.number))?;
        self.put_cells(alloc, page)?;
        times.put(page, self.place(), self.rule.quiet)?;
        page.close(PageElement::Row)
    }

    /// Its place, from 0.
    fn place(&self) -> usize
        ensures { result ≡ self.now.number - 1 }
    {
        usize::from(self.number).saturating_sub(1)
    }

    #[tactic(auto, unfolding(crate::specs::Report::rule_cells))]
    fn put_cells(&self, alloc: Global, page: &mut Page) -> Result<(), AllocError>
        ensures { OnOk result (page.new ≡ page.old
            ++ rule_cells self.now.config.now self.now.lines.now self.now.number self.now.rule.now) }
    {
        self.put_name(alloc, page)?;
        put_decision(page, self.rule.allow, self.rule.quiet)?;
        put_fields(alloc, page, self.rule)?;
        page.element(PageElement::Cell, self.note())
    }

    /// Appends a cell with its name, and the place of its table, if that has another number.
    fn put_name(&self, alloc: Global, page: &mut Page) -> Result<(), AllocError>
        ensures { OnOk result (page.new ≡ page.old
            ++ element_text PageElement.Cell (placed_name self.now.config.now self.now.lines.now self.now.number self.now.rule.now)) }
    {
        let mut name = Vec::new(alloc);
        name.extend_from_slice(self.rule.name.as_str().as_bytes())?;
        put_place(&mut name, self.config.tables(), self.lines, self.number)?;
        page.octets_element(PageElement::Cell, &name)
    }

    /// Its note, or that it is for the way or for the answers of the rule before it.
    fn note(&self) -> &str
        ensures { result.now ≡ note_text self.now.config.now self.now.number }
    {
        if is_derived(self.config.tables(), self.number) {
            "by both_ways"
        } else {
            note_at(self.config.notes(), self.place())
        }
    }
}

/// The note at a place, or nothing.
fn note_at(notes: &[Text], place: usize) -> &str
    ensures { result.now ≡ note_at notes.now place }
{
    match notes.get(place) {
        Some(note) => note.as_str(),
        None => "",
    }
}

#[tactic(auto, unfolding(crate::specs::Report::rules_head))]
fn put_head(page: &mut Page, are_shown: bool) -> Result<(), AllocError>
    ensures { OnOk result (page.new ≡ page.old ++ rules_head are_shown) }
{
    page.open(PageElement::Row)?;
    put_columns(page)?;
    put_counted(page, are_shown)?;
    page.close(PageElement::Row)
}

#[tactic(auto, unfolding(crate::specs::Report::rules_columns))]
fn put_columns(page: &mut Page) -> Result<(), AllocError>
    ensures { OnOk result (page.new ≡ page.old ++ rules_columns) }
{
    page.element(PageElement::Head, "")?;
    page.element(PageElement::Head, "name")?;
    page.element(PageElement::Head, "decision")?;
    page.element(PageElement::Head, "asks that it matches")?;
    page.element(PageElement::Head, "note")
}

#[tactic(auto, unfolding(crate::specs::Report::counted_head))]
fn put_counted(page: &mut Page, are_shown: bool) -> Result<(), AllocError>
    ensures { OnOk result (page.new ≡ page.old ++ counted_head are_shown) }
{
    if are_shown {
        page.element(PageElement::Head, "denials")
    } else {
        Ok(())
    }
}

#[tactic(auto, unfolding(crate::specs::Report::decision_cell, crate::specs::Report::denied_cell))]
fn put_decision(page: &mut Page, allow: bool, quiet: bool) -> Result<(), AllocError>
    ensures { OnOk result (page.new ≡ page.old ++ decision_cell allow quiet) }
{
    if allow {
        page.element(PageElement::All, "allow")
    } else if quiet {
        page.element(PageElement::Nothing, "deny (quiet)")
    } else {
        page.element(PageElement::Nothing, "deny")
    }
}

/// Appends a cell with the fields that the rule names, as format 3 writes them.
#[tactic(auto, unfolding(crate::specs::Report::fields_cell))]
fn put_fields(alloc: Global, page: &mut Page, rule: &Rule) -> Result<(), AllocError>
    ensures { OnOk result (page.new ≡ page.old ++ fields_cell rule.now) }
{
    page.open(PageElement::Cell)?;
    put_each_field(alloc, page, rule)?;
    put_each(page, rule)?;
    page.close(PageElement::Cell)
}

fn put_each_field(alloc: Global, page: &mut Page, rule: &Rule) -> Result<(), AllocError>
    ensures { OnOk result (page.new ≡ page.old ++ flat_map (field_code rule.now) all_fields) }
{
    for field in FieldName::ALL.iter() {
        put_field(alloc, page, rule, *field)?;
    }
    Ok(())
}

#[tactic(auto, unfolding(crate::specs::Report::field_code))]
fn put_field(
    alloc: Global,
    page: &mut Page,
    rule: &Rule,
    field: FieldName,
) -> Result<(), AllocError>
    ensures { OnOk result (page.new ≡ page.old ++ field_code rule.now field) }
{
    let ranges = rule.ranges(field).as_slice();
    if ranges.is_empty() {
        return Ok(());
    }
    let mut octets = Vec::new(alloc);
    put_field_items(&mut octets, field, ranges)?;
    page.octets_element(PageElement::Code, &octets)
}

/// Appends that each ask is meant, if the rule names no field.
#[tactic(auto, unfolding(crate::specs::Report::each_text))]
fn put_each(page: &mut Page, rule: &Rule) -> Result<(), AllocError>
    ensures { OnOk result (page.new ≡ page.old ++ each_text rule.now) }
{
    if is_bare(rule) {
        page.text("each")
    } else {
        Ok(())
    }
}

/// Whether the rule names no field.
fn is_bare(rule: &Rule) -> bool
    ensures { result ≡ is_bare rule.now }
{
    FieldName::ALL
        .iter()
        .all(|field| rule.ranges(*field).as_slice().is_empty())
}

/// Appends a row for the asks that no rule matches.
#[tactic(auto, unfolding(crate::specs::Report::default_row))]
fn put_default(page: &mut Page, times: &Times, place: usize) -> Result<(), AllocError>
    ensures { OnOk result (page.new ≡ page.old ++ default_row times.now.are_shown times.now.counts.items place) }
{
    page.open(PageElement::Row)?;
    put_default_cells(page)?;
    times.put(page, place, false)?;
    page.close(PageElement::Row)
}

#[tactic(auto, unfolding(crate::specs::Report::default_cells))]
fn put_default_cells(page: &mut Page) -> Result<(), AllocError>
    ensures { OnOk result (page.new ≡ page.old ++ default_cells) }
{
    page.element(PageElement::Cell, "")?;
    page.element(PageElement::Cell, NO_RULE)?;
    put_decision(page, false, false)?;
    page.element(PageElement::Cell, "those that no rule matches")?;
    page.element(PageElement::Cell, "")
}
