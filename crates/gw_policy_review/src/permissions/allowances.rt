//! What each rule that allows lets whom ask for.
ghost use Rattle.std.specs.Prelude.{◌≡◌, ◌++◌, ◌-◌, ◌≤◌, length, take, IfOk, OnOk};
ghost use Rattle.std.specs.List.{flat_map};
ghost use Rattle.gw_script.specs.Order.{in_order};
ghost use Rattle.gw_policy_review.specs.permissions.Allowances.{AppendsAllowances, allowance_line, allowances_text, asks_words, by_words};
ghost use Rattle.gw_policy_review.specs.permissions.Allowances.{doubt_words, exception_text, exception_words, exceptions_text, field_words};
ghost use Rattle.gw_policy_review.specs.permissions.Allowances.{is_exception, meet, network_words, operation_words, ranges_words, stops};
ghost use Rattle.gw_policy_review.specs.permissions.Allowances.{what_words, who_words};

use crate::comparison::words::{put_operations, put_ranges, put_word};
use crate::lint::{Finding, findings_of};
use crate::permissions::grants::{finding_at, lets};
use crate::permissions::words::Placed;
use crate::warnings::share;
use gw_ask_sets::regions::{Values, tidy};
use gw_ask_sets::shapes::shapes_of;
use gw_rules::{FieldName, Range, Rule};
use std::alloc::{AllocError, Global};

/// The fields that say who asks, beside the network.
const WHO: [FieldName; 3] = [FieldName::SourceKey, FieldName::Sender, FieldName::Port];

/// Those that say what for, beside the operation.
const WHAT: [FieldName; 7] = [
    FieldName::ObjectType,
    FieldName::Instance,
    FieldName::Property,
    FieldName::Priority,
    FieldName::Service,
    FieldName::Station,
    FieldName::DestinationNetwork,
];

/// Appends a line for each rule that lets somebody ask for something: whom, for what, and which rules deny some of it.
/// So many steps are left for the searches; says how many are left for others.
pub(crate) fn put_allowances(
    alloc: Global,
    out: &mut Vec<u8>,
    placed: &Placed<'_>,
    left: u32,
) -> Result<u32, AllocError>
    ensures { IfOk result (λ rest.
        AppendsAllowances placed.now.config.now placed.now.lines.now left rest out.old.items out.new.items) }
{
    let shapes = shapes_of(alloc, placed.config)?;
    let findings = findings_of(alloc, &shapes, placed.config.rules(), left)?;
    let found = Found {
        placed,
        findings: &findings.found,
    };
    found.put_lines(alloc, out)?;
    Ok(findings.left)
}

/// A configuration, with what is found of its rules.
#[derive(Clone, Copy)]
struct Found<'a> {
    /// The configuration.
    placed: &'a Placed<'a>,
    /// What is found of each rule.
    findings: &'a [Finding],
}

impl Found<'_> {
    fn put_lines(&self, alloc: Global, out: &mut Vec<u8>) -> Result<(), AllocError>
        ensures { OnOk result (out.new.items ≡ out.old.items ++ allowances_text self.now.placed.now.config.now
            self.now.placed.now.lines.now self.now.findings.now) }
    {
        let rules = self.placed.config.rules().rules();
        for place in 0..rules.len() {
            self.put_line(alloc, out, place as u16 + 1, &rules[place])?;
        }
        Ok(())
    }

    /// Appends the line of the rule of this number, if it has one.
    fn put_line(
        &self,
        alloc: Global,
        out: &mut Vec<u8>,
        number: u16,
        rule: &Rule,
    ) -> Result<(), AllocError>
        requires { number ≤ length self.now.placed.now.config.now.rules }
        ensures { OnOk result (out.new.items ≡ out.old.items ++ allowance_line self.now.placed.now.config.now
            self.now.placed.now.lines.now self.now.findings.now number rule.now) }
    {
        let found = finding_at(self.findings, number);
        if lets(rule, &found) {
            put_asks(alloc, out, rule, &found)?;
            self.put_by(out, number, rule)
        } else {
            Ok(())
        }
    }

    /// Appends which rule it is, and which rules deny some of what it matches.
    fn put_by(&self, out: &mut Vec<u8>, number: u16, rule: &Rule) -> Result<(), AllocError>
        requires { number ≤ length self.now.placed.now.config.now.rules }
        ensures { OnOk result (out.new.items ≡ out.old.items ++ by_words self.now.placed.now.config.now
            self.now.placed.now.lines.now self.now.findings.now number rule.now) }
    {
        out.extend_from_slice(b", by ")?;
        self.placed.put_rule(out, number, rule)?;
        self.put_exceptions(out, number, rule)?;
        out.extend_from_slice(b"\n")
    }

    /// Appends each rule before the one of this number that may deny asks that it matches.
    fn put_exceptions(&self, out: &mut Vec<u8>, number: u16, rule: &Rule) -> Result<(), AllocError>
        requires { number ≤ length self.now.placed.now.config.now.rules }
        ensures { OnOk result (out.new.items ≡ out.old.items ++ exceptions_text self.now.placed.now.config.now
            self.now.placed.now.lines.now self.now.findings.now number rule.now) }
    {
        let rules = self.placed.config.rules().rules();
        for place in 0..usize::from(number).saturating_sub(1) {
            self.put_exception(out, rule, place as u16 + 1, &rules[place])?;
        }
        Ok(())
    }

    /// Appends the rule of this number, if it may deny asks that the first matches.
    fn put_exception(
        &self,
        out: &mut Vec<u8>,
        rule: &Rule,
        number: u16,
        other: &Rule,
    ) -> Result<(), AllocError>
        ensures { OnOk result (out.new.items ≡ out.old.items ++ exception_text self.now.placed.now.config.now
            self.now.placed.now.lines.now self.now.findings.now rule.now number other.now) }
    {
        let found = finding_at(self.findings, number);
        if is_exception(rule, other, &found) {
            put_denier(out, self.placed, number, other)
        } else {
            Ok(())
        }
    }
}

/// Appends that the rule of this number denies some of it.
fn put_denier(
    out: &mut Vec<u8>,
    placed: &Placed<'_>,
    number: u16,
    rule: &Rule,
) -> Result<(), AllocError>
    ensures { OnOk result (out.new.items ≡ out.old.items
        ++ exception_words placed.now.config.now placed.now.lines.now number rule.now) }
{
    out.extend_from_slice(b", unless ")?;
    placed.put_rule(out, number, rule)?;
    out.extend_from_slice(b" denies it")
}

/// Whether the other rule may deny asks that the first matches.
fn is_exception(rule: &Rule, other: &Rule, found: &Finding) -> bool
    ensures { result ≡ is_exception rule.now other.now found.now }
{
    stops(other, found) && meet(rule, other)
}

/// Whether a rule denies, and decides an ask, or that isn't known.
fn stops(rule: &Rule, found: &Finding) -> bool
    ensures { result ≡ stops rule.now found.now }
{
    match found {
        Finding::Decides(_) | Finding::Unknown => !rule.allow,
        _ => false,
    }
}

/// Whether an ask may match both rules.
fn meet(rule: &Rule, other: &Rule) -> bool
    ensures { result ≡ meet rule.now other.now }
{
    FieldName::ALL.iter().all(|field| share(
        rule.ranges(*field).as_slice(),
        other.ranges(*field).as_slice(),
    ))
}

/// Appends who asks by the rule, and what for.
fn put_asks(
    alloc: Global,
    out: &mut Vec<u8>,
    rule: &Rule,
    found: &Finding,
) -> Result<(), AllocError>
    ensures { OnOk result (out.new.items ≡ out.old.items ++ asks_words rule.now found.now) }
{
    put_who(out, rule)?;
    put_doubt(out, found)?;
    put_what(alloc, out, rule)
}

fn put_who(out: &mut Vec<u8>, rule: &Rule) -> Result<(), AllocError>
    ensures { OnOk result (out.new.items ≡ out.old.items ++ who_words rule.now) }
{
    put_network(out, rule.ranges.source_network.as_slice())?;
    put_fields(out, rule, &WHO)
}

fn put_network(out: &mut Vec<u8>, ranges: &[Range]) -> Result<(), AllocError>
    ensures { OnOk result (out.new.items ≡ out.old.items ++ network_words ranges.now) }
{
    if ranges.is_empty() {
        return out.extend_from_slice(b"from any network");
    }
    put_field_ranges(out, FieldName::SourceNetwork, ranges)
}

/// Appends what comes before the operation: that it isn't known whether the rule decides such an ask, if it isn't.
fn put_doubt(out: &mut Vec<u8>, found: &Finding) -> Result<(), AllocError>
    ensures { OnOk result (out.new.items ≡ out.old.items ++ doubt_words found.now) }
{
    match found {
        Finding::Unknown => out.extend_from_slice(b": may "),
        _ => out.extend_from_slice(b": "),
    }
}

fn put_what(alloc: Global, out: &mut Vec<u8>, rule: &Rule) -> Result<(), AllocError>
    ensures { OnOk result (out.new.items ≡ out.old.items ++ what_words rule.now) }
{
    put_operation(alloc, out, rule.ranges.operation.as_slice())?;
    put_fields(out, rule, &WHAT)
}

fn put_operation(alloc: Global, out: &mut Vec<u8>, ranges: &[Range]) -> Result<(), AllocError>
    ensures { OnOk result (out.new.items ≡ out.old.items ++ operation_words ranges.now) }
{
    if ranges.is_empty() {
        return out.extend_from_slice(b"any operation");
    }
    let values = Values {
        absent: false,
        ranges: tidy(alloc, ranges)?,
    };
    put_operations(alloc, out, &values)
}

/// Appends those of these fields that the rule names.
fn put_fields(out: &mut Vec<u8>, rule: &Rule, fields: &[FieldName]) -> Result<(), AllocError>
    ensures { OnOk result (out.new.items ≡ out.old.items ++ flat_map (field_words rule.now) fields.now) }
{
    for field in fields {
        put_field(out, rule, *field)?;
    }
    Ok(())
}

fn put_field(out: &mut Vec<u8>, rule: &Rule, field: FieldName) -> Result<(), AllocError>
    ensures { OnOk result (out.new.items ≡ out.old.items ++ field_words rule.now field) }
{
    let ranges = rule.ranges(field).as_slice();
    if ranges.is_empty() {
        return Ok(());
    }
    out.extend_from_slice(b", ")?;
    put_field_ranges(out, field, ranges)
}

fn put_field_ranges(out: &mut Vec<u8>, field: FieldName, ranges: &[Range]) -> Result<(), AllocError>
    ensures { OnOk result (out.new.items ≡ out.old.items ++ ranges_words field ranges.now) }
{
    put_word(out, field)?;
    put_ranges(out, field, ranges)
}
