//! The line that a rule has in a lint.
ghost use Rattle.std.specs.Prelude.{◌≡◌, ◌-◌, ◌++◌, codes, length, take, OnOk};
ghost use Rattle.std.specs.List.{list_all};
ghost use Rattle.gw_rules.specs.RuleList.{allows_at};
ghost use Rattle.gw_script.specs.Order.{in_order};
ghost use Rattle.gw_policy_review.specs.lint.Text.{decides_at, found_text, head_of, is_allowed_before, is_left_out, is_listed};
ghost use Rattle.gw_policy_review.specs.lint.Text.{likeness_text, line_text, name_at, rule_text, says_same};

use crate::lint::Finding;
use crate::permissions::allows_at;
use crate::places::{is_derived, put_place};
use gw_addr::put_decimal;
use gw_ask_sets::ask_text::put_ask;
use gw_ask_sets::numbered::item_at;
use gw_configuration::Config;
use gw_rules::{Rule, RuleList};
use std::alloc::AllocError;

/// What a lint is made of.
#[derive(Clone, Copy)]
pub(crate) struct Lint<'a> {
    /// Whether a rule that decides has a line, too.
    pub explains: bool,
    /// The configuration.
    pub config: &'a Config,
    /// The lines of its text on which the tables of its rules begin, or none if they aren't known.
    pub lines: &'a [u32],
    /// What is found of each rule.
    pub findings: &'a [Finding],
}

impl Lint<'_> {
    /// Appends the lines of what is found of the rules, in their order.
    pub(crate) fn put_lines(&self, out: &mut Vec<u8>) -> Result<(), AllocError>
        requires { length self.now.findings.now ≡ length self.now.config.now.rules }
        ensures { let them = self.now.findings.now in OnOk result (out.new.items ≡ out.old.items
            ++ in_order (line_text self.now.explains self.now.config.now self.now.lines.now them) 1 them) }
    {
        let count = self.config.rules().rules().len();
        for place in 0..count {
            self.put_line(out, place as u16 + 1, &self.findings[place])?;
        }
        Ok(())
    }

    /// Appends the line of what is found of the rule of this number, if it has one.
    fn put_line(&self, out: &mut Vec<u8>, number: u16, found: &Finding) -> Result<(), AllocError>
        ensures { OnOk result (out.new.items ≡ out.old.items
            ++ line_text self.now.explains self.now.config.now self.now.lines.now self.now.findings.now number found.now) }
    {
        if !self.is_listed(number, found) {
            return Ok(());
        }
        self.put_rule(out, number)?;
        out.extend_from_slice(b": ")?;
        self.put_found(out, number, found)?;
        out.push(b'\n')?;
        Ok(())
    }

    /// Whether a finding has a line: a rule that decides has one only where that is asked for.
    fn is_listed(&self, number: u16, found: &Finding) -> bool
        ensures { result ≡ is_listed self.now.explains self.now.config.now self.now.findings.now number found.now }
    {
        match found {
            Finding::Decides(_) => self.explains,
            _ => !self.is_left_out(number, found),
        }
    }

    /// Whether nothing is said of a rule: it is for the way or for the answers of a rule that decides something, and what it is for
    /// is allowed before it.
    fn is_left_out(&self, number: u16, found: &Finding) -> bool
        ensures { result ≡ is_left_out self.now.config.now self.now.findings.now number found.now }
    {
        is_derived(self.config.tables(), number)
            && is_allowed_before(self.config.rules(), number, found)
            && decides_at(self.findings, head_of(self.config.tables(), number))
    }

    /// Appends a rule by its number, its name and the place of its table.
    pub(crate) fn put_rule(&self, out: &mut Vec<u8>, number: u16) -> Result<(), AllocError>
        ensures { OnOk result (out.new.items ≡ out.old.items ++ rule_text self.now.config.now self.now.lines.now number) }
    {
        out.extend_from_slice(b"rule ")?;
        put_decimal(out, number)?;
        out.push(b' ')?;
        put_name(out, self.config.rules(), number)?;
        put_place(out, self.config.tables(), self.lines, number)
    }

    /// Appends what is found of the rule of this number.
    fn put_found(&self, out: &mut Vec<u8>, number: u16, found: &Finding) -> Result<(), AllocError>
        ensures { OnOk result (out.new.items ≡ out.old.items ++ found_text self.now.config.now self.now.lines.now number found.now) }
    {
        match found {
            Finding::MatchesNothing => {
                out.extend_from_slice(b"matches no ask that this gateway raises")
            }
            Finding::TakenBy(by) => self.put_taken(out, number, *by),
            Finding::TakenTogether => out.extend_from_slice(
                b"never decides: the rules before it together take all that it matches",
            ),
            Finding::Decides(ask) => {
                out.extend_from_slice(b"decides, for one,")?;
                put_ask(out, ask)
            }
            Finding::Unknown => out.extend_from_slice(b"can't tell within the steps given"),
        }
    }

    /// Appends which rule takes all that the one of this number matches.
    fn put_taken(&self, out: &mut Vec<u8>, number: u16, by: u16) -> Result<(), AllocError>
        ensures { OnOk result
            (out.new.items ≡ out.old.items ++ codes "never decides: " ++ rule_text self.now.config.now self.now.lines.now by
            ++ codes " takes all that it matches, and says the " ++ likeness_text self.now.config.now.rules by number) }
    {
        out.extend_from_slice(b"never decides: ")?;
        self.put_rule(out, by)?;
        out.extend_from_slice(b" takes all that it matches, and says the ")?;
        put_likeness(out, self.config.rules(), by, number)
    }
}

/// Appends the name of the rule of this number, if there is one.
fn put_name(out: &mut Vec<u8>, rules: &RuleList, number: u16) -> Result<(), AllocError>
    ensures { OnOk result (out.new.items ≡ out.old.items ++ name_at rules.now number) }
{
    match item_at(rules.rules(), Some(number)) {
        Some(rule) => out.extend_from_slice(rule.name.as_str().as_bytes()),
        None => Ok(()),
    }
}

/// Whether the rule of this number decides nothing, since a rule that allows takes all that it matches, or no rule before it
/// denies.
fn is_allowed_before(rules: &RuleList, number: u16, found: &Finding) -> bool
    ensures { result ≡ is_allowed_before rules.now number found.now }
{
    match found {
        Finding::TakenBy(by) => allows_at(rules.rules(), *by),
        Finding::TakenTogether => all_allow_before(rules.rules(), number),
        _ => false,
    }
}

/// Whether each rule before the one of this number allows.
fn all_allow_before(rules: &[Rule], number: u16) -> bool
    ensures { result ≡ list_all (λ rule. rule.allow) (take (number - 1) rules.now) }
{
    rules
        .iter()
        .take(usize::from(number).saturating_sub(1))
        .all(|rule| rule.allow)
}

/// Whether an ask was found that the rule of this number decides.
fn decides_at(findings: &[Finding], number: u16) -> bool
    ensures { result ≡ decides_at findings.now number }
{
    match findings.get(usize::from(number).saturating_sub(1)) {
        Some(Finding::Decides(_)) => true,
        _ => false,
    }
}

/// The number of the rule that the one of this number goes with, which is for the way or for the answers.
fn head_of(tables: &[u16], number: u16) -> u16
    ensures { result ≡ head_of tables.now number }
{
    if is_derived(tables, number.saturating_sub(1)) {
        number.saturating_sub(2)
    } else {
        number.saturating_sub(1)
    }
}

/// Appends what one rule says beside another.
fn put_likeness(out: &mut Vec<u8>, rules: &RuleList, one: u16, other: u16) -> Result<(), AllocError>
    ensures { OnOk result (out.new.items ≡ out.old.items ++ likeness_text rules.now one other) }
{
    if says_same(rules, one, other) {
        out.extend_from_slice(b"same")
    } else {
        out.extend_from_slice(b"opposite")
    }
}

/// Whether two rules both allow, or both deny.
fn says_same(rules: &RuleList, one: u16, other: u16) -> bool
    ensures { result ≡ says_same rules.now one other }
{
    if allows_at(rules.rules(), one) {
        allows_at(rules.rules(), other)
    } else {
        !allows_at(rules.rules(), other)
    }
}
