//! Lines on the names, the audits and the notes of the rules of two configurations, and on which are quiet.
ghost use Rattle.std.specs.Prelude.{◌≡◌, ◌++◌, ◌≤◌, codes, length, position, IfOk, List, ℕ, OnOk, Option};
ghost use Rattle.std.specs.List.{flat_map};
ghost use Rattle.std.specs.Option.{option_and_then, option_copied, option_map};
ghost use Rattle.gw_script.specs.Order.{in_order};
ghost use Rattle.gw_policy_review.specs.comparison.Details.{audit_change, audit_line, audit_lines, is_same_rule, note_change};
ghost use Rattle.gw_policy_review.specs.comparison.Details.{note_line, note_lines, of_rule, quiet_change, quiet_line};
ghost use Rattle.gw_policy_review.specs.comparison.Details.{quiet_lines, rule_change, rule_gone, text_change};

use crate::comparison::listing::{Thing, put_text_change};
use gw_addr::put_slice;
use gw_configuration::{Config, Text};
use gw_rules::Rule;
use std::alloc::AllocError;

// ---- names

impl Thing for Rule {
    ghost use Rattle.gw_policy_review.specs.comparison.Details.{is_same_rule, rule_change, rule_gone};

    ghost is_for = { is_same_rule };

    ghost change = { λ head. rule_change };

    ghost gone = { λ head. rule_gone };

    fn is_for(&self, other: &Self) -> bool {
        self.name.as_str() == other.name.as_str()
    }

    fn put_change(
        &self,
        head: &[u8],
        was: Option<&Self>,
        out: &mut Vec<u8>,
    ) -> Result<(), AllocError> {
        let _ = head;
        match was {
            Some(_) => Ok(()),
            None => put_rule(out, self, b" is new\n"),
        }
    }

    fn put_gone(&self, head: &[u8], out: &mut Vec<u8>) -> Result<(), AllocError> {
        let _ = head;
        put_rule(out, self, b" is gone\n")
    }
}

/// Appends a rule by its name, and these words.
fn put_rule(out: &mut Vec<u8>, rule: &Rule, words: &[u8]) -> Result<(), AllocError>
    ensures { OnOk result (out.new.items ≡ out.old.items ++ (codes "rule " ++ (rule.now.name ++ words.now))) }
{
    out.extend_from_slice(b"rule ")?;
    out.extend_from_slice(rule.name.as_str().as_bytes())?;
    put_slice(out, words)
}

/// The place of the rule of this name.
fn place_of(rules: &[Rule], rule: &Rule) -> Option<usize>
    ensures { result ≡ position (is_same_rule rule.now) rules.now }
{
    rules.iter().position(|other| rule.is_for(other))
}

// ---- audits

/// Appends which of the rules that both have are audited now, and which no more.
pub(crate) fn put_audit_lines(
    out: &mut Vec<u8>,
    old: &Config,
    new: &Config,
) -> Result<(), AllocError>
    ensures { OnOk result (out.new.items ≡ out.old.items ++ audit_lines old.now new.now) }
{
    put_audits(out, old, new.rules().rules(), new.audits())
}

fn put_audits(
    out: &mut Vec<u8>,
    old: &Config,
    rules: &[Rule],
    audits: &[bool],
) -> Result<(), AllocError>
    ensures { OnOk result (out.new.items ≡ out.old.items ++ in_order (audit_line old.now rules.now) 1 audits.now) }
{
    for place in 0..audits.len() {
        put_audit(out, old, rules, place + 1, audits[place])?;
    }
    Ok(())
}

fn put_audit(
    out: &mut Vec<u8>,
    old: &Config,
    rules: &[Rule],
    number: usize,
    audit: bool,
) -> Result<(), AllocError>
    ensures { OnOk result (out.new.items ≡ out.old.items ++ audit_line old.now rules.now number audit) }
{
    match rules.get(number.saturating_sub(1)) {
        Some(rule) => put_audit_change(out, rule, audit, audit_of(old, rule)),
        None => Ok(()),
    }
}

/// Whether a configuration audits the rule of this name, if it has one.
fn audit_of(config: &Config, rule: &Rule) -> Option<bool>
    ensures { result ≡ of_rule config.now.rules config.now.audits rule.now }
{
    let place = place_of(config.rules().rules(), rule)?;
    config.audits().get(place).copied()
}

fn put_audit_change(
    out: &mut Vec<u8>,
    rule: &Rule,
    now: bool,
    was: Option<bool>,
) -> Result<(), AllocError>
    ensures { OnOk result (out.new.items ≡ out.old.items ++ audit_change rule.now now was) }
{
    match (now, was) {
        (true, Some(false)) => put_rule(out, rule, b": it is audited now\n"),
        (false, Some(true)) => put_rule(out, rule, b": it is audited no more\n"),
        _ => Ok(()),
    }
}

// ---- notes

/// Appends which of the rules that both have another note.
pub(crate) fn put_note_lines(
    out: &mut Vec<u8>,
    old: &Config,
    new: &Config,
) -> Result<(), AllocError>
    ensures { OnOk result (out.new.items ≡ out.old.items ++ note_lines old.now new.now) }
{
    put_notes(out, old, new.rules().rules(), new.notes())
}

fn put_notes(
    out: &mut Vec<u8>,
    old: &Config,
    rules: &[Rule],
    notes: &[Text],
) -> Result<(), AllocError>
    ensures { OnOk result (out.new.items ≡ out.old.items ++ in_order (note_line old.now rules.now) 1 notes.now) }
{
    for place in 0..notes.len() {
        put_note(out, old, rules, place + 1, &notes[place])?;
    }
    Ok(())
}

fn put_note(
    out: &mut Vec<u8>,
    old: &Config,
    rules: &[Rule],
    number: usize,
    note: &Text,
) -> Result<(), AllocError>
    ensures { OnOk result (out.new.items ≡ out.old.items ++ note_line old.now rules.now number note.now) }
{
    match rules.get(number.saturating_sub(1)) {
        Some(rule) => put_note_change(out, rule, note, note_of(old, rule)),
        None => Ok(()),
    }
}

/// The note that a configuration has for the rule of this name, if it has one.
fn note_of<'a>(config: &'a Config, rule: &Rule) -> Option<&'a Text>
    ensures { option_map (λ note. note.now) result ≡ of_rule config.now.rules config.now.notes rule.now }
{
    let place = place_of(config.rules().rules(), rule)?;
    config.notes().get(place)
}

fn put_note_change(
    out: &mut Vec<u8>,
    rule: &Rule,
    now: &Text,
    was: Option<&Text>,
) -> Result<(), AllocError>
    ensures { OnOk result (out.new.items ≡
        out.old.items ++ note_change rule.now now.now (option_map (λ note. note.now) was.entry)) }
{
    match was {
        Some(was) => put_named_note(out, rule, now, was),
        None => Ok(()),
    }
}

fn put_named_note(out: &mut Vec<u8>, rule: &Rule, now: &Text, was: &Text) -> Result<(), AllocError>
    ensures { let head = codes "rule " ++ (rule.now.name ++ codes ": ") in
        OnOk result (out.new.items ≡ out.old.items ++ text_change head (codes "note ") now.now was.now) }
{
    let mut head = Vec::new(*out.allocator());
    put_rule(&mut head, rule, b": ")?;
    put_text_change(out, &head, b"note ", now, was)
}

// ---- quiet rules

/// Appends which of the rules that both have are quiet now, and which no more, and that the log may differ.
pub(crate) fn put_quiet_lines(
    out: &mut Vec<u8>,
    now: &[Rule],
    was: &[Rule],
) -> Result<(), AllocError>
    ensures { OnOk result (out.new.items ≡ out.old.items ++ quiet_lines now.now was.now) }
{
    put_quiets(out, now, was)?;
    put_slice(
        out,
        b"quiet rules: the log may lack other denials than before\n",
    )
}

fn put_quiets(out: &mut Vec<u8>, now: &[Rule], was: &[Rule]) -> Result<(), AllocError>
    ensures { OnOk result (out.new.items ≡ out.old.items ++ flat_map (quiet_line was.now) now.now) }
{
    for rule in now {
        put_quiet_change(out, rule, rule.quiet, quiet_of(was, rule))?;
    }
    Ok(())
}

/// Whether the rule of this name is quiet among these, if there is one.
fn quiet_of(rules: &[Rule], rule: &Rule) -> Option<bool>
    ensures { result ≡ option_map (λ other. other.quiet) (of_rule rules.now rules.now rule.now) }
{
    let place = place_of(rules, rule)?;
    match rules.get(place) {
        Some(other) => Some(other.quiet),
        None => None,
    }
}

fn put_quiet_change(
    out: &mut Vec<u8>,
    rule: &Rule,
    now: bool,
    was: Option<bool>,
) -> Result<(), AllocError>
    ensures { OnOk result (out.new.items ≡ out.old.items ++ quiet_change rule.now now was) }
{
    match (now, was) {
        (true, Some(false)) => put_rule(out, rule, b": it is quiet now\n"),
        (false, Some(true)) => put_rule(out, rule, b": it is quiet no more\n"),
        _ => Ok(()),
    }
}
