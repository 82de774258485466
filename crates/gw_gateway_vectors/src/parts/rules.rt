//! Rules of any fields: how a list is made of them, what it and its index answer to an ask, and whether they are within the bounds of a
//! format; and the operations that they name.

use crate::parts::counts::{made, put_counts};
use gw_cases::{number, number_or_none, unfolded, wanted};
use gw_rules::{Ask, FieldName, Format, Operation, Range, Rule, RuleFault, RuleList};
use std::alloc::Global;
use std::io::{ErrorKind, Write};
use std::{io, str};

/// The field of a number.
fn field(number: usize) -> Option<FieldName> {
    FieldName::ALL.get(number.checked_sub(1)?).copied()
}

/// A rule: `allow` or `deny`, and for each range the number of its field and its ends, as `11:7-9`.
fn rule(alloc: Global, text: &str) -> io::Result<Rule> {
    let mut words = text.split(' ');
    let mut rule = made(Rule::new(alloc, "r", words.next() == Some("allow")))?;
    for word in words {
        let (name, ends) = wanted(word.split_once(':'))?;
        let (low, high) = wanted(ends.split_once('-'))?;
        let range = Range {
            low: number(Some(low))?,
            high: number(Some(high))?,
        };
        let field = wanted(field(number(Some(name))?))?;
        rule = made(rule.with(field, range))?;
    }
    Ok(rule)
}

/// The rules of a text.
fn rules_of(alloc: Global, text: &str) -> io::Result<Vec<Rule>> {
    let mut rules = Vec::new(alloc);
    for part in text.split(", ") {
        rules.push(rule(alloc, part)?)?;
    }
    Ok(rules)
}

/// What comes of the rules of a text: a list of few ranges for a field, or a `long` one.
fn list(alloc: Global, kind: &str, text: &str) -> io::Result<Result<RuleList, RuleFault>> {
    let rules = rules_of(alloc, text)?;
    match kind {
        "short" => Ok(RuleList::new(rules)),
        "long" => Ok(RuleList::new_long(rules)),
        _ => Err(ErrorKind::InvalidData.into()),
    }
}

/// The ask of twelve fields, in the order of their numbers.
fn ask(fields: &str) -> io::Result<Ask> {
    let mut words = fields.split(' ');
    let mut ask = Ask::new(Operation::List);
    for field in FieldName::ALL {
        ask.set(field, number_or_none(words.next())?);
    }
    Ok(ask)
}

/// The text of a case whose repeated parts are written out.
fn whole(octets: &[u8]) -> io::Result<&str> {
    match str::from_utf8(octets) {
        Ok(text) => Ok(text),
        Err(_) => Err(ErrorKind::InvalidData.into()),
    }
}

/// The first rule by the list, the first rule by the index, and how many comparisons and ANDs of rows that took. A case has the kind of
/// the list, the rules and the ask.
pub fn rules(alloc: Global, case: &str, out: &mut Vec<u8>) -> io::Result<()> {
    let octets = unfolded(alloc, case)?;
    let (kind, rest) = wanted(whole(&octets)?.split_once("; "))?;
    let (text, fields) = wanted(rest.split_once("; "))?;
    let rules = made(list(alloc, kind, text)?)?;
    put_counts(alloc, &rules, &ask(fields)?, out)
}

/// Whether a list is made, or why not. A case has the kind of the list and the rules.
pub fn limits(alloc: Global, case: &str, out: &mut Vec<u8>) -> io::Result<()> {
    let octets = unfolded(alloc, case)?;
    let (kind, text) = wanted(whole(&octets)?.split_once("; "))?;
    match list(alloc, kind, text)? {
        Ok(_) => write!(out, "ok"),
        Err(fault) => write!(out, "{fault}"),
    }
}

/// The format of a number.
fn format(number: &str) -> Option<Format> {
    match number {
        "1" => Some(Format::One),
        "2" => Some(Format::Two),
        "3" => Some(Format::Three),
        _ => None,
    }
}

/// Whether a rule is within the bounds of a format. A case has the format and the rule.
pub fn bounds(alloc: Global, case: &str, out: &mut Vec<u8>) -> io::Result<()> {
    let (number, text) = wanted(case.split_once("; "))?;
    let format = wanted(format(number))?;
    if rule(alloc, text)?.is_bounded(format) {
        write!(out, "within")
    } else {
        write!(out, "outside")
    }
}

/// The number and the name of an operation, by either.
pub fn operation(case: &str, out: &mut Vec<u8>) -> io::Result<()> {
    let found = match case.parse() {
        Ok(number) => Operation::from_number(number),
        Err(_) => Operation::from_name(case),
    };
    match found {
        Some(operation) => {
            let (number, name) = (operation.number(), operation.name());
            write!(out, "{number} {name}")
        }
        None => write!(out, "no operation"),
    }
}
