//! What a list of rules and its index answer to an ask, and how much work the index took.

use gw_cases::{number, number_or_none, wanted};
use gw_rule_index::{Counted, RuleIndex};
use gw_rules::{Ask, FieldName, Operation, Range, Rule, RuleFault, RuleList};
use std::alloc::Global;
use std::io;
use std::io::{ErrorKind, Write};

/// What is made of rules, if they can be.
pub fn made<T: Drop>(made: Result<T, RuleFault>) -> io::Result<T> {
    match made {
        Ok(made) => Ok(made),
        Err(RuleFault::Memory) => Err(ErrorKind::OutOfMemory.into()),
        Err(_) => Err(ErrorKind::InvalidData.into()),
    }
}

/// A rule: `allow` or `deny`, and the ends of the range of source keys that it names, if it does.
fn rule(alloc: Global, text: &str) -> io::Result<Rule> {
    let mut words = text.split(' ');
    let rule = made(Rule::new(alloc, "r", words.next() == Some("allow")))?;
    match words.next() {
        None => Ok(rule),
        low => {
            let range = Range {
                low: number(low)?,
                high: number(words.next())?,
            };
            made(rule.with(FieldName::SourceKey, range))
        },
    }
}

/// The rules of a text.
fn rule_list(alloc: Global, text: &str) -> io::Result<RuleList> {
    let mut rules = Vec::new(alloc);
    for part in text.split(", ") {
        rules.push(rule(alloc, part)?)?;
    }
    made(RuleList::new(rules))
}

/// Appends a rule's number.
fn put_rule(rule: Option<u16>, out: &mut Vec<u8>) -> io::Result<()> {
    match rule {
        Some(number) => write!(out, "rule {number}"),
        None => write!(out, "no rule"),
    }
}

/// The first rule by the list, the first rule by the index, and how many comparisons and ANDs of rows that took. A case has the rules
/// and the source key of the ask, or `-`.
pub fn counts(alloc: Global, case: &str, out: &mut Vec<u8>) -> io::Result<()> {
    let (rules, key) = wanted(case.split_once("; "))?;
    let rules = rule_list(alloc, rules)?;
    let ask = Ask {
        source_key: number_or_none(Some(key))?,
        ..Ask::new(Operation::Read)
    };
    put_counts(alloc, &rules, &ask, out)
}

/// Appends the first rule by the list, the first rule by the index, and how much work the index took.
pub fn put_counts(alloc: Global, rules: &RuleList, ask: &Ask, out: &mut Vec<u8>) -> io::Result<()> {
    let index = RuleIndex::build(alloc, rules)?;
    put_rule(rules.first(ask), out)?;
    let Counted {
        rule,
        comparisons,
        ands,
    } = index.first_counted(ask);
    write!(out, ", ")?;
    put_rule(rule, out)?;
    write!(out, " by {comparisons} comparisons and {ands} ANDs")
}
