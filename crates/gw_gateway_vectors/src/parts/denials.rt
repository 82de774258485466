//! Denials and their lines in the log.

use gw_addr::{Mac, NetNum, Source};
use gw_audit::Denial;
use gw_cases::{number, number_or_none, octets_of, wanted};
use gw_rules::{Ask, FieldName, Operation, RuleName};
use std::alloc::Global;
use std::io;
use std::io::ErrorKind;

/// A number, or none for `-` and where there is no word.
fn number_if_any(word: Option<&str>) -> io::Result<Option<u64>> {
    match word {
        None => Ok(None),
        _ => number_or_none(word),
    }
}

/// The ask of an operation, a destination, a service, an object's type and instance, a property and a priority, and of a sender and a
/// station if there are such.
fn ask(fields: &str) -> io::Result<Ask> {
    let mut words = fields.split(' ');
    let mut ask = Ask::new(Operation::Cast);
    ask.operation = number_or_none(words.next())?;
    for field in &FieldName::ALL[4..10] {
        ask.set(*field, number_or_none(words.next())?);
    }
    ask.sender = number_if_any(words.next())?;
    ask.station = number_if_any(words.next())?;
    Ok(ask)
}

/// The station of a network.
fn station(alloc: Global, network: Option<&str>, digits: Option<&str>) -> io::Result<Source> {
    let octets = octets_of(alloc, wanted(digits)?)?;
    Ok(Source {
        net: wanted(NetNum::new(number(network)?))?,
        mac: wanted(Mac::new(&octets))?,
    })
}

/// The name of a rule.
fn rule(name: Option<&str>) -> io::Result<RuleName> {
    match RuleName::new(wanted(name)?) {
        Ok(name) => Ok(name),
        Err(_) => Err(ErrorKind::InvalidData.into()),
    }
}

/// The line of a denial, by its number, tick, port, network, station and rule, and then the fields of its ask that a line shows.
pub fn denial(alloc: Global, case: &str, out: &mut Vec<u8>) -> io::Result<()> {
    let (front, fields) = wanted(case.split_once("; "))?;
    let mut words = front.split(' ');
    let denial = Denial {
        number: number(words.next())?,
        tick: number(words.next())?,
        port: number(words.next())?,
        source: station(alloc, words.next(), words.next())?,
        ask: ask(fields)?,
        rule: rule(words.next())?,
    };
    gw_audit::line(&denial, out)?;
    out.pop();
    Ok(())
}
