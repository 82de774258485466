//! Configurations: what a text has or the line of its first fault, and texts that are made of another by an edit.

use gw_cases::{edited, made, octets_of};
use gw_configuration::{Config, ConfigFault};
use gw_policy_text::faults::explain;
use gw_policy_text::read_config;
use std::alloc::Global;
use std::io;
use std::io::Write;

/// The configuration of a text that has one.
pub fn read(alloc: Global, text: &str) -> io::Result<Config> {
    made(read_config(alloc, text.as_bytes()), ConfigFault::Memory)
}

/// How many rules are put in front.
const OTHERS: u32 = 40;

/// A configuration with forty more rules in front. Each names a property of a broadcast, which has none, and so matches nothing.
pub fn behind_others(alloc: Global, text: &str) -> io::Result<String> {
    let (front, rules) = match text.find("[[rule]]") {
        Some(place) => text.split_at(place),
        None => (text, ""),
    };
    let mut others = String::from_str(alloc, front)?;
    for number in 0..OTHERS {
        let rule = format!(in alloc;
            "\n[[rule]]\nname = \"other-{number}\"\nallow = false\noperation = [\"cast\"]\nproperty = [{number}]\n"
        )?;
        others.push_str(rule.as_str())?;
    }
    others.push_str(rules)?;
    Ok(others)
}

/// What a configuration has, as `bacgw check` says it.
fn put_summary(config: &Config, out: &mut Vec<u8>) -> io::Result<()> {
    let ports = config.ports().len();
    let objects = config.objects().len();
    let rules = config.rules().rules().len();
    write!(out, "ok {ports} ports {objects} objects {rules} rules")
}

/// A fault, and the line that explains it.
fn put_explained(
    alloc: Global,
    text: &[u8],
    fault: ConfigFault,
    out: &mut Vec<u8>,
) -> io::Result<()> {
    write!(out, "{fault:?}")?;
    match explain(alloc, text, fault)? {
        Some(explanation) => {
            out.extend_from_slice(b", ")?;
            out.extend_from_slice(explanation.as_bytes())?;
            Ok(())
        },
        None => Ok(()),
    }
}

/// What a text is.
fn put_outcome(alloc: Global, text: &[u8], out: &mut Vec<u8>) -> io::Result<()> {
    match read_config(alloc, text) {
        Ok(config) => put_summary(&config, out),
        Err(fault) => put_explained(alloc, text, fault, out),
    }
}

/// A whole text.
pub fn check(alloc: Global, body: &str, out: &mut Vec<u8>) -> io::Result<()> {
    put_outcome(alloc, body.as_bytes(), out)?;
    writeln!(out)
}

/// A text of any octets.
pub fn octets(alloc: Global, line: &str, out: &mut Vec<u8>) -> io::Result<()> {
    put_outcome(alloc, &octets_of(alloc, line)?, out)
}

/// An edit of the configuration.
pub fn edit(alloc: Global, config: &str, line: &str, out: &mut Vec<u8>) -> io::Result<()> {
    put_outcome(alloc, edited(alloc, config, line)?.as_bytes(), out)
}
