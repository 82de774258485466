//! What is said of the assertions of a configuration.

ghost use Rattle.std.specs.Prelude.{◌≡◌, ◌++◌, [], IfOk, OnOk};
ghost use Rattle.std.specs.Io.Buffered.{writer_buffer, writer_contents};
ghost use Rattle.gw_ending.specs.declared.fault.Fault.TheVariants as fault;
ghost use Rattle.gw_ending.specs.reading.Printing.{LeavesEnding};
ghost use Rattle.gw_ending.specs.reading.Assertions.{assertion_name, decider_name, do_hold, holds, judged_text, outcome_of_judged};
ghost use Rattle.gw_ending.specs.reading.Assertions.{unheld_line, unheld_text, unheld_words, verdict_text};

use crate::Fault;
use crate::reading::configured::summary;
use crate::reading::printing::{Said, print_ending};
use gw_ask_sets::ask_text::put_ask;
use gw_ask_sets::assertions::Judged;
use gw_ask_sets::numbered::item_at;
use gw_configuration::{Assertion, Config};
use gw_rules::RuleList;
use itoa::Buffer;
use std::alloc::{AllocError, Global};
use std::io::{BufWriter, Write};

/// Whether an assertion holds.
fn holds(judged: &Judged) -> bool
    ensures { result ≡ holds judged.now }
{
    matches!(judged, Judged::Holds)
}

/// Whether each of these assertions holds.
pub fn do_hold(judged: &[Judged]) -> bool
    ensures { result ≡ do_hold judged.now }
{
    judged.iter().all(|each| holds(each))
}

/// How a command ends that judges assertions: `Broken` unless each of these holds.
fn outcome_of_judged(judged: &[Judged]) -> Result<(), Fault>
    ensures { result ≡ outcome_of_judged judged.now }
{
    if do_hold(judged) {
        Ok(())
    } else {
        Err(Fault::Broken)
    }
}

/// The name of the assertion of this number, counted from 1.
fn assertion_name(assertions: &[Assertion], number: usize) -> &str
    ensures { result.now ≡ assertion_name assertions.now number }
{
    match assertions.get(number.saturating_sub(1)) {
        Some(assertion) => assertion.name.as_str(),
        None => "",
    }
}

/// Appends the name of the rule that decides, or `default` if none matches.
fn put_decider(out: &mut Vec<u8>, rules: &RuleList, by: Option<u16>) -> Result<(), AllocError>
    ensures { OnOk result (out.new.items ≡ out.old.items ++ decider_name rules.now by) }
{
    let Some(number) = by else {
        return out.extend_from_slice(b"default");
    };
    match item_at(rules.rules(), Some(number)) {
        Some(rule) => out.extend_from_slice(rule.name.as_str().as_bytes()),
        None => Ok(()),
    }
}

/// Appends how an ask is decided, up to the rule by which it is.
fn put_verdict(out: &mut Vec<u8>, is_allowed: bool) -> Result<(), AllocError>
    ensures { OnOk result (out.new.items ≡ out.old.items ++ verdict_text is_allowed) }
{
    if is_allowed {
        out.extend_from_slice(b" is allowed by ")
    } else {
        out.extend_from_slice(b" is denied by ")
    }
}

/// Appends what is said of an assertion that doesn't hold.
fn put_words(out: &mut Vec<u8>, rules: &RuleList, judged: &Judged) -> Result<(), AllocError>
    ensures { OnOk result (out.new.items ≡ out.old.items ++ unheld_words rules.now judged.now) }
{
    match judged {
        Judged::Holds => Ok(()),
        Judged::Broken {
            ask,
            by,
            is_allowed,
        } => {
            out.extend_from_slice(b"broken:")?;
            put_ask(out, ask)?;
            put_verdict(out, *is_allowed)?;
            put_decider(out, rules, *by)
        }
        Judged::Empty => out.extend_from_slice(b"empty: no ask is meant"),
        Judged::Unknown => out.extend_from_slice(b"unknown"),
    }
}

/// Appends the line of the assertion of this number, if it doesn't hold.
fn put_line(
    out: &mut Vec<u8>,
    config: &Config,
    number: usize,
    judged: &Judged,
) -> Result<(), AllocError>
    ensures { OnOk result (out.new.items ≡ out.old.items ++ unheld_line config.now number judged.now) }
{
    if holds(judged) {
        return Ok(());
    }
    out.extend_from_slice(b"assert ")?;
    out.extend_from_slice(Buffer::new().format(number).as_bytes())?;
    out.extend_from_slice(b" \"")?;
    out.extend_from_slice(assertion_name(config.assertions(), number).as_bytes())?;
    out.extend_from_slice(b"\": ")?;
    put_words(out, config.rules(), judged)?;
    out.push(b'\n')?;
    Ok(())
}

/// Appends a line for each assertion that doesn't hold, in their order, by what was found of each.
///
/// ```text
/// assert 1 "no-late-writes": broken: operation=write port=1 source_network=1 .. is allowed by panel
/// assert 3 "nobody": empty: no ask is meant
/// assert 4 "ours": unknown
/// ```
///
/// An `Err` only if a growth was refused.
pub fn put_unheld(out: &mut Vec<u8>, config: &Config, judged: &[Judged]) -> Result<(), AllocError>
    ensures { OnOk result (out.new.items ≡ out.old.items ++ unheld_text config.now judged.now) }
{
    for place in 0..judged.len() {
        put_line(out, config, place + 1, &judged[place])?;
    }
    Ok(())
}

/// A text that is said of assertions that were judged: the command ends with `Broken` unless each of them holds.
pub fn said_of_judged(text: Vec<u8>, judged: &[Judged]) -> Said
    ensures text { result.text ≡ text }
    ensures ends { result.ends ≡ outcome_of_judged judged.now }
    ensures unprinted { result.unprinted ≡ fault.Write }
{
    Said::ending(text, outcome_of_judged(judged))
}

/// Prints a text of assertions that were judged so, which says how the command ends.
pub fn print_judged<W: Write + Drop>(
    text: &[u8],
    judged: &[Judged],
    output: &mut BufWriter<W>,
) -> Result<(), Fault>
    ensures output { LeavesEnding text.now (outcome_of_judged judged.now)
        (writer_contents W.contents output.old) (writer_contents W.contents output.new) result }
    ensures flush { OnOk result (writer_buffer output.new ≡ []) }
{
    print_ending(text, outcome_of_judged(judged), output)
}

/// What `check` prints of a configuration whose assertions were judged so: its summary, or a line for each that doesn't hold. An
/// `Err` only if a growth was refused.
pub fn judged_text(alloc: Global, config: &Config, judged: &[Judged]) -> Result<Vec<u8>, AllocError>
    ensures { IfOk result (λ text. text.items ≡ judged_text config.now judged.now) }
{
    if do_hold(judged) {
        return Ok(summary(alloc, config)?.into_bytes());
    }
    let mut text = Vec::new(alloc);
    put_unheld(&mut text, config, judged)?;
    Ok(text)
}
