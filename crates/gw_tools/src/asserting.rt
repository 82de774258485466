//! What `compare` says of the assertions of two configurations.

ghost use Rattle.std.specs.Prelude.{◌≡◌, ◌++◌, find, option_copied, OnOk};
ghost use Rattle.std.specs.List.{flat_map};
ghost use Rattle.gw_tools.specs.Asserting.{AreFateTexts, IsFate, IsFateText, SaysAssertions, TellsFates, fate_text};
ghost use Rattle.gw_tools.specs.Asserting.{gone_text, is_named, named, told};

use gw_ask_sets::assertions::{JUDGING_STEPS, judge};
use gw_configuration::sameness::Same;
use gw_configuration::{Assertion, Config};
use gw_ending::reading::put_unheld;
use std::alloc::{AllocError, Global};

/// What became of an assertion of the old configuration's name.
#[derive(Clone, Copy)]
pub enum Fate {
    /// There was none of the name.
    New,
    /// There was another one.
    Changed,
    /// It was the same.
    Same,
}

/// Whether an assertion has this name.
fn is_named(name: &str, assertion: &Assertion) -> bool
    ensures { result ≡ is_named name.now assertion.now }
{
    assertion.name.as_str() == name
}

/// The first assertion of this name.
fn named<'a>(name: &str, assertions: &'a [Assertion]) -> Option<&'a Assertion>
    ensures { option_copied result ≡ named name.now assertions.now }
{
    assertions
        .iter()
        .find(|assertion| is_named(name, assertion))
}

/// What became of an assertion of the new configuration.
fn fate_of(old: &[Assertion], assertion: &Assertion) -> Fate
    ensures { IsFate old.now assertion.now result }
{
    match named(assertion.name.as_str(), old) {
        None => Fate::New,
        Some(was) => {
            if was.is_same(assertion) {
                Fate::Same
            } else {
                Fate::Changed
            }
        }
    }
}

/// Appends what an assertion of this name is: `assert "a" is new`, and the end of the line.
fn put_told(out: &mut Vec<u8>, name: &str, words: &str) -> Result<(), AllocError>
    ensures { OnOk result (out.new.items ≡ out.old.items ++ told name.now words.now) }
{
    out.extend_from_slice(b"assert \"")?;
    out.extend_from_slice(name.as_bytes())?;
    out.extend_from_slice(b"\" is ")?;
    out.extend_from_slice(words.as_bytes())?;
    out.push(b'\n')?;
    Ok(())
}

/// Appends the line of what became of an assertion of this name, if it isn't the same.
fn put_fate(out: &mut Vec<u8>, name: &str, fate: Fate) -> Result<(), AllocError>
    ensures { OnOk result (out.new.items ≡ out.old.items ++ fate_text name.now fate) }
{
    match fate {
        Fate::New => put_told(out, name, "new"),
        Fate::Changed => put_told(out, name, "changed"),
        Fate::Same => Ok(()),
    }
}

/// Appends the line of what became of an assertion of the new configuration, if it isn't the same.
fn put_fate_of(
    out: &mut Vec<u8>,
    old: &[Assertion],
    assertion: &Assertion,
) -> Result<(), AllocError>
    ensures { OnOk result (TellsFates (IsFateText old.now assertion.now) out.old.items out.new.items) }
{
    let fate = fate_of(old, assertion);
    put_fate(out, assertion.name.as_str(), fate)
}

/// Appends a line for each assertion of the new configuration that is new or changed, in their order.
fn put_fates(out: &mut Vec<u8>, old: &[Assertion], new: &[Assertion]) -> Result<(), AllocError>
    ensures { OnOk result (TellsFates (AreFateTexts old.now new.now) out.old.items out.new.items) }
{
    for place in 0..new.len() {
        put_fate_of(out, old, &new[place])?;
    }
    Ok(())
}

/// Appends the line of an assertion that isn't in the new configuration.
fn put_gone_of(
    out: &mut Vec<u8>,
    new: &[Assertion],
    assertion: &Assertion,
) -> Result<(), AllocError>
    ensures { OnOk result (out.new.items ≡ out.old.items ++ gone_text new.now assertion.now) }
{
    let name = assertion.name.as_str();
    if named(name, new).is_some() {
        return Ok(());
    }
    put_told(out, name, "gone")
}

/// Appends a line for each assertion of the old configuration that is gone, in their order.
fn put_gone(out: &mut Vec<u8>, old: &[Assertion], new: &[Assertion]) -> Result<(), AllocError>
    ensures { OnOk result (out.new.items ≡ out.old.items ++ flat_map (gone_text new.now) old.now) }
{
    for assertion in old {
        put_gone_of(out, new, assertion)?;
    }
    Ok(())
}

/// Appends which assertions are new, changed or gone, and a line for each of the new configuration that doesn't hold. An `Err`
/// only if a growth was refused.
///
/// ```text
/// assert "no-late-writes" is new
/// assert "ours" is gone
/// assert 1 "no-late-writes": broken: operation=write port=1 source_network=1 .. is allowed by panel
/// ```
pub fn put_assertions(
    alloc: Global,
    out: &mut Vec<u8>,
    old: &Config,
    new: &Config,
) -> Result<(), AllocError>
    ensures { OnOk result (TellsFates (SaysAssertions old.now new.now) out.old.items out.new.items) }
{
    put_fates(out, old.assertions(), new.assertions())?;
    put_gone(out, old.assertions(), new.assertions())?;
    let judged = judge(alloc, new, JUDGING_STEPS)?;
    put_unheld(out, new, &judged)
}
