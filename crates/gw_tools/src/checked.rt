//! What `check` says of a configuration: what it has, and what of it can't be meant or is surely lacking. With `--explain` that is
//! also who may do what under it, with `--lint` also which rules never decide.

ghost use Rattle.std.specs.Prelude.{◌≡◌, ◌++◌, IfOk, OnOk};
ghost use Rattle.gw_ending.specs.reading.Files.{result_map};
ghost use Rattle.gw_policy_review.specs.warnings.Oversights.{oversights_text};
ghost use Rattle.gw_policy_review.specs.warnings.Warnings.{warnings_text};
ghost use Rattle.gw_tools.specs.Checked.{IsChecked, IsExplained, SaysChecked, SaysConfig, SaysPermissions};

use crate::placed::octets_or;
use gw_ask_sets::assertions::{JUDGING_STEPS, Judged, judge};
use gw_configuration::Config;
use gw_ending::Fault;
use gw_ending::reading::{Said, configuration_of, fault_note, judged_text, said_of_judged};
use gw_policy_review::lint::put_lint;
use gw_policy_review::permissions::put_permissions;
use gw_policy_review::warnings::{put_oversights, put_warnings};
use gw_policy_text::lines::table_lines;
use std::alloc::{AllocError, Global};

/// Whether it is said who may do what, and which rules never decide.
#[derive(Clone, Copy)]
pub struct Checking {
    /// Who may do what.
    pub explains: bool,
    /// Which rules never decide.
    pub lints: bool,
}

/// What `check` says of a text that was read: what the configuration has, or what is wrong with it.
pub fn check(alloc: Global, how: Checking, text: &Result<Vec<u8>, Fault>) -> Result<Said, Fault>
    ensures { SaysChecked how.explains how.lints (result_map (λ octets. octets.items) text.now) result }
{
    match configuration_of(alloc, text) {
        Ok(config) => say_config(alloc, how, octets_or(text), &config),
        Err(fault) => {
            let note = fault_note(alloc, true, text, fault);
            Ok(Said::of_fault(note, fault))
        }
    }
}

/// What is said of a configuration by its text. `Memory` is its only fault.
fn say_config(alloc: Global, how: Checking, text: &[u8], config: &Config) -> Result<Said, Fault>
    ensures { SaysConfig how.explains how.lints text.now config.now result }
{
    let lines = table_lines(alloc, config.written_rules(), text)?;
    let judged = judge(alloc, config, JUDGING_STEPS)?;
    let said = checked_text(alloc, how, config, &lines, &judged)?;
    Ok(said_of_judged(said, &judged))
}

/// The text of a configuration whose assertions were judged so: its summary, or the lines of those that don't hold; and
/// after it what else is asked for, by the lines of the text on which the tables of the rules begin. An `Err` only where a growth of
/// memory was refused.
fn checked_text(
    alloc: Global,
    how: Checking,
    config: &Config,
    lines: &[u32],
    judged: &[Judged],
) -> Result<Vec<u8>, AllocError>
    ensures { IfOk result (λ text. IsChecked how.explains how.lints config.now lines.now judged.now text.items) }
{
    let mut text = explained_text(alloc, how.explains, config, lines, judged)?;
    if how.lints {
        put_lint(alloc, config, lines, how.explains, &mut text)?;
    }
    Ok(text)
}

/// The summary of a configuration, or the lines of the assertions that don't hold; who may do what under it, if that is asked for; and
/// the warnings.
fn explained_text(
    alloc: Global,
    explains: bool,
    config: &Config,
    lines: &[u32],
    judged: &[Judged],
) -> Result<Vec<u8>, AllocError>
    ensures { IfOk result (λ text. IsExplained explains config.now lines.now judged.now text.items) }
{
    let mut text = judged_text(alloc, config, judged)?;
    let said = said_text(alloc, explains, config, lines)?;
    text.extend_from_slice(&said)?;
    put_all_warnings(alloc, config, lines, &mut text)?;
    Ok(text)
}

/// Who may do what, if that is asked for.
fn said_text(
    alloc: Global,
    explains: bool,
    config: &Config,
    lines: &[u32],
) -> Result<Vec<u8>, AllocError>
    ensures { IfOk result (λ text. SaysPermissions explains config.now lines.now text.items) }
{
    let mut text = Vec::new(alloc);
    if explains {
        put_permissions(alloc, config, lines, &mut text)?;
    }
    Ok(text)
}

fn put_all_warnings(
    alloc: Global,
    config: &Config,
    lines: &[u32],
    text: &mut Vec<u8>,
) -> Result<(), AllocError>
    ensures { OnOk result (text.new.items ≡ text.old.items ++ (warnings_text config.now ++ oversights_text config.now lines.now)) }
{
    put_warnings(config, text)?;
    put_oversights(alloc, config, lines, text)
}
