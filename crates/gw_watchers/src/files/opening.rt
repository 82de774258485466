//! A policy on trial and an audit, read and opened.

ghost use Rattle.std.specs.Prelude.{◌≡◌, Ok, false, IfErr, IfOk};
ghost use Rattle.gw_policy_text.specs.Document.{configuration};
ghost use Rattle.gw_system.specs.Offers.{OpensLog};
ghost use Rattle.gw_watchers.specs.files.Trial.{IsAuditBy, IsRead, IsTrialBy};
ghost use Rattle.gw_watchers.specs.files.internal.Parts.{Fits, IsNoFit, IsNoText, IsOpenedBy, IsUnread};

use crate::files::fault::{TrialFault, WatchFault};
use crate::files::fitting::{are_same_ports, is_same_format};
use crate::files::numbers::number_after;
use crate::{Beside, Marks, Trial};
use gw_configuration::{Config, ConfigFault};
use gw_policy_text::{MAX_OCTETS, read_config};
use gw_rule_index::Policy;
use gw_script::OctetSink;
use gw_system::{Host, LogFailure, Obstacle, ReadFailure, open_at_line};
use std::alloc::Global;

/// What is named for a trial.
#[derive(Clone, Copy)]
pub struct TrialNames<'a> {
    /// The file of the rules on trial.
    pub rules: &'a str,
    /// That of its log.
    pub log: &'a str,
    /// Whether the log has each ask that they deny.
    pub has_all_denied: bool,
}

/// A log that is open, and the number from which it goes on.
#[derive(Drop)]
struct OpenedLog<S> {
    sink: S,
    number: u64,
}

/// The configuration of a text. `Configuration` with its fault, and `Memory`.
fn config_in(alloc: Global, text: &[u8]) -> Result<Config, WatchFault>
    ensures found { IfOk result (λ c. configuration text.now ≡ Ok c) }
    ensures fault { IfErr result (IsNoText text.now) }
{
    match read_config(alloc, text) {
        Ok(config) => Ok(config),
        Err(ConfigFault::Memory) => Err(WatchFault::Memory),
        Err(fault) => Err(WatchFault::Trial(TrialFault::Configuration(fault))),
    }
}

/// The configuration of the file of this name. `Unreadable` with why it can't be read, also if there is no such file;
/// `Configuration`, and `Memory`.
fn read_trial<H: Host>(alloc: Global, name: &str, host: &H) -> Result<Config, WatchFault>
    ensures found { IfOk result (IsRead (H.offers host.now).FileReads name.now) }
    ensures fault { IfErr result (IsUnread (H.offers host.now).FileReads name.now) }
{
    match host.read_file(alloc, name, MAX_OCTETS) {
        Ok(Some(text)) => config_in(alloc, &text),
        Ok(None) => Err(WatchFault::Trial(TrialFault::Unreadable(Obstacle::Absent))),
        Err(ReadFailure::Unreadable(why)) => { Err(WatchFault::Trial(TrialFault::Unreadable(why))) }
        Err(ReadFailure::Memory) => Err(WatchFault::Memory),
    }
}

/// Whether a policy can be on trial beside a configuration: `Format` if it is of another format, and `Ports` if it has other
/// ports.
fn check_fit(config: &Config, trial: &Config) -> Result<(), WatchFault>
    ensures fits { IfOk result (λ _. Fits config.now trial.now) }
    ensures fault { IfErr result (IsNoFit config.now trial.now) }
{
    if !is_same_format(config.format(), trial.format()) {
        return Err(WatchFault::Trial(TrialFault::Format));
    }
    if !are_same_ports(config.ports(), trial.ports()) {
        return Err(WatchFault::Trial(TrialFault::Ports));
    }
    Ok(())
}

/// Opens the log of this name, to go on from its last denial. `Failed` if it can't be opened or read, or isn't a regular file, whose
/// reader could hold up all; and `Memory`.
fn open_after<H: Host>(alloc: Global, name: &str, host: &H) -> Result<OpenedLog<H::Log>, LogFailure>
    ensures { let offers = H.offers host.now in
        IsOpenedBy offers.LastDenials (OpensLog offers H.Log.held) name.now result }
{
    let line = match host.last_record(alloc, name) {
        Ok(line) => line,
        Err(ReadFailure::Memory) => return Err(LogFailure::Memory),
        Err(ReadFailure::Unreadable(_)) => return Err(LogFailure::Failed),
    };
    match open_at_line(alloc, name, host) {
        Ok(sink) => Ok(OpenedLog {
            sink,
            number: number_after(&line),
        }),
        Err(failure) => Err(failure),
    }
}

/// A log that was opened, beside the log, which records what is chosen so.
fn beside<C, S: OctetSink>(choice: C, opened: OpenedLog<S>) -> Beside<C, S>
    ensures { result ≡ record { choice = choice; sink = opened.sink; number = opened.number; lost = 0; is_cut = false } }
{
    Beside {
        choice,
        sink: opened.sink,
        number: opened.number,
        lost: 0,
        is_cut: false,
    }
}

/// Puts the rules of the file `rules` on trial beside a configuration, with the log of the name `log`: of each ask that they deny,
/// but by quiet rules, if all denied are wanted, and else of each that they decide otherwise than the rules in force.
///
/// # Errors
///
/// 1 `Trial`, and why: the file can't be read or has no configuration, it is of another format than the one in force or has
/// other ports, or the log can't be had, also if it isn't a regular file. 2 `Memory`. Nothing is opened unless the rules can be on trial.
pub fn open_trial<H: Host>(
    alloc: Global,
    config: &Config,
    names: TrialNames<'_>,
    host: &H,
) -> Result<Beside<Trial, H::Log>, WatchFault>
    ensures { let offers = H.offers host.now in
        IsTrialBy offers.FileReads offers.LastDenials (OpensLog offers H.Log.held) config.now names.entry.rules.now names.entry.log.now
        names.entry.has_all_denied result }
{
    let trial = match read_trial(alloc, names.rules, host) {
        Ok(trial) => trial,
        Err(fault) => return Err(fault),
    };
    match check_fit(config, &trial) {
        Ok(()) => {}
        Err(fault) => return Err(fault),
    }
    let Ok(policy) = Policy::new(alloc, trial.into_rules()) else {
        return Err(WatchFault::Memory);
    };
    match open_after(alloc, names.log, host) {
        Ok(opened) => {
            let trial = Trial {
                policy,
                has_all_denied: names.has_all_denied,
            };
            Ok(beside(trial, opened))
        }
        Err(LogFailure::Failed) => Err(WatchFault::Trial(TrialFault::Log)),
        Err(LogFailure::Memory) => Err(WatchFault::Memory),
    }
}

/// Opens the audit of this name, in which the allowed asks are recorded whose deciding rule says so.
///
/// # Errors
///
/// 1 `Audit` if it can't be opened or read, or isn't a regular file, and 2 `Memory`.
pub fn open_audit<H: Host>(
    alloc: Global,
    config: &Config,
    name: &str,
    host: &H,
) -> Result<Beside<Marks, H::Log>, WatchFault>
    ensures { let offers = H.offers host.now in
        IsAuditBy offers.LastDenials (OpensLog offers H.Log.held) config.now name.now result }
{
    let Ok(marks) = Marks::new(alloc, config.audits()) else {
        return Err(WatchFault::Memory);
    };
    match open_after(alloc, name, host) {
        Ok(opened) => Ok(beside(marks, opened)),
        Err(LogFailure::Failed) => Err(WatchFault::Audit),
        Err(LogFailure::Memory) => Err(WatchFault::Memory),
    }
}
