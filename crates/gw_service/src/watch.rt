//! What watches a gateway, as the options ask.

ghost use Rattle.std.specs.Prelude.{◌≡◌, ◌||◌, Ok, is_some, option_map, string_bytes, IfErr, IfOk};
ghost use Rattle.gw_system.specs.Offers.{OpensLog};
ghost use Rattle.gw_service.specs.Watch.{AreCountsOf, AreCountsUnder, IsAuditUnder, IsTrialUnder, IsUnwatched, WatchesUnder};
ghost use Rattle.gw_service.specs.Watch.{fault_of_watching, watch_names};

use crate::fault::ServiceFault;
use gw_configuration::{Config, RunOptions};
use gw_decisions::tally::Tally;
use gw_system::Host;
use gw_watchers::files::{TrialNames, open_audit, open_trial};
use gw_watchers::{Beside, Marks, Trial, Watcher};
use std::alloc::{AllocError, Global};

/// Whether the options ask for counts of the rules, which reports and metrics have.
fn is_counted(options: &RunOptions) -> bool
    ensures { result ≡ (is_some options.now.stats || is_some options.now.metrics) }
{
    options.stats.is_some() || options.metrics.is_some()
}

/// The policy that is on trial, if one is named, with its log.
fn trial_under<H: Host>(
    alloc: Global,
    config: &Config,
    options: &RunOptions,
    host: &H,
) -> Result<Option<Beside<Trial, H::Log>>, ServiceFault>
    ensures { let offers = H.offers host.now in
        IsTrialUnder offers.FileReads offers.LastDenials (OpensLog offers H.Log.held) config.now (watch_names options.now) result }
{
    match (&options.trial, &options.trial_log) {
        (Some(rules), Some(log)) => {
            let names = TrialNames {
                rules,
                log,
                has_all_denied: options.trial_all,
            };
            match open_trial(alloc, config, names, host) {
                Ok(trial) => Ok(Some(trial)),
                Err(fault) => Err(ServiceFault::from(fault)),
            }
        }
        _ => Ok(None),
    }
}

/// The audit, if one is named.
fn audit_under<H: Host>(
    alloc: Global,
    config: &Config,
    options: &RunOptions,
    host: &H,
) -> Result<Option<Beside<Marks, H::Log>>, ServiceFault>
    ensures { let offers = H.offers host.now in
        IsAuditUnder offers.LastDenials (OpensLog offers H.Log.held) config.now (watch_names options.now) result }
{
    match &options.audit {
        Some(name) => match open_audit(alloc, config, name, host) {
            Ok(audit) => Ok(Some(audit)),
            Err(fault) => Err(ServiceFault::from(fault)),
        },
        None => Ok(None),
    }
}

/// Counts of the rules, if they are asked for.
fn counts_if(alloc: Global, config: &Config, is_counted: bool) -> Result<Option<Tally>, AllocError>
    ensures { IfOk result (AreCountsOf config.now is_counted) }
{
    if is_counted {
        Ok(Some(Tally::new(alloc, config.rules())?))
    } else {
        Ok(None)
    }
}

/// Counts of the rules, if the options ask for them.
fn counts_under(
    alloc: Global,
    config: &Config,
    options: &RunOptions,
) -> Result<Option<Tally>, AllocError>
    ensures { IfOk result (AreCountsUnder config.now (watch_names options.now)) }
{
    counts_if(alloc, config, is_counted(options))
}

/// What watches a gateway of this configuration, as the options ask: maybe nothing. Faults: `Trial`, `Audit` and `Memory`.
pub(crate) fn watcher_under<H: Host>(
    alloc: Global,
    config: &Config,
    options: &RunOptions,
    host: &H,
) -> Result<Watcher<H::Log, H::Log>, ServiceFault>
    ensures watcher { let offers = H.offers host.now in
        IfOk result (WatchesUnder offers.FileReads offers.LastDenials (OpensLog offers H.Log.held) config.now (watch_names options.now)) }
    ensures fault { let offers = H.offers host.now in
        IfErr result (IsUnwatched offers.FileReads offers.LastDenials (OpensLog offers H.Log.held) config.now (watch_names options.now)) }
{
    let Ok(counts) = counts_under(alloc, config, options) else {
        return Err(ServiceFault::Memory);
    };
    let trial = match trial_under(alloc, config, options, host) {
        Ok(trial) => trial,
        Err(fault) => return Err(fault),
    };
    match audit_under(alloc, config, options, host) {
        Ok(audit) => Ok(Watcher::new(alloc, config.format(), trial, audit, counts)),
        Err(fault) => Err(fault),
    }
}
