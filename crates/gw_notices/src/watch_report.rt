//! What is reported of what watches a gateway.

ghost use Rattle.std.specs.Prelude.{IsOk, OnOk};
ghost use Rattle.std.specs.Io.KnownBytes.{Appends};
ghost use Rattle.gw_notices.specs.Watch.{audit_text, beside_text, counts_text, logs_text, trial_text, watch_text};

use gw_decisions::tally::{Tally, write_tally};
use gw_rules::RuleList;
use gw_script::{OctetSink, WriteFailed, write_count, write_count_line};

/// What is counted of a log beside the log.
#[derive(Clone, Copy)]
pub struct LogCount {
    /// The number of its last record.
    pub number: u64,
    /// How many records were lost.
    pub lost: u64,
}

/// What is counted of what watches a gateway.
#[derive(Clone, Copy)]
pub struct WatchCounts {
    /// Of the log of a policy on trial, if there is one.
    pub trial: Option<LogCount>,
    /// Of an audit, if there is one.
    pub audit: Option<LogCount>,
    /// How many events weren't watched.
    pub unseen: u64,
}

/// Writes the line of a log beside the log: how it begins, the number of its last record, and how many were lost.
fn write_beside<E: OctetSink>(
    front: &str,
    number: u64,
    lost: u64,
    errors: &mut E,
) -> Result<(), WriteFailed>
    ensures ok { OnOk result (Appends (E.held errors.old) (E.held errors.new) (beside_text front.now number lost)) }
    ensures sure { E.NeverFails errors.old → IsOk result }
    ensures lasts { E.NeverFails errors.old → E.NeverFails errors.new }
{
    write_count(errors, front, u128::from(number))?;
    write_count_line(errors, " lost=", u128::from(lost))
}

/// Writes what a policy on trial recorded, if there is one.
fn write_trial<E: OctetSink>(trial: Option<LogCount>, errors: &mut E) -> Result<(), WriteFailed>
    ensures ok { OnOk result (Appends (E.held errors.old) (E.held errors.new) (trial_text trial)) }
    ensures sure { E.NeverFails errors.old → IsOk result }
    ensures lasts { E.NeverFails errors.old → E.NeverFails errors.new }
{
    match trial {
        Some(trial) => write_beside("stats trial=", trial.number, trial.lost, errors),
        None => Ok(()),
    }
}

/// Writes what an audit recorded, if there is one.
fn write_audit<E: OctetSink>(audit: Option<LogCount>, errors: &mut E) -> Result<(), WriteFailed>
    ensures ok { OnOk result (Appends (E.held errors.old) (E.held errors.new) (audit_text audit)) }
    ensures sure { E.NeverFails errors.old → IsOk result }
    ensures lasts { E.NeverFails errors.old → E.NeverFails errors.new }
{
    match audit {
        Some(audit) => write_beside("stats audit=", audit.number, audit.lost, errors),
        None => Ok(()),
    }
}

/// Writes how many asks each rule decided, and how many none did, if they are counts of these rules. They always are.
pub fn write_counts<E: OctetSink>(
    rules: &RuleList,
    counts: &Option<Tally>,
    errors: &mut E,
) -> Result<(), WriteFailed>
    ensures ok { OnOk result (Appends (E.held errors.old) (E.held errors.new) (counts_text rules.now counts.now)) }
    ensures sure { E.NeverFails errors.old → IsOk result }
    ensures lasts { E.NeverFails errors.old → E.NeverFails errors.new }
{
    match counts {
        Some(counts) if counts.is_of(rules) => write_tally(rules, counts, errors),
        _ => Ok(()),
    }
}

/// Writes what the logs of what watches have and lost.
fn write_logs<E: OctetSink>(watched: WatchCounts, errors: &mut E) -> Result<(), WriteFailed>
    ensures ok { OnOk result (Appends (E.held errors.old) (E.held errors.new) (logs_text watched)) }
    ensures sure { E.NeverFails errors.old → IsOk result }
    ensures lasts { E.NeverFails errors.old → E.NeverFails errors.new }
{
    write_trial(watched.trial, errors)?;
    write_audit(watched.audit, errors)
}

/// Writes what watches a gateway recorded and lost, and how many events it didn't watch.
pub fn write_watched<E: OctetSink>(watched: WatchCounts, errors: &mut E) -> Result<(), WriteFailed>
    ensures ok { OnOk result (Appends (E.held errors.old) (E.held errors.new) (watch_text watched)) }
    ensures sure { E.NeverFails errors.old → IsOk result }
    ensures lasts { E.NeverFails errors.old → E.NeverFails errors.new }
{
    write_logs(watched, errors)?;
    write_count_line(errors, "stats unseen=", u128::from(watched.unseen))
}
