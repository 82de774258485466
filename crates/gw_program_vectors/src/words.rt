//! Words of a command line, and what they choose; and how the program ends at each fault.

use gw_configuration::{ConfigFault, RunOptions};
use gw_program_cases::{call, put, put_faults, put_file, put_flag};
use gw_script::LineFlaw;
use gw_shell::{Choice, Fault, Obstacle, WordsFault, choice_of};
use gw_state_text::{FaultKind, StateFault};
use gw_watchers::files::TrialFault;
use gw_wire::StoreFault;
use itoa::Buffer;
use std::alloc::{AllocError, Global};
use std::io;

/// What words choose: the command, the file of the configuration and what else is asked for, `help`,
/// or the fault.
pub fn words(alloc: Global, line: &str, out: &mut Vec<u8>) -> io::Result<()> {
    let call = call(alloc, "bacgw", line)?;
    Ok(put_choice(&choice_of(alloc, call.as_slice()), out)?)
}

/// What is chosen.
fn put_choice(choice: &Result<Choice, WordsFault>, out: &mut Vec<u8>) -> Result<(), AllocError> {
    match choice {
        Ok(Choice::Check(file)) => put(out, &["check ", file.as_str()]),
        Ok(
            Choice::Replay {
                file,
                explains,
                counts,
            },
        ) => {
            put(out, &["replay"])?;
            put_flag(out, " explain", *explains)?;
            put_flag(out, " stats", *counts)?;
            put_file(out, " ", file)
        }
        Ok(Choice::Run(options)) => put_options(options, out),
        Ok(Choice::Help(_)) => put(out, &["help"]),
        Ok(Choice::Usage(_)) | Err(WordsFault::CommandLine) => put(out, &["refused"]),
        Err(WordsFault::Memory) => put(out, &["out of memory"]),
    }
}

/// What `run` is asked for.
fn put_options(options: &RunOptions, out: &mut Vec<u8>) -> Result<(), AllocError> {
    put(out, &["run ", options.config.as_str()])?;
    if let Some(log) = &options.log {
        put(out, &[" log=", log.as_str()])?;
    }
    put_flag(out, " hold", options.holds)?;
    put(out, &[" turns=", Buffer::new().format(options.turns)])?;
    if let Some(seconds) = options.stats {
        put(out, &[" stats=", Buffer::new().format(seconds)])?;
    }
    put_flag(out, " stats-rules", options.stats_rules)?;
    put_flag(out, " verbose", options.verbose)?;
    put_file(out, " state=", &options.state)?;
    put_file(out, " reload=", &options.reload)?;
    put_file(out, " trial=", &options.trial)?;
    put_file(out, " trial-log=", &options.trial_log)?;
    put_flag(out, " trial-all", options.trial_all)?;
    put_file(out, " audit=", &options.audit)?;
    put_flag(out, " stamp", options.stamp)?;
    put_file(out, " metrics=", &options.metrics)
}

/// The exit status of each fault, and its line on standard error.
pub fn faults(alloc: Global, out: &mut Vec<u8>) -> io::Result<()> {
    let faults = [
        Fault::CommandLine,
        Fault::Unreadable(Obstacle::Absent),
        Fault::Unreadable(Obstacle::NotPermitted),
        Fault::Configuration(ConfigFault::UnknownKey),
        Fault::Line(1),
        Fault::Line(u64::MAX),
        Fault::FlawedLine(2, LineFlaw::Long),
        Fault::FlawedLine(u64::MAX, LineFlaw::Digits),
        Fault::Read,
        Fault::Write,
        Fault::Log,
        Fault::Socket(8),
        Fault::Memory,
        Fault::CountEnd,
        Fault::StateUnreadable(Obstacle::Folder),
        Fault::Trial(TrialFault::Unreadable(Obstacle::NotPermitted)),
        Fault::Trial(TrialFault::Configuration(ConfigFault::Range)),
        Fault::Trial(TrialFault::Format),
        Fault::Trial(TrialFault::Ports),
        Fault::Trial(TrialFault::Log),
        Fault::Audit,
        Fault::Metrics(StoreFault::ReadOnly),
        Fault::State(StateFault {
            line: 7,
            kind: FaultKind::Range,
        }),
        Fault::State(StateFault {
            line: u64::MAX,
            kind: FaultKind::Cut,
        }),
        Fault::Store(StoreFault::NoSpace),
    ];
    put_faults(alloc, "bacgw", &faults, out)
}
