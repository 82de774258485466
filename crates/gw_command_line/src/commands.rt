//! The commands of the program and their options, made for `clap`, with the texts of the help.

ghost use Rattle.std.specs.Prelude.{◌≡◌, false, codes, IfOk};
ghost use Rattle.clap.specs.Words.{app_of, rule_of};
ghost use Rattle.clap.specs.declared.builder.command.Command.TheViews.{out-Command};
ghost use Rattle.gw_command_line.specs.Commands.{check, commands, program};
ghost use Rattle.gw_command_line.specs.Commands.{replay, replay_of_explanation, run, run_of_audit, run_of_reports, run_of_state};
ghost use Rattle.gw_command_line.specs.Commands.{run_of_trial, run_of_turns};

use crate::options::{
    FILE, MAX_COUNT, MAX_SECONDS, NUMBER, VERSION, WORD, make_flag, make_number, make_of_file,
    make_option,
};
use clap::Command;
use std::alloc::{AllocError, Global};

/// What is below the help on `run`.
const RUN_EXAMPLE: &str = "Example:
  bacgw run --config site.toml --log /var/log/bacgw/denials.log --verbose";

fn make_check<'a>(alloc: Global) -> Result<Command<'a>, AllocError>
    ensures app { IfOk result (λ command. app_of command ≡ check) }
    ensures local { IfOk result (λ command. (out-Command command).has_globals ≡ false) }
{
    make_of_file(
        alloc,
        "check",
        "Says what a configuration has, or its first fault",
    )
}

fn make_replay<'a>(alloc: Global) -> Result<Command<'a>, AllocError>
    ensures app { IfOk result (λ command. app_of command ≡ replay) }
    ensures local { IfOk result (λ command. (out-Command command).has_globals ≡ false) }
{
    make_replay_of_explanation(alloc)?.arg(make_flag(
        alloc,
        "stats",
        "Also reports at the end how many asks each rule decided",
    ))
}

fn make_replay_of_explanation<'a>(alloc: Global) -> Result<Command<'a>, AllocError>
    ensures app { IfOk result (λ command. app_of command ≡ replay_of_explanation) }
    ensures local { IfOk result (λ command. (out-Command command).has_globals ≡ false) }
{
    Command::new(alloc, "replay")
        .about("Plays the events of standard input and prints what the gateway gives for each")
        .arg(make_option(
            alloc,
            "config",
            FILE,
            "The configuration, in TOML; without it the built-in one",
        ))?
        .arg(make_flag(
            alloc,
            "explain",
            "Also prints each ask, and which rule decides it",
        ))
}

fn make_run<'a>(alloc: Global) -> Result<Command<'a>, AllocError>
    ensures app { IfOk result (λ command. app_of command ≡ run) }
    ensures local { IfOk result (λ command. (out-Command command).has_globals ≡ false) }
{
    make_run_of_audit(alloc)?.arg(make_option(
        alloc,
        "metrics",
        FILE,
        "Keeps the counts in this file, for a collector of metrics",
    ))
}

fn make_run_of_audit<'a>(alloc: Global) -> Result<Command<'a>, AllocError>
    ensures app { IfOk result (λ command. app_of command ≡ run_of_audit) }
    ensures local { IfOk result (λ command. (out-Command command).has_globals ≡ false) }
{
    make_run_of_trial(alloc)?
        .arg(make_option(
            alloc,
            "audit",
            FILE,
            "What the asks are appended to that a rule with audit = true allows",
        ))?
        .arg(make_flag(
            alloc,
            "stamp",
            "Begins each line of the log with the time, and adds notes; with --log",
        ))
}

fn make_run_of_trial<'a>(alloc: Global) -> Result<Command<'a>, AllocError>
    ensures app { IfOk result (λ command. app_of command ≡ run_of_trial) }
    ensures local { IfOk result (λ command. (out-Command command).has_globals ≡ false) }
{
    make_run_of_state(alloc)?
        .arg(make_option(
            alloc,
            "trial",
            FILE,
            "A configuration whose rules are only tried; with --trial-log",
        ))?
        .arg(make_option(
            alloc,
            "trial-log",
            FILE,
            "What the asks are appended to that the rules of --trial decide otherwise",
        ))?
        .arg(make_flag(
            alloc,
            "trial-all",
            "Appends each ask that they deny, also where the rules in force deny it; with --trial",
        ))
}

fn make_run_of_state<'a>(alloc: Global) -> Result<Command<'a>, AllocError>
    ensures app { IfOk result (λ command. app_of command ≡ run_of_state) }
    ensures local { IfOk result (λ command. (out-Command command).has_globals ≡ false) }
{
    make_run_of_reports(alloc)?
        .arg(make_option(
            alloc,
            "state",
            FILE,
            "Keeps the state in this file, and begins with what it holds",
        ))?
        .arg(make_option(
            alloc,
            "reload",
            FILE,
            "Looks in this file for requests: to read the configuration again, to stop, to say what is counted",
        ))
}

fn make_run_of_reports<'a>(alloc: Global) -> Result<Command<'a>, AllocError>
    ensures app { IfOk result (λ command. app_of command ≡ run_of_reports) }
    ensures local { IfOk result (λ command. (out-Command command).has_globals ≡ false) }
{
    make_run_of_turns(alloc)?
        .arg(make_flag(
            alloc,
            "verbose",
            "Reports at the start what is served, or where a fault is, and each minute what is dropped or fails",
        ))?
        .arg(make_number(
            alloc,
            "stats",
            "SECONDS",
            MAX_SECONDS,
            "Reports what was done, each so many seconds, from 1 to 4294967295, and at the end",
        ))?
        .arg(make_flag(
            alloc,
            "stats-rules",
            "Counts the asks of each rule in each report, not only in the first of an hour; with --stats",
        ))
}

fn make_run_of_turns<'a>(alloc: Global) -> Result<Command<'a>, AllocError>
    ensures app { IfOk result (λ command. app_of command ≡ run_of_turns) }
    ensures local { IfOk result (λ command. (out-Command command).has_globals ≡ false) }
{
    let about = "Serves the ports of a configuration over UDP";
    make_of_file(alloc, "run", about)?
        .after_help(RUN_EXAMPLE)
        .arg(make_option(
            alloc,
            "log",
            FILE,
            "What the log is appended to; without it standard output",
        ))?
        .arg(make_option(
            alloc,
            "on-log-failure",
            WORD,
            "What is done if the log fails: end, the default, or hold; with --log",
        ))?
        .arg(make_number(
            alloc,
            "turns",
            NUMBER,
            MAX_COUNT,
            "How many turns are served, from 1 to 9223372036854775807, the default",
        ))
}

/// The program, with no command yet.
fn make_program<'a>(alloc: Global) -> Command<'a>
    ensures { app_of result ≡ program }
{
    Command::new(alloc, "bacgw")
        .about("A gateway of BACnet/IP")
        .version(VERSION)
        .subcommand_required(true)
}

/// The commands of the program. An `Err` only if a growth of memory was refused.
pub fn make_commands<'a>(alloc: Global) -> Result<Command<'a>, AllocError>
    ensures { IfOk result (λ command. app_of command ≡ commands) }
{
    make_program(alloc)
        .subcommand(make_check(alloc)?)?
        .subcommand(make_replay(alloc)?)?
        .subcommand(make_run(alloc)?)
}
