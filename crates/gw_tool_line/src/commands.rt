//! The commands of the program and their options, made for `clap`, with the texts of the help.

ghost use Rattle.std.specs.Prelude.{◌≡◌, false, codes, IfOk};
ghost use Rattle.clap.specs.Words.{app_of, rule_of};
ghost use Rattle.clap.specs.declared.builder.command.Command.TheViews.{out-Command};
ghost use Rattle.gw_tool_line.specs.Commands.{check, commands, later_commands, compare, compare_of_most, explain, first_commands, lint};
ghost use Rattle.gw_tool_line.specs.Commands.{log, log_of_file, middle_commands, migrate, most_commands, objects, program, reload};
ghost use Rattle.gw_tool_line.specs.Commands.{reload_of_request, report, state, rules, status, stop, suggest, why, why_of_form};

use crate::ask_command::make_ask;
use crate::init_command::make_init;
use clap::Command;
use gw_command_line::options::{
    FILE, MAX_COUNT, NUMBER, VERSION, make_flag, make_needed, make_needed_flag, make_number,
    make_of_file, make_option, make_positional,
};
use std::alloc::{AllocError, Global};

/// What is below the help on some commands.
const WHY_EXAMPLE: &str = "Example:
  bacgwctl why --config new.toml < denials.log | sort | uniq -c";

const COMPARE_EXAMPLE: &str = "Example:
  bacgwctl compare --config site.toml --with new.toml";

const STATE_EXAMPLE: &str = "Example:
  bacgwctl state --config new.toml --state /var/lib/bacgw/state";

const SUGGEST_EXAMPLE: &str = "Example:
  bacgwctl suggest --config site.toml < denials.log > suggested.toml";

const REPORT_EXAMPLE: &str = "Example:
  bacgwctl report --config site.toml --log denials.log > site.html";

const RELOAD_EXAMPLE: &str = "Example:
  bacgwctl reload --config site.toml --reload /run/bacgw/reload";

const STOP_EXAMPLE: &str = "Example:
  bacgwctl stop --reload /run/bacgw/reload";

/// What is below the help on `status`.
const STATUS_EXAMPLE: &str = "Example:
  bacgwctl status --reload /run/bacgw/reload";

const LOG_EXAMPLE: &str = "Example:
  bacgwctl log denials.log | sort | uniq -c";

const OBJECTS_EXAMPLE: &str = "Example:
  bacgwctl objects --config site.toml --csv > site.csv";

/// What help says of `--most`.
const MOST_HELP: &str =
    "How many lines are printed at most, or of each group, from 1 to 9223372036854775807, the default";

fn make_check<'a>(alloc: Global) -> Result<Command<'a>, AllocError>
    ensures app { IfOk result (λ command. app_of command ≡ check) }
    ensures local { IfOk result (λ command. (out-Command command).has_globals ≡ false) }
{
    let about = "Says what a configuration has, or its first fault";
    make_of_file(alloc, "check", about)?.arg(make_flag(
        alloc,
        "json",
        "Prints a JSON object instead",
    ))
}

fn make_explain<'a>(alloc: Global) -> Result<Command<'a>, AllocError>
    ensures app { IfOk result (λ command. app_of command ≡ explain) }
    ensures local { IfOk result (λ command. (out-Command command).has_globals ≡ false) }
{
    let about =
        "Says what a configuration has, who may do what, what is hidden from whom, and warnings";
    make_of_file(alloc, "explain", about)?.arg(make_flag(
        alloc,
        "lint",
        "Also prints which rules never decide",
    ))
}

fn make_lint<'a>(alloc: Global) -> Result<Command<'a>, AllocError>
    ensures app { IfOk result (λ command. app_of command ≡ lint) }
    ensures local { IfOk result (λ command. (out-Command command).has_globals ≡ false) }
{
    make_of_file(
        alloc,
        "lint",
        "Says what a configuration has, and which of its rules never decide",
    )
}

fn make_migrate<'a>(alloc: Global) -> Result<Command<'a>, AllocError>
    ensures app { IfOk result (λ command. app_of command ≡ migrate) }
    ensures local { IfOk result (λ command. (out-Command command).has_globals ≡ false) }
{
    make_of_file(alloc, "migrate", "Prints a configuration in format 3")
}

fn make_why<'a>(alloc: Global) -> Result<Command<'a>, AllocError>
    ensures app { IfOk result (λ command. app_of command ≡ why) }
    ensures local { IfOk result (λ command. (out-Command command).has_globals ≡ false) }
{
    make_why_of_form(alloc)?.arg(make_flag(
        alloc,
        "strict",
        "Ends at a line that isn't an ask alone; without it any text may be around an ask",
    ))
}

fn make_why_of_form<'a>(alloc: Global) -> Result<Command<'a>, AllocError>
    ensures app { IfOk result (λ command. app_of command ≡ why_of_form) }
    ensures local { IfOk result (λ command. (out-Command command).has_globals ≡ false) }
{
    let about = "Says which rule decides each ask of standard input, in the words of the log";
    make_of_file(alloc, "why", about)?
        .after_help(WHY_EXAMPLE)
        .arg(make_flag(
            alloc,
            "count",
            "Prints how many asks each rule decides instead",
        ))?
        .arg(make_flag(alloc, "json", "Answers by a JSON object a line instead"))
}

fn make_compare<'a>(alloc: Global) -> Result<Command<'a>, AllocError>
    ensures app { IfOk result (λ command. app_of command ≡ compare) }
    ensures local { IfOk result (λ command. (out-Command command).has_globals ≡ false) }
{
    make_compare_of_most(alloc)?
        .arg(make_flag(
            alloc,
            "steps",
            "Also prints how many steps the comparison took",
        ))?
        .arg(make_flag(
            alloc,
            "json",
            "Prints a JSON object instead; without --steps",
        ))
}

fn make_compare_of_most<'a>(alloc: Global) -> Result<Command<'a>, AllocError>
    ensures app { IfOk result (λ command. app_of command ≡ compare_of_most) }
    ensures local { IfOk result (λ command. (out-Command command).has_globals ≡ false) }
{
    let about = "Says which asks the rules of two configurations decide otherwise";
    make_of_file(alloc, "compare", about)?
        .after_help(COMPARE_EXAMPLE)
        .arg(make_needed(alloc, "with", "The other configuration, in TOML"))?
        .arg(make_number(alloc, "most", NUMBER, MAX_COUNT, MOST_HELP))
}

fn make_log<'a>(alloc: Global) -> Result<Command<'a>, AllocError>
    ensures app { IfOk result (λ command. app_of command ≡ log) }
    ensures local { IfOk result (λ command. (out-Command command).has_globals ≡ false) }
{
    make_log_of_file(alloc)?
        .arg(make_option(
            alloc,
            "start",
            "TIME",
            "Also shows when each denial was, if the log began then: 2026-11-25T08:00:00+01:00",
        ))?
        .arg(make_flag(
            alloc,
            "json",
            "Makes each line a JSON object instead; without --start",
        ))
}

fn make_log_of_file<'a>(alloc: Global) -> Result<Command<'a>, AllocError>
    ensures app { IfOk result (λ command. app_of command ≡ log_of_file) }
    ensures local { IfOk result (λ command. (out-Command command).has_globals ≡ false) }
{
    Command::new(alloc, "log")
        .about("Says each line of a log in words")
        .after_help(LOG_EXAMPLE)
        .arg(make_positional(alloc, "file", "The log; without it standard input"))
}

fn make_report<'a>(alloc: Global) -> Result<Command<'a>, AllocError>
    ensures app { IfOk result (λ command. app_of command ≡ report) }
    ensures local { IfOk result (λ command. (out-Command command).has_globals ≡ false) }
{
    let about = "Writes a page of HTML: the site, who may do what, the rules, and what was denied";
    make_of_file(alloc, "report", about)?
        .after_help(REPORT_EXAMPLE)
        .arg(make_option(alloc, "log", FILE, "The log whose denials it also shows"))
}

fn make_state<'a>(alloc: Global) -> Result<Command<'a>, AllocError>
    ensures app { IfOk result (λ command. app_of command ≡ state) }
    ensures local { IfOk result (λ command. (out-Command command).has_globals ≡ false) }
{
    let about = "Says what a kept state holds, and what of it a configuration takes over";
    make_of_file(alloc, "state", about)?
        .after_help(STATE_EXAMPLE)
        .arg(make_needed(alloc, "state", "The file in which run keeps the state"))
}

fn make_suggest<'a>(alloc: Global) -> Result<Command<'a>, AllocError>
    ensures app { IfOk result (λ command. app_of command ≡ suggest) }
    ensures local { IfOk result (λ command. (out-Command command).has_globals ≡ false) }
{
    let about = "Writes rules that allow the asks of standard input, to be put in front";
    make_of_file(alloc, "suggest", about)?
        .after_help(SUGGEST_EXAMPLE)
        .arg(make_flag(
            alloc,
            "fill",
            "Lets each station do what it did with each object that it asked for",
        ))?
        .arg(make_flag(
            alloc,
            "exact",
            "Keeps the services of reads and lists apart",
        ))
}

fn make_reload<'a>(alloc: Global) -> Result<Command<'a>, AllocError>
    ensures app { IfOk result (λ command. app_of command ≡ reload) }
    ensures local { IfOk result (λ command. (out-Command command).has_globals ≡ false) }
{
    make_reload_of_request(alloc)?
        .arg(make_option(
            alloc,
            "was",
            FILE,
            "The configuration that the gateway has; prints first what the new one changes",
        ))?
        .arg(make_number(alloc, "most", NUMBER, MAX_COUNT, MOST_HELP))
}

fn make_reload_of_request<'a>(alloc: Global) -> Result<Command<'a>, AllocError>
    ensures app { IfOk result (λ command. app_of command ≡ reload_of_request) }
    ensures local { IfOk result (λ command. (out-Command command).has_globals ≡ false) }
{
    let about = "Asks a running gateway to read its configuration again, and says what it did";
    make_of_file(alloc, "reload", about)?
        .after_help(RELOAD_EXAMPLE)
        .arg(make_needed(alloc, "reload", "The file that run --reload looks for"))
}

fn make_objects<'a>(alloc: Global) -> Result<Command<'a>, AllocError>
    ensures app { IfOk result (λ command. app_of command ≡ objects) }
    ensures local { IfOk result (λ command. (out-Command command).has_globals ≡ false) }
{
    let about = "Lists the objects of a configuration for engineering tools";
    make_of_file(alloc, "objects", about)?
        .after_help(OBJECTS_EXAMPLE)
        .arg(make_needed_flag(
            alloc,
            "csv",
            "As comma-separated values, a line for each object; has to be given",
        ))
}

fn make_rules<'a>(alloc: Global) -> Result<Command<'a>, AllocError>
    ensures app { IfOk result (λ command. app_of command ≡ rules) }
    ensures local { IfOk result (λ command. (out-Command command).has_globals ≡ false) }
{
    make_of_file(
        alloc,
        "rules",
        "Prints the rules of a configuration as they are in force, in format 3",
    )
}

fn make_stop<'a>(alloc: Global) -> Result<Command<'a>, AllocError>
    ensures app { IfOk result (λ command. app_of command ≡ stop) }
    ensures local { IfOk result (λ command. (out-Command command).has_globals ≡ false) }
{
    Command::new(alloc, "stop")
        .about("Asks a running gateway to keep its state and stop, and says whether it did")
        .after_help(STOP_EXAMPLE)
        .arg(make_needed(alloc, "reload", "The file that run --reload looks for"))?
        .arg(make_flag(
            alloc,
            "wait",
            "Waits for the answer up to 4 minutes, in the place of 10 seconds",
        ))
}

fn make_status<'a>(alloc: Global) -> Result<Command<'a>, AllocError>
    ensures app { IfOk result (λ command. app_of command ≡ status) }
    ensures local { IfOk result (λ command. (out-Command command).has_globals ≡ false) }
{
    Command::new(alloc, "status")
        .about("Asks a running gateway what it counts: datagrams, denials, rules, foreign devices")
        .after_help(STATUS_EXAMPLE)
        .arg(make_needed(alloc, "reload", "The file that run --reload looks for"))?
        .arg(make_flag(
            alloc,
            "wait",
            "Waits for the answer up to 4 minutes, in the place of 10 seconds",
        ))
}

/// The program, with no command yet.
fn make_program<'a>(alloc: Global) -> Command<'a>
    ensures { app_of result ≡ program }
{
    Command::new(alloc, "bacgwctl")
        .about("The tools of bacgw, a gateway of BACnet/IP")
        .version(VERSION)
        .subcommand_required(true)
}

/// The program with its first four commands.
fn make_first_commands<'a>(alloc: Global) -> Result<Command<'a>, AllocError>
    ensures { IfOk result (λ command. app_of command ≡ first_commands) }
{
    make_program(alloc)
        .subcommand(make_check(alloc)?)?
        .subcommand(make_explain(alloc)?)?
        .subcommand(make_lint(alloc)?)?
        .subcommand(make_migrate(alloc)?)
}

/// The program with its first eight commands.
fn make_middle_commands<'a>(alloc: Global) -> Result<Command<'a>, AllocError>
    ensures { IfOk result (λ command. app_of command ≡ middle_commands) }
{
    make_first_commands(alloc)?
        .subcommand(make_why(alloc)?)?
        .subcommand(make_report(alloc)?)?
        .subcommand(make_log(alloc)?)?
        .subcommand(make_compare(alloc)?)
}

/// The program with its first twelve commands.
fn make_later_commands<'a>(alloc: Global) -> Result<Command<'a>, AllocError>
    ensures { IfOk result (λ command. app_of command ≡ later_commands) }
{
    make_middle_commands(alloc)?
        .subcommand(make_state(alloc)?)?
        .subcommand(make_suggest(alloc)?)?
        .subcommand(make_reload(alloc)?)?
        .subcommand(make_objects(alloc)?)
}

/// The program with its first sixteen commands.
fn make_most_commands<'a>(alloc: Global) -> Result<Command<'a>, AllocError>
    ensures { IfOk result (λ command. app_of command ≡ most_commands) }
{
    make_later_commands(alloc)?
        .subcommand(make_ask(alloc)?)?
        .subcommand(make_rules(alloc)?)?
        .subcommand(make_stop(alloc)?)?
        .subcommand(make_status(alloc)?)
}

/// The commands of the program. An `Err` only if a growth of memory was refused.
pub fn make_commands<'a>(alloc: Global) -> Result<Command<'a>, AllocError>
    ensures { IfOk result (λ command. app_of command ≡ commands) }
{
    make_most_commands(alloc)?.subcommand(make_init(alloc)?)
}
