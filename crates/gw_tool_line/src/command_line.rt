//! The command line: which command the words choose, read with `clap`.

ghost use Rattle.std.specs.Prelude.{◌≡◌, Err, Ok, Some, codes, map, option_map, string_bytes, IfOk};
ghost use Rattle.clap.specs.Words.{first_value, found_of, kind_of, subcommand_rows_of};
ghost use Rattle.gw_tool_line.specs.CommandLine.{AskFor, Chooses, IsAnswer, IsChosen, IsRefusal, values_of, was_of};
ghost use Rattle.gw_tool_line.specs.Requests.{Reports, Request, TranslatesLog, asked, asked_by, asked_of_file};
ghost use Rattle.gw_tool_line.specs.Requests.{check_asked, compare_asked, comparison_in, files_of, list_asked, log_asked, reload_asked};
ghost use Rattle.gw_tool_line.specs.Requests.{request_asked, state_asked, status_asked, stop_asked, why_asked};

use crate::ask_choice::{DeedWords, ask_choice};
use crate::commands::make_commands;
use crate::init_choice::{SiteWords, init_choice};
use crate::moments::start_of;
use crate::options::Shown;
use clap::error::ErrorKind;
use clap::{ArgMatches, Error};
use gw_command_line::options::{
    FileOption, FileUse, WordsFault, add_read, add_request, clash_of, count_of, file_of, is_given,
};
use gw_log_words::Moment;
use std::alloc::{AllocError, Global};

/// What is said of a start that is no moment.
const NO_MOMENT: &str = "--start takes a moment, as 2026-11-25T08:00:00+01:00\n";

/// What the words ask for.
#[derive(Drop)]
pub enum Choice {
    /// Judge the configuration in the file of this name; explain it or its fault, and say which of its
    /// rules never decide, if that is asked for.
    Check {
        file: String,
        explains: bool,
        lints: bool,
    },
    /// Say in JSON what the configuration in the file of this name has, or its fault.
    CheckJson(String),
    /// Write the configuration in the file of this name in format 3.
    Migrate(String),
    /// Say of each ask on standard input which rule of the configuration in the file of this name
    /// decides it, or how many each rule decides. Strict: a line that is no ask is a fault.
    Why {
        file: String,
        counts: bool,
        strict: bool,
    },
    /// Say which asks the rules of the configurations in these files decide otherwise, in at most so many
    /// lines, and how many steps that took if that is asked for.
    Compare {
        old: String,
        new: String,
        most: u64,
        steps: bool,
    },
    /// The same as a JSON object, without the steps.
    CompareJson {
        old: String,
        new: String,
        most: u64,
    },
    /// Say what the file of a state holds, and what of it the configuration in the other file takes over.
    State {
        config: String,
        state: String,
    },
    /// Ask the gateway that runs under the configuration in the first file to read it again, by making the
    /// file of the request; and say before that what it changes, if the configuration that the gateway has
    /// is named.
    Reload {
        config: String,
        request: String,
        was: Option<Shown>,
    },
    /// Write rules that allow the asks on standard input, to be put in front of those of the configuration in
    /// this file: for each station what it did with all objects that it asked for, if that is asked for, and
    /// with the services of reads and lists, if that is.
    Suggest {
        file: String,
        fills: bool,
        exact: bool,
    },
    /// Say the log in the file of this name, or on standard input, in words, and when each denial was if
    /// this is the moment at which the log began.
    Log {
        file: Option<String>,
        start: Option<Moment>,
    },
    /// Write the log in the file of this name, or on standard input, as JSON objects.
    Objects(Option<String>),
    /// Answer each ask on standard input by the rules of the configuration in this file, as JSON
    /// objects. Strict: a line that is no ask is a fault.
    Judge {
        file: String,
        strict: bool,
    },
    /// Write a page of HTML that shows the configuration in the first file, and the log in the second one.
    Report {
        file: String,
        log: Option<String>,
    },
    /// List the objects of the configuration in this file as comma-separated values.
    Points(String),
    /// Print the rules of the configuration in this file as they are in force.
    Rules(String),
    /// Ask the gateway that looks for this request to stop; and wait for its answer longer than a reload does, if that is
    /// asked for.
    Stop {
        request: String,
        waits: bool,
    },
    /// Ask the gateway that looks for this request to say what it counts; and wait for its answer longer, if that is asked for.
    Status {
        request: String,
        waits: bool,
    },
    /// Say whether a station may do this, with another one if one is named, under the configuration in this file.
    Ask {
        file: String,
        from: String,
        to: Option<String>,
        deed: DeedWords,
    },
    /// Write a configuration to begin with, of what these words say.
    Init(SiteWords),
    /// Print this text, which is help or the version.
    Help(String),
    /// Report that the words are no command line, and after it this text, which says how the program is
    /// called.
    Usage(String),
}

/// That the words are no command line, as this line says.
pub(crate) fn usage(alloc: Global, line: &str) -> Result<Choice, WordsFault>
    ensures { IsChosen (Err line.now) result }
{
    Ok(Choice::Usage(String::from_str(alloc, line)?))
}

/// What is made of a parse that gave no matches.
fn refusal_of(alloc: Global, error: Error) -> Result<Choice, WordsFault>
    ensures { IsRefusal (kind_of error) result }
{
    match error.kind() {
        ErrorKind::DisplayHelp | ErrorKind::DisplayVersion => {
            Ok(Choice::Help(error.to_string(alloc)?))
        }
        ErrorKind::OutOfMemory => Err(WordsFault::Memory),
        _ => match error.to_string(alloc) {
            Ok(text) => Ok(Choice::Usage(text)),
            Err(_) => Err(WordsFault::CommandLine),
        },
    }
}

/// What `check` asks for of the configuration in this file.
fn check_choice(matches: &ArgMatches<'_>, file: String) -> Choice
    ensures { IsChosen (check_asked (string_bytes file) (first_value (found_of matches.now))) (Ok result) }
{
    if is_given(matches, "json") {
        Choice::CheckJson(file)
    } else {
        Choice::Check {
            file,
            explains: false,
            lints: false,
        }
    }
}

/// What `compare` asks for of the configuration in this file.
fn compare_choice(
    alloc: Global,
    matches: &ArgMatches<'_>,
    old: String,
) -> Result<Choice, WordsFault>
    ensures { IsChosen (compare_asked (string_bytes old) (first_value (found_of matches.now))) result }
{
    let Some(most) = count_of(matches, "most") else {
        return Err(WordsFault::CommandLine);
    };
    match file_of(alloc, matches, "with")? {
        Some(new) => comparison_choice(alloc, matches, old, new, most),
        None => Err(WordsFault::CommandLine),
    }
}

/// The comparison of two files in at most so many lines. `CommandLine` if it is to be in JSON and with its
/// steps.
fn comparison_choice(
    alloc: Global,
    matches: &ArgMatches<'_>,
    old: String,
    new: String,
    most: u64,
) -> Result<Choice, WordsFault>
    ensures { let value = first_value (found_of matches.now) in
        IsChosen (comparison_in (string_bytes old) (string_bytes new) most value) result }
{
    let steps = is_given(matches, "steps");
    if !is_given(matches, "json") {
        return Ok(Choice::Compare {
            old,
            new,
            most,
            steps,
        });
    }
    if steps {
        return usage(alloc, "--json and --steps exclude each other\n");
    }
    Ok(Choice::CompareJson { old, new, most })
}

/// What `state` asks for under the configuration in this file.
fn state_choice(
    alloc: Global,
    matches: &ArgMatches<'_>,
    config: String,
) -> Result<Choice, WordsFault>
    ensures { let state = first_value (found_of matches.now) (codes "state") in
        IsChosen (state_asked (string_bytes config) state) result }
{
    match file_of(alloc, matches, "state")? {
        Some(state) => Ok(Choice::State { config, state }),
        None => Err(WordsFault::CommandLine),
    }
}

/// The files that `reload` uses.
fn files_of(
    alloc: Global,
    config: &str,
    request: &str,
    was: &Option<Shown>,
) -> Result<Vec<FileUse>, AllocError>
    ensures { IfOk result (λ files. files.items ≡ files_of config.now request.now (option_map was_of was.now)) }
{
    let old = match was {
        Some(shown) => Some(shown.old.as_str()),
        None => None,
    };
    let mut files = Vec::new(alloc);
    add_read(alloc, FileOption::Config, Some(config), &mut files)?;
    add_read(alloc, FileOption::Was, old, &mut files)?;
    add_request(alloc, FileOption::Reload, Some(request), &mut files)?;
    Ok(files)
}

/// To ask with this request for the configuration in this file to be read again, or which two files are one.
fn asking_choice(
    alloc: Global,
    config: String,
    request: String,
    was: Option<Shown>,
) -> Result<Choice, WordsFault>
    ensures { IsChosen (request_asked (string_bytes config) (Some (string_bytes request)) (option_map was_of was)) result }
{
    let files = files_of(alloc, &config, &request, &was)?;
    match clash_of(alloc, &files)? {
        Some(line) => Ok(Choice::Usage(line)),
        None => Ok(Choice::Reload {
            config,
            request,
            was,
        }),
    }
}

/// What `reload` asks for under the configuration in this file, by what it compares first.
fn request_choice(
    alloc: Global,
    matches: &ArgMatches<'_>,
    config: String,
    was: Option<Shown>,
) -> Result<Choice, WordsFault>
    ensures { let request = first_value (found_of matches.now) (codes "reload") in
        IsChosen (request_asked (string_bytes config) request (option_map was_of was)) result }
{
    match file_of(alloc, matches, "reload")? {
        Some(request) => asking_choice(alloc, config, request, was),
        None => Err(WordsFault::CommandLine),
    }
}

/// What `reload` asks for under the configuration in this file. Without the file of the old configuration there is no number of
/// lines.
fn reload_choice(
    alloc: Global,
    matches: &ArgMatches<'_>,
    config: String,
) -> Result<Choice, WordsFault>
    ensures { IsChosen (reload_asked (string_bytes config) (first_value (found_of matches.now))) result }
{
    let Some(old) = file_of(alloc, matches, "was")? else {
        return match matches.get_str("most") {
            Some(_) => usage(alloc, "--most needs --was\n"),
            None => request_choice(alloc, matches, config, None),
        };
    };
    match count_of(matches, "most") {
        Some(most) => request_choice(alloc, matches, config, Some(Shown { old, most })),
        None => Err(WordsFault::CommandLine),
    }
}

/// What `report` asks for of the configuration in this file.
fn report_choice(
    alloc: Global,
    matches: &ArgMatches<'_>,
    file: String,
) -> Result<Choice, WordsFault>
    ensures { let log = first_value (found_of matches.now) (codes "log") in
        IsChosen (Ok (Reports (string_bytes file) log)) result }
{
    let log = file_of(alloc, matches, "log")?;
    Ok(Choice::Report { file, log })
}

/// What `log` asks for. `CommandLine` if the text of its start says no moment, or if it is to be written
/// as JSON objects and has a start.
fn log_choice(alloc: Global, matches: &ArgMatches<'_>) -> Result<Choice, WordsFault>
    ensures { IsChosen (log_asked (first_value (found_of matches.now))) result }
{
    let file = file_of(alloc, matches, "file")?;
    if is_given(matches, "json") {
        list_choice(alloc, matches, file)
    } else {
        words_choice(alloc, matches, file)
    }
}

/// What `log` of this file, or of standard input, asks for as JSON objects.
fn list_choice(
    alloc: Global,
    matches: &ArgMatches<'_>,
    file: Option<String>,
) -> Result<Choice, WordsFault>
    ensures { let start = first_value (found_of matches.now) (codes "start") in
        IsChosen (list_asked (option_map string_bytes file) start) result }
{
    match matches.get_str("start") {
        Some(_) => usage(alloc, "--json and --start exclude each other\n"),
        None => Ok(Choice::Objects(file)),
    }
}

/// What `log` of this file, or of standard input, asks for in words.
fn words_choice(
    alloc: Global,
    matches: &ArgMatches<'_>,
    file: Option<String>,
) -> Result<Choice, WordsFault>
    ensures { let start = first_value (found_of matches.now) (codes "start") in
        IsChosen (Ok (TranslatesLog (option_map string_bytes file) start)) result }
{
    match start_of(matches.get_str("start")) {
        Ok(start) => Ok(Choice::Log { file, start }),
        Err(_) => Ok(Choice::Usage(String::from_str(alloc, NO_MOMENT)?)),
    }
}

/// What `stop` asks for.
fn stop_choice(alloc: Global, matches: &ArgMatches<'_>) -> Result<Choice, WordsFault>
    ensures { IsChosen (stop_asked (first_value (found_of matches.now))) result }
{
    let waits = is_given(matches, "wait");
    match file_of(alloc, matches, "reload")? {
        Some(request) => Ok(Choice::Stop { request, waits }),
        None => Err(WordsFault::CommandLine),
    }
}

/// What `status` asks for.
fn status_choice(alloc: Global, matches: &ArgMatches<'_>) -> Result<Choice, WordsFault>
    ensures { IsChosen (status_asked (first_value (found_of matches.now))) result }
{
    let waits = is_given(matches, "wait");
    match file_of(alloc, matches, "reload")? {
        Some(request) => Ok(Choice::Status { request, waits }),
        None => Err(WordsFault::CommandLine),
    }
}

/// What `why` asks for under the configuration in this file. `CommandLine` if it is to count, and to answer
/// by JSON objects.
fn why_choice(alloc: Global, matches: &ArgMatches<'_>, file: String) -> Result<Choice, WordsFault>
    ensures { IsChosen (why_asked (string_bytes file) (first_value (found_of matches.now))) result }
{
    let counts = is_given(matches, "count");
    let strict = is_given(matches, "strict");
    if !is_given(matches, "json") {
        return Ok(Choice::Why {
            file,
            counts,
            strict,
        });
    }
    if counts {
        return usage(alloc, "--json and --count exclude each other\n");
    }
    Ok(Choice::Judge { file, strict })
}

/// What the command of this name asks for under the configuration in this file.
fn choice_of_file(
    alloc: Global,
    name: &str,
    matches: &ArgMatches<'_>,
    file: String,
) -> Result<Choice, WordsFault>
    ensures { let value = first_value (found_of matches.now) in
        IsChosen (asked_of_file name.now value (string_bytes file)) result }
{
    if name == "check" {
        return Ok(check_choice(matches, file));
    }
    if name == "explain" {
        let lints = is_given(matches, "lint");
        return Ok(Choice::Check {
            file,
            explains: true,
            lints,
        });
    }
    if name == "lint" {
        return Ok(Choice::Check {
            file,
            explains: false,
            lints: true,
        });
    }
    if name == "migrate" {
        return Ok(Choice::Migrate(file));
    }
    if name == "why" {
        return why_choice(alloc, matches, file);
    }
    if name == "compare" {
        return compare_choice(alloc, matches, file);
    }
    if name == "reload" {
        return reload_choice(alloc, matches, file);
    }
    if name == "suggest" {
        let fills = is_given(matches, "fill");
        let exact = is_given(matches, "exact");
        return Ok(Choice::Suggest { file, fills, exact });
    }
    if name == "state" {
        return state_choice(alloc, matches, file);
    }
    if name == "report" {
        return report_choice(alloc, matches, file);
    }
    if name == "objects" {
        return Ok(Choice::Points(file));
    }
    if name == "rules" {
        return Ok(Choice::Rules(file));
    }
    if name == "ask" {
        return ask_choice(alloc, matches, file);
    }
    Err(WordsFault::CommandLine)
}

/// What the command of this name asks for, by what its words match.
fn choice_for(alloc: Global, name: &str, matches: &ArgMatches<'_>) -> Result<Choice, WordsFault>
    ensures { IsChosen (asked name.now (first_value (found_of matches.now)) (values_of (found_of matches.now))) result }
{
    if name == "init" {
        return init_choice(alloc, matches);
    }
    if name == "log" {
        return log_choice(alloc, matches);
    }
    if name == "stop" {
        return stop_choice(alloc, matches);
    }
    if name == "status" {
        return status_choice(alloc, matches);
    }
    let config = file_of(alloc, matches, "config")?;
    match config {
        Some(file) => choice_of_file(alloc, name, matches, file),
        None => Err(WordsFault::CommandLine),
    }
}

/// What words that the parser takes ask for.
fn choice_among(alloc: Global, matches: &ArgMatches<'_>) -> Result<Choice, WordsFault>
    ensures { IsChosen (asked_by (subcommand_rows_of matches.now)) result }
{
    match matches.subcommand() {
        Some((name, matches)) => choice_for(alloc, name, matches),
        None => Err(WordsFault::CommandLine),
    }
}

/// What the words ask for, the program's name first. Faults: `CommandLine` if they are no command
/// line of the program, and `Memory`.
pub fn choice_of(alloc: Global, words: &[String]) -> Result<Choice, WordsFault>
    ensures answers { IsAnswer (map string_bytes words.now) result }
    ensures chooses { (request : Request) → AskFor (map string_bytes words.now) request → Chooses request result }
{
    let command = make_commands(alloc)?;
    match command.try_get_matches_from(words) {
        Ok(matches) => choice_among(alloc, &matches),
        Err(error) => refusal_of(alloc, error),
    }
}
