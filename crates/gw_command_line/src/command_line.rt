//! The command line: which command the words choose, read with `clap`.

ghost use Rattle.std.specs.Prelude.{◌≡◌, ◌++◌, ◌<◌, ◌^◌, map, option_map, string_bytes, IfOk, IfSome, OnOk};
ghost use Rattle.clap.specs.Words.{first_value, found_of, kind_of, subcommand_rows_of};
ghost use Rattle.gw_command_line.specs.CommandLine.{AskFor, Chooses, IsAnswer, IsChosen, IsRefusal, service};
ghost use Rattle.gw_command_line.specs.Requests.{Request, are_paired, asked, asked_by, asked_of_file, files_of, judged, lacking_of};
ghost use Rattle.gw_command_line.specs.Requests.{mistake_of, kept_of, logs_of, run_asked, service_at};

use crate::commands::make_commands;
use crate::moved::moved_command;
use crate::options::{
    FileOption, FileUse, WordsFault, add_read, add_replaced, add_request, add_written, clash_of,
    count_of, file_of, holds_of, is_given, period_of,
};
use clap::error::ErrorKind;
use clap::{ArgMatches, Error};
use gw_configuration::RunOptions;
use std::alloc::{AllocError, Global};

/// What the words ask for.
#[derive(Drop)]
pub enum Choice {
    /// Judge the configuration in the file of this name.
    Check(String),
    /// Play the script on standard input, under the configuration in the file of this name or the
    /// built-in one; say of each ask which rule decides it, and at the end how many each rule decided, if
    /// that is asked for.
    Replay {
        file: Option<String>,
        explains: bool,
        counts: bool,
    },
    /// Serve the ports of a configuration over UDP.
    Run(RunOptions),
    /// Print this text, which is help or the version.
    Help(String),
    /// Report that the words are no command line, and after it this text, which says how the program is
    /// called, and before that by which program a command is taken that this one had.
    Usage(String),
}

/// What is made of a parse of these words that gave no matches.
fn refusal_of(alloc: Global, words: &[String], error: Error) -> Result<Choice, WordsFault>
    ensures { IsRefusal (kind_of error) result }
{
    match error.kind() {
        ErrorKind::DisplayHelp | ErrorKind::DisplayVersion => {
            Ok(Choice::Help(error.to_string(alloc)?))
        }
        ErrorKind::OutOfMemory => Err(WordsFault::Memory),
        _ => match usage_text(alloc, words, &error) {
            Ok(text) => Ok(Choice::Usage(text)),
            Err(_) => Err(WordsFault::CommandLine),
        },
    }
}

/// How the program is called, after a line if the words are those of a command that another program has.
fn usage_text(alloc: Global, words: &[String], error: &Error) -> Result<String, AllocError> {
    let mut text = String::new(alloc);
    if let Some(command) = moved_command(words) {
        text.push_str(command)?;
        text.push_str(" is a command of bacgwctl now\n")?;
    }
    let usage = error.to_string(alloc)?;
    text.push_str(usage.as_str())?;
    Ok(text)
}

/// Whether two options are both given, or neither.
fn are_paired(one: &Option<String>, two: &Option<String>) -> bool
    ensures { result ≡ are_paired (option_map string_bytes one.now) (option_map string_bytes two.now) }
{
    match (one, two) {
        (Some(_), Some(_)) | (None, None) => true,
        _ => false,
    }
}

/// What is said of another word than `end` and `hold` for what is done if the log fails.
const WORDS_LINE: &str = "--on-log-failure is end or hold\n";

/// Which option lacks one that it needs, as a line, if one does.
fn lacking_of(options: &RunOptions) -> Option<&'static str>
    ensures { option_map (λ line. line.now) result ≡ lacking_of (service options.now) }
{
    if !are_paired(&options.trial, &options.trial_log) {
        return Some("--trial and --trial-log go together\n");
    }
    if options.trial_all && options.trial.is_none() {
        return Some("--trial-all needs --trial\n");
    }
    if options.stamp && options.log.is_none() {
        return Some("--stamp needs --log\n");
    }
    if options.holds && options.log.is_none() {
        return Some("--on-log-failure hold needs --log\n");
    }
    if options.stats_rules && options.stats.is_none() {
        return Some("--stats-rules needs --stats\n");
    }
    None
}

/// The name in an option.
fn name_of(file: &Option<String>) -> Option<&str>
    ensures { option_map (λ name. name.now) result ≡ option_map string_bytes file.now }
{
    match file {
        Some(name) => Some(name.as_str()),
        None => None,
    }
}

/// Adds the logs that `run` is asked to write.
fn add_logs(alloc: Global, options: &RunOptions, files: &mut Vec<FileUse>) -> Result<(), AllocError>
    ensures { OnOk result (files.new.items ≡ files.old.items ++ logs_of (service options.now)) }
{
    add_written(alloc, FileOption::Log, name_of(&options.log), "", files)?;
    add_written(
        alloc,
        FileOption::TrialLog,
        name_of(&options.trial_log),
        "",
        files,
    )?;
    add_written(alloc, FileOption::Audit, name_of(&options.audit), "", files)
}

/// Adds what `run` is asked to keep, and the request to read the configuration again.
fn add_kept(alloc: Global, options: &RunOptions, files: &mut Vec<FileUse>) -> Result<(), AllocError>
    ensures { OnOk result (files.new.items ≡ files.old.items ++ kept_of (service options.now)) }
{
    add_replaced(alloc, FileOption::State, name_of(&options.state), files)?;
    add_replaced(alloc, FileOption::Metrics, name_of(&options.metrics), files)?;
    add_request(alloc, FileOption::Reload, name_of(&options.reload), files)
}

/// The files that `run` uses.
fn files_of(alloc: Global, options: &RunOptions) -> Result<Vec<FileUse>, AllocError>
    ensures { IfOk result (λ files. files.items ≡ files_of (service options.now)) }
{
    let mut files = Vec::new(alloc);
    add_read(
        alloc,
        FileOption::Config,
        Some(options.config.as_str()),
        &mut files,
    )?;
    add_read(
        alloc,
        FileOption::Trial,
        name_of(&options.trial),
        &mut files,
    )?;
    add_logs(alloc, options, &mut files)?;
    add_kept(alloc, options, &mut files)?;
    Ok(files)
}

/// Why what `run` is asked for doesn't go together, as a line, if it doesn't.
fn mistake_of(alloc: Global, options: &RunOptions) -> Result<Option<String>, AllocError>
    ensures { IfOk result (λ line. option_map string_bytes line ≡ mistake_of (service options.now)) }
{
    if let Some(line) = lacking_of(options) {
        return Ok(Some(String::from_str(alloc, line)?));
    }
    let files = files_of(alloc, options)?;
    clash_of(alloc, &files)
}

/// To serve with these options, or why they don't go together.
fn judged_choice(alloc: Global, options: RunOptions) -> Result<Choice, WordsFault>
    ensures { IsChosen (judged (service options)) result }
{
    match mistake_of(alloc, &options)? {
        Some(line) => Ok(Choice::Usage(line)),
        None => Ok(Choice::Run(options)),
    }
}

/// How long a run lasts, how often it reports, and whether it goes on if its log fails.
#[derive(Clone, Copy)]
struct Course {
    turns: u64,
    stats: Option<u64>,
    holds: bool,
}

/// What `run` is asked for by the values of its options.
fn options_of(
    alloc: Global,
    matches: &ArgMatches<'_>,
    config: String,
    course: Course,
) -> Result<RunOptions, AllocError>
    requires few { course.turns < 2 ^ 63 }
    requires seconds { IfSome course.stats (λ n. 0 < n) }
    ensures { IfOk result (λ options. service options
        ≡ service_at (string_bytes config) (first_value (found_of matches.now)) course.turns course.stats course.holds) }
{
    let Course {
        turns,
        stats,
        holds,
    } = course;
    Ok(RunOptions {
        config,
        log: file_of(alloc, matches, "log")?,
        holds,
        turns,
        verbose: is_given(matches, "verbose"),
        stats,
        stats_rules: is_given(matches, "stats-rules"),
        state: file_of(alloc, matches, "state")?,
        reload: file_of(alloc, matches, "reload")?,
        trial: file_of(alloc, matches, "trial")?,
        trial_log: file_of(alloc, matches, "trial-log")?,
        trial_all: is_given(matches, "trial-all"),
        audit: file_of(alloc, matches, "audit")?,
        stamp: is_given(matches, "stamp"),
        metrics: file_of(alloc, matches, "metrics")?,
    })
}

/// What `run` asks for under the configuration in this file, or why its options don't go together.
fn run_choice(alloc: Global, matches: &ArgMatches<'_>, config: String) -> Result<Choice, WordsFault>
    ensures { IsChosen (run_asked (string_bytes config) (first_value (found_of matches.now))) result }
{
    let Some(turns) = count_of(matches, "turns") else {
        return Err(WordsFault::CommandLine);
    };
    let Some(stats) = period_of(matches, "stats") else {
        return Err(WordsFault::CommandLine);
    };
    let Some(holds) = holds_of(matches, "on-log-failure") else {
        return Ok(Choice::Usage(String::from_str(alloc, WORDS_LINE)?));
    };
    let course = Course {
        turns,
        stats,
        holds,
    };
    let options = options_of(alloc, matches, config, course)?;
    judged_choice(alloc, options)
}

/// What the command of this name asks for under the configuration in this file.
fn choice_of_file(
    alloc: Global,
    name: &str,
    matches: &ArgMatches<'_>,
    file: String,
) -> Result<Choice, WordsFault>
    ensures { let value = first_value (found_of matches.now) in
        IsChosen (asked_of_file name.now value (string_bytes file)) result }
{
    if name == "check" {
        return Ok(Choice::Check(file));
    }
    if name == "run" {
        return run_choice(alloc, matches, file);
    }
    Err(WordsFault::CommandLine)
}

/// What the command of this name asks for, by what its words match.
fn choice_for(alloc: Global, name: &str, matches: &ArgMatches<'_>) -> Result<Choice, WordsFault>
    ensures { IsChosen (asked name.now (first_value (found_of matches.now))) result }
{
    let config = file_of(alloc, matches, "config")?;
    if name == "replay" {
        let explains = is_given(matches, "explain");
        let counts = is_given(matches, "stats");
        return Ok(Choice::Replay {
            file: config,
            explains,
            counts,
        });
    }
    match config {
        Some(file) => choice_of_file(alloc, name, matches, file),
        None => Err(WordsFault::CommandLine),
    }
}

/// What words that the parser takes ask for.
fn choice_among(alloc: Global, matches: &ArgMatches<'_>) -> Result<Choice, WordsFault>
    ensures { IsChosen (asked_by (subcommand_rows_of matches.now)) result }
{
    match matches.subcommand() {
        Some((name, matches)) => choice_for(alloc, name, matches),
        None => Err(WordsFault::CommandLine),
    }
}

/// What the words ask for, the program's name first. Faults: `CommandLine` if they are no command
/// line of the program, and `Memory`.
pub fn choice_of(alloc: Global, words: &[String]) -> Result<Choice, WordsFault>
    ensures answers { IsAnswer (map string_bytes words.now) result }
    ensures chooses { (request : Request) → AskFor (map string_bytes words.now) request → Chooses request result }
{
    let command = make_commands(alloc)?;
    match command.try_get_matches_from(words) {
        Ok(matches) => choice_among(alloc, &matches),
        Err(error) => refusal_of(alloc, words, error),
    }
}
