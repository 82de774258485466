//! Options made for `clap`, and a command that needs the file of a configuration.

ghost use Rattle.std.specs.Prelude.{◌≡◌, false, codes, IfOk};
ghost use Rattle.clap.specs.Words.{app_of, rule_of};
ghost use Rattle.clap.specs.declared.builder.command.Command.TheViews.{out-Command};
ghost use Rattle.gw_command_line.specs.options.Options.{flag, long, needed, needed_flag, number, of_file, option, positional};

use clap::builder::ValueParser;
use clap::{Arg, ArgAction, Command};
use std::alloc::{AllocError, Global};

/// What `--version` prints after the program's name: the version, and the logic that the program is
/// proved in, as `rt version` names it.
pub const VERSION: &str = "0.1.0, proved by Rattle, logic dac8208d650f15bf";

/// What help calls a file, and a number.
pub const FILE: &str = "FILE";

pub const NUMBER: &str = "N";

/// What help calls one of a few words.
pub const WORD: &str = "WORD";

/// An option of this name that has a value, which help calls so.
pub fn make_option<'a>(alloc: Global, name: &'a str, value_name: &'a str, help: &'a str) -> Arg<'a>
    ensures rule { rule_of result ≡ option name.now }
    ensures local { result.global ≡ false }
{
    let arg = make_long(alloc, name, help);
    arg.value_name(value_name)
}

/// An option of this name that is written with two dashes, of which help says this.
fn make_long<'a>(alloc: Global, name: &'a str, help: &'a str) -> Arg<'a>
    ensures rule { rule_of result ≡ long name.now }
    ensures local { result.global ≡ false }
{
    Arg::new(alloc, name).long(name).help(help)
}

/// An option of this name whose value is a number from 1 to the most.
pub fn make_number<'a>(
    alloc: Global,
    name: &'a str,
    value_name: &'a str,
    most: u64,
    help: &'a str,
) -> Arg<'a>
    ensures rule { rule_of result ≡ number name.now most }
    ensures local { result.global ≡ false }
{
    let parser = ValueParser::unsigned(1, most);
    make_option(alloc, name, value_name, help).value_parser(parser)
}

/// A file that is named by a word of its own.
pub fn make_positional<'a>(alloc: Global, name: &'a str, help: &'a str) -> Arg<'a>
    ensures rule { rule_of result ≡ positional name.now }
    ensures local { result.global ≡ false }
{
    Arg::new(alloc, name).value_name(FILE).help(help)
}

/// An option of this name that has no value.
pub fn make_flag<'a>(alloc: Global, name: &'a str, help: &'a str) -> Arg<'a>
    ensures rule { rule_of result ≡ flag name.now }
    ensures local { result.global ≡ false }
{
    make_long(alloc, name, help).action(ArgAction::SetTrue)
}

/// An option of this name that has no value, and has to be given.
pub fn make_needed_flag<'a>(alloc: Global, name: &'a str, help: &'a str) -> Arg<'a>
    ensures rule { rule_of result ≡ needed_flag name.now }
    ensures local { result.global ≡ false }
{
    make_flag(alloc, name, help).required(true)
}

/// An option of this name that names a file, which has to be given.
pub fn make_needed<'a>(alloc: Global, name: &'a str, help: &'a str) -> Arg<'a>
    ensures rule { rule_of result ≡ needed name.now }
    ensures local { result.global ≡ false }
{
    make_option(alloc, name, FILE, help).required(true)
}

/// A command of this name that needs the file of a configuration, with what help says of it.
pub fn make_of_file<'a>(
    alloc: Global,
    name: &'a str,
    about: &'a str,
) -> Result<Command<'a>, AllocError>
    ensures app { IfOk result (λ command. app_of command ≡ of_file name.now) }
    ensures local { IfOk result (λ command. (out-Command command).has_globals ≡ false) }
{
    Command::new(alloc, name)
        .about(about)
        .arg(make_needed(alloc, "config", "The configuration, in TOML"))
}
