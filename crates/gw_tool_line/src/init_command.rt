//! The command `init` and its options, made for `clap`.

ghost use Rattle.std.specs.Prelude.{◌≡◌, false, codes, IfOk};
ghost use Rattle.clap.specs.Words.{app_of, rule_of};
ghost use Rattle.clap.specs.declared.builder.command.Command.TheViews.{out-Command};
ghost use Rattle.gw_tool_line.specs.InitCommand.{init, init_of_ports, init_of_stations, many, many_needed};

use clap::{Arg, ArgAction, Command};
use gw_command_line::options::make_option;
use std::alloc::{AllocError, Global};

/// What is below its help.
const EXAMPLE: &str = "Example:
  bacgwctl init --port 10.1.0.2/24 --port 10.2.0.2/24 --operator 10.1.0.10 > site.toml";

/// An option of this name that may be given many times, each time with a value that help calls so.
fn make_many<'a>(alloc: Global, name: &'a str, value_name: &'a str, help: &'a str) -> Arg<'a>
    ensures rule { rule_of result ≡ many name.now }
    ensures local { result.global ≡ false }
{
    make_option(alloc, name, value_name, help).action(ArgAction::Append)
}

/// One that has to be given.
fn make_many_needed<'a>(alloc: Global, name: &'a str, value_name: &'a str, help: &'a str) -> Arg<'a>
    ensures rule { rule_of result ≡ many_needed name.now }
    ensures local { result.global ≡ false }
{
    make_many(alloc, name, value_name, help).required(true)
}

fn make_init_of_ports<'a>(alloc: Global) -> Result<Command<'a>, AllocError>
    ensures app { IfOk result (λ command. app_of command ≡ init_of_ports) }
    ensures local { IfOk result (λ command. (out-Command command).has_globals ≡ false) }
{
    Command::new(alloc, "init")
        .about("Writes a configuration to begin with")
        .after_help(EXAMPLE)
        .arg(make_many_needed(
            alloc,
            "port",
            "ADDRESS/PREFIX",
            "A port: its address and its subnet; given for each, the first is port 1 on network 1",
        ))?
        .arg(make_many(
            alloc,
            "peer",
            "PORT=ADDRESS/PREFIX",
            "Another broadcast manager, with its subnet, that shares broadcasts with a port",
        ))
}

fn make_init_of_stations<'a>(alloc: Global) -> Result<Command<'a>, AllocError>
    ensures app { IfOk result (λ command. app_of command ≡ init_of_stations) }
    ensures local { IfOk result (λ command. (out-Command command).has_globals ≡ false) }
{
    make_init_of_ports(alloc)?
        .arg(make_many(
            alloc,
            "router",
            "NETWORK=ADDRESS",
            "A network behind another router, and the router's address",
        ))?
        .arg(make_many(
            alloc,
            "operator",
            "ADDRESS",
            "A station that may write; without one nobody may",
        ))
}

/// The command.
pub fn make_init<'a>(alloc: Global) -> Result<Command<'a>, AllocError>
    ensures app { IfOk result (λ command. app_of command ≡ init) }
    ensures local { IfOk result (λ command. (out-Command command).has_globals ≡ false) }
{
    make_init_of_stations(alloc)?.arg(make_many(
        alloc,
        "bbmd",
        "PORT=ADDRESS",
        "The broadcast manager that the subnet of a port has already",
    ))
}
