//! The command `ask` and its options, made for `clap`.

ghost use Rattle.std.specs.Prelude.{◌≡◌, false, codes, IfOk};
ghost use Rattle.clap.specs.Words.{app_of, rule_of};
ghost use Rattle.clap.specs.declared.builder.command.Command.TheViews.{out-Command};
ghost use Rattle.gw_command_line.specs.options.Options.{needed};
ghost use Rattle.gw_tool_line.specs.AskCommand.{ask, ask_of_stations, ask_to_read, ask_to_serve, ask_to_write};

use clap::{Arg, Command};
use gw_command_line::options::{NUMBER, make_flag, make_of_file, make_option};
use std::alloc::{AllocError, Global};

/// What is below its help.
const EXAMPLE: &str = "Example:
  bacgwctl ask --config site.toml --from 10.1.0.10 --to 10.2.0.11 --write analog-value,1 --priority 8
  bacgwctl ask --config site.toml --from 300:20 --to 10.2.0.11 --service SubscribeCOV
  bacgwctl ask --config site.toml --from 10.1.0.10 --who-is";

/// What help calls a station, and a property of an object.
const STATION: &str = "STATION";

const OBJECT: &str = "OBJECT";

/// What it calls a service.
const SERVICE: &str = "NAME";

/// The option that names who asks, which has to be given.
fn make_from<'a>(alloc: Global) -> Arg<'a>
    ensures rule { rule_of result ≡ needed (codes "from") }
    ensures local { result.global ≡ false }
{
    let help =
        "Who asks: ADDRESS, of the stations of a port, or NETWORK:ADDRESS, :OCTET or :0xOCTETS";
    make_option(alloc, "from", STATION, help).required(true)
}

fn make_ask_of_stations<'a>(alloc: Global) -> Result<Command<'a>, AllocError>
    ensures app { IfOk result (λ command. app_of command ≡ ask_of_stations) }
    ensures local { IfOk result (λ command. (out-Command command).has_globals ≡ false) }
{
    let about = "Says whether a station may do something, and by which rules";
    make_of_file(alloc, "ask", about)?
        .arg(make_from(alloc))?
        .arg(make_option(
            alloc,
            "to",
            STATION,
            "Who is asked: the same, or device, which is the gateway's own; of --who-is a network",
        ))
}

fn make_ask_to_read<'a>(alloc: Global) -> Result<Command<'a>, AllocError>
    ensures app { IfOk result (λ command. app_of command ≡ ask_to_read) }
    ensures local { IfOk result (λ command. (out-Command command).has_globals ≡ false) }
{
    make_ask_of_stations(alloc)?
        .after_help(EXAMPLE)
        .arg(make_option(
            alloc,
            "read",
            OBJECT,
            "What it reads: TYPE,INSTANCE or TYPE,INSTANCE,PROPERTY",
        ))
}

fn make_ask_to_write<'a>(alloc: Global) -> Result<Command<'a>, AllocError>
    ensures app { IfOk result (λ command. app_of command ≡ ask_to_write) }
    ensures local { IfOk result (λ command. (out-Command command).has_globals ≡ false) }
{
    make_ask_to_read(alloc)?
        .arg(make_option(
            alloc,
            "write",
            OBJECT,
            "What it writes: TYPE,INSTANCE or TYPE,INSTANCE,PROPERTY",
        ))?
        .arg(make_option(
            alloc,
            "priority",
            NUMBER,
            "The priority of a write, from 1 to 16",
        ))
}

fn make_ask_to_serve<'a>(alloc: Global) -> Result<Command<'a>, AllocError>
    ensures app { IfOk result (λ command. app_of command ≡ ask_to_serve) }
    ensures local { IfOk result (λ command. (out-Command command).has_globals ≡ false) }
{
    make_ask_to_write(alloc)?
        .arg(make_option(
            alloc,
            "service",
            SERVICE,
            "Which confirmed service it asks for, as SubscribeCOV",
        ))?
        .arg(make_flag(
            alloc,
            "who-is",
            "Whether its Who-Is is heard, on each network without --to",
        ))
}

/// The command.
pub fn make_ask<'a>(alloc: Global) -> Result<Command<'a>, AllocError>
    ensures app { IfOk result (λ command. app_of command ≡ ask) }
    ensures local { IfOk result (λ command. (out-Command command).has_globals ≡ false) }
{
    make_ask_to_serve(alloc)?.arg(make_flag(
        alloc,
        "register",
        "Whether it may register as a foreign device; without --to",
    ))
}
