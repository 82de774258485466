//! What `init` asks for.

ghost use Rattle.std.specs.Prelude.{◌≡◌, Ok, codes, map, string_bytes, IfOk};
ghost use Rattle.clap.specs.Words.{found_of};
ghost use Rattle.gw_tool_line.specs.CommandLine.{IsChosen, values_of};
ghost use Rattle.gw_tool_line.specs.Requests.{init_asked};

use crate::command_line::Choice;
use clap::ArgMatches;
use gw_command_line::options::WordsFault;
use std::alloc::{AllocError, Global};

/// The words that say what a site has, each in the order in which its option is given.
#[derive(Drop)]
pub struct SiteWords {
    /// The ports.
    pub ports: Vec<String>,
    /// Other broadcast managers.
    pub peers: Vec<String>,
    /// Networks and the routers before them.
    pub routers: Vec<String>,
    /// The stations that may write.
    pub operators: Vec<String>,
    /// The broadcast managers that subnets have already.
    pub managers: Vec<String>,
}

/// Copies of texts.
fn copies_of(alloc: Global, texts: &[&str]) -> Result<Vec<String>, AllocError>
    ensures { IfOk result (λ copies. map string_bytes copies.items ≡ map (λ text. text.now) texts.now) }
{
    let mut copies = Vec::new(alloc);
    for text in texts {
        copies.push(String::from_str(alloc, text)?)?;
    }
    Ok(copies)
}

/// The values of an option, or none if it isn't given.
fn words_of(
    alloc: Global,
    matches: &ArgMatches<'_>,
    option: &str,
) -> Result<Vec<String>, AllocError>
    ensures { IfOk result (λ words. map string_bytes words.items ≡ values_of (found_of matches.now) option.now) }
{
    match matches.get_raw(option) {
        Some(texts) => copies_of(alloc, texts),
        None => Ok(Vec::new(alloc)),
    }
}

/// What `init` asks for.
pub(crate) fn init_choice(alloc: Global, matches: &ArgMatches<'_>) -> Result<Choice, WordsFault>
    ensures { IsChosen (init_asked (values_of (found_of matches.now))) result }
{
    let ports = words_of(alloc, matches, "port")?;
    let peers = words_of(alloc, matches, "peer")?;
    let routers = words_of(alloc, matches, "router")?;
    let operators = words_of(alloc, matches, "operator")?;
    let managers = words_of(alloc, matches, "bbmd")?;
    Ok(Choice::Init(SiteWords {
        ports,
        peers,
        routers,
        operators,
        managers,
    }))
}
