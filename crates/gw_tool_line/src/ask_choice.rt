//! What `ask` asks for.

ghost use Rattle.std.specs.Prelude.{◌≡◌, Err, None, Ok, option_map, string_bytes, IfOk};
ghost use Rattle.clap.specs.Words.{first_value, found_of};
ghost use Rattle.gw_tool_line.specs.CommandLine.{IsChosen, deed_of, deed_view, one_view};
ghost use Rattle.gw_tool_line.specs.Requests.{Calls, added, ask_asked, ask_from, deed_asked, deed_given, deed_if, either, last_deed};
ghost use Rattle.gw_tool_line.specs.Requests.{line_of, property_deed, write_deed};

use crate::command_line::{Choice, usage};
use clap::ArgMatches;
use gw_command_line::options::{WordsFault, file_of, is_given};
use std::alloc::{AllocError, Global};

/// What a station asks for, in the words that name it.
#[derive(Drop)]
pub enum DeedWords {
    /// To read this.
    Read(String),
    /// To write this, at this priority if one is given.
    Write {
        object: String,
        priority: Option<String>,
    },
    /// To be served by this confirmed service.
    Serve(String),
    /// To be heard by its Who-Is.
    WhoIs,
    /// To register as a foreign device.
    Register,
}

/// Why words don't say what a station asks for.
#[derive(Clone, Copy)]
pub enum Unclear {
    /// They give both a read and a write.
    Both,
    /// They give none, or several.
    NotOne,
    /// They give a priority of no write.
    Priority,
}

impl Unclear {
    /// What is said of it.
    fn line(self) -> &'static str
        ensures { result.now ≡ line_of self }
    {
        match self {
            Unclear::Both => "--read and --write exclude each other\n",
            Unclear::NotOne => "give one of --read, --write, --service, --who-is and --register\n",
            Unclear::Priority => "--priority needs --write\n",
        }
    }
}

/// The one of two that is given, or why that is unclear if both are.
fn either(
    one: Option<DeedWords>,
    other: Option<DeedWords>,
    unclear: Unclear,
) -> Result<Option<DeedWords>, Unclear>
    ensures { one_view result ≡ either (option_map deed_of one) (option_map deed_of other) unclear }
{
    match (one, other) {
        (None, other) => Ok(other),
        (Some(one), None) => Ok(Some(one)),
        (Some(_), Some(_)) => Err(unclear),
    }
}

/// The same where the first is perhaps unclear.
fn added(
    one: Result<Option<DeedWords>, Unclear>,
    other: Option<DeedWords>,
) -> Result<Option<DeedWords>, Unclear>
    ensures { one_view result ≡ added (one_view one) (option_map deed_of other) }
{
    match one {
        Ok(one) => either(one, other, Unclear::NotOne),
        Err(unclear) => Err(unclear),
    }
}

/// A write, if there is one.
fn write_words(object: Option<String>, priority: Option<String>) -> Option<DeedWords>
    ensures { option_map deed_of result ≡ write_deed (option_map string_bytes object) (option_map string_bytes priority) }
{
    match object {
        Some(object) => Some(DeedWords::Write { object, priority }),
        None => None,
    }
}

/// What is read or written, if something is.
fn property_words(
    read: Option<String>,
    write: Option<String>,
    priority: Option<String>,
) -> Result<Option<DeedWords>, Unclear>
    ensures { one_view result
        ≡ property_deed (option_map string_bytes read) (option_map string_bytes write) (option_map string_bytes priority) }
{
    if write.is_none() && priority.is_some() {
        return Err(Unclear::Priority);
    }
    let read = match read {
        Some(object) => Some(DeedWords::Read(object)),
        None => None,
    };
    either(read, write_words(write, priority), Unclear::Both)
}

/// A service, if there is one.
fn service_words(service: Option<String>) -> Option<DeedWords>
    ensures { option_map deed_of result ≡ option_map Calls (option_map string_bytes service) }
{
    match service {
        Some(service) => Some(DeedWords::Serve(service)),
        None => None,
    }
}

/// This, if it is given.
fn words_if(is_given: bool, deed: DeedWords) -> Option<DeedWords>
    ensures { option_map deed_of result ≡ deed_if is_given (deed_of deed) }
{
    if is_given { Some(deed) } else { None }
}

/// The one that is given.
fn last_words(one: Result<Option<DeedWords>, Unclear>) -> Result<DeedWords, Unclear>
    ensures { deed_view result ≡ last_deed (one_view one) }
{
    match one {
        Ok(Some(deed)) => Ok(deed),
        Ok(None) => Err(Unclear::NotOne),
        Err(unclear) => Err(unclear),
    }
}

/// What a station asks for.
fn deed_in(
    alloc: Global,
    matches: &ArgMatches<'_>,
) -> Result<Result<DeedWords, Unclear>, AllocError>
    ensures { let value = first_value (found_of matches.now) in IfOk result (λ deed. deed_view deed ≡ deed_given value) }
{
    let read = file_of(alloc, matches, "read")?;
    let write = file_of(alloc, matches, "write")?;
    let priority = file_of(alloc, matches, "priority")?;
    let service = file_of(alloc, matches, "service")?;
    let one = added(
        property_words(read, write, priority),
        service_words(service),
    );
    let one = added(one, words_if(is_given(matches, "who-is"), DeedWords::WhoIs));
    let one = added(
        one,
        words_if(is_given(matches, "register"), DeedWords::Register),
    );
    Ok(last_words(one))
}

/// The question whether a station may do this with another under the configuration in this file.
fn question(
    alloc: Global,
    file: String,
    from: String,
    to: Option<String>,
    deed: Result<DeedWords, Unclear>,
) -> Result<Choice, WordsFault>
    ensures { let asked = deed_asked (string_bytes file) (string_bytes from) (option_map string_bytes to) (deed_view deed) in
        IsChosen asked result }
{
    match deed {
        Ok(deed) => Ok(Choice::Ask {
            file,
            from,
            to,
            deed,
        }),
        Err(unclear) => usage(alloc, unclear.line()),
    }
}

/// What `ask` asks for under the configuration in this file.
pub(crate) fn ask_choice(
    alloc: Global,
    matches: &ArgMatches<'_>,
    file: String,
) -> Result<Choice, WordsFault>
    ensures { IsChosen (ask_asked (string_bytes file) (first_value (found_of matches.now))) result }
{
    let Some(from) = file_of(alloc, matches, "from")? else {
        return Err(WordsFault::CommandLine);
    };
    let to = file_of(alloc, matches, "to")?;
    let deed = deed_in(alloc, matches)?;
    question(alloc, file, from, to, deed)
}
