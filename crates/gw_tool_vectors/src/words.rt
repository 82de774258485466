//! Words of a command line, and what they choose; and how the program ends at each fault.

use gw_ending::MigrationFlaw;
use gw_log_words::Moment;
use gw_program_cases::{call, put, put_faults, put_file, put_flag};
use gw_tools::{Choice, DeedWords, Fault, Obstacle, Shown, SiteWords, WordsFault, choice_of};
use gw_wire::StoreFault;
use itoa::Buffer;
use std::alloc::{AllocError, Global};
use std::io;

/// What words choose: the command, the file of the configuration and what else is asked for, `help`,
/// or the fault.
pub fn words(alloc: Global, line: &str, out: &mut Vec<u8>) -> io::Result<()> {
    let call = call(alloc, "bacgwctl", line)?;
    Ok(put_choice(alloc, &choice_of(alloc, call.as_slice()), out)?)
}

/// What is chosen.
fn put_choice(
    alloc: Global,
    choice: &Result<Choice, WordsFault>,
    out: &mut Vec<u8>,
) -> Result<(), AllocError> {
    match choice {
        Ok(
            Choice::Check {
                file,
                explains,
                lints,
            },
        ) => { put_check(file.as_str(), *explains, *lints, out) }
        Ok(Choice::CheckJson(file)) => put(out, &["check ", file.as_str(), " json"]),
        Ok(Choice::Migrate(file)) => put(out, &["migrate ", file.as_str()]),
        Ok(
            Choice::Why {
                file,
                counts,
                strict,
            },
        ) => {
            put(out, &["why ", file.as_str()])?;
            put_flag(out, " count", *counts)?;
            put_flag(out, " strict", *strict)
        }
        Ok(Choice::State { config, state }) => {
            put(out, &["state ", config.as_str(), " of=", state.as_str()])
        }
        Ok(
            Choice::Reload {
                config,
                request,
                was,
            },
        ) => {
            put(out, &["reload ", config.as_str(), " by=", request.as_str()])?;
            put_shown(was, out)
        }
        Ok(Choice::Suggest { file, fills, exact }) => {
            put(out, &["suggest ", file.as_str()])?;
            put_flag(out, " fill", *fills)?;
            put_flag(out, " exact", *exact)
        }
        Ok(
            Choice::Compare {
                old,
                new,
                most,
                steps,
            },
        ) => {
            put_compare(old.as_str(), new.as_str(), *most, out)?;
            put_flag(out, " steps", *steps)
        }
        Ok(Choice::CompareJson { old, new, most }) => {
            put_compare(old.as_str(), new.as_str(), *most, out)?;
            put(out, &[" json"])
        }
        Ok(Choice::Log { file, start }) => {
            put_log(alloc, *start, out)?;
            put_file(out, " file=", file)
        }
        Ok(Choice::Objects(file)) => {
            put(out, &["log json"])?;
            put_file(out, " file=", file)
        }
        Ok(Choice::Judge { file, strict }) => {
            put(out, &["why ", file.as_str(), " json"])?;
            put_flag(out, " strict", *strict)
        }
        Ok(Choice::Points(file)) => put(out, &["objects ", file.as_str(), " csv"]),
        Ok(Choice::Report { file, log }) => put_report(file.as_str(), log, out),
        Ok(
            Choice::Ask {
                file,
                from,
                to,
                deed,
            },
        ) => {
            put(out, &["ask ", file.as_str(), " from=", from.as_str()])?;
            put_file(out, " to=", to)?;
            put_deed(deed, out)
        }
        Ok(Choice::Rules(file)) => put(out, &["rules ", file.as_str()]),
        Ok(Choice::Stop { request, waits }) => {
            put(out, &["stop ", request.as_str()])?;
            put_flag(out, " wait", *waits)
        }
        Ok(Choice::Status { request, waits }) => {
            put(out, &["status ", request.as_str()])?;
            put_flag(out, " wait", *waits)
        }
        Ok(Choice::Init(site)) => put_site(site, out),
        Ok(Choice::Help(_)) => put(out, &["help"]),
        Ok(Choice::Usage(_)) | Err(WordsFault::CommandLine) => put(out, &["refused"]),
        Err(WordsFault::Memory) => put(out, &["out of memory"]),
    }
}

/// What `check`, `explain` or `lint` is asked for.
fn put_check(file: &str, explains: bool, lints: bool, out: &mut Vec<u8>) -> Result<(), AllocError> {
    if explains {
        put(out, &["explain ", file])?;
        return put_flag(out, " lint", lints);
    }
    let command = if lints { "lint " } else { "check " };
    put(out, &[command, file])
}

/// What `compare` is asked for.
fn put_compare(old: &str, new: &str, most: u64, out: &mut Vec<u8>) -> Result<(), AllocError> {
    put(out, &["compare ", old, " with=", new])?;
    put(out, &[" most=", Buffer::new().format(most)])
}

/// What is compared before a reload.
fn put_shown(was: &Option<Shown>, out: &mut Vec<u8>) -> Result<(), AllocError> {
    match was {
        Some(Shown { old, most }) => {
            put(out, &[" was=", old.as_str()])?;
            put(out, &[" most=", Buffer::new().format(*most)])
        }
        None => Ok(()),
    }
}

/// What a site has.
fn put_site(site: &SiteWords, out: &mut Vec<u8>) -> Result<(), AllocError> {
    put(out, &["init"])?;
    put_each(" port=", &site.ports, out)?;
    put_each(" peer=", &site.peers, out)?;
    put_each(" router=", &site.routers, out)?;
    put_each(" operator=", &site.operators, out)?;
    put_each(" bbmd=", &site.managers, out)
}

fn put_each(name: &str, words: &[String], out: &mut Vec<u8>) -> Result<(), AllocError> {
    for word in words {
        put(out, &[name, word.as_str()])?;
    }
    Ok(())
}

/// What a station is asked to do.
fn put_deed(deed: &DeedWords, out: &mut Vec<u8>) -> Result<(), AllocError> {
    match deed {
        DeedWords::Read(object) => put(out, &[" read=", object.as_str()]),
        DeedWords::Write { object, priority } => {
            put(out, &[" write=", object.as_str()])?;
            put_file(out, " priority=", priority)
        }
        DeedWords::Serve(service) => put(out, &[" service=", service.as_str()]),
        DeedWords::WhoIs => put(out, &[" who-is"]),
        DeedWords::Register => put(out, &[" register"]),
    }
}

/// What `report` is asked for.
fn put_report(file: &str, log: &Option<String>, out: &mut Vec<u8>) -> Result<(), AllocError> {
    match log {
        Some(log) => put(out, &["report ", file, " ", log.as_str()]),
        None => put(out, &["report ", file]),
    }
}

/// What `log` is asked for.
fn put_log(alloc: Global, start: Option<Moment>, out: &mut Vec<u8>) -> Result<(), AllocError> {
    let Some(start) = start else {
        return put(out, &["log"]);
    };
    let text = start.to_string(alloc)?;
    put(out, &["log start=", text.as_str()])
}

/// The exit status of each fault, and its line on standard error.
pub fn faults(alloc: Global, out: &mut Vec<u8>) -> io::Result<()> {
    let faults = [
        Fault::CommandLine,
        Fault::Memory,
        Fault::OtherUnreadable(Obstacle::Folder),
        Fault::LogUnreadable(Obstacle::Other),
        Fault::Migration(MigrationFlaw::Already),
        Fault::Migration(MigrationFlaw::Unlike),
        Fault::Request(StoreFault::NotPermitted),
        Fault::NoAnswer,
        Fault::TooManyAsks,
        Fault::TooManyRules,
        Fault::Unwritable,
        Fault::Unlisted,
    ];
    put_faults(alloc, "bacgwctl", &faults, out)
}
