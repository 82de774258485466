//! What was chosen, done.

ghost use Rattle.std.specs.Prelude.{◌≡◌, [], OnOk};
ghost use Rattle.std.specs.Io.Buffered.{writer_buffer, writer_contents};
ghost use Rattle.std.specs.Io.KnownBytes.{Appends};
ghost use Rattle.gw_tools.specs.Program.{IsFollowed, LeavesOutput};
ghost use Rattle.gw_tools.specs.Reloading.{answers_by};

use crate::asking::{Answering, answer_in};
use crate::beginning::begin_site;
use crate::checked::{Checking, check};
use crate::comparing::{Layout, Limits, Seconds, both_in, compare};
use crate::json::{check_in_json, say_points};
use crate::kept::say_state;
use crate::machine::Machine;
use crate::objects;
use crate::placed::placed_in;
use crate::questioning::{Questioned, say_answer};
use crate::reloading::{AskedReload, reload_in, status, stop};
use crate::reporting::say_page;
use crate::rewritten::{say_in_format_three, say_rules};
use crate::suggesting::suggest_shown;
use crate::translating::{Translating, translate_in};
use gw_ending::reading::{ConfigFiles, configuration_in, print, print_said};
use gw_ending::{Fault, Streams};
use gw_policy_drafts::suggestion::Manner;
use gw_script::{OctetSink, OctetSource};
use gw_tool_line::Choice;
use std::alloc::Global;
use std::io::Write;

/// Does what was chosen. Where a command makes its text before it prints it, that is printed at the end.
pub fn follow<F: ConfigFiles, M: Machine, R: OctetSource, W: Write + Drop, E: OctetSink>(
    alloc: Global,
    choice: &Result<Choice, Fault>,
    files: &F,
    machine: &M,
    streams: &mut Streams<R, W, E>,
) -> Result<(), Fault>
    ensures followed { let was = streams.old in
        let is = streams.new in
        IsFollowed
        (LeavesOutput (F.Reads files.now) (F.ReadsState files.now) (F.ReadsLog files.now) (answers_by (M.Asks machine.now) M.Answers)
        (R.left was.input)
        (writer_contents W.contents was.output) (writer_contents W.contents is.output))
        (λ said. E.NeverFails was.errors → Appends (E.held was.errors) (E.held is.errors) said)
        choice.now result }
    ensures lasting { E.NeverFails streams.old.errors → E.NeverFails streams.new.errors }
    ensures flush { OnOk result (writer_buffer streams.new.output ≡ []) }
{
    let said = match choice {
        Ok(
            Choice::Check {
                file,
                explains,
                lints,
            },
        ) => {
            let how = Checking {
                explains: *explains,
                lints: *lints,
            };
            let text = files.read(alloc, file);
            check(alloc, how, &text)
        }
        Ok(Choice::CheckJson(file)) => {
            let text = files.read(alloc, file);
            check_in_json(alloc, &text)
        }
        Ok(Choice::Migrate(file)) => {
            let config = configuration_in(alloc, files, file);
            say_in_format_three(alloc, config)
        }
        Ok(
            Choice::Why {
                file,
                counts,
                strict,
            },
        ) => {
            let how = Answering {
                counts: *counts,
                strict: *strict,
            };
            return answer_in(alloc, files, file, how, streams);
        }
        Ok(
            Choice::Reload {
                config,
                request,
                was,
            },
        ) => {
            let asking = AskedReload {
                config,
                request,
                was,
            };
            reload_in(alloc, files, &asking, machine, streams)
        }
        Ok(Choice::Stop { request, waits }) => stop(alloc, request, *waits, machine),
        Ok(Choice::Status { request, waits }) => status(alloc, request, *waits, machine),
        Ok(
            Choice::Compare {
                old,
                new,
                most,
                steps,
            },
        ) => {
            let limits = Limits {
                most: *most,
                layout: Layout::Text { steps: *steps },
            };
            let both = both_in(alloc, files, old, new);
            let mut seconds = Seconds::new(machine.calendar());
            compare(alloc, limits, both, &mut seconds, &mut streams.errors)
        }
        Ok(Choice::CompareJson { old, new, most }) => {
            let limits = Limits {
                most: *most,
                layout: Layout::Json,
            };
            let both = both_in(alloc, files, old, new);
            let mut seconds = Seconds::new(machine.calendar());
            compare(alloc, limits, both, &mut seconds, &mut streams.errors)
        }
        Ok(Choice::Points(file)) => {
            let config = configuration_in(alloc, files, file);
            say_points(alloc, config)
        }
        Ok(Choice::Rules(file)) => {
            let placed = placed_in(alloc, files, file);
            say_rules(alloc, placed)
        }
        Ok(Choice::State { config, state }) => {
            let config = configuration_in(alloc, files, config);
            let text = files.read_state(alloc, state);
            say_state(alloc, config, &text)
        }
        Ok(Choice::Suggest { file, fills, exact }) => {
            let manner = Manner {
                keeps_services: *exact,
                fills: *fills,
            };
            return suggest_shown(alloc, files, file, manner, streams);
        }
        Ok(Choice::Log { file, start }) => {
            let asked = Translating {
                file,
                start: *start,
            };
            return translate_in(
                alloc,
                files,
                &asked,
                &mut streams.input,
                &mut streams.output,
            );
        }
        Ok(Choice::Objects(file)) => {
            return objects::list_in(alloc, files, file, &mut streams.input, &mut streams.output);
        }
        Ok(Choice::Judge { file, strict }) => {
            return objects::judge_in(alloc, files, file, *strict, streams);
        }
        Ok(Choice::Report { file, log }) => {
            let placed = placed_in(alloc, files, file);
            say_page(alloc, files, placed, log)
        }
        Ok(
            Choice::Ask {
                file,
                from,
                to,
                deed,
            },
        ) => {
            let config = configuration_in(alloc, files, file);
            let asked = Questioned { from, to, deed };
            say_answer(alloc, config, &asked)
        }
        Ok(Choice::Init(site)) => begin_site(alloc, site, &mut streams.errors),
        // Its text is there already: no copy of it is made, which might want memory.
        Ok(Choice::Help(text)) => return print(text.as_bytes(), &mut streams.output),
        Ok(Choice::Usage(_)) => Err(Fault::CommandLine),
        Err(fault) => Err(*fault),
    };
    print_said(said, &mut streams.output)
}
