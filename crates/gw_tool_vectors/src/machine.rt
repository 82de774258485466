//! One run of the program on a machine in memory, and what it leaves.

ghost use Rattle.std.specs.Prelude.{⊤};

use gw_cases::{MemSource, edited};
use gw_ending::Fault;
use gw_ending::reading::ConfigFiles;
use gw_program_cases::{Left, MemCalendar, MemFiles, MemStreams, Program, Section, put_left};
use gw_system::ReadFailure;
use gw_tools::{Machine, run};
use gw_wire::StoreFault;
use std::alloc::{AllocError, Global};
use std::io;
use std::process::ExitCode;

/// A request that was made: its text.
#[derive(Drop)]
pub struct AskedText {
    text: Vec<u8>,
}

/// A machine in memory, on which a gateway may run that answers a request with this text, or with the request's own if it is empty.
#[derive(Drop)]
struct MemMachine {
    answer: Option<Vec<u8>>,
}

impl Machine for MemMachine {
    type Asked = AskedText;

    type Calendar = MemCalendar;

    ghost Asks = { λ _ _ _ _. ⊤ };

    ghost Answers = { λ _ _. ⊤ };

    fn make_request(
        &self,
        alloc: Global,
        _name: &str,
        text: &[u8],
    ) -> Result<AskedText, StoreFault> {
        if self.answer.is_none() {
            return Err(StoreFault::System);
        }
        match Vec::from_slice(alloc, text) {
            Ok(text) => Ok(AskedText { text }),
            Err(_) => Err(StoreFault::Memory),
        }
    }

    fn await_answer(
        &self,
        alloc: Global,
        asked: &AskedText,
        _seconds: u8,
    ) -> Result<Option<Vec<u8>>, ReadFailure> {
        let Some(answer) = &self.answer else {
            return Ok(None);
        };
        let mut text = Vec::from_slice(alloc, answer)?;
        if answer.is_empty() {
            // The request itself, so that a case shows it.
            text.extend_from_slice(&asked.text)?;
        }
        Ok(Some(text))
    }

    fn calendar(&self) -> MemCalendar {
        MemCalendar
    }
}

/// Files in memory: those of a section, and the configuration before its edits.
#[derive(Drop)]
struct ToolFiles<'a> {
    now: &'a str,
    was: &'a str,
}

impl<'a> ToolFiles<'a> {
    /// The files of the section.
    fn files(&self) -> MemFiles<'a> {
        MemFiles { text: self.now }
    }
}

impl<'a> ConfigFiles for ToolFiles<'a> {
    type Log = MemSource<'a>;

    ghost ReadsLog = { λ _ _ _. ⊤ };

    fn open_log(&self, name: &str) -> Result<MemSource<'a>, Fault> {
        self.files().open_log(name)
    }

    ghost Reads = { λ _ _ _. ⊤ };

    fn read(&self, alloc: Global, name: &str) -> Result<Vec<u8>, Fault> {
        if name == "was" {
            return Ok(Vec::from_slice(alloc, self.was.as_bytes())?);
        }
        self.files().read(alloc, name)
    }

    fn is_regular(&self, name: &str) -> bool {
        self.files().is_regular(name)
    }

    ghost ReadsState = { λ _ _ _. ⊤ };

    fn read_state(&self, alloc: Global, name: &str) -> Result<Vec<u8>, Fault> {
        self.files().read_state(alloc, name)
    }
}

/// The configuration with the edits of a section's lines, as `edit network = 1 | network = 5`. One that doesn't fit is left
/// out.
fn edited_text(alloc: Global, config: &str, section: &Section<'_>) -> Result<String, AllocError> {
    let mut text = String::from_str(alloc, config)?;
    for line in section.lines.lines() {
        if let Some(edit) = line.strip_prefix("edit ") {
            if let Ok(made) = edited(alloc, text.as_str(), edit) {
                text = made;
            }
        }
    }
    Ok(text)
}

/// A text, if there is one.
fn text_if(alloc: Global, is_there: bool, text: &str) -> Result<Option<Vec<u8>>, AllocError> {
    if is_there {
        Ok(Some(Vec::from_slice(alloc, text.as_bytes())?))
    } else {
        Ok(None)
    }
}

/// What another gateway answers to a section's request: that it was taken over, refused, or stopped, what it counts, the request
/// itself, or nothing.
fn answer_of(alloc: Global, section: &Section<'_>) -> Result<Option<Vec<u8>>, AllocError> {
    if section.has("answered") {
        return text_if(alloc, true, "reload: 3 rules\n");
    }
    if section.has("stopped") {
        return text_if(alloc, true, "stopped\n");
    }
    if section.has("counted") {
        return text_if(
            alloc,
            true,
            "stats seconds=60 datagrams=3\nrule 1 hide: 2\n",
        );
    }
    if section.has("echoed") {
        return text_if(alloc, true, "");
    }
    text_if(
        alloc,
        section.has("refused"),
        "reload refused: out of memory\n",
    )
}

/// Runs the program on these words, over these files and this machine.
fn run_on(
    alloc: Global,
    words: Result<Vec<String>, Fault>,
    files: &ToolFiles<'_>,
    machine: &MemMachine,
    streams: &mut MemStreams<'_>,
) -> ExitCode {
    run(alloc, words, files, machine, streams)
}

/// The program on a machine in memory.
#[derive(Clone, Copy)]
pub struct Bacgwctl;

impl Program for Bacgwctl {
    fn name(&self) -> &'static str {
        "bacgwctl"
    }

    fn run(
        &self,
        alloc: Global,
        config: &str,
        section: &Section<'_>,
        room: usize,
    ) -> Result<Left, AllocError> {
        let words = section.call(alloc, self.name())?;
        let machine = MemMachine {
            answer: answer_of(alloc, section)?,
        };
        let mut streams = section.streams(alloc, room)?;
        let now = edited_text(alloc, config, section)?;
        let files = ToolFiles {
            now: now.as_str(),
            was: config,
        };
        let code = run_on(alloc, words, &files, &machine, &mut streams);
        Ok(Left::new(code, streams))
    }
}

/// What the run of a section leaves: its exit status, and each line of its streams.
pub fn machine(alloc: Global, config: &str, text: &str, out: &mut Vec<u8>) -> io::Result<()> {
    let section = Section::of(text);
    let left = Bacgwctl.run(alloc, config, &section, section.room())?;
    Ok(put_left(&left, out)?)
}
