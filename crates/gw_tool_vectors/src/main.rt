//! Answers cases of the program `bacgwctl` on a machine in memory: its words, its runs, and which rules decide asks.
#![tactic(auto)]

mod answers;
mod machine;
mod words;

use gw_cases::{Case, Kinds, write_groups};
use gw_policy_text::SETTING;
use gw_program_cases::put_fronts;
use machine::Bacgwctl;
use std::alloc::Global;
use std::io;
use std::io::{BufWriter, ErrorKind, Write};

/// The kinds of cases of the program.
struct ToolKinds;

impl Kinds for ToolKinds {
    fn answer_line(&self, alloc: Global, case: &Case<'_>, out: &mut Vec<u8>) -> io::Result<()> {
        match case.kind() {
            "words" => words::words(alloc, case.text, out),
            _ => Err(ErrorKind::InvalidData.into()),
        }
    }

    fn answer_section(
        &self,
        alloc: Global,
        section: &Case<'_>,
        out: &mut Vec<u8>,
    ) -> Option<io::Result<()>> {
        let (config, body) = (section.config, section.text);
        match section.kind() {
            "faults" => Some(words::faults(alloc, out)),
            "run" => Some(machine::machine(alloc, config, body, out)),
            "fronts" => Some(put_fronts(&Bacgwctl, alloc, config, body, out)),
            "why" => Some(answers::answers(alloc, config, body, out)),
            _ => None,
        }
    }
}

fn main(rt: HostRuntime) -> io::Result<()> {
    let text = io::read_to_string(rt.alloc(), rt.reader())?;
    let mut writer = BufWriter::new(rt.alloc(), io::writer(&rt))?;
    write_groups(&ToolKinds, rt.alloc(), SETTING, text.as_str(), &mut writer)?;
    writer.flush()
}
