//! Answers cases of the program `bacgw` on a machine in memory: its words, its runs, and what it explains.
#![tactic(auto)]

mod disks;
mod explanations;
mod file_requests;
mod machine;
mod mem_disk;
mod mem_folder;
mod mem_log;
mod mem_requests;
mod words;

use gw_cases::{Case, Kinds, write_groups};
use gw_policy_text::SETTING;
use gw_program_cases::put_fronts;
use machine::Bacgw;
use std::alloc::Global;
use std::io;
use std::io::{BufWriter, ErrorKind, Write};

/// The kinds of cases of the program.
struct ProgramKinds;

impl Kinds for ProgramKinds {
    fn answer_line(&self, alloc: Global, case: &Case<'_>, out: &mut Vec<u8>) -> io::Result<()> {
        match case.kind() {
            "words" => words::words(alloc, case.text, out),
            "disk" => disks::replaced(alloc, case.text, out),
            "requests" => file_requests::requests(alloc, case.text, out),
            _ => Err(ErrorKind::InvalidData.into()),
        }
    }

    fn answer_section(
        &self,
        alloc: Global,
        section: &Case<'_>,
        out: &mut Vec<u8>,
    ) -> Option<io::Result<()>> {
        let (config, body) = (section.config, section.text);
        match section.kind() {
            "faults" => Some(words::faults(alloc, out)),
            "run" => Some(machine::machine(alloc, config, body, out)),
            "fronts" => Some(put_fronts(&Bacgw, alloc, config, body, out)),
            "explained" => Some(explanations::explained(alloc, config, body, out)),
            _ => None,
        }
    }
}

fn main(rt: HostRuntime) -> io::Result<()> {
    let text = io::read_to_string(rt.alloc(), rt.reader())?;
    let mut writer = BufWriter::new(rt.alloc(), io::writer(&rt))?;
    write_groups(
        &ProgramKinds,
        rt.alloc(),
        SETTING,
        text.as_str(),
        &mut writer,
    )?;
    writer.flush()
}
