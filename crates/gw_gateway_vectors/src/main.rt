//! Answers cases of what a gateway is built on, of a configuration, of its objects, and of a gateway under it: its scripts, its wires
//! and whose turn it is.
#![tactic(auto)]

mod announcing;
mod configurations;
mod keeping;
mod objects;
mod parts;
mod reads;
mod replays;
mod serving;
mod sockets;
mod streams;
mod watching;
mod wire;

use gw_cases::{Case, Kinds, write_groups};
use gw_policy_text::SETTING;
use std::alloc::Global;
use std::io;
use std::io::{BufWriter, Write};

/// The kinds of cases of a configuration and a gateway.
struct GatewayKinds;

impl Kinds for GatewayKinds {
    fn answer_line(&self, alloc: Global, case: &Case<'_>, out: &mut Vec<u8>) -> io::Result<()> {
        let (config, line) = (case.config, case.text);
        match case.kind() {
            "lines" => replays::line(alloc, line, out),
            "objects" => objects::steps(alloc, config, line, out),
            "edits" => configurations::edit(alloc, config, line, out),
            "octets" => configurations::octets(alloc, line, out),
            "streams" => streams::stream(alloc, config, line, out),
            "reads" => reads::reads(alloc, config, line, out),
            "announce" => announcing::moments(alloc, config, line, out),
            "keep" => keeping::keeping(alloc, config, line, out),
            "trial" => watching::watched(alloc, config, line, out),
            "serve" => serving::call(alloc, config, line, out),
            "reports" => serving::reports(alloc, config, line, out),
            "turns" => sockets::turns(alloc, line, out),
            "watches" => sockets::watches(alloc, line, out),
            "seconds" => sockets::seconds(alloc, line, out),
            _ => parts::answer_line(alloc, case, out),
        }
    }

    fn answer_section(
        &self,
        alloc: Global,
        section: &Case<'_>,
        out: &mut Vec<u8>,
    ) -> Option<io::Result<()>> {
        let (config, body) = (section.config, section.text);
        match section.kind() {
            "script" => Some(replays::script(alloc, config, body, out)),
            "brief" => Some(replays::brief(alloc, config, body, out)),
            "again" => Some(replays::again(alloc, config, body, out)),
            "list" => Some(replays::list(alloc, config, body, out)),
            "behind" => Some(replays::behind(alloc, config, section.sections, out)),
            "check" => Some(configurations::check(alloc, body, out)),
            "texts" => Some(parts::texts::texts(out)),
            _ => None,
        }
    }
}

fn main(rt: HostRuntime) -> io::Result<()> {
    let text = io::read_to_string(rt.alloc(), rt.reader())?;
    let mut writer = BufWriter::new(rt.alloc(), io::writer(&rt))?;
    write_groups(
        &GatewayKinds,
        rt.alloc(),
        SETTING,
        text.as_str(),
        &mut writer,
    )?;
    writer.flush()
}
