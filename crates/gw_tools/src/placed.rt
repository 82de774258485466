//! A configuration, with the lines of its text on which the tables of its rules begin.

ghost use Rattle.std.specs.Prelude.{◌≡◌};
ghost use Rattle.gw_ending.specs.reading.Files.{result_map};
ghost use Rattle.gw_tools.specs.Placed.{IsPlaced, IsPlacedIn, octets_or};

use gw_configuration::Config;
use gw_ending::Fault;
use gw_ending::reading::{ConfigFiles, configuration_of};
use gw_policy_text::lines::table_lines;
use std::alloc::Global;

/// A configuration, with the lines of its text, from 1, on which the tables of its rules begin, in their order, or none if they
/// aren't known.
pub struct Placed {
    pub config: Config,
    pub lines: Vec<u32>,
}

// By hand: a derived one is proved part by part wherever one is dropped (docs/GATE.md).
impl Drop for Placed {
    fn drop(self) {
        let Placed {
            config: _,
            lines: _,
        } = self;
    }
}

/// The text of what was read, or nothing.
pub fn octets_or(text: &Result<Vec<u8>, Fault>) -> &[u8]
    ensures { result.now ≡ octets_or (result_map (λ octets. octets.items) text.now) }
{
    match text {
        Ok(octets) => octets.as_slice(),
        Err(_) => b"",
    }
}

/// That of a text that was read. Faults: the fault of reading; `Configuration` with the text's first fault; and `Memory`.
pub fn placed_of(alloc: Global, text: &Result<Vec<u8>, Fault>) -> Result<Placed, Fault>
    ensures { IsPlaced (result_map (λ octets. octets.items) text.now) result }
{
    let config = configuration_of(alloc, text)?;
    let lines = table_lines(alloc, config.written_rules(), octets_or(text))?;
    Ok(Placed { config, lines })
}

/// That of the file of this name. Faults: `Unreadable`, `Configuration` and `Memory`.
pub fn placed_in<F: ConfigFiles>(alloc: Global, files: &F, name: &str) -> Result<Placed, Fault>
    ensures { IsPlacedIn (F.Reads files.now) name.now result }
{
    let text = files.read(alloc, name);
    placed_of(alloc, &text)
}
