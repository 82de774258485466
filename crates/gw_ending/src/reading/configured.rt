//! The configuration that a command runs under, and what `check` says of one.

ghost use Rattle.std.specs.Prelude.{◌≡◌, ◌++◌, Some, option_map, string_bytes, IfOk, OnOk};
ghost use Rattle.gw_ending.specs.reading.Configured.{IsConfigurationOf, IsConfigured, asserts_text, summary};
ghost use Rattle.gw_ending.specs.reading.Files.{result_map};

use crate::Fault;
use crate::reading::files::ConfigFiles;
use gw_configuration::Config;
use gw_policy_text::{read_config, setting_s};
use itoa::Buffer;
use std::alloc::{AllocError, Global};

/// The configuration of a text that was read. Faults: the fault of reading; `Configuration` with
/// the text's first fault; and `Memory`.
pub fn configuration_of(alloc: Global, text: &Result<Vec<u8>, Fault>) -> Result<Config, Fault>
    ensures { IsConfigurationOf (result_map (λ octets. octets.items) text.now) result }
{
    match text {
        Ok(text) => Ok(read_config(alloc, text)?),
        Err(fault) => Err(*fault),
    }
}

/// The configuration of the file of this name. Faults: `Unreadable`, `Configuration` and `Memory`.
pub fn configuration_in<F: ConfigFiles>(
    alloc: Global,
    files: &F,
    name: &str,
) -> Result<Config, Fault>
    ensures { IsConfigured (F.Reads files.now) (Some name.now) result }
{
    let text = files.read(alloc, name);
    configuration_of(alloc, &text)
}

/// The configuration of the file of this name, or the built-in one where none is named. Faults:
/// `Unreadable`, `Configuration` and `Memory`.
pub fn configuration<F: ConfigFiles>(
    alloc: Global,
    files: &F,
    name: &Option<String>,
) -> Result<Config, Fault>
    ensures { IsConfigured (F.Reads files.now) (option_map string_bytes name.now) result }
{
    match name {
        Some(name) => configuration_in(alloc, files, name.as_str()),
        None => Ok(setting_s(alloc)?),
    }
}

/// Appends how many assertions there are, if there are any.
fn put_asserts(count: usize, text: &mut String) -> Result<(), AllocError>
    ensures { OnOk result (string_bytes text.new ≡ string_bytes text.old ++ asserts_text count) }
{
    if count == 0 {
        return Ok(());
    }
    text.push_str(" ")?;
    text.push_str(Buffer::new().format(count))?;
    text.push_str(" asserts")
}

/// What `check` prints of a configuration whose assertions hold: `ok <n> ports <n> objects <n> rules`, where there are any also
/// ` <n> asserts`, and a line feed. Rules are counted as they are written. An `Err` only where a growth of memory was refused.
pub fn summary(alloc: Global, config: &Config) -> Result<String, AllocError>
    ensures { IfOk result (λ text. string_bytes text ≡ summary config.now) }
{
    let mut text = String::new(alloc);
    text.push_str("ok ")?;
    text.push_str(Buffer::new().format(config.ports().len()))?;
    text.push_str(" ports ")?;
    text.push_str(Buffer::new().format(config.objects().len()))?;
    text.push_str(" objects ")?;
    text.push_str(Buffer::new().format(config.written_rules()))?;
    text.push_str(" rules")?;
    put_asserts(config.assertions().len(), &mut text)?;
    text.push_str("\n")?;
    Ok(text)
}
