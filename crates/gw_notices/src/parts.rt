//! Which parts of a configuration beside its rules differ from those of another.

ghost use Rattle.std.specs.Prelude.{◌≡◌, ◌++◌, IfOk, OnOk};
ghost use Rattle.std.specs.List.{flat_map};
ghost use Rattle.gw_notices.specs.Parts.{IsSameness, IsTrialLine, part_words, parts_of, trial_line, unless};

use gw_configuration::Config;
use gw_configuration::sameness::{Same, are_same};
use std::alloc::{AllocError, Global};

/// A part of a configuration beside its rules.
#[derive(Clone, Copy)]
pub enum ConfigurationPart {
    /// Its format.
    Format,
    /// Whether it announces networks.
    Announce,
    /// The device.
    Device,
    /// The ports, with their stations, peers and broadcast managers.
    Ports,
    /// The routes.
    Routes,
    /// The objects.
    Objects,
}

/// Which parts of two configurations are the same.
#[derive(Clone, Copy)]
pub(crate) struct SameParts {
    pub format: bool,
    pub announce: bool,
    pub device: bool,
    pub ports: bool,
    pub routes: bool,
    pub objects: bool,
}

fn sameness_of(old: &Config, new: &Config) -> SameParts
    ensures { IsSameness old.now new.now result }
{
    SameParts {
        format: old.format().is_same(&new.format()),
        announce: old.announces() == new.announces(),
        device: old.device().is_same(new.device()),
        ports: are_same(old.ports(), new.ports()),
        routes: are_same(old.routes(), new.routes()),
        objects: are_same(old.objects(), new.objects()),
    }
}

/// Appends a part, unless it is the same.
pub fn push_unless(
    out: &mut Vec<ConfigurationPart>,
    same: bool,
    part: ConfigurationPart,
) -> Result<(), AllocError>
    ensures { OnOk result (out.new.items ≡ out.old.items ++ unless same part) }
{
    if !same {
        out.push(part)?;
    }
    Ok(())
}

/// The parts that aren't the same, in order.
fn parts_of(alloc: Global, same: SameParts) -> Result<Vec<ConfigurationPart>, AllocError>
    ensures { IfOk result (λ parts. parts.items ≡ parts_of same) }
{
    let mut parts = Vec::new(alloc);
    push_unless(&mut parts, same.format, ConfigurationPart::Format)?;
    push_unless(&mut parts, same.announce, ConfigurationPart::Announce)?;
    push_unless(&mut parts, same.device, ConfigurationPart::Device)?;
    push_unless(&mut parts, same.ports, ConfigurationPart::Ports)?;
    push_unless(&mut parts, same.routes, ConfigurationPart::Routes)?;
    push_unless(&mut parts, same.objects, ConfigurationPart::Objects)?;
    Ok(parts)
}

/// What is said of a part that differs.
fn part_words(part: ConfigurationPart) -> &'static str
    ensures { result.now ≡ part_words part }
{
    match part {
        ConfigurationPart::Format => "; the format differs",
        ConfigurationPart::Announce => "; announce differs",
        ConfigurationPart::Device => "; the device differs",
        ConfigurationPart::Ports => "; the ports differ",
        ConfigurationPart::Routes => "; the routes differ",
        ConfigurationPart::Objects => "; the objects differ",
    }
}

/// Appends what is said of each of these parts.
pub(crate) fn put_parts(out: &mut Vec<u8>, parts: &[ConfigurationPart]) -> Result<(), AllocError>
    ensures { OnOk result (out.new.items ≡ out.old.items ++ flat_map part_words parts.now) }
{
    for part in parts {
        out.extend_from_slice(part_words(*part).as_bytes())?;
    }
    Ok(())
}

/// The line on a trial that only the rules of its configuration are tried, and which other parts of that differ, if some do.
fn line_of(alloc: Global, parts: &[ConfigurationPart]) -> Result<Vec<u8>, AllocError>
    ensures { IfOk result (λ line. line.items ≡ trial_line parts.now) }
{
    let mut line = Vec::new(alloc);
    if !parts.is_empty() {
        line.extend_from_slice(b"bacgw: trial: only its rules are tried")?;
        put_parts(&mut line, parts)?;
        line.push(b'\n')?;
    }
    Ok(line)
}

/// What is reported of a policy that is on trial beside a configuration: that only its rules are tried, if other parts of its
/// configuration differ, and exactly which. An `Err` only if a growth was refused.
pub fn trial_line(alloc: Global, config: &Config, trial: &Config) -> Result<Vec<u8>, AllocError>
    ensures { IfOk result (λ line. IsTrialLine config.now trial.now line.items) }
{
    let parts = parts_of(alloc, sameness_of(config, trial))?;
    line_of(alloc, &parts)
}
