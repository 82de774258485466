//! A configuration of format 1 or 2 as a text of format 3.
ghost use Rattle.std.specs.Prelude.{◌≡◌, ◌++◌, IfOk, IsErrOf, IsTrue};
ghost use Rattle.std.specs.List.{flat_map};
ghost use Rattle.gw_policy_drafts.specs.migration.Migration.{Migrates, in_format_three};
ghost use Rattle.gw_policy_drafts.specs.migration.Ports.{Proposes, port_table};
ghost use Rattle.gw_rules.specs.declared.format.Format.TheVariants as formats;

use crate::migration::MigrationFault;
use crate::migration::advice::{put_head, put_tail};
use crate::migration::objects::{put_device, put_objects};
use crate::migration::ports::{put_ports, put_routes};
use crate::migration::rules::put_rules;
use gw_configuration::sameness::{Same, are_same};
use gw_configuration::{Config, ConfigFault};
use gw_policy_text::read_config;
use std::alloc::{AllocError, Global};

/// Writes a configuration of format 1 or 2 as a text of format 3 that is read as the same one: the same
/// device, ports, routes, objects and rules. Numbers are written as the standard's names where they have
/// one, and addresses as subnets where they are one. A comment proposes `stations` for each port, the subnet of its address
/// and its broadcast address; others say what format 3 will deny that was not.
///
/// What was written is read again before it is answered. `Already` if the configuration is of format 3;
/// `Unlike` if what was written is read otherwise; `Memory` if there is none for it.
pub fn migrate(alloc: Global, config: &Config) -> Result<Vec<u8>, MigrationFault>
    ensures migrates { IfOk result (λ text. Migrates config.now text.items) }
    ensures proposes { IfOk result (λ text. Proposes config.now text.items) }
    ensures already { config.now.format ≡ formats.Three → IsErrOf result MigrationFault.Already }
{
    if config.format().names_stations() {
        return Err(MigrationFault::Already);
    }
    let text = written(alloc, config)?;
    match read_config(alloc, &text) {
        Ok(back) if is_migrated(config, &back) => Ok(text),
        Err(ConfigFault::Memory) => Err(MigrationFault::Memory),
        _ => Err(MigrationFault::Unlike),
    }
}

/// The text of a configuration in format 3, as long as it may be.
fn written(alloc: Global, config: &Config) -> Result<Vec<u8>, AllocError>
    ensures { IfOk result (λ text. Proposes config.now text.items) }
{
    let front = front_of(alloc, config)?;
    let ports = ports_of(alloc, config)?;
    let rest = rest_of(alloc, config)?;
    let text = joined(front, ports, rest)?;
    Ok(text)
}

/// What comes before the ports.
fn front_of(alloc: Global, config: &Config) -> Result<Vec<u8>, AllocError> {
    let mut out = Vec::new(alloc);
    put_head(&mut out)?;
    out.extend_from_slice(b"format = 3\n")?;
    put_device(&mut out, config.device())?;
    Ok(out)
}

fn ports_of(alloc: Global, config: &Config) -> Result<Vec<u8>, AllocError>
    ensures { IfOk result (λ text. text.items ≡ flat_map port_table config.now.ports) }
{
    let mut out = Vec::new(alloc);
    put_ports(&mut out, config.ports())?;
    Ok(out)
}

/// What comes after them.
fn rest_of(alloc: Global, config: &Config) -> Result<Vec<u8>, AllocError> {
    let mut out = Vec::new(alloc);
    put_routes(&mut out, config.routes())?;
    put_objects(&mut out, config.objects())?;
    put_rules(&mut out, config)?;
    put_tail(&mut out)?;
    Ok(out)
}

/// Three texts, one after the other.
fn joined(front: Vec<u8>, middle: Vec<u8>, rest: Vec<u8>) -> Result<Vec<u8>, AllocError>
    ensures { IfOk result (λ text. text.items ≡ front.items ++ (middle.items ++ rest.items)) }
{
    let mut text = front;
    text.extend_from_slice(&middle)?;
    text.extend_from_slice(&rest)?;
    Ok(text)
}

/// Whether a configuration is the other one in format 3.
fn is_migrated(config: &Config, back: &Config) -> bool
    ensures { IsTrue result → back.now ≡ in_format_three config.now }
{
    back.format().names_stations()
        && config.announces().is_same(&back.announces())
        && config.device().is_same(back.device())
        && are_same(config.ports(), back.ports())
        && are_same(config.routes(), back.routes())
        && are_same(config.objects(), back.objects())
        && are_same(config.rules().rules(), back.rules().rules())
        && are_same(config.tables(), back.tables())
        && config.written_rules() == back.written_rules()
        && config.sets().is_empty()
        && back.sets().is_empty()
        && config.assertions().is_empty()
        && back.assertions().is_empty()
        && are_same(config.notes(), back.notes())
        && are_same(config.audits(), back.audits())
}
