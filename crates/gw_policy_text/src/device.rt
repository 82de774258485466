//! What the gateway's own device is read to.

ghost use Rattle.std.specs.Prelude.{◌≡◌, IfOk, IsTrue};
ghost use Rattle.toml.specs.View.{table_view};
ghost use Rattle.gw_policy_text.specs.Parts.{device_of, device_parts};
ghost use Rattle.gw_policy_text.specs.keys.Field.{located_in};
ghost use Rattle.gw_configuration.specs.Configuration.{is_named};
ghost use Rattle.gw_configuration.specs.Reading.{Finds, Gives, NamesLocated};
ghost use Rattle.gw_configuration.specs.declared.located.Place.TheVariants as places;
ghost use Rattle.gw_policy_text.specs.keys.Tables.{device_fields};

use crate::keys::located_in;
use crate::keys::tables::device_fields;
use crate::reading::{
    instance_at, long_at, network_at, octet_at, optional_text, short_at, text_at,
};
use gw_configuration::{ConfigFault, Device, Located, Place};
use std::alloc::Global;
use toml::Table;

/// The device that the table says, or the first fault of the table with its place.
#[tactic(auto, unfolding(crate::specs::Parts::device_of))]
pub(crate) fn device<'a>(alloc: Global, table: &'a Table) -> Result<Device, Located<'a>>
    ensures device { Finds (λ d. d) result (device_of (table_view table.now)) }
    ensures named { IfOk result (λ d. IsTrue (is_named d.name)) }
    ensures fault_named { NamesLocated result (located_in places.Device device_fields (table_view table.now)) }
{
    match located_in(Place::Device, &device_fields(), table) {
        Some(located) => Err(located),
        None => Ok(device_parts(alloc, table)?),
    }
}

/// The parts of a table without a fault.
fn device_parts(alloc: Global, table: &Table) -> Result<Device, ConfigFault>
    ensures device { Gives (λ d. d) result (device_parts (table_view table.now)) }
    ensures named { IfOk result (λ d. IsTrue (is_named d.name)) }
{
    Ok(Device {
        network: network_at("network", table)?,
        instance: instance_at("instance", table)?,
        name: text_at(alloc, 1, "name", table)?,
        vendor: short_at("vendor", table)?,
        vendor_name: text_at(alloc, 0, "vendor_name", table)?,
        model: text_at(alloc, 0, "model", table)?,
        firmware: text_at(alloc, 0, "firmware", table)?,
        software: text_at(alloc, 0, "software", table)?,
        revision: octet_at("revision", table)?,
        database: long_at("database", table)?,
        description: optional_text(alloc, "", "description", table)?,
    })
}
