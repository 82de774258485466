//! What the routes of a configuration are read to.

ghost use Rattle.std.specs.Prelude.{◌≡◌, length, map, IfOk, IsTrue};
ghost use Rattle.std.specs.List.{list_all};
ghost use Rattle.toml.specs.View.{table_view, view};
ghost use Rattle.gw_policy_text.specs.Parts.{each_at, route_in, route_of, route_parts};
ghost use Rattle.gw_configuration.specs.Configuration.{is_by};
ghost use Rattle.gw_configuration.specs.Reading.{Finds};
ghost use Rattle.gw_addr.specs.Reading as plain;

use crate::keys::located_in;
use crate::keys::tables::route_fields;
use crate::keys::value::table;
use crate::reading::{address_at, network_at, number_at};
use gw_addr::Sequence;
use gw_configuration::{ConfigFault, Located, Place, Route};
use std::alloc::Global;
use toml::{Table, Value};

/// The routes that some values say, in order, each by one of so many ports, or the first fault with
/// its place.
pub(crate) fn routes<'a>(
    alloc: Global,
    ports: u8,
    values: &'a [Value],
) -> Result<Sequence<Route>, Located<'a>>
    ensures count { IfOk result (λ rs. length rs ≡ length values.now) }
    ensures exist { IfOk result (λ rs. IsTrue (list_all (is_by ports) rs)) }
    ensures routes { Finds (λ rs. rs) result (each_at (route_in ports) 0 (map view values.now)) }
{
    let mut all = Sequence::new(alloc);
    for (place, value) in values.iter().enumerate() {
        all.push(route(ports, place, value)?)?;
    }
    Ok(all)
}

/// The route that a value says, by one of so many ports, at this position.
fn route<'a>(ports: u8, route: usize, value: &'a Value) -> Result<Route, Located<'a>>
    ensures exists { IfOk result (λ r. IsTrue (is_by ports r)) }
    ensures route { Finds (λ r. r) result (route_in ports route (view value.now)) }
{
    route_of_table(ports, route, table(value)?)
}

fn route_of_table<'a>(ports: u8, route: usize, table: &'a Table) -> Result<Route, Located<'a>>
    ensures exists { IfOk result (λ r. IsTrue (is_by ports r)) }
    ensures route { Finds (λ r. r) result (route_of ports route (table_view table.now)) }
{
    match located_in(Place::Route(route), &route_fields(ports), table) {
        Some(located) => Err(located),
        None => Ok(route_parts(ports, table)?),
    }
}

/// The parts of a table without a fault.
fn route_parts(ports: u8, table: &Table) -> Result<Route, ConfigFault>
    ensures exists { IfOk result (λ r. IsTrue (is_by ports r)) }
    ensures route { plain.Gives (λ r. r) result (route_parts ports (table_view table.now)) }
{
    Ok(Route {
        network: network_at("network", table)?,
        port: number_at(1, u64::from(ports), "port", table)? as u8,
        next: address_at("next", table)?,
    })
}
