//! What the parts of a configuration are read to, before the check for what appears twice.
ghost use Rattle.std.specs.Prelude.{◌≡◌, ◌≤◌, ◌||◌, codes, length, not, IfOk, IsTrue};
ghost use Rattle.std.specs.List.{list_all};
ghost use Rattle.toml.specs.View.{table_view};
ghost use Rattle.gw_addr.specs.Reading as plain;
ghost use Rattle.gw_addr.specs.declared.TheConstants.{MAX_PORTS};
ghost use Rattle.gw_policy_text.specs.Document.{parts_of, parts_of_format};
ghost use Rattle.gw_policy_text.specs.Parts.{announce_at, device_at, is_plain_in, objects_at, ports_at, routes_at};
ghost use Rattle.gw_configuration.specs.Configuration.{is_by, is_managed, is_named};
ghost use Rattle.gw_configuration.specs.Reading.{Finds, Gives};
ghost use Rattle.gw_rules.specs.Format.{names_stations};

use crate::format::format_at;
use crate::keys::value;
use crate::policy::policy_at;
use crate::reading::{at, list_at, optional_boolean};
use crate::{device, objects, port, route};
use gw_addr::{MAX_PORTS, Sequence};
use gw_configuration::{
    ConfigFault, Device, Format, Located, MAX_OBJECTS, MAX_ROUTES, Networks, Object, Parts, Port,
    Route, TopValues,
};
use std::alloc::Global;
use toml::Table;

/// The parts that the tables say, in their order, or the first fault with its place.
pub(crate) fn parts<'a>(alloc: Global, top: &'a Table) -> Result<Parts, Located<'a>>
    ensures { Finds (λ c. c) result (parts_of (table_view top.now)) }
{
    parts_of_format(alloc, format_at("format", top)?, top)
}

/// The parts of a configuration of this format.
fn parts_of_format<'a>(alloc: Global, format: Format, top: &'a Table) -> Result<Parts, Located<'a>>
    ensures { Finds (λ c. c) result (parts_of_format format (table_view top.now)) }
{
    let announce = announce_at(format, top)?;
    let device = device_at(alloc, top)?;
    let ports = ports_at(alloc, format, top)?;
    let routes = routes_at(alloc, ports.len() as u8, top)?;
    let objects = objects_at(alloc, top)?;
    let policy = policy_at(alloc, format, top)?;
    let values = TopValues { format, announce };
    let networks = Networks { ports, routes };
    Ok(Parts::new(values, device, networks, objects, policy).ok_or(ConfigFault::Range)?)
}

/// Whether networks are announced, in format 3.
fn announce_at(format: Format, top: &Table) -> Result<bool, ConfigFault>
    ensures announce { plain.Gives (λ a. a) result (announce_at format (codes "announce") (table_view top.now)) }
    ensures plain { IfOk result (λ a. IsTrue (names_stations format || not a)) }
{
    if format.names_stations() {
        optional_boolean(false, "announce", top)
    } else {
        Ok(false)
    }
}

fn device_at<'a>(alloc: Global, top: &'a Table) -> Result<Device, Located<'a>>
    ensures device { Finds (λ d. d) result (device_at (codes "device") (table_view top.now)) }
    ensures named { IfOk result (λ d. IsTrue (is_named d.name)) }
{
    device::device(alloc, value::table(at("device", top)?)?)
}

fn ports_at<'a>(
    alloc: Global,
    format: Format,
    top: &'a Table,
) -> Result<Sequence<Port>, Located<'a>>
    ensures ports { Finds (λ ps. ps) result (ports_at format (codes "port") (table_view top.now)) }
    ensures some { IfOk result (λ ps. 1 ≤ length ps) }
    ensures most { IfOk result (λ ps. length ps ≤ MAX_PORTS) }
    ensures managed { IfOk result (λ ps. IsTrue (list_all is_managed ps)) }
    ensures plain { IfOk result (λ ps. IsTrue (list_all (is_plain_in format) ps)) }
{
    port::ports(alloc, format, list_at(1, MAX_PORTS, "port", top)?)
}

fn routes_at<'a>(alloc: Global, ports: u8, top: &'a Table) -> Result<Sequence<Route>, Located<'a>>
    ensures routes { Finds (λ rs. rs) result (routes_at ports (codes "route") (table_view top.now)) }
    ensures most { IfOk result (λ rs. length rs ≤ 512) }
    ensures by { IfOk result (λ rs. IsTrue (list_all (is_by ports) rs)) }
{
    route::routes(alloc, ports, list_at(0, MAX_ROUTES, "route", top)?)
}

fn objects_at<'a>(alloc: Global, top: &'a Table) -> Result<Sequence<Object>, Located<'a>>
    ensures objects { Finds (λ os. os) result (objects_at (codes "object") (table_view top.now)) }
    ensures most { IfOk result (λ os. length os ≤ 256) }
    ensures named { IfOk result (λ os. IsTrue (list_all (λ o. is_named o.name) os)) }
{
    objects::objects(alloc, list_at(0, MAX_OBJECTS, "object", top)?)
}
