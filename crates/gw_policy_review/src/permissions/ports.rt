//! The stations of ports, and who else may enter there.
ghost use Rattle.std.specs.Prelude.{◌≡◌, ◌++◌, IfOk, OnOk};
ghost use Rattle.std.specs.List.{flat_map};
ghost use Rattle.gw_policy_review.specs.permissions.Questions.{entering};
ghost use Rattle.gw_policy_review.specs.permissions.Permissions.{AppendsEntries, AppendsGrants, AppendsPort, AppendsPorts, everyone_words};
ghost use Rattle.gw_policy_review.specs.permissions.Permissions.{foreign_words, managed_words, manager_words, named_words, stations_words};
ghost use Rattle.gw_policy_review.specs.permissions.Permissions.{subnet_words};

use crate::numbered::NumberedPort;
use crate::permissions::grants::{Deed, Inquiry, put_grants};
use crate::permissions::questions::entering;
use crate::permissions::words::Placed;
use gw_addr::{BipAddr, put_slice, put_text_number};
use gw_configuration::{Port, Subnet};
use std::alloc::{AllocError, Global};

/// Appends the lines of the ports in their order. So many steps are left for the searches; says how many are left for
/// others.
pub(crate) fn put_ports(
    alloc: Global,
    out: &mut Vec<u8>,
    placed: &Placed<'_>,
    left: u32,
) -> Result<u32, AllocError>
    ensures { IfOk result (λ rest. AppendsPorts placed.now.config.now placed.now.lines.now placed.now.config.now.ports left rest
        out.old.items out.new.items) }
{
    let ports = placed.config.ports();
    let mut rest = left;
    for place in 0..ports.len() {
        let at = NumberedPort {
            number: place + 1,
            port: &ports[place],
        };
        rest = put_port(alloc, out, placed, &at, rest)?;
    }
    Ok(rest)
}

/// Appends the lines of a port.
fn put_port(
    alloc: Global,
    out: &mut Vec<u8>,
    placed: &Placed<'_>,
    at: &NumberedPort<'_>,
    left: u32,
) -> Result<u32, AllocError>
    ensures { IfOk result (λ rest. AppendsPort placed.now.config.now placed.now.lines.now at.now.number at.now.port.now left rest
        out.old.items out.new.items) }
{
    put_text_number(out, "port ", at.number)?;
    put_stations(out, at.port)?;
    put_entries(alloc, out, placed, at, left)
}

/// Appends who the stations are.
fn put_stations(out: &mut Vec<u8>, port: &Port) -> Result<(), AllocError>
    ensures { OnOk result (out.new.items ≡ out.old.items ++ stations_words port.now) }
{
    if port.stations.as_slice().is_empty() {
        return put_everyone(out, port.bbmd);
    }
    put_named(out, port.stations.as_slice(), port.bbmd)
}

/// Appends the stations, and whether foreign devices are stations too.
fn put_named(
    out: &mut Vec<u8>,
    stations: &[Subnet],
    manager: Option<BipAddr>,
) -> Result<(), AllocError>
    ensures { OnOk result (out.new.items ≡ out.old.items ++ named_words stations.now manager) }
{
    out.extend_from_slice(b": stations are ")?;
    put_subnets(out, stations)?;
    put_foreign(out, manager)
}

/// Appends that everyone is a station.
fn put_everyone(out: &mut Vec<u8>, manager: Option<BipAddr>) -> Result<(), AllocError>
    ensures { OnOk result (out.new.items ≡ out.old.items ++ everyone_words manager) }
{
    match manager {
        Some(manager) => put_managed(out, b": everyone is a station, ", manager),
        None => out.extend_from_slice(b": everyone is a station\n"),
    }
}

/// Appends whether foreign devices are stations too: nobody registers where another broadcast manager is.
fn put_foreign(out: &mut Vec<u8>, manager: Option<BipAddr>) -> Result<(), AllocError>
    ensures { OnOk result (out.new.items ≡ out.old.items ++ foreign_words manager) }
{
    match manager {
        Some(manager) => put_managed(out, b"", manager),
        None => out.extend_from_slice(b"and registered foreign devices\n"),
    }
}

fn put_managed(out: &mut Vec<u8>, text: &[u8], manager: BipAddr) -> Result<(), AllocError>
    ensures { OnOk result (out.new.items ≡ out.old.items ++ managed_words text.now manager) }
{
    out.extend_from_slice(text)?;
    put_manager(out, manager)
}

fn put_manager(out: &mut Vec<u8>, manager: BipAddr) -> Result<(), AllocError>
    ensures { OnOk result (out.new.items ≡ out.old.items ++ manager_words manager) }
{
    put_slice(out, b"and nobody registers: ")?;
    manager.put_text(out)?;
    put_slice(out, b" is the broadcast manager\n")
}

fn put_subnets(out: &mut Vec<u8>, stations: &[Subnet]) -> Result<(), AllocError>
    ensures { OnOk result (out.new.items ≡ out.old.items ++ flat_map subnet_words stations.now) }
{
    for subnet in stations {
        put_subnet(out, *subnet)?;
    }
    Ok(())
}

fn put_subnet(out: &mut Vec<u8>, subnet: Subnet) -> Result<(), AllocError>
    ensures { OnOk result (out.new.items ≡ out.old.items ++ subnet_words subnet) }
{
    let text = subnet.to_string(*out.allocator())?;
    out.extend_from_slice(text.as_bytes())?;
    out.extend_from_slice(b", ")
}

/// Appends which rules let strangers enter, if the port names its stations.
fn put_entries(
    alloc: Global,
    out: &mut Vec<u8>,
    placed: &Placed<'_>,
    at: &NumberedPort<'_>,
    left: u32,
) -> Result<u32, AllocError>
    ensures { IfOk result (λ rest. AppendsEntries placed.now.config.now placed.now.lines.now at.now.number at.now.port.now left rest
        out.old.items out.new.items) }
{
    if at.port.stations.as_slice().is_empty() {
        return Ok(left);
    }
    put_strangers(alloc, out, placed, at, left)
}

fn put_strangers(
    alloc: Global,
    out: &mut Vec<u8>,
    placed: &Placed<'_>,
    at: &NumberedPort<'_>,
    left: u32,
) -> Result<u32, AllocError>
    ensures { IfOk result (λ rest. AppendsGrants placed.now.config.now placed.now.lines.now (Deed.Enter at.now.number)
        (entering at.now.number at.now.port.now.network) left rest out.old.items out.new.items) }
{
    let inquiry = Inquiry {
        deed: Deed::Enter(at.number),
        shape: entering(at.number as u64, u64::from(at.port.network.get())),
        placed: *placed,
    };
    put_grants(alloc, out, &inquiry, left)
}
