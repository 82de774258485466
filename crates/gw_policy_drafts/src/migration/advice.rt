//! What the comments of the text say: what format 3 will deny that was not, and what a site may need.
ghost use Rattle.std.specs.Prelude.{◌≡◌, ◌++◌, OnOk};
ghost use Rattle.gw_policy_drafts.specs.migration.Ports.{no_subnet_line, stations_line, stations_of, subnet_line};

use crate::migration::subnets::{host_of, put_subnet, shared_prefix};
use gw_addr::{NetNum, put_decimal};
use gw_configuration::{Config, Port, Route};
use gw_rules::{FieldName, Range, Rule};
use std::alloc::AllocError;

/// What is at the head of the text.
const HEAD: &[u8] = b"\
# This is the same policy in format 3. Two things are judged first there, before a message is taken:
# - \"enter\": a message of a host that is no station of its port. Set `stations` of each port to judge them;
#   a host of another subnet, and a peer's host, then needs a rule that allows \"enter\", or is denied.
# - \"claim\": a message that names another network as its source and doesn't come from the router by which
#   that network is reached. A network without a route needs one, or a rule that allows \"claim\", or it is
#   denied.
# A rule that names no `operation` is about both.
";

/// What follows the rules.
const TAIL: &[u8] = b"
# What a site may need, before a rule that denies all:
# [[rule]]
# name = \"visitors\"
# allow = true
# operation = [\"enter\"]
# sender = [\"10.0.0.0/8\"]
# [[rule]]
# name = \"other-networks\"
# allow = true
# operation = [\"claim\"]
# source_network = [400]
";

/// Appends what is at the head.
pub(crate) fn put_head(out: &mut Vec<u8>) -> Result<(), AllocError> {
    out.extend_from_slice(HEAD)
}

/// Appends what follows the rules.
pub(crate) fn put_tail(out: &mut Vec<u8>) -> Result<(), AllocError> {
    out.extend_from_slice(TAIL)
}

/// Appends the stations that are proposed for a port: the subnet of its address and its broadcast address.
pub(crate) fn put_stations_note(out: &mut Vec<u8>, port: &Port) -> Result<(), AllocError>
    ensures { OnOk result (out.new.items ≡ out.old.items ++ stations_line port.now) }
{
    put_stations_of(out, host_of(port.address), host_of(port.broadcast))
}

fn put_stations_of(out: &mut Vec<u8>, host: u64, broadcast: u64) -> Result<(), AllocError>
    ensures { OnOk result (out.new.items ≡ out.old.items ++ stations_of host broadcast) }
{
    match shared_prefix(host, broadcast) {
        Some(prefix) => put_stations(out, host, prefix),
        None => put_no_subnet(out),
    }
}

#[tactic(auto, unfolding(crate::specs::migration::Ports::subnet_line))]
fn put_stations(out: &mut Vec<u8>, host: u64, prefix: u8) -> Result<(), AllocError>
    ensures { OnOk result (out.new.items ≡ out.old.items ++ subnet_line host prefix) }
{
    out.extend_from_slice(b"# stations = [\"")?;
    put_subnet(out, host, prefix)?;
    out.extend_from_slice(b"\"]\n")
}

#[tactic(auto, unfolding(crate::specs::migration::Ports::no_subnet_line))]
fn put_no_subnet(out: &mut Vec<u8>) -> Result<(), AllocError>
    ensures { OnOk result (out.new.items ≡ out.old.items ++ no_subnet_line) }
{
    out.extend_from_slice(b"# No subnet ends with that broadcast address.\n")
}

/// Appends which router speaks for a network.
pub(crate) fn put_route_note(out: &mut Vec<u8>, route: &Route) -> Result<(), AllocError> {
    out.extend_from_slice(b"# Messages of network ")?;
    put_decimal(out, route.network.get())?;
    out.extend_from_slice(b" are denied by \"claim\" unless they come from ")?;
    route.next.put_text(out)?;
    out.extend_from_slice(b" on port ")?;
    put_decimal(out, route.port)?;
    out.extend_from_slice(b".\n")
}

/// Appends what format 3 makes of a rule: it is about what is judged first, or names a network that can't
/// claim to be one.
pub(crate) fn put_rule_note(
    out: &mut Vec<u8>,
    config: &Config,
    rule: &Rule,
) -> Result<(), AllocError> {
    if rule.ranges(FieldName::Operation).as_slice().is_empty() {
        out.extend_from_slice(
            b"# This rule names no operation: it is about \"enter\" and \"claim\", too.\n",
        )?;
    }
    for range in rule.ranges(FieldName::SourceNetwork).as_slice() {
        if !is_reached(config, *range) {
            put_network_note(out, range.low, range.high)?;
        }
    }
    Ok(())
}

/// Appends that messages of some networks come by no route.
fn put_network_note(out: &mut Vec<u8>, low: u64, high: u64) -> Result<(), AllocError> {
    out.extend_from_slice(b"# Of the networks ")?;
    put_decimal(out, low)?;
    out.extend_from_slice(b" to ")?;
    put_decimal(out, high)?;
    out.extend_from_slice(
        b" no route is known: their messages are denied by \"claim\" until a route is learned.\n",
    )
}

/// Whether one of these networks is that of a port, of the device or of a route.
fn is_reached(config: &Config, range: Range) -> bool {
    range.holds(network_of(config.device().network))
        || config
            .ports()
            .iter()
            .any(|port| range.holds(network_of(port.network)))
        || config
            .routes()
            .iter()
            .any(|route| range.holds(network_of(route.network)))
}

fn network_of(network: NetNum) -> u64 {
    u64::from(network.get())
}
