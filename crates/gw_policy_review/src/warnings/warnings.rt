//! What a configuration has that is accepted and can't be meant.
ghost use Rattle.gw_addr.specs.Appending.{IsAppended, IsAppendedWhole};
ghost use Rattle.gw_policy_review.specs.warnings.Warnings.{policy_lines, warnings_text};

use crate::warnings::audit_warnings::put_audits;
use crate::warnings::device_warnings::put_device;
use crate::warnings::peer_warnings::put_registering;
use crate::warnings::port_warnings::put_ports;
use crate::warnings::route_warnings::put_routes;
use crate::warnings::rule_warnings::{put_none, put_rules};
use crate::warnings::set_warnings::put_sets;
use gw_addr::keep_whole;
use gw_configuration::Config;
use std::alloc::AllocError;

/// Appends a line for each thing in a configuration that is accepted and can't be meant: that of the
/// device, then those of the ports with their peers, of the routes, the sets and the rules, each in the order of the text,
/// and then of the peers whom the rules let register.
///
/// ```text
/// warning: port 1: broadcast: 192.168.2.255:47808 is the broadcast address of no subnet of 192.168.1.10:47808
/// ```
///
/// An `Err` only where the buffer had no room for them: it then holds what it held.
pub fn put_warnings(config: &Config, out: &mut Vec<u8>) -> Result<(), AllocError>
    ensures { IsAppendedWhole (warnings_text config.now) out.old out.new result }
{
    let len = out.len();
    let put = put_lines(out, config);
    keep_whole(out, len, put)
}

/// Appends the lines. If a growth was refused, `out` has a front of them.
fn put_lines(out: &mut Vec<u8>, config: &Config) -> Result<(), AllocError>
    ensures { IsAppended (warnings_text config.now) out.old out.new result }
{
    let ports = config.ports();
    put_device(out, config.device())?;
    put_ports(out, ports)?;
    put_routes(out, ports, config.routes())?;
    put_sets(out, config.sets())?;
    put_policy(out, config)
}

/// Appends the lines of the policy.
fn put_policy(out: &mut Vec<u8>, config: &Config) -> Result<(), AllocError>
    ensures { IsAppended (policy_lines config.now) out.old out.new result }
{
    let ports = config.ports();
    let rules = config.rules();
    let format = config.format();
    put_none(out, rules.rules())?;
    put_rules(out, format, ports.len() as u64, rules.rules())?;
    put_audits(out, config.audits(), rules.rules())?;
    put_registering(out, format, rules, ports)
}
