//! Which rules reach stations that aren't on a port's own subnet, by the port's network.
ghost use Rattle.std.specs.Prelude.{◌≡◌, ◌++◌, OnOk};
ghost use Rattle.std.specs.List.{flat_map};
ghost use Rattle.gw_script.specs.Order.{in_order};
ghost use Rattle.gw_policy_review.specs.permissions.Permissions.{reach_line, reach_lines, reached_line, reached_lines, reaches};

use crate::permissions::words::Placed;
use crate::places::is_derived;
use crate::warnings::{holds_number, is_near, passes_to, share};
use gw_addr::put_text_number;
use gw_configuration::{Port, Subnet};
use gw_rules::Rule;
use std::alloc::AllocError;

/// A rule by its number, from 1, of a configuration.
#[derive(Clone, Copy)]
struct PlacedRule<'a> {
    /// The configuration.
    placed: &'a Placed<'a>,
    /// The number.
    number: u16,
    /// The rule.
    rule: &'a Rule,
}

/// Appends the lines of the rules in their order.
pub(crate) fn put_reaches(out: &mut Vec<u8>, placed: &Placed<'_>) -> Result<(), AllocError>
    ensures { OnOk result (out.new.items ≡ out.old.items
        ++ in_order (reach_lines placed.now.config.now placed.now.lines.now) 1 placed.now.config.now.rules) }
{
    let rules = placed.config.rules().rules();
    for place in 0..rules.len() {
        put_reach(out, placed, place as u16 + 1, &rules[place])?;
    }
    Ok(())
}

/// Appends the lines of the rule of this number, if its table is its own.
fn put_reach(
    out: &mut Vec<u8>,
    placed: &Placed<'_>,
    number: u16,
    rule: &Rule,
) -> Result<(), AllocError>
    ensures { OnOk result (out.new.items ≡ out.old.items
        ++ reach_lines placed.now.config.now placed.now.lines.now number rule.now) }
{
    if is_derived(placed.config.tables(), number) {
        return Ok(());
    }
    let numbered = PlacedRule {
        placed,
        number,
        rule,
    };
    numbered.put_ports(out, placed.config.ports())
}

/// Whether a rule allows messages to pass, or what they name, to the stations of a subnet in a network that it names.
fn reaches(rule: &Rule, network: u16, subnet: Subnet) -> bool
    ensures { result ≡ reaches rule.now network subnet }
{
    rule.allow
        && holds_number(
            u64::from(network),
            rule.ranges.destination_network.as_slice(),
        )
        && passes_to(rule.ranges.operation.as_slice())
        && share(rule.ranges.station.as_slice(), &[subnet.keys()])
}

impl PlacedRule<'_> {
    /// Appends the lines of what the rule reaches by the networks of these ports.
    fn put_ports(&self, out: &mut Vec<u8>, ports: &[Port]) -> Result<(), AllocError>
        ensures { OnOk result (out.new.items ≡ out.old.items ++ flat_map
            (reached_lines self.now.placed.now.config.now self.now.placed.now.lines.now self.now.number self.now.rule.now) ports.now) }
    {
        for port in ports {
            self.put_subnets(out, port, port.stations.as_slice())?;
        }
        Ok(())
    }

    /// Appends the lines of these subnets of a port's stations.
    fn put_subnets(
        &self,
        out: &mut Vec<u8>,
        port: &Port,
        stations: &[Subnet],
    ) -> Result<(), AllocError>
        ensures { OnOk result (out.new.items ≡ out.old.items ++ flat_map
            (reached_line self.now.placed.now.config.now self.now.placed.now.lines.now self.now.number self.now.rule.now port.now)
            stations.now) }
    {
        for subnet in stations {
            self.put_subnet(out, port, *subnet)?;
        }
        Ok(())
    }

    fn put_subnet(&self, out: &mut Vec<u8>, port: &Port, subnet: Subnet) -> Result<(), AllocError>
        ensures { OnOk result (out.new.items ≡ out.old.items
            ++ reached_line self.now.placed.now.config.now self.now.placed.now.lines.now self.now.number self.now.rule.now port.now
            subnet) }
    {
        let network = port.network.get();
        if !is_near(port, subnet) && reaches(self.rule, network, subnet) {
            self.put_line(out, network, subnet)
        } else {
            Ok(())
        }
    }

    fn put_line(&self, out: &mut Vec<u8>, network: u16, subnet: Subnet) -> Result<(), AllocError>
        ensures { OnOk result (out.new.items ≡ out.old.items
            ++ reach_line self.now.placed.now.config.now self.now.placed.now.lines.now self.now.number self.now.rule.now network
            subnet) }
    {
        let text = subnet.to_string(*out.allocator())?;
        self.placed.put_rule(out, self.number, self.rule)?;
        out.extend_from_slice(b" reaches ")?;
        out.extend_from_slice(text.as_bytes())?;
        put_text_number(out, " too, by network ", network)?;
        out.extend_from_slice(b"\n")
    }
}
