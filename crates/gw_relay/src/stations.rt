//! Which stations belong to a port.

ghost use Rattle.std.specs.Prelude.{◌≡◌};
ghost use Rattle.std.specs.List.{list_any};
ghost use Rattle.gw_configuration.specs.Subnet.{subnet_holds};
ghost use Rattle.gw_relay.specs.Stations.{belongs, is_reserved, is_station};

use crate::port::{Port, PortState};
use gw_addr::BipAddr;
use gw_configuration::Subnet;
use gw_rules::Format;

/// Whether one of these subnets has an address.
fn is_held(subnets: &[Subnet], address: BipAddr) -> bool
    ensures { result ≡ list_any (λ subnet. subnet_holds subnet address) subnets.now }
{
    subnets.iter().any(|subnet| subnet.holds(address))
}

impl Port {
    /// Whether an address is the port's own, or of the IPv4 address to which its broadcasts go: no
    /// station has it.
    fn is_reserved(&self, address: BipAddr) -> bool
        ensures { result ≡ is_reserved self.now address }
    {
        address == self.address || address.ip == self.broadcast.ip
    }
}

impl PortState {
    /// Whether an address is that of a station of one of the port's subnets.
    fn is_station(&self, address: BipAddr) -> bool
        ensures { result ≡ is_station self.now.port self.now.stations address }
    {
        is_held(self.stations.as_slice(), address) && !self.port.is_reserved(address)
    }

    /// Whether an address belongs to the port: if the format names no stations, or the port names none;
    /// if it is that of a station of one of its subnets, and neither the port's own nor of the IPv4
    /// address to which its broadcasts go; or if it is registered there now.
    pub fn belongs(&self, format: Format, address: BipAddr) -> bool
        ensures { result ≡ belongs format self.now address }
    {
        !format.names_stations()
            || self.stations.as_slice().is_empty()
            || self.is_station(address)
            || self.fdt.contains(address)
    }
}
