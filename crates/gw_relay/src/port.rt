//! A port, and the two tables of its broadcast manager.

ghost use Rattle.std.specs.Prelude.{◌≡◌};
ghost use Rattle.std.specs.Option.{option_map};
ghost use Rattle.gw_relay.specs.State.{is_manager, port_at};

use gw_addr::{BipAddr, NetNum};
use gw_configuration::Stations;
use gw_tables::bdt_fdt::{Bdt, Fdt};

/// A port of the gateway: the BACnet/IP network that it is on (Annex J.1).
#[derive(Clone, Copy)]
pub struct Port {
    /// Its number, from 1.
    pub number: u8,
    /// The number of the network.
    pub network: NetNum,
    /// The gateway's own address on it.
    pub address: BipAddr,
    /// Where a broadcast on its subnet goes.
    pub broadcast: BipAddr,
    /// The broadcast manager of its subnet, where that isn't the port itself.
    pub bbmd: Option<BipAddr>,
}

impl Port {
    /// Whether it is the broadcast manager of its subnet: no other one is beside it.
    #[inline(always)]
    pub fn is_manager(&self) -> bool
        ensures { result ≡ is_manager self.now }
    {
        self.bbmd.is_none()
    }
}

/// A port with the tables of its broadcast manager (Annex J.4, J.5).
pub struct PortState {
    /// The port.
    pub port: Port,
    /// The subnets of its stations, or none where it names no stations.
    pub stations: Stations,
    /// The broadcast distribution table.
    pub bdt: Bdt,
    /// The foreign device table.
    pub fdt: Fdt,
}

// By hand: a derived one is proved part by part wherever one is dropped (docs/GATE.md).
impl Drop for PortState {
    fn drop(self) {
        let PortState {
            port: _,
            stations: _,
            bdt: _,
            fdt: _,
        } = self;
    }
}

/// The port of this number, from 1, with its tables, or none.
pub fn port_at(ports: &[PortState], number: usize) -> Option<&PortState>
    ensures { option_map (λ state. state.now) result ≡ port_at ports.now number }
{
    if number == 0 {
        return None;
    }
    ports.get(number - 1)
}
