//! The tables of a port.

use gw_addr::{BipAddr, NetNum};
use gw_configuration::Peers;
use gw_tables::bdt_fdt::{Bdt, KeptDevices};

/// A port as it is saved. Its network and its own address identify it.
pub struct SavedPort {
    /// The number of its network.
    pub network: NetNum,
    /// The gateway's own address on it.
    pub address: BipAddr,
    /// The peers that were configured.
    pub peers: Peers,
    /// The broadcast distribution table (Annex J.4).
    pub entries: Bdt,
    /// The registered foreign devices (Annex J.5).
    pub devices: KeptDevices,
}

// By hand: a derived one is proved part by part wherever one is dropped (docs/GATE.md).
impl Drop for SavedPort {
    fn drop(self) {
        let SavedPort {
            network: _,
            address: _,
            peers: _,
            entries: _,
            devices: _,
        } = self;
    }
}
