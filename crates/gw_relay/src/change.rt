//! What changes in the tables of a port, or in the routes.

use gw_addr::{BipAddr, NetNum, Sequence};
use gw_tables::bdt_fdt::Bdt;

/// A change of a relay's tables, made by [`Relay::commit`](crate::Relay::commit). The port is given
/// by its number, from 1.
#[derive(Drop)]
pub enum Change {
    /// A broadcast distribution table takes the place of the port's (Annex J.4).
    Entries {
        /// The port.
        port: u8,
        /// The table.
        bdt: Bdt,
    },
    /// A foreign device registers (Annex J.5).
    Registration {
        /// The port.
        port: u8,
        /// The foreign device.
        address: BipAddr,
        /// For how many seconds, the grace not among them.
        time_to_live: u16,
    },
    /// A foreign device's registration is deleted (Annex J.5).
    Deletion {
        /// The port.
        port: u8,
        /// The foreign device.
        address: BipAddr,
    },
    /// Networks are learned that a router on the port's network reaches (clause 6.4.2).
    Learnings {
        /// The port.
        port: u8,
        /// The router.
        next: BipAddr,
        /// The networks, in order.
        networks: Sequence<NetNum>,
    },
}
