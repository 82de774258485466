//! Broadcast management on a BACnet/IP network: the broadcast distribution table (Annex J.4), and
//! the foreign devices that are registered for a time (Annex J.5).
mod bdt;
mod fault;
mod fdt;
mod kept;
pub mod laws;
mod leases;
mod tables;

pub use bdt::{Bdt, MAX_ENTRIES, Peers};
pub use fault::{BdtFault, DeleteFault, KeptFault, RegisterFault};
pub use fdt::{Addresses, Fdt, GRACE, MAX_REGISTRATIONS, MAX_REMAINING};
pub use kept::{KeptDevice, KeptDevices};
pub use tables::PortTables;
