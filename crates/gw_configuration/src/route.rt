//! The routes with which a gateway starts.

use gw_addr::{BipAddr, NetNum};

/// A network behind another router, and the way there (clause 6.5).
#[derive(Clone, Copy)]
pub struct Route {
    /// The network.
    pub network: NetNum,
    /// The number of the port on whose network the router is, counted from 1.
    pub port: u8,
    /// The router's address there.
    pub next: BipAddr,
}
