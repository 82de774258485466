//! How a network is reached.

use gw_addr::BipAddr;

/// The network number that represents all networks, in the destination of a global broadcast
/// (clause 6.2.2).
pub const EVERYWHERE: u16 = 65535;

/// A route to a network behind another router.
#[derive(Clone, Copy, PartialEq, Eq)]
pub struct Route {
    /// The number of the port on whose network the router is.
    pub port: u8,
    /// The address of the router there, which is the next on the way.
    pub next: BipAddr,
}

/// Which way a network lies (clause 6.5).
#[derive(Clone, Copy, PartialEq, Eq)]
pub enum Way {
    /// It is the network of the port of this number, counted from 1.
    Port(usize),
    /// It is the network of the gateway's own device.
    Device,
    /// It lies behind another router.
    Router(Route),
    /// It represents all networks.
    Everywhere,
    /// No way there is known.
    Unknown,
}
