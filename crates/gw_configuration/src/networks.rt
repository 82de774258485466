//! The networks of a configuration.
use crate::{Port, Route};
use gw_addr::Sequence;

/// The networks that a configuration names: those of its ports, and those that it has a route to.
#[derive(Drop)]
pub struct Networks {
    /// The ports in order.
    pub ports: Sequence<Port>,
    /// The routes in order.
    pub routes: Sequence<Route>,
}
