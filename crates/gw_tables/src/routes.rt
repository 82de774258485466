//! Which way a network lies (clause 6): by a port of the gateway, at its device, behind a router, or
//! unknown; and the routes that are learned.
mod fault;
pub mod laws;
mod route;
mod routes;

pub use fault::LearnFault;
pub use route::{EVERYWHERE, Route, Way};
pub use routes::{MAX_ROUTES, Routes};
