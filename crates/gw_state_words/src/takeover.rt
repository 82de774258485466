//! What a saved state holds, and what of it a gateway of a configuration takes over.
mod finding;
mod identity;
pub mod laws;
mod lost;
mod objects;
mod ports;
mod routes;
mod takeover;

pub use finding::{
    Absence, HeldPlace, Loss, ObjectName, PortName, RouteFate, RouteFinding, Sizes, TableFate,
    TakeoverFinding, ValueFate, ValueFinding,
};
pub use takeover::{TakeOver, take_over};
