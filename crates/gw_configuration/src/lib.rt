//! What a gateway is configured with: values that keep every range and limit, and in which nothing appears
//! twice that may appear only once. Where a fault of a configuration is.
#![tactic(auto)]

mod assertion;
mod config;
mod device;
mod display;
mod duplicates;
mod fault;
mod instance;
pub mod laws;
mod located;
mod networks;
mod object;
mod parts;
mod policing;
mod port;
mod route;
mod run_options;
pub mod sameness;
mod set;
mod shape;
mod stations;
mod subnet;
mod text;
mod top;

pub use assertion::{Assertion, MAX_ASSERTIONS, READING_SERVICES, WRITING_SERVICES};
pub use config::Config;
pub use device::Device;
pub use display::{ShownOctets, put_shown, shown};
pub use fault::ConfigFault;
pub use gw_rules::Format;
pub use instance::{Instance, MAX_INSTANCE};
pub use located::{Located, Place};
pub use networks::Networks;
pub use object::{MAX_STATES, MultiState, Object, ObjectKind, ObjectValue};
pub use parts::{MAX_OBJECTS, MAX_ROUTES, Parts};
pub use policing::Policing;
pub use port::{MAX_PEERS, Peers, Port};
pub use route::Route;
pub use run_options::RunOptions;
pub use set::Set;
pub use shape::{Names, Naming, Scalar, Shape};
pub use stations::{MAX_STATIONS, Stations};
pub use subnet::Subnet;
pub use text::{MAX_TEXT, Text};
pub use top::TopValues;
