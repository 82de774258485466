//! The configuration of a gateway, read from TOML to values that keep every range and limit.
#![tactic(auto)]

mod assertions;
mod device;
pub mod faults;
mod format;
pub mod keys;
pub mod laws;
pub mod lines;
mod listing;
mod objects;
mod parts;
mod policy;
mod port;
mod read;
mod reading;
mod route;
mod rules;
mod sets;
mod setting;
mod written;

pub use gw_configuration::{
    Config, ConfigFault, Device, Format, Instance, MultiState, Object, ObjectKind, ObjectValue,
    Peers, Port, Route, Text,
};
pub use read::{MAX_OCTETS, config_of, document, read_config};
pub use setting::{SETTING, setting_s};
