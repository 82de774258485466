//! A configuration of format 1 or 2, written as a text of format 3 that says the same.
mod advice;
mod fault;
mod lines;
mod migration;
mod objects;
mod ports;
mod rules;
mod subnets;

pub use fault::MigrationFault;
pub(crate) use lines::put_quoted;
pub use migration::migrate;
pub(crate) use objects::put_device;
pub(crate) use ports::{put_peers, put_port_head, put_ports, put_routes};
pub use rules::{put_field, put_field_items, put_operation, put_quoted_station};
pub(crate) use subnets::size_of;
