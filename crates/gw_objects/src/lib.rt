//! The objects of a device: which properties each has, what they hold, and what a write changes
//! (ISO 16484-5 clauses 12, 15 and 19).
#![tactic(auto)]

mod configured;
mod contents;
mod copying;
mod database;
mod fault;
mod index;
pub mod laws;
mod property;
mod table;
mod value;
mod write;
mod writing;

pub use configured::{Configured, ConfiguredObject, Details, States, ValueObjects};
pub use database::ObjectDb;
pub use fault::{ReadFault, WriteFault};
pub use property::{ObjectType, Property, PropertySet, properties};
pub use table::MAX_APDU;
pub use value::PropertyValue;
pub use write::{AskedWrite, Put};
