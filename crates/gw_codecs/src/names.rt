//! The standard's names of object types, properties and services (ISO 16484-5), by their numbers, and their
//! numbers by these names. The log writes the name of a number, and a configuration may have the name in its place.
pub mod laws;
mod names;
mod tables;

pub use names::{
    object_type_name, object_type_number, property_name, property_number, service_name,
    service_number,
};
