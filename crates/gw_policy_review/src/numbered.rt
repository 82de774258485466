//! A part of a configuration with its number.
use gw_configuration::Port;

/// A port by its number, from 1.
#[derive(Clone, Copy)]
pub(crate) struct NumberedPort<'a> {
    /// The number.
    pub number: usize,
    /// The port.
    pub port: &'a Port,
}
