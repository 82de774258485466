//! What is to be run.

use crate::edition::Edition;
use gw_configuration::RunOptions;

/// What is to be run: a configuration, with the checksum of its text, as these options ask.
#[derive(Drop)]
pub struct Order<'a> {
    /// The configuration.
    pub edition: Edition,
    /// The options.
    pub options: &'a RunOptions,
}
