//! A configuration, with the checksum of its text.

ghost use Rattle.std.specs.Prelude.{◌≡◌, IfOk};
ghost use Rattle.gw_configuration.specs.Reading.{Gives};
ghost use Rattle.gw_notices.specs.Checksum.{checksum_of};
ghost use Rattle.gw_policy_text.specs.Document.{configuration};

use gw_configuration::{Config, ConfigFault};
use gw_notices::Checksum;
use gw_policy_text::read_config;
use std::alloc::Global;

/// A configuration, with the checksum of the text that it was read from.
#[derive(Drop)]
pub struct Edition {
    /// The configuration.
    pub config: Config,
    /// The checksum of its text.
    pub checksum: Checksum,
}

impl Edition {
    /// The configuration of a text, with the text's checksum. Faults: those of [`read_config`].
    pub fn of(alloc: Global, text: &[u8]) -> Result<Self, ConfigFault>
        ensures config { Gives (λ edition. edition.config) result (configuration text.now) }
        ensures checksum { IfOk result (λ edition. edition.checksum ≡ checksum_of text.now) }
    {
        match read_config(alloc, text) {
            Ok(config) => Ok(Edition {
                config,
                checksum: Checksum::of(text),
            }),
            Err(fault) => Err(fault),
        }
    }
}
