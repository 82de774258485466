//! A source that has nothing.

ghost use Rattle.std.specs.Prelude.{[], Some, ⊤};

use gw_script::{OctetSource, ReadFailed};

/// A source that has no octets.
#[derive(Drop)]
pub(crate) struct Nothing;

impl OctetSource for Nothing {
    ghost left = { λ _. Some [] };

    ghost NeverFails = { λ _. ⊤ };

    ghost reads = { λ _. 0 };

    fn read_octets(&mut self, _buffer: &mut [u8]) -> Result<usize, ReadFailed> {
        Ok(0)
    }
}
