//! The checksum of a text.

ghost use Rattle.std.specs.Prelude.{◌≡◌};
ghost use Rattle.gw_notices.specs.Checksum.{checksum_of};

use sha2::{Digest, Sha256};

/// The SHA-256 of a text, by which it is told from any other one.
#[derive(Clone, Copy)]
pub struct Checksum {
    /// Its octets, in order.
    pub octets: [u8; 32],
}

impl Checksum {
    /// That of this text.
    pub fn of(text: &[u8]) -> Self
        ensures { result ≡ checksum_of text.now }
    {
        Checksum {
            octets: Sha256::digest(text),
        }
    }
}
