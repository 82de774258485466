//! A source that is lent.

ghost use Rattle.std.specs.Prelude.{◌≡◌, ℕ, List, Option};
ghost use Rattle.gw_verdicts.specs.asks.Left.{lent_left};

use gw_script::{OctetSource, ReadFailed};

/// A source that its owner lends: what is read from this one is read from that one.
#[derive(Drop)]
pub struct Lent<'a, R> {
    source: &'a mut R,
}

impl<'a, R: OctetSource> Lent<'a, R> {
    /// Lends a source.
    pub fn new(source: &'a mut R) -> Lent<'a, R>
        ensures left { lent_left R.left result ≡ R.left source.old }
        ensures same_reference { result.source.ghost_name ≡ source.entry.ghost_name }
    {
        Lent { source }
    }
}

impl<R: OctetSource> OctetSource for Lent<'_, R> {
    ghost left = { λ lent. lent_left R.left lent };

    ghost NeverFails = { λ lent. R.NeverFails lent.source.now };

    ghost reads = { λ lent. R.reads lent.source.now };

    fn read_octets(&mut self, buffer: &mut [u8]) -> Result<usize, ReadFailed> {
        self.source.read_octets(buffer)
    }
}
