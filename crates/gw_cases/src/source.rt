//! What a case reads from, of which contracts see each octet and each read.

ghost use Rattle.std.specs.Prelude.{◌≡◌, Some, false};

use gw_script::{OctetSource, ReadFailed};

/// Gives a text, and counts its reads, up to 2^64 - 1. It never fails, or each read of it does.
#[derive(Drop)]
pub struct MemSource<'a> {
    /// What it hasn't given yet.
    pub octets: &'a [u8],
    /// Whether it fails.
    pub fails: bool,
    reads: u64,
}

impl<'a> MemSource<'a> {
    /// One of this text.
    pub fn new(octets: &'a [u8], fails: bool) -> Self
        ensures octets { result.octets.now ≡ octets.now }
        ensures fails { result.fails ≡ fails }
    {
        MemSource {
            octets,
            fails,
            reads: 0,
        }
    }
}

impl OctetSource for MemSource<'_> {
    ghost left = { λ source. Some source.octets.now };

    ghost NeverFails = { λ source. source.fails ≡ false };

    ghost reads = { λ source. source.reads };

    fn read_octets(&mut self, buffer: &mut [u8]) -> Result<usize, ReadFailed> {
        self.reads = self.reads.saturating_add(1);
        if self.fails {
            return Err(ReadFailed);
        }
        let count = buffer.len().min(self.octets.len());
        let (front, rest) = self.octets.split_at(count);
        buffer[..count].copy_from_slice(front);
        self.octets = rest;
        Ok(count)
    }
}
