//! Masks as they are written, `a.b.c.d`.

ghost use Rattle.std.specs.Prelude.{◌≡◌, Some, IfSome};
ghost use Rattle.gw_addr.specs.Mask.{mask_text, IsMask};
ghost use Rattle.gw_addr.specs.Appending.{IsAppended};

use crate::digits::{MAX_TEXT, octet_before, octet_in, write_four};
use crate::writers::put_slice;
use std::alloc::AllocError;
use std::fmt;

/// The mask of an IPv4 address, four octets. Any four are one: a broadcast distribution mask need
/// not be of ones and then zeros (Annex J.2.2 says no more of it).
#[derive(Clone, Copy, Debug)]
pub struct Mask {
    /// The four octets, as they are written from left to right.
    pub octets: [u8; 4],
}

impl Mask {
    /// Reads a mask as it is written, `a.b.c.d`, in decimal digits without leading zeros. `None`
    /// if the text is anything else.
    #[tactic(auto, unfolding(crate::specs::Text::four_text))]
    pub fn parse(text: &str) -> Option<Mask>
        ensures found { IfSome result (λ m. text.now ≡ mask_text m) }
        ensures only { (m : Mask) → IsMask m → text.now ≡ mask_text m → result ≡ Some m }
    {
        let (a, rest) = octet_before(text.as_bytes(), b'.')?;
        let (b, rest) = octet_before(rest, b'.')?;
        let (c, rest) = octet_before(rest, b'.')?;
        let d = octet_in(rest)?;
        Some(Mask {
            octets: [a, b, c, d],
        })
    }

    /// Appends the mask as it is written, `a.b.c.d`. An `Err` only if the buffer had no room for
    /// it; then the buffer may hold a front of it.
    pub fn put_text(self, out: &mut Vec<u8>) -> Result<(), AllocError>
        ensures { IsAppended (mask_text self) out.old out.new result }
    {
        let mut text = [0; MAX_TEXT];
        let end = write_four(&mut text, self.octets, b'.');
        // Without the point after the last number.
        put_slice(out, &text[..end - 1])
    }
}

impl fmt::Display for Mask {
    ghost output = { λ m. Some (mask_text m) };

    #[tactic(auto, unfolding(crate::specs::Text::four_text))]
    fn fmt<W: fmt::Write>(&self, f: &mut fmt::Formatter<W>) -> fmt::Result {
        let [a, b, c, d] = self.octets;
        write!(f, "{a}.{b}.{c}.{d}")
    }
}
