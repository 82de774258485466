//! Character strings and bit strings, which aren't any octets (clauses 20.2.9 and 20.2.10).

ghost use Rattle.std.specs.Prelude.{◌≡◌, true, length};
ghost use Rattle.gw_codecs.specs.tags.Strings.{IsText, is_unused};

use crate::tags::utf8::is_utf8;

/// A character string, lent from the octets that it was read from. In character set 0 it is UTF-8;
/// the octets of another set are not looked at.
///
/// ```text
/// +---------------+--------------+
/// | character set |  octets ..   |
/// +---------------+--------------+
/// ```
#[derive(Clone, Copy, Debug)]
pub struct CharacterString<'a> {
    /// The character set: 0 is UTF-8.
    pub charset: u8,
    /// The octets after the character set.
    pub octets: &'a [u8],
    pub ghost text: { IsText charset octets.now },
}

/// A bit string, lent from the octets that it was read from: the first bit is the highest of the
/// first octet.
///
/// ```text
/// +-------------+--------------+
/// | unused bits |  octets ..   |
/// +-------------+--------------+
/// ```
#[derive(Clone, Copy, Debug)]
pub struct BitString<'a> {
    /// How many bits of the last octet are unused: 0 to 7, and 0 if there are no octets.
    pub unused: u8,
    /// The octets after the count.
    pub octets: &'a [u8],
    pub ghost counted: { is_unused unused (length octets.now) ≡ true },
}

impl<'a> CharacterString<'a> {
    ghost use Rattle.std.specs.Prelude.{◌≡◌, ◌↔◌, IsSome, IfSome};
    ghost use Rattle.gw_codecs.specs.tags.Strings.{IsText};

    /// The character string of this set and these octets. `None` if the set is 0 and the octets
    /// aren't UTF-8.
    pub fn new(charset: u8, octets: &'a [u8]) -> Option<CharacterString<'a>>
        ensures fits { IsSome result ↔ IsText charset octets.now }
        ensures value { IfSome result (λ s. (s.charset ≡ charset) × (s.octets.now ≡ octets.now)) }
    {
        if charset == 0 && !is_utf8(octets) {
            return None;
        }
        Some(CharacterString { charset, octets })
    }
}

impl<'a> BitString<'a> {
    ghost use Rattle.std.specs.Prelude.{◌≡◌, ◌↔◌, true, length, IsSome, IfSome};
    ghost use Rattle.gw_codecs.specs.tags.Strings.{is_unused};

    /// The bit string of these octets with so many unused bits. `None` if there are more than 7,
    /// or any if there are no octets.
    pub fn new(unused: u8, octets: &'a [u8]) -> Option<BitString<'a>>
        ensures fits { IsSome result ↔ is_unused unused (length octets.now) ≡ true }
        ensures value { IfSome result (λ s. (s.unused ≡ unused) × (s.octets.now ≡ octets.now)) }
    {
        if unused > 7 || octets.is_empty() && unused > 0 {
            return None;
        }
        Some(BitString { unused, octets })
    }
}
