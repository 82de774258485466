//! The control octet, of clause 6.2.2.

ghost use Rattle.std.specs.Prelude.{⊤, ◌≡◌, [], ◌∷◌, codes};
ghost use Rattle.gw_frames.specs.npdu.Numbers.{message_bit, destination_bit, source_bit, reply_bit};
ghost use Rattle.gw_frames.specs.npdu.Numbers.{priority_bits};

use bitflags::{Flag, Flags, bitflag_items};

/// The control octet: which parts a message has, and how urgent it is.
///
/// ```text
///   7   6   5   4   3   2   1   0
/// +---+---+---+---+---+---+---+---+
/// | M | - | D | - | S | R | prior.|
/// +---+---+---+---+---+---+---+---+
/// ```
///
/// M: a network layer message in place of an APDU. D: DNET, DLEN, DADR and the hop count. S: SNET, SLEN and SADR. R:
/// the sender waits for an answer. Bits 6 and 4 are reserved: ignored on reading, zero on writing.
#[derive(Clone, Copy)]
pub struct Control(pub u8);

bitflag_items! {
    impl Control: u8 {
        const MESSAGE = 0x80;
        const DESTINATION = 0x20;
        const SOURCE = 0x08;
        const REPLY_EXPECTED = 0x04;
        const PRIORITY = 0x03;
    }
}

impl Flags for Control {
    type Bits = u8;

    ghost exact = { ⊤ };

    ghost table = { (codes "MESSAGE", message_bit) ∷ (codes "DESTINATION", destination_bit)
        ∷ (codes "SOURCE", source_bit) ∷ (codes "REPLY_EXPECTED", reply_bit)
        ∷ (codes "PRIORITY", priority_bits) ∷ [] };

    ghost set_of = { λ c. c.0 };

    fn flags<'a>() -> &'a [Flag<Control>] {
        Control::FLAGS
    }

    fn bits(&self) -> u8 {
        self.0
    }

    fn from_bits_retain(bits: u8) -> Control {
        Control(bits)
    }
}
