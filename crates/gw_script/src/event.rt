//! What a line of a script writes.

ghost use Rattle.std.specs.Prelude.{◌≡◌};
ghost use Rattle.gw_addr.specs.Address.{text_of};

use gw_addr::BipAddr;

/// An address, and the text that it is written as, lent from where it was read.
#[derive(Clone, Copy)]
pub struct SpelledAddr<'a> {
    /// The address.
    pub address: BipAddr,
    /// Its text, `a.b.c.d:port`.
    pub text: &'a [u8],

    pub ghost spelled: { text.now ≡ text_of address },
}

/// One event: a datagram on a port, or a tick.
#[derive(Clone, Copy)]
pub enum Event<'a> {
    /// A datagram that came on the port of this number, from 1.
    Datagram {
        /// The port's number, from 1.
        port: u8,
        /// Whom the datagram came from.
        from: BipAddr,
        /// What it holds.
        octets: &'a [u8],
    },
    /// One second.
    Tick,
}
