//! Network layer messages, of clause 6.2.4.

ghost use Rattle.std.specs.Prelude.{◌≡◌, is_some, nat_le};
ghost use Rattle.gw_frames.specs.npdu.Numbers.{first_vendor_kind};

/// A network layer message, in place of an APDU.
///
/// ```text
/// +------+------+------+--  --+
/// | type |   vendor    |  ..  |
/// +------+------+------+--  --+
/// ```
///
/// The vendor follows a type from 80 hexadecimal on, and follows no other.
#[derive(Clone, Copy, Debug)]
pub struct NetMessage<'a> {
    /// The message type ([`MessageKind`](crate::npdu::MessageKind) has those that the standard names).
    pub kind: u8,
    /// The vendor of a message type from 80 hexadecimal on.
    pub vendor: Option<u16>,
    /// The octets after the type and the vendor.
    pub octets: &'a [u8],

    pub ghost proprietary: { is_some vendor ≡ nat_le first_vendor_kind kind },
}

impl NetMessage<'_> {
    /// The first message type that a vendor numbers.
    pub const FIRST_VENDOR_KIND: u8 = 0x80;
}
