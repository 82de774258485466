//! Destinations and sources: DNET, DADR, SNET and SADR of clause 6.2.2.

ghost use Rattle.std.specs.Prelude.{◌≡◌, ◌<◌, ◌^◌, length};
ghost use Rattle.gw_addr.specs.Station.{network_of};
ghost use Rattle.gw_frames.specs.npdu.Numbers.{every_network};

use gw_addr::NetNum;

/// Whom a message is bound for: DNET, DLEN, DADR and the hop count.
///
/// ```text
/// +------+------+------+------+--  --+         +------+
/// |    DNET     | DLEN |  DADR  ..   |   ...   | hops |
/// +------+------+------+------+--  --+         +------+
/// ```
///
/// The hop count follows the source.
#[derive(Clone, Copy, Debug)]
pub struct Destination<'a> {
    /// The station's address on that network, at most 255 octets. None: every station there. For every network there
    /// is none.
    pub mac: &'a [u8],
    /// The number of the network, 1 to 65534, or 65535 for every network.
    pub network: u16,
    /// The hop count: a router takes one from it, and passes on no message whose count is or becomes 0.
    pub hops: u8,

    pub ghost numbered: { 0 < network },
    pub ghost short: { length mac.now < 2 ^ 8 },
    pub ghost whole: { network ≡ every_network → length mac.now ≡ 0 },
}

impl Destination<'_> {
    /// The number that represents every network.
    pub const EVERY_NETWORK: u16 = 65535;
    /// The hop count of a message that has passed no router yet (clause 6.2.3).
    pub const WHOLE_HOP_COUNT: u8 = 255;

    /// The network, or None if the message is bound for every network.
    pub fn net(&self) -> Option<NetNum>
        ensures { result ≡ network_of self.now.network }
    {
        NetNum::new(self.network)
    }
}

/// The address of one station (a BACnetAddress, clause 21), lent: its network, and its address there. SNET, SLEN and
/// SADR.
///
/// ```text
/// +------+------+------+------+--  --+
/// |    SNET     | SLEN |  SADR  ..   |
/// +------+------+------+------+--  --+
/// ```
#[derive(Clone, Copy, Debug)]
pub struct AddressRef<'a> {
    /// The station's address on that network, 1 to 255 octets.
    pub mac: &'a [u8],
    /// The number of the network, 1 to 65534.
    pub network: u16,

    pub ghost numbered: { 0 < network },
    pub ghost single: { network < every_network },
    pub ghost present: { 0 < length mac.now },
    pub ghost short: { length mac.now < 2 ^ 8 },
}

impl AddressRef<'_> {
    /// The network.
    pub fn net(&self) -> NetNum
        ensures { result ≡ self.now.network }
    {
        NetNum::new(self.network).unwrap()
    }
}
