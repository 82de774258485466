//! BACnet/IP addresses (Annex J.1.2): an IPv4 address and a UDP port.

ghost use Rattle.std.specs.Prelude.{◌≡◌, ◌≢◌, ◌↔◌, length};
ghost use Rattle.std.specs.Prelude.{Some, IsTrue, IfOk, IfErr, IfSome};
ghost use Rattle.gw_addr.specs.Address.{octets_of, address_of, address_in, IsAddress};
ghost use Rattle.gw_addr.specs.Address.{big_endian, text_of};
ghost use Rattle.gw_addr.specs.Appending.{IsAppended};

use crate::digits::{MAX_TEXT, octet_before, port_in, write_four, write_port};
use crate::fault::{OctetsFault, TextFault};
use crate::station::Mac;
use crate::writers::put_slice;
use std::alloc::AllocError;
use std::fmt;

/// How many UDP ports there are.
const PORTS: u64 = 1 << 16;

/// A BACnet/IP address: the IPv4 address of a node and its UDP port, six octets in all.
///
/// ```text
/// +----+----+----+----+----+----+
/// |   IPv4 address    |   port  |
/// +----+----+----+----+----+----+
/// ```
#[derive(Clone, Copy, Debug, PartialEq, Eq, PartialOrd, Ord, Hash)]
pub struct BipAddr {
    /// The four octets of the IPv4 address, from left to right as they are written.
    pub ip: [u8; 4],
    /// The UDP port.
    pub udp: u16,
}

/// Reads an address from its six octets (Annex J.1.2). `Length` if there are not six.
pub fn bip_from_slice(octets: &[u8]) -> Result<BipAddr, OctetsFault>
    ensures found { IfOk result (λ a. octets.now ≡ octets_of a) }
    ensures only { (a : BipAddr) → IsAddress a → octets.now ≡ octets_of a → result ≡ Ok a }
    ensures length { IfErr result (λ _. length octets.now ≢ 6) }
    ensures exact { result ≡ address_of octets.now }
{
    let [a, b, c, d, high, low] = octets else {
        return Err(OctetsFault::Length);
    };
    Ok(BipAddr::from_octets(&[*a, *b, *c, *d, *high, *low]))
}

impl BipAddr {
    /// The address of six octets (Annex J.1.2).
    pub fn from_octets(octets: &[u8; 6]) -> BipAddr
        ensures { result ≡ address_in octets.now }
    {
        let [a, b, c, d, high, low] = *octets;
        BipAddr {
            ip: [a, b, c, d],
            udp: u16::from_be_bytes([high, low]),
        }
    }

    /// The six octets of the address (Annex J.1.2).
    pub fn to_octets(self) -> [u8; 6]
        ensures { result ≡ octets_of self }
    {
        let [a, b, c, d] = self.ip;
        let [high, low] = self.udp.to_be_bytes();
        [a, b, c, d, high, low]
    }

    /// The six octets as one number of 48 bits, the first octet its highest.
    pub fn key48(self) -> u64
        ensures { result ≡ big_endian (octets_of self) }
    {
        u64::from(u32::from_be_bytes(self.ip)) * PORTS + u64::from(self.udp)
    }

    /// The address as that of a station on its network: its six octets (clause 6.2.2).
    pub fn mac(self) -> Mac
        ensures { result ≡ octets_of self }
    {
        Mac::of_six(self.to_octets())
    }

    /// Whether it is that address, its port included.
    pub fn is_same(self, other: BipAddr) -> bool
        ensures { IsTrue result ↔ (self ≡ other) }
    {
        self == other
    }

    /// Reads an address as it is written, `a.b.c.d:port`, in decimal digits without leading zeros.
    /// `Text` if the text is anything else.
    pub fn parse(text: &str) -> Result<BipAddr, TextFault>
        ensures found { IfOk result (λ a. text.now ≡ text_of a) }
        ensures only { (a : BipAddr) → IsAddress a → text.now ≡ text_of a → result ≡ Ok a }
    {
        BipAddr::parse_octets(text.as_bytes())
    }

    /// Reads an address from the octets of the text that it is written as, as [`BipAddr::parse`]
    /// does. `Text` if they are anything else.
    #[inline(always)]
    pub fn parse_octets(text: &[u8]) -> Result<BipAddr, TextFault>
        ensures found { IfOk result (λ a. text.now ≡ text_of a) }
        ensures only { (a : BipAddr) → IsAddress a → text.now ≡ text_of a → result ≡ Ok a }
    {
        address_written(text).ok_or(TextFault::Text)
    }

    /// Appends the address as it is written, `a.b.c.d:port`. An `Err` only if the buffer had no
    /// room for it; then the buffer may hold a front of it.
    #[inline(always)]
    pub fn put_text(self, out: &mut Vec<u8>) -> Result<(), AllocError>
        ensures { IsAppended (text_of self) out.old out.new result }
    {
        let mut text = [0; MAX_TEXT];
        let place = write_four(&mut text, self.ip, b':');
        let end = write_port(&mut text, place, self.udp);
        put_slice(out, &text[..end])
    }
}

impl fmt::Display for BipAddr {
    ghost output = { λ a. Some (text_of a) };

    fn fmt<W: fmt::Write>(&self, f: &mut fmt::Formatter<W>) -> fmt::Result {
        let [a, b, c, d] = self.ip;
        let udp = self.udp;
        write!(f, "{a}.{b}.{c}.{d}:{udp}")
    }
}

/// The address that the text writes.
#[inline(always)]
fn address_written(text: &[u8]) -> Option<BipAddr>
    ensures found { IfSome result (λ a. text.now ≡ text_of a) }
    ensures only { (a : BipAddr) → IsAddress a → text.now ≡ text_of a → result ≡ Some a }
{
    let (a, rest) = octet_before(text, b'.')?;
    let (b, rest) = octet_before(rest, b'.')?;
    let (c, rest) = octet_before(rest, b'.')?;
    let (d, port) = octet_before(rest, b':')?;
    let udp = port_in(port)?;
    Some(BipAddr {
        ip: [a, b, c, d],
        udp,
    })
}
