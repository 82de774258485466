//! Subnets of IPv4 addresses.
ghost use Rattle.std.specs.Prelude.{◌≡◌, ◌≤◌, ◌<◌, ◌^◌, ◌++◌, ◌∷◌, ℕ, Some, IfSome};
ghost use Rattle.std.specs.Fmt.{decimal};
ghost use Rattle.gw_addr.specs.declared.mask.Mask.{Mask};
ghost use Rattle.gw_addr.specs.Mask.{IsMask, mask_text};
ghost use Rattle.gw_configuration.specs.Subnet as spec;
ghost use Rattle.gw_configuration.specs.Subnet.{IsSubnet, keys_of, size_of, subnet_holds, subnet_of, subnet_text};
ghost use Rattle.gw_configuration.specs.internal.Prefix.{digit_of, prefix_of, two_digits_of};

use gw_addr::{BipAddr, Mask};
use gw_rules::Range;
use std::fmt;
use std::marker::Model;

/// How many bits an IPv4 address has.
const ADDRESS_BITS: u8 = 32;
/// How many UDP ports there are.
const PORTS: u64 = 1 << 16;

/// A subnet: the IPv4 addresses whose first bits, `prefix` of 32, are those of its network. Contracts see
/// the two numbers.
#[derive(Clone, Copy)]
pub struct Subnet {
    network: u32,
    prefix: u8,
}

impl Model for Subnet {
    ghost use Rattle.std.specs.Prelude.{◌≡◌, ◌≤◌, ◌%◌};
    ghost use Rattle.gw_configuration.specs.Subnet as spec;
    ghost use Rattle.gw_configuration.specs.Subnet.{size_of};

    ghost Value = { spec.Subnet };

    ghost view = { λ s. record { network = s.network; prefix = s.prefix } };

    ghost invariant = { λ s. (s.prefix ≤ 32) × (s.network % size_of s.prefix ≡ 0) };

    ghost inverse = { λ s. record { network = s.network; prefix = s.prefix } };
}

impl Subnet {
    /// The subnet of this IPv4 address and of all that have the same first bits, so many. `None` if
    /// there are more than 32, or a bit after them is set.
    pub fn new(ip: [u8; 4], prefix: u8) -> Option<Self>
        ensures { result ≡ subnet_of ip prefix }
    {
        let network = u32::from_be_bytes(ip);
        if prefix <= ADDRESS_BITS && u64::from(network) % size_of(prefix) == 0 {
            Some(Subnet { network, prefix })
        } else {
            None
        }
    }

    /// Reads a subnet as it is written, `a.b.c.d/n`, in decimal digits without leading zeros. `None` if the
    /// text is anything else, or no subnet.
    pub fn parse(text: &str) -> Option<Self>
        ensures found { IfSome result (λ s. text.now ≡ subnet_text s) }
        ensures only { (s : spec.Subnet) → IsSubnet s → text.now ≡ subnet_text s → result ≡ Some s }
    {
        let (ip, prefix) = divided(text)?;
        Subnet::new(ip.octets, prefix)
    }

    /// Whether the subnet has the IPv4 address of a node.
    #[tactic(auto, unfolding(crate::specs::Subnet::subnet_holds))]
    pub fn holds(&self, address: BipAddr) -> bool
        ensures { result ≡ subnet_holds self.now address }
    {
        let size = size_of(self.prefix);
        u64::from(u32::from_be_bytes(address.ip)) / size == u64::from(self.network) / size
    }

    /// The keys of its addresses at every UDP port (Annex J.1.2).
    #[tactic(auto, using(crate::proofs::Keys::last_key))]
    pub fn keys(&self) -> Range
        ensures keys { result ≡ keys_of self.now }
        ensures some { result.low ≤ result.high }
        ensures high { result.high < 2 ^ 48 }
    {
        let network = u64::from(self.network);
        Range {
            low: network * PORTS,
            high: (network + size_of(self.prefix)) * PORTS - 1,
        }
    }
}

impl fmt::Display for Subnet {
    ghost output = { λ s. Some (subnet_text s) };

    #[tactic(auto, unfolding(gw_addr::specs::Text::four_text))]
    fn fmt<W: fmt::Write>(&self, f: &mut fmt::Formatter<W>) -> fmt::Result {
        let [a, b, c, d] = self.network.to_be_bytes();
        let prefix = self.prefix;
        write!(f, "{a}.{b}.{c}.{d}/{prefix}")
    }
}

/// How many IPv4 addresses have the same first bits, so many.
fn size_of(prefix: u8) -> u64
    requires { prefix ≤ 32 }
    ensures { result ≡ size_of prefix }
{
    1 << (ADDRESS_BITS - prefix)
}

/// The IPv4 address that is written before a slash, and the number of one or two digits after it.
fn divided(text: &str) -> Option<(Mask, u8)>
    ensures found { IfSome result (λ x. text.now ≡ mask_text x.0 ++ 47 ∷ decimal x.1) }
    ensures only { (m : Mask) (n : ℕ) → IsMask m → n < 100 → text.now ≡ mask_text m ++ 47 ∷ decimal n →
        result ≡ Some (m, n) }
{
    let (ip, prefix) = text.split_once('/')?;
    Some((Mask::parse(ip)?, prefix_in(prefix.as_bytes())?))
}

/// The number of one or two digits that is written so, without leading zeros.
fn prefix_in(text: &[u8]) -> Option<u8>
    ensures { result ≡ prefix_of text.now }
{
    match text {
        [digit] => digit_in(*digit),
        [tens, digit] => two_digits_in(digit_in(*tens)?, digit_in(*digit)?),
        _ => None,
    }
}

/// The number of two digits, the first of which isn't 0.
fn two_digits_in(tens: u8, digit: u8) -> Option<u8>
    requires tens { tens < 10 }
    requires digit { digit < 10 }
    ensures { result ≡ two_digits_of tens digit }
{
    if tens == 0 {
        None
    } else {
        Some(10 * tens + digit)
    }
}

/// The number that a digit is.
fn digit_in(octet: u8) -> Option<u8>
    ensures number { result ≡ digit_of octet }
    ensures small { IfSome result (λ n. n < 10) }
{
    if octet.is_ascii_digit() {
        Some(octet - b'0')
    } else {
        None
    }
}
