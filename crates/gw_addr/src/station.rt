//! The addresses of stations (clauses 6.2.2 and 6.3): a network, and 1 to 255 octets on it.

ghost use Rattle.std.specs.Prelude.{◌≡◌, ◌↔◌, ◌<◌, ◌≤◌, ◌-◌, ◌++◌, ◌/◌, ◌%◌, ◌==◌, length, replicate};
ghost use Rattle.std.specs.Prelude.{Some, IsTrue};
ghost use Rattle.std.specs.List.{flat_map, list_all};
ghost use Rattle.gw_addr.specs.Appending.{IsAppended};
ghost use Rattle.gw_addr.specs.Station.{counted, key48, key_of, digit_of, station_at, station_of, two_digits};

use crate::network::NetNum;
use crate::writers::put_slice;
use std::alloc::AllocError;
use std::fmt;
use std::marker::Model;

/// The address of a station on its network: 1 to 255 octets, kept in place (clause 6.2.2). A
/// BACnet/IP node has the six of its `BipAddr`.
#[derive(Clone, Copy, PartialEq, Eq)]
pub struct Mac {
    octets: [u8; 255],
    len: u8,
}

impl Model for Mac {
    ghost use Rattle.std.specs.Prelude.{List, ℕ, take};

    ghost Value = { List ℕ };

    ghost use Rattle.gw_addr.specs.internal.Padded.{kept, kept_again, IsKept};

    ghost view = { λ m. take m.len m.octets };

    ghost invariant = { IsKept };

    ghost inverse = { kept };

    ghost inverse_ok = { kept_again };
}

impl Mac {
    /// The station of these octets, or `None` if there are none or more than 255.
    pub fn new(octets: &[u8]) -> Option<Mac>
        ensures { result ≡ station_of octets.now }
    {
        let len = u8::try_from(octets.len()).ok()?;
        if len == 0 {
            return None;
        }
        Some(kept(octets, len))
    }

    /// The station of six octets, as each node of a BACnet/IP network is one.
    pub fn of_six(octets: [u8; 6]) -> Mac
        ensures { result ≡ octets }
    {
        kept(&octets, 6)
    }

    /// Whether it is that address.
    pub fn is_same(&self, other: &Mac) -> bool
        ensures { IsTrue result ↔ (self.now ≡ other.now) }
    {
        *self == *other
    }

    /// The octets of the address.
    pub fn as_slice(&self) -> &[u8]
        ensures octets { result.now ≡ self.now }
        ensures some { 1 ≤ length result.now }
        ensures most { length result.now ≤ 255 }
    {
        &self.octets[..usize::from(self.len)]
    }

    /// The octets as one number of 48 bits, the first octet its highest, or `None` if there are
    /// not six.
    pub fn key48(&self) -> Option<u64>
        ensures { result ≡ key48 self.now }
    {
        key48(self.as_slice())
    }

    /// The key of the station, as [`key_of`] says.
    pub fn key(&self) -> Option<u64>
        ensures { result ≡ key_of self.now }
    {
        key_of(self.as_slice())
    }

    /// The station that has this key, or `None` if none has it.
    pub fn of_key(key: u64) -> Option<Mac>
        ensures { result ≡ station_at key }
    {
        let octets = key.to_be_bytes();
        let count = counted(octets[0]);
        if count == 0 || count > 7 {
            return None;
        }
        if !are_zeros(&octets[1..8 - usize::from(count)]) {
            return None;
        }
        Mac::new(&octets[8 - usize::from(count)..])
    }

    /// Appends the octets as they are printed, two upper-case hexadecimal digits for each. An `Err`
    /// only if the buffer had no room for them; then the buffer may hold a front of them.
    pub fn put_text(&self, out: &mut Vec<u8>) -> Result<(), AllocError>
        ensures { IsAppended (flat_map two_digits self.now) out.old out.new result }
    {
        if let [a, b, c, d, high, low] = self.as_slice() {
            return put_slice(out, &twelve_digits([*a, *b, *c, *d, *high, *low]));
        }
        for octet in self.as_slice() {
            put_slice(out, &[high_digit(*octet), low_digit(*octet)])?;
        }
        Ok(())
    }
}

impl fmt::Display for Mac {
    ghost output = { λ octets. Some (flat_map two_digits octets) };

    fn fmt<W: fmt::Write>(&self, f: &mut fmt::Formatter<W>) -> fmt::Result {
        for octet in self.as_slice() {
            let high = upper_digit(octet >> 4);
            let low = upper_digit(octet & 15);
            write!(f, "{high}{low}")?;
        }
        Ok(())
    }
}

/// Six octets as one number of 48 bits, the first octet its highest, or `None` if there are not six.
#[inline(always)]
pub fn key48(octets: &[u8]) -> Option<u64>
    ensures { result ≡ key48 octets.now }
{
    match octets {
        [a, b, c, d, high, low] => Some(u64::from_be_bytes([0, 0, *a, *b, *c, *d, *high, *low])),
        _ => None,
    }
}

/// The key of the station of these octets, of which each of one to seven has its own: of six octets their
/// number, as [`key48`] says, of others their count times 2 to the power of 56, plus their number. `None` if
/// there are none or more than seven.
pub fn key_of(octets: &[u8]) -> Option<u64>
    ensures { result ≡ key_of octets.now }
{
    let keyed = match octets {
        [a, b, c, d, e, f] => [0, 0, *a, *b, *c, *d, *e, *f],
        [a] => [1, 0, 0, 0, 0, 0, 0, *a],
        [a, b] => [2, 0, 0, 0, 0, 0, *a, *b],
        [a, b, c] => [3, 0, 0, 0, 0, *a, *b, *c],
        [a, b, c, d] => [4, 0, 0, 0, *a, *b, *c, *d],
        [a, b, c, d, e] => [5, 0, 0, *a, *b, *c, *d, *e],
        [a, b, c, d, e, f, g] => [7, *a, *b, *c, *d, *e, *f, *g],
        _ => return None,
    };
    Some(u64::from_be_bytes(keyed))
}

/// The count of octets that the highest octet of a key says.
fn counted(high: u8) -> u8
    ensures { result ≡ counted high }
{
    match high {
        0 => 6,
        6 => 0,
        count => count,
    }
}

/// Whether these octets are all zero.
fn are_zeros(octets: &[u8]) -> bool
    ensures { result ≡ list_all (λ octet. octet == 0) octets.now }
{
    octets.iter().all(|octet| *octet == 0)
}

/// The digit of a number below 16, in upper case.
#[inline(always)]
fn upper_digit(number: u8) -> char
    requires { number < 16 }
    ensures value { result ≡ digit_of number }
    ensures ascii { result < 128 }
{
    if number < 10 {
        char::from(b'0' + number)
    } else {
        char::from(b'A' + (number - 10))
    }
}

/// The first hexadecimal digit of an octet.
#[inline(always)]
fn high_digit(octet: u8) -> u8
    ensures { result ≡ digit_of (octet / 16) }
{
    upper_digit(octet >> 4) as u8
}

/// The second hexadecimal digit of an octet.
#[inline(always)]
fn low_digit(octet: u8) -> u8
    ensures { result ≡ digit_of (octet % 16) }
{
    upper_digit(octet & 15) as u8
}

/// The digits of six octets, two for each.
#[inline(always)]
fn twelve_digits(octets: [u8; 6]) -> [u8; 12]
    ensures { result ≡ flat_map two_digits octets }
{
    let [a, b, c, d, high, low] = octets;
    [
        high_digit(a),
        low_digit(a),
        high_digit(b),
        low_digit(b),
        high_digit(c),
        low_digit(c),
        high_digit(d),
        low_digit(d),
        high_digit(high),
        low_digit(high),
        high_digit(low),
        low_digit(low),
    ]
}

/// The station of these octets, so many.
fn kept(octets: &[u8], len: u8) -> Mac
    requires len { length octets.now ≡ len }
    requires some { 1 ≤ len }
    ensures { result ≡ octets.now }
{
    let octets = with_zeros(octets);
    Mac { octets, len }
}

/// The octets, and zeros after them.
fn with_zeros(octets: &[u8]) -> [u8; 255]
    requires { length octets.now ≤ 255 }
    ensures { result ≡ octets.now ++ replicate (255 - length octets.now) 0 }
{
    let mut kept = [0; 255];
    let (front, _) = kept.split_at_mut(octets.len());
    front.copy_from_slice(octets);
    kept
}

/// A station anywhere: its network, and its address there (clause 6.2.2).
#[derive(Clone, Copy, PartialEq, Eq)]
pub struct Source {
    /// The network.
    pub net: NetNum,
    /// The address on that network.
    pub mac: Mac,
}

impl Source {
    /// Whether it is that station on that network.
    pub fn is_same(&self, other: &Source) -> bool
        ensures { IsTrue result ↔ (self.now ≡ other.now) }
    {
        *self == *other
    }
}
