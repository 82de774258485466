//! Reading from the front of octets, each value with the octets after it. The fault if there
//! are too few octets is the caller's.

ghost use Rattle.std.specs.Prelude.{◌≡◌, length, IfOk};
ghost use Rattle.std.specs.Int.{w16, w32};
ghost use Rattle.gw_addr.specs.Address.{address_at};
ghost use Rattle.gw_addr.specs.Reading.{Gives, octet_at, front_at, number_at};

use crate::bip::BipAddr;
use byteorder::{BigEndian, ByteOrder};

/// An octet, and the octets after it. The fault is `short`, the caller's, if there is none.
pub fn octet<F: Copy>(short: F, octets: &[u8]) -> Result<(u8, &[u8]), F>
    ensures { Gives (λ x. (x.0, x.1.now)) result (octet_at short octets.now) }
{
    let (first, rest) = octets.split_first().ok_or(short)?;
    Ok((*first, rest))
}

/// A number of two octets, the first its highest, and the octets after it. The fault is `short`,
/// the caller's, if there are fewer.
pub fn number<F: Copy>(short: F, octets: &[u8]) -> Result<(u16, &[u8]), F>
    ensures { Gives (λ x. (x.0, x.1.now)) result (number_at short w16 octets.now) }
{
    if octets.len() < 2 {
        return Err(short);
    }
    let (front, rest) = octets.split_at(2);
    Ok((BigEndian::read_u16(front), rest))
}

/// A number of four octets, the first its highest, and the octets after it. The fault is `short`,
/// the caller's, if there are fewer.
pub fn long_number<F: Copy>(short: F, octets: &[u8]) -> Result<(u32, &[u8]), F>
    ensures { Gives (λ x. (x.0, x.1.now)) result (number_at short w32 octets.now) }
{
    if octets.len() < 4 {
        return Err(short);
    }
    let (front, rest) = octets.split_at(4);
    Ok((BigEndian::read_u32(front), rest))
}

/// The first `count` octets, and those after them. The fault is `short`, the caller's, if there
/// are fewer.
pub fn front<F: Copy>(short: F, count: usize, octets: &[u8]) -> Result<(&[u8], &[u8]), F>
    ensures read { Gives (λ x. (x.0.now, x.1.now)) result (front_at short count octets.now) }
    ensures len { IfOk result (λ x. length x.0.now ≡ count) }
{
    if octets.len() < count {
        return Err(short);
    }
    Ok(octets.split_at(count))
}

/// A BACnet/IP address of six octets (Annex J.1.2), and the octets after it. The fault is `short`,
/// the caller's, if there are fewer.
pub fn address<F: Copy>(short: F, octets: &[u8]) -> Result<(BipAddr, &[u8]), F>
    ensures { Gives (λ x. (x.0, x.1.now)) result (address_at short octets.now) }
{
    let (first, rest) = octets.split_first_chunk::<6>().ok_or(short)?;
    Ok((BipAddr::from_octets(first), rest))
}
