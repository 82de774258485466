//! What can't be meant of an address, and the line that says it.
ghost use Rattle.std.specs.Prelude.{◌++◌};
ghost use Rattle.gw_addr.specs.Address.{text_of};
ghost use Rattle.gw_addr.specs.Appending.{IsAppended};
ghost use Rattle.gw_policy_review.specs.warnings.Warnings.{holes_line, line, line_where, mask_line, oddity_words, owned_line};

use crate::warnings::spot::{Spot, put_numbered, put_spot};
use crate::warnings::subnet::has_holes;
use gw_addr::{BipAddr, Mask, put_octet, put_slice};
use std::alloc::AllocError;

/// What can't be meant of an address. The numbers of ports are positions, from 0.
#[derive(Clone, Copy)]
pub(crate) enum Oddity {
    /// Its UDP port is 0.
    ZeroPort,
    /// Its UDP port is from 1 to 1023.
    LowPort,
    /// It is an address of many.
    Multicast,
    /// Its UDP port isn't that of this own address.
    OtherPort(BipAddr),
    /// No subnet that holds this own address has it as its broadcast address.
    OffSubnet(BipAddr),
    /// It broadcasts on whatever network a datagram goes out.
    Limited,
    /// It is the broadcast address of this port.
    IsBroadcast(usize),
    /// It is the own address of this port.
    IsOwn(usize),
    /// It is on none of the subnets that this port may be on.
    Elsewhere(usize),
}

/// Appends words, and an address after them.
fn put_with(out: &mut Vec<u8>, words: &[u8], address: BipAddr) -> Result<(), AllocError>
    ensures { IsAppended (words.now ++ text_of address) out.old out.new result }
{
    put_slice(out, words)?;
    address.put_text(out)
}

/// Appends what is odd, a space before it.
fn put_oddity(out: &mut Vec<u8>, oddity: Oddity) -> Result<(), AllocError>
    ensures { IsAppended (oddity_words oddity) out.old out.new result }
{
    match oddity {
        Oddity::ZeroPort => put_slice(out, b" has UDP port 0"),
        Oddity::LowPort => {
            put_slice(
                out,
                b" has a UDP port below 1024, which is another service's",
            )
        }
        Oddity::Multicast => put_slice(out, b" is a multicast address"),
        Oddity::OtherPort(own) => put_with(out, b" has another UDP port than ", own),
        Oddity::OffSubnet(own) => put_with(out, b" is the broadcast address of no subnet of ", own),
        Oddity::Limited => put_slice(out, b" broadcasts on no network in particular"),
        Oddity::IsBroadcast(port) => put_numbered(out, b" is the broadcast address of port ", port),
        Oddity::IsOwn(port) => put_numbered(out, b" is the own address of port ", port),
        Oddity::Elsewhere(port) => put_numbered(out, b" is off the subnet of port ", port),
    }
}

/// Appends the line of an address.
fn put_line(
    out: &mut Vec<u8>,
    spot: Spot,
    address: BipAddr,
    oddity: Oddity,
) -> Result<(), AllocError>
    ensures { IsAppended (line spot address oddity) out.old out.new result }
{
    put_slice(out, b"warning: ")?;
    put_spot(out, spot)?;
    address.put_text(out)?;
    put_oddity(out, oddity)?;
    put_octet(out, b'\n')
}

/// Appends the line of an address where the test of it holds.
pub(crate) fn put_where(
    out: &mut Vec<u8>,
    holds: bool,
    spot: Spot,
    address: BipAddr,
    oddity: Oddity,
) -> Result<(), AllocError>
    ensures { IsAppended (line_where holds spot address oddity) out.old out.new result }
{
    if holds {
        put_line(out, spot, address, oddity)
    } else {
        Ok(())
    }
}

/// Appends the line of an address that is the own one of a port, where there is such a port.
pub(crate) fn put_owned(
    out: &mut Vec<u8>,
    spot: Spot,
    address: BipAddr,
    owner: Option<usize>,
) -> Result<(), AllocError>
    ensures { IsAppended (owned_line spot address owner) out.old out.new result }
{
    match owner {
        Some(port) => put_line(out, spot, address, Oddity::IsOwn(port)),
        None => Ok(()),
    }
}

/// Appends the line of a mask where it has holes.
pub(crate) fn put_mask(out: &mut Vec<u8>, spot: Spot, mask: [u8; 4]) -> Result<(), AllocError>
    ensures { IsAppended (mask_line spot mask) out.old out.new result }
{
    if has_holes(mask) {
        put_holes(out, spot, mask)
    } else {
        Ok(())
    }
}

/// Appends the line of a mask.
fn put_holes(out: &mut Vec<u8>, spot: Spot, mask: [u8; 4]) -> Result<(), AllocError>
    ensures { IsAppended (holes_line spot mask) out.old out.new result }
{
    put_slice(out, b"warning: ")?;
    put_spot(out, spot)?;
    Mask { octets: mask }.put_text(out)?;
    put_slice(out, b" has holes: a mask is ones and then zeros")?;
    put_octet(out, b'\n')
}
