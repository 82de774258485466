//! Subnets of the IPv4 addresses, as they are written: `a.b.c.d/n`.

ghost use Rattle.std.specs.Prelude.{◌≡◌, ◌++◌, ◌<◌, ◌≤◌, ◌^◌, find, OnOk};
ghost use Rattle.gw_policy_drafts.specs.migration.Items.{host_text, is_ended, is_whole, prefixes, size_of, subnet_text};
ghost use Rattle.gw_policy_drafts.specs.migration.Ports.{host_of};

use gw_addr::{BipAddr, Mask, put_decimal};
use std::alloc::AllocError;

/// The lengths of the prefixes of subnets of several addresses, the smallest subnet first.
const PREFIXES: [u8; 32] = [
    31, 30, 29, 28, 27, 26, 25, 24, 23, 22, 21, 20, 19, 18, 17, 16, 15, 14, 13, 12, 11, 10, 9, 8,
    7, 6, 5, 4, 3, 2, 1, 0,
];

/// How many addresses have the same first bits, so many.
pub(crate) fn size_of(prefix: u8) -> u64
    ensures size { result ≡ size_of prefix }
    ensures some { 0 < result }
    ensures most { result ≤ 2 ^ 32 }
{
    1u64 << 32u8.saturating_sub(prefix)
}

/// Whether the addresses from one to another are a subnet, whose addresses have the same first bits, so many.
fn is_whole(first: u64, last: u64, prefix: u8) -> bool
    ensures { result ≡ is_whole first last prefix }
{
    let size = size_of(prefix);
    first % size == 0 && first <= last && last - first == size - 1
}

/// The prefix of the subnet that the addresses from one to another are, where they are one of several addresses.
pub(crate) fn whole_prefix(first: u64, last: u64) -> Option<u8>
    ensures { result ≡ find (is_whole first last) prefixes }
{
    PREFIXES
        .iter()
        .copied()
        .find(|prefix| is_whole(first, last, *prefix))
}

/// Whether the subnet of so many first bits that has the one address ends with the other one.
fn is_ended(address: u64, broadcast: u64, prefix: u8) -> bool
    ensures { result ≡ is_ended address broadcast prefix }
{
    let size = size_of(prefix);
    address / size == broadcast / size && broadcast % size == size - 1
}

/// The prefix of the smallest subnet that an address shares with the one to which its broadcasts go, where the latter is the
/// subnet's last (Annex J.1.2). `None` where there is no such subnet, or the two are the same.
pub(crate) fn shared_prefix(address: u64, broadcast: u64) -> Option<u8>
    ensures { result ≡ find (is_ended address broadcast) prefixes }
{
    PREFIXES
        .iter()
        .copied()
        .find(|prefix| is_ended(address, broadcast, *prefix))
}

/// The four octets of an address as one number.
pub(crate) fn host_of(address: BipAddr) -> u64
    ensures { result ≡ host_of address }
{
    u64::from(u32::from_be_bytes(address.ip))
}

/// Appends the IPv4 address of that number.
pub(crate) fn put_host(out: &mut Vec<u8>, host: u64) -> Result<(), AllocError>
    ensures { OnOk result (out.new.items ≡ out.old.items ++ host_text host) }
{
    let [_, _, _, _, a, b, c, d] = host.to_be_bytes();
    let four = Mask {
        octets: [a, b, c, d],
    };
    four.put_text(out)
}

/// Appends the subnet of an address, of so many first bits.
pub(crate) fn put_subnet(out: &mut Vec<u8>, host: u64, prefix: u8) -> Result<(), AllocError>
    ensures { OnOk result (out.new.items ≡ out.old.items ++ subnet_text host prefix) }
{
    put_host(out, host - host % size_of(prefix))?;
    out.push(b'/')?;
    put_decimal(out, prefix)
}
