//! The entries of a broadcast distribution table and of a foreign device table (Annex J.2.2 and
//! J.2.8), ten octets each.

ghost use Rattle.std.specs.Prelude.{◌≡◌};

use crate::bip::BipAddr;

/// An entry of a broadcast distribution table: a broadcast manager, and the mask by which
/// broadcasts are sent on to it (Annex J.2.2).
///
/// ```text
/// +----+----+----+----+----+----+----+----+----+----+
/// |          address            |       mask        |
/// +----+----+----+----+----+----+----+----+----+----+
/// ```
#[derive(Clone, Copy, Debug)]
pub struct BdtEntry {
    /// The address of the broadcast manager.
    pub address: BipAddr,
    /// The broadcast distribution mask, as it is written from left to right.
    pub mask: [u8; 4],
}

impl BdtEntry {
    ghost use Rattle.gw_addr.specs.Entry.{bdt_entry, bdt_octets, IsBdtEntry};

    /// The entry that ten octets spell.
    pub fn from_octets(octets: &[u8; 10]) -> BdtEntry
        ensures found { IsBdtEntry result × (octets.now ≡ bdt_octets result) }
        ensures only { (e : BdtEntry) → IsBdtEntry e → octets.now ≡ bdt_octets e → result ≡ e }
        ensures exact { result ≡ bdt_entry octets.now }
    {
        BdtEntry::entry_of(octets)
    }

    /// The entry, from its reading alone.
    fn entry_of(octets: &[u8; 10]) -> BdtEntry
        ensures { result ≡ bdt_entry octets.now }
    {
        let [a, b, c, d, high, low, mask0, mask1, mask2, mask3] = *octets;
        BdtEntry {
            address: BipAddr::from_octets(&[a, b, c, d, high, low]),
            mask: [mask0, mask1, mask2, mask3],
        }
    }

    /// The ten octets of the entry.
    pub fn to_octets(self) -> [u8; 10]
        ensures spelled { result ≡ bdt_octets self }
        ensures fits { IsBdtEntry self }
    {
        let [a, b, c, d, high, low] = self.address.to_octets();
        let [mask0, mask1, mask2, mask3] = self.mask;
        [a, b, c, d, high, low, mask0, mask1, mask2, mask3]
    }
}

/// An entry of a foreign device table: a registered device, and for how long it stays registered
/// (Annex J.2.8).
///
/// ```text
/// +----+----+----+----+----+----+----+----+----+----+
/// |          address            |  time   | seconds |
/// |                             | to live |  left   |
/// +----+----+----+----+----+----+----+----+----+----+
/// ```
#[derive(Clone, Copy, Debug)]
pub struct FdtEntry {
    /// The address of the foreign device.
    pub address: BipAddr,
    /// The time to live that it registered with, in seconds.
    pub time_to_live: u16,
    /// The seconds until it is taken from the table.
    pub remaining: u16,
}

impl FdtEntry {
    ghost use Rattle.gw_addr.specs.Entry.{fdt_entry, fdt_octets, IsFdtEntry};

    /// The entry that ten octets spell.
    pub fn from_octets(octets: &[u8; 10]) -> FdtEntry
        ensures found { IsFdtEntry result × (octets.now ≡ fdt_octets result) }
        ensures only { (e : FdtEntry) → IsFdtEntry e → octets.now ≡ fdt_octets e → result ≡ e }
        ensures exact { result ≡ fdt_entry octets.now }
    {
        FdtEntry::entry_of(octets)
    }

    /// The entry, from its reading alone.
    fn entry_of(octets: &[u8; 10]) -> FdtEntry
        ensures { result ≡ fdt_entry octets.now }
    {
        let [a, b, c, d, e, f, live0, live1, left0, left1] = *octets;
        FdtEntry {
            address: BipAddr::from_octets(&[a, b, c, d, e, f]),
            time_to_live: u16::from_be_bytes([live0, live1]),
            remaining: u16::from_be_bytes([left0, left1]),
        }
    }

    /// The ten octets of the entry.
    pub fn to_octets(self) -> [u8; 10]
        ensures spelled { result ≡ fdt_octets self }
        ensures fits { IsFdtEntry self }
    {
        let [a, b, c, d, e, f] = self.address.to_octets();
        let [live0, live1] = self.time_to_live.to_be_bytes();
        let [left0, left1] = self.remaining.to_be_bytes();
        [a, b, c, d, e, f, live0, live1, left0, left1]
    }
}
