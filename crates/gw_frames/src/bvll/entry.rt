//! Entries of tables, ten octets each, read and written alike whatever the table.

ghost use Rattle.std.specs.Prelude.{◌≡◌, ◌+◌, ◌++◌, ◌*◌, ◌≤◌, length, List, ℕ, vec_len, IsOk, OnOk};
ghost use Rattle.std.specs.List.{flat_map, AllByRecursion};
ghost use Rattle.std.specs.Vec.{vec_capacity};
ghost use Rattle.gw_addr.specs.Reading.{Keeps};
ghost use Rattle.gw_frames.specs.bvll.Tens.{ReadsTen};

use gw_addr::{BdtEntry, FdtEntry, put_slice};
use std::alloc::AllocError;

/// An entry of a table, ten octets.
pub trait Entry: Copy {
    ghost entry_of: { List ℕ → Self };

    ghost encoding: { Self → List ℕ };

    ghost IsEntry: { Self → Type 0 };

    /// The entry that ten octets are.
    fn read(octets: &[u8; 10]) -> Self
        ensures { result ≡ entry_of octets.now };

    /// The ten octets of the entry.
    fn octets(self) -> [u8; 10]
        ensures encoded { result ≡ encoding self }
        ensures fits { IsEntry self };

    ghost reads: { ReadsTen encoding entry_of IsEntry };
}

impl Entry for BdtEntry {
    ghost use Rattle.gw_addr.specs.Entry.{bdt_entry, bdt_octets, IsBdtEntry};
    ghost use Rattle.gw_frames.specs.bvll.internal.Reads.{reads_bdt};

    ghost entry_of = { bdt_entry };

    ghost encoding = { bdt_octets };

    ghost IsEntry = { IsBdtEntry };

    ghost reads = { reads_bdt };

    fn read(octets: &[u8; 10]) -> BdtEntry {
        BdtEntry::from_octets(octets)
    }

    fn octets(self) -> [u8; 10] {
        self.to_octets()
    }
}

impl Entry for FdtEntry {
    ghost use Rattle.gw_addr.specs.Entry.{fdt_entry, fdt_octets, IsFdtEntry};
    ghost use Rattle.gw_frames.specs.bvll.internal.Reads.{reads_fdt};

    ghost entry_of = { fdt_entry };

    ghost encoding = { fdt_octets };

    ghost IsEntry = { IsFdtEntry };

    ghost reads = { reads_fdt };

    fn read(octets: &[u8; 10]) -> FdtEntry {
        FdtEntry::from_octets(octets)
    }

    fn octets(self) -> [u8; 10] {
        self.to_octets()
    }
}

/// Appends the octets of entries, ten octets each, for an answer to lend: `Entries::from_octets`
/// gives the entries of what was appended to an empty buffer. An `Err` only if the buffer had no
/// room; then it may hold a front of them.
pub fn put_entries<E: Entry>(out: &mut Vec<u8>, entries: &[E]) -> Result<(), AllocError>
    ensures ok { OnOk result (out.new.items ≡ out.old.items ++ flat_map E.encoding entries.now) }
    ensures fit { OnOk result (AllByRecursion E.IsEntry entries.now) }
    ensures front { Keeps out.old.items out.new.items }
    ensures room { vec_len out.old + 10 * length entries.now ≤ vec_capacity out.old → IsOk result }
    ensures capacity { vec_capacity out.old ≤ vec_capacity out.new }
{
    for entry in entries {
        put_slice(out, &entry.octets())?;
    }
    Ok(())
}
