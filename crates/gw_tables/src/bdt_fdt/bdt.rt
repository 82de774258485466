//! The broadcast distribution table (Annex J.4).
ghost use Rattle.std.specs.Prelude.{◌≡◌, ◌↔◌, ◌<◌, ◌+◌, ◌&&◌, ◌||◌, [], length, not};
ghost use Rattle.std.specs.Prelude.{position, find, take, drop, option_copied};
ghost use Rattle.std.specs.Prelude.{IsTrue, IsFalse, IfOk, IfSome, IsOk, IsErrOf};
ghost use Rattle.std.specs.List.{list_any};
ghost use Rattle.std.specs.Iterator.{YieldsFirstRef, item_count};
ghost use Rattle.gw_tables.specs.bdt_fdt.internal.Iterators.{peers_left};
ghost use Rattle.gw_tables.specs.bdt_fdt.Peers.{are_too_many, has_twice, is_of, own_mask, peers};

use crate::bdt_fdt::fault::BdtFault;
use gw_addr::{BdtEntry, BipAddr};
use std::alloc::{AllocError, Global};
use std::marker::Model;

/// How many entries a table has at most (a limit of our own).
pub const MAX_ENTRIES: usize = 64;

/// The mask by which a broadcast goes to a broadcast manager itself: all ones (Annex J.4.3.2).
const ALL_ONES: [u8; 4] = [255, 255, 255, 255];

/// The broadcast managers of a BACnet/IP network, each with its mask (Annex J.4.2): at most 64
/// entries, of which no two have one address. Contracts see the list of them.
#[derive(Drop)]
pub struct Bdt {
    entries: Vec<BdtEntry>,
}

impl Model for Bdt {
    ghost use Rattle.std.specs.Prelude.{List, IsFalse};
    ghost use Rattle.gw_addr.specs.declared.entry.BdtEntry.{BdtEntry};
    ghost use Rattle.gw_tables.specs.bdt_fdt.Peers.{are_too_many, has_twice};

    ghost Value = { List BdtEntry };

    ghost view = { λ a. a.entries.items };

    ghost invariant = { λ a. let items = a.entries.items in
        IsFalse (are_too_many items) × IsFalse (has_twice items) };
}

impl Bdt {
    /// The table of these entries, in their order; there may be none.
    ///
    /// The faults are our own rules: `Full` if there are more than 64; else `Duplicate` if an
    /// address is in two of them; else `Memory` if there is no memory for them.
    pub fn from_entries(alloc: Global, entries: &[BdtEntry]) -> Result<Self, BdtFault>
        ensures ok { IfOk result (λ table. table ≡ entries.now) }
        ensures full { IsErrOf result BdtFault.Full ↔ IsTrue (are_too_many entries.now) }
        ensures duplicate { IsErrOf result BdtFault.Duplicate ↔
            IsTrue (not (are_too_many entries.now) && has_twice entries.now) }
        ensures none { entries.now ≡ [] → IsOk result }
    {
        if entries.len() > MAX_ENTRIES {
            return Err(BdtFault::Full);
        }
        if repeats_address(entries) {
            return Err(BdtFault::Duplicate);
        }
        let mut kept = Vec::new(alloc);
        match kept.extend_from_slice(entries) {
            Ok(()) => Ok(Bdt { entries: kept }),
            Err(_) => Err(BdtFault::Memory),
        }
    }

    /// The table of these entries, in their order, which it takes over: it wants no memory. The
    /// faults are judged as by [`Bdt::from_entries`], and the entries are dropped then.
    pub fn from_vec(entries: Vec<BdtEntry>) -> Result<Self, BdtFault>
        ensures ok { IfOk result (λ table. table ≡ entries.items) }
        ensures accepted { IsOk result ↔
            IsFalse (are_too_many entries.items || has_twice entries.items) }
        ensures full { IsErrOf result BdtFault.Full ↔ IsTrue (are_too_many entries.items) }
        ensures duplicate { IsErrOf result BdtFault.Duplicate ↔
            IsTrue (not (are_too_many entries.items) && has_twice entries.items) }
    {
        if entries.len() > MAX_ENTRIES {
            return Err(BdtFault::Full);
        }
        if repeats_address(&entries) {
            return Err(BdtFault::Duplicate);
        }
        Ok(Bdt { entries })
    }

    /// An equal table. The only fault is want of memory for it, if it isn't empty.
    pub fn copy(&self, alloc: Global) -> Result<Bdt, AllocError>
        ensures equal { IfOk result (λ copy. copy ≡ self.now) }
        ensures none { self.now ≡ [] → IsOk result }
    {
        let mut entries = Vec::new(alloc);
        entries.extend_from_slice(self.entries.as_slice())?;
        Ok(Bdt { entries })
    }

    /// The entries in their order.
    pub fn entries(&self) -> &[BdtEntry]
        ensures entries { result.now ≡ self.now }
        ensures few { IsFalse (are_too_many self.now) }
        ensures once { IsFalse (has_twice self.now) }
    {
        self.entries.as_slice()
    }

    /// The entries but that of the table's own broadcast manager, in their order (Annex J.4.2).
    pub fn peers(&self, own: BipAddr) -> Peers<'_>
        ensures { peers_left result ≡ peers own self.now }
    {
        let entries = self.entries.as_slice();
        match place_of(entries, own) {
            Some(place) => Peers {
                before: entries_before(entries, place),
                behind: entries_behind(entries, place),
            },
            None => Peers {
                before: entries,
                behind: &[],
            },
        }
    }

    /// The mask of the own entry, all ones if there is none (that is our own rule).
    pub fn own_mask(&self, own: BipAddr) -> [u8; 4]
        ensures { result ≡ own_mask own self.now }
    {
        match entry_of(&self.entries, own) {
            Some(entry) => entry.mask,
            None => ALL_ONES,
        }
    }
}

/// The entries of a table but its own one.
#[derive(Clone, Drop)]
pub struct Peers<'a> {
    before: &'a [BdtEntry],
    behind: &'a [BdtEntry],
}

impl<'a> Iterator for Peers<'a> {
    ghost use Rattle.gw_tables.specs.bdt_fdt.internal.Iterators.{peers_left};

    type Item = &'a BdtEntry;

    ghost next_gives = { YieldsFirstRef peers_left };

    ghost remaining = { item_count peers_left };

    fn next(&mut self) -> Option<&'a BdtEntry> {
        if let Some((first, others)) = self.before.split_first() {
            self.before = others;
            return Some(first);
        }
        let (first, others) = self.behind.split_first()?;
        self.behind = others;
        Some(first)
    }
}

/// The place of the entry of an address.
fn place_of(entries: &[BdtEntry], address: BipAddr) -> Option<usize>
    ensures place { result ≡ position (is_of address) entries.now }
    ensures within { IfSome result (λ place. place < length entries.now) }
{
    entries.iter().position(|entry| address == entry.address)
}

/// The entries before a place.
fn entries_before(entries: &[BdtEntry], place: usize) -> &[BdtEntry]
    requires { place < length entries.now }
    ensures { result.now ≡ take place entries.now }
{
    &entries[..place]
}

/// The entries after a place.
fn entries_behind(entries: &[BdtEntry], place: usize) -> &[BdtEntry]
    requires { place < length entries.now }
    ensures { result.now ≡ drop (place + 1) entries.now }
{
    &entries[place + 1..]
}

/// The entry of an address.
fn entry_of(entries: &[BdtEntry], address: BipAddr) -> Option<&BdtEntry>
    ensures { option_copied result ≡ find (is_of address) entries.now }
{
    entries.iter().find(|entry| address == entry.address)
}

/// Whether an address has an entry.
fn has_entry(entries: &[BdtEntry], address: BipAddr) -> bool
    ensures { result ≡ list_any (is_of address) entries.now }
{
    entries.iter().any(|entry| address == entry.address)
}

/// Whether an address is in two entries.
fn repeats_address(entries: &[BdtEntry]) -> bool
    ensures { result ≡ has_twice entries.now }
{
    for place in 0..entries.len() {
        if has_entry(&entries[place + 1..], entries[place].address) {
            return true;
        }
    }
    false
}
