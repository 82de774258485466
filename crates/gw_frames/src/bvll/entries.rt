//! Lists of table entries, as Write-BDT, Read-BDT-Ack and Read-FDT-Ack carry them (Annex J.2.2,
//! J.2.4 and J.2.8).

ghost use Rattle.std.specs.Prelude.{◌≡◌, ◌≢◌, ◌↔◌, ◌%◌, [], length, List};
ghost use Rattle.std.specs.Prelude.{IsTrue, IsNone, IfSome, IsSomeAnd};
ghost use Rattle.std.specs.List.{flat_map, AllByRecursion};
ghost use Rattle.std.specs.Iterator.{YieldsFirst, item_count};
ghost use Rattle.gw_addr.specs.Reading.{AreOctets};

use crate::bvll::entry::Entry;
use gw_addr::{BdtEntry, FdtEntry};
use std::alloc::AllocError;
use std::marker::PhantomData;

/// The entries of a table, lent as their octets.
#[derive_where(Debug)]
pub struct Entries<'a, E> {
    octets: &'a [u8],
    kind: PhantomData<E>,
    pub ghost whole: { length octets.now % 10 ≡ 0 },
    pub ghost octets_fit: { AreOctets octets.now },
}

impl<'a, E> Clone for Entries<'a, E> {
    ghost use Rattle.std.specs.Prelude.{⊤};

    ghost is_clone = { λ x y. y ≡ x };

    ghost is_infallible = { λ _. ⊤ };

    fn clone(&self) -> Result<Entries<'a, E>, AllocError> {
        Ok(*self)
    }
}

impl<'a, E> Copy for Entries<'a, E> {}

/// The entries of a broadcast distribution table (Annex J.2.2 and J.2.4).
pub type BdtEntries<'a> = Entries<'a, BdtEntry>;

/// The entries of a foreign device table (Annex J.2.8).
pub type FdtEntries<'a> = Entries<'a, FdtEntry>;

impl<'a, E: Entry> Entries<'a, E> {
    ghost use Rattle.gw_frames.specs.bvll.Tens.{entries_at};
    ghost use Rattle.gw_frames.specs.bvll.Entries.{lent, left};

    /// The entries that octets are, ten octets each. `None` if the octets are no multiple of
    /// ten.
    pub fn from_octets(octets: &'a [u8]) -> Option<Entries<'a, E>>
        ensures found { IfSome result (λ x. octets.now ≡ flat_map E.encoding (lent E.entry_of x)) }
        ensures only { (entries : List E) → AllByRecursion E.IsEntry entries
            → octets.now ≡ flat_map E.encoding entries
            → IsSomeAnd result (λ x. lent E.entry_of x ≡ entries) }
        ensures none { IsNone result ↔ (length octets.now % 10 ≢ 0) }
        ensures exact { IfSome result (λ x. lent E.entry_of x ≡ entries_at E.entry_of octets.now) }
    {
        if octets.len() % 10 != 0 {
            return None;
        }
        Some(Entries {
            octets,
            kind: PhantomData,
        })
    }

    /// The octets of the entries, one after another.
    pub fn as_octets(&self) -> &'a [u8]
        ensures encoded { result.now ≡ flat_map E.encoding (lent E.entry_of self.now) }
        ensures fit { AllByRecursion E.IsEntry (lent E.entry_of self.now) }
    {
        &self.octets[..]
    }

    /// How many entries there are.
    pub fn len(&self) -> usize
        ensures { result ≡ length (lent E.entry_of self.now) }
    {
        self.octets.len() / 10
    }

    /// Whether there is no entry.
    pub fn is_empty(&self) -> bool
        ensures { IsTrue result ↔ (lent E.entry_of self.now ≡ []) }
    {
        self.octets.is_empty()
    }

    /// The entries in order.
    pub fn iter(&self) -> EntryIter<'a, E>
        ensures { left E.entry_of result ≡ lent E.entry_of self.now }
    {
        EntryIter {
            octets: self.octets,
            kind: PhantomData,
        }
    }
}

/// The iterator over the entries of a table.
#[derive(Drop)]
#[derive_where(Clone)]
pub struct EntryIter<'a, E> {
    octets: &'a [u8],
    kind: PhantomData<E>,
}

impl<'a, E: Entry> Iterator for EntryIter<'a, E> {
    ghost use Rattle.gw_frames.specs.bvll.Entries.{left};

    type Item = E;

    ghost next_gives = { YieldsFirst (left E.entry_of) };

    ghost remaining = { item_count (left E.entry_of) };

    fn next(&mut self) -> Option<E> {
        let (first, rest) = self.octets.split_first_chunk::<10>()?;
        self.octets = rest;
        Some(E::read(first))
    }
}
