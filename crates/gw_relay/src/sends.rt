//! Datagrams to send. A message is kept once, whomever it goes to: a broadcast to many addresses
//! takes the octets of one.

ghost use Rattle.std.specs.Prelude.{◌≡◌, ◌+◌, ◌^◌, ◌<◌, ◌≤◌, ◌++◌, ◌∷◌, ℕ, [], length, take, vec_len};
ghost use Rattle.std.specs.Prelude.{IfOk, IfSome, IsOk, OnOk, OnErr};
ghost use Rattle.std.specs.List.{flat_map};
ghost use Rattle.std.specs.Vec.{vec_capacity};
ghost use Rattle.gw_relay.specs.Sends.{sendings, sendings_of};
ghost use Rattle.gw_relay.specs.internal.Batches.{batches_of};

use gw_addr::BipAddr;
use std::alloc::{AllocError, Global};
use std::marker::Model;
use std::mem;

/// How many octets a buffer for a message has room for at least.
pub const BUFFER_ROOM: usize = 1000;
/// How many octets a buffer that is kept has room for at most.
pub const KEPT_ROOM: usize = 4096;
/// How many addresses a broadcast goes to at most: that of the port's network, 64 peers and 128 foreign devices.
const MOST_TARGETS: usize = 193;

/// Whom a message goes to. One address takes no memory.
#[derive(Drop)]
enum Targets {
    One([BipAddr; 1]),
    Many(Vec<BipAddr>),
}

/// One message, and whom it is sent to in order.
#[derive(Drop)]
pub struct Batch {
    port: u8,
    targets: Targets,
    octets: Vec<u8>,
}

impl Model for Batch {
    ghost use Rattle.gw_relay.specs.Sends.{Batch};

    ghost Value = { Batch };

    ghost use Rattle.gw_relay.specs.internal.Targets.{addresses_of};

    ghost view = { λ b. record {
      port = b.port;
      targets = addresses_of b.targets;
      octets = b.octets.items;
    } };
}

impl Batch {
    /// A message to one address, on the port of this number, from 1.
    pub fn to_one(port: u8, target: BipAddr, octets: Vec<u8>) -> Self
        ensures port { result.port ≡ port }
        ensures targets { result.targets ≡ target ∷ [] }
        ensures octets { result.octets ≡ octets.items }
    {
        Batch {
            port,
            targets: Targets::One([target]),
            octets,
        }
    }

    /// A message to each of the addresses, on the port of this number, from 1.
    pub fn to_each(port: u8, targets: Vec<BipAddr>, octets: Vec<u8>) -> Self
        ensures port { result.port ≡ port }
        ensures targets { result.targets ≡ targets.items }
        ensures octets { result.octets ≡ octets.items }
    {
        Batch {
            port,
            targets: Targets::Many(targets),
            octets,
        }
    }

    /// The number of the port to send it on, from 1.
    pub fn port(&self) -> u8
        ensures { result ≡ self.now.port }
    {
        self.port
    }

    /// Whom to send it to, in order.
    pub fn targets(&self) -> &[BipAddr]
        ensures { result.now ≡ self.now.targets }
    {
        match &self.targets {
            Targets::One(target) => target,
            Targets::Many(targets) => targets.as_slice(),
        }
    }

    /// What it holds.
    pub fn octets(&self) -> &[u8]
        ensures { result.now ≡ self.now.octets }
    {
        self.octets.as_slice()
    }

    /// Its buffer, emptied, if that has room for so many octets, and for no more than are kept.
    #[inline(always)]
    fn give_buffer(&mut self, room: usize) -> Option<Vec<u8>>
        ensures empty { IfSome result (λ octets. octets.items ≡ []) }
        ensures least { IfSome result (λ octets. room ≤ vec_capacity octets) }
        ensures most { IfSome result (λ octets. vec_capacity octets ≤ KEPT_ROOM) }
    {
        if self.octets.capacity() < room || self.octets.capacity() > KEPT_ROOM {
            return None;
        }
        let none = Vec::new(*self.octets.allocator());
        let mut octets = mem::replace(&mut self.octets, none);
        octets.clear();
        Some(octets)
    }

    /// Puts an empty buffer into the place of its own.
    #[inline(always)]
    fn keep_buffer(&mut self, octets: Vec<u8>) {
        self.octets = octets;
    }

    /// Its list of addresses, emptied, if that has room for so many, and for no more than a broadcast goes to.
    #[inline(always)]
    fn give_targets(&mut self, room: usize) -> Option<Vec<BipAddr>>
        ensures empty { IfSome result (λ targets. targets.items ≡ []) }
        ensures least { IfSome result (λ targets. room ≤ vec_capacity targets) }
        ensures most { IfSome result (λ targets. vec_capacity targets ≤ MOST_TARGETS) }
    {
        let Targets::Many(held) = &mut self.targets else {
            return None;
        };
        if held.capacity() < room || held.capacity() > MOST_TARGETS {
            return None;
        }
        let none = Vec::new(*held.allocator());
        let mut targets = mem::replace(held, none);
        targets.clear();
        Some(targets)
    }
}

/// The messages of a list, and after them those of an earlier one, whose memory is used again. One message takes no
/// memory.
#[derive(Drop)]
enum Batches {
    None,
    One([Batch; 1]),
    Many(Vec<Batch>),
}

impl Batches {
    /// The messages, lent.
    fn as_slice(&self) -> &[Batch]
        ensures { result.now ≡ batches_of self.now }
    {
        match self {
            Batches::None => &[],
            Batches::One(batch) => batch,
            Batches::Many(batches) => batches.as_slice(),
        }
    }

    /// Puts a message after so many. An `Err` if there is no memory for it: they are as before. The first needs none.
    #[inline(always)]
    fn put(&mut self, alloc: Global, place: usize, batch: Batch) -> Result<(), AllocError>
        requires { place ≤ length (batches_of self.old) }
        ensures ok { OnOk result (take (place + 1) (batches_of self.new) ≡ take place (batches_of self.old) ++ batch ∷ []) }
        ensures err { OnErr result (batches_of self.new ≡ batches_of self.old) }
        ensures first { place ≡ 0 → IsOk result }
    {
        if place >= self.as_slice().len() {
            return self.append(alloc, batch);
        }
        match self {
            Batches::None => {}
            Batches::One(held) => held[place] = batch,
            Batches::Many(all) => all[place] = batch,
        }
        Ok(())
    }

    /// Adds a message after them. An `Err` if there is no memory for it: they are as before. The first needs none.
    #[inline(never)]
    fn append(&mut self, alloc: Global, batch: Batch) -> Result<(), AllocError>
        ensures ok { OnOk result (batches_of self.new ≡ batches_of self.old ++ batch ∷ []) }
        ensures err { OnErr result (batches_of self.new ≡ batches_of self.old) }
        ensures first { batches_of self.old ≡ [] → IsOk result }
    {
        if self.as_slice().is_empty() {
            *self = Batches::One([batch]);
            return Ok(());
        }
        if let Batches::Many(all) = self {
            all.push(batch)?;
            return Ok(());
        }
        let mut all = room_for_two(alloc)?;
        mem::replace(self, Batches::None).move_to(&mut all)?;
        all.push(batch)?;
        *self = Batches::Many(all);
        Ok(())
    }

    /// The buffer of the message at a place, emptied, if it has room for so many octets. The messages before it stay.
    #[inline(always)]
    fn give_buffer(&mut self, place: usize, room: usize) -> Option<Vec<u8>>
        ensures empty { IfSome result (λ octets. octets.items ≡ []) }
        ensures least { IfSome result (λ octets. room ≤ vec_capacity octets) }
        ensures most { IfSome result (λ octets. vec_capacity octets ≤ KEPT_ROOM) }
        ensures len { length (batches_of self.new) ≡ length (batches_of self.old) }
        ensures stay { (n : ℕ) → n ≤ place → take n (batches_of self.new) ≡ take n (batches_of self.old) }
    {
        if place >= self.as_slice().len() {
            return None;
        }
        match self {
            Batches::None => None,
            Batches::One(held) => held[place].give_buffer(room),
            Batches::Many(all) => all[place].give_buffer(room),
        }
    }

    /// Puts a buffer into the place of that of the message at a place, if there is one. The messages before it stay.
    #[inline(always)]
    fn keep_buffer(&mut self, place: usize, octets: Vec<u8>)
        ensures len { length (batches_of self.new) ≡ length (batches_of self.old) }
        ensures stay { (n : ℕ) → n ≤ place → take n (batches_of self.new) ≡ take n (batches_of self.old) }
    {
        if place >= self.as_slice().len() {
            return;
        }
        match self {
            Batches::None => {}
            Batches::One(held) => held[place].keep_buffer(octets),
            Batches::Many(all) => all[place].keep_buffer(octets),
        }
    }

    /// The list of addresses of the message at a place, emptied, if it has room for so many. The messages before it stay.
    #[inline(always)]
    fn give_targets(&mut self, place: usize, room: usize) -> Option<Vec<BipAddr>>
        ensures empty { IfSome result (λ targets. targets.items ≡ []) }
        ensures least { IfSome result (λ targets. room ≤ vec_capacity targets) }
        ensures most { IfSome result (λ targets. vec_capacity targets ≤ MOST_TARGETS) }
        ensures len { length (batches_of self.new) ≡ length (batches_of self.old) }
        ensures stay { (n : ℕ) → n ≤ place → take n (batches_of self.new) ≡ take n (batches_of self.old) }
    {
        if place >= self.as_slice().len() {
            return None;
        }
        match self {
            Batches::None => None,
            Batches::One(held) => held[place].give_targets(room),
            Batches::Many(all) => all[place].give_targets(room),
        }
    }

    /// Moves the messages to the end of a list that has room for them.
    fn move_to(self, all: &mut Vec<Batch>) -> Result<(), AllocError>
        ensures ok { OnOk result (all.new.items ≡ all.old.items ++ batches_of self) }
        ensures err { OnErr result (all.new.items ≡ all.old.items) }
        ensures room { vec_len all.old + length (batches_of self) ≤ vec_capacity all.old → IsOk result }
        ensures capacity { vec_capacity all.old ≤ vec_capacity all.new }
    {
        match self {
            Batches::None => Ok(()),
            Batches::One([batch]) => {
                all.push(batch)?;
                Ok(())
            }
            Batches::Many(mut batches) => all.append(&mut batches),
        }
    }
}

/// An empty list with memory for two messages.
fn room_for_two(alloc: Global) -> Result<Vec<Batch>, AllocError>
    ensures empty { IfOk result (λ all. all.items ≡ []) }
    ensures room { IfOk result (λ all. vec_capacity all ≡ 2) }
{
    Vec::with_capacity(alloc, 2)
}

/// Datagrams to send, in order, at most 2^64 - 1. Contracts see the list of them, each with its
/// port, address and octets. One message takes no memory. The memory of messages that were let go is kept for the next.
#[derive(Drop)]
pub struct Sends {
    alloc: Global,
    batches: Batches,
    used: usize,
    count: u64,
}

impl Model for Sends {
    ghost use Rattle.std.specs.Prelude.{◌≡◌, ◌<◌, ◌≤◌, ◌^◌, List, length, take};
    ghost use Rattle.std.specs.List.{flat_map};
    ghost use Rattle.gw_relay.specs.Sends.{Sending, sendings_of};

    ghost Value = { List Sending };

    ghost use Rattle.gw_relay.specs.internal.Batches.{batches_of};

    ghost view = { λ s. flat_map sendings_of (take s.used (batches_of s.batches)) };

    ghost invariant = { λ s. let used = take s.used (batches_of s.batches) in
        (s.count ≡ length (flat_map sendings_of used)) × (s.count < 2 ^ 64) × (s.used ≤ s.count) × (s.used ≤ length (batches_of s.batches)) };
}

impl Sends {
    /// No datagram. It takes no memory.
    pub fn new(alloc: Global) -> Self
        ensures { result ≡ [] }
    {
        Sends {
            alloc,
            batches: Batches::None,
            used: 0,
            count: 0,
        }
    }

    /// The allocator of the list.
    pub fn alloc(&self) -> Global {
        self.alloc
    }

    /// How many datagrams there are.
    pub fn len(&self) -> u64
        ensures { result ≡ length self.now }
    {
        self.count
    }

    /// Adds the datagrams of a message after the others; one that goes to nobody is let go. An
    /// `Err` if there is no memory for the list, or if there would be more than 2^64 - 1
    /// datagrams, which no memory holds: they are as before. A message to nobody takes no memory, nor
    /// does the first.
    #[inline(always)]
    pub fn push(&mut self, batch: Batch) -> Result<(), AllocError>
        ensures ok { OnOk result (self.new ≡ self.old ++ sendings_of batch) }
        ensures err { OnErr result (self.new ≡ self.old) }
        ensures silent { sendings_of batch ≡ [] → IsOk result }
        ensures first { self.old ≡ [] → IsOk result }
    {
        let more = batch.targets().len() as u64;
        if more == 0 {
            return Ok(());
        }
        let count = sum(self.count, more)?;
        self.batches.put(self.alloc, self.used, batch)?;
        self.used += 1;
        self.count = count;
        Ok(())
    }

    /// Lets all datagrams go, and keeps their memory.
    #[inline(always)]
    pub fn clear(&mut self)
        ensures { self.new ≡ [] }
    {
        self.used = 0;
        self.count = 0;
    }

    /// An empty buffer for a message, with room for so many octets: one that was kept, if it has that room. The
    /// datagrams stay as they are. An `Err` if there is no memory for it.
    #[inline(always)]
    pub fn buffer(&mut self, room: usize) -> Result<Vec<u8>, AllocError>
        ensures empty { IfOk result (λ octets. octets.items ≡ []) }
        ensures least { IfOk result (λ octets. room ≤ vec_capacity octets) }
        ensures most { IfOk result (λ octets. vec_capacity octets ≤ room + KEPT_ROOM) }
        ensures stays { self.new ≡ self.old }
    {
        if let Some(octets) = self.batches.give_buffer(self.used, room) {
            return Ok(octets);
        }
        // A message may be made before the one that goes before it is added.
        if let Some(octets) = self.batches.give_buffer(self.used.saturating_add(1), room) {
            return Ok(octets);
        }
        empty_buffer(self.alloc, room)
    }

    /// A spare buffer for a message, which is empty: one that was kept, or one without memory. The datagrams stay as they
    /// are. It takes no memory.
    #[inline(always)]
    pub fn spare(&mut self) -> Vec<u8>
        ensures empty { result.items ≡ [] }
        ensures most { vec_capacity result ≤ KEPT_ROOM }
        ensures stays { self.new ≡ self.old }
    {
        match self.batches.give_buffer(self.used, BUFFER_ROOM) {
            Some(octets) => octets,
            None => Vec::new(self.alloc),
        }
    }

    /// Keeps a spare buffer that wasn't used, if there is a place for it. The datagrams stay as they are.
    #[inline(always)]
    pub fn keep(&mut self, spare: Vec<u8>)
        ensures stays { self.new ≡ self.old }
    {
        if spare.capacity() > 0 {
            self.batches.keep_buffer(self.used, spare);
        }
    }

    /// An empty list of addresses, with room for so many, at most those that a broadcast goes to: one that was kept, if it
    /// has that room. The datagrams stay as they are. An `Err` if there is no memory for it.
    #[inline(always)]
    pub(crate) fn targets(&mut self, room: usize) -> Result<Vec<BipAddr>, AllocError>
        requires { room ≤ MOST_TARGETS }
        ensures empty { IfOk result (λ targets. targets.items ≡ []) }
        ensures least { IfOk result (λ targets. room ≤ vec_capacity targets) }
        ensures most { IfOk result (λ targets. vec_capacity targets ≤ MOST_TARGETS) }
        ensures stays { self.new ≡ self.old }
    {
        if let Some(targets) = self.batches.give_targets(self.used, room) {
            return Ok(targets);
        }
        Vec::with_capacity(self.alloc, room)
    }

    /// The messages in order, each with the addresses that it goes to.
    pub fn batches(&self) -> &[Batch]
        ensures all { flat_map sendings_of result.now ≡ self.now }
        ensures few { length self.now < 2 ^ 64 }
    {
        &self.batches.as_slice()[..self.used]
    }
}

/// An empty buffer with memory for so many octets, and for no fewer than [`BUFFER_ROOM`].
fn empty_buffer(alloc: Global, room: usize) -> Result<Vec<u8>, AllocError>
    ensures empty { IfOk result (λ octets. octets.items ≡ []) }
    ensures least { IfOk result (λ octets. room ≤ vec_capacity octets) }
    ensures common { IfOk result (λ octets. BUFFER_ROOM ≤ vec_capacity octets) }
    ensures most { IfOk result (λ octets. vec_capacity octets ≤ room + BUFFER_ROOM) }
{
    if room < BUFFER_ROOM {
        return Vec::with_capacity(alloc, BUFFER_ROOM);
    }
    Vec::with_capacity(alloc, room)
}

/// How many datagrams two lists have together. An `Err` if that passes 2^64 - 1.
fn sum(count: u64, more: u64) -> Result<u64, AllocError>
    ensures ok { IfOk result (λ all. all ≡ count + more) }
    ensures fits { count + more < 2 ^ 64 → IsOk result }
{
    count.checked_add(more).ok_or(AllocError)
}
