//! What a case writes to, of which contracts see each octet.

ghost use Rattle.std.specs.Prelude.{◌≡◌, ◌≤◌, ◌<◌, ◌++◌, [], None, Some, false, length, IfOk, IsOk};

use crate::written::WrittenOctets;
use gw_script::{OctetSink, WriteFailed};
use std::alloc::{AllocError, Global};

/// Takes all that is written to it, or so many octets. One that takes all never fails: where it has no memory for an octet, that is
/// written as others are, and isn't shown.
#[derive(Drop)]
pub struct MemSink {
    /// How many octets it still takes; all if this is none.
    pub room: Option<usize>,
    /// What was written to it.
    pub written: WrittenOctets,
    shown: Vec<u8>,
    is_lost: bool,
    ghost whole: { is_lost ≡ false → shown.items ≡ written.octets },
}

/// How many of so many octets a sink takes that has this room. `WriteFailed` if it has none.
fn take_room(room: &mut Option<usize>, count: usize) -> Result<usize, WriteFailed>
    ensures bound { IfOk result (λ n. n ≤ count) }
    ensures some { IfOk result (λ n. 0 < count → 0 < n) }
    ensures sure { room.old ≡ None → IsOk result }
    ensures lasts { room.old ≡ None → room.new ≡ None }
{
    match room {
        None => Ok(count),
        Some(0) => Err(WriteFailed),
        Some(left) => {
            let taken = count.min(*left);
            *left -= taken;
            Ok(taken)
        }
    }
}

impl MemSink {
    /// One that takes so many octets, or all. It has memory for so many at the start. The only fault is want of that.
    pub fn new(alloc: Global, room: Option<usize>, memory: usize) -> Result<Self, AllocError>
        ensures room { IfOk result (λ sink. sink.room ≡ room) }
        ensures empty { IfOk result (λ sink. sink.written.octets ≡ []) }
    {
        Ok(MemSink {
            room,
            written: WrittenOctets::new(),
            shown: Vec::with_capacity(alloc, memory)?,
            is_lost: false,
        })
    }

    /// All that was written to it. The only fault is that there was no memory for some of that.
    pub fn shown(&self) -> Result<&[u8], AllocError>
        ensures { IfOk result (λ shown. shown.now ≡ self.now.written.octets) }
    {
        if self.is_lost {
            return Err(AllocError);
        }
        Ok(&self.shown)
    }

    /// Writes these octets, whatever room it has.
    pub fn add(&mut self, octets: &[u8])
        ensures written { self.new.written.octets ≡ self.old.written.octets ++ octets.now }
        ensures room { self.new.room ≡ self.old.room }
    {
        self.written.add(octets);
        if self.shown.extend_from_slice(octets).is_err() {
            self.is_lost = true;
        }
    }
}

impl OctetSink for MemSink {
    ghost held = { λ sink. Some sink.written.octets };

    ghost NeverFails = { λ sink. sink.room ≡ None };

    fn write_octets(&mut self, text: &[u8]) -> Result<usize, WriteFailed> {
        let count = take_room(&mut self.room, text.len())?;
        self.add(&text[..count]);
        Ok(count)
    }
}
