//! The octets of an answer, which are kept while its client takes them.

ghost use Rattle.std.specs.Prelude.{◌≡◌, ◌≤◌, ◌++◌, ℕ, Some, List, length, vec_len, IfOk, OnOk};
ghost use Rattle.std.specs.Option.{option_map_or};
ghost use Rattle.gw_device.specs.Response.{header_room, with_room};
ghost use Rattle.gw_device.specs.internal.Limit.{extended, or_abort};
ghost use Rattle.gw_device.specs.internal.Piece.{piece_octets};

use crate::HEADER_ROOM;
use crate::piece::Piece;
use crate::short::abort_too_long;
use gw_objects::ObjectDb;
use std::alloc::AllocError;
use std::marker::Model;

/// The octets of an answer while they are no more than its client takes. Where they would be more,
/// only that is kept, and nothing is written any more.
#[derive(Drop)]
pub(crate) struct Limited {
    octets: Vec<u8>,
    left: usize,
    is_over: bool,
    ghost room: { 10 ≤ vec_len octets },
}

impl Model for Limited {
    ghost use Rattle.std.specs.Prelude.{Some, None, if◌then◌else◌};
    ghost use Rattle.gw_device.specs.internal.Limit.{LimitedState};

    ghost Value = { LimitedState };

    ghost view = { λ l. record {
      left = l.left;
      octets = if l.is_over then None else Some l.octets.items;
    } };
}

impl Limited {
    /// What follows the room for headers, which may be so many octets.
    pub fn new(octets: Vec<u8>, most: usize) -> Self
        requires { 10 ≤ vec_len octets }
        ensures { (apdu : List ℕ) → octets.items ≡ with_room apdu →
            result ≡ extended (record { left = most; octets = Some header_room }) apdu }
    {
        let mut limited = Limited {
            octets,
            left: most,
            is_over: false,
        };
        limited.count(HEADER_ROOM);
        limited
    }

    /// Counts what was written after the first `len` octets.
    fn count(&mut self, len: usize)
        requires { len ≤ option_map_or length self.old.octets 0 }
        ensures { (octets more : List ℕ) → self.old.octets ≡ Some (octets ++ more) →
            length octets ≡ len →
            self.new ≡ extended (record { left = self.old.left; octets = Some octets }) more }
    {
        match self.left.checked_sub(self.octets.len() - len) {
            Some(left) => self.left = left,
            None => {
                self.left = 0;
                self.is_over = true;
                self.octets.truncate(HEADER_ROOM);
            }
        }
    }

    /// Appends a piece. `AllocError` where memory was refused.
    #[inline(always)]
    pub fn put(&mut self, objects: &ObjectDb, piece: Piece) -> Result<(), AllocError>
        ensures { OnOk result (self.new ≡ extended self.old (piece_octets objects.now piece)) }
    {
        if self.is_over {
            return Ok(());
        }
        let len = self.octets.len();
        piece.put(objects, &mut self.octets)?;
        self.count(len);
        Ok(())
    }

    /// The octets, or an Abort in the place of too many. `AllocError` where memory was refused.
    pub fn finish(self, invoke: u8) -> Result<Vec<u8>, AllocError>
        ensures octets { IfOk result (λ octets. octets.items ≡ or_abort invoke self.octets) }
        ensures room { IfOk result (λ octets. 10 ≤ vec_len octets) }
    {
        if self.is_over {
            return abort_too_long(self.octets, invoke);
        }
        Ok(self.octets)
    }
}
