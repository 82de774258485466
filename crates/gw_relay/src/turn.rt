//! What a walk over a datagram asks, sends and changes.

ghost use Rattle.std.specs.Prelude.{◌≡◌, None};
ghost use Rattle.std.specs.Option.{option_or};

use crate::change::Change;
use crate::sends::Sends;
use gw_rules::Asker;
use std::alloc::Global;

/// What a walk over a datagram asks, sends and changes, so far. After an `Err` of a step a part of
/// what it gives may be added: such a turn is of no more use.
#[derive(Drop)]
pub struct Turn<A> {
    /// Who asks the policy.
    pub asker: A,
    /// The datagrams to send, in order.
    pub sends: Sends,
    /// What is to be committed.
    pub change: Option<Change>,
}

impl<A: Asker> Turn<A> {
    /// A turn of this asker that adds to these sends and changes nothing yet. It takes no memory.
    #[inline(always)]
    pub fn over(asker: A, sends: Sends) -> Self
        ensures asker { result.asker ≡ asker }
        ensures sends { result.sends ≡ sends }
        ensures change { result.change ≡ None }
    {
        Turn {
            asker,
            sends,
            change: None,
        }
    }

    /// The allocator of what is sent and changed.
    pub fn alloc(&self) -> Global {
        self.sends.alloc()
    }

    /// Keeps what is to be committed, if there is nothing yet.
    #[inline(always)]
    pub(crate) fn set_change(&mut self, change: Option<Change>)
        ensures asker { self.new.asker ≡ self.old.asker }
        ensures sends { self.new.sends ≡ self.old.sends }
        ensures change { self.new.change ≡ option_or self.old.change change }
    {
        if self.change.is_none() {
            self.change = change;
        }
    }
}
