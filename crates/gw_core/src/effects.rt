//! What an event does: the datagrams to send, and the policy's denials, but those of its quiet rules.

ghost use Rattle.std.specs.Prelude.{◌≡◌, []};

use gw_audit::Denials;
use gw_relay::Sends;
use std::alloc::Global;

/// What an event does.
#[derive(Drop)]
pub struct Effects {
    /// The datagrams to send.
    pub sends: Sends,
    /// The policy's denials, but those of its quiet rules.
    pub denials: Denials,
}

impl Effects {
    /// Nothing.
    pub fn none(alloc: Global) -> Self
        ensures sends { result.sends ≡ [] }
        ensures denials { result.denials ≡ [] }
    {
        Effects {
            sends: Sends::new(alloc),
            denials: Denials::new(alloc),
        }
    }

    /// Lets all go.
    #[inline(always)]
    pub(crate) fn clear(&mut self)
        ensures sends { self.new.sends ≡ [] }
        ensures denials { self.new.denials ≡ [] }
    {
        self.sends.clear();
        self.denials.truncate(0);
    }
}
