//! Where a text is kept.

ghost use Rattle.std.specs.Prelude.{◌≡◌, ◌⊎◌, ℕ, List, Option, IsOk, OnOk, OnErr};
ghost use Rattle.gw_wire.specs.Store.{Holds};

use thiserror::Error;

/// Why a store doesn't hold a text.
#[derive(Clone, Copy, Debug, Error)]
pub enum StoreFault {
    /// 1: there is no space for it.
    #[error("no space")]
    NoSpace,
    /// 2: it isn't permitted.
    #[error("not permitted")]
    NotPermitted,
    /// 3: nothing can be written there.
    #[error("read-only")]
    ReadOnly,
    /// 4: memory was refused.
    #[error("out of memory")]
    Memory,
    /// 5: the system refused it for another reason.
    #[error("refused by the system")]
    System,
    /// 6: there were too many in a short time, so it wasn't asked.
    #[error("too many changes")]
    TooMany,
}

/// A place that holds one text, which is replaced whole.
///
/// A contract can't say what a disk holds. A store that can say it reports its text, as one over memory does.
pub trait Store {
    /// The text that it holds, if it reports it.
    ghost held: { Self → Option (List ℕ) };

    /// No call of it fails, now or later.
    ghost NeverFails: { Self → Type 0 };

    /// Replaces the text by these octets. At `Ok` it holds them, whatever happens then; at `Err` it holds
    /// them or what it held.
    fn replace(&mut self, octets: &[u8]) -> Result<(), StoreFault>
        ensures ok { OnOk result (Holds (held self.new) octets.now) }
        ensures err { OnErr result ((held self.new ≡ held self.old) ⊎ Holds (held self.new) octets.now) }
        ensures sure { NeverFails self.old → IsOk result }
        ensures lasts { NeverFails self.old → NeverFails self.new };
}
