//! Why a text is none of a saved state.

use thiserror::Error;

/// What is wrong with a line.
#[derive(Clone, Copy, Debug, Error)]
pub enum FaultKind {
    /// 1: the first line is another than `bacgw state 1`.
    #[error("another version")]
    Version,
    /// 2: it is no line that may be here, or one of its numbers doesn't fit.
    #[error("no line that may be here")]
    Line,
    /// 3: a number or a value is out of its range.
    #[error("out of range")]
    Range,
    /// 4: an address, a slot, an object, a network or a port comes twice.
    #[error("comes twice")]
    Twice,
    /// 5: there are more lines of its kind than can be.
    #[error("too many")]
    TooMany,
    /// 6: the text ends before the line `end`.
    #[error("the text is cut")]
    Cut,
    /// 7: memory was refused.
    #[error("out of memory")]
    Memory,
}

/// Why a text is none of a saved state, and at which line.
#[derive(Clone, Copy, Debug)]
pub struct StateFault {
    /// The number of the line, from 1.
    pub line: u64,
    /// What is wrong with it.
    pub kind: FaultKind,
}

/// At which line reading stopped, and why.
#[derive(Clone, Copy)]
pub(crate) struct Stop {
    /// How many octets are left of the text from the faulty line on.
    pub left: usize,
    /// What is wrong with the line.
    pub kind: FaultKind,
}

impl Stop {
    ghost use Rattle.std.specs.Prelude.{◌≡◌, length};
    ghost use Rattle.gw_state_text.specs.Reading.{stop_at};

    /// The first line of a text is faulty.
    pub fn at(text: &[u8], kind: FaultKind) -> Stop
        ensures left { result.left ≡ length text.now }
        ensures kind { result.kind ≡ kind }
        ensures is { result ≡ stop_at text.now kind }
    {
        Stop {
            left: text.len(),
            kind,
        }
    }
}
