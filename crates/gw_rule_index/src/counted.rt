//! What an index answers, and how much work that took.
ghost use Rattle.std.specs.Prelude.{◌≡◌, None};

/// The most comparisons for a field that an ask has.
pub const COMPARISONS_A_FIELD: u32 = 13;

/// The most comparisons for an ask.
pub const MAX_COMPARISONS: u32 = 156;

/// The most rows that are joined for an ask.
pub const MAX_ANDS: u32 = 12;

/// An answer, and how much work it took.
#[derive(Clone, Copy)]
pub struct Counted {
    /// The number of the first rule that matches, counted from 1, or none.
    pub rule: Option<u16>,
    /// How often a value of the ask was compared with a bound.
    pub comparisons: u32,
    /// How often a row of 512 bits was joined to another.
    pub ands: u32,
}

impl Counted {
    /// No answer yet, and no work.
    pub(crate) fn start() -> Self
        ensures rule { result.rule ≡ None }
        ensures comparisons { result.comparisons ≡ 0 }
        ensures ands { result.ands ≡ 0 }
    {
        Counted {
            rule: None,
            comparisons: 0,
            ands: 0,
        }
    }
}
