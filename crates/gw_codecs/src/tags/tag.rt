//! The tag before each value (clause 20.2.1).

ghost use Rattle.std.specs.Prelude.{◌≡◌, ◌<◌, ◌||◌, IsTrue};
ghost use Rattle.gw_codecs.specs.tags.Kind.{is_length};

/// What a tag announces (clause 20.2.1.3).
#[derive(Clone, Copy, Debug)]
pub enum Kind {
    /// A content of so many octets.
    Length(u32),
    /// The beginning of a list of tagged values.
    Opening,
    /// The end of a list of tagged values.
    Closing,
}

impl Kind {
    /// Whether a content is announced, and neither a beginning nor an end.
    pub fn is_length(self) -> bool
        ensures { result ≡ is_length self }
    {
        matches!(self, Kind::Length(_))
    }
}

/// A tag (clause 20.2.1).
///
/// ```text
///  7   6   5   4   3   2   1   0      then, each only if the bits say so:
/// +---------------+---+-----------+  +----------------+  +--------------------------+
/// | number, or F  | C |  LLL      |  | number, 1 octet|  | length, 1, 3 or 5 octets |
/// +---------------+---+-----------+  +----------------+  +--------------------------+
///
/// C    1: context specific class, 0: application class
/// LLL  0 to 4: a length; 5: a length in the octets that follow; 6: opening; 7: closing
/// ```
#[derive(Clone, Copy)]
pub struct Tag {
    /// The number, 0 to 254.
    pub number: u8,
    /// Whether the class is context specific, and not application.
    pub context: bool,
    /// What follows. Only in the context class does a list open or close.
    pub kind: Kind,
    ghost numbered: { number < 255 },
    ghost classed: { IsTrue (is_length kind || context) },
}
