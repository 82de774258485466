//! The texts of a configuration.
ghost use Rattle.std.specs.Prelude.{◌≡◌, ◌≤◌, length, IfOk};
ghost use Rattle.gw_configuration.specs.Reading.{Gives, NamesFault};
ghost use Rattle.gw_configuration.specs.Text.{text_within};

use crate::ConfigFault;
use std::alloc::Global;
use std::marker::Model;

/// How many octets a text has at most.
pub const MAX_TEXT: usize = 255;

/// A text of at most 255 octets of UTF-8. Contracts see the octets.
pub struct Text {
    text: String,
}

// By hand: a derived one is proved part by part wherever one is dropped (docs/GATE.md).
impl Drop for Text {
    fn drop(self) {
        let Text { text: _ } = self;
    }
}

impl Model for Text {
    ghost use Rattle.std.specs.Prelude.{ℕ, ◌≤◌, List, length, string_bytes};

    ghost Value = { List ℕ };

    ghost view = { λ t. string_bytes t.text };

    ghost invariant = { λ t. length (string_bytes t.text) ≤ 255 };
}

impl Text {
    /// A copy of the text, which has at least so many octets. `Range` where it has fewer, or more
    /// than 255; `Memory` where there is none for it.
    pub fn new(alloc: Global, least: usize, text: &str) -> Result<Self, ConfigFault>
        ensures text { Gives (λ t. t) result (text_within least text.now) }
        ensures fault_named { NamesFault result (text_within least text.now) }
        ensures least { IfOk result (λ t. least ≤ length t) }
    {
        if text.len() < least || MAX_TEXT < text.len() {
            return Err(ConfigFault::Range);
        }
        Ok(Text {
            text: String::from_str(alloc, text)?,
        })
    }

    /// The text, of at most 255 octets.
    pub fn as_str(&self) -> &str
        ensures text { result.now ≡ self.now }
        ensures short { length self.now ≤ 255 }
    {
        self.text.as_str()
    }
}
