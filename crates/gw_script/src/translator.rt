//! The texts for the lines of a text.

ghost use Rattle.std.specs.Prelude.{◌≡◌, ℕ, List, IfOk, true, false};

use std::alloc::{AllocError, Global};

/// Makes the text for each line, by itself.
pub trait LineTranslator {
    /// This text is made for this line, which has no line feed.
    ghost Translates: { Self → List ℕ → List ℕ → Type 0 };

    /// This line is refused: no text is made for it.
    ghost Refuses: { Self → List ℕ → Type 0 };

    /// Makes the text for a line, in the place of what `text` held. It answers whether it made
    /// one; else the line is refused. The only fault is that a growth was refused.
    fn translate(&self, alloc: Global, line: &[u8], text: &mut Vec<u8>) -> Result<bool, AllocError>
        ensures translated { IfOk result (λ is_made. is_made ≡ true →
            Translates self.now line.now text.new.items) }
        ensures refused { IfOk result (λ is_made. is_made ≡ false → Refuses self.now line.now) };
}
