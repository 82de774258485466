//! What a line's own fields may be.

ghost use Rattle.std.specs.Prelude.{◌≡◌, ℕ, List, Bool};
ghost use Rattle.gw_log_words.specs.Fields.{is_denial, shows_ask};

use gw_audit::{read_ask, read_line};

/// What the own fields of a line may be.
pub(crate) trait Form {
    /// A text is such fields.
    ghost passes: { Self → List ℕ → Bool };

    /// Whether a text is such fields.
    fn passes(&self, text: &[u8]) -> bool
        ensures { result ≡ passes self.now text.now };
}

/// The line of a denial.
#[derive(Clone, Copy)]
pub(crate) struct DenialForm;

impl Form for DenialForm {
    ghost passes = { λ _ text. is_denial text };

    fn passes(&self, text: &[u8]) -> bool {
        read_line(text).is_some()
    }
}

/// What shows an ask: the line of a denial, or the eight words of one.
#[derive(Clone, Copy)]
pub(crate) struct AskForm;

impl Form for AskForm {
    ghost passes = { λ _ text. shows_ask text };

    fn passes(&self, text: &[u8]) -> bool {
        read_ask(text).is_some()
    }
}
