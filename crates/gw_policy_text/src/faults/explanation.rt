//! The line that says where a fault of a configuration is.
ghost use Rattle.std.specs.Prelude.{◌≡◌, map, IfOk, IsTrue};
ghost use Rattle.std.specs.List.{list_all};
ghost use Rattle.gw_configuration.specs.Shown.{is_printed, shown};

use gw_configuration::put_shown;
use std::alloc::{AllocError, Global};
use std::marker::Model;

/// A line for an operator, without its line feed. It has no control character. Contracts see its octets.
#[derive(Drop)]
pub struct Explanation {
    octets: Vec<u8>,
}

impl Model for Explanation {
    ghost use Rattle.std.specs.Prelude.{ℕ, List, IsTrue};
    ghost use Rattle.std.specs.List.{list_all};
    ghost use Rattle.gw_configuration.specs.Shown.{is_printed};

    ghost Value = { List ℕ };

    ghost view = { λ e. e.octets.items };

    ghost invariant = { λ e. IsTrue (list_all is_printed e.octets.items) };
}

impl Explanation {
    /// The line of some words, with a `?` in the place of each control character. `AllocError`
    /// where memory was refused.
    #[tactic(auto, using(crate::proofs::faults_lemmas::Explanations::all_shown))]
    pub(crate) fn of_words(alloc: Global, words: &[u8]) -> Result<Self, AllocError>
        ensures { IfOk result (λ line. line ≡ shown words.now) }
    {
        let mut octets = Vec::new(alloc);
        put_shown(&mut octets, words)?;
        Ok(Explanation { octets })
    }

    /// The octets of the line, which is UTF-8. None of them is a control character.
    pub fn as_bytes(&self) -> &[u8]
        ensures octets { result.now ≡ self.now }
        ensures printed { IsTrue (list_all is_printed self.now) }
    {
        self.octets.as_slice()
    }
}
