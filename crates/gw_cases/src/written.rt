//! What was written, as only clauses see it.

ghost use Rattle.std.specs.Prelude.{◌≡◌, ◌++◌, ℕ, List, []};
ghost use Rattle.std.specs.Borrow.{ftrue};

use std::marker::Model;

/// All that was written to something. It takes no memory, so what memory is refused for is part of it all the same.
#[derive(Drop)]
pub struct WrittenOctets {
    pub ghost octets: { List ℕ },
}

impl Model for WrittenOctets {
    ghost also_owns = { λ _. ftrue };
}

impl WrittenOctets {
    /// Nothing was written yet.
    pub fn new() -> WrittenOctets
        ensures { result.octets ≡ [] }
    {
        WrittenOctets {}
    }

    /// These octets were, too.
    pub fn add(&mut self, _octets: &[u8])
        ensures { self.new.octets ≡ self.old.octets ++ _octets.now }
    {}
}
