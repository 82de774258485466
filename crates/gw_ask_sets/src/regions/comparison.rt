//! The result of a comparison of two policies.
ghost use Rattle.std.specs.Prelude.{◌≡◌, ◌++◌, ◌∷◌, [], None, IfOk, IfSome, OnOk};

use crate::regions::Region;
use gw_rules::Ask;
use std::alloc::{AllocError, Global};

/// A region in which every ask is decided otherwise: allowed by the new policy alone, or denied by
/// it alone.
pub struct Found {
    /// The asks.
    pub region: Region,
    /// One of them that lies in a shape.
    pub ask: Ask,
    /// Whether the new policy allows them, and the old one denies them.
    pub allows: bool,
    /// The numbers of the rules of the old policy that decide them, counted from 1, in order. The default,
    /// which denies what no rule matches, is 0, and the last.
    pub old_rules: Vec<usize>,
    /// Those of the new policy.
    pub new_rules: Vec<usize>,
}

// By hand: a derived one is proved part by part wherever one is dropped (docs/ARCHITECTURE.md).
impl Drop for Found {
    fn drop(self) {
        let Found {
            region: _,
            ask: _,
            allows: _,
            old_rules: _,
            new_rules: _,
        } = self;
    }
}

/// What a comparison found, and the regions that it didn't come to.
pub struct Comparison {
    /// In these regions every ask is decided otherwise.
    pub found: Vec<Found>,
    /// Of these nothing is known. If there is none, the comparison is finished.
    pub left: Vec<Region>,
    /// How many steps were used. If they are fewer than were given, the comparison is finished.
    pub steps: u32,
}

impl Drop for Comparison {
    fn drop(self) {
        let Comparison {
            found: _,
            left: _,
            steps: _,
        } = self;
    }
}

/// A region that is looked at, and one of its asks that lies in a shape.
pub(crate) struct Taken {
    pub region: Region,
    pub ask: Ask,
}

impl Drop for Taken {
    fn drop(self) {
        let Taken { region: _, ask: _ } = self;
    }
}

impl Taken {
    /// Its region and ask, found; and which rules decide.
    pub(crate) fn into_found(
        self,
        allows: bool,
        old_rules: Vec<usize>,
        new_rules: Vec<usize>,
    ) -> Found
        ensures { result ≡ record {
          region = self.region;
          ask = self.ask;
          allows = allows;
          old_rules = old_rules;
          new_rules = new_rules;
        } }
    {
        let Taken { region, ask } = self;
        Found {
            region,
            ask,
            allows,
            old_rules,
            new_rules,
        }
    }

    /// Its region alone.
    pub(crate) fn into_region(self) -> Region
        ensures { result ≡ self.region }
    {
        let Taken { region, ask: _ } = self;
        region
    }
}

impl Comparison {
    /// Nothing found, and one region to look at.
    pub(crate) fn new(alloc: Global, start: Region) -> Result<Self, AllocError>
        ensures found { IfOk result (λ c. c.found.items ≡ []) }
        ensures left { IfOk result (λ c. c.left.items ≡ start ∷ []) }
        ensures steps { IfOk result (λ c. c.steps ≡ 0) }
    {
        let mut left = Vec::new(alloc);
        left.push(start)?;
        Ok(Comparison {
            found: Vec::new(alloc),
            left,
            steps: 0,
        })
    }

    /// What it found, and what is left.
    pub fn into_parts(self) -> (Vec<Found>, Vec<Region>)
        ensures found { result.0.items ≡ self.found.items }
        ensures left { result.1.items ≡ self.left.items }
    {
        let Comparison {
            found,
            left,
            steps: _,
        } = self;
        (found, left)
    }

    /// Takes the last of the regions that are left.
    pub(crate) fn take_last(&mut self) -> Option<Region>
        ensures found { self.new.found.items ≡ self.old.found.items }
        ensures some { IfSome result (λ region.
            self.old.left.items ≡ self.new.left.items ++ region ∷ []) }
        ensures none { result ≡ None → self.old.left.items ≡ [] }
        ensures rest { result ≡ None → self.new.left.items ≡ [] }
    {
        self.left.pop()
    }

    /// Adds what is found to the rest.
    pub(crate) fn put_found(&mut self, found: Found) -> Result<(), AllocError>
        ensures found { OnOk result (self.new.found.items ≡ self.old.found.items ++ found ∷ []) }
        ensures left { OnOk result (self.new.left.items ≡ self.old.left.items) }
    {
        self.found.push(found)?;
        Ok(())
    }
}
