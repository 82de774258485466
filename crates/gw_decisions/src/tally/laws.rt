//! Laws of the lines. The functions do nothing: their contracts are the laws.

ghost use Rattle.gw_decisions.specs.tally.Tally.{PlainLineStays};

/// The line of a rule that isn't quiet has its number, its name and its count, and no more.
pub fn plain()
    ensures { PlainLineStays }
{}
