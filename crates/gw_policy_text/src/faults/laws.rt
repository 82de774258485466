//! Laws of the words. Each function does nothing: its contract is the laws.

ghost use Rattle.toml.specs.Data.{Members};
ghost use Rattle.gw_policy_text.specs.faults.Keys.{AreKnown};
ghost use Rattle.gw_policy_text.specs.faults.Wanted.{OperationsAreListed};

/// Where an operation is due, each is listed, by its name.
pub fn operations()
    ensures { OperationsAreListed }
{}

/// The first key of a table that isn't listed is the unknown key that the reader answers.
pub fn keys()
    ensures { (top : Members) → AreKnown top }
{}
