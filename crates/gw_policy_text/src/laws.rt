//! Laws of the limits. Each function does nothing: its contract is the laws.

ghost use Rattle.std.specs.Prelude.{◌≡◌};
ghost use Rattle.gw_policy_text.specs.TwoFormats.{TwoFormatsAreKept};
ghost use Rattle.gw_policy_text.specs.OneEach.{TablesAreOneEach};

use crate::read::MAX_OCTETS;

/// The limit is 1,048,576 octets of a configuration.
pub fn limits()
    ensures octets { MAX_OCTETS ≡ 1048576 }
{}

/// A text of another format than the third is read as where there are two formats: to the same
/// configuration, or to the same fault at the same place.
pub fn two_formats()
    ensures { TwoFormatsAreKept }
{}

/// Tables of rules that have none of the keys `both_ways`, `enabled` and `quiet` are read to one rule of the list each, in
/// their order, and none is quiet.
pub fn one_each()
    ensures { TablesAreOneEach }
{}
