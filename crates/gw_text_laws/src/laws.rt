//! Laws over the definitions of `gw_policy_text`. Each function does nothing: its contract is the law.

ghost use Rattle.gw_text_laws.specs.SingleRules.{TextsOfSingleRulesAreAsBefore};
ghost use Rattle.gw_text_laws.specs.WithoutMacs.{StationsAreAsBefore};
ghost use Rattle.gw_text_laws.specs.WithoutNeighbours.{TextsAreAsBefore};

/// A text that names no broadcast manager beside a port, and doesn't say whether networks are announced, is read as where there are no such
/// keys: as the same configuration, or with the same fault at the same place.
pub fn without_neighbours()
    ensures { TextsAreAsBefore }
{}

/// An item of a source, a sender or a station that has no text `mac:` names the stations that it names where no
/// station is written by its octets.
pub fn without_macs()
    ensures { StationsAreAsBefore }
{}

/// A text whose rules have none of the keys `both_ways`, `enabled` and `quiet`, and that asserts nothing, is read as where there are no
/// such keys: as the same configuration, or with the same fault at the same place.
pub fn single_rules()
    ensures { TextsOfSingleRulesAreAsBefore }
{}
