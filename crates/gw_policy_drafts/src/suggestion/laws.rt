//! What is allowed with rules that are suggested in front of a policy's. The functions do nothing: their
//! contracts are the laws.
ghost use Rattle.std.specs.Prelude.{◌≡◌};
ghost use Rattle.gw_policy_drafts.specs.suggestion.Laws.{AllowsEach, AllowsNoOther, AllowsWhatMatches, FillsNoOther, LeavesNoneOut};
ghost use Rattle.gw_policy_drafts.specs.suggestion.Laws.{OpensNothing};

use crate::suggestion::given::MAX_ASKS;

/// With the rules in front of others, but for those that are left out, an ask is allowed exactly if it matches one of them
/// or was allowed before.
pub fn in_front()
    ensures { AllowsWhatMatches }
{}

/// Each given ask is allowed with the rules in front that are suggested for it, unless it is open or a rule that is left
/// out matches it.
pub fn given()
    ensures { AllowsEach }
{}

/// An ask that they newly allow has in each field the value of one for which they are made: no value that wasn't seen,
/// and no two that weren't seen together. If they are filled, it has the object of one, and the property and the
/// priority of another one of the same station, operation and destination. It is a read
/// only if it names its object and property, and a write only if it names its priority too.
pub fn bounds()
    ensures seen { AllowsNoOther }
    ensures closed { OpensNothing }
    ensures filled { FillsNoOther }
{}

/// Of rules that are suggested for a configuration without assertions none is left out.
pub fn unasserted()
    ensures { LeavesNoneOut }
{}

/// The limit is 16,384 different asks.
pub fn limits()
    ensures asks { MAX_ASKS ≡ 16384 }
{}
