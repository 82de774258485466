//! What the text of a comparison says of the asks of two configurations. The functions do nothing: their
//! contracts are the laws.
ghost use Rattle.std.specs.Prelude.{◌≡◌};
ghost use Rattle.gw_policy_review.specs.comparison.Laws.{AlikeIsAlike, AlikeIsLike, AlikeIsLogged, EachHasOneGroup, FoundIsAll};
ghost use Rattle.gw_policy_review.specs.comparison.Laws.{LikeHasNone, LinesAreTrue, LinesHaveAsks, NoPlaceIsNamed, NoneDiffers, NoneHasAsk};
ghost use Rattle.gw_policy_review.specs.comparison.Laws.{OperationHasAsk, PairsAreAll, PairsHaveAsks, RestIsMeant, SubnetIsRange};

use crate::comparison::MOST_UNGROUPED;

/// Over all asks that a gateway of one of the two configurations may raise: if the comparison is finished, an
/// ask is decided otherwise exactly if it lies in a region that was found; a line is true of each ask of its
/// region; each region has an ask; a region that says of a field that it may be absent has an ask without it; and each operation
/// that a line names has an ask there.
pub fn comparisons()
    ensures all { FoundIsAll }
    ensures alike { AlikeIsAlike }
    ensures lines { LinesAreTrue }
    ensures asks { LinesHaveAsks }
    ensures or_none { NoneHasAsk }
    ensures operations { OperationHasAsk }
{}

/// If what is decided otherwise is said by pairs of rules, an ask is decided otherwise exactly if the two rules that decide it
/// are a pair that was found; and each pair has an ask.
pub fn pairs()
    ensures all { PairsAreAll }
    ensures asks { PairsHaveAsks }
{}

/// The parts that differ are named, and no other: if none is, all that has an effect is the same, but for what the rules
/// decide, and if all that is the same, none is. It is the same, too, if a text says that no ask is decided otherwise, and
/// then the logs have the same denials.
pub fn parts()
    ensures none { NoneDiffers }
    ensures like { LikeHasNone }
    ensures alike { AlikeIsLike }
    ensures logged { AlikeIsLogged }
{}

/// Where each table of the two configurations is the rule of its own number, as in a text without `both_ways` and `enabled`, the
/// text of their comparison names rules alone, and no table.
pub fn places()
    ensures { NoPlaceIsNamed }
{}

/// What a line says of stations as subnets is what is meant: the keys of each subnet, at every UDP port, or all but those.
pub fn stations()
    ensures subnets { SubnetIsRange }
    ensures rest { RestIsMeant }
{}

/// If the regions that were found are grouped by the rules that decide, each is in one group.
pub fn groups()
    ensures { EachHasOneGroup }
{}

/// Up to 40 regions are printed without groups.
pub fn limits()
    ensures { MOST_UNGROUPED ≡ 40 }
{}
