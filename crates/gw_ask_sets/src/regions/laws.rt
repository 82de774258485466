//! Laws of comparisons. The functions do nothing: their contracts are the laws.
ghost use Rattle.std.specs.Prelude.{◌≡◌, ◌<◌, ◌^◌, ℕ, List, [], true, false, Some, None};
ghost use Rattle.std.specs.List.{AllByRecursion};
ghost use Rattle.gw_rules.specs.Ask.{Ask};
ghost use Rattle.gw_rules.specs.RuleList.{allows};
ghost use Rattle.gw_rules.specs.declared.rule.Rule.{Rule};
ghost use Rattle.gw_ask_sets.specs.regions.Comparing.{IsComparison, IsSummary, WasDecided, differs, is_found};
ghost use Rattle.gw_ask_sets.specs.regions.Regions.{Region, lies_in_one};
ghost use Rattle.gw_ask_sets.specs.regions.Tidying.{TidiedMatchesTheSame, TidyHasTheSame, TidyIsOne, TidyIsTidy};
ghost use Rattle.gw_ask_sets.specs.regions.Values.{has, is_any};
ghost use Rattle.gw_ask_sets.specs.declared.regions.comparison.Found.{Found};
ghost use Rattle.gw_ask_sets.specs.declared.regions.values.Values.{Values};

use crate::regions::{ALL_PAIR_STEPS, MAX_STEPS, PAIR_STEPS};

/// An ask of the shapes that lies in no region that is left is decided otherwise exactly if it lies in one
/// that was found. So if none is left, all that is decided otherwise is found. If none was found either,
/// the two policies decide each ask of the shapes alike.
pub fn exact()
    ensures known { (shapes : List Region) (old new : List Rule) (found : List Found) (left : List Region) →
        IsComparison shapes old new found left → (ask : Ask) → lies_in_one shapes ask ≡ true →
        lies_in_one left ask ≡ false → differs old new ask ≡ is_found found ask }
    ensures finished { (shapes : List Region) (old new : List Rule) (found : List Found) →
        IsComparison shapes old new found [] → (ask : Ask) → lies_in_one shapes ask ≡ true →
        differs old new ask ≡ is_found found ask }
    ensures alike { (shapes : List Region) (old new : List Rule) →
        IsComparison shapes old new [] [] → (ask : Ask) → lies_in_one shapes ask ≡ true →
        allows old ask ≡ allows new ask }
{}

/// However many steps there were: an ask of a region that was found is decided otherwise, whether or not it
/// lies in a shape; and each such region has an ask of the shapes, which the old and the new policy decide
/// as the region says.
pub fn found()
    ensures differs { (shapes : List Region) (old new : List Rule) (found : List Found) (left : List Region) →
        IsComparison shapes old new found left → (ask : Ask) → is_found found ask ≡ true →
        differs old new ask ≡ true }
    ensures asks { (shapes : List Region) (old new : List Rule) (found : List Found) (left : List Region) →
        IsComparison shapes old new found left →
        AllByRecursion (λ f. WasDecided shapes old new f) found }
{}

/// What is said of a summary of a comparison: a comparison is a summary of itself. An ask of the shapes that
/// lies in no region that is left is decided otherwise exactly if it lies in one that was found; if none is
/// left and none found, the two policies decide each ask of the shapes alike. An ask of the shapes that lies
/// in a region that was found is decided otherwise, and each such region has one. A field that may be
/// anything has each value: absent, or a number.
pub fn summary()
    ensures compared { (shapes : List Region) (old new : List Rule) (found : List Found) (left : List Region) →
        IsComparison shapes old new found left → IsSummary shapes old new found left }
    ensures known { (shapes : List Region) (old new : List Rule) (found : List Found) (left : List Region) →
        IsSummary shapes old new found left → (ask : Ask) → lies_in_one shapes ask ≡ true →
        lies_in_one left ask ≡ false → differs old new ask ≡ is_found found ask }
    ensures finished { (shapes : List Region) (old new : List Rule) (found : List Found) →
        IsSummary shapes old new found [] → (ask : Ask) → lies_in_one shapes ask ≡ true →
        differs old new ask ≡ is_found found ask }
    ensures alike { (shapes : List Region) (old new : List Rule) →
        IsSummary shapes old new [] [] → (ask : Ask) → lies_in_one shapes ask ≡ true →
        allows old ask ≡ allows new ask }
    ensures differs { (shapes : List Region) (old new : List Rule) (found : List Found) (left : List Region) →
        IsSummary shapes old new found left → (ask : Ask) → lies_in_one shapes ask ≡ true →
        is_found found ask ≡ true → differs old new ask ≡ true }
    ensures asks { (shapes : List Region) (old new : List Rule) (found : List Found) (left : List Region) →
        IsSummary shapes old new found left →
        AllByRecursion (λ f. WasDecided shapes old new f) found }
    ensures absent { (values : Values) → is_any values ≡ true → has values None ≡ true }
    ensures number { (values : Values) → is_any values ≡ true → (number : ℕ) → number < 2 ^ 64 →
        has values (Some number) ≡ true }
{}

/// Ranges that are put in order hold the same numbers; if each has numbers, none overlaps or touches another then, and
/// no other list of this kind holds the same numbers. A rule whose ranges are put in order matches the same asks.
pub fn tidying()
    ensures numbers { TidyHasTheSame }
    ensures order { TidyIsTidy }
    ensures one { TidyIsOne }
    ensures matching { TidiedMatchesTheSame }
{}

/// The limits are 65,536 steps for regions, 16,384 for a pair of rules, and 262,144 for all pairs.
pub fn limits()
    ensures regions { MAX_STEPS ≡ 65536 }
    ensures pair { PAIR_STEPS ≡ 16384 }
    ensures pairs { ALL_PAIR_STEPS ≡ 262144 }
{}
