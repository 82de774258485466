//! Laws of a policy, of every rule, list of rules and ask. The functions do nothing: their
//! contracts are the laws.
ghost use Rattle.std.specs.Prelude.{◌≡◌, ◌↔◌, ◌<◌, ◌-◌, ◌++◌, ◌&&◌, ℕ, Some, None, false, List, [], ◌∷◌, IsTrue, IfSome, All, Option, filter, map, not, slice_get};
ghost use Rattle.gw_rules.specs.declared.decision.Decision.{Decision};
ghost use Rattle.gw_rules.specs.declared.field.FieldName.{FieldName};
ghost use Rattle.gw_rules.specs.declared.format.Format.{Format};
ghost use Rattle.gw_rules.specs.declared.operation.Operation.{Operation};
ghost use Rattle.gw_rules.specs.declared.range.Range.{Range};
ghost use Rattle.gw_rules.specs.declared.refusal.Refusal.{Refusal};
ghost use Rattle.gw_rules.specs.declared.rule.Rule.{Rule};
ghost use Rattle.gw_rules.specs.declared.service.Service.{Service};
ghost use Rattle.gw_rules.specs.Ask.{Ask};
ghost use Rattle.gw_rules.specs.Authorizer.{denied_of};
ghost use Rattle.gw_rules.specs.Bounds.{HasBoundedRanges, are_bounded, bounds};
ghost use Rattle.gw_rules.specs.Field.{field_number};
ghost use Rattle.gw_rules.specs.Operation.{operation_name, operation_number};
ghost use Rattle.gw_rules.specs.Rule.{Matches, matches};
ghost use Rattle.gw_rules.specs.BothWays.{back_of, is_answer, is_on_way, judges, matches_stations, matches_way, mirrored, routes, way_of};
ghost use Rattle.gw_rules.specs.RuleList.{Allows, IsFirst, IsNumberOf, KeepsCounts, KeepsLongCounts, KeepsOrder, allows, decide, first, has_no_quiet, is_logged, keeps_counts, keeps_long_counts, keeps_order, without_quiet};
ghost use Rattle.gw_rules.specs.Service.{own_number, service_number};

use crate::{
    Ask, Decision, FieldName, Format, MAX_LONG_RANGES, MAX_NAME, MAX_RANGES, MAX_RANGES_IN_ALL,
    MAX_RULES, Operation, Range, Refusal,
};

/// A rule matches an ask exactly if, for every field that the rule names, the ask has that field
/// and one of the rule's ranges holds its value.
pub fn matching()
    ensures { (rule : Rule) (ask : Ask) → IsTrue (matches rule ask) ↔ Matches rule ask }
{}

/// The first rule is the one of the least number that matches, and there is none exactly if no
/// rule matches. Its number is that of a rule.
pub fn first_match()
    ensures least { (rules : List Rule) (ask : Ask) (number : ℕ) →
        (first rules ask ≡ Some number) ↔ IsFirst rules ask number }
    ensures none { (rules : List Rule) (ask : Ask) →
        (first rules ask ≡ None) ↔ All (λ rule. ¬ Matches rule ask) rules }
    ensures within { (rules : List Rule) (ask : Ask) →
        IfSome (first rules ask) (IsNumberOf rules) }
{}

/// An ask is allowed exactly if there is a first rule that matches, and it says allow. Every
/// other ask is denied, by the first rule that matches or by none.
pub fn decision()
    ensures allows { (rules : List Rule) (ask : Ask) →
        IsTrue (allows rules ask) ↔ Allows rules ask }
    ensures allow { (rules : List Rule) (ask : Ask) →
        (decide rules ask ≡ Decision.Allow) ↔ Allows rules ask }
    ensures deny { (rules : List Rule) (ask : Ask) (by : Option ℕ) →
        (decide rules ask ≡ Decision.Deny by) ↔ ((¬ Allows rules ask) × (first rules ask ≡ by)) }
{}

/// What is logged of a list of asks are exactly the asks that aren't allowed and whose first rule, if there is
/// one, isn't quiet, in their order, each by that rule or by none. Asks that are put one after the other are
/// logged so too. Where no rule is quiet, these are all that aren't allowed.
pub fn refusals()
    ensures logged { (rules : List Rule) (ask : Ask) → IsTrue (is_logged rules ask) ↔
        ((¬ Allows rules ask) ×
        ((number : ℕ) (is : IsFirst rules ask number) → is.rule.quiet ≡ false)) }
    ensures asks { (rules : List Rule) (asks : List Ask) →
        map (λ r. r.ask) (denied_of rules asks) ≡ filter (is_logged rules) asks }
    ensures none_quiet { (rules : List Rule) (ask : Ask) → IsTrue (has_no_quiet rules) →
        is_logged rules ask ≡ not (allows rules ask) }
    ensures all { (rules : List Rule) (asks : List Ask) → IsTrue (has_no_quiet rules) →
        map (λ r. r.ask) (denied_of rules asks) ≡ filter (λ ask. not (allows rules ask)) asks }
    ensures by { (rules : List Rule) (asks : List Ask) →
        map (λ r. r.by) (denied_of rules asks)
        ≡ map (λ r. first rules r.ask) (denied_of rules asks) }
    ensures joined { (rules : List Rule) (asks more : List Ask) →
        denied_of rules (asks ++ more) ≡ denied_of rules asks ++ denied_of rules more }
{}

/// Whether rules are quiet changes nothing of what matches and of what is allowed or denied by which rule: two
/// lists that differ in that alone say the same of each ask.
pub fn quiet()
    ensures first { (one two : List Rule) (ask : Ask) → without_quiet one ≡ without_quiet two →
        first one ask ≡ first two ask }
    ensures allows { (one two : List Rule) (ask : Ask) → without_quiet one ≡ without_quiet two →
        allows one ask ≡ allows two ask }
    ensures decide { (one two : List Rule) (ask : Ask) → without_quiet one ≡ without_quiet two →
        decide one ask ≡ decide two ask }
{}

/// What the two rules match that go with a rule: that of the requests' way each ask to route a request that the
/// rule judges, or what acknowledges or aborts an answer, that the rule matches by port, networks, source, sender
/// and station; that of the answers each ask to route an answer, which the rule, once its networks and its stations
/// are exchanged, matches by networks and stations.
pub fn both_ways()
    ensures way { (rule way : Rule) (ask : Ask) → way_of rule ≡ Some way →
        matches way ask ≡ (routes (is_on_way rule) ask && matches_way rule ask) }
    ensures no_way { (rule : Rule) → (way_of rule ≡ None) ↔
        ((judges Operation.Read 12 rule ≡ false) × (judges Operation.Read 14 rule ≡ false)
        × (judges Operation.Write 15 rule ≡ false)) }
    ensures back { (rule : Rule) (ask : Ask) →
        matches (back_of rule) ask ≡ (routes is_answer ask && matches_stations rule (mirrored ask)) }
    ensures numbers { operation_number Operation.Route ≡ 2 }
{}

/// The limits are 512 rules and 32 characters of a name; four ranges for a field, or in a long list 256
/// for a field and 2048 for it in all rules. The tests of a list's limits hold exactly if there are at most
/// so many, and if no range has its low end above its high end; and a long list may be what another may.
pub fn limits()
    ensures rules { MAX_RULES ≡ 512 }
    ensures ranges { MAX_RANGES ≡ 4 }
    ensures long_ranges { MAX_LONG_RANGES ≡ 256 }
    ensures in_all { MAX_RANGES_IN_ALL ≡ 2048 }
    ensures name { MAX_NAME ≡ 32 }
    ensures counts { (rules : List Rule) → IsTrue (keeps_counts rules) ↔ KeepsCounts rules }
    ensures long_counts { (rules : List Rule) →
        IsTrue (keeps_long_counts rules) ↔ KeepsLongCounts rules }
    ensures short { (rules : List Rule) → KeepsCounts rules → KeepsLongCounts rules }
    ensures order { (rules : List Rule) → IsTrue (keeps_order rules) ↔ KeepsOrder rules }
{}

/// The bounds of the twelve fields, in the order of their numbers, in each format. The test of a rule's
/// ranges holds exactly if each of them lies within the bounds of its field.
pub fn bounds()
    ensures lows { (format : Format) → map (λ field. (bounds format field).low) FieldName.ALL ≡
        1 ∷ 1 ∷ 1 ∷ 0 ∷ 1 ∷ 0 ∷ 0 ∷ 0 ∷ 0 ∷ 1 ∷ 0 ∷ 0 ∷ [] }
    ensures one { map (λ field. (bounds Format.One field).high) FieldName.ALL ≡
        11 ∷ 8 ∷ 65534 ∷ 281474976710655 ∷ 65534 ∷ 1031 ∷ 1023 ∷ 4194303 ∷ 4194303 ∷ 16
        ∷ 281474976710655 ∷ 281474976710655 ∷ [] }
    ensures two { (field : FieldName) → bounds Format.Two field ≡ bounds Format.One field }
    ensures three { map (λ field. (bounds Format.Three field).high) FieldName.ALL ≡
        13 ∷ 8 ∷ 65534 ∷ 576460752303423487 ∷ 65535 ∷ 1031 ∷ 1023 ∷ 4194303 ∷ 4194303 ∷ 16
        ∷ 281474976710655 ∷ 576460752303423487 ∷ [] }
    ensures bounded { (format : Format) (rule : Rule) →
        IsTrue (are_bounded format rule.ranges) ↔ HasBoundedRanges format rule }
{}

/// `FieldName::ALL` has each of the twelve fields once, in the order of their numbers.
pub fn fields()
    ensures numbers { map field_number FieldName.ALL ≡
        1 ∷ 2 ∷ 3 ∷ 4 ∷ 5 ∷ 6 ∷ 7 ∷ 8 ∷ 9 ∷ 10 ∷ 11 ∷ 12 ∷ [] }
    ensures places { (field : FieldName) →
        slice_get FieldName.ALL (field_number field - 1) ≡ Some field }
{}

/// `Operation::ALL` has each of the thirteen operations once, in the order of their numbers. No two
/// share a name or a number.
pub fn operations()
    ensures all { map operation_number Operation.ALL ≡
        1 ∷ 2 ∷ 3 ∷ 4 ∷ 5 ∷ 6 ∷ 7 ∷ 8 ∷ 9 ∷ 10 ∷ 11 ∷ 12 ∷ 13 ∷ [] }
    ensures places { (operation : Operation) →
        slice_get Operation.ALL (operation_number operation - 1) ≡ Some operation }
    ensures names { (a b : Operation) → operation_name a ≡ operation_name b → a ≡ b }
    ensures numbers { (a b : Operation) → operation_number a ≡ operation_number b → a ≡ b }
{}

/// No two services share a number.
pub fn services()
    ensures { (a b : Service) → own_number a < 256 → own_number b < 256 →
        service_number a ≡ service_number b → a ≡ b }
{}

/// `==` holds exactly of what is the same.
pub fn equality()
    ensures asks { (a b : Ask) → IsTrue (⟦<Ask as PartialEq>⟧.eq a b) ↔ (a ≡ b) }
    ensures ranges { (a b : Range) → IsTrue (⟦<Range as PartialEq>⟧.eq a b) ↔ (a ≡ b) }
    ensures decisions { (a b : Decision) →
        IsTrue (⟦<Decision as PartialEq>⟧.eq a b) ↔ (a ≡ b) }
    ensures refusals { (a b : Refusal) → IsTrue (⟦<Refusal as PartialEq>⟧.eq a b) ↔ (a ≡ b) }
{}
