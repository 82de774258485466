//! Laws of the numbers that contracts cite. The functions do nothing: their contracts are the laws.
ghost use Rattle.std.specs.Prelude.{◌≡◌, ◌*◌, ◌≤◌, List, false};
ghost use Rattle.gw_rules.specs.Ask.{Ask};
ghost use Rattle.gw_rules.specs.declared.field.FieldName.{FieldName};
ghost use Rattle.gw_rules.specs.declared.rule.Rule.{Rule};
ghost use Rattle.gw_rule_index.specs.Comparisons.{is_named, most_named_comparisons_of, named_fields};

use crate::{COMPARISONS_A_FIELD, LEAST_INDEXED, MAX_ANDS, MAX_COMPARISONS};
use gw_rules::FieldName;

/// An ask costs at most 13 comparisons for each field, 156 in all, and twelve ANDs; and an index is
/// asked from 32 rules on.
pub fn limits()
    ensures each_field { COMPARISONS_A_FIELD ≡ 13 }
    ensures comparisons { MAX_COMPARISONS ≡ 156 }
    ensures ands { MAX_ANDS ≡ 12 }
    ensures indexed { LEAST_INDEXED ≡ 32 }
{}

/// An ask costs at most 13 comparisons for each field that some rule names. So by rules that name
/// neither senders nor stations, as those of formats 1 and 2, it costs at most 130, and ten ANDs.
pub fn named_limits()
    ensures each_named { (rules : List Rule) (ask : Ask) →
        most_named_comparisons_of rules ask ≤ 13 * named_fields rules }
    ensures comparisons { (rules : List Rule) (ask : Ask) →
        is_named rules FieldName.Sender ≡ false → is_named rules FieldName.Station ≡ false →
        most_named_comparisons_of rules ask ≤ 130 }
    ensures ands { (rules : List Rule) →
        is_named rules FieldName.Sender ≡ false → is_named rules FieldName.Station ≡ false →
        named_fields rules ≤ 10 }
{}
