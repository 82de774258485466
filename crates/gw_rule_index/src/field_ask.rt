//! What the index of a field says of an ask.
ghost use Rattle.std.specs.Prelude.{◌≡◌, ◌+◌, ◌≤◌, ◌<◌, ◌&&◌, Bool, IsTrue, List};
ghost use Rattle.gw_rules.specs.declared.field.FieldName.{FieldName};
ghost use Rattle.gw_rules.specs.declared.rule.Rule.{Rule};
ghost use Rattle.gw_rule_index.specs.declared.counted.TheConstants.{COMPARISONS_A_FIELD, MAX_ANDS, MAX_COMPARISONS};
ghost use Rattle.gw_rule_index.specs.Comparisons.{most_comparisons, one_comparison};
ghost use Rattle.gw_rule_index.specs.internal.Field.{IsIndexOf, has_bounds};
ghost use Rattle.gw_rule_index.specs.internal.Row.{Marks, admits_in};

use crate::Counted;
use crate::field_index::FieldIndex;
use crate::row::Row;
use crate::search::place_of;

impl FieldIndex {
    /// Whether the field has a bound, so some rule names it.
    pub(crate) fn has_bounds(&self) -> bool
        ensures { result ≡ has_bounds self.now }
    {
        !self.bounds.as_slice().is_empty()
    }

    /// Keeps the rules that admit in this field what an ask has there.
    pub(crate) fn keep(&self, value: Option<u64>, kept: &mut Row, counted: &mut Counted)
        requires comparisons { counted.old.comparisons + COMPARISONS_A_FIELD ≤ MAX_COMPARISONS }
        requires ands { counted.old.ands < MAX_ANDS }
        ensures kept { (rules : List Rule) (field : FieldName) (test : Rule → Bool) →
            IsIndexOf rules field self.now → Marks kept.old.words test rules →
            Marks kept.new.words (λ rule. test rule && admits_in field value rule) rules }
        ensures comparisons { counted.new.comparisons
            ≤ counted.old.comparisons + most_comparisons value }
        ensures some { IsTrue (has_bounds self.now) →
            counted.old.comparisons + one_comparison value ≤ counted.new.comparisons }
        ensures ands { counted.new.ands ≡ counted.old.ands + 1 }
    {
        let row = self.row(value, counted);
        kept.and(row, counted);
    }

    /// The row for what an ask has in this field.
    fn row(&self, value: Option<u64>, counted: &mut Counted) -> &Row
        requires { counted.old.comparisons + COMPARISONS_A_FIELD ≤ MAX_COMPARISONS }
        ensures row { (rules : List Rule) (field : FieldName) → IsIndexOf rules field self.now →
            Marks result.now.words (admits_in field value) rules }
        ensures comparisons { counted.new.comparisons
            ≤ counted.old.comparisons + most_comparisons value }
        ensures some { IsTrue (has_bounds self.now) →
            counted.old.comparisons + one_comparison value ≤ counted.new.comparisons }
        ensures ands { counted.new.ands ≡ counted.old.ands }
    {
        match value {
            Some(value) => &self.rows[place_of(&self.bounds, value, counted)],
            None => &self.absent,
        }
    }
}
