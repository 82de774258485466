//! Sets of values that a field of an ask may have.
ghost use Rattle.std.specs.Prelude.{◌≡◌, ◌&&◌, ◌||◌, ℕ, Option, Some, None, true, not, IfOk};
ghost use Rattle.std.specs.List.{list_all, list_any};
ghost use Rattle.gw_rules.specs.Range.{admits, holds};
ghost use Rattle.gw_rules.specs.declared.operation.TheConstants.Operation.{ALL};
ghost use Rattle.gw_ask_sets.specs.regions.Presence.{absence, present};
ghost use Rattle.gw_ask_sets.specs.regions.Ranges.{first_number, shared};
ghost use Rattle.gw_ask_sets.specs.regions.Values.{admitted, common, has, has_operation, is_any, is_empty, others, refused, shares};

use crate::regions::coverage::is_within_any;
use crate::regions::ranges::{common_number, copy, same_ranges, shared, united, without};
use gw_addr::Sequence;
use gw_rules::{Operation, Range};
use std::alloc::{AllocError, Global};

/// From the least number to the greatest.
const ALL_NUMBERS: Range = Range {
    low: 0,
    high: u64::MAX,
};

/// What a field of an ask may be: absent, if this says so, or a number of one of the ranges. A range whose
/// low end is above its high end has no number.
pub struct Values {
    /// Whether the ask may be without the field.
    pub absent: bool,
    /// The numbers that the field may have.
    pub ranges: Sequence<Range>,
}

// By hand: a derived one is proved part by part wherever a region is dropped (docs/ARCHITECTURE.md).
impl Drop for Values {
    fn drop(self) {
        let Values {
            absent: _,
            ranges: _,
        } = self;
    }
}

impl Values {
    /// Absent, and no number.
    pub(crate) fn absence(alloc: Global) -> Self
        ensures { result ≡ absence }
    {
        Values {
            absent: true,
            ranges: Sequence::new(alloc),
        }
    }

    /// The numbers alone.
    pub(crate) fn present(&self, alloc: Global) -> Result<Self, AllocError>
        ensures { IfOk result (λ made. made ≡ present self.now) }
    {
        Ok(Values {
            absent: false,
            ranges: copy(alloc, self.ranges.as_slice())?,
        })
    }

    /// Whether the field may be so.
    pub fn has(&self, value: Option<u64>) -> bool
        ensures { result ≡ has self.now value }
    {
        match value {
            None => self.absent,
            Some(number) => any_holds(self.ranges.as_slice(), number),
        }
    }

    /// Whether the operation may be this.
    pub fn has_operation(&self, operation: Operation) -> bool
        ensures { result ≡ has_operation self.now operation }
    {
        self.has(Some(operation.number()))
    }

    /// Whether the operation may be each of the thirteen.
    pub fn has_each_operation(&self) -> bool
        ensures { result ≡ list_all (has_operation self.now) ALL }
    {
        Operation::ALL
            .iter()
            .all(|operation| self.has_operation(*operation))
    }

    /// Whether there is no value, as far as a look at the list shows.
    pub(crate) fn is_empty(&self) -> bool
        ensures { result ≡ is_empty self.now }
    {
        !self.absent && self.ranges.is_empty()
    }

    /// The same values once more.
    pub(crate) fn copy(&self, alloc: Global) -> Result<Self, AllocError>
        ensures { IfOk result (λ copied. copied ≡ self.now) }
    {
        Ok(Values {
            absent: self.absent,
            ranges: copy(alloc, self.ranges.as_slice())?,
        })
    }

    /// Those that the ranges of a rule admit: all, if there are none.
    pub(crate) fn admitted(&self, alloc: Global, ranges: &[Range]) -> Result<Self, AllocError>
        ensures { IfOk result (λ made. made ≡ admitted self.now ranges.now) }
    {
        if ranges.is_empty() {
            return self.copy(alloc);
        }
        Ok(Values {
            absent: false,
            ranges: shared(alloc, self.ranges.as_slice(), ranges)?,
        })
    }

    /// Those that they don't admit.
    pub(crate) fn refused(&self, alloc: Global, ranges: &[Range]) -> Result<Self, AllocError>
        ensures { IfOk result (λ made. made ≡ refused self.now ranges.now) }
    {
        if ranges.is_empty() {
            return Ok(Values {
                absent: false,
                ranges: Sequence::new(alloc),
            });
        }
        Ok(Values {
            absent: self.absent,
            ranges: without(alloc, self.ranges.as_slice(), ranges)?,
        })
    }

    /// A value that both have, if there is one: a number, if both have one, else absent.
    pub(crate) fn common(&self, other: &Values) -> Option<u64>
        ensures { result ≡ common self.now other.now }
    {
        common_number(self.ranges.as_slice(), other.ranges.as_slice())
    }

    /// Whether they are seen to be the same.
    #[tactic(auto, using(crate::proofs::regions_lemmas::ValueLaw::same_values))]
    pub(crate) fn is_same(&self, other: &Values) -> bool
        ensures { result ≡ true → (value : Option ℕ) → has self.now value ≡ has other.now value }
    {
        self.absent == other.absent && same_ranges(self.ranges.as_slice(), other.ranges.as_slice())
    }

    /// Those of one or the other. An `Err` if there is no memory.
    #[tactic(auto, using(crate::proofs::regions_lemmas::ValueLaw::united_values))]
    pub fn united(&self, alloc: Global, other: &Values) -> Result<Self, AllocError>
        ensures { IfOk result (λ all. (value : Option ℕ) →
            has all value ≡ (has self.now value || has other.now value)) }
    {
        Ok(Values {
            absent: self.absent || other.absent,
            ranges: united(alloc, self.ranges.as_slice(), other.ranges.as_slice())?,
        })
    }

    /// All others: absent, if these aren't, and the numbers below 2^64 that these don't have.
    pub(crate) fn others(&self, alloc: Global) -> Result<Self, AllocError>
        ensures { IfOk result (λ rest. rest ≡ others self.now) }
    {
        let all = [ALL_NUMBERS];
        Ok(Values {
            absent: !self.absent,
            ranges: without(alloc, &all, self.ranges.as_slice())?,
        })
    }

    /// Whether the field is seen to be anything.
    pub fn is_any(&self) -> bool
        ensures { result ≡ is_any self.now }
    {
        self.absent && is_within_any(self.ranges.as_slice(), &ALL_NUMBERS)
    }

    /// Whether both have a value.
    pub(crate) fn shares(&self, other: &Values) -> bool
        ensures { result ≡ shares self.now other.now }
    {
        let value = self.common(other);
        self.has(value) && other.has(value)
    }
}

fn any_holds(ranges: &[Range], number: u64) -> bool
    ensures { result ≡ list_any (holds number) ranges.now }
{
    ranges.iter().any(|range| range.holds(number))
}
