//! At which place of a list something is to be looked for.

use std::alloc::{AllocError, Global};

/// Places of a list, to be found again by a number that is made of what is there. A place is a hint: who asks
/// looks whether it is the right one.
#[derive(Drop)]
pub(crate) struct Places {
    slots: Vec<usize>,
}

impl Places {
    /// No place, with room for so many and more.
    pub(crate) fn new(alloc: Global, count: usize) -> Result<Self, AllocError> {
        let mut slots = Vec::new(alloc);
        slots.resize(count.saturating_mul(2).saturating_add(1), 0)?;
        Ok(Places { slots })
    }

    /// The slot so many slots after the one of a number.
    fn slot(&self, number: usize, step: usize) -> usize {
        number
            .wrapping_add(step)
            .checked_rem(self.slots.len())
            .unwrap_or(0)
    }

    /// The place that was noted for a number, or for another one that came in its way, at this step; `None`
    /// where no more were noted.
    pub(crate) fn at(&self, number: usize, step: usize) -> Option<usize> {
        let slot = self.slot(number, step);
        match self.slots.get(slot) {
            Some(next) => next.checked_sub(1),
            None => None,
        }
    }

    /// Notes a place for a number.
    pub(crate) fn note(&mut self, number: usize, place: usize) {
        for step in 0..self.slots.len() {
            if self.at(number, step).is_none() {
                self.fill(number, step, place);
                return;
            }
        }
    }

    fn fill(&mut self, number: usize, step: usize, place: usize) {
        let slot = self.slot(number, step);
        if slot < self.slots.len() {
            self.slots[slot] = place.saturating_add(1);
        }
    }
}

/// A number mixed into another one.
pub(crate) fn mixed(number: usize, next: usize) -> usize {
    (number ^ next)
        .wrapping_mul(0x9E37_79B9_7F4A_7C15)
        .rotate_left(29)
}
