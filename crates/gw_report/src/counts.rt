//! What is counted by labels.

use std::alloc::{AllocError, Global};
use std::collections::BTreeMap;

/// How many different labels are counted apart.
pub const MAX_LABELS: usize = 8192;

/// A label, and how often it was counted.
#[derive(Clone, Copy)]
pub(crate) struct Count<'a> {
    /// The label.
    pub label: &'a str,
    /// How often.
    pub count: u64,
}

/// How often each label was counted, of at most [`MAX_LABELS`].
#[derive(Drop)]
pub(crate) struct LabelCounts {
    counts: BTreeMap<String, u64>,
    others: u64,
}

impl LabelCounts {
    /// Nothing is counted yet.
    pub(crate) fn new(alloc: Global) -> Self {
        LabelCounts {
            counts: BTreeMap::new(alloc),
            others: 0,
        }
    }

    /// Counts a label once more. After [`MAX_LABELS`] different ones a new one is counted among others.
    pub(crate) fn add(&mut self, label: String) -> Result<(), AllocError> {
        if let Some(count) = self.counts.get_mut(label.as_str()) {
            *count = count.saturating_add(1);
            return Ok(());
        }
        self.add_new(label)
    }

    fn add_new(&mut self, label: String) -> Result<(), AllocError> {
        if self.counts.len() >= MAX_LABELS {
            self.others = self.others.saturating_add(1);
            return Ok(());
        }
        match self.counts.insert(label, 1) {
            Ok(_) => Ok(()),
            Err(_) => Err(AllocError),
        }
    }

    /// How often a label was counted.
    pub(crate) fn get(&self, label: &str) -> u64 {
        match self.counts.get(label) {
            Some(count) => *count,
            None => 0,
        }
    }

    /// How many labels that aren't kept were counted.
    pub(crate) fn others(&self) -> u64 {
        self.others
    }

    /// The labels in their order.
    pub(crate) fn in_order(&self, alloc: Global) -> Result<Vec<Count<'_>>, AllocError> {
        let mut list = Vec::new(alloc);
        for (label, count) in self.counts.iter() {
            list.push(Count {
                label: label.as_str(),
                count: *count,
            })?;
        }
        Ok(list)
    }

    /// The labels, those that were counted most first.
    pub(crate) fn by_count(&self, alloc: Global) -> Result<Vec<Count<'_>>, AllocError> {
        let mut list = self.in_order(alloc)?;
        list.sort_by_key(|each| !each.count)?;
        Ok(list)
    }
}
