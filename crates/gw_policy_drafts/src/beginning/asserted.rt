//! Who isn't an operator: what is asserted of writes.

use crate::beginning::part::SitePart;
use crate::beginning::ports::address_of;
use gw_rules::Range;
use std::alloc::{AllocError, Global};

/// The greatest key of a sender.
const LAST_KEY: u64 = 0xFFFF_FFFF_FFFF;

/// The keys of the operators, in order.
fn keys_of(alloc: Global, operators: &[SitePart]) -> Result<Vec<u64>, AllocError> {
    let mut keys = Vec::new(alloc);
    for operator in operators {
        keys.push(address_of(*operator).key48())?;
    }
    keys.sort()?;
    Ok(keys)
}

/// The keys of all senders but the operators, in ranges.
pub(crate) fn gaps_of(alloc: Global, operators: &[SitePart]) -> Result<Vec<Range>, AllocError> {
    let keys = keys_of(alloc, operators)?;
    let mut gaps = Vec::new(alloc);
    let mut next = 0u64;
    for key in &keys {
        if next < *key {
            gaps.push(Range {
                low: next,
                high: *key - 1,
            })?;
        }
        next = key.saturating_add(1);
    }
    if next <= LAST_KEY {
        gaps.push(Range {
            low: next,
            high: LAST_KEY,
        })?;
    }
    Ok(gaps)
}
