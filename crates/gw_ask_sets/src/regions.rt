//! Regions of asks, and what two policies decide otherwise.
//!
//! A region has a set of values for each of the twelve fields. A rule parts it exactly: into the asks that
//! the rule matches, and pieces of those that it doesn't. So a comparison finds the regions in which one
//! policy allows what the other denies.
mod comparing;
mod comparison;
pub(crate) mod coverage;
mod crowding;
mod deciders;
mod deciding;
pub mod laws;
pub(crate) mod matching;
mod meeting;
mod merging;
pub(crate) mod pairs;
mod presence;
pub(crate) mod ranges;
pub(crate) mod region;
mod summary;
pub(crate) mod tidying;
mod unmatched;
mod values;
mod widening;

pub use comparing::{MAX_STEPS, Policies, compare};
pub use comparison::{Comparison, Found};
pub use deciders::{DEFAULT, default_rule};
pub use meeting::{ask_in, ask_of_both};
pub use merging::merge;
pub use pairs::{ALL_PAIR_STEPS, PAIR_STEPS, Pair, Pairs, ShownPair, pairs_of};
pub use ranges::{both, copy, copy_fields, shared, tidy, united, without};
pub use region::{Region, part};
pub use summary::{Summary, summarize, summary_of};
pub use tidying::{all_tidied, tidied};
pub use unmatched::{Searched, Unmatched, search_counted, search_unmatched};
pub use values::Values;
pub use widening::widen;
