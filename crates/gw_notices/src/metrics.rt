//! Metrics of a gateway, as a text that a collector reads: the exposition format 0.0.4 of Prometheus.
//!
//! [`put_metrics`] appends the text of [`GatewayCounts`], a [`Family`] after the other, and [`Metrics`] puts it into a store,
//! every ten ticks.

mod counts;
mod escape;
mod family;
mod file;
pub mod laws;
mod text;

pub use counts::{Drops, GatewayCounts, PortCounts, Reloads, StateTries};
pub use family::{Family, FamilyKind, SampleLabel};
pub use file::Metrics;
pub use text::put_metrics;
