//! What an operator reads of a run: the line at its start, what became of a configuration that was read again, what isn't
//! kept or recorded, the counts of a report, and metrics.
#![tactic(auto)]

mod checksum;
mod line;
mod losses;
pub mod metrics;
mod note;
mod notices;
mod parts;
mod reload;
pub mod rule_changes;
mod startup;
mod stats;
mod troubles;
mod watch_report;

pub use checksum::Checksum;
pub use line::{line_with_place, name_of, refusal_line, reload_line};
pub use losses::Losses;
pub use note::write_note;
pub use notices::{no_status_line, report_metrics, report_notices, stop_line, untaken_line};
pub use parts::{ConfigurationPart, push_unless, trial_line};
pub use reload::{ReloadCounts, ReloadFault};
pub use startup::{startup_line, warning_of};
pub use stats::{write_lost_metrics, write_put_off, write_reloads, write_unkept};
pub use troubles::Troubles;
pub use watch_report::{LogCount, WatchCounts, write_counts, write_watched};
