//! The gateway: one event in, its sends and denials out.
//!
//! What an event does is defined in `specs/`, and each answer of a [`Gateway`] is proved to be that, for every history of events.
#![tactic(auto)]

mod asked;
mod deciders;
mod denial;
mod drops;
mod effects;
mod event;
mod explaining;
mod fault;
mod gateway;
mod guard;
mod heard;
mod receive;
mod reply;
mod reporting;
mod respond;
mod saving;
mod seen;
mod sieve;
mod streak;
mod whole_run;

pub use asked::{AllAsked, Asked};
pub use deciders::Deciders;
pub use denial::rule_name;
pub use drops::DropReason;
pub use effects::Effects;
pub use event::Counts;
pub use explaining::{append_asked, put_verdict};
pub use fault::StepFault;
pub use gateway::{Gateway, Reported, Taken};
pub use guard::{BothGuards, Guard, Unguarded};
pub use gw_audit::{Denial, Denials};
pub use gw_configuration::{Config, ConfigFault};
pub use gw_relay::{Batch, Sends};
pub use gw_script::{Event, script_laws};
pub use receive::Arrival;
pub use reporting::{AllAsks, DenialsAlone, Reporting, SeenBy};
pub use seen::{SeenAsks, Whom};
pub use streak::Streak;
pub use whole_run::{run, take_event, take_event_to};
