//! A gateway on a wire: what comes is taken, what is denied is logged, and what is to go is sent.
#![tactic(auto)]

mod ahead;
mod alike;
mod announcing;
mod keeper;
pub mod laws;
mod pace;
mod ports;
mod report;
mod seen;
mod serving;
mod stretch;
mod tally;
mod unwritten;

pub use ahead::MOST_AHEAD;
pub use alike::SavedPart;
pub use announcing::Announcing;
pub use keeper::Keeper;
pub use pace::{Pace, one_more};
pub use ports::{Health, PortSends, PortTally};
pub use report::{
    Report, has_gone_on, report_of, write_announcing, write_culprits, write_healths, write_ports,
    write_report,
};
pub use seen::Refusals;
pub use serving::{ServeFault, ServeState, ServeStop, Served, serve};
pub use stretch::StretchEnd;
pub use tally::{Culprit, Culprits, DropTally};
pub use unwritten::write_out;
