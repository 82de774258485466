//! The gateway at work: what `run` opens, and a gateway that serves it, also one that keeps its state and reads its
//! configuration again.
#![tactic(auto)]

mod counts;
mod differing;
mod edition;
mod fault;
mod holding;
mod holding_run;
mod keeping;
mod kept;
pub mod laws;
mod metrics;
mod order;
mod reload;
mod running;
mod serving;
mod stamped_run;
mod start;
mod stats;
mod successor;
mod waiting;
mod watch;
mod watched;

pub use edition::Edition;
pub use fault::ServiceFault;
pub use gw_configuration::RunOptions;
pub use holding::Holding;
pub use holding_run::HoldingRun;
pub use keeping::StateKeeper;
pub use order::Order;
pub use reload::{Adopted, reloaded};
pub use running::Running;
pub use serving::serve_ports;
pub use stamped_run::serve_run;
pub use stats::Schedule;
pub use successor::Successor;
pub use waiting::Waiting;
