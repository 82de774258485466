//! The system that the program runs on: its log, its UDP sockets, its clock, what waits at the sockets, the file
//! of a state, and requests to read the configuration again.
//!
//! [`Host`] is what `run` takes of a machine; [`SystemHost`] is the machine of the process, whose sockets
//! and clock are a wire of `gw_wire`.
#![tactic(auto)]

mod disk;
mod file_log;
mod folder;
mod host;
mod laws;
mod making;
mod obstacle;
mod opening;
mod pause;
mod poll_waiter;
mod reading;
mod replacing;
mod request;
mod requests;
mod stamped_host;
mod store;
mod system_clock;
mod udp;

pub use disk::{Disk, SystemDisk};
pub use file_log::{FileLog, LogFile, LogFiles};
pub use folder::{Folder, SystemFolder};
pub use host::{Host, SystemHost, open_at_line};
pub use laws::only_the_named_text;
pub use making::MadeRequest;
pub use obstacle::{Obstacle, obstacle_words};
pub use opening::{FailedStep, LogFailure, OpenFailure, Reason, SocketFailure, Step, note_of};
pub use poll_waiter::PollWaiter;
pub use reading::{LOG_ENDS, ReadFailure};
pub use replacing::{FileName, replace_file, show_file};
pub use request::{Request, STATUS_REQUEST, STOP_REQUEST, reload_request};
pub use requests::{AskedFile, FileRequests, Requests};
pub use stamped_host::{StampedHost, into_log};
pub use store::{Access, FileStore, StoreKind};
pub use system_clock::SystemClock;
pub use udp::UdpSock;
