//! What a program reads and prints: files, the configuration of one, where its fault is, and which of its assertions don't hold.
//!
//! [`ConfigFiles`] are what texts are read from, [`configuration_in`] is the configuration of one, and [`print`] writes to
//! standard output.
mod assertions;
mod configured;
mod files;
mod places;
mod printing;

pub use assertions::{do_hold, judged_text, print_judged, put_unheld, said_of_judged};
pub use configured::{configuration, configuration_in, configuration_of, summary};
pub use files::{ConfigFiles, SystemFiles};
pub use places::report_place;
pub use printing::{Said, fault_note, print, print_ending, print_made, print_said};
