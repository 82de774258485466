//! A configuration to begin with, written from the words of a call: its ports, their peers, routers, operators and managers.
mod asserted;
mod begun;
mod fault;
mod flaws;
mod part;
mod ports;
mod site;
mod text;

pub use begun::begin;
pub use fault::{BeginFault, Flaw, WrongWord, wrong_line};
pub use flaws::{MAX_OPERATORS, MAX_PORT_PEERS, MAX_ROUTERS};
pub use part::SiteOption;
pub use site::SiteInWords;
