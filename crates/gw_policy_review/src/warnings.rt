//! What of a configuration is accepted and can't be meant.
mod audit_warnings;
mod device_warnings;
mod oddity;
mod oversights;
mod peer_warnings;
mod port_warnings;
mod route_warnings;
mod rule_oversights;
mod rule_warnings;
mod set_warnings;
mod spot;
mod station_oversights;
mod subnet;
mod warnings;

pub use oversights::put_oversights;
pub(crate) use rule_oversights::{admits_number, holds_number, passes_to, share};
pub(crate) use station_oversights::is_near;
pub use station_oversights::is_station;
pub use warnings::put_warnings;
