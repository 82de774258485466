//! The limits of what is saved. The function does nothing: its contract says the numbers.
ghost use Rattle.std.specs.Prelude.{◌≡◌, ◌^◌};

use crate::MAX_COUNT;
use gw_addr::MAX_PORTS;
use gw_configuration::MAX_OBJECTS;
use gw_tables::routes::MAX_ROUTES;

/// At most 8 ports, 512 routes and 256 value objects are saved, and no count is past 2 to the power of 63.
pub fn limits()
    ensures ports { MAX_PORTS ≡ 8 }
    ensures routes { MAX_ROUTES ≡ 512 }
    ensures objects { MAX_OBJECTS ≡ 256 }
    ensures counts { MAX_COUNT ≡ 2 ^ 63 }
{}
