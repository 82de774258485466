//! Laws of the edge to the system. The functions do nothing: their contracts are the laws.

ghost use Rattle.std.specs.Prelude.{◌≡◌};
ghost use Rattle.gw_system.specs.Request.{EmptyTakesAll, NamedTextAlone};

use crate::system_clock::FAILED_PAUSE;

/// After a clock that can't be read, and after a wait that failed, 100 milliseconds pass.
pub fn limits()
    ensures { FAILED_PAUSE ≡ 100 }
{}

/// A request that names a text has that one alone taken over: no other text is given of the configuration, unless it has the same
/// length and SHA-256. An empty one has all taken over that was read.
pub fn only_the_named_text()
    ensures empty { EmptyTakesAll }
    ensures named { NamedTextAlone }
{}
