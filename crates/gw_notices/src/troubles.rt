//! What isn't kept or recorded.

ghost use Rattle.std.specs.Prelude.{◌≡◌};
ghost use Rattle.gw_notices.specs.Notices.{no_troubles, of_state};

use gw_wire::StoreFault;

/// What of a gateway isn't kept or recorded.
#[derive(Clone, Copy)]
pub struct Troubles {
    /// Why the state isn't kept, if the last try failed.
    pub state: Option<StoreFault>,
    /// Whether lines of a policy on trial were lost.
    pub trial: bool,
    /// Whether lines of an audit were lost.
    pub audit: bool,
    /// Whether the trial ended, since the configuration in force has another format.
    pub ended: bool,
}

impl Troubles {
    /// None at all.
    pub fn none() -> Self
        ensures { result ≡ no_troubles }
    {
        Troubles::of_state(None)
    }

    /// That of the state alone.
    pub fn of_state(state: Option<StoreFault>) -> Self
        ensures { result ≡ of_state state }
    {
        Troubles {
            state,
            trial: false,
            audit: false,
            ended: false,
        }
    }
}
