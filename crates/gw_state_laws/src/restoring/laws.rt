//! Laws of what is saved of a gateway and of its text, for each configuration that is accepted. The functions change
//! nothing: their contracts are the laws.

ghost use Rattle.std.specs.Prelude.{IsFalse};
ghost use Rattle.gw_configuration.specs.Duplicates.{has_duplicates};
ghost use Rattle.gw_state_laws.specs.restoring.Laws.{CountsLeaveThemSo, NewOnesAre, ReloadedOnesAre, ResumedOnesAre, TheyStaySo};
ghost use Rattle.gw_state_laws.specs.restoring.Laws.{NumberedOnesAreRead, NumberedOnesFit, SavedOnesAreRead, SavedOnesAreRestored};
ghost use Rattle.gw_state_laws.specs.restoring.Laws.{SavedOnesFit};

use crate::continuity::laws::{nothing_is_lost, slots_are_kept, states_are_kept};
use crate::restoring::typed::typed;
use gw_configuration::Config;
use gw_state::Saved;

/// Nothing appears twice in a configuration that may appear only once.
fn is_unique(config: &Config)
    ensures { IsFalse (has_duplicates config.now) }
{
    let _ports = config.ports();
}

/// A gateway of a configuration is always in a state of it in which each object has its slots (`IsGatewayOf`): if it
/// began new, after every history; if it took over a saved state that was read, or what is saved of a gateway in such a
/// state, at once, under whatever configuration that was saved; and after each list of events from there, and with
/// other counts.
pub fn gateways_are(config: &Config)
    ensures new { NewOnesAre config.now }
    ensures resumed { ResumedOnesAre config.now }
    ensures reloaded { ReloadedOnesAre config.now }
    ensures runs { TheyStaySo config.now }
    ensures counts { CountsLeaveThemSo config.now }
{
    states_are_kept(config);
    slots_are_kept(config);
}

/// What is saved of a gateway in such a state fits its text: entries, devices, routes and objects within their
/// limits, none of them twice, and each value in its range. So its text is read, as what was saved; and what takes
/// that over under the same configuration is in the same state. It fits and is read with another number of its last denial, too, as a
/// keeper writes it.
pub fn what_is_saved_fits(config: &Config, saved: &Saved)
    ensures fit { SavedOnesFit config.now saved.now }
    ensures read { SavedOnesAreRead config.now saved.now }
    ensures restored { SavedOnesAreRestored config.now saved.now }
    ensures numbered_fit { NumberedOnesFit config.now saved.now }
    ensures numbered_read { NumberedOnesAreRead config.now saved.now }
{
    is_unique(config);
    typed(saved);
    nothing_is_lost(config);
    gw_state_text::laws::reading();
}
