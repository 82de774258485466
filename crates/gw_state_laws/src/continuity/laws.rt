//! Laws of what is saved of a gateway and of what is taken over, for each configuration that is accepted. The functions
//! change nothing: their contracts are the laws.
ghost use Rattle.gw_state_laws.specs.continuity.Laws.{HistoriesGoOn, NoTablesAreSaved, NothingIsLost, OnlyLastingChanges, RunsGoOn};
ghost use Rattle.gw_state_laws.specs.continuity.Laws.{SlotsAreCarried, SlotsAreKept, SlotsAreSaved, SlotsGoOn, StatesAreCarried};
ghost use Rattle.gw_state_laws.specs.continuity.Laws.{StatesAreKept, StatesGoOn, TablesAgree, ValuesStayInRange};

use crate::continuity::accepted::accepted;
use gw_configuration::Config;

/// A gateway that takes over what was saved of another one of the same configuration is in the same state: each port has its
/// table of peers and its foreign devices with the time that they have left, each learned route is there, each slot and each
/// default has its value, and the counts go on. So it does with each list of events what the other one would have done.
pub fn nothing_is_lost(config: &Config)
    ensures same { NothingIsLost config.now }
    ensures runs { RunsGoOn config.now }
{
    accepted(config);
}

/// After every history a gateway that takes over what was saved is in the state after that history: what is promised after a
/// history goes on being promised.
pub fn histories_go_on(config: &Config)
    ensures { HistoriesGoOn config.now }
{
    accepted(config);
}

/// A gateway is always in a state of its configuration: after every history, and whatever it takes over, also if that was
/// saved under another configuration; and each list of events leads to another such state.
pub fn states_are_kept(config: &Config)
    ensures histories { StatesAreKept config.now }
    ensures carried { StatesAreCarried config.now }
    ensures runs { StatesGoOn config.now }
{
    accepted(config);
}

/// Of a port that has another broadcast manager beside it no table is saved, and none is taken over: what it takes over are the
/// empty tables that its gateway has.
pub fn no_tables_beside_a_manager(config: &Config)
    ensures saved { NoTablesAreSaved config.now }
    ensures agree { TablesAgree }
{}

/// After every history the value of each slot that isn't empty, and each default, are in the range of their object.
pub fn values_stay_in_range(config: &Config)
    ensures { ValuesStayInRange config.now }
{
    accepted(config);
}

/// Each object always has sixteen slots, of which the sixth is empty (clause 19.2.3): after every history, after each list of events,
/// in what is saved, and in what takes over a saved state whose objects have such slots.
pub fn slots_are_kept(config: &Config)
    ensures histories { SlotsAreKept config.now }
    ensures runs { SlotsGoOn }
    ensures saved { SlotsAreSaved config.now }
    ensures carried { SlotsAreCarried config.now }
{}

/// Only two kinds of events last: those that are granted a table of peers (Annex J.4), and those by which the device makes a
/// write (clause 15.9). No other changes a table of peers, a slot or a default.
pub fn only_lasting_changes()
    ensures { OnlyLastingChanges }
{}
