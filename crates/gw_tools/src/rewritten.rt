//! A configuration, written anew: in format 3, or its rules as they are in force.

ghost use Rattle.std.specs.Prelude.{◌≡◌};
ghost use Rattle.gw_tools.specs.Rewritten.{IsListed, SaysMigrated, fault_of_listing, fault_of_migration};
ghost use Rattle.gw_tools.specs.Saying.{SaysMade, SaysOf};

use crate::placed::Placed;
use gw_configuration::Config;
use gw_ending::reading::Said;
use gw_ending::{Fault, MigrationFlaw};
use gw_policy_drafts::listing::{ListingFault, list_rules};
use gw_policy_drafts::migration::{MigrationFault, migrate};
use std::alloc::Global;

/// The fault of the program by that of writing a configuration in format 3.
fn fault_of_migration(fault: MigrationFault) -> Fault
    ensures { result ≡ fault_of_migration fault }
{
    match fault {
        MigrationFault::Already => Fault::Migration(MigrationFlaw::Already),
        MigrationFault::Unlike => Fault::Migration(MigrationFlaw::Unlike),
        MigrationFault::Memory => Fault::Memory,
    }
}

/// What `migrate` says of the configuration that was read. Faults: why there is none; `Migration`; and `Memory`.
pub fn say_in_format_three(alloc: Global, config: Result<Config, Fault>) -> Result<Said, Fault>
    ensures { SaysOf SaysMigrated config result }
{
    let config = config?;
    match migrate(alloc, &config) {
        Ok(text) => Ok(Said::well(text)),
        Err(fault) => Err(fault_of_migration(fault)),
    }
}

/// The fault of the program by that of listing the rules of a configuration.
fn fault_of_listing(fault: ListingFault) -> Fault
    ensures { result ≡ fault_of_listing fault }
{
    match fault {
        ListingFault::Unlike => Fault::Unlisted,
        ListingFault::Memory => Fault::Memory,
    }
}

/// What `rules` says of the configuration that was read. Faults: why there is none; `Unlisted`; and `Memory`.
pub fn say_rules(alloc: Global, placed: Result<Placed, Fault>) -> Result<Said, Fault>
    ensures { SaysOf (λ p. SaysMade (IsListed p)) placed result }
{
    let placed = placed?;
    match list_rules(alloc, &placed.config, &placed.lines) {
        Ok(tables) => Ok(Said::well(tables)),
        Err(fault) => Err(fault_of_listing(fault)),
    }
}
