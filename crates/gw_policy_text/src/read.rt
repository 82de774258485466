//! A configuration as it is read from its text.
ghost use Rattle.std.specs.Prelude.{◌≡◌, ◌<◌, ◌≤◌, Err, length};
ghost use Rattle.std.specs.Str.{IsUtf8};
ghost use Rattle.toml.specs.View.{table_view};
ghost use Rattle.gw_policy_text.specs.Document.{configuration, configuration_of, document};
ghost use Rattle.gw_policy_text.specs.keys.Field.{located_in};
ghost use Rattle.gw_configuration.specs.Reading.{Finds, Gives, NamesLocated};
ghost use Rattle.gw_policy_text.specs.keys.Tables.{format_in, top_fields};
ghost use Rattle.gw_configuration.specs.declared.fault.ConfigFault.TheVariants.{NotToml, TooMany};
ghost use Rattle.gw_configuration.specs.declared.located.Place.TheVariants as places;

use crate::keys::tables::{format_of, top_located};
use crate::parts::parts;
use gw_configuration::{Config, ConfigFault, Located};
use std::alloc::Global;
use toml::Table;

/// How many octets the text of a configuration has at most.
pub const MAX_OCTETS: usize = 1_048_576;

/// Reads a configuration.
///
/// The first fault on the way is reported: `TooMany` if the text has more than 1,048,576 octets;
/// `NotToml` if it isn't UTF-8 or no TOML document; then the tables are visited, the top one,
/// the device, each port followed by its peers, each route, each object, in format 3 each set, and each rule, and of each
/// are judged in this order `UnknownKey`, `Missing`, `Kind`, `Range` and `TooMany`, each for the
/// whole table; last of all `Duplicate`. `Memory` if there is none for what would be judged
/// next: a text that is too long, or isn't UTF-8, takes none.
pub fn read_config(alloc: Global, text: &[u8]) -> Result<Config, ConfigFault>
    ensures configuration { Gives (λ c. c) result (configuration text.now) }
    ensures too_long { 1048576 < length text.now → result ≡ Err TooMany }
    ensures no_text { length text.now ≤ 1048576 → ¬ (IsUtf8 text.now) → result ≡ Err NotToml }
{
    if text.len() > MAX_OCTETS {
        return Err(ConfigFault::TooMany);
    }
    let top = document(alloc, text)?;
    match config_of(alloc, &top) {
        Ok(config) => Ok(config),
        Err(located) => Err(located.fault),
    }
}

/// The TOML document that a text is, of any length. `NotToml` where it is none, or `Memory`: not where
/// it isn't UTF-8, which is judged without.
pub fn document(alloc: Global, text: &[u8]) -> Result<Table, ConfigFault>
    ensures document { Gives (λ t. table_view t) result (document text.now) }
    ensures no_text { ¬ (IsUtf8 text.now) → result ≡ Err NotToml }
{
    let Ok(text) = str::from_utf8(text) else {
        return Err(ConfigFault::NotToml);
    };
    match toml::table_from_str(alloc, text) {
        Ok(table) => Ok(table),
        Err(error) if error.is_memory() => Err(ConfigFault::Memory),
        Err(_) => Err(ConfigFault::NotToml),
    }
}

/// The configuration of a document, or its first fault with its place. [`read_config`] says which is
/// the first.
#[tactic(auto, unfolding(crate::specs::Document::configuration_of))]
pub fn config_of<'a>(alloc: Global, top: &'a Table) -> Result<Config, Located<'a>>
    ensures configuration { Finds (λ c. c) result (configuration_of (table_view top.now)) }
    ensures fault_named { NamesLocated result (located_in places.Top (top_fields (format_in (table_view top.now))) (table_view top.now)) }
{
    match top_located(format_of(top), top) {
        Some(located) => Err(located),
        None => Config::of_parts(alloc, parts(alloc, top)?),
    }
}
