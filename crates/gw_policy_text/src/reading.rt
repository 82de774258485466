//! What the values at the keys of a table are read to.
ghost use Rattle.std.specs.Prelude.{◌≡◌, ◌≤◌, [], length, map, IfOk};
ghost use Rattle.gw_addr.specs.Reading as plain;
ghost use Rattle.toml.specs.Data.{get_member};
ghost use Rattle.toml.specs.View.{table_view, view};
ghost use Rattle.gw_policy_text.specs.Parts.{address_at, at, list_at, list_or, mask_at, number_at, optional_boolean, optional_text, text_at};
ghost use Rattle.gw_configuration.specs.Reading.{Gives, NamesFault};

use crate::keys::value::{self, member, string};
use gw_addr::{BipAddr, Mask, NetNum};
use gw_configuration::{ConfigFault, Instance, Text};
use std::alloc::Global;
use toml::{Table, Value};

/// The value at a key. `Missing` where there is none.
pub(crate) fn at<'a>(key: &str, table: &'a Table) -> Result<&'a Value, ConfigFault>
    ensures { plain.Gives (λ v. view v.now) result (at key.now (table_view table.now)) }
{
    match member(table, key) {
        Some(value) => Ok(value),
        None => Err(ConfigFault::Missing),
    }
}

/// The number at a key, from `low` to `high`. `Missing`, `Kind` or `Range`.
pub(crate) fn number_at(low: u64, high: u64, key: &str, table: &Table) -> Result<u64, ConfigFault>
    ensures number { plain.Gives (λ n. n) result (number_at low high key.now (table_view table.now)) }
    ensures low { IfOk result (λ n. low ≤ n) }
    ensures high { IfOk result (λ n. n ≤ high) }
{
    value::number(low, high, at(key, table)?)
}

/// The number of 16 bits at a key. `Missing`, `Kind` or `Range`.
pub(crate) fn short_at(key: &str, table: &Table) -> Result<u16, ConfigFault>
    ensures { plain.Gives (λ n. n) result (number_at 0 65535 key.now (table_view table.now)) }
{
    Ok(number_at(0, 65535, key, table)? as u16)
}

/// The number of 8 bits at a key. `Missing`, `Kind` or `Range`.
pub(crate) fn octet_at(key: &str, table: &Table) -> Result<u8, ConfigFault>
    ensures { plain.Gives (λ n. n) result (number_at 0 255 key.now (table_view table.now)) }
{
    Ok(number_at(0, 255, key, table)? as u8)
}

/// The number of 32 bits at a key. `Missing`, `Kind` or `Range`.
pub(crate) fn long_at(key: &str, table: &Table) -> Result<u32, ConfigFault>
    ensures { plain.Gives (λ n. n) result (number_at 0 4294967295 key.now (table_view table.now)) }
{
    Ok(number_at(0, 4_294_967_295, key, table)? as u32)
}

/// The instance at a key. `Missing`, `Kind` or `Range`.
pub(crate) fn instance_at(key: &str, table: &Table) -> Result<Instance, ConfigFault>
    ensures { plain.Gives (λ n. n) result (number_at 0 4194302 key.now (table_view table.now)) }
{
    let number = number_at(0, 4_194_302, key, table)? as u32;
    Instance::new(number).ok_or(ConfigFault::Range)
}

/// The network at a key. `Missing`, `Kind` or `Range`.
pub(crate) fn network_at(key: &str, table: &Table) -> Result<NetNum, ConfigFault>
    ensures { plain.Gives (λ n. n) result (number_at 1 65534 key.now (table_view table.now)) }
{
    let number = number_at(1, 65534, key, table)? as u16;
    NetNum::new(number).ok_or(ConfigFault::Range)
}

/// The address at a key. `Missing`, `Kind` or `Range`.
pub(crate) fn address_at(key: &str, table: &Table) -> Result<BipAddr, ConfigFault>
    ensures { plain.Gives (λ a. a) result (address_at key.now (table_view table.now)) }
{
    value::address(at(key, table)?)
}

/// The mask at a key. `Missing`, `Kind` or `Range`.
pub(crate) fn mask_at(key: &str, table: &Table) -> Result<Mask, ConfigFault>
    ensures { plain.Gives (λ m. m) result (mask_at key.now (table_view table.now)) }
{
    value::mask(at(key, table)?)
}

/// The text at a key, of at least so many octets and at most 255. `Missing`, `Kind`, `Range` or
/// `Memory`.
pub(crate) fn text_at(
    alloc: Global,
    least: usize,
    key: &str,
    table: &Table,
) -> Result<Text, ConfigFault>
    ensures text { Gives (λ t. t) result (text_at least key.now (table_view table.now)) }
    ensures fault_named { NamesFault result (text_at least key.now (table_view table.now)) }
    ensures least { IfOk result (λ t. least ≤ length t) }
{
    match string(at(key, table)?) {
        Some(text) => Text::new(alloc, least, text),
        None => Err(ConfigFault::Kind),
    }
}

/// The text at a key that may be missing. `Kind`, `Range` or `Memory`.
pub(crate) fn optional_text(
    alloc: Global,
    default: &str,
    key: &str,
    table: &Table,
) -> Result<Text, ConfigFault>
    ensures text { Gives (λ t. t) result (optional_text default.now key.now (table_view table.now)) }
    ensures fault_named { NamesFault result (optional_text default.now key.now (table_view table.now)) }
{
    match member(table, key) {
        Some(value) => match string(value) {
            Some(text) => Text::new(alloc, 0, text),
            None => Err(ConfigFault::Kind),
        },
        None => Text::new(alloc, 0, default),
    }
}

/// The boolean at a key that may be missing. `Kind`.
pub(crate) fn optional_boolean(default: bool, key: &str, table: &Table) -> Result<bool, ConfigFault>
    ensures { plain.Gives (λ b. b) result (optional_boolean default key.now (table_view table.now)) }
{
    match member(table, key) {
        Some(value) => value::boolean(value),
        None => Ok(default),
    }
}

/// The values of the list at a key that may be missing, however many. `Kind` where there is no
/// list.
pub(crate) fn any_list<'a>(key: &str, table: &'a Table) -> Result<&'a [Value], ConfigFault>
    ensures { plain.Gives (λ vs. map view vs.now) result (list_or (get_member key.now (table_view table.now))) }
{
    match member(table, key) {
        Some(value) => value::list(value),
        None => Ok(&[]),
    }
}

/// The values of the list at a key that may be missing, `least` to `most` of them. `Kind`, `Range`
/// or `TooMany`.
#[tactic(auto, using(crate::proofs::keys_lemmas::Values::length_view))]
pub(crate) fn list_at<'a>(
    least: usize,
    most: usize,
    key: &str,
    table: &'a Table,
) -> Result<&'a [Value], ConfigFault>
    ensures values { plain.Gives (λ vs. map view vs.now) result (list_at least most key.now (table_view table.now)) }
    ensures least { IfOk result (λ vs. least ≤ length vs.now) }
    ensures most { IfOk result (λ vs. length vs.now ≤ most) }
{
    let values = any_list(key, table)?;
    if values.len() < least {
        return Err(ConfigFault::Range);
    }
    if most < values.len() {
        return Err(ConfigFault::TooMany);
    }
    Ok(values)
}
