//! Items for a field of a rule of format 3: besides values and lists of two they are names, stations and
//! sets.
ghost use Rattle.std.specs.Prelude.{◌≡◌, map, find, option_copied, option_map, IfOk, IfSome, IsTrue, OnOk};
ghost use Rattle.std.specs.List.{list_all, list_any};
ghost use Rattle.std.specs.Result.{result_err};
ghost use Rattle.gw_addr.specs.Reading as plain;
ghost use Rattle.gw_rules.specs.Bounds.{is_within};
ghost use Rattle.gw_rules.specs.Range.{holds};
ghost use Rattle.toml.specs.View.{table_view, view};
ghost use Rattle.gw_configuration.specs.Subnet.{keys_of};
ghost use Rattle.gw_configuration.specs.Reading.{Gives};
ghost use Rattle.gw_policy_text.specs.keys.Field.{has_too_many};
ghost use Rattle.gw_policy_text.specs.keys.Items.{added_to, address_end, addresses_written, count_of, end_in, end_written, is_set_named, items_in, items_named, items_of_set, key_with, keys_of_host, mac_if, name_after_at, name_of_set, named_in, number_named, number_of, of_one_length, only, ranges_in, set_item_fault, set_name_in, span_in, spans_in, station_bounds, station_ends, stations_between, stations_from, stations_in, stations_written};
ghost use Rattle.gw_policy_text.specs.keys.Range.{bounds_of, field_named, is_kind};
ghost use Rattle.gw_policy_text.specs.keys.Value.{reading};
ghost use Rattle.gw_policy_text.specs.keys.Written.{subnet_written};
ghost use Rattle.toml.specs.Data.{as_str};

use crate::keys::range::{self, range};
use crate::keys::value::{self, list, string};
use gw_addr::{BipAddr, Mask};
use gw_codecs::names::{object_type_number, property_number, service_number};
use gw_configuration::{ConfigFault, Names, Scalar, Subnet};
use gw_rules::{FieldName, Format, MAX_LONG_RANGES, Range, Ranges};
use std::alloc::Global;
use toml::Value;

/// What the keys of stations of two lengths differ by at least, but for that of six octets: the place of their highest
/// octet.
const LENGTH: u64 = 1 << 56;

/// The last UDP port.
const LAST_PORT: u16 = u16::MAX;

/// The number of a name.
fn number_of(names: Names, name: &str) -> Option<u64>
    ensures number { result ≡ number_of names name.now }
    ensures held { IfSome result (λ n. IsTrue (is_within (bounds_of (Scalar.Named names)) (only n))) }
{
    match names {
        Names::Services => service_number(name),
        Names::ObjectTypes => object_type_number(name),
        Names::Properties => property_number(name),
    }
}

/// The field of which a value may be written by one of these names.
fn field_of(names: Names) -> FieldName
    ensures { result ≡ field_named names }
{
    match names {
        Names::Services => FieldName::Service,
        Names::ObjectTypes => FieldName::ObjectType,
        Names::Properties => FieldName::Property,
    }
}

/// The range that a number, a name or a list of two numbers is. `Kind` or `Range`.
pub fn named(names: Names, value: &Value) -> Result<Range, ConfigFault>
    ensures range { plain.Gives (λ r. r) result (named_in names (view value.now)) }
    ensures within { IfOk result (λ r. IsTrue (is_within (bounds_of (Scalar.Named names)) r)) }
{
    match string(value) {
        Some(text) => match number_of(names, text) {
            Some(number) => Ok(Range::only(number)),
            None => Err(ConfigFault::Range),
        },
        None => range(number_named(names), value),
    }
}

/// A number of the field that has these names.
fn number_named(names: Names) -> Scalar
    ensures { result ≡ number_named names }
{
    let bounds = field_of(names).bounds(Format::Three);
    Scalar::Number {
        low: bounds.low,
        high: bounds.high,
    }
}

/// The key of an IPv4 address, which is written as a mask is, with this UDP port.
fn key_with(udp: u16, ip: Mask) -> u64
    ensures number { result ≡ key_with udp ip }
    ensures held { IsTrue (holds result (bounds_of Scalar.Stations)) }
{
    let ip = ip.octets;
    range::key(BipAddr { ip, udp })
}

/// The key of the station that a text names by its octets, where stations of every length may be named.
fn mac_if(every: bool, text: &str) -> Option<u64>
    ensures number { result ≡ mac_if every text.now }
    ensures held { IfSome result (λ n. IsTrue (holds n (station_bounds every))) }
{
    if every { value::mac_of(text) } else { None }
}

/// The end of a range that a text is: an address, an IPv4 address with this UDP port, or a station by its octets.
fn end_written(every: bool, udp: u16, text: &str) -> Option<u64>
    ensures number { result ≡ end_written every udp text.now }
    ensures held { IfSome result (λ n. IsTrue (holds n (station_bounds every))) }
{
    match address_end(udp, text) {
        Some(key) => Some(key),
        None => mac_if(every, text),
    }
}

fn address_end(udp: u16, text: &str) -> Option<u64>
    ensures number { result ≡ address_end udp text.now }
    ensures held { IfSome result (λ n. IsTrue (holds n (bounds_of Scalar.Stations))) }
{
    match value::address_of(text) {
        Some(address) => Some(range::key(address)),
        None => match value::mask_of(text) {
            Some(ip) => Some(key_with(udp, ip)),
            None => None,
        },
    }
}

fn end(every: bool, udp: u16, value: &Value) -> Result<u64, ConfigFault>
    ensures number { plain.Gives (λ n. n) result (end_in every udp (view value.now)) }
    ensures held { IfOk result (λ n. IsTrue (holds n (station_bounds every))) }
{
    match string(value) {
        Some(text) => end_written(every, udp, text).ok_or(ConfigFault::Range),
        None => Err(ConfigFault::Kind),
    }
}

/// The stations that a text is: one by its address, those at every UDP port of an IPv4 address or of a subnet, or one
/// by its octets.
fn stations_written(every: bool, text: &str) -> Option<Range>
    ensures range { result ≡ stations_written every text.now }
    ensures within { IfSome result (λ r. IsTrue (is_within (station_bounds every) r)) }
{
    match addresses_written(text) {
        Some(range) => Some(range),
        None => match mac_if(every, text) {
            Some(key) => Some(Range::only(key)),
            None => None,
        },
    }
}

fn addresses_written(text: &str) -> Option<Range>
    ensures range { result ≡ addresses_written text.now }
    ensures within { IfSome result (λ r. IsTrue (is_within (bounds_of Scalar.Stations) r)) }
{
    match value::address_of(text) {
        Some(address) => Some(Range::only(range::key(address))),
        None => match value::mask_of(text) {
            Some(ip) => Some(keys_of_host(ip)),
            None => keys_of_subnet(text),
        },
    }
}

fn keys_of_subnet(text: &str) -> Option<Range>
    ensures range { result ≡ option_map keys_of (subnet_written text.now) }
    ensures within { IfSome result (λ r. IsTrue (is_within (bounds_of Scalar.Stations) r)) }
{
    match value::subnet_of(text) {
        Some(subnet) => Some(subnet.keys()),
        None => None,
    }
}

fn keys_of_host(ip: Mask) -> Range
    ensures range { result ≡ keys_of_host ip }
    ensures within { IsTrue (is_within (bounds_of Scalar.Stations) result) }
{
    Range {
        low: key_with(0, ip),
        high: key_with(LAST_PORT, ip),
    }
}

fn have_kind(every: bool, ends: &[Value]) -> bool
    ensures { result ≡ list_any (λ value. is_kind (result_err (end_in every 0 (view value)))) ends.now }
{
    ends.iter().any(|value| matches!(end(every, 0, value), Err(ConfigFault::Kind)))
}

fn between(every: bool, low: &Value, high: &Value) -> Result<Range, ConfigFault>
    ensures range { plain.Gives (λ r. r) result (stations_from every (view low.now) (view high.now)) }
    ensures within { IfOk result (λ r. IsTrue (is_within (station_bounds every) r)) }
{
    let low = end(every, 0, low)?;
    let high = end(every, LAST_PORT, high)?;
    of_one_length(low, high)
}

/// The range of two keys of stations of one length.
fn of_one_length(low: u64, high: u64) -> Result<Range, ConfigFault>
    ensures { plain.Gives (λ r. r) result (of_one_length low high) }
{
    if low / LENGTH == high / LENGTH {
        range::ordered(low, high)
    } else {
        Err(ConfigFault::Range)
    }
}

fn station_ends(every: bool, ends: &[Value]) -> Result<Range, ConfigFault>
    ensures range { plain.Gives (λ r. r) result (station_ends every (map view ends.now)) }
    ensures within { IfOk result (λ r. IsTrue (is_within (station_bounds every) r)) }
{
    match ends {
        [low, high] => between(every, low, high),
        _ => Err(ConfigFault::Range),
    }
}

/// A list of two, low and high; a value of a wrong kind in it comes before all else.
#[tactic(auto, using(crate::proofs::keys_lemmas::Values::any_view))]
fn stations_between(every: bool, ends: &[Value]) -> Result<Range, ConfigFault>
    ensures range { plain.Gives (λ r. r) result (stations_between every (map view ends.now)) }
    ensures within { IfOk result (λ r. IsTrue (is_within (station_bounds every) r)) }
{
    if have_kind(every, ends) {
        return Err(ConfigFault::Kind);
    }
    station_ends(every, ends)
}

/// The range of the stations that a text or a list of two is, of six octets or of every length. `Kind` or `Range`.
pub fn stations(every: bool, value: &Value) -> Result<Range, ConfigFault>
    ensures range { plain.Gives (λ r. r) result (stations_in every (view value.now)) }
    ensures within { IfOk result (λ r. IsTrue (is_within (station_bounds every) r)) }
{
    match list(value) {
        Ok(ends) => stations_between(every, ends),
        Err(_) => stations_of(every, value),
    }
}

fn stations_of(every: bool, value: &Value) -> Result<Range, ConfigFault>
    ensures range { plain.Gives (λ r. r) result (reading (stations_written every) (as_str (view value.now))) }
    ensures within { IfOk result (λ r. IsTrue (is_within (station_bounds every) r)) }
{
    match string(value) {
        Some(text) => stations_written(every, text).ok_or(ConfigFault::Range),
        None => Err(ConfigFault::Kind),
    }
}

/// The range that an item names that names no set, within the bounds of such values. `Kind` or `Range`.
pub fn span(of: Scalar, item: &Value) -> Result<Range, ConfigFault>
    ensures range { plain.Gives (λ r. r) result (span_in of (view item.now)) }
    ensures within { IfOk result (λ r. IsTrue (is_within (bounds_of of) r)) }
{
    match of {
        Scalar::Named(names) => named(names, item),
        Scalar::Stations => stations(false, item),
        Scalar::AnyStations => stations(true, item),
        _ => range(of, item),
    }
}

/// The name of the set that an item names: a text `@NAME`.
pub fn set_name(item: &Value) -> Option<&str>
    ensures { option_map (λ t. t.now) result ≡ set_name_in (view item.now) }
{
    match string(item) {
        Some(text) => name_after_at(text),
        None => None,
    }
}

fn name_after_at(text: &str) -> Option<&str>
    ensures { option_map (λ t. t.now) result ≡ name_after_at text.now }
{
    text.strip_prefix('@')
}

/// The name of a set, by its table.
fn name_of_set(set: &Value) -> Option<&str>
    ensures { option_map (λ t. t.now) result ≡ name_of_set (view set.now) }
{
    match value::member_of(set, "name") {
        Some(name) => string(name),
        None => None,
    }
}

/// The items of a set, by its table.
fn items_of_set(set: &Value) -> Option<&[Value]>
    ensures { option_map (λ items. map view items.now) result ≡ items_of_set (view set.now) }
{
    match value::member_of(set, "items") {
        Some(items) => value::values(items),
        None => None,
    }
}

fn is_set_named(name: &str, set: &Value) -> bool
    ensures { result ≡ is_set_named name.now (view set.now) }
{
    match name_of_set(set) {
        Some(own) => own == name,
        None => false,
    }
}

fn set_named<'a>(sets: &'a [Value], name: &str) -> Option<&'a Value>
    ensures { option_copied result ≡ find (λ set. is_set_named name.now (view set)) sets.now }
{
    sets.iter().find(|set| is_set_named(name, set))
}

/// The items of the first set of that name, by the tables of the sets.
#[tactic(auto, using(crate::proofs::keys_lemmas::Values::find_view))]
pub fn items_named<'a>(sets: &'a [Value], name: &str) -> Option<&'a [Value]>
    ensures { option_map (λ items. map view items.now) result ≡ items_named name.now (map view sets.now) }
{
    match set_named(sets, name) {
        Some(set) => items_of_set(set),
        None => None,
    }
}

/// The fault of an item for a field of a rule: the first of `Kind` and `Range` that it has, or that the
/// items of the set have that it names.
pub fn fault(sets: &[Value], of: Scalar, item: &Value) -> Option<ConfigFault>
    ensures { result ≡ result_err (items_in (map view sets.now) of (view item.now)) }
{
    match set_name(item) {
        Some(name) => match items_named(sets, name) {
            Some(items) => spans_fault(of, items),
            None => Some(ConfigFault::Range),
        },
        None => span(of, item).err(),
    }
}

/// The fault of the items of a set: `Kind` of any comes before `Range`.
#[tactic(auto, using(crate::proofs::keys_lemmas::Values::any_view))]
fn spans_fault(of: Scalar, items: &[Value]) -> Option<ConfigFault>
    ensures { result ≡ result_err (spans_in of (map view items.now)) }
{
    if have_span_kind(of, items) {
        return Some(ConfigFault::Kind);
    }
    for item in items {
        if let Err(fault) = span(of, item) {
            return Some(fault);
        }
    }
    None
}

fn have_span_kind(of: Scalar, items: &[Value]) -> bool
    ensures { result ≡ list_any (λ item. is_kind (result_err (span_in of (view item)))) items.now }
{
    items
        .iter()
        .any(|item| matches!(span(of, item), Err(ConfigFault::Kind)))
}

/// How many ranges an item names.
fn count_of(sets: &[Value], item: &Value) -> usize
    ensures { result ≡ count_of (map view sets.now) (view item.now) }
{
    match set_name(item) {
        Some(name) => match items_named(sets, name) {
            Some(items) => items.len(),
            None => 0,
        },
        None => 1,
    }
}

/// Whether items name more than 256 ranges once sets are put in.
#[tactic(auto, using(crate::proofs::keys_lemmas::Values::sum_view))]
pub(crate) fn has_too_many(sets: &[Value], items: &[Value]) -> bool
    ensures { result ≡ has_too_many (map view sets.now) (map view items.now) }
{
    let mut left = MAX_LONG_RANGES;
    for item in items {
        match left.checked_sub(count_of(sets, item)) {
            Some(rest) => left = rest,
            None => return true,
        }
    }
    false
}

/// The ranges that items name, in order, each within the bounds of such values. `Kind` or `Range` of the
/// first that has a fault; `Memory` if there is none for them.
pub fn ranges(
    alloc: Global,
    sets: &[Value],
    of: Scalar,
    items: &[Value],
) -> Result<Ranges, ConfigFault>
    ensures ranges { Gives (λ rs. rs) result (ranges_in (map view sets.now) of (map view items.now)) }
    ensures within { IfOk result (λ rs. IsTrue (list_all (is_within (bounds_of of)) rs)) }
{
    let mut all = Ranges::new(alloc);
    for item in items {
        add_item(&mut all, sets, of, item)?;
    }
    Ok(all)
}

/// Adds the ranges that an item names to those that are there.
fn add_item(all: &mut Ranges, sets: &[Value], of: Scalar, item: &Value) -> Result<(), ConfigFault>
    ensures ranges { Gives (λ _. all.new) result
        (added_to all.old (items_in (map view sets.now) of (view item.now))) }
    ensures within { OnOk result (IsTrue (list_all (is_within (bounds_of of)) all.old)
        → IsTrue (list_all (is_within (bounds_of of)) all.new)) }
{
    match set_name(item) {
        Some(name) => match items_named(sets, name) {
            Some(items) => add_spans(all, of, items),
            None => Err(ConfigFault::Range),
        },
        None => {
            all.push(span(of, item)?)?;
            Ok(())
        }
    }
}

/// Adds the ranges of the items of a set to those that are there.
#[tactic(auto, using(crate::proofs::keys_lemmas::Values::any_view))]
fn add_spans(all: &mut Ranges, of: Scalar, items: &[Value]) -> Result<(), ConfigFault>
    ensures ranges { Gives (λ _. all.new) result (added_to all.old (spans_in of (map view items.now))) }
    ensures within { OnOk result (IsTrue (list_all (is_within (bounds_of of)) all.old)
        → IsTrue (list_all (is_within (bounds_of of)) all.new)) }
{
    if have_span_kind(of, items) {
        return Err(ConfigFault::Kind);
    }
    for item in items {
        all.push(span(of, item)?)?;
    }
    Ok(())
}

/// The fault of an item of a set as it is written: `Kind` if it is neither a text, a whole number nor a
/// list; `Range` if it is a list that isn't of two, or a text that begins with `@`.
pub fn set_item_fault(item: &Value) -> Option<ConfigFault>
    ensures { result ≡ set_item_fault (view item.now) }
{
    if let Some(ends) = value::values(item) {
        return if ends.len() == 2 {
            None
        } else {
            Some(ConfigFault::Range)
        };
    }
    match string(item) {
        Some(text) if name_after_at(text).is_some() => Some(ConfigFault::Range),
        Some(_) => None,
        None if item.as_integer().is_some() => None,
        None => Some(ConfigFault::Kind),
    }
}
