//! Items for a field of a rule: one value, or a list of two, low and high. Formats 1 and 2 have no others.
ghost use Rattle.std.specs.Prelude.{◌≡◌, map, IfOk, IsTrue};
ghost use Rattle.std.specs.List.{list_any};
ghost use Rattle.std.specs.Result.{result_err};
ghost use Rattle.gw_addr.specs.Address.{big_endian, octets_of};
ghost use Rattle.gw_addr.specs.Reading.{Gives};
ghost use Rattle.gw_rules.specs.declared.field.FieldName.TheVariants as fields;
ghost use Rattle.gw_rules.specs.Bounds.{bounds, is_within};
ghost use Rattle.gw_rules.specs.Range.{holds};
ghost use Rattle.toml.specs.View.{view};
ghost use Rattle.gw_rules.specs.declared.format.Format.TheVariants as formats;
ghost use Rattle.gw_policy_text.specs.keys.Range.{between, bounds_of, is_kind, ordered, point_in, range_between, range_in, range_of_list, two_ends};

use crate::keys::value::{address, deed, list, number, whole_address};
use gw_addr::BipAddr;
use gw_configuration::{ConfigFault, Scalar};
use gw_rules::Range;
use toml::Value;

/// The number by which rules know a value.
fn point(of: Scalar, value: &Value) -> Result<u64, ConfigFault>
    ensures number { Gives (λ n. n) result (point_in of (view value.now)) }
    ensures held { IfOk result (λ n. IsTrue (holds n (bounds_of of))) }
{
    match of {
        Scalar::Number { low, high } => number(low, high, value),
        Scalar::Operation(naming) => deed(naming, value),
        Scalar::Address => Ok(key(address(value)?)),
        _ => Err(ConfigFault::Kind),
    }
}

/// The number by which rules know an address.
#[tactic(auto, using(crate::proofs::keys_lemmas::Bounds::key_held))]
pub(crate) fn key(address: BipAddr) -> u64
    ensures number { result ≡ big_endian (octets_of address) }
    ensures held { IsTrue (holds result (bounds formats.One fields.SourceKey)) }
{
    whole_address(address).key48()
}

fn have_kind(of: Scalar, ends: &[Value]) -> bool
    ensures { result ≡ list_any (λ value. is_kind (result_err (point_in of (view value)))) ends.now }
{
    ends.iter()
        .any(|value| matches!(point(of, value), Err(ConfigFault::Kind)))
}

pub(crate) fn ordered(low: u64, high: u64) -> Result<Range, ConfigFault>
    ensures { Gives (λ r. r) result (ordered low high) }
{
    if low <= high {
        Ok(Range { low, high })
    } else {
        Err(ConfigFault::Range)
    }
}

/// The range from one value to another. `Kind`, or `Range`, also where the low end is above the
/// high one.
pub fn between(of: Scalar, low: &Value, high: &Value) -> Result<Range, ConfigFault>
    ensures range { Gives (λ r. r) result (between of (view low.now) (view high.now)) }
    ensures within { IfOk result (λ r. IsTrue (is_within (bounds_of of) r)) }
{
    let low = point(of, low)?;
    let high = point(of, high)?;
    ordered(low, high)
}

fn two_ends(of: Scalar, ends: &[Value]) -> Result<Range, ConfigFault>
    ensures range { Gives (λ r. r) result (two_ends of (map view ends.now)) }
    ensures within { IfOk result (λ r. IsTrue (is_within (bounds_of of) r)) }
{
    match ends {
        [low, high] => between(of, low, high),
        _ => Err(ConfigFault::Range),
    }
}

/// A list of two, low and high; a value of a wrong kind in it comes before all else.
#[tactic(auto, using(crate::proofs::keys_lemmas::Values::any_view))]
fn range_between(of: Scalar, ends: &[Value]) -> Result<Range, ConfigFault>
    ensures range { Gives (λ r. r) result (range_between of (map view ends.now)) }
    ensures within { IfOk result (λ r. IsTrue (is_within (bounds_of of) r)) }
{
    if have_kind(of, ends) {
        return Err(ConfigFault::Kind);
    }
    two_ends(of, ends)
}

fn range_of_list(of: Scalar, ends: &[Value]) -> Result<Range, ConfigFault>
    ensures range { Gives (λ r. r) result (range_of_list of (map view ends.now)) }
    ensures within { IfOk result (λ r. IsTrue (is_within (bounds_of of) r)) }
{
    match of {
        Scalar::Operation(_) => Err(ConfigFault::Kind),
        _ => range_between(of, ends),
    }
}

/// The range that an item names, within the bounds of such values. `Kind` or `Range`.
pub fn range(of: Scalar, item: &Value) -> Result<Range, ConfigFault>
    ensures range { Gives (λ r. r) result (range_in of (view item.now)) }
    ensures within { IfOk result (λ r. IsTrue (is_within (bounds_of of) r)) }
{
    match list(item) {
        Ok(ends) => range_of_list(of, ends),
        Err(_) => Ok(Range::only(point(of, item)?)),
    }
}
