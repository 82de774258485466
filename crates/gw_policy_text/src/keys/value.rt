//! Single values of a configuration.
ghost use Rattle.std.specs.Prelude.{◌≡◌, ◌≤◌, IfOk, IfSome, IsFalse, IsTrue, length, map, option_map, option_copied};
ghost use Rattle.gw_addr.specs.Address.{IsAddress};
ghost use Rattle.gw_addr.specs.Mask.{IsMask};
ghost use Rattle.gw_addr.specs.Reading.{Gives};
ghost use Rattle.gw_rules.specs.Name.{is_name, is_no_rule};
ghost use Rattle.std.specs.Option.{option_and_then};
ghost use Rattle.toml.specs.Data.{Data, as_array, as_str, as_table, get_member};
ghost use Rattle.toml.specs.View.{table_view, view};
ghost use Rattle.gw_policy_text.specs.keys.Items.{list_of};
ghost use Rattle.gw_policy_text.specs.keys.Written.{address_written, after_mac, mac_written, mask_written, other_key, subnet_written};
ghost use Rattle.gw_configuration.specs.Subnet.{IsSubnet};
ghost use Rattle.gw_policy_text.specs.keys.Value.{address_in, any_named, any_of, boolean_in, deed_in, deed_of, fixed_in, if_nameable, is_nameable, is_rule_name, kind_in, list_in, mask_in, number_in, operation_named, operation_of, rule_name_in, short_name_in, signed_in, subnet_in, table_in, text_in, verdict_in, verdict_named};
ghost use Rattle.hex.specs.Hex.{decode_of};
ghost use Rattle.gw_rules.specs.Bounds.{bounds};
ghost use Rattle.gw_rules.specs.Operation.{operation_number};
ghost use Rattle.gw_rules.specs.Range.{holds};
ghost use Rattle.gw_rules.specs.declared.field.FieldName.TheVariants as fields;
ghost use Rattle.gw_rules.specs.declared.format.Format.TheVariants as formats;
ghost use Rattle.gw_policy_text.specs.keys.Range.{deed_bounds};
ghost use Rattle.gw_policy_text.specs.keys.Tables.{is_true_at};

use gw_addr::{BipAddr, Mask};
use gw_configuration::{ConfigFault, MAX_TEXT, Naming, ObjectKind, Subnet, laws};
use gw_rules::{FieldName, Operation, RuleName};
use toml::{Table, Value};

/// How many octets the name of a rule has at most that goes both ways.
const MAX_SHORT_NAME: usize = 27;
/// How many octets a station has at most that has a key.
const MAX_KEYED: usize = 7;
/// What is read for all that reads, in the place of an operation.
pub const ANY_READ: u64 = 14;
/// What is read for all that writes.
pub const ANY_WRITE: u64 = 15;

/// The value at a key.
pub fn member<'a>(table: &'a Table, key: &str) -> Option<&'a Value>
    ensures { option_map (λ v. view v.now) result ≡ get_member key.now (table_view table.now) }
{
    table.get(key)
}

/// A number from `low` to `high`. `Kind` where it is no number, `Range` where it is another.
pub fn number(low: u64, high: u64, value: &Value) -> Result<u64, ConfigFault>
    ensures number { Gives (λ n. n) result (number_in low high (view value.now)) }
    ensures low { IfOk result (λ n. low ≤ n) }
    ensures high { IfOk result (λ n. n ≤ high) }
{
    let Some(number) = value.as_integer() else {
        return Err(ConfigFault::Kind);
    };
    match u64::try_from(number) {
        Ok(number) if low <= number && number <= high => Ok(number),
        _ => Err(ConfigFault::Range),
    }
}

/// A number of 32 bits with its sign. `Kind` where it is no number, `Range` where it has more.
pub fn signed(value: &Value) -> Result<i32, ConfigFault>
    ensures { Gives (λ n. n) result (signed_in (view value.now)) }
{
    let Some(number) = value.as_integer() else {
        return Err(ConfigFault::Kind);
    };
    match i32::try_from(number) {
        Ok(number) => Ok(number),
        Err(_) => Err(ConfigFault::Range),
    }
}

/// The type of an object by its number. `Kind` where it is no number, `Range` where it is none of a
/// type.
pub fn kind(value: &Value) -> Result<ObjectKind, ConfigFault>
    ensures { Gives (λ k. k) result (kind_in (view value.now)) }
{
    let Some(number) = value.as_integer() else {
        return Err(ConfigFault::Kind);
    };
    match u64::try_from(number) {
        Ok(number) => ObjectKind::from_number(number).ok_or(ConfigFault::Range),
        Err(_) => Err(ConfigFault::Range),
    }
}

/// The text of a value.
pub fn string(value: &Value) -> Option<&str>
    ensures { option_map (λ s. s.now) result ≡ as_str (view value.now) }
{
    value.as_str()
}

/// A text of at least so many octets, and at most 255. `Kind` where it is no text, `Range` for its
/// length.
pub fn text(least: usize, value: &Value) -> Result<&str, ConfigFault>
    ensures text { Gives (λ t. t.now) result (text_in least (view value.now)) }
    ensures short { IfOk result (λ t. length t.now ≤ 255) }
{
    let Some(text) = string(value) else {
        return Err(ConfigFault::Kind);
    };
    if text.len() < least || MAX_TEXT < text.len() {
        return Err(ConfigFault::Range);
    }
    Ok(text)
}

/// True or false. `Kind` where it is neither.
pub fn boolean(value: &Value) -> Result<bool, ConfigFault>
    ensures { Gives (λ b. b) result (boolean_in (view value.now)) }
{
    value.as_bool().ok_or(ConfigFault::Kind)
}

/// This one of true and false. `Kind` where it is neither, `Range` where it is the other.
pub fn fixed(wanted: bool, value: &Value) -> Result<bool, ConfigFault>
    ensures { Gives (λ b. b) result (fixed_in wanted (view value.now)) }
{
    match value.as_bool() {
        Some(found) if found == wanted => Ok(found),
        Some(_) => Err(ConfigFault::Range),
        None => Err(ConfigFault::Kind),
    }
}

/// Whether true is at a key.
pub(crate) fn is_true_at(key: &str, table: &Table) -> bool
    ensures { result ≡ is_true_at key.now (table_view table.now) }
{
    match member(table, key) {
        Some(value) => value.as_bool() == Some(true),
        None => false,
    }
}

/// A table. `Kind` where it is none.
pub fn table(value: &Value) -> Result<&Table, ConfigFault>
    ensures { Gives (λ t. table_view t.now) result (table_in (view value.now)) }
{
    match value.as_table() {
        Some(table) => Ok(table),
        None => Err(ConfigFault::Kind),
    }
}

/// The values of a list. `Kind` where it is none.
pub fn list(value: &Value) -> Result<&[Value], ConfigFault>
    ensures { Gives (λ vs. map view vs.now) result (list_in (view value.now)) }
{
    match value.as_array() {
        Some(items) => Ok(items.as_slice()),
        None => Err(ConfigFault::Kind),
    }
}

/// The values of a list, or `None` if it is none.
pub fn values(value: &Value) -> Option<&[Value]>
    ensures { option_map (λ vs. map view vs.now) result ≡ list_of (view value.now) }
{
    list(value).ok()
}

/// The value at a key of a table, or `None` if the value is no table or has no such key.
pub(crate) fn member_of<'a>(value: &'a Value, key: &str) -> Option<&'a Value>
    ensures { option_map (λ v. view v.now) result
        ≡ option_and_then (get_member key.now) (as_table (view value.now)) }
{
    match table(value) {
        Ok(table) => member(table, key),
        Err(_) => None,
    }
}

/// The name of a rule. `Kind` where it is no text, `Range` where it is another.
pub fn rule_name(value: &Value) -> Result<&str, ConfigFault>
    ensures name { Gives (λ t. t.now) result (rule_name_in (view value.now)) }
    ensures shape { IfOk result (λ t. IsTrue (is_name t.now)) }
    ensures own { IfOk result (λ t. IsFalse (is_no_rule t.now)) }
{
    let Some(text) = string(value) else {
        return Err(ConfigFault::Kind);
    };
    if !is_rule_name(text) {
        return Err(ConfigFault::Range);
    }
    Ok(text)
}

fn is_rule_name(text: &str) -> bool
    ensures { result ≡ is_rule_name text.now }
{
    RuleName::is_name(text) && !RuleName::is_no_rule(text)
}

/// The name of a rule that goes both ways, of at most 27 octets. `Kind` where it is no text, `Range` where it is
/// another.
pub fn short_name(value: &Value) -> Result<&str, ConfigFault>
    ensures name { Gives (λ t. t.now) result (short_name_in (view value.now)) }
    ensures shape { IfOk result (λ t. IsTrue (is_name t.now)) }
    ensures own { IfOk result (λ t. IsFalse (is_no_rule t.now)) }
    ensures short { IfOk result (λ t. length t.now ≤ 27) }
{
    let Some(text) = string(value) else {
        return Err(ConfigFault::Kind);
    };
    if !is_rule_name(text) || MAX_SHORT_NAME < text.len() {
        return Err(ConfigFault::Range);
    }
    Ok(text)
}

/// Whether what an assertion means is to be allowed: `allowed` or `denied`. `Kind` where it is no text, `Range` where
/// it is another.
pub fn verdict(value: &Value) -> Result<bool, ConfigFault>
    ensures { Gives (λ b. b) result (verdict_in (view value.now)) }
{
    let Some(text) = string(value) else {
        return Err(ConfigFault::Kind);
    };
    verdict_named(text).ok_or(ConfigFault::Range)
}

fn verdict_named(text: &str) -> Option<bool>
    ensures { result ≡ verdict_named text.now }
{
    if text == "allowed" {
        Some(true)
    } else if text == "denied" {
        Some(false)
    } else {
        None
    }
}

/// The number of an operation that can be named there, by its name, or of what an assertion may have in its place.
/// `Kind` if it is no text, `Range` if it names none.
pub fn deed(naming: Naming, value: &Value) -> Result<u64, ConfigFault>
    ensures number { Gives (λ n. n) result (deed_in naming (view value.now)) }
    ensures held { IfOk result (λ n. IsTrue (holds n (deed_bounds naming))) }
{
    let Some(text) = string(value) else {
        return Err(ConfigFault::Kind);
    };
    deed_of(naming, text).ok_or(ConfigFault::Range)
}

fn deed_of(naming: Naming, text: &str) -> Option<u64>
    ensures number { result ≡ deed_of naming text.now }
    ensures held { IfSome result (λ n. IsTrue (holds n (deed_bounds naming))) }
{
    match operation_of(naming, text) {
        Some(operation) => Some(number_of(naming, operation)),
        None => any_of(naming, text),
    }
}

/// The number of an operation that can be named there.
fn number_of(naming: Naming, operation: Operation) -> u64
    requires { IsTrue (is_nameable naming operation) }
    ensures number { result ≡ operation_number operation }
    ensures held { IsTrue (holds result (deed_bounds naming)) }
{
    operation.number()
}

fn any_of(naming: Naming, text: &str) -> Option<u64>
    ensures number { result ≡ any_of naming text.now }
    ensures held { IfSome result (λ n. IsTrue (holds n (deed_bounds naming))) }
{
    match naming {
        Naming::Assertion => any_named(text),
        Naming::Rule(_) | Naming::BothWays => None,
    }
}

fn any_named(text: &str) -> Option<u64>
    ensures { result ≡ any_named text.now }
{
    if text == "any-read" {
        Some(ANY_READ)
    } else if text == "any-write" {
        Some(ANY_WRITE)
    } else {
        None
    }
}

fn operation_of(naming: Naming, text: &str) -> Option<Operation>
    ensures operation { result ≡ operation_of naming text.now }
    ensures nameable { IfSome result (λ o. IsTrue (is_nameable naming o)) }
{
    match operation_named(text) {
        Some(operation) => if_nameable(naming, operation),
        None => None,
    }
}

fn if_nameable(naming: Naming, operation: Operation) -> Option<Operation>
    ensures operation { result ≡ if_nameable naming operation }
    ensures nameable { IfSome result (λ o. IsTrue (is_nameable naming o)) }
{
    if is_nameable(naming, operation) {
        Some(operation)
    } else {
        None
    }
}

/// Whether an operation can be named there.
fn is_nameable(naming: Naming, operation: Operation) -> bool
    ensures { result ≡ is_nameable naming operation }
{
    match naming {
        Naming::Rule(format) => FieldName::Operation
            .bounds(format)
            .holds(operation.number()),
        Naming::BothWays => matches!(
            operation,
            Operation::Read | Operation::Write | Operation::Route
        ),
        Naming::Assertion => true,
    }
}

fn operation_named(text: &str) -> Option<Operation>
    ensures { result ≡ operation_named text.now }
{
    Operation::from_name(text)
}

/// An address, `a.b.c.d:port`. `Kind` where it is no text, `Range` where it is another.
pub fn address(value: &Value) -> Result<BipAddr, ConfigFault>
    ensures { Gives (λ a. a) result (address_in (view value.now)) }
{
    let Some(text) = string(value) else {
        return Err(ConfigFault::Kind);
    };
    address_of(text).ok_or(ConfigFault::Range)
}

/// The address that is written so.
pub(crate) fn address_of(text: &str) -> Option<BipAddr>
    ensures { result ≡ address_written text.now }
{
    match BipAddr::parse(text) {
        Ok(address) => Some(whole_address(address)),
        Err(_) => None,
    }
}

/// The address, which is four octets and a port.
pub(crate) fn whole_address(address: BipAddr) -> BipAddr
    ensures same { result ≡ address }
    ensures whole { IsAddress address }
{
    address
}

/// A mask, `a.b.c.d`. `Kind` where it is no text, `Range` where it is another.
pub fn mask(value: &Value) -> Result<Mask, ConfigFault>
    ensures { Gives (λ m. m) result (mask_in (view value.now)) }
{
    let Some(text) = string(value) else {
        return Err(ConfigFault::Kind);
    };
    mask_of(text).ok_or(ConfigFault::Range)
}

/// The mask that is written so.
pub fn mask_of(text: &str) -> Option<Mask>
    ensures { result ≡ mask_written text.now }
{
    match Mask::parse(text) {
        Some(mask) => Some(whole_mask(mask)),
        None => None,
    }
}

/// The mask, which is four octets.
fn whole_mask(mask: Mask) -> Mask
    ensures same { result ≡ mask }
    ensures whole { IsMask mask }
{
    mask
}

/// A subnet, `a.b.c.d/n`. `Kind` if it is no text, `Range` if it is another.
pub fn subnet(value: &Value) -> Result<Subnet, ConfigFault>
    ensures { Gives (λ s. s) result (subnet_in (view value.now)) }
{
    let Some(text) = string(value) else {
        return Err(ConfigFault::Kind);
    };
    subnet_of(text).ok_or(ConfigFault::Range)
}

/// The subnet that is written so.
pub(crate) fn subnet_of(text: &str) -> Option<Subnet>
    ensures { result ≡ subnet_written text.now }
{
    match Subnet::parse(text) {
        Some(subnet) => Some(whole_subnet(subnet)),
        None => None,
    }
}

/// The key of the station that is written `mac:` and its octets in pairs of hexadecimal digits, which aren't six.
#[tactic(auto, unfolding(crate::specs::keys::Written::mac_written))]
pub(crate) fn mac_of(text: &str) -> Option<u64>
    ensures number { result ≡ mac_written text.now }
    ensures held { IfSome result (λ n. IsTrue (holds n (bounds formats.Three fields.SourceKey))) }
{
    other_key(after_mac(text.as_bytes())?)
}

/// What follows `mac:`.
fn after_mac(text: &[u8]) -> Option<&[u8]>
    ensures { option_map (λ t. t.now) result ≡ after_mac text.now }
{
    if text.len() < 4 || &text[..4] != b"mac:".as_slice() {
        return None;
    }
    Some(&text[4..])
}

/// The key of the station whose octets a text is in pairs of hexadecimal digits, which aren't six.
fn other_key(digits: &[u8]) -> Option<u64>
    ensures { result ≡ other_key (decode_of digits.now) }
{
    let len = digits.len() / 2;
    if len == 6 {
        return None;
    }
    if MAX_KEYED < len {
        return None;
    }
    let mut octets = [0; MAX_KEYED];
    let octets = &mut octets[..len];
    match hex::decode_to_slice(digits, octets) {
        Ok(()) => gw_addr::key_of(octets),
        Err(_) => None,
    }
}

/// The subnet, which has zeros after the bits that count.
fn whole_subnet(subnet: Subnet) -> Subnet
    ensures same { result ≡ subnet }
    ensures whole { IsSubnet subnet }
{
    laws::fits(subnet);
    subnet
}
