//! What is reported first of a fault, in words: the value that is there.
ghost use Rattle.std.specs.Prelude.{◌≡◌, ◌++◌, length, map, option_map, OnOk};
ghost use Rattle.toml.specs.View.{table_view, view};
ghost use Rattle.gw_policy_text.specs.faults.Place.{item_or, value_at};
ghost use Rattle.gw_policy_text.specs.faults.FaultWords.{fault_words, list_words, single_words, text_words, value_words};
ghost use Rattle.gw_configuration.specs.Located.{located_view};

use crate::faults::words::table_at;
use crate::keys::value::{self, member};
use gw_addr::put_decimal;
use gw_configuration::{ConfigFault, Located};
use std::alloc::AllocError;
use toml::{Table, Value};

/// How many octets of a text are shown at most.
const MAX_SHOWN: usize = 64;

/// The value where a fault is: that at the key, or the item there.
pub(crate) fn value_at<'a>(located: &Located<'_>, top: &'a Table) -> Option<&'a Value>
    ensures { let found = value_at (located_view located.now) (table_view top.now) in
        option_map (λ v. view v.now) result ≡ found }
{
    let value = member(table_at(located.place, top)?, located.key)?;
    match located.item {
        Some(item) => value.get(item),
        None => Some(value),
    }
}

/// Puts that the key is unknown or missing, or else the value that is there. `AllocError` where
/// memory was refused.
pub(crate) fn put_fault(
    line: &mut Vec<u8>,
    fault: ConfigFault,
    value: Option<&Value>,
) -> Result<(), AllocError>
    ensures { let words = fault_words fault (option_map (λ v. view v.now) value.entry) in
        OnOk result (line.new.items ≡ line.old.items ++ words) }
{
    match (fault, value) {
        (ConfigFault::UnknownKey, _) => line.extend_from_slice(b"is no key of this table"),
        (ConfigFault::Missing, _) => line.extend_from_slice(b"is missing"),
        (_, Some(value)) => put_value(line, value),
        (_, None) => Ok(()),
    }
}

/// Puts a value as it is written in the text: a number, a text that isn't long, true or false, or a
/// list of two of these; of others what it is. `AllocError` where memory was refused.
pub(crate) fn put_value(line: &mut Vec<u8>, value: &Value) -> Result<(), AllocError>
    ensures { OnOk result (line.new.items ≡ line.old.items ++ value_words (view value.now)) }
{
    match value::list(value) {
        Ok(items) => put_items(line, items),
        Err(_) => put_single(line, value),
    }
}

fn put_items(line: &mut Vec<u8>, items: &[Value]) -> Result<(), AllocError>
    ensures { OnOk result (line.new.items ≡ line.old.items ++ list_words (map view items.now)) }
{
    match items {
        [low, high] => {
            line.extend_from_slice(b"[")?;
            put_single(line, low)?;
            line.extend_from_slice(b", ")?;
            put_single(line, high)?;
            line.extend_from_slice(b"]")
        }
        _ => {
            line.extend_from_slice(b"a list of ")?;
            put_decimal(line, items.len())
        }
    }
}

fn put_single(line: &mut Vec<u8>, value: &Value) -> Result<(), AllocError>
    ensures { OnOk result (line.new.items ≡ line.old.items ++ single_words (view value.now)) }
{
    match value {
        Value::Integer(number) => put_decimal(line, *number),
        Value::String(text) => put_text(line, text.as_str()),
        Value::Boolean(true) => line.extend_from_slice(b"true"),
        Value::Boolean(false) => line.extend_from_slice(b"false"),
        Value::Float(_) => line.extend_from_slice(b"a number with a fraction"),
        Value::Datetime(_) => line.extend_from_slice(b"a date or a time"),
        Value::Array(_) => line.extend_from_slice(b"a list"),
        Value::Table(_) => line.extend_from_slice(b"a table"),
    }
}

fn put_text(line: &mut Vec<u8>, text: &str) -> Result<(), AllocError>
    ensures { OnOk result (line.new.items ≡ line.old.items ++ text_words text.now) }
{
    if MAX_SHOWN < text.len() {
        line.extend_from_slice(b"a text of ")?;
        put_decimal(line, text.len())?;
        return line.extend_from_slice(b" octets");
    }
    line.extend_from_slice(b"\"")?;
    line.extend_from_slice(text.as_bytes())?;
    line.extend_from_slice(b"\"")
}
