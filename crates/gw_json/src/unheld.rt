//! The assertions of a configuration that don't hold, as a JSON object.

ghost use Rattle.std.specs.Prelude.{◌≡◌, ◌-◌, ◌<◌, ◌^◌, ◌++◌, option_map, IfOk, OnOk};
ghost use Rattle.std.specs.Option.{option_map_or};
ghost use Rattle.json.specs.Json.{array, null, string};
ghost use Rattle.gw_json.specs.Document.{items_of, line_of};
ghost use Rattle.gw_json.specs.Unheld.{ask_value, asserted_name, broken_value, flaw_key, flaw_value, flawed_value, is_held, unheld_item};
ghost use Rattle.gw_json.specs.Unheld.{unheld_items, unheld_members, unheld_value};
ghost use Rattle.gw_json.specs.internal.View.{members_view, value_view, values_view};

use crate::ask::{key_or_null, operation_value};
use crate::value::{Member, Value, number_value, object_line, push_value, text_value};
use crate::why::name_value;
use gw_ask_sets::assertions::Judged;
use gw_ask_sets::numbered::item_at;
use gw_configuration::{Assertion, Config};
use gw_rules::{Ask, Rule};
use std::alloc::{AllocError, Global};

/// The line of the assertions of a configuration that don't hold, by what was judged of each: with an ask that breaks one,
/// whether it is allowed and by which rule; that no ask is meant; or that the steps didn't suffice. An `Err` only if memory
/// was refused.
///
/// ```text
/// {"valid":false,"asserts":[{"number":1,"name":"a","broken":{"ask":{"port":1,..},"allowed":true,"by":"panel"}},{"number":3,"name":"c","empty":true}]}
/// ```
pub fn unheld_line(alloc: Global, config: &Config, judged: &[Judged]) -> Result<Vec<u8>, AllocError>
    ensures { IfOk result (λ line. line.items ≡ line_of (unheld_value config.now judged.now)) }
{
    let members = unheld_members(alloc, config, judged)?;
    object_line(alloc, members)
}

fn unheld_members(
    alloc: Global,
    config: &Config,
    judged: &[Judged],
) -> Result<Vec<Member>, AllocError>
    ensures { IfOk result (λ members. members_view members.items ≡ unheld_members config.now judged.now) }
{
    let asserts = asserts_value(alloc, config, judged)?;
    Ok(vec![in alloc; ("valid", Value::Boolean(false)), ("asserts", asserts)]?)
}

fn asserts_value(alloc: Global, config: &Config, judged: &[Judged]) -> Result<Value, AllocError>
    ensures { IfOk result (λ value. value_view value ≡ array (items_of (unheld_items config.now 0 judged.now))) }
{
    let values = unheld_values(alloc, config, judged)?;
    Ok(Value::Array(values))
}

fn unheld_values(
    alloc: Global,
    config: &Config,
    judged: &[Judged],
) -> Result<Vec<Value>, AllocError>
    ensures { IfOk result (λ values. values_view values.items ≡ unheld_items config.now 0 judged.now) }
{
    let mut values = Vec::new(alloc);
    for place in 0..judged.len() {
        push_unheld(alloc, &mut values, config, place, &judged[place])?;
    }
    Ok(values)
}

/// Appends the assertion at a place, if it doesn't hold.
fn push_unheld(
    alloc: Global,
    values: &mut Vec<Value>,
    config: &Config,
    place: usize,
    judged: &Judged,
) -> Result<(), AllocError>
    requires { place < 2 ^ 64 - 1 }
    ensures { OnOk result (values_view values.new.items
        ≡ values_view values.old.items ++ unheld_item config.now place judged.now) }
{
    if is_held(judged) {
        return Ok(());
    }
    let flawed = flawed_value(alloc, config, place, judged)?;
    push_value(values, flawed)
}

fn is_held(judged: &Judged) -> bool
    ensures { result ≡ is_held judged.now }
{
    matches!(judged, Judged::Holds)
}

/// The assertion at a place, and what is wrong with it.
fn flawed_value(
    alloc: Global,
    config: &Config,
    place: usize,
    judged: &Judged,
) -> Result<Value, AllocError>
    requires { place < 2 ^ 64 - 1 }
    ensures { IfOk result (λ value. value_view value ≡ flawed_value config.now place judged.now) }
{
    let name = asserted_name(alloc, config.assertions(), place)?;
    let flaw = flaw_value(alloc, config.rules().rules(), judged)?;
    Ok(Value::Object(vec![in alloc;
        ("number", Value::Number(place as u64 + 1)),
        ("name", name),
        (flaw_key(judged), flaw),
    ]?))
}

fn asserted_name(alloc: Global, assertions: &[Assertion], place: usize) -> Result<Value, AllocError>
    ensures { IfOk result (λ value. value_view value ≡ asserted_name assertions.now place) }
{
    name_of(alloc, assertions.get(place))
}

fn name_of(alloc: Global, assertion: Option<&Assertion>) -> Result<Value, AllocError>
    ensures { IfOk result (λ value. value_view value
        ≡ option_map_or (λ a. string a.name) (option_map (λ a. a.now) assertion.entry) null) }
{
    match assertion {
        Some(assertion) => text_value(alloc, assertion.name.as_str()),
        None => Ok(Value::Null),
    }
}

/// What is wrong with an assertion.
fn flaw_key(judged: &Judged) -> &'static str
    ensures { result.now ≡ flaw_key judged.now }
{
    match judged {
        Judged::Broken { .. } => "broken",
        Judged::Empty => "empty",
        _ => "unknown",
    }
}

fn flaw_value(alloc: Global, rules: &[Rule], judged: &Judged) -> Result<Value, AllocError>
    ensures { IfOk result (λ value. value_view value ≡ flaw_value rules.now judged.now) }
{
    match judged {
        Judged::Broken {
            ask,
            by,
            is_allowed,
        } => broken_value(alloc, rules, ask, *by, *is_allowed),
        _ => Ok(Value::Boolean(true)),
    }
}

/// An ask that breaks an assertion, whether it is allowed, and by which rule.
fn broken_value(
    alloc: Global,
    rules: &[Rule],
    ask: &Ask,
    by: Option<u16>,
    is_allowed: bool,
) -> Result<Value, AllocError>
    ensures { IfOk result (λ value. value_view value ≡ broken_value rules.now ask.now by is_allowed) }
{
    let ask = ask_value(alloc, ask)?;
    let name = name_value(alloc, item_at(rules, by))?;
    Ok(Value::Object(vec![in alloc;
        ("ask", ask),
        ("allowed", Value::Boolean(is_allowed)),
        ("by", name),
    ]?))
}

/// The fields of an ask under the keys that a rule has for them.
pub(crate) fn ask_value(alloc: Global, ask: &Ask) -> Result<Value, AllocError>
    ensures { IfOk result (λ value. value_view value ≡ ask_value ask.now) }
{
    let source = key_or_null(alloc, ask.source_key)?;
    let sender = key_or_null(alloc, ask.sender)?;
    let station = key_or_null(alloc, ask.station)?;
    Ok(Value::Object(vec![in alloc;
        ("port", number_value(ask.port)),
        ("source_network", number_value(ask.source_network)),
        ("source", source),
        ("operation", operation_value(ask.operation, true)),
        ("destination", number_value(ask.destination_network)),
        ("service", number_value(ask.service)),
        ("object_type", number_value(ask.object_type)),
        ("instance", number_value(ask.instance)),
        ("property", number_value(ask.property)),
        ("priority", number_value(ask.priority)),
        ("sender", sender),
        ("station", station),
    ]?))
}
