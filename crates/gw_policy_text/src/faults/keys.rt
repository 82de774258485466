//! The keys of the table where a fault is, in words.
ghost use Rattle.std.specs.Prelude.{◌≡◌, ◌++◌, codes, OnOk};
ghost use Rattle.std.specs.List.{flat_map};
ghost use Rattle.toml.specs.Data.{no_members};
ghost use Rattle.toml.specs.View.{table_view};
ghost use Rattle.gw_policy_text.specs.keys.Tables as spec;
ghost use Rattle.gw_policy_text.specs.faults.Keys.{fields_at, keys_words, kind_fields, kind_in_table, one_more};
ghost use Rattle.gw_policy_text.specs.faults.Place.{table_at};

use crate::faults::near::put_text;
use crate::faults::words::table_at;
use crate::keys::Field;
use crate::keys::tables::{self, COMMON_RULE_FIELDS, format_of};
use crate::keys::value::{kind, member};
use gw_configuration::{Format, Naming, ObjectKind, Place};
use std::alloc::AllocError;
use toml::Table;

/// Puts the keys of the table at a place. `AllocError` where memory was refused.
pub(crate) fn put_keys(line: &mut Vec<u8>, place: Place, top: &Table) -> Result<(), AllocError>
    ensures { let words = keys_words (fields_at place (table_view top.now)) in
        OnOk result (line.new.items ≡ line.old.items ++ words) }
{
    match place {
        Place::Text => Ok(()),
        Place::Top => put_keys_of_top(line, format_of(top)),
        Place::Device => put_keys_of(line, &tables::device_fields()),
        Place::Port(_) => put_keys_of_port(line, format_of(top)),
        Place::Peer { .. } => put_keys_of(line, &tables::peer_fields()),
        Place::Route(_) => put_keys_of(line, &tables::route_fields(0)),
        Place::Object(_) => put_keys_of_object(line, kind_at(place, top)),
        Place::Set(_) => put_keys_of(line, &tables::set_fields()),
        Place::Rule(_) => put_keys_of_rule(line, format_of(top)),
        Place::Assertion(_) => put_keys_of(line, &tables::assertion_fields()),
    }
}

/// The type of the object in the table at a place.
fn kind_at(place: Place, top: &Table) -> Option<ObjectKind>
    ensures { result ≡ kind_in_table (table_at place (table_view top.now)) }
{
    kind(member(table_at(place, top)?, "type")?).ok()
}

/// Puts the keys of the fields of a table, if it has any.
fn put_keys_of(line: &mut Vec<u8>, fields: &[Field]) -> Result<(), AllocError>
    ensures { OnOk result (line.new.items ≡ line.old.items ++ keys_words fields.now) }
{
    match fields.split_first() {
        Some((first, others)) => put_list(line, first.key(), others),
        None => Ok(()),
    }
}

fn put_list(line: &mut Vec<u8>, first: &str, others: &[Field]) -> Result<(), AllocError>
    ensures { let list = first.now ++ flat_map one_more others.now in
        OnOk result (line.new.items ≡ line.old.items ++ (codes "; known keys here: " ++ list)) }
{
    line.extend_from_slice(b"; known keys here: ")?;
    put_text(line, first)?;
    put_others(line, others)
}

fn put_others(line: &mut Vec<u8>, others: &[Field]) -> Result<(), AllocError>
    ensures { OnOk result (line.new.items ≡ line.old.items ++ flat_map one_more others.now) }
{
    for other in others {
        put_one_more(line, other)?;
    }
    Ok(())
}

fn put_one_more(line: &mut Vec<u8>, other: &Field) -> Result<(), AllocError>
    ensures { OnOk result (line.new.items ≡ line.old.items ++ one_more other.now) }
{
    line.extend_from_slice(b", ")?;
    put_text(line, other.key())
}

fn put_keys_of_top(line: &mut Vec<u8>, format: Format) -> Result<(), AllocError>
    ensures { OnOk result (line.new.items ≡ line.old.items ++ keys_words (spec.top_fields format)) }
{
    match format {
        Format::Three => put_keys_of(line, &tables::long_top_fields()),
        Format::One | Format::Two => put_keys_of(line, &tables::top_fields()),
    }
}

fn put_keys_of_port(line: &mut Vec<u8>, format: Format) -> Result<(), AllocError>
    ensures { OnOk result (line.new.items ≡ line.old.items ++ keys_words (spec.port_fields format)) }
{
    match format {
        Format::Three => put_keys_of(line, &tables::long_port_fields()),
        Format::One | Format::Two => put_keys_of(line, &tables::port_fields()),
    }
}

/// Puts the keys of an object of this type.
fn put_keys_of_object(line: &mut Vec<u8>, kind: Option<ObjectKind>) -> Result<(), AllocError>
    ensures { OnOk result (line.new.items ≡ line.old.items ++ keys_words (kind_fields kind)) }
{
    match kind {
        Some(ObjectKind::BinaryValue) => put_keys_of(line, &tables::binary_fields()),
        Some(ObjectKind::MultiStateValue) => put_keys_of(line, &tables::multi_state_fields(0)),
        Some(ObjectKind::CharacterStringValue) => {
            put_keys_of(line, &tables::character_string_fields())
        }
        Some(ObjectKind::IntegerValue) => put_keys_of(line, &tables::integer_fields()),
        Some(ObjectKind::PositiveIntegerValue) => {
            put_keys_of(line, &tables::positive_integer_fields())
        }
        None => Ok(()),
    }
}

fn put_keys_of_rule(line: &mut Vec<u8>, format: Format) -> Result<(), AllocError>
    ensures { OnOk result (line.new.items ≡ line.old.items ++ keys_words (spec.rule_fields format no_members)) }
{
    let fields = tables::rule_fields(Naming::Rule(format), false);
    match format {
        Format::Three => put_keys_of(line, &fields),
        Format::One | Format::Two => put_keys_of(line, &fields[..COMMON_RULE_FIELDS]),
    }
}
