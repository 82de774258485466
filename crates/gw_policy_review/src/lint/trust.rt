//! Rules that allow by what anyone may say of a message.
ghost use Rattle.std.specs.Prelude.{◌≡◌, ◌+◌, ◌++◌, not, OnOk, position};
ghost use Rattle.std.specs.List.{list_any};
ghost use Rattle.gw_rules.specs.Range.{holds};
ghost use Rattle.gw_rules.specs.Rule.{each_field};
ghost use Rattle.gw_policy_review.specs.lint.Trust.{ending_words, is_open_end, is_open_for, is_source_alone, is_source_network_alone};
ghost use Rattle.gw_policy_review.specs.lint.Trust.{names, port_words, reach_words, source_words};

use gw_addr::{put_decimal, put_slice};
use gw_configuration::Port;
use gw_rules::{FieldName, Format, Range, Rule};
use std::alloc::AllocError;

/// Whether the rule has a range for the field.
fn names(field: FieldName, rule: &Rule) -> bool
    ensures { result ≡ names field rule.now }
{
    !rule.ranges(field).as_slice().is_empty()
}

/// Whether the rule allows, and names a source without its network or a sender.
pub(crate) fn is_source_alone(rule: &Rule) -> bool
    ensures { result ≡ is_source_alone rule.now }
{
    rule.allow
        && names(FieldName::SourceKey, rule)
        && !names(FieldName::SourceNetwork, rule)
        && !names(FieldName::Sender, rule)
}

/// What there is to say of that.
pub(crate) fn source_words(format: Format) -> &'static [u8]
    ensures { result.now ≡ source_words format }
{
    if format.names_stations() {
        b"source: without source_network or sender, whoever speaks for a network may name that source"
    } else {
        b"source: without source_network, whoever writes that source into a frame is taken for it"
    }
}

/// Whether the rule allows, and names a source network without a source or a sender.
pub(crate) fn is_source_network_alone(rule: &Rule) -> bool
    ensures { result ≡ is_source_network_alone rule.now }
{
    rule.allow
        && names(FieldName::SourceNetwork, rule)
        && !names(FieldName::SourceKey, rule)
        && !names(FieldName::Sender, rule)
}

/// What there is to say of that under formats 1 and 2.
pub(crate) fn reach_words() -> &'static [u8]
    ensures { result.now ≡ reach_words }
{
    b"source_network: without source, whoever reaches a port may be of that network"
}

fn any_holds(ranges: &[Range], number: u64) -> bool
    ensures { result ≡ list_any (holds number) ranges.now }
{
    ranges.iter().any(|range| range.holds(number))
}

/// Whether the port names no stations, and its network is in one of the ranges.
fn is_open_for(ranges: &[Range], port: &Port) -> bool
    ensures { result ≡ is_open_for ranges.now port.now }
{
    port.stations.as_slice().is_empty() && any_holds(ranges, u64::from(port.network.get()))
}

/// The position of the first such port.
pub(crate) fn open_place(ranges: &[Range], ports: &[Port]) -> Option<usize>
    ensures { result ≡ position (is_open_for ranges.now) ports.now }
{
    ports.iter().position(|port| is_open_for(ranges, port))
}

/// Appends what there is to say of a source network without a source or a sender where the port at this
/// position is such a port.
pub(crate) fn put_port_words(out: &mut Vec<u8>, place: usize) -> Result<(), AllocError>
    ensures { OnOk result (out.new.items ≡ out.old.items ++ port_words (place + 1)) }
{
    put_slice(out, b"source_network: port ")?;
    put_decimal(out, place as u128 + 1)?;
    put_slice(
        out,
        b" has no stations, so whoever reaches it is taken for a station of its network",
    )
}

fn names_nothing(rule: &Rule) -> bool
    ensures { result ≡ each_field (λ field. not (names field rule.now)) }
{
    FieldName::ALL.iter().all(|field| !names(*field, rule))
}

/// Whether the rule of this number is the last one, allows, and names no field.
pub(crate) fn is_open_end(rules: &[Rule], number: u16, rule: &Rule) -> bool
    ensures { result ≡ is_open_end rules.now number rule.now }
{
    usize::from(number) == rules.len() && rule.allow && names_nothing(rule)
}

/// What there is to say of that.
pub(crate) fn ending_words(format: Format) -> &'static [u8]
    ensures { result.now ≡ ending_words format }
{
    if format.names_stations() {
        b"its fields: without any, it allows tables, registrations, routes, enter and claim too"
    } else {
        b"its fields: without any, it allows tables, registrations and routes too"
    }
}
