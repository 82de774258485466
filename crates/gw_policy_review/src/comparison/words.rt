//! The words for the asks of a region.
ghost use Rattle.std.specs.Prelude.{◌≡◌, ◌&&◌, ◌++◌, ◌∷◌, [], codes, not, option_map, if◌then◌else◌, IfOk, OnOk, Some};
ghost use Rattle.std.specs.List.{flat_map, list_all};
ghost use Rattle.std.specs.Option.{is_some, option_map_or};
ghost use Rattle.gw_log_words.specs.Words.{name_text};
ghost use Rattle.gw_ask_sets.specs.regions.Ranges.{shared};
ghost use Rattle.gw_ask_sets.specs.regions.Values.{has_operation};
ghost use Rattle.gw_rules.specs.Operation.{operation_name};
ghost use Rattle.gw_rules.specs.declared.operation.TheConstants.Operation.{ALL};
ghost use Rattle.gw_policy_review.specs.comparison.Words.{any_of, are_subnets, end_text, host_of, is_keyed, is_same_range, is_subnet};
ghost use Rattle.gw_policy_review.specs.comparison.Words.{item_text, items, last_of, named_text, names_stations, noun_of, numbers_of};
ghost use Rattle.gw_policy_review.specs.comparison.Words.{octet_text, numbers_text, operations_of, operations_text, other_text};
ghost use Rattle.gw_policy_review.specs.comparison.Words.{others_text, possible, prefix_of, prefixes, range_text, region_text, rest_of};
ghost use Rattle.gw_policy_review.specs.comparison.Words.{span_text, standard_text, subnet_from, subnet_words, these_text, values_text};
ghost use Rattle.gw_policy_review.specs.comparison.Words.{word_of};

use gw_addr::{Mask, Sequence, put_decimal};
use gw_ask_sets::ask_text::put_station;
use gw_ask_sets::regions::{Region, Values, shared, without};
use gw_ask_sets::shapes::KEY_RANGES;
use gw_audit::KEYS;
use gw_codecs::names::{object_type_name, property_name, service_name};
use gw_configuration::Subnet;
use gw_rules::{FieldName, Format, Operation, Range};
use std::alloc::{AllocError, Global};

/// The fields but the operation, in the order in which they are named.
const ITEMS: [FieldName; 11] = [
    FieldName::ObjectType,
    FieldName::Instance,
    FieldName::Property,
    FieldName::Priority,
    FieldName::Service,
    FieldName::Station,
    FieldName::DestinationNetwork,
    FieldName::SourceKey,
    FieldName::SourceNetwork,
    FieldName::Sender,
    FieldName::Port,
];

/// The key of the station whose address is the one octet 0.
const ONE_OCTET: u64 = 1 << 56;

/// How many bits of an IPv4 address there are: one that shares all is one address.
const WHOLE_PREFIX: u8 = 32;

/// How many first bits the addresses of a subnet may share, the most first.
const PREFIXES: [u8; 33] = [
    32, 31, 30, 29, 28, 27, 26, 25, 24, 23, 22, 21, 20, 19, 18, 17, 16, 15, 14, 13, 12, 11, 10, 9,
    8, 7, 6, 5, 4, 3, 2, 1, 0,
];

/// Appends the words for the asks of a region. An `Err` if there is no memory.
pub(crate) fn put_region(
    alloc: Global,
    out: &mut Vec<u8>,
    region: &Region,
) -> Result<(), AllocError>
    ensures { OnOk result (out.new.items ≡ out.old.items ++ region_text region.now) }
{
    put_operations(alloc, out, &region.operation)?;
    put_items(alloc, out, region, &ITEMS)
}

fn push_operation(
    operations: &mut Vec<Operation>,
    values: &Values,
    operation: Operation,
) -> Result<(), AllocError>
    ensures { OnOk result (operations.new.items ≡ operations.old.items
        ++ (if has_operation values.now operation then operation ∷ [] else [])) }
{
    if values.has_operation(operation) {
        operations.push(operation)?;
    }
    Ok(())
}

/// The operations of a set of values.
fn operations_of(alloc: Global, values: &Values) -> Result<Vec<Operation>, AllocError>
    ensures { IfOk result (λ operations. operations.items ≡ operations_of values.now) }
{
    let mut operations = Vec::new(alloc);
    for operation in Operation::ALL.iter() {
        push_operation(&mut operations, values, *operation)?;
    }
    Ok(operations)
}

pub(crate) fn put_operations(
    alloc: Global,
    out: &mut Vec<u8>,
    values: &Values,
) -> Result<(), AllocError>
    ensures { OnOk result (out.new.items ≡ out.old.items ++ operations_text values.now) }
{
    if values.has_each_operation() {
        return out.extend_from_slice(b"any operation");
    }
    let operations = operations_of(alloc, values)?;
    put_names(out, &operations)
}

/// Appends the names of operations.
fn put_names(out: &mut Vec<u8>, operations: &[Operation]) -> Result<(), AllocError>
    ensures { OnOk result (out.new.items ≡ out.old.items ++ any_of operation_name operations.now) }
{
    let Some((first, rest)) = operations.split_first() else {
        return Ok(());
    };
    out.extend_from_slice(first.name().as_bytes())?;
    put_more_names(out, rest)
}

fn put_more_names(out: &mut Vec<u8>, operations: &[Operation]) -> Result<(), AllocError>
    ensures { OnOk result (out.new.items ≡
        out.old.items ++ flat_map (λ other. codes " or " ++ operation_name other) operations.now) }
{
    for operation in operations {
        put_name(out, *operation)?;
    }
    Ok(())
}

fn put_name(out: &mut Vec<u8>, operation: Operation) -> Result<(), AllocError>
    ensures { OnOk result (out.new.items ≡ out.old.items ++ (codes " or " ++ operation_name operation)) }
{
    out.extend_from_slice(b" or ")?;
    out.extend_from_slice(operation.name().as_bytes())
}

/// Appends the values of these fields.
fn put_items(
    alloc: Global,
    out: &mut Vec<u8>,
    region: &Region,
    fields: &[FieldName],
) -> Result<(), AllocError>
    ensures { OnOk result (out.new.items ≡
        out.old.items ++ flat_map (item_text region.now) fields.now) }
{
    for field in fields {
        put_item(alloc, out, region, *field)?;
    }
    Ok(())
}

/// Appends the values of a field, unless it may have any.
fn put_item(
    alloc: Global,
    out: &mut Vec<u8>,
    region: &Region,
    field: FieldName,
) -> Result<(), AllocError>
    ensures { OnOk result (out.new.items ≡ out.old.items ++ item_text region.now field) }
{
    let values = region.get(field);
    if values.is_any() {
        return Ok(());
    }
    out.extend_from_slice(b", ")?;
    let values = possible(alloc, field, values)?;
    put_values(alloc, out, field, &values)
}

/// Whether the field is the key of a station of any length.
fn is_keyed(field: FieldName) -> bool
    ensures { result ≡ is_keyed field }
{
    matches!(field, FieldName::SourceKey | FieldName::Station)
}

/// The numbers of the ranges that a field can have.
fn possible_ranges(
    alloc: Global,
    field: FieldName,
    ranges: &[Range],
) -> Result<Sequence<Range>, AllocError>
    ensures { IfOk result (λ list. list ≡ shared ranges.now (numbers_of field)) }
{
    if is_keyed(field) {
        shared(alloc, ranges, &KEY_RANGES)
    } else {
        shared(alloc, ranges, &[field.bounds(Format::Three)])
    }
}

/// The values without numbers that the field can't have.
fn possible(alloc: Global, field: FieldName, values: &Values) -> Result<Values, AllocError>
    ensures { IfOk result (λ made. made ≡ possible field values.now) }
{
    Ok(Values {
        absent: values.absent,
        ranges: possible_ranges(alloc, field, values.ranges.as_slice())?,
    })
}

/// The greatest number of a field: of keys the greatest of six octets.
fn last_of(field: FieldName) -> u64
    ensures { result ≡ last_of field }
{
    if is_keyed(field) {
        KEYS - 1
    } else {
        field.bounds(Format::Three).high
    }
}

fn put_values(
    alloc: Global,
    out: &mut Vec<u8>,
    field: FieldName,
    values: &Values,
) -> Result<(), AllocError>
    ensures { OnOk result (out.new.items ≡ out.old.items ++ values_text field values.now) }
{
    if values.ranges.is_empty() {
        out.extend_from_slice(b"without ")?;
        return out.extend_from_slice(noun_of(field).as_bytes());
    }
    put_numbers(alloc, out, field, values)
}

fn put_numbers(
    alloc: Global,
    out: &mut Vec<u8>,
    field: FieldName,
    values: &Values,
) -> Result<(), AllocError>
    ensures { OnOk result (out.new.items ≡ out.old.items ++ numbers_text field values.now) }
{
    put_word(out, field)?;
    let rest = rest_of(alloc, field, values.ranges.as_slice())?;
    if is_rest(field, values.ranges.as_slice(), rest.as_slice()) {
        return put_others(out, field, values.absent, rest.as_slice());
    }
    put_these(out, field, values)
}

fn put_these(out: &mut Vec<u8>, field: FieldName, values: &Values) -> Result<(), AllocError>
    ensures { OnOk result (out.new.items ≡ out.old.items ++ these_text field values.now) }
{
    put_ranges(out, field, values.ranges.as_slice())?;
    put_none(out, values.absent)
}

/// The numbers that a field can have, but for these.
fn rest_of(alloc: Global, field: FieldName, ranges: &[Range]) -> Result<Sequence<Range>, AllocError>
    ensures { IfOk result (λ rest. rest ≡ rest_of field ranges.now) }
{
    if is_keyed(field) {
        without(alloc, &KEY_RANGES, ranges)
    } else {
        without(alloc, &[field.bounds(Format::Three)], ranges)
    }
}

/// Whether ranges of stations aren't some subnets, but all but some, by the numbers that are left out.
fn is_rest(field: FieldName, ranges: &[Range], rest: &[Range]) -> bool
    ensures { result ≡ (names_stations field && (not (are_subnets ranges.now) && are_subnets rest.now)) }
{
    names_stations(field) && !are_subnets(ranges) && are_subnets(rest)
}

fn are_subnets(ranges: &[Range]) -> bool
    ensures { result ≡ are_subnets ranges.now }
{
    !ranges.is_empty() && is_each_whole(ranges)
}

/// Whether each of the ranges is a subnet.
fn is_each_whole(ranges: &[Range]) -> bool
    ensures { result ≡ list_all (λ range. is_some (prefix_of range)) ranges.now }
{
    ranges.iter().all(|range| is_whole(range))
}

/// Whether the range is a subnet.
fn is_whole(range: &Range) -> bool
    ensures { result ≡ is_some (prefix_of range.now) }
{
    prefix_of(range).is_some()
}

/// Appends that the field may be anything but these ranges, also absent or not.
fn put_others(
    out: &mut Vec<u8>,
    field: FieldName,
    absent: bool,
    ranges: &[Range],
) -> Result<(), AllocError>
    ensures { OnOk result (out.new.items ≡ out.old.items ++ others_text field absent ranges.now) }
{
    let Some((first, rest)) = ranges.split_first() else {
        return Ok(());
    };
    out.extend_from_slice(if absent { b"not " } else { b"any but " })?;
    put_range(out, field, first)?;
    put_more_others(out, field, absent, rest)
}

fn put_more_others(
    out: &mut Vec<u8>,
    field: FieldName,
    absent: bool,
    ranges: &[Range],
) -> Result<(), AllocError>
    ensures { OnOk result (out.new.items ≡ out.old.items ++ flat_map (other_text field absent) ranges.now) }
{
    for range in ranges {
        put_other(out, field, absent, range)?;
    }
    Ok(())
}

fn put_other(
    out: &mut Vec<u8>,
    field: FieldName,
    absent: bool,
    range: &Range,
) -> Result<(), AllocError>
    ensures { OnOk result (out.new.items ≡ out.old.items ++ other_text field absent range.now) }
{
    out.extend_from_slice(if absent { b" and not " } else { b" and " })?;
    put_range(out, field, range)
}

fn put_none(out: &mut Vec<u8>, absent: bool) -> Result<(), AllocError>
    ensures { OnOk result (out.new.items ≡
        out.old.items ++ (if absent then codes " or none" else [])) }
{
    if absent {
        return out.extend_from_slice(b" or none");
    }
    Ok(())
}

pub(crate) fn put_ranges(
    out: &mut Vec<u8>,
    field: FieldName,
    ranges: &[Range],
) -> Result<(), AllocError>
    ensures { OnOk result (out.new.items ≡ out.old.items ++ any_of (range_text field) ranges.now) }
{
    let Some((first, rest)) = ranges.split_first() else {
        return Ok(());
    };
    put_range(out, field, first)?;
    put_more_ranges(out, field, rest)
}

fn put_more_ranges(out: &mut Vec<u8>, field: FieldName, ranges: &[Range]) -> Result<(), AllocError>
    ensures { OnOk result (out.new.items ≡
        out.old.items ++ flat_map (λ other. codes " or " ++ range_text field other) ranges.now) }
{
    for range in ranges {
        put_other_range(out, field, range)?;
    }
    Ok(())
}

fn put_other_range(out: &mut Vec<u8>, field: FieldName, range: &Range) -> Result<(), AllocError>
    ensures { OnOk result (out.new.items ≡
        out.old.items ++ (codes " or " ++ range_text field range.now)) }
{
    out.extend_from_slice(b" or ")?;
    put_range(out, field, range)
}

/// Appends a range: of stations as a subnet, if it is one.
fn put_range(out: &mut Vec<u8>, field: FieldName, range: &Range) -> Result<(), AllocError>
    ensures { OnOk result (out.new.items ≡ out.old.items ++ range_text field range.now) }
{
    if names_stations(field) {
        return put_stations(out, field, range);
    }
    put_span(out, field, range)
}

/// Whether the field names stations.
fn names_stations(field: FieldName) -> bool
    ensures { result ≡ names_stations field }
{
    matches!(
        field,
        FieldName::SourceKey | FieldName::Sender | FieldName::Station
    )
}

fn put_stations(out: &mut Vec<u8>, field: FieldName, range: &Range) -> Result<(), AllocError>
    ensures { OnOk result (out.new.items ≡
        out.old.items ++ option_map_or (subnet_words range.now) (prefix_of range.now) (span_text field range.now)) }
{
    match prefix_of(range) {
        Some(prefix) => put_subnet(out, range, prefix),
        None => put_span(out, field, range),
    }
}

/// How many first bits its addresses share, if the range is a subnet at every UDP port.
fn prefix_of(range: &Range) -> Option<u8>
    ensures { result ≡ prefix_of range.now }
{
    prefixes()
        .iter()
        .copied()
        .find(|prefix| is_subnet(range, *prefix))
}

#[tactic(auto, unfolding(crate::specs::comparison::Words::prefixes))]
fn prefixes() -> [u8; 33]
    ensures { result ≡ prefixes }
{
    PREFIXES
}

/// Whether the range is a subnet whose addresses share so many first bits.
fn is_subnet(range: &Range, prefix: u8) -> bool
    ensures { result ≡ is_subnet range.now prefix }
{
    match subnet_from(range, prefix) {
        Some(subnet) => is_same_range(&subnet.keys(), range),
        None => false,
    }
}

fn is_same_range(a: &Range, b: &Range) -> bool
    ensures { result ≡ is_same_range a.now b.now }
{
    a.low == b.low && a.high == b.high
}

/// The subnet of the IPv4 address at the range's low end and all that share so many of its first bits.
fn subnet_from(range: &Range, prefix: u8) -> Option<Subnet>
    ensures { result ≡ subnet_from range.now prefix }
{
    Subnet::new(host_of(range.low), prefix)
}

/// The four octets of the IPv4 address of a key.
fn host_of(key: u64) -> [u8; 4]
    ensures { result ≡ host_of key }
{
    let [_, _, a, b, c, d, _, _] = key.to_be_bytes();
    [a, b, c, d]
}

/// Appends a subnet as rules write it: one address alone, or with how many first bits count.
fn put_subnet(out: &mut Vec<u8>, range: &Range, prefix: u8) -> Result<(), AllocError>
    ensures { OnOk result (out.new.items ≡ out.old.items ++ subnet_words range.now prefix) }
{
    if prefix == WHOLE_PREFIX {
        let host = Mask {
            octets: host_of(range.low),
        };
        return host.put_text(out);
    }
    match subnet_from(range, prefix) {
        Some(subnet) => {
            let text = subnet.to_string(*out.allocator())?;
            out.extend_from_slice(text.as_bytes())
        }
        None => Ok(()),
    }
}

/// Appends the ends of a range, and the name of a single number.
fn put_span(out: &mut Vec<u8>, field: FieldName, range: &Range) -> Result<(), AllocError>
    ensures { OnOk result (out.new.items ≡ out.old.items ++ span_text field range.now) }
{
    put_end(out, field, range.low)?;
    if range.low == range.high {
        return put_named(out, field, range.low);
    }
    if range.high == last_of(field) {
        return out.extend_from_slice(b" or more");
    }
    out.extend_from_slice(b"..")?;
    put_end(out, field, range.high)
}

/// Appends an end of a range.
fn put_end(out: &mut Vec<u8>, field: FieldName, number: u64) -> Result<(), AllocError>
    ensures { OnOk result (out.new.items ≡ out.old.items ++ end_text field number) }
{
    match field {
        FieldName::SourceKey | FieldName::Sender | FieldName::Station => put_station(out, number),
        _ => put_decimal(out, number),
    }
}

/// The standard's name of a number of a field, if it has one.
fn name_of(field: FieldName, number: u64) -> Option<&'static str>
    ensures { name_text (option_map (λ name. name.now) result) ≡ standard_text field number }
{
    match field {
        FieldName::Service => service_name(number),
        FieldName::ObjectType => object_type_name(number),
        FieldName::Property => property_name(number),
        _ => None,
    }
}

fn put_named(out: &mut Vec<u8>, field: FieldName, number: u64) -> Result<(), AllocError>
    ensures { OnOk result (out.new.items ≡ out.old.items ++ named_text field number) }
{
    if is_keyed(field) {
        return put_octet(out, number);
    }
    match name_of(field, number) {
        Some(name) => put_spaced(out, name),
        None => Ok(()),
    }
}

/// Appends the octet of a station of one, in decimal.
fn put_octet(out: &mut Vec<u8>, key: u64) -> Result<(), AllocError>
    ensures { OnOk result (out.new.items ≡ out.old.items ++ octet_text key) }
{
    if ONE_OCTET <= key && key <= ONE_OCTET + 255 {
        out.extend_from_slice(b" (")?;
        put_decimal(out, key - ONE_OCTET)?;
        return out.extend_from_slice(b")");
    }
    Ok(())
}

fn put_spaced(out: &mut Vec<u8>, name: &str) -> Result<(), AllocError>
    ensures { OnOk result (out.new.items ≡ out.old.items ++ name_text (Some name.now)) }
{
    out.push(b' ')?;
    out.extend_from_slice(name.as_bytes())
}

/// Appends the words before the values of a field.
pub(crate) fn put_word(out: &mut Vec<u8>, field: FieldName) -> Result<(), AllocError>
    ensures { OnOk result (out.new.items ≡ out.old.items ++ word_of field) }
{
    match field {
        FieldName::SourceNetwork => out.extend_from_slice(b"from network "),
        FieldName::SourceKey => out.extend_from_slice(b"from "),
        FieldName::DestinationNetwork => out.extend_from_slice(b"to network "),
        FieldName::Station => out.extend_from_slice(b"to "),
        _ => put_noun(out, field),
    }
}

fn put_noun(out: &mut Vec<u8>, field: FieldName) -> Result<(), AllocError>
    ensures { OnOk result (out.new.items ≡ out.old.items ++ (noun_of field ++ codes " ")) }
{
    out.extend_from_slice(noun_of(field).as_bytes())?;
    out.push(b' ')?;
    Ok(())
}

/// What is missing if the field is absent: its key, if that is a word.
fn noun_of(field: FieldName) -> &'static str
    ensures { result.now ≡ noun_of field }
{
    match field {
        FieldName::SourceNetwork => "source network",
        FieldName::ObjectType => "type",
        _ => field.key(),
    }
}
