//! What is wanted at the place of a fault, in words.
ghost use Rattle.std.specs.Prelude.{◌≡◌, ◌<◌, ◌++◌, codes, length, map, option_map, MatchOption, OnOk};
ghost use Rattle.std.specs.List.{after_first, before_first, position_or_len};
ghost use Rattle.toml.specs.View.{table_view, view};
ghost use Rattle.gw_addr.specs.Address.{text_of};
ghost use Rattle.gw_configuration.specs.Located.{located_view};
ghost use Rattle.gw_policy_text.specs.keys.Range.{bounds_of};
ghost use Rattle.gw_policy_text.specs.keys.Items.{set_name_in};
ghost use Rattle.gw_policy_text.specs.keys.Value.{list_in};
ghost use Rattle.gw_policy_text.specs.faults.First.{first_of, first_words};
ghost use Rattle.gw_policy_text.specs.faults.Wanted.{address_text, addresses_words, bits_in, bounds_words, due_words, end_of, every_port_words, first_address, first_octet, fixed_words, host_bits, is_reversed, is_slash, is_known, is_known_in, item_words, kind_at, kind_words, last_address, last_octet, length_range_words, length_words, list_kind_words, list_noun, list_words, long_item_words, long_length_words, mention_words, missing_words, must_words, name_words, named_text, named_words, number_words, other_front, other_words, range_words, reversed_ends, scalar_words, shape_words, single_words, straight_words, subnet_in, subnet_words, twice_words, two_front, two_words, type_words, unshaped_words, wanted_words, within_32};

use crate::faults::first::put_first_place;
use crate::faults::keys::put_keys;
use crate::faults::near::{noun_of, put_near};
use crate::faults::value::{put_value, value_at};
use crate::faults::words::table_at;
use crate::keys::items::{items_named, set_name};
use crate::keys::range::between;
use crate::keys::value::{self, mask_of, member, string};
use gw_addr::{BipAddr, Mask, put_decimal};
use gw_configuration::{ConfigFault, Format, Located, MAX_TEXT, Names, Naming, Scalar, Shape};
use gw_rules::{FieldName, MAX_RANGES, Range};
use std::alloc::AllocError;
use toml::{Table, Value};

/// How many items a list for a field of a rule of format 3 may have.
const MAX_ITEMS: usize = 64;
/// How many bits an octet has.
const OCTET_BITS: u8 = 8;
/// How many bits an address has.
const ADDRESS_BITS: u8 = 32;
/// The types of objects, each by its number.
const TYPES: &str =
    "5 Binary Value, 19 Multi-state Value, 40 CharacterString Value, 45 Integer Value, 48 Positive Integer Value";
/// The broadcast manager beside a port.
const MANAGER: &str =
    "an address and its UDP port, as 10.0.1.3:47808, other than the port's own and its broadcast address, at a port without peers";
/// The operations, each by its name.
const OPERATIONS: &str =
    "cast, route, register, delete, read-table, write-table, learn, network, read, write, list";
/// Those of a rule that goes both ways.
const PASSED: &str = "read, write, route, since the rule goes both ways";
/// What an assertion may name.
const ASSERTED: &str =
    "cast, route, register, delete, read-table, write-table, learn, network, read, write, list, enter, claim, any-read, any-write";
/// Stations of every length.
const STATIONS: &str =
    "an address as 10.0.1.5:47808 or 10.0.1.5, a subnet as 10.0.1.0/24, or 1, 2, 3, 4, 5 or 7 octets as mac:07, two of one length in a list";
/// That a list of rules gets too long.
const CROWD: &[u8] =
    b"is past the 512 rules that there may be, those for the way and for the answers counted";
/// Those of format 3.
const LONG_OPERATIONS: &str =
    "cast, route, register, delete, read-table, write-table, learn, network, read, write, list, enter, claim";

/// Puts what is wanted at the place of a fault, after what is said of it. `AllocError` where memory was
/// refused.
pub(crate) fn put_wanted(
    line: &mut Vec<u8>,
    located: &Located<'_>,
    top: &Table,
) -> Result<(), AllocError>
    ensures { let words = wanted_words (located_view located.now) (table_view top.now) in
        OnOk result (line.new.items ≡ line.old.items ++ words) }
{
    let kind = kind_at(located, top);
    let value = value_at(located, top);
    match located.fault {
        ConfigFault::UnknownKey => put_keys(line, located.place, top),
        ConfigFault::Duplicate => put_duplicate(line, located, kind, top),
        _ => put_shape(line, located, top, value),
    }
}

/// Puts what is wanted of a value, by the shape of its field.
fn put_shape(
    line: &mut Vec<u8>,
    located: &Located<'_>,
    top: &Table,
    value: Option<&Value>,
) -> Result<(), AllocError>
    ensures { let found = located.now in let words =
        shape_words (table_view top.now) found.fault found.wanted found.item (option_map (λ v. view v.now) value.entry) in
        OnOk result (line.new.items ≡ line.old.items ++ words) }
{
    match (located.wanted, value) {
        (Some(shape), None) => put_missing(line, shape),
        (Some(shape), Some(value)) => put_must(line, located, shape, value, top),
        (None, _) => line.extend_from_slice(unshaped_words(located.fault)),
    }
}

/// What is said where no shape is known.
fn unshaped_words(fault: ConfigFault) -> &'static [u8]
    ensures { result.now ≡ unshaped_words fault }
{
    match fault {
        ConfigFault::TooMany => CROWD,
        _ => b"is at fault",
    }
}

/// Of an instance, the type of its object.
fn kind_at<'a>(located: &Located<'_>, top: &'a Table) -> Option<&'a Value>
    ensures { option_map (λ v. view v.now) result ≡ kind_at (located_view located.now) (table_view top.now) }
{
    if located.key != "instance" {
        return None;
    }
    member(table_at(located.place, top)?, "type")
}

/// Puts that a value occurs twice, and where it is first.
fn put_duplicate(
    line: &mut Vec<u8>,
    located: &Located<'_>,
    kind: Option<&Value>,
    top: &Table,
) -> Result<(), AllocError>
    ensures { let of = option_map (λ v. view v.now) kind.entry in
        let first = first_words (first_of (located_view located.now) of (table_view top.now)) in
        OnOk result (line.new.items ≡ line.old.items ++ (twice_words of ++ first)) }
{
    put_twice(line, kind)?;
    put_first_place(line, located, kind, top)
}

/// Puts that a value occurs twice.
fn put_twice(line: &mut Vec<u8>, kind: Option<&Value>) -> Result<(), AllocError>
    ensures { let words = twice_words (option_map (λ v. view v.now) kind.entry) in
        OnOk result (line.new.items ≡ line.old.items ++ words) }
{
    line.extend_from_slice(b" is named twice")?;
    put_type(line, kind)
}

/// Puts the type of an object.
fn put_type(line: &mut Vec<u8>, kind: Option<&Value>) -> Result<(), AllocError>
    ensures { let words = type_words (option_map (λ v. view v.now) kind.entry) in
        OnOk result (line.new.items ≡ line.old.items ++ words) }
{
    match kind {
        Some(kind) => {
            line.extend_from_slice(b" for type ")?;
            put_value(line, kind)
        }
        None => Ok(()),
    }
}

/// Puts what a value must be that isn't there.
fn put_missing(line: &mut Vec<u8>, shape: Shape) -> Result<(), AllocError>
    ensures { OnOk result (line.new.items ≡ line.old.items ++ missing_words shape) }
{
    line.extend_from_slice(b"; it must be ")?;
    put_due(line, shape)
}

fn put_due(line: &mut Vec<u8>, shape: Shape) -> Result<(), AllocError>
    ensures { OnOk result (line.new.items ≡ line.old.items ++ due_words shape) }
{
    match shape {
        Shape::One(of) => put_range(line, of),
        Shape::List { of, least, most } => put_list(line, of, least, most),
        Shape::Ranges(of) | Shape::Items(of) => put_range(line, of),
    }
}

/// Puts how many of what a list has.
fn put_list(line: &mut Vec<u8>, of: Scalar, least: usize, most: usize) -> Result<(), AllocError>
    ensures { OnOk result (line.new.items ≡ line.old.items ++ list_words of least most) }
{
    put_bounds(line, least as u64, most as u64)?;
    line.extend_from_slice(list_noun(of).as_bytes())
}

/// What the items of a list are.
fn list_noun(of: Scalar) -> &'static str
    ensures { result.now ≡ list_noun of }
{
    match of {
        Scalar::Table => " tables in double brackets",
        Scalar::Item => " items in a list",
        _ => " texts in a list",
    }
}

/// Puts what a value must be.
fn put_must(
    line: &mut Vec<u8>,
    located: &Located<'_>,
    shape: Shape,
    value: &Value,
    top: &Table,
) -> Result<(), AllocError>
    ensures { let words = must_words (table_view top.now) located.now.fault shape located.now.item (view value.now) in
        OnOk result (line.new.items ≡ line.old.items ++ words) }
{
    let fault = located.fault;
    match (shape, located.item) {
        (Shape::One(of), _) => put_scalar(line, fault, of),
        (Shape::List { of, .. }, Some(_)) => put_scalar(line, fault, of),
        (Shape::List { of, least, most }, None) => put_length(line, fault, of, least, most),
        (Shape::Ranges(of), Some(_)) => put_item(line, fault, of, value),
        (Shape::Ranges(of), None) => put_length(line, fault, of, 1, MAX_RANGES),
        (Shape::Items(of), Some(_)) => put_long_item(line, fault, of, value, top),
        (Shape::Items(of), None) => put_long_length(line, fault, of),
    }
}

/// Puts what an item for a field of a rule of format 3 must be.
fn put_long_item(
    line: &mut Vec<u8>,
    fault: ConfigFault,
    of: Scalar,
    item: &Value,
    top: &Table,
) -> Result<(), AllocError>
    ensures { let words = long_item_words (table_view top.now) fault of (view item.now) (set_name_in (view item.now)) in
        OnOk result (line.new.items ≡ line.old.items ++ words) }
{
    match set_name(item) {
        Some(name) => put_mention(line, is_known(top, name), fault, of),
        None => put_item(line, fault, of, item),
    }
}

/// Whether there is a set of this name.
fn is_known(top: &Table, name: &str) -> bool
    ensures { result ≡ is_known (table_view top.now) name.now }
{
    match member(top, "set") {
        Some(sets) => is_known_in(sets, name),
        None => false,
    }
}

fn is_known_in(sets: &Value, name: &str) -> bool
    ensures { result ≡ is_known_in name.now (list_in (view sets.now)) }
{
    match value::list(sets) {
        Ok(tables) => items_named(tables, name).is_some(),
        Err(_) => false,
    }
}

/// Puts, of an item that names a set, that there is none, or that the field can't have one of its items.
fn put_mention(
    line: &mut Vec<u8>,
    known: bool,
    fault: ConfigFault,
    of: Scalar,
) -> Result<(), AllocError>
    ensures { OnOk result (line.new.items ≡ line.old.items ++ mention_words known fault of) }
{
    if known {
        put_foreign(line, fault, of)
    } else {
        line.extend_from_slice(b" is no set")
    }
}

/// Puts that a set has an item that the field can't have.
fn put_foreign(line: &mut Vec<u8>, fault: ConfigFault, of: Scalar) -> Result<(), AllocError>
    ensures { OnOk result (line.new.items ≡ line.old.items ++ (codes " has an item that" ++ single_words fault of)) }
{
    line.extend_from_slice(b" has an item that")?;
    put_single(line, fault, of)
}

fn put_single(line: &mut Vec<u8>, fault: ConfigFault, of: Scalar) -> Result<(), AllocError>
    ensures { OnOk result (line.new.items ≡ line.old.items ++ single_words fault of) }
{
    put_scalar(line, fault, of)?;
    line.extend_from_slice(two_front(of).as_bytes())
}

/// Puts how many items there may be.
fn put_long_length(line: &mut Vec<u8>, fault: ConfigFault, of: Scalar) -> Result<(), AllocError>
    ensures { OnOk result (line.new.items ≡ line.old.items ++ long_length_words fault of) }
{
    match fault {
        ConfigFault::TooMany => line.extend_from_slice(
            b" must have 1 to 64, at most 256 with the items of its sets, and 2048 with those of all rules",
        ),
        _ => put_length(line, fault, of, 1, MAX_ITEMS),
    }
}

/// Puts what a single value must be.
fn put_scalar(line: &mut Vec<u8>, fault: ConfigFault, of: Scalar) -> Result<(), AllocError>
    ensures { OnOk result (line.new.items ≡ line.old.items ++ scalar_words fault of) }
{
    match fault {
        ConfigFault::Kind => {
            line.extend_from_slice(b" must be ")?;
            line.extend_from_slice(kind_words(of).as_bytes())
        }
        _ => put_other(line, of),
    }
}

/// Puts what a value of the right kind must be.
fn put_other(line: &mut Vec<u8>, of: Scalar) -> Result<(), AllocError>
    ensures { OnOk result (line.new.items ≡ line.old.items ++ other_words of) }
{
    line.extend_from_slice(other_front(of).as_bytes())?;
    put_range(line, of)
}

fn other_front(of: Scalar) -> &'static str
    ensures { result.now ≡ other_front of }
{
    match of {
        Scalar::ObjectType | Scalar::Operation(_) => " is none of ",
        _ => " must be ",
    }
}

/// Puts what an item for a field of a rule must be.
fn put_item(
    line: &mut Vec<u8>,
    fault: ConfigFault,
    of: Scalar,
    item: &Value,
) -> Result<(), AllocError>
    ensures { let words = item_words fault of (view item.now) in
        OnOk result (line.new.items ≡ line.old.items ++ words) }
{
    if is_reversed(of, item) {
        return line.extend_from_slice(b" is reversed: the low end comes before the high one");
    }
    put_straight(line, fault, of, item)
}

/// Puts what an item must be that isn't the other way round.
fn put_straight(
    line: &mut Vec<u8>,
    fault: ConfigFault,
    of: Scalar,
    item: &Value,
) -> Result<(), AllocError>
    ensures { let words = straight_words fault of (view item.now) (named_text of (view item.now)) in
        OnOk result (line.new.items ≡ line.old.items ++ words) }
{
    match named_text(of, item) {
        Some((names, text)) => put_name(line, names, text),
        None => {
            put_scalar(line, fault, of)?;
            put_two(line, of, item)
        }
    }
}

/// The text where a number or a name is due.
fn named_text(of: Scalar, item: &Value) -> Option<(Names, &str)>
    ensures { option_map (λ x. (x.0, x.1.now)) result ≡ named_text of (view item.now) }
{
    match of {
        Scalar::Named(names) => Some((names, string(item)?)),
        _ => None,
    }
}

/// Puts that a text is no such name, and the one that it may be meant as.
fn put_name(line: &mut Vec<u8>, names: Names, text: &str) -> Result<(), AllocError>
    ensures { OnOk result (line.new.items ≡ line.old.items ++ name_words names text.now) }
{
    line.extend_from_slice(b" is no ")?;
    line.extend_from_slice(noun_of(names).as_bytes())?;
    put_near(line, names, text)
}

/// Puts that an item may be two values.
fn put_two(line: &mut Vec<u8>, of: Scalar, item: &Value) -> Result<(), AllocError>
    ensures { OnOk result (line.new.items ≡ line.old.items ++ two_words of (view item.now)) }
{
    line.extend_from_slice(two_front(of).as_bytes())?;
    put_addresses(line, address_text(of, item))
}

fn two_front(of: Scalar) -> &'static str
    ensures { result.now ≡ two_front of }
{
    match of {
        Scalar::Operation(_) => "",
        _ => ", or a list of two such, low and high",
    }
}

/// The text where an address is due.
fn address_text(of: Scalar, item: &Value) -> Option<&str>
    ensures { option_map (λ t. t.now) result ≡ address_text of (view item.now) }
{
    match of {
        Scalar::Address => string(item),
        _ => None,
    }
}

/// Whether an item is a list of two that would be a range the other way round.
fn is_reversed(of: Scalar, item: &Value) -> bool
    ensures { result ≡ is_reversed of (view item.now) }
{
    match value::list(item) {
        Ok(ends) => are_reversed(of, ends),
        Err(_) => false,
    }
}

/// What the ends of a list of two are: numbers, where a number or a name is due.
fn end_of(of: Scalar) -> Scalar
    ensures { result ≡ end_of of }
{
    match of {
        Scalar::Named(names) => {
            let bounds = bounds_of(names);
            Scalar::Number {
                low: bounds.low,
                high: bounds.high,
            }
        }
        _ => of,
    }
}

fn are_reversed(of: Scalar, ends: &[Value]) -> bool
    ensures { result ≡ reversed_ends of (map view ends.now) }
{
    match ends {
        [low, high] => match between(end_of(of), high, low) {
            Ok(_) => true,
            Err(_) => false,
        },
        _ => false,
    }
}

/// Puts, of a text without a UDP port, the range with every port of its addresses.
fn put_addresses(line: &mut Vec<u8>, text: Option<&str>) -> Result<(), AllocError>
    ensures { let words = addresses_words (option_map (λ t. t.now) text.entry) in
        OnOk result (line.new.items ≡ line.old.items ++ words) }
{
    match text {
        Some(text) => put_subnet(line, subnet_in(text)),
        None => Ok(()),
    }
}

fn put_subnet(line: &mut Vec<u8>, subnet: Option<(Mask, u8)>) -> Result<(), AllocError>
    ensures { OnOk result (line.new.items ≡ line.old.items ++ subnet_words subnet) }
{
    match subnet {
        Some((four, bits)) => put_every_port(line, four, bits),
        None => Ok(()),
    }
}

/// Puts the range with every port of the addresses with the same first so many bits.
fn put_every_port(line: &mut Vec<u8>, four: Mask, bits: u8) -> Result<(), AllocError>
    ensures { OnOk result (line.new.items ≡ line.old.items ++ every_port_words four bits) }
{
    line.extend_from_slice(b"; with every UDP port it is [\"")?;
    put_first(line, four, bits)?;
    line.extend_from_slice(b"\", \"")?;
    put_last(line, four, bits)?;
    line.extend_from_slice(b"\"]")
}

fn put_first(line: &mut Vec<u8>, four: Mask, bits: u8) -> Result<(), AllocError>
    ensures { OnOk result (line.new.items ≡ line.old.items ++ text_of (first_address four bits)) }
{
    first_address(four, bits).put_text(line)
}

fn put_last(line: &mut Vec<u8>, four: Mask, bits: u8) -> Result<(), AllocError>
    ensures { OnOk result (line.new.items ≡ line.old.items ++ text_of (last_address four bits)) }
{
    last_address(four, bits).put_text(line)
}

/// The addresses of a text `a.b.c.d/bits`, or `a.b.c.d` with all 32.
fn subnet_in(text: &str) -> Option<(Mask, u8)>
    ensures { result ≡ subnet_in text.now }
{
    match split_at_slash(text) {
        Some((address, bits)) => {
            let four = mask_of(address)?;
            let bits = bits_in(bits.as_bytes())?;
            Some((four, bits))
        }
        None => {
            let four = mask_of(text)?;
            Some((four, ADDRESS_BITS))
        }
    }
}

/// What comes before the first slash, and what comes after it.
fn split_at_slash(text: &str) -> Option<(&str, &str)>
    ensures { MatchOption result (position_or_len is_slash text.now ≡ length text.now)
        (λ x. (x.0.now ≡ before_first is_slash text.now) × (x.1.now ≡ after_first is_slash text.now)
        × (position_or_len is_slash text.now < length text.now)) }
{
    text.split_once('/')
}

/// A number of one or two digits, at most 32.
fn bits_in(text: &[u8]) -> Option<u8>
    ensures { result ≡ bits_in text.now }
{
    match text {
        [digit] if digit.is_ascii_digit() => Some(*digit - b'0'),
        [tens, ones] if tens.is_ascii_digit() && ones.is_ascii_digit() => {
            within_32(10 * (*tens - b'0') + (*ones - b'0'))
        }
        _ => None,
    }
}

fn within_32(bits: u8) -> Option<u8>
    ensures { result ≡ within_32 bits }
{
    if bits <= ADDRESS_BITS {
        Some(bits)
    } else {
        None
    }
}

/// The bits of an octet after its first so many, each of them 1.
fn host_bits(bits: u8) -> u8
    ensures { result ≡ host_bits bits }
{
    if bits < OCTET_BITS { 255 >> bits } else { 0 }
}

/// The last octet of those with the same first so many bits.
fn last_octet(octet: u8, bits: u8) -> u8
    ensures { result ≡ last_octet octet bits }
{
    octet | host_bits(bits)
}

/// The first octet of those.
fn first_octet(octet: u8, bits: u8) -> u8
    ensures { result ≡ first_octet octet bits }
{
    last_octet(octet, bits).saturating_sub(host_bits(bits))
}

/// The first address of those with the same first so many bits, with the first UDP port.
fn first_address(four: Mask, bits: u8) -> BipAddr
    ensures { result ≡ first_address four bits }
{
    let [a, b, c, d] = four.octets;
    BipAddr {
        ip: [
            first_octet(a, bits),
            first_octet(b, bits.saturating_sub(8)),
            first_octet(c, bits.saturating_sub(16)),
            first_octet(d, bits.saturating_sub(24)),
        ],
        udp: 0,
    }
}

/// The last address of those, with the last UDP port.
fn last_address(four: Mask, bits: u8) -> BipAddr
    ensures { result ≡ last_address four bits }
{
    let [a, b, c, d] = four.octets;
    BipAddr {
        ip: [
            last_octet(a, bits),
            last_octet(b, bits.saturating_sub(8)),
            last_octet(c, bits.saturating_sub(16)),
            last_octet(d, bits.saturating_sub(24)),
        ],
        udp: 65535,
    }
}

/// Puts how many items a list may have, or that it has to be one.
fn put_length(
    line: &mut Vec<u8>,
    fault: ConfigFault,
    of: Scalar,
    least: usize,
    most: usize,
) -> Result<(), AllocError>
    ensures { OnOk result (line.new.items ≡ line.old.items ++ length_words fault of least most) }
{
    match fault {
        ConfigFault::Kind => line.extend_from_slice(list_kind_words(of).as_bytes()),
        _ => {
            line.extend_from_slice(b" must have ")?;
            put_bounds(line, least as u64, most as u64)
        }
    }
}

/// That a value must be a list.
fn list_kind_words(of: Scalar) -> &'static str
    ensures { result.now ≡ list_kind_words of }
{
    match of {
        Scalar::Table => " must be tables in double brackets",
        _ => " must be a list",
    }
}

/// The kind of a value.
fn kind_words(of: Scalar) -> &'static str
    ensures { result.now ≡ kind_words of }
{
    match of {
        Scalar::Number { .. } | Scalar::Signed | Scalar::ObjectType => "a whole number",
        Scalar::Text { .. }
        | Scalar::RuleName
        | Scalar::ShortName
        | Scalar::Operation(_)
        | Scalar::Verdict => "a text in quotes",
        Scalar::Address | Scalar::Manager => "an address in quotes",
        Scalar::Mask => "a mask in quotes",
        Scalar::Boolean | Scalar::True | Scalar::False => "true or false",
        Scalar::Table => "a table",
        Scalar::Named(_) => "a whole number or a name in quotes",
        Scalar::Stations => "an address or a subnet in quotes",
        Scalar::AnyStations => "an address, a subnet or a station's octets in quotes",
        Scalar::Subnet => "a subnet in quotes",
        Scalar::Item => "a text in quotes, a whole number or a list of two",
    }
}

/// Puts the range of a value, or the shape of a text.
fn put_range(line: &mut Vec<u8>, of: Scalar) -> Result<(), AllocError>
    ensures { OnOk result (line.new.items ≡ line.old.items ++ range_words of) }
{
    match of {
        Scalar::Number { low, high } => put_number(line, low, high),
        Scalar::Text { least } => put_length_range(line, least),
        Scalar::Named(names) => put_named(line, names),
        Scalar::Signed
        | Scalar::ObjectType
        | Scalar::RuleName
        | Scalar::ShortName
        | Scalar::Operation(_)
        | Scalar::True
        | Scalar::False
        | Scalar::Verdict
        | Scalar::AnyStations
        | Scalar::Address
        | Scalar::Manager
        | Scalar::Mask
        | Scalar::Boolean
        | Scalar::Table
        | Scalar::Stations
        | Scalar::Subnet
        | Scalar::Item => line.extend_from_slice(fixed_words(of).as_bytes()),
    }
}

/// Puts how long a text may be.
fn put_length_range(line: &mut Vec<u8>, least: usize) -> Result<(), AllocError>
    ensures { OnOk result (line.new.items ≡ line.old.items ++ length_range_words least) }
{
    line.extend_from_slice(b"a text of ")?;
    put_bounds(line, least as u64, MAX_TEXT as u64)?;
    line.extend_from_slice(b" octets")
}

/// The shape of other values.
fn fixed_words(of: Scalar) -> &'static str
    ensures { result.now ≡ fixed_words of }
{
    match of {
        Scalar::Number { .. } | Scalar::Text { .. } | Scalar::Named(_) => "",
        Scalar::Signed => "-2147483648 to 2147483647",
        Scalar::ObjectType => TYPES,
        Scalar::RuleName => "1 to 32 of a to z, 0 to 9 and -, and not default",
        Scalar::ShortName => {
            "1 to 27 of a to z, 0 to 9 and -, and not default, since the rule goes both ways"
        }
        Scalar::Operation(Naming::Rule(Format::Three)) => LONG_OPERATIONS,
        Scalar::Operation(Naming::Rule(_)) => OPERATIONS,
        Scalar::Operation(Naming::BothWays) => PASSED,
        Scalar::Operation(Naming::Assertion) => ASSERTED,
        Scalar::Address => "an address and its UDP port, as 10.0.1.255:47808",
        Scalar::Manager => MANAGER,
        Scalar::Mask => "a mask as 255.255.255.0",
        Scalar::Boolean => "true or false",
        Scalar::True => "true, since the rule goes both ways",
        Scalar::False => "false, since the rule allows",
        Scalar::Verdict => "allowed or denied",
        Scalar::AnyStations => STATIONS,
        Scalar::Table => "a table",
        Scalar::Stations => "an address as 10.0.1.5:47808 or 10.0.1.5, or a subnet as 10.0.1.0/24",
        Scalar::Subnet => "a subnet as 10.0.1.0/24",
        Scalar::Item => "a whole number, a list of two, or a text that doesn't begin with @",
    }
}

/// Puts the range of a number that has a name.
fn put_named(line: &mut Vec<u8>, names: Names) -> Result<(), AllocError>
    ensures { OnOk result (line.new.items ≡ line.old.items ++ named_words names) }
{
    let bounds = bounds_of(names);
    put_bounds(line, bounds.low, bounds.high)?;
    line.extend_from_slice(b" or a name")
}

fn bounds_of(names: Names) -> Range
    ensures { result ≡ bounds_of (Scalar.Named names) }
{
    let field = match names {
        Names::Services => FieldName::Service,
        Names::ObjectTypes => FieldName::ObjectType,
        Names::Properties => FieldName::Property,
    };
    field.bounds(Format::Three)
}

/// Puts the range of a number. Where there are no states, a default is none of them.
fn put_number(line: &mut Vec<u8>, low: u64, high: u64) -> Result<(), AllocError>
    ensures { OnOk result (line.new.items ≡ line.old.items ++ number_words low high) }
{
    if high < low {
        line.extend_from_slice(b"one of the states")
    } else {
        put_bounds(line, low, high)
    }
}

/// Puts the bounds of a number.
fn put_bounds(line: &mut Vec<u8>, low: u64, high: u64) -> Result<(), AllocError>
    ensures { OnOk result (line.new.items ≡ line.old.items ++ bounds_words low high) }
{
    put_decimal(line, low)?;
    if low < high {
        line.extend_from_slice(b" to ")?;
        return put_decimal(line, high);
    }
    Ok(())
}
