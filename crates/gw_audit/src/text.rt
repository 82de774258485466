//! The line of a denial, piece by piece after what a buffer holds.

ghost use Rattle.std.specs.Prelude.{◌≡◌, ◌<◌, ◌≤◌, ◌+◌, ◌%◌, ◌++◌, decimal};
ghost use Rattle.std.specs.List.{flat_map};
ghost use Rattle.gw_addr.specs.Appending.{IsAppended, IsAppendedWhole};
ghost use Rattle.gw_addr.specs.Station.{digit_of, two_digits};
ghost use Rattle.gw_audit.specs.Line.{ask_text, field_text, key_text, line_text, operation_named, operation_of, operation_word, stations_of, stations_text};
ghost use Rattle.gw_audit.specs.internal.Parts.{ask_pieces_text, asked_text, counts_text, end_text, object_text, pieces_text, request_text, rule_text, source_text, station_text};

use crate::denial::Denial;
use crate::entry::Stations;
use gw_addr::{Mac, Source, keep_whole, put_decimal, put_octet, put_slice};
use gw_rules::{Ask, Operation, RuleName};
use std::alloc::AllocError;

/// What is in the place of a field that the ask doesn't have.
const ABSENT: &[u8] = b"-";

/// How many digits there are: a number below is one of them.
const RADIX: u64 = 10;

/// The least number of three digits.
const HUNDRED: u64 = RADIX * RADIX;

/// The least number of four digits.
const THOUSAND: u64 = HUNDRED * RADIX;

/// How many keys of six octets there are: they come before all others.
pub const KEYS: u64 = 1 << 48;

/// Appends the line of a denial, which shows its number, its tick, its port, the station that the
/// datagram claims to come from, what was asked, and the rule that denied it; and if the ask has a
/// sender, that and the station that the message is for.
///
/// ```text
/// 1 0 1 1:C0A80105BAC0 read dst=100 svc=12 obj=5,2 prop=85 prio=- rule=hide
/// 1 0 1 1:C0A80105BAC0 write dst=2 svc=15 obj=5,1 prop=85 prio=8 rule=keep sender=C0A80105BAC0 station=C0A80205BAC0
/// ```
///
/// 1 Memory, only where the buffer had no room: it then holds what it held. Its capacity never falls.
pub fn line(denial: &Denial, out: &mut Vec<u8>) -> Result<(), AllocError>
    ensures { IsAppendedWhole (line_text denial.now) out.old out.new result }
{
    let len = out.len();
    let put = put_line(out, denial);
    keep_whole(out, len, put)
}

/// Appends what was asked and by whom, as a line shows it: the station that a datagram claims to come
/// from, and the ask; and if the ask has a sender, that and the station that the message is for.
///
/// ```text
/// 1:C0A80105BAC0 read dst=100 svc=12 obj=5,2 prop=85 prio=-
/// 1:C0A80105BAC0 read dst=100 svc=12 obj=5,2 prop=85 prio=- sender=C0A80105BAC0 station=-
/// ```
///
/// 1 Memory, only if the buffer had no room: a front of it may then follow what it held.
pub fn put_ask(out: &mut Vec<u8>, source: &Source, ask: &Ask) -> Result<(), AllocError>
    ensures { IsAppended (ask_text source.now ask.now) out.old out.new result }
{
    put_ask_pieces(out, source, ask)
}

/// Appends what was asked and by whom, piece by piece.
fn put_ask_pieces(out: &mut Vec<u8>, source: &Source, ask: &Ask) -> Result<(), AllocError>
    ensures { IsAppended (ask_pieces_text source.now ask.now) out.old out.new result }
{
    put_asked(out, source, ask)?;
    put_stations(out, stations_of(ask))
}

/// Appends what was asked and by whom, without the stations.
fn put_asked(out: &mut Vec<u8>, source: &Source, ask: &Ask) -> Result<(), AllocError>
    ensures { IsAppended (asked_text source.now ask.now) out.old out.new result }
{
    put_source(out, source)?;
    put_request(out, ask)?;
    put_object(out, ask)
}

/// Appends the line of a denial. A front of it remains if a growth was refused.
fn put_line(out: &mut Vec<u8>, denial: &Denial) -> Result<(), AllocError>
    ensures { IsAppended (pieces_text denial.now) out.old out.new result }
{
    put_counts(out, denial)?;
    put_asked(out, &denial.source, &denial.ask)?;
    put_end(out, denial)
}

/// Appends the three counts, each with a space after it.
fn put_counts(out: &mut Vec<u8>, denial: &Denial) -> Result<(), AllocError>
    ensures { IsAppended (counts_text denial.now) out.old out.new result }
{
    put_digits(out, denial.number)?;
    put_octet(out, b' ')?;
    put_digits(out, denial.tick)?;
    put_octet(out, b' ')?;
    put_digits(out, u64::from(denial.port))?;
    put_octet(out, b' ')
}

/// Appends a station: its network and its octets, with a colon between.
#[inline(always)]
fn put_source(out: &mut Vec<u8>, source: &Source) -> Result<(), AllocError>
    ensures { IsAppended (source_text source.now) out.old out.new result }
{
    put_digits(out, u64::from(source.net.get()))?;
    put_octet(out, b':')?;
    source.mac.put_text(out)
}

/// Appends what was asked, and to which network: the operation, the destination and the service.
fn put_request(out: &mut Vec<u8>, ask: &Ask) -> Result<(), AllocError>
    ensures { IsAppended (request_text ask.now) out.old out.new result }
{
    put_octet(out, b' ')?;
    put_operation(out, ask.operation, ask.sender.is_some())?;
    put_field(out, b" dst=", ask.destination_network)?;
    put_field(out, b" svc=", ask.service)
}

/// Appends what it was asked of: the object, the property and the priority.
fn put_object(out: &mut Vec<u8>, ask: &Ask) -> Result<(), AllocError>
    ensures { IsAppended (object_text ask.now) out.old out.new result }
{
    put_field(out, b" obj=", ask.object_type)?;
    put_field(out, b",", ask.instance)?;
    put_field(out, b" prop=", ask.property)?;
    put_field(out, b" prio=", ask.priority)
}

/// Appends the name of the rule, the stations, and the line's end.
fn put_end(out: &mut Vec<u8>, denial: &Denial) -> Result<(), AllocError>
    ensures { IsAppended (end_text denial.now) out.old out.new result }
{
    put_rule(out, &denial.rule)?;
    put_stations(out, stations_of(&denial.ask))?;
    put_octet(out, b'\n')
}

/// Appends the name of a rule.
fn put_rule(out: &mut Vec<u8>, rule: &RuleName) -> Result<(), AllocError>
    ensures { IsAppended (rule_text rule.now) out.old out.new result }
{
    put_slice(out, b" rule=")?;
    put_slice(out, rule.as_bytes())
}

/// The stations that a line names of an ask: none, unless it has a sender.
fn stations_of(ask: &Ask) -> Option<Stations>
    ensures { result ≡ stations_of ask.now }
{
    let sender = ask.sender?;
    Some(Stations {
        sender,
        station: ask.station,
    })
}

/// Appends the sender, and the station that the message is for, if they are named.
fn put_stations(out: &mut Vec<u8>, stations: Option<Stations>) -> Result<(), AllocError>
    ensures { IsAppended (stations_text stations) out.old out.new result }
{
    let Some(stations) = stations else {
        return Ok(());
    };
    put_slice(out, b" sender=")?;
    put_key(out, stations.sender)?;
    put_slice(out, b" station=")?;
    put_station(out, stations.station)
}

/// Appends a station by its key, or a dash if there is none.
fn put_station(out: &mut Vec<u8>, station: Option<u64>) -> Result<(), AllocError>
    ensures { IsAppended (station_text station) out.old out.new result }
{
    match station {
        Some(key) => put_key(out, key),
        None => put_slice(out, ABSENT),
    }
}

/// Appends a station by its key: its one to seven octets, or the eight of a number that no station has.
#[tactic(auto, using(crate::proofs::KeyLemmas::six_octets))]
pub fn put_key(out: &mut Vec<u8>, key: u64) -> Result<(), AllocError>
    ensures { IsAppended (key_text key) out.old out.new result }
{
    let octets = key.to_be_bytes();
    if key < KEYS {
        return put_octets(out, &octets[2..]);
    }
    match Mac::of_key(key) {
        Some(mac) => mac.put_text(out),
        None => put_octets(out, &octets),
    }
}

/// Appends octets, two upper-case hexadecimal digits for each.
fn put_octets(out: &mut Vec<u8>, octets: &[u8]) -> Result<(), AllocError>
    ensures { IsAppended (flat_map two_digits octets.now) out.old out.new result }
{
    for octet in octets {
        put_slice(out, &[hex_digit(*octet >> 4), hex_digit(*octet & 15)])?;
    }
    Ok(())
}

/// The digit of a number below 16, in upper case.
fn hex_digit(number: u8) -> u8
    requires { number < 16 }
    ensures { result ≡ digit_of number }
{
    if number < 10 {
        b'0' + number
    } else {
        b'A' + (number - 10)
    }
}

/// Appends the name of an operation by its number, or that number if the line doesn't name it.
fn put_operation(out: &mut Vec<u8>, number: Option<u64>, has_sender: bool) -> Result<(), AllocError>
    ensures { IsAppended (operation_word has_sender number) out.old out.new result }
{
    let Some(number) = number else {
        return put_slice(out, ABSENT);
    };
    match operation_named(number, has_sender) {
        Some(operation) => put_slice(out, operation.name().as_bytes()),
        None => put_decimal(out, number),
    }
}

/// The operation that a line names by this number, or `None` if it shows the number itself: that of no operation, and
/// those of [`Operation::Enter`] and [`Operation::Claim`] if the ask has no sender.
pub fn operation_named(number: u64, has_sender: bool) -> Option<Operation>
    ensures { result ≡ operation_named has_sender number }
{
    if has_sender || number < Operation::Enter.number() {
        operation_of(number)
    } else {
        None
    }
}

/// The operation of a number, or `None` where none has it.
fn operation_of(number: u64) -> Option<Operation>
    ensures { result ≡ operation_of number }
{
    Operation::from_number(number)
}

/// Appends a label and the value of a field after it.
#[inline(always)]
fn put_field(out: &mut Vec<u8>, label: &[u8], value: Option<u64>) -> Result<(), AllocError>
    ensures { IsAppended (label.now ++ field_text value) out.old out.new result }
{
    put_slice(out, label)?;
    match value {
        Some(number) => put_digits(out, number),
        None => put_slice(out, ABSENT),
    }
}

/// Appends a number in decimal: most in a line have one digit, which is written as it is.
#[inline(always)]
#[tactic(auto, using(crate::proofs::Digits::one_digit))]
fn put_digits(out: &mut Vec<u8>, number: u64) -> Result<(), AllocError>
    ensures { IsAppended (decimal number) out.old out.new result }
{
    if number < RADIX {
        put_octet(out, digit(number))
    } else {
        put_several_digits(out, number)
    }
}

/// Appends a number of two digits or more in decimal. Two or three are written as they are.
#[tactic(auto, using(crate::proofs::Digits::two_digits, crate::proofs::Digits::three_digits))]
fn put_several_digits(out: &mut Vec<u8>, number: u64) -> Result<(), AllocError>
    requires { 10 ≤ number }
    ensures { IsAppended (decimal number) out.old out.new result }
{
    if number < HUNDRED {
        put_slice(out, &[digit(number / RADIX), digit(number)])
    } else if number < THOUSAND {
        put_slice(
            out,
            &[
                digit(number / HUNDRED),
                digit(number / RADIX),
                digit(number),
            ],
        )
    } else {
        put_decimal(out, number)
    }
}

/// The last decimal digit of a number.
#[inline(always)]
fn digit(number: u64) -> u8
    ensures { result ≡ 48 + number % 10 }
{
    b'0' + (number % RADIX) as u8
}
