//! The line of a denial, read back piece by piece from its front.

ghost use Rattle.std.specs.Prelude.{◌≡◌, ◌<◌, ◌==◌, IfSome, Some, find, length, nat_eq, position};
ghost use Rattle.std.specs.Cmp.Lexicographic.{pointwise};
ghost use Rattle.std.specs.List.{list_any};
ghost use Rattle.std.specs.Option.{IsSomeAnd, option_and_then};
ghost use Rattle.hex.specs.Hex.{decode_of};
ghost use Rattle.gw_rules.specs.Operation.{operation_name};
ghost use Rattle.gw_audit.specs.declared.denial.Denial.{Denial};
ghost use Rattle.gw_audit.specs.Entry.{IsLineOf, IsShowable, ShowsAsk, denial_of};
ghost use Rattle.gw_audit.specs.Laws.{AreShownAlike};
ghost use Rattle.gw_audit.specs.internal.Reading.{Gives, ask_at, ask_in, behind, field_in, field_to, is_lower, key_in, key_to, labelled_to, line_in, long_key, long_key_in, mac_in, mac_to, name_of, named_number, named_stations, net_of, number_in, number_to, operation_in, other_number, parted_at, port_at, port_of, priority_at, request_at, rule_at, source_at, station_in, station_key, stations_in, target_at, shown_by, whole_ask, word_at};

use crate::entry::{Shown, ShownAsk, Stations};
use crate::text::operation_named;
use gw_addr::{Mac, NetNum, Source};
use gw_rules::Operation;
use itoa::Buffer;

/// What is in the place of a field that the ask doesn't have.
const ABSENT: &[u8] = b"-";
/// How many octets a station's address has at most (clause 6.2.2).
const MAX_STATION: usize = 255;

/// What the line of a denial shows, or `None` where no denial has this line. It is taken without
/// its line feed.
///
/// ```text
/// 1 0 1 1:C0A80105BAC0 read dst=100 svc=12 obj=5,2 prop=85 prio=- rule=hide
/// 1 0 1 1:C0A80105BAC0 read dst=100 svc=12 obj=5,2 prop=85 prio=- rule=hide sender=C0A80105BAC0 station=-
/// ```
pub fn read_line(line: &[u8]) -> Option<Shown<'_>>
    ensures found { IfSome result (λ shown. IsLineOf line.now (denial_of shown)) }
    ensures is { IfSome result (λ shown. IsShowable (denial_of shown)) }
    ensures only { (d : Denial) → IsShowable d → IsLineOf line.now d
        → IsSomeAnd result (λ shown. AreShownAlike d (denial_of shown)) }
{
    line_in(line)
}

/// The ask that a line shows, or `None` if it shows none. It is the line of a denial without its
/// line feed, or the eight words in the middle of one, with the stations after them if it names
/// them.
///
/// ```text
/// 1 1:C0A80105BAC0 read dst=100 svc=12 obj=5,2 prop=85 prio=-
/// 1 1:C0A80105BAC0 read dst=100 svc=12 obj=5,2 prop=85 prio=- sender=C0A80105BAC0 station=-
/// ```
pub fn read_ask(line: &[u8]) -> Option<ShownAsk>
    ensures found { IfSome result (ShowsAsk line.now) }
    ensures only { (ask : ShownAsk) → ShowsAsk line.now ask → result ≡ Some ask }
{
    ask_in_line(line)
}

/// The ask of a whole line, or else of its words alone.
fn ask_in_line(line: &[u8]) -> Option<ShownAsk>
    ensures { result ≡ shown_by (line_in line.now) line.now }
{
    match line_in(line) {
        Some(shown) => Some(shown.ask),
        None => ask_in(line),
    }
}

/// What a whole line shows.
fn line_in(text: &[u8]) -> Option<Shown<'_>>
    ensures { Gives denial_of result (line_in text.now) }
{
    let (number, rest) = number_to(b' ', text)?;
    let (tick, rest) = number_to(b' ', rest)?;
    let Some((ask, operation, rest)) = ask_at(rest) else {
        return None;
    };
    let (rule, rest) = rule_at(rest)?;
    let ask = whole_ask(ask, operation, rest)?;
    Some(Shown {
        number,
        tick,
        ask,
        rule,
    })
}

/// The ask with its operation and the stations at the line's end. Which operations have names hangs on
/// whether there are stations.
fn whole_ask(ask: ShownAsk, operation: &[u8], end: &[u8]) -> Option<ShownAsk>
    ensures { result ≡ whole_ask ask operation.now end.now }
{
    let stations = stations_in(end)?;
    let operation = operation_in(stations.is_some(), operation)?;
    Some(ShownAsk {
        operation,
        stations,
        ..ask
    })
}

/// The name of a rule after its label, up to the next space, and what follows.
fn rule_at(text: &[u8]) -> Option<(&str, &[u8])>
    ensures { Gives (λ x. (x.0.now, x.1.now)) result (rule_at text.now) }
{
    let rest = behind(b" rule=", text)?;
    let (word, rest) = word_at(rest);
    let name = name_of(word)?;
    Some((name, rest))
}

/// The stations at the end of a line, which may name none.
fn stations_in(text: &[u8]) -> Option<Option<Stations>>
    ensures { result ≡ stations_in text.now }
{
    if text.is_empty() {
        return Some(None);
    }
    match named_stations(text) {
        Some(stations) => Some(Some(stations)),
        None => None,
    }
}

/// The sender, and the station that the message is for, to the end of the line.
fn named_stations(text: &[u8]) -> Option<Stations>
    ensures { result ≡ named_stations text.now }
{
    let rest = behind(b" sender=", text)?;
    let (sender, rest) = key_to(b' ', rest)?;
    let word = behind(b"station=", rest)?;
    let station = station_key(word)?;
    Some(Stations { sender, station })
}

/// The key of a station, or none.
fn station_key(text: &[u8]) -> Option<Option<u64>>
    ensures { result ≡ station_key text.now }
{
    if text == ABSENT {
        return Some(None);
    }
    match key_in(text) {
        Some(key) => Some(Some(key)),
        None => None,
    }
}

/// The key of a station, and what comes after the character at its end.
fn key_to(end: u8, text: &[u8]) -> Option<(u64, &[u8])>
    ensures { Gives (λ x. (x.0, x.1.now)) result (key_to end text.now) }
{
    let (word, rest) = parted_at(end, text)?;
    let key = key_in(word)?;
    Some((key, rest))
}

/// The key of the station whose octets a text is in upper-case digits.
fn key_in(text: &[u8]) -> Option<u64>
    ensures { result ≡ key_in text.now }
{
    let mac = mac_in(text)?;
    match mac.key() {
        Some(key) => Some(key),
        None => long_key_in(mac.as_slice()),
    }
}

/// The number of eight octets if it is no station's key.
fn long_key_in(octets: &[u8]) -> Option<u64>
    ensures { result ≡ long_key_in octets.now }
{
    match octets {
        [a, b, c, d, e, f, high, low] => long_key(u64::from_be_bytes([
            *a, *b, *c, *d, *e, *f, *high, *low,
        ])),
        _ => None,
    }
}

/// A number that is no station's key.
fn long_key(key: u64) -> Option<u64>
    ensures { result ≡ long_key key }
{
    match Mac::of_key(key) {
        Some(_) => None,
        None => Some(key),
    }
}

/// A name of UTF-8.
fn name_of(text: &[u8]) -> Option<&str>
    ensures { Gives (λ x. x.now) result (name_of text.now) }
{
    match str::from_utf8(text) {
        Ok(name) => Some(name),
        Err(_) => None,
    }
}

/// The ask of eight words and of the stations after them, with nothing more.
fn ask_in(text: &[u8]) -> Option<ShownAsk>
    ensures { result ≡ ask_in text.now }
{
    let Some((ask, operation, rest)) = ask_at(text) else {
        return None;
    };
    whole_ask(ask, operation, rest)
}

/// The ask of eight words but for its operation, the word of that, and what comes after the eight.
fn ask_at(text: &[u8]) -> Option<(ShownAsk, &[u8], &[u8])>
    ensures { Gives (λ x. (x.0, x.1.now, x.2.now)) result (ask_at text.now) }
{
    let (port, rest) = port_at(text)?;
    let Some((source, rest)) = source_at(rest) else {
        return None;
    };
    let (operation, rest) = parted_at(b' ', rest)?;
    let (request, rest) = request_at(rest)?;
    let (target, rest) = target_at(rest)?;
    let (priority, rest) = priority_at(rest)?;
    let ask = ShownAsk {
        port,
        source,
        operation: None,
        destination_network: request.destination_network,
        service: request.service,
        object_type: target.object_type,
        instance: target.instance,
        property: target.property,
        priority,
        stations: None,
    };
    Some((ask, operation, rest))
}

/// A port, and what follows its space.
fn port_at(text: &[u8]) -> Option<(u8, &[u8])>
    ensures { Gives (λ x. (x.0, x.1.now)) result (port_at text.now) }
{
    let (number, rest) = number_to(b' ', text)?;
    let port = port_of(number)?;
    Some((port, rest))
}

/// The port of a number of 8 bits.
fn port_of(number: u64) -> Option<u8>
    ensures { result ≡ port_of number }
{
    u8::try_from(number).ok()
}

/// A station, and what follows its space.
fn source_at(text: &[u8]) -> Option<(Source, &[u8])>
    ensures { Gives (λ x. (x.0, x.1.now)) result (source_at text.now) }
{
    let (number, rest) = number_to(b':', text)?;
    let net = net_of(number)?;
    let Some((mac, rest)) = mac_to(b' ', rest) else {
        return None;
    };
    Some((Source { net, mac }, rest))
}

/// The network of a number, 1 to 65534.
fn net_of(number: u64) -> Option<NetNum>
    ensures { result ≡ net_of number }
{
    let number = u16::try_from(number).ok()?;
    NetNum::new(number)
}

/// By which service it is asked, and to which network.
#[derive(Clone, Copy)]
struct Request {
    destination_network: Option<u64>,
    service: Option<u64>,
}

/// By which service it is asked and to which network, and what comes after its space.
fn request_at(text: &[u8]) -> Option<(Request, &[u8])>
    ensures { Gives (λ x. (x.0, x.1.now)) result (request_at text.now) }
{
    let (destination_network, rest) = labelled_to(b"dst=", b' ', text)?;
    let (service, rest) = labelled_to(b"svc=", b' ', rest)?;
    let request = Request {
        destination_network,
        service,
    };
    Some((request, rest))
}

/// The property of an object that it is asked of.
#[derive(Clone, Copy)]
struct Target {
    object_type: Option<u64>,
    instance: Option<u64>,
    property: Option<u64>,
}

/// What it is asked of, and what follows its space.
fn target_at(text: &[u8]) -> Option<(Target, &[u8])>
    ensures { Gives (λ x. (x.0, x.1.now)) result (target_at text.now) }
{
    let (object_type, rest) = labelled_to(b"obj=", b',', text)?;
    let (instance, rest) = field_to(b' ', rest)?;
    let (property, rest) = labelled_to(b"prop=", b' ', rest)?;
    let target = Target {
        object_type,
        instance,
        property,
    };
    Some((target, rest))
}

/// The priority, and the rest from the next space on.
fn priority_at(text: &[u8]) -> Option<(Option<u64>, &[u8])>
    ensures { Gives (λ x. (x.0, x.1.now)) result (priority_at text.now) }
{
    let rest = behind(b"prio=", text)?;
    let (word, rest) = word_at(rest);
    let value = field_in(word)?;
    Some((value, rest))
}

/// A text up to its first space, or whole, and the rest from there on.
fn word_at(text: &[u8]) -> (&[u8], &[u8])
    ensures { (result.0.now, result.1.now) ≡ word_at text.now }
{
    match place_of(b' ', text) {
        Some(place) => (&text[..place], &text[place..]),
        None => (text, &[]),
    }
}

/// A field after its label, and what follows the character at its end.
fn labelled_to<'a>(label: &[u8], end: u8, text: &'a [u8]) -> Option<(Option<u64>, &'a [u8])>
    ensures { Gives (λ x. (x.0, x.1.now)) result (labelled_to label.now end text.now) }
{
    let rest = behind(label, text)?;
    field_to(end, rest)
}

/// A field, and what follows the character at its end.
fn field_to(end: u8, text: &[u8]) -> Option<(Option<u64>, &[u8])>
    ensures { Gives (λ x. (x.0, x.1.now)) result (field_to end text.now) }
{
    let (word, rest) = parted_at(end, text)?;
    let value = field_in(word)?;
    Some((value, rest))
}

/// A number, and what follows the character at its end.
fn number_to(end: u8, text: &[u8]) -> Option<(u64, &[u8])>
    ensures { Gives (λ x. (x.0, x.1.now)) result (number_to end text.now) }
{
    let (word, rest) = parted_at(end, text)?;
    let number = number_in(word)?;
    Some((number, rest))
}

/// A station's octets, and what follows the character at their end.
fn mac_to(end: u8, text: &[u8]) -> Option<(Mac, &[u8])>
    ensures { Gives (λ x. (x.0, x.1.now)) result (mac_to end text.now) }
{
    let (word, rest) = parted_at(end, text)?;
    let mac = mac_in(word)?;
    Some((mac, rest))
}

/// What is before the first such character, and what is after it.
fn parted_at(c: u8, text: &[u8]) -> Option<(&[u8], &[u8])>
    ensures { Gives (λ x. (x.0.now, x.1.now)) result (parted_at c text.now) }
{
    match place_of(c, text) {
        Some(place) => Some((&text[..place], &text[place + 1..])),
        None => None,
    }
}

/// The place of the first such character.
fn place_of(c: u8, text: &[u8]) -> Option<usize>
    ensures place { result ≡ position (λ x. x == c) text.now }
    ensures within { IfSome result (λ place. place < length text.now) }
{
    text.iter().position(|x| *x == c)
}

/// What follows a label.
fn behind<'a>(label: &[u8], text: &'a [u8]) -> Option<&'a [u8]>
    ensures { Gives (λ x. x.now) result (behind label.now text.now) }
{
    text.strip_prefix(label)
}

/// A number in decimal, or none.
fn field_in(text: &[u8]) -> Option<Option<u64>>
    ensures { result ≡ field_in text.now }
{
    if text == ABSENT {
        return Some(None);
    }
    match number_in(text) {
        Some(number) => Some(Some(number)),
        None => None,
    }
}

/// The name of an operation, a number that isn't named, or none.
fn operation_in(has_sender: bool, text: &[u8]) -> Option<Option<u64>>
    ensures { result ≡ operation_in has_sender text.now }
{
    if text == ABSENT {
        return Some(None);
    }
    match operation_by_name(text) {
        Some(operation) => named_number(has_sender, operation.number()),
        None => other_number(has_sender, text),
    }
}

/// The number of an operation that a line of this form names.
fn named_number(has_sender: bool, number: u64) -> Option<Option<u64>>
    ensures { result ≡ named_number has_sender number }
{
    match operation_named(number, has_sender) {
        Some(_) => Some(Some(number)),
        None => None,
    }
}

/// The operation of this name.
fn operation_by_name(text: &[u8]) -> Option<Operation>
    ensures { result ≡ find (λ o. pointwise nat_eq (operation_name o) text.now) Operation.ALL }
{
    Operation::ALL
        .iter()
        .copied()
        .find(|operation| operation.name().as_bytes() == text)
}

/// A number that a line of this form has no name for.
fn other_number(has_sender: bool, text: &[u8]) -> Option<Option<u64>>
    ensures { result ≡ option_and_then (other_number has_sender) (number_in text.now) }
{
    let number = number_in(text)?;
    match operation_named(number, has_sender) {
        Some(_) => None,
        None => Some(Some(number)),
    }
}

/// The number of 64 bits that a text is in decimal, as it is written.
fn number_in(text: &[u8]) -> Option<u64>
    ensures { result ≡ number_in text.now }
{
    let Ok(digits) = str::from_utf8(text) else {
        return None;
    };
    let Ok(number) = digits.parse::<u64>() else {
        return None;
    };
    let mut buffer = Buffer::new();
    if buffer.format(number).as_bytes() == text {
        Some(number)
    } else {
        None
    }
}

/// The station whose octets a text is in upper-case digits.
fn mac_in(text: &[u8]) -> Option<Mac>
    ensures { result ≡ mac_in text.now }
{
    if has_lower(text) {
        return None;
    }
    station_in(text)
}

/// Whether a letter is in lower case.
fn has_lower(text: &[u8]) -> bool
    ensures { result ≡ list_any is_lower text.now }
{
    text.iter().any(|c| matches!(c, b'a'..=b'z'))
}

/// The station whose octets a text is in digits.
fn station_in(text: &[u8]) -> Option<Mac>
    ensures { result ≡ station_in (decode_of text.now) }
{
    let len = text.len() / 2;
    if len > MAX_STATION {
        return None;
    }
    let mut octets = [0; MAX_STATION];
    let octets = &mut octets[..len];
    match hex::decode_to_slice(text, octets) {
        Ok(()) => Mac::new(octets),
        Err(_) => None,
    }
}
