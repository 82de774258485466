//! The words that say what a line of the log shows.

ghost use Rattle.std.specs.Prelude.{◌≡◌, ◌++◌, ◌∷◌, [], decimal, option_map, OnOk};
ghost use Rattle.gw_addr.specs.Appending.{IsAppended};
ghost use Rattle.gw_audit.specs.Line.{field_text};
ghost use Rattle.gw_log_words.specs.Moment.{IsMomentOf, front_text};
ghost use Rattle.gw_log_words.specs.Translation.{IsTranslatedAs};
ghost use Rattle.gw_log_words.specs.Words.{asker_text, by_other_text, by_text, claim_text, deed_of, deed_text, device_name, device_text, digits_text, foreign_text, goal_text, is_one, key_name, kind_text, name_text, network_name, network_text, object_text, priority_text, property_text, sender_text, service_text, source_text, station_of, station_text, target_text, verdict_text, words_of};

use crate::moment::Moment;
use gw_addr::{Mac, Source, bip_from_slice, put_decimal, put_octet, put_slice};
use gw_audit::{Shown, ShownAsk, operation_named, put_key, read_line};
use gw_codecs::names::{object_type_name, property_name, service_name};
use gw_rules::Operation;
use std::alloc::{AllocError, Global};

/// The network number that represents every network (clause 6.2.2).
const EVERY_NETWORK: u64 = 65535;

/// The services by which it is registered and deleted, read and written if no other is named.
const REGISTER: u64 = 773;

const DELETE: u64 = 776;

const READ_PROPERTY: u64 = 12;

const WRITE_PROPERTY: u64 = 15;

/// The number of [`Operation::Claim`].
const CLAIM: u64 = 13;

/// Makes the text for a line of a log, with a line feed after it, in the place of what the buffer
/// holds: the words of the denial whose line it is, or of what was allowed if it is a record of that, or the line itself
/// if no denial has it. The line is taken without its line feed. If it is known when the log began, the moment of its tick
/// comes before the words, in a year up to 9999.
///
/// ```text
/// 192.168.1.5:47808 on network 1 reads 85 present-value of 5,2 binary-value of the device on network 100: denied by hide
/// ```
///
/// 1 Memory: a growth of the buffer was refused; it then holds no more than a front of the text.
pub fn translate_line(
    alloc: Global,
    start: Option<Moment>,
    is_allowed: bool,
    line: &[u8],
    text: &mut Vec<u8>,
) -> Result<(), AllocError>
    ensures { OnOk result (IsTranslatedAs start is_allowed line.now text.new.items) }
{
    text.clear();
    match read_line(line) {
        Some(shown) => {
            put_front(alloc, text, moment_of(start, shown.tick))?;
            put_words_line(text, is_allowed, &shown)
        }
        None => put_line(text, line),
    }
}

/// The moment of a tick of a log that began then. `None` where it isn't known when, and past the year
/// 9999.
fn moment_of(start: Option<Moment>, tick: u64) -> Option<Moment>
    ensures { IsMomentOf start tick result }
{
    match start {
        Some(start) => start.later(tick),
        None => None,
    }
}

/// Appends a moment and a space, where there is one.
fn put_front(alloc: Global, out: &mut Vec<u8>, moment: Option<Moment>) -> Result<(), AllocError>
    ensures { OnOk result (out.new.items ≡ out.old.items ++ front_text moment) }
{
    let Some(moment) = moment else {
        return Ok(());
    };
    let text = moment.to_string(alloc)?;
    put_slice(out, text.as_bytes())?;
    put_octet(out, b' ')
}

/// Appends a line, and its line feed.
fn put_line(out: &mut Vec<u8>, line: &[u8]) -> Result<(), AllocError>
    ensures { IsAppended (line.now ++ 10 ∷ []) out.old out.new result }
{
    put_slice(out, line)?;
    put_octet(out, b'\n')
}

/// Appends the words of a line, and a line feed.
fn put_words_line(out: &mut Vec<u8>, is_allowed: bool, shown: &Shown<'_>) -> Result<(), AllocError>
    ensures { IsAppended (words_of is_allowed shown.now.ask shown.now.rule.now ++ 10 ∷ []) out.old out.new result }
{
    put_words(out, is_allowed, shown)?;
    put_octet(out, b'\n')
}

/// Appends the words of what a line shows.
fn put_words(out: &mut Vec<u8>, is_allowed: bool, shown: &Shown<'_>) -> Result<(), AllocError>
    ensures { IsAppended (words_of is_allowed shown.now.ask shown.now.rule.now) out.old out.new result }
{
    put_asker(out, &shown.ask)?;
    put_octet(out, b' ')?;
    put_deed(out, &shown.ask)?;
    put_verdict(out, is_allowed)?;
    put_text(out, shown.rule)
}

/// Appends what the rule did.
fn put_verdict(out: &mut Vec<u8>, is_allowed: bool) -> Result<(), AllocError>
    ensures { IsAppended (verdict_text is_allowed) out.old out.new result }
{
    if is_allowed {
        put_slice(out, b": allowed by ")
    } else {
        put_slice(out, b": denied by ")
    }
}

/// Appends a text.
fn put_text(out: &mut Vec<u8>, text: &str) -> Result<(), AllocError>
    ensures { IsAppended text.now out.old out.new result }
{
    put_slice(out, text.as_bytes())
}

/// Appends who asks: the sender and the station that it claims to be if that is another.
fn put_asker(out: &mut Vec<u8>, ask: &ShownAsk) -> Result<(), AllocError>
    ensures { IsAppended (asker_text ask.now) out.old out.new result }
{
    match ask.stations {
        Some(stations) => put_sender(out, stations.sender, ask),
        None => put_source(out, &ask.source),
    }
}

/// Appends the sender. What it claims to be comes in front of what it asks for, unless that is the claim.
fn put_sender(out: &mut Vec<u8>, sender: u64, ask: &ShownAsk) -> Result<(), AllocError>
    ensures { IsAppended (sender_text sender ask.now) out.old out.new result }
{
    if is_one(CLAIM, ask.operation) {
        put_key_name(out, sender)
    } else {
        put_claim(out, sender, &ask.source)
    }
}

/// Appends the sender and the station that it claims to be, or the station alone if it is the sender.
fn put_claim(out: &mut Vec<u8>, sender: u64, source: &Source) -> Result<(), AllocError>
    ensures { IsAppended (claim_text sender source.now) out.old out.new result }
{
    if is_one(sender, source.mac.key48()) {
        return put_source(out, source);
    }
    put_key_name(out, sender)?;
    put_slice(out, b", for ")?;
    put_source(out, source)?;
    put_octet(out, b',')
}

/// Appends a station by its key, as a station that asks; a number that no station has as digits.
#[tactic(auto, unfolding(crate::specs::Words::key_name))]
fn put_key_name(out: &mut Vec<u8>, key: u64) -> Result<(), AllocError>
    ensures { IsAppended (key_name key) out.old out.new result }
{
    if let Some(mac) = Mac::of_key(key) {
        return put_station(out, &mac);
    }
    put_slice(out, b"station ")?;
    put_key(out, key)
}

/// Appends a station, and the network that it is on.
fn put_source(out: &mut Vec<u8>, source: &Source) -> Result<(), AllocError>
    ensures { IsAppended (source_text source.now) out.old out.new result }
{
    put_station(out, &source.mac)?;
    put_slice(out, b" on network ")?;
    source.net.put_text(out)
}

/// Appends a station: six octets as an address of BACnet/IP, others as digits.
fn put_station(out: &mut Vec<u8>, mac: &Mac) -> Result<(), AllocError>
    ensures { IsAppended (station_text mac.now) out.old out.new result }
{
    if let Ok(address) = bip_from_slice(mac.as_slice()) {
        return address.put_text(out);
    }
    put_slice(out, b"station ")?;
    put_digits(out, mac)
}

/// Appends a station that is no address: one octet in decimal and in hexadecimal, others in hexadecimal.
fn put_digits(out: &mut Vec<u8>, mac: &Mac) -> Result<(), AllocError>
    ensures { IsAppended (digits_text mac.now) out.old out.new result }
{
    let [octet] = mac.as_slice() else {
        return mac.put_text(out);
    };
    put_number(out, b"", u64::from(*octet))?;
    put_slice(out, b" (0x")?;
    mac.put_text(out)?;
    put_octet(out, b')')
}

/// Appends what is asked for.
fn put_deed(out: &mut Vec<u8>, ask: &ShownAsk) -> Result<(), AllocError>
    ensures { IsAppended (deed_text ask.now) out.old out.new result }
{
    let Some(number) = ask.operation else {
        return put_slice(out, b"does something");
    };
    match operation_named(number, ask.stations.is_some()) {
        Some(operation) => put_deed_of(out, operation, ask),
        None => put_number(out, b"does operation ", number),
    }
}

/// Appends a number after a word.
fn put_number(out: &mut Vec<u8>, word: &[u8], number: u64) -> Result<(), AllocError>
    ensures { IsAppended (word.now ++ decimal number) out.old out.new result }
{
    put_slice(out, word)?;
    put_decimal(out, number)
}

/// Appends what is asked for by an operation.
fn put_deed_of(out: &mut Vec<u8>, operation: Operation, ask: &ShownAsk) -> Result<(), AllocError>
    ensures { IsAppended (deed_of operation ask.now) out.old out.new result }
{
    match operation {
        Operation::Cast => {
            put_slice(out, b"casts ")?;
            put_service(out, ask.service)?;
            put_goal(out, b" to ", ask)
        }
        Operation::Route => {
            put_slice(out, b"sends ")?;
            put_service(out, ask.service)?;
            put_goal(out, b" on to ", ask)
        }
        Operation::Register => {
            put_slice(out, b"registers as a foreign device")?;
            put_by_other(out, REGISTER, ask.service)
        }
        Operation::Delete => put_delete(out, ask),
        Operation::ReadTable => {
            put_slice(out, b"reads a table")?;
            put_by(out, ask.service)
        }
        Operation::WriteTable => {
            put_slice(out, b"writes a table")?;
            put_by(out, ask.service)
        }
        Operation::Learn => put_learn(out, ask),
        Operation::Network => put_question(out, ask),
        Operation::Read => put_read(out, ask),
        Operation::Write => put_write(out, ask),
        Operation::List => put_search(out, ask),
        Operation::Enter => put_number(out, b"enters by port ", u64::from(ask.port)),
        Operation::Claim => put_speaking(out, ask),
    }
}

/// Appends that a registration is deleted.
fn put_delete(out: &mut Vec<u8>, ask: &ShownAsk) -> Result<(), AllocError>
    ensures { IsAppended (deed_of Operation.Delete ask.now) out.old out.new result }
{
    put_slice(out, b"deletes ")?;
    put_foreign(out, ask)?;
    put_by_other(out, DELETE, ask.service)
}

/// Appends which foreign device it is, if that is known.
fn put_foreign(out: &mut Vec<u8>, ask: &ShownAsk) -> Result<(), AllocError>
    ensures { IsAppended (foreign_text ask.now) out.old out.new result }
{
    match station_of(ask) {
        Some(key) => put_named(out, b"the foreign device ", key),
        None => put_slice(out, b"a foreign device"),
    }
}

/// Appends a word and a station by its key.
fn put_named(out: &mut Vec<u8>, word: &[u8], key: u64) -> Result<(), AllocError>
    ensures { IsAppended (word.now ++ key_name key) out.old out.new result }
{
    put_slice(out, word)?;
    put_key_name(out, key)
}

/// The one station that a message is for, if that is known.
fn station_of(ask: &ShownAsk) -> Option<u64>
    ensures { result ≡ station_of ask.now }
{
    ask.stations.and_then(|stations| stations.station)
}

/// Appends a word and where a message goes to: a station and its network, or a network.
fn put_goal(out: &mut Vec<u8>, word: &[u8], ask: &ShownAsk) -> Result<(), AllocError>
    ensures { IsAppended (goal_text word.now ask.now) out.old out.new result }
{
    let Some(key) = station_of(ask) else {
        return put_network(out, word, ask.destination_network);
    };
    put_named(out, word, key)?;
    put_network(out, b" on ", ask.destination_network)
}

/// Appends the device that is asked, and its network.
fn put_device(out: &mut Vec<u8>, ask: &ShownAsk) -> Result<(), AllocError>
    ensures { IsAppended (device_text ask.now) out.old out.new result }
{
    put_slice(out, b" of ")?;
    put_device_name(out, ask)?;
    put_network(out, b" on ", ask.destination_network)
}

/// Appends a device by its address, if that is known.
fn put_device_name(out: &mut Vec<u8>, ask: &ShownAsk) -> Result<(), AllocError>
    ensures { IsAppended (device_name ask.now) out.old out.new result }
{
    match station_of(ask) {
        Some(key) => put_key_name(out, key),
        None => put_slice(out, b"the device"),
    }
}

/// Appends what is looked for.
fn put_search(out: &mut Vec<u8>, ask: &ShownAsk) -> Result<(), AllocError>
    ensures { IsAppended (deed_of Operation.List ask.now) out.old out.new result }
{
    put_slice(out, b"looks for ")?;
    put_object(out, ask.object_type, ask.instance)?;
    put_network(out, b" on ", ask.destination_network)?;
    put_by(out, ask.service)
}

/// Appends for which station the sender speaks.
fn put_speaking(out: &mut Vec<u8>, ask: &ShownAsk) -> Result<(), AllocError>
    ensures { IsAppended (deed_of Operation.Claim ask.now) out.old out.new result }
{
    put_slice(out, b"speaks for ")?;
    put_source(out, &ask.source)
}

/// Appends that the way to a network is reported.
fn put_learn(out: &mut Vec<u8>, ask: &ShownAsk) -> Result<(), AllocError>
    ensures { IsAppended (deed_of Operation.Learn ask.now) out.old out.new result }
{
    put_slice(out, b"tells the way")?;
    put_network(out, b" to ", ask.destination_network)?;
    put_by(out, ask.service)
}

/// Appends that a question about networks is asked.
fn put_question(out: &mut Vec<u8>, ask: &ShownAsk) -> Result<(), AllocError>
    ensures { IsAppended (deed_of Operation.Network ask.now) out.old out.new result }
{
    put_slice(out, b"asks the gateway")?;
    put_network(out, b" about ", ask.destination_network)?;
    put_by(out, ask.service)
}

/// Appends what is read.
fn put_read(out: &mut Vec<u8>, ask: &ShownAsk) -> Result<(), AllocError>
    ensures { IsAppended (deed_of Operation.Read ask.now) out.old out.new result }
{
    put_slice(out, b"reads ")?;
    put_target(out, ask)?;
    put_device(out, ask)?;
    put_by_other(out, READ_PROPERTY, ask.service)
}

/// Appends what is written.
fn put_write(out: &mut Vec<u8>, ask: &ShownAsk) -> Result<(), AllocError>
    ensures { IsAppended (deed_of Operation.Write ask.now) out.old out.new result }
{
    put_slice(out, b"writes ")?;
    put_target(out, ask)?;
    put_device(out, ask)?;
    put_priority(out, ask.priority)?;
    put_by_other(out, WRITE_PROPERTY, ask.service)
}

/// Appends a space and a name, where there is one.
fn put_name(out: &mut Vec<u8>, name: Option<&str>) -> Result<(), AllocError>
    ensures { IsAppended (name_text (option_map (λ n. n.now) name.entry)) out.old out.new result }
{
    let Some(name) = name else {
        return Ok(());
    };
    put_octet(out, b' ')?;
    put_text(out, name)
}

/// Appends the number of a service, and its name.
fn put_service(out: &mut Vec<u8>, service: Option<u64>) -> Result<(), AllocError>
    ensures { IsAppended (service_text service) out.old out.new result }
{
    let Some(number) = service else {
        return put_slice(out, b"something");
    };
    put_decimal(out, number)?;
    put_name(out, service_name(number))
}

/// Appends by which service it is asked for.
fn put_by(out: &mut Vec<u8>, service: Option<u64>) -> Result<(), AllocError>
    ensures { IsAppended (by_text service) out.old out.new result }
{
    put_slice(out, b" by ")?;
    put_service(out, service)
}

/// Whether a field has this number.
fn is_one(number: u64, value: Option<u64>) -> bool
    ensures { result ≡ is_one number value }
{
    match value {
        Some(n) => n == number,
        None => false,
    }
}

/// Appends by which service it is asked for, where that isn't the one that is meant.
fn put_by_other(out: &mut Vec<u8>, own: u64, service: Option<u64>) -> Result<(), AllocError>
    ensures { IsAppended (by_other_text own service) out.old out.new result }
{
    if is_one(own, service) {
        return Ok(());
    }
    put_by(out, service)
}

/// Appends a network after a word, if there is one.
fn put_network(out: &mut Vec<u8>, word: &[u8], network: Option<u64>) -> Result<(), AllocError>
    ensures { IsAppended (network_text word.now network) out.old out.new result }
{
    let Some(number) = network else {
        return Ok(());
    };
    put_slice(out, word)?;
    put_network_name(out, number)
}

/// Appends what a network is called.
fn put_network_name(out: &mut Vec<u8>, number: u64) -> Result<(), AllocError>
    ensures { IsAppended (network_name number) out.old out.new result }
{
    if number == EVERY_NETWORK {
        return put_slice(out, b"every network");
    }
    put_number(out, b"network ", number)
}

/// Appends a property of an object, or the object alone.
fn put_target(out: &mut Vec<u8>, ask: &ShownAsk) -> Result<(), AllocError>
    ensures { IsAppended (target_text ask.now) out.old out.new result }
{
    put_property(out, ask.property)?;
    put_object(out, ask.object_type, ask.instance)
}

/// Appends the number of a property and its name, before its object.
fn put_property(out: &mut Vec<u8>, property: Option<u64>) -> Result<(), AllocError>
    ensures { IsAppended (property_text property) out.old out.new result }
{
    let Some(number) = property else {
        return Ok(());
    };
    put_decimal(out, number)?;
    put_name(out, property_name(number))?;
    put_slice(out, b" of ")
}

/// Appends an object, by the number of its type, its instance and the name of its type.
fn put_object(
    out: &mut Vec<u8>,
    object_type: Option<u64>,
    instance: Option<u64>,
) -> Result<(), AllocError>
    ensures { IsAppended (object_text object_type instance) out.old out.new result }
{
    if object_type.is_none() && instance.is_none() {
        return put_slice(out, b"something");
    }
    put_field(out, object_type)?;
    put_octet(out, b',')?;
    put_field(out, instance)?;
    put_kind(out, object_type)
}

/// Appends the name of a type of objects.
fn put_kind(out: &mut Vec<u8>, object_type: Option<u64>) -> Result<(), AllocError>
    ensures { IsAppended (kind_text object_type) out.old out.new result }
{
    match object_type {
        Some(number) => put_name(out, object_type_name(number)),
        None => Ok(()),
    }
}

/// Appends a number, or a dash where there is none.
fn put_field(out: &mut Vec<u8>, value: Option<u64>) -> Result<(), AllocError>
    ensures { IsAppended (field_text value) out.old out.new result }
{
    match value {
        Some(number) => put_decimal(out, number),
        None => put_slice(out, b"-"),
    }
}

/// Appends the priority of a write.
fn put_priority(out: &mut Vec<u8>, priority: Option<u64>) -> Result<(), AllocError>
    ensures { IsAppended (priority_text priority) out.old out.new result }
{
    match priority {
        Some(number) => put_number(out, b" at priority ", number),
        None => Ok(()),
    }
}
