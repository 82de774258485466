//! What is asked for.

ghost use Rattle.std.specs.Prelude.{◌≡◌, ◌≤◌, IfSome, option_map};
ghost use Rattle.gw_codecs.specs.services.Read.{read_view};
ghost use Rattle.gw_verdicts.specs.questions.Deeds.{IsDeedOf, IsDeedToWrite, IsNumberOr, IsPriorityIn, IsPropertyOf, IsReadIn};
ghost use Rattle.gw_verdicts.specs.questions.Deeds.{deed_of_service, deed_text, deed_to_read, deed_view, read_by, read_named, result_of};
ghost use Rattle.gw_verdicts.specs.questions.Deeds.{written};
ghost use Rattle.gw_verdicts.specs.questions.Read.{IsNumberIn, parted};

use crate::questions::fault::Unasked;
use crate::questions::text::parted;
use gw_codecs::names::{object_type_number, property_number, service_number};
use gw_codecs::services::{ReadReq, WriteReq};
use gw_codecs::tags::ObjectId;

/// The value that a question writes: Null (clause 20.2.2).
const NULL: &[u8] = &[0x00];

/// The property if none is named: present-value (clause 21).
const PRESENT_VALUE: u64 = 85;

/// How many types of objects there are (clause 20.2.14).
const TYPES: u64 = 1 << 10;

/// How many instances of a type there are, and how many properties.
const INSTANCES: u64 = 1 << 22;

/// How many confirmed services there may be (clause 21).
const SERVICES: u64 = 1 << 8;

/// The lowest priority (clause 19.2).
const LAST_PRIORITY: u8 = 16;

/// What is asked for.
#[derive(Clone, Copy)]
pub enum Deed<'a> {
    /// To read a property (clause 15.5).
    Read(ReadReq),
    /// To write a property (clause 15.9).
    Write(WriteReq<'a>),
    /// To be served by the confirmed service of this number, by a request that names nothing (clause 21).
    Serve(u8),
}

/// What a station asks for, in words.
#[derive(Clone, Copy)]
pub enum DeedInWords<'a> {
    /// To read this.
    Read(&'a str),
    /// To write this, at this priority if one is given.
    Write(&'a str, Option<&'a str>),
    /// To be served by this confirmed service.
    Serve(&'a str),
}

/// The number that a text is in decimal.
fn number_in(text: &str) -> Option<u64>
    ensures { IsNumberIn 64 text.now result }
{
    match text.parse::<u64>() {
        Ok(number) => Some(number),
        Err(_) => None,
    }
}

/// The number of a name, or else the one that the text is in decimal.
fn number_or(named: Option<u64>, text: &str) -> Option<u64>
    ensures { IsNumberOr named text.now result }
{
    match named {
        Some(number) => Some(number),
        None => number_in(text),
    }
}

/// A property of an object, if these numbers are such.
fn read_named(kind: u64, instance: u64, property: u64) -> Option<ReadReq>
    ensures { option_map read_view result ≡ read_named kind instance property }
{
    if kind >= TYPES || instance >= INSTANCES || property >= INSTANCES {
        return None;
    }
    match ObjectId::new(kind as u16, instance as u32) {
        Some(object) => Some(ReadReq {
            object,
            property: property as u32,
            index: None,
        }),
        None => None,
    }
}

/// A property of an object, if all its numbers are there.
fn read_by(kind: Option<u64>, instance: Option<u64>, property: Option<u64>) -> Option<ReadReq>
    ensures { option_map read_view result ≡ read_by kind instance property }
{
    match (kind, instance, property) {
        (Some(kind), Some(instance), Some(property)) => read_named(kind, instance, property),
        _ => None,
    }
}

/// The property of an object that a type and what follows it name.
fn property_of(kind: Option<u64>, text: &str) -> Option<ReadReq>
    ensures { IsPropertyOf kind (parted 44 text.now) text.now (option_map read_view result) }
{
    match parted(',', text) {
        Some((instance, property)) => {
            let instance = number_in(instance);
            let property = number_or(property_number(property), property);
            read_by(kind, instance, property)
        }
        None => read_by(kind, number_in(text), Some(PRESENT_VALUE)),
    }
}

/// The property of an object that a text names.
fn read_in(text: &str) -> Option<ReadReq>
    ensures { IsReadIn (parted 44 text.now) (option_map read_view result) }
{
    match parted(',', text) {
        Some((kind, rest)) => property_of(number_or(object_type_number(kind), kind), rest),
        None => None,
    }
}

/// The priority that a text is in decimal.
fn priority_in(text: &str) -> Option<u8>
    ensures is { IsPriorityIn text.now result }
    ensures ranked { IfSome result (λ n. (1 ≤ n) × (n ≤ 16)) }
{
    match text.parse::<u8>() {
        Ok(priority) if 1 <= priority && priority <= LAST_PRIORITY => Some(priority),
        Ok(_) | Err(_) => None,
    }
}

/// A read of this property.
fn deed_to_read(read: Option<ReadReq>) -> Result<Deed<'static>, Unasked>
    ensures { result_of deed_view result ≡ deed_to_read (option_map read_view read) }
{
    match read {
        Some(read) => Ok(Deed::Read(read)),
        None => Err(Unasked::Read),
    }
}

/// A write of Null to this property, at this priority if there is one.
fn written(read: ReadReq, priority: Option<u8>) -> Deed<'static>
    requires { IfSome priority (λ n. (1 ≤ n) × (n ≤ 16)) }
    ensures { deed_view result ≡ written (read_view read) priority }
{
    Deed::Write(WriteReq {
        object: read.object,
        property: read.property,
        index: read.index,
        value: NULL,
        priority,
    })
}

/// A write to this property, at the priority that is given.
fn deed_to_write(read: Option<ReadReq>, priority: Option<&str>) -> Result<Deed<'static>, Unasked>
    ensures { let text = option_map (λ t. t.now) priority.entry in
        IsDeedToWrite (option_map read_view read) text (result_of deed_view result) }
{
    let Some(read) = read else {
        return Err(Unasked::Write);
    };
    let Some(text) = priority else {
        return Ok(written(read, None));
    };
    match priority_in(text) {
        Some(priority) => Ok(written(read, Some(priority))),
        None => Err(Unasked::Write),
    }
}

/// The confirmed service of this number.
fn deed_of_service(number: Option<u64>) -> Result<Deed<'static>, Unasked>
    ensures { result_of deed_view result ≡ deed_of_service number }
{
    match number {
        Some(number) if number < SERVICES => Ok(Deed::Serve(number as u8)),
        Some(_) | None => Err(Unasked::Service),
    }
}

/// What words ask for: the type of an object, its instance and a property, with commas between; without a property it is
/// present-value. A type, a property or a service is a name or a number.
pub fn deed_of(words: &DeedInWords<'_>) -> Result<Deed<'static>, Unasked>
    ensures { IsDeedOf (deed_text words.now) (result_of deed_view result) }
{
    match words {
        DeedInWords::Read(object) => deed_to_read(read_in(object)),
        DeedInWords::Write(object, priority) => deed_to_write(read_in(object), *priority),
        DeedInWords::Serve(service) => deed_of_service(number_or(service_number(service), service)),
    }
}
