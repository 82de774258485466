//! The labels under which denials are counted.

use gw_addr::{BipAddr, Mac, bip_from_slice};
use gw_audit::{Shown, ShownAsk};
use gw_codecs::names::object_type_name;
use gw_rules::Operation;
use itoa::Buffer;
use std::alloc::{AllocError, Global};

/// How many ticks, of a second each, an hour has.
const HOUR: u64 = 3600;

/// How many octets a date and an hour have in RFC 3339, as `2026-11-25T08`.
const STAMP: usize = 13;

/// The hour of a line: the date and the hour that its stamp begins with, or the hour of its tick.
pub(crate) fn hour_label(alloc: Global, front: &[u8], tick: u64) -> Result<String, AllocError> {
    match stamp_in(front) {
        Some(stamp) => stamp_label(alloc, stamp),
        None => tick_label(alloc, tick),
    }
}

/// The date and the hour with which a text begins, if it does.
fn stamp_in(front: &[u8]) -> Option<&str> {
    let octets = front.get(..STAMP)?;
    if !has_form(octets) {
        return None;
    }
    str::from_utf8(octets).ok()
}

/// Whether the octets are digits, but for hyphens after year and month and a letter after the day.
fn has_form(octets: &[u8]) -> bool {
    octets.iter().enumerate().all(|(place, octet)| match place {
        4 | 7 => *octet == b'-',
        10 => *octet == b'T',
        _ => octet.is_ascii_digit(),
    })
}

fn stamp_label(alloc: Global, stamp: &str) -> Result<String, AllocError> {
    let mut label = String::new(alloc);
    for letter in stamp.chars() {
        label.push(if letter == 'T' { ' ' } else { letter })?;
    }
    label.push_str(":00")?;
    Ok(label)
}

/// An hour by its number, with spaces before it so that hours are in order: a page shows them as one.
fn tick_label(alloc: Global, tick: u64) -> Result<String, AllocError> {
    let mut buffer = Buffer::new();
    let hour = buffer.format(tick / HOUR);
    let mut label = String::new(alloc);
    label.push_str("hour ")?;
    for _ in hour.len()..5 {
        label.push(' ')?;
    }
    label.push_str(hour)?;
    Ok(label)
}

/// Who asked: the sender if the line names it, else whom it claims to be.
pub(crate) fn source_label(alloc: Global, ask: &ShownAsk) -> Result<String, AllocError> {
    let mut label = match ask.sender() {
        Some(key) => address_of(key).to_string(alloc)?,
        None => station_text(alloc, &ask.source.mac)?,
    };
    label.push_str(" on network ")?;
    label.push_str(Buffer::new().format(ask.source.net.get()))?;
    Ok(label)
}

/// The address of a number of 48 bits.
fn address_of(key: u64) -> BipAddr {
    let [_, _, a, b, c, d, high, low] = key.to_be_bytes();
    BipAddr::from_octets(&[a, b, c, d, high, low])
}

/// A station: six octets as an address of BACnet/IP, others as hexadecimal digits.
fn station_text(alloc: Global, mac: &Mac) -> Result<String, AllocError> {
    match bip_from_slice(mac.as_slice()) {
        Ok(address) => address.to_string(alloc),
        Err(_) => mac.to_string(alloc),
    }
}

/// What was asked for: the object, or the operation if there is none.
pub(crate) fn object_label(alloc: Global, shown: &Shown<'_>) -> Result<String, AllocError> {
    let mut label = String::new(alloc);
    match (shown.ask.object_type, shown.ask.instance) {
        (Some(kind), Some(instance)) => push_object(&mut label, kind, instance)?,
        _ => push_operation(&mut label, shown.ask.operation)?,
    }
    if let Some(network) = shown.ask.destination_network {
        label.push_str(" on network ")?;
        label.push_str(Buffer::new().format(network))?;
    }
    Ok(label)
}

fn push_object(label: &mut String, kind: u64, instance: u64) -> Result<(), AllocError> {
    match object_type_name(kind) {
        Some(name) => label.push_str(name)?,
        None => {
            label.push_str("type ")?;
            label.push_str(Buffer::new().format(kind))?;
        }
    }
    label.push_str(" ")?;
    label.push_str(Buffer::new().format(instance))
}

fn push_operation(label: &mut String, operation: Option<u64>) -> Result<(), AllocError> {
    label.push_str("no object: ")?;
    match operation.and_then(Operation::from_number) {
        Some(operation) => label.push_str(operation.name()),
        None => label.push_str("unknown"),
    }
}

/// The first letters of a text, at most so many, and points if it has more.
pub(crate) fn shortened(alloc: Global, text: &str, most: usize) -> Result<String, AllocError> {
    let mut short = String::new(alloc);
    for letter in text.chars().take(most) {
        short.push(letter)?;
    }
    if short.len() < text.len() {
        short.push_str("..")?;
    }
    Ok(short)
}
