//! Reading a message of the network layer, by clause 6.2: its whole shape first, then what it says.

ghost use Rattle.std.specs.Prelude.{◌≡◌, ℕ, ◌↔◌, IfOk, IsOkAnd, IsErrOf};
ghost use Rattle.std.specs.Option.{option_map};
ghost use Rattle.std.specs.Int.RustNames.{bit_and};
ghost use Rattle.gw_addr.specs.Reading.{Gives};
ghost use Rattle.gw_frames.specs.npdu.Numbers.{priority_bits};
ghost use Rattle.gw_frames.specs.npdu.Npdu.{Fields, IsNpdu, IsShort, IsBadVersion, IsBadAddress};
ghost use Rattle.gw_frames.specs.npdu.Npdu.{view, destination_view, address_view, message_view};
ghost use Rattle.gw_frames.specs.npdu.Npdu.{payload_view, priority_of};
ghost use Rattle.gw_frames.specs.npdu.Reading.{address_at, named_at, hops_at, message_at, payload_at};
ghost use Rattle.gw_frames.specs.npdu.Reading.{raw_at, destination_of, source_of, fields_of, npdu_at};
ghost use Rattle.gw_frames.specs.npdu.internal.Raw.{raw_address_view, raw_destination_view};
ghost use Rattle.gw_frames.specs.npdu.internal.Raw.{raw_view, raw_fields};

use crate::npdu::address::{AddressRef, Destination};
use crate::npdu::control::Control;
use crate::npdu::fault::NpduFault;
use crate::npdu::message::NetMessage;
use crate::npdu::npdu::{Npdu, PROTOCOL_VERSION, Payload, Priority};
use crate::npdu::raw::{RawAddress, RawDestination, RawNpdu};
use bitflags::Flags;
use gw_addr::{front, number, octet};

/// A network and the address of a station there.
fn address(octets: &[u8]) -> Result<(RawAddress<'_>, &[u8]), NpduFault>
    ensures { Gives (λ x. (raw_address_view x.0, x.1.now)) result (address_at octets.now) }
{
    let (network, rest) = number(NpduFault::Short, octets)?;
    let (len, rest) = octet(NpduFault::Short, rest)?;
    let (mac, rest) = front(NpduFault::Short, usize::from(len), rest)?;
    Ok((RawAddress { network, mac }, rest))
}

/// An address, if the control octet names one.
fn named(is_named: bool, octets: &[u8]) -> Result<(Option<RawAddress<'_>>, &[u8]), NpduFault>
    ensures { Gives (λ x. (option_map raw_address_view x.0, x.1.now)) result
        (named_at is_named octets.now) }
{
    if !is_named {
        return Ok((None, octets));
    }
    let (found, rest) = address(octets)?;
    Ok((Some(found), rest))
}

/// The hop count of a destination, if there is one.
fn hops<'a>(
    bound: Option<RawAddress<'a>>,
    octets: &'a [u8],
) -> Result<(Option<RawDestination<'a>>, &'a [u8]), NpduFault>
    ensures { let address = option_map raw_address_view bound.entry in
        Gives (λ x. (option_map raw_destination_view x.0, x.1.now)) result
        (hops_at address octets.now) }
{
    let Some(address) = bound else {
        return Ok((None, octets));
    };
    let (hops, rest) = octet(NpduFault::Short, octets)?;
    Ok((Some(RawDestination { address, hops }), rest))
}

/// A network layer message, of all the octets.
fn message(octets: &[u8]) -> Result<NetMessage<'_>, NpduFault>
    ensures { Gives (λ m. message_view m) result (message_at octets.now) }
{
    let (kind, rest) = octet(NpduFault::Short, octets)?;
    if kind < NetMessage::FIRST_VENDOR_KIND {
        return Ok(NetMessage {
            kind,
            vendor: None,
            octets: rest,
        });
    }
    let (vendor, rest) = number(NpduFault::Short, rest)?;
    Ok(NetMessage {
        kind,
        vendor: Some(vendor),
        octets: rest,
    })
}

/// The payload, of all the octets.
fn payload(is_message: bool, octets: &[u8]) -> Result<Payload<'_>, NpduFault>
    ensures { Gives (λ p. payload_view p) result (payload_at is_message octets.now) }
{
    if !is_message {
        return Ok(Payload::Apdu(octets));
    }
    Ok(Payload::Message(message(octets)?))
}

/// The two low bits of the control octet.
fn priority(control: Control) -> Priority
    ensures { priority_of result ≡ bit_and control.0 priority_bits }
{
    match control.bits() & Control::PRIORITY.bits() {
        0 => Priority::Normal,
        1 => Priority::Urgent,
        2 => Priority::CriticalEquipment,
        _ => Priority::LifeSafety,
    }
}

/// All parts that the octets name, none of them judged.
fn raw(octets: &[u8]) -> Result<RawNpdu<'_>, NpduFault>
    ensures { Gives (λ r. raw_view r) result (raw_at octets.now) }
{
    let (version, rest) = octet(NpduFault::Short, octets)?;
    let (control, rest) = octet(NpduFault::Short, rest)?;
    let control = Control::from_bits_retain(control);
    let (bound, rest) = named(control.contains(Control::DESTINATION), rest)?;
    let (source, rest) = named(control.contains(Control::SOURCE), rest)?;
    let (destination, rest) = hops(bound, rest)?;
    let payload = payload(control.contains(Control::MESSAGE), rest)?;
    Ok(RawNpdu {
        version,
        destination,
        source,
        reply_expected: control.contains(Control::REPLY_EXPECTED),
        priority: priority(control),
        payload,
    })
}

/// The destination, if it can be meant.
fn destination_of<'a>(raw: Option<RawDestination<'a>>) -> Result<Option<Destination<'a>>, NpduFault>
    ensures { Gives (λ d. option_map destination_view d) result
        (destination_of (option_map raw_destination_view raw.entry)) }
{
    let Some(RawDestination { address, hops }) = raw else {
        return Ok(None);
    };
    let RawAddress { network, mac } = address;
    if network == 0 || network == Destination::EVERY_NETWORK && !mac.is_empty() {
        return Err(NpduFault::Address);
    }
    Ok(Some(Destination { network, mac, hops }))
}

/// The source, if it can be meant.
fn source_of<'a>(raw: Option<RawAddress<'a>>) -> Result<Option<AddressRef<'a>>, NpduFault>
    ensures { Gives (λ s. option_map address_view s) result
        (source_of (option_map raw_address_view raw.entry)) }
{
    let Some(RawAddress { network, mac }) = raw else {
        return Ok(None);
    };
    if network == 0 || network == Destination::EVERY_NETWORK || mac.is_empty() {
        return Err(NpduFault::Address);
    }
    Ok(Some(AddressRef { network, mac }))
}

/// Writes the fields, once they are judged, into their place.
#[inline(always)]
fn fields_to<'a>(raw: RawNpdu<'a>, npdu: &mut Result<Npdu<'a>, NpduFault>)
    ensures { Gives (λ n. view n) npdu.new (fields_of (raw_fields raw.entry)) }
{
    match destination_of(raw.destination) {
        Ok(destination) => match source_of(raw.source) {
            Ok(source) => {
                *npdu = Ok(Npdu {
                    destination,
                    source,
                    reply_expected: raw.reply_expected,
                    priority: raw.priority,
                    payload: raw.payload,
                })
            }
            Err(fault) => *npdu = Err(fault),
        },
        Err(fault) => *npdu = Err(fault),
    }
}

/// Writes the message that the octets are, or the first fault by number, into its place.
#[inline(never)]
fn whole_to<'a>(octets: &'a [u8], npdu: &mut Result<Npdu<'a>, NpduFault>)
    ensures { Gives (λ n. view n) npdu.new (npdu_at octets.now) }
{
    match raw(octets) {
        Ok(raw) if raw.version == PROTOCOL_VERSION => fields_to(raw, npdu),
        Ok(_) => *npdu = Err(NpduFault::Version),
        Err(fault) => *npdu = Err(fault),
    }
}

/// Reads the octets as one message, as [`decode`] does, and writes what that answers into its place, where it stays.
#[inline(always)]
pub fn decode_to<'a>(octets: &'a [u8], npdu: &mut Result<Npdu<'a>, NpduFault>)
    // What is read is what the octets are.
    ensures found { IfOk npdu.new (λ n. IsNpdu octets.now (view n)) }
    // What the octets are is read.
    ensures only { (f : Fields) → IsNpdu octets.now f → IsOkAnd npdu.new (λ n. view n ≡ f) }
    // What is wrong with octets that are no message.
    ensures short { IsErrOf npdu.new NpduFault.Short ↔ IsShort octets.now }
    ensures version { IsErrOf npdu.new NpduFault.Version ↔ IsBadVersion octets.now }
    ensures address { IsErrOf npdu.new NpduFault.Address ↔ IsBadAddress octets.now }
    // What is written as a function of the octets.
    ensures exact { Gives (λ n. view n) npdu.new (npdu_at octets.now) }
{
    whole_to(octets, npdu)
}

/// Reads the octets as one message, all of them (ISO 16484-5, clause 6.2).
///
/// The addresses and the octets of the payload are slices of `octets`. Reserved bits are ignored. Faults are judged
/// in the order of their numbers: `Short` over the whole shape, then `Version`, then `Address`.
#[inline(always)]
pub fn decode(octets: &[u8]) -> Result<Npdu<'_>, NpduFault>
    // What is read is what the octets are.
    ensures found { IfOk result (λ n. IsNpdu octets.now (view n)) }
    // What the octets are is read.
    ensures only { (f : Fields) → IsNpdu octets.now f → IsOkAnd result (λ n. view n ≡ f) }
    // What is wrong with octets that are no message.
    ensures short { IsErrOf result NpduFault.Short ↔ IsShort octets.now }
    ensures version { IsErrOf result NpduFault.Version ↔ IsBadVersion octets.now }
    ensures address { IsErrOf result NpduFault.Address ↔ IsBadAddress octets.now }
    // The answer as a function of the octets.
    ensures exact { Gives (λ n. view n) result (npdu_at octets.now) }
{
    let mut npdu = Err(NpduFault::Short);
    decode_to(octets, &mut npdu);
    npdu
}
