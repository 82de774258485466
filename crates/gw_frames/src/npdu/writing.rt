//! Writing a message of the network layer: the one canonical encoding, by clause 6.2.

ghost use Rattle.std.specs.Prelude.{◌≡◌, ◌+◌, ◌<◌, ◌≤◌, ◌^◌, ◌↔◌, ◌++◌, length, option_map};
ghost use Rattle.std.specs.Prelude.{vec_len, OnOk, OnErr, IsErrOf};
ghost use Rattle.std.specs.Vec.{vec_capacity};
ghost use Rattle.gw_addr.specs.Appending.{IsAppended};
ghost use Rattle.gw_frames.specs.npdu.Numbers.{max_len};
ghost use Rattle.gw_frames.specs.npdu.Npdu.{Address, IsValid, max_header_len, control, header, encoding};
ghost use Rattle.gw_frames.specs.npdu.Npdu.{address_part, destination_part, source_part, hops_part};
ghost use Rattle.gw_frames.specs.npdu.Npdu.{payload_part, payload_octets};
ghost use Rattle.gw_frames.specs.npdu.Npdu.{view, address_view, destination_view, payload_view};

use crate::npdu::address::{AddressRef, Destination};
use crate::npdu::control::Control;
use crate::npdu::fault::EncodeFault;
use crate::npdu::laws;
use crate::npdu::npdu::{Npdu, PROTOCOL_VERSION, Payload};
use bitflags::Flags;
use gw_addr::{put_number, put_octet, put_slice};
use std::alloc::AllocError;

/// The most octets that a message of the network layer has on BACnet/IP (Annex J).
pub const MAX_LEN: usize = 1497;

impl<'a> Payload<'a> {
    /// The octets of the payload that no field of the network layer names: the APDU, or what follows the
    /// type and the vendor of a network layer message.
    pub fn octets(&self) -> &'a [u8]
        ensures { result.now ≡ payload_octets (payload_view self.now) }
    {
        match self {
            Payload::Apdu(octets) => octets,
            Payload::Message(message) => message.octets,
        }
    }
}

impl Npdu<'_> {
    /// The control octet of the message. Its reserved bits are zero.
    pub fn control(&self) -> Control
        ensures { result.0 ≡ control (view self.now) }
    {
        let mut control = Control::from_bits_retain(self.priority.number());
        if self.reply_expected {
            control.insert(Control::REPLY_EXPECTED);
        }
        if self.source.is_some() {
            control.insert(Control::SOURCE);
        }
        if self.destination.is_some() {
            control.insert(Control::DESTINATION);
        }
        if matches!(self.payload, Payload::Message(_)) {
            control.insert(Control::MESSAGE);
        }
        control
    }

    /// How many octets come before the payload's own.
    pub fn header_len(&self) -> usize
        ensures len { result ≡ length (header (view self.now)) }
        ensures most { result ≤ max_header_len }
    {
        2 + destination_len(&self.destination)
            + source_len(&self.source)
            + payload_len(&self.payload)
    }
}

/// The octets of DNET, DLEN, DADR and the hop count.
fn destination_len(destination: &Option<Destination<'_>>) -> usize
    ensures len { let d = option_map destination_view destination.now in
        result ≡ length (destination_part d) + length (hops_part d) }
    ensures most { result ≤ 3 + 255 + 1 }
{
    match destination {
        None => 0,
        Some(destination) => 4 + destination.mac.len(),
    }
}

/// The octets of SNET, SLEN and SADR.
fn source_len(source: &Option<AddressRef<'_>>) -> usize
    ensures len { result ≡ length (source_part (option_map address_view source.now)) }
    ensures most { result ≤ 3 + 255 }
{
    match source {
        None => 0,
        Some(address) => 3 + address.mac.len(),
    }
}

/// The octets of the type and the vendor of a network layer message.
fn payload_len(payload: &Payload<'_>) -> usize
    ensures len { result ≡ length (payload_part (payload_view payload.now)) }
    ensures most { result ≤ 3 }
{
    let Payload::Message(message) = payload else {
        return 0;
    };
    match message.vendor {
        None => 1,
        Some(_) => 3,
    }
}

/// A network and the address of a station there.
fn put_address(out: &mut Vec<u8>, network: u16, mac: &[u8]) -> Result<(), AllocError>
    requires { length mac.now < 2 ^ 8 }
    ensures { let a : Address = record { network = network; mac = mac.now } in
        IsAppended (address_part a) out.old out.new result }
{
    let [high, low] = network.to_be_bytes();
    put_slice(out, &[high, low, mac.len() as u8])?;
    put_slice(out, mac)
}

/// DNET, DLEN and DADR.
fn put_destination(
    out: &mut Vec<u8>,
    destination: &Option<Destination<'_>>,
) -> Result<(), AllocError>
    ensures { let part = destination_part (option_map destination_view destination.now) in
        IsAppended part out.old out.new result }
{
    match destination {
        None => Ok(()),
        Some(destination) => put_address(out, destination.network, destination.mac),
    }
}

/// SNET, SLEN and SADR.
fn put_source(out: &mut Vec<u8>, source: &Option<AddressRef<'_>>) -> Result<(), AllocError>
    ensures { let part = source_part (option_map address_view source.now) in
        IsAppended part out.old out.new result }
{
    match source {
        None => Ok(()),
        Some(address) => put_address(out, address.network, address.mac),
    }
}

fn put_hops(out: &mut Vec<u8>, destination: &Option<Destination<'_>>) -> Result<(), AllocError>
    ensures { let part = hops_part (option_map destination_view destination.now) in
        IsAppended part out.old out.new result }
{
    if let Some(destination) = destination {
        put_octet(out, destination.hops)?;
    }
    Ok(())
}

/// The type and the vendor of a network layer message.
fn put_payload_part(out: &mut Vec<u8>, payload: &Payload<'_>) -> Result<(), AllocError>
    ensures { let part = payload_part (payload_view payload.now) in
        IsAppended part out.old out.new result }
{
    let Payload::Message(message) = payload else {
        return Ok(());
    };
    put_octet(out, message.kind)?;
    if let Some(vendor) = message.vendor {
        put_number(out, vendor)?;
    }
    Ok(())
}

/// DNET, DLEN and DADR, then SNET, SLEN and SADR.
fn put_addresses(out: &mut Vec<u8>, npdu: &Npdu<'_>) -> Result<(), AllocError>
    ensures { let f = view npdu.now in
        let part = destination_part f.destination ++ source_part f.source in
        IsAppended part out.old out.new result }
{
    put_destination(out, &npdu.destination)?;
    put_source(out, &npdu.source)
}

/// Appends everything in front of the payload's own octets. An `Err` only if the buffer had no
/// room for it; then the buffer may hold a front of it.
pub(crate) fn put_header(out: &mut Vec<u8>, npdu: &Npdu<'_>) -> Result<(), AllocError>
    ensures { IsAppended (header (view npdu.now)) out.old out.new result }
{
    put_slice(out, &[PROTOCOL_VERSION, npdu.control().bits()])?;
    put_addresses(out, npdu)?;
    put_hops(out, &npdu.destination)?;
    put_payload_part(out, &npdu.payload)
}

fn put(out: &mut Vec<u8>, npdu: &Npdu<'_>) -> Result<(), AllocError>
    ensures { IsAppended (encoding (view npdu.now)) out.old out.new result }
{
    put_header(out, npdu)?;
    put_slice(out, npdu.payload.octets())
}

/// Appends the canonical encoding of a message, which is valid.
///
/// The faults are those of [`EncodeFault`]. The buffer keeps its room, also after a fault.
#[inline(always)]
pub fn encode(npdu: &Npdu<'_>, out: &mut Vec<u8>) -> Result<(), EncodeFault>
    ensures ok { OnOk result (out.new.items ≡ out.old.items ++ encoding (view npdu.now)) }
    ensures valid { IsValid (view npdu.now) }
    ensures too_long { let len = length (encoding (view npdu.now)) in
        IsErrOf result EncodeFault.TooLong ↔ (max_len < len) }
    // Memory only if the buffer had no room for the message.
    ensures memory { let len = length (encoding (view npdu.now)) in
        IsErrOf result EncodeFault.Memory → vec_capacity out.old < vec_len out.old + len }
    ensures err { OnErr result (out.new.items ≡ out.old.items) }
    ensures capacity { vec_capacity out.old ≤ vec_capacity out.new }
{
    laws::valid(npdu);
    if npdu.payload.octets().len() > MAX_LEN - npdu.header_len() {
        return Err(EncodeFault::TooLong);
    }
    let before = out.len();
    let Ok(()) = put(out, npdu) else {
        out.truncate(before);
        return Err(EncodeFault::Memory);
    };
    Ok(())
}
