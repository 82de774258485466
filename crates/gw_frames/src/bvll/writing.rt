//! Writing a message into a datagram (Annex J.2).

ghost use Rattle.std.specs.Prelude.{◌≡◌, ◌++◌, ◌+◌, ◌∷◌, ◌<◌, ◌≤◌, ◌↔◌, ◌^◌, length, take, drop, vec_len};
ghost use Rattle.std.specs.Prelude.{OnOk, OnErr};
ghost use Rattle.std.specs.Vec.{vec_capacity};
ghost use Rattle.std.specs.Int.{w16, to_be_bytes};
ghost use Rattle.gw_addr.specs.Appending.{IsAppended};
ghost use Rattle.gw_frames.specs.bvll.Bvll.{view, body_of, octet_of, function_of, encoding, IsValid};

use crate::bvll::fault::EncodeFault;
use crate::bvll::laws;
use crate::bvll::message::{BVLC_TYPE, Bvll};
use gw_addr::{put_number, put_octet, put_slice};
use std::alloc::AllocError;

/// The most octets of a message, a rule of ours: an NPDU of 1497 octets after the ten of a
/// Forwarded-NPDU.
pub const MAX_LEN: usize = 1507;

/// How many octets of a message come before its body: the type, the function and the length.
pub const HEADER_LEN: usize = 4;

/// Writes the length of a message into its header. The rest stays as it is.
pub fn set_length(message: &mut [u8])
    requires least { HEADER_LEN ≤ length message.old }
    requires most { length message.old < 2 ^ 16 }
    ensures { let len = to_be_bytes w16 (length message.old) in
        message.new ≡ take 2 message.old ++ (len ++ drop 4 message.old) }
{
    let len = (message.len() as u16).to_be_bytes();
    message[2..4].copy_from_slice(&len);
}

/// How many octets the body of the message has.
fn body_len(message: &Bvll<'_>) -> usize
    ensures { result ≡ length (body_of (view message.now)) }
{
    match message {
        Bvll::Result(_) | Bvll::Register { .. } => 2,
        Bvll::WriteBdt(entries) | Bvll::ReadBdtAck(entries) => entries.as_octets().len(),
        Bvll::ReadFdtAck(entries) => entries.as_octets().len(),
        Bvll::ReadBdt | Bvll::ReadFdt => 0,
        Bvll::Delete(address) => address.to_octets().len(),
        Bvll::Forwarded { originator, npdu } => originator.to_octets().len() + npdu.len(),
        Bvll::Distribute(npdu) | Bvll::OriginalUnicast(npdu) | Bvll::OriginalBroadcast(npdu) => {
            npdu.len()
        }
    }
}

/// Appends what follows the header.
fn put_body(message: &Bvll<'_>, out: &mut Vec<u8>) -> Result<(), AllocError>
    ensures { IsAppended (body_of (view message.now)) out.old out.new result }
{
    match message {
        Bvll::Result(code) => put_number(out, code.0),
        Bvll::WriteBdt(entries) | Bvll::ReadBdtAck(entries) => put_slice(out, entries.as_octets()),
        Bvll::ReadFdtAck(entries) => put_slice(out, entries.as_octets()),
        Bvll::ReadBdt | Bvll::ReadFdt => Ok(()),
        Bvll::Register { time_to_live } => put_number(out, *time_to_live),
        Bvll::Delete(address) => put_slice(out, &address.to_octets()),
        Bvll::Forwarded { originator, npdu } => {
            put_slice(out, &originator.to_octets())?;
            put_slice(out, npdu)
        }
        Bvll::Distribute(npdu) | Bvll::OriginalUnicast(npdu) | Bvll::OriginalBroadcast(npdu) => {
            put_slice(out, npdu)
        }
    }
}

/// Appends the header, with the length of the whole message, and the body.
fn put_message(message: &Bvll<'_>, len: u16, out: &mut Vec<u8>) -> Result<(), AllocError>
    ensures { let m = view message.now in
        let header = 0x81 ∷ octet_of (function_of m) ∷ to_be_bytes w16 len in
        IsAppended (header ++ body_of m) out.old out.new result }
{
    put_octet(out, BVLC_TYPE)?;
    put_octet(out, message.function().octet())?;
    put_number(out, len)?;
    put_body(message, out)
}

/// Appends the octets of a message (Annex J.2). `TooLong` if they would be over 1507, and
/// `Memory` if a growth of the buffer was refused. After a fault the buffer holds what it held,
/// and no room is given back.
pub fn encode(message: &Bvll<'_>, out: &mut Vec<u8>) -> Result<(), EncodeFault>
    ensures ok { OnOk result (out.new.items ≡ out.old.items ++ encoding (view message.now)) }
    // What was written is read again: the message is a valid one.
    ensures valid { OnOk result (IsValid (view message.now)) }
    ensures too_long { let octets = encoding (view message.now) in
        (result ≡ Err EncodeFault.TooLong) ↔ (MAX_LEN < length octets) }
    // Memory only if the buffer had no room for the message.
    ensures memory { let octets = encoding (view message.now) in
        result ≡ Err EncodeFault.Memory → vec_capacity out.old < vec_len out.old + length octets }
    ensures err { OnErr result (out.new.items ≡ out.old.items) }
    ensures capacity { vec_capacity out.old ≤ vec_capacity out.new }
{
    laws::fields(message);
    let body = body_len(message);
    if body > MAX_LEN - 4 {
        return Err(EncodeFault::TooLong);
    }
    let start = out.len();
    if put_message(message, 4 + body as u16, out).is_err() {
        out.truncate(start);
        return Err(EncodeFault::Memory);
    }
    Ok(())
}
