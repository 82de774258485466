//! The octets of the messages that are sent, each in a buffer of its own.

ghost use Rattle.std.specs.Prelude.{◌≡◌, ◌≤◌, ◌<◌, ◌^◌, ◌+◌, ◌*◌, ◌++◌, ◌∷◌, [], length, map, drop, vec_capacity, IfOk, OnOk};
ghost use Rattle.std.specs.Int.{w16, to_be_bytes};
ghost use Rattle.std.specs.Option.{option_map};
ghost use Rattle.gw_addr.specs.Entry.{bdt_entry, fdt_entry};
ghost use Rattle.gw_tables.specs.bdt_fdt.Registrations.{shown};
ghost use Rattle.gw_frames.specs.bvll.Bvll.{encoding, octet_of, read_bdt_ack, read_fdt_ack, result_code, view};
ghost use Rattle.gw_frames.specs.bvll.Entries.{lent};
ghost use Rattle.gw_relay.specs.internal.Octets.{within};
ghost use Rattle.gw_relay.specs.internal.Rooms.{broadcast_npdu};

use crate::sends::{KEPT_ROOM, Sends};
use gw_frames::bvll::{
    BVLC_TYPE, BdtEntries, Bvll, EncodeFault, FdtEntries, Function, HEADER_LEN, ResultCode,
    set_length,
};
use gw_tables::bdt_fdt::{Bdt, Fdt};
use std::alloc::{AllocError, Global};

/// How many octets the entry of a table has (Annex J.2.2, J.2.8).
const ENTRY_LEN: usize = 10;
/// How many octets a BVLC-Result has (Annex J.2.1).
const RESULT_LEN: usize = HEADER_LEN + 2;
/// How many octets of a Forwarded-NPDU come before its NPDU (Annex J.2.5).
const FORWARDED_HEADER_LEN: usize = 10;

/// An empty buffer of the sends with memory for a Forwarded-NPDU, if the message is one.
fn forwarded_buffer(sends: &mut Sends, message: &Bvll<'_>) -> Result<Vec<u8>, AllocError>
    ensures empty { IfOk result (λ octets. octets.items ≡ []) }
    ensures room { let most = 10 + length (broadcast_npdu (view message.now)) in
        IfOk result (λ octets. vec_capacity octets ≤ most + KEPT_ROOM) }
    ensures stays { sends.new ≡ sends.old }
{
    match message {
        Bvll::Forwarded { npdu, .. } => sends.buffer(FORWARDED_HEADER_LEN + npdu.len()),
        _ => sends.buffer(0),
    }
}

/// The octets of a message that is distributed, in a buffer of the sends. None if they would be over 1507.
pub(crate) fn message_octets(
    sends: &mut Sends,
    message: &Bvll<'_>,
) -> Result<Option<Vec<u8>>, AllocError>
    ensures octets { IfOk result (λ made. option_map (λ v. v.items) made ≡ within (view message.now)) }
    ensures stays { sends.new ≡ sends.old }
{
    let mut octets = forwarded_buffer(sends, message)?;
    match gw_frames::bvll::encode(message, &mut octets) {
        Ok(()) => Ok(Some(octets)),
        Err(EncodeFault::TooLong) => Ok(None),
        Err(EncodeFault::Memory) => Err(AllocError),
    }
}

/// Appends a message without entries.
fn put_empty(message: &Bvll<'_>, octets: &mut Vec<u8>) -> Result<(), AllocError>
    ensures { OnOk result (octets.new.items ≡ octets.old.items ++ encoding (view message.now)) }
{
    match gw_frames::bvll::encode(message, octets) {
        Ok(()) => Ok(()),
        Err(_) => Err(AllocError),
    }
}

/// Writes the header of a message with this function over its first four octets (Annex J.2).
pub(crate) fn set_header(message: &mut [u8], function: Function)
    requires least { 4 ≤ length message.old }
    requires most { length message.old < 2 ^ 16 }
    ensures { let len = to_be_bytes w16 (length message.old) in
        message.new ≡ 0x81 ∷ octet_of function ∷ len ++ drop 4 message.old }
{
    let [high, low] = (message.len() as u16).to_be_bytes();
    let header = [BVLC_TYPE, function.octet(), high, low];
    message[..HEADER_LEN].copy_from_slice(&header);
}

/// The octets of a BVLC-Result, in a buffer of the sends (Annex J.2.1).
#[inline(always)]
pub(crate) fn result_octets(sends: &mut Sends, code: ResultCode) -> Result<Vec<u8>, AllocError>
    ensures octets { IfOk result (λ octets. octets.items ≡ encoding (result_code code.0)) }
    ensures stays { sends.new ≡ sends.old }
{
    let [high, low] = code.0.to_be_bytes();
    let mut octets = sends.buffer(RESULT_LEN)?;
    octets.extend_from_slice(&[0, 0, 0, 0, high, low])?;
    set_header(octets.as_mut_slice(), Function::Result);
    Ok(octets)
}

/// An empty buffer with memory for an acknowledgement of so many entries (Annex J.2.4, J.2.8).
fn ack_buffer(alloc: Global, count: usize) -> Result<Vec<u8>, AllocError>
    requires { count ≤ 128 }
    ensures empty { IfOk result (λ octets. octets.items ≡ []) }
    ensures room { IfOk result (λ octets. vec_capacity octets ≡ 4 + 10 * count) }
{
    Vec::with_capacity(alloc, HEADER_LEN + ENTRY_LEN * count)
}

/// No entry of a broadcast distribution table.
fn no_bdt_entries<'a>() -> BdtEntries<'a>
    ensures { lent bdt_entry result ≡ [] }
{
    BdtEntries::from_octets(&[]).unwrap()
}

/// No entry of a foreign device table.
fn no_fdt_entries<'a>() -> FdtEntries<'a>
    ensures { lent fdt_entry result ≡ [] }
{
    FdtEntries::from_octets(&[]).unwrap()
}

/// The octets of a Read-BDT-Ack with the entries of a table (Annex J.2.4).
pub(crate) fn bdt_ack(alloc: Global, bdt: &Bdt) -> Result<Vec<u8>, AllocError>
    ensures { IfOk result (λ octets. octets.items ≡ encoding (read_bdt_ack bdt.now)) }
{
    let entries = bdt.entries();
    let mut octets = ack_buffer(alloc, entries.len())?;
    put_empty(&Bvll::ReadBdtAck(no_bdt_entries()), &mut octets)?;
    gw_frames::bvll::put_entries(&mut octets, entries)?;
    set_length(octets.as_mut_slice());
    Ok(octets)
}

/// The octets of a Read-FDT-Ack with the rows of a table (Annex J.2.8).
pub(crate) fn fdt_ack(alloc: Global, fdt: &Fdt) -> Result<Vec<u8>, AllocError>
    ensures { IfOk result (λ octets.
        octets.items ≡ encoding (read_fdt_ack (map shown fdt.now.rows))) }
{
    let mut octets = ack_buffer(alloc, fdt.count())?;
    put_empty(&Bvll::ReadFdtAck(no_fdt_entries()), &mut octets)?;
    gw_frames::bvll::put_entries(&mut octets, &fdt.rows(alloc)?)?;
    set_length(octets.as_mut_slice());
    Ok(octets)
}
