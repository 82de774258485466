//! The datagrams of a question: the request, and the answer to it.

ghost use Rattle.std.specs.Prelude.{◌≡◌, ◌++◌, [], Ok, false, true, option_map, IfOk, OnOk};
ghost use Rattle.gw_addr.specs.Appending.{IsAppended};
ghost use Rattle.gw_codecs.specs.services.Read.{read_view};
ghost use Rattle.gw_frames.specs.bvll.Bvll as frames;
ghost use Rattle.gw_frames.specs.bvll.Reading.{bvll_at};
ghost use Rattle.gw_frames.specs.npdu.Npdu.{address_view};
ghost use Rattle.gw_frames.specs.npdu.Npdu as npdus;
ghost use Rattle.gw_frames.specs.npdu.Reading.{npdu_at};
ghost use Rattle.gw_verdicts.specs.questions.Datagrams.{IsDatagram, answer_apdu, answer_of, confirmed, datagram_of, has_result, message_of};
ghost use Rattle.gw_verdicts.specs.questions.Datagrams.{read_answer, request_apdu, request_of, served_answer, source_of};

use crate::questions::deed::Deed;
use crate::questions::place::{Question, Station};
use gw_addr::{Source, put_octet, put_slice};
use gw_codecs::apdu::{write_complex, write_simple};
use gw_codecs::services::{
    ReadReq, encode_read, encode_write, write_read_answer_head, write_read_answer_tail,
};
use gw_frames::bvll::{Bvll, encode as encode_frame};
use gw_frames::npdu::{AddressRef, Destination, Npdu, Payload, Priority, encode as encode_npdu};
use std::alloc::{AllocError, Global};

/// The invoke id of a request and of its answer.
const INVOKE: u8 = 1;

/// The services by which it is read and written (clause 21).
const READ_PROPERTY: u8 = 12;

const WRITE_PROPERTY: u8 = 15;

/// The services that say more than that they are done, from GetAlarmSummary to AuditLogQuery (clauses 13 to 17).
const WITH_RESULT: [u8; 14] = [3, 4, 6, 7, 10, 12, 13, 14, 18, 21, 23, 26, 29, 33];

/// The value of an answer: Null (clause 20.2.2).
const NULL: u8 = 0x00;

/// Appends the header of a confirmed request that is whole, by a client that takes answers of 1476 octets (clause
/// 20.1.2).
fn put_header(apdu: &mut Vec<u8>, service: u8) -> Result<(), AllocError>
    ensures { IsAppended (confirmed service []) apdu.old apdu.new result }
{
    put_slice(apdu, &[0x00, 0x05, INVOKE, service])
}

/// Appends the request.
fn put_request(apdu: &mut Vec<u8>, deed: &Deed<'_>) -> Result<(), AllocError>
    ensures { OnOk result (apdu.new.items ≡ apdu.old.items ++ request_apdu deed.now) }
{
    match deed {
        Deed::Read(request) => {
            put_header(apdu, READ_PROPERTY)?;
            encode_read(request, apdu)
        }
        Deed::Write(request) => {
            put_header(apdu, WRITE_PROPERTY)?;
            encode_write(request, apdu)
        }
        Deed::Serve(service) => put_header(apdu, *service),
    }
}

/// Appends the answer to a read, of the value Null.
fn put_read_answer(apdu: &mut Vec<u8>, request: &ReadReq) -> Result<(), AllocError>
    ensures { OnOk result (apdu.new.items ≡ apdu.old.items ++ read_answer (read_view request.now)) }
{
    write_complex(apdu, INVOKE, READ_PROPERTY)?;
    write_read_answer_head(apdu, request)?;
    put_octet(apdu, NULL)?;
    write_read_answer_tail(apdu)
}

/// Whether a service that is done says more than that (clauses 13 to 17).
fn has_result(service: u8) -> bool
    ensures { result ≡ has_result service }
{
    WITH_RESULT.iter().any(|other| *other == service)
}

/// Appends the answer of a service that is done: a result of no octets where it has one.
fn put_served(apdu: &mut Vec<u8>, service: u8) -> Result<(), AllocError>
    ensures { OnOk result (apdu.new.items ≡ apdu.old.items ++ served_answer service) }
{
    if has_result(service) {
        write_complex(apdu, INVOKE, service)
    } else {
        write_simple(apdu, INVOKE, service)
    }
}

/// Appends the answer to a request that is done.
fn put_answer(apdu: &mut Vec<u8>, deed: &Deed<'_>) -> Result<(), AllocError>
    ensures { OnOk result (apdu.new.items ≡ apdu.old.items ++ answer_apdu deed.now) }
{
    match deed {
        Deed::Read(request) => put_read_answer(apdu, request),
        Deed::Write(_) => write_simple(apdu, INVOKE, WRITE_PROPERTY),
        Deed::Serve(service) => put_served(apdu, *service),
    }
}

/// How a station names itself as a source: not at all, unless a router is between.
pub fn source_of(station: &Station) -> Option<AddressRef<'_>>
    ensures { option_map address_view result ≡ source_of station.now }
{
    if station.is_routed {
        Some(AddressRef {
            network: station.place.net.get(),
            mac: station.place.mac.as_slice(),
        })
    } else {
        None
    }
}

/// The message by which a station sends an APDU to another place.
fn message_of<'a>(from: &'a Station, to: &'a Source, is_request: bool, apdu: &'a [u8]) -> Npdu<'a>
    ensures { npdus.view result ≡ message_of from.now to.now is_request apdu.now }
{
    Npdu {
        destination: Some(Destination {
            network: to.net.get(),
            mac: to.mac.as_slice(),
            hops: Destination::WHOLE_HOP_COUNT,
        }),
        source: source_of(from),
        reply_expected: is_request,
        priority: Priority::Normal,
        payload: Payload::Apdu(apdu),
    }
}

/// The octets of a message. An `Err` also if it would be too long, as none of a question is.
pub fn carried(alloc: Global, message: &Npdu<'_>) -> Result<Vec<u8>, AllocError>
    ensures octets { IfOk result (λ octets. octets.items ≡ npdus.encoding (npdus.view message.now)) }
    ensures read { IfOk result (λ octets. npdu_at octets.items ≡ Ok (npdus.view message.now)) }
{
    gw_frames::npdu::laws::read_again();
    let mut octets = Vec::new(alloc);
    match encode_npdu(message, &mut octets) {
        Ok(()) => Ok(octets),
        Err(_) => Err(AllocError),
    }
}

/// The octets of a frame. An `Err` also if it would be too long, as none of a question is.
pub fn framed(alloc: Global, frame: &Bvll<'_>) -> Result<Vec<u8>, AllocError>
    ensures octets { IfOk result (λ octets. octets.items ≡ frames.encoding (frames.view frame.now)) }
    ensures read { IfOk result (λ octets. bvll_at octets.items ≡ Ok (frames.view frame.now)) }
{
    gw_frames::bvll::laws::one_to_one();
    let mut octets = Vec::new(alloc);
    match encode_frame(frame, &mut octets) {
        Ok(()) => Ok(octets),
        Err(_) => Err(AllocError),
    }
}

/// The Original-Unicast-NPDU that carries a message (Annex J.2.11).
pub fn datagram_of(alloc: Global, message: &Npdu<'_>) -> Result<Vec<u8>, AllocError>
    ensures octets { IfOk result (λ octets. octets.items ≡ datagram_of (npdus.view message.now)) }
    ensures read { IfOk result (λ octets. IsDatagram (npdus.view message.now) octets.items) }
{
    let octets = carried(alloc, message)?;
    let datagram = framed(alloc, &Bvll::OriginalUnicast(&octets))?;
    Ok(datagram)
}

/// The datagram by which a station asks: its octets are read as this request.
pub fn make_request(alloc: Global, question: &Question<'_>) -> Result<Vec<u8>, AllocError>
    ensures octets { IfOk result (λ octets. octets.items ≡ datagram_of (request_of question.now)) }
    ensures read { IfOk result (λ octets. IsDatagram (request_of question.now) octets.items) }
{
    let mut apdu = Vec::new(alloc);
    put_request(&mut apdu, &question.deed)?;
    let place = question.target.place();
    datagram_of(alloc, &message_of(&question.asker, &place, true, &apdu))
}

/// The datagram by which a station answers a request that is done: its octets are read as this answer.
pub fn make_answer(
    alloc: Global,
    question: &Question<'_>,
    station: &Station,
) -> Result<Vec<u8>, AllocError>
    ensures octets { IfOk result (λ octets. octets.items ≡ datagram_of (answer_of question.now station.now)) }
    ensures read { IfOk result (λ octets. IsDatagram (answer_of question.now station.now) octets.items) }
{
    let mut apdu = Vec::new(alloc);
    put_answer(&mut apdu, &question.deed)?;
    datagram_of(
        alloc,
        &message_of(station, &question.asker.place, false, &apdu),
    )
}
