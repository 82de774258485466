//! Reading an APDU: its header, of one of eight types, and the octets after it.

ghost use Rattle.std.specs.Prelude.{◌≡◌, ◌↔◌, List, ℕ, Some, None, IfOk, IsOkAnd, IsErrOf};
ghost use Rattle.gw_addr.specs.Reading.{Gives};
ghost use Rattle.gw_codecs.specs.apdu.Numbers.{segmented_bit, more_bit};
ghost use Rattle.gw_codecs.specs.apdu.Apdu.{Fields, IsApdu, HasUnknownType, IsShort, view, code_of, is_set};
ghost use Rattle.gw_codecs.specs.apdu.Reading.{segment_at, confirmed_at, complex_ack_at, header_at, apdu_at, service_at};

use crate::apdu::fault::ApduFault;
use crate::apdu::header::{Apdu, ConfirmedRequest, Header, Segment};
use crate::apdu::pdu_type::PduType;
use gw_addr::octet;

/// Bit 3 of the first octet: the message is one segment of several.
const SEGMENTED: u8 = 0x08;
/// Bit 2: more segments follow.
const MORE_FOLLOWS: u8 = 0x04;
/// Bit 1: the client takes a segmented response.
const ACCEPTS_SEGMENTS: u8 = 0x02;

/// A header, and the octets after it.
type Found<'a> = Result<(Header, &'a [u8]), ApduFault>;

/// Whether this bit of the octet is set.
fn is_set(octet: u8, worth: u8) -> bool
    ensures { result ≡ is_set octet worth }
{
    octet & worth == worth
}

/// The number of a segment and the window, if the first octet says that they follow.
fn segment(first: u8, octets: &[u8]) -> Result<(Option<Segment>, &[u8]), ApduFault>
    ensures { Gives (λ x. (x.0, x.1.now)) result
        (segment_at (is_set first segmented_bit) (is_set first more_bit) octets.now) }
{
    if !is_set(first, SEGMENTED) {
        return Ok((None, octets));
    }
    let (sequence, rest) = octet(ApduFault::Short, octets)?;
    let (window, rest) = octet(ApduFault::Short, rest)?;
    let segment = Segment {
        more_follows: is_set(first, MORE_FOLLOWS),
        sequence,
        window,
    };
    Ok((Some(segment), rest))
}

fn confirmed(first: u8, octets: &[u8]) -> Found<'_>
    ensures { Gives (λ x. (x.0, x.1.now)) result (confirmed_at first octets.now) }
{
    let (sizes, rest) = octet(ApduFault::Short, octets)?;
    let (invoke, rest) = octet(ApduFault::Short, rest)?;
    let (segment, rest) = segment(first, rest)?;
    let (service, rest) = octet(ApduFault::Short, rest)?;
    let request = ConfirmedRequest {
        segment,
        accepts_segments: is_set(first, ACCEPTS_SEGMENTS),
        max_segments: sizes >> 4 & 0x07,
        max_apdu: sizes & 0x0F,
        invoke,
        service,
    };
    Ok((Header::ConfirmedRequest(request), rest))
}

fn complex_ack(first: u8, octets: &[u8]) -> Found<'_>
    ensures { Gives (λ x. (x.0, x.1.now)) result (complex_ack_at first octets.now) }
{
    let (invoke, rest) = octet(ApduFault::Short, octets)?;
    let (segment, rest) = segment(first, rest)?;
    let (service, rest) = octet(ApduFault::Short, rest)?;
    let header = Header::ComplexAck {
        segment,
        invoke,
        service,
    };
    Ok((header, rest))
}

/// The header of a type after its first octet.
fn header(pdu_type: PduType, first: u8, octets: &[u8]) -> Found<'_>
    ensures { Gives (λ x. (x.0, x.1.now)) result (header_at pdu_type first octets.now) }
{
    match pdu_type {
        PduType::ConfirmedRequest => confirmed(first, octets),
        PduType::UnconfirmedRequest => {
            let (service, rest) = octet(ApduFault::Short, octets)?;
            Ok((Header::UnconfirmedRequest { service }, rest))
        }
        PduType::SimpleAck => {
            let (invoke, rest) = octet(ApduFault::Short, octets)?;
            let (service, rest) = octet(ApduFault::Short, rest)?;
            Ok((Header::SimpleAck { invoke, service }, rest))
        }
        PduType::ComplexAck => complex_ack(first, octets),
        PduType::SegmentAck => {
            let (invoke, rest) = octet(ApduFault::Short, octets)?;
            let (sequence, rest) = octet(ApduFault::Short, rest)?;
            let (window, rest) = octet(ApduFault::Short, rest)?;
            let header = Header::SegmentAck {
                invoke,
                sequence,
                window,
            };
            Ok((header, rest))
        }
        PduType::Error => {
            let (invoke, rest) = octet(ApduFault::Short, octets)?;
            let (service, rest) = octet(ApduFault::Short, rest)?;
            Ok((Header::Error { invoke, service }, rest))
        }
        PduType::Reject => {
            let (invoke, rest) = octet(ApduFault::Short, octets)?;
            let (reason, rest) = octet(ApduFault::Short, rest)?;
            Ok((Header::Reject { invoke, reason }, rest))
        }
        PduType::Abort => {
            let (invoke, rest) = octet(ApduFault::Short, octets)?;
            let (reason, rest) = octet(ApduFault::Short, rest)?;
            Ok((Header::Abort { invoke, reason }, rest))
        }
    }
}

/// The APDU, said by the reading function alone.
#[inline(always)]
fn whole(octets: &[u8]) -> Result<Apdu<'_>, ApduFault>
    ensures { Gives (λ a. view a) result (apdu_at octets.now) }
{
    let (first, rest) = octet(ApduFault::Short, octets)?;
    let pdu_type = PduType::of_first(first)?;
    let (header, rest) = header(pdu_type, first, rest)?;
    Ok(Apdu { header, rest })
}

/// Reads the octets as one APDU (ISO 16484-5, clause 20.1): its header, and the octets after it,
/// which are lent. Bits of the first two octets that the header has no name for are ignored.
///
/// # Errors
///
/// 1 `Short` and 2 `Kind`, as [`ApduFault`] says. `Kind` is judged by the first octet alone.
#[inline(always)]
pub fn decode(octets: &[u8]) -> Result<Apdu<'_>, ApduFault>
    // What is read is what the octets are.
    ensures found { IfOk result (λ a. IsApdu octets.now (view a)) }
    // What the octets are is read.
    ensures only { (f : Fields) → IsApdu octets.now f → IsOkAnd result (λ a. view a ≡ f) }
    // What is wrong with octets that are no APDU.
    ensures short { IsErrOf result ApduFault.Short ↔ IsShort octets.now }
    ensures kind { IsErrOf result ApduFault.Kind ↔ HasUnknownType octets.now }
    // The answer as a function of the octets.
    ensures exact { Gives (λ a. view a) result (apdu_at octets.now) }
{
    whole(octets)
}

fn code(octets: &[u8]) -> Option<u16>
    ensures { result ≡ service_at octets.now }
{
    let apdu = whole(octets).ok()?;
    Some(apdu.header.service_code())
}

/// The number by which rules name what an APDU asks for ([`Header::service_code`]). `None` if
/// the octets are no APDU.
pub fn service_code(octets: &[u8]) -> Option<u16>
    ensures some { (f : Fields) → IsApdu octets.now f → result ≡ Some (code_of f.header) }
    ensures none { (result ≡ None) ↔ ((f : Fields) → ¬ IsApdu octets.now f) }
    ensures exact { result ≡ service_at octets.now }
{
    code(octets)
}
