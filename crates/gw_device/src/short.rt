//! Short answers: errors, rejects and aborts, and the abort in the place of what is too long.

ghost use Rattle.std.specs.Prelude.{◌≡◌, ◌+◌, ◌≤◌, ℕ, List, [], length, nat_le, vec_capacity, vec_len, IfOk, OnOk};
ghost use Rattle.gw_codecs.specs.apdu.Answers.{abort, error, reject, simple_ack};
ghost use Rattle.gw_codecs.specs.apdu.Reasons.{segmentation_not_supported};
ghost use Rattle.gw_device.specs.Response.{fits, fitted, header_room, with_room};

use crate::{Context, HEADER_ROOM};
use gw_addr::put_slice;
use gw_codecs::apdu::{
    AbortReason, ConfirmedRequest, RejectReason, ServiceError, write_abort, write_error,
    write_reject, write_simple,
};
use std::alloc::AllocError;
use std::mem;

/// How many octets a buffer for an answer has room for at least: as many as one for any message that is sent, so that
/// each is used again for the other.
pub const BUFFER_ROOM: usize = 1000;

/// An empty buffer with the room for an answer: the spare one if it has that room, or else a new one. `AllocError` where
/// its memory was refused; an answer that is longer makes it grow.
#[inline(always)]
fn empty_buffer(spare: &mut Vec<u8>) -> Result<Vec<u8>, AllocError>
    ensures empty { IfOk result (λ octets. octets.items ≡ []) }
    ensures least { IfOk result (λ octets. BUFFER_ROOM ≤ vec_capacity octets) }
    ensures most { IfOk result (λ octets. vec_capacity octets ≤ vec_capacity spare.old + BUFFER_ROOM) }
{
    let alloc = *spare.allocator();
    if spare.capacity() < BUFFER_ROOM {
        return Vec::with_capacity(alloc, BUFFER_ROOM);
    }
    let mut octets = mem::replace(spare, Vec::new(alloc));
    octets.clear();
    Ok(octets)
}

/// A buffer with the room for headers, and with memory for an APDU: the spare one, if it has that. `AllocError` where
/// memory was refused.
#[inline(always)]
pub(crate) fn begin_apdu(spare: &mut Vec<u8>) -> Result<Vec<u8>, AllocError>
    ensures { IfOk result (λ octets. octets.items ≡ header_room) }
{
    let mut octets = empty_buffer(spare)?;
    put_slice(&mut octets, &[0; HEADER_ROOM])?;
    Ok(octets)
}

/// The octets of an Error, in the spare buffer, after the room for headers. `AllocError` if memory was refused.
pub(crate) fn error(
    spare: &mut Vec<u8>,
    invoke: u8,
    service: u8,
    why: ServiceError,
) -> Result<Vec<u8>, AllocError>
    ensures { IfOk result (λ octets. octets.items ≡ with_room (error invoke service why)) }
{
    let mut octets = begin_apdu(spare)?;
    write_error(&mut octets, invoke, service, why)?;
    Ok(octets)
}

/// The octets of a Reject, in the spare buffer, after the room for headers. `AllocError` if memory was refused.
pub(crate) fn reject(
    spare: &mut Vec<u8>,
    invoke: u8,
    reason: RejectReason,
) -> Result<Vec<u8>, AllocError>
    ensures { IfOk result (λ octets. octets.items ≡ with_room (reject invoke reason.0)) }
{
    let mut octets = begin_apdu(spare)?;
    write_reject(&mut octets, invoke, reason)?;
    Ok(octets)
}

/// The octets of an Abort, in the spare buffer, after the room for headers. `AllocError` if memory was refused.
pub(crate) fn abort(
    spare: &mut Vec<u8>,
    invoke: u8,
    reason: AbortReason,
) -> Result<Vec<u8>, AllocError>
    ensures { IfOk result (λ octets. octets.items ≡ with_room (abort invoke reason.0)) }
{
    let mut octets = begin_apdu(spare)?;
    write_abort(&mut octets, invoke, reason)?;
    Ok(octets)
}

/// The octets of a SimpleACK, in the spare buffer, after the room for headers. `AllocError` if memory was refused.
pub(crate) fn simple_ack(
    spare: &mut Vec<u8>,
    invoke: u8,
    service: u8,
) -> Result<Vec<u8>, AllocError>
    ensures { IfOk result (λ octets. octets.items ≡ with_room (simple_ack invoke service)) }
{
    let mut octets = begin_apdu(spare)?;
    write_simple(&mut octets, invoke, service)?;
    Ok(octets)
}

/// How many octets a ComplexACK may have.
pub(crate) fn most_octets(request: &ConfirmedRequest, context: &Context) -> usize
    ensures { (ack : List ℕ) →
        nat_le (length ack) result ≡ fits request.now context.now ack }
{
    request.max_apdu_len().min(context.room)
}

/// An Abort of what is too long, in its buffer. `AllocError` where memory was refused.
pub(crate) fn abort_too_long(octets: Vec<u8>, invoke: u8) -> Result<Vec<u8>, AllocError>
    ensures octets { IfOk result (λ octets.
        octets.items ≡ with_room (abort invoke segmentation_not_supported)) }
    ensures room { IfOk result (λ octets. 10 ≤ vec_len octets) }
{
    let mut octets = octets;
    octets.clear();
    put_slice(&mut octets, &[0; HEADER_ROOM])?;
    write_abort(&mut octets, invoke, AbortReason::SEGMENTATION_NOT_SUPPORTED)?;
    Ok(octets)
}

/// A ComplexACK after the room for headers, or an Abort in its place if it is too long. `AllocError` if memory
/// was refused.
#[inline(always)]
pub(crate) fn fit(
    octets: Vec<u8>,
    request: &ConfirmedRequest,
    context: &Context,
) -> Result<Vec<u8>, AllocError>
    requires { 10 ≤ vec_len octets }
    ensures { (ack : List ℕ) → octets.items ≡ with_room ack → IfOk result (λ octets.
        octets.items ≡ with_room (fitted request.now context.now ack)) }
{
    if octets.len() - HEADER_ROOM <= most_octets(request, context) {
        return Ok(octets);
    }
    abort_too_long(octets, request.invoke)
}
