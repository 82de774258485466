//! The messages that the gateway sends for an NPDU, each written once, into one buffer.

ghost use Rattle.std.specs.Prelude.{◌≡◌, ◌+◌, ◌≤◌, ◌∷◌, [], drop, length, vec_capacity, vec_len, IfOk};
ghost use Rattle.gw_frames.specs.bvll.Bvll.{encoding, original_broadcast, original_unicast};
ghost use Rattle.gw_frames.specs.npdu.Npdu.{view as npdu_view};
ghost use Rattle.gw_frames.specs.npdu.Numbers.{max_len};
ghost use Rattle.gw_frames.specs.npdu.Onward.{onward, onward_view};
ghost use Rattle.gw_relay.specs.Steps.{npdu_octets};
ghost use Rattle.gw_relay.specs.internal.Outgoing.{framed};

use crate::octets::set_header;
use crate::sends::{KEPT_ROOM, Sends};
use gw_frames::bvll::{Function, HEADER_LEN};
use gw_frames::npdu::{EncodeFault, Npdu, Onward};
use std::alloc::AllocError;
use std::marker::Model;

/// The most octets that come before a payload: the four of the BVLL header (Annex J.2), and of the
/// NPDU version and control, two addresses of 255 octets, the hop count, the message type and the
/// vendor (clause 6.2.2).
const MOST_HEADERS: usize = HEADER_LEN + 2 + (3 + 255) + (3 + 255) + 1 + 3;

/// An NPDU of at most 1497 octets, in the buffer of the message that brings it: after four octets
/// that are kept for the BVLL header, which is written once the length is known. Contracts see the
/// octets of the NPDU.
#[derive(Drop)]
pub(crate) struct Outgoing {
    octets: Vec<u8>,
}

impl Model for Outgoing {
    ghost use Rattle.std.specs.Prelude.{ℕ, ◌≤◌, List, length, drop};

    ghost Value = { List ℕ };

    ghost view = { λ o. drop 4 o.octets.items };

    ghost invariant = { λ o. (4 ≤ length o.octets.items) × (length o.octets.items ≤ 1501) };
}

impl Outgoing {
    /// A message for its next hop, in a buffer of the sends; none if it would be over 1497 octets.
    pub(crate) fn onward(
        sends: &mut Sends,
        npdu: &Npdu<'_>,
        how: &Onward<'_>,
    ) -> Result<Option<Self>, AllocError>
        ensures made { let next = onward (onward_view how.now) (npdu_view npdu.now) in
            IfOk result (λ made. made ≡ npdu_octets next) }
        ensures stays { sends.new ≡ sends.old }
    {
        let payload = npdu.payload.octets();
        let mut octets = buffer(sends, payload)?;
        match gw_frames::npdu::relay_header(npdu, how, payload.len(), &mut octets) {
            Ok(()) => {
                octets.extend_from_slice(payload)?;
                Ok(Some(Outgoing { octets }))
            }
            Err(EncodeFault::TooLong) => Ok(None),
            Err(EncodeFault::Memory) => Err(AllocError),
        }
    }

    /// A message that the gateway makes, in a buffer of the sends; none if it would be over 1497 octets.
    #[inline(always)]
    pub(crate) fn made(sends: &mut Sends, npdu: &Npdu<'_>) -> Result<Option<Self>, AllocError>
        ensures made { IfOk result (λ made. made ≡ npdu_octets (npdu_view npdu.now)) }
        ensures stays { sends.new ≡ sends.old }
    {
        let mut octets = buffer(sends, npdu.payload.octets())?;
        match gw_frames::npdu::encode(npdu, &mut octets) {
            Ok(()) => Ok(Some(Outgoing { octets })),
            Err(EncodeFault::TooLong) => Ok(None),
            Err(EncodeFault::Memory) => Err(AllocError),
        }
    }

    /// The NPDU in a buffer, after its first four octets.
    pub(crate) fn in_buffer(octets: Vec<u8>) -> Self
        requires least { 4 ≤ vec_len octets }
        requires most { vec_len octets ≤ 1501 }
        ensures { result ≡ drop 4 octets.items }
    {
        Outgoing { octets }
    }

    /// The octets of the NPDU.
    pub(crate) fn npdu(&self) -> &[u8]
        ensures npdu { result.now ≡ self.now }
        ensures most { length self.now ≤ max_len }
    {
        &self.octets[HEADER_LEN..]
    }

    /// The octets of the Original-Unicast-NPDU that brings it (Annex J.2.11).
    pub(crate) fn into_unicast(self) -> Vec<u8>
        ensures octets { result.items ≡ encoding (original_unicast self) }
        ensures most { length self ≤ max_len }
    {
        self.into_frame(Function::OriginalUnicast)
    }

    /// The octets of the Original-Broadcast-NPDU that brings it (Annex J.2.12).
    pub(crate) fn into_broadcast(self) -> Vec<u8>
        ensures octets { result.items ≡ encoding (original_broadcast self) }
        ensures most { length self ≤ max_len }
    {
        self.into_frame(Function::OriginalBroadcast)
    }

    /// The octets of the message with this function that brings it.
    fn into_frame(self, function: Function) -> Vec<u8>
        ensures octets { result.items ≡ framed function self }
        ensures most { length self ≤ max_len }
    {
        let mut octets = self.octets;
        set_header(octets.as_mut_slice(), function);
        octets
    }
}

/// An empty buffer of the sends with memory for a payload after any headers.
#[inline(always)]
fn empty_buffer(sends: &mut Sends, payload: &[u8]) -> Result<Vec<u8>, AllocError>
    ensures empty { IfOk result (λ octets. octets.items ≡ []) }
    ensures room { let most = 526 + length payload.now in
        IfOk result (λ octets. vec_capacity octets ≤ most + KEPT_ROOM) }
    ensures stays { sends.new ≡ sends.old }
{
    sends.buffer(MOST_HEADERS + payload.len())
}

/// A buffer of the sends that keeps four octets for the BVLL header, and has room for any headers before this
/// payload.
#[inline(always)]
fn buffer(sends: &mut Sends, payload: &[u8]) -> Result<Vec<u8>, AllocError>
    ensures octets { IfOk result (λ octets. octets.items ≡ 0 ∷ 0 ∷ 0 ∷ 0 ∷ []) }
    ensures stays { sends.new ≡ sends.old }
{
    let mut octets = empty_buffer(sends, payload)?;
    octets.extend_from_slice(&[0; HEADER_LEN])?;
    Ok(octets)
}
