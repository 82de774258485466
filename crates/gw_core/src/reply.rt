//! The message that an APDU for the device comes in, and those that carry its answer (clause
//! 6.2.2).

ghost use Rattle.std.specs.Prelude.{◌≡◌, ℕ, ◌+◌, ◌<◌, ◌≤◌, ◌^◌, ◌++◌, [], ◌∷◌, length, take, drop};
ghost use Rattle.std.specs.Prelude.{IfOk, IsOk, OnOk, None, Ok, true, false, vec_capacity, vec_len};
ghost use Rattle.std.specs.Int.{w16, to_be_bytes};
ghost use Rattle.std.specs.Option.{option_map};
ghost use Rattle.gw_device.specs.Response.{answer_view};
ghost use Rattle.gw_frames.specs.npdu.Npdu.{destination_part, destination_view, hops_part, payload_view, address_view};
ghost use Rattle.gw_frames.specs.npdu.Npdu.{encoding, max_header_len, priority_of, view as npdu_view};
ghost use Rattle.gw_frames.specs.npdu.Numbers.{max_len};
ghost use Rattle.gw_core.specs.Effects.{answer_sends};
ghost use Rattle.gw_frames.specs.bvll.Bvll.{original_unicast};
ghost use Rattle.gw_frames.specs.bvll.Bvll.{encoding as bvll_encoding};
ghost use Rattle.gw_relay.specs.Steps.{broadcast, npdu_octets, unicast};
ghost use Rattle.gw_core.specs.Reply.{apdu_for, apdu_of, context_of, goes_to_all, is_broadcast, is_device};
ghost use Rattle.gw_core.specs.Reply.{is_local_broadcast, reply_npdu, max_reply_apdu};
ghost use Rattle.gw_core.specs.Reply.{reply_destination};
ghost use Rattle.gw_core.specs.internal.Replies.{local_reply};
ghost use Rattle.gw_relay.specs.Message.{message_view};

use gw_addr::NetNum;
use gw_device::{Answer, Context, HEADER_ROOM};
use gw_frames::bvll::{BVLC_TYPE, HEADER_LEN, set_length};
use gw_frames::npdu::{AddressRef, Control, Destination, Npdu, Payload, Priority};
use gw_relay::{Batch, KEPT_ROOM, Message, Sends, sender_of};
use gw_rules::Format;
use std::alloc::AllocError;

/// The one station of the device's network.
const DEVICE_STATION: u8 = 1;
/// The function of an Original-Unicast-NPDU (Annex J.2.11).
const ORIGINAL_UNICAST: u8 = 0x0A;
/// An Original-Unicast-NPDU without an NPDU.
const EMPTY_UNICAST: [u8; HEADER_LEN] = [BVLC_TYPE, ORIGINAL_UNICAST, 0x00, 0x04];
/// The version of the network layer (clause 6.2.1).
const NPDU_VERSION: u8 = 1;
/// How many octets the header of a reply has that names its source alone: the version, the control octet, and the
/// device's network and station (clause 6.2.2).
const LOCAL_HEADER: usize = 6;
/// How many octets name the way back beside the station's address: its network, its address's length and the hop count
/// (clause 6.2.2).
const WAY_BACK: usize = 4;
/// How many octets most replies have before the APDU, so that a buffer seldom grows.
const REPLY_HEADERS: usize = 32;
// The buffer of an answer is used again for any message, and that of a message for an answer.
const _: () = prove!(gw_device::BUFFER_ROOM == gw_relay::BUFFER_ROOM);

/// Whether a destination is every network, or every station of the device's.
fn is_broadcast(network: NetNum, destination: &Destination<'_>) -> bool
    ensures { result ≡ is_broadcast network (destination_view destination.now) }
{
    destination.network == Destination::EVERY_NETWORK
        || (destination.network == network.get() && destination.mac.is_empty())
}

/// Whether a destination is the device alone.
fn is_device(network: NetNum, destination: &Destination<'_>) -> bool
    ensures { result ≡ is_device network (destination_view destination.now) }
{
    destination.network == network.get() && matches!(destination.mac, [DEVICE_STATION])
}

fn apdu_of<'a>(payload: &Payload<'a>) -> Option<&'a [u8]>
    ensures { option_map (λ a. a.now) result ≡ apdu_of (payload_view payload.now) }
{
    match payload {
        Payload::Apdu(octets) => Some(octets),
        Payload::Message(_) => None,
    }
}

/// The APDU that a message has for the device.
pub fn apdu_for<'a>(network: NetNum, npdu: &Npdu<'a>) -> Option<&'a [u8]>
    ensures { option_map (λ a. a.now) result ≡ apdu_for network (npdu_view npdu.now) }
{
    match &npdu.destination {
        Some(destination)
            if is_device(network, destination) || is_broadcast(network, destination) => {
            apdu_of(&npdu.payload)
        }
        _ => None,
    }
}

fn goes_to_all(network: NetNum, destination: &Option<Destination<'_>>) -> bool
    ensures { result ≡ goes_to_all network (option_map destination_view destination.now) }
{
    match destination {
        None => false,
        Some(destination) => is_broadcast(network, destination),
    }
}

/// The way back to the station that asked, or to everyone on its network.
fn reply_destination<'a>(
    broadcast: bool,
    source: &Option<AddressRef<'a>>,
) -> Option<Destination<'a>>
    ensures { option_map destination_view result
        ≡ option_map (reply_destination broadcast) (option_map address_view source.now) }
{
    match source {
        None => None,
        Some(address) => Some(Destination {
            network: address.network,
            mac: if broadcast { &[] } else { address.mac },
            hops: Destination::WHOLE_HOP_COUNT,
        }),
    }
}

/// The NPDU that carries an APDU of the device back.
fn reply_npdu<'a>(network: NetNum, request: &Npdu<'a>, apdu: &'a [u8], broadcast: bool) -> Npdu<'a>
    ensures { npdu_view result ≡ reply_npdu network (npdu_view request.now)
        (record { apdu = apdu.now; broadcast = broadcast }) }
{
    Npdu {
        destination: reply_destination(broadcast, &request.source),
        source: Some(AddressRef {
            network: network.get(),
            mac: &[DEVICE_STATION],
        }),
        reply_expected: false,
        priority: request.priority,
        payload: Payload::Apdu(apdu),
    }
}

/// How many octets of a reply's header name its way back: the destination and the hop count, or none if the station
/// that asked is a node of the port's own network.
fn way_back_len(source: &Option<AddressRef<'_>>) -> usize
    ensures len { let back = option_map (reply_destination false) (option_map address_view source.now) in
        result ≡ length (destination_part back) + length (hops_part back) }
    ensures most { result ≤ 259 }
{
    match source {
        None => 0,
        Some(address) => WAY_BACK + address.mac.len(),
    }
}

/// How many octets the APDU may have that goes back to the station that asked.
fn max_reply_apdu(request: &Npdu<'_>) -> usize
    ensures room { (network : ℕ) → result ≡ max_reply_apdu network (npdu_view request.now) }
    ensures least { max_len ≤ result + max_header_len }
{
    gw_frames::npdu::MAX_LEN - LOCAL_HEADER - way_back_len(&request.source)
}

/// What the device knows of a message.
pub fn context_of(format: Format, network: NetNum, message: &Message<'_>) -> Context
    ensures context { result ≡ context_of format network (message_view message.now) }
    ensures room { max_len ≤ result.room + max_header_len }
{
    Context {
        port: message.here.port.number,
        source_network: message.source_network(),
        source_key: message.source_key(format),
        sender: sender_of(format, message.from),
        broadcast: goes_to_all(network, &message.npdu.destination),
        room: max_reply_apdu(message.npdu),
    }
}

/// Appends an Original-Unicast-NPDU that brings no NPDU yet.
fn put_frame(out: &mut Vec<u8>) -> Result<(), AllocError>
    ensures { OnOk result (out.new.items ≡ out.old.items ++ bvll_encoding (original_unicast [])) }
{
    out.extend_from_slice(&EMPTY_UNICAST)
}

/// Appends the NPDU that carries an answer back. It answers whether that was done: not where it
/// would be over 1497 octets.
fn put_npdu(
    out: &mut Vec<u8>,
    network: NetNum,
    request: &Npdu<'_>,
    answer: &Answer,
) -> Result<bool, AllocError>
    ensures put { let npdu = reply_npdu network (npdu_view request.now) (answer_view answer.now) in
        OnOk result (result ≡ Ok true → out.new.items ≡ out.old.items ++ encoding npdu) }
    ensures within { let npdu = reply_npdu network (npdu_view request.now) (answer_view answer.now) in
        result ≡ Ok true → length (encoding npdu) ≤ max_len }
    ensures no_room { let npdu = reply_npdu network (npdu_view request.now) (answer_view answer.now) in
        result ≡ Ok false → max_len < length (encoding npdu) }
{
    let npdu = reply_npdu(network, request, answer.apdu(), answer.broadcast);
    match gw_frames::npdu::encode(&npdu, out) {
        Ok(()) => Ok(true),
        Err(gw_frames::npdu::EncodeFault::TooLong) => Ok(false),
        Err(gw_frames::npdu::EncodeFault::Memory) => Err(AllocError),
    }
}

/// An empty buffer of the sends with memory for an answer to a node behind a router: for its octets, and for those that
/// most replies have before it.
fn routed_buffer(sends: &mut Sends, answer: &Answer) -> Result<Vec<u8>, AllocError>
    ensures empty { IfOk result (λ octets. octets.items ≡ []) }
    ensures room { let most = 32 + vec_len answer.now.octets in
        IfOk result (λ octets. vec_capacity octets ≤ most + KEPT_ROOM) }
    ensures stays { sends.new ≡ sends.old }
{
    sends.buffer(REPLY_HEADERS + answer.octets.len())
}

/// The datagram of an answer to a node behind a router, in a buffer of the sends. None if the NPDU would be over
/// 1497 octets.
fn routed_octets(
    sends: &mut Sends,
    network: NetNum,
    request: &Npdu<'_>,
    answer: &Answer,
) -> Result<Option<Vec<u8>>, AllocError>
    ensures stays { sends.new ≡ sends.old }
    ensures octets { let npdu = reply_npdu network (npdu_view request.now) (answer_view answer.now) in
        IfOk result (λ made. option_map (λ v. v.items) made
        ≡ option_map (λ octets. bvll_encoding (original_unicast octets)) (npdu_octets npdu)) }
{
    let mut octets = routed_buffer(sends, answer)?;
    put_frame(&mut octets)?;
    if !put_npdu(&mut octets, network, request, answer)? {
        return Ok(None);
    }
    set_length(octets.as_mut_slice());
    Ok(Some(octets))
}

/// Writes the headers of an answer to a node of the port's own network into the room before its APDU: those of an
/// Original-Unicast-NPDU (Annex J.2.11) and of an NPDU that names its source alone (clause 6.2.2).
fn set_local_headers(octets: &mut [u8], network: NetNum, priority: Priority)
    requires least { 10 ≤ length octets.old }
    requires most { length octets.old < 2 ^ 16 }
    ensures { let npdu = local_reply network (priority_of priority) (drop 10 octets.old) in
        octets.new ≡ bvll_encoding (original_unicast (encoding npdu)) }
{
    let [len_high, len_low] = (octets.len() as u16).to_be_bytes();
    let [network_high, network_low] = network.get().to_be_bytes();
    let control = Control::SOURCE.0 + priority.number();
    octets[..HEADER_ROOM].copy_from_slice(&[
        BVLC_TYPE,
        ORIGINAL_UNICAST,
        len_high,
        len_low,
        NPDU_VERSION,
        control,
        network_high,
        network_low,
        1,
        DEVICE_STATION,
    ]);
}

/// The datagram of an answer to a node of the port's own network, in the answer's buffer. None where the NPDU would be
/// over 1497 octets.
fn local_octets(network: NetNum, priority: Priority, answer: Answer) -> Option<Vec<u8>>
    ensures { let npdu = local_reply network (priority_of priority) (answer_view answer).apdu in
        option_map (λ v. v.items) result
        ≡ option_map (λ octets. bvll_encoding (original_unicast octets)) (npdu_octets npdu) }
{
    let mut octets = answer.octets;
    if octets.len() > HEADER_LEN + gw_frames::npdu::MAX_LEN {
        return None;
    }
    set_local_headers(octets.as_mut_slice(), network, priority);
    Some(octets)
}

/// The datagram of an answer to one address: the frame's header, the NPDU and its APDU. None where the NPDU would be
/// over 1497 octets.
#[inline(always)]
fn reply_octets(
    sends: &mut Sends,
    network: NetNum,
    request: &Npdu<'_>,
    answer: Answer,
) -> Result<Option<Vec<u8>>, AllocError>
    ensures stays { sends.new ≡ sends.old }
    ensures octets { let npdu = reply_npdu network (npdu_view request.now) (answer_view answer) in
        IfOk result (λ made. option_map (λ v. v.items) made
        ≡ option_map (λ octets. bvll_encoding (original_unicast octets)) (npdu_octets npdu)) }
{
    if request.source.is_none() {
        return Ok(local_octets(network, request.priority, answer));
    }
    routed_octets(sends, network, request, &answer)
}

/// Whether an answer goes to everyone on the port's network.
fn is_local_broadcast(request: &Npdu<'_>, answer: &Answer) -> bool
    ensures { result ≡ is_local_broadcast (npdu_view request.now) (answer_view answer.now) }
{
    answer.broadcast && request.source.is_none()
}

/// Appends the sends of an answer to a message, if there is one. An `Err` only if a growth of memory
/// was refused, and none without an answer; a part may then be added.
#[inline(always)]
pub(crate) fn add_answer(
    network: NetNum,
    message: &Message<'_>,
    answer: Option<Answer>,
    sends: &mut Sends,
) -> Result<(), AllocError>
    ensures sends { let due = answer_sends network (message_view message.now) (option_map answer_view answer) in
        OnOk result (sends.new ≡ sends.old ++ due) }
    ensures silent { answer ≡ None → IsOk result }
{
    let Some(answer) = answer else {
        return Ok(());
    };
    let goes_to_all = is_local_broadcast(message.npdu, &answer);
    let Some(octets) = reply_octets(sends, network, message.npdu, answer)? else {
        return Ok(());
    };
    if goes_to_all {
        message.here.spread(octets, sends)
    } else {
        let port = message.here.port.number;
        sends.push(Batch::to_one(port, message.link(), octets))
    }
}
