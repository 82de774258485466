//! What the gateway makes of a datagram before any policy is asked (Annex J.2, clause 6.2).

ghost use Rattle.std.specs.Prelude.{◌≡◌, ◌==◌, Err};
ghost use Rattle.std.specs.List.{list_any};
ghost use Rattle.std.specs.Option.{option_map};
ghost use Rattle.gw_frames.specs.bvll.Bvll.{view as frame_view};
ghost use Rattle.gw_addr.specs.Reading.{Gives};
ghost use Rattle.gw_frames.specs.bvll.Reading.{bvll_at};
ghost use Rattle.gw_frames.specs.npdu.Npdu.{address_view, view as npdu_view};
ghost use Rattle.gw_frames.specs.declared.npdu.fault.NpduFault.TheVariants.{Short};
ghost use Rattle.gw_core.specs.Receive.{claims_direct, comes_in, is_direct, manages, payload_of, receive_on, receive_payload};
ghost use Rattle.gw_core.specs.internal.Frame.{frame_npdu, npdu_in, unread_drop};
ghost use Rattle.gw_core.specs.Drops.{drop_on, length_drop, payload_drop};
ghost use Rattle.gw_core.specs.internal.View.{drop_view, received_view};

use crate::drops::DropReason;
use gw_addr::laws::one_to_one;
use gw_addr::{BipAddr, NetNum};
use gw_frames::bvll::{Bvll, BvllFault};
use gw_frames::npdu::{AddressRef, Npdu, NpduFault};
use gw_relay::{Message, PortState, TableMessage, port_at};

/// The longest datagram that is heard, in octets.
const MAX_DATAGRAM: usize = gw_frames::bvll::MAX_LEN;
/// The longest NPDU that is heard, in octets.
const MAX_NPDU: usize = gw_frames::npdu::MAX_LEN;

/// A datagram, and where it came.
#[derive(Clone, Copy)]
pub struct Arrival<'a> {
    /// The number of the port that it came on, from 1.
    pub port: u8,
    /// Whom it came from.
    pub from: BipAddr,
    /// Its octets.
    pub octets: &'a [u8],
}

/// The networks that the gateway itself is on.
#[derive(Clone, Copy)]
struct OwnNetworks<'a> {
    /// The ports with their tables, in order.
    ports: &'a [PortState],
    /// The number of the device's network.
    device: u16,
}

/// What a datagram is received as.
#[derive(Clone, Copy)]
pub enum Received<'a> {
    /// Nothing, for this reason: it has no sends and no denials, and changes nothing.
    Dropped(DropReason),
    /// A frame that reads or changes a table of its port (Annex J.2.2, J.2.3, J.2.6 to J.2.8).
    Managed(TableMessage<'a>),
    /// A message of the network layer. Whether it is heard, and no unregistered sender's, is judged when it is
    /// passed on.
    Message(Message<'a>),
}

/// Whether a datagram is of a length that is heard, and not the port's own.
fn comes_in(own: BipAddr, from: BipAddr, octets: &[u8]) -> bool
    ensures { result ≡ comes_in own from octets.now }
{
    one_to_one();
    octets.len() <= MAX_DATAGRAM && !own.is_same(from)
}

/// Why a datagram is dropped that doesn't come in.
fn length_drop(own: BipAddr, from: BipAddr) -> DropReason
    ensures { result ≡ length_drop own from }
{
    one_to_one();
    if own.is_same(from) {
        DropReason::Ignored
    } else {
        DropReason::Malformed
    }
}

/// Whether a frame reads or changes a table of its port.
fn manages(frame: &Bvll<'_>) -> bool
    ensures { result ≡ manages (frame_view frame.now) }
{
    matches!(
        frame,
        Bvll::WriteBdt(_) | Bvll::ReadBdt | Bvll::Register { .. } | Bvll::ReadFdt | Bvll::Delete(_)
    )
}

/// The NPDU that a frame brings.
fn payload_of<'a>(frame: &Bvll<'a>) -> Option<&'a [u8]>
    ensures { option_map (λ p. p.now) result ≡ payload_of (frame_view frame.now) }
{
    match frame {
        Bvll::Forwarded { npdu, .. }
        | Bvll::Distribute(npdu)
        | Bvll::OriginalUnicast(npdu)
        | Bvll::OriginalBroadcast(npdu) => Some(npdu),
        _ => None,
    }
}

impl OwnNetworks<'_> {
    /// Whether a network is the device's or a port's.
    fn contains(&self, network: u16) -> bool
        ensures { result ≡ is_direct self.now.ports.now self.now.device network }
    {
        network == self.device || self.is_a_ports(network)
    }

    fn is_a_ports(&self, network: u16) -> bool
        ensures { result ≡ list_any (λ state. state.port.network == network) self.now.ports.now }
    {
        self.ports
            .iter()
            .any(|state| state.port.network.get() == network)
    }

    /// Whether a source is claimed on one of these networks.
    fn are_claimed(&self, source: &Option<AddressRef<'_>>) -> bool
        ensures { let claimed = option_map address_view source.now in
            result ≡ claims_direct self.now.ports.now self.now.device claimed }
    {
        match source {
            None => false,
            Some(address) => self.contains(address.network),
        }
    }
}

/// Reads the NPDU that a frame brings into its place, where it stays. It is an `Err` if there is no frame, if the frame
/// brings none, and if the NPDU has more than 1497 octets or can't be read.
#[inline(always)]
pub(crate) fn read_npdu<'a>(
    frame: &Result<Bvll<'a>, BvllFault>,
    npdu: &mut Result<Npdu<'a>, NpduFault>,
)
    ensures { Gives npdu_view npdu.new (npdu_in frame.now) }
{
    match frame {
        Ok(frame) => match payload_of(frame) {
            Some(octets) if octets.len() <= MAX_NPDU => { gw_frames::npdu::decode_to(octets, npdu) }
            _ => set_unread(npdu),
        },
        Err(_) => set_unread(npdu),
    }
}

/// Writes into its place that no NPDU was read. If that is there, nothing is written.
#[inline(always)]
fn set_unread(npdu: &mut Result<Npdu<'_>, NpduFault>)
    ensures { Gives npdu_view npdu.new (Err Short) }
{
    if !matches!(npdu, Err(NpduFault::Short)) {
        *npdu = Err(NpduFault::Short);
    }
}

/// Why a frame is dropped that manages no table and whose NPDU isn't read: it brings none, or one that is too long or
/// unreadable.
fn unread_drop(frame: &Bvll<'_>) -> DropReason
    ensures { result ≡ unread_drop (frame_view frame.now) }
{
    match payload_of(frame) {
        Some(_) => DropReason::Malformed,
        None => DropReason::Ignored,
    }
}

/// What a frame is received as that manages no table, with the NPDU that it brings if it was read.
#[inline(always)]
fn receive_payload<'a>(
    own: &OwnNetworks<'_>,
    here: &'a PortState,
    from: BipAddr,
    frame: &'a Bvll<'a>,
    npdu: &'a Result<Npdu<'a>, NpduFault>,
) -> Received<'a>
    requires { Gives npdu_view npdu.now (frame_npdu (frame_view frame.now)) }
    ensures received { let frame = frame_view frame.now in
        received_view result ≡ receive_payload own.now.ports.now own.now.device here.now from frame }
    ensures drop { let frame = frame_view frame.now in
        drop_view result ≡ payload_drop own.now.ports.now own.now.device here.now from frame }
{
    match npdu {
        Ok(npdu) if !own.are_claimed(&npdu.source) => Received::Message(Message {
            here,
            from,
            frame,
            npdu,
        }),
        Ok(_) => Received::Dropped(DropReason::OwnNetwork),
        Err(_) => Received::Dropped(unread_drop(frame)),
    }
}

/// What a datagram is received as, with the frame that its octets are and the NPDU that this brings: both stay where
/// they were read.
#[inline(always)]
pub(crate) fn receive<'a>(
    ports: &'a [PortState],
    device: NetNum,
    arrival: &Arrival<'_>,
    frame: &'a Result<Bvll<'a>, BvllFault>,
    npdu: &'a Result<Npdu<'a>, NpduFault>,
) -> Received<'a>
    requires frame { Gives frame_view frame.now (bvll_at arrival.now.octets.now) }
    requires npdu { Gives npdu_view npdu.now (npdu_in frame.now) }
    ensures received { let a = arrival.now in
        received_view result ≡ receive_on ports.now device a.port a.from a.octets.now }
    ensures drop { let a = arrival.now in
        drop_view result ≡ drop_on ports.now device a.port a.from a.octets.now }
{
    let Some(here) = port_at(ports, usize::from(arrival.port)) else {
        return Received::Dropped(DropReason::Ignored);
    };
    if !comes_in(here.port.address, arrival.from, arrival.octets) {
        return Received::Dropped(length_drop(here.port.address, arrival.from));
    }
    let Ok(frame) = frame else {
        return Received::Dropped(DropReason::Malformed);
    };
    let from = arrival.from;
    if manages(frame) {
        return Received::Managed(TableMessage { here, from, frame });
    }
    let own = OwnNetworks {
        ports,
        device: device.get(),
    };
    receive_payload(&own, here, from, frame, npdu)
}

impl Received<'_> {
    /// Why it is dropped, if it is: also a message that isn't heard.
    pub(crate) fn drop_reason(&self) -> Option<DropReason>
        ensures { result ≡ drop_view self.now }
    {
        match self {
            Received::Dropped(why) => Some(*why),
            Received::Managed(_) => None,
            Received::Message(message) if message.here.accepts(message.from, message.frame) => None,
            Received::Message(_) => Some(DropReason::NoPeer),
        }
    }
}
