//! NPDUs that go on, or that the gateway makes, and how they are sent.

ghost use Rattle.std.specs.Prelude.{◌≡◌, ◌++◌, nat_le, false, None, OnOk};
ghost use Rattle.gw_frames.specs.npdu.Kind.{kind_number};
ghost use Rattle.gw_frames.specs.npdu.Npdu.{view as npdu_view, payload_view};
ghost use Rattle.gw_relay.specs.Route.{is_kind, made};
ghost use Rattle.gw_relay.specs.internal.Passing.{broadcast_of, unicast_of};

use crate::outgoing::Outgoing;
use crate::port::PortState;
use crate::sends::{Batch, Sends};
use gw_addr::BipAddr;
use gw_frames::npdu::{MessageKind, NetMessage, Npdu, Payload, Priority};
use std::alloc::AllocError;

/// Whether a payload is a network layer message of a type (clause 6.2.4).
pub(crate) fn is_kind(payload: &Payload<'_>, kind: MessageKind) -> bool
    ensures { result ≡ is_kind kind (payload_view payload.now) }
{
    match payload {
        Payload::Apdu(_) => false,
        Payload::Message(message) => message.kind == kind.number(),
    }
}

/// A network layer message that the gateway makes, without destination and source (clause 6.4).
#[inline(always)]
pub(crate) fn message_of<'a>(kind: MessageKind, octets: &'a [u8]) -> Npdu<'a>
    requires { nat_le 128 (kind_number kind) ≡ false }
    ensures { npdu_view result ≡ made None None kind octets.now }
{
    Npdu {
        destination: None,
        source: None,
        reply_expected: false,
        priority: Priority::Normal,
        payload: Payload::Message(NetMessage {
            kind: kind.number(),
            vendor: None,
            octets,
        }),
    }
}

/// Adds an NPDU to one address, if there is one.
#[inline(always)]
pub(crate) fn add_unicast(
    port: u8,
    to: BipAddr,
    npdu: Option<Outgoing>,
    sends: &mut Sends,
) -> Result<(), AllocError>
    ensures { OnOk result (sends.new ≡ sends.old ++ unicast_of port to npdu) }
{
    match npdu {
        Some(npdu) => sends.push(Batch::to_one(port, to, npdu.into_unicast())),
        None => Ok(()),
    }
}

impl PortState {
    /// Adds a broadcast by the gateway of an NPDU, if there is one.
    pub(crate) fn add_broadcast(
        &self,
        npdu: Option<Outgoing>,
        sends: &mut Sends,
    ) -> Result<(), AllocError>
        ensures { OnOk result (sends.new ≡ sends.old ++ broadcast_of npdu self.now) }
    {
        match npdu {
            Some(npdu) => self.add_spread(npdu, sends),
            None => Ok(()),
        }
    }
}
