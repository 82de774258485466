//! What is asked of the policy.

ghost use Rattle.std.specs.Prelude.{◌≡◌};
ghost use Rattle.std.specs.Option.{option_map};
ghost use Rattle.gw_frames.specs.bvll.Bvll.{view as frame_view};
ghost use Rattle.gw_frames.specs.npdu.Npdu.{view as npdu_view, payload_view};
ghost use Rattle.gw_relay.specs.Asks.{bound_for, deleted_station, link_ask, management_of, message_ask, passing_ask};
ghost use Rattle.gw_relay.specs.Asks.{sender_of, service_of, station_key, station_of};
ghost use Rattle.gw_relay.specs.Message.{message_view};

use crate::message::Message;
use crate::port::Port;
use gw_addr::BipAddr;
use gw_frames::bvll::Bvll;
use gw_frames::npdu::{Npdu, Payload};
use gw_rules::{Ask, Format, Operation, Service};

/// What a frame is about to do with a table of its port, or `None` if it manages none.
pub(crate) fn management_of(frame: &Bvll<'_>) -> Option<Operation>
    ensures { result ≡ management_of (frame_view frame.now) }
{
    match frame {
        Bvll::WriteBdt(_) => Some(Operation::WriteTable),
        Bvll::ReadBdt | Bvll::ReadFdt => Some(Operation::ReadTable),
        Bvll::Register { .. } => Some(Operation::Register),
        Bvll::Delete(_) => Some(Operation::Delete),
        _ => None,
    }
}

/// An address as the key of a station, in a format that names stations.
fn station_key(format: Format, address: BipAddr) -> Option<u64>
    ensures { result ≡ station_key format address }
{
    if format.names_stations() {
        Some(address.key48())
    } else {
        None
    }
}

/// Who sent a datagram, in a format that names stations.
#[inline(always)]
pub fn sender_of(format: Format, from: BipAddr) -> Option<u64>
    ensures { result ≡ sender_of format from }
{
    station_key(format, from)
}

/// The one station that a message is bound for, in a format that names stations: a DADR of one to seven
/// octets, by its key.
fn station_of(format: Format, npdu: &Npdu<'_>) -> Option<u64>
    ensures { result ≡ station_of format (npdu_view npdu.now) }
{
    if !format.names_stations() {
        return None;
    }
    match &npdu.destination {
        Some(destination) => format.key_in(destination.mac),
        None => None,
    }
}

/// The station whose registration a frame is to delete, in a format that names stations.
fn deleted_station(format: Format, frame: &Bvll<'_>) -> Option<u64>
    ensures { result ≡ deleted_station format (frame_view frame.now) }
{
    match frame {
        Bvll::Delete(address) => station_key(format, *address),
        _ => None,
    }
}

/// The ask of a frame that manages a table.
pub(crate) fn link_ask(
    format: Format,
    port: &Port,
    from: BipAddr,
    frame: &Bvll<'_>,
    operation: Operation,
) -> Ask
    ensures { result ≡ link_ask format port.now from (frame_view frame.now) operation }
{
    Ask {
        port: Some(u64::from(port.number)),
        source_network: Some(u64::from(port.network.get())),
        source_key: Some(from.key48()),
        service: Some(Service::BvllFunction(frame.function().octet()).number()),
        sender: sender_of(format, from),
        station: deleted_station(format, frame),
        ..Ask::new(operation)
    }
}

/// The service of a payload, by which rules name it.
fn service_of(payload: &Payload<'_>) -> Option<u64>
    ensures { result ≡ service_of (payload_view payload.now) }
{
    match payload {
        Payload::Apdu(octets) => gw_codecs::apdu::service_code(octets).map(u64::from),
        Payload::Message(message) => Some(Service::NetworkMessage(message.kind).number()),
    }
}

/// The network that a message is bound for, if it names one.
pub(crate) fn bound_for(npdu: &Npdu<'_>) -> Option<u16>
    ensures { result ≡ bound_for (npdu_view npdu.now) }
{
    match &npdu.destination {
        Some(destination) => Some(destination.network),
        None => None,
    }
}

impl Message<'_> {
    /// The ask of a message that goes to that network, if it names one: it comes from the source that
    /// the message claims.
    #[inline(always)]
    pub(crate) fn ask(&self, format: Format, operation: Operation, destination: Option<u16>) -> Ask
        ensures { result ≡ message_ask format operation (message_view self.now) destination }
    {
        Ask {
            port: Some(u64::from(self.here.port.number)),
            source_network: Some(u64::from(self.source_network())),
            source_key: self.source_key(format),
            destination_network: destination.map(u64::from),
            service: service_of(&self.npdu.payload),
            sender: sender_of(format, self.from),
            ..Ask::new(operation)
        }
    }

    /// The ask of a message that is passed on, which has the station that it is bound for.
    #[inline(always)]
    pub(crate) fn passing_ask(
        &self,
        format: Format,
        operation: Operation,
        destination: Option<u16>,
    ) -> Ask
        ensures { result ≡ passing_ask format operation (message_view self.now) destination }
    {
        Ask {
            station: station_of(format, self.npdu),
            ..self.ask(format, operation, destination)
        }
    }
}
